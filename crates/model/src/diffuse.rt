// The diffuse start by the flags: P∞ is 1 on the diagonal at each flag, and column j of its root belongs to the j-th
// flagged state.
ghost use Rattle.std.specs.Prelude.{◌≡◌, cond, ◌≤◌, ◌<◌, ◌+◌, length, eqb};
ghost use Rattle.definition.specs.Num.{0ᶠ, 1ᶠ};
ghost use Rattle.definition.specs.Run.{any_of};
ghost use Rattle.definition.specs.Inputs.{start_inf, start_root};
ghost use Rattle.dense.specs.Views.{mat};

use crate::entries;

fn one_if(b: bool) -> f64
    ensures { result ≡ cond b 1ᶠ 0ᶠ }
{
    if b { 1.0 } else { 0.0 }
}

// Some state is diffuse.
pub fn any_flag(flags: &[u8]) -> bool
    ensures { result ≡ any_of (eqb 1) flags.now }
{
    dense::any_of(flags, |flag| 1 == flag)
}

// P∞.
pub fn diffuse_cov(flags: &[u8], m: usize) -> [f64; 64]
    requires { (m ≤ 8) × (length flags.now ≡ m) }
    ensures { mat m result ≡ start_inf m flags.now }
{
    let mut out = [0.0; 64];
    dense::matrix_into(
        &mut out,
        m,
        m,
        |i, j| one_if((i == j) & entries::is_flagged(flags, i)),
    );
    out
}

// A root of P∞: `column` is how many flags stand before state i.
pub fn diffuse_root(flags: &[u8], m: usize) -> [f64; 64]
    requires { (m ≤ 8) × (length flags.now ≡ m) }
    ensures { mat m result ≡ start_root m flags.now }
{
    let mut out = [0.0; 64];
    let mut column: usize = 0;
    for i in 0..m {
        let flagged = entries::is_flagged(flags, i);
        for j in 0..m {
            let v = one_if(flagged & (column == j));
            dense::put(&mut out, m, i, j, v);
        }
        column += flagged as usize;
    }
    out
}
