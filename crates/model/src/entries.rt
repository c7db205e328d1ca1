// The tests of refusals 3 to 10: the entries of the lent parts. Each is the definition's test of the same name.
#![tactic(auto, using(crate::proofs::Laws::place_in, crate::proofs::Laws::place_most, crate::proofs::Laws::other), unfolding(definition::specs::Refusals::bad_system, definition::specs::Refusals::bad_start, definition::specs::Refusals::not_psd, definition::specs::Refusals::negative_at, definition::specs::Refusals::off_at, definition::specs::Refusals::shape_at, definition::specs::Refusals::shape_of, definition::specs::Refusals::driven_at))]

ghost use Rattle.std.specs.Prelude.{◌≡◌, map, ◌<◌, length};
ghost use Rattle.definition.specs.Num.{ent};
ghost use Rattle.definition.specs.Run.{any_of};
ghost use Rattle.definition.specs.Inputs.{is_flagged, is_infinity, class_of};
ghost use Rattle.definition.specs.Refusals.{
  bad_system,
  bad_start,
  negative,
  not_psd,
  off_at,
  off_row,
  off_diagonal,
  shape_at,
  shape_row,
  shape_of,
  bad_flag,
  start_shape,
  driven_at,
  driven_row,
  mixed_driven,
};
ghost use Rattle.model.specs.Places.{Square, Row, Place, SystemFits, StartGiven};

use promise::{Model, Offsets};

// ---- lists

// 3: an entry is NaN or an infinity, in a design, H, a transition, R or Q.
pub fn bad_system(x: &Model) -> bool
    ensures { result ≡ bad_system x.now.z.now x.now.zs.now x.now.h.now x.now.t.now x.now.ts.now x.now.rr.now x.now.q.now }
{
    dense::not_finite(x.z)
        | dense::not_finite(x.zs)
        | dense::not_finite(x.h)
        | dense::not_finite(x.t)
        | dense::not_finite(x.ts)
        | dense::not_finite(x.rr)
        | dense::not_finite(x.q)
}

// 6: the same in c, d, a1 or P*.
pub fn bad_start(x: &Model, o: &Offsets) -> bool
    ensures { result ≡ bad_start o.now.c.now o.now.d.now o.now.a1.now x.now.p_star.now }
{
    dense::not_finite(o.c)
        | dense::not_finite(o.d)
        | dense::not_finite(o.a1)
        | dense::not_finite(x.p_star)
}

// 9: some reading is infinite. A NaN is a gap, and passes.
pub fn any_infinite(y: &[f64]) -> bool
    ensures { result ≡ any_of is_infinity (map class_of y.now) }
{
    dense::any_of(y, |v| float::is_infinite(v))
}

// Some flag is above 1.
fn bad_flag(flags: &[u8]) -> bool
    ensures { result ≡ any_of bad_flag flags.now }
{
    dense::any_of(flags, |flag| 1 < flag)
}

// ---- square matrices

// Entry (i, j) of a k by k matrix.
fn entry(a: &[f64], k: usize, i: usize, j: usize) -> f64
    requires { Place k (length a.now) i j }
    ensures { result ≡ ent k a.now i j }
{
    a[i * k + j]
}

pub fn is_flagged(flags: &[u8], i: usize) -> bool
    requires { i < length flags.now }
    ensures { result ≡ is_flagged flags.now i }
{
    flags[i] == 1
}

// Some diagonal entry is below 0; neither zero is.
fn negative(a: &[f64], k: usize) -> bool
    requires { Square k (length a.now) }
    ensures { result ≡ negative k a.now }
{
    dense::any(k, |i| entry(a, k, i, i) < 0.0)
}

// 4: of H or Q.
pub fn not_psd(x: &Model) -> bool
    requires { SystemFits x.now.p x.now.r (length x.now.h.now) (length x.now.q.now) }
    ensures { result ≡ not_psd x.now.p x.now.h.now x.now.r x.now.q.now }
{
    negative(x.h, x.p) | negative(x.q, x.r)
}

// Entry (i, j) is off the diagonal, and is not 0.
fn off_at(a: &[f64], k: usize, i: usize, j: usize) -> bool
    requires { Place k (length a.now) i j }
    ensures { result ≡ off_at k a.now i j }
{
    (i != j) & (entry(a, k, i, j) != 0.0)
}

// Such an entry stands in row i.
fn off_row(a: &[f64], k: usize, i: usize) -> bool
    requires { Row k (length a.now) i }
    ensures { result ≡ off_row k a.now i }
{
    dense::any(k, |j| off_at(a, k, i, j))
}

// 5 and 8: such an entry stands anywhere.
pub fn off_diagonal(a: &[f64], k: usize) -> bool
    requires { Square k (length a.now) }
    ensures { result ≡ off_diagonal k a.now }
{
    dense::any(k, |i| off_row(a, k, i))
}

// ---- the start

// P* is not mirrored at (i, j), or state i is flagged and has a number there, in its row or its column.
fn shape_at(x: &Model, i: usize, j: usize) -> bool
    requires { Place x.now.m (length x.now.p_star.now) i j × (length x.now.flags.now ≡ x.now.m) }
    ensures { result ≡ shape_at x.now.m x.now.p_star.now x.now.flags.now i j }
{
    let v = entry(x.p_star, x.m, i, j);
    let w = entry(x.p_star, x.m, j, i);
    (v != w) | is_flagged(x.flags, i) & !((v == 0.0) & (w == 0.0))
}

// The same at any j.
fn shape_row(x: &Model, i: usize) -> bool
    requires { Row x.now.m (length x.now.p_star.now) i × (length x.now.flags.now ≡ x.now.m) }
    ensures { result ≡ shape_row x.now.m x.now.p_star.now x.now.flags.now i }
{
    dense::any(x.m, |j| shape_at(x, i, j))
}

// State i: a negative diagonal entry of P*, a start mean beside its flag, or a bad row.
fn shape_of(x: &Model, a1: &[f64], i: usize) -> bool
    requires { Row x.now.m (length x.now.p_star.now) i × (length x.now.flags.now ≡ x.now.m) × (length a1.now ≡ x.now.m) }
    ensures { result ≡ shape_of x.now.m x.now.p_star.now x.now.flags.now a1.now i }
{
    let below = entry(x.p_star, x.m, i, i) < 0.0;
    below | is_flagged(x.flags, i) & (a1[i] != 0.0) | shape_row(x, i)
}

// 7: a bad flag, or such a state.
pub fn start_shape(x: &Model, a1: &[f64]) -> bool
    requires { StartGiven x.now.m (length a1.now) (length x.now.p_star.now) (length x.now.flags.now) }
    ensures { result ≡ start_shape x.now.m x.now.p_star.now x.now.flags.now a1.now }
{
    bad_flag(x.flags) | dense::any(x.m, |i| shape_of(x, a1, i))
}

// ---- T

// T drives state i, which is not flagged, by state j, which is.
fn driven_at(t: &[f64], flags: &[u8], m: usize, i: usize, j: usize) -> bool
    requires { Place m (length t.now) i j × (length flags.now ≡ m) }
    ensures { result ≡ driven_at m t.now flags.now i j }
{
    !is_flagged(flags, i) & is_flagged(flags, j) & (entry(t, m, i, j) != 0.0)
}

// The same at any j.
fn driven_row(t: &[f64], flags: &[u8], m: usize, i: usize) -> bool
    requires { Row m (length t.now) i × (length flags.now ≡ m) }
    ensures { result ≡ driven_row m t.now flags.now i }
{
    dense::any(m, |j| driven_at(t, flags, m, i, j))
}

// 10: the same of any state.
pub fn mixed_driven(t: &[f64], flags: &[u8], m: usize) -> bool
    requires { Square m (length t.now) × (length flags.now ≡ m) }
    ensures { result ≡ mixed_driven m t.now flags.now }
{
    dense::any(m, |i| driven_row(t, flags, m, i))
}
