// dense.rs, a matrix with a matrix: A B, A B', A' B, A', T P T' and A' N B, over the places of crates/dense. Every sum is document 01's.
// Each product of two also tells whether all of it is finite; a transpose and a product of three do not.
#![tactic(auto)]

ghost use Rattle.std.specs.Prelude.{◌≡◌, ℕ, List, Float, ◌≤◌, ◌<◌};
ghost use Rattle.definition.specs.Num.{tabulate, ent};
ghost use Rattle.definition.specs.Dense.{product, product_at, mul, transposed, transpose, sandwich, quad};
ghost use Rattle.dense.specs.Views.{vec, mat, rect};
ghost use Rattle.dense.specs.Places.{Sizes, Entry, Cell};
ghost use Rattle.dense.specs.Told.{Told};
ghost use Rattle.products.specs.Rows.{row_more_at, turned};

// How a product reads a factor of r rows and c columns: as it lies, or turned.
trait Seen {
    ghost view: { ℕ → ℕ → List Float → List Float };

    fn at(a: &[f64; 64], r: usize, c: usize, i: usize, j: usize) -> f64
        requires { Cell r c i j }
        ensures { result ≡ ent c (view r c a.now) i j };
}

struct Plain;

impl Seen for Plain {
    ghost view = { rect };

    fn at(a: &[f64; 64], r: usize, c: usize, i: usize, j: usize) -> f64 {
        dense::cell(a, r, c, i, j)
    }
}

// It lies with c rows and r columns.
struct Turned;

impl Seen for Turned {
    ghost view = { turned };

    fn at(a: &[f64; 64], r: usize, c: usize, i: usize, j: usize) -> f64 {
        dense::cell(a, c, r, j, i)
    }
}

fn entry<A: Seen, B: Seen>(
    a: &[f64; 64],
    b: &[f64; 64],
    r: usize,
    k: usize,
    c: usize,
    i: usize,
    j: usize,
) -> f64
    requires { Entry r k c i j }
    ensures { result ≡ product_at k c (A.view r k a.now) (B.view k c b.now) i j }
{
    dense::sum(
        k,
        |l|
            requires { Entry r k c i j × (l < k) }
        { A::at(a, r, k, i, l) * B::at(b, k, c, l, j) },
    )
}

fn product<A: Seen, B: Seen>(
    out: &mut [f64; 64],
    a: &[f64; 64],
    b: &[f64; 64],
    r: usize,
    k: usize,
    c: usize,
) -> bool
    requires { Sizes r k c }
    ensures { Told (product r k c (A.view r k a.now) (B.view k c b.now)) (rect r c out.new) result }
{
    dense::matrix_into(out, r, c, |i, j| entry::<A, B>(a, b, r, k, c, i, j));
    !dense::rect_not_finite(out, r, c)
}

// A B, of r rows, k inner places and c columns.
pub fn product_into(
    out: &mut [f64; 64],
    a: &[f64; 64],
    b: &[f64; 64],
    r: usize,
    k: usize,
    c: usize,
) -> bool
    requires { Sizes r k c }
    ensures { Told (product r k c (rect r k a.now) (rect k c b.now))
        (rect r c out.new) result }
{
    product::<Plain, Plain>(out, a, b, r, k, c)
}

// A B', of r rows, k inner places and c columns: B has c rows and k columns.
pub fn product_t_into(
    out: &mut [f64; 64],
    a: &[f64; 64],
    b: &[f64; 64],
    r: usize,
    k: usize,
    c: usize,
) -> bool
    requires { Sizes r k c }
    ensures { Told (product r k c (rect r k a.now) (transpose c k (rect c k b.now)))
        (rect r c out.new) result }
{
    product::<Plain, Turned>(out, a, b, r, k, c)
}

// A' B, of r rows, k inner places and c columns: A has k rows and r columns.
pub fn t_product_into(
    out: &mut [f64; 64],
    a: &[f64; 64],
    b: &[f64; 64],
    r: usize,
    k: usize,
    c: usize,
) -> bool
    requires { Sizes r k c }
    ensures { Told (product r k c (transpose k r (rect k r a.now)) (rect k c b.now))
        (rect r c out.new) result }
{
    product::<Turned, Plain>(out, a, b, r, k, c)
}

// A', of an A of r rows and c columns.
pub fn transpose(a: &[f64; 64], r: usize, c: usize) -> [f64; 64]
    requires { (r ≤ 8) × (c ≤ 8) }
    ensures { rect c r result ≡ transpose r c (rect r c a.now) }
{
    let mut out = [0.0; 64];
    dense::matrix_into(&mut out, c, r, |i, j| dense::cell(a, r, c, j, i));
    out
}

// ---- square products row by row: the same sums in the same order, with the places of a row side by side

// r and x times row l of B.
fn add_row(r: &mut [f64; 8], x: f64, b: &[f64; 64], m: usize, l: usize)
    requires { (m ≤ 8) × (l < m) }
    ensures { vec m r.new ≡ tabulate m (row_more_at m x (mat m b.now) l (vec m r.old)) }
{
    for j in 0..m {
        r[j] = r[j] + x * dense::get(b, m, l, j);
    }
}

// Row i of the product.
fn product_row<A: Seen>(a: &[f64; 64], b: &[f64; 64], m: usize, i: usize) -> [f64; 8]
    requires { (m ≤ 8) × (i < m) }
    ensures { vec m result ≡ tabulate m (product_at m m (A.view m m a.now) (mat m b.now) i) }
{
    let mut r = [0.0; 8];
    for l in 0..m {
        add_row(&mut r, A::at(a, m, m, i, l), b, m, l);
    }
    r
}

fn product_rows<A: Seen>(out: &mut [f64; 64], a: &[f64; 64], b: &[f64; 64], m: usize)
    requires { m ≤ 8 }
    ensures { mat m out.new ≡ mul m (A.view m m a.now) (mat m b.now) }
{
    for i in 0..m {
        let r = product_row::<A>(a, b, m, i);
        for j in 0..m {
            dense::put(out, m, i, j, dense::nth(&r, m, j));
        }
    }
}

// A B of m by m, or A' B. In the frequent sizes the compiler knows the size.
fn mul_sized<A: Seen>(out: &mut [f64; 64], a: &[f64; 64], b: &[f64; 64], m: usize)
    requires { m ≤ 8 }
    ensures { mat m out.new ≡ mul m (A.view m m a.now) (mat m b.now) }
{
    match m {
        1 => product_rows::<A>(out, a, b, 1),
        2 => product_rows::<A>(out, a, b, 2),
        4 => product_rows::<A>(out, a, b, 4),
        8 => product_rows::<A>(out, a, b, 8),
        _ => product_rows::<A>(out, a, b, m),
    }
}

// Both, and whether all of it is finite. The look has a short function of its own, which the compiler puts into its caller, and there leaves the look out
// where nobody asks. In mul_sized, which stands on its own, an empty loop would be left of it.
pub fn mul_into(out: &mut [f64; 64], a: &[f64; 64], b: &[f64; 64], m: usize) -> bool
    requires { m ≤ 8 }
    ensures { Told (mul m (mat m a.now) (mat m b.now)) (mat m out.new) result }
{
    mul_sized::<Plain>(out, a, b, m);
    !dense::matrix_not_finite(out, m)
}

pub fn t_mul_into(out: &mut [f64; 64], a: &[f64; 64], b: &[f64; 64], m: usize) -> bool
    requires { m ≤ 8 }
    ensures { Told (mul m (transposed m (mat m a.now)) (mat m b.now))
        (mat m out.new) result }
{
    mul_sized::<Turned>(out, a, b, m);
    !dense::matrix_not_finite(out, m)
}

// T P T', as (T P) T'.
pub fn sandwich_into(out: &mut [f64; 64], t: &[f64; 64], p: &[f64; 64], m: usize)
    requires { m ≤ 8 }
    ensures { mat m out.new ≡ sandwich m (mat m t.now) (mat m p.now) }
{
    let mut tp = [0.0; 64];
    product_into(&mut tp, t, p, m, m, m);
    product_t_into(out, &tp, t, m, m, m);
}

// The same in place. `tp` is room for T P.
pub fn sandwich_in_place(p: &mut [f64; 64], t: &[f64; 64], tp: &mut [f64; 64], m: usize)
    requires { m ≤ 8 }
    ensures { mat m p.new ≡ sandwich m (mat m t.now) (mat m p.old) }
{
    mul_sized::<Plain>(tp, t, p, m);
    product_t_into(p, tp, t, m, m, m);
}

pub fn sandwich(t: &[f64; 64], p: &[f64; 64], m: usize) -> [f64; 64]
    requires { m ≤ 8 }
    ensures { mat m result ≡ sandwich m (mat m t.now) (mat m p.now) }
{
    let mut out = [0.0; 64];
    sandwich_into(&mut out, t, p, m);
    out
}

// A' N B, as (A' N) B.
pub fn quad_into(out: &mut [f64; 64], a: &[f64; 64], n: &[f64; 64], b: &[f64; 64], m: usize)
    requires { m ≤ 8 }
    ensures { mat m out.new ≡ quad m (mat m a.now) (mat m n.now) (mat m b.now) }
{
    let mut an = [0.0; 64];
    mul_sized::<Turned>(&mut an, a, n, m);
    mul_sized::<Plain>(out, &an, b, m);
}

pub fn quad(a: &[f64; 64], n: &[f64; 64], b: &[f64; 64], m: usize) -> [f64; 64]
    requires { m ≤ 8 }
    ensures { mat m result ≡ quad m (mat m a.now) (mat m n.now) (mat m b.now) }
{
    let mut out = [0.0; 64];
    quad_into(&mut out, a, n, b, m);
    out
}
