// smoother.rs, one element back through the covariances: N0, N1 and N2 from those after it; and L and K1, of which the means' way back takes entries
// too; and the period before one. Gains here multiply by 1 / F.
#![tactic(auto)]

ghost use Rattle.std.specs.Prelude.{◌≡◌, ◌≤◌, ◌+◌, ◌*◌, ◌-◌, Bool, cond, length};
ghost use Rattle.definition.specs.Dense.{plus, mul, quad, row};
ghost use Rattle.definition.specs.Cov.{usual};
ghost use Rattle.definition.specs.Smooth.{l_zero_at, l_zero, l_one_at, l_one, f_one, f_two, k_one, l_usual, l_diffuse, usual_n0, diffuse_n1, diffuse_n2, back_n};
ghost use Rattle.dense.specs.Views.{vec, mat};
ghost use Rattle.dense.specs.Places.{Within};
ghost use Rattle.laws.specs.Flat.{block_at};
ghost use Rattle.element_back.specs.View.{ns_of, diffuse_by, decided, Placed};

use promise::Kind;

// What the covariances' way back carries from an element to the one before it: N0, N1 and N2.
#[derive(Clone, Copy)]
pub struct Sums {
    pub n0: [f64; 64],
    pub n1: [f64; 64],
    pub n2: [f64; 64],
}

// What was decided of a diffuse element: F*, F∞, M* and M∞.
#[derive(Clone, Copy)]
pub struct Gains<'a> {
    pub f: f64,
    pub f_inf: f64,
    pub m_star: &'a [f64; 8],
    pub m_inf: &'a [f64; 8],
}

// The period before t: the step back from t takes its T, which led into t. Nothing reads the step back from period 0, and it takes the T of 0.
pub fn before(t: usize) -> usize
    ensures { result ≡ t - 1 }
{
    t.saturating_sub(1)
}

// Vector k of a lent list of vectors: a row of the design, a gain vector.
pub fn vector_at(list: &[f64], m: usize, k: usize) -> [f64; 8]
    requires { (m ≤ 8) × (k * m + m ≤ length list.now) }
    ensures { vec m result ≡ block_at m list.now k }
{
    let from = k * m;
    let to = from + m;
    dense::load(&list[from..to])
}

// F1 = 1 / F∞. It is also 1 / F* of a usual element.
pub fn f_one(f_inf: f64) -> f64
    ensures { result ≡ f_one f_inf }
{
    1.0 / f_inf
}

// F2 = - F* F1 F1.
fn f_two(f: f64, f_inf: f64) -> f64
    ensures { result ≡ f_two f f_inf }
{
    let f1 = f_one(f_inf);
    -f * f1 * f1
}

// Entry (i, j) of I - k z'.
pub fn l_zero_at(k: &[f64; 8], z: &[f64; 8], m: usize, i: usize, j: usize) -> f64
    requires { Within m i j }
    ensures { result ≡ l_zero_at (vec m k.now) (vec m z.now) i j }
{
    let x = dense::nth(k, m, i) * dense::nth(z, m, j);
    if i == j { 1.0 - x } else { 0.0 - x }
}

// Entry (i, j) of - k z'.
pub fn l_one_at(k: &[f64; 8], z: &[f64; 8], m: usize, i: usize, j: usize) -> f64
    requires { Within m i j }
    ensures { result ≡ l_one_at (vec m k.now) (vec m z.now) i j }
{
    -dense::nth(k, m, i) * dense::nth(z, m, j)
}

// I - k z'.
fn l_zero(k: &[f64; 8], z: &[f64; 8], m: usize) -> [f64; 64]
    requires { m ≤ 8 }
    ensures { mat m result ≡ l_zero m (vec m k.now) (vec m z.now) }
{
    let mut out = [0.0; 64];
    dense::matrix_into(&mut out, m, m, |i, j| l_zero_at(k, z, m, i, j));
    out
}

// - k z'.
fn l_one(k: &[f64; 8], z: &[f64; 8], m: usize) -> [f64; 64]
    requires { m ≤ 8 }
    ensures { mat m result ≡ l_one m (vec m k.now) (vec m z.now) }
{
    let mut out = [0.0; 64];
    dense::matrix_into(&mut out, m, m, |i, j| l_one_at(k, z, m, i, j));
    out
}

// K1 = M* F1 + M∞ F2.
pub fn k_one(g: &Gains, m: usize) -> [f64; 8]
    requires { m ≤ 8 }
    ensures { vec m result ≡ k_one m g.now.f g.now.f_inf (vec m g.now.m_star.now) (vec m g.now.m_inf.now) }
{
    let f1 = f_one(g.f_inf);
    let f2 = f_two(g.f, g.f_inf);
    dense::vector(
        m,
        |j| dense::nth(g.m_star, m, j) * f1 + dense::nth(g.m_inf, m, j) * f2,
    )
}

// L of a usual element by M* and F*, and L0 of a diffuse one by M∞ and F∞.
pub fn l_usual(z: &[f64; 8], f: f64, gain: &[f64; 8], m: usize) -> [f64; 64]
    requires { m ≤ 8 }
    ensures { mat m result ≡ l_usual m (vec m z.now) f (vec m gain.now) }
{
    let k = dense::scaled(gain, f_one(f), m);
    l_zero(&k, z, m)
}

// L1 of a diffuse element.
pub fn l_diffuse(z: &[f64; 8], g: &Gains, m: usize) -> [f64; 64]
    requires { m ≤ 8 }
    ensures { mat m result ≡ l_diffuse m (vec m z.now) g.now.f g.now.f_inf
        (vec m g.now.m_star.now) (vec m g.now.m_inf.now) }
{
    let k = k_one(g, m);
    l_one(&k, z, m)
}

// ---- through the covariances

// N0 = z z' / F + L' N0 L, of a usual element, in place: the sum's operands may change places.
fn usual_n0(n0: &mut [f64; 64], z: &[f64; 8], g: f64, l: &[f64; 64], m: usize)
    requires { m ≤ 8 }
    ensures { mat m n0.new ≡ usual_n0 m (vec m z.now) g (mat m l.now)
        (mat m n0.old) }
{
    let mut ln = [0.0; 64];
    products::t_mul_into(&mut ln, l, n0, m);
    products::mul_into(n0, &ln, l, m);
    let s = dense::outer_scaled(z, z, g, m);
    dense::add(n0, &s, m);
}

// N1 L, in a diffuse period alone.
fn usual_n1(n1: &mut [f64; 64], live: bool, l: &[f64; 64], m: usize)
    requires { m ≤ 8 }
    ensures { mat m n1.new ≡ cond live (mul m (mat m n1.old) (mat m l.now))
        (mat m n1.old) }
{
    if live {
        let mut x = [0.0; 64];
        products::product_into(&mut x, n1, l, m, m, m);
        *n1 = x;
    }
}

// A usual element. N2 stays.
fn back_usual(s: &mut Sums, live: bool, z: &[f64; 8], f: f64, m_star: &[f64; 8], m: usize)
    requires { m ≤ 8 }
    ensures { ns_of m s.new ≡ back_n m live (vec m z.now) (ns_of m s.old)
        (usual f (vec m m_star.now)) }
{
    let l = l_usual(z, f, m_star, m);
    usual_n0(&mut s.n0, z, f_one(f), &l, m);
    usual_n1(&mut s.n1, live, &l, m);
}

// A' N B, added to s. One function for all six, so that the caller's frame has no matrix for each of them.
fn add_quad(s: &mut [f64; 64], a: &[f64; 64], n: &[f64; 64], b: &[f64; 64], m: usize)
    requires { m ≤ 8 }
    ensures { mat m s.new ≡ plus m (mat m s.old)
        (quad m (mat m a.now) (mat m n.now) (mat m b.now)) }
{
    let q = products::quad(a, n, b, m);
    dense::add(s, &q, m);
}

// N1 = z z' F1 + L0' N1 L0 + L1' N0 L0.
fn diffuse_n1(
    after: &Sums,
    z: &[f64; 8],
    f1: f64,
    l0: &[f64; 64],
    l1: &[f64; 64],
    m: usize,
) -> [f64; 64]
    requires { m ≤ 8 }
    ensures { mat m result ≡ diffuse_n1 m (vec m z.now) f1
        (mat m l0.now) (mat m l1.now) (ns_of m after.now) }
{
    let mut s = dense::outer_scaled(z, z, f1, m);
    add_quad(&mut s, l0, &after.n1, l0, m);
    add_quad(&mut s, l1, &after.n0, l0, m);
    s
}

// N2 = z z' F2 + L0' N2 L0 + L0' N1 L1 + L1' N1' L0 + L1' N0 L1.
fn diffuse_n2(
    after: &Sums,
    z: &[f64; 8],
    f2: f64,
    l0: &[f64; 64],
    l1: &[f64; 64],
    m: usize,
) -> [f64; 64]
    requires { m ≤ 8 }
    ensures { mat m result ≡ diffuse_n2 m (vec m z.now) f2
        (mat m l0.now) (mat m l1.now) (ns_of m after.now) }
{
    let mut s = dense::outer_scaled(z, z, f2, m);
    add_quad(&mut s, l0, &after.n2, l0, m);
    add_quad(&mut s, l0, &after.n1, l1, m);
    let turned = products::transpose(&after.n1, m, m);
    add_quad(&mut s, l1, &turned, l0, m);
    add_quad(&mut s, l1, &after.n0, l1, m);
    s
}

// A diffuse element. N2 first and N0 last: each is worked out by itself and those below it, as they are after the element. So one is stored before the
// next is made, and a call's frame has no matrix for each.
fn back_diffuse(s: &mut Sums, z: &[f64; 8], g: &Gains, m: usize)
    requires { m ≤ 8 }
    ensures { (live : Bool) → ns_of m s.new ≡ back_n m live (vec m z.now) (ns_of m s.old) (diffuse_by m g.now) }
{
    let l0 = l_usual(z, g.f_inf, g.m_inf, m);
    let l1 = l_diffuse(z, g, m);
    s.n2 = diffuse_n2(s, z, f_two(g.f, g.f_inf), &l0, &l1, m);
    s.n1 = diffuse_n1(s, z, f_one(g.f_inf), &l0, &l1, m);
    s.n0 = products::quad(&l0, &s.n0, &l0, m);
}

// One element, by the kind that was decided: by its row i of the design, and by M* and M∞ at place k of the gain vectors. Of a skipped one nothing is read
// and nothing moves. The v in the kind is the means' alone.
pub fn back_element(
    s: &mut Sums,
    live: bool,
    kind: Kind,
    design: &[f64],
    m_star: &[f64],
    m_inf: &[f64],
    m: usize,
    i: usize,
    k: usize,
)
    requires { Placed m i k (length design.now) (length m_star.now) (length m_inf.now) }
    ensures { ns_of m s.new ≡ back_n m live (row m design.now i) (ns_of m s.old)
        (decided kind (block_at m m_star.now k) (block_at m m_inf.now k)) }
{
    match kind {
        Kind::Skipped(_) => {}
        Kind::Usual(_, f) => {
            let z = vector_at(design, m, i);
            let ms = vector_at(m_star, m, k);
            back_usual(s, live, &z, f, &ms, m);
        }
        Kind::Diffuse(_, f, f_inf) => {
            let z = vector_at(design, m, i);
            let ms = vector_at(m_star, m, k);
            let mi = vector_at(m_inf, m, k);
            let g = Gains {
                f,
                f_inf,
                m_star: &ms,
                m_inf: &mi,
            };
            back_diffuse(s, &z, &g, m);
        }
    }
}
