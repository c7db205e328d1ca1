// smoother.rs, the mean half of the way back: r0 and r1 from the last period to the first, and the smoothed means. It takes the records, the gain
// vectors and the predicted moments as the two passes forward left them in the flat parts. Gains here multiply by 1 / F.
#![tactic(auto)]

ghost use Rattle.std.specs.Prelude.{◌≡◌, ◌≤◌, ◌<◌, ◌*◌, cond, length, ltb};
ghost use Rattle.definition.specs.Num.{◌⊕◌, ◌⊗◌, is_zero, 1ᶠ, at};
ghost use Rattle.definition.specs.Dense.{axpy, row, mat_vec, mat_vec_at, mat_tVec, mat_tVec_at};
ghost use Rattle.definition.specs.Run.{pairs, join};
ghost use Rattle.definition.specs.Smooth.{f_one, l_zero, l_one, l_usual, usual_r, back_r, elements_r, back_a, step_rs, back_mean_of};
ghost use Rattle.laws.specs.Flat.{read_back, decisions_at, block_at};
ghost use Rattle.laws.specs.Passes.{Laid};
ghost use Rattle.dense.specs.Views.{vec, mat};
ghost use Rattle.record.specs.Decisions.{flat_of};
ghost use Rattle.element_back.specs.View.{diffuse_by};
ghost use Rattle.mean_back.specs.View.{rs_of, looked_at, smoothed_means, Square, Element, Period, Smoothed, BlockFor, PeriodsFor};

use element_back::Gains;
use promise::{Decisions, Kind, Model};

// The moments that the passes forward predicted, of every period: the means, P and P∞.
#[derive(Clone, Copy)]
pub struct Predicted<'a> {
    pub mean: &'a [f64],
    pub cov: &'a [f64],
    pub inf: &'a [f64],
}

// What the means' way back carries from an element to the one before it: r0 and r1.
#[derive(Clone, Copy)]
struct Rs {
    r0: [f64; 8],
    r1: [f64; 8],
}

// ---- L' r, with the entries of L worked out as they are read

// Entry j of L0' r, with L0 = I - k z'.
fn l_zero_t_vec_at(k: &[f64; 8], z: &[f64; 8], r: &[f64; 8], m: usize, j: usize) -> f64
    requires { (m ≤ 8) × (j < m) }
    ensures { result ≡ mat_tVec_at m (l_zero m (vec m k.now) (vec m z.now))
        (vec m r.now) j }
{
    dense::sum(
        m,
        |i| element_back::l_zero_at(k, z, m, i, j) * dense::nth(r, m, i),
    )
}

fn l_zero_t_vec(k: &[f64; 8], z: &[f64; 8], r: &[f64; 8], m: usize) -> [f64; 8]
    requires { m ≤ 8 }
    ensures { vec m result ≡ mat_tVec m (l_zero m (vec m k.now) (vec m z.now))
        (vec m r.now) }
{
    dense::vector(m, |j| l_zero_t_vec_at(k, z, r, m, j))
}

// Entry j of L1' r, with L1 = - k z'.
fn l_one_t_vec_at(k: &[f64; 8], z: &[f64; 8], r: &[f64; 8], m: usize, j: usize) -> f64
    requires { (m ≤ 8) × (j < m) }
    ensures { result ≡ mat_tVec_at m (l_one m (vec m k.now) (vec m z.now))
        (vec m r.now) j }
{
    dense::sum(
        m,
        |i| element_back::l_one_at(k, z, m, i, j) * dense::nth(r, m, i),
    )
}

fn l_one_t_vec(k: &[f64; 8], z: &[f64; 8], r: &[f64; 8], m: usize) -> [f64; 8]
    requires { m ≤ 8 }
    ensures { vec m result ≡ mat_tVec m (l_one m (vec m k.now) (vec m z.now))
        (vec m r.now) }
{
    dense::vector(m, |j| l_one_t_vec_at(k, z, r, m, j))
}

// ---- one element

// A usual element: r0 = L' r0 + (v / F) z. r1 stays.
fn usual_r(r0: &mut [f64; 8], z: &[f64; 8], v: f64, f: f64, m_star: &[f64; 8], m: usize)
    requires { m ≤ 8 }
    ensures { vec m r0.new ≡ usual_r m (vec m z.now) v (f_one f)
        (l_usual m (vec m z.now) f (vec m m_star.now)) (vec m r0.old) }
{
    let g = element_back::f_one(f);
    let k = dense::scaled(m_star, g, m);
    let mut next = l_zero_t_vec(&k, z, r0, m);
    dense::axpy(&mut next, v * g, z, m);
    *r0 = next;
}

// A diffuse element: r1 = L0' r1 + L1' r0 + (v / F∞) z, by r0 as it was after the element, and r0 = L0' r0.
fn diffuse_r(s: &mut Rs, z: &[f64; 8], v: f64, d: &Gains, m: usize)
    requires { m ≤ 8 }
    ensures { rs_of m s.new ≡ back_r m (vec m z.now) (rs_of m s.old)
        (diffuse_by m d.now) v }
{
    let g = element_back::f_one(d.f_inf);
    let k0 = dense::scaled(d.m_inf, g, m);
    let k1 = element_back::k_one(d, m);
    let next0 = l_zero_t_vec(&k0, z, &s.r0, m);
    let mut next1 = l_zero_t_vec(&k0, z, &s.r1, m);
    let cross = l_one_t_vec(&k1, z, &s.r0, m);
    dense::axpy(&mut next1, 1.0, &cross, m);
    dense::axpy(&mut next1, v * g, z, m);
    s.r1 = next1;
    s.r0 = next0;
}

// Element i of a period, by its v and by the decision that stands at place k of the flat parts: where it was skipped nothing moves.
fn back_element(
    s: &mut Rs,
    design: &[f64],
    v: &[f64],
    left: &Decisions,
    m: usize,
    i: usize,
    k: usize,
)
    requires { Element m i k (length design.now) (length v.now) (flat_of left.now) }
    ensures { rs_of m s.new ≡ back_r m (row m design.now i) (rs_of m s.old) (read_back m (flat_of left.now) k) (at v.now k) }
{
    match record::kind_from(left.kinds[k], v[k], left.f_star[k], left.f_inf[k]) {
        Kind::Skipped(_) => {}
        Kind::Usual(v, f) => {
            let z = element_back::vector_at(design, m, i);
            let ms = element_back::vector_at(left.m_star, m, k);
            usual_r(&mut s.r0, &z, v, f, &ms, m);
        }
        Kind::Diffuse(v, f, f_inf) => {
            let z = element_back::vector_at(design, m, i);
            let ms = element_back::vector_at(left.m_star, m, k);
            let mi = element_back::vector_at(left.m_inf, m, k);
            let d = Gains {
                f,
                f_inf,
                m_star: &ms,
                m_inf: &mi,
            };
            diffuse_r(s, &z, v, &d, m);
        }
    }
}

// The elements of period t, last to first.
fn elements_back(
    s: &mut Rs,
    design: &[f64],
    v: &[f64],
    left: &Decisions,
    p: usize,
    m: usize,
    t: usize,
)
    requires { Period p m t (length design.now) (length v.now) (flat_of left.now) }
    ensures { rs_of m s.new ≡ elements_r m design.now (rs_of m s.old)
        (pairs (decisions_at p m (flat_of left.now) t) (block_at p v.now t)) }
{
    let first = t * p;
    // By the index: an element is a place in each of several lists, of other widths.
    for i in (0..p).rev() {
        back_element(s, design, v, left, m, i, first + i);
    }
}

// ---- the smoothed mean

// s + a x, or s where x equals 0.
fn plus_kept(s: f64, a: f64, x: f64) -> f64
    ensures { result ≡ cond (is_zero x) s (s ⊕ a ⊗ x) }
{
    if x == 0.0 { s } else { s + a * x }
}

// Entry i of A x, of a matrix that is a part of a lent list. By the index, and not dense::sum: a term at which x is 0 stays out.
fn part_vec_at(a: &[f64], x: &[f64; 8], m: usize, i: usize) -> f64
    requires { Square m i (length a.now) }
    ensures { result ≡ mat_vec_at m a.now (vec m x.now) i }
{
    let from = i * m;
    let mut s = 0.0;
    for j in 0..m {
        s = plus_kept(s, a[from + j], dense::nth(x, m, j));
    }
    s
}

// Not dense::mat_vec: the matrix is a part of a lent list, read where it lies.
fn part_vec(a: &[f64], x: &[f64; 8], m: usize) -> [f64; 8]
    requires { (m ≤ 8) × (length a.now ≡ m * m) }
    ensures { vec m result ≡ mat_vec m a.now (vec m x.now) }
{
    dense::vector(m, |i| part_vec_at(a, x, m, i))
}

// x + A r.
fn add_product(x: &mut [f64; 8], a: &[f64], r: &[f64; 8], m: usize)
    requires { (m ≤ 8) × (length a.now ≡ m * m) }
    ensures { vec m x.new ≡ axpy m (vec m x.old) 1ᶠ
        (mat_vec m a.now (vec m r.now)) }
{
    let moved = part_vec(a, r, m);
    dense::axpy(x, 1.0, &moved, m);
}

// The same in a diffuse period, and else x as it is.
fn add_diffuse(x: &mut [f64; 8], live: bool, a: &[f64], r: &[f64; 8], m: usize)
    requires { (m ≤ 8) × (length a.now ≡ m * m) }
    ensures { vec m x.new ≡ cond live
        (axpy m (vec m x.old) 1ᶠ (mat_vec m a.now (vec m r.now)))
        (vec m x.old) }
{
    if live {
        add_product(x, a, r, m);
    }
}

// a + P r0, and in a diffuse period + P∞ r1, into the period's block.
fn smooth(out: &mut [f64], s: &Rs, live: bool, pred: &[f64], cov: &[f64], inf: &[f64], m: usize)
    requires { Smoothed m (length out.old) (length pred.now) (length cov.now) (length inf.now) }
    ensures { out.new ≡ back_a m live cov.now inf.now pred.now (rs_of m s.now) }
{
    let mut x = dense::load(pred);
    add_product(&mut x, cov, &s.r0, m);
    add_diffuse(&mut x, live, inf, &s.r1, m);
    dense::save(out, &x);
}

// The same of period t, by its predicted moments. It is diffuse where t is below the count of diffuse periods.
fn smooth_at(out: &mut [f64], s: &Rs, pred: &Predicted, d_diffuse: usize, m: usize, t: usize)
    requires { (length out.old ≡ m)
        × BlockFor m t pred.now }
    ensures { out.new ≡ back_a m (ltb t d_diffuse)
        (block_at (m * m) pred.now.cov.now t) (block_at (m * m) pred.now.inf.now t)
        (block_at m pred.now.mean.now t) (rs_of m s.now) }
{
    let mean = t * m;
    let mean_end = mean + m;
    let size = m * m;
    let from = t * size;
    let to = from + size;
    smooth(
        out,
        s,
        t < d_diffuse,
        &pred.mean[mean..mean_end],
        &pred.cov[from..to],
        &pred.inf[from..to],
        m,
    );
}

// ---- the periods

// r0 and r1 by T'.
fn step_back(s: &mut Rs, tr: &[f64; 64], m: usize)
    requires { m ≤ 8 }
    ensures { rs_of m s.new ≡ step_rs m (mat m tr.now) (rs_of m s.old) }
{
    s.r0 = dense::mat_t_vec(tr, &s.r0, m);
    s.r1 = dense::mat_t_vec(tr, &s.r1, m);
}

// One period: its elements, its smoothed mean, and the step to the period before. It sees its own block of the output and no other.
fn period_back(
    s: &mut Rs,
    out: &mut [f64],
    design: &[f64],
    tr: &[f64; 64],
    pred: &Predicted,
    left: &Decisions,
    v: &[f64],
    d_diffuse: usize,
    p: usize,
    m: usize,
    t: usize,
)
    requires { (length out.old ≡ m)
        × (BlockFor m t pred.now
        × Period p m t (length design.now) (length v.now) (flat_of left.now)) }
    ensures { ◌≡◌ (out.new, rs_of m s.new)
        (back_mean_of m (mat m tr.now) design.now (rs_of m s.old)
        (looked_at p m d_diffuse pred.now.mean.now pred.now.cov.now pred.now.inf.now v.now (flat_of left.now) t)) }
{
    elements_back(s, design, v, left, p, m, t);
    smooth_at(out, s, pred, d_diffuse, m, t);
    step_back(s, tr, m);
}

// The smoothed means of n periods, by what the two passes forward left. From the last period to the first: each is handed its own block of the output,
// and the transition of the period before it, by which it steps back.
pub fn mean_back(
    x: &Model,
    pred: &Predicted,
    left: &Decisions,
    v: &[f64],
    sm_mean: &mut [f64],
    d_diffuse: usize,
)
    requires { PeriodsFor x.now pred.now (length v.now) (flat_of left.now) (length sm_mean.old) }
    ensures { Laid (x.now.n * x.now.m)
        (join (smoothed_means x.now d_diffuse pred.now v.now (flat_of left.now)))
        sm_mean.old sm_mean.new }
{
    let p = x.p;
    let m = x.m;
    let mut s = Rs {
        r0: [0.0; 8],
        r1: [0.0; 8],
    };
    let mut step = [0.0; 64];
    dense::fill(&mut step, x.t);
    // By the index: a period is a block of each of several lists, of other widths.
    for t in (0..x.n).rev() {
        let design = model::lists::part(x.z, x.zs, p, m, t);
        let earlier = element_back::before(t);
        model::lists::transition(&mut step, x.t, x.ts, m, earlier);
        let from = t * m;
        let to = from + m;
        period_back(
            &mut s,
            &mut sm_mean[from..to],
            design,
            &step,
            pred,
            left,
            v,
            d_diffuse,
            p,
            m,
            t,
        );
    }
}
