// smoother.rs, the covariances' way back: a period's elements last to first, its smoothed covariance, the step to the period before, and the pass
// from the last period to the first. It takes the decisions, the gain vectors and the predicted covariances as the covariance pass left them.
#![tactic(auto)]

ghost use Rattle.std.specs.Prelude.{◌≡◌, cond, ◌≤◌, ◌*◌, length};
ghost use Rattle.definition.specs.Dense.{quad, minus};
ghost use Rattle.definition.specs.Run.{join};
ghost use Rattle.definition.specs.Smooth.{back_element, elements_n, between, diffuse_v, back_v, step_ns, back_cov_of};
ghost use Rattle.laws.specs.Flat.{read_back, decisions_at, block_at, look_at};
ghost use Rattle.laws.specs.Passes.{Laid};
ghost use Rattle.dense.specs.Views.{mat};
ghost use Rattle.record.specs.Decisions.{flat_of};
ghost use Rattle.element_back.specs.View.{ns_of};
ghost use Rattle.cov_back.specs.View.{Element, Period, Blocks, ReadyFor, smoothed_covs};

use element_back::Sums;
use promise::{Decisions, Model};

// ---- the elements

// Element i of a period, by the decision that stands at place k of the flat parts. The kind is made without v, which is the means' alone.
fn element(s: &mut Sums, live: bool, design: &[f64], left: &Decisions, m: usize, i: usize, k: usize)
    requires { Element m i k (length design.now) (flat_of left.now) }
    ensures { ns_of m s.new ≡ back_element m live design.now i (ns_of m s.old) (read_back m (flat_of left.now) k) }
{
    let kind = record::kind_from(left.kinds[k], 0.0, left.f_star[k], left.f_inf[k]);
    element_back::back_element(s, live, kind, design, left.m_star, left.m_inf, m, i, k);
}

// The elements of period t, last to first.
fn elements(
    s: &mut Sums,
    live: bool,
    design: &[f64],
    left: &Decisions,
    p: usize,
    m: usize,
    t: usize,
)
    requires { Period p m t (length design.now) (flat_of left.now) }
    ensures { ns_of m s.new ≡ elements_n m live design.now (ns_of m s.old) (decisions_at p m (flat_of left.now) t) }
{
    let first = t * p;
    // By the index: an element is a place in each of several lists, of other widths.
    for i in (0..p).rev() {
        element(s, live, design, left, m, i, first + i);
    }
}

// ---- the smoothed covariance

// V - A N B, as V - (A N) B.
fn less_between(v: &mut [f64; 64], a: &[f64; 64], n: &[f64; 64], b: &[f64; 64], m: usize)
    requires { m ≤ 8 }
    ensures { mat m v.new ≡ minus m (mat m v.old)
        (between m (mat m a.now) (mat m n.now) (mat m b.now)) }
{
    let mut an = [0.0; 64];
    let mut anb = [0.0; 64];
    products::mul_into(&mut an, a, n, m);
    products::mul_into(&mut anb, &an, b, m);
    dense::sub(v, &anb, m);
}

// Less P∞ N1 P, its transpose, and P∞ N2 P∞.
fn less_diffuse(v: &mut [f64; 64], p: &[f64; 64], p_inf: &[f64; 64], s: &Sums, m: usize)
    requires { m ≤ 8 }
    ensures { mat m v.new ≡ diffuse_v m (mat m p.now) (mat m p_inf.now) (ns_of m s.now) (mat m v.old) }
{
    let mut a = [0.0; 64];
    let mut x = [0.0; 64];
    products::mul_into(&mut a, p_inf, &s.n1, m);
    products::mul_into(&mut x, &a, p, m);
    dense::sub(v, &x, m);
    let turned = products::transpose(&x, m, m);
    dense::sub(v, &turned, m);
    less_between(v, p_inf, &s.n2, p_inf, m);
}

// The same in a diffuse period; in any other nothing.
fn less_if_diffuse(
    v: &mut [f64; 64],
    live: bool,
    p: &[f64; 64],
    pred_inf: &[f64],
    s: &Sums,
    m: usize,
)
    requires { (m ≤ 8) × (length pred_inf.now ≡ m * m) }
    ensures { mat m v.new ≡ cond live (diffuse_v m (mat m p.now) pred_inf.now (ns_of m s.now) (mat m v.old)) (mat m v.old) }
{
    if live {
        let mut p_inf = [0.0; 64];
        dense::fill(&mut p_inf, pred_inf);
        less_diffuse(v, p, &p_inf, s, m);
    }
}

// V of a period by its predicted P and P∞, symmetrised.
fn smoothed(out: &mut [f64], s: &Sums, live: bool, pred: &[f64], pred_inf: &[f64], m: usize)
    requires { (m ≤ 8) × ((length out.old ≡ m * m)
        × ((length pred.now ≡ m * m) × (length pred_inf.now ≡ m * m))) }
    ensures { out.new ≡ back_v m live pred.now pred_inf.now (ns_of m s.now) }
{
    let mut p = [0.0; 64];
    dense::fill(&mut p, pred);
    let mut v = p;
    less_between(&mut v, &p, &s.n0, &p, m);
    less_if_diffuse(&mut v, live, &p, pred_inf, s, m);
    dense::symmetrize_in_place(&mut v, m);
    dense::save(out, &v);
}

// The same of period t, whose predicted covariances are its blocks of the lent parts.
fn smoothed_at(
    out: &mut [f64],
    s: &Sums,
    live: bool,
    pred_cov: &[f64],
    pred_inf: &[f64],
    m: usize,
    t: usize,
)
    requires { Blocks m t (length pred_cov.now) (length pred_inf.now) (length out.old) }
    ensures { out.new ≡ back_v m live
        (block_at (m * m) pred_cov.now t) (block_at (m * m) pred_inf.now t)
        (ns_of m s.now) }
{
    let mm = m * m;
    let from = t * mm;
    let to = from + mm;
    smoothed(out, s, live, &pred_cov[from..to], &pred_inf[from..to], m);
}

// ---- the step to the period before

// T' N T as (T' N) T, in place. `tn` is room for T' N.
fn step(n: &mut [f64; 64], t: &[f64; 64], tn: &mut [f64; 64], m: usize)
    requires { m ≤ 8 }
    ensures { mat m n.new ≡ quad m (mat m t.now) (mat m n.old)
        (mat m t.now) }
{
    products::t_mul_into(tn, t, n, m);
    products::mul_into(n, tn, t, m);
}

// The same of all three.
fn step_all(s: &mut Sums, t: &[f64; 64], m: usize)
    requires { m ≤ 8 }
    ensures { ns_of m s.new ≡ step_ns m (mat m t.now) (ns_of m s.old) }
{
    let mut tn = [0.0; 64];
    step(&mut s.n0, t, &mut tn, m);
    step(&mut s.n1, t, &mut tn, m);
    step(&mut s.n2, t, &mut tn, m);
}

// ---- one period, and the pass

// Period t: its elements, its smoothed covariance into its own block, and the step. It is diffuse where t is below the count of diffuse periods. P and P∞
// come one by one: mean_back's Predicted has the means too, and the covariances' way back is handed none.
fn period(
    s: &mut Sums,
    out: &mut [f64],
    design: &[f64],
    tr: &[f64; 64],
    pred_cov: &[f64],
    pred_inf: &[f64],
    left: &Decisions,
    d_diffuse: usize,
    p: usize,
    m: usize,
    t: usize,
)
    requires { Period p m t (length design.now) (flat_of left.now)
        × Blocks m t (length pred_cov.now) (length pred_inf.now) (length out.old) }
    ensures { ◌≡◌ (out.new, ns_of m s.new)
        (back_cov_of m (mat m tr.now) design.now (ns_of m s.old)
        (look_at p m d_diffuse pred_cov.now pred_inf.now (flat_of left.now) t)) }
{
    let live = t < d_diffuse;
    elements(s, live, design, left, p, m, t);
    smoothed_at(out, s, live, pred_cov, pred_inf, m, t);
    step_all(s, tr, m);
}

// The covariances' way back: the smoothed covariance of each of n periods, by the predicted ones and the decisions that the covariance pass left, of
// which the first d_diffuse periods were diffuse. From the last period to the first: each is handed its own block of the smoothed covariances, and the
// transition of the period before it, by which it steps back.
pub fn cov_back(
    x: &Model,
    pred_cov: &[f64],
    pred_inf: &[f64],
    left: &Decisions,
    sm_cov: &mut [f64],
    d_diffuse: usize,
)
    requires { ReadyFor x.now (length pred_cov.now) (length pred_inf.now) (flat_of left.now)
        × (x.now.n * (x.now.m * x.now.m) ≤ length sm_cov.old) }
    ensures { Laid (x.now.n * (x.now.m * x.now.m))
        (join (smoothed_covs x.now d_diffuse pred_cov.now pred_inf.now (flat_of left.now)))
        sm_cov.old sm_cov.new }
{
    let p = x.p;
    let m = x.m;
    let mm = m * m;
    let mut s = Sums {
        n0: [0.0; 64],
        n1: [0.0; 64],
        n2: [0.0; 64],
    };
    let mut step = [0.0; 64];
    dense::fill(&mut step, x.t);
    // By the index: a period is a block of each of several lists, of other widths.
    for t in (0..x.n).rev() {
        let design = model::lists::part(x.z, x.zs, p, m, t);
        let earlier = element_back::before(t);
        model::lists::transition(&mut step, x.t, x.ts, m, earlier);
        let from = t * mm;
        let to = from + mm;
        period(
            &mut s,
            &mut sm_cov[from..to],
            design,
            &step,
            pred_cov,
            pred_inf,
            left,
            d_diffuse,
            p,
            m,
            t,
        );
    }
}
