// The mean track: one element, one period, the mean pass. It takes the decisions and the gain vectors as the covariance pass left them in the
// flat parts, and works out each element's record, the means and the log-likelihood.
#![tactic(auto)]

ghost use Rattle.std.specs.Prelude.{◌≡◌, ◌≤◌, length};
ghost use Rattle.definition.specs.Num.{at};
ghost use Rattle.definition.specs.Dense.{dot, axpy, over, row};
ghost use Rattle.definition.specs.Run.{scan};
ghost use Rattle.definition.specs.Mean.{usual_term, diffuse_term, hear, mean_step, mean_period_of};
ghost use Rattle.laws.specs.Flat.{read_back, block_at};
ghost use Rattle.record.specs.Decisions.{flat_of};
ghost use Rattle.dense.specs.Views.{vec, mat};
ghost use Rattle.carried.specs.State.{StateFits, mean_from};
ghost use Rattle.mean.specs.View.{mean_of, shift_of, entry_at, heard_at, left_in, run_in};
ghost use Rattle.mean.specs.View.{Place, Element, Period, PeriodsFor, Room, ReadyFor, Rooms, Followed, Recorded, Looped, Passed};

use promise::{Answer, Decisions, FlatRecord, Kind, Model, Offsets, Record};

// The mean track's state: the mean, and the log-likelihood so far.
#[derive(Clone, Copy)]
struct Mean {
    a: [f64; 8],
    loglik: f64,
}

// The offsets that every period adds: the states' intercept as an array, the readings' as it is lent.
#[derive(Clone, Copy)]
struct Shift<'a> {
    c: [f64; 8],
    d: &'a [f64],
}

fn usual_term(loglik: f64, f: f64, v: f64) -> f64
    ensures { result ≡ usual_term loglik f v }
{
    loglik - 0.5 * (float::ln_two_pi() + float::ln(f) + v * v / f)
}

fn diffuse_term(loglik: f64, f: f64) -> f64
    ensures { result ≡ diffuse_term loglik f }
{
    loglik - 0.5 * (float::ln_two_pi() + float::ln(f))
}

// z a, of a row that is a part of the design.
fn row_dot(z: &[f64], a: &[f64; 8], m: usize) -> f64
    requires { (m ≤ 8) × (length z.now ≡ m) }
    ensures { result ≡ dot m z.now (vec m a.now) }
{
    dense::sum(m, |j| z[j] * dense::nth(a, m, j))
}

// a + v K, with the gain K = M / F worked out entry by entry as it is used.
fn move_by(a: &mut [f64; 8], v: f64, gain: &[f64], f: f64, m: usize)
    requires { (m ≤ 8) × (length gain.now ≡ m) }
    ensures { vec m a.new ≡ axpy m (vec m a.old) v (over m gain.now f) }
{
    let moved = dense::vector(m, |j| dense::nth(a, m, j) + v * (gain[j] / f));
    *a = moved;
}

// v = (y - d) - z a; then a moves by v times the gain.
fn follow(a: &mut [f64; 8], reading: f64, d: f64, z: &[f64], gain: &[f64], f: f64, m: usize) -> f64
    requires { (m ≤ 8) × ((length z.now ≡ m) × (length gain.now ≡ m)) }
    ensures { Followed m z.now d reading gain.now f a.old a.new result }
{
    let v = reading - d - row_dot(z, a, m);
    move_by(a, v, gain, f, m);
    v
}

// The same of element i, by F and by the M that stands at place k of gains.
fn follow_at(
    a: &mut [f64; 8],
    design: &[f64],
    d: &[f64],
    y: &[f64],
    f: f64,
    gains: &[f64],
    m: usize,
    i: usize,
    k: usize,
) -> f64
    requires { Place m i k (length design.now) (length d.now) (length y.now) (length gains.now) }
    ensures { Followed m (row m design.now i) (at d.now i) (at y.now k)
        (block_at m gains.now k) f a.old a.new result }
{
    let row = i * m;
    let row_end = row + m;
    let from = k * m;
    let to = from + m;
    follow(a, y[k], d[i], &design[row..row_end], &gains[from..to], f, m)
}

// One element, by the decision that stands at place k of the flat parts, where there is no v yet: its record, with v in it. The mean and the
// log-likelihood move by its kind; of a skipped one nothing moves, and the record has its cause.
fn hear(
    mean: &mut Mean,
    design: &[f64],
    d: &[f64],
    y: &[f64],
    left: &Decisions,
    m: usize,
    i: usize,
    k: usize,
) -> Record
    requires { Element m i k (length design.now) (length d.now) (length y.now) (flat_of left.now) }
    ensures { Recorded m design.now d.now i (mean_of m mean.old)
        (read_back m (flat_of left.now) k) (at y.now k)
        result (mean_of m mean.new) }
{
    let kind = match record::kind_from(left.kinds[k], 0.0, left.f_star[k], left.f_inf[k]) {
        Kind::Skipped(c) => Kind::Skipped(c),
        Kind::Usual(_, f) => {
            let v = follow_at(&mut mean.a, design, d, y, f, left.m_star, m, i, k);
            mean.loglik = usual_term(mean.loglik, f, v);
            Kind::Usual(v, f)
        }
        Kind::Diffuse(_, f, f_inf) => {
            let v = follow_at(&mut mean.a, design, d, y, f_inf, left.m_inf, m, i, k);
            mean.loglik = diffuse_term(mean.loglik, f_inf);
            Kind::Diffuse(v, f, f_inf)
        }
    };
    Record { kind }
}

// The elements of period t, in order: v of each one's record, with the mean and the log-likelihood moved by all. What else is in a record stands in the
// flat parts already.
fn elements(
    mean: &mut Mean,
    v: &mut [f64],
    design: &[f64],
    d: &[f64],
    y: &[f64],
    left: &Decisions,
    p: usize,
    m: usize,
    t: usize,
)
    requires { Period p m t (length design.now) (length d.now) (length y.now) (length v.old) (flat_of left.now) }
    ensures { ◌≡◌ (v.new, mean_of m mean.new)
        (scan (hear m design.now d.now) 0 (mean_of m mean.old)
        (heard_at p m (flat_of left.now) y.now t)) }
{
    let first = t * p;
    // By the index: an element is a place in each of several lists, of other widths.
    for i in 0..p {
        let r = hear(mean, design, d, y, left, m, i, first + i);
        v[i] = FlatRecord::from(r).v;
    }
}

// a by T, and c added.
fn mean_step(a: &mut [f64; 8], tr: &[f64; 64], c: &[f64; 8], m: usize)
    requires { m ≤ 8 }
    ensures { vec m a.new ≡ mean_step m (mat m tr.now) (vec m c.now)
        (vec m a.old) }
{
    let mut next = [0.0; 8];
    dense::mat_vec(&mut next, tr, a, m);
    dense::axpy(&mut next, 1.0, c, m);
    *a = next;
}

// One period. It sees its own block of each output and no other: the predicted mean is stored before the elements, the filtered one after.
fn mean_period(
    mean: &mut Mean,
    pred: &mut [f64],
    filt: &mut [f64],
    v: &mut [f64],
    design: &[f64],
    tr: &[f64; 64],
    shift: &Shift,
    y: &[f64],
    left: &Decisions,
    p: usize,
    m: usize,
    t: usize,
)
    requires { (length pred.old ≡ m) × ((length filt.old ≡ m)
        × Period p m t (length design.now) (length shift.now.d.now) (length y.now) (length v.old) (flat_of left.now)) }
    ensures { ◌≡◌ (left_in pred.new v.new filt.new, mean_of m mean.new)
        (mean_period_of m (mat m tr.now) (shift_of m shift.now).c (shift_of m shift.now).d design.now
        (mean_of m mean.old)
        (entry_at p m (flat_of left.now) y.now t)) }
{
    dense::save(pred, &mean.a);
    elements(mean, v, design, shift.d, y, left, p, m, t);
    dense::save(filt, &mean.a);
    mean_step(&mut mean.a, tr, &shift.c, m);
}

// All n periods, in order. Each is handed its own block of each output, and its own transition.
fn mean_loop(
    mean: &mut Mean,
    pred_mean: &mut [f64],
    filt_mean: &mut [f64],
    v: &mut [f64],
    x: &Model,
    shift: &Shift,
    y: &[f64],
    left: &Decisions,
)
    requires { PeriodsFor x.now (length shift.now.d.now) (length y.now) (flat_of left.now)
        × Room x.now.p x.now.m x.now.n (length pred_mean.old) (length filt_mean.old) (length v.old) }
    ensures { Looped x.now.p x.now.m x.now.n
        (run_in x.now (shift_of x.now.m shift.now) (mean_of x.now.m mean.old) (flat_of left.now) y.now)
        (mean_of x.now.m mean.new) pred_mean.old pred_mean.new
        filt_mean.old filt_mean.new v.old v.new }
{
    let p = x.p;
    let m = x.m;
    let mut step = [0.0; 64];
    dense::fill(&mut step, x.t);
    // By the index: a period is a block of each of several lists, of other widths.
    for t in 0..x.n {
        let design = model::lists::part(x.z, x.zs, p, m, t);
        model::lists::transition(&mut step, x.t, x.ts, m, t);
        let from = t * m;
        let to = from + m;
        let start = t * p;
        let end = start + p;
        mean_period(
            mean,
            &mut pred_mean[from..to],
            &mut filt_mean[from..to],
            &mut v[start..end],
            design,
            &step,
            shift,
            y,
            left,
            p,
            m,
            t,
        );
    }
}

// The mean pass: v, the predicted and the filtered means of n periods, place n of the predicted ones, and the log-likelihood, which goes on from the
// answer's. The counts of the answer go through as they came. It begins at the mean of the state that is lent, and leaves there the one after the n
// periods; an empty state: it begins at a1.
pub fn mean_pass(
    answer: Answer,
    x: &Model,
    o: &Offsets,
    y: &[f64],
    left: &Decisions,
    pred_mean: &mut [f64],
    filt_mean: &mut [f64],
    v: &mut [f64],
    state: &mut [f64],
) -> Answer
    requires { StateFits x.now.m (length state.old)
        × ReadyFor x.now o.now (length y.now) (flat_of left.now)
        × Rooms x.now.p x.now.m x.now.n (length pred_mean.old) (length filt_mean.old) (length v.old) }
    ensures { Passed x.now.p x.now.m x.now.n
        (run_in x.now (record { c = o.now.c.now; d = o.now.d.now })
        (record { a = mean_from x.now.m state.old o.now.a1.now; loglik = answer.loglik }) (flat_of left.now) y.now)
        answer result state.old state.new pred_mean.old pred_mean.new
        filt_mean.old filt_mean.new v.old v.new }
{
    let m = x.m;
    let shift = Shift {
        c: dense::load(o.c),
        d: o.d,
    };
    let mut mean = Mean {
        a: carried::mean_from(state, o.a1, m),
        loglik: answer.loglik,
    };
    mean_loop(&mut mean, pred_mean, filt_mean, v, x, &shift, y, left);
    let from = x.n * m;
    let to = from + m;
    dense::save(&mut pred_mean[from..to], &mean.a);
    carried::keep_mean(state, &mean.a, m);
    Answer {
        loglik: mean.loglik,
        ..answer
    }
}
