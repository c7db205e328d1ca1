// The tests of refusals 1, 2 and 14: the sizes, the lengths of the lent parts, how far the lists reach.
#![tactic(auto, using(laws::specs::Accepted::in_range, crate::proofs::Laws::small), unfolding(definition::specs::Refusals::outside, definition::specs::Stretch::outside_stretch, definition::specs::Refusals::part_fits, definition::specs::Refusals::inputs_fit, definition::specs::Refusals::outrun, definition::specs::Refusals::list_short, crate::specs::Lengths::rooms, crate::specs::Lengths::rooms_smoothed))]

ghost use Rattle.std.specs.Prelude.{◌≡◌, false, ◌&&◌, eqb, ◌<◌, ◌*◌};
ghost use Rattle.definition.specs.Refusals.{beyond, outside, part_fits, inputs_fit, outrun, list_short};
ghost use Rattle.definition.specs.Stretch.{outside_stretch};
ghost use Rattle.laws.specs.Accepted.{InRange};
ghost use Rattle.promise.specs.Lent.{model_in, offsets_in};
ghost use Rattle.model.specs.Lengths.{lengths_of, rooms_in, rooms_smoothed};

use promise::{Model, Offsets};

// k is not 1 to top.
fn beyond(top: usize, k: usize) -> bool
    ensures { result ≡ beyond top k }
{
    (k == 0) | (top < k)
}

// 1: a size is out of its range.
pub fn outside(x: &Model) -> bool
    ensures { result ≡ outside x.now.p x.now.m x.now.r x.now.n }
{
    beyond(8, x.p) | beyond(8, x.m) | beyond(8, x.r) | beyond(4096, x.n)
}

// The same of a stretch, which may hold no period.
pub fn outside_stretch(x: &Model) -> bool
    ensures { result ≡ outside_stretch x.now.p x.now.m x.now.r x.now.n }
{
    beyond(8, x.p) | beyond(8, x.m) | beyond(8, x.r) | (4096 < x.n)
}

// Of Z, and of T: the constant one of k numbers, or 1 to 4096 listed ones.
fn part_fits(k: usize, once: usize, list: usize) -> bool
    requires { 0 < k }
    ensures { result ≡ part_fits k once list }
{
    let n = list / k;
    (once == k) & (list == 0) | (once == 0) & (list == n * k) & (n != 0) & (n <= 4096)
}

// 2, but for the outputs: each input has its length, and there are so many readings.
pub fn lengths_fit(x: &Model, o: &Offsets, readings: usize) -> bool
    requires { InRange x.now.p x.now.m x.now.r x.now.n }
    ensures { result ≡ (inputs_fit (model_in x.now) (offsets_in o.now) && eqb readings (x.now.n * x.now.p)) }
{
    let design = part_fits(x.p * x.m, x.z.len(), x.zs.len());
    let transition = part_fits(x.m * x.m, x.t.len(), x.ts.len());
    design
        & (x.h.len() == x.p * x.p)
        & transition
        & (x.rr.len() == x.m * x.r)
        & (x.q.len() == x.r * x.r)
        & (o.c.len() == x.m)
        & (o.d.len() == x.p)
        & (o.a1.len() == x.m)
        & (x.p_star.len() == x.m * x.m)
        & (x.flags.len() == x.m)
        & (readings == x.n * x.p)
}

// 2, of T: a list of so many numbers has fewer entries than there are periods.
pub fn outrun(k: usize, list: usize, periods: usize) -> bool
    requires { 0 < k }
    ensures { result ≡ outrun k list periods }
{
    (list != 0) & (list / k < periods)
}

// 14: the same of the designs, where the call does not ask that the last be used again.
pub fn list_short(repeats: bool, k: usize, list: usize, periods: usize) -> bool
    requires { 0 < k }
    ensures { result ≡ list_short repeats k list periods }
{
    !repeats & outrun(k, list, periods)
}

// The lengths of the filter's outputs, in the order in which a call is lent them.
#[derive(Clone, Copy)]
pub struct OutputLengths {
    pub pred_mean: usize,
    pub pred_cov: usize,
    pub pred_inf: usize,
    pub filt_mean: usize,
    pub filt_cov: usize,
    pub kinds: usize,
    pub v: usize,
    pub f_star: usize,
    pub f_inf: usize,
    pub m_star: usize,
    pub m_inf: usize,
}

impl OutputLengths {
    // Those of the parts that a call is lent.
    pub fn of(
        pred_mean: &[f64],
        pred_cov: &[f64],
        pred_inf: &[f64],
        filt_mean: &[f64],
        filt_cov: &[f64],
        kinds: &[u8],
        v: &[f64],
        f_star: &[f64],
        f_inf: &[f64],
        m_star: &[f64],
        m_inf: &[f64],
    ) -> OutputLengths
        ensures { result ≡ lengths_of pred_mean.now pred_cov.now pred_inf.now filt_mean.now filt_cov.now kinds.now v.now f_star.now f_inf.now m_star.now m_inf.now }
    {
        OutputLengths {
            pred_mean: pred_mean.len(),
            pred_cov: pred_cov.len(),
            pred_inf: pred_inf.len(),
            filt_mean: filt_mean.len(),
            filt_cov: filt_cov.len(),
            kinds: kinds.len(),
            v: v.len(),
            f_star: f_star.len(),
            f_inf: f_inf.len(),
            m_star: m_star.len(),
            m_inf: m_inf.len(),
        }
    }
}

// Each of the filter's outputs is as long as needed, for sizes in range.
// A stretch's checks know the sizes to be in range; a call counts its room before.
pub fn rooms(x: &Model, have: OutputLengths) -> bool
    requires { InRange x.now.p x.now.m x.now.r x.now.n }
    ensures { result ≡ rooms_in x.now.p x.now.m x.now.n have }
{
    let mm = x.m * x.m;
    let np = x.n * x.p;
    let nm = x.n * x.m;
    let npm = x.n * (x.p * x.m);
    let nmm = x.n * mm;
    let cov = nmm + mm;
    (np <= have.kinds)
        & (cov <= have.pred_cov)
        & (cov <= have.pred_inf)
        & (nmm <= have.filt_cov)
        & (np <= have.f_star)
        & (np <= have.f_inf)
        & (npm <= have.m_star)
        & (npm <= have.m_inf)
        & (nm + x.m <= have.pred_mean)
        & (nm <= have.filt_mean)
        & (np <= have.v)
}

// The same for any sizes. Where they are out of range nothing is promised: refusal 1 comes first.
pub fn room(x: &Model, have: OutputLengths) -> bool
    ensures { outside x.now.p x.now.m x.now.r x.now.n ≡ false → result ≡ rooms_in x.now.p x.now.m x.now.n have }
{
    !outside(x) && rooms(x, have)
}

// The same of the smoother's outputs, for sizes in range; `room` is the filter's.
fn rooms_smoothed(x: &Model, room: bool, sm_mean: usize, sm_cov: usize) -> bool
    requires { InRange x.now.p x.now.m x.now.r x.now.n }
    ensures { result ≡ rooms_smoothed x.now.m x.now.n room sm_mean sm_cov }
{
    room & (x.n * (x.m * x.m) <= sm_cov) & (x.n * x.m <= sm_mean)
}

// And for any sizes.
pub fn room_smoothed(x: &Model, room: bool, sm_mean: usize, sm_cov: usize) -> bool
    ensures { outside x.now.p x.now.m x.now.r x.now.n ≡ false → result ≡ rooms_smoothed x.now.m x.now.n room sm_mean sm_cov }
{
    !outside(x) && rooms_smoothed(x, room, sm_mean, sm_cov)
}
