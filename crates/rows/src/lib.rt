// What is shown of each period: what became of its two checks, and eight numbers.
#![tactic(auto)]

ghost use Rattle.std.specs.Prelude.{◌≡◌, ◌+◌, ◌*◌, ◌<◌, ◌≤◌, slice_set, slice_index_or};
ghost use Rattle.std.proofs.lemmas.List.Edits.{sets};
ghost use Rattle.rows.specs.Rows.{first_of, byte_at, num_at, time_of, open_of, offset_open_of, rate_open_of, deviation_of, half_of};
ghost use Rattle.rows.specs.Checks.{check_of};
ghost use Rattle.rows.specs.Filled.{RowsFilled};

// Places of one flat list and no struct: the promise of `fill` (rows Filled.RowsFilled) is of the list's numbers, place by place.
// A period's numbers: the filtered offset, its standard deviation, the rate, its own; then the smoothed ones.
pub const ROW: usize = 8;

const SMOOTHED: usize = 4;

// A standard deviation is infinite where nothing is known yet, and then its mean says nothing.
pub const OFFSET: usize = 0;

pub const OFFSET_SD: usize = 1;

pub const RATE: usize = 2;

pub const RATE_SD: usize = 3;

// Which of a period's two estimates: by the checks up to it, or by all.
#[derive(Clone, Copy)]
pub enum Estimate {
    Filtered,
    Smoothed,
}

impl Estimate {
    // The first of its four numbers.
    pub fn first(self) -> usize
        ensures { (result ≡ first_of self) × (result ≤ 4) }
    {
        match self {
            Estimate::Filtered => 0,
            Estimate::Smoothed => SMOOTHED,
        }
    }
}

// What became of a check: the library's kind of it, in a person's words.
#[derive(Clone, Copy, Debug, PartialEq, Eq)]
pub enum Check {
    Missing,
    Taken,
    FirstNews,
    AddsNothing,
    OnlyRounding,
    Doubtful,
}

// A reader takes every number above the library's for doubtful.
impl From<u8> for Check {
    ghost from_gives = { λ kind check. check ≡ check_of kind };

    fn from(kind: u8) -> Check {
        match kind {
            promise::GAP => Check::Missing,
            promise::USUAL => Check::Taken,
            promise::DIFFUSE => Check::FirstNews,
            promise::TOO_SMALL => Check::AddsNothing,
            promise::BELOW_DUST => Check::OnlyRounding,
            promise::FAILED_REPLAY..=255 => Check::Doubtful,
        }
    }
}

// What a run of 4096 periods has: so many numbers, so many kinds, so many readings.
pub const NUMBERS: usize = 32768;

pub const KINDS: usize = 8192;

pub const READINGS: usize = 8192;

// Seconds from the first period to period t.
pub fn time(t: usize, period: u64) -> f64
    ensures { result ≡ time_of t period }
{
    std::num::nearest_u64_to_f64(t as u64) * std::num::nearest_u64_to_f64(period)
}

// Place i, or `past` where the list has none.
pub fn at<T: Copy>(s: &[T], i: usize, past: T) -> T
    ensures { result ≡ slice_index_or s.now i past }
{
    s.get(i).copied().unwrap_or(past)
}

// Check i of a list of kinds: input c of period t is check 2 t + c.
pub fn check_at(kinds: &[u8], i: usize) -> Check
    ensures { result ≡ check_of (byte_at kinds.now i) }
{
    Check::from(at(kinds, i, 0))
}

// Number c of period t: t < 4096 keeps 8 t + c from wrapping. A type for it would have each loop make one.
pub fn of(rows: &[f64], t: usize, c: usize) -> f64
    requires { (t < 4096) × (c < 8) }
    ensures { result ≡ num_at rows.now (8 * t + c) }
{
    at(rows, ROW * t + c, 0.0)
}

// By index and not by `get_mut`: a proof knows no element after a write through what that lends.
fn put(out: &mut [f64], i: usize, x: f64)
    ensures { out.new ≡ slice_set out.old i x }
{
    if i < out.len() {
        out[i] = x;
    }
}

// Whether period k starts with a covariance that has no bound: the library's own test, which the place after the last period has not had.
fn open(pred_inf: &[f64], k: usize) -> bool
    requires { k ≤ 4096 }
    ensures { result ≡ open_of pred_inf.now k }
{
    let mut sum = 0.0;
    // By index: past the list's end a place counts as 0 (rows Rows.num_at), and an iterator would stop.
    for i in 0..9 {
        let x = at(pred_inf, 9 * k + i, 0.0);
        sum += x * x;
    }
    sum > acceptance::TOLERANCE_RANK
}

// Whether the offset has no bound after period t. A check that is first news bounds it.
fn offset_open(pred_inf: &[f64], kinds: &[u8], t: usize) -> bool
    requires { t < 4096 }
    ensures { result ≡ offset_open_of pred_inf.now kinds.now t }
{
    if check_at(kinds, 2 * t) == Check::FirstNews
        || check_at(kinds, 2 * t + 1) == Check::FirstNews
    {
        return false;
    }
    open(pred_inf, t) & (at(pred_inf, 9 * t, 0.0) != 0.0)
}

// Whether the rate has no bound at the start of period k. Of a rate with no bound the step from period to period keeps some, so it has none either.
fn rate_open(pred_inf: &[f64], k: usize) -> bool
    requires { k ≤ 4096 }
    ensures { result ≡ rate_open_of pred_inf.now k }
{
    open(pred_inf, k) & (at(pred_inf, 9 * k + 4, 0.0) != 0.0)
}

// A variance below 0 is rounding. Of one that is no number there is no deviation: 0 would say that all is known.
fn deviation(variance: f64, open: bool) -> f64
    ensures { result ≡ deviation_of variance «open» }
{
    if open {
        return f64::INFINITY;
    }
    if float::is_nan(variance) {
        return variance;
    }
    float::sqrt(float::max0(variance))
}

// Four numbers of period t, from one pair of means and covariances.
fn fill_half(
    rows: &mut [f64],
    from: usize,
    means: &[f64],
    covs: &[f64],
    t: usize,
    offset_open: bool,
    rate_open: bool,
)
    requires { (t < 4096) × (from ≤ 32768) }
    ensures { rows.new ≡ sets rows.old from (half_of means.now covs.now t offset_open rate_open) }
{
    put(rows, from + OFFSET, at(means, 3 * t, 0.0));
    put(
        rows,
        from + OFFSET_SD,
        deviation(at(covs, 9 * t, 0.0), offset_open),
    );
    put(rows, from + RATE, at(means, 3 * t + 1, 0.0));
    put(
        rows,
        from + RATE_SD,
        deviation(at(covs, 9 * t + 4, 0.0), rate_open),
    );
}

// Where the last period leaves the rate with no bound, hindsight has learnt nothing of it either; and of the offset only where a check stands.
pub fn fill(
    rows: &mut [f64],
    n: usize,
    pred_inf: &[f64],
    kinds: &[u8],
    filt_mean: &[f64],
    filt_cov: &[f64],
    sm_mean: &[f64],
    sm_cov: &[f64],
)
    requires { n ≤ 4096 }
    ensures { RowsFilled n pred_inf.now kinds.now filt_mean.now filt_cov.now sm_mean.now sm_cov.now rows.old rows.new }
{
    let left_open = open(pred_inf, n);
    let rate_left_open = rate_open(pred_inf, n);
    for t in 0..n {
        let offset = offset_open(pred_inf, kinds, t);
        fill_half(
            rows,
            ROW * t,
            filt_mean,
            filt_cov,
            t,
            offset,
            rate_open(pred_inf, t + 1),
        );
        fill_half(
            rows,
            ROW * t + SMOOTHED,
            sm_mean,
            sm_cov,
            t,
            offset & left_open,
            rate_left_open,
        );
    }
}

// A run's periods: their readings, what became of each check, and the numbers of each.
#[derive(Clone, Copy)]
pub struct Run<'a> {
    pub n: usize,
    pub period: u64,
    pub y: &'a [f64],
    pub kinds: &'a [u8],
    pub rows: &'a [f64],
    ghost short: { n ≤ 4096 },
}

impl Run<'_> {
    pub fn time(self, t: usize) -> f64
        ensures { result ≡ time_of t self.entry.period }
    {
        time(t, self.period)
    }

    // Input c of period t is check 2 t + c.
    pub fn check(self, i: usize) -> Check
        ensures { result ≡ check_of (byte_at self.entry.kinds.now i) }
    {
        check_at(self.kinds, i)
    }

    pub fn reading(self, i: usize) -> f64
        ensures { result ≡ num_at self.entry.y.now i }
    {
        at(self.y, i, 0.0)
    }
}
