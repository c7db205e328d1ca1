// The filter's call with one lent part more: a list of records, which holds the run's records afterwards. The smoother's is in crates/records_smooth,
// which goes by the same laws. A crate of its own, as another promise (DECISIONS 56).
#![tactic(auto)]

ghost use Rattle.std.specs.Prelude.{◌≡◌};
ghost use Rattle.promise.specs.Lent.{model_in, offsets_in, cov_parts, mean_parts, given_in, lent};
ghost use Rattle.promise.specs.Calls.{Promise};
ghost use Rattle.records.specs.Few.{too_few, capped};
ghost use Rattle.promise.specs.WithRecords.{to_tell, outcome_with_records, FilteredRecords};

use promise::{Answer, Model, Offsets, Record, Refusal};

// The list has fewer than n·p places. Out of range, refusal 1 comes first.
pub fn too_few(x: &Model, have: usize) -> bool
    ensures { result ≡ too_few x.now.p x.now.m x.now.r x.now.n have }
{
    !model::lengths::outside(x) && have < x.n * x.p
}

// n·p, where both are in range; else none.
fn in_all(p: usize, n: usize) -> usize
    ensures { result ≡ capped p n }
{
    if 8 < p || 4096 < n { 0 } else { n * p }
}

// How many records there are to tell: n·p of an answer and on refusal 12, else none.
pub fn to_tell(outcome: Result<Answer, Refusal>, x: &Model) -> usize
    ensures { result ≡ to_tell outcome (capped x.now.p x.now.n) }
{
    match outcome {
        Ok(_) | Err(Refusal::NoInformation) => in_all(x.p, x.n),
        Err(_) => 0,
    }
}

// The filter's flat call, where the list has room for the records; else refusal 2. `have` is the length of the list.
fn flat(
    x: &Model,
    o: &Offsets,
    y: &[f64],
    pred_mean: &mut [f64],
    pred_cov: &mut [f64],
    pred_inf: &mut [f64],
    filt_mean: &mut [f64],
    filt_cov: &mut [f64],
    kinds: &mut [u8],
    v: &mut [f64],
    f_star: &mut [f64],
    f_inf: &mut [f64],
    m_star: &mut [f64],
    m_inf: &mut [f64],
    have: usize,
) -> Result<Answer, Refusal>
    ensures { Promise (outcome_with_records (model_in x.now) (offsets_in o.now) y.now
        (cov_parts pred_cov.old pred_inf.old filt_cov.old kinds.old f_star.old f_inf.old m_star.old m_inf.old)
        (mean_parts pred_mean.old filt_mean.old v.old) have) result
        (cov_parts pred_cov.new pred_inf.new filt_cov.new kinds.new f_star.new f_inf.new m_star.new m_inf.new)
        (mean_parts pred_mean.new filt_mean.new v.new) }
{
    if too_few(x, have) {
        return Err(Refusal::Length);
    }
    filter::filter_univariate(
        x, o, y, pred_mean, pred_cov, pred_inf, filt_mean, filt_cov, kinds, v, f_star, f_inf,
        m_star, m_inf,
    )
}

// The filter's call, with the records as a list.
pub fn filter_records(
    x: &Model,
    o: &Offsets,
    y: &[f64],
    pred_mean: &mut [f64],
    pred_cov: &mut [f64],
    pred_inf: &mut [f64],
    filt_mean: &mut [f64],
    filt_cov: &mut [f64],
    kinds: &mut [u8],
    v: &mut [f64],
    f_star: &mut [f64],
    f_inf: &mut [f64],
    m_star: &mut [f64],
    m_inf: &mut [f64],
    records: &mut [Record],
) -> Result<Answer, Refusal>
    ensures { FilteredRecords (given_in x.now o.now y.now)
        (lent
        pred_mean.old pred_cov.old pred_inf.old
        filt_mean.old filt_cov.old
        kinds.old v.old f_star.old f_inf.old
        m_star.old m_inf.old)
        records.old
        result
        (lent
        pred_mean.new pred_cov.new pred_inf.new
        filt_mean.new filt_cov.new
        kinds.new v.new f_star.new f_inf.new
        m_star.new m_inf.new)
        records.new }
{
    let outcome = flat(
        x,
        o,
        y,
        pred_mean,
        pred_cov,
        pred_inf,
        filt_mean,
        filt_cov,
        kinds,
        v,
        f_star,
        f_inf,
        m_star,
        m_inf,
        records.len(),
    );
    record::fill(kinds, v, f_star, f_inf, to_tell(outcome, x), records);
    outcome
}
