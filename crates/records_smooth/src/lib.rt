// The smoother's call with one lent part more: a list of records, as crates/records has it of the filter's, and by the same laws.
#![tactic(auto)]

ghost use Rattle.promise.specs.Lent.{model_in, offsets_in, cov_parts, mean_parts, given_in, lent_smooth};
ghost use Rattle.promise.specs.Calls.{PromiseSmooth};
ghost use Rattle.promise.specs.WithRecords.{smooth_outcome_with_records, SmoothedRecords};

use promise::{Answer, Model, Offsets, Record, Refusal};
use records::{to_tell, too_few};

// The smoother's flat call, where the list has room for the records; else refusal 2. `have` is the length of the list.
fn flat_smooth(
    x: &Model,
    o: &Offsets,
    y: &[f64],
    pred_mean: &mut [f64],
    pred_cov: &mut [f64],
    pred_inf: &mut [f64],
    filt_mean: &mut [f64],
    filt_cov: &mut [f64],
    kinds: &mut [u8],
    v: &mut [f64],
    f_star: &mut [f64],
    f_inf: &mut [f64],
    m_star: &mut [f64],
    m_inf: &mut [f64],
    sm_mean: &mut [f64],
    sm_cov: &mut [f64],
    have: usize,
) -> Result<Answer, Refusal>
    ensures { PromiseSmooth (smooth_outcome_with_records (model_in x.now) (offsets_in o.now) y.now
        (cov_parts pred_cov.old pred_inf.old filt_cov.old kinds.old f_star.old f_inf.old m_star.old m_inf.old)
        (mean_parts pred_mean.old filt_mean.old v.old) sm_mean.old sm_cov.old have) result
        (cov_parts pred_cov.new pred_inf.new filt_cov.new kinds.new f_star.new f_inf.new m_star.new m_inf.new)
        (mean_parts pred_mean.new filt_mean.new v.new) sm_mean.new sm_cov.new }
{
    if too_few(x, have) {
        return Err(Refusal::Length);
    }
    smoother::smooth_univariate(
        x, o, y, pred_mean, pred_cov, pred_inf, filt_mean, filt_cov, kinds, v, f_star, f_inf,
        m_star, m_inf, sm_mean, sm_cov,
    )
}

// The smoother's call, with the records as a list.
pub fn smooth_records(
    x: &Model,
    o: &Offsets,
    y: &[f64],
    pred_mean: &mut [f64],
    pred_cov: &mut [f64],
    pred_inf: &mut [f64],
    filt_mean: &mut [f64],
    filt_cov: &mut [f64],
    kinds: &mut [u8],
    v: &mut [f64],
    f_star: &mut [f64],
    f_inf: &mut [f64],
    m_star: &mut [f64],
    m_inf: &mut [f64],
    sm_mean: &mut [f64],
    sm_cov: &mut [f64],
    records: &mut [Record],
) -> Result<Answer, Refusal>
    ensures { SmoothedRecords (given_in x.now o.now y.now)
        (lent_smooth
        pred_mean.old pred_cov.old pred_inf.old
        filt_mean.old filt_cov.old
        kinds.old v.old f_star.old f_inf.old
        m_star.old m_inf.old
        sm_mean.old sm_cov.old)
        records.old
        result
        (lent_smooth
        pred_mean.new pred_cov.new pred_inf.new
        filt_mean.new filt_cov.new
        kinds.new v.new f_star.new f_inf.new
        m_star.new m_inf.new
        sm_mean.new sm_cov.new)
        records.new }
{
    let outcome = flat_smooth(
        x,
        o,
        y,
        pred_mean,
        pred_cov,
        pred_inf,
        filt_mean,
        filt_cov,
        kinds,
        v,
        f_star,
        f_inf,
        m_star,
        m_inf,
        sm_mean,
        sm_cov,
        records.len(),
    );
    record::fill(kinds, v, f_star, f_inf, to_tell(outcome, x), records);
    outcome
}
