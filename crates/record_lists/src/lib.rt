// The calls with a list of records, for a program: the list goes in by value and comes back.
#![tactic(auto)]

ghost use Rattle.promise.specs.Lent.{given_in, lent, lent_smooth};
ghost use Rattle.promise.specs.WithRecords.{FilteredRecords, SmoothedRecords};

use goxundar::{Answer, Model, Offsets, Record, Refusal};

// A call's outcome, and its list afterwards. The other outputs are lent one by one, as to the library's own call: its promise speaks of them so.
#[derive(Drop)]
pub struct Listed {
    pub outcome: Result<Answer, Refusal>,
    pub records: [Record; 1024],
}

// The filter's call.
pub fn filter(
    x: &Model,
    o: &Offsets,
    y: &[f64],
    pred_mean: &mut [f64],
    pred_cov: &mut [f64],
    pred_inf: &mut [f64],
    filt_mean: &mut [f64],
    filt_cov: &mut [f64],
    kinds: &mut [u8],
    v: &mut [f64],
    f_star: &mut [f64],
    f_inf: &mut [f64],
    m_star: &mut [f64],
    m_inf: &mut [f64],
    list: [Record; 1024],
) -> Listed
    ensures { FilteredRecords (given_in x.now o.now y.now)
        (lent
        pred_mean.old pred_cov.old pred_inf.old
        filt_mean.old filt_cov.old
        kinds.old v.old f_star.old f_inf.old
        m_star.old m_inf.old)
        list
        result.outcome
        (lent
        pred_mean.new pred_cov.new pred_inf.new
        filt_mean.new filt_cov.new
        kinds.new v.new f_star.new f_inf.new
        m_star.new m_inf.new)
        result.records }
{
    let mut records = list;
    let outcome = goxundar::filter_records(
        x,
        o,
        y,
        pred_mean,
        pred_cov,
        pred_inf,
        filt_mean,
        filt_cov,
        kinds,
        v,
        f_star,
        f_inf,
        m_star,
        m_inf,
        &mut records,
    );
    Listed { outcome, records }
}

// The smoother's call.
pub fn smooth(
    x: &Model,
    o: &Offsets,
    y: &[f64],
    pred_mean: &mut [f64],
    pred_cov: &mut [f64],
    pred_inf: &mut [f64],
    filt_mean: &mut [f64],
    filt_cov: &mut [f64],
    kinds: &mut [u8],
    v: &mut [f64],
    f_star: &mut [f64],
    f_inf: &mut [f64],
    m_star: &mut [f64],
    m_inf: &mut [f64],
    sm_mean: &mut [f64],
    sm_cov: &mut [f64],
    list: [Record; 1024],
) -> Listed
    ensures { SmoothedRecords (given_in x.now o.now y.now)
        (lent_smooth
        pred_mean.old pred_cov.old pred_inf.old
        filt_mean.old filt_cov.old
        kinds.old v.old f_star.old f_inf.old
        m_star.old m_inf.old
        sm_mean.old sm_cov.old)
        list
        result.outcome
        (lent_smooth
        pred_mean.new pred_cov.new pred_inf.new
        filt_mean.new filt_cov.new
        kinds.new v.new f_star.new f_inf.new
        m_star.new m_inf.new
        sm_mean.new sm_cov.new)
        result.records }
{
    let mut records = list;
    let outcome = goxundar::smooth_records(
        x,
        o,
        y,
        pred_mean,
        pred_cov,
        pred_inf,
        filt_mean,
        filt_cov,
        kinds,
        v,
        f_star,
        f_inf,
        m_star,
        m_inf,
        sm_mean,
        sm_cov,
        &mut records,
    );
    Listed { outcome, records }
}
