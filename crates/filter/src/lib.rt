// filter.rs: the filter's call: the checks (crates/model), the run and refusal 12 with its blanks (crates/judged), the answer.
#![tactic(auto)]

ghost use Rattle.std.specs.Prelude.{length};
ghost use Rattle.forward.specs.View.{FitOn};
ghost use Rattle.promise.specs.Lent.{model_in, offsets_in, cov_parts, mean_parts, given_in, lent};
ghost use Rattle.promise.specs.Calls.{Filtered};
ghost use Rattle.filter.specs.Ends.{nothing, Run};

use carried::Tallies;
use model::lengths::OutputLengths;
use promise::{Answer, Model, Offsets, Refusal};

// The call under its caller's name, for crates/goxundar: there no name may be that of a crate below, so it is given here.
pub use crate::filter_univariate as filter;

// The run of a call that is past its checks, from the start: an answer, or refusal 12. The smoother's call makes it too. `rqr` is R Q R',
// which the checks have worked out.
pub fn run(
    x: &Model,
    rqr: &[f64; 64],
    o: &Offsets,
    y: &[f64],
    pred_mean: &mut [f64],
    pred_cov: &mut [f64],
    pred_inf: &mut [f64],
    filt_mean: &mut [f64],
    filt_cov: &mut [f64],
    kinds: &mut [u8],
    v: &mut [f64],
    f_star: &mut [f64],
    f_inf: &mut [f64],
    m_star: &mut [f64],
    m_inf: &mut [f64],
) -> Result<Answer, Refusal>
    requires { FitOn (model_in x.now) (offsets_in o.now) (length y.now) rqr.now
        (cov_parts pred_cov.old pred_inf.old filt_cov.old kinds.old
        f_star.old f_inf.old m_star.old m_inf.old)
        (mean_parts pred_mean.old filt_mean.old v.old) 0 0 nothing }
    ensures { Run (model_in x.now) (offsets_in o.now) y.now
        (cov_parts pred_cov.old pred_inf.old filt_cov.old kinds.old
        f_star.old f_inf.old m_star.old m_inf.old)
        (mean_parts pred_mean.old filt_mean.old v.old)
        result
        (cov_parts pred_cov.new pred_inf.new filt_cov.new kinds.new
        f_star.new f_inf.new m_star.new m_inf.new)
        (mean_parts pred_mean.new filt_mean.new v.new) }
{
    // No state is carried on, and none is kept.
    let mut none = [0.0; 0];
    let last = true;
    judged::told(judged::run(
        x,
        rqr,
        o,
        y,
        pred_mean,
        pred_cov,
        pred_inf,
        filt_mean,
        filt_cov,
        kinds,
        v,
        f_star,
        f_inf,
        m_star,
        m_inf,
        &mut none,
        Tallies::NOTHING,
        last,
    ))
}

// The filter's call. It ends whatever it is handed: with an answer, or why it is refused.
pub fn filter_univariate(
    x: &Model,
    o: &Offsets,
    y: &[f64],
    pred_mean: &mut [f64],
    pred_cov: &mut [f64],
    pred_inf: &mut [f64],
    filt_mean: &mut [f64],
    filt_cov: &mut [f64],
    kinds: &mut [u8],
    v: &mut [f64],
    f_star: &mut [f64],
    f_inf: &mut [f64],
    m_star: &mut [f64],
    m_inf: &mut [f64],
) -> Result<Answer, Refusal>
    ensures { Filtered (given_in x.now o.now y.now)
        (lent
        pred_mean.old pred_cov.old pred_inf.old
        filt_mean.old filt_cov.old
        kinds.old v.old f_star.old f_inf.old
        m_star.old m_inf.old)
        result
        (lent
        pred_mean.new pred_cov.new pred_inf.new
        filt_mean.new filt_cov.new
        kinds.new v.new f_star.new f_inf.new
        m_star.new m_inf.new) }
{
    let have = OutputLengths::of(
        pred_mean, pred_cov, pred_inf, filt_mean, filt_cov, kinds, v, f_star, f_inf, m_star, m_inf,
    );
    let room = model::lengths::room(x, have);
    let mut rqr = [0.0; 64];
    model::refusal(x, o, y, room, &mut rqr)?;
    run(
        x, &rqr, o, y, pred_mean, pred_cov, pred_inf, filt_mean, filt_cov, kinds, v, f_star, f_inf,
        m_star, m_inf,
    )
}
