// smoother.rs: the smoother's call: its checks, the filter's run (crates/filter), then both passes back (crates/backward).
#![tactic(auto)]

ghost use Rattle.promise.specs.Lent.{given_in, lent_smooth};
ghost use Rattle.promise.specs.Calls.{Smoothed};

use mean_back::Predicted;
use model::lengths::OutputLengths;
use promise::{Answer, Decisions, Model, Offsets, Refusal};

// The smoother's call: the filter's with two outputs more. It ends whatever it is handed: with an answer, or why it is refused.
pub fn smooth_univariate(
    x: &Model,
    o: &Offsets,
    y: &[f64],
    pred_mean: &mut [f64],
    pred_cov: &mut [f64],
    pred_inf: &mut [f64],
    filt_mean: &mut [f64],
    filt_cov: &mut [f64],
    kinds: &mut [u8],
    v: &mut [f64],
    f_star: &mut [f64],
    f_inf: &mut [f64],
    m_star: &mut [f64],
    m_inf: &mut [f64],
    sm_mean: &mut [f64],
    sm_cov: &mut [f64],
) -> Result<Answer, Refusal>
    ensures { Smoothed (given_in x.now o.now y.now)
        (lent_smooth
        pred_mean.old pred_cov.old pred_inf.old
        filt_mean.old filt_cov.old
        kinds.old v.old f_star.old f_inf.old
        m_star.old m_inf.old
        sm_mean.old sm_cov.old)
        result
        (lent_smooth
        pred_mean.new pred_cov.new pred_inf.new
        filt_mean.new filt_cov.new
        kinds.new v.new f_star.new f_inf.new
        m_star.new m_inf.new
        sm_mean.new sm_cov.new) }
{
    // the refusals before the run: the two smoothed parts count for refusal 2 too
    let have = OutputLengths::of(
        pred_mean, pred_cov, pred_inf, filt_mean, filt_cov, kinds, v, f_star, f_inf, m_star, m_inf,
    );
    let room = model::lengths::room(x, have);
    let both = model::lengths::room_smoothed(x, room, sm_mean.len(), sm_cov.len());
    let mut rqr = [0.0; 64];
    model::refusal(x, o, y, both, &mut rqr)?;
    let outcome = filter::run(
        x, &rqr, o, y, pred_mean, pred_cov, pred_inf, filt_mean, filt_cov, kinds, v, f_star, f_inf,
        m_star, m_inf,
    );
    match outcome {
        // what it refuses here is refusal 12
        Err(e) => {
            blank::smoothed(sm_mean, sm_cov, x.p, x.m, x.n);
            Err(e)
        }
        Ok(a) => {
            let left = Decisions {
                kinds,
                f_star,
                f_inf,
                m_star,
                m_inf,
            };
            let pred = Predicted {
                mean: pred_mean,
                cov: pred_cov,
                inf: pred_inf,
            };
            backward::back(x, &pred, &left, v, sm_mean, sm_cov, a.d_diffuse);
            Ok(a)
        }
    }
}
