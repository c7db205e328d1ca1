// A stretch of periods past its checks: the run (crates/forward), and in the last one refusal 12, by crates/blank.
#![tactic(auto)]

ghost use Rattle.std.specs.Prelude.{◌≡◌, length};
ghost use Rattle.promise.specs.Lent.{model_in, offsets_in, cov_parts, mean_parts};
ghost use Rattle.forward.specs.View.{FitOn};
ghost use Rattle.judged.specs.Went.{is_silent, Went, told_of};

use carried::Tallies;
use promise::{Answer, Model, Offsets, Refusal};

// Where a stretch ends: the answer since the run began, whether the diffuse state lasts, whether refusal 12 applies. No Result: the answer and `live` are
// promised where refusal 12 applies too (judged Went.answer, Went.live).
#[derive(Drop)]
pub struct Judged {
    pub answer: Answer,
    pub live: bool,
    pub silent: bool,
}

// Refusal 12, in the last stretch alone: readings were heard since the run began, and none was news.
#[tactic(auto, unfolding(crate::specs::Went::is_silent, definition::specs::Outcome::no_information))]
fn is_silent(a: Answer, last: bool) -> bool
    ensures { result ≡ is_silent last a }
{
    last && 0 < a.heard && a.news == 0
}

// n periods from the state that is lent, after `t.done` others. Where refusal 12 applies, what they wrote is blank; the state is carried on.
// `rqr` is R Q R', which the checks have worked out.
pub fn run(
    x: &Model,
    rqr: &[f64; 64],
    o: &Offsets,
    y: &[f64],
    pred_mean: &mut [f64],
    pred_cov: &mut [f64],
    pred_inf: &mut [f64],
    filt_mean: &mut [f64],
    filt_cov: &mut [f64],
    kinds: &mut [u8],
    v: &mut [f64],
    f_star: &mut [f64],
    f_inf: &mut [f64],
    m_star: &mut [f64],
    m_inf: &mut [f64],
    state: &mut [f64],
    t: Tallies,
    last: bool,
) -> Judged
    requires { FitOn (model_in x.now) (offsets_in o.now) (length y.now) rqr.now
        (cov_parts pred_cov.old pred_inf.old filt_cov.old kinds.old
        f_star.old f_inf.old m_star.old m_inf.old)
        (mean_parts pred_mean.old filt_mean.old v.old) (length state.old) t.done t.answer }
    ensures { Went (model_in x.now) (offsets_in o.now) y.now
        state.old t.live t.done t.answer last result state.new
        (cov_parts pred_cov.old pred_inf.old filt_cov.old kinds.old
        f_star.old f_inf.old m_star.old m_inf.old)
        (cov_parts pred_cov.new pred_inf.new filt_cov.new kinds.new
        f_star.new f_inf.new m_star.new m_inf.new)
        (mean_parts pred_mean.old filt_mean.old v.old)
        (mean_parts pred_mean.new filt_mean.new v.new) }
{
    let end = forward::run(
        x, rqr, o, y, pred_mean, pred_cov, pred_inf, filt_mean, filt_cov, kinds, v, f_star, f_inf,
        m_star, m_inf, state, t,
    );
    if is_silent(end.answer, last) {
        blank::filtered(
            pred_mean, pred_cov, pred_inf, filt_mean, filt_cov, kinds, v, f_star, f_inf, m_star,
            m_inf, x.p, x.m, x.n,
        );
        return Judged {
            answer: end.answer,
            live: end.live,
            silent: true,
        };
    }
    Judged {
        answer: end.answer,
        live: end.live,
        silent: false,
    }
}

// What the call comes back with, then: refusal 12, or the answer.
pub fn told(e: Judged) -> Result<Answer, Refusal>
    ensures { result ≡ told_of e }
{
    if e.silent {
        return Err(Refusal::NoInformation);
    }
    Ok(e.answer)
}
