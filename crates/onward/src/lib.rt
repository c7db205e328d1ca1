// A stretch of a run that is past its checks, by the whole lists, which count from the run's first period: the periods go by what those before them
// have left of the lists (crates/judged).
#![tactic(auto)]

ghost use Rattle.std.specs.Prelude.{length};
ghost use Rattle.promise.specs.Lent.{model_in, offsets_in, cov_parts, mean_parts};
ghost use Rattle.forward.specs.View.{FitOn};
ghost use Rattle.judged.specs.Went.{Went};
ghost use Rattle.onward.specs.Later.{later_of};

use carried::Tallies;
use judged::Judged;
use promise::{Model, Offsets};

// judged::run over the later parts of the lists.
pub fn run(
    x: &Model,
    rqr: &[f64; 64],
    o: &Offsets,
    y: &[f64],
    pred_mean: &mut [f64],
    pred_cov: &mut [f64],
    pred_inf: &mut [f64],
    filt_mean: &mut [f64],
    filt_cov: &mut [f64],
    kinds: &mut [u8],
    v: &mut [f64],
    f_star: &mut [f64],
    f_inf: &mut [f64],
    m_star: &mut [f64],
    m_inf: &mut [f64],
    state: &mut [f64],
    t: Tallies,
    last: bool,
) -> Judged
    requires { FitOn (model_in x.now) (offsets_in o.now) (length y.now) rqr.now
        (cov_parts pred_cov.old pred_inf.old filt_cov.old kinds.old
        f_star.old f_inf.old m_star.old m_inf.old)
        (mean_parts pred_mean.old filt_mean.old v.old) (length state.old) t.done t.answer }
    ensures { Went (later_of (model_in x.now) t.done) (offsets_in o.now) y.now
        state.old t.live t.done t.answer last result state.new
        (cov_parts pred_cov.old pred_inf.old filt_cov.old kinds.old
        f_star.old f_inf.old m_star.old m_inf.old)
        (cov_parts pred_cov.new pred_inf.new filt_cov.new kinds.new
        f_star.new f_inf.new m_star.new m_inf.new)
        (mean_parts pred_mean.old filt_mean.old v.old)
        (mean_parts pred_mean.new filt_mean.new v.new) }
{
    let later = Model {
        zs: model::lists::later(x.zs, x.p, x.m, t.done),
        ts: model::lists::later(x.ts, x.m, x.m, t.done),
        ..*x
    };
    judged::run(
        &later, rqr, o, y, pred_mean, pred_cov, pred_inf, filt_mean, filt_cov, kinds, v, f_star,
        f_inf, m_star, m_inf, state, t, last,
    )
}
