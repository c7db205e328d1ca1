// Both passes over the periods, one after the other, and what ran off in them: the covariance pass is crates/cov, the mean pass crates/mean, the reports
// are crates/reports.
#![tactic(auto)]

ghost use Rattle.std.specs.Prelude.{◌≡◌, length};
ghost use Rattle.promise.specs.Lent.{model_in, offsets_in, cov_parts, mean_parts};
ghost use Rattle.forward.specs.View.{Few, FitOn, Ran, counted_on, reported_on};

use carried::Tallies;
use promise::{Answer, Decisions, Model, Offsets};

// Where a stretch of periods ends: the answer since the run began, and whether the diffuse state lasts.
#[derive(Drop)]
pub struct End {
    pub answer: Answer,
    pub live: bool,
}

// A stretch's counts, added to those before it, and its report on the covariances.
fn counted(before: Answer, diffuse: usize, heard: usize, news: usize, cov_off: usize) -> Answer
    requires { Few before diffuse heard news }
    ensures { result ≡ counted_on before diffuse heard news cov_off }
{
    Answer {
        d_diffuse: before.d_diffuse + diffuse,
        heard: before.heard + heard,
        news: before.news + news,
        cov_off: reports::told(before.cov_off, cov_off),
        ..before
    }
}

// And its report on the means.
fn reported(a: Answer, mean_off: usize) -> Answer
    ensures { result ≡ reported_on a mean_off }
{
    Answer {
        mean_off: reports::told(a.mean_off, mean_off),
        ..a
    }
}

// The two passes over n periods, after `t.done` others: every part written, the state carried on, and the answer, which goes
// on from the one before. An empty state: the run begins at the start, and its state is not kept. There may be no periods.
// `rqr` is R Q R', which the checks have worked out. The outputs one by one: DECISIONS 147.
pub fn run(
    x: &Model,
    rqr: &[f64; 64],
    o: &Offsets,
    y: &[f64],
    pred_mean: &mut [f64],
    pred_cov: &mut [f64],
    pred_inf: &mut [f64],
    filt_mean: &mut [f64],
    filt_cov: &mut [f64],
    kinds: &mut [u8],
    v: &mut [f64],
    f_star: &mut [f64],
    f_inf: &mut [f64],
    m_star: &mut [f64],
    m_inf: &mut [f64],
    state: &mut [f64],
    t: Tallies,
) -> End
    requires { FitOn (model_in x.now) (offsets_in o.now) (length y.now) rqr.now
        (cov_parts pred_cov.old pred_inf.old filt_cov.old kinds.old
        f_star.old f_inf.old m_star.old m_inf.old)
        (mean_parts pred_mean.old filt_mean.old v.old) (length state.old) t.done t.answer }
    ensures { Ran (model_in x.now) (offsets_in o.now) y.now
        state.old t.live t.done t.answer result state.new
        (cov_parts pred_cov.old pred_inf.old filt_cov.old kinds.old
        f_star.old f_inf.old m_star.old m_inf.old)
        (cov_parts pred_cov.new pred_inf.new filt_cov.new kinds.new
        f_star.new f_inf.new m_star.new m_inf.new)
        (mean_parts pred_mean.old filt_mean.old v.old)
        (mean_parts pred_mean.new filt_mean.new v.new) }
{
    let ended = cov::cov_pass(
        x, rqr, y, pred_cov, pred_inf, filt_cov, kinds, f_star, f_inf, m_star, m_inf, state, t.live,
    );
    let heard = cov::counts::heard(y);
    let news = cov::counts::news(kinds, x.n * x.p);
    let cov_off = reports::covs(
        pred_cov,
        pred_inf,
        filt_cov,
        ended.diffuse,
        x.m,
        x.n,
        t.done,
    );
    let left = Decisions {
        kinds,
        f_star,
        f_inf,
        m_star,
        m_inf,
    };
    let answer = mean::mean_pass(
        counted(t.answer, ended.diffuse, heard, news, cov_off),
        x,
        o,
        y,
        &left,
        pred_mean,
        filt_mean,
        v,
        state,
    );
    let mean_off = reports::means(pred_mean, filt_mean, x.m, x.n, t.done);
    End {
        answer: reported(answer, mean_off),
        live: ended.live,
    }
}
