// A stretch's call: the checks (crates/stretch_checks), where the run stands, the periods with refusal 12 (crates/onward), and the run saved
// (crates/saved).
#![tactic(auto)]

ghost use Rattle.std.specs.Prelude.{◌≡◌, false, cond, ◌≤◌, length};
ghost use Rattle.definition.specs.Run.{lay};
ghost use Rattle.definition.specs.Saved.{saved_need, saved_of};
ghost use Rattle.laws.specs.SavedBack.{loaded};
ghost use Rattle.saved.specs.Places.{Room};
ghost use Rattle.saved.specs.Loaded.{LoadedState, carried_of};
ghost use Rattle.promise.specs.Lent.{given_in, lent, given_stretch, lent_stretch};
ghost use Rattle.promise.specs.Calls.{Stretched};
ghost use Rattle.stretch.specs.Begun.{Starts, begun_of};

use carried::Tallies;
use model::lengths::OutputLengths;
use promise::{Answer, Model, Offsets, Refusal};
use track::State;

// ---- where the run stands

// At its start. Into the state: the mean, P*, P∞, its root, the unresolved matrix.
fn begin(x: &Model, o: &Offsets, state: &mut [f64]) -> Tallies
    requires { Starts x.now.m (length o.now.a1.now) (length x.now.p_star.now) (length x.now.flags.now) (length state.old) }
    ensures { carried_of x.now.m state.new result ≡ begun_of x.now.m o.now.a1.now x.now.p_star.now x.now.flags.now }
{
    // The zeros are written out here and in cov: it is not known of a const of 2 KB that it would make no copy more in the frame.
    let mut start = State {
        live: false,
        star: [0.0; 64],
        p_inf: [0.0; 64],
        root: [0.0; 64],
        unres: [0.0; 64],
    };
    model::start(x, &mut start);
    carried::keep_cov(state, &start, x.m);
    let a = dense::load(o.a1);
    carried::keep_mean(state, &a, x.m);
    Tallies {
        live: start.live,
        ..Tallies::NOTHING
    }
}

// At its start, or where it was saved: then the checks have loaded the state.
fn enter(begins: bool, saved: &[u8], x: &Model, o: &Offsets, state: &mut [f64]) -> Tallies
    requires { Starts x.now.m (length o.now.a1.now) (length x.now.p_star.now) (length x.now.flags.now) (length state.old)
        × (begins ≡ false → (length saved.now ≡ saved_need x.now.m) × LoadedState x.now.m saved.now state.old) }
    ensures { carried_of x.now.m state.new result
        ≡ cond begins (begun_of x.now.m o.now.a1.now x.now.p_star.now x.now.flags.now) (loaded x.now.m saved.now) }
{
    if begins {
        return begin(x, o, state);
    }
    saved::load_tallies(saved, x.m)
}

// The run saved; the last stretch saves nothing.
fn keep(save: &mut [u8], last: bool, x: &Model, state: &[f64], t: Tallies)
    requires { (x.now.m ≤ 8) × (last ≡ false → saved_need x.now.m ≤ length save.old)
        × Room x.now.m state.now }
    ensures { save.new ≡ cond last save.old
        (lay (saved_of x.now.p x.now.m x.now.r (carried_of x.now.m state.now t)) save.old) }
{
    if last {
        return;
    }
    saved::save(save, x.p, x.m, x.r, state, t);
}

// A stretch's call. It ends whatever it is handed: with an answer, or why it is refused. `begins` and `last` are as C has them, and no Option: bytes given
// to a run that begins are refusal 15, and in the last stretch `save` stays (promise Stretched).
pub fn stretch(
    x: &Model,
    o: &Offsets,
    y: &[f64],
    begins: bool,
    saved: &[u8],
    last: bool,
    pred_mean: &mut [f64],
    pred_cov: &mut [f64],
    pred_inf: &mut [f64],
    filt_mean: &mut [f64],
    filt_cov: &mut [f64],
    kinds: &mut [u8],
    v: &mut [f64],
    f_star: &mut [f64],
    f_inf: &mut [f64],
    m_star: &mut [f64],
    m_inf: &mut [f64],
    save: &mut [u8],
) -> Result<Answer, Refusal>
    ensures { Stretched
        (given_stretch (given_in x.now o.now y.now) begins saved.now last)
        (lent_stretch
        (lent
        pred_mean.old pred_cov.old pred_inf.old
        filt_mean.old filt_cov.old
        kinds.old v.old f_star.old f_inf.old
        m_star.old m_inf.old)
        save.old)
        result
        (lent_stretch
        (lent
        pred_mean.new pred_cov.new pred_inf.new
        filt_mean.new filt_cov.new
        kinds.new v.new f_star.new f_inf.new
        m_star.new m_inf.new)
        save.new) }
{
    let have = OutputLengths::of(
        pred_mean, pred_cov, pred_inf, filt_mean, filt_cov, kinds, v, f_star, f_inf, m_star, m_inf,
    );
    let mut rqr = [0.0; 64];
    let mut state = [0.0; 264];
    stretch_checks::refusal(
        x,
        o,
        y,
        begins,
        saved,
        last,
        have,
        save.len(),
        &mut rqr,
        &mut state,
    )?;
    let stands = enter(begins, saved, x, o, &mut state);
    let e = onward::run(
        x, &rqr, o, y, pred_mean, pred_cov, pred_inf, filt_mean, filt_cov, kinds, v, f_star, f_inf,
        m_star, m_inf, &mut state, stands, last,
    );
    let done = stands.done + x.n;
    let now = Tallies {
        done,
        live: e.live,
        answer: e.answer,
    };
    keep(save, last, x, &state, now);
    judged::told(e)
}
