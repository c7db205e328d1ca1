// The checks of a stretch's call: refusals 1 to 11, 15, and how far the lists reach. What they have worked out is handed on.
#![tactic(auto)]

ghost use Rattle.std.specs.Prelude.{◌≡◌, false, ◌&&◌, ◌||◌, cond, not, [], ◌∷◌, map, ◌≤◌, length, eqb, leb};
ghost use Rattle.definition.specs.Run.{any_of};
ghost use Rattle.definition.specs.Inputs.{is_infinity, class_of, noise_of};
ghost use Rattle.definition.specs.Refusals.{first_of};
ghost use Rattle.definition.specs.Saved.{saved_need, bad_saved, widths, numbers_in, done_in};
ghost use Rattle.definition.specs.Stretch.{stretch_refusal};
ghost use Rattle.laws.specs.Accepted.{InRange};
ghost use Rattle.dense.specs.Views.{mat};
ghost use Rattle.model.specs.Lengths.{rooms_in};
ghost use Rattle.saved.specs.Places.{Room};
ghost use Rattle.saved.specs.Loaded.{LoadedState};
ghost use Rattle.promise.specs.Calls.{refusal_of};
ghost use Rattle.promise.specs.Lent.{model_in, offsets_in};

use model::lengths::OutputLengths;
use promise::{Model, Offsets, Refusal};

// 15 BadSaved, of sizes in range. A run that begins has no saved bytes; of one that goes on, the state is loaded as its bytes are tested.
fn of_saved(x: &Model, begins: bool, saved: &[u8], state: &mut [f64]) -> Result<(), Refusal>
    requires { InRange x.now.p x.now.m x.now.r x.now.n
        × Room x.now.m state.old }
    ensures number { refusal_of result ≡ first_of ((
      15,
      cond begins (not (eqb (length saved.now) 0)) (bad_saved x.now.p x.now.m x.now.r x.now.n saved.now),
    ) ∷ []) }
    ensures state { refusal_of result ≡ 0 → begins ≡ false → LoadedState x.now.m saved.now state.new }
{
    if !begins {
        return saved::load(saved, x.p, x.m, x.r, x.n, state);
    }
    if saved.len() != 0 {
        return Err(Refusal::BadSaved);
    }
    Ok(())
}

// Whether there is room to save in; the last stretch needs none.
fn room_to_save(last: bool, save: usize, m: usize) -> bool
    requires { m ≤ 8 }
    ensures { result ≡ (last || leb (saved_need m) save) }
{
    last | (120 + m * 8 + m * m * 32 <= save)
}

// The periods done before this stretch.
fn done_before(begins: bool, saved: &[u8], m: usize) -> usize
    requires { (m ≤ 8) × (begins ≡ false → length saved.now ≡ saved_need m) }
    ensures { result ≡ cond begins 0 (done_in (numbers_in (widths m) saved.now)) }
{
    if begins { 0 } else { saved::done(saved, m) }
}

// Refusals 1 to 11, 15, 2 by T's reach and 14, of the inputs and of the outputs' lengths. What the tests have worked out is handed on: R Q R', and the
// state of a run that goes on.
pub fn refusal(
    x: &Model,
    o: &Offsets,
    y: &[f64],
    begins: bool,
    saved: &[u8],
    last: bool,
    have: OutputLengths,
    save: usize,
    rqr: &mut [f64; 64],
    state: &mut [f64],
) -> Result<(), Refusal>
    requires { length state.old ≡ 264 }
    ensures number { refusal_of result ≡ stretch_refusal
        (model_in x.now) (offsets_in o.now)
        (length y.now) (any_of is_infinity (map class_of y.now))
        (rooms_in x.now.p x.now.m x.now.n have && (last || leb (saved_need x.now.m) save))
        (cond begins (not (eqb (length saved.now) 0)) (bad_saved x.now.p x.now.m x.now.r x.now.n saved.now))
        (cond begins 0 (done_in (numbers_in (widths x.now.m) saved.now))) }
    ensures noise { refusal_of result ≡ 0 → mat x.now.m rqr.new ≡ noise_of x.now.m x.now.r x.now.rr.now x.now.q.now }
    ensures state { refusal_of result ≡ 0 → begins ≡ false → LoadedState x.now.m saved.now state.new }
{
    model::refusals::of_stretch_sizes(x)?;
    let parts = model::lengths::rooms(x, have);
    let room = parts & room_to_save(last, save, x.m);
    model::refusals::of_lengths(x, o, y.len(), room)?;
    model::refusal_of_entries(x, o, y, rqr)?;
    of_saved(x, begins, saved, state)?;
    let done = done_before(begins, saved, x.m);
    model::refusals::of_reach(x, done + x.n)
}
