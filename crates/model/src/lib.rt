// model.rs: the checks of a call's inputs, with the noise R Q R'; the period's design and transition, the start.
#![tactic(auto)]

ghost use Rattle.std.specs.Prelude.{◌≡◌, map, length};
ghost use Rattle.definition.specs.Run.{any_of};
ghost use Rattle.definition.specs.Inputs.{noise_of, start_from, is_infinity, class_of};
ghost use Rattle.definition.specs.Refusals.{first_of, of_entries, refusal};
ghost use Rattle.laws.specs.Accepted.{InRange, InputsFit};
ghost use Rattle.dense.specs.Views.{mat};
ghost use Rattle.track.specs.View.{cov_in};
ghost use Rattle.promise.specs.Calls.{refusal_of};
ghost use Rattle.promise.specs.Lent.{model_in, offsets_in};
ghost use Rattle.model.specs.Places.{StartFits};

mod diffuse; // P∞ and its root
mod entries; // the tests of refusals 3 to 10
pub mod lengths; // the tests of refusals 1, 2 and 14
pub mod lists; // the period's design and transition
mod noise; // R Q R'
pub mod refusals; // the refusals by segments

use promise::{Model, Offsets, Refusal};
use track::State;

// ---- the checks

// Of inputs that have their lengths, the first of refusals 3 to 11 that applies, by document 01's table. The order is every call's. Where none applies
// rqr holds R Q R', which refusal 11 looks at and the run goes by.
pub fn refusal_of_entries(
    x: &Model,
    o: &Offsets,
    y: &[f64],
    rqr: &mut [f64; 64],
) -> Result<(), Refusal>
    requires { InRange x.now.p x.now.m x.now.r x.now.n × InputsFit (model_in x.now) (offsets_in o.now) }
    ensures number { refusal_of result ≡ first_of (of_entries
        (model_in x.now) (offsets_in o.now)
        (any_of is_infinity (map class_of y.now))) }
    ensures noise { refusal_of result ≡ 0 → mat x.now.m rqr.new ≡ noise_of x.now.m x.now.r x.now.rr.now x.now.q.now }
{
    refusals::of_system(x)?;
    refusals::of_start(x, o)?;
    refusals::of_h(x)?;
    refusals::of_readings(y)?;
    refusals::of_step(x, rqr)
}

// The first of refusals 1, 2, 2 by T's reach, 14 and 3 to 11 that applies: the filter's call and the smoother's. `room` is what lengths::room, or
// lengths::room_smoothed, says of the outputs.
pub fn refusal(
    x: &Model,
    o: &Offsets,
    y: &[f64],
    room: bool,
    rqr: &mut [f64; 64],
) -> Result<(), Refusal>
    ensures number { refusal_of result ≡ refusal
        (model_in x.now) (offsets_in o.now)
        (length y.now) (any_of is_infinity (map class_of y.now)) room }
    ensures noise { refusal_of result ≡ 0 → mat x.now.m rqr.new ≡ noise_of x.now.m x.now.r x.now.rr.now x.now.q.now }
{
    refusals::of_sizes(x)?;
    refusals::of_lengths(x, o, y.len(), room)?;
    refusals::of_reach(x, x.n)?;
    refusal_of_entries(x, o, y, rqr)
}

// ---- the start

// P* as given, P∞ and its root by the flags, and P∞ with nothing resolved; whether a state is diffuse. Into a state that is there: handed out by value it
// would stand in the caller's frame twice.
pub fn start(x: &Model, s: &mut State)
    requires { StartFits x.now.m (length x.now.p_star.now) (length x.now.flags.now) }
    ensures { cov_in x.now.m s.new ≡ start_from x.now.m x.now.p_star.now x.now.flags.now }
{
    dense::fill(&mut s.star, x.p_star);
    s.p_inf = diffuse::diffuse_cov(x.flags, x.m);
    s.unres = s.p_inf;
    s.root = diffuse::diffuse_root(x.flags, x.m);
    s.live = diffuse::any_flag(x.flags);
}
