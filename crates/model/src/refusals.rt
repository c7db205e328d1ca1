// Refusals 1 to 11 and 14 by the segments of the definition's table (`of_sizes` to `of_step`). Each function gives the first of its segment's tests that
// applies. A call's order is a chain of them; sizes and lengths come first, since what the others require follows from these two (specs/Past).
#![tactic(auto, unfolding(definition::specs::Refusals::first_of, definition::specs::Refusals::bad_length))]

ghost use Rattle.std.specs.Prelude.{◌≡◌, [], ◌∷◌, map, ◌<◌, ◌≤◌, length};
ghost use Rattle.definition.specs.Run.{any_of};
ghost use Rattle.definition.specs.Inputs.{is_infinity, class_of, noise_of};
ghost use Rattle.definition.specs.Refusals.{not_finite, first_of, of_sizes, of_lengths, of_reach, of_system, of_start, of_h, of_readings, of_step};
ghost use Rattle.definition.specs.Stretch.{outside_stretch};
ghost use Rattle.laws.specs.Accepted.{InRange};
ghost use Rattle.promise.specs.Calls.{refusal_of};
ghost use Rattle.promise.specs.Lent.{model_in, offsets_in};
ghost use Rattle.dense.specs.Views.{mat};
ghost use Rattle.model.specs.Places.{Square, SystemFits, StartGiven, StepFits};
ghost use Rattle.model.specs.Noise.{NoiseGiven};

use crate::{entries, lengths, lists, noise};
use promise::{Model, Offsets, Refusal};

// 1 Dimension.
pub fn of_sizes(x: &Model) -> Result<(), Refusal>
    ensures { refusal_of result ≡ first_of (of_sizes (model_in x.now)) }
{
    if lengths::outside(x) {
        return Err(Refusal::Dimension);
    }
    Ok(())
}

// 1 Dimension, of a stretch. Another test of the definition: a stretch may hold no period.
pub fn of_stretch_sizes(x: &Model) -> Result<(), Refusal>
    ensures { refusal_of result ≡ first_of ((1, outside_stretch x.now.p x.now.m x.now.r x.now.n) ∷ []) }
{
    if lengths::outside_stretch(x) {
        return Err(Refusal::Dimension);
    }
    Ok(())
}

// 2 Length. `room` is what is said of the outputs by lengths::room, by lengths::room_smoothed, or by a stretch's checks.
pub fn of_lengths(x: &Model, o: &Offsets, readings: usize, room: bool) -> Result<(), Refusal>
    requires { InRange x.now.p x.now.m x.now.r x.now.n }
    ensures { refusal_of result ≡ first_of (of_lengths (model_in x.now) (offsets_in o.now) readings room) }
{
    if lengths::lengths_fit(x, o, readings) & room {
        return Ok(());
    }
    Err(Refusal::Length)
}

// How far the lists reach, of a run of so many periods: 2 Length by T's, 14 ListShort by the designs'.
pub fn of_reach(x: &Model, periods: usize) -> Result<(), Refusal>
    requires { (0 < x.now.p) × (x.now.p ≤ 8) × (0 < x.now.m) × (x.now.m ≤ 8) }
    ensures { refusal_of result ≡ first_of (of_reach (model_in x.now) periods) }
{
    if lengths::outrun(x.m * x.m, x.ts.len(), periods) {
        return Err(Refusal::Length);
    }
    if lengths::list_short(x.repeats, x.p * x.m, x.zs.len(), periods) {
        return Err(Refusal::ListShort);
    }
    Ok(())
}

// 3 NonFiniteSystem, 4 NotPsd, 5 QNotDiagonal.
pub fn of_system(x: &Model) -> Result<(), Refusal>
    requires { SystemFits x.now.p x.now.r (length x.now.h.now) (length x.now.q.now) }
    ensures { refusal_of result ≡ first_of (of_system (model_in x.now)) }
{
    if entries::bad_system(x) {
        return Err(Refusal::NonFiniteSystem);
    }
    if entries::not_psd(x) {
        return Err(Refusal::NotPsd);
    }
    if entries::off_diagonal(x.q, x.r) {
        return Err(Refusal::QNotDiagonal);
    }
    Ok(())
}

// 6 NonFiniteStart, 7 StartShape.
pub fn of_start(x: &Model, o: &Offsets) -> Result<(), Refusal>
    requires { StartGiven x.now.m (length o.now.a1.now) (length x.now.p_star.now) (length x.now.flags.now) }
    ensures { refusal_of result ≡ first_of (of_start (model_in x.now) (offsets_in o.now)) }
{
    if entries::bad_start(x, o) {
        return Err(Refusal::NonFiniteStart);
    }
    if entries::start_shape(x, o.a1) {
        return Err(Refusal::StartShape);
    }
    Ok(())
}

// 8 NonDiagonalH.
pub fn of_h(x: &Model) -> Result<(), Refusal>
    requires { Square x.now.p (length x.now.h.now) }
    ensures { refusal_of result ≡ first_of (of_h (model_in x.now)) }
{
    if entries::off_diagonal(x.h, x.p) {
        return Err(Refusal::NonDiagonalH);
    }
    Ok(())
}

// 9 InfiniteReading.
pub fn of_readings(y: &[f64]) -> Result<(), Refusal>
    ensures { refusal_of result ≡ first_of (of_readings (any_of is_infinity (map class_of y.now))) }
{
    if entries::any_infinite(y) {
        return Err(Refusal::InfiniteReading);
    }
    Ok(())
}

// 10 MixedDriven, of the first T, 11 NonFiniteNoise. Where neither applies rqr holds R Q R'.
pub fn of_step(x: &Model, rqr: &mut [f64; 64]) -> Result<(), Refusal>
    requires { StepFits x.now.m (length x.now.t.now) (length x.now.ts.now) (length x.now.flags.now)
        × NoiseGiven x.now.m x.now.r x.now.rr.now x.now.q.now }
    ensures number { refusal_of result ≡ first_of (of_step (model_in x.now)) }
    ensures noise { refusal_of result ≡ 0 → mat x.now.m rqr.new ≡ noise_of x.now.m x.now.r x.now.rr.now x.now.q.now }
{
    let first = lists::part(x.t, x.ts, x.m, x.m, 0);
    if entries::mixed_driven(first, x.flags, x.m) {
        return Err(Refusal::MixedDriven);
    }
    if bad_noise(rqr, x) {
        return Err(Refusal::NonFiniteNoise);
    }
    Ok(())
}

// R Q R', symmetrised, has a non-finite entry.
fn bad_noise(rqr: &mut [f64; 64], x: &Model) -> bool
    requires { NoiseGiven x.now.m x.now.r x.now.rr.now x.now.q.now }
    ensures { (result ≡ not_finite (noise_of x.now.m x.now.r x.now.rr.now x.now.q.now))
        × (mat x.now.m rqr.new ≡ noise_of x.now.m x.now.r x.now.rr.now x.now.q.now) }
{
    noise::noise(rqr, x.rr, x.q, x.m, x.r);
    dense::matrix_not_finite(rqr, x.m)
}
