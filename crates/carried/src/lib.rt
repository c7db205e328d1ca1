// The state that a run carries from one stretch of periods to the next, lent as one part: the mean, P*, P∞, its root, P∞ with
// nothing resolved. What lies behind them stays. An empty part: the run begins at the start, and its state is not kept. No Option of a lent
// part: both passes take it, one after the other, and each would take it apart.
#![tactic(auto)]

ghost use Rattle.std.specs.Prelude.{◌≡◌, ◌≤◌, ◌+◌, length, take, drop};
ghost use Rattle.dense.specs.Views.{vec};
ghost use Rattle.track.specs.View.{cov_in};
ghost use Rattle.model.specs.Places.{StartFits};
ghost use Rattle.carried.specs.State.{StateFits, cov_from, cov_kept, mean_from, mean_kept, Written};

use promise::{Answer, Model};
use track::State;

// How far a run has come: the periods done, whether the diffuse state lasts, and the answer so far.
#[derive(Clone, Copy)]
pub struct Tallies {
    pub done: usize,
    pub live: bool,
    pub answer: Answer,
}

impl Tallies {
    // Before the first period. A run that is lent no state takes `live` from the start.
    pub const NOTHING: Tallies = Tallies {
        done: 0,
        live: false,
        answer: Answer::NOTHING,
    };
}

// k numbers of the state, from a place on, into the first places of an array.
fn part(state: &[f64], from: usize, k: usize, out: &mut [f64; 64])
    requires { (k ≤ 64) × (from ≤ 512) × (from + k ≤ length state.now) }
    ensures { vec k out.new ≡ take k (drop from state.now) }
{
    let to = from + k;
    dense::fill(out, &state[from..to]);
}

// The first k numbers of an array, into the state from a place on.
fn put(state: &mut [f64], a: &[f64; 64], from: usize, k: usize)
    requires { (k ≤ 64) × (from ≤ 512) × (from + k ≤ length state.old) }
    ensures { Written from k a.now state.old state.new }
{
    let to = from + k;
    dense::save(&mut state[from..to], a);
}

// Where the covariance pass begins.
#[tactic(auto, using(crate::proofs::Laws::four_in))]
pub fn cov_from(state: &[f64], x: &Model, live: bool, s: &mut State)
    requires { StateFits x.now.m (length state.now)
        × StartFits x.now.m (length x.now.p_star.now) (length x.now.flags.now) }
    ensures { cov_in x.now.m s.new
        ≡ cov_from x.now.m state.now live x.now.p_star.now x.now.flags.now }
{
    let m = x.m;
    if state.len() == 0 {
        return model::start(x, s);
    }
    let mm = m * m;
    s.live = live;
    part(state, m, mm, &mut s.star);
    part(state, m + mm, mm, &mut s.p_inf);
    part(state, m + mm + mm, mm, &mut s.root);
    part(state, m + mm + mm + mm, mm, &mut s.unres);
}

// What the covariance pass leaves.
#[tactic(auto, using(crate::proofs::Laws::four_in))]
pub fn keep_cov(state: &mut [f64], s: &State, m: usize)
    requires { StateFits m (length state.old) }
    ensures { state.new ≡ cov_kept m state.old (cov_in m s.now) }
{
    if state.len() == 0 {
        return;
    }
    let mm = m * m;
    put(state, &s.star, m, mm);
    put(state, &s.p_inf, m + mm, mm);
    put(state, &s.root, m + mm + mm, mm);
    put(state, &s.unres, m + mm + mm + mm, mm);
}

// Where the mean pass begins.
pub fn mean_from(state: &[f64], a1: &[f64], m: usize) -> [f64; 8]
    requires { StateFits m (length state.now) × (length a1.now ≡ m) }
    ensures { vec m result ≡ mean_from m state.now a1.now }
{
    if state.len() == 0 {
        return dense::load(a1);
    }
    dense::load(&state[..m])
}

// What the mean pass leaves.
pub fn keep_mean(state: &mut [f64], a: &[f64; 8], m: usize)
    requires { StateFits m (length state.old) }
    ensures { state.new ≡ mean_kept m state.old (vec m a.now) }
{
    if state.len() == 0 {
        return;
    }
    dense::save(&mut state[..m], a);
}
