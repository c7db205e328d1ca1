// A saved run's bytes: tested, loaded, saved. docs/SAVED.md has their places.
#![tactic(auto)]

mod numbers;

ghost use Rattle.std.specs.Prelude.{◌≡◌, ℕ, not, ◌∷◌, [], map, ◌+◌, ◌*◌, ◌≤◌, length, eqb};
ghost use Rattle.definition.specs.Run.{any_of, lay};
ghost use Rattle.definition.specs.Saved.{
  bits,
  float,
  section,
  saved_of,
  widths,
  wrong_count,
  numbers_in,
  done_in,
  other_nan,
  bad_sizes,
  bad_tallies,
  bad_floats,
  bad_saved,
};
ghost use Rattle.definition.specs.Refusals.{first_of};
ghost use Rattle.promise.specs.Calls.{refusal_of};
ghost use Rattle.saved.specs.Places.{bytes_at, numbers_at, put_at, whole, WholeRun, Room, Starts};
ghost use Rattle.saved.specs.Loaded.{carried_of, LoadedState, LoadedTallies};

use carried::Tallies;
use numbers::{eight, four, put_eight, put_four};
use promise::{Answer, Refusal};

// Where the sections after the mean's begin, and the length of all.
#[derive(Clone, Copy)]
struct Places {
    star: usize,
    p_inf: usize,
    root: usize,
    unres: usize,
    loglik: usize,
    tallies: usize,
    end: usize,
}

#[tactic(auto, using(laws::specs::Sizes::square_le))]
fn places_of(m: usize) -> Places
    requires { m ≤ 8 }
    ensures { Starts m result.star result.p_inf result.root result.unres result.loglik result.tallies result.end }
{
    let width = 4 + m * m * 8;
    let star = 40 + m * 8;
    let p_inf = star + width;
    let root = p_inf + width;
    let unres = root + width;
    let loglik = unres + width;
    Places {
        star,
        p_inf,
        root,
        unres,
        loglik,
        tallies: loglik + 12,
        end: loglik + 64,
    }
}

// ---- 15 BadSaved

// The count of the section at a place is not w.
fn miscounted(saved: &[u8], at: usize, w: usize) -> bool
    requires { at + 4 ≤ length saved.now }
    ensures { result ≡ not (eqb (bytes_at 4 at saved.now) w) }
{
    four(saved, at) as usize != w
}

fn wrong_count(saved: &[u8], m: usize) -> bool
    requires { (m ≤ 8) × WholeRun m saved.now }
    ensures { result ≡ wrong_count (widths m) saved.now }
{
    let at = places_of(m);
    let mm = m * m;
    miscounted(saved, 0, 4)
        | miscounted(saved, 36, m)
        | miscounted(saved, at.star, mm)
        | miscounted(saved, at.p_inf, mm)
        | miscounted(saved, at.root, mm)
        | miscounted(saved, at.unres, mm)
        | miscounted(saved, at.loglik, 1)
        | miscounted(saved, at.tallies, 6)
}

// p, m or r is another, or done plus n is above 4096.
fn bad_sizes(saved: &[u8], p: usize, m: usize, r: usize, n: usize) -> bool
    requires { (m ≤ 8) × WholeRun m saved.now }
    ensures { result ≡ bad_sizes p m r n (numbers_in (widths m) saved.now) }
{
    let done = eight(saved, 28);
    if done > 4096 {
        return true;
    }
    (eight(saved, 4) != p as u64)
        | (eight(saved, 12) != m as u64)
        | (eight(saved, 20) != r as u64)
        | (n as u64 > 4096 - done)
}

// A tally is out of its range.
fn bad_tallies(saved: &[u8], p: usize, m: usize) -> bool
    requires { (p ≤ 8) × (m ≤ 8) × WholeRun m saved.now × (bytes_at 8 28 saved.now ≤ 4096) }
    ensures { result ≡ bad_tallies p (numbers_in (widths m) saved.now) }
{
    let at = places_of(m).tallies;
    let done = eight(saved, 28);
    let heard = eight(saved, at + 12);
    (eight(saved, at + 4) > done)
        | (heard > done * p as u64)
        | (eight(saved, at + 20) > heard)
        | (eight(saved, at + 28) > 1)
        | (eight(saved, at + 36) > done)
        | (eight(saved, at + 44) > done)
}

// The bits of a NaN that is written otherwise.
fn other_nan(k: u64) -> bool
    ensures { result ≡ other_nan k }
{
    (k % 0x8000_0000_0000_0000 > 0x7FF0_0000_0000_0000) & (k != 0x7FF8_0000_0000_0000)
}

// ---- loading

// The k numbers from a place on, as floats, into the state from a place on; whether other NaNs' bits are among them. The index tells both places.
fn load_floats(saved: &[u8], at: usize, k: usize, state: &mut [f64], to: usize) -> bool
    requires { (at + k * 8 ≤ length saved.now) × (to + k ≤ length state.old) }
    ensures { (result ≡ any_of other_nan (numbers_at k at saved.now))
        × (state.new ≡ put_at to (map float (numbers_at k at saved.now)) state.old) }
{
    let mut found = false;
    for i in 0..k {
        let w = eight(saved, at + i * 8);
        found = found | other_nan(w);
        state[to + i] = bits::double(w);
    }
    found
}

// The state's sections; whether other NaNs' bits are among the floats, the log-likelihood's too.
fn load_state(saved: &[u8], m: usize, state: &mut [f64]) -> bool
    requires { (m ≤ 8) × WholeRun m saved.now × Room m state.old }
    ensures { (result ≡ bad_floats (numbers_in (widths m) saved.now))
        × LoadedState m saved.now state.new }
{
    let at = places_of(m);
    let mm = m * m;
    let mean = load_floats(saved, 40, m, state, 0);
    let star = load_floats(saved, at.star + 4, mm, state, m);
    let p_inf = load_floats(saved, at.p_inf + 4, mm, state, m + mm);
    let root = load_floats(saved, at.root + 4, mm, state, m + mm + mm);
    let unres = load_floats(saved, at.unres + 4, mm, state, m + mm + mm + mm);
    let loglik = other_nan(eight(saved, at.loglik + 4));
    mean | star | p_inf | root | unres | loglik
}

// Refused where the bytes are none of a run of these sizes that may go on by n periods. They are gone through once: where they are not refused, the state
// holds what was saved, the mean, P*, P∞, its root, the unresolved matrix.
pub fn load(
    saved: &[u8],
    p: usize,
    m: usize,
    r: usize,
    n: usize,
    state: &mut [f64],
) -> Result<(), Refusal>
    requires { (p ≤ 8) × (m ≤ 8) × Room m state.old }
    ensures number { refusal_of result ≡ first_of ((15, bad_saved p m r n saved.now) ∷ []) }
    ensures state { refusal_of result ≡ 0 → LoadedState m saved.now state.new }
{
    if saved.len() != places_of(m).end {
        return Err(Refusal::BadSaved);
    }
    if bad_sizes(saved, p, m, r, n) {
        return Err(Refusal::BadSaved);
    }
    let floats = load_state(saved, m, state);
    if wrong_count(saved, m) | bad_tallies(saved, p, m) | floats {
        return Err(Refusal::BadSaved);
    }
    Ok(())
}

// How many periods the saved run had done.
pub fn done(saved: &[u8], m: usize) -> usize
    requires { (m ≤ 8) × WholeRun m saved.now }
    ensures { result ≡ done_in (numbers_in (widths m) saved.now) }
{
    eight(saved, 28) as usize
}

// How far it had come.
pub fn load_tallies(saved: &[u8], m: usize) -> Tallies
    requires { (m ≤ 8) × WholeRun m saved.now }
    ensures { LoadedTallies (numbers_in (widths m) saved.now) result }
{
    let places = places_of(m);
    let at = places.tallies;
    let answer = Answer {
        loglik: bits::double(eight(saved, places.loglik + 4)),
        d_diffuse: eight(saved, at + 4) as usize,
        heard: eight(saved, at + 12) as usize,
        news: eight(saved, at + 20) as usize,
        cov_off: eight(saved, at + 36) as usize,
        mean_off: eight(saved, at + 44) as usize,
    };
    Tallies {
        done: done(saved, m),
        live: eight(saved, at + 28) == 1,
        answer,
    }
}

// ---- saving

// x as a section: its count, then each entry by its number. The index tells the place in `out` too.
fn put_section<T: Copy, F: Fn(T) -> u64>(out: &mut [u8], at: usize, x: &[T], number: F)
    requires callable { F.IsAlwaysCallable number }
    requires few { length x.now ≤ 64 }
    requires room { at + (4 + length x.now * 8) ≤ length out.old }
    ensures { (q : T → ℕ) → ((v : T) (k : ℕ) → F.post number v k → k ≡ q v) → out.new ≡ put_at at (section (map q x.now)) out.old }
{
    put_four(out, at, x.len() as u32);
    for (i, &v) in x.iter().enumerate() {
        put_eight(out, at + 4 + i * 8, number(v));
    }
}

// Floats as one.
fn put_floats(out: &mut [u8], at: usize, x: &[f64])
    requires { (length x.now ≤ 64) × (at + (4 + length x.now * 8) ≤ length out.old) }
    ensures { out.new ≡ put_at at (section (map bits x.now)) out.old }
{
    put_section(out, at, x, |v| bits::pattern(v));
}

// And whole numbers.
fn put_numbers(out: &mut [u8], at: usize, x: &[usize])
    requires { (length x.now ≤ 64) × (at + (4 + length x.now * 8) ≤ length out.old) }
    ensures { out.new ≡ put_at at (section x.now) out.old }
{
    put_section(out, at, x, |k| k as u64);
}

// A run is saved: the state as `load` leaves it, and how far the run has come.
pub fn save(out: &mut [u8], p: usize, m: usize, r: usize, state: &[f64], t: Tallies)
    requires { (m ≤ 8) × (whole m ≤ length out.old) × Room m state.now }
    ensures { out.new ≡ lay (saved_of p m r (carried_of m state.now t)) out.old }
{
    let at = places_of(m);
    let mm = m * m;
    let answer = t.answer;
    put_numbers(out, 0, &[p, m, r, t.done]);
    put_floats(out, 36, &state[..m]);
    put_floats(out, at.star, &state[m..m + mm]);
    put_floats(out, at.p_inf, &state[m + mm..m + mm + mm]);
    put_floats(out, at.root, &state[m + mm + mm..m + mm + mm + mm]);
    put_floats(
        out,
        at.unres,
        &state[m + mm + mm + mm..m + mm + mm + mm + mm],
    );
    put_floats(out, at.loglik, &[answer.loglik]);
    put_numbers(
        out,
        at.tallies,
        &[
            answer.d_diffuse,
            answer.heard,
            answer.news,
            t.live as usize,
            answer.cov_off,
            answer.mean_off,
        ],
    );
}
