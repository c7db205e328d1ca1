// filter.rs, the elements of one period of the covariance track in order, the period's test, and the step by T.
// It sees which readings are gaps, and no reading, mean or intercept. A period goes in up to three stretches: until an
// element is taken; then, the standard deviations worked out, until one is doubtful; then with the star root, which is
// built there and kept to the period's end.
#![tactic(auto)]

ghost use Rattle.std.specs.Prelude.{◌≡◌, ◌≤◌, ◌<◌, length};
ghost use Rattle.definition.specs.Run.{scan};
ghost use Rattle.definition.specs.Cov.{element_of, is_live, step_star, step_inf, stepped};
ghost use Rattle.dense.specs.Views.{mat};
ghost use Rattle.track.specs.View.{cov_in};
ghost use Rattle.acceptance.specs.Views.{fresh_in};
ghost use Rattle.element.specs.Views.{flat_of, carried_of, Kept, noise_in, fixed_in, InPeriod, SdKnown};
ghost use Rattle.period.specs.Views.{Ran, Begun, gaps_of, stop_of, before_first, Sizes, Stretch, TakenAt, RestByRoot, Rest};

use element::{Period, Records, Step};
use star::{StarRoot, Support};
use track::State;

// Where the next stretch begins, if one ends with element i: at a doubtful element; or past the first that is taken, if it
// began fresh.
fn stop(r: Step, fresh: bool, i: usize) -> Option<usize>
    requires { i < 8 }
    ensures { result ≡ stop_of r fresh i }
{
    match r {
        Step::Passed => None,
        Step::Taken => {
            if fresh {
                return Some(i + 1);
            }
            None
        }
        Step::Doubtful => Some(i),
    }
}

// A stretch without the star root, from element `from` on. How far it came.
fn stretch(
    s: &mut State,
    records: &mut Records,
    x: &Period,
    sd: Option<&[f64; 8]>,
    ys: &[f64],
    from: usize,
) -> usize
    requires { Sizes x.now from (length ys.now) × SdKnown x.now sd }
    ensures done { Stretch x.now.p x.now.m (noise_in x.now) (fixed_in x.now s.old) (gaps_of ys.now)
        (fresh_in sd.entry) from result (carried_of s.old records.old) (carried_of s.new records.new) }
    ensures kept { Kept s.old s.new }
{
    for i in from..x.p {
        let gap = float::is_nan(ys[i]);
        let r = element::element(s, records, x, sd, gap, i);
        if let Some(at) = stop(r, sd.is_none(), i) {
            return at;
        }
    }
    x.p
}

// Whether element i is taken, in a period that is not diffuse and had an update. One before `from` is done, and its
// record says so; from there on it is done here, with `again`, its F by the star root, at hand. This and by_root are handed
// P* alone: they hold whatever the rest of the state is (period Views.RestByRoot).
fn taken_at(
    star: &mut [f64; 64],
    records: &mut Records,
    x: &Period,
    sd: &[f64; 8],
    ys: &[f64],
    from: usize,
    again: f64,
    i: usize,
) -> bool
    requires { InPeriod x.now i × ((length ys.now ≡ x.now.p) × SdKnown x.now (Some sd)) }
    ensures { TakenAt x.now ys.now from i again
        star.old (flat_of records.old) star.new (flat_of records.new) result }
{
    if i < from {
        return record::is_news(records.kinds[i]);
    }
    let gap = float::is_nan(ys[i]);
    element::element_by_root(star, records, x, sd, gap, again, i)
}

// The last stretch, from element `from` on, with the star root. It begins at the predicted P*, is asked for each element,
// and follows those that are taken, the ones before `from` too.
fn by_root(
    star: &mut [f64; 64],
    records: &mut Records,
    x: &Period,
    sd: &[f64; 8],
    ys: &[f64],
    from: usize,
)
    requires { Sizes x.now from (length ys.now) × SdKnown x.now (Some sd) }
    ensures { RestByRoot x.now (gaps_of ys.now) from
        star.old (flat_of records.old) star.new (flat_of records.new) }
{
    let mut root = StarRoot {
        support: Support {
            places: [0; 8],
            count: 0,
        },
        cols: [0.0; 64],
        rank: 0,
    };
    root.build(x.p, x.m, x.design, x.pre);
    for i in 0..x.p {
        let again = star::ask(&root, x.p, x.m, x.design, x.hs, i);
        let taken = taken_at(star, records, x, sd, ys, from, again, i);
        if taken {
            star::follow(&mut root, x.p, x.m, x.design, x.hs, i);
        }
    }
}

// The elements after the first that was taken: the second stretch, and the last where it stopped.
fn rest(s: &mut State, records: &mut Records, x: &Period, ys: &[f64], from: usize)
    requires { Sizes x.now from (length ys.now) }
    ensures done { Rest x.now.p x.now.m (noise_in x.now) (fixed_in x.now s.old) (gaps_of ys.now) from
        (carried_of s.old records.old) (carried_of s.new records.new) }
    ensures kept { Kept s.old s.new }
{
    let sd = element::deviations(x.pre, x.m);
    let at = stretch(s, records, x, Some(&sd), ys, from);
    if at < x.p {
        by_root(&mut s.star, records, x, &sd, ys, at);
    }
}

// The elements of a period, in order, by its readings `ys`, of which only the gaps are seen. P*, P∞ and B go from
// predicted to filtered.
pub fn elements(s: &mut State, records: &mut Records, x: &Period, ys: &[f64])
    requires { (x.now.p ≤ 8) × ((x.now.m ≤ 8) × (length ys.now ≡ x.now.p)) }
    ensures ran { Ran x.now.p x.now.m
        (scan (element_of x.now.p x.now.m (noise_in x.now) (fixed_in x.now s.old))
        0 (before_first x.now.m s.old) (gaps_of ys.now))
        (flat_of records.new) s.new }
    ensures kept { Kept s.old s.new }
{
    let at = stretch(s, records, x, None, ys, 0);
    if at < x.p {
        rest(s, records, x, ys, at);
    }
}

// Whether the diffuse state lasts into a period: it did until then (`live`), and P∞ is not washed out.
fn lasts(p_inf: &[f64; 64], live: bool, m: usize) -> bool
    requires { m ≤ 8 }
    ensures { result ≡ is_live m live (mat m p_inf.now) }
{
    if live {
        return dense::frob_sq(p_inf, m) > acceptance::TOLERANCE_RANK;
    }
    false
}

// The period's test: whether it is diffuse; P∞ is set to zeros where it is not.
pub fn begin(s: &mut State, m: usize)
    requires { m ≤ 8 }
    ensures { Begun m s.old s.new }
{
    s.live = lasts(&s.p_inf, s.live, m);
    if !s.live {
        dense::clear(&mut s.p_inf, m);
    }
}

// T P* T' + R Q R', symmetrised, in place. `tp` is room for T P*.
fn step_star(star: &mut [f64; 64], t: &[f64; 64], rqr: &[f64; 64], tp: &mut [f64; 64], m: usize)
    requires { m ≤ 8 }
    ensures { mat m star.new
        ≡ step_star m (mat m t.now) (mat m rqr.now) (mat m star.old) }
{
    products::sandwich_in_place(star, t, tp, m);
    dense::add(star, rqr, m);
    dense::symmetrize_in_place(star, m);
}

// T P∞ T', symmetrised, in place.
fn step_inf(p_inf: &mut [f64; 64], t: &[f64; 64], tp: &mut [f64; 64], m: usize)
    requires { m ≤ 8 }
    ensures { mat m p_inf.new ≡ step_inf m (mat m t.now) (mat m p_inf.old) }
{
    products::sandwich_in_place(p_inf, t, tp, m);
    dense::symmetrize_in_place(p_inf, m);
}

// P* and P∞ go on by T, and while the diffuse state lasts the root B and the unresolved matrix too.
pub fn go_on(s: &mut State, t: &[f64; 64], rqr: &[f64; 64], m: usize)
    requires { m ≤ 8 }
    ensures { let c = cov_in m s.old in cov_in m s.new
        ≡ stepped m (mat m t.now) (mat m rqr.now) c.live c.star c.pinf c.root c.unres }
{
    let mut tp = [0.0; 64];
    step_star(&mut s.star, t, rqr, &mut tp, m);
    step_inf(&mut s.p_inf, t, &mut tp, m);
    if s.live {
        products::mul_into(&mut tp, t, &s.root, m);
        s.root = tp;
        products::sandwich_in_place(&mut s.unres, t, &mut tp, m);
    }
}
