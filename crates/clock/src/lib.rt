// The sheet's settings as the library's model: three states, the offset in microseconds, the rate in thousandths of a ppb, and the radio's own error
// in a period's check, in microseconds. Both inputs read offset + radio error, each with noise of its own.
//
// Why thousandths of a ppb: the library's test for a diffuse period is absolute, and P∞ starts with ones. In ppb, two weeks of hourly periods with no
// check before the first would pass for a rate that is known. In thousandths it takes ten years (docs/PANEL.md).
#![tactic(auto)]

ghost use Rattle.std.specs.Prelude.{◌≡◌, ◌<◌, [], length, is_some, if◌then◌else◌};
ghost use Rattle.clock.specs.Transition.{double_of, kept_of, keeping_of, transition_of, own_of, in_season, Seasons};

use promise::{Model, Offsets};
use sheet::answers::{Noise, Season, Settings, Spread, Start};

// What a ppb has of the rate's unit.
const PER_PPB: f64 = 1000.0;

// A rate of one unit moves the offset by a microsecond in so many seconds.
const SECONDS: f64 = 1000000.0;

// The thousandths of a rate that is kept whole.
const WHOLE: f64 = 1000.0;

fn double(n: u64) -> f64
    ensures { result ≡ double_of n }
{
    std::num::nearest_u64_to_f64(n)
}

fn signed(minus: bool, n: u64) -> f64 {
    if minus { -double(n) } else { double(n) }
}

// A standard deviation is squared, a variance taken as it is; `unit` is how many of the state's units one of the sheet's has. Not given: 0.
fn variance(s: Option<Spread>, unit: f64) -> f64 {
    match s {
        Some(Spread::Sd(n)) => {
            let d = double(n) * unit;
            d * d
        }
        Some(Spread::Variance(n)) => double(n) * (unit * unit),
        None => 0.0,
    }
}

// The start's mean and variance: zeros of a state that is flagged.
fn mean(s: Option<Start>, unit: f64) -> f64 {
    match s {
        Some(Start::Known { minus, size, .. }) => signed(minus, size) * unit,
        _ => 0.0,
    }
}

fn start_variance(s: Option<Start>, unit: f64) -> f64 {
    match s {
        Some(Start::Known { spread, .. }) => variance(Some(spread), unit),
        _ => 0.0,
    }
}

// A byte, as the library is lent the flags, from C too.
fn flag(s: Option<Start>) -> u8 {
    match s {
        Some(Start::Known { .. }) => 0,
        _ => 1,
    }
}

fn diagonal(a: f64, b: f64, c: f64) -> [f64; 9] {
    [a, 0.0, 0.0, 0.0, b, 0.0, 0.0, 0.0, c]
}

pub fn design() -> [f64; 6] {
    [1.0, 0.0, 1.0, 1.0, 0.0, 1.0]
}

pub fn identity() -> [f64; 9] {
    diagonal(1.0, 1.0, 1.0)
}

pub fn noise(s: Settings) -> [f64; 4] {
    let (first, second) = match s.noise {
        Noise::One(a) => (Some(a), None),
        Noise::Two(a, b) => (Some(a), Some(b)),
    };
    [variance(first, 1.0), 0.0, 0.0, variance(second, 1.0)]
}

// How much of the rate stays: all of it where nothing is given, and 1.0 exactly of 1000 thousandths.
fn kept(thousandths: Option<u64>) -> f64
    ensures { result ≡ kept_of thousandths }
{
    thousandths.map_or(1.0, |n| double(n) / WHOLE)
}

// The offset grows by the rate; of the rate so much is kept; of the radio's error nothing stays.
fn keeping(s: Settings, thousandths: Option<u64>) -> [f64; 9]
    ensures { result ≡ keeping_of s thousandths }
{
    let step = double(s.period) / SECONDS;
    let kept = kept(thousandths);
    [1.0, step, 0.0, 0.0, kept, 0.0, 0.0, 0.0, 0.0]
}

pub fn transition(s: Settings) -> [f64; 9]
    ensures { result ≡ transition_of s }
{
    keeping(s, s.rate_keeps)
}

// Whether the season has begun in period k, from 0.
fn in_season(season: Option<Season>, k: usize) -> bool
    requires { k < 4096 }
    ensures { result ≡ in_season season k }
{
    season.is_some_and(|season| season.first <= k as u64 + 1)
}

// Where the season has begun.
fn own(s: Settings) -> [f64; 9]
    ensures { result ≡ own_of s }
{
    keeping(s, s.season.map(|season| season.keeps))
}

// T of period k, from 0, by the T of the periods before the season and the T of its own.
fn of_period<'a>(season: Option<Season>, before: &'a [f64], own: &'a [f64], k: usize) -> &'a [f64]
    requires { k < 4096 }
    ensures { result.now ≡ (if in_season season k then own.now else before.now) }
{
    if in_season(season, k) { own } else { before }
}

// T of each of the 4096 periods that a run may have, one after the other.
pub fn transitions(s: Settings, list: &mut [f64])
    requires { 36864 ≡ length list.old }
    ensures { Seasons s list.new }
{
    let before = transition(s);
    let own = own(s);
    // By index: no lemma of std says what a list is after a loop over its `chunks_exact_mut`.
    for k in 0..4096 {
        let t = of_period(s.season, &before, &own, k);
        list[9 * k..9 * k + 9].copy_from_slice(t);
    }
}

pub fn disturbances(s: Settings) -> [f64; 9] {
    diagonal(
        variance(s.wander_offset, 1.0),
        variance(s.wander_rate, PER_PPB),
        variance(s.radio, 1.0),
    )
}

pub fn start_mean(s: Settings) -> [f64; 3] {
    [mean(s.offset, 1.0), mean(s.rate, PER_PPB), 0.0]
}

pub fn start_cov(s: Settings) -> [f64; 9] {
    diagonal(
        start_variance(s.offset, 1.0),
        start_variance(s.rate, PER_PPB),
        variance(s.radio, 1.0),
    )
}

pub fn flags(s: Settings) -> [u8; 3] {
    [flag(s.offset), flag(s.rate), 0]
}

// The first k places, or all.
pub fn first<'a>(s: &'a [f64], k: usize) -> &'a [f64] {
    &s[..k.min(s.len())]
}

// What the library is handed of the one T, and of the list: it takes the one or the other, and wants the other one empty.
pub fn once<'a>(s: Settings, t: &'a [f64]) -> &'a [f64]
    ensures { result.now ≡ (if is_some s.season then [] else t.now) }
{
    if s.season.is_none() { t } else { &[] }
}

pub fn listed<'a>(s: Settings, list: &'a [f64]) -> &'a [f64]
    ensures { result.now ≡ (if is_some s.season then list.now else []) }
{
    if s.season.is_none() { &[] } else { list }
}

// The numbers of a sheet's model, which the library is lent.
#[derive(Drop)]
pub struct Clock<'a> {
    settings: Settings,
    z: [f64; 6],
    h: [f64; 4],
    t: [f64; 9],
    list: &'a [f64],
    rr: [f64; 9],
    q: [f64; 9],
    p_star: [f64; 9],
    flags: [u8; 3],
    c: [f64; 3],
    d: [f64; 2],
    a1: [f64; 3],
}

impl<'a> Clock<'a> {
    // `list`: what `transitions` made of the same settings.
    pub fn of(s: Settings, list: &'a [f64]) -> Clock<'a>
        ensures { (result.settings ≡ s) × (result.t ≡ transition_of s) × (result.list.now ≡ list.now) }
    {
        Clock {
            settings: s,
            z: design(),
            h: noise(s),
            t: transition(s),
            list,
            rr: identity(),
            q: disturbances(s),
            p_star: start_cov(s),
            flags: flags(s),
            c: [0.0; 3],
            d: [0.0; 2],
            a1: start_mean(s),
        }
    }

    pub fn model(&self, n: usize) -> Model<'_>
        ensures sizes { (result.p ≡ 2) × (result.m ≡ 3) × (result.r ≡ 3) × (result.n ≡ n) }
        ensures lent { (result.z.now ≡ self.now.z) × (result.h.now ≡ self.now.h) × (result.rr.now ≡ self.now.rr) × (result.q.now ≡ self.now.q) }
        ensures transitions { (result.t.now ≡ (if is_some self.now.settings.season then [] else self.now.t)) × (result.ts.now ≡ (if is_some self.now.settings.season then self.now.list.now else [])) }
        ensures start { (result.p_star.now ≡ self.now.p_star) × (result.flags.now ≡ self.now.flags) }
    {
        Model {
            p: 2,
            m: 3,
            r: 3,
            n,
            z: &self.z,
            zs: &[],
            repeats: false,
            h: &self.h,
            t: once(self.settings, &self.t),
            ts: listed(self.settings, self.list),
            rr: &self.rr,
            q: &self.q,
            p_star: &self.p_star,
            flags: &self.flags,
        }
    }

    pub fn offsets(&self) -> Offsets<'_>
        ensures sizes { (3 ≡ length result.c.now) × (2 ≡ length result.d.now) × (3 ≡ length result.a1.now) }
        ensures lent { (result.c.now ≡ self.now.c) × (result.d.now ≡ self.now.d) × (result.a1.now ≡ self.now.a1) }
    {
        Offsets {
            c: &self.c,
            d: &self.d,
            a1: &self.a1,
        }
    }
}
