// filter.rs, one element of a period on the covariance track: the updates and the record that its verdict brings. Its
// mean is the crate mean's. The star root is seldom asked. So `element` goes without it and stops at an element that
// needs it, and `element_by_root` has its F at hand.
#![tactic(auto)]

ghost use Rattle.std.specs.Prelude.{◌≡◌, ◌≤◌, ◌<◌};
ghost use Rattle.definition.specs.Cov.{k1_of, root_less, skipped, usual, sd_of, sd_at};
ghost use Rattle.definition.specs.Dense.{outer_sub, over};
ghost use Rattle.dense.specs.Views.{vec, mat};
ghost use Rattle.promise.specs.Records.{cause_in};
ghost use Rattle.acceptance.specs.Views.{fresh_in};
ghost use Rattle.element.specs.Views.{flat_of, carried_of, Kept, noise_in, fixed_in, Updated, Entered, Recorded, Settled, InPeriod, SdKnown, WithoutRoot, ByRoot};

use acceptance::{Candidate, Finding};
use promise::Cause;
use track::State;

// How an element ended: nothing moved, or it was taken; or it is left as it was, since the star root has to say.
#[derive(Clone, Copy)]
pub enum Step {
    Passed,
    Taken,
    Doubtful,
}

// What stays the same through a period: its predicted P*, its design, its noise H; p elements and m states.
#[derive(Clone, Copy)]
pub struct Period<'a> {
    pub pre: &'a [f64; 64],
    pub design: &'a [f64; 64],
    pub hs: &'a [f64; 64],
    pub p: usize,
    pub m: usize,
}

// The records of a period's elements in the flat form: the kinds, F*, F∞, and the rows M* and M∞. Lists side by side, as C lends the flat parts.
#[derive(Clone, Copy)]
pub struct Records {
    pub kinds: [u8; 8],
    pub f_star: [f64; 8],
    pub f_inf: [f64; 8],
    pub m_star: [f64; 64],
    pub m_inf: [f64; 64],
}

// The gain K1 of a diffuse element.
fn k1(m_star: &[f64; 8], k0: &[f64; 8], f: f64, f_inf: f64, m: usize) -> [f64; 8]
    requires { m ≤ 8 }
    ensures { vec m result ≡ k1_of m (vec m m_star.now) (vec m k0.now) f f_inf }
{
    let f12 = -f / f_inf;
    dense::vector(
        m,
        |j| dense::nth(m_star, m, j) / f_inf + dense::nth(k0, m, j) * f12,
    )
}

// B (I - u u' / u' u), u = B' z.
fn root_less(root: &mut [f64; 64], z: &[f64; 8], m: usize)
    requires { m ≤ 8 }
    ensures { mat m root.new ≡ root_less m (vec m z.now) (mat m root.old) }
{
    let u = dense::mat_t_vec(root, z, m);
    let mut bu = [0.0; 8];
    dense::mat_vec(&mut bu, root, &u, m);
    let g = dense::over(&u, dense::dot(&u, &u, m), m);
    dense::outer_sub(root, &bu, &g, m);
}

// P* - M* K'.
fn usual_update(star: &mut [f64; 64], m_star: &[f64; 8], f: f64, m: usize)
    requires { m ≤ 8 }
    ensures { mat m star.new
        ≡ outer_sub m (mat m star.old) (vec m m_star.now)
        (over m (vec m m_star.now) f) }
{
    let k = dense::over(m_star, f, m);
    dense::outer_sub(star, m_star, &k, m);
}

// P* - M* K0' - M∞ K1' and P∞ - M∞ K0'.
fn diffuse_update(
    star: &mut [f64; 64],
    p_inf: &mut [f64; 64],
    m_star: &[f64; 8],
    m_inf: &[f64; 8],
    f: f64,
    f_inf: f64,
    m: usize,
)
    requires { m ≤ 8 }
    ensures { Updated m star.old p_inf.old m_star.now m_inf.now
        f f_inf star.new p_inf.new }
{
    let k0 = dense::over(m_inf, f_inf, m);
    let k1 = k1(m_star, &k0, f, f_inf, m);
    dense::outer_sub(star, m_star, &k0, m);
    dense::outer_sub(star, m_inf, &k1, m);
    dense::outer_sub(p_inf, m_inf, &k0, m);
}

impl Records {
    // The record of element i: its kind, F*, F∞, M* and M∞. The kind by its number, as the flat parts hold it.
    fn enter(
        &mut self,
        kind: u8,
        f: f64,
        g: f64,
        m_star: &[f64; 8],
        m_inf: &[f64; 8],
        i: usize,
        m: usize,
    )
        requires { (i < 8) × (m ≤ 8) }
        ensures { Entered i m kind f g (vec m m_star.now) (vec m m_inf.now) (flat_of self.old) (flat_of self.new) }
    {
        self.kinds[i] = kind;
        self.f_star[i] = f;
        self.f_inf[i] = g;
        dense::put_row(&mut self.m_star, m_star, i, m);
        dense::put_row(&mut self.m_inf, m_inf, i, m);
    }

    // The record of an element that is skipped: its numbers and vectors are +0.0.
    fn skip(&mut self, cause: Cause, i: usize, m: usize)
        requires { (i < 8) × (m ≤ 8) }
        ensures { Recorded m i (skipped (cause_in cause)) (flat_of self.old) (flat_of self.new) }
    {
        let none = [0.0; 8];
        self.enter(u8::from(cause), 0.0, 0.0, &none, &none, i, m);
    }

    // The record of a usual element: F∞ and M∞ are +0.0.
    fn usual(&mut self, f: f64, m_star: &[f64; 8], i: usize, m: usize)
        requires { (i < 8) × (m ≤ 8) }
        ensures { Recorded m i (usual f (vec m m_star.now)) (flat_of self.old) (flat_of self.new) }
    {
        let none = [0.0; 8];
        self.enter(promise::USUAL, f, 0.0, m_star, &none, i, m);
    }
}

// What a finding brings: the update and the record. A doubtful element leaves all as it was.
fn settle(
    s: &mut State,
    records: &mut Records,
    d: Finding,
    e: &Candidate,
    f: f64,
    m_star: &[f64; 8],
    m_inf: &[f64; 8],
    i: usize,
) -> Step
    requires { (i < 8) × (e.now.m ≤ 8) }
    ensures settled { Settled e.now.m i (vec e.now.m e.now.z.now) f d m_star.now m_inf.now result
        (carried_of s.old records.old) (carried_of s.new records.new) }
    ensures kept { Kept s.old s.new }
{
    match d {
        Finding::Nothing(cause) => {
            records.skip(cause, i, e.m);
            Step::Passed
        }
        Finding::Usual => {
            usual_update(&mut s.star, m_star, f, e.m);
            records.usual(f, m_star, i, e.m);
            Step::Taken
        }
        Finding::Diffuse(g) => {
            diffuse_update(&mut s.star, &mut s.p_inf, m_star, m_inf, f, g, e.m);
            root_less(&mut s.root, e.z, e.m);
            records.enter(promise::DIFFUSE, f, g, m_star, m_inf, i, e.m);
            Step::Taken
        }
        Finding::Doubtful(_) => Step::Doubtful,
    }
}

// Element i of a period, the star root not asked; a gap is passed over. `sd` are the standard deviations of the period's
// predicted P*, once it had an update.
pub fn element(
    s: &mut State,
    records: &mut Records,
    x: &Period,
    sd: Option<&[f64; 8]>,
    gap: bool,
    i: usize,
) -> Step
    requires { InPeriod x.now i × SdKnown x.now sd }
    ensures done { WithoutRoot x.now.p x.now.m (noise_in x.now) (fixed_in x.now s.old) (fresh_in sd.entry) i gap
        (carried_of s.old records.old) (carried_of s.new records.new) result }
    ensures kept { Kept s.old s.new }
{
    if gap {
        records.skip(Cause::Gap, i, x.m);
        return Step::Passed;
    }
    let z = dense::row_to_vec(x.design, x.p, x.m, i);
    let e = Candidate {
        z: &z,
        h: dense::get(x.hs, x.p, i, i),
        pre: x.pre,
        sd,
        m: x.m,
    };
    let mut m_star = [0.0; 8];
    dense::mat_vec(&mut m_star, &s.star, &z, x.m);
    let f = e.f_star(&m_star);
    let mut m_inf = [0.0; 8];
    let d = e.judge(s, &mut m_inf, f);
    settle(s, records, d, &e, f, &m_star, &m_inf, i)
}

// Element i of a period that is not diffuse and had an update, with `again`, its F by the star root, at hand. Whether it
// was taken. It is handed P* alone: it holds whatever the rest of the state is (period Views.RestByRoot).
pub fn element_by_root(
    star: &mut [f64; 64],
    records: &mut Records,
    x: &Period,
    sd: &[f64; 8],
    gap: bool,
    again: f64,
    i: usize,
) -> bool
    requires { InPeriod x.now i × SdKnown x.now (Some sd) }
    ensures { ByRoot x.now i gap again star.old (flat_of records.old) star.new (flat_of records.new) result }
{
    if gap {
        records.skip(Cause::Gap, i, x.m);
        return false;
    }
    let z = dense::row_to_vec(x.design, x.p, x.m, i);
    let e = Candidate {
        z: &z,
        h: dense::get(x.hs, x.p, i, i),
        pre: x.pre,
        sd: Some(sd),
        m: x.m,
    };
    let mut m_star = [0.0; 8];
    dense::mat_vec(&mut m_star, star, &z, x.m);
    let f = e.f_star(&m_star);
    match e.is_usual(star, again, f) {
        Err(cause) => {
            records.skip(cause, i, x.m);
            false
        }
        Ok(()) => {
            usual_update(star, &m_star, f, x.m);
            records.usual(f, &m_star, i, x.m);
            true
        }
    }
}

// The standard deviation of state j by P*; 0 where the variance is not above 0.
fn sd_at(pre: &[f64; 64], m: usize, j: usize) -> f64
    requires { (m ≤ 8) × (j < m) }
    ensures { result ≡ sd_at m (mat m pre.now) j }
{
    float::sqrt(float::max0(dense::get(pre, m, j, j)))
}

// The standard deviations of the predicted P*.
pub fn deviations(pre: &[f64; 64], m: usize) -> [f64; 8]
    requires { m ≤ 8 }
    ensures { vec m result ≡ sd_of m (mat m pre.now) }
{
    dense::vector(m, |j| sd_at(pre, m, j))
}
