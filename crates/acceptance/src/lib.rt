// filter.rs, the verdict on one element of a period: the tests that it has to pass, and what they find. The first that
// it fails is the cause why it is passed over. What a finding brings is the crate element's. The star root is seldom
// asked. So `judge` goes without it and says where it has to be asked, and `is_usual` has its F at hand.
#![tactic(auto)]

ghost use Rattle.std.specs.Prelude.{◌≡◌, ◌≤◌};
ghost use Rattle.definition.specs.Cov.{f_star_by, f_inf_by, diffuse_test, scaled_test, bound, against, dust};
ghost use Rattle.dense.specs.Views.{vec, mat};
ghost use Rattle.acceptance.specs.Views.{fresh_in, sd_in, dust_of, ByDust, Usually, Judged, DustBy, UsualBy};

use promise::Cause;
use track::State;

// ---- the tolerances, by their names in the Rust

// A variance that is not above this part of its scale is cancellation noise. The scale is the same sum with nothing
// cancelled, |z|' |P| |z| and h. And a period is diffuse while the sum of the squares of P∞ is above this number
// itself.
pub const TOLERANCE_RANK: f64 = 1e-10;

// A variance that is not above this part of its reference is roundoff of the updates before it. The reference is a
// scale that updates can't collapse: for F∞ that of P∞ with nothing resolved, for F* that of the period's predicted P*.
pub const TOLERANCE_CANCEL: f64 = 1e-14;

// An F* that is above TOLERANCE_CANCEL of its reference, and not above this part of it, is suspect.
pub const SUSPECT_DUST: f64 = 1e-6;

// The dust test's verdict: F* against the period's predicted P*. A suspect has the reference that it was read against.
#[derive(Clone, Copy)]
pub enum Dust {
    Clear,
    Below,
    Suspect(f64),
}

// What is found of an element while the star root is not asked: nothing, and why. A diffuse one has its F∞. A doubtful
// one, on which the star root has to say, has its reference.
#[derive(Clone, Copy)]
pub enum Finding {
    Nothing(Cause),
    Usual,
    Diffuse(f64),
    Doubtful(f64),
}

// An element to judge: its row z of the design and its noise h; the period's predicted P*, and the standard deviations of
// that, which are worked out once the period had an update; m states.
#[derive(Clone, Copy)]
pub struct Candidate<'a> {
    pub z: &'a [f64; 8],
    pub h: f64,
    pub pre: &'a [f64; 64],
    pub sd: Option<&'a [f64; 8]>,
    pub m: usize,
}

// |z|' sd, sd the standard deviations of the predicted P*. The reference is at most its square and h.
fn bound(z: &[f64; 8], sd: &[f64; 8], m: usize) -> f64
    requires { m ≤ 8 }
    ensures { result ≡ bound m (vec m z.now) (vec m sd.now) }
{
    dense::sum(
        m,
        |j| float::abs(dense::nth(z, m, j)) * dense::nth(sd, m, j),
    )
}

// F* against its reference.
fn against(f: f64, reference: f64) -> Dust
    ensures { dust_of result ≡ against f reference }
{
    if f <= TOLERANCE_CANCEL * reference {
        return Dust::Below;
    }
    if f > SUSPECT_DUST * reference {
        return Dust::Clear;
    }
    Dust::Suspect(reference)
}

// What the dust test finds. A suspect is accepted in a diffuse period (`live`); in any other it stays doubtful.
fn by_dust(d: Dust, live: bool) -> Finding
    ensures { ByDust live d result }
{
    match d {
        Dust::Clear => Finding::Usual,
        Dust::Below => Finding::Nothing(Cause::BelowDust),
        Dust::Suspect(reference) => {
            if live {
                return Finding::Usual;
            }
            Finding::Doubtful(reference)
        }
    }
}

// What the dust test finds, F by the star root at hand: a suspect is accepted if that is no dust.
fn by_root(d: Dust, again: f64) -> Result<(), Cause>
    ensures { DustBy again d result }
{
    match d {
        Dust::Clear => Ok(()),
        Dust::Below => Err(Cause::BelowDust),
        Dust::Suspect(reference) => {
            if again > TOLERANCE_CANCEL * reference {
                return Ok(());
            }
            Err(Cause::FailedReplay)
        }
    }
}

impl Candidate<'_> {
    // F* = z' M* + h, or 0 where that is not above 0.
    pub fn f_star(&self, m_star: &[f64; 8]) -> f64
        requires { self.now.m ≤ 8 }
        ensures { let e = self.now in result ≡ f_star_by e.m (vec e.m e.z.now) e.h (vec e.m m_star.now) }
    {
        float::max0(dense::dot(self.z, m_star, self.m) + self.h)
    }

    // F∞ = z' M∞, likewise.
    fn f_inf(&self, m_inf: &[f64; 8]) -> f64
        requires { self.now.m ≤ 8 }
        ensures { let e = self.now in result ≡ f_inf_by e.m (vec e.m e.z.now) (vec e.m m_inf.now) }
    {
        float::max0(dense::dot(self.z, m_inf, self.m))
    }

    // Diffuse acceptance: F∞, and the same by the root B of P∞, against their scales.
    fn is_diffuse(&self, s: &State, f_inf: f64, f_root: f64) -> bool
        requires { self.now.m ≤ 8 }
        ensures { let e = self.now in result
            ≡ diffuse_test e.m (vec e.m e.z.now) (mat e.m s.now.p_inf) (mat e.m s.now.unres) f_inf f_root }
    {
        if f_inf > TOLERANCE_RANK * dense::abs_quad_form(self.z, &s.p_inf, self.m) {
            return f_root > TOLERANCE_CANCEL * dense::abs_quad_form(self.z, &s.unres, self.m);
        }
        false
    }

    // The first test of usual acceptance: F* against its scale.
    fn is_scaled(&self, star: &[f64; 64], f: f64) -> bool
        requires { self.now.m ≤ 8 }
        ensures { let e = self.now in result ≡ scaled_test e.m (vec e.m e.z.now) e.h (mat e.m star.now) f }
    {
        f > TOLERANCE_RANK * (dense::abs_quad_form(self.z, star, self.m) + self.h)
    }

    // The second test of usual acceptance: F* against the predicted P*; none before the period's first update. The bound
    // costs little and settles an F* far above dust; the reference is worked out for the rest.
    fn dust_test(&self, f: f64) -> Dust
        requires { self.now.m ≤ 8 }
        ensures { let e = self.now in dust_of result
            ≡ dust e.m (vec e.m e.z.now) e.h (mat e.m e.pre.now) (sd_in e.m e.sd) (fresh_in e.sd) f }
    {
        match self.sd {
            None => Dust::Clear,
            Some(sd) => {
                let b = bound(self.z, sd, self.m);
                if f > SUSPECT_DUST * (b * b + self.h) {
                    return Dust::Clear;
                }
                against(f, dense::abs_quad_form(self.z, self.pre, self.m) + self.h)
            }
        }
    }

    // Usual acceptance: both tests, the scale first.
    fn usually(&self, live: bool, star: &[f64; 64], f: f64) -> Finding
        requires { self.now.m ≤ 8 }
        ensures { Usually self.now live star.now f result }
    {
        if self.is_scaled(star, f) {
            let d = self.dust_test(f);
            return by_dust(d, live);
        }
        Finding::Nothing(Cause::TooSmall)
    }

    // The verdict, F* at hand: diffuse acceptance in a diffuse period, where M∞ is written, or else usual.
    pub fn judge(&self, s: &State, m_inf: &mut [f64; 8], f: f64) -> Finding
        requires { self.now.m ≤ 8 }
        ensures { Judged self.now s.now f m_inf.new result }
    {
        if !s.live {
            return self.usually(s.live, &s.star, f);
        }
        dense::mat_vec(m_inf, &s.p_inf, self.z, self.m);
        let g = self.f_inf(m_inf);
        let u = dense::mat_t_vec(&s.root, self.z, self.m);
        if self.is_diffuse(s, g, dense::dot(&u, &u, self.m)) {
            return Finding::Diffuse(g);
        }
        self.usually(s.live, &s.star, f)
    }

    // Usual acceptance in a period that is not diffuse, with `again`, F by the star root, at hand.
    pub fn is_usual(&self, star: &[f64; 64], again: f64, f: f64) -> Result<(), Cause>
        requires { self.now.m ≤ 8 }
        ensures { UsualBy self.now again star.now f result }
    {
        if self.is_scaled(star, f) {
            let d = self.dust_test(f);
            return by_root(d, again);
        }
        Err(Cause::TooSmall)
    }
}
