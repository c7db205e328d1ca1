// The words of the promises: what a call is given, what it answers with, and the record of an element. What the calls promise of them is in specs/.
#![tactic(auto)]

ghost use Rattle.std.specs.Prelude.{◌≡◌};
ghost use Rattle.definition.specs.Parts.{cause_no};
ghost use Rattle.promise.specs.Refusals.{number};
ghost use Rattle.promise.specs.Records.{cause_in, flat_of, record_from};

// ---- what a call is given

// The system and the start, but for their offsets: p elements, m states, r disturbances and n periods; Z once or a list of them, and whether the last of
// a short list repeats; H; T once or a list; R, Q; the start's P* and the flags of the states that nothing is known of.
#[derive(Clone, Copy)]
pub struct Model<'a> {
    pub p: usize,
    pub m: usize,
    pub r: usize,
    pub n: usize,
    pub z: &'a [f64],
    pub zs: &'a [f64],
    pub repeats: bool,
    pub h: &'a [f64],
    pub t: &'a [f64],
    pub ts: &'a [f64],
    pub rr: &'a [f64],
    pub q: &'a [f64],
    pub p_star: &'a [f64],
    pub flags: &'a [u8],
}

// The offsets: the states' intercept c, the readings' intercept d, the start's mean.
#[derive(Clone, Copy)]
pub struct Offsets<'a> {
    pub c: &'a [f64],
    pub d: &'a [f64],
    pub a1: &'a [f64],
}

// ---- what it answers with

// The answer: the log-likelihood; how many periods were diffuse, how many readings were not NaN, how many records are usual or diffuse; and the first
// period whose covariances, and the first whose means, have a number that is not finite: that period plus 1, or 0 for none. No Option: C and a saved run
// have these numbers (definition Reports.first_from).
#[derive(Clone, Copy)]
pub struct Answer {
    pub loglik: f64,
    pub d_diffuse: usize,
    pub heard: usize,
    pub news: usize,
    pub cov_off: usize,
    pub mean_off: usize,
}

impl Answer {
    // Before the first period.
    pub const NOTHING: Answer = Answer {
        loglik: 0.0,
        d_diffuse: 0,
        heard: 0,
        news: 0,
        cov_off: 0,
        mean_off: 0,
    };
}

// Why a call is refused. The numbers are document 01's and document 02's, and C's.
#[derive(Clone, Copy, Debug, PartialEq, Eq)]
pub enum Refusal {
    Dimension = 1,
    Length = 2,
    NonFiniteSystem = 3,
    NotPsd = 4,
    QNotDiagonal = 5,
    NonFiniteStart = 6,
    StartShape = 7,
    NonDiagonalH = 8,
    InfiniteReading = 9,
    MixedDriven = 10,
    NonFiniteNoise = 11,
    NoInformation = 12,
    ListShort = 14,
    BadSaved = 15,
}

impl From<Refusal> for u8 {
    ghost from_gives = { λ e k. k ≡ number e };

    fn from(e: Refusal) -> u8 {
        e as u8
    }
}

// ---- the record of an element

// Why an element was passed over: its reading is a gap; or F* is too small against its scale; or it is below the dust line; or it was suspect, and the
// star root, replayed over the elements taken, failed it.
#[derive(Clone, Copy, Debug, PartialEq, Eq)]
pub enum Cause {
    Gap,
    TooSmall,
    BelowDust,
    FailedReplay,
}

// What became of an element: it was passed over, with the cause; v and F*; v, F* and F∞.
#[derive(Clone, Copy)]
pub enum Kind {
    Skipped(Cause),
    Usual(f64, f64),
    Diffuse(f64, f64, f64),
}

#[derive(Clone, Copy)]
pub struct Record {
    pub kind: Kind,
}

// The kinds as numbers, as they stand in the flat parts; a skip is told by its cause. A reader takes every other number for failed on replay.
pub const GAP: u8 = 0;

pub const USUAL: u8 = 1;

pub const DIFFUSE: u8 = 2;

pub const TOO_SMALL: u8 = 3;

pub const BELOW_DUST: u8 = 4;

pub const FAILED_REPLAY: u8 = 5;

// The cause of a skip as the number of its kind.
impl From<Cause> for u8 {
    ghost from_gives = { λ c k. k ≡ cause_no (cause_in c) };

    fn from(c: Cause) -> u8 {
        match c {
            Cause::Gap => GAP,
            Cause::TooSmall => TOO_SMALL,
            Cause::BelowDust => BELOW_DUST,
            Cause::FailedReplay => FAILED_REPLAY,
        }
    }
}

// A record as numbers: its kind, and the three numbers, the unused ones +0.0.
#[derive(Clone, Copy)]
pub struct FlatRecord {
    pub kind: u8,
    pub v: f64,
    pub f_star: f64,
    pub f_inf: f64,
}

impl From<Record> for FlatRecord {
    ghost from_gives = { λ r x. x ≡ flat_of r };

    fn from(r: Record) -> FlatRecord {
        match r.kind {
            Kind::Skipped(c) => FlatRecord {
                kind: u8::from(c),
                v: 0.0,
                f_star: 0.0,
                f_inf: 0.0,
            },
            Kind::Usual(v, f_star) => FlatRecord {
                kind: USUAL,
                v,
                f_star,
                f_inf: 0.0,
            },
            Kind::Diffuse(v, f_star, f_inf) => FlatRecord {
                kind: DIFFUSE,
                v,
                f_star,
                f_inf,
            },
        }
    }
}

impl From<FlatRecord> for Record {
    ghost from_gives = { λ x r. r ≡ record_from x };

    fn from(x: FlatRecord) -> Record {
        let kind = match x.kind {
            GAP => Kind::Skipped(Cause::Gap),
            USUAL => Kind::Usual(x.v, x.f_star),
            DIFFUSE => Kind::Diffuse(x.v, x.f_star, x.f_inf),
            TOO_SMALL => Kind::Skipped(Cause::TooSmall),
            BELOW_DUST => Kind::Skipped(Cause::BelowDust),
            _ => Kind::Skipped(Cause::FailedReplay),
        };
        Record { kind }
    }
}

// The flat parts that hold a run's decisions, as they are read: the kinds, F*, F∞, and the gain vectors M* and M∞, of each element in order.
// Lists side by side, as C lends the flat parts.
#[derive(Clone, Copy)]
pub struct Decisions<'a> {
    pub kinds: &'a [u8],
    pub f_star: &'a [f64],
    pub f_inf: &'a [f64],
    pub m_star: &'a [f64],
    pub m_inf: &'a [f64],
}
