// What the reader answers.
ghost use Rattle.std.specs.Prelude.{◌≡◌};
ghost use Rattle.sheet.specs.Effects.{inputs_of};

// How far a number may be off.
#[derive(Clone, Copy, Debug, PartialEq, Eq)]
pub enum Spread {
    Sd(u64),
    Variance(u64),
}

// Of the checks of each input.
#[derive(Clone, Copy, Debug, PartialEq, Eq)]
pub enum Noise {
    One(Spread),
    Two(Spread, Spread),
}

impl Noise {
    pub fn inputs(self) -> u64
        ensures { result ≡ inputs_of self }
    {
        match self {
            Noise::One(_) => 1,
            Noise::Two(..) => 2,
        }
    }
}

// The clock's offset or rate at the start.
#[derive(Clone, Copy, Debug, PartialEq, Eq)]
pub enum Start {
    Unknown,
    Known {
        minus: bool,
        size: u64,
        spread: Spread,
    },
}

// From the run's period `first` on, counted from 1, the next period keeps so many thousandths of the rate.
#[derive(Clone, Copy, Debug, PartialEq, Eq)]
pub struct Season {
    pub first: u64,
    pub keeps: u64,
}

// None: not given.
#[derive(Clone, Copy)]
pub struct Settings {
    // Its seconds.
    pub period: u64,
    pub noise: Noise,
    pub radio: Option<Spread>,
    pub wander_offset: Option<Spread>,
    pub wander_rate: Option<Spread>,
    pub offset: Option<Start>,
    pub rate: Option<Start>,
    // How many thousandths of the rate the next period keeps, but for a season.
    pub rate_keeps: Option<u64>,
    pub season: Option<Season>,
}

// How many periods: each has a line with checks.
#[derive(Clone, Copy)]
pub struct Sheet {
    pub settings: Settings,
    pub periods: usize,
}

// What should have stood where a text is wrong.
#[derive(Clone, Copy, Debug, PartialEq, Eq)]
pub enum Wanted {
    Line,
    Seconds,
    SdOrVariance,
    Size,
    UnknownOrValue,
    Thousandths,
    SeasonStart,
    LineEnd,
    Check,
    OneCheck,
    Once,
    SettingsFirst,
    PeriodSetting,
    NoiseSetting,
    FewerPeriods,
}

// The first thing that is wrong. Lines count from 1. text[from..to] is the word that was found; empty: the end of the line, or of the text.
#[derive(Clone, Copy, Debug, PartialEq, Eq)]
pub struct Wrong {
    pub line: u64,
    pub from: usize,
    pub to: usize,
    pub wanted: Wanted,
}
