// The kinds of words, and what each may stand for.
ghost use Rattle.std.specs.Prelude.{◌≡◌};
ghost use Rattle.sheet.specs.Kinds.{is_end, is_spread, is_number, is_within, is_value, is_unknown, is_check, has_checks, size_of};

// The words that name a setting.
#[derive(Clone, Copy, Debug, PartialEq, Eq)]
pub enum Name {
    Period,
    Noise,
    Radio,
    WanderOffset,
    WanderRate,
    StartOffset,
    StartRate,
    RateKeeps,
    Season,
}

// Gap is a minus alone, Planned a plus alone, NoCheck any other word that starts as a check does, and is none. End: no word.
#[derive(Clone, Copy, Debug, PartialEq, Eq)]
pub enum Word {
    End,
    Setting(Name),
    Gap,
    Planned,
    Number(u64),
    Negative(u64),
    NoCheck,
    Sd,
    Variance,
    Unknown,
    Other,
}

impl Word {
    pub fn is_end(self) -> bool
        ensures { result ≡ is_end self }
    {
        matches!(self, Word::End)
    }

    pub fn is_spread(self) -> bool
        ensures { result ≡ is_spread self }
    {
        matches!(self, Word::Sd | Word::Variance)
    }

    pub fn is_number(self) -> bool
        ensures { result ≡ is_number self }
    {
        matches!(self, Word::Number(_))
    }

    // Whether it is a number from one to another.
    pub fn is_within(self, least: u64, most: u64) -> bool
        ensures { result ≡ is_within least most self }
    {
        match self {
            Word::Number(n) => least <= n && n <= most,
            _ => false,
        }
    }

    pub fn is_value(self) -> bool
        ensures { result ≡ is_value self }
    {
        matches!(self, Word::Number(_) | Word::Negative(_))
    }

    pub fn is_unknown(self) -> bool
        ensures { result ≡ is_unknown self }
    {
        matches!(self, Word::Unknown)
    }

    // Whether it says what became of a check. A check to come is one in a table only.
    pub fn is_check(self, table: bool) -> bool
        ensures { result ≡ is_check table self }
    {
        match self {
            Word::Gap | Word::Number(_) | Word::Negative(_) => true,
            Word::Planned => table,
            _ => false,
        }
    }

    // Whether a line that starts with it is no setting, and not empty.
    pub fn has_checks(self) -> bool
        ensures { result ≡ has_checks self }
    {
        !matches!(self, Word::End | Word::Setting(_))
    }

    // A number without its minus; 0 for any other word.
    pub fn size(self) -> u64
        ensures { result ≡ size_of self }
    {
        match self {
            Word::Number(n) | Word::Negative(n) => n,
            _ => 0,
        }
    }
}
