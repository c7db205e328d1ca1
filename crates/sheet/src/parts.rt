// What stands between a line's words and the answer.
use crate::answers::{Noise, Season, Spread, Start, Wanted};
use crate::kinds::Word;

// The first five words of a line.
#[derive(Clone, Copy)]
pub struct Tokens {
    pub first: Word,
    pub second: Word,
    pub third: Word,
    pub fourth: Word,
    pub fifth: Word,
}

// Which word of a line is wrong, from 0, and what should stand there.
#[derive(Clone, Copy, Debug, PartialEq, Eq)]
pub struct Fault {
    pub wanted: Wanted,
    pub word: u8,
}

// The settings that have been given so far. Beside `Settings`, since before the sheet ends the period and the noise may still be missing.
#[derive(Clone, Copy, Default)]
pub struct Given {
    pub period: Option<u64>,
    pub noise: Option<Noise>,
    pub radio: Option<Spread>,
    pub wander_offset: Option<Spread>,
    pub wander_rate: Option<Spread>,
    pub offset: Option<Start>,
    pub rate: Option<Start>,
    pub rate_keeps: Option<u64>,
    pub season: Option<Season>,
}
