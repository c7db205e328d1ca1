// What reading, scaling and splitting answer.

// A whole number: whether a minus stands before it, and its digits' value.
#[derive(Clone, Copy)]
pub struct Whole {
    pub minus: bool,
    pub size: u64,
}

// Why a text is no whole number: nothing is there, more than 15 digits are, or something else is.
#[derive(Clone, Copy, Debug, PartialEq, Eq)]
pub enum NotRead {
    Empty,
    TooLong,
    NotANumber,
}

// A double in a decimal unit: how many units, or too many to stay below 10^18. No `Result`: each kind is shown by a word of its own, and none is an error.
#[derive(Clone, Copy)]
pub enum Units {
    Whole(Whole),
    NotANumber,
    Infinite(bool),
    TooLarge(bool),
}

// The bytes from `from` up to `to`.
#[derive(Clone, Copy)]
pub struct Span {
    pub from: usize,
    pub to: usize,
}
