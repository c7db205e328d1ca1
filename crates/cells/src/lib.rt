// The cells of a table's line: words and numbers, each in its field of a buffer of bytes; and words with no field.
#![tactic(auto)]

mod numbers;
mod words;

pub use numbers::{count, number, thousandths};
pub use words::{text, word_left, word_right};
