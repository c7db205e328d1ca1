// Numbers as text: whole numbers read, the words of a line, doubles as whole numbers of a decimal unit, and their printing with fixed decimals.
#![tactic(auto)]

pub mod answers;
mod printed;
mod reading;
mod scaled;
mod small;
mod words;

pub use printed::{blanks, plain, put};
pub use reading::read;
pub use scaled::units;
pub use words::word;
