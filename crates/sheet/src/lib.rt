// The panel's text, read: settings and radio checks, line by line, into a struct and an array of readings.
#![tactic(auto)]

pub mod answers;
mod effects;
mod faults;
mod kinds;
mod lines;
mod parts;
mod sheets;
mod tokens;

pub use sheets::read;
