// The library, under a caller's names, from Rattle. None of its calls asks anything of its caller. For C they stand in crates/c_filter, crates/c_smooth and
// crates/c_stretch.
#![tactic(auto)]

// The filter's call, the smoother's and a stretch's, as crates/filter, crates/smoother and crates/stretch have them: an answer, or why the call is
// refused. And the first two with a list of records lent too, as crates/records and crates/records_smooth have them.
pub use filter::filter;
pub use promise::{Answer, Cause, Kind, Model, Offsets, Record, Refusal};
pub use records::filter_records;
pub use records_smooth::smooth_records;
pub use smoother::smooth_univariate as smooth;
pub use stretch::stretch;
