//! The rules of the trade as definitions, which the contracts of the other crates cite.
//!
//! They are in `specs/`, one file a subject, over plain numbers: a date is three numbers, an amount a
//! whole number of 1/(B * 10^9) dollars per 100 of par, where B is the 360 or 365 days of a year. Of
//! the program's types they know those that are here: a basis of day counts, on which days a call stands
//! and what is said of it, a verdict on a comparison and a range of yields.
#![tactic(auto)]

mod basis;
mod call_term;
mod label;
pub mod laws;
mod ranges;
mod verdict;

pub use basis::Basis;
pub use call_term::CallTerm;
pub use label::Label;
pub use ranges::YieldRange;
pub use verdict::Verdict;
