//! The desk's days, the counts of days between them, and steps of whole months.
#![tactic(auto)]

mod count;
mod day;
pub mod laws;
mod months;

pub use count::{days_by, days360};
pub use day::{Day, DayFault};
pub use months::months_on;
pub use muni_rule::Basis;
