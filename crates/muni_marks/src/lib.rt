//! Marks of a portfolio: what its rows are worth, priced side by side on every processor.
#![tactic(auto)]

pub mod laws;
mod line;
mod portfolio;
mod pricing;
mod reader;

pub use line::{mark_line, push_count, push_sum, total};
pub use portfolio::{LIMIT, ask, mark};
pub use pricing::{MarkSaid, marks};
pub use reader::read_marks;
