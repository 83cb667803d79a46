//! The rows of exports, which an import reads again, and the lines of lists.
#![tactic(auto)]

pub mod laws;
mod texts;
mod words;
mod writer;

pub use texts::print_value;
pub use words::{days_word, kind_word, side_word};
pub use writer::RowWriter;
