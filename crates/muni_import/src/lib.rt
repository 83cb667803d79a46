//! CSV imports: the commands of the rows of a text, and the report on them.
#![tactic(auto)]

mod blocks;
pub mod columns;
pub mod laws;
pub mod line;
mod outside;
mod place;
mod reader;
mod report;
mod row;

pub use blocks::RowBlocks;
pub use outside::read_rows;
pub use reader::RowReader;
pub use report::report_row;
pub use row::{Row, RowFault, RowOutcome};
