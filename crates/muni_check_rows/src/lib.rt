//! Rows of figures that another firm printed: what they say, and the line that each is told.
#![tactic(auto)]

mod columns;
pub mod laws;
mod line;
mod other;
mod records;
mod row;
mod said;
mod stated;
mod tally;
mod terms;
mod trade;

pub use columns::{Columns, read_columns};
pub use line::{add_line, total_line};
pub use other::{OtherTerm, other_in_issue, other_in_trade};
pub use records::read_records;
pub use row::{
    CheckRow, Fields, TradeRow, read_reference, read_row, read_trade_row, states_nothing,
};
pub use said::{CheckSaid, compared_said, refused_said};
pub use stated::has_figure;
pub use tally::Tally;
pub use trade::{GivenBasis, TradeTexts};
