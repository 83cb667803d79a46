//! The tables of a desk as trees of rows: look-ups and puts that read and write only what they need.
#![tactic(auto)]

mod add;
mod fault;
mod keeper;
mod keys;
mod looks;
mod pages;
mod places;
mod puts;
mod rows;
mod scan;
mod trade_counts;

pub use fault::TreeFault;
pub use keeper::TreeKeeper;
pub use keys::{issue_values, version_values};
pub use places::Places;
pub use rows::{Columns, is_trade_1, is_trade_2, read_issue, read_trade};
pub use trade_counts::TradeCounts;
