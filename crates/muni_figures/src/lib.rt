//! Figures of rows of any number: read, priced and written side by side, a block of lines at a time.
#![tactic(auto)]

mod asked;
mod blocks;
mod command;
mod groups;
mod issues;
pub mod laws;
mod line;
mod pricing;
mod said;
mod scan;
mod shares;
mod tally;

pub use asked::read_line;
pub use command::{FiguresOptions, figures};
pub use said::{FiguresSaid, RiskColumns};
