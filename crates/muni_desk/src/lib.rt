//! The commands of the desk.
#![tactic(auto)]

mod answers;
mod command;
mod drill;
mod help;
pub mod laws;
mod next_interest_date;
mod one_period;
mod output;
mod outside;
mod quote_options;
mod request;
mod status;
mod store_options;
mod words;

pub use command::{CommandLine, DeskCommand, is_check, only_reads, read};
pub use drill::{DrillCount, DrillRequest};
pub use next_interest_date::NextInterestDate;
pub use one_period::QuoteOneRequest;
pub use output::desk;
pub use outside::quote_one;
pub use request::QuoteRequest;
pub use status::{Answer, Status};
