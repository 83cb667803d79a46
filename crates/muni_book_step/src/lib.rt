//! One step of the book: what is to be done for a command.
#![tactic(auto)]

mod commands;
mod plan;

pub use commands::plan_of;
pub use plan::Plan;
