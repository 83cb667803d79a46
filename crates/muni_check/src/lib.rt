//! Figures that another firm printed, read from rows of any number: which are right, and which are not.
#![tactic(auto)]

mod blocks;
mod cache;
mod command;
mod judging;
pub mod laws;
mod named;
mod one;
mod rows;
mod unseen;

pub use command::{CheckEnd, check, check_alone};
pub use one::check_row;
