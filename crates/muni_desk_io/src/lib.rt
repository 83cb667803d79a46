//! What the commands over a store share: a whole input, an output, and the faults of a command.
#![tactic(auto)]

mod fault;
mod input;
mod output;

pub use fault::Fault;
pub use input::{InputFault, read_input};
pub use output::write;
