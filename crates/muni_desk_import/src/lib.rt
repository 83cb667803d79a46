//! What the desk does over a store: imports, loads, and confirmations of kept trades.
#![tactic(auto)]

mod confirmations;
mod imports;
pub mod laws;
mod loads;
mod rows;

pub use confirmations::{Answered, confirm};
pub use imports::{LIMIT, import};
pub use loads::load;
pub use rows::import_rows;
