//! Requests of HTTP served over a store: one connection, and the connections of a door one after
//! another.
#![tactic(auto)]

mod answers;
mod checks;
mod connections;
mod fault;
pub mod laws;
mod looks;
mod served;

pub use answers::answer_one;
pub use connections::serve;
pub use fault::ServeFault;
pub use served::Served;
