//! What a request over HTTP asks for, and the reader of its body: the members of a JSON object.
#![tactic(auto)]

mod body;
mod calls;
mod fault;
mod form;
pub mod laws;
mod look;
mod stated;

pub use body::read_body;
pub use fault::{Bad, WireFault};
pub use form::Form;
pub use look::{Look, Request};
pub use stated::StatedRow;
