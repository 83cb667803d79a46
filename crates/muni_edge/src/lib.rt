//! What a desk is handed from outside: a source, a sink, links by a door, a gate and a counter of
//! steps. The objects in memory fail where they are told to.
#![tactic(auto)]

mod calls;
mod door;
mod fault;
mod faults;
mod gate;
mod link;
mod outside;
mod sink;
mod source;

pub use calls::Calls;
pub use door::{Door, MemDoor};
pub use fault::{Failed, NoMemory};
pub use faults::Faults;
pub use gate::{Gate, NoGate};
pub use link::{Link, MemLink};
pub use outside::Steps;
pub use sink::{MemSink, Sink};
pub use source::{MemSource, Source};
