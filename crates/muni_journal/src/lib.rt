//! A crash-safe store of the desk's own: the tables in memory, and each put in a journal on a disk. A
//! stop at any moment keeps every put that was answered, and none in part.
#![tactic(auto)]

mod cabinet;
mod faults;
mod fetching;
mod keeper;
mod kept;
pub mod laws;
mod opening;
mod piece;

pub use cabinet::JournalCabinet;
pub use fetching::FetchFault;
pub use keeper::JournalKeeper;
pub use opening::{Unfetched, open};
