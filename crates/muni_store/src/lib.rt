//! The store: the issues and the trades of a desk in one file, which any `sqlite3` reads.
#![tactic(auto)]

mod audited;
mod cabinet;
mod catalog;
mod fault;
mod faults;
mod keeper;
pub mod laws;
mod look;
mod marks;
mod moving;
mod new_log;
mod old_tables;
mod opening;
mod rows;
mod schema;
mod seal;
mod seal_text;
mod store_file;

pub use cabinet::SqlCabinet;
pub use keeper::SqlKeeper;
pub use store_file::Trust;
