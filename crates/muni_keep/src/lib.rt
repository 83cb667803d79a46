//! What keeps the tables of the desk: keepers, and the cabinets that lend them by name.
#![tactic(auto)]

mod cabinet;
mod desks;
mod either_cabinet;
mod either_keeper;
mod fault;
mod issue_history;
mod issues;
mod keeper;
mod mem_cabinet;
mod mem_keeper;
mod mem_tables;
pub mod outside;
mod page;
mod past;
mod store_name;
mod trade;
mod trades;

pub use cabinet::Cabinet;
pub use either_cabinet::Either;
pub use either_keeper::EitherKeeper;
pub use fault::KeepFault;
pub use keeper::Keeper;
pub use mem_cabinet::MemCabinet;
pub use mem_keeper::MemKeeper;
pub use mem_tables::MemTables;
