//! What a store keeps, written out: the rows of an export, the list of a desk's trades, their
//! confirmations, and how many rows there are. The law of exports: imported into empty tables, one gives the
//! same tables.
#![tactic(auto)]

mod counts;
mod issues;
mod kept;
pub mod laws;
mod named;
mod trades;
mod versions;
mod walk;
mod wanted;

pub use kept::write_kept;
pub use wanted::Wanted;
