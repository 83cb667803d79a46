//! The positions of a desk, kept beside any keeper as its trades are put, and what a desk does with them over a
//! store.
#![tactic(auto)]

mod change;
mod following;
mod holding;
mod holdings;
mod importing;
pub mod laws;
mod line;
mod lines;
mod listing;
mod pages;
mod position;
mod positioned;
mod put_fault;

pub use following::{Following, follow};
pub use importing::import_with_positions;
pub use line::position_line;
pub use lines::position_text;
pub use listing::positions;
pub use position::Position;
pub use positioned::{Positioned, over};
