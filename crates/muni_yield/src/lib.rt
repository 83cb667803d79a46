//! The yield at a dollar price with more than six months left, found by halving.
#![tactic(auto)]

mod bracket;
mod discounts;
mod guess;
mod guided;
pub mod laws;
mod outcome;
mod outside;
mod place;
mod window;

pub use bracket::Bracket;
pub use discounts::Discounts;
pub use guess::{RoughYield, place_near};
pub use guided::GuidedSearch;
pub use outcome::Outcome;
pub use outside::printed_yield;
pub use place::{Place, Question};
pub use window::Window;
