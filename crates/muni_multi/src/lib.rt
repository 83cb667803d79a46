//! The price with more than six months left, from enclosures of the worth of the payments to come.
#![tactic(auto)]

mod annuity;
mod discount;
mod doubling;
mod encloser;
mod ends;
mod exact;
pub mod laws;
mod outside;
mod payments;
mod price;
mod verdicts;

pub use annuity::Annuity;
pub use discount::Discount;
pub use doubling::Doubling;
pub use encloser::Encloser;
pub use muni_rule::Verdict;
pub use outside::{Horner, at_least, more, printed_price};
pub use payments::{payment_at, total};
pub use price::{PriceAnswer, printed_price_at};
pub use verdicts::{Reading, at_least_at, more_at};
