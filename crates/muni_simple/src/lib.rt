//! Securities with one payment to come, priced exactly.
#![tactic(auto)]

mod discount;
pub mod laws;
mod price;
mod single;
mod units;
mod yields;

pub use discount::{discount_return, rate_price, rate_return};
pub use price::{SimplePrice, growth, single_price};
pub use single::{Shape1, Single};
pub use yields::{SimpleYield, single_yield};
