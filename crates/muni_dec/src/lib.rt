//! The desk's decimals: coupons, prices and yields, read from texts and written as texts.
#![tactic(auto)]

mod accuracy;
mod amount;
mod decimal;
pub mod digits;
mod fault;
pub mod laws;
mod par;
mod percent;
pub mod text;

pub use accuracy::{accrued_cents, commission_cents, principal_cents, round_yield, trunc3};
pub use amount::{Amount, Cents, Coupon, Fee, Price, Price3};
pub use fault::DecFault;
pub use par::Par;
pub use percent::{Percent, Yield, Yield3};
