//! The answer to what is asked of an issue: the figures of a trade, or why there are none.
#![tactic(auto)]

mod answers;
pub mod laws;
mod outside;
mod trade;

pub use answers::{Early, figures, fill_for};
pub use outside::figures_alone;
pub use trade::net_price;
