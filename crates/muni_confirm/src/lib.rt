//! The texts that the desk shows of a trade: its confirmation, the lines of its figures, of its redemption
//! candidates and of how its price moves with its yield, and the line of a refusal.
#![tactic(auto)]

mod details;
mod each;
mod figures;
pub mod laws;
mod refusal;
mod risk;
mod trade;

pub use details::{Details, push_details};
pub use each::push_each;
pub use figures::figure_lines;
pub use refusal::refusal_line;
pub use risk::push_risk;
pub use trade::confirmation;
