//! Whether the figures of a trade that another firm printed are those of the rule, and if not, which other
//! formula gives theirs.
#![tactic(auto)]

mod answered;
mod checked;
mod compounded;
mod disclosed;
mod february;
pub mod laws;
mod money;
mod other_terms;
mod reading;
mod regular;
mod rounded;
mod stated;

pub use answered::Answered;
pub use checked::{Checked, check_figures, reading_of};
pub use reading::{Reading, figures_by};
pub use stated::{Field, Stated};
