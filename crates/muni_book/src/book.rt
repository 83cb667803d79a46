//! What applies commands.

use crate::Calculator;
use muni_msg::DeskLimit;

/// What applies commands: what computes their figures, and how many trades a desk may have.
#[derive(Drop)]
pub struct Book<'a, R, E, G> {
    pub calculator: &'a Calculator<'a, R, E, G>,
    pub limit: DeskLimit,
}
