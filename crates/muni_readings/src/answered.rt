//! What is asked of an issue, with its figures.

use muni_msg::{Asked, Figures};
use muni_terms::Issue;

/// What is asked of an issue, and the right figures.
#[derive(Clone, Copy)]
pub struct Answered<'a> {
    pub issue: &'a Issue,
    pub asked: &'a Asked,
    pub figures: &'a Figures,
}
