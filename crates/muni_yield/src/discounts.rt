//! The discounts that the searches of a round share.

use muni_multi::Discount;

/// The discounts of the places at which the searches of a round ask: that of their next question, and
/// that of the aim.
///
/// The redemptions of an issue have one discount at a yield, and their searches have one next question.
/// A search that asks at another place computes its own.
#[derive(Clone, Copy)]
pub struct Discounts {
    pub(crate) question: Option<Discount>,
    pub(crate) aim: Option<Discount>,
}

impl Discounts {
    /// None yet.
    pub fn new() -> Discounts {
        Discounts {
            question: None,
            aim: None,
        }
    }

    /// Whether a search asks at the aim.
    pub fn has_aim(&self) -> bool {
        self.aim.is_some()
    }
}
