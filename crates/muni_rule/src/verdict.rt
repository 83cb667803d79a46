//! What is known of a comparison with an exact price.

/// Whether an exact price reaches an amount.
#[derive(Clone, Copy, Debug, PartialEq, Eq)]
pub enum Verdict {
    Yes,
    No,
    /// The exact price is too near the amount to tell.
    Unsure,
}
