//! What a quote shows after its figures.

/// What is to be shown after the figures of a quote.
#[derive(Clone, Copy, Debug, PartialEq, Eq)]
pub struct Shown {
    /// Each redemption candidate with its own figure.
    pub each: bool,
    /// How the price moves with the yield.
    pub risk: bool,
}
