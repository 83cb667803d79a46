//! What is said of the redemption that a figure is computed to.

/// The kind of redemption that is disclosed with a figure (MSRB Rule G-15(a)).
#[derive(Clone, Copy, Debug, PartialEq, Eq)]
pub enum Label {
    /// At maturity, at 100.
    Maturity,
    /// A call at 100.
    ParOption,
    /// A call at another price.
    Call,
    /// The redemption of an issue that has been called or refunded.
    Called,
}
