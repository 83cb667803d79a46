//! What a desk holds of a security.

/// What a desk holds of a security, over its live trades: all but the canceled ones.
#[derive(Clone, Copy, Debug, PartialEq, Eq)]
pub struct Position {
    /// How many trades are live.
    pub live: u32,
    /// The par that was bought, in dollars.
    pub bought: u64,
    /// The par that was sold, in dollars.
    pub sold: u64,
    /// What was paid less what was received, in cents.
    pub money: i128,
}
