//! On which days an entry of a call schedule stands.

/// On which days the issuer may redeem the whole issue by an entry of its call schedule.
#[derive(Clone, Copy, Debug, PartialEq, Eq)]
pub enum CallTerm {
    /// On the day of the entry alone.
    OnDay,
    /// On the day of the entry, and on each quasi-coupon date after it and before the next entry, or
    /// before maturity if there is none.
    OnOrAfter,
    /// The issue is called or refunded: it is redeemed on the day of the entry, which is the last, and not
    /// at maturity.
    Called,
}
