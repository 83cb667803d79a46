//! One payment to come.

use muni_rule::Basis;

/// One payment to come, which ends a security.
///
/// Amounts are from 0 to 10^15, in 1/(B * 10^9) dollars per 100 of par, where B is the days of a year.
#[derive(Clone, Copy, Debug, PartialEq, Eq)]
pub struct Single {
    /// The redemption and the interest that is paid with it.
    pub due: i64,
    /// The accrued interest.
    pub accrued: i64,
    /// The days left: 180 less those since the last quasi-coupon date, or with interest at
    /// redemption the days from the dated date to maturity, up to 720, less those to the settlement.
    pub left: i32,
    /// How days are counted, which is 30/360 with interest paid periodically.
    pub basis: Basis,
}

/// How interest is paid before the one payment.
#[derive(Clone, Copy, Debug, PartialEq, Eq)]
pub enum Shape1 {
    /// Periodically, with six months or less to redemption.
    OnePeriod,
    /// Not at all: it is paid at redemption.
    AtRedemption,
}
