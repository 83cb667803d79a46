//! The payments after a settlement, up to a redemption.

ghost use Rattle.std.specs.Prelude.{◌≡◌, ◌+◌, ◌-◌, ◌<◌, ◌≤◌, ◌≤ℤ◌, Some, pos};
ghost use Rattle.muni_rule.specs.Civil.{order_of};
ghost use Rattle.muni_rule.specs.DayCount as count;
ghost use Rattle.muni_rule.specs.QuasiDates as dates;
ghost use Rattle.muni_rule.specs.Payments as rule;
ghost use Rattle.muni_rule.specs.Payments.{IsSeries, payments_of, coupon_payments, zero_payments, coupon_series, zero_series};
ghost use Rattle.muni_rule.specs.PaymentLaws.{IsSettlementDate, IsCouponRedemption, IsRedeemedAfter};
ghost use Rattle.muni_days.specs.Day.{civil};

use crate::accrued::{coupon_accrued_days, days_to, half_year_interest, interest};
use crate::quasi_dates::{days_into_period, quasi_count};
use muni_days::{Basis, Day};
use muni_dec::{Coupon, Price};
use std::marker::Model;

/// The payments after a settlement in order of date, one for each quasi-coupon date up to the
/// redemption, and the accrued interest (MSRB Rule G-33(a) and (b)).
///
/// Amounts are in 1/(360 * 10^9) dollars per 100 of par.
#[derive(Clone, Copy, Debug, PartialEq, Eq)]
pub struct Flows {
    n: u32,
    skip: u32,
    first: u64,
    regular: u64,
    redemption: u64,
    accrued: u64,
    a: u32,
}

impl Model for Flows {
    ghost use Rattle.muni_rule.specs.Payments.{PaymentSeries, IsSeries};
    ghost use Rattle.muni_terms.specs.Flows.{series};

    ghost Value = { PaymentSeries };

    ghost view = { λ flows. series flows.n flows.skip flows.first flows.regular flows.redemption
        flows.accrued flows.a };

    ghost invariant = { λ flows. IsSeries (series flows.n flows.skip flows.first flows.regular
        flows.redemption flows.accrued flows.a) };

    ghost inverse = { λ value. record {
      n = value.n;
      skip = value.skip;
      first = value.first;
      regular = value.regular;
      redemption = value.redemption;
      accrued = value.accrued;
      a = value.a;
    } };
}

impl Default for Flows {
    ghost use Rattle.muni_terms.specs.Flows.{series};

    /// An empty slot of a list: two payments without interest, and with the last a redemption at 100.
    fn default() -> Flows
        ensures { result ≡ series 2 0 0 0 36_000_000_000_000 0 0 }
    {
        Flows {
            n: 2,
            skip: 0,
            first: 0,
            regular: 0,
            redemption: 36_000_000_000_000,
            accrued: 0,
            a: 0,
        }
    }
}

impl Flows {
    /// The number of payments.
    pub fn n(&self) -> u32
        ensures value { result ≡ self.now.n }
        // promise 1: there are 1 to 100 payments
        ensures range { (1 ≤ result) × (result ≤ 100) }
        ensures bounds { IsSeries self.now }
    {
        self.n
    }

    /// How many payments at the front are 0, since interest is first paid later.
    pub fn skip(&self) -> u32
        ensures value { result ≡ self.now.skip }
        ensures range { result < self.now.n }
        ensures bounds { IsSeries self.now }
    {
        self.skip
    }

    /// The interest in the first payment after those.
    pub fn first(&self) -> u64
        ensures value { result ≡ self.now.first }
        ensures range { result ≤ 10_800_000_000_000 }
        ensures bounds { IsSeries self.now }
    {
        self.first
    }

    /// The interest in each later payment.
    pub fn regular(&self) -> u64
        ensures value { result ≡ self.now.regular }
        ensures range { result ≤ 5_400_000_000_000 }
        ensures bounds { IsSeries self.now }
    {
        self.regular
    }

    /// What the last payment has beside its interest.
    pub fn redemption(&self) -> u64
        ensures value { result ≡ self.now.redemption }
        ensures range { (360_000_000_000 ≤ result) × (result ≤ 72_000_000_000_000) }
        ensures bounds { IsSeries self.now }
    {
        self.redemption
    }

    /// The interest that has accrued at the settlement.
    pub fn accrued(&self) -> u64
        // promise 1: the accrued interest is that of the series
        ensures value { result ≡ self.now.accrued }
        ensures range { result ≤ 10_800_000_000_000 }
        ensures bounds { IsSeries self.now }
    {
        self.accrued
    }

    /// The days from the last quasi-coupon date not after the settlement up to the settlement.
    pub fn a(&self) -> u32
        ensures value { result ≡ self.now.a }
        // promise 1: A is at most 180
        ensures range { result ≤ 180 }
        ensures bounds { IsSeries self.now }
    {
        self.a
    }

    /// The same up to a redemption some payments earlier, at a price.
    // Inlined as `Issue::flows_beside` is.
    #[inline(always)]
    pub(crate) fn redeemed_earlier(&self, payments: u32, price: Price) -> Flows
        requires paid { self.now.skip + payments < self.now.n }
        requires price { (1_000_000 ≤ price) × (price ≤ 200_000_000) }
        ensures { result ≡ record self.now {
          n = self.now.n - payments;
          redemption = rule.redemption_amount price;
        } }
    {
        Flows {
            n: self.n - payments,
            redemption: redemption_amount(price),
            ..*self
        }
    }
}

/// The bounds that hold of all payments after a settlement.
pub fn flows_are_in_range(flows: &Flows)
    ensures { IsSeries flows.now }
{
    // Reading one field makes the bounds of all known.
    let _in_range = flows.n;
}

fn payment_count(anchor: Day, settlement: Day, redemption: Day) -> u32
    requires redeemed { IsRedeemedAfter (civil anchor) (civil settlement) (civil redemption) }
    requires few { dates.quasi_count (civil anchor) (civil settlement) (civil redemption) ≤ 100 }
    ensures value { result
        ≡ dates.quasi_count (civil anchor) (civil settlement) (civil redemption) }
    ensures range { (1 ≤ result) × (result ≤ 100) }
{
    quasi_count(anchor, settlement, redemption)
}

// How many payments there are before interest is first paid.
fn unpaid_count(first: Day, settlement: Day, redemption: Day) -> u32
    requires { IsCouponRedemption (civil first) (civil settlement) (civil redemption) }
    ensures value { result ≡ rule.unpaid_count (civil first) (civil settlement) }
    ensures fewer { result
        < dates.quasi_count (civil first) (civil settlement) (civil redemption) }
{
    if settlement < first {
        quasi_count(first, settlement, first) - 1
    } else {
        0
    }
}

fn first_interest(dated: Day, first: Day, coupon: Coupon, settlement: Day) -> u64
    requires order { order_of (civil dated) ≤ order_of (civil first) }
    requires start { count.days360 (civil dated) (civil first) ≤ℤ pos 360 }
    ensures value { result
        ≡ rule.first_interest (civil dated) (civil first) coupon (civil settlement) }
    ensures range { result ≤ 10_800_000_000_000 }
{
    if settlement < first {
        interest(coupon, days_to(Basis::Thirty360, dated, first))
    } else {
        half_year_interest(coupon)
    }
}

fn redemption_amount(price: Price) -> u64
    requires { (1_000_000 ≤ price) × (price ≤ 200_000_000) }
    ensures value { result ≡ rule.redemption_amount price }
    ensures range { (360_000_000_000 ≤ result) × (result ≤ 72_000_000_000_000) }
{
    360_000 * price.units()
}

/// The payments of an issue with coupons. The first pays the interest of all days of 30/360 since
/// the dated date (SIA, Standard Securities Calculation Methods).
pub fn coupon_flows(
    dated: Day,
    first: Day,
    coupon: Coupon,
    settlement: Day,
    redemption: Day,
    price: Price,
) -> Flows
    requires redeemed { IsCouponRedemption (civil first) (civil settlement) (civil redemption) }
    requires order { order_of (civil dated) ≤ order_of (civil first) }
    requires settled { order_of (civil dated) ≤ order_of (civil settlement) }
    requires start { count.days360 (civil dated) (civil first) ≤ℤ pos 360 }
    requires few { dates.quasi_count (civil first) (civil settlement) (civil redemption) ≤ 100 }
    requires price { (1_000_000 ≤ price) × (price ≤ 200_000_000) }
    ensures numbers { Some result ≡ coupon_series (civil dated) (civil first) coupon
        (civil settlement) (civil redemption) price }
    ensures payments { payments_of result ≡ coupon_payments (civil dated) (civil first) coupon
        (civil settlement) (civil redemption) price }
{
    let days = coupon_accrued_days(dated, first, settlement);
    Flows {
        n: payment_count(first, settlement, redemption),
        skip: unpaid_count(first, settlement, redemption),
        first: first_interest(dated, first, coupon, settlement),
        regular: half_year_interest(coupon),
        redemption: redemption_amount(price),
        accrued: interest(coupon, days),
        a: days_into_period(first, settlement),
    }
}

/// The payments of an issue without coupons.
pub fn zero_flows(maturity: Day, settlement: Day, redemption: Day, price: Price) -> Flows
    requires redeemed { IsRedeemedAfter (civil maturity) (civil settlement) (civil redemption) }
    requires few { dates.quasi_count (civil maturity) (civil settlement) (civil redemption) ≤ 100 }
    requires price { (1_000_000 ≤ price) × (price ≤ 200_000_000) }
    ensures numbers { Some result
        ≡ zero_series (civil maturity) (civil settlement) (civil redemption) price }
    ensures payments { payments_of result
        ≡ zero_payments (civil maturity) (civil settlement) (civil redemption) price }
{
    Flows {
        n: payment_count(maturity, settlement, redemption),
        skip: 0,
        first: 0,
        regular: 0,
        redemption: redemption_amount(price),
        accrued: 0,
        a: days_into_period(maturity, settlement),
    }
}
