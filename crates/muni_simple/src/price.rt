//! The dollar price at a yield.

ghost use Rattle.std.specs.Prelude.{◌≡◌, ◌↔◌, ◌+◌, ◌*◌, ◌<◌, ◌≤◌, ◌≤ℤ◌, pos, MatchOption, IfSome};
ghost use Rattle.muni_rule.specs.Printed.{IsPrintedPriceBy, IsBelowZero};
ghost use Rattle.muni_rule.specs.SinglePayment as rule;
ghost use Rattle.muni_simple.specs.Single.{IsSingle, IsGivenYield, IsPriceAnswer, PrintsAtMost, payment_of};

use crate::units::no_growth;
use crate::{Shape1, Single};
use muni_dec::{Price3, Yield};

/// The price at a yield.
#[derive(Clone, Copy, Debug, PartialEq, Eq)]
pub enum SimplePrice {
    /// The exact price, truncated to thousandths of a dollar per 100 of par.
    Price(Price3),
    /// The exact price is below zero.
    BelowZero,
}

/// The dollar price at a yield of one payment to come (MSRB Rule G-33(b)(i)), without accrued
/// interest. The yield is simple interest over the days left, by the basis.
///
/// A yield is from -90 to 999.999 percent, and from -45 with interest at redemption.
pub fn single_price(single: &Single, shape: Shape1, y: Yield) -> SimplePrice
    requires single { IsSingle shape single.now }
    requires y { IsGivenYield shape y }
    // promise 1: the price with one payment to come is the exact one, truncated
    ensures exact { IsPriceAnswer single.now.basis (rule.AtLeast (payment_of single.now) y)
        result }
    // promise 4: it is refused as below zero exactly if the exact price is
    ensures below_zero { (result ≡ SimplePrice.BelowZero)
        ↔ IsBelowZero (rule.AtLeast (payment_of single.now) y) }
    ensures range { PrintsAtMost 100_000_000 result }
{
    match thousandths_reached(single, shape, y) {
        Some(thousandths) => SimplePrice::Price(Price3::new(thousandths)),
        None => SimplePrice::BelowZero,
    }
}

// None if the exact price is below zero.
fn thousandths_reached(single: &Single, shape: Shape1, y: Yield) -> Option<u64>
    requires single { IsSingle shape single.now }
    requires y { IsGivenYield shape y }
    ensures small { IfSome result (λ t. t ≤ 100_000_000) }
    ensures exact { MatchOption result (IsBelowZero (rule.AtLeast (payment_of single.now) y))
        (IsPrintedPriceBy single.now.basis (rule.AtLeast (payment_of single.now) y)) }
{
    truncated(
        single.due as u64,
        single.accrued as u64,
        growth(single, shape, y),
        no_growth(single.basis),
    )
}

/// One and the yield of the days left, in 1/(B * 10^6), where B is the days of a year.
pub fn growth(single: &Single, shape: Shape1, y: Yield) -> u64
    requires single { IsSingle shape single.now }
    requires y { IsGivenYield shape y }
    ensures value { pos result ≡ rule.growth (payment_of single.now) y }
    ensures range { (36_000_000 ≤ result) × (result ≤ 7_600_000_000) }
{
    (no_growth(single.basis) as i64 + i64::from(single.left) * y.units()) as u64
}

// due / growth - accrued in thousandths, if it is not below zero, where one is no growth.
fn truncated(due: u64, accrued: u64, growth: u64, one: u64) -> Option<u64>
    requires due { due ≤ 1_000_000_000_000_000 }
    requires accrued { accrued ≤ 1_000_000_000_000_000 }
    requires growth { (36_000_000 ≤ growth) × (growth ≤ 7_600_000_000) }
    requires one { (360_000_000 ≤ one) × (one ≤ 365_000_000) }
    ensures small { IfSome result (λ t. t ≤ 100_000_000) }
    ensures exact { MatchOption result (due * one < accrued * growth)
        (λ t. ((one * t + accrued) * growth ≤ due * one)
        × (due * one < (one * (t + 1) + accrued) * growth)) }
{
    let worth = u128::from(due) * u128::from(one);
    let taken_off = u128::from(accrued) * u128::from(growth);
    if worth < taken_off {
        return None;
    }
    Some(((worth - taken_off) / (u128::from(growth) * u128::from(one))) as u64)
}
