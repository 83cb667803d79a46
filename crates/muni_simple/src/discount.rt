//! Discounted securities (MSRB Rule G-33(c)).

ghost use Rattle.std.specs.Prelude.{◌≡◌, ◌≢◌, ◌*◌, ◌<◌, ◌≤◌, ◌≤ℤ◌, pos};
ghost use Rattle.muni_rule.specs.Accuracy.{TruncatesBy, Reaches, price_amount};
ghost use Rattle.muni_rule.specs.Discount as rule;
ghost use Rattle.muni_rule.specs.Ranges.{IsDiscountRate, at_redemption_prints};
ghost use Rattle.muni_simple.specs.Yields.{IsYieldAnswer, PrintsWithin};
ghost use Rattle.muni_simple.specs.declared.yields.SimpleYield.TheVariants.{Below, Above};

use crate::SimpleYield;
use crate::units::{amount_of, no_growth};
use crate::yields::yield_at;
use muni_dec::{Price, Price3, Yield};
use muni_rule::Basis;

// The magnitude of the least printed return, -45 percent.
const LEAST_RETURN: u64 = 45_000;

/// The dollar price at a discount rate from 0 to 30 percent (MSRB Rule G-33(c)(i)): par less the rate
/// for the days of a year, truncated. Days are 0 to 720, by the basis from settlement to maturity.
pub fn rate_price(rate: Yield, days: i32, basis: Basis) -> Price3
    requires rate { IsDiscountRate rate }
    requires days { (pos 0 ≤ℤ days) × (days ≤ℤ pos 720) }
    // promise 1: the price at a discount rate is the exact one, truncated
    ensures value { TruncatesBy basis (Reaches (rule.discount_price basis rate days)) result }
    ensures range { result ≤ 100_000 }
{
    Price3::new(price_at(rate, days, basis) / no_growth(basis))
}

/// The return on the price at a discount rate (MSRB Rule G-33(c)(ii)), which is taken before it is
/// truncated: a simple return over the days by the basis, from 0 to 720.
///
/// If a day is left, it lies in the printed range of -45 to 999.999 percent.
pub fn rate_return(rate: Yield, days: i32, basis: Basis) -> SimpleYield
    requires rate { IsDiscountRate rate }
    requires days { (pos 0 ≤ℤ days) × (days ≤ℤ pos 720) }
    // promise 2: the return at a discount rate is exact; there is no time exactly if no day is left
    ensures exact { IsYieldAnswer at_redemption_prints.least (rule.discounted basis days)
        (rule.discount_price basis rate days) result }
    // promise 2: it is never out of the range
    ensures inside { (result ≢ Below) × (result ≢ Above) }
    ensures range { PrintsWithin at_redemption_prints result }
{
    let amount = price_at(rate, days, basis);
    yield_at(par(basis), 0, days as u64, basis, amount, LEAST_RETURN)
}

/// The return on a given price (MSRB Rule G-33(c)(ii)), a simple return over 0 to 720 days by the
/// basis.
///
/// A printed return is from -45 to 999.999 percent.
pub fn discount_return(price: Price, days: i32, basis: Basis) -> SimpleYield
    requires price { 0 < price }
    requires days { (pos 0 ≤ℤ days) × (days ≤ℤ pos 720) }
    // promise 2: the return at a price is exact; no time, below and above exactly so
    ensures exact { IsYieldAnswer at_redemption_prints.least (rule.discounted basis days)
        (price_amount basis price) result }
    ensures range { PrintsWithin at_redemption_prints result }
{
    let amount = amount_of(price, basis);
    yield_at(par(basis), 0, days as u64, basis, amount, LEAST_RETURN)
}

fn par(basis: Basis) -> u64
    ensures value { pos result ≡ rule.par_amount basis }
    ensures range { (36_000_000_000_000 ≤ result) × (result ≤ 36_500_000_000_000) }
{
    amount_of(Price::PAR, basis)
}

fn price_at(rate: Yield, days: i32, basis: Basis) -> u64
    requires rate { IsDiscountRate rate }
    requires days { (pos 0 ≤ℤ days) × (days ≤ℤ pos 720) }
    ensures value { pos result ≡ rule.discount_price basis rate days }
    ensures range { (14_400_000_000_000 ≤ result) × (result ≤ 36_500_000_000_000) }
{
    par(basis) - discount(rate.units() as u64, days as u64)
}

fn discount(rate: u64, days: u64) -> u64
    requires rate { rate ≤ 300_000 }
    requires days { days ≤ 720 }
    ensures value { result ≡ 100_000 * (rate * days) }
    ensures range { result ≤ 21_600_000_000_000 }
{
    100_000 * (rate * days)
}
