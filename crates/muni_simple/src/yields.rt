//! The yield at a dollar price.

ghost use Rattle.std.specs.Prelude.{◌≡◌, ◌+◌, ◌*◌, ◌<◌, ◌≤◌, pos, neg_ℤ};
ghost use Rattle.muni_rule.specs.Accuracy.{price_amount};
ghost use Rattle.muni_simple.specs.Single.{IsSingle, payment_of};
ghost use Rattle.muni_simple.specs.Shown.{natural_payment, printed_from, shown_above, shown_below};
ghost use Rattle.muni_simple.specs.Yields.{IsYieldAnswer, least_printed, printed_range, PrintsWithin};

use crate::units::{amount_of, no_growth};
use crate::{Shape1, Single};
use muni_dec::{Price, Yield3};
use muni_rule::Basis;

/// The yield at a price.
#[derive(Clone, Copy, Debug, PartialEq, Eq)]
pub enum SimpleYield {
    /// The exact yield, truncated to four decimals of the percentage and rounded to three.
    Print(Yield3),
    /// The yield would be printed below the range.
    Below,
    /// The yield would be printed above the range.
    Above,
    /// No day is left, and there is no yield.
    NoTime,
}

/// The yield at a dollar price of one payment to come (MSRB Rule G-33(b)(ii)), as simple interest
/// over the days left, by the basis. The price is without accrued interest.
///
/// A printed yield is from -90 to 999.999 percent, and from -45 with interest at redemption.
pub fn single_yield(single: &Single, shape: Shape1, price: Price) -> SimpleYield
    requires single { IsSingle shape single.now }
    requires price { 0 < price }
    // promise 2: the yield with one payment to come is exact; no time, below and above exactly so
    ensures exact { IsYieldAnswer (least_printed shape) (payment_of single.now)
        (price_amount single.now.basis price) result }
    ensures range { PrintsWithin (printed_range shape) result }
{
    yield_at(
        single.due as u64,
        single.accrued as u64,
        single.left as u64,
        single.basis,
        amount_of(price, single.basis),
        least_magnitude(shape),
    )
}

fn least_magnitude(shape: Shape1) -> u64
    ensures value { neg_ℤ (pos result) ≡ least_printed shape }
    ensures range { result ≤ 90_000 }
{
    match shape {
        Shape1::OnePeriod => 90_000,
        Shape1::AtRedemption => 45_000,
    }
}

// The least printed yield is given by its magnitude.
pub(crate) fn yield_at(
    due: u64,
    accrued: u64,
    left: u64,
    basis: Basis,
    amount: u64,
    least: u64,
) -> SimpleYield
    requires due { due ≤ 1_000_000_000_000_000 }
    requires accrued { accrued ≤ 1_000_000_000_000_000 }
    requires left { left ≤ 720 }
    requires amount { (360_000 ≤ amount) × (amount ≤ 1_000_000_000_000_000) }
    requires least { least ≤ 90_000 }
    ensures exact { IsYieldAnswer (neg_ℤ (pos least)) (natural_payment due accrued left basis)
        (pos amount) result }
    ensures range { PrintsWithin (printed_from least) result }
{
    if left == 0 {
        return SimpleYield::NoTime;
    }
    let worth = amount + accrued;
    if worth <= due {
        shown_from_above(truncated(due - worth, worth * left, no_growth(basis)))
    } else {
        let loss = truncated(worth - due, worth * left, no_growth(basis));
        shown_from_below(loss, least)
    }
}

// A gain or a loss over what it is earned on, in 10^-6 a year, where one is no growth.
fn truncated(change: u64, base: u64, one: u64) -> u64
    requires change { change ≤ 2_000_000_000_000_000 }
    requires base { (360_000 ≤ base) × (base ≤ 2_000_000_000_000_000_000) }
    requires one { one ≤ 365_000_000 }
    ensures reached { result * base ≤ change * one }
    ensures next { change * one < (result + 1) * base }
    ensures range { result ≤ 3_000_000_000_000_000_000 }
{
    (u128::from(change) * u128::from(one) / u128::from(base)) as u64
}

fn shown_from_above(y: u64) -> SimpleYield
    requires { y ≤ 3_000_000_000_000_000_000 }
    ensures { result ≡ shown_above y }
{
    match Yield3::of(((y + 5) / 10) as i64) {
        Some(shown) => SimpleYield::Print(shown),
        None => SimpleYield::Above,
    }
}

fn shown_from_below(y: u64, least: u64) -> SimpleYield
    requires y { y ≤ 3_000_000_000_000_000_000 }
    requires least { least ≤ 90_000 }
    ensures { result ≡ shown_below least y }
{
    let magnitude = (y + 5) / 10;
    if magnitude > least {
        return SimpleYield::Below;
    }
    SimpleYield::Print(Yield3::new(-(magnitude as i64)))
}
