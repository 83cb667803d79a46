//! One payment that is left, discounted by the formula for several.

ghost use Rattle.std.specs.Prelude.{◌≡◌, ◌*◌, ◌≤◌, ◌≤ℤ◌, pos, true, IfSome};
ghost use Rattle.muni_rule.specs.PrintedYield as rule;
ghost use Rattle.muni_rule.specs.Ranges.{IsManyPeriodsBoundary};
ghost use Rattle.muni_rule.specs.Verdicts as verdicts;
ghost use Rattle.muni_rule.specs.WorthEnds.{HoldsWorth, IsNarrow, enclosure_ends};
ghost use Rattle.muni_simple.specs.Single.{IsSingle};
ghost use Rattle.muni_simple.specs.declared.single.Shape1.TheVariants as single;
ghost use Rattle.muni_yield.specs.Places.{yield_at};
ghost use Rattle.muni_answer.specs.Trade as trades;
ghost use Rattle.muni_readings.specs.Compounded as spec;
ghost use Rattle.muni_readings.specs.Compounded.{IsByCompounding, IsCompoundedAt, IsCompoundedPrice, IsCompoundedYield, TellsYield};

use crate::Answered;
use crate::disclosed::disclosed;
use crate::money::with_price;
use muni_dec::{Price, Price3, Yield, Yield3};
use muni_msg::{Asked, Figures, Given, Side};
use muni_multi::{Discount, Verdict};
use muni_rule::YieldRange;
use muni_sched::{Schedule, Shape};
use muni_simple::Single;
use muni_span::worth::{Worth, of};

// The places of the least printed yield, and of the one past the greatest.
const LEAST: u32 = 1;

const PAST_GREATEST: u32 = 105_002;

/// The figures with the price at a yield, or the yield at a price, compounded if one payment is left.
pub(crate) fn by_compounding(answered: &Answered<'_>, schedule: &mut Schedule) -> Option<Figures>
    ensures { IsByCompounding answered.now.issue.now answered.now.asked.now answered.now.figures.now
        result }
{
    let Some(redemption) = disclosed(answered, schedule) else {
        return None;
    };
    match redemption.shape {
        Shape::One(payment) => compounded(answered, &payment),
        Shape::Many(_) | Shape::AtRedemption(_) | Shape::Discount { .. } => Some(*answered.figures),
    }
}

fn compounded(answered: &Answered<'_>, payment: &Single) -> Option<Figures>
    requires { IsSingle single.OnePeriod payment.now }
    ensures { IsCompoundedAt answered.now.asked.now.given payment.now answered.now.asked.now
        answered.now.figures.now result }
{
    match answered.asked.given {
        Given::AtYield(y) => compounded_at_yield(answered, payment, y),
        Given::AtPrice(price) => {
            let net = net_price(price, answered.asked);
            match compounded_yield(payment, net) {
                Some(yld) => Some(with_yield(answered.figures, yld)),
                None => None,
            }
        }
        Given::AtRate(_) => None,
    }
}

fn compounded_at_yield(answered: &Answered<'_>, payment: &Single, y: Yield) -> Option<Figures>
    requires { IsSingle single.OnePeriod payment.now }
    ensures { IsCompoundedAt (Given.AtYield y) payment.now answered.now.asked.now
        answered.now.figures.now result }
{
    if YieldRange::MANY_PERIODS.side_of(y.units()).is_some() {
        return None;
    }
    match compounded_price(payment, y) {
        Some(price) => with_price(answered, price),
        None => None,
    }
}

fn with_yield(figures: &Figures, yld: Yield3) -> Figures
    ensures { result ≡ record figures.now { yld = yld } }
{
    let mut theirs = *figures;
    theirs.yld = yld;
    theirs
}

// The price with the commission, in 10^-6 dollars.
fn net_price(price: Price, asked: &Asked) -> u64
    ensures value { result ≡ trades.net_price asked.now.side price asked.now.fee }
    ensures range { result ≤ 1_010_000_000 }
{
    let commission = 1_000 * asked.fee.units();
    match asked.side {
        Side::Buy => price.units() + commission,
        Side::Sell => price.units().saturating_sub(commission),
    }
}

// The price at a yield, truncated. None if it is below zero or too near to a thousandth.
fn compounded_price(payment: &Single, y: Yield) -> Option<Price3>
    requires single { IsSingle single.OnePeriod payment.now }
    requires y { IsManyPeriodsBoundary y }
    ensures exact { IsCompoundedPrice payment.now y result }
    ensures small { IfSome result (λ price. price ≤ 100_000_000) }
{
    let worth = compounded_worth(payment, y.units() as i32);
    let accrued = payment.accrued as u64;
    let low = (worth.lo() / 4096) as u64;
    if low < accrued {
        return None;
    }
    let price = (low - accrued) / 360_000_000;
    let next = 360_000_000 * (price + 1) + accrued;
    if worth.hi() < u128::from(next) * 4096 {
        Some(Price3::new(price))
    } else {
        None
    }
}

// Between which amounts the worth lies at the settlement, with the accrued interest, at a yield in 10^-6.
fn compounded_worth(payment: &Single, y: i32) -> Worth
    requires single { IsSingle single.OnePeriod payment.now }
    requires y { IsManyPeriodsBoundary y }
    ensures holds { HoldsWorth (spec.compounded payment.now) y (enclosure_ends result.lo result.hi) }
    ensures narrow { IsNarrow (enclosure_ends result.lo result.hi) }
    ensures small { result.hi ≤ 8_000_000_000_000_000_000 }
{
    let passed = 180 - payment.left as u32;
    of(payment.due as u64).scale(Discount::at(y, passed).part())
}

// The yield at a price in 10^-6 dollars. None if it lies outside the range of several payments, or if the price at a
// yield between two printed ones is too near.
fn compounded_yield(payment: &Single, price: u64) -> Option<Yield3>
    requires single { IsSingle single.OnePeriod payment.now }
    requires price { price ≤ 1_010_000_000 }
    ensures { IsCompoundedYield payment.now (pos (360_000 * price)) result }
{
    match reached(payment, price, LEAST) {
        Verdict::Yes => {}
        Verdict::No | Verdict::Unsure => return None,
    }
    match reached(payment, price, PAST_GREATEST) {
        Verdict::No => {}
        Verdict::Yes | Verdict::Unsure => return None,
    }
    printed_between(payment, price)
}

// The same if it lies in the range. A place counts thousandths of a percent from -5.001.
fn printed_between(payment: &Single, price: u64) -> Option<Yield3>
    requires single { IsSingle single.OnePeriod payment.now }
    requires price { price ≤ 1_010_000_000 }
    requires least { TellsYield payment.now (pos (360_000 * price)) (yield_at 1) Verdict.Yes }
    requires past { TellsYield payment.now (pos (360_000 * price)) (yield_at 105_002) Verdict.No }
    ensures { IsCompoundedYield payment.now (pos (360_000 * price)) result }
{
    let mut low = LEAST;
    let mut high = PAST_GREATEST;
    while high - low > 1 {
        let middle = (low + high) / 2;
        match reached(payment, price, middle) {
            Verdict::Yes => low = middle,
            Verdict::No => high = middle,
            Verdict::Unsure => return None,
        }
    }
    Some(Yield3::new(i64::from(low) - 5_001))
}

// Whether the yield is printed as the one at a place or more.
fn reached(payment: &Single, price: u64, place: u32) -> Verdict
    requires single { IsSingle single.OnePeriod payment.now }
    requires price { price ≤ 1_010_000_000 }
    requires place { (1 ≤ place) × (place ≤ 105_002) }
    ensures { TellsYield payment.now (pos (360_000 * price)) (yield_at place) result }
{
    let worth = compounded_worth(payment, boundary_at(place));
    let amount = 360_000 * price + payment.accrued as u64;
    if place > 5_001 {
        at_least_verdict(&worth, amount)
    } else {
        more_verdict(&worth, amount)
    }
}

// Where the yields that are printed as the one at a place begin, in 10^-6.
fn boundary_at(place: u32) -> i32
    requires { (1 ≤ place) × (place ≤ 105_002) }
    ensures value { result ≡ rule.boundary (yield_at place) }
    ensures range { IsManyPeriodsBoundary result }
{
    10 * place as i32 - 50_015
}

fn at_least_verdict(worth: &Worth, amount: u64) -> Verdict
    ensures { result
        ≡ verdicts.at_least_verdict (enclosure_ends worth.now.lo worth.now.hi) amount }
{
    let asked = u128::from(amount) * 4096;
    if asked <= worth.lo() {
        Verdict::Yes
    } else if worth.hi() < asked {
        Verdict::No
    } else {
        Verdict::Unsure
    }
}

fn more_verdict(worth: &Worth, amount: u64) -> Verdict
    ensures { result
        ≡ verdicts.more_verdict (enclosure_ends worth.now.lo worth.now.hi) amount }
{
    let asked = u128::from(amount) * 4096;
    if asked < worth.lo() {
        Verdict::Yes
    } else if worth.hi() <= asked {
        Verdict::No
    } else {
        Verdict::Unsure
    }
}
