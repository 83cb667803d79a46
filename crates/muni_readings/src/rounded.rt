//! A computed price rounded to thousandths, and not truncated.

ghost use Rattle.std.specs.Prelude.{◌≡◌, ◌↔◌, ◌+◌, ◌*◌, ◌≤◌, ◌≤ℤ◌, pos, true, IsTrue, IfSome};
ghost use Rattle.muni_rule.specs.Accuracy.{Reaches, price_amount};
ghost use Rattle.muni_rule.specs.DayCount.{year_of};
ghost use Rattle.muni_rule.specs.Discount as rule;
ghost use Rattle.muni_rule.specs.Ranges.{IsDiscountRate};
ghost use Rattle.muni_rule.specs.SinglePayment as one;
ghost use Rattle.muni_sched.specs.Candidates.{IsCandidate};
ghost use Rattle.muni_sched.specs.Range.{IsGivenFor};
ghost use Rattle.muni_simple.specs.Single.{IsSingle, IsGivenYield, payment_of};
ghost use Rattle.muni_readings.specs.Disclosed.{is_given_for};
ghost use Rattle.muni_readings.specs.Rounded as spec;
ghost use Rattle.muni_readings.specs.Rounded.{IsByRounding, TellsReached};

use crate::Answered;
use crate::disclosed::disclosed;
use crate::money::with_price;
use muni_days::Basis;
use muni_dec::{Price, Price3, Yield};
use muni_msg::{Figures, Given};
use muni_multi::{Encloser, Verdict, at_least};
use muni_sched::{Candidate, Schedule, Shape};
use muni_simple::{Shape1, Single, growth};

/// The figures with the price to the disclosed redemption rounded to the nearest thousandth, and half a thousandth
/// upward.
pub(crate) fn by_rounding<E: Encloser>(
    encloser: &E,
    answered: &Answered<'_>,
    schedule: &mut Schedule,
) -> Option<Figures>
    ensures { IsByRounding answered.now.issue.now answered.now.asked.now answered.now.figures.now
        result }
{
    let price = answered.figures.price;
    let Some(half) = half_above(price) else {
        return None;
    };
    let Some(redemption) = disclosed(answered, schedule) else {
        return None;
    };
    match reaches(encloser, answered.asked.given, &redemption, half) {
        Verdict::Yes => with_price(answered, next_above(price)),
        Verdict::No => Some(*answered.figures),
        Verdict::Unsure => None,
    }
}

// Half a thousandth above a price below 1,000 dollars.
fn half_above(price: Price3) -> Option<Price>
    ensures value { result ≡ spec.half_above price }
    ensures small { IfSome result (λ half. price ≤ 999_999) }
{
    if price.units() > 999_999 {
        return None;
    }
    Some(Price::new(1_000 * price.units() + 500))
}

fn next_above(price: Price3) -> Price3
    requires { price ≤ 999_999 }
    ensures { result ≡ price + 1 }
{
    Price3::new(price.units() + 1)
}

// Whether the exact price to a redemption is at least a price. One that is given is not computed, and so is none.
fn reaches<E: Encloser>(encloser: &E, given: Given, redemption: &Candidate, price: Price) -> Verdict
    requires candidate { IsCandidate redemption.now }
    requires given { is_given_for given redemption.now ≡ true }
    ensures { TellsReached given redemption.now.shape price result }
{
    match given {
        Given::AtYield(y) => reaches_at_yield(encloser, redemption, y, price),
        Given::AtRate(rate) => match redemption.shape {
            Shape::Discount { days, basis } => verdict(note_reaches(rate, days, basis, price)),
            Shape::Many(_) | Shape::One(_) | Shape::AtRedemption(_) => Verdict::No,
        },
        Given::AtPrice(_) => Verdict::No,
    }
}

fn reaches_at_yield<E: Encloser>(
    encloser: &E,
    redemption: &Candidate,
    y: Yield,
    price: Price,
) -> Verdict
    requires candidate { IsCandidate redemption.now }
    requires given { IsGivenFor y redemption.now }
    ensures { TellsReached (Given.AtYield y) redemption.now.shape price result }
{
    match &redemption.shape {
        Shape::Many(flows) => at_least(encloser, flows, y.units() as i32, price),
        Shape::One(payment) => verdict(payment_reaches(payment, Shape1::OnePeriod, y, price)),
        Shape::AtRedemption(payment) => {
            verdict(payment_reaches(payment, Shape1::AtRedemption, y, price))
        }
        Shape::Discount { .. } => Verdict::No,
    }
}

fn verdict(yes: bool) -> Verdict
    ensures { result ≡ spec.verdict_of yes }
{
    if yes { Verdict::Yes } else { Verdict::No }
}

// Whether due / growth - accrued is at least a price.
fn payment_reaches(payment: &Single, shape: Shape1, y: Yield, price: Price) -> bool
    requires single { IsSingle shape payment.now }
    requires y { IsGivenYield shape y }
    ensures { IsTrue result
        ↔ one.AtLeast (payment_of payment.now) y (price_amount payment.now.basis price) }
{
    is_worth(
        payment.due as u64,
        payment.accrued as u64,
        growth(payment, shape, y),
        no_growth(payment.basis),
        amount_of(price, payment.basis),
    )
}

// One, as growths are counted.
fn no_growth(basis: Basis) -> u64
    ensures { result ≡ year_of basis * 1_000_000 }
{
    basis.year() as u64 * 1_000_000
}

// A price as an amount.
fn amount_of(price: Price, basis: Basis) -> u64
    ensures value { pos result ≡ price_amount basis price }
    ensures range { result ≤ 365_000 * price }
{
    basis.year() as u64 * 1_000 * price.units()
}

// Whether due / growth - accrued is at least an amount, where one is no growth.
fn is_worth(due: u64, accrued: u64, growth: u64, one: u64, amount: u64) -> bool
    requires accrued { accrued ≤ 1_000_000_000_000_000 }
    requires amount { amount ≤ 1_000_000_000_000_000 }
    ensures { IsTrue result ↔ ((amount + accrued) * growth ≤ due * one) }
{
    u128::from(amount + accrued) * u128::from(growth) <= u128::from(due) * u128::from(one)
}

// Whether par less the rate for the days of a year is at least a price.
fn note_reaches(rate: Yield, days: i32, basis: Basis, price: Price) -> bool
    requires rate { IsDiscountRate rate }
    requires days { (pos 0 ≤ℤ days) × (days ≤ℤ pos 720) }
    ensures { IsTrue result
        ↔ Reaches (rule.discount_price basis rate days) (price_amount basis price) }
{
    let year = basis.year() as u64;
    let discount = 100_000 * (rate.units() as u64 * days as u64);
    year * 1_000 * price.units() + discount <= year * 100_000_000_000
}
