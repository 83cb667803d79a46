//! For callers outside; the program goes by `Doubling`, `printed_price_at`, `at_least_at` and
//! `more_at`.

ghost use Rattle.std.specs.Prelude.{◌≡◌, ◌+◌, ◌*◌, ◌<◌, ◌≤◌, ◌^◌, pos};
ghost use Rattle.muni_rule.specs.Doubt.{IsDoubtful};
ghost use Rattle.muni_rule.specs.ManyPeriods.{to_come, AtLeast, More};
ghost use Rattle.muni_rule.specs.Payments as rule;
ghost use Rattle.muni_rule.specs.Ranges.{IsManyPeriodsBoundary};
ghost use Rattle.muni_rule.specs.Verdicts.{at_least_verdict, more_verdict, dirty_thousandths};
ghost use Rattle.muni_rule.specs.WorthEnds.{ends_of};
ghost use Rattle.muni_multi.specs.Horner.{sum_low, sum_high, horner_ends, AreDiscountEnds};
ghost use Rattle.muni_multi.specs.HornerLaws.{horner-encloses, horner-narrow};
ghost use Rattle.muni_multi.specs.Prices.{figure, IsSeriesPriceOutcome, IsSeriesPrice, IsDoubtfulAnswer};

use crate::payments::payment_at;
use crate::{Discount, Encloser, PriceAnswer, at_least_at, more_at, printed_price_at};
use muni_dec::{Price, Yield};
use muni_rule::Verdict;
use muni_span::span::Span;
use muni_span::worth::{Worth, of};
use muni_terms::Flows;

/// Encloses a worth by one sum from the last payment to the first.
// A step for each payment.
#[derive(Clone, Copy, Debug, PartialEq, Eq)]
pub struct Horner;

impl Encloser for Horner {
    ghost ends = { λ _ series y. horner_ends series y };

    fn pv(&self, flows: &Flows, y: i32) -> Worth {
        self.pv_at(flows, &Discount::at(y, flows.a()))
    }

    fn pv_at(&self, flows: &Flows, discount: &Discount) -> Worth {
        discounted_sum(flows, discount.half_year()).scale(discount.part())
    }

    ghost encloses = { λ _ series y is many within. horner-encloses series y is many within };

    ghost narrow = { λ _ series y is many within. horner-narrow series y is many within };
}

// What the payments are worth on the day of the first.
fn discounted_sum(flows: &Flows, discount: Span) -> Worth
    requires { AreDiscountEnds discount.lo discount.hi }
    ensures lo { result.lo ≡ sum_low (rule.payment_at flows.now) discount.lo flows.now.n 0 }
    ensures hi { result.hi ≡ sum_high (rule.payment_at flows.now) discount.hi flows.now.n 0 }
    ensures small { result.hi < 2 ^ 64 }
{
    let last = flows.n() - 1;
    let mut sum = of(payment_at(flows, last));
    for k in (0..last).rev() {
        sum = sum.scale(discount).add(of(payment_at(flows, k)));
    }
    sum
}

/// What `printed_price_at` answers at a yield, from -5.0005 to 100.0005 percent.
pub fn printed_price<E: Encloser>(encloser: &E, flows: &Flows, y: Yield) -> PriceAnswer
    requires many { 2 ≤ flows.now.n }
    requires y { IsManyPeriodsBoundary y }
    // promise 1: with more than six months left a decided price is the exact one, truncated
    ensures exact { IsSeriesPrice (AtLeast (to_come flows.now) y) result }
    // promise 4: it is undecided only in doubt at the boundary named
    ensures undecided { IsDoubtfulAnswer flows.now y result }
    // promise 4: undecided exactly by the ends of the encloser, below zero only if the exact price is
    ensures outcome { IsSeriesPriceOutcome (λ t. at_least_verdict
        (ends_of flows.now y (E.ends encloser.now flows.now y))
        (dirty_thousandths flows.now.accrued t)) result }
    // promise 10: a price is at most 100,000 dollars
    ensures small { figure result ≤ 100_000_000 }
{
    printed_price_at(encloser, flows, &Discount::at(y.units() as i32, flows.a()))
}

/// What `at_least_at` says at a yield in 10^-6, from -50,005 to 1,000,005.
///
/// `Unsure` comes only if the exact price is within 10^-9 dollars of the price.
pub fn at_least<E: Encloser>(encloser: &E, flows: &Flows, y: i32, price: Price) -> Verdict
    requires many { 2 ≤ flows.now.n }
    requires y { IsManyPeriodsBoundary y }
    // promise 4: a comparison is unsure exactly by the ends of the encloser
    ensures verdict { result ≡ at_least_verdict
        (ends_of flows.now y (E.ends encloser.now flows.now y))
        (360_000 * price + flows.now.accrued) }
    // promise 1: yes only if the exact price reaches this one
    ensures yes { result ≡ Verdict.Yes → AtLeast (to_come flows.now) y (pos (360_000 * price)) }
    // promise 1: no only if it does not
    ensures no { result ≡ Verdict.No →
        ¬ (AtLeast (to_come flows.now) y (pos (360_000 * price))) }
    // promise 4: unsure only within 10^-9 dollars of the boundary, and in no exact case
    ensures unsure { result ≡ Verdict.Unsure →
        IsDoubtful flows.now y (pos (360_000 * price)) }
{
    at_least_at(encloser, flows, &Discount::at(y, flows.a()), price).verdict
}

/// What `more_at` says at a yield, and else as `at_least`.
pub fn more<E: Encloser>(encloser: &E, flows: &Flows, y: i32, price: Price) -> Verdict
    requires many { 2 ≤ flows.now.n }
    requires y { IsManyPeriodsBoundary y }
    // promise 4: a comparison is unsure exactly by the ends of the encloser
    ensures verdict { result ≡ more_verdict
        (ends_of flows.now y (E.ends encloser.now flows.now y))
        (360_000 * price + flows.now.accrued) }
    // promise 2: yes only if the exact price is more than this one
    ensures yes { result ≡ Verdict.Yes → More (to_come flows.now) y (pos (360_000 * price)) }
    // promise 2: no only if it is not
    ensures no { result ≡ Verdict.No → ¬ (More (to_come flows.now) y (pos (360_000 * price))) }
    // promise 4: unsure only within 10^-9 dollars of the boundary, and in no exact case
    ensures unsure { result ≡ Verdict.Unsure →
        IsDoubtful flows.now y (pos (360_000 * price)) }
{
    more_at(encloser, flows, &Discount::at(y, flows.a()), price).verdict
}
