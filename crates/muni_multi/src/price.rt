//! The dollar price at a yield.

ghost use Rattle.std.specs.Prelude.{◌≡◌, ◌+◌, ◌*◌, ◌/◌, ◌<◌, ◌≤◌};
ghost use Rattle.muni_rule.specs.ManyPeriods.{to_come, AtLeast};
ghost use Rattle.muni_rule.specs.Verdicts.{at_least_verdict, dirty_thousandths};
ghost use Rattle.muni_rule.specs.WorthEnds.{ends_of};
ghost use Rattle.muni_multi.specs.Prices.{figure, whole_verdict, IsSeriesPriceOutcome, IsSeriesPrice, IsDoubtfulAnswer};

use crate::exact::ends;
use crate::{Discount, Encloser};
use muni_dec::Price3;
use muni_terms::Flows;

/// The price at a yield.
#[derive(Clone, Copy, Debug, PartialEq, Eq, Default)]
pub enum PriceAnswer {
    /// The exact price, truncated to thousandths of a dollar per 100 of par.
    Price(Price3),
    /// The exact price is below zero. It also fills the empty slots of a list.
    #[default]
    BelowZero,
    /// The exact price is too near the boundary to tell whether it reaches it. At the boundary
    /// 0.000 this is whether a price is printed at all.
    Undecided { boundary: Price3 },
}

/// The dollar price at the yield of a discount on the day of the settlement (MSRB Rule G-33(b)(i)).
/// Two payments or more are to come.
// The encloser is called once at most, and not at all in an exact case (tested).
pub fn printed_price_at<E: Encloser>(
    encloser: &E,
    flows: &Flows,
    discount: &Discount,
) -> PriceAnswer
    requires many { 2 ≤ flows.now.n }
    requires days { discount.now.a ≡ flows.now.a }
    // promise 1: the same as the program calls it, at a discount computed once: the exact price, truncated
    ensures exact { IsSeriesPrice (AtLeast (to_come flows.now) discount.now.y) result }
    // promise 4: it is undecided only in doubt at the boundary named
    ensures undecided { IsDoubtfulAnswer flows.now discount.now.y result }
    // promise 4: undecided exactly by the ends of the encloser, below zero only if the exact price is
    ensures outcome { IsSeriesPriceOutcome (λ t. at_least_verdict
        (ends_of flows.now discount.now.y (E.ends encloser.now flows.now discount.now.y))
        (dirty_thousandths flows.now.accrued t)) result }
    // promise 10: a price is at most 100,000 dollars
    ensures small { figure result ≤ 100_000_000 }
{
    let accrued = flows.accrued();
    let worth = ends(encloser, flows, discount);
    price_between(worth.whole_low(), worth.whole_high(), accrued)
}

// The price of a worth between two whole amounts.
fn price_between(low: u64, high: u64, accrued: u64) -> PriceAnswer
    requires ordered { low ≤ high }
    requires small { high < 35_000_000_000_000_000 }
    ensures outcome { IsSeriesPriceOutcome
        (λ t. whole_verdict low high (dirty_thousandths accrued t)) result }
    ensures small { figure result ≤ 100_000_000 }
{
    if high < accrued {
        return PriceAnswer::BelowZero;
    }
    if low < accrued {
        return PriceAnswer::Undecided {
            boundary: Price3::new(0),
        };
    }
    let reached = (low - accrued) / 360_000_000;
    if reached == (high - accrued) / 360_000_000 {
        PriceAnswer::Price(Price3::new(reached))
    } else {
        PriceAnswer::Undecided {
            boundary: Price3::new(reached + 1),
        }
    }
}
