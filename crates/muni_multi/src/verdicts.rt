//! Verdicts on the price at a yield.

ghost use Rattle.std.specs.Prelude.{◌≡◌, ◌+◌, ◌*◌, ◌^◌, ◌<◌, ◌≤◌};
ghost use Rattle.muni_rule.specs.Verdicts.{at_least_verdict, more_verdict};
ghost use Rattle.muni_rule.specs.WorthEnds.{ends_of};
ghost use Rattle.muni_multi.specs.Readings.{is_clear, told};

use crate::ends::Ends;
use crate::exact::ends;
use crate::{Discount, Encloser};
use muni_dec::Price;
use muni_rule::Verdict;
use muni_terms::Flows;

/// What the ends of a worth say of a price.
#[derive(Clone, Copy, Debug, PartialEq, Eq)]
pub struct Reading {
    pub verdict: Verdict,
    /// Whether the verdict is Yes also for a price 10^-9 dollars higher, or No for one that much
    /// lower.
    pub clear: bool,
}

/// Whether the exact price at the yield of a discount, on the day of the settlement, is at least a
/// price (MSRB Rule G-33(b)(i)). Two payments or more are to come.
///
/// An exact case is decided by whole numbers, and any other by the ends of the enclosure.
pub fn at_least_at<E: Encloser>(
    encloser: &E,
    flows: &Flows,
    discount: &Discount,
    price: Price,
) -> Reading
    requires many { 2 ≤ flows.now.n }
    requires days { discount.now.a ≡ flows.now.a }
    // promise 1, 4: the verdict of the program's comparison, by the ends of the encloser
    ensures verdict { result.verdict ≡ at_least_verdict
        (ends_of flows.now discount.now.y (E.ends encloser.now flows.now discount.now.y))
        (360_000 * price + flows.now.accrued) }
    // promise 4: whether it is the same for a price 10^-9 dollars nearer to the exact one
    ensures clear { result.clear ≡ is_clear result.verdict
        (ends_of flows.now discount.now.y (E.ends encloser.now flows.now discount.now.y))
        (360_000 * price + flows.now.accrued) }
{
    let dirty = 360_000 * price.units() + flows.accrued();
    let ends = ends(encloser, flows, discount);
    told(&ends, dirty, at_least_between(&ends, dirty))
}

/// Whether the exact price is more than a price, and else as `at_least_at`.
pub fn more_at<E: Encloser>(
    encloser: &E,
    flows: &Flows,
    discount: &Discount,
    price: Price,
) -> Reading
    requires many { 2 ≤ flows.now.n }
    requires days { discount.now.a ≡ flows.now.a }
    // promise 2, 4: the verdict of the program's comparison, by the ends of the encloser
    ensures verdict { result.verdict ≡ more_verdict
        (ends_of flows.now discount.now.y (E.ends encloser.now flows.now discount.now.y))
        (360_000 * price + flows.now.accrued) }
    // promise 4: whether it is the same for a price 10^-9 dollars nearer to the exact one
    ensures clear { result.clear ≡ is_clear result.verdict
        (ends_of flows.now discount.now.y (E.ends encloser.now flows.now discount.now.y))
        (360_000 * price + flows.now.accrued) }
{
    let dirty = 360_000 * price.units() + flows.accrued();
    let ends = ends(encloser, flows, discount);
    told(&ends, dirty, more_between(&ends, dirty))
}

// A verdict on an amount, and if it clears the amount by 10^-9 dollars.
fn told(ends: &Ends, amount: u64, verdict: Verdict) -> Reading
    requires amount { amount + 360 < 2 ^ 50 }
    requires unit { ends.now.unit ≤ 2 ^ 66 }
    ensures { result ≡ told verdict ends.now amount }
{
    let clear = match verdict {
        Verdict::Yes => at_least_between(ends, amount + 360) == Verdict::Yes,
        Verdict::No => at_least_between(ends, amount.saturating_sub(360)) == Verdict::No,
        Verdict::Unsure => false,
    };
    Reading { verdict, clear }
}

fn at_least_between(ends: &Ends, amount: u64) -> Verdict
    requires amount { amount < 2 ^ 50 }
    requires unit { ends.now.unit ≤ 2 ^ 66 }
    ensures { result ≡ at_least_verdict ends.now amount }
{
    let asked = u128::from(amount) * ends.unit;
    if asked <= ends.lo {
        Verdict::Yes
    } else if ends.hi < asked {
        Verdict::No
    } else {
        Verdict::Unsure
    }
}

fn more_between(ends: &Ends, amount: u64) -> Verdict
    requires amount { amount < 2 ^ 50 }
    requires unit { ends.now.unit ≤ 2 ^ 66 }
    ensures { result ≡ more_verdict ends.now amount }
{
    let asked = u128::from(amount) * ends.unit;
    if asked < ends.lo {
        Verdict::Yes
    } else if ends.hi <= asked {
        Verdict::No
    } else {
        Verdict::Unsure
    }
}
