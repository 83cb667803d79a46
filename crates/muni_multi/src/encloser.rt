//! What encloses the worth of payments.

ghost use Rattle.std.specs.Prelude.{◌≡◌, ◌≤◌, ℤ};
ghost use Rattle.muni_rule.specs.ManyPeriods.{to_come};
ghost use Rattle.muni_rule.specs.Payments.{PaymentSeries, IsSeries};
ghost use Rattle.muni_rule.specs.Ranges.{IsManyPeriodsBoundary};
ghost use Rattle.muni_rule.specs.WorthEnds.{WorthEnds, HoldsWorth, IsNarrow, enclosure_ends};

use crate::Discount;
use muni_span::worth::Worth;
use muni_terms::Flows;

/// Encloses the worth of payments at the settlement, with the accrued interest.
///
/// To payments and a yield belong two ends, and `pv` gives these and no others.
pub trait Encloser {
    ghost ends: { Self → PaymentSeries → ℤ → WorthEnds };

    /// The ends for at least two payments, at a yield in 10^-6 from -50,005 to 1,000,005.
    fn pv(&self, flows: &Flows, y: i32) -> Worth
        requires many { 2 ≤ flows.now.n }
        requires y { IsManyPeriodsBoundary y }
        // promise 1: an encloser holds the worth of 2 to 100 payments, by its own ends
        ensures { enclosure_ends result.lo result.hi ≡ ends self.now flows.now y };

    /// The same ends, if the discount factors on the day of the settlement are known.
    fn pv_at(&self, flows: &Flows, discount: &Discount) -> Worth
        requires many { 2 ≤ flows.now.n }
        requires days { discount.now.a ≡ flows.now.a }
        // promise 1: the same at a discount that is computed once
        ensures { enclosure_ends result.lo result.hi ≡ ends self.now flows.now discount.now.y }
    {
        self.pv(flows, discount.y())
    }

    // The worth lies between the ends: all three are raised to the power 180.
    ghost encloses: { (e : Self) (series : PaymentSeries) (y : ℤ)
        → IsSeries series → 2 ≤ series.n → IsManyPeriodsBoundary y
        → HoldsWorth (to_come series) y (ends e series y) };

    // The ends are less than 10^-9 dollars apart.
    ghost narrow: { (e : Self) (series : PaymentSeries) (y : ℤ)
        → IsSeries series → 2 ≤ series.n → IsManyPeriodsBoundary y
        → IsNarrow (ends e series y) };
}
