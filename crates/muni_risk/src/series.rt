//! With two payments or more to come.

ghost use Rattle.std.specs.Prelude.{◌≡◌, ◌+◌, ◌*◌, ◌/◌, ◌^◌, ◌<◌, ◌≤◌};
ghost use Rattle.muni_rule.specs.ManyPeriods.{to_come};
ghost use Rattle.muni_rule.specs.Sensitivities.{IsPrintedThousandths, IsPrintedDv01, duration, convexity};
ghost use Rattle.muni_multi.specs.LastStep.{discount_low, discount_high};
ghost use Rattle.muni_risk.specs.Sums.{IsSumFrom};
ghost use Rattle.muni_risk.specs.declared.sums.Weight.{Weight};

use crate::Sensitivities;
use crate::nearest::nearest_of_sums;
use crate::sums::{days_of_all, first_paid, sums_from};
use muni_multi::Discount;
use muni_span::span::divisor_of;
use muni_span::worth::Worth;
use muni_terms::{Flows, flows_are_in_range};

/// One last digit of a DV01, as sums of amounts times days are counted: 10^-6 dollars for 0.01 percent.
const LAST_DIGIT: u128 = 1_296_000_000_000 << 44;

/// How the price with the accrued interest moves with the yield, at the yield of a discount on the day
/// of the settlement. Two payments or more are to come.
pub fn series_sensitivities(flows: &Flows, discount: &Discount) -> Sensitivities
    requires many { 2 ≤ flows.now.n }
    requires days { discount.now.a ≡ flows.now.a }
    // promise 1: a duration within half a last digit and 10^-6 of one of the exact one
    ensures duration { IsPrintedThousandths (duration (to_come flows.now) discount.now.y)
        result.duration }
    // promise 1: a convexity within half a last digit and 10^-6 of one
    ensures convexity { IsPrintedThousandths (convexity (to_come flows.now) discount.now.y)
        result.convexity }
    // promise 1: the DV01 is the duration times the worth with the accrued interest / 10,000, as near
    ensures dv01 { IsPrintedDv01 (to_come flows.now) discount.now.y result.dv01 }
{
    let first = first_paid(flows);
    let sums = sums_from(flows, discount.half_year(), first);
    let whole = rounded_up(sums.one);
    let divisor = u128::from(divisor_of(discount.y()));
    Sensitivities {
        duration: nearest_of_sums(sums.days.lo(), whole, 50_000_000, 9 * divisor),
        convexity: nearest_of_sums(
            sums.days_twice.lo(),
            whole,
            2_500_000_000_000,
            81 * divisor * divisor,
        ),
        dv01: dv01(flows, discount, first, sums.days),
    }
}

// The upper end of a sum of payments, rounded up to units of 2^-44 amounts.
fn rounded_up(sum: Worth) -> u128
    requires { sum.hi < 2 ^ 125 }
    ensures { result ≡ (sum.hi + 65_535) / 65_536 }
{
    (sum.hi() + 65_535) / 65_536
}

// Each end is the sum of the payments times their days, discounted by half a year more.
fn dv01(flows: &Flows, discount: &Discount, first: u32, days: Worth) -> u64
    requires many { 2 ≤ flows.now.n }
    requires a { discount.now.a ≡ flows.now.a }
    requires first { first < flows.now.n }
    requires days { IsSumFrom Weight.Days flows.now (discount_low discount.now.y)
        (discount_high discount.now.y) first days }
    ensures { IsPrintedDv01 (to_come flows.now) discount.now.y result }
{
    flows_are_in_range(flows);
    let half_year = discount.half_year();
    let on_first = days_of_all(flows, half_year, first, days);
    let settled = on_first.scale(half_year).scale(discount.part());
    ((settled.lo() + settled.hi() + LAST_DIGIT) / (2 * LAST_DIGIT)) as u64
}
