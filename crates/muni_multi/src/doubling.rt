//! The sum by doubling.

ghost use Rattle.std.specs.Prelude.{◌≡◌, ◌≤◌, ◌<◌, ◌-◌, ◌*◌, ◌/◌, ◌^◌};
ghost use Rattle.muni_span.specs.Powers.{power_low, power_high};
ghost use Rattle.muni_multi.specs.Doubling.{level_from_half, level_end, paid_end, doubling_end, doubling_ends};
ghost use Rattle.muni_multi.specs.DoublingLaws.{doubling-encloses, doubling-narrow};
ghost use Rattle.muni_multi.specs.Horner.{AreDiscountEnds};

use crate::{Discount, Encloser};
use muni_span::span::Span;
use muni_span::worth::{Worth, of};
use muni_terms::Flows;

/// Encloses a worth by a sum that doubles: 2m regular payments are worth m of them, and the same
/// again discounted by m half-years.
#[derive(Clone, Copy, Debug, PartialEq, Eq)]
pub struct Doubling;

impl Encloser for Doubling {
    ghost ends = { λ _ series y. doubling_ends series y };

    fn pv(&self, flows: &Flows, y: i32) -> Worth {
        self.pv_at(flows, &Discount::at(y, flows.a()))
    }

    fn pv_at(&self, flows: &Flows, discount: &Discount) -> Worth {
        doubled_sum(flows, discount.half_year()).scale(discount.part())
    }

    ghost encloses = { λ _ series y is many within. doubling-encloses series y is many within };

    ghost narrow = { λ _ series y is many within. doubling-narrow series y is many within };
}

// What the payments are worth on the day of the first, which may be before the first interest.
fn doubled_sum(flows: &Flows, discount: Span) -> Worth
    requires { AreDiscountEnds discount.lo discount.hi }
    ensures lo { result.lo ≡ doubling_end 0 flows.now discount.lo }
    ensures hi { result.hi ≡ doubling_end (2 ^ 60 - 1) flows.now discount.hi }
    ensures small { result.hi < 2 ^ 64 }
{
    let skip = flows.skip();
    let paid = paid_sum(flows, discount, flows.n() - 1 - skip);
    if skip == 0 {
        paid
    } else {
        paid.scale(discount.power(skip))
    }
}

// On the day of the first interest: it, the payments after it and the redemption.
fn paid_sum(flows: &Flows, discount: Span, after: u32) -> Worth
    requires discount { AreDiscountEnds discount.lo discount.hi }
    requires few { after ≤ 99 }
    ensures lo { result.lo ≡ paid_end 0 flows.now discount.lo after }
    ensures hi { result.hi ≡ paid_end (2 ^ 60 - 1) flows.now discount.hi after }
    ensures small { result.hi ≤ 2 ^ 70 }
{
    let (level, factor) = level_sum(flows.regular(), discount, after);
    let redeemed = of(flows.redemption()).scale(factor);
    level.scale(discount).add(of(flows.first())).add(redeemed)
}

// A number of payments of an amount, half a year apart, on the day of the first, and the factor of as
// many half-years.
fn level_sum(amount: u64, discount: Span, count: u32) -> (Worth, Span)
    requires amount { amount ≤ 5_400_000_000_000 }
    requires discount { AreDiscountEnds discount.lo discount.hi }
    requires few { count ≤ 99 }
    ensures lo { result.0.lo ≡ level_end 0 amount discount.lo count }
    ensures hi { result.0.hi ≡ level_end (2 ^ 60 - 1) amount discount.hi count }
    ensures small { result.0.hi ≤ 2 ^ 66 }
    ensures factor_lo { result.1.lo ≡ power_low discount.lo count }
    ensures factor_hi { result.1.hi ≡ power_high discount.hi count }
{
    if count == 0 {
        return (of(0), discount.power(0));
    }
    let mut sum = of(amount);
    let mut factor = discount;
    let mut place = count.ilog2();
    while place > 0 {
        place -= 1;
        let reached = count >> place;
        sum = level_from_half(amount, discount, reached, sum, factor);
        factor = discount.power_from_half(factor, reached);
    }
    (sum, factor)
}

// The payments from half as many, and the factor of as many half-years as those are.
fn level_from_half(amount: u64, discount: Span, count: u32, half: Worth, factor: Span) -> Worth
    requires amount { amount ≤ 5_400_000_000_000 }
    requires half { half.hi ≤ 2 ^ 66 }
    requires discount { discount.hi ≤ 15 * 2 ^ 60 }
    requires fits { factor.hi ≤ 15 * 2 ^ 60 }
    requires factor_lo { factor.lo ≡ power_low discount.lo (count / 2) }
    requires factor_hi { factor.hi ≡ power_high discount.hi (count / 2) }
    ensures lo { result.lo ≡ level_from_half 0 amount discount.lo count half.lo }
    ensures hi { result.hi ≡ level_from_half (2 ^ 60 - 1) amount discount.hi count half.hi }
{
    let doubled = half.add(half.scale(factor));
    if count % 2 == 0 {
        doubled
    } else {
        doubled.scale(discount).add(of(amount))
    }
}
