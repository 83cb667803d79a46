//! Sums of discounted payments, each times a weight.

ghost use Rattle.std.specs.Prelude.{◌≡◌, ◌+◌, ◌-◌, ◌*◌, ◌/◌, ◌^◌, ◌<◌, ◌≤◌};
ghost use Rattle.muni_rule.specs.Payments.{IsSeries};
ghost use Rattle.muni_multi.specs.Horner.{AreDiscountEnds};
ghost use Rattle.muni_risk.specs.Sums as rule;
ghost use Rattle.muni_risk.specs.Sums.{IsFirstPaid, IsSumFrom, AreSumsFrom};

use muni_multi::payment_at;
use muni_span::span::Span;
use muni_span::worth::Worth;
use muni_terms::Flows;

/// What each payment is multiplied by.
#[derive(Clone, Copy, Debug, PartialEq, Eq)]
pub(crate) enum Weight {
    /// One.
    One,
    /// The days to the payment.
    Days,
    /// These days times the days to half a year after the payment.
    DaysTwice,
}

impl Weight {
    fn factor(self, days: u64) -> u128
        requires { days ≤ 18_000 }
        ensures value { result ≡ rule.factor self days }
        ensures small { result ≤ 327_240_000 * 2 ^ 32 }
    {
        let days = u128::from(days);
        match self {
            Weight::One => 1 << 48,
            Weight::Days => days << 32,
            Weight::DaysTwice => (days * (days + 180)) << 32,
        }
    }
}

/// The place of the first payment that is not 0.
pub(crate) fn first_paid(flows: &Flows) -> u32
    ensures { IsFirstPaid flows.now result }
{
    let last = flows.n() - 1;
    for k in 0..last {
        if payment_at(flows, k) > 0 {
            return k;
        }
    }
    last
}

/// Sums of the payments from a place on, on the day of the first of them: in units of 2^-60 amounts,
/// and with days of 2^-44 amounts.
#[derive(Clone, Copy, Debug)]
pub(crate) struct Sums {
    /// Of the payments.
    pub one: Worth,
    /// Of each times the days to it.
    pub days: Worth,
    /// Of each times these days times the days to half a year after it.
    pub days_twice: Worth,
}

/// The sums of the payments from a place on.
pub(crate) fn sums_from(flows: &Flows, discount: Span, start: u32) -> Sums
    requires discount { AreDiscountEnds discount.lo discount.hi }
    requires start { start < flows.now.n }
    ensures bounds { IsSeries flows.now }
    ensures sums { AreSumsFrom flows.now discount.lo discount.hi start result }
{
    let none = exactly(0);
    let mut sums = Sums {
        one: none,
        days: none,
        days_twice: none,
    };
    for k in (start..flows.n()).rev() {
        sums = Sums {
            one: with_payment(flows, discount, Weight::One, k, sums.one),
            days: with_payment(flows, discount, Weight::Days, k, sums.days),
            days_twice: with_payment(flows, discount, Weight::DaysTwice, k, sums.days_twice),
        };
    }
    sums
}

/// The sum of all payments times the days to each, from that of the payments from a place on.
pub(crate) fn days_of_all(flows: &Flows, discount: Span, place: u32, days: Worth) -> Worth
    requires discount { AreDiscountEnds discount.lo discount.hi }
    requires place { place < flows.now.n }
    requires days { IsSumFrom Weight.Days flows.now discount.lo discount.hi place days }
    ensures { IsSumFrom Weight.Days flows.now discount.lo discount.hi 0 result }
{
    let mut days = days;
    for k in (0..place).rev() {
        days = with_payment(flows, discount, Weight::Days, k, days);
    }
    days
}

// A sum of the payments from place k on, from that of those after it.
fn with_payment(flows: &Flows, discount: Span, weight: Weight, k: u32, later: Worth) -> Worth
    requires discount { AreDiscountEnds discount.lo discount.hi }
    requires place { k < flows.now.n }
    requires later { IsSumFrom weight flows.now discount.lo discount.hi (k + 1) later }
    ensures { IsSumFrom weight flows.now discount.lo discount.hi k result }
{
    let payment = exactly(weighted(flows, k, weight));
    later.scale(discount).add(payment)
}

fn weighted(flows: &Flows, k: u32, weight: Weight) -> u128
    requires { k < flows.now.n }
    ensures bounds { IsSeries flows.now }
    ensures value { result ≡ 4096 * rule.weighted weight flows.now k }
    ensures small { result ≤ 82_800_000_000_000 * 327_240_000 * 2 ^ 44 }
{
    let left = 180 - flows.a();
    let days = u64::from(180 * k + left);
    u128::from(payment_at(flows, k)) * weight.factor(days) * 4096
}

fn exactly(amount: u128) -> Worth
    ensures lo { result.lo ≡ amount }
    ensures hi { result.hi ≡ amount }
{
    Worth::new(amount, amount)
}
