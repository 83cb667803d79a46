//! The exact cases: a yield of zero, a par bond, and at most three periods on an interest date.

ghost use Rattle.std.specs.Prelude.{◌≡◌, ◌+◌, ◌*◌, ◌^◌, ◌≤◌, IfSome};
ghost use Rattle.muni_rule.specs.ExactCases as cases;
ghost use Rattle.muni_rule.specs.ManyPeriods.{sum_to, discounted_sum};
ghost use Rattle.muni_rule.specs.Payments as series;
ghost use Rattle.muni_rule.specs.Ranges.{IsManyPeriodsBoundary};
ghost use Rattle.muni_rule.specs.WorthEnds as rule;
ghost use Rattle.muni_rule.specs.WorthEnds.{more_half_years, ends_of};

use crate::ends::Ends;
use crate::payments::{payment_at, total};
use crate::{Discount, Encloser};
use muni_span::span::divisor_of;
use muni_terms::Flows;

/// The ends that verdicts are read off: the worth itself in an exact case, and else an enclosure.
pub(crate) fn ends<E: Encloser>(encloser: &E, flows: &Flows, discount: &Discount) -> Ends
    requires many { 2 ≤ flows.now.n }
    requires days { discount.now.a ≡ flows.now.a }
    ensures value { result ≡ ends_of flows.now discount.now.y
        (E.ends encloser.now flows.now discount.now.y) }
    ensures y { IsManyPeriodsBoundary discount.now.y }
    ensures unit { result.unit ≤ 2 ^ 66 }
{
    if let Some(exact) = exact_worth(flows, divisor_of(discount.y())) {
        return exact;
    }
    let worth = encloser.pv_at(flows, discount);
    Ends {
        lo: worth.lo(),
        hi: worth.hi(),
        unit: 4096,
    }
}

fn exact_worth(flows: &Flows, divisor: u64) -> Option<Ends>
    requires many { 2 ≤ flows.now.n }
    requires divisor { divisor ≤ 3_000_005 }
    ensures value { result ≡ rule.exact_worth flows.now divisor }
    ensures unit { IfSome result (λ ends. ends.unit ≤ 2 ^ 66) }
{
    if divisor == 2_000_000 {
        Some(exactly(u128::from(total(flows)), 1))
    } else if is_par_bond(flows, divisor) {
        Some(exactly(u128::from(flows.redemption() + flows.accrued()), 1))
    } else if is_short(flows) {
        Some(short_worth(flows, divisor))
    } else {
        None
    }
}

fn exactly(top: u128, unit: u128) -> Ends
    ensures { result ≡ rule.exactly top unit }
{
    Ends {
        lo: top,
        hi: top,
        unit,
    }
}

fn is_par_bond(flows: &Flows, divisor: u64) -> bool
    requires { divisor ≤ 3_000_005 }
    ensures { result ≡ cases.is_par_bond flows.now divisor }
{
    let accrued_whole = flows.a() == 0 && flows.accrued() == 0
        || flows.a() == 180 && flows.accrued() == flows.regular();
    let level = flows.skip() == 0 && flows.first() == flows.regular();
    accrued_whole && level && yields_par(flows, divisor)
}

fn yields_par(flows: &Flows, divisor: u64) -> bool
    requires { divisor ≤ 3_000_005 }
    ensures { result ≡ cases.yields_par flows.now divisor }
{
    let last = u128::from(flows.regular() + flows.redemption());
    last * 2_000_000 == u128::from(flows.redemption()) * u128::from(divisor)
}

fn is_short(flows: &Flows) -> bool
    ensures { result ≡ cases.is_short flows.now }
{
    (flows.a() == 0 || flows.a() == 180) && flows.n() <= 3
}

// The worth on an interest date. On the day that begins a period half a year more is discounted.
fn short_worth(flows: &Flows, divisor: u64) -> Ends
    requires many { 2 ≤ flows.now.n }
    requires few { flows.now.n ≤ 3 }
    requires divisor { divisor ≤ 3_000_005 }
    ensures value { result ≡ rule.short_worth flows.now divisor }
    ensures unit { result.unit ≤ 2 ^ 66 }
{
    let sum = short_sum(flows, divisor);
    if flows.a() == 0 {
        exactly(sum * 2_000_000, small_power(divisor, flows.n()))
    } else {
        exactly(sum, small_power(divisor, flows.n() - 1))
    }
}

fn short_sum(flows: &Flows, divisor: u64) -> u128
    requires many { 2 ≤ flows.now.n }
    requires few { flows.now.n ≤ 3 }
    requires divisor { divisor ≤ 3_000_005 }
    ensures value { result
        ≡ discounted_sum (series.payment_at flows.now) 2_000_000 divisor flows.now.n }
    ensures small { result ≤ 2 ^ 91 }
{
    let divisor = divisor as u128;
    let first = payment_at(flows, 0) as u128;
    let second = payment_at(flows, 1) as u128;
    let two = first * divisor + second * 2_000_000;
    if flows.n() == 2 {
        two
    } else {
        let third = payment_at(flows, 2) as u128;
        two * divisor + third * 4_000_000_000_000
    }
}

fn small_power(base: u64, exponent: u32) -> u128
    requires exponent { (1 ≤ exponent) × (exponent ≤ 3) }
    requires base { base ≤ 3_000_005 }
    ensures value { result ≡ base ^ exponent }
    ensures small { result ≤ 2 ^ 66 }
{
    let base = base as u128;
    match exponent {
        1 => base,
        2 => base * base,
        _ => base * base * base,
    }
}
