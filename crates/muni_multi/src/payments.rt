//! The payments one by one.

ghost use Rattle.std.specs.Prelude.{◌≡◌, ◌+◌, ◌^◌, ◌<◌, ◌≤◌};
ghost use Rattle.muni_rule.specs.ManyPeriods.{sum_to};
ghost use Rattle.muni_rule.specs.PaymentLaws.{interest_at_place};
ghost use Rattle.muni_rule.specs.Payments as rule;

use muni_terms::Flows;

/// The payment at place k, counted from 0, with the redemption if it is the last.
pub fn payment_at(flows: &Flows, k: u32) -> u64
    requires { k < flows.now.n }
    ensures value { result ≡ rule.payment_at flows.now k }
    ensures bound { result ≤ 82_800_000_000_000 }
{
    let interest = interest_at(flows, k);
    if k == flows.n() - 1 {
        interest + flows.redemption()
    } else {
        interest
    }
}

fn interest_at(flows: &Flows, k: u32) -> u64
    ensures value { result
        ≡ interest_at_place flows.now.skip flows.now.first flows.now.regular k }
    ensures bound { result ≤ 10_800_000_000_000 }
{
    if k < flows.skip() {
        0
    } else if k == flows.skip() {
        flows.first()
    } else {
        flows.regular()
    }
}

/// What all payments are worth at a yield of zero.
pub fn total(flows: &Flows) -> u64
    ensures value { result ≡ sum_to (rule.payment_at flows.now) flows.now.n }
    ensures small { result < 2 ^ 50 }
{
    let later = u64::from(flows.n() - 1 - flows.skip());
    flows.first() + later * flows.regular() + flows.redemption()
}
