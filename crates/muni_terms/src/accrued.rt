//! Interest and its days.

ghost use Rattle.std.specs.Prelude.{◌≡◌, ◌*◌, ◌≤◌, ◌≤ℤ◌, Some, pos};
ghost use Rattle.muni_rule.specs.Accrued as rule;
ghost use Rattle.muni_rule.specs.Civil.{order_of};
ghost use Rattle.muni_rule.specs.DayCount as count;
ghost use Rattle.muni_days.specs.Day.{civil};

use crate::quasi_dates::days_into_period;
use muni_days::{Basis, Day, days_by};
use muni_dec::Coupon;

/// The days by a basis from one day to another that is not earlier.
pub fn days_to(basis: Basis, first: Day, last: Day) -> u32
    requires { order_of (civil first) ≤ order_of (civil last) }
    ensures { pos result ≡ count.days_by basis (civil first) (civil last) }
{
    days_by(basis, first, last) as u32
}

/// The days for which a coupon has accrued at a settlement.
pub fn coupon_accrued_days(dated: Day, first: Day, settlement: Day) -> u32
    requires day { (civil first).day ≤ 28 }
    requires year { 1901 ≤ (civil settlement).year }
    requires settled { order_of (civil dated) ≤ order_of (civil settlement) }
    requires start { count.days360 (civil dated) (civil first) ≤ℤ pos 360 }
    ensures days { rule.coupon_accrued_days (civil dated) (civil first) (civil settlement)
        ≡ Some (pos result) }
    ensures range { result ≤ 360 }
{
    if settlement < first {
        days_to(Basis::Thirty360, dated, settlement)
    } else {
        days_into_period(first, settlement)
    }
}

fn coupon_units(coupon: Coupon) -> u64
    ensures value { result ≡ coupon }
    ensures range { result ≤ 300_000_000 }
{
    coupon.units()
}

/// The interest for up to 720 days, in 1/(B * 10^9) dollars per 100 of par, where B is the days of a
/// year.
#[tactic(auto, using(muni_rule::proofs::PaymentLemmas::interest_at_most))]
pub fn interest(coupon: Coupon, days: u32) -> u64
    requires { days ≤ 720 }
    ensures value { result ≡ rule.interest coupon (pos days) }
    ensures range { result ≤ 30_000_000_000 * days }
{
    100 * coupon_units(coupon) * u64::from(days)
}

/// The interest of half a year, in 1/(360 * 10^9) dollars per 100 of par.
pub fn half_year_interest(coupon: Coupon) -> u64
    ensures value { result ≡ rule.half_year_interest coupon }
    ensures range { result ≤ 5_400_000_000_000 }
{
    18_000 * coupon_units(coupon)
}
