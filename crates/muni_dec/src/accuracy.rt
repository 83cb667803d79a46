//! The accuracy of printed figures, which is this desk's own choice.

ghost use Rattle.std.specs.Prelude.{◌≡◌, ◌⊎◌, ◌*◌, ◌/◌, ◌≤◌, ◌≤ℤ◌, pos, unsigned_abs};
ghost use Rattle.muni_rule.specs.Accuracy as rule;
ghost use Rattle.muni_dec.specs.Ranges.{IsYield3};

use crate::{Cents, Coupon, Fee, Par, Price, Price3, Yield, Yield3};

/// A given price as it is shown, truncated to thousandths of a dollar.
pub fn trunc3(price: Price) -> Price3
    // promise 1: thousandths are the millionths divided by 1,000
    ensures value { result ≡ price / 1000 }
    // promise 1: a shown price is the truncated one
    ensures truncated { rule.TruncatesTo (rule.Reaches (pos (360_000 * price))) result }
{
    Price3::new(price.units() / 1000)
}

/// A given yield as it is shown, rounded to thousandths of a percent.
///
/// Yields up to -90.0005 percent and from 999.9995 percent on have no printed form.
pub fn round_yield(y: Yield) -> Yield3
    requires { IsYield3 (rule.rounded_yield y) }
    // promise 2: a shown yield is the rounded one
    ensures { result ≡ rule.rounded_yield y }
{
    let magnitude = (y.units().unsigned_abs() + 5) / 10;
    let rounded = if y.units() < 0 {
        -(magnitude as i64)
    } else {
        magnitude as i64
    };
    Yield3::new(rounded)
}

/// The accrued interest of a trade for 0 to 720 days, of a year of 360 or 365: truncated to thousandths
/// of a dollar and rounded to cents.
pub fn accrued_cents(coupon: Coupon, par: Par, days: i32, year: i32) -> Cents
    requires days { (pos 0 ≤ℤ days) × (days ≤ℤ pos 720) }
    requires year { (year ≡ pos 360) ⊎ (year ≡ pos 365) }
    // promise 1: accrued interest in cents, by the rule
    ensures value { result
        ≡ rule.accrued_cents coupon par (unsigned_abs days) (unsigned_abs year) }
    ensures range { result ≤ 60_000_000_000 }
{
    let thousandths = accrued_thousandths(coupon.units(), par.units(), days as u64, year as u64);
    Cents::new((thousandths + 5) / 10)
}

fn accrued_thousandths(coupon: u64, par: u64, days: u64, year: u64) -> u64
    requires coupon { coupon ≤ 300_000_000 }
    requires par { par ≤ 1_000_000_000 }
    requires days { days ≤ 720 }
    requires year { (360 ≤ year) × (year ≤ 365) }
    ensures value { result ≡ rule.accrued_thousandths coupon par days year }
    ensures range { result ≤ 600_000_000_000 }
{
    let dividend = u128::from(coupon) * u128::from(par) * u128::from(days);
    (dividend / (u128::from(year) * 1_000_000)) as u64
}

/// The principal of a trade, rounded to cents. The price is at most 100,000 dollars.
pub fn principal_cents(par: Par, price: Price3) -> Cents
    requires { price ≤ 100_000_000 }
    // promise 1: the principal of a trade in cents, by the rule
    ensures value { result ≡ rule.principal_cents par price }
    ensures range { result ≤ 100_000_000_000_000 }
{
    Cents::new((par.units() * price.units() + 500) / 1000)
}

/// The commission of a trade, rounded to cents.
pub fn commission_cents(par: Par, fee: Fee) -> Cents
    // promise 1: the commission of a trade in cents, by the rule
    ensures value { result ≡ rule.commission_cents par fee }
    ensures range { result ≤ 10_000_000_000 }
{
    Cents::new((par.units() * fee.units() + 500) / 1000)
}
