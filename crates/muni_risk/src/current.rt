//! The current yield.

ghost use Rattle.std.specs.Prelude.{◌≡◌};
ghost use Rattle.muni_rule.specs.Sensitivities as rule;

use muni_dec::{Coupon, Price3};

/// The coupon divided by the price, in units of 0.001 percent. None at a price of 0.
pub fn current_yield(coupon: Coupon, price: Price3) -> Option<u64>
    // promise 1: the coupon divided by the price, and none at a price of 0
    ensures { result ≡ rule.current_yield coupon price }
{
    if price.units() == 0 {
        return None;
    }
    Some((coupon.units() * 100 / price.units() + 5) / 10)
}
