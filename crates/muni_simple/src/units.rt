//! Amounts and growths by a basis.

ghost use Rattle.std.specs.Prelude.{◌≡◌, ◌*◌, ◌≤◌, pos};
ghost use Rattle.muni_rule.specs.Accuracy.{price_amount};
ghost use Rattle.muni_rule.specs.DayCount.{year_of};

use muni_dec::Price;
use muni_rule::Basis;

/// One, as growths are counted: in 1/(B * 10^6), where B is the days of a year.
pub(crate) fn no_growth(basis: Basis) -> u64
    ensures value { result ≡ year_of basis * 1_000_000 }
    ensures range { (360_000_000 ≤ result) × (result ≤ 365_000_000) }
{
    basis.year() as u64 * 1_000_000
}

/// A price as an amount, in 1/(B * 10^9) dollars per 100 of par.
pub(crate) fn amount_of(price: Price, basis: Basis) -> u64
    ensures value { pos result ≡ price_amount basis price }
    ensures range { (360_000 * price ≤ result) × (result ≤ 365_000 * price) }
{
    basis.year() as u64 * 1000 * price.units()
}
