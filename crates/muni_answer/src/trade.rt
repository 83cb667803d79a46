//! The rules of a trade: on which basis it is done, its net price, and its total.

ghost use Rattle.std.specs.Prelude.{◌≡◌, ◌+◌, ◌≤◌, None};
ghost use Rattle.muni_answer.specs.GivenFor.{IsInRange};
ghost use Rattle.muni_answer.specs.Trade as spec;

use muni_dec::{Cents, Fee, Price};
use muni_msg::{Asked, Given, Range, Side};
use muni_sched::{Candidate, out_of_range};
use muni_terms::Kind;

/// Only a price is given without its commission, which a yield and a discount rate hold.
pub(crate) fn is_wrong_basis(kind: Kind, given: Given, fee: Fee) -> bool
    ensures { result ≡ spec.is_wrong_basis kind given fee }
{
    let is_discount = matches!(kind, Kind::Discount);
    match given {
        Given::AtYield(_) => is_discount || fee.units() > 0,
        Given::AtPrice(_) => false,
        Given::AtRate(_) => !is_discount || fee.units() > 0,
    }
}

/// The net price, in 10^-6 dollars per 100 of par: what a buyer pays with the commission, and what it
/// leaves to a seller.
pub fn net_price(price: Price, side: Side, fee: Fee) -> u64
    ensures { result ≡ spec.net_price side price fee }
{
    let commission = 1000 * fee.units();
    match side {
        Side::Buy => price.units() + commission,
        Side::Sell => price.units().saturating_sub(commission),
    }
}

/// The side on which what is given leaves its range.
pub(crate) fn side_left(asked: &Asked, list: &[Candidate]) -> Option<Range>
    ensures value { result ≡ spec.side_left asked.now.given asked.now.side asked.now.fee list.now }
    ensures in_range { result ≡ None
        → IsInRange asked.now.given asked.now.side asked.now.fee list.now }
{
    match asked.given {
        Given::AtYield(y) | Given::AtRate(y) => Some(Range::of(out_of_range(list, y)?)),
        Given::AtPrice(price) => price_side(price, net_price(price, asked.side, asked.fee)),
    }
}

fn price_side(price: Price, net: u64) -> Option<Range>
    ensures { result ≡ spec.price_side price net }
{
    if price.units() == 0 || net == 0 {
        return Some(Range::Below);
    }
    if net > 999_999_999 {
        return Some(Range::Above);
    }
    None
}

/// What a buyer pays and a seller receives in all, from principal and accrued interest together.
pub(crate) fn total(side: Side, gross: Cents, commission: Cents) -> Cents
    requires room { gross + commission ≤ 9_223_372_036_854_775_807 }
    requires covered { side ≡ Side.Sell → commission ≤ gross }
    ensures { result ≡ spec.total side gross commission }
{
    match side {
        Side::Buy => gross.plus(commission),
        Side::Sell => gross.minus(commission),
    }
}
