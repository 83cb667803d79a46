//! Numbers in columns, in the ranges of what they stand for.

ghost use Rattle.std.specs.Prelude.{◌≡◌, ◌≤◌, pos};
ghost use Rattle.muni_store_rows.specs.Codes as spec;

use muni_dec::{Amount, Cents, Coupon, Fee, Par, Price, Price3};

/// A number from 0 up.
pub(crate) fn natural(column: i64) -> Option<u64>
    ensures { result ≡ spec.natural column }
{
    u64::try_from(column).ok()
}

/// A number of 8 bits from 0 up.
#[tactic(auto, unfolding(crate::specs::Codes::code_in))]
pub(crate) fn read_code(column: i64) -> Option<u8>
    ensures { result ≡ spec.code_in column }
{
    u8::try_from(column).ok()
}

/// A number of 32 bits from 0 up.
#[tactic(auto, unfolding(crate::specs::Codes::count))]
pub(crate) fn read_count(column: i64) -> Option<u32>
    ensures { result ≡ spec.count column }
{
    u32::try_from(column).ok()
}

/// A number of 32 bits on either side of zero.
#[tactic(auto, unfolding(crate::specs::Codes::signed_count))]
pub(crate) fn read_signed(column: i64) -> Option<i32>
    ensures { result ≡ spec.signed_count column }
{
    i32::try_from(column).ok()
}

/// The units of a decimal.
pub(crate) fn units<const PLACES: usize, const LEAST: u64, const GREATEST: u64>(
    amount: &Amount<PLACES, LEAST, GREATEST>,
) -> i64
    requires { GREATEST ≤ 9_223_372_036_854_775_807 }
    ensures { result ≡ pos amount.now }
{
    amount.units() as i64
}

/// The dollars of a par.
pub(crate) fn dollars(par: Par) -> i64
    ensures { result ≡ pos par }
{
    par.units() as i64
}

#[tactic(auto, unfolding(crate::specs::Codes::price_of))]
pub(crate) fn read_price(units: i64) -> Option<Price>
    ensures { result ≡ spec.price_of units }
{
    Price::of(natural(units)?)
}

#[tactic(auto, unfolding(crate::specs::Codes::printed_price_of))]
pub(crate) fn read_printed_price(units: i64) -> Option<Price3>
    ensures { result ≡ spec.printed_price_of units }
{
    Price3::of(natural(units)?)
}

#[tactic(auto, unfolding(crate::specs::Codes::par_of))]
pub(crate) fn read_par(units: i64) -> Option<Par>
    ensures { result ≡ spec.par_of units }
{
    Par::of(natural(units)?)
}

#[tactic(auto, unfolding(crate::specs::Codes::fee_of))]
pub(crate) fn read_fee(units: i64) -> Option<Fee>
    ensures { result ≡ spec.fee_of units }
{
    Fee::of(natural(units)?)
}

#[tactic(auto, unfolding(crate::specs::Codes::money_of))]
pub(crate) fn read_money(units: i64) -> Option<Cents>
    ensures { result ≡ spec.money_of units }
{
    Cents::of(natural(units)?)
}

#[tactic(auto, unfolding(crate::specs::Codes::coupon_of))]
pub(crate) fn read_coupon(units: i64) -> Option<Coupon>
    ensures { result ≡ spec.coupon_of units }
{
    Coupon::of(natural(units)?)
}

/// Nine bytes.
#[tactic(auto, unfolding(crate::specs::Codes::cusip_of))]
pub(crate) fn read_nine(text: &[u8]) -> Option<[u8; 9]>
    ensures { result ≡ spec.cusip_of text.now }
{
    <[u8; 9]>::try_from(text).ok()
}
