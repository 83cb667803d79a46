//! Decimals with a fixed number of places, as whole numbers of their last place.

ghost use Rattle.std.specs.Prelude.{◌≡◌, ◌+◌, ◌^◌, ◌<◌, ◌≤◌, ◌++◌, length, IfErr};
ghost use Rattle.arrayvec.specs.ArrayVec.{array_vec_len};
ghost use Rattle.muni_dec.specs.Decimal.{reading_at, reading, behind_sign, signed_reading, place_of, digits_reading, decimal_text, sign_text, signed_text};
ghost use Rattle.muni_dec.specs.Capped.{capped, capped_signed};

use crate::DecFault;
use crate::digits::{LIMIT, push_digits, push_last_digits, read_digits};
use crate::text::find;
use arrayvec::ArrayVec;

fn power_of_ten(places: usize) -> u64
    requires { places ≤ 7 }
    ensures value { result ≡ 10 ^ places }
    ensures range { (1 ≤ result) × (result ≤ 10_000_000) }
{
    match places {
        0 => 1,
        1 => 10,
        2 => 100,
        3 => 1_000,
        4 => 10_000,
        5 => 100_000,
        6 => 1_000_000,
        _ => 10_000_000,
    }
}

fn read_without_point(text: &[u8], places: usize) -> Result<u64, DecFault>
    requires { places ≤ 7 }
    ensures exact { result ≡ capped LIMIT (reading_at places text.now None) }
    ensures inside { IfErr result (λ fault. place_of fault ≤ length text.now) }
{
    match read_digits(text) {
        Ok(whole) => Ok((whole * power_of_ten(places)).min(LIMIT)),
        Err(at) => Err(DecFault::NotADigit { at }),
    }
}

fn read_with_point(text: &[u8], point: usize, places: usize) -> Result<u64, DecFault>
    requires places { places ≤ 7 }
    requires point { point < length text.now }
    ensures exact { result ≡ capped LIMIT (reading_at places text.now (Some point)) }
    ensures inside { IfErr result (λ fault. place_of fault ≤ length text.now) }
{
    let whole = match read_digits(&text[..point]) {
        Ok(whole) => whole,
        Err(at) => return Err(DecFault::NotADigit { at }),
    };
    let start = point + 1;
    let decimals = &text[start..];
    match read_digits(decimals) {
        Ok(fraction) if decimals.len() <= places => {
            let unit = power_of_ten(places - decimals.len());
            Ok((whole * power_of_ten(places) + fraction * unit).min(LIMIT))
        }
        Err(at) if at <= places => Err(DecFault::NotADigit { at: start + at }),
        _ => Err(DecFault::TooManyDecimals { at: start + places }),
    }
}

/// What a text of digits alone says, or the digits' [`LIMIT`] if that is greater.
pub fn read_whole(text: &[u8]) -> Result<u64, DecFault>
    ensures { result ≡ capped LIMIT (digits_reading text.now) }
{
    if text.is_empty() {
        return Err(DecFault::Empty);
    }
    read_without_point(text, 0)
}

/// What a decimal without a sign says in units of the last place, or the digits' [`LIMIT`] if that
/// is greater.
#[tactic(auto, unfolding(crate::specs::Decimal::reading))]
pub fn read_decimal(text: &[u8], places: usize) -> Result<u64, DecFault>
    requires { places ≤ 7 }
    ensures exact { result ≡ capped LIMIT (reading places text.now) }
    ensures inside { IfErr result (λ fault. place_of fault ≤ length text.now) }
{
    if text.is_empty() {
        return Err(DecFault::Empty);
    }
    match find(text, b'.') {
        None => read_without_point(text, places),
        Some(point) => read_with_point(text, point, places),
    }
}

fn read_behind_sign(text: &[u8], places: usize) -> Result<i64, DecFault>
    requires { places ≤ 7 }
    ensures { result ≡ capped_signed LIMIT (behind_sign (reading places text.now)) }
{
    match read_decimal(text, places) {
        Ok(units) => Ok(-(units as i64)),
        Err(fault) => Err(one_later(fault)),
    }
}

fn one_later(fault: DecFault) -> DecFault
    requires { place_of fault + 1 < 2 ^ 64 }
    ensures { Err result ≡ behind_sign (Err fault) }
{
    match fault {
        DecFault::Empty => DecFault::NotADigit { at: 1 },
        DecFault::NotADigit { at } => DecFault::NotADigit { at: at + 1 },
        DecFault::TooManyDecimals { at } => DecFault::TooManyDecimals { at: at + 1 },
        DecFault::OutOfRange => DecFault::OutOfRange,
    }
}

/// The same of a text that may begin with a minus sign.
#[tactic(auto, unfolding(crate::specs::Decimal::signed_reading))]
pub fn read_signed(text: &[u8], places: usize) -> Result<i64, DecFault>
    requires { places ≤ 7 }
    ensures { result ≡ capped_signed LIMIT (signed_reading places text.now) }
{
    match text.split_first() {
        Some((b'-', magnitude)) => read_behind_sign(magnitude, places),
        _ => Ok(read_decimal(text, places)? as i64),
    }
}

/// Appends a number of units as a decimal with all its places.
pub fn push_decimal(text: &mut ArrayVec<u8, 32>, units: u64, places: usize)
    requires places { (1 ≤ places) × (places ≤ 7) }
    requires room { array_vec_len text.old ≤ 1 }
    ensures items { text.new.items ≡ text.old.items ++ decimal_text places units }
    ensures len { array_vec_len text.new ≤ 29 }
{
    push_digits(text, units / power_of_ten(places));
    text.push(b'.');
    push_last_digits(text, units, places);
}

/// The same of a number on either side of zero.
pub fn push_signed(text: &mut ArrayVec<u8, 32>, units: i64, places: usize)
    requires places { (1 ≤ places) × (places ≤ 7) }
    requires room { array_vec_len text.old ≤ 0 }
    ensures items { text.new.items ≡ text.old.items ++ signed_text places units }
    ensures len { array_vec_len text.new ≤ 29 }
{
    push_sign(text, units);
    push_decimal(text, units.unsigned_abs(), places);
}

fn push_sign(text: &mut ArrayVec<u8, 32>, units: i64)
    requires { array_vec_len text.old ≤ 0 }
    ensures items { text.new.items ≡ text.old.items ++ sign_text units }
    ensures len { array_vec_len text.new ≤ 1 }
{
    if units < 0 {
        text.push(b'-');
    }
}
