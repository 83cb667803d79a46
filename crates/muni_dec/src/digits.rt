//! Digits, as numbers, decimals and dates read and write them.

ghost use Rattle.std.specs.Prelude.{◌≡◌, ◌+◌, ◌^◌, ◌≤◌, ◌++◌, min, decimal, true, false, length, IfSome, MatchResult};
ghost use Rattle.arrayvec.specs.ArrayVec.{array_vec_len};
ghost use Rattle.muni_dec.specs.Digits.{are_digits, digits_end, number, number_reading, last_digits};

use arrayvec::ArrayVec;
use itoa::Buffer;

/// The greatest number of a decimal that is read exactly. It lies past every range of a decimal.
pub(crate) const LIMIT: u64 = 100_000_000_000;

/// The number that a text writes in a limited number of digits, if it lies in a range.
pub fn read_number(text: &[u8], most_digits: usize, least: u64, greatest: u64) -> Option<u64>
    // promise 4: a whole number is read exactly by its format and range
    ensures value { result ≡ number_reading most_digits least greatest text.now }
    ensures range { IfSome result (λ number. (least ≤ number) × (number ≤ greatest)) }
{
    if text.len() > most_digits {
        return None;
    }
    match read_up_to(text, 1 << 64) {
        Ok(number) if u128::from(least) <= number && number <= u128::from(greatest) => {
            Some(number as u64)
        }
        _ => None,
    }
}

/// The number that a run of digits writes, or [`LIMIT`] if it is greater.
///
/// Another text is refused with the place of the first byte that is no digit, or with its length.
pub(crate) fn read_digits(text: &[u8]) -> Result<u64, usize>
    ensures { MatchResult result
        (λ n. (are_digits text.now ≡ true) × (n ≡ min LIMIT (number text.now))
        × (digits_end text.now ≡ length text.now))
        (λ at. (are_digits text.now ≡ false) × (at ≡ digits_end text.now)
        × (at ≤ length text.now)) }
{
    match read_up_to(text, u128::from(LIMIT)) {
        Ok(number) => Ok(number as u64),
        Err(at) => Err(at),
    }
}

// The number that a run of digits writes, or a limit if it is greater.
fn read_up_to(text: &[u8], limit: u128) -> Result<u128, usize>
    requires { limit ≤ 2 ^ 64 }
    ensures { MatchResult result
        (λ n. (are_digits text.now ≡ true) × (n ≡ min limit (number text.now))
        × (digits_end text.now ≡ length text.now))
        (λ at. (are_digits text.now ≡ false) × (at ≡ digits_end text.now)
        × (at ≤ length text.now)) }
{
    if text.is_empty() {
        return Err(0);
    }
    let mut value = 0;
    for (i, b) in text.iter().enumerate() {
        if !b.is_ascii_digit() {
            return Err(i);
        }
        value = (value * 10 + u128::from(*b - b'0')).min(limit);
    }
    Ok(value)
}

/// Appends a number in decimal digits.
pub(crate) fn push_digits(text: &mut ArrayVec<u8, 32>, number: u64)
    requires { array_vec_len text.old ≤ 12 }
    ensures items { text.new.items ≡ text.old.items ++ decimal number }
    ensures len { array_vec_len text.new ≤ array_vec_len text.old + 20 }
{
    let mut buffer = Buffer::new();
    let _ = text.try_extend_from_slice(buffer.format(number).as_bytes());
}

/// Appends the last digits of a number, with the zeros before it.
pub fn push_last_digits(text: &mut ArrayVec<u8, 32>, number: u64, count: usize)
    requires { array_vec_len text.old + count ≤ 32 }
    ensures items { text.new.items ≡ text.old.items ++ last_digits count number }
    ensures len { array_vec_len text.new ≡ array_vec_len text.old + count }
{
    if count > 0 {
        push_last_digits(text, number / 10, count - 1);
        text.push(b'0' + (number % 10) as u8);
    }
}
