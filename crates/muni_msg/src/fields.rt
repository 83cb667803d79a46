//! The texts of fields, which words, rows and messages share.

ghost use Rattle.std.specs.Prelude.{◌≡◌};
ghost use Rattle.std.specs.Option.{option_map};
ghost use Rattle.muni_msg.specs.Fields as spec;

use crate::{Given, Side};
use muni_days::{Basis, Day};
use muni_dec::digits::read_number;
use muni_dec::text::find;
use muni_dec::{Fee, Price, Yield};
use muni_terms::{Call, CallTerm, Kind};

/// The kind of security that a text names: `periodic`, `zero`, `at-redemption` or `discount`.
///
/// A first interest date is given exactly if the kind is `periodic`.
pub fn read_kind(text: &[u8], first: Option<&[u8]>) -> Option<Kind>
    // promise 4: a kind is read exactly by its format
    ensures { result ≡ spec.kind_reading text.now (option_map (λ f. f.now) first.entry) }
{
    let Some(first) = first else {
        return read_plain_kind(text);
    };
    if text != b"periodic".as_slice() {
        return None;
    }
    let first = Day::read(first).ok()?;
    Some(Kind::Periodic { first })
}

fn read_plain_kind(text: &[u8]) -> Option<Kind>
    ensures { result ≡ spec.plain_kind text.now }
{
    if text == b"zero".as_slice() {
        return Some(Kind::Zero);
    }
    if text == b"at-redemption".as_slice() {
        return Some(Kind::AtRedemption);
    }
    if text == b"discount".as_slice() {
        return Some(Kind::Discount);
    }
    None
}

/// The call that a text names: its date, a colon, its price and its mark, as `2027-01-01:102.5+`.
pub fn read_call(text: &[u8]) -> Option<Call>
    // promise 4: a call is read exactly by its format
    ensures { result ≡ spec.call_reading text.now }
{
    let colon = find(text, b':')?;
    let date = Day::read(&text[..colon]).ok()?;
    let (price, term) = read_call_price(&text[colon + 1..])?;
    Some(Call { date, price, term })
}

/// The price that a text names, and on which days a call at it stands: on its own day alone, or with the mark `+`
/// on or after it, or with `!` for certain.
pub fn read_call_price(text: &[u8]) -> Option<(Price, CallTerm)>
    ensures { result ≡ spec.call_price_reading text.now }
{
    let (price, term) = split_mark(text);
    Some((Price::read(price).ok()?, term))
}

// What is before the mark, and what the mark says.
fn split_mark(text: &[u8]) -> (&[u8], CallTerm)
    ensures { (result.0.now, result.1) ≡ spec.split_mark text.now }
{
    let Some(mark) = text.last() else {
        return (text, CallTerm::OnDay);
    };
    let price = &text[..text.len() - 1];
    if *mark == b'+' {
        (price, CallTerm::OnOrAfter)
    } else if *mark == b'!' {
        (price, CallTerm::Called)
    } else {
        (text, CallTerm::OnDay)
    }
}

/// The day count basis that a text names: `30/360` or `actual/365`.
pub fn read_basis(text: &[u8]) -> Option<Basis>
    // promise 4: a basis is read exactly by its format
    ensures { result ≡ spec.basis_reading text.now }
{
    if text == b"30/360".as_slice() {
        return Some(Basis::Thirty360);
    }
    if text == b"actual/365".as_slice() {
        return Some(Basis::Actual365);
    }
    None
}

/// The day count basis that a text names. An empty text is `30/360`.
pub fn read_basis_field(text: &[u8]) -> Option<Basis>
    ensures { result ≡ spec.basis_field text.now }
{
    if text.is_empty() {
        return Some(Basis::Thirty360);
    }
    read_basis(text)
}

/// The side that a text names: `buy` or `sell`.
pub fn read_side(text: &[u8]) -> Option<Side>
    // promise 4: a side is read exactly by its format
    ensures { result ≡ spec.side_reading text.now }
{
    if text == b"buy".as_slice() {
        return Some(Side::Buy);
    }
    if text == b"sell".as_slice() {
        return Some(Side::Sell);
    }
    None
}

/// What is given by a basis, which is `yield`, `price` or `rate`, and by its value: a price in
/// dollars per 100 of par, or a yield or a discount rate in percent.
pub fn read_given(basis: &[u8], value: &[u8]) -> Option<Given>
    // promise 4: what is given, a yield, a price or a rate, is read exactly by its format
    ensures { result ≡ spec.given_reading basis.now value.now }
{
    if basis == b"yield".as_slice() {
        return Some(Given::AtYield(Yield::read(value).ok()?));
    }
    if basis == b"price".as_slice() {
        return Some(Given::AtPrice(Price::read(value).ok()?));
    }
    if basis == b"rate".as_slice() {
        return Some(Given::AtRate(Yield::read(value).ok()?));
    }
    None
}

/// The commission that a text names, in dollars per 100 of par. An empty text is 0.
pub fn read_fee_field(text: &[u8]) -> Option<Fee>
    ensures { result ≡ spec.fee_field text.now }
{
    if text.is_empty() {
        return Some(Fee::new(0));
    }
    Fee::read(text).ok()
}

/// The number of a version, in one to nine digits.
pub fn read_version_number(text: &[u8]) -> Option<u32>
    ensures { result ≡ spec.version_number text.now }
{
    let number = read_number(text, 9, 0, 999_999_999)?;
    Some(number as u32)
}
