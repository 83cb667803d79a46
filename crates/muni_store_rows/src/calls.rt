//! The calls of an issue in one column.

ghost use Rattle.std.specs.Prelude.{◌≡◌, ◌≤◌, ◌+◌, ◌++◌, drop, length};
ghost use Rattle.std.specs.Option.{option_map};
ghost use Rattle.std.specs.Str.{bytes_eq};
ghost use Rattle.arrayvec.specs.ArrayVec.{array_vec_len};
ghost use Rattle.muni_dec.specs.Decimal.{decimal_text};
ghost use Rattle.muni_days.specs.Day.{civil, day_text};
ghost use Rattle.muni_store_rows.specs.Calls as spec;

use arrayvec::ArrayVec;
use muni_days::Day;
use muni_dec::Price;
use muni_dec::text::push;
use muni_msg::read_calls;
use muni_terms::{Call, CallTerm};

/// Room for the text of 40 calls, with a blank before each.
pub(crate) type CallsText = ArrayVec<u8, 1_680>;

/// The calls as `2027-01-01:102.000000 2028-01-01:100.000000+`, with a blank before each.
pub(crate) fn print_calls(calls: &[Call]) -> CallsText
    requires { length calls.now ≤ 40 }
    ensures { result.items ≡ spec.calls_behind_blanks calls.now }
{
    let mut text = ArrayVec::new();
    for call in calls {
        push_call(&mut text, call);
    }
    text
}

fn push_call(text: &mut CallsText, call: &Call)
    requires { array_vec_len text.old + 42 ≤ 1_680 }
    ensures items { text.new.items ≡ text.old.items ++ spec.call_behind_blank call.now }
    ensures len { array_vec_len text.new ≤ array_vec_len text.old + 42 }
{
    push(text, &print_call(call));
}

/// A day as `2024-02-29`.
pub(crate) fn print_day(date: Day) -> ArrayVec<u8, 32>
    ensures items { result.items ≡ day_text (civil date) }
    ensures len { array_vec_len result ≡ 10 }
{
    let mut text = ArrayVec::new();
    date.print_into(&mut text);
    text
}

fn print_price(price: Price) -> ArrayVec<u8, 32>
    ensures items { result.items ≡ decimal_text 6 price }
    ensures len { array_vec_len result ≤ 29 }
{
    let mut text = ArrayVec::new();
    price.print_into(&mut text);
    text
}

fn print_call(call: &Call) -> ArrayVec<u8, 64>
    ensures items { result.items ≡ spec.call_behind_blank call.now }
    ensures len { array_vec_len result ≤ 42 }
{
    let mut text = ArrayVec::new();
    text.push(b' ');
    push(&mut text, &print_day(call.date));
    text.push(b':');
    push(&mut text, &print_price(call.price));
    push_mark(&mut text, call.term);
    text
}

fn push_mark(text: &mut ArrayVec<u8, 64>, term: CallTerm)
    requires { array_vec_len text.old + 1 ≤ 64 }
    ensures items { text.new.items ≡ text.old.items ++ spec.mark_text term }
    ensures len { array_vec_len text.new ≤ array_vec_len text.old + 1 }
{
    match term {
        CallTerm::OnDay => (),
        CallTerm::OnOrAfter => text.push(b'+'),
        CallTerm::Called => text.push(b'!'),
    }
}

/// The text without its first byte.
pub(crate) fn without_first(text: &[u8]) -> &[u8]
    ensures { result.now ≡ drop 1 text.now }
{
    if text.is_empty() {
        return text;
    }
    &text[1..]
}

/// The calls that are written so, if there are any.
pub(crate) fn written_calls(text: &[u8]) -> Option<ArrayVec<Call, 40>>
    ensures { option_map (λ calls. calls.items) result ≡ spec.calls_of text.now }
{
    let calls = read_calls(text)?;
    if !is_text_of(text, &calls) {
        return None;
    }
    Some(calls)
}

fn is_text_of(text: &[u8], calls: &ArrayVec<Call, 40>) -> bool
    ensures { result ≡ bytes_eq (spec.calls_text calls.now.items) text.now }
{
    let written = print_calls(calls.as_slice());
    without_first(&written) == text
}
