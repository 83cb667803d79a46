//! The fields of a line, each after a comma.

ghost use Rattle.std.specs.Prelude.{◌≡◌, ◌+◌, ◌≤◌, ◌++◌, [], ◌∷◌, length, decimal};
ghost use Rattle.arrayvec.specs.ArrayVec.{array_vec_len};
ghost use Rattle.muni_days.specs.Day.{civil, day_text};
ghost use Rattle.muni_dec.specs.Values.{money_text, printed_price_text};
ghost use Rattle.muni_import.specs.Line as spec;

use crate::RowFault;
use arrayvec::ArrayVec;
use itoa::Buffer;
use muni_days::Day;
use muni_dec::text::push;
use muni_dec::{Cents, Price3};
use muni_msg::refusal_name;

/// Appends a field.
pub fn push_field(text: &mut ArrayVec<u8, 256>, field: &[u8])
    requires { array_vec_len text.old + length field.now ≤ 250 }
    ensures items { text.new.items ≡ text.old.items ++ spec.behind_commas (field.now ∷ []) }
    ensures len { array_vec_len text.new ≡ array_vec_len text.old + length field.now + 1 }
{
    text.push(b',');
    push(text, field);
}

/// Appends a field with a number.
pub fn push_number(text: &mut ArrayVec<u8, 256>, number: u32)
    requires { array_vec_len text.old ≤ 200 }
    ensures items { text.new.items ≡ text.old.items ++ spec.behind_commas (decimal number ∷ []) }
    ensures len { array_vec_len text.new ≤ array_vec_len text.old + 11 }
{
    text.push(b',');
    push_digits(text, number);
}

/// Appends a number without a comma.
pub fn push_digits(text: &mut ArrayVec<u8, 256>, number: u32)
    requires { array_vec_len text.old ≤ 201 }
    ensures items { text.new.items ≡ text.old.items ++ decimal number }
    ensures len { array_vec_len text.new ≤ array_vec_len text.old + 10 }
{
    let mut buffer = Buffer::new();
    push(text, buffer.format(number).as_bytes());
}

/// Appends a field with a printed price, with its three decimals.
pub fn push_price(text: &mut ArrayVec<u8, 256>, price: &Price3)
    requires { array_vec_len text.old ≤ 200 }
    ensures items { text.new.items
        ≡ text.old.items ++ spec.behind_commas (printed_price_text price.now ∷ []) }
    ensures len { array_vec_len text.new ≤ array_vec_len text.old + 30 }
{
    let mut value = ArrayVec::new();
    price.print_into(&mut value);
    push_field(text, &value);
}

/// Appends a field with an amount of money, with both its decimals.
pub fn push_money(text: &mut ArrayVec<u8, 256>, money: &Cents)
    requires { array_vec_len text.old ≤ 200 }
    ensures items { text.new.items
        ≡ text.old.items ++ spec.behind_commas (money_text money.now ∷ []) }
    ensures len { array_vec_len text.new ≤ array_vec_len text.old + 30 }
{
    let mut value = ArrayVec::new();
    money.print_into(&mut value);
    push_field(text, &value);
}

/// Appends a field with a day.
pub fn push_day(text: &mut ArrayVec<u8, 256>, date: Day)
    requires { array_vec_len text.old ≤ 200 }
    ensures items { text.new.items
        ≡ text.old.items ++ spec.behind_commas (day_text (civil date) ∷ []) }
    ensures len { array_vec_len text.new ≡ array_vec_len text.old + 11 }
{
    let mut value = ArrayVec::new();
    date.print_into(&mut value);
    push_field(text, &value);
}

/// Appends the fields of a refusal with this number.
#[tactic(auto, unfolding(crate::specs::Line::refused_fields))]
pub fn push_refused(text: &mut ArrayVec<u8, 256>, number: u32)
    requires name { (1 ≤ number) × (number ≤ 15) }
    requires room { array_vec_len text.old ≤ 10 }
    ensures items { text.new.items ≡ text.old.items ++ spec.refused_fields number }
    ensures len { array_vec_len text.new ≤ array_vec_len text.old + 35 }
{
    push_field(text, b"refused");
    push_number(text, number);
    push_field(text, refusal_name(number).as_bytes());
}

/// Appends the fields of a row that does not read.
#[tactic(auto, unfolding(crate::specs::Line::bad_fields))]
pub fn push_bad(text: &mut ArrayVec<u8, 256>, fault: RowFault)
    requires { array_vec_len text.old ≤ 10 }
    ensures items { text.new.items ≡ text.old.items ++ spec.bad_fields fault }
    ensures len { array_vec_len text.new ≤ array_vec_len text.old + 26 }
{
    push_field(text, b"bad");
    push_number(text, fault.number());
    if let RowFault::BadField { column } = fault {
        push_number(text, column);
    }
}
