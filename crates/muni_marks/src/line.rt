//! The lines of marks, and their total.

ghost use Rattle.std.specs.Prelude.{◌≡◌, ◌+◌, ◌≤◌, ◌++◌, pos, [], ◌∷◌, decimal};
ghost use Rattle.arrayvec.specs.ArrayVec.{array_vec_len};
ghost use Rattle.muni_import.specs.Line.{behind_commas};
ghost use Rattle.muni_dec.specs.Decimal.{decimal_text};
ghost use Rattle.muni_marks.specs.Line as spec;

use crate::pricing::MarkSaid;
use arrayvec::ArrayVec;
use itoa::Buffer;
use muni_days::Day;
use muni_dec::text::push;
use muni_dec::{Cents, Price3};
use muni_import::line::{
    push_bad, push_day, push_digits, push_field, push_money, push_price, push_refused,
};

/// Replaces the text by the line of a mark, with its line end. Places are counted from 1.
///
/// `place,marked,CUSIP,PRICE,REDEMPTION,TOTAL`, `place,refused,NUMBER,NAME`, `place,bad,1`, or
/// `place,bad,2,COLUMN`. The price has three decimals, and the total is in dollars.
pub fn mark_line(place: u32, said: &MarkSaid, text: &mut ArrayVec<u8, 256>)
    requires { spec.HasName said.now }
    // promise 6: the line of a row, byte for byte
    ensures items { text.new.items ≡ spec.mark_line place said.now }
    ensures len { array_vec_len text.new ≤ 150 }
{
    text.clear();
    push_digits(text, place);
    push_mark(text, said);
    text.push(b'\n');
}

#[tactic(auto, unfolding(crate::specs::Line::mark_fields))]
fn push_mark(text: &mut ArrayVec<u8, 256>, said: &MarkSaid)
    requires name { spec.HasName said.now }
    requires room { array_vec_len text.old ≤ 10 }
    ensures items { text.new.items ≡ text.old.items ++ spec.mark_fields said.now }
    ensures len { array_vec_len text.new ≤ array_vec_len text.old + 130 }
{
    match said {
        MarkSaid::Marked {
            cusip,
            price,
            redemption,
            total,
        } => {
            push_field(text, b"marked");
            push_field(text, cusip);
            push_worth(text, price, redemption, total);
        }
        MarkSaid::Refused { number } => push_refused(text, *number),
        MarkSaid::Bad(fault) => push_bad(text, *fault),
    }
}

#[tactic(auto, unfolding(crate::specs::Line::worth_fields))]
fn push_worth(text: &mut ArrayVec<u8, 256>, price: &Price3, redemption: &Day, total: &Cents)
    requires { array_vec_len text.old ≤ 50 }
    ensures items { text.new.items
        ≡ text.old.items ++ spec.worth_fields price.now redemption.now total.now }
    ensures len { array_vec_len text.new ≤ array_vec_len text.old + 75 }
{
    push_price(text, price);
    push_day(text, *redemption);
    push_money(text, total);
}

/// How many rows are marked, and the sum of what they are worth, in cents.
pub fn total(said: &[MarkSaid]) -> (u64, i128)
    // promise 6: how many rows are marked
    ensures count { result.0 ≡ spec.marked_count said.now }
    // promise 6: the sum of their worth
    ensures sum { result.1 ≡ pos (spec.marked_sum said.now) }
{
    let mut count = 0u64;
    let mut sum = 0u128;
    for mark in said {
        if let MarkSaid::Marked { total, .. } = mark {
            count += 1;
            sum += u128::from(total.units());
        }
    }
    (count, sum as i128)
}

/// Replaces the text by the line of the total: how many rows are marked, and what they are worth.
#[tactic(auto, unfolding(crate::specs::Line::total_line))]
pub(crate) fn total_line(count: u64, sum: u128, text: &mut ArrayVec<u8, 256>)
    ensures items { text.new.items ≡ spec.total_line count sum }
    ensures len { array_vec_len text.new ≤ 120 }
{
    text.clear();
    push(text, b"TOTAL");
    push_count(text, count);
    push_sum(text, sum);
    text.push(b'\n');
}

/// Appends a field with a count.
pub fn push_count(text: &mut ArrayVec<u8, 256>, count: u64)
    requires { array_vec_len text.old ≤ 100 }
    ensures items { text.new.items ≡ text.old.items ++ behind_commas (decimal count ∷ []) }
    ensures len { array_vec_len text.new ≤ array_vec_len text.old + 21 }
{
    let mut buffer = Buffer::new();
    push_field(text, buffer.format(count).as_bytes());
}

/// Appends a field with a sum of cents, in dollars with both decimals.
pub fn push_sum(text: &mut ArrayVec<u8, 256>, sum: u128)
    requires { array_vec_len text.old ≤ 40 }
    ensures items { text.new.items ≡ text.old.items ++ behind_commas (decimal_text 2 sum ∷ []) }
    ensures len { array_vec_len text.new ≤ array_vec_len text.old + 50 }
{
    text.push(b',');
    let mut buffer = Buffer::new();
    push(text, buffer.format(sum / 100).as_bytes());
    text.push(b'.');
    text.push(b'0' + (sum / 10 % 10) as u8);
    text.push(b'0' + (sum % 10) as u8);
}
