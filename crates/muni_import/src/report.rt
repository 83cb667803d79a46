//! The lines of a report on rows.

ghost use Rattle.std.specs.Prelude.{◌≡◌, ◌+◌, ◌≤◌, ◌++◌};
ghost use Rattle.arrayvec.specs.ArrayVec.{array_vec_len};
ghost use Rattle.muni_import.specs.Report as spec;

use crate::RowOutcome;
use crate::line::{
    push_bad, push_day, push_digits, push_field, push_money, push_number, push_price, push_refused,
};
use arrayvec::ArrayVec;
use muni_msg::{Figures, Key, Reply};

/// Replaces the text by the line of a report on what came of a row, with its line end. Places are
/// counted from 1.
///
/// `place,added,CUSIP`, `place,amended,CUSIP,NUMBER`,
/// `place,confirmed,REFERENCE,NUMBER,PRICE,YIELD,REDEMPTION,TOTAL`, `place,refused,NUMBER,NAME`,
/// `place,bad,1`, or `place,bad,2,COLUMN`. The price and the yield have three decimals, and the total
/// is in dollars. Of figures and of a list, which no row asks for, only the place is told.
pub fn report_row(place: u32, said: &RowOutcome, text: &mut ArrayVec<u8, 256>)
    // promise 5, 6: the line of a row, byte for byte
    ensures items { text.new.items ≡ spec.row_line place said.now }
    ensures len { array_vec_len text.new ≤ 154 }
{
    text.clear();
    push_digits(text, place);
    match said {
        Ok(reply) => push_reply(text, reply),
        Err(fault) => push_bad(text, *fault),
    }
    text.push(b'\n');
}

fn push_reply(text: &mut ArrayVec<u8, 256>, reply: &Reply)
    requires { array_vec_len text.old ≤ 10 }
    ensures items { text.new.items ≡ text.old.items ++ spec.reply_fields reply.now }
    ensures len { array_vec_len text.new ≤ array_vec_len text.old + 143 }
{
    match reply {
        Reply::Added { cusip } => {
            push_field(text, b"added");
            push_field(text, cusip);
        }
        Reply::Amended { cusip, number } => {
            push_field(text, b"amended");
            push_field(text, cusip);
            push_number(text, *number);
        }
        Reply::Confirmed {
            key,
            number,
            version,
            ..
        } => push_confirmed(text, key, *number, &version.figures),
        Reply::Refused(refusal) => push_refused(text, refusal.number()),
        Reply::Quoted { .. } | Reply::Listed(_) => {}
    }
}

#[tactic(auto, unfolding(crate::specs::Report::confirmed_fields))]
fn push_confirmed(text: &mut ArrayVec<u8, 256>, key: &Key, number: u32, figures: &Figures)
    requires { array_vec_len text.old ≤ 10 }
    ensures items { text.new.items
        ≡ text.old.items ++ spec.confirmed_fields key.now number figures.now }
    ensures len { array_vec_len text.new ≤ array_vec_len text.old + 143 }
{
    push_field(text, b"confirmed");
    push_field(text, key.reference.bytes());
    push_number(text, number);
    push_prices(text, figures);
    push_total(text, figures);
}

#[tactic(auto, unfolding(crate::specs::Report::price_fields))]
fn push_prices(text: &mut ArrayVec<u8, 256>, figures: &Figures)
    requires { array_vec_len text.old ≤ 100 }
    ensures items { text.new.items ≡ text.old.items ++ spec.price_fields figures.now }
    ensures len { array_vec_len text.new ≤ array_vec_len text.old + 60 }
{
    push_price(text, &figures.price);
    let mut yld = ArrayVec::new();
    figures.yld.print_into(&mut yld);
    push_field(text, &yld);
}

#[tactic(auto, unfolding(crate::specs::Report::total_fields))]
fn push_total(text: &mut ArrayVec<u8, 256>, figures: &Figures)
    requires { array_vec_len text.old ≤ 150 }
    ensures items { text.new.items ≡ text.old.items ++ spec.total_fields figures.now }
    ensures len { array_vec_len text.new ≤ array_vec_len text.old + 41 }
{
    push_day(text, figures.redemption);
    push_money(text, &figures.total);
}
