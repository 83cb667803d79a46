//! The lines of a check.

ghost use Rattle.std.specs.Prelude.{◌≡◌, ◌+◌, ◌≤◌, ◌^◌, ◌<◌, ◌++◌, ◌∷◌, [], length, decimal, OnOk};
ghost use Rattle.std.specs.Fmt.{signed_decimal};
ghost use Rattle.arrayvec.specs.ArrayVec.{array_vec_len};
ghost use Rattle.muni_dec.specs.Values.{money_text, printed_price_text, printed_yield_text};
ghost use Rattle.muni_days.specs.Day.{civil, day_text};
ghost use Rattle.muni_import.specs.Line.{behind_commas};
ghost use Rattle.muni_check_rows.specs.Line as spec;

use crate::other::OtherTerm;
use crate::said::CheckSaid;
use crate::tally::Tally;
use arrayvec::ArrayVec;
use itoa::Buffer;
use muni_days::Day;
use muni_dec::text::push;
use muni_dec::{Cents, Price3, Yield3};
use muni_edge::NoMemory;
use muni_import::line::{push_bad, push_day, push_field, push_money, push_price, push_refused};
use muni_marks::push_count;
use muni_msg::{Column, Figures};
use muni_readings::{Field, Reading, Stated};

/// Appends the line of a row, with its line end.
///
/// `place,right`, `place,differs,FIELD,OURS,THEIRS` and perhaps `,READING`, `place,undecided,FIELD`,
/// `place,refused,NUMBER,NAME`, `place,missing,REFERENCE`, `place,again,PLACE`, `place,nothing`, `place,bad,1` or
/// `place,bad,2,COLUMN`.
pub fn add_line(text: &mut Vec<u8>, place: u64, said: &CheckSaid) -> Result<(), NoMemory>
    requires { spec.HasName said.now }
    ensures { OnOk result (text.new.items ≡ text.old.items ++ spec.said_line place said.now) }
{
    let mut buffer = Buffer::new();
    text.extend_from_slice(buffer.format(place).as_bytes())?;
    add_said(text, said)?;
    text.extend_from_slice(b"\n")?;
    Ok(())
}

#[tactic(auto, unfolding(crate::specs::Line::said_fields))]
fn add_said(text: &mut Vec<u8>, said: &CheckSaid) -> Result<(), NoMemory>
    requires { spec.HasName said.now }
    ensures { OnOk result (text.new.items ≡ text.old.items ++ spec.said_fields said.now) }
{
    if let CheckSaid::OtherTerm(other) = said {
        return add_other(text, other);
    }
    let mut part = ArrayVec::new();
    push_said(&mut part, said);
    text.extend_from_slice(&part)?;
    Ok(())
}

fn add_other(text: &mut Vec<u8>, other: &OtherTerm) -> Result<(), NoMemory>
    ensures { OnOk result (text.new.items ≡ text.old.items ++ spec.other_fields other.now) }
{
    add_field(text, b"differs")?;
    add_field(text, other.column.name())?;
    add_field(text, &other.ours)?;
    add_field(text, &other.theirs)
}

fn add_field(text: &mut Vec<u8>, field: &[u8]) -> Result<(), NoMemory>
    ensures { OnOk result (text.new.items ≡ text.old.items ++ behind_commas (field.now ∷ [])) }
{
    text.extend_from_slice(b",")?;
    text.extend_from_slice(field)?;
    Ok(())
}

#[tactic(auto, unfolding(crate::specs::Line::said_fields))]
fn push_said(text: &mut ArrayVec<u8, 256>, said: &CheckSaid)
    requires name { spec.HasName said.now }
    requires short { spec.IsShort said.now }
    requires room { array_vec_len text.old ≤ 0 }
    ensures items { text.new.items ≡ text.old.items ++ spec.said_fields said.now }
{
    match said {
        CheckSaid::Right => push_field(text, b"right"),
        CheckSaid::Differs {
            field,
            figures,
            stated,
            reading,
        } => push_difference(text, *field, figures, stated, *reading),
        // Its texts may be of any length.
        CheckSaid::OtherTerm(_) => {}
        CheckSaid::Undecided { field } => {
            push_field(text, b"undecided");
            push_field(text, field_name(*field));
        }
        CheckSaid::Refused { number } => push_refused(text, *number),
        CheckSaid::Missing { reference } => {
            push_field(text, b"missing");
            push_field(text, reference.bytes());
        }
        CheckSaid::Again { first } => {
            push_field(text, b"again");
            push_count(text, *first);
        }
        CheckSaid::Nothing => push_field(text, b"nothing"),
        CheckSaid::Bad(fault) => push_bad(text, *fault),
    }
}

#[tactic(auto, unfolding(crate::specs::Line::differs_fields))]
fn push_difference(
    text: &mut ArrayVec<u8, 256>,
    field: Field,
    figures: &Figures,
    stated: &Stated,
    reading: Option<Reading>,
)
    requires { array_vec_len text.old ≤ 0 }
    ensures items { text.new.items
        ≡ text.old.items ++ spec.differs_fields field figures.now stated.now reading }
{
    push_field(text, b"differs");
    push_field(text, field_name(field));
    push_ours(text, field, figures);
    push_theirs(text, field, stated);
    if let Some(reading) = reading {
        push_field(text, reading_name(reading));
    }
}

// A figure is named as its column.
fn field_name(field: Field) -> &'static [u8]
    ensures name { result.now ≡ spec.field_name field }
    ensures short { length result.now ≤ 10 }
{
    match field {
        Field::Price => Column::Price.name(),
        Field::Yield => Column::Yield.name(),
        Field::Redemption => Column::Redemption.name(),
        Field::Days => Column::Days.name(),
        Field::Principal => Column::Principal.name(),
        Field::Accrued => Column::Accrued.name(),
        Field::Total => Column::Total.name(),
    }
}

fn reading_name(reading: Reading) -> &'static [u8]
    ensures name { result.now ≡ spec.reading_name reading }
    ensures short { length result.now ≤ 10 }
{
    match reading {
        Reading::Maturity => b"MATURITY",
        Reading::FirstCall => b"FIRST CALL",
        Reading::Rounded => b"ROUNDED",
        Reading::Compounded => b"COMPOUNDED",
        Reading::February => b"FEBRUARY",
        Reading::Gross => b"GROSS",
        Reading::Regular => b"REGULAR",
    }
}

fn push_ours(text: &mut ArrayVec<u8, 256>, field: Field, figures: &Figures)
    requires { array_vec_len text.old ≤ 100 }
    ensures items { text.new.items
        ≡ text.old.items ++ behind_commas (spec.our_text field figures.now ∷ []) }
    ensures len { array_vec_len text.new ≤ array_vec_len text.old + 30 }
{
    match field {
        Field::Price => push_price(text, &figures.price),
        Field::Yield => push_yield(text, &figures.yld),
        Field::Redemption => push_day(text, figures.redemption),
        Field::Days => push_days(text, figures.days),
        Field::Principal => push_money(text, &figures.principal),
        Field::Accrued => push_money(text, &figures.accrued),
        Field::Total => push_money(text, &figures.total),
    }
}

fn push_theirs(text: &mut ArrayVec<u8, 256>, field: Field, stated: &Stated)
    requires { array_vec_len text.old ≤ 100 }
    ensures items { text.new.items
        ≡ text.old.items ++ behind_commas (spec.their_text field stated.now ∷ []) }
    ensures len { array_vec_len text.new ≤ array_vec_len text.old + 30 }
{
    match field {
        Field::Price => push_stated_price(text, stated.price),
        Field::Yield => push_stated_yield(text, stated.yld),
        Field::Redemption => push_stated_day(text, stated.redemption),
        Field::Days => push_stated_days(text, stated.days),
        Field::Principal => push_stated_money(text, stated.principal),
        Field::Accrued => push_stated_money(text, stated.accrued),
        Field::Total => push_stated_money(text, stated.total),
    }
}

fn push_stated_price(text: &mut ArrayVec<u8, 256>, price: Option<Price3>)
    requires { array_vec_len text.old ≤ 100 }
    ensures items { text.new.items
        ≡ text.old.items ++ behind_commas (spec.text_or_none printed_price_text price ∷ []) }
    ensures len { array_vec_len text.new ≤ array_vec_len text.old + 30 }
{
    match price {
        Some(price) => push_price(text, &price),
        None => push_field(text, b""),
    }
}

fn push_stated_yield(text: &mut ArrayVec<u8, 256>, yld: Option<Yield3>)
    requires { array_vec_len text.old ≤ 100 }
    ensures items { text.new.items
        ≡ text.old.items ++ behind_commas (spec.text_or_none printed_yield_text yld ∷ []) }
    ensures len { array_vec_len text.new ≤ array_vec_len text.old + 30 }
{
    match yld {
        Some(yld) => push_yield(text, &yld),
        None => push_field(text, b""),
    }
}

fn push_stated_day(text: &mut ArrayVec<u8, 256>, day: Option<Day>)
    requires { array_vec_len text.old ≤ 100 }
    ensures items { text.new.items
        ≡ text.old.items ++ behind_commas (spec.text_or_none (λ d. day_text (civil d)) day ∷ []) }
    ensures len { array_vec_len text.new ≤ array_vec_len text.old + 30 }
{
    match day {
        Some(day) => push_day(text, day),
        None => push_field(text, b""),
    }
}

fn push_stated_days(text: &mut ArrayVec<u8, 256>, days: Option<i32>)
    requires { array_vec_len text.old ≤ 100 }
    ensures items { text.new.items
        ≡ text.old.items ++ behind_commas (spec.text_or_none signed_decimal days ∷ []) }
    ensures len { array_vec_len text.new ≤ array_vec_len text.old + 30 }
{
    match days {
        Some(days) => push_days(text, days),
        None => push_field(text, b""),
    }
}

fn push_stated_money(text: &mut ArrayVec<u8, 256>, money: Option<Cents>)
    requires { array_vec_len text.old ≤ 100 }
    ensures items { text.new.items
        ≡ text.old.items ++ behind_commas (spec.text_or_none money_text money ∷ []) }
    ensures len { array_vec_len text.new ≤ array_vec_len text.old + 30 }
{
    match money {
        Some(money) => push_money(text, &money),
        None => push_field(text, b""),
    }
}

fn push_yield(text: &mut ArrayVec<u8, 256>, yld: &Yield3)
    requires { array_vec_len text.old ≤ 100 }
    ensures items { text.new.items
        ≡ text.old.items ++ behind_commas (printed_yield_text yld.now ∷ []) }
    ensures len { array_vec_len text.new ≤ array_vec_len text.old + 30 }
{
    let mut value = ArrayVec::new();
    yld.print_into(&mut value);
    push_field(text, &value);
}

fn push_days(text: &mut ArrayVec<u8, 256>, days: i32)
    requires { array_vec_len text.old ≤ 100 }
    ensures items { text.new.items ≡ text.old.items ++ behind_commas (signed_decimal days ∷ []) }
    ensures len { array_vec_len text.new ≤ array_vec_len text.old + 12 }
{
    let mut buffer = Buffer::new();
    push_field(text, buffer.format(days).as_bytes());
}

/// The line of the total, with its line end: `TOTAL,ROWS,RIGHT,DIFFER,MISSING,AGAIN,NOTHING`.
#[tactic(auto, unfolding(crate::specs::Line::total_line))]
pub fn total_line(tally: &Tally) -> ArrayVec<u8, 256>
    ensures { result.items ≡ spec.total_line tally.now }
{
    let mut text = ArrayVec::new();
    push(&mut text, b"TOTAL");
    push_count(&mut text, tally.rows);
    push_count(&mut text, tally.right);
    push_count(&mut text, tally.differ);
    push_wide(&mut text, tally.missing);
    push_wide(&mut text, u128::from(tally.again));
    push_wide(&mut text, u128::from(tally.nothing));
    text.push(b'\n');
    text
}

fn push_wide(text: &mut ArrayVec<u8, 256>, count: u128)
    requires { array_vec_len text.old ≤ 150 }
    ensures items { text.new.items ≡ text.old.items ++ behind_commas (decimal count ∷ []) }
    ensures len { array_vec_len text.new ≤ array_vec_len text.old + 40 }
{
    let mut buffer = Buffer::new();
    push_field(text, buffer.format(count).as_bytes());
}
