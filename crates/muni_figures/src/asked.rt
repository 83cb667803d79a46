//! What a line of an input asks for.

ghost use Rattle.std.specs.Prelude.{◌≡◌, ◌<◌, ◌≤◌, ◌∷◌, None, length, IfSome};
ghost use Rattle.std.specs.Option.{option_map};
ghost use Rattle.std.specs.Str.Lines.{strip_carriage_return};
ghost use Rattle.muni_import.specs.Row.{field, given_in, is_basis};
ghost use Rattle.muni_msg.specs.IssueFields.{cusip_reading};
ghost use Rattle.muni_figures.specs.Rows as spec;
ghost use Rattle.muni_figures.specs.Texts.{texts_of};

use arrayvec::ArrayVec;
use memchr::memchr;
use muni_days::Day;
use muni_dec::Par;
use muni_dec::text::find;
use muni_import::RowFault;
use muni_import::columns::in_column;
use muni_msg::{Asked, Given, Side, read_cusip, read_fee_field, read_given, read_side};

// The greatest number of bytes of a line that may be a row.
const LONGEST: usize = 4_096;

// A row has so many fields.
const LEAST_FIELDS: usize = 5;

const MOST_FIELDS: usize = 7;

/// What a line asks for, or why it is no row.
///
/// Its fields are `CUSIP,PAR,SETTLE,BASIS,VALUE`, and then a commission, which is 0 if left out, and a
/// side, which is `buy` if left out. A line has no quotes, and one of more than 4,096 bytes is no row. A
/// carriage return at its end is no part of its last field.
#[tactic(auto, unfolding(crate::specs::Rows::row_of))]
pub fn read_line(line: &[u8]) -> Result<Asked, RowFault>
    // promise 4: a line is read exactly by its format, and one of more than 4,096 bytes is none
    ensures { result ≡ spec.row_of line.now }
{
    if line.len() > LONGEST {
        return Err(RowFault::FieldCount);
    }
    read_fields(without_return(line))
}

/// The CUSIP in the first column of a line, if it is one.
pub(crate) fn read_named(line: &[u8]) -> Option<[u8; 9]>
    ensures { result ≡ cusip_reading (field 1 (spec.fields_in line.now)) }
{
    read_cusip(cut(without_return(line), b',').0)
}

/// Whether a line is a row, even a bad one: it is not empty.
pub(crate) fn is_row(line: &[u8]) -> bool
    ensures { result ≡ spec.is_row line.now }
{
    !without_return(line).is_empty()
}

/// The first line of a text, and what comes after its line feed.
pub(crate) fn next_line(text: &[u8]) -> (&[u8], Option<&[u8]>)
    ensures parts { spec.parts 10 text.now
        ≡ result.0.now ∷ spec.parts_left 10 (option_map (λ more. more.now) result.1) }
    ensures shorter { IfSome result.1 (λ more. length more.now < length text.now) }
{
    match memchr(b'\n', text) {
        Some(end) => (&text[..end], Some(&text[end + 1..])),
        None => (text, None),
    }
}

// The first part of a text, up to a byte, and what comes after that byte.
fn cut(text: &[u8], byte: u8) -> (&[u8], Option<&[u8]>)
    ensures parts { spec.parts byte text.now
        ≡ result.0.now ∷ spec.parts_left byte (option_map (λ more. more.now) result.1) }
    ensures shorter { IfSome result.1 (λ more. length more.now < length text.now) }
{
    match find(text, byte) {
        Some(end) => (&text[..end], Some(&text[end + 1..])),
        None => (text, None),
    }
}

fn without_return(line: &[u8]) -> &[u8]
    ensures { result.now ≡ strip_carriage_return line.now }
{
    match line.split_last() {
        Some((b'\r', front)) => front,
        _ => line,
    }
}

#[tactic(auto, unfolding(crate::specs::Rows::row_by))]
fn read_fields(line: &[u8]) -> Result<Asked, RowFault>
    ensures { result ≡ spec.row_by (spec.parts 44 line.now) }
{
    match fields_of(line) {
        Some(fields) => read_counted(&fields),
        None => Err(RowFault::FieldCount),
    }
}

// The fields of a line, if there are so few that it may be a row.
fn fields_of(line: &[u8]) -> Option<ArrayVec<&[u8], MOST_FIELDS>>
    ensures all { IfSome result (λ fields. texts_of fields.items ≡ spec.parts 44 line.now) }
    ensures many { result ≡ None → 7 < length (spec.parts 44 line.now) }
{
    let mut fields = ArrayVec::new();
    let mut left = Some(line);
    while let Some(text) = left {
        let (field, more) = cut(text, b',');
        if fields.try_push(field).is_err() {
            return None;
        }
        left = more;
    }
    Some(fields)
}

#[tactic(auto, unfolding(crate::specs::Rows::row_by))]
fn read_counted(fields: &[&[u8]]) -> Result<Asked, RowFault>
    requires { length fields.now ≤ 7 }
    ensures { result ≡ spec.row_by (texts_of fields.now) }
{
    if fields.len() < LEAST_FIELDS {
        return Err(RowFault::FieldCount);
    }
    read_asked(fields)
}

#[tactic(auto, unfolding(crate::specs::Rows::asked_in))]
fn read_asked(fields: &[&[u8]]) -> Result<Asked, RowFault>
    ensures { result ≡ spec.asked_in (texts_of fields.now) }
{
    Ok(Asked {
        cusip: in_column(1, read_cusip(field(fields, 1)))?,
        par: in_column(2, Par::read(field(fields, 2)).ok())?,
        settle: in_column(3, Day::read(field(fields, 3)).ok())?,
        given: given(fields)?,
        fee: in_column(6, read_fee_field(field(fields, 6)))?,
        side: in_column(7, read_side_field(field(fields, 7)))?,
    })
}

// A basis in the fourth column, and a value in the fifth.
fn given(fields: &[&[u8]]) -> Result<Given, RowFault>
    ensures { result ≡ given_in 4 (texts_of fields.now) }
{
    let basis = field(fields, 4);
    match read_given(basis, field(fields, 5)) {
        Some(given) => Ok(given),
        None if is_basis(basis) => Err(RowFault::BadField { column: 5 }),
        None => Err(RowFault::BadField { column: 4 }),
    }
}

fn is_basis(text: &[u8]) -> bool
    ensures { result ≡ is_basis text.now }
{
    text == b"yield".as_slice() || text == b"price".as_slice() || text == b"rate".as_slice()
}

fn read_side_field(text: &[u8]) -> Option<Side>
    ensures { result ≡ spec.side_field text.now }
{
    if text.is_empty() {
        return Some(Side::Buy);
    }
    read_side(text)
}

// The field of a column. After the last one each is empty.
fn field<'a>(fields: &[&'a [u8]], column: u32) -> &'a [u8]
    requires { 1 ≤ column }
    ensures { result.now ≡ field column (texts_of fields.now) }
{
    match fields.get(column as usize - 1) {
        Some(field) => field,
        None => b"",
    }
}
