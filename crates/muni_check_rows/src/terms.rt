//! The terms of an issue in the columns of a row.

ghost use Rattle.std.specs.Prelude.{◌≡◌, codes};
ghost use Rattle.csv.specs.Records.{fields_of};
ghost use Rattle.muni_import.specs.Row as import;
ghost use Rattle.muni_msg.specs.Fields.{day_in};
ghost use Rattle.muni_check_rows.specs.Columns.{states_any};
ghost use Rattle.muni_check_rows.specs.Terms as spec;

use crate::row::Fields;
use arrayvec::ArrayVec;
use muni_days::Day;
use muni_import::RowFault;
use muni_msg::{Column, read_basis_field, read_calls, read_coupon, read_kind};
use muni_terms::{IssueRow, Kind};

// The terms after the kind.
const TERMS: [Column; 6] = [
    Column::Dated,
    Column::First,
    Column::Maturity,
    Column::Coupon,
    Column::Calls,
    Column::DayCount,
];

/// Whether a row states the terms of its issue: it states a kind.
pub(crate) fn has_terms(fields: &Fields<'_>) -> bool
    ensures { result ≡ spec.has_terms fields.now.columns.now.items (fields_of fields.now.record.now) }
{
    fields.states(Column::Kind)
}

/// The terms that a row states, if it states any, of an issue with this CUSIP. One that states a term states a kind.
pub(crate) fn read_terms(fields: &Fields<'_>, cusip: [u8; 9]) -> Result<Option<IssueRow>, RowFault>
    ensures { result ≡ spec.terms_in fields.now.columns.now.items (fields_of fields.now.record.now) cusip }
{
    if has_terms(fields) {
        return Ok(Some(read_issue(fields, cusip)?));
    }
    if states_term(fields) {
        return Err(fields.fault(Column::Kind));
    }
    Ok(None)
}

// Whether a row states one of the terms after the kind.
fn states_term(fields: &Fields<'_>) -> bool
    ensures { result ≡ states_any fields.now.columns.now.items (fields_of fields.now.record.now) spec.term_columns }
{
    TERMS.iter().any(|column| fields.states(*column))
}

#[tactic(auto, unfolding(crate::specs::Terms::issue_in))]
fn read_issue(fields: &Fields<'_>, cusip: [u8; 9]) -> Result<IssueRow, RowFault>
    ensures { result ≡ spec.issue_in fields.now.columns.now.items (fields_of fields.now.record.now) cusip }
{
    let (kind, dated, maturity) = read_calendar(fields)?;
    let coupon = read_coupon(kind, fields.text(Column::Coupon)).ok_or(fields.fault(
        Column::Coupon,
    ))?;
    let calls = read_calls(fields.text(Column::Calls)).ok_or(fields.fault(Column::Calls))?;
    let basis = read_basis_field(fields.text(Column::DayCount)).ok_or(fields.fault(
        Column::DayCount,
    ))?;
    Ok(IssueRow {
        cusip,
        name: issue_name(),
        kind,
        basis,
        dated,
        maturity,
        coupon,
        calls,
    })
}

// The name of an issue that a row has no name for.
fn issue_name() -> ArrayVec<u8, 60>
    ensures { result.items ≡ codes "CHECK" }
{
    let mut name = ArrayVec::new();
    let _ = name.try_extend_from_slice(b"CHECK");
    name
}

fn read_calendar(fields: &Fields<'_>) -> Result<(Kind, Day, Day), RowFault>
    ensures { result ≡ spec.calendar_in fields.now.columns.now.items (fields_of fields.now.record.now) }
{
    if !is_kind(fields.text(Column::Kind)) {
        return Err(fields.fault(Column::Kind));
    }
    let dated = read_day(fields, Column::Dated)?;
    let kind = kind_in(fields).ok_or(fields.fault(Column::First))?;
    let maturity = read_day(fields, Column::Maturity)?;
    Ok((kind, dated, maturity))
}

fn read_day(fields: &Fields<'_>, column: Column) -> Result<Day, RowFault>
    ensures { result ≡ spec.term_in fields.now.columns.now.items (fields_of fields.now.record.now) column day_in }
{
    Day::read(fields.text(column))
        .ok()
        .ok_or(fields.fault(column))
}

// A kind, with the first interest date in a column of its own.
fn kind_in(fields: &Fields<'_>) -> Option<Kind>
    ensures { result ≡ spec.kind_in fields.now.columns.now.items (fields_of fields.now.record.now) }
{
    let first = fields.text(Column::First);
    let first = if first.is_empty() { None } else { Some(first) };
    read_kind(fields.text(Column::Kind), first)
}

fn is_kind(text: &[u8]) -> bool
    ensures { result ≡ import.is_kind text.now }
{
    text == b"periodic".as_slice()
        || text == b"zero".as_slice()
        || text == b"at-redemption".as_slice()
        || text == b"discount".as_slice()
}
