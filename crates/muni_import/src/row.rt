//! What a row asks for.

ghost use Rattle.std.specs.Prelude.{◌≡◌, ◌≤◌};
ghost use Rattle.std.specs.Option.{option_map};
ghost use Rattle.csv.specs.Records.{fields_of};
ghost use Rattle.muni_import.specs.Fault.{fault_number};
ghost use Rattle.muni_import.specs.Row as spec;

use crate::columns::{field, in_column};
use csv::ByteRecord;
use muni_days::Day;
use muni_dec::Par;
use muni_msg::{
    Asked, Command, DeskName, Given, Key, Reference, Reply, Terms, read_basis_field, read_calls,
    read_coupon, read_cusip, read_fee_field, read_given, read_issue_name, read_kind, read_side,
    read_version_number,
};
use muni_terms::{IssueRow, Kind};
use thiserror::Error;

/// Why a row is no command.
#[derive(Clone, Copy, Debug, PartialEq, Eq, Error)]
pub enum RowFault {
    /// It has another number of fields than its name asks for.
    #[error("another number of fields")]
    FieldCount,
    /// This is the first column, counted from 1, that does not read. It is the first of all where
    /// the row has no name.
    #[error("column {column} does not read")]
    BadField { column: u32 },
}

/// What a row asks for, or why it is no command.
pub type Row = Result<Command, RowFault>;

/// What came of a row: the reply to its command, or why it is none.
pub type RowOutcome = Result<Reply, RowFault>;

impl RowFault {
    /// The number of the fault, 1 or 2.
    pub fn number(&self) -> u32
        // promise 4: each fault of a row has its number
        ensures { result ≡ fault_number self.now }
    {
        match self {
            RowFault::FieldCount => 1,
            RowFault::BadField { .. } => 2,
        }
    }
}

/// What the first field of a row names.
#[derive(Clone, Copy, Debug, PartialEq, Eq)]
pub(crate) enum RowName {
    Issue,
    Amendment,
    Trade,
    Correction,
    Cancellation,
}

impl RowName {
    fn read(text: &[u8]) -> Option<RowName>
        ensures { result ≡ spec.name_of text.now }
    {
        if text == b"issue".as_slice() {
            return Some(RowName::Issue);
        }
        if text == b"amend".as_slice() {
            return Some(RowName::Amendment);
        }
        if text == b"trade".as_slice() {
            return Some(RowName::Trade);
        }
        if text == b"correct".as_slice() {
            return Some(RowName::Correction);
        }
        if text == b"cancel".as_slice() {
            return Some(RowName::Cancellation);
        }
        None
    }

    /// Whether such a row has so many fields. The last one of an issue and of an amendment may be left
    /// out, and the last one or two of a trade and of a correction.
    fn has_count(self, count: usize) -> bool
        ensures { result ≡ spec.has_count self count }
    {
        match self {
            RowName::Issue => count == 9 || count == 10,
            RowName::Amendment => count == 10 || count == 11,
            RowName::Trade => count == 9 || count == 10 || count == 11,
            RowName::Correction => count == 10 || count == 11 || count == 12,
            RowName::Cancellation => count == 4,
        }
    }
}

/// What the fields of a row ask for.
#[tactic(auto, unfolding(crate::specs::Row::row_of))]
pub(crate) fn read_row(row: &ByteRecord) -> Row
    ensures { result ≡ spec.row_of (fields_of row.now) }
{
    let Some(name) = RowName::read(field(row, 1)) else {
        return Err(RowFault::BadField { column: 1 });
    };
    if !name.has_count(row.len()) {
        return Err(RowFault::FieldCount);
    }
    command(name, row)
}

// What a row of a name asks for.
#[tactic(auto, unfolding(crate::specs::Row::command_in))]
fn command(name: RowName, row: &ByteRecord) -> Row
    ensures { result ≡ spec.command_in name (fields_of row.now) }
{
    match name {
        RowName::Issue => {
            let cusip = cusip(row)?;
            Ok(Command::AddIssue(issue(row, 3, cusip)?))
        }
        RowName::Amendment => {
            let cusip = cusip(row)?;
            Ok(Command::Amend {
                number: number(row, 3)?,
                row: issue(row, 4, cusip)?,
            })
        }
        RowName::Trade => Ok(Command::Enter {
            key: key(row)?,
            terms: terms(row, 4)?,
            issue_number: issue_number(row, 11)?,
        }),
        RowName::Correction => Ok(Command::Correct {
            key: key(row)?,
            number: number(row, 4)?,
            terms: terms(row, 5)?,
            issue_number: issue_number(row, 12)?,
        }),
        RowName::Cancellation => Ok(Command::Cancel {
            key: key(row)?,
            number: number(row, 4)?,
        }),
    }
}

fn key(row: &ByteRecord) -> Result<Key, RowFault>
    ensures { result ≡ spec.key_in (fields_of row.now) }
{
    Ok(Key {
        desk: in_column(2, DeskName::read(field(row, 2)).ok())?,
        reference: in_column(3, Reference::read(field(row, 3)).ok())?,
    })
}

// The number of a version, or of the terms of an issue.
fn number(row: &ByteRecord, column: u32) -> Result<u32, RowFault>
    requires { 1 ≤ column }
    ensures { result ≡ spec.number_in column (fields_of row.now) }
{
    in_column(column, read_version_number(field(row, column)))
}

// The number of the terms of the issue of a trade.
fn issue_number(row: &ByteRecord, column: u32) -> Result<Option<u32>, RowFault>
    requires { 1 ≤ column }
    ensures { result ≡ spec.issue_number_in column (fields_of row.now) }
{
    in_column(column, read_issue_number(field(row, column)))
}

fn read_issue_number(text: &[u8]) -> Option<Option<u32>>
    ensures { result ≡ spec.issue_number_field text.now }
{
    if text.is_empty() {
        return Some(None);
    }
    Some(Some(read_version_number(text)?))
}

// The terms of a trade, which begin in a column.
#[tactic(auto, unfolding(crate::specs::Row::terms_in))]
fn terms(row: &ByteRecord, first: u32) -> Result<Terms, RowFault>
    requires { (1 ≤ first) × (first ≤ 5) }
    ensures { result ≡ spec.terms_in first (fields_of row.now) }
{
    Ok(Terms {
        asked: Asked {
            cusip: in_column(first, read_cusip(field(row, first)))?,
            side: in_column(first + 1, read_side(field(row, first + 1)))?,
            par: in_column(first + 2, Par::read(field(row, first + 2)).ok())?,
            settle: in_column(first + 3, Day::read(field(row, first + 3)).ok())?,
            given: given(row, first + 4)?,
            fee: in_column(first + 6, read_fee_field(field(row, first + 6)))?,
        },
    })
}

// A basis, and in the column after it a value.
fn given(row: &ByteRecord, column: u32) -> Result<Given, RowFault>
    requires { (1 ≤ column) × (column ≤ 9) }
    ensures { result ≡ spec.given_in column (fields_of row.now) }
{
    let basis = field(row, column);
    match read_given(basis, field(row, column + 1)) {
        Some(given) => Ok(given),
        None if is_basis(basis) => Err(RowFault::BadField { column: column + 1 }),
        None => Err(RowFault::BadField { column }),
    }
}

fn is_basis(text: &[u8]) -> bool
    ensures { result ≡ spec.is_basis text.now }
{
    text == b"yield".as_slice() || text == b"price".as_slice() || text == b"rate".as_slice()
}

fn cusip(row: &ByteRecord) -> Result<[u8; 9], RowFault>
    ensures { result ≡ spec.cusip_in (fields_of row.now) }
{
    in_column(2, read_cusip(field(row, 2)))
}

// The issue of a CUSIP, whose terms begin in a column, with its name.
#[tactic(auto, unfolding(crate::specs::Row::issue_in))]
fn issue(row: &ByteRecord, first: u32, cusip: [u8; 9]) -> Result<IssueRow, RowFault>
    requires { (1 ≤ first) × (first ≤ 4) }
    ensures { result ≡ spec.issue_in first cusip (fields_of row.now) }
{
    let name = in_column(first, read_issue_name(field(row, first)))?;
    let (kind, dated, maturity) = calendar(row, first)?;
    let coupon = in_column(first + 5, read_coupon(kind, field(row, first + 5)))?;
    let calls = in_column(first + 6, read_calls(field(row, first + 6)))?;
    let basis = in_column(first + 7, read_basis_field(field(row, first + 7)))?;
    Ok(IssueRow {
        cusip,
        name,
        kind,
        basis,
        dated,
        maturity,
        coupon,
        calls,
    })
}

// How it pays and when: its kind, its dated date and its maturity.
#[tactic(auto, unfolding(crate::specs::Row::calendar_in))]
fn calendar(row: &ByteRecord, first: u32) -> Result<(Kind, Day, Day), RowFault>
    requires { (1 ≤ first) × (first ≤ 4) }
    ensures { result ≡ spec.calendar_in first (fields_of row.now) }
{
    if !is_kind(field(row, first + 1)) {
        return Err(RowFault::BadField { column: first + 1 });
    }
    let dated = in_column(first + 2, Day::read(field(row, first + 2)).ok())?;
    let kind = kind(row, first)?;
    let maturity = in_column(first + 4, Day::read(field(row, first + 4)).ok())?;
    Ok((kind, dated, maturity))
}

fn is_kind(text: &[u8]) -> bool
    ensures { result ≡ spec.is_kind text.now }
{
    text == b"periodic".as_slice()
        || text == b"zero".as_slice()
        || text == b"at-redemption".as_slice()
        || text == b"discount".as_slice()
}

// Its kind, with the first interest date in a column of its own.
fn kind(row: &ByteRecord, first: u32) -> Result<Kind, RowFault>
    requires { (1 ≤ first) × (first ≤ 4) }
    ensures { result ≡ spec.kind_in first (fields_of row.now) }
{
    let interest = not_empty(field(row, first + 3));
    in_column(first + 3, read_kind(field(row, first + 1), interest))
}

fn not_empty(text: &[u8]) -> Option<&[u8]>
    ensures { option_map (λ some. some.now) result ≡ spec.not_empty text.now }
{
    if text.is_empty() { None } else { Some(text) }
}
