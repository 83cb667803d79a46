//! What is read from the rows of the tables.

ghost use Rattle.std.specs.Prelude.{◌≡◌, List, Some, IfSome, drop};
ghost use Rattle.sqlite_value.specs.Order.{column};
ghost use Rattle.sqlite_value.specs.Value.{owned};
ghost use Rattle.sqlite_value.specs.declared.value.Value.{Value as SqlValue};
ghost use Rattle.muni_store_trees.specs.Rows as rows;

use muni_msg::{DeskName, Key, Reference, Version};
use muni_store_rows::{AskedRow, FigureRow, TradeRow, issue_3};
use muni_terms::Issue;
use sqlite_value::row::Row;
use sqlite_value::value::ValueRef;

/// What has columns: a row of a table, or of the answer to a query.
pub trait Columns {
    /// The values in the columns.
    ghost values: { Self → List SqlValue };

    /// The value in a column, and NULL past the last.
    fn value(&self, at: u8) -> ValueRef<'_>
        ensures { owned result ≡ column (values self.now) at };
}

/// A row of a tree: its rowid, and then the columns of the table.
#[derive(Clone, Copy)]
pub(crate) struct TableRow<'a>(pub(crate) &'a Row);

impl<'a> Columns for TableRow<'a> {
    ghost values = { λ row. drop 1 row.0.now };

    fn value(&self, at: u8) -> ValueRef<'_> {
        self.0.get(usize::from(at) + 1)
    }
}

/// The text in a column.
pub(crate) fn text_at<R: Columns>(row: &R, at: u8) -> Option<&str>
    ensures { IfSome result (λ text. text.now ≡ rows.text_in (R.Columns.values row.now) at) }
{
    match row.value(at) {
        ValueRef::Text(bytes) => std::str::from_utf8(bytes).ok(),
        _ => None,
    }
}

/// The bytes of the text in a column, of which no test says that they are UTF-8.
fn bytes_at<R: Columns>(row: &R, at: u8) -> Option<&[u8]>
    ensures { IfSome result (λ bytes. bytes.now ≡ rows.text_in (R.Columns.values row.now) at) }
{
    match row.value(at) {
        ValueRef::Text(bytes) => Some(bytes),
        _ => None,
    }
}

/// The number in a column.
pub(crate) fn number_at<R: Columns>(row: &R, at: u8) -> Option<i64>
    ensures { IfSome result (λ number. number ≡ rows.number_in (R.Columns.values row.now) at) }
{
    match row.value(at) {
        ValueRef::Int(number) => Some(number),
        _ => None,
    }
}

/// The number and the terms of the issue in a row, if there are such.
pub fn read_issue<R: Columns>(row: &R) -> Option<(u32, Issue)>
    ensures { IfSome result (λ found. rows.numbered_in (R.Columns.values row.now) ≡ Some found) }
{
    issue_3(
        text_at(row, 0)?,
        number_at(row, 1)?,
        text_at(row, 2)?,
        number_at(row, 3)?,
        text_at(row, 4)?,
        text_at(row, 5)?,
        text_at(row, 6)?,
        number_at(row, 7)?,
        text_at(row, 8)?,
        number_at(row, 9)?,
    )
}

/// The columns of a version in a row, with a fee, a commission and the number of the terms of the issue. Names
/// and days are read from ASCII alone.
fn trade_row<R: Columns>(row: &R, fee: i64, commission: i64, issue: i64) -> Option<TradeRow<'_>>
    ensures { IfSome result (λ columns. columns ≡ rows.trade_columns (R.Columns.values row.now) fee commission issue) }
{
    Some(TradeRow {
        desk: bytes_at(row, 0)?,
        reference: bytes_at(row, 1)?,
        number: number_at(row, 2)?,
        act: number_at(row, 3)?,
        asked: asked_row(row, fee)?,
        figures: figure_row(row, commission)?,
        issue,
    })
}

fn asked_row<R: Columns>(row: &R, fee: i64) -> Option<AskedRow<'_>>
    ensures { IfSome result (λ columns. columns ≡ rows.asked_columns (R.Columns.values row.now) fee) }
{
    Some(AskedRow {
        cusip: text_at(row, 4)?.as_bytes(),
        side: number_at(row, 5)?,
        par: number_at(row, 6)?,
        settle: bytes_at(row, 7)?,
        basis: number_at(row, 8)?,
        value: number_at(row, 9)?,
        fee,
    })
}

fn figure_row<R: Columns>(row: &R, commission: i64) -> Option<FigureRow<'_>>
    ensures { IfSome result (λ columns. columns ≡ rows.figure_columns (R.Columns.values row.now) commission) }
{
    Some(FigureRow {
        price: number_at(row, 10)?,
        yld: number_at(row, 11)?,
        redemption: bytes_at(row, 12)?,
        at_price: number_at(row, 13)?,
        label: number_at(row, 14)?,
        days: number_at(row, 15)?,
        principal: number_at(row, 16)?,
        accrued: number_at(row, 17)?,
        total: number_at(row, 18)?,
        commission,
    })
}

/// The trade, the number and the version in a row, if there are such.
pub fn read_trade<R: Columns>(row: &R) -> Option<(Key, u32, Version)>
    ensures { IfSome result (λ trade. rows.trade_in (R.Columns.values row.now) ≡ Some trade) }
{
    trade_row(
        row,
        number_at(row, 19)?,
        number_at(row, 20)?,
        number_at(row, 21)?,
    )?
    .trade()
}

/// Whether a row that has no column for the number of the terms of the issue is that of a version, if it has
/// the others.
pub fn is_trade_2<R: Columns>(row: &R) -> Option<bool>
    ensures { IfSome result (λ is. is ≡ rows.is_trade_2 (R.Columns.values row.now)) }
{
    let columns = trade_row(row, number_at(row, 19)?, number_at(row, 20)?, 1)?;
    Some(columns.trade().is_some())
}

/// The same of a row that has no columns for a fee and a commission either.
pub fn is_trade_1<R: Columns>(row: &R) -> Option<bool>
    ensures { IfSome result (λ is. is ≡ rows.is_trade_1 (R.Columns.values row.now)) }
{
    Some(trade_row(row, 0, 0, 1)?.trade().is_some())
}

/// The text in a column of an entry, or none.
pub(crate) fn text_in(entry: &Row, at: usize) -> &[u8]
    ensures { result.now ≡ rows.text_in entry.now at }
{
    match entry.get(at) {
        ValueRef::Text(bytes) => bytes,
        _ => b"",
    }
}

/// The number in a column of an entry, or 0.
pub(crate) fn number_in(entry: &Row, at: usize) -> i64
    ensures { result ≡ rows.number_in entry.now at }
{
    match entry.get(at) {
        ValueRef::Int(number) => number,
        _ => 0,
    }
}

/// The reference in the second column of an entry, if it is one.
pub(crate) fn read_reference(entry: &Row) -> Option<Reference>
    ensures { IfSome result (λ reference. rows.reference_at entry.now 1 ≡ Some reference) }
{
    Reference::read(text_in(entry, 1)).ok()
}

/// The name of a desk in the first column of an entry, if it is one.
pub(crate) fn read_desk(entry: &Row) -> Option<DeskName>
    ensures { IfSome result (λ desk. rows.desk_in entry.now ≡ Some desk) }
{
    DeskName::read(text_in(entry, 0)).ok()
}

/// The CUSIP in the first column of an entry, if it has nine characters.
pub(crate) fn read_cusip(entry: &Row) -> Option<[u8; 9]>
    ensures { IfSome result (λ cusip. cusip ≡ rows.text_in entry.now 0) }
{
    <[u8; 9]>::try_from(text_in(entry, 0)).ok()
}
