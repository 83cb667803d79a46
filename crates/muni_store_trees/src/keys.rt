//! The keys of the indexes, and the rows that a put writes.

ghost use Rattle.std.specs.Prelude.{◌≡◌, map, take, IfOk};
ghost use Rattle.sqlite_value.specs.Value.{owned};
ghost use Rattle.muni_store_rows.specs.Issue as issues;
ghost use Rattle.muni_store_rows.specs.Version as versions;
ghost use Rattle.muni_store_trees.specs.Keys as spec;

use arrayvec::ArrayVec;
use muni_dec::text::push;
use muni_msg::{DeskName, Key, Reference};
use muni_store_rows::{NumberedColumns, TradeRow};
use sqlite_value::row::Row;
use sqlite_value::value::ValueRef;
use std::alloc::{AllocError, Global};

/// A row of these values.
pub(crate) fn row_of(alloc: Global, values: &[ValueRef<'_>]) -> Result<Row, AllocError>
    ensures { IfOk result (λ row. row ≡ map owned values.now) }
{
    let mut row = Row::new(alloc);
    for value in values {
        row.push(*value)?;
    }
    Ok(row)
}

/// The columns of numbered terms of an issue in the table.
pub fn issue_values<'a>(columns: &'a NumberedColumns) -> [ValueRef<'a>; 10]
    ensures { map owned result ≡ spec.issue_values columns.now }
{
    let terms = &columns.terms;
    [
        ValueRef::Text(&terms.cusip),
        ValueRef::Int(columns.number),
        ValueRef::Text(&terms.name),
        ValueRef::Int(terms.kind),
        ValueRef::Text(&terms.dated),
        ValueRef::Text(&terms.first),
        ValueRef::Text(&terms.maturity),
        ValueRef::Int(terms.coupon),
        ValueRef::Text(terms.calls()),
        ValueRef::Int(terms.basis),
    ]
}

/// The columns of a version in the table.
pub fn version_values<'a>(row: &'a TradeRow<'a>) -> [ValueRef<'a>; 22]
    ensures { map owned result ≡ spec.version_values row.now }
{
    [
        ValueRef::Text(row.desk),
        ValueRef::Text(row.reference),
        ValueRef::Int(row.number),
        ValueRef::Int(row.act),
        ValueRef::Text(row.asked.cusip),
        ValueRef::Int(row.asked.side),
        ValueRef::Int(row.asked.par),
        ValueRef::Text(row.asked.settle),
        ValueRef::Int(row.asked.basis),
        ValueRef::Int(row.asked.value),
        ValueRef::Int(row.figures.price),
        ValueRef::Int(row.figures.yld),
        ValueRef::Text(row.figures.redemption),
        ValueRef::Int(row.figures.at_price),
        ValueRef::Int(row.figures.label),
        ValueRef::Int(row.figures.days),
        ValueRef::Int(row.figures.principal),
        ValueRef::Int(row.figures.accrued),
        ValueRef::Int(row.figures.total),
        ValueRef::Int(row.asked.fee),
        ValueRef::Int(row.figures.commission),
        ValueRef::Int(row.issue),
    ]
}

/// The key of an issue, whatever its terms.
pub(crate) fn cusip_key(alloc: Global, cusip: &[u8]) -> Result<Row, AllocError>
    ensures { IfOk result (λ key. key ≡ spec.text_key cusip.now) }
{
    row_of(alloc, &[ValueRef::Text(cusip)])
}

/// The key of the terms of an issue with a number.
pub(crate) fn issue_key(alloc: Global, cusip: &[u8], number: u32) -> Result<Row, AllocError>
    ensures { IfOk result (λ key. key ≡ spec.issue_key cusip.now number) }
{
    row_of(
        alloc,
        &[ValueRef::Text(cusip), ValueRef::Int(i64::from(number))],
    )
}

/// The key of a desk.
pub(crate) fn desk_key(alloc: Global, desk: &DeskName) -> Result<Row, AllocError>
    ensures { IfOk result (λ key. key ≡ spec.text_key desk.now) }
{
    row_of(alloc, &[ValueRef::Text(desk.bytes())])
}

/// The key of a trade.
pub(crate) fn trade_key(alloc: Global, key: &Key) -> Result<Row, AllocError>
    ensures { IfOk result (λ row. row ≡ spec.trade_key key.now) }
{
    row_of(
        alloc,
        &[
            ValueRef::Text(key.desk.bytes()),
            ValueRef::Text(key.reference.bytes()),
        ],
    )
}

/// The key of a version.
pub(crate) fn version_key(alloc: Global, key: &Key, number: u32) -> Result<Row, AllocError>
    ensures { IfOk result (λ row. row ≡ spec.version_key key.now number) }
{
    row_of(
        alloc,
        &[
            ValueRef::Text(key.desk.bytes()),
            ValueRef::Text(key.reference.bytes()),
            ValueRef::Int(i64::from(number)),
        ],
    )
}

/// The least key after those of a CUSIP, or of all if none is given.
pub(crate) fn cusip_key_past(alloc: Global, after: &Option<[u8; 9]>) -> Result<Row, AllocError>
    ensures { IfOk result (λ key. key ≡ spec.text_key (spec.least_past after.now)) }
{
    let mut least = ArrayVec::<u8, 17>::new();
    if let Some(cusip) = after {
        push(&mut least, cusip);
        least.push(0);
    }
    row_of(alloc, &[ValueRef::Text(&least)])
}

/// The least key after those of a desk, or of all if none is given.
pub(crate) fn desk_key_past(alloc: Global, after: &Option<DeskName>) -> Result<Row, AllocError>
    ensures { IfOk result (λ key. key ≡ spec.text_key (spec.least_past after.now)) }
{
    let mut least = ArrayVec::<u8, 17>::new();
    if let Some(desk) = after {
        push(&mut least, desk.bytes());
        least.push(0);
    }
    row_of(alloc, &[ValueRef::Text(&least)])
}

/// The least key after those of a trade of a desk, or of all its trades if none is given.
pub(crate) fn trade_key_past(
    alloc: Global,
    desk: &DeskName,
    after: &Option<Reference>,
) -> Result<Row, AllocError>
    ensures { IfOk result (λ key. key ≡ spec.trade_key_past desk.now after.now) }
{
    let mut least = ArrayVec::<u8, 21>::new();
    if let Some(reference) = after {
        push(&mut least, reference.bytes());
        least.push(0);
    }
    row_of(
        alloc,
        &[ValueRef::Text(desk.bytes()), ValueRef::Text(&least)],
    )
}
