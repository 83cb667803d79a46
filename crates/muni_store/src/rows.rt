//! What is read from the rows that queries find.

use crate::fault::StoreFault;
use muni_store_trees::Columns;
use sqlite::Row;
use sqlite::types::ValueRef;

/// A row of the answer to a query.
#[derive(Clone, Copy)]
struct FoundRow<'a>(&'a Row);

impl<'a> Columns for FoundRow<'a> {
    ghost values = { λ row. row.0.now };

    fn value(&self, at: u8) -> ValueRef<'_> {
        match self.0.get_ref(usize::from(at)) {
            Ok(value) => value,
            Err(_) => ValueRef::Null,
        }
    }
}

/// The number in the first column of a row.
pub(crate) fn number(row: &Row) -> Result<i64, StoreFault> {
    match row.get_ref(0) {
        Ok(ValueRef::Int(number)) => Ok(number),
        _ => Err(StoreFault::Failed),
    }
}

/// Whether a row is that of checked terms of an issue.
pub(crate) fn is_issue(row: &Row) -> bool {
    muni_store_trees::read_issue(&FoundRow(row)).is_some()
}

/// Whether a row is that of a checked version of a trade.
pub(crate) fn is_trade(row: &Row) -> bool {
    muni_store_trees::read_trade(&FoundRow(row)).is_some()
}
