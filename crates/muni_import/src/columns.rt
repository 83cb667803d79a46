//! The fields of a row by their columns, which are counted from 1.

ghost use Rattle.std.specs.Prelude.{◌≡◌, ◌≤◌};
ghost use Rattle.csv.specs.Records.{fields_of};
ghost use Rattle.muni_import.specs.Row as spec;

use crate::RowFault;
use csv::ByteRecord;

/// The field of a column. After the last one each is empty.
pub fn field(row: &ByteRecord, column: u32) -> &[u8]
    requires { 1 ≤ column }
    ensures { result.now ≡ spec.field column (fields_of row.now) }
{
    match row.get(column as usize - 1) {
        Some(field) => field,
        None => b"",
    }
}

/// What a column reads as, or that it does not read.
pub fn in_column<T>(column: u32, reading: Option<T>) -> Result<T, RowFault>
    ensures { result ≡ spec.in_column column reading }
{
    reading.ok_or(RowFault::BadField { column })
}
