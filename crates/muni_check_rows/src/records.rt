//! The records of a text.

ghost use Rattle.std.specs.Prelude.{◌≡◌, IfOk, map};
ghost use Rattle.csv.specs.Records.{fields_of};
ghost use Rattle.muni_check_rows.specs.Rows as spec;

use csv::{ByteRecord, ReaderBuilder};
use muni_edge::NoMemory;
use std::alloc::Global;

/// Reads all records of a text. It fails only if memory runs out.
pub fn read_records(alloc: Global, text: &[u8]) -> Result<Vec<ByteRecord>, NoMemory>
    ensures { IfOk result (λ records. map fields_of records.items ≡ spec.records_of text.now) }
{
    let reader = ReaderBuilder::new()
        .has_headers(false)
        .flexible(true)
        .from_reader(alloc, text);
    let mut rows = Vec::new(alloc);
    for row in reader.into_byte_records() {
        match row {
            Ok(row) => {
                if rows.push(row).is_err() {
                    return Err(NoMemory);
                }
            }
            Err(_) => return Err(NoMemory),
        }
    }
    Ok(rows)
}
