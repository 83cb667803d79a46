//! For callers outside; the program goes by `RowReader`.

ghost use Rattle.std.specs.Prelude.{◌≡◌, IfOk};
ghost use Rattle.muni_import.specs.Rows.{rows_of};

use crate::reader::RowReader;
use crate::row::Row;
use muni_edge::NoMemory;
use std::alloc::Global;

/// Reads all rows of a text: the command of each, or why it is none. Running out of memory is the
/// only refusal.
pub fn read_rows(alloc: Global, text: &[u8]) -> Result<Vec<Row>, NoMemory>
    // promise 5: the rows of a text of CSV
    ensures { IfOk result (λ rows. rows.items ≡ rows_of text.now) }
{
    let mut rows = Vec::new(alloc);
    let mut reader = RowReader::new(alloc, text);
    for count in 0..text.len() + 1 {
        // Proofs alone read the count.
        let _count = count;
        let Some(row) = reader.next_row()? else {
            return Ok(rows);
        };
        if rows.push(row).is_err() {
            return Err(NoMemory);
        }
    }
    // Each row takes a byte at least, so the text is at its end before the count is.
    unreachable!()
}
