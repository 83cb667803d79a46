//! The rows of a text, read one after another.

ghost use Rattle.std.specs.Prelude.{◌≡◌, false, Some, None, IfOk, IfSome, OnErr};
ghost use Rattle.muni_import.specs.Reader.{rows_left, IsSound};
ghost use Rattle.muni_import.specs.Rows.{rows_of, IsNext};

use crate::row::{Row, read_row};
use csv::{ByteRecord, Reader, ReaderBuilder};
use muni_edge::NoMemory;
use std::alloc::Global;
use std::marker::Model;

/// The rows of a text, read one after another. Only one of them is in memory at a time. A contract
/// sees those that are left.
#[derive(Drop)]
pub struct RowReader<'a> {
    reader: Reader<&'a [u8]>,
    record: ByteRecord,
    ended: bool,
}

impl<'a> Model for RowReader<'a> {
    ghost use Rattle.std.specs.Prelude.{◌≡◌, ◌⊎◌, true, List, Option};
    ghost use Rattle.muni_import.specs.Reader.{rows_left, IsSound};
    ghost use Rattle.muni_import.specs.Row.{Row};

    ghost Value = { Option (List Row) };

    ghost view = { λ r. rows_left r.ended r.reader };

    ghost invariant = { λ r. (r.ended ≡ true) ⊎ IsSound r.reader };
}

// A reader of the records of a text, which would keep copies of the first one. It is given an empty
// header row in its place.
#[tactic(auto, unfolding(crate::specs::Rows::rows_of, crate::specs::Rows::rows_from))]
fn records(alloc: Global, text: &[u8]) -> Reader<&[u8]>
    ensures sound { IsSound result }
    ensures left { rows_left false result ≡ Some (rows_of text.now) }
{
    let mut reader = ReaderBuilder::new()
        .has_headers(true)
        .flexible(true)
        .from_reader(alloc, text);
    match reader.set_byte_headers(ByteRecord::new(alloc)) {
        Ok(()) => reader,
        Err(_) => ReaderBuilder::new()
            .has_headers(false)
            .flexible(true)
            .from_reader(alloc, text),
    }
}

impl<'a> RowReader<'a> {
    /// A reader of the rows of a text.
    pub fn new(alloc: Global, text: &'a [u8]) -> RowReader<'a>
        ensures { result ≡ Some (rows_of text.now) }
    {
        RowReader {
            reader: records(alloc, text),
            record: ByteRecord::new(alloc),
            ended: false,
        }
    }

    /// The next row: its command, or why it is none. `None` where no row is left.
    ///
    /// Out of memory is the only refusal, and no row comes after it.
    pub fn next_row(&mut self) -> Result<Option<Row>, NoMemory>
        // promise 5: the next row of the text
        ensures next { IfOk result (λ row. IfSome self.old (λ left. IsNext left row self.new)) }
        ensures refused { OnErr result (self.new ≡ None) }
    {
        if self.ended {
            return Ok(None);
        }
        let found = match self.reader.read_byte_record(&mut self.record) {
            Ok(found) => found,
            Err(_) => return Err(NoMemory),
        };
        if !found {
            self.ended = true;
            return Ok(None);
        }
        Ok(Some(read_row(&self.record)))
    }
}
