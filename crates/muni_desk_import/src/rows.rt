//! The rows of a text, done one after another.

ghost use Rattle.std.specs.Prelude.{◌≡◌, ◌≤◌, ◌+◌, length, IfOk, IfSome, IsOkUnless, OnErr};
ghost use Rattle.muni_book.specs.Rules.{book_rules};
ghost use Rattle.muni_import.specs.Report.{row_line};
ghost use Rattle.muni_import.specs.Rows.{rows_of};
ghost use Rattle.muni_keep.specs.Keeper.{SameKeeper};
ghost use Rattle.muni_desk_io.specs.Output.{Writes};
ghost use Rattle.muni_desk_io.specs.Reports.{ReportsWrites};
ghost use Rattle.muni_desk_import.specs.Blocks.{AppliedAfter};
ghost use Rattle.muni_desk_import.specs.Import.{Came};
ghost use Rattle.muni_desk_import.specs.Imported.{Applied};
ghost use Rattle.muni_desk_import.specs.Reported.{IsSaidOf, Reported};

use arrayvec::ArrayVec;
use muni_book::{Book, BookFault, step};
use muni_desk_io::{Fault, write};
use muni_edge::{Gate, Sink};
use muni_import::{Row, RowOutcome, RowReader, report_row};
use muni_keep::Keeper;
use muni_multi::Encloser;
use std::alloc::Global;
use std::thread::Threads;

/// Applies the rows of a text one after another, and writes the line of each once it is applied.
pub fn import_rows<R: Threads + Sync, K: Keeper, O: Sink, E: Encloser + Sync, G: Gate + Sync>(
    book: &Book<'_, R, E, G>,
    alloc: Global,
    text: &[u8],
    keeper: &mut K,
    output: &mut O,
) -> Result<(), Fault>
    requires { length text.now ≤ 4_194_304 }
    ensures applied { Applied K.Keeper O.Sink (book_rules book.now.limit (E.ends book.now.calculator.now.encloser.now)) text.now result
        keeper.old keeper.new output.old output.new }
    ensures same { SameKeeper K.Keeper Fault.Store result keeper.old keeper.new }
    ensures reported { Reported text.now result (O.bytes output.old) (O.bytes output.new) }
    ensures writes { ReportsWrites O.Sink result output.old output.new }
    ensures puts_later { O.faults output.old ≤ O.faults output.new }
{
    rows_after(book, alloc, text, 0, keeper, output)?;
    Ok(())
}

/// The same of a text before which so many rows were done. Returns how many are done with its own.
///
/// A row has no place after 4,294,967,295 others.
pub(crate) fn rows_after<R: Threads + Sync, K: Keeper, O: Sink, E: Encloser + Sync, G: Gate + Sync>(
    book: &Book<'_, R, E, G>,
    alloc: Global,
    text: &[u8],
    before: u32,
    keeper: &mut K,
    output: &mut O,
) -> Result<u32, Fault>
    ensures applied { AppliedAfter K.Keeper O.Sink (book_rules book.now.limit (E.ends book.now.calculator.now.encloser.now)) before (rows_of text.now) result
        keeper.old keeper.new output.old output.new }
    ensures same { SameKeeper K.Keeper Fault.Store result keeper.old keeper.new }
    ensures writes { ReportsWrites O.Sink result output.old output.new }
    ensures puts_later { O.faults output.old ≤ O.faults output.new }
{
    let mut rows = RowReader::new(alloc, text);
    let mut done = before;
    for count in 0..text.len() + 1 {
        // Proofs alone read the count.
        let _count = count;
        let row = match rows.next_row()? {
            Some(row) => row,
            None => return Ok(done),
        };
        let place = next_place(done)?;
        let said = said_of(book, keeper, row)?;
        write_line(place, &said, output)?;
        done = place;
    }
    // Each row takes a byte at least, so the text is at its end before the count is.
    unreachable!()
}

// The place after another.
fn next_place(place: u32) -> Result<u32, Fault>
    ensures next { IfOk result (λ next. next ≡ place + 1) }
    ensures last { OnErr result (place ≡ 4_294_967_295) }
    ensures only { IsOkUnless result Fault.TooLarge }
{
    match place.checked_add(1) {
        Some(next) => Ok(next),
        None => Err(Fault::TooLarge),
    }
}

// What comes of a row: the reply to its command, or its fault.
fn said_of<R: Threads + Sync, K: Keeper, E: Encloser + Sync, G: Gate + Sync>(
    book: &Book<'_, R, E, G>,
    keeper: &mut K,
    row: Row,
) -> Result<RowOutcome, BookFault>
    ensures came { IfOk result (λ said. IfSome (K.tables keeper.old) (λ t.
        Came (book_rules book.now.limit (E.ends book.now.calculator.now.encloser.now)) t row said (K.tables keeper.new))) }
    ensures said { IfOk result (λ said. IsSaidOf row said) }
    ensures unchanged { OnErr result (K.tables keeper.new ≡ K.tables keeper.old) }
    ensures same { SameKeeper K.Keeper BookFault.Failed result keeper.old keeper.new }
{
    match row {
        Ok(command) => Ok(Ok(step(book, keeper, &command)?)),
        Err(fault) => Ok(Err(fault)),
    }
}

fn write_line<O: Sink>(place: u32, said: &RowOutcome, output: &mut O) -> Result<(), Fault>
    ensures { Writes O.Sink Fault.Write result (row_line place said.now) output.old output.new }
{
    let mut line = ArrayVec::new();
    report_row(place, said, &mut line);
    write(line.as_slice(), output)
}
