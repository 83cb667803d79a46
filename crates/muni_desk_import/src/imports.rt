//! The import of a CSV text into a store.

ghost use Rattle.std.specs.Prelude.{◌≡◌, None, IfSome};
ghost use Rattle.muni_book.specs.Rules.{book_rules};
ghost use Rattle.muni_keep.specs.Cabinet.{LeavesOthers};
ghost use Rattle.muni_desk_io.specs.Input.{TakesUpTo};
ghost use Rattle.muni_desk_io.specs.Lent.{lent};
ghost use Rattle.muni_desk_io.specs.Reports.{ReportsReads, ReportsWrites};
ghost use Rattle.muni_desk_import.specs.Imported.{Imported};
ghost use Rattle.muni_desk_import.specs.Reported.{Reported};

use crate::rows::import_rows;
use muni_book::Book;
use muni_desk_io::{Fault, read_input};
use muni_edge::{Gate, Sink, Source};
use muni_keep::Cabinet;
use muni_multi::Encloser;
use std::alloc::Global;
use std::thread::Threads;

/// The greatest number of bytes of an import.
pub const LIMIT: usize = 4_194_304;

/// Applies each row of a CSV text to the tables of a store, and writes a line of report on each.
///
/// The input is read whole before the store is fetched. Where the store fails at a row, or no memory
/// is left, the rows before it stay applied and their lines written. Where the output fails, its row
/// stays applied too.
pub fn import<
    R: Threads + Sync,
    I: Source,
    O: Sink,
    C: Cabinet,
    E: Encloser + Sync,
    G: Gate + Sync,
>(
    book: &Book<'_, R, E, G>,
    alloc: Global,
    store: &[u8],
    input: &mut I,
    output: &mut O,
    cabinet: &mut C,
) -> Result<(), Fault>
    requires none_out { C.out cabinet.old ≡ None }
    // promise 5, 9: the first rows are done and no others, each once and in order, with their lines, and how it ends
    ensures imported { Imported I.Source O.Sink C.Cabinet (book_rules book.now.limit (E.ends book.now.calculator.now.encloser.now)) store.now result
        (lent input.old output.old cabinet.old) (lent input.new output.new cabinet.new) }
    // promise 5: how many lines a report has, their order, and those of bad rows, whatever the store exposes
    ensures reported { IfSome (I.left input.old) (λ text. Reported text result (O.bytes output.old) (O.bytes output.new)) }
    // promise 10: at most 4,194,304 bytes of the input and one are read
    ensures takes { TakesUpTo I.Source 4_194_305 input.old input.new }
    // promise 9: a failed read is what it ends by
    ensures reads { ReportsReads I.Source result input.old input.new }
    // promise 9: a failed write is what it ends by
    ensures writes { ReportsWrites O.Sink result output.old output.new }
    // promise 7: no other tables change
    ensures leaves { LeavesOthers C.Cabinet store.now cabinet.old cabinet.new }
{
    let text = read_input(alloc, input, LIMIT)?;
    let mut keeper = cabinet.fetch(store)?;
    let done = import_rows(book, alloc, &text, &mut keeper, output);
    cabinet.give_back(keeper);
    done
}
