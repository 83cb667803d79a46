//! The load of a CSV text of any length into a store.

ghost use Rattle.std.specs.Prelude.{◌≡◌, ◌<◌, None, length, IfSome};
ghost use Rattle.muni_book.specs.Rules.{book_rules};
ghost use Rattle.muni_keep.specs.Cabinet.{LeavesOthers};
ghost use Rattle.muni_keep.specs.Keeper.{SameKeeper};
ghost use Rattle.muni_desk_io.specs.Lent.{lent};
ghost use Rattle.muni_desk_io.specs.Reports.{ReportsReads, ReportsWrites};
ghost use Rattle.muni_desk_import.specs.Loaded.{Loaded, LoadedRows, LoadReported, TakesPiece, TakesSome};

use crate::rows::rows_after;
use muni_book::Book;
use muni_desk_io::Fault;
use muni_edge::{Failed, Gate, Sink, Source};
use muni_import::RowBlocks;
use muni_keep::{Cabinet, Keeper};
use muni_multi::Encloser;
use std::alloc::Global;
use std::thread::Threads;

/// Applies each row of a CSV text of any length to the tables of a store, and writes a line of report
/// on each, as an import does.
///
/// The store is fetched first. A piece of the input is read at a time, and its rows are done before the
/// next one. Where the input, the output or the store fails, or no memory is left, the rows before it
/// stay applied and their lines written. A text with more than 4,294,967,295 rows is too large: those are
/// done, and no more.
pub fn load<R: Threads + Sync, I: Source, O: Sink, C: Cabinet, E: Encloser + Sync, G: Gate + Sync>(
    book: &Book<'_, R, E, G>,
    alloc: Global,
    store: &[u8],
    input: &mut I,
    output: &mut O,
    cabinet: &mut C,
) -> Result<(), Fault>
    requires none_out { C.out cabinet.old ≡ None }
    // promise 5, 9: the first rows are done and no others, each once and in order, with their lines, and how it ends
    ensures loaded { Loaded I.Source O.Sink C.Cabinet (book_rules book.now.limit (E.ends book.now.calculator.now.encloser.now)) store.now result
        (lent input.old output.old cabinet.old) (lent input.new output.new cabinet.new) }
    // promise 5: how many lines a report has, their order, and those of bad rows, whatever the store exposes
    ensures reported { IfSome (I.left input.old) (λ text. LoadReported text result (O.bytes output.old) (O.bytes output.new)) }
    // promise 10: of the input first bytes are read, without a limit
    ensures takes { TakesSome I.Source input.old input.new }
    // promise 9: a failed read is what it ends by
    ensures reads { ReportsReads I.Source result input.old input.new }
    // promise 9: a failed write is what it ends by
    ensures writes { ReportsWrites O.Sink result output.old output.new }
    // promise 7: no other tables change
    ensures leaves { LeavesOthers C.Cabinet store.now cabinet.old cabinet.new }
{
    let mut keeper = cabinet.fetch(store)?;
    let done = load_rows(book, alloc, input, &mut keeper, output);
    cabinet.give_back(keeper);
    done
}

// The rows of an input over a keeper.
fn load_rows<R: Threads + Sync, I: Source, K: Keeper, O: Sink, E: Encloser + Sync, G: Gate + Sync>(
    book: &Book<'_, R, E, G>,
    alloc: Global,
    input: &mut I,
    keeper: &mut K,
    output: &mut O,
) -> Result<(), Fault>
    ensures loaded { LoadedRows I.Source K.Keeper O.Sink (book_rules book.now.limit (E.ends book.now.calculator.now.encloser.now)) result
        input.old input.new keeper.old keeper.new output.old output.new }
    ensures reported { IfSome (I.left input.old) (λ text. LoadReported text result (O.bytes output.old) (O.bytes output.new)) }
    ensures same { SameKeeper K.Keeper Fault.Store result keeper.old keeper.new }
    ensures takes { TakesSome I.Source input.old input.new }
    ensures reads { ReportsReads I.Source result input.old input.new }
    ensures writes { ReportsWrites O.Sink result output.old output.new }
{
    let mut blocks = RowBlocks::new(alloc);
    let mut room = [0u8; 16_384];
    let mut done = 0;
    'pieces: for _ in 0..u64::MAX {
        let count = take_piece(input, &mut room)?;
        if count == 0 {
            rows_after(book, alloc, &blocks.rest(), done, keeper, output)?;
            return Ok(());
        }
        let block = blocks.add(&room[..count])?;
        done = rows_after(book, alloc, &block, done, keeper, output)?;
    }
    // Pieces without an end are more than any memory holds.
    Err(Fault::NoMemory)
}

// The next bytes of an input, at the front of the room.
fn take_piece<I: Source>(input: &mut I, room: &mut [u8]) -> Result<usize, Fault>
    requires { 0 < length room.old }
    ensures { TakesPiece I.Source room.new result input.old input.new }
{
    match input.take(room) {
        Ok(count) => Ok(count),
        Err(Failed) => Err(Fault::Read),
    }
}
