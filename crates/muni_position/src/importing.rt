//! The import of a CSV text into a store, with the positions of a desk after its report.

ghost use Rattle.std.specs.Prelude.{◌≡◌, ◌≤◌, None, length, IfSome};
ghost use Rattle.muni_book.specs.Rules.{book_rules};
ghost use Rattle.muni_edge.specs.Faults.{Rose};
ghost use Rattle.muni_keep.specs.Cabinet.{LeavesOthers};
ghost use Rattle.muni_desk_io.specs.Input.{TakesUpTo};
ghost use Rattle.muni_desk_io.specs.Lent.{lent};
ghost use Rattle.muni_desk_io.specs.Reports.{ReportsReads, ReportsWrites};
ghost use Rattle.muni_position.specs.Holdings.{HasTooMany};
ghost use Rattle.muni_position.specs.Imported.{AppliedWith, DoesNoneOfTooMany, ImportedWith};
ghost use Rattle.muni_position.specs.Listed.{Listed};

use crate::following::follow;
use crate::listing::lines_of;
use crate::positioned::{Positioned, over};
use muni_book::Book;
use muni_desk_import::{LIMIT, import_rows};
use muni_desk_io::{Fault, read_input, write};
use muni_edge::{Gate, Sink, Source};
use muni_keep::{Cabinet, Keeper};
use muni_msg::DeskName;
use muni_multi::Encloser;
use std::alloc::Global;
use std::thread::Threads;

/// Applies each row of a CSV text to the tables of a store and writes a line of report on each, as an
/// import does, and after them what a desk then holds, a line for each CUSIP.
///
/// A desk with more than 100,000,000 trades is answered as a fault of the store, before the first row.
pub fn import_with_positions<
    R: Threads + Sync,
    I: Source,
    O: Sink,
    C: Cabinet,
    E: Encloser + Sync,
    G: Gate + Sync,
>(
    book: &Book<'_, R, E, G>,
    alloc: Global,
    store: &[u8],
    desk: &DeskName,
    input: &mut I,
    output: &mut O,
    cabinet: &mut C,
) -> Result<(), Fault>
    requires none_out { C.out cabinet.old ≡ None }
    // promise 5, 9: after the report of an import the positions of a desk follow, and how it ends
    ensures imported { ImportedWith I.Source O.Sink C.Cabinet (book_rules book.now.limit (E.ends book.now.calculator.now.encloser.now)) store.now desk.now result
        (lent input.old output.old cabinet.old) (lent input.new output.new cabinet.new) }
    // promise 9: with more than 100,000,000 trades of the desk no row is done and nothing is written
    ensures too_many { DoesNoneOfTooMany C.Cabinet store.now desk.now
        (lent input.old output.old cabinet.old) (lent input.new output.new cabinet.new) }
    ensures takes { TakesUpTo I.Source 4_194_305 input.old input.new }
    ensures reads { ReportsReads I.Source result input.old input.new }
    ensures writes { ReportsWrites O.Sink result output.old output.new }
    ensures leaves { LeavesOthers C.Cabinet store.now cabinet.old cabinet.new }
{
    let text = read_input(alloc, input, LIMIT)?;
    let keeper = cabinet.fetch(store)?;
    let (done, keeper) = import_and_list(book, alloc, &text, desk, keeper, output);
    cabinet.give_back(keeper);
    done
}

// The rows of a text over a keeper whose desk is watched before the first, and its positions after the
// report on the last.
fn import_and_list<R: Threads + Sync, K: Keeper, O: Sink, E: Encloser + Sync, G: Gate + Sync>(
    book: &Book<'_, R, E, G>,
    alloc: Global,
    text: &[u8],
    desk: &DeskName,
    keeper: K,
    output: &mut O,
) -> (Result<(), Fault>, K)
    requires text { length text.now ≤ 4_194_304 }
    requires faults { K.faults keeper ≡ 0 }
    ensures applied { AppliedWith K.Keeper O.Sink (book_rules book.now.limit (E.ends book.now.calculator.now.encloser.now)) desk.now text.now result.0
        keeper result.1 output.old output.new }
    ensures too_many { IfSome (K.tables keeper) (λ t. HasTooMany desk.now t
        → (K.tables result.1 ≡ K.tables keeper) × (output.new ≡ output.old)) }
    ensures writes { ReportsWrites O.Sink result.0 output.old output.new }
    ensures lent_as { K.lent_as result.1 ≡ K.lent_as keeper }
{
    // Proofs alone read the limit.
    let _limit = book.limit.trades();
    let mut positioned = over(alloc, keeper);
    if let Err(fault) = positioned.watch(desk) {
        return (Err(Fault::from(fault)), positioned.back());
    }
    let mut following = follow(positioned);
    let done = import_rows(book, alloc, text, &mut following, output);
    let mut positioned = following.back();
    match done {
        Ok(()) => {
            let listed = list(alloc, desk, &mut positioned, output);
            (listed, positioned.back())
        }
        Err(fault) => (Err(fault), positioned.back()),
    }
}

// The positions of a desk, which is watched anew where its watch was lost.
fn list<K: Keeper, O: Sink>(
    alloc: Global,
    desk: &DeskName,
    keeper: &mut Positioned<K>,
    output: &mut O,
) -> Result<(), Fault>
    requires { keeper.old.faults ≡ 0 }
    ensures listed { Listed O.Sink desk.now (K.tables keeper.old.inner)
        (Rose (K.faults keeper.old.inner) (K.faults keeper.new.inner)) result output.old output.new }
    ensures writes { ReportsWrites O.Sink result output.old output.new }
    ensures unchanged { K.tables keeper.new.inner ≡ K.tables keeper.old.inner }
    ensures lent_as { K.lent_as keeper.new.inner ≡ K.lent_as keeper.old.inner }
{
    let lines = lines_of(alloc, keeper, desk)?;
    write(lines.as_slice(), output)
}
