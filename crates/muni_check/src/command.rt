//! The command over rows of figures of any number.

ghost use Rattle.std.specs.Prelude.{◌≡◌, ◌<◌, ◌^◌, [], None, Some, IfOk, IfSome, IsErrOf};
ghost use Rattle.muni_edge.specs.Faults.{Rose};
ghost use Rattle.muni_keep.specs.Cabinet.{LeavesAll};
ghost use Rattle.muni_keep.specs.Keeper.{SameKeeper};
ghost use Rattle.muni_keep.specs.Tables.{no_tables};
ghost use Rattle.muni_desk_io.specs.Reports.{ReportsReads, ReportsWrites};
ghost use Rattle.muni_check.specs.Checked.{TakesSome, WroteChecked};
ghost use Rattle.muni_check.specs.Ends.{BeginsEnd, BeginsInputEnd, EndsInput, EndsRows, RefusesNames, WritesEnd, WritesMissing, WritesTotal};
ghost use Rattle.muni_check.specs.Judging.{over};
ghost use Rattle.muni_check_rows.specs.Tallies.{IsSmall};

use crate::blocks::Blocks;
use crate::judging::Judge;
use crate::rows::{BlockDone, Progress, SoFar, do_block};
use crate::unseen::write_unseen;
use muni_book::Calculator;
use muni_check_rows::{CheckSaid, Tally, add_line, total_line};
use muni_desk_io::{Fault, write};
use muni_edge::{Gate, Sink, Source};
use muni_import::RowFault;
use muni_keep::{Cabinet, Keeper, MemKeeper};
use muni_msg::DeskName;
use muni_multi::Encloser;
use std::alloc::Global;
use std::thread::Threads;

/// How a check ends.
#[derive(Clone, Copy, Debug, PartialEq, Eq)]
pub enum CheckEnd {
    /// Every row is right, and no trade is missing.
    AllRight,
    /// A row is not right, or a trade is missing.
    NotAllRight,
    /// The first line does not name the columns, and nothing was read after it.
    BadNames,
}

/// Writes a line on each row of an input of any length, then one on each live trade of the desk for which no row came,
/// if a desk is given, and at last the total.
///
/// The first line names the columns. The store is fetched first. A piece of the input is read at a time, and the lines
/// of its rows are written before the next one. If the input, the output or the store fails, or no memory is left, the
/// lines before it stay written. Rows whose places do not fit in 64 bits are too many. No table changes.
pub fn check<R: Threads + Sync, I: Source, O: Sink, C: Cabinet, E: Encloser + Sync, G: Gate + Sync>(
    calculator: &Calculator<'_, R, E, G>,
    alloc: Global,
    store: &[u8],
    desk: &Option<DeskName>,
    input: &mut I,
    output: &mut O,
    cabinet: &mut C,
) -> Result<CheckEnd, Fault>
    requires { C.out cabinet.old ≡ None }
    // promise 6, 9: each row has its line, then each live trade without a row, then the total, and how it ends
    ensures written { IfSome (I.left input.old) (λ text. WroteChecked
        (over (E.ends calculator.now.encloser.now) desk.now (C.told cabinet.old store.now))
        text result (I.left input.new) (O.bytes output.old) (O.bytes output.new)) }
    // promise 10: of the input first bytes are read, without a limit
    ensures takes { TakesSome I.Source input.old input.new }
    ensures reads { ReportsReads I.Source result input.old input.new }
    ensures writes { ReportsWrites O.Sink result output.old output.new }
    ensures read_failed { IsErrOf result Fault.Read → Rose (I.faults input.old) (I.faults input.new) }
    ensures write_failed { IsErrOf result Fault.Write → Rose (O.faults output.old) (O.faults output.new) }
    ensures store_failed { IsErrOf result Fault.Store → Rose (C.faults cabinet.old) (C.faults cabinet.new) }
    // promise 7: no tables change
    ensures leaves { LeavesAll C.Cabinet cabinet.old cabinet.new }
{
    let mut keeper = cabinet.fetch(store)?;
    let done = check_over(calculator, alloc, desk, &mut keeper, input, output);
    cabinet.give_back(keeper);
    done
}

/// The same without a store: nothing is kept, and the rows state the terms of their issues.
pub fn check_alone<R: Threads + Sync, I: Source, O: Sink, E: Encloser + Sync, G: Gate + Sync>(
    calculator: &Calculator<'_, R, E, G>,
    alloc: Global,
    input: &mut I,
    output: &mut O,
) -> Result<CheckEnd, Fault>
    // promise 6, 9: the same without a store
    ensures written { IfSome (I.left input.old) (λ text. WroteChecked
        (over (E.ends calculator.now.encloser.now) None (Some no_tables))
        text result (I.left input.new) (O.bytes output.old) (O.bytes output.new)) }
    // promise 10: of the input first bytes are read, without a limit
    ensures takes { TakesSome I.Source input.old input.new }
    ensures reads { ReportsReads I.Source result input.old input.new }
    ensures writes { ReportsWrites O.Sink result output.old output.new }
    ensures read_failed { IsErrOf result Fault.Read → Rose (I.faults input.old) (I.faults input.new) }
    ensures write_failed { IsErrOf result Fault.Write → Rose (O.faults output.old) (O.faults output.new) }
    // promise 9: it never ends by a failed store
    ensures not_store { ¬ (IsErrOf result Fault.Store) }
{
    let mut nothing = MemKeeper::new(alloc, &[])?;
    match check_over(calculator, alloc, &None, &mut nothing, input, output) {
        Ok(end) => Ok(end),
        // A keeper in memory fails only if no memory is left.
        Err(Fault::Store) => Err(Fault::NoMemory),
        Err(fault) => Err(fault),
    }
}

// The rows of an input over a keeper.
fn check_over<R: Threads + Sync, K: Keeper, I: Source, O: Sink, E: Encloser + Sync, G: Gate + Sync>(
    calculator: &Calculator<'_, R, E, G>,
    alloc: Global,
    desk: &Option<DeskName>,
    keeper: &mut K,
    input: &mut I,
    output: &mut O,
) -> Result<CheckEnd, Fault>
    ensures written { IfSome (I.left input.old) (λ text. WroteChecked
        (over (E.ends calculator.now.encloser.now) desk.now (K.tables keeper.old))
        text result (I.left input.new) (O.bytes output.old) (O.bytes output.new)) }
    ensures takes { TakesSome I.Source input.old input.new }
    ensures reads { ReportsReads I.Source result input.old input.new }
    ensures writes { ReportsWrites O.Sink result output.old output.new }
    ensures read_failed { IsErrOf result Fault.Read → Rose (I.faults input.old) (I.faults input.new) }
    ensures write_failed { IsErrOf result Fault.Write → Rose (O.faults output.old) (O.faults output.new) }
    ensures same { SameKeeper K.Keeper Fault.Store result keeper.old keeper.new }
    ensures unchanged { K.tables keeper.new ≡ K.tables keeper.old }
{
    let mut judge = Judge::new(calculator, alloc, desk);
    let mut so_far = SoFar::new(alloc);
    let mut blocks = Blocks::new(alloc);
    'pieces: for _ in 0..u64::MAX {
        let block = blocks.next(alloc, input)?;
        match do_block(&mut judge, &block, &mut so_far, keeper)? {
            BlockDone::Lines(lines) => write(&lines, output)?,
            BlockDone::BadNames(fault) => return refuse_names(alloc, fault, output),
        }
        if blocks.ended {
            return finish(alloc, desk, &so_far, keeper, output);
        }
    }
    // Blocks without an end are more than any memory holds.
    Err(Fault::NoMemory)
}

// The line of names that are no columns.
fn refuse_names<O: Sink>(alloc: Global, fault: RowFault, output: &mut O) -> Result<CheckEnd, Fault>
    ensures written { WritesEnd (RefusesNames fault) (λ text. text ≡ []) result (O.bytes output.old) (O.bytes output.new) }
    ensures not_store { ¬ (IsErrOf result Fault.Store) }
    ensures writes { ReportsWrites O.Sink result output.old output.new }
    ensures write_failed { IsErrOf result Fault.Write → Rose (O.faults output.old) (O.faults output.new) }
{
    let mut line = Vec::new(alloc);
    add_line(&mut line, 0, &CheckSaid::Bad(fault))?;
    write(&line, output)?;
    Ok(CheckEnd::BadNames)
}

// The lines after those of the rows.
fn finish<K: Keeper, O: Sink>(
    alloc: Global,
    desk: &Option<DeskName>,
    so_far: &SoFar,
    keeper: &mut K,
    output: &mut O,
) -> Result<CheckEnd, Fault>
    requires { IsSmall so_far.now.progress.tally }
    ensures written { WritesEnd (EndsInput desk.now (K.tables keeper.old) so_far.now.columns so_far.now.progress)
        (BeginsInputEnd desk.now (K.tables keeper.old) so_far.now.columns so_far.now.progress)
        result (O.bytes output.old) (O.bytes output.new) }
    ensures writes { ReportsWrites O.Sink result output.old output.new }
    ensures write_failed { IsErrOf result Fault.Write → Rose (O.faults output.old) (O.faults output.new) }
    ensures same { SameKeeper K.Keeper Fault.Store result keeper.old keeper.new }
    ensures unchanged { K.tables keeper.new ≡ K.tables keeper.old }
{
    match &so_far.columns {
        Some(_) => finish_rows(alloc, desk, &so_far.progress, keeper, output),
        None => refuse_names(alloc, RowFault::FieldCount, output),
    }
}

// The lines of trades for which no row came, and the total.
fn finish_rows<K: Keeper, O: Sink>(
    alloc: Global,
    desk: &Option<DeskName>,
    progress: &Progress,
    keeper: &mut K,
    output: &mut O,
) -> Result<CheckEnd, Fault>
    requires { IsSmall progress.now.tally }
    ensures written { WritesEnd (EndsRows desk.now (K.tables keeper.old) progress.now)
        (BeginsEnd desk.now (K.tables keeper.old) progress.now)
        result (O.bytes output.old) (O.bytes output.new) }
    ensures writes { ReportsWrites O.Sink result output.old output.new }
    ensures write_failed { IsErrOf result Fault.Write → Rose (O.faults output.old) (O.faults output.new) }
    ensures same { SameKeeper K.Keeper Fault.Store result keeper.old keeper.new }
    ensures unchanged { K.tables keeper.new ≡ K.tables keeper.old }
{
    let missing = write_missing(alloc, desk, progress, keeper, output)?;
    write_total(&progress.tally.with_missing(missing), output)
}

// The lines of the live trades of a desk for which no row came, if there is a desk. Returns how many they are.
fn write_missing<K: Keeper, O: Sink>(
    alloc: Global,
    desk: &Option<DeskName>,
    progress: &Progress,
    keeper: &mut K,
    output: &mut O,
) -> Result<u128, Fault>
    ensures written { WritesMissing desk.now (K.tables keeper.old) progress.now result (O.bytes output.old) (O.bytes output.new) }
    ensures few { IfOk result (λ count. count < 2 ^ 70) }
    ensures writes { ReportsWrites O.Sink result output.old output.new }
    ensures write_failed { IsErrOf result Fault.Write → Rose (O.faults output.old) (O.faults output.new) }
    ensures same { SameKeeper K.Keeper Fault.Store result keeper.old keeper.new }
    ensures unchanged { K.tables keeper.new ≡ K.tables keeper.old }
{
    match desk {
        Some(desk) => write_unseen(alloc, keeper, desk, &progress.named, output),
        None => Ok(0),
    }
}

// The line of the total, and how the check ends.
fn write_total<O: Sink>(tally: &Tally, output: &mut O) -> Result<CheckEnd, Fault>
    ensures written { WritesTotal tally.now result (O.bytes output.old) (O.bytes output.new) }
    ensures writes { ReportsWrites O.Sink result output.old output.new }
    ensures write_failed { IsErrOf result Fault.Write → Rose (O.faults output.old) (O.faults output.new) }
{
    write(&total_line(tally), output)?;
    if tally.are_all_right() {
        Ok(CheckEnd::AllRight)
    } else {
        Ok(CheckEnd::NotAllRight)
    }
}
