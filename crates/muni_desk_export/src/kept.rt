//! What a store keeps, written to an output.

ghost use Rattle.std.specs.Prelude.{◌≡◌, ◌≤◌, IfOk, None};
ghost use Rattle.muni_edge.specs.Faults.{Rose};
ghost use Rattle.muni_export.specs.List.{list_names};
ghost use Rattle.muni_keep.specs.Cabinet.{LeavesAll};
ghost use Rattle.muni_desk_io.specs.Reports.{ReportsWrites};
ghost use Rattle.muni_desk_export.specs.Kept.{WritesKept};
ghost use Rattle.muni_desk_export.specs.Walk.{left};
ghost use Rattle.muni_desk_export.specs.Walked.{Walks};
ghost use Rattle.muni_desk_export.specs.Wanted.{wanted_text};

use crate::Wanted;
use crate::counts::write_counts;
use crate::named::named_by;
use crate::trades::Style;
use crate::walk::Walk;
use muni_desk_io::{Fault, write};
use muni_edge::{NoMemory, Sink};
use muni_export::RowWriter;
use muni_keep::{Cabinet, Keeper};
use muni_msg::DeskName;
use std::alloc::Global;

/// Writes what is wanted of what a store keeps. No table changes.
///
/// After a fault the output has a first part of the text.
pub fn write_kept<O: Sink, C: Cabinet>(
    alloc: Global,
    store: &[u8],
    wanted: &Wanted,
    output: &mut O,
    cabinet: &mut C,
) -> Result<(), Fault>
    requires { C.out cabinet.old ≡ None }
    // promise 6, 9: an export, a list or all confirmations are the text that the tables call for, and how it ends
    ensures written { WritesKept O.Sink wanted.now (C.told cabinet.old store.now)
        (Rose (C.faults cabinet.old) (C.faults cabinet.new)) result output.old output.new }
    // promise 7: no tables change
    ensures leaves { LeavesAll C.Cabinet cabinet.old cabinet.new }
    // promise 9: a failed write is what it ends by
    ensures writes { ReportsWrites O.Sink result output.old output.new }
    ensures puts_later { O.faults output.old ≤ O.faults output.new }
{
    let mut keeper = cabinet.fetch(store)?;
    let done = write_over(alloc, &mut keeper, wanted, output);
    cabinet.give_back(keeper);
    done
}

fn write_over<K: Keeper, O: Sink>(
    alloc: Global,
    keeper: &mut K,
    wanted: &Wanted,
    output: &mut O,
) -> Result<(), Fault>
    ensures { Walks K.Keeper O.Sink (wanted_text wanted.now) result keeper.old keeper.new output.old output.new }
{
    match wanted {
        Wanted::Everything => write_everything(alloc, keeper, output),
        Wanted::Issues => write_walk(alloc, keeper, &mut Walk::issues(None), output),
        Wanted::Desk(desk) => write_desk(alloc, keeper, desk, output),
        Wanted::List(desk) => write_list(alloc, keeper, desk, output),
        Wanted::Confirmations(desk) => {
            write_walk(
                alloc,
                keeper,
                &mut Walk::trades(desk, Style::Confirmation),
                output,
            )
        }
        Wanted::Counts => write_counts(alloc, keeper, output),
    }
}

fn write_everything<K: Keeper, O: Sink>(
    alloc: Global,
    keeper: &mut K,
    output: &mut O,
) -> Result<(), Fault>
    ensures { Walks K.Keeper O.Sink (wanted_text Wanted.Everything) result
        keeper.old keeper.new output.old output.new }
{
    write_walk(alloc, keeper, &mut Walk::issues(None), output)?;
    write_walk(alloc, keeper, &mut Walk::desks(), output)
}

fn write_desk<K: Keeper, O: Sink>(
    alloc: Global,
    keeper: &mut K,
    desk: &DeskName,
    output: &mut O,
) -> Result<(), Fault>
    ensures { Walks K.Keeper O.Sink (wanted_text (Wanted.Desk desk.now)) result
        keeper.old keeper.new output.old output.new }
{
    let named = named_by(alloc, keeper, desk)?;
    write_walk(alloc, keeper, &mut Walk::issues(Some(named)), output)?;
    write_walk(alloc, keeper, &mut Walk::trades(desk, Style::Rows), output)
}

fn write_list<K: Keeper, O: Sink>(
    alloc: Global,
    keeper: &mut K,
    desk: &DeskName,
    output: &mut O,
) -> Result<(), Fault>
    ensures { Walks K.Keeper O.Sink (wanted_text (Wanted.List desk.now)) result
        keeper.old keeper.new output.old output.new }
{
    let names = list_names(alloc)?;
    write(&names, output)?;
    write_walk(alloc, keeper, &mut Walk::trades(desk, Style::Line), output)
}

// All that a walk has left.
fn write_walk<K: Keeper, O: Sink>(
    alloc: Global,
    keeper: &mut K,
    walk: &mut Walk,
    output: &mut O,
) -> Result<(), Fault>
    ensures { Walks K.Keeper O.Sink (λ t. left t walk.old) result keeper.old keeper.new output.old output.new }
{
    'pieces: for _ in 0..u64::MAX {
        match walk.next(alloc, keeper)? {
            Some(text) => write(&text, output)?,
            None => return Ok(()),
        }
    }
    // Pieces without an end are more than any memory holds.
    Err(Fault::NoMemory)
}

fn list_names(alloc: Global) -> Result<Vec<u8>, NoMemory>
    ensures { IfOk result (λ text. text.items ≡ list_names) }
{
    let mut names = RowWriter::new(alloc);
    names.names()?;
    names.finish()
}
