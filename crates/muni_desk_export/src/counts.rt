//! How many rows a store keeps, a line for each part as soon as it is read.

ghost use Rattle.std.specs.Prelude.{◌≡◌, ◌+◌, [], ◌∷◌, codes, decimal, IfOk, IfSome, IsOkUnless, None, option_map};
ghost use Rattle.muni_dec.specs.Line.{line};
ghost use Rattle.muni_desk_export.specs.Counts as spec;
ghost use Rattle.muni_desk_export.specs.Looks.{LooksOver};
ghost use Rattle.muni_desk_export.specs.Pieces.{IsNext};
ghost use Rattle.muni_desk_export.specs.Walk.{left};
ghost use Rattle.muni_desk_export.specs.Walked.{Walks};

use crate::trades::Style;
use crate::walk::Walk;
use arrayvec::ArrayVec;
use muni_dec::text::{push, push_number, push_number_line, push_part};
use muni_desk_io::{Fault, write};
use muni_edge::Sink;
use muni_keep::{KeepFault, Keeper};
use muni_msg::DeskName;
use std::alloc::Global;

/// Writes how many terms of issues and how many versions of each desk there are, and at the end that all
/// could be read.
pub(crate) fn write_counts<K: Keeper, O: Sink>(
    alloc: Global,
    keeper: &mut K,
    output: &mut O,
) -> Result<(), Fault>
    ensures { Walks K.Keeper O.Sink spec.counts_text result keeper.old keeper.new output.old output.new }
{
    write_issues_line(alloc, keeper, output)?;
    write_desk_lines(alloc, keeper, output)?;
    write(b"SOUND\n", output)
}

fn write_issues_line<K: Keeper, O: Sink>(
    alloc: Global,
    keeper: &mut K,
    output: &mut O,
) -> Result<(), Fault>
    ensures { Walks K.Keeper O.Sink spec.issues_line result keeper.old keeper.new output.old output.new }
{
    let count = count_rows(alloc, keeper, &mut Walk::issues(None))?;
    write(issues_line(count).as_slice(), output)
}

fn issues_line(count: u64) -> ArrayVec<u8, 64>
    ensures { result.items ≡ line (codes "ISSUES" ∷ decimal count ∷ []) }
{
    let mut line = ArrayVec::new();
    push_number_line(&mut line, b"ISSUES", count);
    line
}

// The lines of all desks, each before the next desk is read.
fn write_desk_lines<K: Keeper, O: Sink>(
    alloc: Global,
    keeper: &mut K,
    output: &mut O,
) -> Result<(), Fault>
    ensures { Walks K.Keeper O.Sink (λ t. spec.desk_lines_after t None) result
        keeper.old keeper.new output.old output.new }
{
    let mut desk = None;
    'desks: for _ in 0..u64::MAX {
        match next_desk_line(alloc, keeper, &mut desk)? {
            Some(line) => write(line.as_slice(), output)?,
            None => return Ok(()),
        }
    }
    // Desks without an end are more than any memory holds.
    Err(Fault::NoMemory)
}

// The line of the next desk after one, and a step to it. `None` after the last.
fn next_desk_line<K: Keeper>(
    alloc: Global,
    keeper: &mut K,
    desk: &mut Option<DeskName>,
) -> Result<Option<ArrayVec<u8, 64>>, KeepFault>
    ensures next { IfOk result (λ piece. IfSome (K.tables keeper.old) (λ t.
        IsNext (spec.desk_lines_after t desk.old) (option_map (λ line. line.items) piece)
        (spec.desk_lines_after t desk.new))) }
    ensures looks { LooksOver K.Keeper result keeper.old keeper.new }
{
    let Some(next) = keeper.desk_past(desk)? else {
        return Ok(None);
    };
    let count = count_rows(alloc, keeper, &mut Walk::trades(&next, Style::Rows))?;
    let line = desk_line(&next, count);
    *desk = Some(next);
    Ok(Some(line))
}

fn desk_line(desk: &DeskName, count: u64) -> ArrayVec<u8, 64>
    ensures { result.items ≡ line (codes "DESK" ∷ desk.now ∷ decimal count ∷ []) }
{
    let mut line = ArrayVec::new();
    push(&mut line, b"DESK");
    push_part(&mut line, desk.bytes());
    push_number(&mut line, count);
    line.push(b'\n');
    line
}

// How many rows a walk has left.
fn count_rows<K: Keeper>(alloc: Global, keeper: &mut K, walk: &mut Walk) -> Result<u64, KeepFault>
    ensures count { IfOk result (λ count. IfSome (K.tables keeper.old)
        (λ t. count ≡ spec.row_count (left t walk.old))) }
    ensures looks { LooksOver K.Keeper result keeper.old keeper.new }
{
    let mut count = 0u64;
    'pieces: for _ in 0..u64::MAX {
        let Some(text) = walk.next(alloc, keeper)? else {
            return Ok(count);
        };
        count = with_rows(count, &text)?;
    }
    // Pieces without an end are more than any memory holds.
    Err(KeepFault::NoMemory)
}

// A count and the rows of a text. Rows past 64 bits are more than any memory holds.
fn with_rows(count: u64, text: &[u8]) -> Result<u64, KeepFault>
    ensures sum { IfOk result (λ sum. sum ≡ count + spec.row_count text.now) }
    ensures only { IsOkUnless result KeepFault.NoMemory }
{
    count
        .checked_add(row_count(text) as u64)
        .ok_or(KeepFault::NoMemory)
}

fn row_count(text: &[u8]) -> usize
    ensures { result ≡ spec.row_count text.now }
{
    text.iter().filter(|byte| **byte == b'\n').count()
}
