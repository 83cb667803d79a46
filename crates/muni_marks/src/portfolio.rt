//! The marks of a portfolio over the issues of a store.

ghost use Rattle.std.specs.Prelude.{◌≡◌, ◌≤◌, None, length, IfOk, IfSome, OnOk, IsErrOf};
ghost use Rattle.std.specs.List.{AllByRecursion};
ghost use Rattle.std.specs.BTreeMap as tree;
ghost use Rattle.std.specs.BTreeSet as set;
ghost use Rattle.muni_answer.specs.Answers.{IsRightAnswer};
ghost use Rattle.muni_edge.specs.Faults.{Rose};
ghost use Rattle.muni_keep.specs.Cabinet.{LeavesAll};
ghost use Rattle.muni_keep.specs.Keeper.{OnlyReads};
ghost use Rattle.muni_keep.specs.Trades.{by_bytes};
ghost use Rattle.muni_marks.specs.Line as lines;
ghost use Rattle.muni_marks.specs.Marks as spec;
ghost use Rattle.muni_marks.specs.Portfolio.{AreFetched, AreKnown, HasLineOnEach, IsKnownNext, IsPortfolioText};
ghost use Rattle.muni_marks.specs.Marked.{Marked, MarksReported};
ghost use Rattle.muni_desk_io.specs.Input.{TakesUpTo};
ghost use Rattle.muni_desk_io.specs.Lent.{lent};
ghost use Rattle.muni_desk_io.specs.Reports.{ReportsReads, ReportsWrites};

use crate::line::{mark_line, total, total_line};
use crate::pricing::{MarkSaid, marks};
use crate::reader::read_marks;
use arrayvec::ArrayVec;
use muni_desk_io::{Fault, read_input, write};
use muni_edge::{NoMemory, Sink, Source};
use muni_import::RowFault;
use muni_keep::{Cabinet, KeepFault, Keeper};
use muni_msg::Asked;
use muni_multi::Encloser;
use muni_terms::Issue;
use std::alloc::Global;
use std::collections::{BTreeMap, BTreeSet};
use std::thread::Threads;

/// The greatest number of bytes of a portfolio.
pub const LIMIT: usize = 1_048_576;

/// Marks each row of a portfolio by the issues that a store keeps, and writes a line on each and then
/// the total.
///
/// The input is read whole before the store is fetched, and each CUSIP is asked for once. Nothing is
/// written before all rows are marked.
pub fn mark<R: Threads + Sync, I: Source, O: Sink, C: Cabinet, E: Encloser + Sync>(
    rt: &R,
    alloc: Global,
    store: &[u8],
    input: &mut I,
    output: &mut O,
    cabinet: &mut C,
    encloser: &E,
) -> Result<(), Fault>
    requires { C.out cabinet.old ≡ None }
    // promise 3, 6, 9: each row is marked by itself and its issue alone, and how it ends
    ensures marked { Marked I.Source O.Sink C.Cabinet (IsRightAnswer (E.ends encloser.now)) store.now result
        (lent input.old output.old cabinet.old) (lent input.new output.new cabinet.new) }
    // promise 6: how many lines there are, their order, and those of bad rows, whatever the store exposes
    ensures reported { IfSome (I.left input.old) (λ text. MarksReported text result (O.bytes output.old) (O.bytes output.new)) }
    // promise 10: at most 1,048,576 bytes of the input and one are read
    ensures takes { TakesUpTo I.Source 1_048_577 input.old input.new }
    ensures reads { ReportsReads I.Source result input.old input.new }
    ensures writes { ReportsWrites O.Sink result output.old output.new }
    // promise 7: no tables change
    ensures leaves { LeavesAll C.Cabinet cabinet.old cabinet.new }
{
    let text = read_input(alloc, input, LIMIT)?;
    let lines = marked_text(rt, alloc, store, text.as_slice(), cabinet, encloser)?;
    write(lines.as_slice(), output)
}

// The lines of the rows of a text, and the total.
fn marked_text<R: Threads + Sync, C: Cabinet, E: Encloser + Sync>(
    rt: &R,
    alloc: Global,
    store: &[u8],
    text: &[u8],
    cabinet: &mut C,
    encloser: &E,
) -> Result<Vec<u8>, KeepFault>
    requires none_out { C.out cabinet.old ≡ None }
    requires limit { length text.now ≤ 1_048_576 }
    ensures lines { IfOk result (λ lines. IfSome (C.told cabinet.old store.now)
        (λ t. IsPortfolioText (IsRightAnswer (E.ends encloser.now)) t text.now lines.items)) }
    ensures each { IfOk result (λ lines. HasLineOnEach text.now lines.items) }
    ensures leaves { LeavesAll C.Cabinet cabinet.old cabinet.new }
    ensures failed { IsErrOf result KeepFault.Failed → Rose (C.faults cabinet.old) (C.faults cabinet.new) }
{
    let rows = read_marks(alloc, text)?;
    let issues = fetch_issues(alloc, store, rows.as_slice(), cabinet)?;
    let said = marks(rt, alloc, rows.as_slice(), &issues, encloser)?;
    Ok(said_text(alloc, said.as_slice())?)
}

// The lines of marks, and their total.
fn said_text(alloc: Global, said: &[MarkSaid]) -> Result<Vec<u8>, NoMemory>
    requires names { AllByRecursion lines.HasName said.now }
    requires few { length said.now ≤ 1_048_576 }
    ensures { IfOk result (λ text. text.items ≡ lines.marks_text said.now) }
{
    let mut text = Vec::new(alloc);
    let mut line = ArrayVec::new();
    for (place, mark) in said.iter().enumerate() {
        mark_line(place as u32 + 1, mark, &mut line);
        if text.extend_from_slice(line.as_slice()).is_err() {
            return Err(NoMemory);
        }
    }
    let (count, sum) = total(said);
    total_line(count, sum.unsigned_abs(), &mut line);
    match text.extend_from_slice(line.as_slice()) {
        Ok(()) => Ok(text),
        Err(_) => Err(NoMemory),
    }
}

// The issues of a store that rows name.
fn fetch_issues<C: Cabinet>(
    alloc: Global,
    store: &[u8],
    rows: &[Result<Asked, RowFault>],
    cabinet: &mut C,
) -> Result<BTreeMap<[u8; 9], Issue>, KeepFault>
    requires { C.out cabinet.old ≡ None }
    ensures issues { IfOk result (λ issues. IfSome (C.told cabinet.old store.now)
        (λ t. AreFetched t (tree.get by_bytes issues) rows.now)) }
    ensures leaves { LeavesAll C.Cabinet cabinet.old cabinet.new }
    ensures failed { IsErrOf result KeepFault.Failed → Rose (C.faults cabinet.old) (C.faults cabinet.new) }
{
    let mut keeper = cabinet.fetch(store)?;
    let issues = kept_issues(alloc, &mut keeper, rows);
    cabinet.give_back(keeper);
    issues
}

// The issues that rows name. Each is asked for once.
fn kept_issues<K: Keeper>(
    alloc: Global,
    keeper: &mut K,
    rows: &[Result<Asked, RowFault>],
) -> Result<BTreeMap<[u8; 9], Issue>, KeepFault>
    ensures issues { IfOk result (λ issues. IfSome (K.tables keeper.old)
        (λ t. AreFetched t (tree.get by_bytes issues) rows.now)) }
    ensures reads { OnlyReads K.Keeper result keeper.old keeper.new }
{
    let mut issues = BTreeMap::new(alloc);
    let mut missing = BTreeSet::new(alloc);
    for row in rows {
        if let Ok(asked) = row {
            ask(keeper, &asked.cusip, &mut issues, &mut missing)?;
        }
    }
    Ok(issues)
}

/// Adds what is kept under a CUSIP to the issues, or the CUSIP to those under which none is kept. The keeper
/// is asked only if neither has it.
pub fn ask<K: Keeper>(
    keeper: &mut K,
    cusip: &[u8; 9],
    issues: &mut BTreeMap<[u8; 9], Issue>,
    missing: &mut BTreeSet<[u8; 9]>,
) -> Result<(), KeepFault>
    requires { IfSome (K.tables keeper.old) (λ t. AreKnown t (tree.get by_bytes issues.old) (set.contains by_bytes missing.old)) }
    ensures known { OnOk result (IfSome (K.tables keeper.old)
        (λ t. IsKnownNext t cusip.now (tree.get by_bytes issues.old) (tree.get by_bytes issues.new) (set.contains by_bytes missing.new))) }
    ensures reads { OnlyReads K.Keeper result keeper.old keeper.new }
{
    if issues.contains_key(cusip) || missing.contains(cusip) {
        return Ok(());
    }
    match keeper.issue(cusip)? {
        Some(issue) => match issues.insert(*cusip, issue) {
            Ok(_) => Ok(()),
            Err(_) => Err(KeepFault::NoMemory),
        },
        None => match missing.insert(*cusip) {
            Ok(_) => Ok(()),
            Err(_) => Err(KeepFault::NoMemory),
        },
    }
}
