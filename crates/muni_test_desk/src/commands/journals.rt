//! Commands over journals in memory, fetched for each and given back, while a disk or the shelf fails.

ghost use Rattle.std.specs.Prelude.{◌≡◌, None, IfSome};

use super::faults::{IMPORT, ROWS};
use super::runs::{ISSUE, is_entered_again};
use super::{NONE_FAILS, ask_over};
use muni_desk::Status;
use muni_journal::JournalCabinet;
use muni_journal_disk::{MemDisk, MemShelf};
use muni_keep::Cabinet;
use std::alloc::Global;
use std::test::Fail;
use std::thread::Threads;

const OTHER: &str = "import --store=OTHER";

const ADDED: &[u8] = b"1,added,123456AA3\n";

const TRADE: &[u8] = b"trade,ALPHA,T0001,123456AA3,buy,25000,2024-04-01,yield,4\n";

const CONFIRMED: &[u8] = b"1,confirmed,T0001,1,100.725,4.000,2025-01-01,25493.75\n";

const REPORT: &[u8] = b"1,added,123456AA3
2,confirmed,T0001,1,100.725,4.000,2025-01-01,25493.75
3,confirmed,T0002,1,100.725,4.001,2025-01-01,10197.50
";

// Journals in memory. The disk of the name S fails at the calls of the listed numbers, and the shelf at those of the
// others.
fn journals(
    alloc: Global,
    failing: &[u64],
    failing_takes: &[u64],
) -> Option<JournalCabinet<MemShelf>>
    ensures { IfSome result (λ cabinet. cabinet.out ≡ None) }
{
    let name = b"S".to_vec(alloc).ok()?;
    let disk = MemDisk::new(alloc, failing).ok()?;
    let mut disks = Vec::new(alloc);
    disks.push((name, disk)).ok()?;
    let shelf = MemShelf::new(alloc, disks, failing_takes).ok()?;
    Some(JournalCabinet::new(alloc, shelf))
}

// How many lines an import writes that fails, if it writes no part of one, and the same import is then done with the
// whole report.
fn lines_before<R: Threads + Sync, C: Cabinet>(
    rt: &R,
    alloc: Global,
    cabinet: &mut C,
) -> Result<Option<usize>, Fail>
    requires { C.out cabinet.old ≡ None }
{
    let both = [NONE_FAILS, NONE_FAILS];
    let (first, again) = ask_over(rt, alloc, cabinet, both, (IMPORT, ROWS), (IMPORT, ROWS))?;
    let text = first.output.bytes();
    let is_cut = !text.is_empty() && !text.ends_with(b"\n");
    if first.status != Status::StoreFault || is_cut || !REPORT.starts_with(text) {
        return Ok(None);
    }
    if again.status != Status::Done || again.output.bytes() != REPORT {
        return Ok(None);
    }
    Ok(Some(text.iter().filter(|byte| **byte == b'\n').count()))
}

// A fetch syncs and reads a gate, and each of the three puts writes, syncs, writes and syncs.
#[test]
fn an_import_that_failed_is_confirmed_alike_when_it_is_sent_again(
    rt: HostRuntime,
) -> Result<(), Fail> {
    for (call, take, lines) in [
        (0, 9, 0),
        (1, 9, 0),
        (2, 9, 0),
        (5, 9, 0),
        (6, 9, 1),
        (7, 9, 1),
        (8, 9, 1),
        (9, 9, 1),
        (10, 9, 2),
        (13, 9, 2),
        (99, 0, 0),
    ] {
        let mut cabinet = journals(rt.alloc(), &[call], &[take]).ok_or("journals")?;
        let found = lines_before(&rt, rt.alloc(), &mut cabinet)?;
        assert_eq!(rt; found, Some(lines), "call {call}, take {take}");
    }
    Ok(())
}

// Whether an issue that fails once is then added over two journals, and a trade in it entered.
fn is_lent_again<R: Threads + Sync, C: Cabinet>(
    rt: &R,
    alloc: Global,
    cabinet: &mut C,
) -> Result<bool, Fail>
    requires { C.out cabinet.old ≡ None }
{
    let both = [NONE_FAILS, NONE_FAILS];
    let (failed, added) = ask_over(rt, alloc, cabinet, both, (IMPORT, ISSUE), (IMPORT, ISSUE))?;
    let (other, entered) = ask_over(rt, alloc, cabinet, both, (OTHER, ISSUE), (IMPORT, TRADE))?;
    let is_refused = failed.status == Status::StoreFault && failed.output.bytes().is_empty();
    let is_added = added.output.bytes() == ADDED && other.output.bytes() == ADDED;
    Ok(is_refused && is_added && entered.output.bytes() == CONFIRMED)
}

// The gate of the issue fails, and so does its taking back as the keeper is given back.
#[test]
fn a_keeper_whose_failed_put_is_not_taken_back_is_lent_again(rt: HostRuntime) -> Result<(), Fail> {
    let mut cabinet = journals(rt.alloc(), &[4, 5], &[]).ok_or("journals")?;
    assert!(rt; is_lent_again(&rt, rt.alloc(), &mut cabinet)?);
    Ok(())
}

// The second fetch makes five calls, as the journal holds the issue, and the put of the trade the next four.
#[test]
fn a_trade_whose_put_fails_over_a_journal_is_answered_when_it_is_sent_again(
    rt: HostRuntime,
) -> Result<(), Fail> {
    for call in 11..15_u64 {
        let mut cabinet = journals(rt.alloc(), &[call], &[]).ok_or("journals")?;
        assert!(rt;
            is_entered_again(&rt, rt.alloc(), &mut cabinet)?,
            "call {call}"
        );
    }
    Ok(())
}
