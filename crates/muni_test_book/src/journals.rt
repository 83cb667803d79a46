//! Commands over a journal that fails at a call and that a stop tears within one.

use crate::answers::{ANSWERS, ROWS, said};
use muni_journal::{JournalKeeper, open};
use muni_journal_disk::MemDisk;
use muni_keep::Keeper;
use muni_msg::Key;
use muni_test_samples::key;
use std::alloc::Global;
use std::test::Fail;
use std::thread::Threads;

/// How many puts of the issue, of its later terms and of the trade are kept. There is no trade without its issue.
fn puts<K: Keeper>(keeper: &mut K, key: &Key) -> Option<u32> {
    let terms = keeper.last_issue(b"123456AA3").ok()?;
    let last = keeper.last(key).ok()?;
    match (terms, last) {
        (None, None) => Some(0),
        (Some((terms, _)), None) => Some(terms),
        (Some((terms, _)), Some((versions, _))) => Some(terms.wrapping_add(versions)),
        (None, Some(_)) => None,
    }
}

/// An empty journal on a disk whose calls of the listed numbers fail.
fn empty(alloc: Global, failing: &[u64]) -> Option<JournalKeeper<MemDisk>> {
    let disk = MemDisk::new(alloc, failing).ok()?;
    open(alloc, disk).ok()
}

/// The journal that is fetched after a stop within a call.
fn fetched(
    alloc: Global,
    keeper: &JournalKeeper<MemDisk>,
    call: usize,
    kept: usize,
) -> Option<JournalKeeper<MemDisk>> {
    let disk = keeper.disk().after_stop(call, kept).ok()?;
    open(alloc, disk).ok()
}

/// How many puts a stop within a call leaves.
fn left(
    alloc: Global,
    keeper: &JournalKeeper<MemDisk>,
    key: &Key,
    call: usize,
    kept: usize,
) -> Option<u32> {
    let mut again = fetched(alloc, keeper, call, kept)?;
    puts(&mut again, key)
}

/// Whether a stop within each call from a number on, with none or all of its piece written, leaves a
/// number of puts or one more, and a stop after them all leaves those that are kept.
fn leaves_or_more(
    alloc: Global,
    keeper: &mut JournalKeeper<MemDisk>,
    key: &Key,
    begin: usize,
    before: u32,
) -> bool {
    let more = Some(before.wrapping_add(1));
    let calls = keeper.disk().calls();
    for call in begin..calls {
        let none = left(alloc, keeper, key, call, 0);
        let all = left(alloc, keeper, key, call, 107);
        if none != Some(before) && none != more || all != Some(before) && all != more {
            return false;
        }
    }
    left(alloc, keeper, key, calls, 0) == puts(keeper, key)
}

/// Whether the rows are answered so one after the other over a disk with a call that fails, each sent
/// again if it is not answered, as one of them is; and no stop loses a put that was answered.
fn are_said_over<R: Threads + Sync>(rt: &R, alloc: Global, failing: u64) -> Option<bool> {
    let key = key("ALPHA", "T0001")?;
    let mut keeper = empty(alloc, &[failing])?;
    let mut failed = 0_u32;
    for (row, answer) in ROWS.lines().zip(ANSWERS.lines()) {
        let before = puts(&mut keeper, &key)?;
        let begin = keeper.disk().calls();
        let mut text = said(rt, alloc, &mut keeper, row);
        if text.is_none() {
            failed = failed.wrapping_add(1);
            text = said(rt, alloc, &mut keeper, row);
        }
        let stands = leaves_or_more(alloc, &mut keeper, &key, begin, before);
        if !stands || text?.strip_suffix(b"\n")? != answer.as_bytes() {
            return Some(false);
        }
    }
    Some(failed == 1)
}

#[test]
fn a_failed_call_and_a_stop_lose_nothing_that_was_answered(rt: HostRuntime) -> Result<(), Fail> {
    // The twenty calls of the five puts.
    for failing in 2..22_u64 {
        assert_eq!(rt;
            are_said_over(&rt, rt.alloc(), failing),
            Some(true),
            "call {failing}"
        );
    }
    Ok(())
}
