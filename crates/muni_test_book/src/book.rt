//! Commands over a keeper that fails, and over a desk that is full.

use crate::answers::{failed_once, said};
use crate::desks::fill;
use muni_keep::{Keeper, MemKeeper};
use muni_msg::Act;
use muni_test_samples::worked_version;
use std::alloc::Global;
use std::test::Fail;
use std::thread::Threads;

// How many commands fail once if a call of their keeper does, with the tables as they were.
fn failed_over<R: Threads + Sync>(rt: &R, alloc: Global, call: u64) -> Option<u32> {
    let mut keeper = MemKeeper::new(alloc, &[call]).ok()?;
    let mut sound = MemKeeper::new(alloc, &[]).ok()?;
    failed_once(rt, alloc, &mut keeper, &mut sound)
}

// The commands make 33 calls of their keeper.
#[test]
fn a_command_that_failed_is_answered_when_it_is_sent_again(rt: HostRuntime) -> Result<(), Fail> {
    for call in 0..33_u64 {
        assert_eq!(rt; failed_over(&rt, rt.alloc(), call), Some(1), "call {call}");
    }
    assert_eq!(rt; failed_over(&rt, rt.alloc(), 33), Some(0));
    Ok(())
}

/// What is sent to a desk with 100,000 trades, and to another one.
const ROWS: &str =
    "issue,123456AA3,RIVERTON WATER 5S 2025,periodic,2020-01-01,2020-07-01,2025-01-01,5,
trade,ALPHA,T0001,123456AA3,buy,25000,2024-04-01,yield,4
trade,ALPHA,T0001,000000000,buy,25000,2024-04-01,yield,4
trade,ALPHA,000777,123456AA3,buy,25000,2024-04-01,yield,4
trade,BETA,T0001,123456AA3,buy,25000,2024-04-01,yield,4
";

const ANSWERS: &str = "added,123456AA3
REFUSED 14 DeskFull
REFUSED 1 UnknownIssue
confirmed,000777,1,100.725,4.000,2025-01-01,25493.75
confirmed,T0001,1,100.725,4.000,2025-01-01,25493.75
";

// Fills ALPHA. Whether the rows are then answered so.
fn are_said_when_full<R: Threads + Sync, K: Keeper>(
    rt: &R,
    alloc: Global,
    keeper: &mut K,
) -> Result<bool, Fail> {
    fill(keeper, &worked_version(Act::Entered).ok_or("a version")?)?;
    let text = said(rt, alloc, keeper, ROWS).ok_or("answers")?;
    Ok(text.as_slice() == ANSWERS.as_bytes())
}

#[test]
fn a_full_desk_takes_no_trade_more(rt: HostRuntime) -> Result<(), Fail> {
    let mut keeper = MemKeeper::new(rt.alloc(), &[])?;
    assert!(rt; are_said_when_full(&rt, rt.alloc(), &mut keeper)?);
    Ok(())
}
