//! A keeper through each of its calls, and a cabinet that lends it again.

ghost use Rattle.std.specs.Prelude.{◌≡◌, None, IfOk};

use crate::desks::put;
use muni_keep::{Cabinet, KeepFault, Keeper, MemCabinet, MemKeeper};
use muni_msg::{Act, Key, Version};
use muni_terms::{Issue, check};
use muni_test_samples::{key, worked_issue};
use std::alloc::Global;
use std::test::Fail;

/// Keeps an issue, if it is not kept yet.
fn add_issue<K: Keeper>(keeper: &mut K, issue: &Issue) -> Result<(), KeepFault> {
    match keeper.last_issue(&issue.row().cusip)? {
        None => keeper.put_issue(1, issue),
        Some(_) => Ok(()),
    }
}

/// Keeps a version as the next one of a trade.
fn add_version<K: Keeper>(keeper: &mut K, key: &Key) -> Result<(), KeepFault>
    ensures lent_as { K.lent_as keeper.new ≡ K.lent_as keeper.old }
{
    let version = Version {
        act: Act::Entered,
        ..Version::default()
    };
    put(keeper, key, &version)
}

/// The twelve calls, one after the other, up to the first that fails.
fn make_calls<K: Keeper>(keeper: &mut K, issue: &Issue, key: &Key) -> Result<(), KeepFault> {
    add_issue(keeper, issue)?;
    add_version(keeper, key)?;
    let cusip = issue.row().cusip;
    let _ = keeper.issue(&cusip)?;
    let _ = keeper.issue_numbered(&cusip, 1)?;
    let _ = keeper.version(key, 1)?;
    let _ = keeper.trades(&key.desk)?;
    let _ = keeper.page(&key.desk, &None)?;
    let _ = keeper.before_latest(&key.desk)?;
    let _ = keeper.issue_past(&None)?;
    let _ = keeper.desk_past(&None)?;
    Ok(())
}

/// How the calls end over a keeper if one of them fails, and how they do when they are made again.
fn twice(alloc: Global, call: u64) -> Result<(Result<(), KeepFault>, Result<(), KeepFault>), Fail> {
    let issue = worked_issue().ok_or("an issue")?;
    let key = key("ALPHA", "T0001").ok_or("a key")?;
    let mut keeper = MemKeeper::new(alloc, &[call])?;
    let first = make_calls(&mut keeper, &issue, &key);
    let second = make_calls(&mut keeper, &issue, &key);
    Ok((first, second))
}

#[test]
fn each_call_of_a_keeper_fails_where_it_is_listed(rt: HostRuntime) -> Result<(), Fail> {
    for call in 0..12_u64 {
        assert_eq!(rt;
            twice(rt.alloc(), call)?,
            (Err(KeepFault::Failed), Ok(())),
            "call {call}"
        );
    }
    assert_eq!(rt; twice(rt.alloc(), 12)?, (Ok(()), Err(KeepFault::Failed)));
    Ok(())
}

/// Whether the page after T1 has each trade by its last version in the order of references.
fn has_its_page<K: Keeper>(keeper: &mut K) -> Result<bool, Fail> {
    for reference in ["T2", "T10", "T1", "T10"] {
        add_version(keeper, &key("ALPHA", reference).ok_or("a key")?)?;
    }
    let Key { desk, reference } = key("ALPHA", "T1").ok_or("a key")?;
    let page = keeper.page(&desk, &Some(reference))?;
    let mut wanted = [(b"T10".as_slice(), 2), (b"T2", 1)].into_iter();
    for line in &page {
        if wanted.next() != Some((line.reference.bytes(), line.number)) {
            return Ok(false);
        }
    }
    Ok(wanted.next().is_none())
}

#[test]
fn a_page_has_each_trade_by_its_last_version_in_the_order_of_references(
    rt: HostRuntime,
) -> Result<(), Fail> {
    let mut keeper = MemKeeper::new(rt.alloc(), &[])?;
    assert!(rt; has_its_page(&mut keeper)?);
    Ok(())
}

/// The worked issue under another CUSIP.
fn issue_of(cusip: [u8; 9]) -> Option<Issue> {
    let mut row = worked_issue()?.row().copy();
    row.cusip = cusip;
    check(row).ok()
}

/// Whether the issues come in the order of their CUSIPs, each once.
fn walks_issues<K: Keeper>(keeper: &mut K, cusips: &[[u8; 9]]) -> Result<bool, Fail> {
    let mut after = None;
    for cusip in cusips {
        let Some(entry) = keeper.issue_past(&after)? else {
            return Ok(false);
        };
        let (found, issue) = entry;
        if found != *cusip || issue.row().cusip != found {
            return Ok(false);
        }
        after = Some(found);
    }
    Ok(keeper.issue_past(&after)?.is_none())
}

/// Whether the desks come in the order of their names, each once.
fn walks_desks<K: Keeper>(keeper: &mut K, names: &[&[u8]]) -> Result<bool, Fail> {
    let mut after = None;
    for name in names {
        let Some(desk) = keeper.desk_past(&after)? else {
            return Ok(false);
        };
        if desk.bytes() != *name {
            return Ok(false);
        }
        after = Some(desk);
    }
    Ok(keeper.desk_past(&after)?.is_none())
}

#[test]
fn the_issues_and_the_desks_are_walked_in_their_order(rt: HostRuntime) -> Result<(), Fail> {
    let mut keeper = MemKeeper::new(rt.alloc(), &[])?;
    assert!(rt; walks_issues(&mut keeper, &[])? && walks_desks(&mut keeper, &[])?);
    for cusip in [*b"123456AB1", *b"123456AA3"] {
        let issue = issue_of(cusip).ok_or("an issue")?;
        add_issue(&mut keeper, &issue)?;
    }
    for (desk, reference) in [
        ("BETA", "T1"),
        ("ALPHAB", "T1"),
        ("ALPHA", "T2"),
        ("ALPHA", "T1"),
    ] {
        add_version(&mut keeper, &key(desk, reference).ok_or("a key")?)?;
    }
    assert!(rt; walks_issues(&mut keeper, &[*b"123456AA3", *b"123456AB1"])?);
    assert!(rt; walks_desks(&mut keeper, &[b"ALPHA", b"ALPHAB", b"BETA"])?);
    Ok(())
}

/// A cabinet with the empty store S, of which a fetch fails and a call of its keeper.
fn cabinet(alloc: Global, fetch: u64, call: u64) -> Result<MemCabinet, Fail>
    ensures { IfOk result (λ cabinet. cabinet.out ≡ None) }
{
    let mut keepers = Vec::new(alloc);
    keepers.push((b"S".to_vec(alloc)?, MemKeeper::new(alloc, &[call])?))?;
    Ok(MemCabinet::new(alloc, keepers, &[fetch])?)
}

/// Keeps a version of a trade with a keeper that is lent, and counts the trades with it when it is
/// lent again.
fn lend_twice<C: Cabinet>(cabinet: &mut C, name: &[u8], key: &Key) -> Result<u32, KeepFault>
    requires { C.out cabinet.old ≡ None }
    ensures none_out { C.out cabinet.new ≡ None }
{
    let mut keeper = cabinet.fetch(name)?;
    let kept = add_version(&mut keeper, key);
    cabinet.give_back(keeper);
    kept?;
    let mut keeper = cabinet.fetch(name)?;
    let trades = keeper.trades(&key.desk);
    cabinet.give_back(keeper);
    trades
}

/// What is counted in two stores, if the second fetch and the fifth call of the keeper of S fail.
fn counted<C: Cabinet>(cabinet: &mut C, key: &Key) -> [Result<u32, KeepFault>; 4]
    requires { C.out cabinet.old ≡ None }
{
    [
        lend_twice(cabinet, b"S", key),
        lend_twice(cabinet, b"S", key),
        lend_twice(cabinet, b"S", key),
        lend_twice(cabinet, b"T", key),
    ]
}

#[test]
fn a_cabinet_lends_the_keeper_that_it_took_back(rt: HostRuntime) -> Result<(), Fail> {
    let key = key("ALPHA", "T0001").ok_or("a key")?;
    let mut cabinet = cabinet(rt.alloc(), 1, 4)?;
    let failed = Err(KeepFault::Failed);
    assert_eq!(rt; counted(&mut cabinet, &key), [failed, failed, Ok(1), Ok(1)]);
    Ok(())
}
