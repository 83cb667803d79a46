//! Connections in memory and at a port of this machine: whole, in pieces, cut, and while an object fails.

use crate::answers::{Kept, kept_of};
use muni_book::{Book, Calculator, Workers};
use muni_dec::Coupon;
use muni_desk_serve::{Served, answer_one};
use muni_edge::{Door, Link, MemLink, NoGate};
use muni_host::LoopbackDoor;
use muni_keep::{Keeper, MemKeeper};
use muni_msg::DeskLimit;
use muni_multi::Horner;
use muni_test_samples::{Pieces, bytes_of, key};
use muni_wire::Routes;
use std::alloc::Global;
use std::io::{Read, Write};
use std::net::{Shutdown, TcpStream};
use std::test::Fail;
use std::thread::Threads;

const ISSUE: &str =
    r#"POST /issues HTTP/1.1^~Host: localhost^~Content-Type: application/json^~Content-Length: 150^~^~{"cusip":"123456AA3","name":"RIVERTON WATER 5S 2025","kind":"periodic","dated":"2020-01-01","first":"2020-07-01","maturity":"2025-01-01","coupon":"5"}|HTTP/1.1 200 OK^~Content-Type: text/plain^~Content-Length: 16^~Connection: close^~^~ADDED 123456AA3~"#;

const TRADE: &str =
    r#"POST /trades HTTP/1.1^~Host: localhost^~Content-Type: application/json^~Content-Length: 133^~^~{"desk":"ALPHA","reference":"T0001","cusip":"123456AA3","side":"buy","par":"25000","settle":"2024-04-01","basis":"yield","value":"4"}|HTTP/1.1 200 OK^~Content-Type: text/plain^~Content-Length: 324^~Connection: close^~^~CONFIRMATION 1~DESK ALPHA~REFERENCE T0001~BOUGHT 25000~CUSIP 123456AA3~ISSUE RIVERTON WATER 5S 2025~COUPON 5.0000000~DATED 2020-01-01~MATURITY 2025-01-01~SETTLEMENT 2024-04-01~PRICE 100.725 COMPUTED~YIELD 4.000 GIVEN~REDEMPTION 2025-01-01 100.000000 MATURITY~ACCRUED DAYS 90~PRINCIPAL 25181.25~ACCRUED 312.50~TOTAL 25493.75~"#;

const ANSWERED: Served = Served::Answered { status: 200 };

/// The request of a line and its answer.
fn case(alloc: Global, line: &str) -> Result<(Vec<u8>, Vec<u8>), Fail> {
    let (request, answer) = line.split_once('|').ok_or("a case")?;
    let request = bytes_of(alloc, request).ok_or("bytes")?;
    let answer = bytes_of(alloc, answer).ok_or("bytes")?;
    Ok((request, answer))
}

/// Answers a connection.
fn answer<R: Threads + Sync, L: Link, K: Keeper>(
    rt: &R,
    alloc: Global,
    link: &mut L,
    keeper: &mut K,
) -> Result<Served, Fail> {
    let calculator = Calculator {
        rt,
        workers: Workers::ONE,
        encloser: &Horner,
        gate: &NoGate,
    };
    let book = Book {
        calculator: &calculator,
        limit: DeskLimit::USUAL,
    };
    let routes = Routes::new(alloc)?;
    Ok(answer_one(&book, &routes, alloc, link, keeper))
}

/// How a connection ends whose bytes come in pieces of a size, and what is written to it, if one of its takes fails.
fn answered<R: Threads + Sync, K: Keeper>(
    rt: &R,
    alloc: Global,
    keeper: &mut K,
    request: &[u8],
    size: usize,
    take: u64,
) -> Result<(Served, Vec<u8>), Fail> {
    let link = MemLink::new(alloc, request, 1024, &[take], &[])?;
    let mut pieces = Pieces::new(link, size);
    let served = answer(rt, alloc, &mut pieces, keeper)?;
    Ok((served, pieces.written().to_vec(alloc)?))
}

const NEVER: u64 = 1_000;

/// Whether the request of a line is answered as it says.
fn is_answered<R: Threads + Sync, K: Keeper>(
    rt: &R,
    alloc: Global,
    keeper: &mut K,
    line: &str,
    size: usize,
) -> Result<bool, Fail> {
    let (request, wanted) = case(alloc, line)?;
    let (served, text) = answered(rt, alloc, keeper, &request, size, NEVER)?;
    Ok(served == ANSWERED && text == wanted)
}

/// Whether the tables have the issue and no trade.
fn has_the_issue_alone<K: Keeper>(keeper: &mut K) -> Result<bool, Fail> {
    let key = key("ALPHA", "T0001").ok_or("a key")?;
    Ok(
        kept_of(keeper, &key)?
            == Kept {
                terms: Some((1, Coupon::new(50_000_000))),
                last: None,
                trades: 0,
            },
    )
}

/// Whether a trade leaves nothing written and the tables as they are, if so many of its bytes come in pieces of a size
/// and a take fails, and how it ends.
fn ended<R: Threads + Sync, K: Keeper>(
    rt: &R,
    alloc: Global,
    keeper: &mut K,
    request: &[u8],
    size: usize,
    take: u64,
) -> Result<Option<Served>, Fail> {
    let (served, text) = answered(rt, alloc, keeper, request, size, take)?;
    let is_unchanged = has_the_issue_alone(keeper)?;
    Ok((text.is_empty() && is_unchanged).then_some(served))
}

/// The first number of bytes after which the trade can be cut and is not gone.
fn not_gone<R: Threads + Sync, K: Keeper>(
    rt: &R,
    alloc: Global,
    keeper: &mut K,
) -> Result<usize, Fail> {
    let (request, _) = case(alloc, TRADE)?;
    for count in 0..request.len() {
        let end = ended(rt, alloc, keeper, &request[..count], 9, NEVER)?;
        if end != Some(Served::Gone) {
            return Ok(count);
        }
    }
    Ok(request.len())
}

/// The first take of the trade by pieces of a size that may fail without ending the connection.
fn not_taken<R: Threads + Sync, K: Keeper>(
    rt: &R,
    alloc: Global,
    keeper: &mut K,
    size: usize,
    takes: u64,
) -> Result<u64, Fail> {
    let (request, _) = case(alloc, TRADE)?;
    for take in 0..takes {
        let end = ended(rt, alloc, keeper, &request, size, take)?;
        if end != Some(Served::LinkFault) {
            return Ok(take);
        }
    }
    Ok(takes)
}

/// Whether the issue is added, and the trade is gone if it is cut, and ended by each take that fails.
fn are_ended<R: Threads + Sync, K: Keeper>(
    rt: &R,
    alloc: Global,
    keeper: &mut K,
) -> Result<bool, Fail> {
    if !is_answered(rt, alloc, keeper, ISSUE, 9)? || not_gone(rt, alloc, keeper)? != 228 {
        return Ok(false);
    }
    for (size, takes) in [(1, 228), (2, 114), (7, 33), (4096, 1)] {
        if not_taken(rt, alloc, keeper, size, takes)? != takes {
            return Ok(false);
        }
    }
    Ok(true)
}

/// The first size of pieces in which the trade has another answer.
fn other_in_pieces<R: Threads + Sync, K: Keeper>(
    rt: &R,
    alloc: Global,
    keeper: &mut K,
) -> Result<Option<usize>, Fail> {
    for size in [1, 2, 7, 4096] {
        if !is_answered(rt, alloc, keeper, TRADE, size)? {
            return Ok(Some(size));
        }
    }
    Ok(None)
}

// The request has 228 bytes, which come byte by byte, by two, by seven and at once.
#[test]
fn a_trade_is_answered_whole_alone(rt: HostRuntime) -> Result<(), Fail> {
    let mut keeper = MemKeeper::new(rt.alloc(), &[])?;
    assert!(rt; are_ended(&rt, rt.alloc(), &mut keeper)?);
    assert_eq!(rt; other_in_pieces(&rt, rt.alloc(), &mut keeper)?, None);
    Ok(())
}

/// Adds the issue. Whether the trade is then answered by 503 with the tables as they were, and confirmed on the next
/// connection.
fn is_answered_again<R: Threads + Sync, K: Keeper>(
    rt: &R,
    alloc: Global,
    keeper: &mut K,
) -> Result<bool, Fail> {
    let is_added = is_answered(rt, alloc, keeper, ISSUE, 9)?;
    let (request, _) = case(alloc, TRADE)?;
    let (served, _) = answered(rt, alloc, keeper, &request, 9, NEVER)?;
    let is_unavailable = served == Served::Answered { status: 503 };
    let is_unchanged = has_the_issue_alone(keeper)?;
    let is_confirmed = is_answered(rt, alloc, keeper, TRADE, 9)?;
    Ok(is_added && is_unavailable && is_unchanged && is_confirmed)
}

// The issue takes two calls, and the trade the next four, of which the last puts it.
#[test]
fn a_trade_whose_put_fails_is_unavailable_and_leaves_the_tables(
    rt: HostRuntime,
) -> Result<(), Fail> {
    for call in 2..6_u64 {
        let mut keeper = MemKeeper::new(rt.alloc(), &[call])?;
        assert!(rt;
            is_answered_again(&rt, rt.alloc(), &mut keeper)?,
            "call {call}"
        );
    }
    Ok(())
}

/// A client of the port that has sent a request.
fn client_with(
    rt: &HostRuntime,
    door: &LoopbackDoor<'_, HostRuntime>,
    request: &[u8],
) -> Result<TcpStream, Fail> {
    let address = door.address().ok_or("an address")?;
    let mut client = TcpStream::connect(rt, address)?;
    client.write_all(request)?;
    Ok(client)
}

/// Answers the connection that waits first, whose client then ends what it sends.
fn answer_first<R: Threads + Sync>(
    rt: &R,
    alloc: Global,
    door: &mut LoopbackDoor<'_, HostRuntime>,
    keeper: &mut MemKeeper,
    client: &TcpStream,
) -> Result<Served, Fail> {
    let mut link = door.accept()?.ok_or("a connection")?;
    let served = answer(rt, alloc, &mut link, keeper)?;
    client.shutdown(Shutdown::Write)?;
    door.hand_back(link);
    Ok(served)
}

/// All that a client reads up to the end.
fn bytes_read(alloc: Global, mut client: TcpStream) -> Result<Vec<u8>, Fail> {
    let mut bytes = Vec::new(alloc);
    client.read_to_end(&mut bytes)?;
    Ok(bytes)
}

// On one thread: a client connects and sends before its connection is accepted.
#[test]
fn what_a_client_sends_to_the_port_is_answered(rt: HostRuntime) -> Result<(), Fail> {
    let mut keeper = MemKeeper::new(rt.alloc(), &[])?;
    let mut door = LoopbackDoor::new(&rt);
    door.bind(0)?;
    for line in [ISSUE, TRADE] {
        let (request, wanted) = case(rt.alloc(), line)?;
        let client = client_with(&rt, &door, &request)?;
        let served = answer_first(&rt, rt.alloc(), &mut door, &mut keeper, &client)?;
        assert_eq!(rt; served, ANSWERED);
        assert_eq!(rt; bytes_read(rt.alloc(), client)?, wanted);
    }
    Ok(())
}
