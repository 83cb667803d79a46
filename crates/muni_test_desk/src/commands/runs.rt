//! Connections over a store while an object fails.

ghost use Rattle.std.specs.Prelude.{◌≡◌, None};

use super::faults::{CALLS, FIRST_CALL, IMPORT, ROWS, SECOND_CALL};
use super::{Failing, NONE, NONE_FAILS, ask_both, ask_over, cabinet_of};
use muni_desk::Status;
use muni_edge::MemDoor;
use muni_keep::Cabinet;
use std::alloc::Global;
use std::test::Fail;
use std::thread::Threads;

const SERVE: &str = "serve --store=S --port=8080 --connections=2";

const REQUEST: &[u8] = b"GET /lists/ALPHA HTTP/1.1\r\nHost: localhost\r\n\r\n";

const LIST: &[u8] = b"HTTP/1.1 200 OK\r
Content-Type: text/plain\r
Content-Length: 66\r
Connection: close\r
\r
T0001 1 LIVE 25000 100.725 4.000
T0002 1 LIVE 10000 100.725 4.001
";

// How connections over the tables of an import end, how many of two clients are served, and how many of these
// get another answer than the list.
fn served_with<'a, R: Threads + Sync>(
    rt: &R,
    alloc: Global,
    words: &'a str,
    failing: [Failing<'a>; 2],
) -> Result<(Status, usize, usize), Fail> {
    let (_, outcome) = ask_both(rt, alloc, failing, (IMPORT, ROWS), (words, REQUEST))?;
    let served = outcome.door.served();
    let bad = served.iter().filter(|link| link.written() != LIST).count();
    Ok((outcome.status, served.len(), bad))
}

#[test]
fn runs_end_where_they_are_told_to(rt: HostRuntime) -> Result<(), Fail> {
    for (words, status, count) in [
        (SERVE, Status::Done, 2),
        (
            "serve --store=S --port=8080 --connections=1",
            Status::Done,
            1,
        ),
        (
            "serve --workers=16 --connections=01000000 --port=65535 --store=S",
            Status::Done,
            2,
        ),
        (
            "serve --store=S --port=8080 --connections=1 --desk-limit=1",
            Status::Done,
            1,
        ),
    ] {
        let found = served_with(&rt, rt.alloc(), words, [NONE_FAILS, NONE_FAILS])?;
        assert_eq!(rt; found, (status, count, 0), "{words}");
    }
    Ok(())
}

#[test]
fn each_fault_of_a_run_is_told_or_costs_one_client(rt: HostRuntime) -> Result<(), Fail> {
    for (fetches, calls, accepts, [takes, puts], wanted) in [
        (
            SECOND_CALL,
            NONE,
            NONE,
            [NONE, NONE],
            (Status::StoreFault, 0, 0),
        ),
        (NONE, &[CALLS], NONE, [NONE, NONE], (Status::Done, 2, 1)),
        (
            NONE,
            NONE,
            FIRST_CALL,
            [NONE, NONE],
            (Status::DoorFault, 0, 0),
        ),
        (NONE, NONE, &[2], [NONE, NONE], (Status::DoorFault, 1, 0)),
        (NONE, NONE, NONE, [FIRST_CALL, NONE], (Status::Done, 2, 1)),
        (NONE, NONE, NONE, [NONE, FIRST_CALL], (Status::Done, 2, 1)),
    ] {
        let before = Failing {
            fetches,
            calls,
            ..NONE_FAILS
        };
        let after = Failing {
            accepts,
            client_takes: takes,
            client_puts: puts,
            ..NONE_FAILS
        };
        let found = served_with(&rt, rt.alloc(), SERVE, [before, after])?;
        assert_eq!(rt; found, wanted);
    }
    Ok(())
}

pub(super) const ISSUE: &[u8] =
    b"issue,123456AA3,RIVERTON WATER 5S 2025,periodic,2020-01-01,2020-07-01,2025-01-01,5,\n";

const TRADE: &[u8] =
    b"POST /trades HTTP/1.1\r\nHost: localhost\r\nContent-Type: application/json\r\n\
    Content-Length: 133\r\n\r\n{\"desk\":\"ALPHA\",\"reference\":\"T0001\",\"cusip\":\"123456AA3\",\
    \"side\":\"buy\",\"par\":\"25000\",\"settle\":\"2024-04-01\",\"basis\":\"yield\",\"value\":\"4\"}";

// Whether the answer to a client begins and ends so.
fn is_answered(door: &MemDoor, place: usize, begin: &[u8], end: &[u8]) -> bool {
    match door.served().get(place) {
        Some(link) => link.written().starts_with(begin) && link.written().ends_with(end),
        None => false,
    }
}

// Adds the issue, and serves two clients that enter the trade. Whether the first is answered by 503 and the second
// confirmed.
pub(super) fn is_entered_again<R: Threads + Sync, C: Cabinet>(
    rt: &R,
    alloc: Global,
    cabinet: &mut C,
) -> Result<bool, Fail>
    requires { C.out cabinet.old ≡ None }
{
    let both = [NONE_FAILS, NONE_FAILS];
    let (_, run) = ask_over(rt, alloc, cabinet, both, (IMPORT, ISSUE), (SERVE, TRADE))?;
    let is_unavailable = is_answered(&run.door, 0, b"HTTP/1.1 503 ", b"");
    let is_entered = is_answered(&run.door, 1, b"HTTP/1.1 200 ", b"TOTAL 25493.75\n");
    Ok(run.status == Status::Done && is_unavailable && is_entered)
}

// The issue takes two calls, and the trade the next four, of which the last puts it.
#[test]
fn a_trade_whose_put_fails_is_answered_when_it_is_sent_again(rt: HostRuntime) -> Result<(), Fail> {
    for call in 2..6_u64 {
        let failing = Failing {
            calls: &[call],
            ..NONE_FAILS
        };
        let mut cabinet = cabinet_of(rt.alloc(), failing)?;
        assert!(rt;
            is_entered_again(&rt, rt.alloc(), &mut cabinet)?,
            "call {call}"
        );
    }
    Ok(())
}
