//! Commands over a store while an object fails.

use super::{Failing, NONE, NONE_FAILS, Outcome, ask_both};
use muni_desk::Status;
use std::alloc::Global;
use std::test::Fail;
use std::thread::Threads;

pub(super) const IMPORT: &str = "import --store=S";

const LISTED: &str = "import --store=S --positions=ALPHA";

const LOAD: &str = "load --store=S";

const FIRST: &str = "confirm --store=S --desk=ALPHA --ref=T0001";

const SECOND: &str = "confirm --store=S --desk=ALPHA --ref=T0002";

const POSITIONS: &str = "positions --store=S --desk=ALPHA";

const MARK: &str = "mark --store=S";

const EXPORT: &str = "export --store=S";

const LISTING: &str = "list --store=S --desk=ALPHA";

const CONFIRMATIONS: &str = "confirm --store=S --desk=ALPHA --all";

const CHECK: &str = "check-store --store=S";

pub(super) const ROWS: &[u8] =
    b"issue,123456AA3,RIVERTON WATER 5S 2025,periodic,2020-01-01,2020-07-01,2025-01-01,5,
trade,ALPHA,T0001,123456AA3,buy,25000,2024-04-01,yield,4
trade,ALPHA,T0002,123456AA3,sell,10000,2024-04-01,price,100.725
";

const REPORT: &[u8] = b"1,added,123456AA3
2,confirmed,T0001,1,100.725,4.000,2025-01-01,25493.75
3,confirmed,T0002,1,100.725,4.001,2025-01-01,10197.50
123456AA3 2 25000 10000 15000 15296.25
";

const MARKS: &[u8] = b"123456AA3,25000,2024-04-01,4\n";

pub(super) const FIRST_CALL: &[u64] = &[0];

pub(super) const SECOND_CALL: &[u64] = &[1];

// How often an import of the rows asks the keeper.
pub(super) const CALLS: u64 = 10;

// An import of the rows, if it writes nothing but a part of its report, and whether a trade is then confirmed.
fn imported<'a, R: Threads + Sync>(
    rt: &R,
    alloc: Global,
    words: &'a str,
    failing: Failing<'a>,
    confirm: &'a str,
) -> Result<(Outcome, bool), Fail> {
    let both = [failing, NONE_FAILS];
    let (imported, asked) = ask_both(rt, alloc, both, (words, ROWS), (confirm, b""))?;
    if !REPORT.starts_with(imported.output.bytes()) {
        return Err("a part of the report")?;
    }
    Ok((imported, asked.status == Status::Done))
}

// How it ends, how many lines it writes, if each of them is whole, and whether the trade is confirmed.
fn imported_with<'a, R: Threads + Sync>(
    rt: &R,
    alloc: Global,
    words: &'a str,
    failing: Failing<'a>,
    confirm: &'a str,
) -> Result<(Status, usize, bool), Fail> {
    let (outcome, is_kept) = imported(rt, alloc, words, failing, confirm)?;
    let text = outcome.output.bytes();
    if !(text.is_empty() || text.ends_with(b"\n")) {
        return Err("whole lines")?;
    }
    let lines = text.iter().filter(|byte| **byte == b'\n').count();
    Ok((outcome.status, lines, is_kept))
}

// How it ends if its output has room for so many bytes, how many it writes, and whether the trade is confirmed.
fn imported_into<'a, R: Threads + Sync>(
    rt: &R,
    alloc: Global,
    room: usize,
    confirm: &'a str,
) -> Result<(Status, usize, bool), Fail> {
    let failing = Failing { room, ..NONE_FAILS };
    let (outcome, is_kept) = imported(rt, alloc, IMPORT, failing, confirm)?;
    Ok((outcome.status, outcome.output.bytes().len(), is_kept))
}

#[test]
fn a_put_that_fails_ends_an_import_after_its_row(rt: HostRuntime) -> Result<(), Fail> {
    for (put, status, lines, first, second) in [
        (0, Status::WriteFault, 0, false, false),
        (1, Status::WriteFault, 1, true, false),
        (2, Status::WriteFault, 2, true, true),
        (3, Status::Done, 3, true, true),
    ] {
        let failing = Failing {
            puts: &[put],
            ..NONE_FAILS
        };
        for (confirm, is_kept) in [(FIRST, first), (SECOND, second)] {
            let found = imported_with(&rt, rt.alloc(), IMPORT, failing, confirm)?;
            assert_eq!(rt; found, (status, lines, is_kept), "put {put}");
        }
    }
    Ok(())
}

// The lines end after 18, 72 and 126 bytes. The row of a line that does not fit is applied.
#[test]
fn an_output_without_room_has_a_part_of_a_line(rt: HostRuntime) -> Result<(), Fail> {
    for (room, status, first, second) in [
        (0, Status::WriteFault, false, false),
        (17, Status::WriteFault, false, false),
        (18, Status::WriteFault, true, false),
        (19, Status::WriteFault, true, false),
        (71, Status::WriteFault, true, false),
        (72, Status::WriteFault, true, true),
        (125, Status::WriteFault, true, true),
        (126, Status::Done, true, true),
    ] {
        for (confirm, is_kept) in [(FIRST, first), (SECOND, second)] {
            let found = imported_into(&rt, rt.alloc(), room, confirm)?;
            assert_eq!(rt; found, (status, room, is_kept), "{room} bytes");
        }
    }
    Ok(())
}

// The rows come with the first take, and the end with the second.
#[test]
fn a_take_that_fails_ends_a_load_after_the_rows_before(rt: HostRuntime) -> Result<(), Fail> {
    for (take, status, lines, is_kept) in [
        (0, Status::ReadFault, 0, false),
        (1, Status::ReadFault, 3, true),
        (2, Status::Done, 3, true),
    ] {
        let failing = Failing {
            takes: &[take],
            ..NONE_FAILS
        };
        let found = imported_with(&rt, rt.alloc(), LOAD, failing, SECOND)?;
        assert_eq!(rt; found, (status, lines, is_kept), "take {take}");
    }
    Ok(())
}

// The calls 10 and 11 are those of the confirmation. With positions one page is asked for before the first
// row, and none after the last.
#[test]
fn a_keeper_that_fails_ends_an_import_before_its_row(rt: HostRuntime) -> Result<(), Fail> {
    for (words, call, status, lines, is_kept) in [
        (IMPORT, 0, Status::StoreFault, 0, false),
        (IMPORT, 1, Status::StoreFault, 0, false),
        (IMPORT, 2, Status::StoreFault, 1, false),
        (IMPORT, 3, Status::StoreFault, 1, false),
        (IMPORT, 4, Status::StoreFault, 1, false),
        (IMPORT, 5, Status::StoreFault, 1, false),
        (IMPORT, 6, Status::StoreFault, 2, true),
        (IMPORT, 7, Status::StoreFault, 2, true),
        (IMPORT, 8, Status::StoreFault, 2, true),
        (IMPORT, 9, Status::StoreFault, 2, true),
        (IMPORT, 10, Status::Done, 3, false),
        (IMPORT, 11, Status::Done, 3, false),
        (IMPORT, 12, Status::Done, 3, true),
        (LOAD, 0, Status::StoreFault, 0, false),
        (LOAD, 6, Status::StoreFault, 2, true),
        (LOAD, 10, Status::Done, 3, false),
        (LISTED, 0, Status::StoreFault, 0, false),
        (LISTED, 3, Status::StoreFault, 1, false),
        (LISTED, 12, Status::StoreFault, 2, true),
        (LISTED, 13, Status::Done, 4, false),
    ] {
        let failing = Failing {
            calls: &[call],
            ..NONE_FAILS
        };
        let found = imported_with(&rt, rt.alloc(), words, failing, FIRST)?;
        assert_eq!(rt; found, (status, lines, is_kept), "{words}: call {call}");
    }
    Ok(())
}

// The first command over an empty store, with the calls of its input, its output, the cabinet and the keeper
// that fail. The last status shows whether it has fetched the store.
const ENDS: [(&str, [&[u64]; 4], Status, Status); 21] = [
    (
        IMPORT,
        [FIRST_CALL, NONE, NONE, NONE],
        Status::ReadFault,
        Status::Refused,
    ),
    (
        IMPORT,
        [SECOND_CALL, NONE, FIRST_CALL, NONE],
        Status::ReadFault,
        Status::StoreFault,
    ),
    (
        IMPORT,
        [NONE, NONE, FIRST_CALL, NONE],
        Status::StoreFault,
        Status::Refused,
    ),
    (
        LISTED,
        [NONE, NONE, FIRST_CALL, NONE],
        Status::StoreFault,
        Status::Refused,
    ),
    (
        LISTED,
        [NONE, NONE, NONE, FIRST_CALL],
        Status::StoreFault,
        Status::Refused,
    ),
    (
        FIRST,
        [FIRST_CALL, NONE, FIRST_CALL, NONE],
        Status::StoreFault,
        Status::Refused,
    ),
    (
        FIRST,
        [NONE, NONE, NONE, FIRST_CALL],
        Status::StoreFault,
        Status::Refused,
    ),
    (
        FIRST,
        [NONE, FIRST_CALL, NONE, NONE],
        Status::WriteFault,
        Status::Refused,
    ),
    (
        POSITIONS,
        [NONE, NONE, FIRST_CALL, NONE],
        Status::StoreFault,
        Status::Refused,
    ),
    (
        POSITIONS,
        [NONE, NONE, NONE, FIRST_CALL],
        Status::StoreFault,
        Status::Refused,
    ),
    (
        MARK,
        [FIRST_CALL, NONE, NONE, NONE],
        Status::ReadFault,
        Status::Refused,
    ),
    (
        MARK,
        [SECOND_CALL, NONE, FIRST_CALL, NONE],
        Status::ReadFault,
        Status::StoreFault,
    ),
    (
        MARK,
        [NONE, NONE, FIRST_CALL, NONE],
        Status::StoreFault,
        Status::Refused,
    ),
    (
        MARK,
        [NONE, FIRST_CALL, NONE, NONE],
        Status::WriteFault,
        Status::Refused,
    ),
    (
        EXPORT,
        [FIRST_CALL, NONE, FIRST_CALL, NONE],
        Status::StoreFault,
        Status::Refused,
    ),
    (
        EXPORT,
        [NONE, NONE, NONE, FIRST_CALL],
        Status::StoreFault,
        Status::Refused,
    ),
    (
        CONFIRMATIONS,
        [NONE, NONE, NONE, FIRST_CALL],
        Status::StoreFault,
        Status::Refused,
    ),
    (
        CHECK,
        [NONE, NONE, FIRST_CALL, NONE],
        Status::StoreFault,
        Status::Refused,
    ),
    (
        CHECK,
        [NONE, NONE, NONE, FIRST_CALL],
        Status::StoreFault,
        Status::Refused,
    ),
    (
        LISTING,
        [NONE, FIRST_CALL, NONE, NONE],
        Status::WriteFault,
        Status::Refused,
    ),
    (
        "help",
        [FIRST_CALL, FIRST_CALL, FIRST_CALL, NONE],
        Status::WriteFault,
        Status::StoreFault,
    ),
];

// The place of the first of these commands that ends in another way, or writes anything.
fn first_wrong_end<R: Threads + Sync>(rt: &R, alloc: Global) -> Result<Option<usize>, Fail> {
    for (place, (line, [takes, puts, fetches, calls], status, after)) in ENDS
        .into_iter()
        .enumerate()
    {
        let failing = Failing {
            takes,
            puts,
            fetches,
            calls,
            ..NONE_FAILS
        };
        let both = [failing, NONE_FAILS];
        let (outcome, again) = ask_both(rt, alloc, both, (line, ROWS), (FIRST, b""))?;
        if [outcome.status, again.status] != [status, after] || !outcome.output.bytes().is_empty() {
            return Ok(Some(place));
        }
    }
    Ok(None)
}

#[test]
fn each_object_that_fails_has_its_status(rt: HostRuntime) -> Result<(), Fail> {
    assert_eq!(rt; first_wrong_end(&rt, rt.alloc())?, None);
    Ok(())
}

// How a command over the tables of an import ends, and how many bytes it writes.
fn ended_over<'a, R: Threads + Sync>(
    rt: &R,
    alloc: Global,
    words: &'a str,
    input: &'a [u8],
    failing: Failing<'a>,
) -> Result<(Status, usize), Fail> {
    let both = [failing, NONE_FAILS];
    let (_, outcome) = ask_both(rt, alloc, both, (IMPORT, ROWS), (words, input))?;
    Ok((outcome.status, outcome.output.bytes().len()))
}

// A list of positions asks for two pages, and marks for one issue.
#[test]
fn a_look_up_that_fails_is_not_tried_again(rt: HostRuntime) -> Result<(), Fail> {
    for (words, input, call, wanted) in [
        (POSITIONS, NO_INPUT, CALLS, (Status::StoreFault, 0)),
        (POSITIONS, NO_INPUT, CALLS + 1, (Status::StoreFault, 0)),
        (POSITIONS, NO_INPUT, CALLS + 2, (Status::Done, 39)),
        (MARK, MARKS, CALLS, (Status::StoreFault, 0)),
        (MARK, MARKS, CALLS + 1, (Status::Done, 64)),
    ] {
        let failing = Failing {
            calls: &[call],
            ..NONE_FAILS
        };
        let found = ended_over(&rt, rt.alloc(), words, input, failing)?;
        assert_eq!(rt; found, wanted, "{words}: call {call}");
    }
    Ok(())
}

const NO_INPUT: &[u8] = b"";
