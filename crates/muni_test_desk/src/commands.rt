mod faults;
mod gates;
mod journals;
mod kept;
mod looks;
mod quotes;
mod runs;
mod watch;

ghost use Rattle.std.specs.Prelude.{◌≡◌, None, IfOk};

use muni_desk::{Status, desk};
use muni_edge::{Gate, MemDoor, MemLink, MemSink, MemSource};
use muni_keep::{Cabinet, MemCabinet, MemKeeper};
use muni_multi::Encloser;
use std::alloc::Global;
use std::test::Fail;
use std::thread::Threads;
use watch::Watch;

/// Which calls of each object fail, counted from 0, and for how many bytes the output has room.
#[derive(Clone, Copy)]
struct Failing<'a> {
    /// Of the input.
    takes: &'a [u64],
    /// Of the output.
    puts: &'a [u64],
    room: usize,
    /// Of the cabinet.
    fetches: &'a [u64],
    /// Of the keeper that it lends.
    calls: &'a [u64],
    /// Of the door, whose first call binds it.
    accepts: &'a [u64],
    /// Of the first client, in reading.
    client_takes: &'a [u64],
    /// Of the first client, in writing.
    client_puts: &'a [u64],
}

const NONE: &[u64] = &[];

const NONE_FAILS: Failing<'static> = Failing {
    takes: NONE,
    puts: NONE,
    room: 4096,
    fetches: NONE,
    calls: NONE,
    accepts: NONE,
    client_takes: NONE,
    client_puts: NONE,
};

/// A command, and its input.
#[derive(Clone, Copy)]
struct Asked<'a> {
    /// The words, with a blank between those of one text.
    words: &'a [&'a str],
    /// The input, which also each of two clients sends that wait at the door.
    input: &'a [u8],
    failing: Failing<'a>,
}

/// How a command ended, and what it wrote.
#[derive(Drop)]
struct Outcome {
    status: Status,
    output: MemSink,
    door: MemDoor,
}

fn words_of(alloc: Global, texts: &[&str]) -> Result<Vec<String>, Fail> {
    let mut words = Vec::new(alloc);
    for text in texts {
        for word in text.split(' ') {
            words.push(String::from_str(alloc, word)?)?;
        }
    }
    Ok(words)
}

// What was written, with a slash for each line end but the last.
fn written(alloc: Global, output: &MemSink) -> Result<String, Fail> {
    let text = str::from_utf8(output.bytes()).ok().ok_or("a text")?;
    Ok(text.trim_end_matches('\n').replace(alloc, "\n", "/")?)
}

// A door at which two clients wait that send the input.
fn door_of(alloc: Global, asked: &Asked<'_>) -> Result<MemDoor, Fail> {
    let mut links = Vec::new(alloc);
    for failing in [asked.failing, NONE_FAILS] {
        let (takes, puts) = (failing.client_takes, failing.client_puts);
        links.push(MemLink::new(alloc, asked.input, 1024, takes, puts)?)?;
    }
    Ok(MemDoor::new(alloc, links, asked.failing.accepts)?)
}

// How a command over a cabinet ends.
fn ask<R: Threads + Sync, C: Cabinet, E: Encloser + Sync, G: Gate + Sync>(
    rt: &R,
    alloc: Global,
    asked: &Asked<'_>,
    cabinet: &mut C,
    encloser: &E,
    gate: &G,
) -> Result<Outcome, Fail>
    requires { C.out cabinet.old ≡ None }
    ensures { C.out cabinet.new ≡ None }
{
    let words = words_of(alloc, asked.words)?;
    let mut input = MemSource::new(alloc, asked.input, asked.failing.takes)?;
    let mut output = MemSink::new(alloc, asked.failing.room, asked.failing.puts)?;
    let mut door = door_of(alloc, asked)?;
    let status = desk(
        rt,
        alloc,
        &words,
        &mut input,
        &mut output,
        cabinet,
        &mut door,
        encloser,
        gate,
    );
    Ok(Outcome {
        status,
        output,
        door,
    })
}

// How two commands over a cabinet end, one after the other, with what fails at each.
fn ask_over<'a, R: Threads + Sync, C: Cabinet>(
    rt: &R,
    alloc: Global,
    cabinet: &mut C,
    failing: [Failing<'a>; 2],
    first: (&'a str, &'a [u8]),
    second: (&'a str, &'a [u8]),
) -> Result<(Outcome, Outcome), Fail>
    requires { C.out cabinet.old ≡ None }
    ensures { C.out cabinet.new ≡ None }
{
    let [before, after] = failing;
    let idle = Watch::idle();
    let asked = Asked {
        words: &[first.0],
        input: first.1,
        failing: before,
    };
    let before = ask(rt, alloc, &asked, cabinet, &idle, &idle)?;
    let asked = Asked {
        words: &[second.0],
        input: second.1,
        failing: after,
    };
    let after = ask(rt, alloc, &asked, cabinet, &idle, &idle)?;
    Ok((before, after))
}

// A cabinet with the empty store S. Its calls fail, and those of its keeper, counted over all commands.
fn cabinet_of(alloc: Global, failing: Failing<'_>) -> Result<MemCabinet, Fail>
    ensures { IfOk result (λ cabinet. cabinet.out ≡ None) }
{
    let mut keepers = Vec::new(alloc);
    keepers.push((b"S".to_vec(alloc)?, MemKeeper::new(alloc, failing.calls)?))?;
    Ok(MemCabinet::new(alloc, keepers, failing.fetches)?)
}

// How two commands over a new cabinet end, whose calls fail if the first says so.
fn ask_both<'a, R: Threads + Sync>(
    rt: &R,
    alloc: Global,
    failing: [Failing<'a>; 2],
    first: (&'a str, &'a [u8]),
    second: (&'a str, &'a [u8]),
) -> Result<(Outcome, Outcome), Fail> {
    let [before, after] = failing;
    let mut cabinet = cabinet_of(alloc, before)?;
    ask_over(rt, alloc, &mut cabinet, [before, after], first, second)
}

// How a command ends that needs no input, no store and no door: any call of them fails.
fn ask_alone<R: Threads + Sync, E: Encloser + Sync, G: Gate + Sync>(
    rt: &R,
    alloc: Global,
    words: &[&str],
    encloser: &E,
    gate: &G,
) -> Result<Outcome, Fail> {
    let asked = Asked {
        words,
        input: b"",
        failing: Failing {
            takes: &[0],
            accepts: &[0],
            ..NONE_FAILS
        },
    };
    let mut cabinet = MemCabinet::new(alloc, Vec::new(alloc), &[0])?;
    ask(rt, alloc, &asked, &mut cabinet, encloser, gate)
}
