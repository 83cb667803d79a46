//! The objects in memory, each served to its end and through its faults.

ghost use Rattle.std.specs.Prelude.{◌≡◌, ◌+◌, ◌^◌, ◌<◌, ◌≤◌, ◌⊎◌, ℕ, List, IfOk, IfSome, OnErr, OnOk};
ghost use Rattle.std.specs.Io.KnownBytes.{Consumes};
ghost use Rattle.muni_edge.specs.Faults.{Rose};
ghost use Rattle.muni_edge.specs.Sink.{HasWritten};

use muni_edge::{
    Door, Failed, Gate, Link, MemDoor, MemLink, MemSink, MemSource, NoGate, Sink, Source, Steps,
};
use std::alloc::Global;
use std::marker::Brand;
use std::mem::size_of;
use std::sync::ledger::{Blank, Ledger};
use std::test::Fail;

// The number of the first take that is not as listed.
fn first_bad_take<S: Source>(
    source: &mut S,
    takes: &[(Result<usize, Failed>, &[u8])],
) -> Option<usize> {
    let mut room = [b'-'; 3];
    for (number, (want, bytes)) in takes.iter().enumerate() {
        if source.take(&mut room) != *want || room.as_slice() != *bytes {
            return Some(number);
        }
    }
    None
}

#[test]
fn a_source_gives_its_bytes_in_order_and_fails_where_listed(rt: HostRuntime) -> Result<(), Fail> {
    let mut source = MemSource::new(rt.alloc(), b"abcde", &[0, 2])?;
    let takes: [(Result<usize, Failed>, &[u8]); 6] = [
        (Err(Failed), b"---"),
        (Ok(3), b"abc"),
        (Err(Failed), b"abc"),
        (Ok(2), b"dec"),
        (Ok(0), b"dec"),
        (Ok(0), b"dec"),
    ];
    let bad = first_bad_take(&mut source, &takes);
    assert_eq!(rt; bad, None);
    Ok(())
}

// The number of the first put that is not as listed.
fn first_bad_put(sink: &mut MemSink, puts: &[(&[u8], Result<(), Failed>, &[u8])]) -> Option<usize> {
    for (number, (piece, want, held)) in puts.iter().enumerate() {
        if sink.put(piece) != *want || sink.bytes() != *held {
            return Some(number);
        }
    }
    None
}

#[test]
fn a_sink_holds_all_but_the_listed_puts_and_what_is_past_its_room(
    rt: HostRuntime,
) -> Result<(), Fail> {
    let mut sink = MemSink::new(rt.alloc(), 6, &[0, 2])?;
    let puts: [(&[u8], Result<(), Failed>, &[u8]); 7] = [
        (b"abc", Err(Failed), b""),
        (b"abc", Ok(()), b"abc"),
        (b"d", Err(Failed), b"abc"),
        (b"d", Ok(()), b"abcd"),
        (b"efg", Err(Failed), b"abcdef"),
        (b"h", Err(Failed), b"abcdef"),
        (b"", Ok(()), b"abcdef"),
    ];
    let bad = first_bad_put(&mut sink, &puts);
    assert_eq!(rt; bad, None);
    Ok(())
}

/// Takes up to four bytes and puts them back.
fn echo<L: Link>(link: &mut L) -> Result<usize, Failed>
    ensures echoed { IfOk result (λ count. (piece : List ℕ)
        × Consumes (L.left link.old) (L.left link.new) piece
        × HasWritten (L.bytes link.old) (L.bytes link.new) piece) }
    ensures takes { L.Source.faults link.old ≤ L.Source.faults link.new }
    ensures puts { L.Sink.faults link.old ≤ L.Sink.faults link.new }
    ensures cause { OnErr result (Rose (L.Source.faults link.old) (L.Source.faults link.new)
        ⊎ Rose (L.Sink.faults link.old) (L.Sink.faults link.new)) }
{
    let mut room = [0u8; 4];
    let count = link.take(&mut room)?;
    link.put(&room[..count])?;
    Ok(count)
}

// The number of the first turn that is not as listed.
fn first_bad_turn(link: &mut MemLink, turns: &[(Result<usize, Failed>, &[u8])]) -> Option<usize> {
    for (number, (want, written)) in turns.iter().enumerate() {
        if echo(link) != *want || link.written() != *written {
            return Some(number);
        }
    }
    None
}

#[test]
fn a_link_counts_its_takes_and_its_puts_apart(rt: HostRuntime) -> Result<(), Fail> {
    let mut link = MemLink::new(rt.alloc(), b"abcdefghij", 20, &[1], &[1])?;
    let turns: [(Result<usize, Failed>, &[u8]); 5] = [
        (Ok(4), b"abcd"),
        (Err(Failed), b"abcd"),
        (Err(Failed), b"abcd"),
        (Ok(2), b"abcdij"),
        (Ok(0), b"abcdij"),
    ];
    let bad = first_bad_turn(&mut link, &turns);
    assert_eq!(rt; bad, None);
    Ok(())
}

/// Serves the link that waits first. Answers whether there was one.
fn serve_first<D: Door>(door: &mut D, port: u16) -> Result<bool, Failed>
    ensures cause { OnErr result (Rose (D.faults door.old) (D.faults door.new)) }
    ensures all_in { OnOk result (IfSome (D.state door.old)
        (λ old. IfSome (D.state door.new) (λ new. new.out ≡ old.out))) }
{
    door.bind(port)?;
    let Some(mut link) = door.accept()? else {
        return Ok(false);
    };
    let _ = echo(&mut link);
    door.hand_back(link);
    Ok(true)
}

// The number of the first turn whose answer is not as listed.
fn first_bad_serving<D: Door>(door: &mut D, answers: &[Result<bool, Failed>]) -> Option<usize> {
    for (number, want) in answers.iter().enumerate() {
        if serve_first(door, 80) != *want {
            return Some(number);
        }
    }
    None
}

// A door with two links waiting, whose first and fifth calls fail.
fn door_of_two(alloc: Global) -> Result<MemDoor, Fail> {
    let waiting = vec![in alloc;
        MemLink::new(alloc, b"one", 8, &[], &[])?,
        MemLink::new(alloc, b"two", 2, &[], &[])?,
    ]?;
    Ok(MemDoor::new(alloc, waiting, &[0, 4])?)
}

fn have_written(links: &[MemLink], texts: &[&[u8]]) -> bool {
    for (link, text) in links.iter().zip(texts) {
        if link.written() != *text {
            return false;
        }
    }
    links.len() == texts.len()
}

#[test]
fn a_door_is_served_to_its_end_past_its_faults(rt: HostRuntime) -> Result<(), Fail> {
    let mut door = door_of_two(rt.alloc())?;
    let bad = first_bad_serving(
        &mut door,
        &[Err(Failed), Ok(true), Err(Failed), Ok(true), Ok(false)],
    );
    let all = have_written(door.served(), &[b"one", b"tw"]);
    assert_eq!(rt; (bad, all), (None, true));
    Ok(())
}

#[test]
fn a_source_of_no_bytes_is_at_its_end(rt: HostRuntime) -> Result<(), Fail> {
    let mut source = MemSource::new(rt.alloc(), b"", &[])?;
    assert_eq!(rt; first_bad_take(&mut source, &[(Ok(0), b"---")]), None);
    Ok(())
}

#[test]
fn a_sink_with_no_room_takes_nothing_alone(rt: HostRuntime) -> Result<(), Fail> {
    let mut sink = MemSink::new(rt.alloc(), 0, &[])?;
    let puts: [(&[u8], Result<(), Failed>, &[u8]); 2] = [
        (b"", Ok(()), b""),
        (b"a", Err(Failed), b""),
    ];
    let bad = first_bad_put(&mut sink, &puts);
    assert_eq!(rt; bad, None);
    Ok(())
}

#[test]
fn a_link_with_no_bytes_and_no_room_serves(rt: HostRuntime) -> Result<(), Fail> {
    let mut link = MemLink::new(rt.alloc(), b"", 0, &[], &[])?;
    assert_eq!(rt; first_bad_turn(&mut link, &[(Ok(0), b"")]), None);
    Ok(())
}

#[test]
fn a_door_with_no_links_serves_none(rt: HostRuntime) -> Result<(), Fail> {
    let mut door = MemDoor::new(rt.alloc(), vec![in rt.alloc();]?, &[])?;
    let bad = first_bad_serving(&mut door, &[Ok(false)]);
    assert_eq!(rt; (bad, door.served().len()), (None, 0));
    Ok(())
}

fn crosses<T: Send + Sync>(_value: &T) {}

#[test]
fn each_object_may_cross_threads(rt: HostRuntime) -> Result<(), Fail> {
    let alloc = rt.alloc();
    NoGate.start(1, 0);
    crosses(&NoGate);
    crosses(&MemSource::new(alloc, b"", &[])?);
    crosses(&MemSink::new(alloc, 0, &[])?);
    crosses(&MemLink::new(alloc, b"", 0, &[], &[])?);
    crosses(&MemDoor::new(alloc, vec![in alloc;]?, &[])?);
    Ok(())
}

fn tick_often<L: Ledger>(times: u32, steps: &mut Steps<L>)
    requires { steps.old < 2 ^ 63 }
    ensures { steps.new ≡ steps.old + times }
{
    for _turn in 0..times {
        steps.tick();
    }
}

/// Counts on a counter of its own.
fn count<L: Ledger>(blank: Blank, times: u32) -> u32
    requires name { blank.name ≡ L.name }
    requires parts { blank.parts ≡ L.parts }
    requires some { 0 < blank.parts }
{
    let mut steps = Steps::<L>::open(blank);
    tick_often(times, &mut steps);
    times
}

#[test]
fn a_counter_of_steps_takes_no_bytes(rt: HostRuntime) {
    assert_eq!(rt; size_of::<Steps<Brand>>(), 0);
    assert_eq!(rt; count::<Brand>(Blank::new(1), 3), 3);
}
