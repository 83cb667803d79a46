//! The bytes of a connection, which come in pieces.

ghost use Rattle.std.specs.Prelude.{◌≡◌, ◌≤◌, ◌<◌, ◌+◌, ◌-◌, ◌==◌, ◌&&◌, ℕ, List, true, not, length, min, take, drop, nat_lt, ◌++◌, IfOk, OnOk, vec_len};
ghost use Rattle.std.specs.Io.KnownBytes.{Consumes, IsAtEnd};
ghost use Rattle.std.specs.List.{list_any};
ghost use Rattle.httparse.specs.Grammar.{HasNoRequest};
ghost use Rattle.muni_wire.specs.Extent.{IsTake, TakesAtMost, TakesHead, TakesOnlyWhile, piece_limit};
ghost use Rattle.muni_wire.specs.Faults.{TakesOnly};
ghost use Rattle.muni_wire.specs.Head.{EndsInHead, head_limit};
ghost use Rattle.muni_wire.specs.Taken as spec;
ghost use Rattle.muni_wire.specs.Taken.{AreBefore, IsHeadOf, IsSeenIn};

use crate::head::{Head, look};
use crate::router::Routes;
use muni_edge::{Failed, Link};
use muni_wire_body::WireFault;
use std::alloc::Global;

/// Reads the head of a request, and returns it with all that was taken.
pub(crate) fn read_head<L: Link>(
    routes: &Routes,
    alloc: Global,
    link: &mut L,
) -> Result<(Head, Vec<u8>), WireFault>
    ensures limit { IfOk result (λ read. vec_len read.1 ≤ head_limit) }
    ensures head { IfOk result (λ read. IsHeadOf read.0 read.1.items (L.left link.new)) }
    ensures taken { IfOk result
        (λ read. Consumes (L.left link.old) (L.left link.new) read.1.items) }
    ensures no_further { TakesHead L.Source link.old link.new }
    ensures takes { TakesOnly L.Source L.Sink result link.old link.new }
{
    let mut bytes = Vec::new(alloc);
    let mut has_begun = false;
    // Each take but the last brings a byte, so that no more of them than these are made.
    for _turn in 0..16_385usize {
        let count = take_more(link, &mut bytes, 16_384)?;
        let head = look_behind_lines(routes, &bytes, count, &mut has_begun);
        if head.is_settled(count) {
            return Ok((head, bytes));
        }
    }
    unreachable!()
}

// Looks at what has come, if a line has ended in the last `count` bytes. A head ends with a line, and
// empty lines may come before it. So a head that comes byte by byte is not looked at byte by byte.
fn look_behind_lines(routes: &Routes, bytes: &[u8], count: usize, has_begun: &mut bool) -> Head
    requires limit { length bytes.now ≤ head_limit }
    requires count { count ≤ length bytes.now }
    requires before { AreBefore (take (length bytes.now - count) bytes.now) has_begun.old }

    ensures begun { has_begun.new ≡ spec.has_text bytes.now }
    ensures seen { IsSeenIn bytes.now result }
    ensures awaited { result ≡ Head.More → HasNoRequest bytes.now × length bytes.now < head_limit }
    ensures last { result ≡ Head.More → count ≡ 0 → EndsInHead bytes.now }
{
    *has_begun |= has_text(&bytes[bytes.len() - count..]);
    if is_within_line(bytes, count, *has_begun) {
        return Head::More;
    }
    look(routes, bytes)
}

// Whether some bytes came, but no end of a line of a head that has begun, and more may come.
fn is_within_line(bytes: &[u8], count: usize, has_begun: bool) -> bool
    requires { count ≤ length bytes.now }

    ensures value { result ≡ ((nat_lt 0 count) && ((nat_lt (length bytes.now) head_limit)
        && (not (has_begun && list_any (λ b. b == 10) (drop (length bytes.now - count) bytes.now))))) }
    ensures some { result ≡ true → (0 < count) × (length bytes.now < head_limit) }
{
    let last = &bytes[bytes.len() - count..];
    count > 0 && bytes.len() < 16_384 && !(has_begun && last.contains(&b'\n'))
}

// Whether there is more than ends of lines.
fn has_text(bytes: &[u8]) -> bool
    ensures { result ≡ spec.has_text bytes.now }
{
    bytes.iter().any(|b| !(*b == b'\r' || *b == b'\n'))
}

/// Takes until there are `limit` bytes, or none is left.
pub(crate) fn fill<L: Link>(
    link: &mut L,
    bytes: &mut Vec<u8>,
    limit: usize,
) -> Result<(), WireFault>
    requires { limit ≤ 81_920 }

    ensures taken { OnOk result ((piece : List ℕ) × Consumes (L.left link.old) (L.left link.new) piece
        × (bytes.new.items ≡ bytes.old.items ++ piece)) }
    ensures end { OnOk result (vec_len bytes.new < limit → IsAtEnd (L.left link.new)) }
    ensures few { TakesAtMost (limit - vec_len bytes.old) (L.left link.old) (L.left link.new) }
    ensures ready { TakesOnlyWhile L.Source (λ before. length bytes.old.items + length before < limit)
        link.old link.new }
    ensures takes { TakesOnly L.Source L.Sink result link.old link.new }
{
    // Each take but the last brings a byte here too.
    for _turn in 0..81_921usize {
        if bytes.len() >= limit {
            return Ok(());
        }
        if take_more(link, bytes, limit)? == 0 {
            return Ok(());
        }
    }
    unreachable!()
}

// Takes the next piece after the bytes that are there, which become no more than a limit, and returns
// how many it has. 0 is the end.
fn take_more<L: Link>(link: &mut L, bytes: &mut Vec<u8>, limit: usize) -> Result<usize, WireFault>
    requires { vec_len bytes.old < limit }

    ensures count { IfOk result (λ count. vec_len bytes.new ≡ vec_len bytes.old + count) }
    ensures limit { IfOk result (λ count. vec_len bytes.new ≤ limit) }
    ensures taken { IfOk result (λ count. (piece : List ℕ)
        × Consumes (L.left link.old) (L.left link.new) piece
        × (bytes.new.items ≡ bytes.old.items ++ piece)) }
    ensures end { IfOk result (λ count. count ≡ 0 → IsAtEnd (L.left link.new)) }
    ensures one { IsTake L.Source (min piece_limit (limit - vec_len bytes.old)) link.old link.new }
    ensures takes { TakesOnly L.Source L.Sink result link.old link.new }
{
    let mut room = [0u8; 1024];
    let size = (limit - bytes.len()).min(1024);
    let count = match link.take(&mut room[..size]) {
        Ok(count) => count,
        Err(Failed) => return Err(WireFault::LinkFault),
    };
    if bytes.extend_from_slice(&room[..count]).is_err() {
        return Err(WireFault::NoMemory);
    }
    Ok(count)
}
