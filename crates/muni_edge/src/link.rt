//! One connection, which bytes are taken from and written to.

ghost use Rattle.std.specs.Prelude.{◌≡◌, ◌<◌, ◌++◌, ℕ, Some, length, min, take, drop, is_ok, not, OnOk, OnErr, IfOk};
ghost use Rattle.muni_edge.specs.Calls.{is_listed};
ghost use Rattle.muni_edge.specs.Faults.{CountsFaults};
ghost use Rattle.muni_edge.specs.MemSource.{after_take};
ghost use Rattle.muni_edge.specs.MemSink.{fails_to_put, after_put};
ghost use Rattle.muni_edge.specs.MemLink.{new_link};

use crate::fault::{Failed, NoMemory};
use crate::sink::{MemSink, Sink};
use crate::source::{MemSource, Source};
use std::alloc::Global;
use std::marker::Model;

/// One connection. It has a count of faults for takes and one for puts.
///
/// Generic code learns from its members that a take leaves what was put, and a put what is left.
pub trait Link: Source + Sink {
    /// A take leaves the bytes that were put.
    ghost take_keeps_bytes: { (old new : Self) → Self.take_keeps old new
        → Self.bytes new ≡ Self.bytes old };

    /// A take leaves the count of puts that failed.
    ghost take_keeps_faults: { (old new : Self) → Self.take_keeps old new
        → Self.Sink.faults new ≡ Self.Sink.faults old };

    /// A put leaves the bytes that are to be taken.
    ghost put_keeps_left: { (old new : Self) → Self.put_keeps old new
        → Self.left new ≡ Self.left old };

    /// A put leaves the count of takes that failed.
    ghost put_keeps_faults: { (old new : Self) → Self.put_keeps old new
        → Self.Source.faults new ≡ Self.Source.faults old };
}

/// A connection in memory: bytes to be taken, and room for those that are put. The takes of the
/// listed numbers fail and so do the puts, each counted from 0.
#[derive(Drop)]
pub struct MemLink {
    source: MemSource,
    sink: MemSink,
}

impl Model for MemLink {
    ghost use Rattle.muni_edge.specs.MemLink.{LinkState};

    ghost Value = { LinkState };

    ghost view = { λ l. record { source = l.source; sink = l.sink } };
}

impl MemLink {
    /// A connection whose other end has sent `bytes`, with room for `room` bytes in answer.
    pub fn new(
        alloc: Global,
        bytes: &[u8],
        room: usize,
        failing_takes: &[u64],
        failing_puts: &[u64],
    ) -> Result<MemLink, NoMemory>
        ensures { IfOk result
            (λ link. link ≡ new_link bytes.now room failing_takes.now failing_puts.now) }
    {
        Ok(MemLink {
            source: MemSource::new(alloc, bytes, failing_takes)?,
            sink: MemSink::new(alloc, room, failing_puts)?,
        })
    }

    /// The bytes that were put.
    pub fn written(&self) -> &[u8]
        ensures { result.now ≡ self.now.sink.bytes }
    {
        self.sink.bytes()
    }
}

impl Source for MemLink {
    ghost left = { λ link. Some link.source.left };

    ghost faults = { λ link. link.source.calls.faults };

    ghost take_keeps = { λ old new. new.sink ≡ old.sink };

    fn take(&mut self, room: &mut [u8]) -> Result<usize, Failed>
        requires { 0 < length room.old }

        // It is a take from its source.
        // promise 9: a connection in memory fails to read exactly at the listed calls
        ensures fails { is_ok result ≡ not (is_listed self.old.source.calls) }
        ensures count { IfOk result
            (λ count. count ≡ min (length room.old) (length self.old.source.left)) }
        ensures moved { IfOk result
            (λ count. self.old.source.left ≡ take count room.new ++ self.new.source.left) }
        ensures beyond { IfOk result (λ count. drop count room.new ≡ drop count room.old) }
        ensures after { self.new.source ≡ after_take self.old.source (length room.old) }
        ensures keeps { self.new.sink ≡ self.old.sink }
        // promise 9: and counts exactly that
        ensures counts { CountsFaults self.old.source.calls.faults self.new.source.calls.faults result }
    {
        self.source.take(room)
    }
}

impl Sink for MemLink {
    ghost bytes = { λ link. Some link.sink.bytes };

    ghost faults = { λ link. link.sink.calls.faults };

    ghost put_keeps = { λ old new. new.source ≡ old.source };

    fn put(&mut self, piece: &[u8]) -> Result<(), Failed>
        // It is a put into its sink.
        // promise 9: a connection in memory fails to write exactly at the listed calls, or past its room
        ensures fails { is_ok result ≡ not (fails_to_put self.old.sink (length piece.now)) }
        ensures written { OnOk result (self.new.sink.bytes ≡ self.old.sink.bytes ++ piece.now) }
        ensures part { OnErr result
            ((count : ℕ) × (self.new.sink.bytes ≡ self.old.sink.bytes ++ take count piece.now)) }
        ensures after { self.new.sink ≡ after_put self.old.sink piece.now }
        ensures keeps { self.new.source ≡ self.old.source }
        // promise 9: and counts exactly that
        ensures counts { CountsFaults self.old.sink.calls.faults self.new.sink.calls.faults result }
    {
        self.sink.put(piece)
    }
}

impl Link for MemLink {
    ghost use Rattle.std.proofs.Common.{ap};

    ghost take_keeps_bytes = { λ old new same. ap (λ sink. Some sink.bytes) same };

    ghost take_keeps_faults = { λ old new same. ap (λ sink. sink.calls.faults) same };

    ghost put_keeps_left = { λ old new same. ap (λ source. Some source.left) same };

    ghost put_keeps_faults = { λ old new same. ap (λ source. source.calls.faults) same };
}
