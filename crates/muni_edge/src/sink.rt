//! What bytes are written to.

ghost use Rattle.std.specs.Prelude.{◌≡◌, ◌++◌, ℕ, List, Option, Some, length, take, is_ok, not, OnOk, OnErr, IfOk};
ghost use Rattle.muni_edge.specs.Faults.{CountsFaults};
ghost use Rattle.muni_edge.specs.Sink.{Puts};
ghost use Rattle.muni_edge.specs.MemSink.{new_sink, fails_to_put, after_put};

use crate::calls::Calls;
use crate::fault::{Failed, NoMemory};
use std::alloc::Global;
use std::marker::Model;

/// What bytes are written to.
pub trait Sink {
    /// The bytes that it holds, where it tells them.
    ghost bytes: { Self → Option (List ℕ) };

    /// How often it has failed.
    ghost faults: { Self → ℕ };

    /// What a put leaves alone beside the bytes, said of the object before and after: for a sink
    /// that is nothing else, nothing.
    ghost put_keeps: { Self → Self → Type 0 } = { λ _ _. Unit {0} };

    /// Appends the piece, or after a failure a prefix of it. What succeeds counts no fault.
    fn put(&mut self, piece: &[u8]) -> Result<(), Failed>
        // promise 9: a put appends the piece, and after a failure a front part of it
        ensures puts { Puts (bytes self.old) (bytes self.new) piece.now result }
        // promise 9: a put counts a fault exactly if it says that it failed
        ensures counts { CountsFaults (faults self.old) (faults self.new) result }
        ensures keeps { put_keeps self.old self.new };
}

/// A sink in memory. The puts of the listed numbers fail, counted from 0, and so does a put past
/// its room, which appends what fits.
#[derive(Drop)]
pub struct MemSink {
    bytes: Vec<u8>,
    room: usize,
    calls: Calls,
}

impl Model for MemSink {
    ghost use Rattle.std.specs.Prelude.{◌≤◌, vec_len, vec_capacity};
    ghost use Rattle.muni_edge.specs.MemSink.{SinkState};

    ghost Value = { SinkState };

    ghost view = { λ s. record { bytes = s.bytes.items; room = s.room; calls = s.calls } };

    ghost invariant = { λ s. (vec_len s.bytes ≤ s.room) × (s.room ≤ vec_capacity s.bytes) };
}

impl MemSink {
    /// An empty sink with room for `room` bytes in all.
    pub fn new(alloc: Global, room: usize, failing: &[u64]) -> Result<MemSink, NoMemory>
        ensures { IfOk result (λ sink. sink ≡ new_sink room failing.now) }
    {
        Ok(MemSink {
            bytes: Vec::with_capacity(alloc, room)?,
            room,
            calls: Calls::new(alloc, failing)?,
        })
    }

    /// The bytes that were put.
    pub fn bytes(&self) -> &[u8]
        ensures { result.now ≡ self.now.bytes }
    {
        self.bytes.as_slice()
    }
}

impl Sink for MemSink {
    ghost bytes = { λ sink. Some sink.bytes };

    ghost faults = { λ sink. sink.calls.faults };

    fn put(&mut self, piece: &[u8]) -> Result<(), Failed>
        // It fails exactly at the listed calls and past its room.
        // promise 9: an output in memory fails exactly at the listed calls, or past its room
        ensures fails { is_ok result ≡ not (fails_to_put self.old (length piece.now)) }
        ensures written { OnOk result (self.new.bytes ≡ self.old.bytes ++ piece.now) }
        ensures part { OnErr result
            ((count : ℕ) × (self.new.bytes ≡ self.old.bytes ++ take count piece.now)) }
        ensures after { self.new ≡ after_put self.old piece.now }
        // promise 9: and counts exactly that
        ensures counts { CountsFaults self.old.calls.faults self.new.calls.faults result }
    {
        self.calls.make()?;
        let left = self.room - self.bytes.len();
        if piece.len() > left {
            let _ = self.bytes.extend_from_slice(&piece[..left]);
            return Err(self.calls.fail());
        }
        let _ = self.bytes.extend_from_slice(piece);
        Ok(())
    }
}
