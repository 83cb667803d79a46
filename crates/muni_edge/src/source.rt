//! What bytes are taken from.

ghost use Rattle.std.specs.Prelude.{◌≡◌, ◌<◌, ◌≤◌, ◌++◌, ℕ, List, Option, Some, length, min, take, drop, is_ok, not, IfOk};
ghost use Rattle.muni_edge.specs.Calls.{is_listed};
ghost use Rattle.muni_edge.specs.Faults.{CountsFaults};
ghost use Rattle.muni_edge.specs.Source.{Takes};
ghost use Rattle.muni_edge.specs.MemSource.{new_source, after_take};

use crate::calls::Calls;
use crate::fault::{Failed, NoMemory};
use std::alloc::Global;
use std::marker::Model;

/// What bytes are taken from.
pub trait Source {
    /// The bytes that are left, where it tells them.
    ghost left: { Self → Option (List ℕ) };

    /// How often it has failed.
    ghost faults: { Self → ℕ };

    /// What a take leaves alone beside the bytes, said of the object before and after: for a source
    /// that is nothing else, nothing.
    ghost take_keeps: { Self → Self → Type 0 } = { λ _ _. Unit {0} };

    /// Moves the next bytes to the front of `room`, and returns how many. 0 is the end of input. What
    /// succeeds counts no fault.
    ///
    /// The rest of `room`, and after a failure all of it, may hold anything.
    fn take(&mut self, room: &mut [u8]) -> Result<usize, Failed>
        requires { 0 < length room.old }

        ensures within { IfOk result (λ count. count ≤ length room.old) }
        // promise 10: a take moves first bytes of what is left, none only at the end or without room
        ensures takes { Takes (left self.old) (left self.new) room.new result }
        // promise 9: a take counts a fault exactly if it says that it failed
        ensures counts { CountsFaults (faults self.old) (faults self.new) result }
        ensures keeps { take_keeps self.old self.new };
}

/// A source in memory. The takes of the listed numbers fail, counted from 0.
#[derive(Drop)]
pub struct MemSource {
    bytes: Vec<u8>,
    taken: usize,
    calls: Calls,
}

impl Model for MemSource {
    ghost use Rattle.std.specs.Prelude.{◌≤◌, drop, vec_len};
    ghost use Rattle.muni_edge.specs.MemSource.{SourceState};

    ghost Value = { SourceState };

    ghost view = { λ s. record { left = drop s.taken s.bytes.items; calls = s.calls } };

    ghost invariant = { λ s. s.taken ≤ vec_len s.bytes };
}

impl MemSource {
    /// A source of `bytes`.
    pub fn new(alloc: Global, bytes: &[u8], failing: &[u64]) -> Result<MemSource, NoMemory>
        ensures { IfOk result (λ source. source ≡ new_source bytes.now failing.now) }
    {
        Ok(MemSource {
            bytes: bytes.to_vec(alloc)?,
            taken: 0,
            calls: Calls::new(alloc, failing)?,
        })
    }
}

impl Source for MemSource {
    ghost left = { λ source. Some source.left };

    ghost faults = { λ source. source.calls.faults };

    fn take(&mut self, room: &mut [u8]) -> Result<usize, Failed>
        requires { 0 < length room.old }

        // It fails exactly at the listed calls, and else moves all that is left and fits.
        // promise 9: an input in memory fails exactly at the listed calls
        ensures fails { is_ok result ≡ not (is_listed self.old.calls) }
        ensures count { IfOk result
            (λ count. count ≡ min (length room.old) (length self.old.left)) }
        ensures moved { IfOk result
            (λ count. self.old.left ≡ take count room.new ++ self.new.left) }
        ensures beyond { IfOk result (λ count. drop count room.new ≡ drop count room.old) }
        ensures after { self.new ≡ after_take self.old (length room.old) }
        // promise 9: and counts exactly that
        ensures counts { CountsFaults self.old.calls.faults self.new.calls.faults result }
    {
        self.calls.make()?;
        let count = fill_front(room, &self.bytes[self.taken..]);
        self.taken += count;
        Ok(count)
    }
}

/// Copies the bytes that fit to the front of `room`, and returns how many.
fn fill_front(room: &mut [u8], bytes: &[u8]) -> usize
    ensures count { result ≡ min (length room.old) (length bytes.now) }
    ensures front { take result room.new ≡ take result bytes.now }
    ensures beyond { drop result room.new ≡ drop result room.old }
{
    let count = room.len().min(bytes.len());
    room[..count].copy_from_slice(&bytes[..count]);
    count
}
