//! A disk in memory.

ghost use Rattle.std.specs.Prelude.{◌≡◌, ◌≤◌, ◌+◌, ◌<◌, ◌^◌, ℕ, List, Some, Err, [], drop, slice_get, IfSome, false, length, IfOk, OnOk, OnErr};
ghost use Rattle.muni_journal_disk.specs.Bytes.{byte_at, bytes_at, StandsAt};
ghost use Rattle.muni_journal_disk.specs.Disk.{ReadsAs, IfRead, IsTorn};
ghost use Rattle.muni_journal_disk.specs.declared.past.MadeCall.{MadeCall};
ghost use Rattle.muni_journal_disk.specs.Past.{is_unsure, synced_bytes, IsImage, call_of, IsStopped, IsRead, IsWrite, IsSync};
ghost use Rattle.muni_journal_disk.specs.Moments.{WasImage, at_present, is_present};

use crate::bytes::{fill, overlaid};
use crate::disk::Disk;
use crate::fault::DiskFault;
use crate::past::{MadeCall, Piece, Step};
use muni_edge::Faults;
use std::alloc::{AllocError, Global};
use std::collections::VecDeque;

/// A disk in memory. The calls of the listed numbers fail, counted from 0.
///
/// It remembers its calls, and what it read as before each. A call that finds no memory for that
/// changes nothing, and is not counted.
#[derive(Drop)]
pub struct MemDisk {
    alloc: Global,
    first: Vec<u8>,
    bytes: Vec<u8>,
    past: VecDeque<MadeCall>,
    failing: Vec<u64>,
    faults: Faults,
    // What it read as before a call was an image then.
    ghost truth: { (k : ℕ) (call : MadeCall) → slice_get past.items k ≡ Some call → IsImage first.items (drop (k + 1) past.items) call.before.items },
    ghost sure: { (i : ℕ) → is_unsure past.items i ≡ false → byte_at bytes.items i ≡ byte_at (synced_bytes first.items past.items) i },
}

/// The bytes that a stop within a call leaves, after a number of bytes of its piece were written.
fn stopped(alloc: Global, call: &MadeCall, kept: usize) -> Result<Vec<u8>, AllocError>
    ensures { IfOk result
        (λ bytes. IsStopped call.now.before.items kept bytes.items call.now.step) }
{
    match &call.step {
        Step::Write(piece) => {
            let kept = kept.min(piece.bytes.len());
            let part = &piece.bytes[..kept];
            overlaid(alloc, &call.before, piece.place as usize, part)
        }
        Step::Read | Step::Synced | Step::Unsynced => call.before.to_vec(alloc),
    }
}

impl MemDisk {
    ghost use Rattle.muni_journal_disk.specs.MemDisk.{IsLeftByStop};

    /// An empty disk.
    pub fn new(alloc: Global, failing: &[u64]) -> Result<MemDisk, DiskFault>
        ensures empty { IfOk result (λ disk. (disk.first.items ≡ []) × (disk.bytes.items ≡ [])) }
        ensures fresh { IfOk result (λ disk. disk.past.items ≡ []) }
        ensures failing { IfOk result (λ disk. disk.failing.items ≡ failing.now) }
        ensures uncounted { IfOk result (λ disk. disk.faults ≡ 0) }
        ensures memory { OnErr result (result ≡ Err DiskFault.NoMemory) }
    {
        Ok(MemDisk {
            alloc,
            first: Vec::new(alloc),
            bytes: Vec::new(alloc),
            past: VecDeque::new(alloc),
            failing: failing.to_vec(alloc)?,
            faults: Faults::none(),
        })
    }

    /// How many calls were made.
    pub fn calls(&self) -> usize
        ensures { result ≡ length self.now.past.items }
    {
        self.past.len()
    }

    /// The disk that a stop within the call of a number leaves, after the first `kept` bytes of what
    /// that call was to write were written, or all if it had fewer. If no call has that number it is
    /// the disk as it is now. No call of it fails.
    pub fn after_stop(&self, number: usize, kept: usize) -> Result<MemDisk, DiskFault>
        ensures left { IfOk result (λ disk. IsLeftByStop self.now number kept disk.bytes.items) }
        ensures fresh { IfOk result (λ disk.
            (disk.past.items ≡ []) × (disk.failing.items ≡ []) × (disk.faults ≡ 0)) }
        ensures memory { OnErr result (result ≡ Err DiskFault.NoMemory) }
    {
        let bytes = self.stopped_at(number, kept)?;
        Ok(MemDisk {
            alloc: self.alloc,
            first: bytes.as_slice().to_vec(self.alloc)?,
            bytes,
            past: VecDeque::new(self.alloc),
            failing: Vec::new(self.alloc),
            faults: Faults::none(),
        })
    }

    fn stopped_at(&self, number: usize, kept: usize) -> Result<Vec<u8>, AllocError>
        ensures { IfOk result (λ bytes. IsLeftByStop self.now number kept bytes.items) }
    {
        let calls = self.past.len();
        if number >= calls {
            return Ok(self.bytes.to_vec(self.alloc)?);
        }
        let Some(call) = self.past.get(calls - 1 - number) else {
            unreachable!()
        };
        Ok(stopped(self.alloc, call, kept)?)
    }
}

impl MemDisk {
    ghost use Rattle.muni_journal_disk.specs.MemDisk as spec;

    /// Whether the next call is one of those that fail.
    fn is_listed(&self) -> bool
        ensures { result ≡ spec.is_listed self.now }
    {
        self.failing.contains(&(self.past.len() as u64))
    }
}

impl Disk for MemDisk {
    ghost use Rattle.muni_journal_disk.specs.Calls.{KeepsBytes, SameDisk, Elapses};
    ghost use Rattle.muni_journal_disk.specs.MemDisk.{MakesCall};

    ghost bytes = { λ disk. Some disk.bytes.items };

    ghost image = { λ disk. IsImage disk.first.items disk.past.items };

    ghost clock = { λ disk. length disk.past.items };

    ghost since = { λ disk. WasImage disk.first.items disk.past.items };

    ghost faults = { λ disk. disk.faults };

    ghost is_image = { λ disk c reads. is_present disk.first.items disk.bytes.items disk.past.items disk.sure c reads };

    ghost now = { λ disk c. at_present disk.first.items disk.past.items c };

    fn read(&mut self, place: u64, room: &mut [u8]) -> Result<(), DiskFault>
        requires { place + length room.old < 2 ^ 41 }

        ensures filled { OnOk result (IfRead (Some self.old.bytes.items)
            (λ c. room.new ≡ bytes_at c place (length room.old))) }
        ensures keeps { KeepsBytes ⟦<MemDisk as Disk>⟧ DiskFault.Failed result self.old self.new }
        ensures time { Elapses ⟦<MemDisk as Disk>⟧ self.old self.new }
        // promise 9: a disk in memory fails exactly at the listed calls, and records each
        ensures called { MakesCall (λ _. IsRead) result self.old self.new }
    {
        let listed = self.is_listed();
        let before = self.bytes.to_vec(self.alloc)?;
        let step = Step::Read;
        self.past.push_front(MadeCall { before, step })?;
        if listed {
            return Err(DiskFault::from(self.faults.fail()));
        }
        fill(&self.bytes, place as usize, room);
        Ok(())
    }

    fn write(&mut self, place: u64, piece: &[u8]) -> Result<(), DiskFault>
        requires { place + length piece.now < 2 ^ 41 }

        ensures written { OnOk result (IfRead (Some self.new.bytes.items) (StandsAt place piece.now)) }
        ensures outside { IsTorn place (length piece.now) (ReadsAs (Some self.old.bytes.items))
            (ReadsAs (Some self.new.bytes.items)) }
        ensures images { IsTorn place (length piece.now) (IsImage self.old.first.items self.old.past.items)
            (IsImage self.new.first.items self.new.past.items) }
        ensures same { SameDisk ⟦<MemDisk as Disk>⟧ DiskFault.Failed result self.old self.new }
        ensures time { Elapses ⟦<MemDisk as Disk>⟧ self.old self.new }
        // promise 9: so of a write, with what was to be written where
        ensures called { MakesCall (λ _. IsWrite place piece.now) result self.old self.new }
    {
        let listed = self.is_listed();
        let before = self.bytes.to_vec(self.alloc)?;
        let next = overlaid(self.alloc, &self.bytes, place as usize, piece)?;
        let bytes = piece.to_vec(self.alloc)?;
        let step = Step::Write(Piece { place, bytes });
        self.past.push_front(MadeCall { before, step })?;
        if listed {
            return Err(DiskFault::from(self.faults.fail()));
        }
        self.bytes = next;
        Ok(())
    }

    fn sync(&mut self) -> Result<(), DiskFault>
        ensures only { OnOk result ((c : List ℕ)
            → IsImage self.new.first.items self.new.past.items c → ReadsAs (Some self.old.bytes.items) c) }
        ensures keeps { KeepsBytes ⟦<MemDisk as Disk>⟧ DiskFault.Failed result self.old self.new }
        ensures time { Elapses ⟦<MemDisk as Disk>⟧ self.old self.new }
        // promise 9: so of a sync
        ensures called { MakesCall IsSync result self.old self.new }
    {
        let listed = self.is_listed();
        let before = self.bytes.to_vec(self.alloc)?;
        if listed {
            let step = Step::Unsynced;
            self.past.push_front(MadeCall { before, step })?;
            return Err(DiskFault::from(self.faults.fail()));
        }
        let step = Step::Synced;
        self.past.push_front(MadeCall { before, step })?;
        Ok(())
    }
}
