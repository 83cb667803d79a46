//! Reads a journal.

ghost use Rattle.std.specs.Prelude.{◌≡◌, ◌==◌, ◌<◌, ◌≤◌, ◌+◌, ◌^◌, ◌≢◌, true, false, Ok, Err, Some, None, length, IfOk, IfErr, OnOk};
ghost use Rattle.std.specs.Option.{option_and_then};
ghost use Rattle.muni_keep.specs.Tables.{no_tables};
ghost use Rattle.muni_journal_disk.specs.Bytes.{byte_at, bytes_at};
ghost use Rattle.muni_journal_disk.specs.Disk.{Found, IfRead};
ghost use Rattle.muni_journal_record.specs.Body.{put_of};
ghost use Rattle.muni_journal.specs.Puts.{put_on};
ghost use Rattle.muni_journal.specs.Journal as spec;
ghost use Rattle.muni_journal.specs.Looks.{OnlyReads};

use crate::kept::put_body;
use muni_journal_disk::{Disk, DiskFault};
use muni_keep::MemTables;
use thiserror::Error;

/// No slot of a journal ends past this place.
pub(crate) const LIMIT: u64 = 1 << 40;

/// Why no keeper was fetched.
#[derive(Clone, Copy, Debug, PartialEq, Eq, Error)]
pub enum FetchFault {
    /// The disk refused a call, or no memory was left.
    #[error(transparent)]
    Disk(DiskFault),
    /// An open slot does not read, its put does not meet its condition, or it ends past the limit.
    #[error("not a journal")]
    NotAJournal,
}

/// Fills a room with the bytes at a place, in which no image comes.
fn fill<D: Disk>(disk: &mut D, place: u64, room: &mut [u8]) -> Result<(), DiskFault>
    requires { place + length room.old < 2 ^ 41 }
    ensures filled { OnOk result (IfRead (D.bytes disk.old)
        (λ c. room.new ≡ bytes_at c place (length room.old))) }
    ensures reads { OnlyReads D.Disk DiskFault.Failed result disk.old disk.new }
{
    disk.read(place, room)
}

/// Whether the gate at a place is open.
fn is_open<D: Disk>(disk: &mut D, place: u64) -> Result<bool, DiskFault>
    requires { place + 1 < 2 ^ 41 }
    ensures gate { Found (D.bytes disk.old) result (λ c. byte_at c place == 1) }
    ensures reads { OnlyReads D.Disk DiskFault.Failed result disk.old disk.new }
{
    let mut room = [0];
    fill(disk, place, &mut room)?;
    Ok(room[0] == 1)
}

/// The number in the four bytes at a place.
#[tactic(auto, unfolding(crate::specs::Journal::number_at, muni_journal_record::specs::Words::number_of_4))]
fn number_at<D: Disk>(disk: &mut D, place: u64) -> Result<u32, DiskFault>
    requires { place + 4 < 2 ^ 41 }
    ensures number { Found (D.bytes disk.old) result (λ c. spec.number_at c place) }
    ensures reads { OnlyReads D.Disk DiskFault.Failed result disk.old disk.new }
{
    let mut room = [0; 4];
    fill(disk, place, &mut room)?;
    Ok(u32::from_be_bytes(room))
}

/// Puts what the body at a place holds if that meets its condition, and says whether it did.
fn put_at<D: Disk>(
    disk: &mut D,
    place: u64,
    count: usize,
    kept: &mut MemTables,
) -> Result<bool, DiskFault>
    requires room { place + 1_024 < 2 ^ 41 }
    requires length { count ≤ 1_024 }
    ensures put { result ≡ Ok true → IfRead (D.bytes disk.old) (λ c.
        option_and_then (put_on kept.old) (put_of (bytes_at c place count)) ≡ Some kept.new) }
    ensures refused { result ≡ Ok false → IfRead (D.bytes disk.old) (λ c.
        option_and_then (put_on kept.old) (put_of (bytes_at c place count)) ≡ None) }
    ensures reads { OnlyReads D.Disk DiskFault.Failed result disk.old disk.new }
{
    let mut room = [0; 1024];
    fill(disk, place, &mut room[..count])?;
    match put_body(kept, &room[..count]) {
        Ok(is_put) => Ok(is_put),
        Err(_) => Err(DiskFault::NoMemory),
    }
}

/// Puts what the open slot at a gate holds, and gives the gate after it.
#[tactic(auto, unfolding(crate::specs::Journal::behind_slot))]
fn next_gate<D: Disk>(disk: &mut D, gate: u64, kept: &mut MemTables) -> Result<u64, FetchFault>
    requires { gate ≤ 2 ^ 40 }
    ensures next { IfOk result (λ next. IfRead (D.bytes disk.old)
        (λ c. spec.behind_slot c (record { gate = gate; tables = kept.old })
        ≡ Some (record { gate = next; tables = kept.new }))) }
    ensures further { IfOk result (λ next. gate < next) }
    ensures none { result ≡ Err FetchFault.NotAJournal → IfRead (D.bytes disk.old)
        (λ c. spec.behind_slot c (record { gate = gate; tables = kept.old }) ≡ None) }
    ensures reads { OnlyReads D.Disk (FetchFault.Disk DiskFault.Failed) result disk.old disk.new }
{
    let place = gate + 1;
    let count = match number_at(disk, place) {
        Ok(count) => count,
        Err(fault) => return Err(FetchFault::Disk(fault)),
    };
    if count < 1 || count > 1_024 {
        return Err(FetchFault::NotAJournal);
    }
    let is_put = match put_at(disk, place + 4, count as usize, kept) {
        Ok(is_put) => is_put,
        Err(fault) => return Err(FetchFault::Disk(fault)),
    };
    if !is_put {
        return Err(FetchFault::NotAJournal);
    }
    Ok(gate + 5 + u64::from(count))
}

fn open_at<D: Disk>(disk: &mut D, place: u64) -> Result<bool, FetchFault>
    requires { place + 1 < 2 ^ 41 }
    ensures gate { Found (D.bytes disk.old) result (λ c. byte_at c place == 1) }
    ensures disk { IfErr result (λ fault. fault ≢ FetchFault.NotAJournal) }
    ensures reads { OnlyReads D.Disk (FetchFault.Disk DiskFault.Failed) result disk.old disk.new }
{
    match is_open(disk, place) {
        Ok(opened) => Ok(opened),
        Err(fault) => Err(FetchFault::Disk(fault)),
    }
}

/// Puts what the slots hold up to the first closed gate, and gives that gate.
pub(crate) fn read_slots<D: Disk>(disk: &mut D, kept: &mut MemTables) -> Result<u64, FetchFault>
    requires { kept.old ≡ no_tables }
    ensures found { IfOk result (λ gate. IfRead (D.bytes disk.old)
        (λ c. spec.journal_of c ≡ Some (record { gate = gate; tables = kept.new }))) }
    ensures room { IfOk result (λ gate. gate ≤ 2 ^ 40) }
    // It is no journal only if the disk stands for no tables, or its slots end past the limit.
    ensures none { result ≡ Err FetchFault.NotAJournal → IfRead (D.bytes disk.old) spec.IsNoJournal }
    ensures reads { OnlyReads D.Disk (FetchFault.Disk DiskFault.Failed) result disk.old disk.new }
{
    let mut gate = 0;
    'slots: while open_at(disk, gate)? {
        let next = match next_gate(disk, gate, kept) {
            Ok(next) => next,
            Err(fault) => return Err(fault),
        };
        if next > LIMIT {
            return Err(FetchFault::NotAJournal);
        }
        gate = next;
    }
    Ok(gate)
}
