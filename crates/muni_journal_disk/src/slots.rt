//! Puts a piece after a closed gate and opens the gate, so that a stop leaves the slot whole or not
//! at all.

ghost use Rattle.std.specs.Prelude.{◌≢◌, ◌<◌, ◌+◌, ◌^◌, length, OnOk, IsErrOf};
ghost use Rattle.muni_edge.specs.Faults.{Rose};
ghost use Rattle.muni_journal_disk.specs.Bytes.{byte_at, IsSameOutside};
ghost use Rattle.muni_journal_disk.specs.Calls.{SameDisk};
ghost use Rattle.muni_journal_disk.specs.Disk.{ComesFrom, StopsLeave};
ghost use Rattle.muni_journal_disk.specs.Slots.{IsStep, IsTakenBack, AllImages};
ghost use Rattle.muni_journal_disk.specs.Outcome.{Leaves};

use crate::disk::Disk;
use crate::fault::DiskFault;
use thiserror::Error;

/// The byte of a gate that is open. Any other byte is a closed gate.
const OPEN: u8 = 1;

/// The byte with which a gate is closed.
const CLOSED: u8 = 0;

/// Why a slot was not put.
#[derive(Clone, Copy, Debug, PartialEq, Eq, Error)]
pub enum SlotFault {
    /// Its gate was not touched, and is closed.
    #[error("the slot was not put: {0}")]
    Unopened(DiskFault),
    /// Its gate may be open or not.
    #[error("the slot is in doubt: {0}")]
    InDoubt(DiskFault),
}

/// Puts a piece after the closed gate at the place `gate`, and then opens the gate.
///
/// The piece is to end with the closed gate of the next slot. Two writes and two syncs.
pub fn put_slot<D: Disk>(disk: &mut D, gate: u64, piece: &[u8]) -> Result<(), SlotFault>
    requires room { gate + length piece.now + 1 < 2 ^ 41 }
    requires closed { AllImages (D.image disk.old) (λ c. byte_at c gate ≢ 1) }

    // Each image since the call began is one from before it, with the whole slot or with a closed gate.
    // promise 8: a stop within a put leaves its slot whole or not at all
    ensures stops { StopsLeave D.clock D.since disk.old disk.new
        (ComesFrom (IsStep gate piece.now) (D.image disk.old)) }
    // Which of them the images are at the end.
    // promise 8: what a stop after the put may leave
    ensures leaves { Leaves gate piece.now (D.image disk.old) (D.image disk.new) result }

    ensures same { SameDisk D.Disk (SlotFault.Unopened DiskFault.Failed) result disk.old disk.new }
    ensures in_doubt { IsErrOf result (SlotFault.InDoubt DiskFault.Failed)
        → Rose (D.faults disk.old) (D.faults disk.new) }
{
    if let Err(fault) = disk.write(gate + 1, piece) {
        return Err(SlotFault::Unopened(fault));
    }
    if let Err(fault) = disk.sync() {
        return Err(SlotFault::Unopened(fault));
    }
    if let Err(fault) = disk.write(gate, &[OPEN]) {
        return Err(SlotFault::InDoubt(fault));
    }
    if let Err(fault) = disk.sync() {
        return Err(SlotFault::InDoubt(fault));
    }
    Ok(())
}

/// Closes the gate of a slot that may be open or not.
pub fn take_back<D: Disk>(disk: &mut D, gate: u64) -> Result<(), DiskFault>
    requires { gate + 1 < 2 ^ 41 }

    // Each image since the call began is one from before it, but for the gate.
    // promise 8: a stop while a put is taken back leaves it whole or not at all
    ensures stops { StopsLeave D.clock D.since disk.old disk.new
        (ComesFrom (IsSameOutside gate 1) (D.image disk.old)) }
    ensures images { AllImages (D.image disk.new)
        (ComesFrom (IsSameOutside gate 1) (D.image disk.old)) }
    // promise 8: a put that is taken back has the gate 0
    ensures closed { OnOk result
        (AllImages (D.image disk.new) (ComesFrom (IsTakenBack gate) (D.image disk.old))) }

    ensures same { SameDisk D.Disk DiskFault.Failed result disk.old disk.new }
{
    disk.write(gate, &[CLOSED])?;
    disk.sync()?;
    Ok(())
}
