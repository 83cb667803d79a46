//! What a journal is kept on.

ghost use Rattle.std.specs.Prelude.{◌≡◌, ◌<◌, ◌+◌, ◌^◌, ◌↔◌, ℕ, List, Option, length, OnOk};
ghost use Rattle.muni_journal_disk.specs.Bytes.{bytes_at, StandsAt};
ghost use Rattle.muni_journal_disk.specs.Disk.{ReadsAs, IfRead, IsTorn};
ghost use Rattle.muni_journal_disk.specs.Frames.{Keeps, IsSame, TakesTime};

use crate::fault::DiskFault;

/// What a journal is kept on: bytes, with 0 at every place past their end. A write can be lost until
/// the next sync. A disk exposes what it reads as either at every call or at none.
pub trait Disk {
    /// What it reads as, if it exposes that.
    ghost bytes: { Self → Option (List ℕ) };

    /// What a stop at this moment may leave. Each such list of bytes is an image of the disk.
    ghost image: { Self → List ℕ → Type 0 };

    /// The moment, as a number that no call lowers.
    ghost clock: { Self → ℕ };

    /// What a stop at some moment since the one of this number may have left.
    ghost since: { Self → ℕ → List ℕ → Type 0 };

    /// How often it has failed.
    ghost faults: { Self → ℕ };

    /// Fills `room` with the bytes at a place.
    fn read(&mut self, place: u64, room: &mut [u8]) -> Result<(), DiskFault>
        requires { place + length room.old < 2 ^ 41 }

        ensures filled { OnOk result (IfRead (bytes self.old)
            (λ c. room.new ≡ bytes_at c place (length room.old))) }
        ensures keeps { Keeps bytes image faults DiskFault.Failed result self.old self.new }
        ensures time { TakesTime clock since image self.old self.new };

    /// Writes a piece at a place. Until the next sync a stop may leave any bytes there, also if the
    /// write is refused.
    fn write(&mut self, place: u64, piece: &[u8]) -> Result<(), DiskFault>
        requires { place + length piece.now < 2 ^ 41 }

        ensures written { OnOk result (IfRead (bytes self.new) (StandsAt place piece.now)) }

        // Nothing outside the range of the piece changes, neither in what it reads as nor in an image.
        // promise 8: the model: a write that is not synced leaves all bytes outside its range
        ensures outside { IsTorn place (length piece.now) (ReadsAs (bytes self.old))
            (ReadsAs (bytes self.new)) }
        // promise 8: a stop after it may leave any bytes in its range, also if it was refused
        ensures images { IsTorn place (length piece.now) (image self.old) (image self.new) }
        ensures same { IsSame bytes faults DiskFault.Failed result self.old self.new }
        ensures time { TakesTime clock since image self.old self.new };

    /// Sees that what was written stays: after a success, a stop leaves what the disk reads as.
    fn sync(&mut self) -> Result<(), DiskFault>
        // promise 8: after a sync a stop leaves what the disk reads as
        ensures only { OnOk result ((c : List ℕ) → image self.new c → ReadsAs (bytes self.old) c) }
        ensures keeps { Keeps bytes image faults DiskFault.Failed result self.old self.new }
        ensures time { TakesTime clock since image self.old self.new };

    /// What it reads as is one of its images.
    ghost is_image: { (d : Self) (c : List ℕ) → ReadsAs (bytes d) c → image d c };

    /// Since the present moment a stop leaves the images of that moment, and no others.
    ghost now: { (d : Self) (c : List ℕ) → since d (clock d) c ↔ image d c };
}
