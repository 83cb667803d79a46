//! What lends disks by name.

ghost use Rattle.std.specs.Prelude.{◌≡◌, ℕ, List, Option, Some, None, IfOk, OnOk, OnErr};
ghost use Rattle.muni_journal_disk.specs.Disk.{HasCause};
ghost use Rattle.muni_journal_disk.specs.Frames.{LeavesAll, LeavesOthers};
ghost use Rattle.muni_journal_disk.specs.Moves.{GoesUnder, WasUnder};

use crate::disk::Disk;
use crate::fault::DiskFault;

/// What lends disks by name, one at a time. A name that is new has an empty disk.
pub trait Shelf {
    type D: Disk + Drop;

    /// What the disk under a name reads as, if it exposes that. For the disk that is out these are
    /// unspecified.
    ghost told: { Self → List ℕ → Option (List ℕ) };

    /// How often the disk under a name has failed. It is exposed if the disk exposes what it reads as.
    ghost disk_faults: { Self → List ℕ → ℕ };

    /// The moment of the disk under a name, and what a stop at some moment since the one of a number may
    /// have left of it.
    ghost clock: { Self → List ℕ → ℕ };

    ghost since: { Self → List ℕ → ℕ → List ℕ → Type 0 };

    /// The name of the disk that is out.
    ghost out: { Self → Option (List ℕ) };

    /// How often it has failed.
    ghost faults: { Self → ℕ };

    /// Lends the disk of a name. None may be out.
    fn take(&mut self, name: &[u8]) -> Result<Self::D, DiskFault>
        requires { out self.old ≡ None }

        ensures disk { IfOk result (WasUnder told disk_faults clock since Self.D.Disk name.now self.old) }
        ensures out { OnOk result (out self.new ≡ Some name.now) }
        ensures none_out { OnErr result (out self.new ≡ None) }

        // The disks of the other names stay as they are, and after a refusal those of all names.
        ensures others { LeavesOthers told disk_faults clock since name.now self.old self.new }
        ensures unchanged { OnErr result (LeavesAll told clock since self.old self.new) }
        ensures cause { HasCause (faults self.old) (faults self.new) result };

    /// Takes back the disk that is out, under the name by which it was lent.
    fn put_back(&mut self, name: &[u8], disk: Self::D)
        requires { out self.old ≡ Some name.now }

        ensures disk { GoesUnder told disk_faults clock since Self.D.Disk name.now disk self.old self.new }
        ensures none_out { out self.new ≡ None }
        ensures others { LeavesOthers told disk_faults clock since name.now self.old self.new }
        ensures uncounted { faults self.new ≡ faults self.old };
}
