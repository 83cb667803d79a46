//! Which refusals of a disk are counted.

ghost use Rattle.std.specs.Prelude.{◌≡◌, ◌≢◌, ◌≤◌};
ghost use Rattle.muni_edge.specs.Faults.{Rose};

use muni_edge::Faults;
use muni_journal_disk::DiskFault;
use muni_keep::KeepFault;

/// Counts a failure of a disk or a shelf. Out of memory is none.
pub(crate) fn counted(faults: &mut Faults, fault: DiskFault) -> KeepFault
    ensures later { faults.old ≤ faults.new }
    ensures failed { result ≡ KeepFault.Failed → Rose faults.old faults.new }
    ensures cause { faults.new ≢ faults.old → fault ≡ DiskFault.Failed }
{
    match fault {
        DiskFault::Failed => faults.fail().into(),
        DiskFault::NoMemory => KeepFault::NoMemory,
    }
}
