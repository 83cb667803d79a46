//! Why a command is not answered.

use muni_keep::KeepFault;
use thiserror::Error;

/// Why a command is not answered. A keeper that exposes its tables has kept nothing for it. Of any
/// other the put that failed may be kept, as after a failed sync of a file.
#[derive(Clone, Copy, Debug, PartialEq, Eq, Error)]
pub enum BookFault {
    /// What keeps the tables failed, and counted it.
    #[error("the store failed")]
    Failed,
    /// No memory was left.
    #[error("out of memory")]
    NoMemory,
}

impl From<KeepFault> for BookFault {
    ghost use Rattle.std.specs.Prelude.{◌≡◌};
    ghost use Rattle.muni_book.specs.Fault.{fault_of};

    ghost from_gives = { λ fault given. given ≡ fault_of fault };

    fn from(fault: KeepFault) -> BookFault {
        match fault {
            KeepFault::Failed => BookFault::Failed,
            KeepFault::NoMemory => BookFault::NoMemory,
        }
    }
}
