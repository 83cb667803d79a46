//! Why a disk refuses a call.

ghost use Rattle.std.specs.Prelude.{◌≡◌};
ghost use Rattle.muni_journal_disk.specs.declared.fault.DiskFault.TheVariants.{Failed, NoMemory};

use std::alloc::{AllocError, AllocFailed};
use thiserror::Error;

/// Why a disk refuses a call.
#[derive(Clone, Copy, Debug, PartialEq, Eq, Error)]
pub enum DiskFault {
    /// The disk failed, and counted it.
    #[error("the disk failed")]
    Failed,
    /// No memory was left.
    #[error("out of memory")]
    NoMemory,
}

impl From<muni_edge::Failed> for DiskFault {
    ghost from_gives = { λ _ fault. fault ≡ Failed };

    fn from(_: muni_edge::Failed) -> Self {
        DiskFault::Failed
    }
}

impl From<AllocError> for DiskFault {
    ghost from_gives = { λ _ fault. fault ≡ NoMemory };

    fn from(_: AllocError) -> Self {
        DiskFault::NoMemory
    }
}

impl<T: Drop> From<AllocFailed<T>> for DiskFault {
    ghost from_gives = { λ _ fault. fault ≡ NoMemory };

    fn from(_: AllocFailed<T>) -> Self {
        DiskFault::NoMemory
    }
}
