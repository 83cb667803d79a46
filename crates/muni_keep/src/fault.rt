//! Why a keeper or a cabinet refuses a call.

use muni_edge::{Failed, NoMemory};
use std::alloc::AllocError;
use thiserror::Error;

/// Why a keeper or a cabinet refuses a call.
#[derive(Clone, Copy, Debug, PartialEq, Eq, Error)]
pub enum KeepFault {
    /// What keeps the tables failed, and counted it.
    #[error("the store failed")]
    Failed,
    /// No memory was left.
    #[error("out of memory")]
    NoMemory,
}

impl From<Failed> for KeepFault {
    ghost use Rattle.std.specs.Prelude.{◌≡◌};
    ghost use Rattle.muni_keep.specs.declared.fault.KeepFault.{KeepFault};

    ghost from_gives = { λ _ fault. fault ≡ KeepFault.Failed };

    fn from(_: Failed) -> KeepFault {
        KeepFault::Failed
    }
}

impl From<NoMemory> for KeepFault {
    ghost use Rattle.std.specs.Prelude.{◌≡◌};
    ghost use Rattle.muni_keep.specs.declared.fault.KeepFault.{KeepFault};

    ghost from_gives = { λ _ fault. fault ≡ KeepFault.NoMemory };

    fn from(_: NoMemory) -> KeepFault {
        KeepFault::NoMemory
    }
}

impl From<AllocError> for KeepFault {
    ghost use Rattle.std.specs.Prelude.{◌≡◌};
    ghost use Rattle.muni_keep.specs.declared.fault.KeepFault.{KeepFault};

    ghost from_gives = { λ _ fault. fault ≡ KeepFault.NoMemory };

    fn from(_: AllocError) -> KeepFault {
        KeepFault::NoMemory
    }
}
