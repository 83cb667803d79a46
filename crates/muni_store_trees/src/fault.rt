//! Why a look-up or a put by trees fails.

use sqlite_trees::error::StoreError;
use std::alloc::AllocError;

/// Why a look-up or a put by trees fails.
#[derive(Clone, Copy, Debug, PartialEq, Eq)]
pub enum TreeFault {
    /// The store failed, or it is not what a desk has written.
    Failed,
    /// No memory was left.
    NoMemory,
    /// An earlier failure of the disk shut the store.
    Shut,
}

impl From<AllocError> for TreeFault {
    ghost use Rattle.std.specs.Prelude.{◌≡◌};
    ghost use Rattle.muni_store_trees.specs.declared.fault.TreeFault.{TreeFault};

    ghost from_gives = { λ _ fault. fault ≡ TreeFault.NoMemory };

    fn from(_: AllocError) -> TreeFault {
        TreeFault::NoMemory
    }
}

impl From<StoreError> for TreeFault {
    ghost use Rattle.std.specs.Prelude.{◌≡◌};
    ghost use Rattle.muni_store_trees.specs.Faults.{fault_in};

    ghost from_gives = { λ error fault. fault ≡ fault_in error };

    fn from(error: StoreError) -> TreeFault {
        match error {
            StoreError::OutOfMemory => TreeFault::NoMemory,
            StoreError::Broken => TreeFault::Shut,
            _ => TreeFault::Failed,
        }
    }
}
