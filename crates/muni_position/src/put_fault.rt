//! Why a version was not put.

use muni_keep::KeepFault;
use std::alloc::AllocError;

/// Why a version was not put.
#[derive(Clone, Copy, Debug, PartialEq, Eq)]
pub(crate) enum PutFault {
    /// The totals have no room for it.
    NoRoom,
    /// The keeper inside refused it, or no memory was left.
    Refused(KeepFault),
}

impl From<KeepFault> for PutFault {
    ghost use Rattle.std.specs.Prelude.{◌≡◌};
    ghost use Rattle.muni_position.specs.declared.put_fault.PutFault.{PutFault};

    ghost from_gives = { λ fault put_fault. put_fault ≡ PutFault.Refused fault };

    fn from(fault: KeepFault) -> PutFault {
        PutFault::Refused(fault)
    }
}

impl From<AllocError> for PutFault {
    ghost use Rattle.std.specs.Prelude.{◌≡◌};
    ghost use Rattle.muni_keep.specs.declared.fault.KeepFault.{KeepFault};
    ghost use Rattle.muni_position.specs.declared.put_fault.PutFault.{PutFault};

    ghost from_gives = { λ _ put_fault. put_fault ≡ PutFault.Refused KeepFault.NoMemory };

    fn from(_: AllocError) -> PutFault {
        PutFault::Refused(KeepFault::NoMemory)
    }
}
