//! Why the store refuses a call.

ghost use Rattle.std.specs.Prelude.{◌≡◌, ◌≢◌};

use muni_keep::KeepFault;
use sqlite::{Error, ErrorCode};
use sqlite_std_file::OpenError;
use std::alloc::AllocError;
use std::io::{self, ErrorKind};

/// Why the store refuses a call.
#[derive(Clone, Copy, Debug)]
pub enum StoreFault {
    /// It failed.
    Failed,
    /// No memory was left.
    NoMemory,
    /// An earlier failure of the disk shut it.
    Shut,
}

impl From<AllocError> for StoreFault {
    ghost use Rattle.std.specs.Prelude.{◌≡◌};
    ghost use Rattle.muni_store.specs.declared.fault.StoreFault.{StoreFault};

    ghost from_gives = { λ _ fault. fault ≡ StoreFault.NoMemory };

    fn from(_: AllocError) -> StoreFault {
        StoreFault::NoMemory
    }
}

impl From<io::Error> for StoreFault {
    ghost use Rattle.std.specs.Prelude.{◌≢◌};
    ghost use Rattle.muni_store.specs.declared.fault.StoreFault.{StoreFault};

    ghost from_gives = { λ _ fault. fault ≢ StoreFault.Shut };

    fn from(error: io::Error) -> StoreFault {
        fault_of(error.kind())
    }
}

/// The fault of a call of the system.
fn fault_of(kind: ErrorKind) -> StoreFault
    ensures memory { kind ≡ ErrorKind.OutOfMemory → result ≡ StoreFault.NoMemory }
    ensures other { kind ≢ ErrorKind.OutOfMemory → result ≡ StoreFault.Failed }
{
    match kind {
        ErrorKind::OutOfMemory => StoreFault::NoMemory,
        _ => StoreFault::Failed,
    }
}

impl From<OpenError> for StoreFault {
    ghost use Rattle.std.specs.Prelude.{◌≢◌};
    ghost use Rattle.muni_store.specs.declared.fault.StoreFault.{StoreFault};

    ghost from_gives = { λ _ fault. fault ≢ StoreFault.Shut };

    fn from(error: OpenError) -> StoreFault {
        match error {
            OpenError::OutOfMemory => StoreFault::NoMemory,
            OpenError::Io(error) => error.into(),
            OpenError::Busy | OpenError::HotJournal => StoreFault::Failed,
        }
    }
}

impl From<Error> for StoreFault {
    ghost use Rattle.std.specs.Prelude.{◌≡◌};
    ghost use Rattle.muni_store.specs.Faults.{fault_in};

    ghost from_gives = { λ error fault. fault ≡ fault_in error };

    fn from(error: Error) -> StoreFault {
        match error {
            Error::SqliteFailure(ErrorCode::OutOfMemory) => StoreFault::NoMemory,
            Error::SqliteFailure(ErrorCode::Closed) => StoreFault::Shut,
            _ => StoreFault::Failed,
        }
    }
}
