//! The faults of a command over a store.

use crate::input::InputFault;
use muni_book::BookFault;
use muni_edge::NoMemory;
use muni_keep::KeepFault;
use thiserror::Error;

/// Why a command over a store stopped.
#[derive(Clone, Copy, Debug, PartialEq, Eq, Error)]
pub enum Fault {
    /// The input failed.
    #[error("the input could not be read")]
    Read,
    /// The output failed.
    #[error("the output could not be written")]
    Write,
    /// The store failed.
    #[error("the store failed")]
    Store,
    /// No memory was left.
    #[error("out of memory")]
    NoMemory,
    /// The input is too long.
    #[error("the input is too long")]
    TooLarge,
}

impl From<InputFault> for Fault {
    ghost use Rattle.std.specs.Prelude.{◌≡◌};
    ghost use Rattle.muni_desk_io.specs.Fault.{of_input};

    ghost from_gives = { λ fault given. given ≡ of_input fault };

    fn from(fault: InputFault) -> Fault {
        match fault {
            InputFault::Failed => Fault::Read,
            InputFault::TooLarge => Fault::TooLarge,
            InputFault::NoMemory => Fault::NoMemory,
        }
    }
}

impl From<KeepFault> for Fault {
    ghost use Rattle.std.specs.Prelude.{◌≡◌};
    ghost use Rattle.muni_desk_io.specs.Fault.{of_keeper};

    ghost from_gives = { λ fault given. given ≡ of_keeper fault };

    fn from(fault: KeepFault) -> Fault {
        match fault {
            KeepFault::Failed => Fault::Store,
            KeepFault::NoMemory => Fault::NoMemory,
        }
    }
}

impl From<BookFault> for Fault {
    ghost use Rattle.std.specs.Prelude.{◌≡◌};
    ghost use Rattle.muni_desk_io.specs.Fault.{of_book};

    ghost from_gives = { λ fault given. given ≡ of_book fault };

    fn from(fault: BookFault) -> Fault {
        match fault {
            BookFault::Failed => Fault::Store,
            BookFault::NoMemory => Fault::NoMemory,
        }
    }
}

impl From<NoMemory> for Fault {
    ghost use Rattle.std.specs.Prelude.{◌≡◌};
    ghost use Rattle.muni_desk_io.specs.declared.fault.Fault.{Fault};

    ghost from_gives = { λ _ fault. fault ≡ Fault.NoMemory };

    fn from(_: NoMemory) -> Fault {
        Fault::NoMemory
    }
}
