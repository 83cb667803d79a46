//! How a run of connections ends.

ghost use Rattle.std.specs.Prelude.{◌≡◌};
ghost use Rattle.muni_desk_serve.specs.Fault as spec;

use crate::served::Served;
use muni_keep::KeepFault;
use thiserror::Error;

/// Why a run of connections did not end well.
#[derive(Clone, Copy, Debug, PartialEq, Eq, Error)]
pub enum ServeFault {
    /// The store could not be fetched. No connection was accepted.
    #[error("the store failed")]
    Store,
    /// The door could not be bound, or failed to accept a connection.
    #[error("the port could not be served")]
    Door,
    /// No memory was left for the store, or for one of the connections at least.
    #[error("out of memory")]
    NoMemory,
}

impl From<KeepFault> for ServeFault {
    ghost use Rattle.std.specs.Prelude.{◌≡◌};
    ghost use Rattle.muni_desk_serve.specs.Fault.{of_keeper};

    ghost from_gives = { λ fault given. given ≡ of_keeper fault };

    fn from(fault: KeepFault) -> ServeFault {
        match fault {
            KeepFault::Failed => ServeFault::Store,
            KeepFault::NoMemory => ServeFault::NoMemory,
        }
    }
}

/// The outcome of a run after one connection more. A connection for which no memory was left ends
/// alone, and the run tells of it at its end.
pub(crate) fn after(outcome: Result<(), ServeFault>, served: Served) -> Result<(), ServeFault>
    ensures { result ≡ spec.outcome_after outcome served }
{
    match served {
        Served::NoMemory => Err(ServeFault::NoMemory),
        _ => outcome,
    }
}
