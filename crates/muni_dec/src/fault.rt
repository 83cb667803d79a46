ghost use Rattle.std.specs.Prelude.{◌≡◌};

use thiserror::Error;

/// Why a text is no decimal of the kind that was asked for. Places count bytes from 0.
#[derive(Clone, Copy, Debug, PartialEq, Eq, Error)]
pub enum DecFault {
    /// The text has no byte.
    #[error("empty")]
    Empty,
    /// No decimal goes on with the byte at this place, or the text ends here too early.
    #[error("unexpected byte or end at {at}")]
    NotADigit { at: usize },
    /// The first decimal too many is here, and all before it is right.
    #[error("too many decimals at {at}")]
    TooManyDecimals { at: usize },
    /// The text is a decimal whose value is outside the range.
    #[error("out of range")]
    OutOfRange,
}

impl DecFault {
    ghost use Rattle.muni_dec.specs.Fault.{fault_number};

    /// The number of the fault, from 1 to 4.
    pub fn number(&self) -> u32
        // promise 4: each fault of a decimal has its number
        ensures { result ≡ fault_number self.now }
    {
        match self {
            DecFault::Empty => 1,
            DecFault::NotADigit { .. } => 2,
            DecFault::TooManyDecimals { .. } => 3,
            DecFault::OutOfRange => 4,
        }
    }
}
