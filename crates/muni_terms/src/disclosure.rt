//! What an exact figure may be too near to.

use muni_dec::{Price3, Yield};

/// A boundary between two printed figures that an exact figure is too near to be told apart from.
#[derive(Clone, Copy, Debug, PartialEq, Eq)]
pub enum Boundary {
    /// The least exact price that is printed as the higher of two.
    Price(Price3),
    /// The exact yield half way between two printed ones. Above zero it is printed as the higher of
    /// them, and below zero as the lower.
    Yield(Yield),
}
