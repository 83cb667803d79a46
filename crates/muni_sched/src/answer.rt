//! The lowest figure as it is answered.

use muni_days::Day;
use muni_dec::{Price3, Yield, Yield3};
use muni_terms::Boundary;

/// A printed figure.
#[derive(Clone, Copy, Debug, PartialEq, Eq)]
pub enum Figure {
    /// A price, in thousandths of a dollar per 100 of par.
    Price(Price3),
    /// A yield, in thousandths of a percent.
    Yield(Yield3),
}

/// The lowest figure over redemption candidates, or why there is none (MSRB Rule G-15(a)). The rule is
/// stated over it. For callers outside; the program goes by `LowestPrice` and `LowestYield`.
#[derive(Clone, Copy, Debug, PartialEq, Eq)]
pub enum LowAnswer {
    /// The lowest printed figure, and the earliest candidate that has it. Candidates are counted
    /// from 0 in order of date.
    Low { figure: Figure, candidate: usize },
    /// The exact figure of the candidate with this date is too near the boundary to tell whether it
    /// reaches it, and the lowest figure depends on that.
    Undecided { date: Day, boundary: Boundary },
    /// The figure of the candidate with this date, the earliest of such, is below all that may be
    /// printed. A price is, if the exact one is below zero.
    Below { date: Day },
    /// The yields of all candidates are above all that may be printed.
    Above,
    /// No day is left up to the redemption of the candidate with this date, the earliest of such.
    NoTime { date: Day },
}

/// The lowest printed price, and the earliest candidate that has it, counted from 0 in order of
/// date.
#[derive(Clone, Copy, Debug, PartialEq, Eq)]
pub struct LowestPrice {
    pub price: Price3,
    pub candidate: usize,
}

/// Why there is no lowest price, with the date of the candidate that decides.
#[derive(Clone, Copy, Debug, PartialEq, Eq)]
pub enum NoPrice {
    /// Its exact price is too near this one to tell whether it reaches it, and the lowest price
    /// depends on that.
    Undecided { date: Day, boundary: Price3 },
    /// Its exact price is below zero.
    Below { date: Day },
}

/// The lowest printed yield, and the earliest candidate that has it, counted from 0 in order of
/// date.
#[derive(Clone, Copy, Debug, PartialEq, Eq)]
pub struct LowestYield {
    pub yld: Yield3,
    pub candidate: usize,
}

/// Why there is no lowest yield, with the date of the candidate that decides.
#[derive(Clone, Copy, Debug, PartialEq, Eq)]
pub enum NoYield {
    /// Its exact price at this yield is too near the given one to tell which yield is printed, and
    /// the lowest yield depends on that.
    Undecided { date: Day, boundary: Yield },
    /// Its yield is below all that may be printed.
    Below { date: Day },
    /// The yields of all candidates are above all that may be printed.
    Above,
    /// No day is left up to its redemption.
    NoTime { date: Day },
}
