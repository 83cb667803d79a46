//! The redemption candidates of an issue, each with its own figure.

use muni_days::Day;
use muni_dec::{Price, Price3, Yield3};
use muni_terms::{Boundary, Label};

/// The figure of a redemption candidate by itself, or why it has none.
#[derive(Clone, Copy, Debug, PartialEq, Eq)]
pub enum EachFigure {
    /// Its price at the given yield.
    Price(Price3),
    /// Its yield at the given price or rate.
    Yield(Yield3),
    /// The exact figure is too near this boundary to tell whether it reaches it.
    Undecided(Boundary),
    /// The figure is below all that may be printed.
    Below,
    /// The figure is above all that may be printed.
    Above,
    /// No day is left up to the redemption.
    NoTime,
}

/// A redemption candidate, and its own figure.
#[derive(Clone, Copy, Debug, PartialEq, Eq)]
pub struct EachRedemption {
    pub date: Day,
    /// The redemption price, in dollars per 100 of par.
    pub price: Price,
    pub label: Label,
    pub figure: EachFigure,
}

impl Default for EachRedemption {
    /// An empty slot of a list. No contract reads it.
    fn default() -> EachRedemption {
        EachRedemption {
            date: Day::FIRST,
            price: Price::new(0),
            label: Label::Maturity,
            figure: EachFigure::Above,
        }
    }
}
