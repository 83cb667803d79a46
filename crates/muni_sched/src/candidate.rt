//! A redemption to which a figure may be computed, and how it is priced.

use muni_days::{Basis, Day};
use muni_dec::Price;
use muni_simple::Single;
use muni_terms::{Flows, Label};

/// How a redemption is priced (MSRB Rule G-33).
#[derive(Clone, Copy, Debug, PartialEq, Eq)]
pub enum Shape {
    /// By the payments up to it. Two or more are to come.
    Many(Flows),
    /// By the one payment to come, with six months or less to redemption.
    One(Single),
    /// By the one payment of a note, which pays its interest at redemption.
    AtRedemption(Single),
    /// By the days up to the maturity of a discounted note, from 0 to 720 by its basis.
    Discount { days: i32, basis: Basis },
}

/// A redemption candidate: a redemption of an issue after a settlement, and how it is priced.
#[derive(Clone, Copy, Debug, PartialEq, Eq)]
pub struct Candidate {
    pub date: Day,
    /// The redemption price, in dollars per 100 of par.
    pub price: Price,
    pub label: Label,
    pub shape: Shape,
}

impl Default for Candidate {
    /// An empty slot of a list. No contract reads it.
    fn default() -> Self {
        Candidate {
            date: Day::FIRST,
            price: Price::new(0),
            label: Label::Maturity,
            shape: Shape::Discount {
                days: 0,
                basis: Basis::Thirty360,
            },
        }
    }
}
