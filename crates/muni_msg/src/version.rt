//! The versions of a trade, and what the desk keeps.

use crate::{Asked, Figures, Given, Side, Terms};
use muni_days::Day;
use muni_dec::{Cents, Fee, Par, Price, Price3, Yield3};
use muni_terms::{Issue, Label};

/// What made a version of a trade.
#[derive(Clone, Copy, Debug, PartialEq, Eq)]
pub enum Act {
    Entered,
    Corrected,
    Canceled,
}

/// One version of a trade: its terms, and the figures that they lead to.
#[derive(Clone, Copy, Debug, PartialEq, Eq)]
pub struct Version {
    pub act: Act,
    pub terms: Terms,
    /// The number of the terms of the issue by which the figures were computed.
    pub issue_number: u32,
    pub figures: Figures,
}

/// What is kept already if something else was sent.
#[derive(Drop)]
pub enum Kept {
    Issue(Issue),
    Version { number: u32, version: Version },
}

impl Default for Version {
    /// An empty slot of a list. No contract reads it.
    fn default() -> Version {
        let asked = Asked {
            cusip: *b"000000000",
            par: Par::new(1),
            settle: Day::FIRST,
            given: Given::AtPrice(Price::new(0)),
            side: Side::Buy,
            fee: Fee::new(0),
        };
        let figures = Figures {
            price: Price3::new(0),
            yld: Yield3::new(0),
            redemption: Day::FIRST,
            at: Price::new(0),
            label: Label::Maturity,
            days: 0,
            principal: Cents::ZERO,
            accrued: Cents::ZERO,
            commission: Cents::ZERO,
            total: Cents::ZERO,
        };
        Version {
            act: Act::Entered,
            terms: Terms { asked },
            issue_number: 1,
            figures,
        }
    }
}
