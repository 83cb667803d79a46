//! Why the desk refuses a request.

ghost use Rattle.std.specs.Prelude.{◌≡◌, ◌≤◌, length};
ghost use Rattle.muni_msg.specs.Refusal.{number_of, name_of, range_of};

use crate::Kept;
use muni_days::Day;
use muni_terms::{Boundary, TermsFault};
use std::cmp::Ordering;

/// Which side of a range was left.
#[derive(Clone, Copy, Debug, PartialEq, Eq)]
pub enum Range {
    /// The given figure is below its range.
    Below,
    /// It is above its range.
    Above,
    /// The price that a given yield leads to is below zero.
    PriceBelowZero,
}

/// Why a well-formed request is refused.
#[derive(Drop)]
pub enum Refusal {
    /// No issue of that CUSIP is kept.
    UnknownIssue,
    /// No version of that trade is kept.
    UnknownTrade,
    /// Other contents are kept in that place.
    Conflict(Kept),
    /// The terms of the issue do not pass.
    BadTerms(TermsFault),
    /// The issue does not settle on that day.
    SettleOutside,
    /// A figure is outside its range.
    GivenOutOfRange(Range),
    /// The yield to this redemption is below the printed range.
    YieldBelow { date: Day },
    /// The yield to every redemption is above the printed range.
    YieldAbove,
    /// No time is left to this redemption.
    NoTime { date: Day },
    /// The figure to this redemption cannot be told from the next one.
    Undecided { date: Day, boundary: Boundary },
    /// The trade is canceled.
    Canceled,
    /// The next version has this number.
    WrongNumber { next: u32 },
    /// No more versions of the trade can be kept.
    VersionsFull,
    /// No more trades of the desk can be kept.
    DeskFull,
    /// A discount rate for an issue that is not sold at a discount, a yield for one that is, or a
    /// commission beside either.
    WrongBasis,
}

impl Range {
    /// The side on which a figure that compares so with a range has left it: less or greater than
    /// all that lies within.
    pub fn of(side: Ordering) -> Range
        ensures { result ≡ range_of side }
    {
        match side {
            Ordering::Less => Range::Below,
            Ordering::Equal | Ordering::Greater => Range::Above,
        }
    }
}

impl Refusal {
    /// The number of the refusal, from 1 to 15.
    pub fn number(&self) -> u32
        // promise 4: each refusal has its number
        ensures value { result ≡ number_of self.now }
        // promise 4: from 1 to 15
        ensures range { (1 ≤ result) × (result ≤ 15) }
    {
        match self {
            Refusal::UnknownIssue => 1,
            Refusal::UnknownTrade => 2,
            Refusal::Conflict(_) => 3,
            Refusal::BadTerms(_) => 4,
            Refusal::SettleOutside => 5,
            Refusal::GivenOutOfRange(_) => 6,
            Refusal::YieldBelow { .. } => 7,
            Refusal::YieldAbove => 8,
            Refusal::NoTime { .. } => 9,
            Refusal::Undecided { .. } => 10,
            Refusal::Canceled => 11,
            Refusal::WrongNumber { .. } => 12,
            Refusal::VersionsFull => 13,
            Refusal::DeskFull => 14,
            Refusal::WrongBasis => 15,
        }
    }
}

/// The name of the refusal with this number.
pub fn refusal_name(number: u32) -> &'static str
    requires { (1 ≤ number) × (number ≤ 15) }
    ensures name { result.now ≡ name_of number }
    ensures short { length result.now ≤ 15 }
{
    match number {
        1 => "UnknownIssue",
        2 => "UnknownTrade",
        3 => "Conflict",
        4 => "BadTerms",
        5 => "SettleOutside",
        6 => "GivenOutOfRange",
        7 => "YieldBelow",
        8 => "YieldAbove",
        9 => "NoTime",
        10 => "Undecided",
        11 => "Canceled",
        12 => "WrongNumber",
        13 => "VersionsFull",
        14 => "DeskFull",
        _ => "WrongBasis",
    }
}
