//! The worked trade: a par of 25,000 of a bond with a coupon of 5 that is redeemed on 2025-01-01, bought
//! on 2024-04-01 at a yield of 4 percent.

use crate::Sample;
use arrayvec::ArrayVec;
use muni_days::Day;
use muni_dec::{Cents, Fee, Par, Price, Price3, Yield, Yield3};
use muni_msg::{Act, Asked, DeskName, Figures, Given, Key, Reference, Side, Terms, Version};
use muni_terms::{Issue, Label, check};

/// The bond.
pub fn worked_issue() -> Option<Issue> {
    let words = "periodic dated=2020-01-01 first=2020-07-01 maturity=2025-01-01 coupon=5";
    let mut row = Sample::of(words).row()?;
    let mut name = ArrayVec::new();
    name.try_extend_from_slice(b"RIVERTON WATER 5S 2025").ok()?;
    row.name = name;
    check(row).ok()
}

/// The terms of the trade.
pub fn worked_terms() -> Option<Terms> {
    let asked = Asked {
        cusip: *b"123456AA3",
        par: Par::of(25_000)?,
        settle: Day::of(2024, 4, 1)?,
        given: Given::AtYield(Yield::of(40_000)?),
        side: Side::Buy,
        fee: Fee::ZERO,
    };
    Some(Terms { asked })
}

/// Its figures.
pub fn worked_figures() -> Option<Figures> {
    Some(Figures {
        price: Price3::of(100_725)?,
        yld: Yield3::of(4_000)?,
        redemption: Day::of(2025, 1, 1)?,
        at: Price::PAR,
        label: Label::Maturity,
        days: 90,
        principal: Cents::of(2_518_125)?,
        accrued: Cents::of(31_250)?,
        commission: Cents::ZERO,
        total: Cents::of(2_549_375)?,
    })
}

/// A version of the trade.
pub fn worked_version(act: Act) -> Option<Version> {
    Some(Version {
        act,
        terms: worked_terms()?,
        issue_number: 1,
        figures: worked_figures()?,
    })
}

/// The key of a trade.
pub fn key(desk: &str, reference: &str) -> Option<Key> {
    Some(Key {
        desk: DeskName::read(desk.as_bytes()).ok()?,
        reference: Reference::read(reference.as_bytes()).ok()?,
    })
}
