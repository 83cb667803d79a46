//! The numbers by which issues and trades are stored.

ghost use Rattle.std.specs.Prelude.{◌≡◌, pos};
ghost use Rattle.muni_msg.specs.Codes as spec;

use crate::{Act, Given, Side};
use muni_days::Basis;
use muni_dec::{Price, Yield};
use muni_terms::{Kind, Label};

impl Side {
    /// The number of a side.
    pub fn code(self) -> u8
        ensures { result ≡ spec.side_code self }
    {
        match self {
            Side::Buy => 0,
            Side::Sell => 1,
        }
    }

    /// The side of a number, if it has one.
    pub fn of_code(code: u8) -> Option<Side>
        ensures { result ≡ spec.side_of_code code }
    {
        match code {
            0 => Some(Side::Buy),
            1 => Some(Side::Sell),
            _ => None,
        }
    }
}

impl Act {
    /// The number of an act.
    pub fn code(self) -> u8
        ensures { result ≡ spec.act_code self }
    {
        match self {
            Act::Entered => 0,
            Act::Corrected => 1,
            Act::Canceled => 2,
        }
    }

    /// The act of a number, if it has one.
    pub fn of_code(code: u8) -> Option<Act>
        ensures { result ≡ spec.act_of_code code }
    {
        match code {
            0 => Some(Act::Entered),
            1 => Some(Act::Corrected),
            2 => Some(Act::Canceled),
            _ => None,
        }
    }
}

/// The number of a redemption.
pub fn label_code(label: Label) -> u8
    ensures { result ≡ spec.label_code label }
{
    match label {
        Label::Maturity => 0,
        Label::ParOption => 1,
        Label::Call => 2,
        Label::Called => 3,
    }
}

/// The redemption of a number, if it has one.
pub fn label_of_code(code: u8) -> Option<Label>
    ensures { result ≡ spec.label_of_code code }
{
    match code {
        0 => Some(Label::Maturity),
        1 => Some(Label::ParOption),
        2 => Some(Label::Call),
        3 => Some(Label::Called),
        _ => None,
    }
}

/// The number of a day count basis.
pub fn basis_code(basis: Basis) -> u8
    ensures { result ≡ spec.basis_code basis }
{
    match basis {
        Basis::Thirty360 => 0,
        Basis::Actual365 => 1,
    }
}

/// The day count basis of a number, if it has one.
pub fn basis_of_code(code: u8) -> Option<Basis>
    ensures { result ≡ spec.basis_of_code code }
{
    match code {
        0 => Some(Basis::Thirty360),
        1 => Some(Basis::Actual365),
        _ => None,
    }
}

/// The number of a kind of security.
pub fn kind_code(kind: Kind) -> u8
    ensures { result ≡ spec.kind_code kind }
{
    match kind {
        Kind::Periodic { .. } => 0,
        Kind::Zero => 1,
        Kind::AtRedemption => 2,
        Kind::Discount => 3,
    }
}

impl Given {
    /// The number of what is given: a yield, a price or a rate.
    pub fn code(self) -> u8
        ensures { result ≡ spec.given_code self }
    {
        match self {
            Given::AtYield(_) => 0,
            Given::AtPrice(_) => 1,
            Given::AtRate(_) => 2,
        }
    }

    /// The units of what is given.
    pub fn units(self) -> i64
        ensures { result ≡ spec.given_units self }
    {
        match self {
            Given::AtYield(y) => y.units(),
            Given::AtPrice(price) => price.units() as i64,
            Given::AtRate(rate) => rate.units(),
        }
    }

    /// What is given by a number and an amount in units, if they name anything.
    pub fn of_code(code: u8, units: i64) -> Option<Given>
        ensures { result ≡ spec.given_of_code code units }
    {
        match code {
            0 => Some(Given::AtYield(Yield::of(units)?)),
            1 => Some(Given::AtPrice(price_of_units(units)?)),
            2 => Some(Given::AtRate(Yield::of(units)?)),
            _ => None,
        }
    }
}

fn price_of_units(units: i64) -> Option<Price>
    ensures { result ≡ spec.price_of_units units }
{
    if units < 0 {
        return None;
    }
    Price::of(units as u64)
}
