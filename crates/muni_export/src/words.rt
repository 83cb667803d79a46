//! The words of columns.

ghost use Rattle.std.specs.Prelude.{◌≡◌};
ghost use Rattle.muni_confirm.specs.Figures.{label_text};
ghost use Rattle.muni_export.specs.List.{state};
ghost use Rattle.muni_export.specs.Words as spec;

use muni_days::Basis;
use muni_msg::{Act, Given, Side};
use muni_terms::{Kind, Label};

/// How an issue pays interest.
pub fn kind_word(kind: &Kind) -> &[u8]
    ensures { result.now ≡ spec.kind_word kind.now }
{
    match kind {
        Kind::Periodic { .. } => b"periodic",
        Kind::Zero => b"zero",
        Kind::AtRedemption => b"at-redemption",
        Kind::Discount => b"discount",
    }
}

/// How its days are counted.
pub fn days_word(basis: &Basis) -> &[u8]
    ensures { result.now ≡ spec.days_word basis.now }
{
    match basis {
        Basis::Thirty360 => b"30/360",
        Basis::Actual365 => b"actual/365",
    }
}

/// The side of a trade.
pub fn side_word(side: &Side) -> &[u8]
    ensures { result.now ≡ spec.side_word side.now }
{
    match side {
        Side::Buy => b"buy",
        Side::Sell => b"sell",
    }
}

pub(crate) fn basis_word(given: &Given) -> &[u8]
    ensures { result.now ≡ spec.basis_word given.now }
{
    match given {
        Given::AtYield(_) => b"yield",
        Given::AtPrice(_) => b"price",
        Given::AtRate(_) => b"rate",
    }
}

pub(crate) fn state_word(act: &Act) -> &[u8]
    ensures { result.now ≡ state act.now }
{
    match act {
        Act::Entered | Act::Corrected => b"LIVE",
        Act::Canceled => b"CANCELED",
    }
}

pub(crate) fn label_word(label: &Label) -> &[u8]
    ensures { result.now ≡ label_text label.now }
{
    match label {
        Label::Maturity => b"MATURITY",
        Label::ParOption => b"PAR OPTION",
        Label::Call => b"CALL",
        Label::Called => b"CALLED",
    }
}
