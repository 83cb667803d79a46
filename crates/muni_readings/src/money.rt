//! Figures with another price, or with other days of accrued interest.

ghost use Rattle.std.specs.Prelude.{◌≡◌, ◌≤◌, ◌≤ℤ◌, pos};
ghost use Rattle.muni_readings.specs.Money as spec;

use crate::Answered;
use muni_dec::{Cents, Price3, accrued_cents, commission_cents, principal_cents};
use muni_msg::{Asked, Figures, Side};

/// The figures with another price, of at most 100,000 dollars, and the money that follows from it. None if there is
/// no such amount of money.
pub(crate) fn with_price(answered: &Answered<'_>, price: Price3) -> Option<Figures>
    requires { price ≤ 100_000_000 }
    ensures { result ≡ spec.with_price answered.now.asked.now price answered.now.figures.now }
{
    let ours = answered.figures;
    let principal = principal_cents(answered.asked.par, price);
    let total = total_with(answered.asked, ours.accrued, principal)?;
    let mut theirs = *ours;
    theirs.price = price;
    theirs.principal = principal;
    theirs.total = total;
    Some(theirs)
}

/// The figures with other days of accrued interest, from 0 to 720, and the money that follows from them. None if
/// there is no such amount of money.
pub(crate) fn with_days(answered: &Answered<'_>, days: i32) -> Option<Figures>
    requires { (pos 0 ≤ℤ days) × (days ≤ℤ pos 720) }
    ensures { result ≡ spec.with_days answered.now.issue.now answered.now.asked.now days
        answered.now.figures.now }
{
    let ours = answered.figures;
    let row = answered.issue.row();
    let accrued = accrued_cents(row.coupon, answered.asked.par, days, row.basis.year());
    let total = total_with(answered.asked, ours.principal, accrued)?;
    let mut theirs = *ours;
    theirs.days = days;
    theirs.accrued = accrued;
    theirs.total = total;
    Some(theirs)
}

// The total of a trade, from its principal and its accrued interest.
fn total_with(asked: &Asked, part: Cents, other: Cents) -> Option<Cents>
    requires { other ≤ 100_000_000_000_000 }
    ensures { result ≡ spec.total_with asked.now part other }
{
    let gross = part.units() + other.units();
    let commission = commission_cents(asked.par, asked.fee).units();
    let total = match asked.side {
        Side::Buy => gross + commission,
        Side::Sell => gross.saturating_sub(commission),
    };
    Cents::of(total)
}
