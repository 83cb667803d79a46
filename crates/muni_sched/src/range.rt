//! The range of the yields that may be given.

ghost use Rattle.std.specs.Prelude.{◌≡◌, ◌↔◌, None, All};
ghost use Rattle.muni_sched.specs.Range as spec;
ghost use Rattle.muni_sched.specs.Range.{IsGivenFor};

use crate::{Candidate, Shape};
use muni_dec::Yield;
use muni_rule::YieldRange;
use std::cmp::Ordering;

/// None exactly if a yield may be given for every redemption candidate, and otherwise the side on
/// which it leaves the range of the first that excludes it.
///
/// A yield is from -5 to 100 percent with more than six months to redemption, from -90 to 999.999
/// percent with six months or less, and from -45 to 999.999 percent with interest at redemption.
/// For a discounted note it is a rate, from 0 to 30 percent.
pub fn out_of_range(list: &[Candidate], y: Yield) -> Option<Ordering>
    // promise 4: no side exactly if the yield is in the range of every redemption
    ensures inside { (result ≡ None) ↔ All (IsGivenFor y) list.now }
    // promise 4: else the side on which it leaves the range of the first that excludes it
    ensures first { result ≡ spec.side_of_first y list.now }
{
    for candidate in list {
        if let Some(side) = side_for(candidate, y) {
            return Some(side);
        }
    }
    None
}

fn side_for(candidate: &Candidate, y: Yield) -> Option<Ordering>
    ensures { result ≡ spec.side_for y candidate.now }
{
    let range = match &candidate.shape {
        Shape::Many(_) => YieldRange::MANY_PERIODS,
        Shape::One(_) => YieldRange::ONE_PERIOD,
        Shape::AtRedemption(_) => YieldRange::AT_REDEMPTION,
        Shape::Discount { .. } => YieldRange::DISCOUNT_RATES,
    };
    range.side_of(y.units())
}
