//! With one payment left.

ghost use Rattle.muni_simple.specs.Single.{IsSingle, IsGivenYield, payment_of};
ghost use Rattle.muni_rule.specs.Sensitivities.{IsPrintedFor, IsPrintedThousandths, single_duration, single_convexity, single_dv01};

use crate::Sensitivities;
use crate::nearest::nearest;
use muni_dec::Yield;
use muni_simple::{Shape1, Single, growth};

/// How the price with the accrued interest moves with the yield, at a yield. One payment is left.
///
/// A yield is from -90 to 999.999 percent, and from -45 with interest at redemption.
pub fn single_sensitivities(single: &Single, shape: Shape1, y: Yield) -> Sensitivities
    requires single { IsSingle shape single.now }
    requires y { IsGivenYield shape y }
    // promise 1: with one payment to come a duration as near
    ensures duration { IsPrintedThousandths (single_duration (payment_of single.now) y)
        result.duration }
    // promise 1: a convexity as near
    ensures convexity { IsPrintedThousandths (single_convexity (payment_of single.now) y)
        result.convexity }
    // promise 1: a DV01 as near
    ensures dv01 { IsPrintedFor (single_dv01 (payment_of single.now) y) result.dv01 }
{
    let left = single.left as u128;
    let due = single.due as u128;
    let growth = u128::from(growth(single, shape, y));
    let time = left * 1_000_000;
    Sensitivities {
        duration: nearest(1000 * time, growth),
        convexity: nearest(2000 * (time * time), growth * growth),
        dv01: nearest(100_000 * left * due, growth * growth),
    }
}
