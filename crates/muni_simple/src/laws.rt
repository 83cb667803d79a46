//! Laws of the definitions.

ghost use Rattle.muni_simple.specs.GrowthLaw.{GrowthIsAboveZero};
ghost use Rattle.muni_simple.specs.Yields.{AnswersOneYield};

/// One and the yield of the days left stay above zero at every yield at which a price is asked for,
/// so that the comparisons of the rule are those of its fraction.
pub fn growth_is_above_zero()
    // promise 1: what discounts a payment is above zero at every yield asked for
    ensures { GrowthIsAboveZero }
{}

/// An answer that the contracts allow is the only one. The four answers exclude each other.
pub fn one_yield_is_answered()
    // promise 2: one yield is the answer and no other
    ensures { AnswersOneYield }
{}
