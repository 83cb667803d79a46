//! Laws of the definitions.

ghost use Rattle.muni_multi.specs.Agreement.{EnclosuresAgree};
ghost use Rattle.muni_multi.specs.Horner.{SumsAreNarrow};
ghost use Rattle.muni_multi.specs.LastStep.{LastStepEncloses};
ghost use Rattle.muni_multi.specs.Prices.{OnePriceIsRight};

/// Two enclosures of one worth never contradict each other. If one says that the price reaches
/// another price, or is more, the other does not say that it is not.
pub fn enclosures_agree()
    // promise 1, 2: two enclosers never contradict each other, so what one priced is right for the other
    ensures { EnclosuresAgree }
{}

/// Every sum of `Horner` is below 2^64 and so narrow that the last step, back to the settlement,
/// leaves ends that are less than 10^-9 dollars apart. That step does so for any sum below 2^64 of a
/// width of at most 2^19.
pub fn sums_are_narrow()
    // promise 1: the ends of a sum are within 10^-9 dollars
    ensures sums { SumsAreNarrow }
    // promise 1: the last step keeps the worth between the ends
    ensures last_step { LastStepEncloses }
{}

/// Of the answers that are right at a yield at most one is not `Undecided`.
pub fn at_most_one_price_is_right()
    // promise 1, 4: at most one price is decided
    ensures { OnePriceIsRight }
{}
