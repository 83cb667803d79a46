//! Laws of the search and of its outcome.

ghost use Rattle.muni_yield.specs.Outcome.{OneYieldIsRight};

pub use crate::bracket::searches_are_in_order;

/// A law of the definitions: of the outcomes that the contracts allow at most one is not `Unsure`,
/// so each of the others comes only in its own case.
pub fn at_most_one_yield_is_right()
    // promise 2, 4: at most one yield is right
    ensures { OneYieldIsRight }
{}
