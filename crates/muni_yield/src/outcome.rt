//! What is known of a yield.

use muni_dec::Yield3;

/// The yield at a price, in the range from -5.000 to 100.000 percent.
#[derive(Clone, Copy, Debug, PartialEq, Eq)]
pub enum Outcome {
    /// The exact yield, truncated to four decimals of the percentage and rounded to three.
    Print(Yield3),
    /// The yield would be printed below the range.
    Below,
    /// The yield would be printed above the range.
    Above,
    /// The exact price at the boundary between `lower` and the next printed yield is too near the
    /// given one. Both are in thousandths of a percent, and `lower` is from -5,001 to 100,000.
    Unsure { lower: i32 },
}
