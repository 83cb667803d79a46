//! Quotients rounded to the nearest whole number.

ghost use Rattle.std.specs.Prelude.{◌+◌, ◌-◌, ◌*◌, ◌^◌, ◌<◌, ◌≤◌};

/// The whole number nearest to a fraction.
pub(crate) fn nearest(top: u128, bottom: u128) -> u64
    requires some { 0 < bottom }
    requires fits { 2 * top + bottom < 2 ^ 127 }
    requires small { top < 2 ^ 62 * bottom }
    ensures not_far_above { 2 * result * bottom ≤ 2 * top + bottom }
    ensures not_far_below { 2 * top ≤ 2 * result * bottom + bottom }
{
    ((2 * top + bottom) / (2 * bottom)) as u64
}

/// The whole number nearest to the quotient of two sums, times `by` and divided by `over`.
///
/// Both sums are cut off so that the products fit, which costs less than 2^-51 of the quotient.
pub(crate) fn nearest_of_sums(sum: u128, whole: u128, by: u128, over: u128) -> u64
    requires some { 0 < whole }
    requires small { whole < 2 ^ 100 }
    requires sum { sum ≤ 327_240_000 * whole }
    requires by { by ≤ 2_500_000_000_000 }
    requires over { (0 < over) × (over ≤ 2 ^ 50) }
    requires near { by ≤ 3 * over }
    ensures not_far_above { 2 * result * (whole * over) ≤ 2 * (sum * by) + whole * over }
    ensures not_far_below { 2 ^ 53 * (2 * (sum * by))
        ≤ (2 ^ 53 + 1) * (2 * result * (whole * over) + whole * over) + 2 * (whole * by) }
{
    let unit = unit_of(whole);
    let cut_sum = sum / unit;
    let cut_whole = (whole + (unit - 1)) / unit;
    nearest(cut_sum * by, cut_whole * over)
}

// A unit in which a number has 54 binary places, if it has more.
fn unit_of(number: u128) -> u128
    requires some { 0 < number }
    requires small { number < 2 ^ 100 }
    ensures some { 0 < result }
    ensures small { number < 2 ^ 54 * result }
    ensures fine { 2 ^ 53 * (result - 1) ≤ number }
{
    1 << number.ilog2().saturating_sub(53)
}
