//! The ranges of the yields and rates that may be given.

ghost use Rattle.std.specs.Prelude.{◌≡◌, ◌↔◌, None};
ghost use Rattle.muni_rule.specs.Ranges as spec;
ghost use Rattle.muni_rule.specs.Ranges.{IsWithin};

use std::cmp::Ordering;

/// A range of yields or rates with both ends, in units of 0.0001 percent, or of printed yields in
/// units of 0.001 percent.
#[derive(Clone, Copy, Debug, PartialEq, Eq)]
pub struct YieldRange {
    pub least: i64,
    pub greatest: i64,
}

impl YieldRange {
    /// From -5 to 100 percent, with more than six months to redemption.
    pub const MANY_PERIODS: YieldRange = YieldRange {
        least: -50_000,
        greatest: 1_000_000,
    };

    /// From -90 to 999.999 percent, with six months or less to redemption.
    pub const ONE_PERIOD: YieldRange = YieldRange {
        least: -900_000,
        greatest: 9_999_990,
    };

    /// From -45 to 999.999 percent, with interest at redemption.
    pub const AT_REDEMPTION: YieldRange = YieldRange {
        least: -450_000,
        greatest: 9_999_990,
    };

    /// Discount rates from 0 to 30 percent.
    pub const DISCOUNT_RATES: YieldRange = YieldRange {
        least: 0,
        greatest: 300_000,
    };

    /// The side on which a yield leaves the range, if it does.
    pub fn side_of(&self, yield_units: i64) -> Option<Ordering>
        // promise 2: the side on which a yield leaves its range
        ensures side { result ≡ spec.side_of self.now yield_units }
        // promise 2: none exactly if it is within the range
        ensures within { (result ≡ None) ↔ IsWithin self.now yield_units }
    {
        if yield_units < self.least {
            return Some(Ordering::Less);
        }
        if self.greatest < yield_units {
            return Some(Ordering::Greater);
        }
        None
    }
}
