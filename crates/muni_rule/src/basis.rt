//! The two ways to count days.

ghost use Rattle.std.specs.Prelude.{◌≡◌, pos};
ghost use Rattle.muni_rule.specs.DayCount.{year_of};

/// How the days between two dates are counted, and the days of a year.
#[derive(Clone, Copy, Debug, PartialEq, Eq)]
pub enum Basis {
    /// 30/360: a month counts 30 days and a year 360 (MSRB Rule G-33(e)).
    Thirty360,
    /// Actual/365: the days of the calendar, and 365 of them a year, a leap year too.
    Actual365,
}

impl Basis {
    /// The days of a year, 360 or 365.
    pub fn year(self) -> i32
        ensures { result ≡ pos (year_of self) }
    {
        match self {
            Basis::Thirty360 => 360,
            Basis::Actual365 => 365,
        }
    }
}
