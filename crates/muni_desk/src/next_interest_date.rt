//! The next interest date of a security in its last interest period.

ghost use Rattle.std.specs.Prelude.{◌≡◌, true};
ghost use Rattle.muni_days.specs.Day.{civil};
ghost use Rattle.muni_desk.specs.NextInterestDate.{is_next, if_next};

use muni_days::Day;
use std::marker::Model;

/// The next interest date of a security in its last interest period, on which it is redeemed: a day
/// from 1 to 28, and not before 1902-01-01.
#[derive(Clone, Copy)]
pub struct NextInterestDate {
    date: Day,
}

impl Model for NextInterestDate {
    ghost use Rattle.std.specs.Prelude.{◌≡◌, true};
    ghost use Rattle.muni_days.specs.Day.{civil};
    ghost use Rattle.muni_days.specs.declared.day.Day.{Day};
    ghost use Rattle.muni_desk.specs.NextInterestDate.{is_next};

    ghost Value = { Day };

    ghost view = { λ next. next.date };

    ghost invariant = { λ next. is_next (civil next.date) ≡ true };

    ghost inverse = { λ date. record { date = date } };
}

impl NextInterestDate {
    /// A date as the next interest date, if it can be one.
    pub fn of(date: Day) -> Option<NextInterestDate>
        ensures { result ≡ if_next date }
    {
        if date.day() <= 28 && date.year() >= 1902 {
            Some(NextInterestDate { date })
        } else {
            None
        }
    }

    /// The date.
    pub fn date(&self) -> Day
        ensures value { result ≡ self.now }
        ensures range { is_next (civil result) ≡ true }
    {
        self.date
    }
}
