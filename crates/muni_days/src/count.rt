//! The day counts.

ghost use Rattle.std.specs.Prelude.{◌≡◌, ◌≤◌};
ghost use Rattle.muni_rule.specs.Civil as calendar;
ghost use Rattle.muni_rule.specs.DayCount as rule;
ghost use Rattle.muni_days.specs.Day.{civil};

use crate::Day;
use muni_rule::Basis;

/// The days from one day to another by a basis: those of 30/360, or those of the calendar.
///
/// The first day is counted and the last is not. The count is negative if the last is earlier.
pub fn days_by(basis: Basis, first: Day, last: Day) -> i32
    // promise 1: the days between two dates by either basis
    ensures { result ≡ rule.days_by basis (civil first) (civil last) }
{
    match basis {
        Basis::Thirty360 => days360(first, last),
        Basis::Actual365 => civil_days(first, last),
    }
}

fn civil_days(first: Day, last: Day) -> i32
    ensures { result ≡ calendar.civil_days (civil first) (civil last) }
{
    let apart = first.date().duration_until(last.date());
    (apart.as_hours() / 24) as i32
}

/// The days from one day to another, with months of 30 days and years of 360 (MSRB Rule G-33(e)).
///
/// This is 30/360 US, also called bond basis: a 31st begins a count as a 30th, and ends it as a 30th
/// if it began on a 30th or a 31st. The end of February has no rule of its own, and it is not
/// 30E/360. The first day is counted and the last is not. The count is negative if the last is
/// earlier.
pub fn days360(first: Day, last: Day) -> i32
    // promise 1: the days between two dates by 30/360
    ensures { result ≡ rule.days360 (civil first) (civil last) }
{
    days_up_to(last, last_counted(first, last)) as i32
        - days_up_to(first, first_counted(first)) as i32
}

fn days_up_to(date: Day, day: u32) -> u32
    requires { day ≤ 31 }
    ensures value { result ≡ rule.days_up_to (civil date) day }
    ensures range { result ≤ 800_000 }
{
    date.year() as u32 * 360 + date.month() as u32 * 30 + day
}

fn first_counted(first: Day) -> u32
    ensures value { result ≡ rule.first_counted first.day }
    ensures range { result ≤ 30 }
{
    if first.day() == 31 {
        30
    } else {
        first.day() as u32
    }
}

fn last_counted(first: Day, last: Day) -> u32
    ensures value { result ≡ rule.last_counted first.day last.day }
    ensures range { result ≤ 31 }
{
    if last.day() == 31 && first.day() >= 30 {
        30
    } else {
        last.day() as u32
    }
}
