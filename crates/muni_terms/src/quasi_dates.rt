//! The calendar of quasi-coupon dates, computed with months.

ghost use Rattle.std.specs.Prelude.{◌≡◌, ◌==◌, ◌+◌, ◌*◌, ◌-◌, ◌/◌, ◌%◌, ◌<◌, ◌≤◌, Some, pos};
ghost use Rattle.muni_rule.specs.Civil as rule;
ghost use Rattle.muni_rule.specs.Civil.{order_of};
ghost use Rattle.muni_rule.specs.QuasiDates as dates;
ghost use Rattle.muni_days.specs.Day.{civil};
ghost use Rattle.muni_terms.specs.LastMonth.{IsLastMonth};

use muni_days::{Day, months_on};

fn month_index(date: Day) -> u32
    ensures value { result ≡ rule.month_index (civil date) }
    ensures range { (22_800 ≤ result) × (result < 26_400) }
{
    date.year() as u32 * 12 + (date.month() as u32 - 1)
}

fn day_of_month(date: Day) -> u32
    ensures value { result ≡ (civil date).day }
    ensures range { (1 ≤ result) × (result ≤ 31) }
{
    date.day() as u32
}

// The month of the last quasi-coupon date not after a settlement.
fn last_month(anchor: Day, settlement: Day) -> u32
    requires day { (civil anchor).day ≤ 28 }
    requires year { 1901 ≤ (civil settlement).year }
    ensures { IsLastMonth (civil anchor) (civil settlement) result }
{
    let before = u32::from(day_of_month(settlement) < day_of_month(anchor));
    let month = month_index(settlement) - before;
    month - (month + 6 - month_index(anchor) % 6) % 6
}

/// Whether a day is a quasi-coupon date.
pub fn is_quasi_date(anchor: Day, date: Day) -> bool
    ensures { result ≡ dates.is_quasi_date (civil anchor) (civil date) }
{
    date.day() == anchor.day() && are_in_step(date, anchor)
}

// Whether the months of two days are half a year apart, or a whole number of those.
fn are_in_step(date: Day, anchor: Day) -> bool
    ensures { result
        ≡ (rule.month_index (civil date) % 6 == rule.month_index (civil anchor) % 6) }
{
    let month = date.month();
    let other = anchor.month();
    month == other || month + 6 == other || month == other + 6
}

/// The number of quasi-coupon dates after one day and not after another.
pub fn quasi_count(anchor: Day, start: Day, end: Day) -> u32
    requires day { (civil anchor).day ≤ 28 }
    requires year { 1901 ≤ (civil start).year }
    requires order { order_of (civil start) ≤ order_of (civil end) }
    ensures { result ≡ dates.quasi_count (civil anchor) (civil start) (civil end) }
{
    (last_month(anchor, end) - last_month(anchor, start)) / 6
}

/// The half years from the month of one day to that of another.
pub fn half_years(start: Day, end: Day) -> u32
    requires { order_of (civil start) ≤ order_of (civil end) }
    ensures { result ≡ (rule.month_index (civil end) - rule.month_index (civil start)) / 6 }
{
    (month_index(end) - month_index(start)) / 6
}

/// The day so many half years after another, on the same day of the month.
pub fn half_years_on(date: Day, half_years: u32) -> Day
    requires day { (civil date).day ≤ 28 }
    requires few { half_years ≤ 200 }
    requires of_desk { rule.month_index (civil date) + 6 * half_years < 26_400 }
    ensures { civil result ≡ dates.half_years_after (civil date) half_years }
{
    if half_years == 0 {
        return date;
    }
    match months_on(date, 6 * half_years as i32) {
        Some(later) => later,
        // `of_desk` has it before 2200.
        None => unreachable!(),
    }
}

/// The days from the last quasi-coupon date not after a settlement up to the settlement.
///
/// They are 180, and not 0, on a 31st that comes before interest on a 1st.
pub fn days_into_period(anchor: Day, settlement: Day) -> u32
    requires day { (civil anchor).day ≤ 28 }
    requires year { 1901 ≤ (civil settlement).year }
    ensures days { dates.days_into_period (civil anchor) (civil settlement) ≡ Some (pos result) }
    ensures range { result ≤ 180 }
{
    let months = month_index(settlement) - last_month(anchor, settlement);
    months * 30 + day_of_month(settlement) - day_of_month(anchor)
}
