//! Days of accrued interest by a day count with a rule for the end of February.

ghost use Rattle.std.specs.Prelude.{◌≡◌, ◌≤◌, ◌≤ℤ◌, pos, true, IfSome};
ghost use Rattle.muni_rule.specs.Civil as calendar;
ghost use Rattle.muni_rule.specs.DayCount as rule;
ghost use Rattle.muni_days.specs.Day.{civil};
ghost use Rattle.muni_terms.specs.Issue.{settles};
ghost use Rattle.muni_readings.specs.February as spec;

use crate::Answered;
use crate::money::with_days;
use crate::regular::quasi_day;
use muni_days::{Basis, Day};
use muni_msg::Figures;
use muni_terms::{Issue, Kind};

/// The figures with days of accrued interest that are counted so. Price and yield stay those of the rule.
pub(crate) fn by_february(answered: &Answered<'_>) -> Option<Figures>
    ensures { result ≡ spec.by_february answered.now.issue.now answered.now.asked.now
        answered.now.figures.now }
{
    match february_accrued_days(answered.issue, answered.asked.settle) {
        Some(days) => with_days(answered, days),
        None => None,
    }
}

// None if no interest accrues by 30/360, or if the count is below zero.
fn february_accrued_days(issue: &Issue, settlement: Day) -> Option<i32>
    ensures days { result ≡ spec.february_accrued_days issue.now settlement }
    ensures range { IfSome result (λ days. (pos 0 ≤ℤ days) × (days ≤ℤ pos 720)) }
{
    if !issue.settles(settlement) {
        return None;
    }
    match accrual_start(issue, settlement) {
        Some(start) => if_counted(february_days(start, settlement)),
        None => None,
    }
}

fn if_counted(days: i32) -> Option<i32>
    ensures days { result ≡ spec.if_counted days }
    ensures range { IfSome result (λ days. (pos 0 ≤ℤ days) × (days ≤ℤ pos 720)) }
{
    if days < 0 || days > 720 {
        return None;
    }
    Some(days)
}

// The day from which interest has accrued by 30/360.
fn accrual_start(issue: &Issue, settlement: Day) -> Option<Day>
    requires { settles issue.now settlement ≡ true }
    ensures { result
        ≡ spec.accrual_start issue.now.basis issue.now.kind issue.now.dated settlement }
{
    let row = issue.row();
    match row.basis {
        Basis::Actual365 => None,
        Basis::Thirty360 => match row.kind {
            Kind::Periodic { first } => coupon_start(first, row.dated, settlement),
            Kind::AtRedemption => Some(row.dated),
            Kind::Zero | Kind::Discount => None,
        },
    }
}

fn coupon_start(first: Day, dated: Day, settlement: Day) -> Option<Day>
    requires day { (civil first).day ≤ 28 }
    requires year { 1901 ≤ (civil settlement).year }
    ensures { result ≡ spec.coupon_start first dated settlement }
{
    if is_before(settlement, first) {
        return Some(dated);
    }
    quasi_day(first, settlement)
}

fn is_before(day: Day, other: Day) -> bool
    ensures { result ≡ calendar.is_before (civil day) (civil other) }
{
    day < other
}

// The days from one day to another.
fn february_days(first: Day, last: Day) -> i32
    ensures { result ≡ spec.february_days (civil first) (civil last) }
{
    days_up_to(last, last_counted(first, last)) as i32
        - days_up_to(first, first_counted(first)) as i32
}

fn days_up_to(date: Day, day: u32) -> u32
    requires { day ≤ 31 }
    ensures value { result ≡ rule.days_up_to (civil date) day }
    ensures range { result ≤ 800_000 }
{
    date.year() as u32 * 360 + date.month() as u32 * 30 + day
}

fn first_counted(first: Day) -> u32
    ensures value { result ≡ spec.february_first (civil first) }
    ensures range { result ≤ 30 }
{
    if ends_february(first) || first.day() == 31 {
        30
    } else {
        first.day() as u32
    }
}

fn last_counted(first: Day, last: Day) -> u32
    ensures value { result ≡ rule.last_counted first.day last.day }
    ensures range { result ≤ 31 }
{
    if last.day() == 31 && first.day() >= 30 {
        30
    } else {
        last.day() as u32
    }
}

fn ends_february(date: Day) -> bool
    ensures { result ≡ spec.ends_february (civil date) }
{
    let last = if is_leap_year(date.year() as u32) {
        29
    } else {
        28
    };
    date.month() == 2 && date.day() == last
}

fn is_leap_year(year: u32) -> bool
    ensures { result ≡ calendar.is_leap_year year }
{
    year % 4 == 0 && (year % 100 != 0 || year % 400 == 0)
}
