//! An odd first coupon taken as a regular one, and the quasi-coupon date before a day.

ghost use Rattle.std.specs.Prelude.{◌≡◌, ◌≤◌, ◌<◌, Ok, IfSome};
ghost use Rattle.muni_rule.specs.Civil as rule;
ghost use Rattle.muni_days.specs.Day.{civil};
ghost use Rattle.muni_terms.specs.Check.{fault_of};
ghost use Rattle.muni_terms.specs.LastMonth.{IsLastMonth};
ghost use Rattle.muni_answer.specs.Answers.{IsRightAnswer};
ghost use Rattle.muni_readings.specs.Regular as spec;
ghost use Rattle.muni_readings.specs.Regular.{IsByRegular};

use crate::Answered;
use crate::other_terms::figures_over;
use muni_days::{Day, months_on};
use muni_edge::Gate;
use muni_msg::Figures;
use muni_multi::Encloser;
use muni_sched::{Calculator, Schedule};
use muni_terms::{Issue, IssueRow, Kind};
use std::thread::Threads;

/// The figures if the coupons were regular from the beginning.
pub(crate) fn by_regular_coupons<R: Threads + Sync, E: Encloser + Sync, G: Gate + Sync>(
    calculator: &Calculator<'_, R, E, G>,
    answered: &Answered<'_>,
    schedule: &mut Schedule,
) -> Option<Figures>
    ensures { IsRightAnswer (E.ends calculator.now.encloser.now) answered.now.issue.now
        answered.now.asked.now (Ok answered.now.figures.now)
        → IsByRegular (E.ends calculator.now.encloser.now) answered.now.issue.now
        answered.now.asked.now result }
{
    match regular_terms(answered.issue) {
        Some(regular) => {
            if regular == *answered.issue.row() {
                return Some(*answered.figures);
            }
            figures_over(calculator, regular, answered.asked, schedule)
        }
        None => None,
    }
}

// The terms by which no coupon is odd, if the desk has their days.
fn regular_terms(issue: &Issue) -> Option<IssueRow>
    ensures { result ≡ spec.regular_terms issue.now }
{
    let row = issue.row();
    match row.kind {
        Kind::Periodic { first } => match quasi_day(first, row.dated) {
            Some(dated) => dated_on(row, dated),
            None => None,
        },
        Kind::Zero | Kind::AtRedemption | Kind::Discount => Some(row.copy()),
    }
}

fn dated_on(row: &IssueRow, dated: Day) -> Option<IssueRow>
    requires { (civil dated).day ≤ 28 }
    ensures { result ≡ spec.dated_on row.now dated }
{
    match months_on(dated, 6) {
        Some(first) => {
            let mut regular = row.copy();
            regular.dated = dated;
            regular.kind = Kind::Periodic { first };
            Some(regular)
        }
        None => None,
    }
}

/// The last quasi-coupon date that is not after a day.
pub(crate) fn quasi_day(anchor: Day, day: Day) -> Option<Day>
    requires day { (civil anchor).day ≤ 28 }
    requires year { 1901 ≤ (civil day).year }
    ensures value { result ≡ spec.quasi_day anchor day }
    ensures day { IfSome result (λ found. (civil found).day ≤ 28) }
{
    let month = last_month(anchor, day);
    Day::of(
        u64::from(month / 12),
        u64::from(month % 12 + 1),
        u64::from(day_of_month(anchor)),
    )
}

fn month_index(date: Day) -> u32
    ensures value { result ≡ rule.month_index (civil date) }
    ensures range { (22_800 ≤ result) × (result < 26_400) }
{
    date.year() as u32 * 12 + (date.month() as u32 - 1)
}

fn day_of_month(date: Day) -> u32
    ensures value { result ≡ (civil date).day }
    ensures range { (1 ≤ result) × (result ≤ 31) }
{
    date.day() as u32
}

// The month of the last quasi-coupon date that is not after a day.
fn last_month(anchor: Day, day: Day) -> u32
    requires day { (civil anchor).day ≤ 28 }
    requires year { 1901 ≤ (civil day).year }
    ensures { IsLastMonth (civil anchor) (civil day) result }
{
    let before = u32::from(day_of_month(day) < day_of_month(anchor));
    let month = month_index(day) - before;
    month - (month + 6 - month_index(anchor) % 6) % 6
}
