mod payment_cases;
mod term_cases;

use arrayvec::ArrayVec;
use muni_dec::Price;
use muni_terms::{Flows, IssueRow, Kind, TermsFault, check};
use muni_test_samples::{Sample, Table};
use payment_cases::{WITH_COUPONS, WITHOUT_COUPONS};
use std::test::Fail;
use term_cases::TERMS;

const USUAL: &str = "periodic dated=2022-01-01 first=2022-07-01 maturity=2044-01-01 coupon=4";

pub fn price(text: &str) -> Result<Price, Fail> {
    Ok(Price::read(text.as_bytes()).ok().ok_or("a price")?)
}

// The number of the fault of terms, or 0.
fn fault_of(row: IssueRow) -> u32 {
    match check(row) {
        Ok(_) => 0,
        Err(fault) => fault.number(),
    }
}

fn is_fault(fault: TermsFault, case: &Sample<'_>) -> bool {
    let date = match fault {
        TermsFault::CallOffCalendar { date }
        | TermsFault::CallsNotRising { date }
        | TermsFault::BadCallPrice { date } => Some(date),
        _ => None,
    };
    case.number("fault=") == Some(i64::from(fault.number())) && case.day("at=") == date
}

fn is_checked(case: &Sample<'_>) -> Option<bool> {
    match check(case.row()?) {
        Ok(_) => Some(case.has("passed")),
        Err(fault) => Some(is_fault(fault, case)),
    }
}

// The first case of a table that is not as it says, and how many are before it.
fn first_bad_terms(cases: &str) -> (Option<&str>, u32) {
    let mut table = Table::new();
    let mut right = 0_u32;
    for line in cases.lines() {
        if let Some(case) = table.sample(line) {
            if is_checked(&case) != Some(true) {
                return (Some(line), right);
            }
            right = right.wrapping_add(1);
        }
    }
    (None, right)
}

#[test]
fn the_first_fault_of_terms_is_told(rt: HostRuntime) {
    assert_eq!(rt; first_bad_terms(TERMS), (None, 31));
}

// The usual terms with another CUSIP and another name.
fn named(words: &str, cusip: [u8; 9], name: &[u8]) -> Option<IssueRow> {
    let mut row = Sample::of(words).row()?;
    let mut own = ArrayVec::new();
    let _ = own.try_extend_from_slice(name);
    row.cusip = cusip;
    row.name = own;
    Some(row)
}

fn fault_of_named(words: &str, cusip: [u8; 9], name: &[u8]) -> Option<u32> {
    Some(fault_of(named(words, cusip, name)?))
}

const ON_ONE_DAY: &str = "periodic dated=2022-07-01 first=2022-07-01 maturity=2044-01-01 coupon=4";

#[test]
fn a_check_digit_is_told_before_the_name_and_that_before_the_dates(rt: HostRuntime) {
    let cusip = *b"123456AA3";
    let faults = [
        fault_of_named(USUAL, *b"123456AA4", b""),
        fault_of_named(ON_ONE_DAY, cusip, b""),
        fault_of_named(USUAL, cusip, b"RIVERTON WATER\t"),
    ];
    assert_eq!(rt; faults, [Some(1), Some(10), Some(10)]);
}

// The payments of an issue up to its first call, or else up to its maturity.
fn payments(case: &Sample<'_>) -> Option<Flows> {
    let issue = case.issue()?;
    let settlement = case.day("settle=")?;
    let row = issue.row();
    let (Kind::Periodic { .. } | Kind::Zero) = row.kind else {
        return None;
    };
    if !issue.settles(settlement) {
        return None;
    }
    let calls = row.calls.as_slice();
    if calls.is_empty() {
        return Some(issue.flows(settlement, row.maturity, Price::PAR));
    }
    let call = calls[0];
    if settlement >= call.date {
        return None;
    }
    Some(issue.flows(settlement, call.date, call.price))
}

// A number of a case, or 0.
fn number(case: &Sample<'_>, name: &str) -> u64 {
    match case.number(name) {
        Some(number) => number.unsigned_abs(),
        None => 0,
    }
}

fn are_payments(flows: &Flows, case: &Sample<'_>) -> bool {
    let redemption = match number(case, "redemption=") {
        0 => 36_000_000_000_000,
        own => own,
    };
    flows.redemption() == redemption
        && u64::from(flows.n()) == number(case, "n=")
        && u64::from(flows.skip()) == number(case, "skip=")
        && flows.first() == number(case, "paid=")
        && flows.regular() == number(case, "regular=")
        && flows.accrued() == number(case, "accrued=")
        && u64::from(flows.a()) == number(case, "a=")
}

fn first_bad_payments(cases: &str) -> (Option<&str>, u32) {
    let mut table = Table::new();
    let mut right = 0_u32;
    for line in cases.lines() {
        if let Some(case) = table.sample(line) {
            match payments(&case) {
                Some(flows) if are_payments(&flows, &case) => right = right.wrapping_add(1),
                _ => return (Some(line), right),
            }
        }
    }
    (None, right)
}

#[test]
fn payments_are_those_computed_outside(rt: HostRuntime) {
    assert_eq!(rt; first_bad_payments(WITH_COUPONS), (None, 40));
    assert_eq!(rt; first_bad_payments(WITHOUT_COUPONS), (None, 8));
}

// The days that a note accrues, or none if it does not settle.
const NOTES: [(&str, Option<i32>); 4] = [
    (
        "at-redemption dated=2024-01-31 maturity=2025-01-01 coupon=4 settle=2024-07-31",
        Some(180),
    ),
    (
        "at-redemption actual/365 dated=2024-01-31 maturity=2025-01-01 coupon=4 settle=2024-07-31",
        Some(182),
    ),
    (
        "discount dated=2024-01-31 maturity=2025-01-01 settle=2024-07-31",
        Some(0),
    ),
    (
        "discount dated=2024-01-31 maturity=2025-01-01 settle=2025-01-01",
        None,
    ),
];

fn accrued_days(case: &Sample<'_>) -> Option<i32> {
    let issue = case.issue()?;
    let settlement = case.day("settle=")?;
    if !issue.settles(settlement) {
        return None;
    }
    Some(issue.accrued_days(settlement))
}

#[test]
fn notes_accrue_from_the_dated_date_and_discounts_not_at_all(rt: HostRuntime) {
    for (words, days) in NOTES {
        assert_eq!(rt; accrued_days(&Sample::of(words)), days, "{words}");
    }
}

pub fn is_shared<T: Send + Sync>(_shared: &T) {}

// Whether a row and its issue are as their copies, and as those of other words.
fn are_compared(words: &str, other: &str) -> Option<[bool; 4]> {
    let row = Sample::of(words).row()?;
    let rows = (row == row.copy(), row == Sample::of(other).row()?);
    let issue = check(row).ok()?;
    is_shared(&issue);
    let is_other = issue == Sample::of(other).issue()?;
    Some([rows.0, rows.1, issue == issue.copy(), is_other])
}

#[test]
fn rows_and_issues_are_copied_and_compared_by_value(rt: HostRuntime) {
    let compared = are_compared(
        "periodic dated=2022-01-01 first=2022-07-01 maturity=2044-01-01 coupon=4 call=2034-01-01:100",
        "periodic dated=2022-01-01 first=2022-07-01 maturity=2044-01-01 coupon=4 call=2034-01-01:101",
    );
    assert_eq!(rt; compared, Some([true, false, true, false]));
}
