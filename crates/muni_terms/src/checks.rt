//! The tests of an issue's terms, in their order.

ghost use Rattle.std.specs.Prelude.{◌≡◌, true, None};
ghost use Rattle.std.specs.List.{list_all};
ghost use Rattle.muni_rule.specs.Terms as rule;
ghost use Rattle.muni_days.specs.Day.{civil};
ghost use Rattle.muni_terms.specs.Check as spec;

use crate::cusip::is_cusip;
use crate::quasi_dates::{is_quasi_date, quasi_count};
use crate::row::{Call, IssueRow, Kind, TermsFault};
use muni_days::{Basis, Day, days_by, days360};

fn is_printable(byte: u8) -> bool
    ensures { result ≡ rule.is_printable byte }
{
    32 <= byte && byte <= 126
}

fn are_printable(bytes: &[u8]) -> bool
    ensures { result ≡ list_all rule.is_printable bytes.now }
{
    bytes.iter().all(|byte| is_printable(*byte))
}

fn is_name(name: &[u8]) -> bool
    ensures { result ≡ rule.is_name name.now }
{
    !name.is_empty() && are_printable(name)
}

fn has_order(row: &IssueRow) -> bool
    ensures { result ≡ spec.has_order row.now }
{
    let are_in_order = match row.kind {
        Kind::Periodic { first } => row.dated < first && first <= row.maturity,
        Kind::Zero | Kind::AtRedemption | Kind::Discount => row.dated < row.maturity,
    };
    row.dated.year() >= 1902 && are_in_order
}

fn has_day(row: &IssueRow) -> bool
    ensures { result ≡ spec.has_day row.now }
{
    match row.kind {
        Kind::Periodic { first } => first.day() <= 28 && is_quasi_date(first, row.maturity),
        Kind::Zero => row.maturity.day() <= 28,
        Kind::AtRedemption | Kind::Discount => true,
    }
}

fn has_coupon(row: &IssueRow) -> bool
    ensures { result ≡ spec.has_coupon row.now }
{
    match row.kind {
        Kind::Periodic { .. } | Kind::AtRedemption => row.coupon.units() > 0,
        Kind::Zero | Kind::Discount => row.coupon.units() == 0,
    }
}

fn has_basis(row: &IssueRow) -> bool
    ensures { result ≡ spec.has_basis row.now }
{
    match row.kind {
        Kind::Periodic { .. } | Kind::Zero => row.basis == Basis::Thirty360,
        Kind::AtRedemption | Kind::Discount => true,
    }
}

fn has_short_start(row: &IssueRow) -> bool
    ensures { result ≡ spec.has_short_start row.now }
{
    match row.kind {
        Kind::Periodic { first } => days360(row.dated, first) <= 360,
        Kind::Zero | Kind::AtRedemption | Kind::Discount => true,
    }
}

fn has_short_term(row: &IssueRow) -> bool
    requires order { spec.has_order row.now ≡ true }
    requires day { spec.has_day row.now ≡ true }
    ensures { result ≡ spec.has_short_term row.now }
{
    match row.kind {
        Kind::Periodic { first } => quasi_count(first, row.dated, row.maturity) <= 100,
        Kind::Zero => quasi_count(row.maturity, row.dated, row.maturity) <= 100,
        Kind::AtRedemption | Kind::Discount => {
            days_by(row.basis, row.dated, row.maturity) <= 720
        }
    }
}

#[tactic(auto, unfolding(crate::specs::Check::early_fault))]
fn early_fault(row: &IssueRow) -> Option<TermsFault>
    ensures { result ≡ spec.early_fault row.now }
{
    if !is_cusip(&row.cusip) {
        return Some(TermsFault::BadCusip);
    }
    if !is_name(&row.name) {
        return Some(TermsFault::BadName);
    }
    if !has_order(row) {
        return Some(TermsFault::BadOrder);
    }
    if !has_day(row) {
        return Some(TermsFault::BadDay);
    }
    if !has_coupon(row) {
        return Some(TermsFault::BadCoupon);
    }
    if !has_basis(row) {
        return Some(TermsFault::BadBasis);
    }
    if !has_short_start(row) {
        return Some(TermsFault::FirstTooLong);
    }
    if !has_short_term(row) {
        return Some(TermsFault::TooLong);
    }
    None
}

fn is_coupon_call_date(first: Day, maturity: Day, date: Day) -> bool
    ensures { result ≡ rule.is_coupon_call_date (civil first) (civil maturity) (civil date) }
{
    is_quasi_date(first, date) && date < maturity && first <= date
}

fn is_zero_call_date(dated: Day, maturity: Day, date: Day) -> bool
    ensures { result ≡ rule.is_zero_call_date (civil dated) (civil maturity) (civil date) }
{
    is_quasi_date(maturity, date) && date < maturity && dated < date
}

fn is_call_date(row: &IssueRow, date: Day) -> bool
    ensures { result ≡ spec.is_call_date row.now.kind (civil row.now.dated)
        (civil row.now.maturity) (civil date) }
{
    match row.kind {
        Kind::Periodic { first } => is_coupon_call_date(first, row.maturity, date),
        Kind::Zero => is_zero_call_date(row.dated, row.maturity, date),
        Kind::AtRedemption | Kind::Discount => false,
    }
}

fn rises(before: Option<Day>, date: Day) -> bool
    ensures { result ≡ spec.rises before date }
{
    match before {
        Some(before) => before < date,
        None => true,
    }
}

fn call_fault(row: &IssueRow, before: Option<Day>, call: &Call) -> Option<TermsFault>
    ensures { result ≡ spec.call_fault row.now before call.now }
{
    let date = call.date;
    if !is_call_date(row, date) {
        return Some(TermsFault::CallOffCalendar { date });
    }
    if !rises(before, date) {
        return Some(TermsFault::CallsNotRising { date });
    }
    let price = call.price.units();
    if price < 1_000_000 || price > 200_000_000 {
        return Some(TermsFault::BadCallPrice { date });
    }
    None
}

fn calls_fault(row: &IssueRow, calls: &[Call]) -> Option<TermsFault>
    ensures { result ≡ spec.calls_fault row.now None calls.now }
{
    let mut before = None;
    for (i, call) in calls.iter().enumerate() {
        if let Some(fault) = call_fault(row, before, call) {
            return Some(fault);
        }
        before = Some(call.date);
    }
    None
}

// A call that is certain is the last.
fn certain_fault(calls: &[Call]) -> Option<TermsFault>
    ensures { result ≡ spec.certain_fault calls.now }
{
    for (i, call) in calls.iter().enumerate() {
        if call.is_certain() && i + 1 < calls.len() {
            return Some(TermsFault::CalledNotLast { date: call.date });
        }
    }
    None
}

/// The fault of the first test that a row fails, if it fails one.
#[tactic(auto, unfolding(crate::specs::Check::fault_of))]
pub fn fault_of(row: &IssueRow) -> Option<TermsFault>
    ensures { result ≡ spec.fault_of row.now }
{
    if let Some(fault) = early_fault(row) {
        return Some(fault);
    }
    if let Some(fault) = calls_fault(row, &row.calls) {
        return Some(fault);
    }
    certain_fault(&row.calls)
}
