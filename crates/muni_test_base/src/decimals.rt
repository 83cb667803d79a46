ghost use Rattle.muni_rule.specs.Ranges.{IsOnePeriodYield};

mod decimal_cases;

use arrayvec::ArrayVec;
use decimal_cases::{FIGURES, READINGS, TEXTS};
use muni_dec::digits::read_number;
use muni_dec::text::{push, push_line, push_number, push_number_line, push_part};
use muni_dec::{
    Cents, Coupon, DecFault, Fee, Par, Price, Price3, Yield, Yield3, accrued_cents,
    commission_cents, principal_cents, round_yield, trunc3,
};
use muni_test_samples::Sample;
use std::test::Fail;

type Text = ArrayVec<u8, 64>;

// The number of a fault, and its place if it has one.
fn fault_text(fault: DecFault) -> Text {
    let mut text = ArrayVec::new();
    push(&mut text, b"fault");
    push_number(&mut text, fault.number());
    match fault {
        DecFault::NotADigit { at } | DecFault::TooManyDecimals { at } => push_number(&mut text, at),
        DecFault::Empty | DecFault::OutOfRange => {}
    }
    text
}

fn units_text(units: u64) -> Text {
    let mut text = ArrayVec::new();
    push(&mut text, b"units");
    push_number(&mut text, units);
    text
}

fn signed_text(units: i64) -> Text {
    let mut text = ArrayVec::new();
    push(&mut text, b"units");
    push_number(&mut text, units);
    text
}

fn none() -> Text {
    let mut text = ArrayVec::new();
    push(&mut text, b"none");
    text
}

fn units_or_fault(units: Result<u64, DecFault>) -> Text {
    match units {
        Ok(units) => units_text(units),
        Err(fault) => fault_text(fault),
    }
}

fn yield_text(text: &[u8]) -> Text {
    match Yield::read(text) {
        Ok(yld) => signed_text(yld.units()),
        Err(fault) => fault_text(fault),
    }
}

fn units_or_none(units: Option<u64>) -> Text {
    match units {
        Some(units) => units_text(units),
        None => none(),
    }
}

// What a call answers for the text beside it.
fn reading(call: &str, text: &[u8]) -> Option<Text> {
    match call {
        "coupon" => Some(units_or_fault(Coupon::read(text).map(|coupon| coupon.units()))),
        "fee" => Some(units_or_fault(Fee::read(text).map(|fee| fee.units()))),
        "par" => Some(units_or_fault(Par::read(text).map(|par| par.units()))),
        "price" => Some(units_or_fault(Price::read(text).map(|price| price.units()))),
        "yield" => Some(yield_text(text)),
        "number" => Some(units_or_none(read_number(text, 20, 0, u64::MAX))),
        "workers" => Some(units_or_none(read_number(text, 20, 1, 16))),
        _ => None,
    }
}

// The first case of a table that is not as it says.
fn first_bad_reading(cases: &str) -> Option<&str> {
    for case in cases.lines() {
        let (call, rest) = case.split_once('|').unwrap_or((case, ""));
        let (given, wanted) = rest.split_once('|').unwrap_or((rest, ""));
        match reading(call, given.as_bytes()) {
            Some(text) if text.as_slice() == wanted.as_bytes() => {}
            _ => return Some(case),
        }
    }
    None
}

#[test]
fn texts_are_read_as_units_or_their_faults_are_told(rt: HostRuntime) {
    assert_eq!(rt; first_bad_reading(READINGS), None);
    assert_eq!(rt; READINGS.lines().count(), 57);
}

fn whole(units: &str) -> Option<u64> {
    units.parse::<u64>().ok()
}

fn signed(units: &str) -> Option<i64> {
    units.parse::<i64>().ok()
}

// The text of a value of a kind, or none if the units are outside its range.
fn printed(kind: &str, units: &str) -> Option<ArrayVec<u8, 32>> {
    let mut text = ArrayVec::new();
    match kind {
        "cents" => Cents::of(whole(units)?)?.print_into(&mut text),
        "coupon" => Coupon::of(whole(units)?)?.print_into(&mut text),
        "fee" => Fee::of(whole(units)?)?.print_into(&mut text),
        "par" => Par::of(whole(units)?)?.print_into(&mut text),
        "price" => Price::of(whole(units)?)?.print_into(&mut text),
        "price3" => Price3::of(whole(units)?)?.print_into(&mut text),
        "yield" => Yield::of(signed(units)?)?.print_into(&mut text),
        "yield3" => Yield3::of(signed(units)?)?.print_into(&mut text),
        _ => return None,
    }
    Some(text)
}

fn first_bad_text(cases: &str) -> Option<&str> {
    for case in cases.lines() {
        let (value, wanted) = case.split_once('|').unwrap_or((case, ""));
        let (kind, units) = value.split_once(' ').unwrap_or((value, ""));
        let is_right = match printed(kind, units) {
            Some(text) => text.as_slice() == wanted.as_bytes(),
            None => wanted == "none",
        };
        if !is_right {
            return Some(case);
        }
    }
    None
}

#[test]
fn values_are_printed_with_all_their_decimals(rt: HostRuntime) {
    assert_eq!(rt; first_bad_text(TEXTS), None);
    assert_eq!(rt; TEXTS.lines().count(), 26);
}

fn par_of(case: &Sample<'_>) -> Option<Par> {
    Par::read(case.text("par=")?).ok()
}

fn accrued(case: &Sample<'_>) -> Option<u64> {
    let days = case.number("days=")?;
    let year = case.number("year=")?;
    if days < 0 || days > 720 || (year != 360 && year != 365) {
        return None;
    }
    let coupon = case.coupon("coupon=")?;
    Some(accrued_cents(coupon, par_of(case)?, days as i32, year as i32).units())
}

fn commission(case: &Sample<'_>) -> Option<u64> {
    let fee = Fee::read(case.text("fee=")?).ok()?;
    Some(commission_cents(par_of(case)?, fee).units())
}

fn principal(case: &Sample<'_>) -> Option<u64> {
    let price = trunc3(case.price("price=")?);
    Some(principal_cents(par_of(case)?, price).units())
}

// A figure of no yield, in cents or thousandths.
fn figure(case: &Sample<'_>) -> Option<u64> {
    if case.has("accrued") {
        return accrued(case);
    }
    if case.has("commission") {
        return commission(case);
    }
    if case.has("principal") {
        return principal(case);
    }
    Some(trunc3(case.price("price=")?).units())
}

fn shown(y: Yield) -> Yield3
    requires { IsOnePeriodYield y }
{
    round_yield(y)
}

// A yield of -90 to 999.999 percent as it is shown.
fn rounded(case: &Sample<'_>) -> Option<i64> {
    let y = case.yld("yield=")?;
    if y.units() < -900_000 || y.units() > 9_999_990 {
        return None;
    }
    Some(shown(y).units())
}

fn is_figure(case: &Sample<'_>) -> Option<bool> {
    let wanted = case.number("gives=")?;
    if case.has("rounded") {
        return Some(rounded(case)? == wanted);
    }
    Some(figure(case)? == u64::try_from(wanted).ok()?)
}

fn first_bad_figure(cases: &str) -> Option<&str> {
    for case in cases.lines() {
        if is_figure(&Sample::of(case)) != Some(true) {
            return Some(case);
        }
    }
    None
}

#[test]
fn figures_are_truncated_or_rounded(rt: HostRuntime) {
    assert_eq!(rt; first_bad_figure(FIGURES), None);
    assert_eq!(rt; FIGURES.lines().count(), 20);
}

#[test]
fn lines_are_appended_to_a_text(rt: HostRuntime) {
    let mut text = ArrayVec::<u8, 64>::new();
    push_line(&mut text, b"PRICE", b"100.235");
    push_number_line(&mut text, b"DAYS", -5_i64);
    push(&mut text, b"END");
    push_part(&mut text, b"OF");
    push_number(&mut text, 3_u32);
    assert_eq!(rt;
        text.as_slice(),
        b"PRICE 100.235\nDAYS -5\nEND OF 3".as_slice()
    );
}

#[test]
fn money_is_added_and_taken_away(rt: HostRuntime) {
    let five = Cents::new(5);
    let sums = (Cents::ZERO.plus(five).units(), five.minus(five).units());
    assert_eq!(rt; (sums, Price::PAR.units()), ((5, 0), 100_000_000));
}
