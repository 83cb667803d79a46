use arrayvec::ArrayVec;
use muni_days::{Day, days360, months_on};
use muni_dec::text::{push, push_number};
use std::test::Fail;

// A call, what it is given, and its answer: a day as it is written, the number of the fault, a count
// of days, or how one day compares with another.
const CASES: &str = "\
day|1900-01-01|1900-01-01
day|2000-02-29|2000-02-29
day|2024-02-29|2024-02-29
day|2199-12-31|2199-12-31
day||fault 1
day|2024-2-01|fault 1
day|2024-02-1|fault 1
day|2024/02/01|fault 1
day|+024-02-01|fault 1
day|2024-02-01 |fault 1
day|2023-02-29|fault 2
day|2100-02-29|fault 2
day|2024-13-01|fault 2
day|2024-04-31|fault 2
day|2024-00-10|fault 2
day|1899-12-31|fault 2
day|2200-01-01|fault 2
days|2023-01-31 2023-02-28|28
days|2023-02-28 2023-03-31|33
days|2023-01-30 2023-03-31|60
days|2023-01-31 2023-03-31|60
days|2023-01-29 2023-03-31|62
days|2023-12-31 2024-01-01|1
days|2024-01-01 2023-12-31|0
days|2024-02-29 2024-02-29|0
days|2024-07-01 2024-04-01|-90
days|1900-01-01 2199-12-31|108000
months|2024-07-01 -6|2024-01-01
months|2024-01-28 -6|2023-07-28
months|2024-07-28 6|2025-01-28
months|2024-05-15 0|2024-05-15
months|2000-01-01 1200|2100-01-01
months|2000-01-01 -1200|1900-01-01
months|1900-01-28 -1|none
months|2199-12-01 1|none
compare|2023-12-31 2024-01-01|less
compare|2024-01-31 2024-02-01|less
compare|2024-01-31 2024-01-31|equal";

type Text = ArrayVec<u8, 32>;

fn word(bytes: &[u8]) -> Text {
    let mut text = ArrayVec::new();
    let _ = text.try_extend_from_slice(bytes);
    text
}

fn day(text: &str) -> Option<Day> {
    Day::read(text.as_bytes()).ok()
}

fn read_again(text: &str) -> Text {
    let mut said = ArrayVec::new();
    match Day::read(text.as_bytes()) {
        Ok(day) => day.print_into(&mut said),
        Err(fault) => {
            push(&mut said, b"fault");
            push_number(&mut said, fault.number());
        }
    }
    said
}

fn is_count(first: &str, last: &str, wanted: &str) -> Option<bool> {
    Some(days360(day(first)?, day(last)?) == wanted.parse::<i32>().ok()?)
}

// What a number of months later is.
fn later(from: &str, months: &str) -> Option<Text> {
    let from = day(from)?;
    let months = months.parse::<i32>().ok()?;
    if from.day() > 28 || months < -1_200 || months > 1_200 {
        return None;
    }
    let mut text = ArrayVec::new();
    match months_on(from, months) {
        Some(day) => day.print_into(&mut text),
        None => push(&mut text, b"none"),
    }
    Some(text)
}

fn compared(one: &str, other: &str) -> Option<Text> {
    let (one, other) = (day(one)?, day(other)?);
    if one < other {
        return Some(word(b"less"));
    }
    Some(word(if one == other { b"equal" } else { b"greater" }))
}

fn is_right(call: &str, given: &str, wanted: &str) -> Option<bool> {
    if call == "day" {
        return Some(read_again(given).as_slice() == wanted.as_bytes());
    }
    let (one, other) = given.split_once(' ')?;
    match call {
        "days" => is_count(one, other, wanted),
        "months" => Some(later(one, other)?.as_slice() == wanted.as_bytes()),
        "compare" => Some(compared(one, other)?.as_slice() == wanted.as_bytes()),
        _ => None,
    }
}

fn first_bad(cases: &str) -> Option<&str> {
    for case in cases.lines() {
        let (call, rest) = case.split_once('|').unwrap_or((case, ""));
        let (given, wanted) = rest.split_once('|').unwrap_or((rest, ""));
        if is_right(call, given, wanted) != Some(true) {
            return Some(case);
        }
    }
    None
}

#[test]
fn days_are_read_counted_and_compared(rt: HostRuntime) {
    assert_eq!(rt; first_bad(CASES), None);
    assert_eq!(rt; CASES.lines().count(), 38);
}

#[test]
fn a_day_has_its_year_month_and_day(rt: HostRuntime) -> Result<(), Fail> {
    let leap = day("2024-02-29").ok_or("a day")?;
    assert_eq!(rt; (leap.year(), leap.month(), leap.day()), (2024, 2, 29));
    Ok(())
}
