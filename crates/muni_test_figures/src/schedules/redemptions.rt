use crate::schedules::redemption_cases::CASES;
use muni_days::{Basis, Day};
use muni_dec::Price;
use muni_sched::{Candidate, Label, Shape, candidates};
use muni_simple::Single;
use muni_terms::{Call, CallTerm, Issue, check};
use muni_test_samples::{Sample, Table};
use std::test::Fail;

fn name_of(label: Label) -> &'static str {
    match label {
        Label::Maturity => "MATURITY",
        Label::ParOption => "PAR",
        Label::Call => "CALL",
        Label::Called => "CALLED",
    }
}

fn is_basis(basis: Basis, case: &Sample<'_>) -> bool {
    case.has("actual/365") == (basis == Basis::Actual365)
}

fn is_payment(payment: &Single, case: &Sample<'_>) -> bool {
    case.number("due=") == Some(payment.due)
        && case.number("accrued=") == Some(payment.accrued)
        && case.number("left=") == Some(i64::from(payment.left))
        && is_basis(payment.basis, case)
}

fn is_shape(shape: &Shape, case: &Sample<'_>) -> bool {
    match shape {
        Shape::Many(flows) => {
            case.has("many")
                && case.number("n=") == Some(i64::from(flows.n()))
                && case.number("a=") == Some(i64::from(flows.a()))
                && case.number("accrued=") == Some(flows.accrued() as i64)
                && case.number("redemption=") == Some(flows.redemption() as i64)
        }
        Shape::One(payment) => case.has("one") && is_payment(payment, case),
        Shape::AtRedemption(payment) => case.has("note") && is_payment(payment, case),
        Shape::Discount { days, basis } => {
            case.has("discounted")
                && case.number("days=") == Some(i64::from(*days))
                && is_basis(*basis, case)
        }
    }
}

// Whether it is the candidate that a case gives.
fn is_candidate(candidate: &Candidate, case: &Sample<'_>) -> Result<bool, Fail> {
    let date = case.day("date=").ok_or("a date")?;
    let price = case.price("at=").ok_or("a price")?;
    Ok(
        candidate.date == date
            && candidate.price == price
            && case.has(name_of(candidate.label))
            && is_shape(&candidate.shape, case),
    )
}

// Whether there are as many candidates as a case says, and that of its number is as it says.
fn is_right(case: &Sample<'_>) -> Result<bool, Fail> {
    let issue = case.issue().ok_or("an issue")?;
    let settlement = case.day("settle=").ok_or("a settlement")?;
    if !issue.settles(settlement) {
        return Err(Fail::from("a settlement of the issue"));
    }
    let list = candidates(&issue, settlement);
    let number = case.count("no=").ok_or("a number")?;
    let candidate = list.as_slice().get(number).ok_or("a candidate")?;
    Ok(Some(list.len()) == case.count("candidates=") && is_candidate(candidate, case)?)
}

// The first case that is not as it says, and how many are before it.
fn first_bad(cases: &str) -> Result<(Option<&str>, u32), Fail> {
    let mut table = Table::new();
    let mut right = 0_u32;
    for line in cases.lines() {
        if let Some(case) = table.sample(line) {
            if !is_right(&case)? {
                return Ok((Some(line), right));
            }
            right = right.wrapping_add(1);
        }
    }
    Ok((None, right))
}

#[test]
fn candidates_are_those_computed_outside(rt: HostRuntime) -> Result<(), Fail> {
    assert_eq!(rt; first_bad(CASES)?, (None, 58));
    Ok(())
}

const UNCALLED: &str = "periodic dated=2020-01-01 first=2020-07-01 maturity=2045-01-01 coupon=4";

fn with_forty_calls() -> Option<Issue> {
    let mut row = Sample::of(UNCALLED).row()?;
    let price = Price::of(101_000_000)?;
    for i in 0u64..40 {
        let date = Day::of(2021 + i / 2, 1 + 6 * (i % 2), 1)?;
        let term = CallTerm::OnDay;
        let _ = row.calls.try_push(Call { date, price, term });
    }
    check(row).ok()
}

fn count_at(issue: &Issue, settlement: &str) -> Option<usize> {
    let settlement = Day::read(settlement.as_bytes()).ok()?;
    if !issue.settles(settlement) {
        return None;
    }
    Some(candidates(issue, settlement).len())
}

#[test]
fn forty_calls_and_the_maturity_are_forty_one_candidates(rt: HostRuntime) -> Result<(), Fail> {
    let issue = with_forty_calls().ok_or("an issue")?;
    for (settlement, count) in [
        ("2020-01-01", 41),
        ("2020-12-31", 41),
        ("2021-01-01", 40),
        ("2030-07-01", 21),
        ("2040-06-30", 2),
        ("2040-07-01", 1),
    ] {
        assert_eq!(rt; count_at(&issue, settlement), Some(count), "{settlement}");
    }
    Ok(())
}
