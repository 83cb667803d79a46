ghost use Rattle.std.specs.Prelude.{◌≡◌, ◌<◌, ◌≤◌, pos, IfOk, length};
ghost use Rattle.muni_multi.specs.Horner.{horner_ends};
ghost use Rattle.muni_multi.specs.HornerLaws.{horner-encloses, horner-narrow};

mod yield_cases;

use crate::terms::is_shared;
use muni_days::Day;
use muni_dec::Price;
use muni_edge::{NoGate, Steps};
use muni_multi::{Doubling, Encloser, Horner};
use muni_sched::{Calculator, NoYield, Schedule, Workers};
use muni_span::worth::Worth;
use muni_terms::Flows;
use muni_test_samples::{Sample, Table};
use muni_yield::{Bracket, Outcome, printed_yield};
use std::cell::Cell;
use std::marker::Brand;
use std::sync::ledger::{Blank, Ledger};
use std::test::Fail;
use std::thread::Threads;
use yield_cases::{CASES, NEAR_CASES};

const TWO_PERIODS: &str = "periodic dated=2020-01-01 first=2020-07-01 maturity=2025-01-01 \
     coupon=5 settle=2024-04-01 price=100.725 prints=4001";

const ON_AN_INTEREST_DATE: &str = "periodic dated=2020-01-01 first=2020-07-01 \
     maturity=2025-01-01 coupon=5 settle=2024-01-01 price=100 prints=5000";

fn flows_of(case: &Sample<'_>) -> Result<Flows, Fail>
    ensures { IfOk result (λ flows. 2 ≤ flows.n) }
{
    Ok(case.flows().ok_or("payments")?)
}

fn price_of(case: &Sample<'_>) -> Result<Price, Fail>
    ensures { IfOk result (λ price. 0 < price) }
{
    let price = case.price("price=").ok_or("a price")?;
    if price.units() == 0 {
        return Err(Fail::from("a price above zero"));
    }
    Ok(price)
}

fn search_of(case: &Sample<'_>) -> Result<Bracket, Fail> {
    let flows = flows_of(case)?;
    let price = price_of(case)?;
    Ok(Bracket::start(flows, price))
}

fn outcome_of<E: Encloser>(encloser: &E, case: &Sample<'_>) -> Result<Outcome, Fail> {
    let flows = flows_of(case)?;
    let price = price_of(case)?;
    Ok(counted::<_, Brand>(encloser, &flows, price, Blank::new(1)))
}

// The steps are counted on a counter of its own.
fn counted<E: Encloser, L: Ledger>(
    encloser: &E,
    flows: &Flows,
    price: Price,
    blank: Blank,
) -> Outcome
    requires many { 2 ≤ flows.now.n }
    requires price { 0 < price }
    requires name { blank.name ≡ L.name }
    requires parts { blank.parts ≡ L.parts }
    requires some { 0 < blank.parts }
{
    let mut steps = Steps::<L>::open(blank);
    printed_yield(encloser, flows, price, &mut steps)
}

fn is_expected(outcome: Outcome, case: &Sample<'_>) -> bool {
    match outcome {
        Outcome::Print(yld) => case.number("prints=") == Some(yld.units()),
        Outcome::Below => case.has("below"),
        Outcome::Above => case.has("above"),
        Outcome::Unsure { lower } => case.number("unsure=") == Some(i64::from(lower)),
    }
}

/// Hands on to `Horner` and counts its calls.
#[derive(Drop)]
struct Counting {
    calls: Cell<u32>,
}

impl Encloser for Counting {
    ghost ends = { λ _ series y. horner_ends series y };

    fn pv(&self, flows: &Flows, y: i32) -> Worth {
        self.calls.set(self.calls.get().wrapping_add(1));
        Horner.pv(flows, y)
    }

    ghost encloses = { λ _ series y is many within. horner-encloses series y is many within };

    ghost narrow = { λ _ series y is many within. horner-narrow series y is many within };
}

// Whether a case is answered as it says, after a limited number of calls of the encloser.
fn is_right(case: &Sample<'_>, most: u32) -> Result<bool, Fail> {
    let counting = Counting {
        calls: Cell::new(0),
    };
    let outcome = outcome_of(&counting, case)?;
    Ok(is_expected(outcome, case) && counting.calls.get() <= most)
}

// The first case that is not as it says, and how many are before it.
fn first_bad(cases: &str) -> Result<(Option<&str>, u32), Fail> {
    let mut table = Table::new();
    let mut right = 0_u32;
    for line in cases.lines() {
        if let Some(case) = table.sample(line) {
            if !is_right(&case, 19)? {
                return Ok((Some(line), right));
            }
            right = right.wrapping_add(1);
        }
    }
    Ok((None, right))
}

// The first case that is not as it says by `Doubling`.
fn first_bad_by_doubling(cases: &str) -> Result<Option<&str>, Fail> {
    let mut table = Table::new();
    for line in cases.lines() {
        if let Some(case) = table.sample(line) {
            if !is_expected(outcome_of(&Doubling, &case)?, &case) {
                return Ok(Some(line));
            }
        }
    }
    Ok(None)
}

// The outcome of a case as the program finds it, if the redemption of the case decides.
fn lowest_outcome<R: Threads + Sync>(
    rt: &R,
    schedule: &mut Schedule,
    case: &Sample<'_>,
) -> Result<Option<Outcome>, Fail> {
    let price = price_of(case)?;
    let issue = case.issue().ok_or("an issue")?;
    let settlement = case.day("settle=").ok_or("a settlement")?;
    if !issue.settles(settlement) {
        return Err(Fail::from("a settlement of the issue"));
    }
    schedule.fill(&issue, settlement);
    let calculator = Calculator {
        rt,
        workers: Workers::ONE,
        encloser: &Horner,
        gate: &NoGate,
    };
    match schedule.yield_to_worst(&calculator, price) {
        Ok(lowest) => Ok((lowest.candidate == 0).then_some(Outcome::Print(lowest.yld))),
        Err(none) => outcome_of_none(none, schedule.candidates()[0].date),
    }
}

// The outcome that says why there is no yield, if the first redemption decides.
fn outcome_of_none(none: NoYield, first: Day) -> Result<Option<Outcome>, Fail> {
    match none {
        NoYield::Undecided { date, boundary } => Ok(
            (date == first).then_some(Outcome::Unsure {
                lower: (boundary.units().wrapping_sub(5) / 10) as i32,
            }),
        ),
        NoYield::Below { date } => Ok((date == first).then_some(Outcome::Below)),
        NoYield::Above => Ok(Some(Outcome::Above)),
        NoYield::NoTime { .. } => Err(Fail::from("time up to each redemption")),
    }
}

// The first case that the program does not answer as it says, how many before it are answered as they say,
// and of how many another redemption decides.
fn first_bad_lowest<'a, R: Threads + Sync>(
    rt: &R,
    cases: &'a str,
) -> Result<(Option<&'a str>, u32, u32), Fail> {
    let mut table = Table::new();
    let mut schedule = Schedule::new();
    let (mut right, mut others) = (0_u32, 0_u32);
    for line in cases.lines() {
        if let Some(case) = table.sample(line) {
            match lowest_outcome(rt, &mut schedule, &case)? {
                Some(outcome) if is_expected(outcome, &case) => right = right.wrapping_add(1),
                Some(_) => return Ok((Some(line), right, others)),
                None => others = others.wrapping_add(1),
            }
        }
    }
    Ok((None, right, others))
}

#[test]
fn the_program_finds_the_same_yields(rt: HostRuntime) -> Result<(), Fail> {
    assert_eq!(rt; first_bad_lowest(&rt, CASES)?, (None, 222, 22));
    assert_eq!(rt; first_bad_lowest(&rt, NEAR_CASES)?, (None, 28, 0));
    Ok(())
}

#[test]
fn yields_are_the_exact_ones_after_nineteen_calls_at_most(rt: HostRuntime) -> Result<(), Fail> {
    assert_eq!(rt; first_bad(CASES)?, (None, 244));
    Ok(())
}

#[test]
fn yields_by_doubling_are_the_exact_ones(rt: HostRuntime) -> Result<(), Fail> {
    assert_eq!(rt; first_bad_by_doubling(CASES)?, None);
    Ok(())
}

#[test]
fn yields_too_near_a_boundary_are_told_by_the_ends(rt: HostRuntime) -> Result<(), Fail> {
    assert_eq!(rt; first_bad(NEAR_CASES)?, (None, 28));
    Ok(())
}

#[test]
fn an_exact_case_takes_no_call(rt: HostRuntime) -> Result<(), Fail> {
    let exact = is_right(&Sample::of(ON_AN_INTEREST_DATE), 0)?;
    let other = is_right(&Sample::of(TWO_PERIODS), 16)?;
    assert_eq!(rt; (exact, other), (true, false));
    Ok(())
}

// Whether one question narrows a search.
fn narrows(bracket: &mut Bracket) -> bool {
    let (low, high) = (bracket.low(), bracket.high());
    if bracket.settled().is_none() {
        bracket.halve(&Horner);
    }
    (low < bracket.low() || bracket.high() < high) && low <= bracket.low() && bracket.high() <= high
}

// The first question that is not the next one or narrows nothing.
fn first_bad_question(bracket: &mut Bracket) -> Option<u32> {
    for asked in 0u32..20 {
        if bracket.settled().is_some() {
            return None;
        }
        if bracket.halvings() != asked || !narrows(bracket) {
            return Some(asked);
        }
    }
    None
}

#[test]
fn a_search_narrows_one_question_at_a_time(rt: HostRuntime) -> Result<(), Fail> {
    let mut bracket = search_of(&Sample::of(TWO_PERIODS))?;
    is_shared(&bracket);
    let first = (bracket.low(), bracket.high());
    let bad = first_bad_question(&mut bracket);
    let last = (bracket.low(), bracket.high());
    assert_eq!(rt;
        (bad, first, last),
        (None, (-5_001, 100_002), (4_001, 4_002))
    );
    assert!(rt; bracket.halvings() <= 19);
    Ok(())
}
