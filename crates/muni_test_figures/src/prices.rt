ghost use Rattle.std.specs.Prelude.{◌≡◌, ◌≤◌, pos, IfOk};
ghost use Rattle.muni_rule.specs.Ranges.{IsManyPeriodsBoundary};
ghost use Rattle.muni_multi.specs.Horner.{horner_ends};
ghost use Rattle.muni_multi.specs.HornerLaws.{horner-encloses, horner-narrow};

mod price_cases;

use crate::terms::{is_shared, price};
use arrayvec::ArrayVec;
use muni_dec::{Price, Yield};
use muni_multi::{Doubling, Encloser, Horner, PriceAnswer, Verdict, at_least, more, printed_price};
use muni_span::worth::Worth;
use muni_terms::Flows;
use muni_test_samples::{Sample, Table};
use price_cases::CASES;
use std::cell::Cell;
use std::test::Fail;

fn yield_of(units: i64) -> Result<Yield, Fail>
    ensures { IfOk result IsManyPeriodsBoundary }
{
    if units < -50_005 || units > 1_000_005 {
        return Err(Fail::from("a yield in range"));
    }
    Ok(Yield::of(units).ok_or("a yield")?)
}

fn flows_of(case: &str) -> Result<Flows, Fail>
    ensures { IfOk result (λ flows. 2 ≤ flows.n) }
{
    Ok(Sample::of(case).flows().ok_or("payments")?)
}

// The figure of an answer, after `?` if it is a boundary.
fn said(answer: &PriceAnswer) -> ArrayVec<u8, 32> {
    let mut figure = ArrayVec::new();
    let mut text = ArrayVec::new();
    match answer {
        PriceAnswer::Price(price) => price.print_into(&mut figure),
        PriceAnswer::BelowZero => {}
        PriceAnswer::Undecided { boundary } => {
            let _ = text.try_push(b'?');
            boundary.print_into(&mut figure);
        }
    }
    let _ = text.try_extend_from_slice(&figure);
    text
}

fn priced<E: Encloser>(encloser: &E, case: &Sample<'_>) -> Result<ArrayVec<u8, 32>, Fail> {
    let flows = case.flows().ok_or("payments")?;
    let y = yield_of(case.yld("yield=").ok_or("a yield")?.units())?;
    Ok(said(&printed_price(encloser, &flows, y)))
}

fn is_priced(case: &Sample<'_>) -> Result<bool, Fail> {
    let wanted = case.text("price=").ok_or("a price")?;
    Ok(priced(&Horner, case)?.as_slice() == wanted && priced(&Doubling, case)?.as_slice() == wanted)
}

// The first case that is not as it says by both enclosers, and how many are before it.
fn first_bad(cases: &str) -> Result<(Option<&str>, u32), Fail> {
    let mut table = Table::new();
    let mut right = 0_u32;
    for line in cases.lines() {
        if let Some(case) = table.sample(line) {
            if !is_priced(&case)? {
                return Ok((Some(line), right));
            }
            right = right.wrapping_add(1);
        }
    }
    Ok((None, right))
}

#[test]
fn prices_are_those_computed_outside(rt: HostRuntime) -> Result<(), Fail> {
    assert_eq!(rt; first_bad(CASES)?, (None, 158));
    Ok(())
}

const TWO_PERIODS: &str =
    "periodic dated=2020-01-01 first=2020-07-01 maturity=2025-01-01 coupon=5 settle=2024-04-01";

const PAR_BOND: &str =
    "periodic dated=2020-01-01 first=2020-07-01 maturity=2034-01-01 coupon=4.125 settle=2024-01-01";

const ZERO: &str = "zero dated=2020-01-01 maturity=2026-07-01 settle=2024-01-01";

const ZERO_OF_FIFTY_YEARS: &str = "zero dated=1990-01-01 maturity=2040-01-01 settle=1990-04-01";

// The first of a hundred yields, from -5.0000 to 99.9499 percent, at which no price is decided.
fn first_undecided(flows: &Flows) -> Result<Option<u32>, Fail>
    requires { 2 ≤ flows.now.n }
{
    for step in 0..100_u32 {
        let y = yield_of(10_601 * i64::from(step) - 50_000)?;
        let PriceAnswer::Price(_) = printed_price(&Horner, flows, y) else {
            return Ok(Some(step));
        };
    }
    Ok(None)
}

#[test]
fn a_bond_is_decided_at_a_hundred_yields(rt: HostRuntime) -> Result<(), Fail> {
    let flows = flows_of(TWO_PERIODS)?;
    assert_eq!(rt; first_undecided(&flows)?, None);
    Ok(())
}

// Whether a price is reached at a yield, and whether the exact one is more.
fn verdicts(case: &str, y: i32, asked: &str) -> Result<(Verdict, Verdict), Fail>
    requires { IsManyPeriodsBoundary y }
{
    let flows = flows_of(case)?;
    let asked = price(asked)?;
    Ok((
        at_least(&Horner, &flows, y, asked),
        more(&Horner, &flows, y, asked),
    ))
}

// The exact price is 100.7254895.. at 4 percent.
#[test]
fn verdicts_are_yes_up_to_the_exact_price(rt: HostRuntime) -> Result<(), Fail> {
    for (asked, verdict) in [
        ("0", Verdict::Yes),
        ("100.725", Verdict::Yes),
        ("100.725489", Verdict::Yes),
        ("100.725490", Verdict::No),
        ("999.999999", Verdict::No),
    ] {
        assert_eq!(rt;
            verdicts(TWO_PERIODS, 40_000, asked)?,
            (verdict, verdict),
            "{asked}"
        );
    }
    Ok(())
}

// A par bond is worth 100 exactly; 100 * 0.8^5 is 32.768, in no exact case.
#[test]
fn a_tie_is_told_in_an_exact_case_alone(rt: HostRuntime) -> Result<(), Fail> {
    let par = verdicts(PAR_BOND, 41_250, "100")?;
    let zero = verdicts(ZERO, 500_000, "32.768")?;
    assert_eq!(rt; par, (Verdict::Yes, Verdict::No));
    assert_eq!(rt; zero, (Verdict::Unsure, Verdict::Unsure));
    Ok(())
}

// Encloses as `Horner` does and counts the calls.
#[derive(Drop)]
struct Counting {
    calls: Cell<u32>,
}

impl Encloser for Counting {
    ghost ends = { λ _ series y. horner_ends series y };

    fn pv(&self, flows: &Flows, y: i32) -> Worth {
        self.calls.set(self.calls.get().wrapping_add(1));
        Horner.pv(flows, y)
    }

    ghost encloses = { λ _ series y is many within. horner-encloses series y is many within };

    ghost narrow = { λ _ series y is many within. horner-narrow series y is many within };
}

// How often the encloser is called for a price, which has to be decided.
fn calls_at(flows: &Flows, y: i64) -> Result<u32, Fail>
    requires { 2 ≤ flows.now.n }
{
    let counting = Counting {
        calls: Cell::new(0),
    };
    match printed_price(&counting, flows, yield_of(y)?) {
        PriceAnswer::Price(_) => Ok(counting.calls.get()),
        _ => Err(Fail::from("a price")),
    }
}

#[test]
fn a_price_takes_one_call_of_the_encloser_and_none_in_an_exact_case(
    rt: HostRuntime,
) -> Result<(), Fail> {
    let flows = flows_of(TWO_PERIODS)?;
    assert_eq!(rt; (calls_at(&flows, 40_000)?, calls_at(&flows, 0)?), (1, 0));
    Ok(())
}

fn is_narrow(worth: Worth) -> bool {
    worth.lo() < worth.hi() && worth.hi() - worth.lo() < 360 * 4096
}

#[test]
fn a_worth_is_less_than_a_billionth_of_a_dollar_wide(rt: HostRuntime) -> Result<(), Fail> {
    let flows = flows_of(ZERO_OF_FIFTY_YEARS)?;
    let are_narrow = (
        is_narrow(Horner.pv(&flows, -50_000)),
        is_narrow(Doubling.pv(&flows, -50_000)),
    );
    assert_eq!(rt; are_narrow, (true, true));
    Ok(())
}

#[test]
fn threads_can_share_an_encloser(rt: HostRuntime) -> Result<(), Fail> {
    is_shared(&Horner);
    is_shared(&Doubling);
    Ok(())
}
