ghost use Rattle.std.specs.Prelude.{◌≡◌, ◌<◌, ◌≤◌, true, length, All, IfOk};
ghost use Rattle.muni_multi.specs.Horner.{horner_ends};
ghost use Rattle.muni_multi.specs.HornerLaws.{horner-encloses, horner-narrow};
ghost use Rattle.muni_sched.specs.Candidates.{IsCandidate};
ghost use Rattle.muni_sched.specs.PriceOutcome.{IsAtYield};
ghost use Rattle.muni_sched.specs.Range.{IsGivenFor};

use arrayvec::ArrayVec;
use muni_days::Day;
use muni_dec::{Price, Yield, Yield3};
use muni_edge::{Gate, NoGate, Steps};
use muni_multi::{Encloser, Horner};
use muni_sched::{
    Calculator, Candidate, Figure, LowAnswer, Schedule, Shape, Workers, candidates, lowest_price,
    lowest_yield, out_of_range,
};
use muni_span::worth::Worth;
use muni_terms::{Call, CallTerm, Flows, Issue, check};
use muni_test_samples::Sample;
use std::marker::Brand;
use std::sync::atomic::{AtomicU32, Ordering};
use std::sync::ledger::{Blank, Ledger};
use std::test::Fail;
use std::thread::Threads;

fn list_of(case: &Sample<'_>) -> Result<ArrayVec<Candidate, 100>, Fail>
    ensures { IfOk result (λ list. All IsCandidate list.items) }
{
    let issue = case.issue().ok_or("an issue")?;
    let settlement = case.day("settle=").ok_or("a settlement")?;
    if !issue.settles(settlement) {
        return Err(Fail::from("a settlement of the issue"));
    }
    Ok(candidates(&issue, settlement))
}

fn price_over_0(case: &Sample<'_>) -> Result<Price, Fail>
    ensures { IfOk result (λ price. 0 < price) }
{
    let price = case.price("price=").ok_or("a price")?;
    if price.units() == 0 {
        return Err(Fail::from("a price over 0"));
    }
    Ok(price)
}

fn count_rounds<R: Threads + Sync, E: Encloser + Sync, G: Gate + Sync, L: Ledger>(
    rt: &R,
    list: &ArrayVec<Candidate, 100>,
    price: Price,
    workers: u32,
    encloser: &E,
    gate: &G,
    blank: Blank,
) -> LowAnswer
    requires name { blank.name ≡ L.name }
    requires parts { blank.parts ≡ L.parts }
    requires some { 0 < blank.parts }
    requires candidates { All IsCandidate list.now.items }
    requires price { 0 < price }
    requires workers { (1 ≤ workers) × (workers ≤ 16) }
{
    let mut steps = Steps::<L>::open(blank);
    lowest_yield(
        rt,
        list.as_slice(),
        price,
        workers,
        encloser,
        gate,
        &mut steps,
    )
}

fn by_rounds<R: Threads + Sync, E: Encloser + Sync, G: Gate + Sync>(
    rt: &R,
    list: &ArrayVec<Candidate, 100>,
    price: Price,
    workers: u32,
    encloser: &E,
    gate: &G,
) -> LowAnswer
    requires candidates { All IsCandidate list.now.items }
    requires price { 0 < price }
    requires workers { (1 ≤ workers) × (workers ≤ 16) }
{
    count_rounds::<_, _, _, Brand>(rt, list, price, workers, encloser, gate, Blank::new(1))
}

fn is_at_yield(candidate: &Candidate) -> bool
    ensures { (result ≡ true) → IsAtYield candidate.now }
{
    match candidate.shape {
        Shape::Many(_) | Shape::One(_) | Shape::AtRedemption(_) => true,
        Shape::Discount { .. } => false,
    }
}

fn are_at_yield(list: &[Candidate]) -> bool
    ensures { (result ≡ true) → All IsAtYield list.now }
{
    for candidate in list {
        if !is_at_yield(candidate) {
            return false;
        }
    }
    true
}

// A yield that may be given for the candidates of an issue with no discounted note.
fn yield_for(list: &[Candidate], case: &Sample<'_>) -> Result<Yield, Fail>
    ensures { IfOk result
        (λ y. (0 < length list.now) × All IsAtYield list.now × All (IsGivenFor y) list.now) }
{
    let y = case.yld("yield=").ok_or("a yield")?;
    if list.is_empty() || out_of_range(list, y).is_some() {
        return Err(Fail::from("candidates, and a yield in range"));
    }
    if !are_at_yield(list) {
        return Err(Fail::from("no discounted note"));
    }
    Ok(y)
}

// Encloses as `Horner` does and counts the calls.
#[derive(Drop)]
struct CountingEncloser {
    calls: AtomicU32,
}

impl Encloser for CountingEncloser {
    ghost ends = { λ _ series y. horner_ends series y };

    fn pv(&self, flows: &Flows, y: i32) -> Worth {
        let _ = self.calls.fetch_add(1, Ordering::SeqCst);
        Horner.pv(flows, y)
    }

    ghost encloses = { λ _ series y is many within. horner-encloses series y is many within };

    ghost narrow = { λ _ series y is many within. horner-narrow series y is many within };
}

// An issue with forty calls at 100, every six months from 2025 on.
fn forty_calls() -> Result<Issue, Fail> {
    let mut row = Sample::of(UNCALLED).row().ok_or("terms")?;
    for i in 0u64..40 {
        let date = Day::of(2025 + i / 2, 1 + 6 * (i % 2), 1).ok_or("a day")?;
        let price = Price::PAR;
        let term = CallTerm::OnDay;
        let _ = row.calls.try_push(Call { date, price, term });
    }
    Ok(check(row).ok().ok_or("an issue")?)
}

const UNCALLED: &str =
    "periodic dated=2023-01-01 first=2023-07-01 maturity=2045-01-01 coupon=5 settle=2024-01-01";

fn schedule_of(issue: &Issue, case: &Sample<'_>) -> Result<Schedule, Fail>
    ensures { IfOk result (λ schedule. All IsCandidate schedule.candidates) }
{
    let settlement = case.day("settle=").ok_or("a settlement")?;
    if !issue.settles(settlement) {
        return Err(Fail::from("a settlement of the issue"));
    }
    let mut schedule = Schedule::new();
    schedule.fill(issue, settlement);
    Ok(schedule)
}

// What a search for the lowest yield takes: how often a bracket is halved, in how many rounds, and how
// often the encloser is called.
#[derive(Clone, Copy, Debug, PartialEq, Eq)]
struct Cost {
    halvings: u32,
    rounds: u32,
    calls: u32,
}

// Rounds were computed outside. How many searches a look drops before the first round, and how often the encloser
// is called, hangs on the guesses at the yield, so those are as often as was counted. At 100 all candidates have the
// same yield, and none is dropped. At 104 and 97 the look drops all but one, and if none were dropped the searches
// would be halved over 750 times. At 250 the look drops those that reach the least yield, and the others are below it
// by what they learnt in it. The exact cases take no call.
const FORTY_CALLS: [(&str, Cost); 4] = [
    (
        "price=100",
        Cost {
            halvings: 779,
            rounds: 19,
            calls: 78,
        },
    ),
    (
        "price=104",
        Cost {
            halvings: 18,
            rounds: 18,
            calls: 0,
        },
    ),
    (
        "price=97",
        Cost {
            halvings: 19,
            rounds: 19,
            calls: 2,
        },
    ),
    (
        "price=250",
        Cost {
            halvings: 21,
            rounds: 1,
            calls: 19,
        },
    ),
];

// A bond that costs more than all its payments, so that its first question is not known, and a zero with so
// small a price that no verdict is clear: each of its halvings asks its own question, and no more.
const OWN_QUESTIONS: [(&str, Cost); 2] = [
    (
        "periodic dated=2020-01-01 first=2020-07-01 maturity=2034-01-01 coupon=5 \
         settle=2024-02-16 price=180",
        Cost {
            halvings: 19,
            rounds: 19,
            calls: 3,
        },
    ),
    (
        "zero dated=2020-01-01 maturity=2070-01-01 settle=2020-02-16 price=0.000001",
        Cost {
            halvings: 18,
            rounds: 18,
            calls: 18,
        },
    ),
];

// Counts the halvings, and how often one came after one of a later round.
#[derive(Drop)]
struct CountingGate {
    starts: AtomicU32,
    latest: AtomicU32,
    fallen: AtomicU32,
}

impl Gate for CountingGate {
    fn start(&self, round: u32, _candidate: usize) {
        let _ = self.starts.fetch_add(1, Ordering::SeqCst);
        if self.latest.fetch_max(round, Ordering::SeqCst) > round {
            let _ = self.fallen.fetch_add(1, Ordering::SeqCst);
        }
    }
}

fn gate_at_first() -> CountingGate {
    CountingGate {
        starts: AtomicU32::new(0),
        latest: AtomicU32::new(0),
        fallen: AtomicU32::new(0),
    }
}

fn encloser_at_first() -> CountingEncloser {
    CountingEncloser {
        calls: AtomicU32::new(0),
    }
}

// What a search for the lowest yield takes, if no round fell and the schedule says its rounds.
fn cost_of<R: Threads + Sync>(
    rt: &R,
    schedule: &mut Schedule,
    price: Price,
    workers: Workers,
) -> Option<Cost>
    requires candidates { All IsCandidate schedule.old.candidates }
    requires price { 0 < price }
    ensures { schedule.new.candidates ≡ schedule.old.candidates }
{
    let gate = gate_at_first();
    let encloser = encloser_at_first();
    let calculator = Calculator {
        rt,
        workers,
        encloser: &encloser,
        gate: &gate,
    };
    let _ = schedule.yield_to_worst(&calculator, price);
    let rounds = gate.latest.load(Ordering::SeqCst).wrapping_add(1);
    if gate.fallen.load(Ordering::SeqCst) > 0 || rounds != schedule.rounds() {
        return None;
    }
    Some(Cost {
        halvings: gate.starts.load(Ordering::SeqCst),
        rounds,
        calls: encloser.calls.load(Ordering::SeqCst),
    })
}

#[test]
fn questions_go_by_rounds_and_end_where_yields_part(rt: HostRuntime) -> Result<(), Fail> {
    for (given, cost) in FORTY_CALLS {
        let price = price_over_0(&Sample::of(given))?;
        for workers in [Workers::ONE, Workers::new(2), Workers::new(16)] {
            let mut schedule = schedule_of(&forty_calls()?, &Sample::of(UNCALLED))?;
            let own = cost_of(&rt, &mut schedule, price, workers);
            assert_eq!(rt; own, Some(cost), "{given} by {}", workers.count());
        }
    }
    Ok(())
}

#[test]
fn a_halving_calls_the_encloser_once_at_most(rt: HostRuntime) -> Result<(), Fail> {
    for (line, cost) in OWN_QUESTIONS {
        let case = Sample::of(line);
        let mut schedule = schedule_of(&case.issue().ok_or("an issue")?, &case)?;
        let own = cost_of(&rt, &mut schedule, price_over_0(&case)?, Workers::ONE);
        assert_eq!(rt; own, Some(cost), "{line}");
    }
    Ok(())
}

#[test]
fn a_list_of_candidates_has_the_lowest_yield_of_its_schedule(rt: HostRuntime) -> Result<(), Fail> {
    let case = Sample::of(AT_A_PRICE);
    let list = list_of(&case)?;
    let price = price_over_0(&case)?;
    let low = by_rounds(&rt, &list, price, 2, &Horner, &NoGate);
    let figure = Figure::Yield(Yield3::new(4_001));
    assert_eq!(rt;
        low,
        LowAnswer::Low {
            figure,
            candidate: 0
        }
    );
    Ok(())
}

const AT_A_PRICE: &str = "periodic dated=2020-01-01 first=2020-07-01 maturity=2025-01-01 coupon=5 \
     settle=2024-04-01 price=100.725";

// Four candidates with two payments or more, on no interest date.
const THREE_CALLS: &str = "periodic dated=2020-01-01 first=2020-07-01 maturity=2034-01-01 coupon=5 \
     call=2026-01-01:102 call=2028-01-01:101 call=2030-01-01:100 settle=2024-02-16 yield=4.125";

// How many candidates are priced, and how often the encloser is called.
fn calls_for_prices(case: &Sample<'_>) -> Result<(usize, u32), Fail> {
    let list = list_of(case)?;
    let y = yield_for(list.as_slice(), case)?;
    let encloser = encloser_at_first();
    let _ = lowest_price(list.as_slice(), y, &encloser);
    Ok((list.len(), encloser.calls.load(Ordering::SeqCst)))
}

#[test]
fn a_lowest_price_takes_one_call_of_the_encloser_for_a_candidate(
    rt: HostRuntime,
) -> Result<(), Fail> {
    assert_eq!(rt; calls_for_prices(&Sample::of(THREE_CALLS))?, (4, 4));
    Ok(())
}
