//! What a gate and an encloser see of a command.

use super::{ask_alone, written};
use crate::commands::watch::Watch;
use muni_desk::Status;
use muni_edge::{Gate, NoGate};
use muni_multi::{Doubling, Encloser, Horner};
use std::alloc::Global;
use std::sync::atomic::Ordering;
use std::test::Fail;
use std::thread::Threads;

const TWO_CANDIDATES: &str = "quote --kind=periodic --dated=2022-01-01 --first=2022-07-01 \
    --maturity=2044-01-01 --coupon=4 --call=2034-01-01:100 --settle=2024-01-01";

const THREE_CANDIDATES: &str = "quote --kind=periodic --dated=2022-01-01 --first=2022-07-01 \
    --maturity=2044-01-01 --coupon=4 --call=2034-01-01:100 --call=2036-01-01:100 \
    --settle=2024-01-01";

const FOUR_CANDIDATES: &str = "quote --kind=periodic --dated=2022-01-01 --first=2022-07-01 \
    --maturity=2044-01-01 --coupon=4 --call=2034-01-01:100 --call=2036-01-01:100 \
    --call=2038-01-01:100 --settle=2024-01-01";

const PRICE: &str = "--price=108.584";

const ANSWER: &str = "PRICE 108.584 GIVEN/YIELD 3.000 COMPUTED/\
    REDEMPTION 2034-01-01 100.000000 PAR OPTION/ACCRUED DAYS 0/PRINCIPAL 108.58/ACCRUED 0.00/\
    TOTAL 108.58";

// At par all candidates have the same yield, so none is dropped before the rounds.
const PAR: &str = "--price=100";

const PAR_ANSWER: &str = "PRICE 100.000 GIVEN/YIELD 4.000 COMPUTED/\
    REDEMPTION 2034-01-01 100.000000 PAR OPTION/ACCRUED DAYS 0/PRINCIPAL 100.00/ACCRUED 0.00/\
    TOTAL 100.00";

// What is answered to a command that is done.
pub(super) fn answered<R: Threads + Sync, E: Encloser + Sync, G: Gate + Sync>(
    rt: &R,
    alloc: Global,
    words: &[&str],
    encloser: &E,
    gate: &G,
) -> Result<String, Fail> {
    let outcome = ask_alone(rt, alloc, words, encloser, gate)?;
    if outcome.status != Status::Done {
        return Err("an answer")?;
    }
    written(alloc, &outcome.output)
}

fn answer_at(price: &str) -> &'static str {
    if price == PAR { PAR_ANSWER } else { ANSWER }
}

// The most candidates that are started side by side, if a number of them is waited for.
fn side_by_side<R: Threads + Sync>(
    rt: &R,
    alloc: Global,
    [line, price, workers]: [&str; 3],
    watch: Watch,
) -> Result<u32, Fail> {
    if answered(rt, alloc, &[line, price, workers], &watch, &watch)?.as_str() != answer_at(price) {
        return Err("the answer")?;
    }
    Ok(watch.most.load(Ordering::SeqCst))
}

// What a watch has seen of a command that is done, and what was answered.
fn seen<R: Threads + Sync>(
    rt: &R,
    alloc: Global,
    words: &[&str],
    wanted: u32,
) -> Result<(Watch, String), Fail> {
    let watch = Watch::new(wanted, 100_000_000);
    let text = answered(rt, alloc, words, &watch, &watch)?;
    Ok((watch, text))
}

#[test]
fn as_many_candidates_are_searched_side_by_side_as_there_are_workers(
    rt: HostRuntime,
) -> Result<(), Fail> {
    for (line, price, workers, wanted) in [
        (TWO_CANDIDATES, PRICE, "--workers=2", 2),
        (TWO_CANDIDATES, PRICE, "--workers=02", 2),
        (FOUR_CANDIDATES, PAR, "--workers=4", 4),
    ] {
        let watch = Watch::new(wanted, 100_000_000);
        let most = side_by_side(&rt, rt.alloc(), [line, price, workers], watch)?;
        assert_eq!(rt; most, wanted, "{workers}");
    }
    Ok(())
}

#[test]
fn no_more_candidates_are_searched_side_by_side_than_there_are_workers(
    rt: HostRuntime,
) -> Result<(), Fail> {
    for (line, workers, most) in [
        (TWO_CANDIDATES, "--workers=1", 1),
        (TWO_CANDIDATES, "--par=100", 1),
        (THREE_CANDIDATES, "--workers=2", 2),
    ] {
        let watch = Watch::new(3, 10_000_000);
        let found = side_by_side(&rt, rt.alloc(), [line, PAR, workers], watch)?;
        assert!(rt; found <= most, "{workers}");
    }
    Ok(())
}

#[test]
fn a_candidate_that_cannot_be_the_lowest_is_dropped(rt: HostRuntime) -> Result<(), Fail> {
    let words = [TWO_CANDIDATES, PRICE, "--workers=1"];
    let (watch, text) = seen(&rt, rt.alloc(), &words, 0)?;
    assert_eq!(rt; text.as_str(), ANSWER);
    assert!(rt; watch.starts.load(Ordering::SeqCst) <= 27);
    assert!(rt; watch.calls.load(Ordering::SeqCst) <= 27);
    assert!(rt; !watch.falls.load(Ordering::SeqCst));
    Ok(())
}

// Below par the maturity has the lower yield, and goes on while the call is dropped. None of four
// candidates at a yield is an exact case.
#[test]
fn the_gate_and_the_encloser_are_asked_of_each_candidate(rt: HostRuntime) -> Result<(), Fail> {
    let words = [TWO_CANDIDATES, "--price=90", "--workers=1"];
    let (watch, _) = seen(&rt, rt.alloc(), &words, 0)?;
    assert!(rt; !watch.early.load(Ordering::SeqCst));
    assert_eq!(rt; watch.place.load(Ordering::SeqCst), 1);
    let (watch, _) = seen(&rt, rt.alloc(), &[FOUR_CANDIDATES, "--yield=3.1"], 0)?;
    assert_eq!(rt; watch.calls.load(Ordering::SeqCst), 4);
    Ok(())
}

#[test]
fn trades_of_a_drill_are_answered_side_by_side(rt: HostRuntime) -> Result<(), Fail> {
    let words = ["drill --count=1 --seed=1 --workers=1"];
    let (watch, _) = seen(&rt, rt.alloc(), &words, 0)?;
    assert!(rt; watch.starts.load(Ordering::SeqCst) > 0);
    let words = ["drill --count=2 --seed=7 --workers=2"];
    let (watch, _) = seen(&rt, rt.alloc(), &words, 2)?;
    assert_eq!(rt; watch.most.load(Ordering::SeqCst), 2);
    Ok(())
}

const DRILL: &str = "drill --count=200 --seed=7 --workers=1";

// The sums were computed outside the program, with exact whole numbers.
const SUMS: &str =
    "DRILL 200/PRINTED 138/UNDECIDED 0/OUTSIDE 62/YIELDS 451661/ACCRUED 768144.49/CALLED 58";

fn has_the_sums<R: Threads + Sync, E: Encloser + Sync>(
    rt: &R,
    alloc: Global,
    encloser: &E,
) -> Result<bool, Fail> {
    Ok(answered(rt, alloc, &[DRILL], encloser, &NoGate)?.as_str() == SUMS)
}

#[test]
fn a_book_has_the_same_sums_by_either_encloser(rt: HostRuntime) -> Result<(), Fail> {
    assert!(rt; has_the_sums(&rt, rt.alloc(), &Horner)?);
    assert!(rt; has_the_sums(&rt, rt.alloc(), &Doubling)?);
    Ok(())
}
