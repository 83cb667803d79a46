//! The lowest of outcomes, some of them unsure.

ghost use Rattle.std.specs.Prelude.{◌≤ℤ◌, pos, All, IfOk};
ghost use Rattle.muni_sched.specs.FigureKind.{Yield};
ghost use Rattle.muni_sched.specs.Figures.{IsOf};
ghost use Rattle.muni_sched.specs.PriceOutcome.{IsPrintable};

use arrayvec::ArrayVec;
use muni_dec::{Price3, Yield3};
use muni_multi::PriceAnswer;
use muni_sched::{CandidateOutcome, lowest_of};
use std::str::SplitWhitespace;
use std::test::Fail;

// Outcomes in order of date, and the lowest of them by the rule, computed outside: thousandths of a
// dollar, with `?` if they are unsure, and the candidate. The least that may be unsure is -1.
const PRICES: &str = "\
7 = 7 at 0
7 7 = 7 at 0
7 6 6 8 = 6 at 1
7? 7 = 7? at 0
7 7? = 7 at 0
6? 7 = 6? at 0
7 6? = 6? at 1
8? 7 = 7 at 1
7 8? = 7 at 0
7? 9 7 = 7? at 0
9 7? 7 7? = 7? at 1
7 7? 6? = 6? at 2
6? 6? 7 = 6? at 0
8? 5? 6? 5? = 5? at 1
7 8? 9? = 7 at 0
-1? 7 = -1? at 0
7 -1? = -1? at 1
below -1? = below at 0
-1? below = -1? at 0
1 below = below at 1
7 below below = below at 1
below 6? = below at 0";

// The same for thousandths of a percent. The least that may be unsure is -5,001.
const YIELDS: &str = "\
= above
above = above
above above = above
above 7 = 7 at 1
8? above = 8? at 0
below above = below at 0
no-time = no-time at 0
below no-time = no-time at 1
no-time below = no-time at 0
-1? no-time = no-time at 1
7 no-time no-time = no-time at 1
6? no-time = no-time at 1
above no-time 1 = no-time at 1
-5001? -5003 = -5001? at 0
-5003 -5001? = -5001? at 1
-5001? below = -5001? at 0
below -5001? = below at 0
-5002 -5000? = -5002 at 0
-5000? -5002 = -5002 at 1
-5000? -5000 = -5000? at 0
-5000 -5001? -5003 = -5001? at 1
-5001? no-time = no-time at 1";

fn thousandths(word: &str, least: i32) -> Result<i32, Fail>
    ensures { IfOk result (λ t. (least ≤ℤ t) × (t ≤ℤ pos 99_999)) }
{
    let figure = word.trim_end_matches('?');
    let thousandths = figure.parse::<i32>().ok().ok_or("thousandths")?;
    if thousandths < least || thousandths > 99_999 {
        return Err(Fail::from("thousandths in range"));
    }
    Ok(thousandths)
}

fn price(word: &str) -> Result<PriceAnswer, Fail>
    ensures { IfOk result IsPrintable }
{
    if word == "below" {
        return Ok(PriceAnswer::BelowZero);
    }
    if word.ends_with('?') {
        let reached = thousandths(word, -1)?;
        let boundary = Price3::new((reached + 1) as u64);
        return Ok(PriceAnswer::Undecided { boundary });
    }
    let reached = thousandths(word, 0)?;
    Ok(PriceAnswer::Price(Price3::new(reached as u64)))
}

fn yld(word: &str) -> Result<CandidateOutcome, Fail>
    ensures { IfOk result (IsOf Yield) }
{
    match word {
        "below" => Ok(CandidateOutcome::Below),
        "above" => Ok(CandidateOutcome::Above),
        "no-time" => Ok(CandidateOutcome::NoTime),
        _ => yield_figure(word),
    }
}

fn yield_figure(word: &str) -> Result<CandidateOutcome, Fail>
    ensures { IfOk result (IsOf Yield) }
{
    if word.ends_with('?') {
        return Ok(CandidateOutcome::Unsure(thousandths(word, -5_001)?));
    }
    let reached = thousandths(word, -90_000)?;
    Ok(CandidateOutcome::Print(Yield3::new(i64::from(reached))))
}

fn prices(words: &str) -> Result<ArrayVec<PriceAnswer, 8>, Fail>
    ensures { IfOk result (λ prices. All IsPrintable prices.items) }
{
    let mut prices = ArrayVec::new();
    for word in words.split_whitespace() {
        prices.try_push(price(word)?).ok().ok_or("room")?;
    }
    Ok(prices)
}

fn yields(words: &str) -> Result<ArrayVec<CandidateOutcome, 8>, Fail>
    ensures { IfOk result (λ yields. All (IsOf Yield) yields.items) }
{
    let mut yields = ArrayVec::new();
    for word in words.split_whitespace() {
        yields.try_push(yld(word)?).ok().ok_or("room")?;
    }
    Ok(yields)
}

// The candidate, after `at`.
fn candidate(words: &mut SplitWhitespace<'_>) -> Result<usize, Fail> {
    let _at = words.next();
    let word = words.next().ok_or("a candidate")?;
    Ok(word.parse::<usize>().ok().ok_or("a candidate")?)
}

fn is_lowest_price(case: &str) -> Result<bool, Fail> {
    let (words, answer) = case.split_once('=').ok_or("an answer")?;
    let prices = prices(words)?;
    let found = lowest_of(prices.as_slice());
    let mut answer = answer.split_whitespace();
    let wanted = price(answer.next().ok_or("an outcome")?)?;
    let Some(price) = prices.as_slice().get(found) else {
        return Ok(false);
    };
    Ok(*price == wanted && found == candidate(&mut answer)?)
}

fn is_lowest_yield(case: &str) -> Result<bool, Fail> {
    let (words, answer) = case.split_once('=').ok_or("an answer")?;
    let yields = yields(words)?;
    let found = lowest_of(yields.as_slice());
    let mut answer = answer.split_whitespace();
    let wanted = yld(answer.next().ok_or("an outcome")?)?;
    let Some(yld) = yields.as_slice().get(found) else {
        return Ok(wanted == CandidateOutcome::Above);
    };
    if *yld == CandidateOutcome::Above {
        return Ok(wanted == CandidateOutcome::Above);
    }
    Ok(*yld == wanted && found == candidate(&mut answer)?)
}

fn first_bad_price(cases: &str) -> Result<Option<&str>, Fail> {
    for case in cases.lines() {
        if !is_lowest_price(case)? {
            return Ok(Some(case));
        }
    }
    Ok(None)
}

fn first_bad_yield(cases: &str) -> Result<Option<&str>, Fail> {
    for case in cases.lines() {
        if !is_lowest_yield(case)? {
            return Ok(Some(case));
        }
    }
    Ok(None)
}

#[test]
fn the_lowest_is_that_of_the_rule(rt: HostRuntime) -> Result<(), Fail> {
    assert_eq!(rt; (PRICES.lines().count(), YIELDS.lines().count()), (22, 22));
    assert_eq!(rt; first_bad_price(PRICES)?, None);
    assert_eq!(rt; first_bad_yield(YIELDS)?, None);
    Ok(())
}
