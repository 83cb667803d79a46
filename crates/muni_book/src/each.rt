//! The redemption candidates of a trade, each with its own figure.

ghost use Rattle.std.specs.Prelude.{◌≡◌, ◌≤◌, ◌∷◌, [], Ok, Err, length};
ghost use Rattle.std.specs.List.{AllZip};
ghost use Rattle.muni_sched.specs.GivenFigure.{at_yield, at_price};
ghost use Rattle.muni_sched.specs.LowAnswers.{low_price, low_yield};
ghost use Rattle.muni_answer.specs.Answers.{IsRightAnswer};
ghost use Rattle.muni_book.specs.Each.{figure_of_answer, AreEach, IsAnswerAlone, IsFigureAlone, IsShownAlone};
ghost use Rattle.muni_answer.specs.GivenFor.{MayBeGiven};
ghost use Rattle.muni_answer.specs.Trade as trades;

use arrayvec::ArrayVec;
use muni_answer::{fill_for, net_price};
use muni_dec::{Price, Yield};
use muni_edge::Gate;
use muni_msg::{Asked, EachFigure, EachRedemption, Figures, Given};
use muni_multi::Encloser;
use muni_sched::{Boundary, Calculator, Candidate, NoPrice, NoYield, Schedule, price_to_worst};
use muni_terms::Issue;
use std::thread::Threads;

/// The redemption candidates of an issue at a settlement, in order of date, each with the figure that it has by
/// itself: its price at a given yield, and else its yield. The figures are those of what is asked.
pub fn each_redemption<R: Threads + Sync, E: Encloser + Sync, G: Gate + Sync>(
    calculator: &Calculator<'_, R, E, G>,
    issue: &Issue,
    asked: &Asked,
    figures: &Figures,
) -> ArrayVec<EachRedemption, 100>
    // promise 3: each redemption by itself, in order of date, with its figure or why it has none
    ensures { IsRightAnswer (E.ends calculator.now.encloser.now) issue.now asked.now (Ok figures.now)
        → AreEach (E.ends calculator.now.encloser.now) issue.now asked.now figures.now result.items }
{
    let mut schedule = Schedule::new();
    match fill_for(issue, asked, &mut schedule) {
        Ok(()) => each_of(calculator, asked, figures, schedule.candidates()),
        Err(_) => ArrayVec::new(),
    }
}

fn each_of<R: Threads + Sync, E: Encloser + Sync, G: Gate + Sync>(
    calculator: &Calculator<'_, R, E, G>,
    asked: &Asked,
    figures: &Figures,
    list: &[Candidate],
) -> ArrayVec<EachRedemption, 100>
    requires few { length list.now ≤ 100 }
    requires may { MayBeGiven asked.now.given asked.now.side asked.now.fee list.now }
    ensures { AllZip (IsShownAlone (IsAnswerAlone (E.ends calculator.now.encloser.now)) asked.now figures.now)
        list.now result.items }
{
    let mut alone = Schedule::new();
    let mut each = ArrayVec::new();
    for candidate in list {
        each.push(EachRedemption {
            date: candidate.date,
            price: candidate.price,
            label: candidate.label,
            figure: figure_alone(calculator, asked, figures, candidate, &mut alone),
        });
    }
    each
}

fn figure_alone<R: Threads + Sync, E: Encloser + Sync, G: Gate + Sync>(
    calculator: &Calculator<'_, R, E, G>,
    asked: &Asked,
    figures: &Figures,
    candidate: &Candidate,
    alone: &mut Schedule,
) -> EachFigure
    requires { MayBeGiven asked.now.given asked.now.side asked.now.fee (candidate.now ∷ []) }
    ensures { IsFigureAlone (IsAnswerAlone (E.ends calculator.now.encloser.now)) asked.now.given
        asked.now.side asked.now.fee figures.now.yld candidate.now result }
{
    match asked.given {
        Given::AtYield(y) => price_alone(calculator.encloser, asked, candidate, y),
        Given::AtPrice(price) => yield_alone(calculator, asked, candidate, price, alone),
        Given::AtRate(_) => EachFigure::Yield(figures.yld),
    }
}

fn price_alone<E: Encloser>(
    encloser: &E,
    asked: &Asked,
    candidate: &Candidate,
    y: Yield,
) -> EachFigure
    requires may { MayBeGiven asked.now.given asked.now.side asked.now.fee (candidate.now ∷ []) }
    requires given { asked.now.given ≡ Given.AtYield y }
    ensures { IsAnswerAlone (E.ends encloser.now) (at_yield y) candidate.now result }
{
    match price_to_worst(&[*candidate], y, encloser) {
        Ok(lowest) => EachFigure::Price(lowest.price),
        Err(none) => no_price(none),
    }
}

fn no_price(none: NoPrice) -> EachFigure
    ensures { result ≡ figure_of_answer (low_price (Err none)) }
{
    match none {
        NoPrice::Undecided { boundary, .. } => EachFigure::Undecided(Boundary::Price(boundary)),
        NoPrice::Below { .. } => EachFigure::Below,
    }
}

// The net price counts in full.
fn yield_alone<R: Threads + Sync, E: Encloser + Sync, G: Gate + Sync>(
    calculator: &Calculator<'_, R, E, G>,
    asked: &Asked,
    candidate: &Candidate,
    price: Price,
    alone: &mut Schedule,
) -> EachFigure
    requires may { MayBeGiven asked.now.given asked.now.side asked.now.fee (candidate.now ∷ []) }
    requires given { asked.now.given ≡ Given.AtPrice price }
    ensures { IsAnswerAlone (E.ends calculator.now.encloser.now)
        (at_price (trades.net_price asked.now.side price asked.now.fee)) candidate.now result }
{
    alone.fill_one(*candidate);
    let net = Price::new(net_price(price, asked.side, asked.fee));
    match alone.yield_to_worst(calculator, net) {
        Ok(lowest) => EachFigure::Yield(lowest.yld),
        Err(none) => no_yield(none),
    }
}

fn no_yield(none: NoYield) -> EachFigure
    ensures { result ≡ figure_of_answer (low_yield (Err none)) }
{
    match none {
        NoYield::Undecided { boundary, .. } => EachFigure::Undecided(Boundary::Yield(boundary)),
        NoYield::Below { .. } => EachFigure::Below,
        NoYield::Above => EachFigure::Above,
        NoYield::NoTime { .. } => EachFigure::NoTime,
    }
}
