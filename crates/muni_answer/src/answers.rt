//! The answer to what is asked of an issue: the figures of a trade, with the redemption that gives the
//! lowest price or the lowest yield, or why there are none.

ghost use Rattle.std.specs.Prelude.{◌≡◌, ◌<◌, ◌≤◌, ◌≤ℤ◌, pos, true, Some, length, All, IfOk, IfSome, OnOk, ℤ};
ghost use Rattle.std.specs.List.{slice_get};
ghost use Rattle.muni_rule.specs.Payments.{PaymentSeries};
ghost use Rattle.muni_rule.specs.WorthEnds.{WorthEnds};
ghost use Rattle.muni_terms.specs.Issue as issues;
ghost use Rattle.muni_sched.specs.Answer.{IsLowestAnswer, NamesFigure};
ghost use Rattle.muni_sched.specs.Candidates.{AreCandidates, IsCandidate};
ghost use Rattle.muni_sched.specs.FigureKind as kind;
ghost use Rattle.muni_sched.specs.GivenFigure as given;
ghost use Rattle.muni_sched.specs.LowAnswers.{low_yield};
ghost use Rattle.muni_answer.specs.GivenFor.{IsAskable, IsNote};
ghost use Rattle.muni_answer.specs.FilledFor.{IsFilledFor, refusal_of};
ghost use Rattle.muni_answer.specs.Answers as spec;
ghost use Rattle.muni_answer.specs.Answers.{IsRightAnswer, ShowsFound, IsFoundAtYield, IsFoundAtPrice, IsFoundAtRate, IsPayable};
ghost use Rattle.muni_answer.specs.Trade as trades;

use crate::trade::{is_wrong_basis, net_price, side_left, total};
use muni_days::Basis;
use muni_dec::{
    Price, Price3, Yield, Yield3, accrued_cents, commission_cents, principal_cents, round_yield,
    trunc3,
};
use muni_edge::Gate;
use muni_msg::{Asked, Figures, Given, Range, Refusal, Side};
use muni_multi::Encloser;
use muni_sched::{
    Boundary, Calculator, Candidate, LowestYield, NoPrice, NoYield, Schedule, Shape, price_to_worst,
};
use muni_simple::{SimpleYield, rate_price, rate_return};
use muni_terms::Issue;
use std::thread::Threads;

// The days up to the maturity of a note, by its basis.
#[derive(Clone, Copy)]
struct DaysLeft {
    days: i32,
    basis: Basis,
}

/// The figures of a trade, or the refusal that applies first: of the basis, the settlement, what is
/// given, and then of the figure that is asked for. The schedule is filled anew, and figures leave the
/// candidates in it.
///
/// At a yield the redemption candidate with the lowest price is disclosed, and at a price that with
/// the lowest yield (MSRB Rule G-15(a)), which is computed from the net price in full: what a buyer
/// pays with the commission, and what it leaves to a seller. The price that is shown, and the
/// principal, are those of the given price.
// Up to so many threads as the calculator has workers look for the yields (tested).
pub fn figures<R: Threads + Sync, E: Encloser + Sync, G: Gate + Sync>(
    calculator: &Calculator<'_, R, E, G>,
    issue: &Issue,
    asked: &Asked,
    schedule: &mut Schedule,
) -> Result<Figures, Refusal>
    // promise 1, 2, 3, 4: the figures of a security are right, or the refusal is the first that applies
    ensures right { IsRightAnswer (E.ends calculator.now.encloser.now) issue.now asked.now result }
    // promise 1: a total is never below 0, as the commission of a sale is at most its principal
    ensures covered { IfOk result (λ figures. asked.now.side ≡ Side.Sell
        → figures.commission ≤ figures.principal) }
    ensures accrued { IfOk result (λ figures. figures.accrued ≤ 60_000_000_000) }
    ensures candidates { OnOk result
        (AreCandidates issue.now asked.now.settle schedule.new.candidates) }
{
    match fill_for(issue, asked, schedule) {
        Ok(()) => match asked.given {
            Given::AtYield(y) => {
                at_yield(issue, asked, schedule.candidates(), y, calculator.encloser)
            }
            Given::AtPrice(price) => {
                let net = Price::new(net_price(price, asked.side, asked.fee));
                let lowest = schedule.yield_to_worst(calculator, net);
                at_price(issue, asked, schedule.candidates(), price, lowest)
            }
            Given::AtRate(rate) => at_rate(issue, asked, schedule.candidates(), rate),
        },
        Err(early) => Err(early.refusal()),
    }
}

/// A refusal that comes before the candidates are priced. It is far smaller than a `Refusal`, which has room for an
/// issue.
#[derive(Clone, Copy, Debug)]
pub enum Early {
    /// The basis is not one of the issue, or a commission stands beside a yield or a rate.
    WrongBasis,
    /// The issue does not settle on the day.
    SettleOutside,
    /// What is given leaves its range.
    OutOfRange(Range),
}

impl Early {
    pub(crate) fn refusal(self) -> Refusal
        ensures { result ≡ refusal_of self }
    {
        match self {
            Early::WrongBasis => Refusal::WrongBasis,
            Early::SettleOutside => Refusal::SettleOutside,
            Early::OutOfRange(side) => Refusal::GivenOutOfRange(side),
        }
    }
}

/// Puts the redemption candidates of an issue for what is asked into a schedule, or answers the refusal of the
/// basis, the settlement, or what is given.
pub fn fill_for(issue: &Issue, asked: &Asked, schedule: &mut Schedule) -> Result<(), Early>
    ensures { IsFilledFor issue.now asked.now schedule.new.candidates result }
{
    if is_wrong_basis(issue.row().kind, asked.given, asked.fee) {
        return Err(Early::WrongBasis);
    }
    if !issue.settles(asked.settle) {
        return Err(Early::SettleOutside);
    }
    schedule.fill(issue, asked.settle);
    match side_left(asked, schedule.candidates()) {
        Some(side) => Err(Early::OutOfRange(side)),
        None => Ok(()),
    }
}

// At each basis one of the two figures is given or computed first, and the other from it.
pub(crate) fn at_yield<E: Encloser>(
    issue: &Issue,
    asked: &Asked,
    list: &[Candidate],
    y: Yield,
    encloser: &E,
) -> Result<Figures, Refusal>
    requires askable { IsAskable issue.now asked.now list.now }
    requires given { asked.now.given ≡ Given.AtYield y }
    ensures found { ShowsFound (IsFoundAtYield (E.ends encloser.now) y list.now)
        issue.now asked.now result }
    ensures payable { IfOk result (IsPayable asked.now.side) }
{
    match price_to_worst(list, y, encloser) {
        Ok(lowest) => {
            let redemption = list[lowest.candidate];
            Ok(figures_of(issue, asked, lowest.price, round_yield(y), redemption))
        }
        Err(none) => Err(no_price(none)),
    }
}

fn no_price(none: NoPrice) -> Refusal
    ensures { result ≡ spec.no_price none }
{
    match none {
        NoPrice::Undecided { date, boundary } => Refusal::Undecided {
            date,
            boundary: Boundary::Price(boundary),
        },
        NoPrice::Below { .. } => Refusal::GivenOutOfRange(Range::PriceBelowZero),
    }
}

// The given price is shown, and the yield is the lowest at the net price.
pub(crate) fn at_price(
    issue: &Issue,
    asked: &Asked,
    list: &[Candidate],
    price: Price,
    lowest: Result<LowestYield, NoYield>,
) -> Result<Figures, Refusal>
    requires askable { IsAskable issue.now asked.now list.now }
    requires given { asked.now.given ≡ Given.AtPrice price }
    requires figure { NamesFigure kind.Yield (length list.now) (low_yield lowest) }
    ensures found { (ends : PaymentSeries → ℤ → WorthEnds)
        → IsLowestAnswer ends (given.at_price (trades.net_price asked.now.side price asked.now.fee))
        list.now (low_yield lowest)
        → ShowsFound (IsFoundAtPrice ends price (trades.net_price asked.now.side price asked.now.fee)
        list.now) issue.now asked.now result }
    ensures payable { IfOk result (IsPayable asked.now.side) }
{
    match lowest {
        Ok(lowest) => {
            let redemption = list[lowest.candidate];
            Ok(figures_of(issue, asked, trunc3(price), lowest.yld, redemption))
        }
        Err(none) => Err(no_yield(none)),
    }
}

fn no_yield(none: NoYield) -> Refusal
    ensures { result ≡ spec.no_yield none }
{
    match none {
        NoYield::Undecided { date, boundary } => Refusal::Undecided {
            date,
            boundary: Boundary::Yield(boundary),
        },
        NoYield::Below { date } => Refusal::YieldBelow { date },
        NoYield::Above => Refusal::YieldAbove,
        NoYield::NoTime { date } => Refusal::NoTime { date },
    }
}

// A discounted note has its maturity alone.
pub(crate) fn at_rate(
    issue: &Issue,
    asked: &Asked,
    list: &[Candidate],
    rate: Yield,
) -> Result<Figures, Refusal>
    requires askable { IsAskable issue.now asked.now list.now }
    requires given { asked.now.given ≡ Given.AtRate rate }
    ensures found { ShowsFound (IsFoundAtRate rate list.now) issue.now asked.now result }
    ensures payable { IfOk result (IsPayable asked.now.side) }
{
    let note = list[0];
    let DaysLeft { days, basis } = days_left(list);
    let price = rate_price(rate, days, basis);
    match rate_return(rate, days, basis) {
        SimpleYield::Print(yld) => Ok(figures_of(issue, asked, price, yld, note)),
        SimpleYield::Below => Err(Refusal::YieldBelow { date: note.date }),
        SimpleYield::Above => Err(Refusal::YieldAbove),
        SimpleYield::NoTime => Err(Refusal::NoTime { date: note.date }),
    }
}

fn days_left(list: &[Candidate]) -> DaysLeft
    requires ranges { All IsCandidate list.now }
    requires basis { All IsNote list.now }
    requires some { 0 < length list.now }
    ensures shape { IfSome (slice_get list.now 0) (λ note. note.shape
        ≡ Shape.Discount result.days result.basis) }
    ensures range { (pos 0 ≤ℤ result.days) × (result.days ≤ℤ pos 720) }
{
    match list[0].shape {
        Shape::Discount { days, basis } => DaysLeft { days, basis },
        Shape::Many(_) | Shape::One(_) | Shape::AtRedemption(_) => unreachable!(),
    }
}

// The figures of a price and a yield that belong together, with the redemption that gives them.
fn figures_of(
    issue: &Issue,
    asked: &Asked,
    price: Price3,
    yld: Yield3,
    redemption: Candidate,
) -> Figures
    requires settled { issues.settles issue.now asked.now.settle ≡ true }
    requires range { price ≤ 100_000_000 }
    requires covered { asked.now.side ≡ Side.Sell → asked.now.fee ≤ price }
    ensures days { Some result.days ≡ issues.accrued_days issue.now asked.now.settle }
    ensures figures { result ≡ spec.figures_of issue.now asked.now result.days
        (record { price = price; yld = yld; redemption = redemption }) }
    ensures covered { asked.now.side ≡ Side.Sell → result.commission ≤ result.principal }
    ensures accrued { result.accrued ≤ 60_000_000_000 }
{
    let days = issue.accrued_days(asked.settle);
    let principal = principal_cents(asked.par, price);
    let row = issue.row();
    let accrued = accrued_cents(row.coupon, asked.par, days, row.basis.year());
    let commission = commission_cents(asked.par, asked.fee);
    Figures {
        price,
        yld,
        redemption: redemption.date,
        at: redemption.price,
        label: redemption.label,
        days,
        principal,
        accrued,
        commission,
        total: total(asked.side, principal.plus(accrued), commission),
    }
}
