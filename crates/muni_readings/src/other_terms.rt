//! The readings that are the rule over other terms.

ghost use Rattle.std.specs.Prelude.{◌≡◌, Ok};
ghost use Rattle.muni_answer.specs.Answers.{IsRightAnswer};
ghost use Rattle.muni_readings.specs.OtherTerms as spec;
ghost use Rattle.muni_readings.specs.OtherTerms.{IsOver, IsByMaturity, IsByFirstCall, IsByGross};

use crate::Answered;
use arrayvec::ArrayVec;
use muni_answer::figures;
use muni_dec::Fee;
use muni_edge::Gate;
use muni_msg::{Asked, Figures};
use muni_multi::Encloser;
use muni_sched::{Calculator, Candidate, Schedule};
use muni_terms::{Call, CallTerm, IssueRow, Label, check};
use std::thread::Threads;

/// The figures over some terms. None if they are no terms of an issue, or if no figures can be had.
pub(crate) fn figures_over<R: Threads + Sync, E: Encloser + Sync, G: Gate + Sync>(
    calculator: &Calculator<'_, R, E, G>,
    row: IssueRow,
    asked: &Asked,
    schedule: &mut Schedule,
) -> Option<Figures>
    ensures { IsOver (E.ends calculator.now.encloser.now) row asked.now result }
{
    match check(row) {
        Ok(issue) => figures(calculator, &issue, asked, schedule).ok(),
        Err(_) => None,
    }
}

/// The figures if the issue had no calls.
pub(crate) fn by_maturity<R: Threads + Sync, E: Encloser + Sync, G: Gate + Sync>(
    calculator: &Calculator<'_, R, E, G>,
    answered: &Answered<'_>,
    schedule: &mut Schedule,
) -> Option<Figures>
    ensures { IsRightAnswer (E.ends calculator.now.encloser.now) answered.now.issue.now
        answered.now.asked.now (Ok answered.now.figures.now)
        → IsByMaturity (E.ends calculator.now.encloser.now) answered.now.issue.now
        answered.now.asked.now result }
{
    let row = answered.issue.row();
    if row.calls.is_empty() {
        return Some(*answered.figures);
    }
    let mut uncalled = row.copy();
    uncalled.calls = ArrayVec::new();
    figures_over(calculator, uncalled, answered.asked, schedule)
}

/// The figures if the issue were redeemed for certain at the first call to come.
pub(crate) fn by_first_call<R: Threads + Sync, E: Encloser + Sync, G: Gate + Sync>(
    calculator: &Calculator<'_, R, E, G>,
    answered: &Answered<'_>,
    schedule: &mut Schedule,
) -> Option<Figures>
    ensures { IsRightAnswer (E.ends calculator.now.encloser.now) answered.now.issue.now
        answered.now.asked.now (Ok answered.now.figures.now)
        → IsByFirstCall (E.ends calculator.now.encloser.now) answered.now.issue.now
        answered.now.asked.now result }
{
    let row = answered.issue.row();
    let settlement = answered.asked.settle;
    if !answered.issue.settles(settlement) {
        return None;
    }
    schedule.fill(answered.issue, settlement);
    let first = schedule.candidates()[0];
    let changed = redeemed_at(row, &first);
    if changed == *row {
        return Some(*answered.figures);
    }
    figures_over(calculator, changed, answered.asked, schedule)
}

// The terms by which the issue is redeemed for certain as a candidate is, save at its maturity.
fn redeemed_at(row: &IssueRow, redemption: &Candidate) -> IssueRow
    ensures { result
        ≡ spec.redeemed_at redemption.now.label redemption.now.date redemption.now.price row.now }
{
    match redemption.label {
        Label::Maturity => row.copy(),
        Label::ParOption | Label::Call | Label::Called => called_for(row, redemption),
    }
}

fn called_for(row: &IssueRow, redemption: &Candidate) -> IssueRow
    ensures { result ≡ spec.called_for redemption.now.date redemption.now.price row.now }
{
    let mut called = row.copy();
    called.calls = ArrayVec::new();
    called.calls.push(Call {
        date: redemption.date,
        term: CallTerm::Called,
        price: redemption.price,
    });
    called
}

/// The figures with the yield, and the redemption that has it, of the trade without its commission.
pub(crate) fn by_gross_price<R: Threads + Sync, E: Encloser + Sync, G: Gate + Sync>(
    calculator: &Calculator<'_, R, E, G>,
    answered: &Answered<'_>,
    schedule: &mut Schedule,
) -> Option<Figures>
    ensures { IsRightAnswer (E.ends calculator.now.encloser.now) answered.now.issue.now
        answered.now.asked.now (Ok answered.now.figures.now)
        → IsByGross (E.ends calculator.now.encloser.now) answered.now.issue.now
        answered.now.asked.now answered.now.figures.now result }
{
    let ours = answered.figures;
    if answered.asked.fee == Fee::ZERO {
        return Some(*ours);
    }
    let asked = without_fee(answered.asked);
    match figures(calculator, answered.issue, &asked, schedule) {
        Ok(gross) => Some(with_yield_of(ours, &gross)),
        Err(_) => None,
    }
}

fn without_fee(asked: &Asked) -> Asked
    ensures { result ≡ spec.without_fee asked.now }
{
    let mut gross = *asked;
    gross.fee = Fee::ZERO;
    gross
}

fn with_yield_of(figures: &Figures, other: &Figures) -> Figures
    ensures { result ≡ spec.with_yield_of figures.now other.now }
{
    let mut mixed = *figures;
    mixed.yld = other.yld;
    mixed.redemption = other.redemption;
    mixed.at = other.at;
    mixed.label = other.label;
    mixed
}
