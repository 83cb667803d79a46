//! Laws of the texts: how long they can be.
//!
//! A body here reads values only to know the ranges of their types.

ghost use Rattle.std.specs.Prelude.{◌≡◌, ◌≤◌, ◌+◌, length, decimal};
ghost use Rattle.std.specs.Fmt.{signed_decimal};
ghost use Rattle.muni_dec.specs.Decimal.{decimal_text, signed_text};
ghost use Rattle.muni_dec.specs.Line.{behind_blanks};
ghost use Rattle.muni_days.specs.Day.{civil, day_text};
ghost use Rattle.muni_confirm.specs.Confirmation.{day_line, trade_lines, par_line, name_lines, terms_lines};
ghost use Rattle.muni_confirm.specs.Each.{figure_parts, each_text};
ghost use Rattle.muni_confirm.specs.Figures.{rate_line, price_lines, redemption_line, days_line, money_lines};
ghost use Rattle.muni_confirm.specs.Laws.{FiguresFit, ConfirmationFits, RefusalFits};
ghost use Rattle.muni_confirm.specs.Risk.{current_yield_line, sensitivity_lines, risk_lines};
ghost use Rattle.muni_confirm.specs.Refusal.{kept_parts, fault_day, fault_parts, boundary_parts, detail, name_text};

use muni_days::Day;
use muni_dec::{Amount, Fee, Par, Percent};
use muni_msg::{
    Act, Asked, EachFigure, EachRedemption, Figures, Given, Kept, Key, Refusal, Version,
    refusal_name,
};
use muni_risk::{Risk, Sensitivities};
use muni_terms::{Boundary, Issue, IssueRow, TermsFault};

/// A law: the lines of figures have at most 374 bytes.
#[tactic(auto, unfolding(crate::specs::Figures::figure_text))]
pub fn figures_fit(figures: &Figures, given: &Given, fee: Fee)
    // promise 10: the lines of figures fit their room
    ensures { FiguresFit figures.now given.now fee }
{
    price_lines_fit(figures, given);
    redemption_line_fits(figures);
    days_line_fits(figures.days);
    money_lines_fit(figures, fee);
}

/// A law: a confirmation has at most 685 bytes.
pub fn confirmation_fits(issue: &Issue, key: &Key, number: u32, version: &Version)
    // promise 10: a confirmation fits its room
    ensures { ConfirmationFits issue.now key.now number version.now }
{
    let asked = &version.terms.asked;
    trade_lines_fit(version.act, number, key);
    par_line_fits(asked);
    name_lines_fit(issue.row());
    terms_lines_fit(issue.row());
    day_line_fits(b"SETTLEMENT", &asked.settle);
    figures_fit(&version.figures, &asked.given, asked.fee);
}

/// A law: the line of a refusal has at most 82 bytes.
pub fn refusal_fits(refusal: &Refusal)
    // promise 10: the line of a refusal fits its room
    ensures { RefusalFits refusal.now }
{
    name_fits(refusal.number());
    detail_fits(refusal);
}

/// A law: the line of a redemption candidate has at most 101 bytes.
#[tactic(auto, unfolding(crate::specs::Each::each_text))]
pub fn each_fits(redemption: &EachRedemption)
    // promise 10: the line of a redemption fits its room
    ensures { length (each_text redemption.now) ≤ 101 }
{
    day_fits(&redemption.date);
    decimal_fits(&redemption.price);
    figure_fits(&redemption.figure);
}

/// A law: the lines of how a price moves with its yield have at most 141 bytes.
pub fn risk_fits(risk: Option<Risk>)
    // promise 10: the lines of how the price moves fit their room
    ensures { length (risk_lines risk) ≤ 141 }
{
    if let Some(risk) = risk {
        current_yield_fits(risk.current_yield);
        sensitivities_fit(risk.sensitivities);
    }
}

fn current_yield_fits(current_yield: Option<u64>)
    ensures { length (current_yield_line current_yield) ≤ 39 }
{
    if let Some(current_yield) = current_yield {
        number_fits::<3>(current_yield);
    }
}

#[tactic(auto, unfolding(crate::specs::Risk::sensitivity_lines))]
fn sensitivities_fit(sensitivities: Sensitivities)
    ensures { length (sensitivity_lines sensitivities) ≤ 102 }
{
    number_fits::<3>(sensitivities.duration);
    number_fits::<3>(sensitivities.convexity);
    number_fits::<6>(sensitivities.dv01);
}

#[tactic(auto, using(crate::proofs::LengthLemmas::lengths))]
fn number_fits<const PLACES: usize>(number: u64)
    ensures { length (decimal_text PLACES number) ≤ PLACES + 21 }
{}

fn figure_fits(figure: &EachFigure)
    ensures { length (behind_blanks (figure_parts figure.now)) ≤ 46 }
{
    match figure {
        EachFigure::Price(price) => decimal_fits(price),
        EachFigure::Yield(yld) => percent_fits(yld),
        EachFigure::Undecided(boundary) => boundary_fits(boundary),
        EachFigure::Below | EachFigure::Above | EachFigure::NoTime => {}
    }
}

#[tactic(auto, using(crate::proofs::LengthLemmas::lengths))]
fn decimal_fits<const PLACES: usize, const LEAST: u64, const GREATEST: u64>(
    amount: &Amount<PLACES, LEAST, GREATEST>,
)
    ensures { length (decimal_text PLACES amount.now) ≤ PLACES + 21 }
{
    let _range = amount.units();
}

#[tactic(auto, using(crate::proofs::LengthLemmas::lengths))]
fn percent_fits<const PLACES: usize, const BELOW: u32, const GREATEST: u32>(
    percent: &Percent<PLACES, BELOW, GREATEST>,
)
    ensures { length (signed_text PLACES percent.now) ≤ PLACES + 22 }
{
    let _range = percent.units();
}

#[tactic(auto, using(crate::proofs::LengthLemmas::lengths))]
fn par_fits(par: Par)
    ensures { length (decimal par) ≤ 10 }
{
    let _range = par.units();
}

#[tactic(auto, using(crate::proofs::LengthLemmas::lengths))]
fn count_fits(number: u32)
    ensures { length (decimal number) ≤ 10 }
{}

#[tactic(auto, using(crate::proofs::LengthLemmas::lengths))]
fn day_count_fits(days: i32)
    ensures { length (signed_decimal days) ≤ 11 }
{}

#[tactic(auto, using(crate::proofs::LengthLemmas::lengths))]
fn day_fits(date: &Day)
    ensures { length (day_text (civil date.now)) ≡ 10 }
{}

fn cusip_fits(cusip: &[u8; 9])
    ensures { length cusip.now ≡ 9 }
{}

fn rate_line_fits(given: &Given)
    ensures { length (rate_line given.now) ≤ 38 }
{
    if let Given::AtRate(rate) = given {
        percent_fits(rate);
    }
}

#[tactic(auto, unfolding(crate::specs::Figures::price_lines))]
fn price_lines_fit(figures: &Figures, given: &Given)
    ensures { length (price_lines figures.now given.now) ≤ 119 }
{
    decimal_fits(&figures.price);
    percent_fits(&figures.yld);
    rate_line_fits(given);
}

#[tactic(auto, unfolding(crate::specs::Figures::redemption_line))]
fn redemption_line_fits(figures: &Figures)
    ensures { length (redemption_line figures.now) ≤ 61 }
{
    day_fits(&figures.redemption);
    decimal_fits(&figures.at);
}

#[tactic(auto, unfolding(crate::specs::Figures::days_line))]
fn days_line_fits(days: i32)
    ensures { length (days_line days) ≤ 25 }
{
    day_count_fits(days);
}

#[tactic(auto, unfolding(crate::specs::Figures::money_lines))]
fn money_lines_fit(figures: &Figures, fee: Fee)
    ensures { length (money_lines figures.now fee) ≤ 131 }
{
    decimal_fits(&figures.principal);
    decimal_fits(&figures.accrued);
    decimal_fits(&figures.commission);
    decimal_fits(&figures.total);
}

#[tactic(auto, unfolding(crate::specs::Confirmation::day_line))]
fn day_line_fits(word: &[u8], date: &Day)
    ensures { length (day_line word.now date.now) ≡ length word.now + 12 }
{
    day_fits(date);
}

#[tactic(auto, unfolding(crate::specs::Confirmation::par_line))]
fn par_line_fits(asked: &Asked)
    ensures { length (par_line asked.now) ≤ 18 }
{
    par_fits(asked.par);
}

#[tactic(auto, unfolding(crate::specs::Confirmation::trade_lines))]
fn trade_lines_fit(act: Act, number: u32, key: &Key)
    ensures { length (trade_lines act number key.now) ≤ 87 }
{
    count_fits(number);
    let _desk = key.desk.bytes();
    let _reference = key.reference.bytes();
}

#[tactic(auto, unfolding(crate::specs::Confirmation::name_lines))]
fn name_lines_fit(issue: &IssueRow)
    ensures { length (name_lines issue.now) ≤ 83 }
{
    cusip_fits(&issue.cusip);
    let _name = issue.name.as_slice();
}

#[tactic(auto, unfolding(crate::specs::Confirmation::terms_lines))]
fn terms_lines_fit(issue: &IssueRow)
    ensures { length (terms_lines issue.now) ≤ 91 }
{
    decimal_fits(&issue.coupon);
    day_line_fits(b"DATED", &issue.dated);
    day_line_fits(b"MATURITY", &issue.maturity);
}

fn name_fits(number: u32)
    requires { (1 ≤ number) × (number ≤ 15) }
    ensures { length (name_text number) ≤ 34 }
{
    count_fits(number);
    let _short = refusal_name(number);
}

fn kept_fits(kept: &Kept)
    ensures { length (behind_blanks (kept_parts kept.now)) ≤ 19 }
{
    match kept {
        Kept::Issue(_) => {}
        Kept::Version { number, .. } => count_fits(*number),
    }
}

fn fault_day_fits(fault: &TermsFault)
    ensures { length (behind_blanks (fault_day fault.now)) ≤ 11 }
{
    match fault {
        TermsFault::CallOffCalendar { date }
        | TermsFault::CallsNotRising { date }
        | TermsFault::BadCallPrice { date }
        | TermsFault::CalledNotLast { date } => day_fits(date),
        _ => {}
    }
}

fn fault_fits(fault: &TermsFault)
    ensures { length (behind_blanks (fault_parts fault.now)) ≤ 22 }
{
    count_fits(fault.number());
    fault_day_fits(fault);
}

fn boundary_fits(boundary: &Boundary)
    ensures { length (behind_blanks (boundary_parts boundary.now)) ≤ 36 }
{
    match boundary {
        Boundary::Price(price) => decimal_fits(price),
        Boundary::Yield(yld) => percent_fits(yld),
    }
}

fn detail_fits(refusal: &Refusal)
    ensures { length (behind_blanks (detail refusal.now)) ≤ 47 }
{
    match refusal {
        Refusal::Conflict(kept) => kept_fits(kept),
        Refusal::BadTerms(fault) => fault_fits(fault),
        Refusal::YieldBelow { date } | Refusal::NoTime { date } => day_fits(date),
        Refusal::Undecided { date, boundary } => {
            day_fits(date);
            boundary_fits(boundary);
        }
        Refusal::WrongNumber { next } => count_fits(*next),
        _ => {}
    }
}
