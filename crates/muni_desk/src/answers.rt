//! What the desk says to a command that is answered by a text.

ghost use Rattle.std.specs.Prelude.{◌≡◌, ◌++◌, ◌∷◌, [], length, ◌≤◌, Ok};
ghost use Rattle.muni_confirm.specs.Refusal.{refusal_text};
ghost use Rattle.muni_answer.specs.Answers.{IsRightAnswer};
ghost use Rattle.muni_desk.specs.Answers as spec;

use crate::drill::{DrillRequest, summary_of};
use crate::help::help_text;
use crate::one_period::last_period_price;
use crate::{Answer, QuoteOneRequest, QuoteRequest, Status};
use arrayvec::ArrayVec;
use muni_answer::figures;
use muni_book::{Calculator, details};
use muni_confirm::{figure_lines, push_details, refusal_line};
use muni_dec::Price3;
use muni_dec::text::push;
use muni_edge::Gate;
use muni_msg::{Asked, Figures, Refusal, Shown};
use muni_multi::Encloser;
use muni_sched::Schedule;
use muni_terms::{Issue, check};
use std::thread::Threads;

/// The price, or the refusal that applies first.
pub fn quote_one_answer(request: &QuoteOneRequest) -> Answer
    ensures { spec.IsQuoteOneText request.now result.status result.text.items }
{
    match last_period_price(request) {
        Ok(price) => done(price_line(price)),
        Err(refusal) => refused(&refusal),
    }
}

/// The figures, or the refusal that applies first.
pub fn quote_answer<R: Threads + Sync, E: Encloser + Sync, G: Gate + Sync>(
    calculator: &Calculator<'_, R, E, G>,
    request: QuoteRequest,
    shown: Shown,
) -> Answer
    ensures { spec.IsQuoteText (E.ends calculator.now.encloser.now) request shown result.status
        result.text.items }
{
    let QuoteRequest { row, asked } = request;
    let issue = match check(row) {
        Ok(issue) => issue,
        Err(fault) => return refused(&Refusal::BadTerms(fault)),
    };
    match figures(calculator, &issue, &asked, &mut Schedule::new()) {
        Ok(found) => done(quoted(calculator, &issue, &asked, &found, shown)),
        Err(refusal) => refused(&refusal),
    }
}

// The text of figures, with what is to be shown after them.
fn quoted<R: Threads + Sync, E: Encloser + Sync, G: Gate + Sync>(
    calculator: &Calculator<'_, R, E, G>,
    issue: &Issue,
    asked: &Asked,
    found: &Figures,
    shown: Shown,
) -> ArrayVec<u8, 10624>
    requires { IsRightAnswer (E.ends calculator.now.encloser.now) issue.now asked.now (Ok found.now) }
    ensures { spec.IsTextOf (E.ends calculator.now.encloser.now) issue.now asked.now found.now shown
        result.items }
{
    let mut lines = ArrayVec::new();
    figure_lines(found, &asked.given, asked.fee, &mut lines);
    let mut text = said(&lines);
    push_details(&mut text, &details(calculator, issue, asked, found, shown));
    text
}

/// The sums over a generated book.
// Its trades are dealt out to the workers (tested).
pub fn drill_answer<R: Threads + Sync, E: Encloser + Sync, G: Gate + Sync>(
    calculator: &Calculator<'_, R, E, G>,
    request: DrillRequest,
) -> Answer
    ensures { spec.IsDrillText (E.ends calculator.now.encloser.now) request result.status result.text.items }
{
    done(said(&summary_of(calculator, request)))
}

/// What the program can be asked for.
pub fn help_answer() -> Answer
    ensures { spec.IsHelpText result.status result.text.items }
{
    done(said(&help_text()))
}

fn said(lines: &[u8]) -> ArrayVec<u8, 10624>
    requires { length lines.now ≤ 1_024 }
    ensures { result.items ≡ lines.now }
{
    let mut text = ArrayVec::new();
    push(&mut text, lines);
    text
}

fn done(text: ArrayVec<u8, 10624>) -> Answer
    ensures status { result.status ≡ Status.Done }
    ensures text { result.text ≡ text }
{
    Answer {
        status: Status::Done,
        text,
    }
}

fn refused(refusal: &Refusal) -> Answer
    ensures status { result.status ≡ Status.Refused }
    ensures text { result.text.items ≡ refusal_text refusal.now }
{
    let mut line = ArrayVec::new();
    refusal_line(refusal, &mut line);
    let mut text = ArrayVec::new();
    push(&mut text, &line);
    Answer {
        status: Status::Refused,
        text,
    }
}

fn price_line(price: Price3) -> ArrayVec<u8, 10624>
    ensures { result.items ≡ spec.price_line price }
{
    let mut number = ArrayVec::new();
    price.print_into(&mut number);
    let mut text = ArrayVec::new();
    push(&mut text, &number);
    text.push(b'\n');
    text
}
