//! A request for the figures of a security that is given by its terms, and the answer to it.

ghost use Rattle.std.specs.Prelude.{◌≡◌, ◌≤◌, length, IfOk};
ghost use Rattle.muni_desk.specs.Request.{IsAnswerOf};

use arrayvec::ArrayVec;
use muni_answer::figures;
use muni_book::Calculator;
use muni_edge::Gate;
use muni_msg::{Asked, Figures, Refusal};
use muni_multi::Encloser;
use muni_sched::Schedule;
use muni_terms::{IssueRow, check};
use std::thread::Threads;

/// The CUSIP of a security that has no number of its own.
pub const NO_CUSIP: [u8; 9] = *b"000000000";

/// The terms of a security, and what is asked for of it.
#[derive(Drop)]
pub struct QuoteRequest {
    pub row: IssueRow,
    pub asked: Asked,
}

/// A name of at most 60 bytes, as it is in the terms.
pub fn issue_name(text: &[u8]) -> ArrayVec<u8, 60>
    requires { length text.now ≤ 60 }
    ensures { result.items ≡ text.now }
{
    let mut name = ArrayVec::new();
    let _ = name.try_extend_from_slice(text);
    name
}

/// The figures, or the refusal that applies first: the first fault of the terms, or that of
/// `muni_book`. The schedule is filled anew.
pub fn answer_of<R: Threads + Sync, E: Encloser + Sync, G: Gate + Sync>(
    calculator: &Calculator<'_, R, E, G>,
    row: IssueRow,
    asked: &Asked,
    schedule: &mut Schedule,
) -> Result<Figures, Refusal>
    ensures right { IsAnswerOf (E.ends calculator.now.encloser.now) row asked.now result }
    ensures accrued { IfOk result (λ figures. figures.accrued ≤ 60_000_000_000) }
{
    match check(row) {
        Ok(issue) => figures(calculator, &issue, asked, schedule),
        Err(fault) => Err(Refusal::BadTerms(fault)),
    }
}
