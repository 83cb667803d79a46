//! What a quote shows after its figures.

ghost use Rattle.std.specs.Prelude.{Ok};
ghost use Rattle.muni_answer.specs.Answers.{IsRightAnswer};
ghost use Rattle.muni_book.specs.Details.{AreDetails};

use crate::each::each_redemption;
use crate::risks::risk_of_asked;
use arrayvec::ArrayVec;
use muni_confirm::Details;
use muni_edge::Gate;
use muni_msg::{Asked, Figures, Shown};
use muni_multi::Encloser;
use muni_sched::Calculator;
use muni_terms::Issue;
use std::thread::Threads;

/// What is to be shown after the figures of a trade. The figures are those of what is asked.
pub fn details<R: Threads + Sync, E: Encloser + Sync, G: Gate + Sync>(
    calculator: &Calculator<'_, R, E, G>,
    issue: &Issue,
    asked: &Asked,
    figures: &Figures,
    shown: Shown,
) -> Details
    ensures { IsRightAnswer (E.ends calculator.now.encloser.now) issue.now asked.now (Ok figures.now)
        → AreDetails (E.ends calculator.now.encloser.now) issue.now asked.now figures.now shown result }
{
    let each = if shown.each {
        each_redemption(calculator, issue, asked, figures)
    } else {
        ArrayVec::new()
    };
    let risk = if shown.risk {
        risk_of_asked(issue, asked, figures)
    } else {
        None
    };
    Details { each, risk }
}
