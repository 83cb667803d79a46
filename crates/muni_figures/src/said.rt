//! What is said of a row.

ghost use Rattle.std.specs.Prelude.{◌≡◌, Ok, ℤ, All};
ghost use Rattle.std.specs.BTreeMap as tree;
ghost use Rattle.muni_rule.specs.Payments.{PaymentSeries};
ghost use Rattle.muni_rule.specs.WorthEnds.{WorthEnds};
ghost use Rattle.muni_sched.specs.Candidates.{AreCandidates, IsCandidate};
ghost use Rattle.muni_answer.specs.Answers.{IsRightAnswer};
ghost use Rattle.muni_keep.specs.Trades.{by_bytes};
ghost use Rattle.muni_figures.specs.Said as spec;

use muni_answer::figures;
use muni_book::{Calculator, risk};
use muni_edge::Gate;
use muni_import::RowFault;
use muni_msg::{Asked, Figures, Refusal};
use muni_multi::Encloser;
use muni_risk::Risk;
use muni_sched::{Candidate, Schedule};
use muni_terms::Issue;
use std::collections::BTreeMap;
use std::thread::Threads;

/// The sensitivities of a row.
#[derive(Clone, Copy, Debug, PartialEq, Eq)]
pub enum RiskColumns {
    /// They were not asked for.
    LeftOut,
    /// They are shown. A discounted note has none.
    Shown(Option<Risk>),
}

/// What is said of a row.
#[derive(Clone, Copy, Debug, PartialEq, Eq)]
pub enum FiguresSaid {
    /// It has these figures.
    Priced {
        cusip: [u8; 9],
        figures: Figures,
        risk: RiskColumns,
    },
    /// It has none, by the refusal with this number.
    Refused {
        number: u32,
    },
    /// It is no row that figures can be asked for.
    Bad(RowFault),
}

/// What is said of one row, by nothing but the row and its issue, with sensitivities if they are asked for.
#[tactic(auto, unfolding(crate::specs::Said::IsSaid))]
pub(crate) fn said_of<R: Threads + Sync, E: Encloser + Sync, G: Gate + Sync>(
    calculator: &Calculator<'_, R, E, G>,
    row: &Result<Asked, RowFault>,
    issues: &BTreeMap<[u8; 9], Issue>,
    has_risk: bool,
    schedule: &mut Schedule,
) -> FiguresSaid
    ensures { spec.IsSaid (IsRightAnswer (E.ends calculator.now.encloser.now)) has_risk (tree.get by_bytes issues.now) row.now result }
{
    match row {
        Err(fault) => FiguresSaid::Bad(*fault),
        Ok(asked) => match issues.get(&asked.cusip) {
            None => FiguresSaid::Refused {
                number: Refusal::UnknownIssue.number(),
            },
            Some(issue) => priced(calculator, issue, asked, has_risk, schedule),
        },
    }
}

fn priced<R: Threads + Sync, E: Encloser + Sync, G: Gate + Sync>(
    calculator: &Calculator<'_, R, E, G>,
    issue: &Issue,
    asked: &Asked,
    has_risk: bool,
    schedule: &mut Schedule,
) -> FiguresSaid
    ensures { spec.IsPriced (IsRightAnswer (E.ends calculator.now.encloser.now)) has_risk issue.now asked.now result }
{
    match figures(calculator, issue, asked, schedule) {
        Ok(figures) => FiguresSaid::Priced {
            cusip: asked.cusip,
            figures,
            risk: risk_columns(has_risk, issue, schedule.candidates(), &figures),
        },
        Err(refusal) => FiguresSaid::Refused {
            number: refusal.number(),
        },
    }
}

// The sensitivities of a row with these figures and these candidates, if they are asked for.
fn risk_columns(
    has_risk: bool,
    issue: &Issue,
    candidates: &[Candidate],
    figures: &Figures,
) -> RiskColumns
    requires { All IsCandidate candidates.now }
    ensures { (ends : PaymentSeries → ℤ → WorthEnds) (asked : Asked)
        → AreCandidates issue.now asked.settle candidates.now
        → IsRightAnswer ends issue.now asked (Ok figures.now)
        → spec.AreColumns has_risk issue.now asked figures.now result }
{
    if has_risk {
        RiskColumns::Shown(risk(issue, candidates, figures))
    } else {
        RiskColumns::LeftOut
    }
}
