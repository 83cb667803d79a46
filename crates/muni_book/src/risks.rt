//! How the disclosed price of a trade moves with its yield.

ghost use Rattle.std.specs.Prelude.{◌≡◌, Ok, None, find, All, IfSome, ℤ};
ghost use Rattle.std.specs.Option.{option_map};
ghost use Rattle.muni_rule.specs.Payments.{PaymentSeries};
ghost use Rattle.muni_rule.specs.WorthEnds.{WorthEnds};
ghost use Rattle.muni_sched.specs.Candidates.{AreCandidates, IsCandidate};
ghost use Rattle.muni_sched.specs.Range.{IsGivenFor};
ghost use Rattle.muni_answer.specs.Answers.{IsRightAnswer};
ghost use Rattle.muni_answer.specs.GivenFor.{IsNote};
ghost use Rattle.muni_book.specs.Risk.{shown_yield, is_on, current_yield_of, AreOfShape, IsRiskOf};

use muni_answer::fill_for;
use muni_days::Day;
use muni_dec::{Price3, Yield, Yield3};
use muni_msg::{Asked, Figures};
use muni_multi::Discount;
use muni_risk::{Risk, Sensitivities, current_yield, series_sensitivities, single_sensitivities};
use muni_sched::{Candidate, Schedule, Shape, out_of_range};
use muni_simple::Shape1;
use muni_terms::{Issue, IssueRow, Kind};

/// How the price of a trade moves with its yield: of the redemption that is disclosed, at the yield as it is
/// shown. None for a discounted note. The candidates and the figures are those of what is asked.
pub fn risk(issue: &Issue, candidates: &[Candidate], figures: &Figures) -> Option<Risk>
    requires { All IsCandidate candidates.now }
    // promise 1: how the price of a quote moves, by the redemption, yield and price that are shown
    ensures { (ends : PaymentSeries → ℤ → WorthEnds) (asked : Asked)
        → AreCandidates issue.now asked.settle candidates.now
        → IsRightAnswer ends issue.now asked (Ok figures.now)
        → IsRiskOf issue.now asked figures.now result }
{
    let row = issue.row();
    let disclosed = redeemed_on(candidates, figures.redemption)?;
    let sensitivities = sensitivities(disclosed, as_shown(figures.yld))?;
    Some(Risk {
        current_yield: periodic_yield(row, figures.price),
        sensitivities,
    })
}

/// The same, of a schedule that is filled for it.
pub(crate) fn risk_of_asked(issue: &Issue, asked: &Asked, figures: &Figures) -> Option<Risk>
    ensures { (ends : PaymentSeries → ℤ → WorthEnds)
        → IsRightAnswer ends issue.now asked.now (Ok figures.now)
        → IsRiskOf issue.now asked.now figures.now result }
{
    let mut schedule = Schedule::new();
    match fill_for(issue, asked, &mut schedule) {
        Ok(()) => risk(issue, schedule.candidates(), figures),
        Err(_) => None,
    }
}

fn redeemed_on(list: &[Candidate], day: Day) -> Option<&Candidate>
    ensures { option_map (λ candidate. candidate.now) result ≡ find (is_on day) list.now }
{
    list.iter().find(|candidate| candidate.date == day)
}

// A yield with the three decimals that are shown of it.
fn as_shown(yld: Yield3) -> Yield
    ensures { result ≡ shown_yield yld }
{
    Yield::new(yld.units() * 10)
}

// None for a discounted note, or for a yield that may not be given for the candidate.
fn sensitivities(candidate: &Candidate, y: Yield) -> Option<Sensitivities>
    requires { IsCandidate candidate.now }
    ensures some { IfSome result (AreOfShape candidate.now.shape y) }
    ensures none { result ≡ None → IsGivenFor y candidate.now → IsNote candidate.now }
{
    if out_of_range(&[*candidate], y).is_some() {
        return None;
    }
    match &candidate.shape {
        Shape::Many(flows) => {
            let discount = Discount::at(y.units() as i32, flows.a());
            Some(series_sensitivities(flows, &discount))
        }
        Shape::One(payment) => Some(single_sensitivities(payment, Shape1::OnePeriod, y)),
        Shape::AtRedemption(payment) => {
            Some(single_sensitivities(payment, Shape1::AtRedemption, y))
        }
        Shape::Discount { .. } => None,
    }
}

// The current yield of an issue that pays its interest periodically.
fn periodic_yield(row: &IssueRow, price: Price3) -> Option<u64>
    ensures { result ≡ current_yield_of row.now.kind row.now.coupon price }
{
    match row.kind {
        Kind::Periodic { .. } => current_yield(row.coupon, price),
        Kind::Zero | Kind::AtRedemption | Kind::Discount => None,
    }
}
