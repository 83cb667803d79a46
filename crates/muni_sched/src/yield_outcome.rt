//! What is known of the yield of a candidate at a price.

ghost use Rattle.std.specs.Prelude.{◌≡◌, ◌<◌, ◌≤◌, [], None, length, All};
ghost use Rattle.std.specs.List.{AllZip};
ghost use Rattle.muni_sched.specs.Candidates.{IsCandidate};
ghost use Rattle.muni_sched.specs.Figures.{IsOf};
ghost use Rattle.muni_sched.specs.Search.{IsKnownYield, ceiling_first};
ghost use Rattle.muni_sched.specs.YieldOutcome as spec;
ghost use Rattle.muni_sched.specs.YieldOutcome.{IsSearched, IsKnownFirst};
ghost use Rattle.muni_sched.specs.FigureKind.{Yield};

use crate::ceiling::{lower_of, missed_first};
use crate::{Candidate, CandidateOutcome, Shape};
use arrayvec::ArrayVec;
use muni_dec::Price;
use muni_simple::{Shape1, SimpleYield, discount_return, single_yield};

/// The outcome of a search for the yield of many payments.
pub(crate) fn many_yield(outcome: muni_yield::Outcome) -> CandidateOutcome
    requires { IsSearched outcome }
    ensures value { result ≡ spec.many_yield outcome }
    ensures range { IsOf Yield result }
{
    match outcome {
        muni_yield::Outcome::Print(yld) => CandidateOutcome::Print(yld),
        muni_yield::Outcome::Unsure { lower } => CandidateOutcome::Unsure(lower),
        muni_yield::Outcome::Below => CandidateOutcome::Below,
        muni_yield::Outcome::Above => CandidateOutcome::Above,
    }
}

fn one_yield(answer: SimpleYield) -> CandidateOutcome
    ensures value { result ≡ spec.one_yield answer }
    ensures range { IsOf Yield result }
{
    match answer {
        SimpleYield::Print(yld) => CandidateOutcome::Print(yld),
        SimpleYield::Below => CandidateOutcome::Below,
        SimpleYield::Above => CandidateOutcome::Above,
        SimpleYield::NoTime => CandidateOutcome::NoTime,
    }
}

// What is known before any search: the outcome of one payment to come, and nothing of many.
fn known_first(candidate: &Candidate, price: Price) -> Option<CandidateOutcome>
    requires candidate { IsCandidate candidate.now }
    requires price { 0 < price }
    ensures known { IsKnownFirst price candidate.now result }
    ensures range { IsKnownYield result }
{
    let answer = match &candidate.shape {
        Shape::Many(_) => return None,
        Shape::One(payment) => single_yield(payment, Shape1::OnePeriod, price),
        Shape::AtRedemption(payment) => single_yield(payment, Shape1::AtRedemption, price),
        Shape::Discount { days, basis } => discount_return(price, *days, *basis),
    };
    Some(one_yield(answer))
}

/// Pushes what is known of each candidate before any search, and answers the least figure that this shows not to be
/// reached.
pub(crate) fn push_known_first(
    known: &mut ArrayVec<Option<CandidateOutcome>, 100>,
    list: &[Candidate],
    price: Price,
) -> Option<i32>
    requires empty { known.old.items ≡ [] }
    requires few { length list.now ≤ 100 }
    requires candidates { All IsCandidate list.now }
    requires price { 0 < price }
    ensures known { AllZip (IsKnownFirst price) list.now known.new.items }
    ensures range { All IsKnownYield known.new.items }
    ensures ceiling { result ≡ ceiling_first None known.new.items }
{
    let mut ceiling = None;
    for candidate in list {
        let outcome = known_first(candidate, price);
        if outcome.is_some() {
            ceiling = lower_of(ceiling, missed_first(outcome));
        }
        known.push(outcome);
    }
    ceiling
}
