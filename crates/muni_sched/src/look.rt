//! What all searches learn side by side before they are halved.

ghost use Rattle.std.specs.Prelude.{◌≡◌, ◌<◌, ◌≤◌, take, length, All};
ghost use Rattle.std.specs.List.{AllZip};
ghost use Rattle.muni_yield.specs.Places.{place_verdict};
ghost use Rattle.muni_sched.specs.Search.{IsOpen, IsLookedAt, IsLookedAtBut, searches_from};
ghost use Rattle.muni_sched.specs.Candidates.{IsCandidate};

use crate::search::OpenSearch;
use crate::{Candidate, Shape};
use muni_dec::Price;
use muni_multi::Encloser;
use muni_yield::{GuidedSearch, Question};

/// Each search learns the answer to a question. They stand in order of date, so that one annuity grows from each to
/// the next.
pub(crate) fn look_at_each<E: Encloser>(
    encloser: &E,
    searches: &mut [OpenSearch],
    question: Question,
)
    requires some { 0 < length searches.old }
    requires each { All (IsOpen (place_verdict (E.ends encloser.now))) searches.old }
    ensures { AllZip (IsLookedAt (place_verdict (E.ends encloser.now))) searches.old searches.new }
{
    let mut annuity = searches[0].guided.annuity(question);
    for place in 0..searches.len() {
        let search = &mut searches[place];
        search.guided.look(encloser, question, &mut annuity);
    }
}

/// Puts a search for each candidate of many payments into the first slots, which learns the answer to a question.
/// Those that are shown to be answered by yes are left out. Answers how many searches there are.
pub(crate) fn put_unless_shown<E: Encloser>(
    encloser: &E,
    slots: &mut [OpenSearch],
    list: &[Candidate],
    price: Price,
    question: Question,
) -> usize
    requires room { 100 ≤ length slots.old }
    requires few { length list.now ≤ 100 }
    requires candidates { All IsCandidate list.now }
    requires price { 0 < price }
    ensures looked { IsLookedAtBut (place_verdict (E.ends encloser.now)) question
        (searches_from price 0 list.now) (take result slots.new) }
    ensures fits { result ≤ length slots.new }
    ensures len { length slots.new ≡ length slots.old }
{
    let mut annuity = question.annuity(days_into_period(list));
    let mut count = 0;
    for (candidate, redemption) in list.iter().enumerate() {
        if let Shape::Many(flows) = &redemption.shape {
            if let Some(guided) = GuidedSearch::unless_shown(
                encloser,
                flows,
                price,
                question,
                &mut annuity,
            ) {
                slots[count] = OpenSearch { candidate, guided };
                count += 1;
            }
        }
    }
    count
}

// The days into the interest period, which are those of all candidates of many payments.
fn days_into_period(list: &[Candidate]) -> u32
    ensures { result ≤ 180 }
{
    for candidate in list {
        if let Shape::Many(flows) = &candidate.shape {
            return flows.a();
        }
    }
    0
}
