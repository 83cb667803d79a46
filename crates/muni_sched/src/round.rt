//! What the searches of a round ask.

ghost use Rattle.std.specs.Prelude.{◌<◌, ◌≤◌, All};
ghost use Rattle.std.specs.List.{AllZip};
ghost use Rattle.muni_yield.specs.Places.{place_verdict};
ghost use Rattle.muni_sched.specs.Search.{IsPending, IsOpen, IsHalved, HalvesEach};

use crate::Calculator;
use crate::aim::Aim;
use crate::search::OpenSearch;
use muni_edge::Gate;
use muni_multi::Encloser;
use muni_yield::{Discounts, Question};
use std::thread;
use std::thread::Threads;

/// What all searches of a round have in common. They ask two questions at most, so two discounts
/// serve them. A search that asks another one computes its own.
#[derive(Clone, Copy)]
pub(crate) struct Round {
    pub(crate) number: u32,
    pub(crate) aim: Aim,
    pub(crate) discounts: Discounts,
}

/// Adds the discounts of what the searches ask.
pub(crate) fn add_discounts(discounts: &mut Discounts, searches: &[OpenSearch], aim: Question)
    requires each { All IsPending searches.now }
{
    for search in searches {
        search.guided.add_discount(aim, discounts);
    }
}

/// Halves each search, over as many threads as workers.
pub(crate) fn ask_in_threads<R: Threads + Sync, E: Encloser + Sync, G: Gate + Sync>(
    calculator: &Calculator<'_, R, E, G>,
    searches: &mut [OpenSearch],
    round: &Round,
)
    requires { All (IsOpen (place_verdict (E.ends calculator.now.encloser.now))) searches.old }
    ensures { AllZip (IsHalved (place_verdict (E.ends calculator.now.encloser.now)))
        searches.old searches.new }
{
    let encloser = calculator.encloser;
    let gate = calculator.gate;
    thread::for_each_mut(
        calculator.rt,
        searches,
        calculator.workers.count() as usize,
        &|_, search: &mut OpenSearch|
            requires { IsOpen (place_verdict (E.ends encloser.now)) search.now }
            ensures { IsHalved (place_verdict (E.ends encloser.entry.now))
                search.entry.now search.exit.now }
        { ask_one(search, round, encloser, gate) },
    );
}

/// Halves each search, one after another.
pub(crate) fn ask_in_turn<R, E: Encloser, G: Gate>(
    calculator: &Calculator<'_, R, E, G>,
    searches: &mut [OpenSearch],
    round: &Round,
)
    requires { All (IsOpen (place_verdict (E.ends calculator.now.encloser.now))) searches.old }
    ensures { AllZip (IsHalved (place_verdict (E.ends calculator.now.encloser.now)))
        searches.old searches.new }
{
    for place in 0..searches.len() {
        ask_one(
            &mut searches[place],
            round,
            calculator.encloser,
            calculator.gate,
        );
    }
}

fn ask_one<E: Encloser, G: Gate>(search: &mut OpenSearch, round: &Round, encloser: &E, gate: &G)
    requires { IsOpen (place_verdict (E.ends encloser.now)) search.old }
    ensures { IsHalved (place_verdict (E.ends encloser.now)) search.old search.new }
{
    gate.start(round.number, search.candidate);
    search
        .guided
        .halve(encloser, round.aim.question(), &round.discounts);
}

/// Halves each search by what asks.
pub(crate) fn ask_each<E: Encloser, H: Fn(Round, &mut [OpenSearch])>(
    ask: &H,
    round: Round,
    searches: &mut [OpenSearch],
    encloser: &E,
)
    requires halves { HalvesEach H.Fn ask.now (place_verdict (E.ends encloser.now)) }
    requires open { All (IsOpen (place_verdict (E.ends encloser.now))) searches.old }
    ensures { AllZip (IsHalved (place_verdict (E.ends encloser.now))) searches.old searches.new }
{
    ask(round, searches);
}
