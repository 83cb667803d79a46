//! The lowest yield over redemption candidates.

ghost use Rattle.std.specs.Prelude.{◌≡◌, ◌<◌, ◌≤◌, ◌+ℤ◌, pos, Some, length, All};
ghost use Rattle.std.specs.List.{AllZip};
ghost use Rattle.muni_rule.specs.PrintedYield.{boundary};
ghost use Rattle.muni_sched.specs.Answer.{dated, IsLowestAnswer};
ghost use Rattle.muni_sched.specs.Candidates.{IsCandidate};
ghost use Rattle.muni_sched.specs.FigureKind as kind;
ghost use Rattle.muni_sched.specs.Figures.{IsOf, IsLowestOf};
ghost use Rattle.muni_sched.specs.GivenFigure.{at_price};
ghost use Rattle.muni_sched.specs.LowAnswers.{low_yield};
ghost use Rattle.muni_sched.specs.Lowest as spec;
ghost use Rattle.muni_sched.specs.Ranks.{decided_by};
ghost use Rattle.muni_sched.specs.Search.{outcomes_of, state, IsBegun, IsOpen, IsHalved, HalvesEach};
ghost use Rattle.muni_yield.specs.Places.{place_verdict};
ghost use Rattle.muni_sched.specs.SearchedOut.{AreSearchedOut, CountsRounds};
ghost use Rattle.muni_sched.specs.declared.outcome.CandidateOutcome.TheVariants.{Unsure};

use crate::lowest::lowest_of;
use crate::round::{Round, ask_in_threads, ask_in_turn};
use crate::search::{OpenSearch, Search};
use crate::{Calculator, Candidate, CandidateOutcome, LowestYield, NoYield};
use muni_dec::{Price, Yield};
use muni_edge::Gate;
use muni_multi::Encloser;
use std::thread::Threads;

/// Searches for the yields at a price round by round, each round over as many threads as workers,
/// until nothing is left to ask. Answers how many rounds there were. The searches stand in the slots.
pub(crate) fn search_in_threads<R: Threads + Sync, E: Encloser + Sync, G: Gate + Sync>(
    calculator: &Calculator<'_, R, E, G>,
    search: &mut Search,
    slots: &mut [OpenSearch],
    list: &[Candidate],
    price: Price,
) -> u32
    requires room { 100 ≤ length slots.old }
    requires few { length list.now ≤ 100 }
    requires candidates { All IsCandidate list.now }
    requires price { 0 < price }
    ensures found { AreSearchedOut (E.ends calculator.now.encloser.now) price list.now
        (outcomes_of search.new.known.items) }
    ensures rounds { CountsRounds (E.ends calculator.now.encloser.now) price list.now 0 result }
    ensures few { result ≤ 19 }
{
    let ask = |round: Round, searches: &mut [OpenSearch]|
        requires { All (IsOpen (place_verdict (E.ends calculator.now.encloser.now))) searches.now }
        ensures { AllZip (IsHalved (place_verdict (E.ends calculator.entry.now.encloser.now)))
            searches.entry.now searches.exit.now }
    { ask_in_threads(calculator, searches, &round) };
    search_yields(calculator, search, slots, list, price, &ask)
}

/// The same, each round one search after another.
pub(crate) fn search_in_turn<R, E: Encloser, G: Gate>(
    calculator: &Calculator<'_, R, E, G>,
    search: &mut Search,
    slots: &mut [OpenSearch],
    list: &[Candidate],
    price: Price,
) -> u32
    requires room { 100 ≤ length slots.old }
    requires few { length list.now ≤ 100 }
    requires candidates { All IsCandidate list.now }
    requires price { 0 < price }
    ensures found { AreSearchedOut (E.ends calculator.now.encloser.now) price list.now
        (outcomes_of search.new.known.items) }
    ensures rounds { CountsRounds (E.ends calculator.now.encloser.now) price list.now 0 result }
    ensures few { result ≤ 19 }
{
    let ask = |round: Round, searches: &mut [OpenSearch]|
        requires { All (IsOpen (place_verdict (E.ends calculator.now.encloser.now))) searches.now }
        ensures { AllZip (IsHalved (place_verdict (E.ends calculator.entry.now.encloser.now)))
            searches.entry.now searches.exit.now }
    { ask_in_turn(calculator, searches, &round) };
    search_yields(calculator, search, slots, list, price, &ask)
}

// The same, each round by what asks.
fn search_yields<R, E: Encloser, G: Gate, H: Fn(Round, &mut [OpenSearch])>(
    calculator: &Calculator<'_, R, E, G>,
    search: &mut Search,
    slots: &mut [OpenSearch],
    list: &[Candidate],
    price: Price,
    ask: &H,
) -> u32
    requires halves { HalvesEach H.Fn ask.now
        (place_verdict (E.ends calculator.now.encloser.now)) }
    requires room { 100 ≤ length slots.old }
    requires few { length list.now ≤ 100 }
    requires candidates { All IsCandidate list.now }
    requires price { 0 < price }
    ensures found { AreSearchedOut (E.ends calculator.now.encloser.now) price list.now
        (outcomes_of search.new.known.items) }
    ensures rounds { CountsRounds (E.ends calculator.now.encloser.now) price list.now 0 result }
    ensures few { result ≤ 19 }
{
    begin(calculator, search, slots, list, price);
    let mut rounds = 0;
    while !search.is_over() {
        rounds = search.advance(calculator, slots, rounds, ask);
    }
    rounds
}

// A look that begins with all candidates costs less than a search for each and a look at those. One or two candidates are
// not looked at.
fn begin<R, E: Encloser, G>(
    calculator: &Calculator<'_, R, E, G>,
    search: &mut Search,
    slots: &mut [OpenSearch],
    list: &[Candidate],
    price: Price,
)
    requires room { 100 ≤ length slots.old }
    requires few { length list.now ≤ 100 }
    requires candidates { All IsCandidate list.now }
    requires price { 0 < price }
    ensures begun { IsBegun (place_verdict (E.ends calculator.now.encloser.now)) price list.now
        (state search.new slots.new) }
    ensures fits { search.new.left ≤ length slots.new }
{
    if list.len() > 2 && search.begin(calculator.encloser, slots, list, price) {
        return;
    }
    search.start(slots, list, price);
    search.look(calculator, slots);
}

/// The lowest yield that a search found, or why there is none.
pub(crate) fn lowest_of_search<E: Encloser>(
    search: &Search,
    list: &[Candidate],
    price: Price,
    encloser: &E,
) -> Result<LowestYield, NoYield>
    requires candidates { All IsCandidate list.now }
    requires price { 0 < price }
    requires found { AreSearchedOut (E.ends encloser.now) price list.now
        (outcomes_of search.now.known.items) }
    ensures { IsLowestAnswer (E.ends encloser.now) (at_price price) list.now (low_yield result) }
{
    let known = search.known();
    let candidate = lowest_of(known);
    decided_yield(list, outcome_at(known, candidate), candidate)
}

// A candidate whose outcome is not known counts as above all figures.
fn outcome_at(known: &[Option<CandidateOutcome>], candidate: usize) -> CandidateOutcome
    ensures { result ≡ spec.outcome_at (outcomes_of known.now) candidate }
{
    match known.get(candidate) {
        Some(Some(outcome)) => *outcome,
        Some(None) | None => CandidateOutcome::Above,
    }
}

// The yield of the candidate that decides, or why there is none.
fn decided_yield(
    list: &[Candidate],
    outcome: CandidateOutcome,
    candidate: usize,
) -> Result<LowestYield, NoYield>
    requires { IsLowestOf kind.Yield (length list.now) (decided_by outcome candidate) }
    ensures { Some (low_yield result) ≡ dated kind.Yield list.now (decided_by outcome candidate) }
{
    match outcome {
        CandidateOutcome::Print(yld) => Ok(LowestYield { yld, candidate }),
        CandidateOutcome::Unsure(lower) => Err(NoYield::Undecided {
            date: list[candidate].date,
            boundary: boundary_above(lower),
        }),
        CandidateOutcome::Below => Err(NoYield::Below {
            date: list[candidate].date,
        }),
        CandidateOutcome::Above => Err(NoYield::Above),
        CandidateOutcome::NoTime => Err(NoYield::NoTime {
            date: list[candidate].date,
        }),
    }
}

// Where the yields begin that are printed as the next one after a number of thousandths.
fn boundary_above(thousandths: i32) -> Yield
    requires { IsOf kind.Yield (Unsure thousandths) }
    ensures { result ≡ boundary (thousandths +ℤ pos 1) }
{
    Yield::new(10 * i64::from(thousandths + 1) - 5)
}
