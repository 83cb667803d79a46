//! The redemption candidates of an issue, with room for the searches for their yields.

ghost use Rattle.std.specs.Prelude.{◌≡◌, ◌<◌, ◌≤◌, [], ◌∷◌, true, length, All};
ghost use Rattle.muni_terms.specs.Issue.{settles};
ghost use Rattle.muni_sched.specs.Answer.{IsLowestAnswer};
ghost use Rattle.muni_sched.specs.Candidates.{AreCandidates, IsCandidate};
ghost use Rattle.muni_sched.specs.GivenFigure.{at_price};
ghost use Rattle.muni_sched.specs.LowAnswers.{low_yield};
ghost use Rattle.muni_sched.specs.ScheduleView.{schedule_view};
ghost use Rattle.muni_sched.specs.SearchedOut.{CountsRounds};

use crate::search::{OpenSearch, Search};
use crate::yields::{lowest_of_search, search_in_threads, search_in_turn};
use crate::{Calculator, Candidate, LowestYield, NoYield, put_candidates};
use muni_days::Day;
use muni_dec::Price;
use muni_edge::Gate;
use muni_multi::Encloser;
use muni_terms::Issue;
use std::marker::Model;
use std::thread::Threads;

/// The redemption candidates of an issue at a settlement (MSRB Rule G-15(a)), in order of date, and
/// room for the searches for their yields. It can be filled anew, so that its room is made once.
#[derive(Drop)]
pub struct Schedule {
    slots: [Candidate; 100],
    count: usize,
    searches: [OpenSearch; 100],
    search: Search,
    rounds: u32,
}

impl Model for Schedule {
    ghost use Rattle.std.specs.Prelude.{take, ◌≤◌};
    ghost use Rattle.muni_sched.specs.ScheduleView.{ScheduleView, schedule_view};

    ghost Value = { ScheduleView };

    ghost view = { λ schedule. schedule_view (take schedule.count schedule.slots) schedule.rounds };

    ghost invariant = { λ schedule. (schedule.count ≤ 100) × (schedule.rounds ≤ 19) };
}

impl Schedule {
    /// A schedule without candidates.
    pub fn new() -> Schedule
        ensures { result ≡ schedule_view [] 0 }
    {
        Schedule {
            slots: [Candidate::default(); 100],
            count: 0,
            searches: [OpenSearch::default(); 100],
            search: Search::new(),
            rounds: 0,
        }
    }

    /// Puts the candidates of an issue in place of those at hand.
    pub fn fill(&mut self, issue: &Issue, settlement: Day)
        requires { settles issue.now settlement ≡ true }
        // promise 3: a schedule has the redemptions to come
        ensures candidates { AreCandidates issue.now settlement self.new.candidates }
        ensures count { (1 ≤ length self.new.candidates) × (length self.new.candidates ≤ 100) }
    {
        self.count = put_candidates(&mut self.slots, issue, settlement);
    }

    /// Puts one candidate in place of those at hand.
    pub fn fill_one(&mut self, candidate: Candidate)
        ensures { self.new.candidates ≡ candidate ∷ [] }
    {
        self.slots[0] = candidate;
        self.count = 1;
    }

    /// The candidates.
    pub fn candidates(&self) -> &[Candidate]
        ensures { result.now ≡ self.now.candidates }
    {
        &self.slots[..self.count]
    }

    /// How many rounds its last search for a yield took.
    pub fn rounds(&self) -> u32
        // promise 10: the rounds of the last search
        ensures value { result ≡ self.now.rounds }
        // promise 10: at most 19
        ensures few { result ≤ 19 }
    {
        self.rounds
    }

    /// The lowest yield at a dollar price over 0 over the candidates. The searches for their yields go
    /// by rounds, in each of which every search that is still needed is halved once.
    pub fn yield_to_worst<R: Threads + Sync, E: Encloser + Sync, G: Gate + Sync>(
        &mut self,
        calculator: &Calculator<'_, R, E, G>,
        price: Price,
    ) -> Result<LowestYield, NoYield>
        requires candidates { All IsCandidate self.old.candidates }
        requires price { 0 < price }
        // promise 3, 4: the program's lowest yield, the earliest redemption that has it, or why there is none
        ensures lowest { IsLowestAnswer (E.ends calculator.now.encloser.now) (at_price price)
            self.old.candidates (low_yield result) }
        // promise 10: the rounds that it says it took leave nothing to ask, and no fewer do
        ensures rounds { CountsRounds (E.ends calculator.now.encloser.now) price
            self.old.candidates 0 self.new.rounds }
        // promise 10: at most 19 rounds
        ensures few { self.new.rounds ≤ 19 }
        ensures same { self.new.candidates ≡ self.old.candidates }
    {
        let list = &self.slots[..self.count];
        self.rounds = search_in_threads(
            calculator,
            &mut self.search,
            &mut self.searches,
            list,
            price,
        );
        lowest_of_search(&self.search, list, price, calculator.encloser)
    }

    /// The same without threads, so that nothing has to be what threads may share.
    pub fn yield_to_worst_alone<R, E: Encloser, G: Gate>(
        &mut self,
        calculator: &Calculator<'_, R, E, G>,
        price: Price,
    ) -> Result<LowestYield, NoYield>
        requires candidates { All IsCandidate self.old.candidates }
        requires price { 0 < price }
        ensures lowest { IsLowestAnswer (E.ends calculator.now.encloser.now) (at_price price)
            self.old.candidates (low_yield result) }
        ensures rounds { CountsRounds (E.ends calculator.now.encloser.now) price
            self.old.candidates 0 self.new.rounds }
        ensures few { self.new.rounds ≤ 19 }
        ensures same { self.new.candidates ≡ self.old.candidates }
    {
        let list = &self.slots[..self.count];
        self.rounds = search_in_turn(
            calculator,
            &mut self.search,
            &mut self.searches,
            list,
            price,
        );
        lowest_of_search(&self.search, list, price, calculator.encloser)
    }
}
