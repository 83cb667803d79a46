//! The searches for the yields of all candidates, side by side.

ghost use Rattle.std.specs.Prelude.{◌≡◌, ◌<◌, ◌≤◌, ◌+◌, ◌-◌, ◌==◌, true, false, take, length, All, Option, None, option_map};
ghost use Rattle.std.specs.List.{filter};
ghost use Rattle.muni_yield.specs.Places.{place_verdict};
ghost use Rattle.muni_yield.specs.Settled.{settled_as};
ghost use Rattle.muni_sched.specs.Candidates.{IsCandidate};
ghost use Rattle.muni_sched.specs.Search as spec;
ghost use Rattle.muni_sched.specs.Search.{IsSearch, CanRefine, IsStarted, IsRound, HalvesEach, AreRounds, MayLook, IsBegun, state, noted, recorded, missed, searches_from};
ghost use Rattle.muni_sched.specs.YieldOutcome.{many_yield};

use crate::aim::Aim;
use crate::ceiling::{is_at_ceiling, least_ceiling, least_missed, lower_of};
use crate::look::{look_at_each, put_unless_shown};
use crate::round::{Round, add_discounts, ask_each};
use crate::yield_outcome::{many_yield, push_known_first};
use crate::{Calculator, Candidate, CandidateOutcome, Shape};
use arrayvec::ArrayVec;
use muni_dec::Price;
use muni_edge::Gate;
use muni_multi::Encloser;
use muni_yield::laws::searches_are_in_order;
use muni_yield::{Discounts, GuidedSearch, Place};

/// The search for the yield of one candidate, which is counted from 0 in order of date.
#[derive(Clone, Copy, Debug, PartialEq, Eq, Default)]
pub(crate) struct OpenSearch {
    pub(crate) candidate: usize,
    pub(crate) guided: GuidedSearch,
}

impl OpenSearch {
    /// The figure that the candidate is known not to reach. At 100.002 percent nothing is asked.
    pub(crate) fn missed(&self) -> Option<i32>
        requires { IsSearch self.now }
        ensures { result ≡ missed self.now }
    {
        if self.guided.bracket().high() <= 100_001 {
            Some(self.guided.bracket().high())
        } else {
            None
        }
    }

    // The outcome, once it is known.
    fn settled(&self) -> Option<CandidateOutcome>
        requires { IsSearch self.now }
        ensures { result ≡ option_map many_yield (settled_as self.now.guided.bracket) }
    {
        Some(many_yield(self.guided.bracket().settled()?))
    }

    // Whether the outcome is not known yet and may be the lowest.
    fn is_needed(&self, ceiling: Option<i32>, missed: Place) -> bool
        ensures { result ≡ spec.is_needed ceiling missed self.now }
    {
        searches_are_in_order(self.guided.bracket());
        self.guided.bracket().settled().is_none()
            && !self.is_passed(ceiling)
            && self.guided.window().yes().is_below(missed)
    }

    // Whether the lower yield was answered by yes, and is at the ceiling or above. At -5.001
    // percent nothing is asked.
    fn is_passed(&self, ceiling: Option<i32>) -> bool
        requires { IsSearch self.now }
        ensures { result ≡ spec.is_passed ceiling self.now.guided.bracket }
    {
        let low = self.guided.bracket().low();
        low > -5_001 && is_at_ceiling(ceiling, low)
    }
}

/// What is known of the yields of all candidates.
#[derive(Drop)]
pub(crate) struct Search {
    /// The outcome of each candidate, if it is known.
    known: ArrayVec<Option<CandidateOutcome>, 100>,
    /// How many searches are left. They are in the first slots of the caller.
    left: usize,
    /// The least figure that a candidate is known not to reach, by its questions.
    ceiling: Option<i32>,
    /// The least place that a search knows not to be reached, or the one above the range.
    missed: Place,
    /// What the next round asks if an answer is known.
    aim: Aim,
}

impl Search {
    /// With no candidates. No contract reads it.
    pub(crate) fn new() -> Search {
        Search {
            known: ArrayVec::new(),
            left: 0,
            ceiling: None,
            missed: Place::ABOVE,
            aim: Aim::START,
        }
    }

    /// Begins with more than two candidates, and looks at them before the first round: no search is made for those
    /// that are shown to reach the aim. If one does not reach it, and so has a lower yield, it answers yes. Else
    /// it has not begun.
    pub(crate) fn begin<E: Encloser>(
        &mut self,
        encloser: &E,
        slots: &mut [OpenSearch],
        list: &[Candidate],
        price: Price,
    ) -> bool
        requires room { 100 ≤ length slots.old }
        requires few { length list.now ≤ 100 }
        requires candidates { All IsCandidate list.now }
        requires price { 0 < price }
        ensures begun { result ≡ true
            → IsBegun (place_verdict (E.ends encloser.now)) price list.now (state self.new slots.new) }
        ensures fits { result ≡ true → self.new.left ≤ length slots.new }
    {
        self.aim = Aim::first(list, price);
        let question = self.aim.question();
        let left = put_unless_shown(encloser, slots, list, price, question);
        let searches = &mut slots[..left];
        self.missed = least_missed(searches, Place::ABOVE);
        if question.place().is_below(self.missed) {
            return false;
        }
        self.known.clear();
        self.ceiling = push_known_first(&mut self.known, list, price);
        self.left = keep_needed(searches, self.ceiling, self.missed);
        self.aim = self.aim.next(&slots[..self.left], true);
        true
    }

    /// Begins with the candidates, before the first round, whatever it knew before.
    pub(crate) fn start(&mut self, slots: &mut [OpenSearch], list: &[Candidate], price: Price)
        requires room { 100 ≤ length slots.old }
        requires few { length list.now ≤ 100 }
        requires candidates { All IsCandidate list.now }
        requires price { 0 < price }
        ensures started { IsStarted price list.now (state self.new slots.new) }
        ensures fits { self.new.left ≤ length slots.new }
    {
        self.known.clear();
        self.ceiling = push_known_first(&mut self.known, list, price);
        self.missed = Place::ABOVE;
        self.left = put_searches(slots, list, price);
        self.aim = Aim::first(list, price);
    }

    /// Looks at more than two searches before the first round: they learn what the aim asks, and those are dropped
    /// that cannot be the lowest. One or two cost less to halve.
    pub(crate) fn look<R, E: Encloser, G>(
        &mut self,
        calculator: &Calculator<'_, R, E, G>,
        slots: &mut [OpenSearch],
    )
        requires fits { self.old.left ≤ length slots.old }
        requires can { CanRefine (place_verdict (E.ends calculator.now.encloser.now))
            (state self.old slots.old) }
        ensures look { MayLook (place_verdict (E.ends calculator.now.encloser.now))
            (state self.old slots.old) (state self.new slots.new) }
        ensures fits { self.new.left ≤ length slots.new }
    {
        if self.left <= 2 {
            return;
        }
        let searches = &mut slots[..self.left];
        look_at_each(calculator.encloser, searches, self.aim.question());
        self.missed = least_missed(searches, self.missed);
        self.left = keep_needed(searches, self.ceiling, self.missed);
        self.aim = self.aim.next(&slots[..self.left], true);
    }

    /// The outcome of each candidate, if it is known.
    pub(crate) fn known(&self) -> &[Option<CandidateOutcome>]
        ensures { result.now ≡ self.now.known.items }
    {
        self.known.as_slice()
    }

    /// Whether nothing is left to ask.
    pub(crate) fn is_over(&self) -> bool
        ensures { result ≡ (self.now.left == 0) }
    {
        self.left == 0
    }

    /// One round or more, if a search is left. Answers the number of the next round.
    pub(crate) fn advance<R, E: Encloser, G: Gate, H: Fn(Round, &mut [OpenSearch])>(
        &mut self,
        calculator: &Calculator<'_, R, E, G>,
        slots: &mut [OpenSearch],
        round: u32,
        ask: &H,
    ) -> u32
        requires few { round ≤ 19 }
        requires some { (self.old.left == 0) ≡ false }
        requires fits { self.old.left ≤ length slots.old }
        requires can { CanRefine (place_verdict (E.ends calculator.now.encloser.now))
            (state self.old slots.old) }
        requires halves { HalvesEach H.Fn ask.now (place_verdict (E.ends calculator.now.encloser.now)) }
        ensures rounds { AreRounds (place_verdict (E.ends calculator.now.encloser.now)) (result - round)
            (state self.old slots.old) (state self.new slots.new) }
        ensures more { round < result }
        ensures fits { self.new.left ≤ length slots.new }
    {
        let next = self.refine_told(calculator, slots, round);
        if self.is_over() {
            return next;
        }
        self.refine(calculator, slots, next, ask);
        next + 1
    }

    // The rounds of the last search for as long as none of its questions is open.
    fn refine_told<R, E: Encloser, G: Gate>(
        &mut self,
        calculator: &Calculator<'_, R, E, G>,
        slots: &mut [OpenSearch],
        round: u32,
    ) -> u32
        requires few { round ≤ 19 }
        requires fits { self.old.left ≤ length slots.old }
        requires can { CanRefine (place_verdict (E.ends calculator.now.encloser.now))
            (state self.old slots.old) }
        ensures rounds { AreRounds (place_verdict (E.ends calculator.now.encloser.now)) (result - round)
            (state self.old slots.old) (state self.new slots.new) }
        ensures can { CanRefine (place_verdict (E.ends calculator.now.encloser.now))
            (state self.new slots.new) }
        ensures more { (round ≤ result) × (result ≤ round + 19) }
        ensures fits { self.new.left ≤ length slots.new }
    {
        if self.left != 1 || slots[0].guided.window().is_wide() {
            return round;
        }
        let mut search = slots[0];
        let mut next = round;
        while let Some(verdict) = search.guided.told() {
            calculator.gate.start(next, search.candidate);
            search.guided.halve_by(verdict);
            next += 1;
            self.ceiling = lower_of(self.ceiling, search.missed());
            self.missed = self.missed.lower(search.guided.window().no());
            if !search.is_needed(self.ceiling, self.missed) {
                note_settled(&search, self.known.as_mut_slice());
                self.left = 0;
                return next;
            }
        }
        slots[0] = search;
        next
    }

    // One round: each search is halved once. Then those are dropped whose outcome is known or cannot be the lowest.
    fn refine<R, E: Encloser, G: Gate, H: Fn(Round, &mut [OpenSearch])>(
        &mut self,
        calculator: &Calculator<'_, R, E, G>,
        slots: &mut [OpenSearch],
        round: u32,
        ask: &H,
    )
        requires fits { self.old.left ≤ length slots.old }
        requires can { CanRefine (place_verdict (E.ends calculator.now.encloser.now))
            (state self.old slots.old) }
        requires halves { HalvesEach H.Fn ask.now (place_verdict (E.ends calculator.now.encloser.now)) }
        ensures round { IsRound (place_verdict (E.ends calculator.now.encloser.now))
            (state self.old slots.old) (state self.new slots.new) }
        ensures fits { self.new.left ≤ length slots.new }
    {
        if self.left == 1 {
            self.refine_one(calculator, slots, round);
        } else {
            self.refine_each(calculator, slots, round, ask);
        }
    }

    fn refine_each<R, E: Encloser, G, H: Fn(Round, &mut [OpenSearch])>(
        &mut self,
        calculator: &Calculator<'_, R, E, G>,
        slots: &mut [OpenSearch],
        round: u32,
        ask: &H,
    )
        requires fits { self.old.left ≤ length slots.old }
        requires can { CanRefine (place_verdict (E.ends calculator.now.encloser.now))
            (state self.old slots.old) }
        requires halves { HalvesEach H.Fn ask.now (place_verdict (E.ends calculator.now.encloser.now)) }
        ensures round { IsRound (place_verdict (E.ends calculator.now.encloser.now))
            (state self.old slots.old) (state self.new slots.new) }
        ensures fits { self.new.left ≤ length slots.new }
    {
        let searches = &mut slots[..self.left];
        let mut discounts = Discounts::new();
        add_discounts(&mut discounts, searches, self.aim.question());
        let asking = Round {
            number: round,
            aim: self.aim,
            discounts,
        };
        ask_each(ask, asking, searches, calculator.encloser);
        record_settled(searches, self.known.as_mut_slice());
        self.ceiling = least_ceiling(searches, self.ceiling);
        self.missed = least_missed(searches, self.missed);
        self.left = keep_needed(searches, self.ceiling, self.missed);
        self.aim = self.aim.next(&slots[..self.left], discounts.has_aim());
    }

    // The same, if one search is left, as in most rounds.
    fn refine_one<R, E: Encloser, G: Gate>(
        &mut self,
        calculator: &Calculator<'_, R, E, G>,
        slots: &mut [OpenSearch],
        round: u32,
    )
        requires one { self.old.left ≡ 1 }
        requires fits { self.old.left ≤ length slots.old }
        requires can { CanRefine (place_verdict (E.ends calculator.now.encloser.now))
            (state self.old slots.old) }
        ensures round { IsRound (place_verdict (E.ends calculator.now.encloser.now))
            (state self.old slots.old) (state self.new slots.new) }
        ensures fits { self.new.left ≤ length slots.new }
    {
        let aim = self.aim.question();
        let search = &mut slots[0];
        let is_asked = search.guided.window().is_wide() && search.guided.asks(aim);
        calculator.gate.start(round, search.candidate);
        search
            .guided
            .halve(calculator.encloser, aim, &Discounts::new());
        let search = &slots[0];
        note_settled(search, self.known.as_mut_slice());
        self.ceiling = lower_of(self.ceiling, search.missed());
        self.missed = self.missed.lower(search.guided.window().no());
        if !search.is_needed(self.ceiling, self.missed) {
            self.left = 0;
        } else if search.guided.window().is_wide() {
            self.aim = self.aim.next(&slots[..1], is_asked);
        }
    }
}

// Answers how many searches there are.
fn put_searches(slots: &mut [OpenSearch], list: &[Candidate], price: Price) -> usize
    requires room { 100 ≤ length slots.old }
    requires few { length list.now ≤ 100 }
    requires candidates { All IsCandidate list.now }
    requires price { 0 < price }
    ensures searches { take result slots.new ≡ searches_from price 0 list.now }
    ensures fits { result ≤ length slots.new }
{
    let mut count = 0;
    for (candidate, redemption) in list.iter().enumerate() {
        if let Shape::Many(flows) = redemption.shape {
            slots[count] = OpenSearch {
                candidate,
                guided: GuidedSearch::start(flows, price),
            };
            count += 1;
        }
    }
    count
}

// The outcome of a search, once it is known.
fn note_settled(search: &OpenSearch, known: &mut [Option<CandidateOutcome>])
    requires search { IsSearch search.now }
    requires candidate { search.now.candidate < length known.old }
    ensures { known.new ≡ noted search.now known.old }
{
    if let Some(outcome) = search.settled() {
        known[search.candidate] = Some(outcome);
    }
}

fn record_settled(searches: &[OpenSearch], known: &mut [Option<CandidateOutcome>])
    requires each { All IsSearch searches.now }
    requires candidates { All (λ it. it.candidate < length known.old) searches.now }
    ensures { known.new ≡ recorded searches.now known.old }
{
    for search in searches {
        note_settled(search, known);
    }
}

// Moves the searches that are needed to the front, and answers how many they are.
fn keep_needed(searches: &mut [OpenSearch], ceiling: Option<i32>, missed: Place) -> usize
    ensures needed { take result searches.new
        ≡ filter (spec.is_needed ceiling missed) searches.old }
    ensures fits { result ≤ length searches.new }
{
    let mut kept = 0;
    for place in 0..searches.len() {
        if searches[place].is_needed(ceiling, missed) {
            searches[kept] = searches[place];
            kept += 1;
        }
    }
    kept
}
