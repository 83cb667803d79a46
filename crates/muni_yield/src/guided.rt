//! A search that knows verdicts without a question.

ghost use Rattle.std.specs.Prelude.{◌≡◌, ◌<◌, ◌≤◌, false, ℕ, IfSome, IfNone};
ghost use Rattle.muni_rule.specs.Payments.{PaymentSeries};
ghost use Rattle.muni_rule.specs.PrintedYield.{boundary};
ghost use Rattle.muni_rule.specs.declared.verdict.Verdict.{Verdict};
ghost use Rattle.muni_yield.specs.Bracket as bracket;
ghost use Rattle.muni_yield.specs.Bracket.{start_of};
ghost use Rattle.muni_yield.specs.Known.{IsGuided, guided_start, guided_reached};
ghost use Rattle.muni_yield.specs.Places.{place_verdict, yield_at};

use crate::guess::{RoughYield, place_near};
use crate::laws::searches_are_in_order;
use crate::{Bracket, Discounts, Place, Question, Window};
use muni_dec::Price;
use muni_multi::{Annuity, Discount, Encloser, Verdict};
use muni_terms::{Flows, flows_are_in_range};

/// A bracket, and the verdicts that are known.
///
/// If the verdict on the bracket's next question is known, its halving asks at another place, at which
/// an answer settles more.
#[derive(Clone, Copy, Debug, PartialEq, Eq, Default)]
pub struct GuidedSearch {
    bracket: Bracket,
    window: Window,
}

impl GuidedSearch {
    /// The search before its first question, for two payments or more.
    pub fn start(flows: Flows, price: Price) -> GuidedSearch
        requires many { 2 ≤ flows.n }
        requires price { 0 < price }
        // promise 2: what a search knows at first is what the sum of the payments tells
        ensures { result ≡ guided_start flows price }
    {
        let window = Window::first(&flows, price);
        GuidedSearch {
            bracket: Bracket::start(flows, price),
            window,
        }
    }

    /// The search for payments and what its question tells, or none if the annuity of the question's yield shows that
    /// they are worth 10^-9 dollars more than the price there. Then nothing is made or enclosed for them.
    pub fn unless_shown<E: Encloser>(
        encloser: &E,
        flows: &Flows,
        price: Price,
        question: Question,
        annuity: &mut Annuity,
    ) -> Option<GuidedSearch>
        requires many { 2 ≤ flows.now.n }
        requires price { 0 < price }
        requires place { annuity.old.discount.y ≡ boundary (yield_at question) }
        ensures shown { IfNone result (IsGuided (place_verdict (E.ends encloser.now))
            (guided_reached flows.now price question)) }
        ensures start { IfSome result (λ search. search.bracket ≡ start_of flows.now price) }
        ensures known { IfSome result (IsGuided (place_verdict (E.ends encloser.now))) }
        ensures same { annuity.new.discount ≡ annuity.old.discount }
    {
        flows_are_in_range(flows);
        if annuity.shows(flows, price) {
            let _place = question.place();
            return None;
        }
        let mut search = GuidedSearch::start(*flows, price);
        search.leap(encloser, question, Some(annuity.discount()));
        Some(search)
    }

    /// The two yields, as the answers to the questions leave them.
    pub fn bracket(&self) -> &Bracket
        ensures { result.now ≡ self.now.bracket }
    {
        &self.bracket
    }

    /// The verdicts that are known.
    pub fn window(&self) -> &Window
        ensures { result.now ≡ self.now.window }
    {
        &self.window
    }

    /// Learns the answer to a question without a halving, if it is open: by the annuity of its yield, and where that
    /// shows no yes, by asking.
    pub fn look<E: Encloser>(&mut self, encloser: &E, question: Question, annuity: &mut Annuity)
        requires place { annuity.old.discount.y ≡ boundary (yield_at question) }
        requires known { IsGuided (place_verdict (E.ends encloser.now)) self.old }
        ensures bracket { self.new.bracket ≡ self.old.bracket }
        ensures known { IsGuided (place_verdict (E.ends encloser.now)) self.new }
        ensures same { annuity.new.discount ≡ annuity.old.discount }
    {
        if !self.window.is_open_at(question) {
            return;
        }
        searches_are_in_order(&self.bracket);
        if annuity.shows(self.bracket.flows(), self.bracket.price()) {
            self.window.reach(question.place());
        } else {
            let _verdict = self.ask(encloser, question, Some(annuity.discount()));
        }
    }

    /// Halves a search that is not settled. It asks the bracket's next question, or if the answer to
    /// that is known the question `aim`. No discount is computed if the one at hand is that of the
    /// question.
    // It calls the encloser once at most (tested).
    pub fn halve<E: Encloser>(&mut self, encloser: &E, aim: Question, discounts: &Discounts)
        requires open { bracket.is_settled self.old.bracket ≡ false }
        requires known { IsGuided (place_verdict (E.ends encloser.now)) self.old }
        // promise 2: a search that knows verdicts halves its bracket as if it had asked
        ensures halved { self.new.bracket
            ≡ bracket.halved (place_verdict (E.ends encloser.now)) self.old.bracket }
        // promise 2: and what it knows stays right
        ensures known { IsGuided (place_verdict (E.ends encloser.now)) self.new }
    {
        let verdict = self.answer(encloser, aim, discounts);
        self.bracket.halve_known(verdict);
    }

    /// The verdict on the next question of a search that is not settled, if it is known.
    pub fn told(&self) -> Option<Verdict>
        requires open { bracket.is_settled self.now.bracket ≡ false }
        ensures { (verdicts : PaymentSeries → ℕ → ℕ → Verdict) → IsGuided verdicts self.now
            → IfSome result (λ verdict. verdicts self.now.bracket.series self.now.bracket.price
            (bracket.question self.now.bracket) ≡ verdict) }
    {
        self.window.verdict_at(self.bracket.question().place())
    }

    /// Halves by the verdict on the next question.
    pub fn halve_by(&mut self, verdict: Verdict)
        requires open { bracket.is_settled self.old.bracket ≡ false }
        ensures halved { (verdicts : PaymentSeries → ℕ → ℕ → Verdict)
            → verdicts self.old.bracket.series self.old.bracket.price
            (bracket.question self.old.bracket) ≡ verdict
            → self.new.bracket ≡ bracket.halved verdicts self.old.bracket }
        ensures known { (verdicts : PaymentSeries → ℕ → ℕ → Verdict) → IsGuided verdicts self.old
            → IsGuided verdicts self.new }
        ensures window { self.new.window ≡ self.old.window }
    {
        self.bracket.halve_known(verdict);
    }

    /// Adds the discount of the question that the next halving asks, if it does and none is at hand.
    pub fn add_discount(&self, aim: Question, discounts: &mut Discounts)
        requires open { bracket.is_settled self.now.bracket ≡ false }
    {
        let question = self.bracket.question();
        if self.window.verdict_at(question.place()).is_none() {
            if discounts.question.is_none() {
                discounts.question = Some(self.discount_at(question));
            }
        } else if self.window.is_open_at(aim) && discounts.aim.is_none() {
            discounts.aim = Some(self.discount_at(aim));
        }
    }

    /// Whether the next halving asks the question `aim`.
    pub fn asks(&self, aim: Question) -> bool
        requires { bracket.is_settled self.now.bracket ≡ false }
    {
        self.window
            .verdict_at(self.bracket.question().place())
            .is_some()
            && self.window.is_open_at(aim)
    }

    /// The annuity at a question, without payments.
    pub fn annuity(&self, question: Question) -> Annuity
        ensures { result.discount.y ≡ boundary (yield_at question) }
    {
        question.annuity(self.bracket.flows().a())
    }

    fn discount_at(&self, question: Question) -> Discount
        ensures { result.y ≡ boundary (yield_at question) }
    {
        Discount::at(question.boundary(), self.bracket.flows().a())
    }

    /// A rough yield.
    pub fn rough_yield(&self) -> RoughYield {
        RoughYield::of(self.bracket.flows(), self.bracket.price())
    }

    /// A guess at the highest place that is reached, from a yield in 10^-6.
    pub fn guess(&self, from: i64) -> Place {
        place_near(self.bracket.flows(), self.bracket.price(), from)
    }

    // The verdict on the bracket's next question.
    fn answer<E: Encloser>(&mut self, encloser: &E, aim: Question, discounts: &Discounts) -> Verdict
        requires open { bracket.is_settled self.old.bracket ≡ false }
        requires known { IsGuided (place_verdict (E.ends encloser.now)) self.old }
        ensures verdict { result ≡ place_verdict (E.ends encloser.now) self.old.bracket.series
            self.old.bracket.price (bracket.question self.old.bracket) }
        ensures bracket { self.new.bracket ≡ self.old.bracket }
        ensures known { IsGuided (place_verdict (E.ends encloser.now)) self.new }
    {
        let question = self.bracket.question();
        match self.window.verdict_at(question.place()) {
            Some(verdict) => {
                self.leap(encloser, aim, discounts.aim.as_ref());
                verdict
            }
            None => self.ask(encloser, question, discounts.question.as_ref()),
        }
    }

    fn leap<E: Encloser>(&mut self, encloser: &E, aim: Question, kept: Option<&Discount>)
        requires known { IsGuided (place_verdict (E.ends encloser.now)) self.old }
        ensures bracket { self.new.bracket ≡ self.old.bracket }
        ensures known { IsGuided (place_verdict (E.ends encloser.now)) self.new }
    {
        if self.window.is_open_at(aim) {
            let _verdict = self.ask(encloser, aim, kept);
        }
    }

    // The answer to a question, from which the window learns.
    fn ask<E: Encloser>(
        &mut self,
        encloser: &E,
        question: Question,
        kept: Option<&Discount>,
    ) -> Verdict
        requires known { IsGuided (place_verdict (E.ends encloser.now)) self.old }
        ensures verdict { result ≡ place_verdict (E.ends encloser.now)
            self.old.bracket.series self.old.bracket.price question }
        ensures bracket { self.new.bracket ≡ self.old.bracket }
        ensures known { IsGuided (place_verdict (E.ends encloser.now)) self.new }
    {
        searches_are_in_order(&self.bracket);
        let reading = question.ask(encloser, self.bracket.flows(), self.bracket.price(), kept);
        self.window.learn(question.place(), reading);
        reading.verdict
    }
}
