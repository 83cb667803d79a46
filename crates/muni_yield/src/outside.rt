//! For callers outside; the program goes by `GuidedSearch`.

ghost use Rattle.std.specs.Prelude.{◌≡◌, ◌+◌, ◌^◌, ◌<◌, ◌≤◌, false};
ghost use Rattle.muni_rule.specs.PrintedYield.{boundary};
ghost use Rattle.muni_yield.specs.Bracket.{is_settled, question, HalvesBy};
ghost use Rattle.muni_yield.specs.Outcome.{IsExactOutcome, IsDoubtfulOutcome, IsOutcomeInRange};
ghost use Rattle.muni_yield.specs.Places.{place_verdict, yield_at};
ghost use Rattle.muni_yield.specs.Settled.{IsSearchOutcome, CountsHalvings};

use crate::laws::searches_are_in_order;
use crate::{Bracket, Outcome};
use muni_dec::Price;
use muni_edge::Steps;
use muni_multi::{Discount, Encloser};
use muni_terms::{Flows, flows_are_in_range};
use std::sync::ledger::Ledger;

/// The yield at a dollar price (MSRB Rule G-33(b)(ii)). Two payments or more are to come.
///
/// `steps` counts one for each halving. There are at most 19.
// Each asks one question, which calls the encloser at most once (tested).
pub fn printed_yield<E: Encloser, L: Ledger>(
    encloser: &E,
    flows: &Flows,
    price: Price,
    steps: &mut Steps<L>,
) -> Outcome
    requires many { 2 ≤ flows.now.n }
    requires price { 0 < price }
    requires room { steps.old + 19 < 2 ^ 64 }
    // promise 2: below or above the range only if the exact yield is, and else the exact yield, rounded
    ensures exact { IsExactOutcome flows.now price result }
    // promise 4: unsure only in doubt at the boundary above a yield that is reached, or above -5.001 percent
    ensures doubtful { IsDoubtfulOutcome flows.now price result }
    // promise 2: a yield is in its range
    ensures range { IsOutcomeInRange result }
    // promise 4: unsure exactly by the verdicts and the order of the questions
    ensures searched { IsSearchOutcome (E.ends encloser.now) flows.now price result }
    // promise 10: a search takes at most 19 halvings
    ensures steps { CountsHalvings (place_verdict (E.ends encloser.now)) flows.now price
        steps.old steps.new }
{
    flows_are_in_range(flows);
    let mut bracket = Bracket::start(*flows, price);
    loop {
        if let Some(outcome) = bracket.settled() {
            return outcome;
        }
        bracket.halve(encloser);
        steps.tick();
    }
}

impl Bracket {
    /// Halves a search that is not settled by asking its next question.
    pub fn halve<E: Encloser>(&mut self, encloser: &E)
        requires { is_settled self.old ≡ false }
        // promise 2: a halving goes by the verdict on its question
        ensures { HalvesBy (place_verdict (E.ends encloser.now)) self.old self.new }
    {
        let discount = self.discount();
        self.halve_at(encloser, &discount);
    }

    /// The discount of the next question. Searches that began together ask at the same yield as
    /// long as their answers are the same.
    pub fn discount(&self) -> Discount
        requires { is_settled self.now ≡ false }
        // promise 2: the discount of a question is that of its yield
        ensures y { result.y ≡ boundary (yield_at (question self.now)) }
        // promise 2: and of the days left of a period
        ensures a { result.a ≡ self.now.series.a }
    {
        Discount::at(self.question().boundary(), self.flows().a())
    }

    /// Halves with a discount at hand. If it is not that of the question, that one is computed.
    pub fn halve_at<E: Encloser>(&mut self, encloser: &E, discount: &Discount)
        requires { is_settled self.old ≡ false }
        // promise 2: the same at a discount that is computed once
        ensures { HalvesBy (place_verdict (E.ends encloser.now)) self.old self.new }
    {
        searches_are_in_order(self);
        let question = self.question();
        let reading = question.ask(encloser, self.flows(), self.price(), Some(discount));
        self.halve_known(reading.verdict);
    }
}
