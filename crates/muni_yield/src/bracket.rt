//! The two places between which a yield is sought.

ghost use Rattle.std.specs.Prelude.{◌≡◌, ◌+◌, ◌<◌, ◌≤◌, false, ℕ};
ghost use Rattle.muni_rule.specs.Payments.{PaymentSeries, IsSeries};
ghost use Rattle.muni_rule.specs.declared.verdict.Verdict.{Verdict};
ghost use Rattle.muni_yield.specs.Bracket as spec;
ghost use Rattle.muni_yield.specs.Bracket.{IsVerdictKept, IsBracket, IsQuestion};
ghost use Rattle.muni_yield.specs.Places.{yield_at};
ghost use Rattle.muni_yield.specs.Settled.{settled_as, outcome_at};

use crate::{Outcome, Place, Question};
use muni_dec::Price;
use muni_multi::Verdict;
use muni_terms::{Flows, flows_are_in_range};
use std::marker::Model;

/// The search for the yield at a price: two printed yields. The lower is reached, as far as it was
/// asked for, and the higher is not.
///
/// Each halving goes by the verdict on one question, in this order: whether -5.000 is reached, whether
/// 100.001 is, and then whether the middle is. After at most 19 of them the two are neighbours and
/// the search is settled.
#[derive(Clone, Copy, Debug, PartialEq, Eq)]
pub struct Bracket {
    flows: Flows,
    price: Price,
    low: Place,
    high: Place,
    at_high: Verdict,
    halvings: u32,
}

impl Model for Bracket {
    ghost use Rattle.muni_yield.specs.Bracket.{YieldBracket, IsBracket};
    ghost use Rattle.muni_yield.specs.BracketView.{bracket};

    ghost Value = { YieldBracket };

    ghost view = { λ held. bracket held.flows held.price held.low held.high held.at_high
        held.halvings };

    ghost invariant = { λ held. IsBracket (bracket held.flows held.price held.low held.high
        held.at_high held.halvings) };

    ghost inverse = { λ value. record {
      flows = value.series;
      price = value.price;
      low = value.low;
      high = value.high;
      at_high = value.at_high;
      halvings = value.halvings;
    } };
}

impl Default for Bracket {
    /// An empty slot of a list. No contract reads it.
    fn default() -> Bracket {
        Bracket::start(Flows::default(), Price::PAR)
    }
}

impl Bracket {
    /// The search before its first question, for two payments or more.
    pub fn start(flows: Flows, price: Price) -> Bracket
        requires many { 2 ≤ flows.n }
        requires price { 0 < price }
        ensures start { result ≡ spec.start_of flows price }
        ensures answered { (verdict : ℕ → Verdict) → IsVerdictKept verdict result }
    {
        Bracket {
            flows,
            price,
            low: Place::BELOW,
            high: Place::ABOVE,
            at_high: Verdict::No,
            halvings: 0,
        }
    }

    pub(crate) fn flows(&self) -> &Flows
        ensures { result.now ≡ self.now.series }
    {
        &self.flows
    }

    pub(crate) fn price(&self) -> Price
        ensures { result ≡ self.now.price }
    {
        self.price
    }

    /// The lower of the two, in thousandths of a percent.
    pub fn low(&self) -> i32
        ensures { result ≡ yield_at self.now.low }
    {
        self.low.thousandths()
    }

    /// The higher of the two.
    pub fn high(&self) -> i32
        ensures { result ≡ yield_at self.now.high }
    {
        self.high.thousandths()
    }

    /// How often it was halved.
    pub fn halvings(&self) -> u32
        ensures value { result ≡ self.now.halvings }
        // promise 10: no bracket is halved more than 19 times
        ensures few { result ≤ 19 }
    {
        self.halvings
    }

    /// The outcome, once the two are neighbours.
    pub fn settled(&self) -> Option<Outcome>
        // promise 2: none exactly if its questions are not at their end
        ensures { result ≡ settled_as self.now }
    {
        if self.high.follows(self.low) {
            Some(outcome_at(self.low, self.at_high))
        } else {
            None
        }
    }

    /// Halves by the verdict on the next question. A yes raises the lower yield to its place, and any
    /// other verdict lowers the higher one to it.
    pub fn halve_known(&mut self, verdict: Verdict)
        requires open { spec.is_settled self.old ≡ false }
        // promise 2: a verdict that is known halves a bracket as if it had been asked
        ensures halved { (verdicts : PaymentSeries → ℕ → ℕ → Verdict)
            → verdicts self.old.series self.old.price (spec.question self.old) ≡ verdict
            → self.new ≡ spec.halved verdicts self.old }
        ensures count { self.new.halvings ≡ self.old.halvings + 1 }
        ensures series { self.new.series ≡ self.old.series }
        ensures price { self.new.price ≡ self.old.price }
    {
        let question = self.question();
        self.answer(question, verdict);
    }

    /// What is asked next.
    pub(crate) fn question(&self) -> Question
        requires { spec.is_settled self.now ≡ false }
        ensures value { result ≡ spec.question self.now }
        ensures between { IsQuestion self.now result }
    {
        if self.low == Place::BELOW {
            Question::FIRST
        } else if self.high == Place::ABOVE {
            Question::LAST
        } else {
            Question::between(self.low, self.high)
        }
    }

    fn answer(&mut self, question: Question, verdict: Verdict)
        requires open { spec.is_settled self.old ≡ false }
        requires question { IsQuestion self.old question }
        ensures { self.new ≡ spec.answered verdict question self.old }
    {
        self.halvings += 1;
        match verdict {
            Verdict::Yes => self.low = question.place(),
            Verdict::No | Verdict::Unsure => {
                self.high = question.place();
                self.at_high = verdict;
            }
        }
    }
}

/// What holds of every search.
pub fn searches_are_in_order(bracket: &Bracket)
    ensures places { IsBracket bracket.now }
    ensures series { IsSeries bracket.now.series }
{
    flows_are_in_range(&bracket.flows);
}

// The outcome between a place and the next one.
fn outcome_at(low: Place, at_high: Verdict) -> Outcome
    ensures { result ≡ outcome_at low at_high }
{
    if at_high == Verdict::Unsure {
        return Outcome::Unsure {
            lower: low.thousandths(),
        };
    }
    if low == Place::BELOW {
        Outcome::Below
    } else if low == Question::LAST.place() {
        Outcome::Above
    } else {
        Outcome::Print(low.printed())
    }
}
