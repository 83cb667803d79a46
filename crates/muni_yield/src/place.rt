//! Places among the printed yields, and the question that is asked at one.

ghost use Rattle.std.specs.Prelude.{◌≡◌, ◌+◌, ◌-◌, ◌*◌, ◌/◌, ◌==◌, ◌≤◌, ◌<◌, min, nat_lt};
ghost use Rattle.muni_rule.specs.PrintedYield as rule;
ghost use Rattle.muni_rule.specs.Ranges.{IsManyPeriodsBoundary};
ghost use Rattle.muni_multi.specs.Readings.{is_clear};
ghost use Rattle.muni_yield.specs.Places as spec;

use muni_dec::{Price, Yield3};
use muni_multi::{Annuity, Discount, Encloser, Reading, at_least_at, more_at};
use muni_terms::Flows;
use std::marker::Model;

/// A place among the printed yields, in thousandths of a percent from -5.001 up to 100.002. Nothing is
/// asked at the first and at the last.
#[derive(Clone, Copy, Debug, PartialEq, Eq)]
pub struct Place {
    steps: u32,
}

impl Model for Place {
    ghost use Rattle.std.specs.Prelude.{◌≤◌, ℕ};

    ghost Value = { ℕ };

    ghost view = { λ place. place.steps };

    ghost invariant = { λ place. place.steps ≤ 105_003 };

    ghost inverse = { λ steps. record { steps = steps } };
}

impl Default for Place {
    /// An empty slot of a list. No contract reads it.
    fn default() -> Place {
        Place::BELOW
    }
}

impl Place {
    /// Below the range. It counts as reached.
    pub const BELOW: Place = Place { steps: 0 };

    /// Above the range. It counts as not reached.
    pub const ABOVE: Place = Place { steps: 105_003 };

    /// A yield of zero. Its boundary is below zero.
    pub(crate) const ZERO: Place = Place { steps: 5_001 };

    /// The least yield above zero, whose boundary is above zero too.
    pub(crate) const ABOVE_ZERO: Place = Place { steps: 5_002 };

    /// The nearest to a number of steps, short of the last.
    pub(crate) fn near(steps: i64) -> Place {
        Place {
            steps: steps.clamp(0, 105_002) as u32,
        }
    }

    /// The yield, in thousandths of a percent.
    pub fn thousandths(self) -> i32
        ensures { result ≡ spec.yield_at self }
    {
        self.steps as i32 - 5_001
    }

    /// The yield as it is printed.
    pub(crate) fn printed(self) -> Yield3
        ensures { result ≡ spec.yield_at self }
    {
        Yield3::new(i64::from(self.thousandths()))
    }

    /// Whether it is below another place.
    pub fn is_below(self, other: Place) -> bool
        ensures { result ≡ nat_lt self other }
    {
        self.steps < other.steps
    }

    /// Whether it is the next one above another place.
    pub(crate) fn follows(self, other: Place) -> bool
        ensures { result ≡ (self == other + 1) }
    {
        self.steps == other.steps + 1
    }

    /// The lower of two places.
    pub fn lower(self, other: Place) -> Place
        ensures { result ≡ min self other }
    {
        Place {
            steps: self.steps.min(other.steps),
        }
    }

    /// The higher of two places.
    pub fn higher(self, other: Place) -> Place {
        Place {
            steps: self.steps.max(other.steps),
        }
    }

    /// The next place, or the last one again.
    pub fn next(self) -> Place {
        Place {
            steps: self.steps.saturating_add(1).min(105_003),
        }
    }

    /// The place before, or the first one again.
    pub fn before(self) -> Place {
        Place {
            steps: self.steps.saturating_sub(1),
        }
    }
}

/// Whether the yield at a price is printed as the one at a place or above. It is asked at each place
/// from -5.000 to 100.001 percent.
#[derive(Clone, Copy, Debug, PartialEq, Eq)]
pub struct Question {
    steps: u32,
}

impl Model for Question {
    ghost use Rattle.std.specs.Prelude.{◌≤◌, ℕ};

    ghost Value = { ℕ };

    ghost view = { λ question. question.steps };

    ghost invariant = { λ question. (1 ≤ question.steps) × (question.steps ≤ 105_002) };

    ghost inverse = { λ steps. record { steps = steps } };
}

impl Question {
    /// At the least yield, -5.000 percent.
    pub const FIRST: Question = Question { steps: 1 };

    /// At 100.001 percent.
    pub(crate) const LAST: Question = Question { steps: 105_002 };

    /// In the middle of two places that are not next to each other.
    pub(crate) fn between(low: Place, high: Place) -> Question
        requires { low + 1 < high }
        ensures { result ≡ low + (high - low) / 2 }
    {
        Question {
            steps: low.steps + (high.steps - low.steps) / 2,
        }
    }

    /// The nearest to a place.
    pub fn near(place: Place) -> Question {
        Question {
            steps: place.steps.clamp(1, 105_002),
        }
    }

    /// Where it is asked.
    pub fn place(self) -> Place
        ensures value { result ≡ self }
        ensures range { (1 ≤ result) × (result ≤ 105_002) }
    {
        Place { steps: self.steps }
    }

    /// Where the yields begin that are printed as the one at its place or above, in 10^-6.
    pub fn boundary(self) -> i32
        ensures value { result ≡ rule.boundary (spec.yield_at self) }
        ensures range { IsManyPeriodsBoundary result }
    {
        10 * self.place().thousandths() - 5
    }

    /// The annuity of its yield on a day of an interest period, without payments.
    pub fn annuity(self, a: u32) -> Annuity
        requires { a ≤ 180 }
        ensures { result.discount.y ≡ rule.boundary (spec.yield_at self) }
    {
        Annuity::none(Discount::at(self.boundary(), a))
    }

    /// The answer. No discount is computed if the one at hand is that of the question.
    pub(crate) fn ask<E: Encloser>(
        self,
        encloser: &E,
        flows: &Flows,
        price: Price,
        kept: Option<&Discount>,
    ) -> Reading
        requires many { 2 ≤ flows.now.n }
        ensures verdict { result.verdict ≡ spec.place_verdict (E.ends encloser.now) flows.now
            price self }
        ensures clear { result.clear ≡ is_clear result.verdict
            (spec.ends_at (E.ends encloser.now) flows.now self)
            (360_000 * price + flows.now.accrued) }
    {
        let discount = Discount::kept_or_at(kept, self.boundary(), flows.a());
        if self.steps > Place::ZERO.steps {
            at_least_at(encloser, flows, &discount, price)
        } else {
            more_at(encloser, flows, &discount, price)
        }
    }
}
