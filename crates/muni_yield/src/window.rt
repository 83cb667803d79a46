//! The places at which the verdict is known without a question.

ghost use Rattle.std.specs.Prelude.{◌≡◌};
ghost use Rattle.muni_yield.specs.Known as spec;

use crate::{Place, Question};
use muni_dec::Price;
use muni_multi::{Reading, Verdict, total};
use muni_terms::Flows;

/// Up to the place `yes` each verdict is Yes, and from the place `no` on each is No.
///
/// The price falls as the yield rises. So a verdict that is clear at one place settles those on one
/// side of it, whatever the ends of the worth are there.
#[derive(Clone, Copy, Debug, PartialEq, Eq, Default)]
pub struct Window {
    yes: Place,
    no: Place,
}

impl Window {
    /// What the sum of the payments settles, which is their price at a yield of zero.
    pub fn first(flows: &Flows, price: Price) -> Window
        ensures { result ≡ spec.window_first flows.now price }
    {
        let sum = total(flows);
        let dirty = 360_000 * price.units() + flows.accrued();
        if dirty + 360 <= sum {
            Window {
                yes: Place::ZERO,
                no: Place::ABOVE,
            }
        } else if sum + 360 < dirty {
            Window {
                yes: Place::BELOW,
                no: Place::ABOVE_ZERO,
            }
        } else {
            Window {
                yes: Place::BELOW,
                no: Place::ABOVE,
            }
        }
    }

    /// The highest place that is known to be reached, or the one below the range.
    pub fn yes(&self) -> Place
        ensures { result ≡ self.now.yes }
    {
        self.yes
    }

    /// The lowest place that is known not to be reached, or the one above the range.
    pub fn no(&self) -> Place
        ensures { result ≡ self.now.no }
    {
        self.no
    }

    pub(crate) fn verdict_at(&self, place: Place) -> Option<Verdict>
        ensures { result ≡ spec.known_at self.now place }
    {
        if !self.yes.is_below(place) {
            Some(Verdict::Yes)
        } else if !place.is_below(self.no) {
            Some(Verdict::No)
        } else {
            None
        }
    }

    pub(crate) fn learn(&mut self, place: Place, reading: Reading)
        ensures { self.new ≡ spec.learnt place reading self.old }
    {
        if !reading.clear {
            return;
        }
        match reading.verdict {
            Verdict::Yes => self.yes = place,
            Verdict::No => self.no = place,
            Verdict::Unsure => {}
        }
    }

    // What payments settle that are worth 10^-9 dollars more than the price at a place.
    pub(crate) fn reach(&mut self, place: Place)
        ensures { self.new ≡ spec.window_at place self.old.no }
    {
        self.yes = place;
    }

    /// Whether more than one verdict is open.
    pub fn is_wide(&self) -> bool {
        self.yes.next().next().is_below(self.no)
    }

    /// Whether more than one is, and that on a question.
    pub fn is_open_at(&self, question: Question) -> bool {
        let place = question.place();
        self.is_wide() && self.yes.is_below(place) && place.is_below(self.no)
    }
}
