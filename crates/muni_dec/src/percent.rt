//! Percentages on either side of zero, each kind with its places and its range.

ghost use Rattle.std.specs.Prelude.{◌≡◌, ◌≤◌};
ghost use Rattle.arrayvec.specs.ArrayVec.{array_vec_len};
ghost use Rattle.muni_dec.specs.Decimal.{signed_text};
ghost use Rattle.muni_dec.specs.Ranges.{IsPercent};
ghost use Rattle.muni_dec.specs.Values.{percent_reading, if_percent, yield_reading, if_yield, yield_text, if_printed_yield, printed_yield_text};

use crate::DecFault;
use crate::decimal::{push_signed, read_signed};
use arrayvec::ArrayVec;
use std::marker::Model;

/// A percentage with a number of places, from the least number of units of the last place, which is
/// below zero, to the greatest.
#[derive(Clone, Copy, Debug, PartialEq, Eq, PartialOrd, Ord)]
pub struct Percent<const PLACES: usize, const BELOW: u32, const GREATEST: u32> {
    units: i64,
}

/// A given yield or a discount rate, from -99.9999 to 999.9999 percent a year, in units of 0.0001
/// percent.
///
/// A yield is compounded semi-annually with more than six months to redemption. It is simple
/// interest by the basis with one payment to come, and a simple return for a discount.
pub type Yield = Percent<4, 999_999, 9_999_999>;

/// A printed yield, from -90.000 to 999.999 percent a year, in units of 0.001 percent.
pub type Yield3 = Percent<3, 90_000, 999_999>;

impl<const PLACES: usize, const BELOW: u32, const GREATEST: u32> Model
    for Percent<PLACES, BELOW, GREATEST> {
    ghost use Rattle.std.specs.Prelude.{ℤ};
    ghost use Rattle.muni_dec.specs.Ranges.{IsPercent};

    ghost Value = { ℤ };

    ghost view = { λ percent. percent.units };

    ghost invariant = { λ percent. IsPercent BELOW GREATEST percent.units };

    ghost inverse = { λ units. record { units = units } };
}

impl<const PLACES: usize, const BELOW: u32, const GREATEST: u32> Percent<PLACES, BELOW, GREATEST> {
    /// The percentage of a number of units.
    pub fn new(units: i64) -> Self
        requires { IsPercent BELOW GREATEST units }
        ensures { result ≡ units }
    {
        Percent { units }
    }

    /// The number of units.
    pub fn units(&self) -> i64
        // promise 10: a percentage has the number of which it was made
        ensures value { result ≡ self.now }
        ensures range { IsPercent BELOW GREATEST result }
    {
        self.units
    }

    // Replaces the text by the percentage with all its places.
    fn print_places(&self, text: &mut ArrayVec<u8, 32>)
        requires { (1 ≤ PLACES) × (PLACES ≤ 7) }
        ensures items { text.new.items ≡ signed_text PLACES self.now }
        ensures len { array_vec_len text.new ≤ 29 }
    {
        text.clear();
        push_signed(text, self.units, PLACES);
    }

    // The percentage of a number of units, if they lie in its range.
    fn in_range(units: i64) -> Option<Self>
        ensures { result ≡ if_percent BELOW GREATEST units }
    {
        if units < -i64::from(BELOW) || units > i64::from(GREATEST) {
            return None;
        }
        Some(Percent { units })
    }

    #[tactic(auto, unfolding(crate::specs::Values::percent_reading))]
    fn read_places(text: &[u8]) -> Result<Self, DecFault>
        requires places { PLACES ≤ 7 }
        ensures { result ≡ percent_reading PLACES BELOW GREATEST text.now }
    {
        Self::in_range(read_signed(text, PLACES)?).ok_or(DecFault::OutOfRange)
    }
}

impl Yield {
    /// Reads a yield in percent with at most four decimals, as `-0.5`.
    #[tactic(auto, unfolding(crate::specs::Values::yield_reading))]
    pub fn read(text: &[u8]) -> Result<Yield, DecFault>
        // promise 4: a yield is read exactly by its format and range
        ensures { result ≡ yield_reading text.now }
    {
        Yield::read_places(text)
    }

    /// The yield of a number of units, from -999,999 to 9,999,999.
    pub fn of(units: i64) -> Option<Yield>
        // promise 10: a yield is made of a number in its range, and of no other
        ensures { result ≡ if_yield units }
    {
        Yield::in_range(units)
    }

    /// Replaces the text by the yield with all its four decimals.
    pub fn print_into(&self, text: &mut ArrayVec<u8, 32>)
        // promise 2: a yield is written with its decimals
        ensures items { text.new.items ≡ yield_text self.now }
        ensures len { array_vec_len text.new ≤ 29 }
    {
        self.print_places(text);
    }
}

impl Yield3 {
    /// The printed yield of a number of units, from -90,000 to 999,999.
    pub fn of(units: i64) -> Option<Yield3>
        // promise 10: a printed yield is made of a number in its range, and of no other
        ensures { result ≡ if_printed_yield units }
    {
        Yield3::in_range(units)
    }

    /// Replaces the text by the yield with all its three decimals.
    pub fn print_into(&self, text: &mut ArrayVec<u8, 32>)
        // promise 2: a printed yield is written with three decimals
        ensures items { text.new.items ≡ printed_yield_text self.now }
        ensures len { array_vec_len text.new ≤ 29 }
    {
        self.print_places(text);
    }
}
