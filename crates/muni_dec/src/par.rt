ghost use Rattle.std.specs.Prelude.{◌≡◌, ◌≤◌, decimal};
ghost use Rattle.arrayvec.specs.ArrayVec.{array_vec_len};
ghost use Rattle.muni_dec.specs.Ranges.{IsAmount};
ghost use Rattle.muni_dec.specs.Values.{if_par, par_reading};

use crate::DecFault;
use crate::decimal::read_whole;
use crate::digits::push_digits;
use arrayvec::ArrayVec;
use std::marker::Model;

/// The par of a trade, from 1 to 1,000,000,000, in dollars.
#[derive(Clone, Copy, Debug, PartialEq, Eq, PartialOrd, Ord)]
pub struct Par {
    units: u64,
}

impl Model for Par {
    ghost use Rattle.std.specs.Prelude.{ℕ};
    ghost use Rattle.muni_dec.specs.Ranges.{IsAmount};

    ghost Value = { ℕ };

    ghost view = { λ par. par.units };

    ghost invariant = { λ par. IsAmount 1 1_000_000_000 par.units };

    ghost inverse = { λ units. record { units = units } };
}

impl Par {
    /// Reads a par in digits alone, as `25000`.
    #[tactic(auto, unfolding(crate::specs::Values::par_reading))]
    pub fn read(text: &[u8]) -> Result<Par, DecFault>
        // promise 4: a par is read exactly by its format and range
        ensures { result ≡ par_reading text.now }
    {
        Par::of(read_whole(text)?).ok_or(DecFault::OutOfRange)
    }

    /// The par of a number of dollars, from 1 to 1,000,000,000.
    pub fn of(units: u64) -> Option<Par>
        // promise 10: a par is made of a number in its range, and of no other
        ensures { result ≡ if_par units }
    {
        match units {
            1..=1_000_000_000 => Some(Par { units }),
            _ => None,
        }
    }

    /// The par of a number of dollars.
    pub fn new(units: u64) -> Par
        requires { IsAmount 1 1_000_000_000 units }
        ensures { result ≡ units }
    {
        Par { units }
    }

    /// The par in dollars.
    pub fn units(&self) -> u64
        // promise 10: a par has the number of which it was made
        ensures value { result ≡ self.now }
        ensures range { IsAmount 1 1_000_000_000 result }
    {
        self.units
    }

    /// Replaces the text by the par in digits alone.
    pub fn print_into(&self, text: &mut ArrayVec<u8, 32>)
        // promise 1: a par is written as a whole number
        ensures items { text.new.items ≡ decimal self.now }
        ensures len { array_vec_len text.new ≤ 20 }
    {
        text.clear();
        push_digits(text, self.units);
    }
}
