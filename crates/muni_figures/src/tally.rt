//! How many rows there are, and what they come to.

ghost use Rattle.std.specs.Prelude.{◌≡◌, ◌+◌, ◌<◌, ◌^◌};
ghost use Rattle.muni_figures.specs.Done.{IsSmall, no_tally, tally_of, tally_sum};

use crate::said::FiguresSaid;

/// How many rows there are, how many of them have figures, and the sum of their totals in cents.
#[derive(Clone, Copy, Debug, PartialEq, Eq)]
pub(crate) struct Tally {
    pub rows: u64,
    pub priced: u64,
    pub sum: u128,
}

impl Tally {
    /// No row.
    pub(crate) fn new() -> Tally
        ensures value { result ≡ no_tally }
        ensures small { IsSmall result }
    {
        Tally {
            rows: 0,
            priced: 0,
            sum: 0,
        }
    }

    /// Counts one row more.
    pub(crate) fn add(&mut self, said: &FiguresSaid)
        requires room { self.old.rows + 1 < 2 ^ 64 }
        requires small { IsSmall self.old }
        ensures value { self.new ≡ tally_sum self.old (tally_of said.now) }
        ensures small { IsSmall self.new }
    {
        self.rows += 1;
        if let FiguresSaid::Priced { figures, .. } = said {
            self.priced += 1;
            self.sum += u128::from(figures.total.units());
        }
    }

    /// With other rows.
    pub(crate) fn plus(&self, other: &Tally) -> Tally
        requires room { self.now.rows + other.now.rows < 2 ^ 64 }
        requires small { IsSmall self.now }
        requires others { IsSmall other.now }
        ensures value { result ≡ tally_sum self.now other.now }
        ensures small { IsSmall result }
    {
        Tally {
            rows: self.rows + other.rows,
            priced: self.priced + other.priced,
            sum: self.sum + other.sum,
        }
    }
}
