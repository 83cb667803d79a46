//! How many rows there are, and what is said of them.

ghost use Rattle.std.specs.Prelude.{◌≡◌, ◌<◌, ◌≤◌, ◌+◌, ◌^◌, IfOk, OnErr, IsOkUnless};
ghost use Rattle.muni_check_rows.specs.Tallies as spec;

use crate::said::CheckSaid;
use muni_desk_io::Fault;

/// How many rows there are, how many are right and how many differ, in a figure or in a term; how many trades are
/// missing: those that rows name, and those for which no row came; and of how many rows the reference came before, or
/// nothing is stated.
#[derive(Clone, Copy, Debug, PartialEq, Eq)]
pub struct Tally {
    pub rows: u64,
    pub right: u64,
    pub differ: u64,
    pub missing: u128,
    pub again: u64,
    pub nothing: u64,
}

impl Tally {
    /// No row.
    pub fn new() -> Tally
        ensures value { result ≡ spec.no_tally }
        ensures small { spec.IsSmall result }
    {
        Tally {
            rows: 0,
            right: 0,
            differ: 0,
            missing: 0,
            again: 0,
            nothing: 0,
        }
    }

    /// The place of the next row. One that would not be below 2^64 is too many.
    pub fn next_place(&self) -> Result<u64, Fault>
        ensures place { IfOk result (λ place. place ≡ self.now.rows + 1) }
        ensures full { OnErr result (2 ^ 64 ≤ self.now.rows + 1) }
        ensures only { IsOkUnless result Fault.TooLarge }
    {
        self.rows.checked_add(1).ok_or(Fault::TooLarge)
    }

    /// Counts one row more.
    pub fn add(&mut self, said: &CheckSaid)
        requires small { spec.IsSmall self.old }
        requires room { self.old.rows + 1 < 2 ^ 64 }
        ensures added { self.new ≡ spec.with_said self.old said.now }
        ensures small { spec.IsSmall self.new }
    {
        self.rows += 1;
        match said {
            CheckSaid::Right => self.right += 1,
            CheckSaid::Differs { .. } | CheckSaid::OtherTerm(_) => self.differ += 1,
            CheckSaid::Missing { .. } => self.missing += 1,
            CheckSaid::Again { .. } => self.again += 1,
            CheckSaid::Nothing => self.nothing += 1,
            CheckSaid::Undecided { .. } | CheckSaid::Refused { .. } | CheckSaid::Bad(_) => {}
        }
    }

    /// With so many missing trades more.
    pub fn with_missing(&self, more: u128) -> Tally
        requires small { spec.IsSmall self.now }
        requires few { more < 2 ^ 70 }
        ensures { result ≡ spec.with_missing self.now more }
    {
        Tally {
            missing: self.missing + more,
            ..*self
        }
    }

    /// Every row is right, and no trade is missing.
    pub fn are_all_right(&self) -> bool
        ensures { result ≡ spec.are_all_right self.now }
    {
        self.right == self.rows && self.missing == 0
    }
}
