//! The calls of an object in memory, some of which are to fail.

ghost use Rattle.std.specs.Prelude.{◌≡◌, ◌≤◌, IfOk, is_ok, not};
ghost use Rattle.muni_edge.specs.Calls.{none_made, is_listed, after_call, after_fault, raised};

use crate::fault::{Failed, NoMemory};
use crate::faults::Faults;
use std::alloc::Global;
use std::marker::Model;

/// The calls of an object in memory, numbered from 0: which of them fail, and the count of faults.
#[derive(Drop)]
pub struct Calls {
    failing: Vec<u64>,
    made: u64,
    faults: Faults,
}

impl Model for Calls {
    ghost use Rattle.muni_edge.specs.Calls.{CallState};

    ghost Value = { CallState };

    ghost view = { λ c. record { failing = c.failing.items; made = c.made; faults = c.faults } };
}

impl Calls {
    /// No call was made yet, and no fault counted. The calls with the listed numbers are to fail.
    pub fn new(alloc: Global, failing: &[u64]) -> Result<Calls, NoMemory>
        ensures { IfOk result (λ calls. calls ≡ none_made failing.now) }
    {
        Ok(Calls {
            failing: failing.to_vec(alloc)?,
            made: 0,
            faults: Faults::none(),
        })
    }

    /// Makes the next call, which fails if it is listed.
    pub fn make(&mut self) -> Result<(), Failed>
        ensures listed { is_ok result ≡ not (is_listed self.old) }
        ensures counted { self.new ≡ after_call self.old }
        ensures later { self.old.faults ≤ self.new.faults }
    {
        let listed = self.failing.contains(&self.made);
        self.made = self.made.saturating_add(1);
        if listed {
            return Err(self.fail());
        }
        Ok(())
    }

    /// Counts a fault.
    pub fn fail(&mut self) -> Failed
        ensures counted { self.new ≡ after_fault self.old }
        ensures later { self.old.faults ≤ self.new.faults }
    {
        self.faults.fail()
    }

    /// The count of faults.
    pub fn faults(&self) -> &Faults
        ensures { result.now ≡ self.now.faults }
    {
        &self.faults
    }

    /// Adds those of another object to the count of faults.
    pub fn add_faults(&mut self, faults: &Faults)
        ensures { self.new ≡ record self.old { faults = raised self.old.faults faults.now } }
    {
        self.faults.add(faults);
    }

    /// The same calls with no fault counted.
    pub fn uncounted(self) -> Calls
        ensures { result ≡ record self { faults = 0 } }
    {
        Calls {
            faults: Faults::none(),
            ..self
        }
    }
}
