//! A count of faults.

ghost use Rattle.std.specs.Prelude.{◌≡◌, ◌≤◌};
ghost use Rattle.muni_edge.specs.Calls.{one_more, raised};

use crate::fault::Failed;
use std::marker::Model;

/// How often an object has failed. The count stays at the last value of its type.
#[derive(Debug, Drop)]
pub struct Faults {
    count: u64,
}

impl Model for Faults {
    ghost use Rattle.std.specs.Prelude.{ℕ};

    ghost Value = { ℕ };

    ghost view = { λ faults. faults.count };
}

impl Faults {
    /// No fault was counted yet.
    pub fn none() -> Faults
        ensures { result ≡ 0 }
    {
        Faults { count: 0 }
    }

    /// Counts a fault.
    pub fn fail(&mut self) -> Failed
        ensures counted { self.new ≡ one_more self.old }
        ensures later { self.old ≤ self.new }
    {
        self.count = self.count.saturating_add(1);
        Failed
    }

    /// Adds those of another object.
    pub fn add(&mut self, others: &Faults)
        ensures added { self.new ≡ raised self.old others.now }
        ensures later { self.old ≤ self.new }
    {
        self.count = self.count.saturating_add(others.count);
    }
}
