//! How many workers may compute.

ghost use Rattle.std.specs.Prelude.{◌≡◌, ◌≤◌};

use std::marker::Model;

/// How many workers may compute at once, from 1 to 16. What is answered does not depend on it.
#[derive(Clone, Copy, Debug, PartialEq, Eq)]
pub struct Workers {
    count: u32,
}

impl Model for Workers {
    ghost use Rattle.std.specs.Prelude.{◌≤◌, ℕ};

    ghost Value = { ℕ };

    ghost view = { λ workers. workers.count };

    ghost invariant = { λ workers. (1 ≤ workers.count) × (workers.count ≤ 16) };

    ghost inverse = { λ count. record { count = count } };
}

impl Workers {
    /// A worker alone.
    pub const ONE: Workers = Workers { count: 1 };

    /// A number of workers, from 1 to 16.
    pub fn new(count: u32) -> Workers
        requires { (1 ≤ count) × (count ≤ 16) }
        ensures { result ≡ count }
    {
        Workers { count }
    }

    /// How many they are.
    pub fn count(&self) -> u32
        ensures value { result ≡ self.now }
        ensures range { (1 ≤ result) × (result ≤ 16) }
    {
        self.count
    }
}
