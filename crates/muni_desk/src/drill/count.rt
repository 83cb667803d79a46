//! How many trades a drill prices.

ghost use Rattle.std.specs.Prelude.{◌≡◌, ◌≤◌};

use std::marker::Model;

/// How many trades a drill prices, from 0 to 1,000.
#[derive(Clone, Copy)]
pub struct DrillCount {
    trades: u64,
}

impl Model for DrillCount {
    ghost use Rattle.std.specs.Prelude.{◌≤◌, ℕ};

    ghost Value = { ℕ };

    ghost view = { λ count. count.trades };

    ghost invariant = { λ count. count.trades ≤ 1_000 };

    ghost inverse = { λ trades. record { trades = trades } };
}

impl DrillCount {
    /// A number of trades, at most 1,000.
    pub fn new(trades: u64) -> DrillCount
        requires { trades ≤ 1_000 }
        ensures { result ≡ trades }
    {
        DrillCount { trades }
    }

    /// How many they are.
    pub fn trades(&self) -> u64
        ensures value { result ≡ self.now }
        ensures range { result ≤ 1_000 }
    {
        self.trades
    }
}
