//! How many trades a desk may have.

ghost use Rattle.std.specs.Prelude.{◌≡◌, ◌≤◌};

use std::marker::Model;

/// The most trades of a desk: from 1 to 100,000,000.
#[derive(Clone, Copy, Debug, PartialEq, Eq)]
pub struct DeskLimit {
    trades: u32,
}

impl Model for DeskLimit {
    ghost use Rattle.std.specs.Prelude.{◌≤◌, ℕ};

    ghost Value = { ℕ };

    ghost view = { λ limit. limit.trades };

    ghost invariant = { λ limit. (1 ≤ limit.trades) × (limit.trades ≤ 100_000_000) };

    ghost inverse = { λ trades. record { trades = trades } };
}

impl DeskLimit {
    /// The limit if none is given.
    pub const USUAL: DeskLimit = DeskLimit { trades: 100_000 };

    /// A number of trades, from 1 to 100,000,000.
    pub fn new(trades: u32) -> DeskLimit
        requires { (1 ≤ trades) × (trades ≤ 100_000_000) }
        ensures { result ≡ trades }
    {
        DeskLimit { trades }
    }

    /// How many trades they are.
    pub fn trades(self) -> u32
        ensures value { result ≡ self }
        ensures range { (1 ≤ result) × (result ≤ 100_000_000) }
    {
        self.trades
    }
}
