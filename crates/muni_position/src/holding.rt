//! What is summed of one security.

ghost use Rattle.std.specs.Prelude.{◌≡◌, ◌≢◌, ◌+◌, ◌≤◌, None, IfSome};
ghost use Rattle.muni_position.specs.Holding as spec;
ghost use Rattle.muni_position.specs.Holding.{IsBounded, IsInRange, plus, position_in};
ghost use Rattle.muni_position.specs.Positions as positions;
ghost use Rattle.muni_position.specs.declared.holding.Holding.{Holding};

use crate::position::Position;
use muni_msg::{Act, Side, Version};

/// As many trades as a desk may have.
pub(crate) const MOST_TRADES: u32 = 100_000_000;

/// The sums of one security over the live trades.
#[derive(Clone, Copy, Debug)]
pub(crate) struct Holding {
    pub live: u32,
    /// The par that was bought and that was sold, in dollars.
    pub bought: u64,
    pub sold: u64,
    /// The money that was paid and that was received, in cents.
    pub paid: u128,
    pub received: u128,
}

impl Holding {
    /// No trade is live.
    pub(crate) fn nothing() -> Holding
        ensures value { result ≡ spec.nothing }
        ensures range { IsInRange result }
    {
        Holding {
            live: 0,
            bought: 0,
            sold: 0,
            paid: 0,
            received: 0,
        }
    }

    /// What a version adds to the holding of a CUSIP.
    #[tactic(auto, unfolding(crate::specs::Holding::share))]
    pub(crate) fn share(cusip: &[u8; 9], version: &Version) -> Holding
        ensures value { result ≡ spec.share cusip.now version.now }
        ensures range { IsInRange result }
        ensures one { result.live ≤ 1 }
        ensures bounded { IsBounded version.now }
    {
        let par = version.terms.asked.par.units();
        let total = u128::from(version.figures.total.units());
        if !counts(cusip, version) {
            return Holding::nothing();
        }
        one(version.terms.asked.side, par, total)
    }

    /// What the last version of a trade adds, if any is kept.
    pub(crate) fn share_of_last(cusip: &[u8; 9], last: &Option<(u32, Version)>) -> Holding
        ensures value { result ≡ spec.share_of_last cusip.now last.now }
        ensures range { IsInRange result }
        ensures one { result.live ≤ 1 }
    {
        match last {
            Some((_, version)) => Holding::share(cusip, version),
            None => Holding::nothing(),
        }
    }

    /// The holding with one more, for which there is room.
    pub(crate) fn plus(&self, more: &Holding) -> Holding
        requires range { IsInRange self.now }
        requires more { IsInRange more.now }
        requires room { self.now.live + more.now.live ≤ 100_000_000 }
        ensures value { result ≡ plus self.now more.now }
        ensures range { IsInRange result }
    {
        Holding {
            live: self.live + more.live,
            bought: self.bought + more.bought,
            sold: self.sold + more.sold,
            paid: self.paid + more.paid,
            received: self.received + more.received,
        }
    }

    /// The holding with one share more and another less, if that is one.
    pub(crate) fn moved(&self, more: &Holding, less: &Holding) -> Option<Holding>
        requires range { IsInRange self.now }
        requires more { IsInRange more.now }
        requires one { more.now.live ≤ 1 }
        ensures value { IfSome result (λ h. plus h less.now ≡ plus self.now more.now) }
        ensures range { IfSome result (λ h. IsInRange h) }
        ensures none { result ≡ None → (h : Holding) → IsInRange h → plus h less.now ≢ plus self.now more.now }
    {
        let moved = Holding {
            live: (self.live + more.live).checked_sub(less.live)?,
            bought: (self.bought + more.bought).checked_sub(less.bought)?,
            sold: (self.sold + more.sold).checked_sub(less.sold)?,
            paid: (self.paid + more.paid).checked_sub(less.paid)?,
            received: (self.received + more.received).checked_sub(less.received)?,
        };
        if moved.is_in_range() {
            Some(moved)
        } else {
            None
        }
    }

    /// The position that it comes to.
    pub(crate) fn position(&self) -> Position
        requires { IsInRange self.now }
        ensures { result ≡ position_in self.now }
    {
        Position {
            live: self.live,
            bought: self.bought,
            sold: self.sold,
            money: self.paid as i128 - self.received as i128,
        }
    }
}

impl Holding {
    ghost use Rattle.std.specs.Prelude.{◌↔◌, true};

    fn is_in_range(&self) -> bool
        requires { (self.now.live ≤ 100_000_001) × (self.now.bought ≤ 200_000_000_000_000_000) × (self.now.sold ≤ 200_000_000_000_000_000) × (self.now.paid ≤ 2_000_000_000_000_000_000_000_000_000) × (self.now.received ≤ 2_000_000_000_000_000_000_000_000_000) }
        ensures { (result ≡ true) ↔ IsInRange self.now }
    {
        let most_par = u64::from(self.live) * 1_000_000_000;
        let most_money = u128::from(self.live) * 9_223_372_036_854_775_807;
        self.live <= MOST_TRADES
            && self.bought + self.sold <= most_par
            && self.paid + self.received <= most_money
    }
}

// Whether a version counts for a CUSIP.
fn counts(cusip: &[u8; 9], version: &Version) -> bool
    ensures { result ≡ positions.counts cusip.now version.now }
{
    is_live(version.act) && version.terms.asked.cusip == *cusip
}

fn is_live(act: Act) -> bool
    ensures { result ≡ positions.is_live act }
{
    match act {
        Act::Entered | Act::Corrected => true,
        Act::Canceled => false,
    }
}

// The holding of one trade, by its side.
fn one(side: Side, par: u64, total: u128) -> Holding
    requires par { par ≤ 1_000_000_000 }
    requires total { total ≤ 9_223_372_036_854_775_807 }
    ensures value { result ≡ spec.one side par total }
    ensures range { IsInRange result }
    ensures one { result.live ≤ 1 }
{
    match side {
        Side::Buy => Holding {
            live: 1,
            bought: par,
            sold: 0,
            paid: total,
            received: 0,
        },
        Side::Sell => Holding {
            live: 1,
            bought: 0,
            sold: par,
            paid: 0,
            received: total,
        },
    }
}
