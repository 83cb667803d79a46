//! Amounts between two whole ends, in 1/4096 of a unit, which is 1/(360 * 10^9) dollars per 100 of
//! par.

ghost use Rattle.std.specs.Prelude.{◌≡◌, ℕ, ◌+◌, ◌-◌, ◌*◌, ◌/◌, ◌^◌, ◌<◌, ◌≤◌};
ghost use Rattle.muni_span.specs.Holding.{HoldsPower};

use crate::rounding::Rounding;
use crate::span::Span;
use std::marker::Model;

/// The amounts from `lo` to `hi`, in 1/4096 of a unit.
#[derive(Clone, Copy, Debug, PartialEq, Eq)]
pub struct Worth {
    lo: u128,
    hi: u128,
    ghost ordered: { lo ≤ hi },
}

impl Model for Worth {
    ghost use Rattle.muni_span.specs.Ends.{Ends};

    ghost Value = { Ends };

    ghost view = { λ w. record { lo = w.lo; hi = w.hi; ordered = w.ordered } };

    ghost inverse = { λ e. record { lo = e.lo; hi = e.hi; ordered = e.ordered } };
}

/// An amount of whole units, exactly: both ends are it.
pub fn of(units: u64) -> Worth
    requires { units < 2 ^ 52 }
    // promise 1: the lower end of an amount, as a whole number
    ensures lo { result.lo ≡ 4096 * units }
    // promise 1: its upper end
    ensures hi { result.hi ≡ 4096 * units }
    // promise 1: an amount stands between its ends
    ensures encloses { (j : ℕ) → HoldsPower 4096 result.lo result.hi j (units ^ j) 1 }
{
    let amount = (units as u128) << 12;
    Worth::new(amount, amount)
}

impl Worth {
    /// The amounts between two ends, in 1/4096 of a unit.
    pub fn new(lo: u128, hi: u128) -> Worth
        requires ordered { lo ≤ hi }
        ensures lo { result.lo ≡ lo }
        ensures hi { result.hi ≡ hi }
    {
        Worth { lo, hi }
    }

    /// The lower end, in 1/4096 of a unit.
    pub fn lo(&self) -> u128
        ensures { result ≡ self.now.lo }
    {
        self.lo
    }

    /// The upper end, in 1/4096 of a unit.
    pub fn hi(&self) -> u128
        ensures { result ≡ self.now.hi }
    {
        self.hi
    }

    /// The sum, with nothing rounded.
    pub fn add(self, other: Worth) -> Worth
        requires bounded { self.hi + other.hi < 2 ^ 127 }
        // promise 1: the lower end of a sum, as a whole number
        ensures lo { result.lo ≡ self.lo + other.lo }
        // promise 1: its upper end
        ensures hi { result.hi ≡ self.hi + other.hi }

        // Sums of fractions. Their powers have no law of this kind.
        // promise 1: a sum stands between its ends
        ensures encloses { (n d m e : ℕ) → HoldsPower 4096 self.lo self.hi 1 n d →
            HoldsPower 4096 other.lo other.hi 1 m e →
            HoldsPower 4096 result.lo result.hi 1 (n * e + m * d) (d * e) }
    {
        Worth::new(self.lo + other.lo, self.hi + other.hi)
    }

    /// The product with a fraction. The product of the upper ends is below 2^127.
    pub fn scale(self, factor: Span) -> Worth
        requires bounded { self.hi * factor.hi < 2 ^ 127 * 2 ^ 60 }
        // promise 1: the lower end of a scaled amount, as a whole number
        ensures lo { result.lo ≡ self.lo * factor.lo / 2 ^ 60 }
        // promise 1: its upper end
        ensures hi { result.hi ≡ (self.hi * factor.hi + (2 ^ 60 - 1)) / 2 ^ 60 }

        // promise 1: a scaled amount stands between its ends
        ensures encloses { (j n d m e : ℕ) → HoldsPower 4096 self.lo self.hi j n d →
            HoldsPower (2 ^ 60) factor.lo factor.hi j m e →
            HoldsPower 4096 result.lo result.hi j (n * m) (d * e) }
    {
        let lo = Rounding::Down.scale(self.lo, factor.lo());
        let hi = Rounding::Up.scale(self.hi, factor.hi());
        Worth::new(lo, hi)
    }
}
