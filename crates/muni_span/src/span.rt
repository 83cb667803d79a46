//! Fractions between two whole ends, in units of 2^-60.

ghost use Rattle.std.specs.Prelude.{◌≡◌, ℕ, ◌+◌, ◌-◌, ◌*◌, ◌/◌, ◌^◌, ◌<◌, ◌≤◌};
ghost use Rattle.muni_rule.specs.ManyPeriods.{discount_divisor};
ghost use Rattle.muni_rule.specs.Ranges.{IsManyPeriodsBoundary};
ghost use Rattle.muni_span.specs.Fractions.{IsAtMost};
ghost use Rattle.muni_span.specs.Holding.{HoldsPower};
ghost use Rattle.muni_span.specs.Powers.{product_end, power_from_half, power_low, power_high};
ghost use Rattle.muni_span.specs.Widths.{whole_above};

use crate::rounding::Rounding;
use std::marker::Model;

/// The fractions from `lo` to `hi`, in units of 2^-60.
#[derive(Clone, Copy, Debug, PartialEq, Eq)]
pub struct Span {
    lo: u64,
    hi: u64,
    ghost ordered: { lo ≤ hi },
}

impl Model for Span {
    ghost use Rattle.muni_span.specs.Ends.{Ends};

    ghost Value = { Ends };

    ghost view = { λ s. record { lo = s.lo; hi = s.hi; ordered = s.ordered } };

    ghost inverse = { λ e. record { lo = e.lo; hi = e.hi; ordered = e.ordered } };
}

impl Span {
    /// The fractions between two ends, in units of 2^-60.
    pub fn new(lo: u64, hi: u64) -> Span
        requires ordered { lo ≤ hi }
        ensures lo { result.lo ≡ lo }
        ensures hi { result.hi ≡ hi }
    {
        Span { lo, hi }
    }

    /// The lower end, in units of 2^-60.
    pub fn lo(&self) -> u64
        ensures { result ≡ self.now.lo }
    {
        self.lo
    }

    /// The upper end, in units of 2^-60.
    pub fn hi(&self) -> u64
        ensures { result ≡ self.now.hi }
    {
        self.hi
    }

    /// The k-th power, by squaring. As a fraction, the power of the upper end is at most 15.
    pub fn power(self, k: u32) -> Span
        requires few { k ≤ 180 }
        requires bounded { self.hi ^ k ≤ 15 * (2 ^ 60) ^ k }
        // promise 1: the lower end of a power, as a whole number
        ensures lo { result.lo ≡ power_low self.lo k }
        // promise 1: its upper end
        ensures hi { result.hi ≡ power_high self.hi k }

        // promise 1: its lower end is not above the power of the lower end
        ensures below { IsAtMost result.lo (2 ^ 60) (self.lo ^ k) ((2 ^ 60) ^ k) }
        // promise 1: its upper end is not below that of the upper end
        ensures above { IsAtMost (self.hi ^ k) ((2 ^ 60) ^ k) result.hi (2 ^ 60) }
        // promise 1: a power stands between its ends
        ensures encloses { (j n d : ℕ) → HoldsPower (2 ^ 60) self.lo self.hi j n d →
            HoldsPower (2 ^ 60) result.lo result.hi j (n ^ k) (d ^ k) }
        // promise 1: its ends are at most k * (w + 2) * m apart
        ensures width { result.hi - result.lo ≤
            k * (self.hi - self.lo + 2) * whole_above result.hi }
    {
        let lo = Rounding::Down.power(self.lo, k);
        let hi = Rounding::Up.power(self.hi, k);
        Span::new(lo, hi)
    }

    /// The k-th power, from that of half as high an exponent, rounded down to a whole number.
    pub fn power_from_half(self, half: Span, k: u32) -> Span
        ensures lo { result.lo ≡ power_from_half (product_end 0) self.lo k half.lo }
        ensures hi { result.hi ≡ power_from_half (product_end (2 ^ 60 - 1)) self.hi k half.hi }
    {
        let lo = Rounding::Down.power_from_half(half.lo, self.lo, k);
        let hi = Rounding::Up.power_from_half(half.hi, self.hi, k);
        Span::new(lo, hi)
    }
}

/// The discount factor of one half-year at a yield in millionths (MSRB Rule G-33(b)(i)), the
/// reciprocal of one and half the yield: two million divided by two million and the yield. The
/// yield lies between -50,005 and 1,000,005.
pub fn recip(y: i32) -> Span
    requires { IsManyPeriodsBoundary y }
    // promise 1: the lower end of a discount factor, as a whole number
    ensures lo { result.lo ≡ 2_000_000 * 2 ^ 60 / discount_divisor y }
    // promise 1: its upper end
    ensures hi { result.hi
        ≡ (2_000_000 * 2 ^ 60 + (discount_divisor y - 1)) / discount_divisor y }

    // promise 1: a discount factor stands between its ends
    ensures encloses { (j : ℕ) →
        HoldsPower (2 ^ 60) result.lo result.hi j (2_000_000 ^ j) (discount_divisor y ^ j) }
    // promise 1: which are at most 1 apart
    ensures width { result.hi ≤ result.lo + 1 }
    ensures at_least { 6 * 2 ^ 60 ≤ 10 * result.lo }
    ensures at_most { 10_000 * result.hi ≤ 10_257 * 2 ^ 60 }
{
    let whole = 2_000_000_u128 << 60;
    let divisor = divisor_of(y) as u128;
    let lo = whole / divisor;
    let hi = ceiling(whole, divisor, lo);
    Span::new(lo as u64, hi as u64)
}

/// The divisor of a half-year at a yield in millionths, from -50,005 to 1,000,005: two million and
/// the yield. The discount factor is two million divided by it.
pub fn divisor_of(y: i32) -> u64
    requires { IsManyPeriodsBoundary y }
    ensures value { result ≡ discount_divisor y }
    ensures at_least { 1_949_995 ≤ result }
    ensures at_most { result ≤ 3_000_005 }
{
    (2_000_000 + y) as u64
}

/// A quotient rounded up, from the one rounded down: a second division would cost as much again.
fn ceiling(whole: u128, divisor: u128, floor: u128) -> u128
    requires some { 0 < divisor }
    requires floor { floor ≡ whole / divisor }
    ensures { result ≡ (whole + (divisor - 1)) / divisor }
{
    if floor * divisor < whole {
        floor + 1
    } else {
        floor
    }
}
