//! The 180th root. Each end that is kept is certified by a power.

ghost use Rattle.std.specs.Prelude.{◌≡◌, ℕ, ◌+◌, ◌-◌, ◌*◌, ◌^◌, ◌<◌, ◌≤◌, pos, negsuc, ◌≤ℤ◌};
ghost use Rattle.muni_span.specs.Fractions.{IsAtMost};
ghost use Rattle.muni_span.specs.Holding.{HoldsPower};
ghost use Rattle.muni_span.specs.Roots.{root_end, root_low, root_high, IsRootBracket};
ghost use Rattle.muni_span.specs.Rounding.{carry_of};
ghost use Rattle.muni_span.specs.declared.root.TheConstants.{LEAST_ROOT, GREATEST_ROOT};

use crate::rounding::{ONE, Rounding};
use crate::span::Span;

/// Less than the 180th root of 0.6.
const LEAST_ROOT: u64 = ONE - (1 << 52);

/// More than the 180th root of 1.03.
const GREATEST_ROOT: u64 = ONE + (1 << 50);

/// The reciprocals of the numbers from 1.6 to 2.03 lie near the line 1.0883 - 0.2947 x. Its first
/// number is in units of 2^-62, and the other in units of 2^-64.
const FIRST: i64 = (ONE / 10_000 * 10_883 * 4) as i64;

const SLOPE: i64 = (ONE / 10_000 * 2_947 * 16) as i64;

/// One, in units of 2^-64.
const WHOLE: u128 = 1 << 64;

/// One divided by 21, 19 and so on down to 3, in units of 2^-64.
const ODD_PARTS: [i64; 10] = [
    (WHOLE / 21) as i64,
    (WHOLE / 19) as i64,
    (WHOLE / 17) as i64,
    (WHOLE / 15) as i64,
    (WHOLE / 13) as i64,
    (WHOLE / 11) as i64,
    (WHOLE / 9) as i64,
    (WHOLE / 7) as i64,
    (WHOLE / 5) as i64,
    (WHOLE / 3) as i64,
];

/// The 180th roots of the fractions in `v`.
///
/// `v` lies between 0.6 and 1.03, and is one unit wide at most.
pub fn root180(v: Span) -> Span
    requires least { 6 * 2 ^ 60 ≤ 10 * v.lo }
    requires greatest { 100 * v.hi ≤ 103 * 2 ^ 60 }
    requires narrow { v.hi ≤ v.lo + 1 }
    // promise 1: the lower end of a 180th root, as a whole number
    ensures lo { result.lo ≡ root_low v.lo }
    // promise 1: its upper end
    ensures hi { result.hi ≡ root_high v.hi }

    // promise 1: its lower end is not above the root of the lower end
    ensures below { IsAtMost (result.lo ^ 180) ((2 ^ 60) ^ 180) v.lo (2 ^ 60) }
    // promise 1: its upper end is not below that of the upper end
    ensures above { IsAtMost v.hi (2 ^ 60) (result.hi ^ 180) ((2 ^ 60) ^ 180) }
    // promise 1: a 180th root stands between its ends
    ensures encloses { (j n d : ℕ) → HoldsPower (2 ^ 60) v.lo v.hi j n d →
        HoldsPower (2 ^ 60) result.lo result.hi (180 * j) n d }
    // promise 1: its ends are at most 64 apart
    ensures width { result.hi ≤ result.lo + 64 }
{
    let excess = root_excess(v.lo());
    let lo = end_near(Rounding::Up, v.lo(), excess);
    let below_hi = end_near(Rounding::Down, v.hi() - 1, excess);
    Span::new(lo, below_hi + 1)
}

/// The greatest number with a power of at most `v`: a guess or the number before it, if two powers
/// certify that, and otherwise by halving the widest bracket.
fn end_near(rounding: Rounding, v: u64, excess: i64) -> u64
    requires { IsRootBracket (carry_of rounding) v LEAST_ROOT GREATEST_ROOT }
    ensures value { result ≡ root_end (carry_of rounding) v }
    ensures within { result < GREATEST_ROOT }
{
    let guess = guess(rounding, excess);
    if rounding.power(guess, 180) <= v {
        if v < rounding.power(guess + 1, 180) {
            return guess;
        }
    } else if rounding.power(guess - 1, 180) <= v {
        return guess - 1;
    }
    end_between(rounding, v, LEAST_ROOT, GREATEST_ROOT)
}

/// The greatest number with a power of at most `v`, by halving a bracket that holds it.
fn end_between(rounding: Rounding, v: u64, mut low: u64, mut high: u64) -> u64
    requires { IsRootBracket (carry_of rounding) v low high }
    ensures value { result ≡ root_end (carry_of rounding) v }
    ensures within { result < GREATEST_ROOT }
{
    while high - low > 1 {
        let middle = low + (high - low) / 2;
        if rounding.power(middle, 180) <= v {
            low = middle;
        } else {
            high = middle;
        }
    }
    low
}

/// A number near the end of a root. It need not be near: the powers decide what is kept.
fn guess(rounding: Rounding, excess: i64) -> u64
    ensures least { LEAST_ROOT < result }
    ensures greatest { result < GREATEST_ROOT }
{
    // The roundings of a power shift its root by some three fifths of a unit. With a reserve the
    // guess is mostly the end itself, and else the number after it.
    let shift = match rounding {
        Rounding::Down => 13,
        Rounding::Up => -3,
    };
    let root = ONE as i64 + (excess.wrapping_add(shift) >> 4);
    root.clamp(LEAST_ROOT as i64 + 1, GREATEST_ROOT as i64 - 1) as u64
}

/// The 180th root of `v` less one, nearly, in units of 2^-64.
fn root_excess(v: u64) -> i64
    requires { v < 2 ^ 61 }
{
    // With t = (v - 1) / (v + 1) the logarithm of v is twice t + t^3/3 + t^5/5 + ..
    let t = ratio(v as i64 - ONE as i64, v as i64 + ONE as i64);
    let square = scaled(t, t);
    let mut series = 0;
    for odd_part in ODD_PARTS {
        series = odd_part.wrapping_add(scaled(square, series));
    }
    let half_logarithm = t.wrapping_add(scaled(t, scaled(square, series)));

    // The exponential of z, the logarithm of the root, is 1 + z + z^2/2 + z^3/6 + ..
    let z = scaled(half_logarithm, part(90));
    let square = scaled(z, z);
    let tail = part(24).wrapping_add(scaled(z, part(120)));
    let tail = scaled(square, part(6).wrapping_add(scaled(z, tail)));
    z.wrapping_add(square / 2).wrapping_add(scaled(z, tail))
}

/// The quotient of a number and one from 1.6 to 2.03, both in units of 2^-60, nearly, in units of
/// 2^-64.
fn ratio(dividend: i64, divisor: i64) -> i64 {
    // Newton's method for the reciprocal, in units of 2^-62, from a straight line.
    let doubled = divisor.wrapping_mul(2);
    let mut reciprocal = FIRST.wrapping_sub(scaled(doubled, SLOPE).wrapping_mul(2));
    for _ in 0..3 {
        let short = (ONE as i64 / 2).wrapping_sub(scaled(doubled, reciprocal));
        reciprocal = reciprocal.wrapping_add(scaled(reciprocal, short.wrapping_mul(32)));
    }
    scaled(dividend.wrapping_mul(16), reciprocal).wrapping_mul(4)
}

/// One divided by a small number, in units of 2^-64.
fn part(divisor: u32) -> i64
    requires { 3 ≤ divisor }
{
    (WHOLE / divisor as u128) as i64
}

/// The product of two numbers. One is in units of 2^-64.
fn scaled(a: i64, b: i64) -> i64 {
    ((a as i128).wrapping_mul(b as i128) >> 64) as i64
}
