//! One end of an enclosure: products and powers, rounded down or up.

ghost use Rattle.std.specs.Prelude.{◌≡◌, ℕ, ◌+◌, ◌-◌, ◌*◌, ◌/◌, ◌^◌, ◌<◌};
ghost use Rattle.muni_span.specs.Powers.{product_end, power_from_half, power_end};
ghost use Rattle.muni_span.specs.Rounding.{carry_of};

/// One, in units of 2^-60.
pub const ONE: u64 = 1 << 60;

/// Which way an end is rounded: outward, so a lower end goes down and an upper end up.
#[derive(Clone, Copy, Debug, PartialEq, Eq)]
pub enum Rounding {
    Down,
    Up,
}

impl Rounding {
    /// What is added to a product before its part below one unit is cut off.
    fn carry(self) -> u64
        ensures value { result ≡ carry_of self }
        ensures below_one { result < 2 ^ 60 }
    {
        match self {
            Rounding::Down => 0,
            Rounding::Up => ONE - 1,
        }
    }

    /// The product of two fractions in units of 2^-60, or the greatest `u64` if it is more.
    fn product(self, a: u64, b: u64) -> u64
        ensures { result ≡ product_end (carry_of self) a b }
    {
        let product = (a as u128 * b as u128 + self.carry() as u128) >> 60;
        product.min(u64::MAX as u128) as u64
    }

    /// The power of a fraction in units of 2^-60, by squaring.
    pub fn power(self, base: u64, exponent: u32) -> u64
        requires { exponent < 256 }
        ensures { result ≡ power_end (carry_of self) base exponent }
    {
        if exponent == 0 {
            return ONE;
        }
        let mut power = base;
        let mut place = exponent.ilog2();
        while place > 0 {
            place -= 1;
            power = self.power_from_half(power, base, exponent >> place);
        }
        power
    }

    /// A power from the power of half its exponent, rounded down to a whole number.
    pub fn power_from_half(self, half: u64, base: u64, exponent: u32) -> u64
        ensures { result ≡ power_from_half (product_end (carry_of self)) base exponent half }
    {
        let square = self.product(half, half);
        if exponent % 2 == 0 {
            square
        } else {
            self.product(square, base)
        }
    }

    /// The product of an amount and a fraction in units of 2^-60.
    ///
    /// No number is wider than 128 bits: the upper half of the amount gives whole units alone, and
    /// is mostly 0.
    pub fn scale(self, amount: u128, factor: u64) -> u128
        requires { amount * factor < 2 ^ 127 * 2 ^ 60 }
        ensures { result ≡ (amount * factor + carry_of self) / 2 ^ 60 }
    {
        let factor = factor as u128;
        let upper = amount >> 64;
        let lower = amount % (1 << 64);
        let of_lower = (lower * factor + self.carry() as u128) >> 60;
        if upper == 0 {
            of_lower
        } else {
            upper * factor * 16 + of_lower
        }
    }
}
