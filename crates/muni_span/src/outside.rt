//! For callers outside; the program goes by `Span::power` and `Worth::scale`.

ghost use Rattle.std.specs.Prelude.{◌≡◌, ℕ, ◌+◌, ◌-◌, ◌*◌, ◌/◌, ◌^◌, ◌≤◌};
ghost use Rattle.muni_span.specs.Holding.{HoldsPower};

use crate::rounding::ONE;
use crate::span::Span;

impl Span {
    /// The product. As fractions, the upper ends have a product of at most 15.
    pub fn mul(self, other: Span) -> Span
        requires bounded { self.hi * other.hi ≤ 15 * 2 ^ 120 }
        // promise 1: the lower end of a product, as a whole number
        ensures lo { result.lo ≡ self.lo * other.lo / 2 ^ 60 }
        // promise 1: its upper end
        ensures hi { result.hi ≡ (self.hi * other.hi + (2 ^ 60 - 1)) / 2 ^ 60 }

        // Whatever fractions the j-th powers hold, those of the product hold their product.
        // promise 1: a product stands between its ends
        ensures encloses { (j n d m e : ℕ) → HoldsPower (2 ^ 60) self.lo self.hi j n d →
            HoldsPower (2 ^ 60) other.lo other.hi j m e →
            HoldsPower (2 ^ 60) result.lo result.hi j (n * m) (d * e) }
    {
        let lo = (self.lo() as u128 * other.lo() as u128) >> 60;
        let hi = (self.hi() as u128 * other.hi() as u128 + (ONE - 1) as u128) >> 60;
        Span::new(lo as u64, hi as u64)
    }
}
