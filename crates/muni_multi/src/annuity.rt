//! What equal payments half a year apart are worth, from below.

ghost use Rattle.std.specs.Prelude.{◌≡◌, ◌+◌, ◌*◌, ◌^◌, ◌<◌, ◌≤◌, true, pos};
ghost use Rattle.muni_rule.specs.ManyPeriods.{to_come, AtLeast};
ghost use Rattle.muni_multi.specs.Annuity.{IsWorthBelow};

use crate::Discount;
use muni_dec::Price;
use muni_terms::Flows;
use std::marker::Model;

/// One, in units of 2^-60.
const ONE: u64 = 1 << 60;

/// Payments of one, half a year apart, after the first payment to come: what they are worth on the day of
/// that, and the discount factor up to the last of them. Neither is more than it is exactly.
///
/// The redemptions of an issue have one annuity at a yield, which grows from each to the next. So to see
/// that most of them are worth a price costs far less than to enclose what each is worth.
#[derive(Clone, Copy, Debug)]
pub struct Annuity {
    discount: Discount,
    count: u32,
    last: u64,
    worth: u64,
}

impl Model for Annuity {
    ghost use Rattle.muni_multi.specs.Annuity.{AnnuityView, IsAnnuity, annuity};

    ghost Value = { AnnuityView };

    ghost view = { λ it. annuity it.discount it.count it.last it.worth };

    ghost invariant = { λ it. IsAnnuity (annuity it.discount it.count it.last it.worth) };

    ghost inverse = { λ value. record {
      discount = value.discount;
      count = value.count;
      last = value.last;
      worth = value.worth;
    } };
}

impl Annuity {
    /// Without payments.
    pub fn none(discount: Discount) -> Annuity
        ensures { result.discount ≡ discount }
    {
        Annuity {
            discount,
            count: 0,
            last: ONE,
            worth: 0,
        }
    }

    /// The discount factors of its yield.
    pub fn discount(&self) -> &Discount
        ensures { result.now ≡ self.now.discount }
    {
        &self.discount
    }

    /// Whether payments are seen to be worth a price and 10^-9 dollars more, at the yield and on the day of
    /// the discount. It grows as long as they need, and says no of fewer, and of those that skip interest.
    pub fn shows(&mut self, flows: &Flows, price: Price) -> bool
        requires many { 2 ≤ flows.now.n }
        ensures shown { result ≡ true
            → AtLeast (to_come flows.now) self.old.discount.y (pos (360_000 * price + 360)) }
        ensures same { self.new.discount ≡ self.old.discount }
    {
        let later = flows.n() - 1;
        while self.count < later {
            self.grow();
        }
        if self.count > later || flows.skip() > 0 || flows.a() != self.discount.a() {
            return false;
        }
        let asked = 360_000 * price.units() + 360 + flows.accrued();
        let worth = u128::from(self.worth_of(flows));
        u128::from(asked) * (1 << 68) <= worth * u128::from(self.discount.part().lo())
    }

    // One payment more.
    fn grow(&mut self)
        requires few { self.old.count < 100 }
        ensures count { self.new.count ≡ self.old.count + 1 }
        ensures same { self.new.discount ≡ self.old.discount }
    {
        let half_year = self.discount.half_year().lo();
        let last = (u128::from(self.last) * u128::from(half_year)) >> 60;
        self.last = last.min(u64::MAX as u128) as u64;
        self.worth = self.worth.saturating_add(self.last >> 8);
        self.count += 1;
    }

    // What payments are worth on the day of the first, in 1/256 of an amount.
    fn worth_of(&self, flows: &Flows) -> u64
        requires count { self.now.count + 1 ≡ flows.now.n }
        requires first { flows.now.skip ≡ 0 }
        ensures { IsWorthBelow flows.now self.now.discount.y result }
    {
        let first = u128::from(flows.first()) << 52;
        let regular = u128::from(flows.regular()) * u128::from(self.worth);
        let redemption = u128::from(flows.redemption()) * u128::from(self.last >> 8);
        ((first + regular + redemption) >> 44) as u64
    }
}
