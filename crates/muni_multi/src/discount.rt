//! What payments are discounted by.

ghost use Rattle.std.specs.Prelude.{◌≡◌, ◌≤◌};
ghost use Rattle.muni_rule.specs.Ranges.{IsManyPeriodsBoundary};
ghost use Rattle.muni_multi.specs.Horner.{AreDiscountEnds};
ghost use Rattle.muni_multi.specs.LastStep.{discount_low, discount_high, part_low, part_high};

use muni_span::root::root180;
use muni_span::span::{Span, recip};
use std::marker::Model;

/// The discount factors of a yield on a day of an interest period. All redemptions of an issue have
/// the same ones at a settlement.
#[derive(Clone, Copy, Debug, PartialEq, Eq)]
pub struct Discount {
    y: i32,
    a: u32,
    half_year: Span,
    part: Span,
}

impl Model for Discount {
    ghost use Rattle.muni_multi.specs.Discount.{Factors, AreFactors, factors};

    ghost Value = { Factors };

    ghost view = { λ discount. factors discount.y discount.a discount.half_year discount.part };

    ghost invariant = { λ discount. AreFactors
        (factors discount.y discount.a discount.half_year discount.part) };

    ghost inverse = { λ value. record {
      y = value.y;
      a = value.a;
      half_year = value.half_year;
      part = value.part;
    } };
}

impl Discount {
    /// The factors of a yield in 10^-6, from -50,005 to 1,000,005, on a day of an interest period of
    /// 180 days, counted from its beginning.
    pub fn at(y: i32, a: u32) -> Discount
        requires y { IsManyPeriodsBoundary y }
        requires a { a ≤ 180 }
        // promise 1: a discount is that of the yield asked for
        ensures y { result.y ≡ y }
        // promise 1: and of the days left of a period
        ensures a { result.a ≡ a }
    {
        let half_year = recip(y);
        let part = root180(half_year).power(180 - a);
        Discount {
            y,
            a,
            half_year,
            part,
        }
    }

    /// The same.
    // What was kept is taken if it is of that yield and day, so that nothing is computed.
    pub fn kept_or_at(kept: Option<&Discount>, y: i32, a: u32) -> Discount
        requires y { IsManyPeriodsBoundary y }
        requires a { a ≤ 180 }
        // promise 1: a discount that is kept is that of the yield asked for
        ensures y { result.y ≡ y }
        // promise 1: and of the days left of a period
        ensures a { result.a ≡ a }
    {
        match kept {
            Some(discount) if discount.y == y && discount.a == a => *discount,
            _ => Discount::at(y, a),
        }
    }

    /// The yield, in 10^-6.
    pub fn y(&self) -> i32
        ensures value { result ≡ self.now.y }
        ensures range { IsManyPeriodsBoundary result }
    {
        self.y
    }

    /// The days since the interest period began.
    pub fn a(&self) -> u32
        ensures value { result ≡ self.now.a }
        ensures range { result ≤ 180 }
    {
        self.a
    }

    /// The factor of half a year.
    pub fn half_year(&self) -> Span
        ensures lo { result.lo ≡ discount_low self.now.y }
        ensures hi { result.hi ≡ discount_high self.now.y }
        ensures ends { AreDiscountEnds result.lo result.hi }
        ensures within { IsManyPeriodsBoundary self.now.y }
    {
        self.half_year
    }

    /// The factor of the days up to the first payment.
    pub fn part(&self) -> Span
        ensures lo { result.lo ≡ part_low self.now.y self.now.a }
        ensures hi { result.hi ≡ part_high self.now.y self.now.a }
        ensures within { IsManyPeriodsBoundary self.now.y }
    {
        self.part
    }
}
