//! Decimals from 0 up, each kind with its places and its range.

ghost use Rattle.std.specs.Prelude.{◌≡◌, ◌+◌, ◌-◌, ◌≤◌};
ghost use Rattle.arrayvec.specs.ArrayVec.{array_vec_len};
ghost use Rattle.muni_dec.specs.Decimal.{decimal_text};
ghost use Rattle.muni_dec.specs.Ranges.{IsAmount};
ghost use Rattle.muni_dec.specs.Values.{amount_reading, if_amount, price_reading, if_price, price_text, if_printed_price, printed_price_text, coupon_reading, if_coupon, coupon_text, fee_reading, if_fee, fee_text, if_money, money_text};

use crate::DecFault;
use crate::decimal::{push_decimal, read_decimal};
use arrayvec::ArrayVec;
use std::marker::Model;

/// A decimal with a number of places, from the least to the greatest number of units of the last place.
#[derive(Clone, Copy, Debug, PartialEq, Eq, PartialOrd, Ord)]
pub struct Amount<const PLACES: usize, const LEAST: u64, const GREATEST: u64> {
    units: u64,
}

/// A given price or a redemption price without accrued interest, from 0 to 999.999999, in 10^-6
/// dollars per 100 of par.
pub type Price = Amount<6, 0, 999_999_999>;

/// A printed price without accrued interest, from 0 up, in 10^-3 dollars per 100 of par.
pub type Price3 = Amount<3, 0, 9_223_372_036_854_775_807>;

/// A coupon, from 0 to 30 percent a year, in 10^-7 dollars per 100 of par and year.
pub type Coupon = Amount<7, 0, 300_000_000>;

/// A commission, from 0 to 10 dollars per 100 of par, in 10^-3 dollars.
pub type Fee = Amount<3, 0, 10_000>;

/// An amount of money from 0 up, in cents.
pub type Cents = Amount<2, 0, 9_223_372_036_854_775_807>;

impl<const PLACES: usize, const LEAST: u64, const GREATEST: u64> Model
    for Amount<PLACES, LEAST, GREATEST> {
    ghost use Rattle.std.specs.Prelude.{ℕ};
    ghost use Rattle.muni_dec.specs.Ranges.{IsAmount};

    ghost Value = { ℕ };

    ghost view = { λ amount. amount.units };

    ghost invariant = { λ amount. IsAmount LEAST GREATEST amount.units };

    ghost inverse = { λ units. record { units = units } };
}

impl<const PLACES: usize, const LEAST: u64, const GREATEST: u64> Amount<PLACES, LEAST, GREATEST> {
    /// The decimal of a number of units.
    pub fn new(units: u64) -> Self
        requires { IsAmount LEAST GREATEST units }
        ensures { result ≡ units }
    {
        Amount { units }
    }

    // The decimal of a number of units, if they lie in its range.
    fn in_range(units: u64) -> Option<Self>
        ensures { result ≡ if_amount LEAST GREATEST units }
    {
        if units < LEAST || units > GREATEST {
            return None;
        }
        Some(Amount { units })
    }

    /// The number of units.
    pub fn units(&self) -> u64
        // promise 10: an amount has the number of which it was made
        ensures value { result ≡ self.now }
        ensures range { IsAmount LEAST GREATEST result }
    {
        self.units
    }

    // Replaces the text by the decimal with all its places.
    fn print_places(&self, text: &mut ArrayVec<u8, 32>)
        requires { (1 ≤ PLACES) × (PLACES ≤ 7) }
        ensures items { text.new.items ≡ decimal_text PLACES self.now }
        ensures len { array_vec_len text.new ≤ 29 }
    {
        text.clear();
        push_decimal(text, self.units, PLACES);
    }

    #[tactic(auto, unfolding(crate::specs::Values::amount_reading))]
    fn read_places(text: &[u8]) -> Result<Self, DecFault>
        requires places { PLACES ≤ 7 }
        requires told_apart { GREATEST ≤ 99_999_999_999 }
        ensures { result ≡ amount_reading PLACES LEAST GREATEST text.now }
    {
        Self::in_range(read_decimal(text, PLACES)?).ok_or(DecFault::OutOfRange)
    }
}

impl Price {
    /// 100 dollars, the price of a redemption at maturity.
    pub const PAR: Price = Amount { units: 100_000_000 };

    /// Reads a price with at most six decimals, as `101.5`.
    #[tactic(auto, unfolding(crate::specs::Values::price_reading))]
    pub fn read(text: &[u8]) -> Result<Price, DecFault>
        // promise 4: a price is read exactly by its format and range
        ensures { result ≡ price_reading text.now }
    {
        Price::read_places(text)
    }

    /// The price of a number of units, from 0 to 999,999,999.
    pub fn of(units: u64) -> Option<Price>
        // promise 10: a price is made of a number in its range, and of no other
        ensures { result ≡ if_price units }
    {
        Price::in_range(units)
    }

    /// Replaces the text by the price with all its six decimals.
    pub fn print_into(&self, text: &mut ArrayVec<u8, 32>)
        // promise 1: a price is written with its decimals
        ensures items { text.new.items ≡ price_text self.now }
        ensures len { array_vec_len text.new ≤ 29 }
    {
        self.print_places(text);
    }
}

impl Price3 {
    /// The printed price of a number of units.
    pub fn of(units: u64) -> Option<Price3>
        // promise 10: a printed price is made of a number in its range, and of no other
        ensures { result ≡ if_printed_price units }
    {
        Price3::in_range(units)
    }

    /// Replaces the text by the price with all its three decimals.
    pub fn print_into(&self, text: &mut ArrayVec<u8, 32>)
        // promise 1: a printed price is written with three decimals
        ensures items { text.new.items ≡ printed_price_text self.now }
        ensures len { array_vec_len text.new ≤ 29 }
    {
        self.print_places(text);
    }
}

impl Coupon {
    /// Reads a coupon with at most seven decimals, as `4.125`.
    #[tactic(auto, unfolding(crate::specs::Values::coupon_reading))]
    pub fn read(text: &[u8]) -> Result<Coupon, DecFault>
        // promise 4: a coupon is read exactly by its format and range
        ensures { result ≡ coupon_reading text.now }
    {
        Coupon::read_places(text)
    }

    /// The coupon of a number of units, from 0 to 300,000,000.
    pub fn of(units: u64) -> Option<Coupon>
        // promise 10: a coupon is made of a number in its range, and of no other
        ensures { result ≡ if_coupon units }
    {
        Coupon::in_range(units)
    }

    /// Replaces the text by the coupon with all its seven decimals.
    pub fn print_into(&self, text: &mut ArrayVec<u8, 32>)
        // promise 1: a coupon is written with its decimals
        ensures items { text.new.items ≡ coupon_text self.now }
        ensures len { array_vec_len text.new ≤ 29 }
    {
        self.print_places(text);
    }
}

impl Fee {
    /// No commission.
    pub const ZERO: Fee = Amount { units: 0 };

    /// Reads a commission with at most three decimals, as `0.125`.
    #[tactic(auto, unfolding(crate::specs::Values::fee_reading))]
    pub fn read(text: &[u8]) -> Result<Fee, DecFault>
        // promise 4: a commission is read exactly by its format and range
        ensures { result ≡ fee_reading text.now }
    {
        Fee::read_places(text)
    }

    /// The commission of a number of units, from 0 to 10,000.
    pub fn of(units: u64) -> Option<Fee>
        // promise 10: a commission is made of a number in its range, and of no other
        ensures { result ≡ if_fee units }
    {
        Fee::in_range(units)
    }

    /// Replaces the text by the commission with all its three decimals.
    pub fn print_into(&self, text: &mut ArrayVec<u8, 32>)
        // promise 1: a commission is written with its decimals
        ensures items { text.new.items ≡ fee_text self.now }
        ensures len { array_vec_len text.new ≤ 29 }
    {
        self.print_places(text);
    }
}

impl Cents {
    /// No money.
    pub const ZERO: Cents = Amount { units: 0 };

    /// The amount of a number of cents.
    pub fn of(units: u64) -> Option<Cents>
        // promise 10: an amount of money is made of a number in its range, and of no other
        ensures { result ≡ if_money units }
    {
        Cents::in_range(units)
    }

    /// Replaces the text by the amount in dollars with both its decimals.
    pub fn print_into(&self, text: &mut ArrayVec<u8, 32>)
        // promise 1: money is written in dollars and cents
        ensures items { text.new.items ≡ money_text self.now }
        ensures len { array_vec_len text.new ≤ 29 }
    {
        self.print_places(text);
    }

    /// Two amounts together.
    pub fn plus(self, other: Cents) -> Cents
        requires { self + other ≤ 9_223_372_036_854_775_807 }
        ensures { result ≡ self + other }
    {
        Cents::new(self.units + other.units)
    }

    /// What is left after another amount is taken off.
    pub fn minus(self, other: Cents) -> Cents
        requires { other ≤ self }
        ensures { result ≡ self - other }
    {
        Cents::new(self.units - other.units)
    }
}
