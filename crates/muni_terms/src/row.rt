//! The terms of an issue as they are given, and what may be wrong with them.

ghost use Rattle.std.specs.Prelude.{◌≡◌, ◌↔◌, true};
ghost use Rattle.std.specs.Cmp.Rules.{comparing};
ghost use Rattle.std.proofs.Common.{rules};
ghost use Rattle.muni_rule.specs.Redemptions.{is_certain};
ghost use Rattle.muni_terms.specs.Check.{pays_interest};
ghost use Rattle.muni_terms.specs.Fault.{fault_number};

use arrayvec::ArrayVec;
use muni_days::{Basis, Day};
use muni_dec::{Coupon, Price};
use muni_rule::CallTerm;
use thiserror::Error;

/// An entry of a call schedule: the issuer may redeem the whole issue at this price on this day, or on it
/// and later, or has called the issue for it.
#[derive(Clone, Copy, Debug)]
pub struct Call {
    pub date: Day,
    pub term: CallTerm,
    pub price: Price,
}

impl Call {
    /// Whether the issue is redeemed by it for certain, and not at maturity.
    pub fn is_certain(&self) -> bool
        ensures { result ≡ is_certain self.now.term }
    {
        match self.term {
            CallTerm::OnDay | CallTerm::OnOrAfter => false,
            CallTerm::Called => true,
        }
    }
}

impl Default for Call {
    /// An empty slot of a list. No contract reads it.
    fn default() -> Self {
        Call {
            date: Day::FIRST,
            price: Price::new(0),
            term: CallTerm::OnDay,
        }
    }
}

/// How an issue pays interest.
#[derive(Clone, Copy, Debug)]
pub enum Kind {
    /// Twice a year, from the first interest date on.
    Periodic { first: Day },
    /// Not at all.
    Zero,
    /// Once, at maturity.
    AtRedemption,
    /// Not at all: it is sold at a discount.
    Discount,
}

impl Kind {
    /// Whether any interest is paid, periodically or at redemption.
    pub fn pays_interest(self) -> bool
        ensures { result ≡ pays_interest self }
    {
        match self {
            Kind::Periodic { .. } | Kind::AtRedemption => true,
            Kind::Zero | Kind::Discount => false,
        }
    }
}

/// The terms of an issue as they are given. At maturity it is redeemed at 100, unless it has been called.
#[derive(Debug, Drop)]
pub struct IssueRow {
    /// Eight digits and capital letters, and a check digit.
    pub cusip: [u8; 9],
    /// The name, of printable ASCII.
    pub name: ArrayVec<u8, 60>,
    pub kind: Kind,
    /// How days are counted, which is 30/360 save for notes.
    pub basis: Basis,
    /// The day from which interest accrues.
    pub dated: Day,
    pub maturity: Day,
    /// The yearly coupon, which is 0 if no interest is paid.
    pub coupon: Coupon,
    /// The entries of the call schedule in order of date.
    pub calls: ArrayVec<Call, 40>,
}

/// Why a row is no issue.
#[derive(Clone, Copy, Debug, PartialEq, Eq, Error)]
pub enum TermsFault {
    /// The CUSIP is not eight digits and capital letters with their check digit.
    #[error("the CUSIP is not eight digits and capital letters with their check digit")]
    BadCusip,
    /// The dates are not in order, or the dated date is before 1902.
    #[error("the dates are not in order, or the dated date is before 1902")]
    BadOrder,
    /// Interest, or the maturity of a zero, falls on a day over 28, or an issue with coupons matures
    /// on another day than a quasi-coupon date.
    #[error("a day over 28, or a maturity off the quasi-coupon dates")]
    BadDay,
    /// There is a coupon and no interest, or interest and no coupon.
    #[error("a coupon without interest, or interest without a coupon")]
    BadCoupon,
    /// The first interest is for more than 360 days of 30/360.
    #[error("the first interest is for more than 360 days")]
    FirstTooLong,
    /// This call is not on a day on which the issue can be called.
    #[error("a call on a day on which the issue cannot be called")]
    CallOffCalendar { date: Day },
    /// This call is not after the one before it.
    #[error("the calls are not in order of their dates")]
    CallsNotRising { date: Day },
    /// This call's price is not from 1 to 200.
    #[error("a call price that is not from 1 to 200")]
    BadCallPrice { date: Day },
    /// More than 100 quasi-coupon dates, or a note of more than 720 days by its basis.
    #[error("more than 100 quasi-coupon dates, or a note of more than 720 days")]
    TooLong,
    /// The name is empty, or not of printable ASCII.
    #[error("the name is empty, or not of printable ASCII")]
    BadName,
    /// Days are counted by actual/365, and the issue is no note.
    #[error("actual/365 for an issue that is no note")]
    BadBasis,
    /// This call redeems the issue for certain, and is not the last.
    #[error("a call that is certain is not the last")]
    CalledNotLast { date: Day },
}

impl TermsFault {
    /// The number of the fault, from 1 to 12.
    pub fn number(&self) -> u32
        // promise 4: each fault of terms has its number
        ensures { result ≡ fault_number self.now }
    {
        match self {
            TermsFault::BadCusip => 1,
            TermsFault::BadOrder => 2,
            TermsFault::BadDay => 3,
            TermsFault::BadCoupon => 4,
            TermsFault::FirstTooLong => 5,
            TermsFault::CallOffCalendar { .. } => 6,
            TermsFault::CallsNotRising { .. } => 7,
            TermsFault::BadCallPrice { .. } => 8,
            TermsFault::TooLong => 9,
            TermsFault::BadName => 10,
            TermsFault::BadBasis => 11,
            TermsFault::CalledNotLast { .. } => 12,
        }
    }
}

fn copy_calls(calls: &ArrayVec<Call, 40>) -> ArrayVec<Call, 40>
    ensures { result ≡ calls.now }
{
    let mut copy = ArrayVec::new();
    let _ = copy.try_extend_from_slice(calls);
    copy
}

impl PartialEq for Call {
    ghost use Rattle.muni_terms.specs.Row.{call_eq};

    ghost eq = { call_eq };

    ghost laws = { Prim.search (comparing, rules) };

    #[tactic(auto, using(crate::proofs::RowLemmas::call_decides))]
    fn eq(&self, other: &Call) -> bool
        ensures value { result ≡ call_eq self.now other.now }
        ensures same { (result ≡ true) ↔ (self.now ≡ other.now) }
    {
        self.date == other.date && self.price == other.price && self.term == other.term
    }
}

impl Eq for Call {
    ghost laws = { Prim.search (comparing, rules) };
}

impl PartialEq for Kind {
    ghost use Rattle.muni_terms.specs.Row.{kind_eq};

    ghost eq = { kind_eq };

    ghost laws = { Prim.search (comparing, rules) };

    #[tactic(auto, using(crate::proofs::RowLemmas::kind_decides))]
    fn eq(&self, other: &Kind) -> bool
        ensures value { result ≡ kind_eq self.now other.now }
        ensures same { (result ≡ true) ↔ (self.now ≡ other.now) }
    {
        match (self, other) {
            (Kind::Periodic { first }, Kind::Periodic { first: other }) => *first == *other,
            (Kind::Zero, Kind::Zero) => true,
            (Kind::AtRedemption, Kind::AtRedemption) => true,
            (Kind::Discount, Kind::Discount) => true,
            _ => false,
        }
    }
}

impl Eq for Kind {
    ghost laws = { Prim.search (comparing, rules) };
}

impl PartialEq for IssueRow {
    ghost use Rattle.muni_terms.specs.Row.{row_eq};

    ghost eq = { row_eq };

    ghost laws = { Prim.search (comparing, rules) depth 12 };

    fn eq(&self, other: &IssueRow) -> bool
        ensures value { result ≡ row_eq self.now other.now }
        // promise 10: terms are equal exactly if they are the same
        ensures same { (result ≡ true) ↔ (self.now ≡ other.now) }
    {
        let same_dates = self.dated == other.dated && self.maturity == other.maturity;
        let same_texts = self.cusip == other.cusip && self.name == other.name;
        same_dates
            && same_texts
            && self.coupon == other.coupon
            && self.kind == other.kind
            && self.basis == other.basis
            && self.calls == other.calls
    }
}

impl Eq for IssueRow {
    ghost laws = { Prim.search (comparing, rules) depth 12 };
}

impl IssueRow {
    /// A row of equal value.
    pub fn copy(&self) -> IssueRow
        // promise 10: a copy of terms is equal
        ensures { result ≡ self.now }
    {
        IssueRow {
            cusip: self.cusip,
            name: self.copy_name(),
            kind: self.kind,
            basis: self.basis,
            dated: self.dated,
            maturity: self.maturity,
            coupon: self.coupon,
            calls: copy_calls(&self.calls),
        }
    }

    /// A name of equal value.
    pub fn copy_name(&self) -> ArrayVec<u8, 60>
        ensures { result ≡ self.now.name }
    {
        let mut copy = ArrayVec::new();
        let _ = copy.try_extend_from_slice(&self.name);
        copy
    }
}
