//! Issues: rows that passed every test.

ghost use Rattle.std.specs.Prelude.{◌≡◌, ◌↔◌, ◌<◌, ◌≤◌, ◌+◌, ◌*◌, ◌≤ℤ◌, true, pos, length, map, Some, None, IsSome};
ghost use Rattle.std.specs.List.{range_with_len};
ghost use Rattle.std.specs.Cmp.Rules.{comparing};
ghost use Rattle.std.proofs.Common.{rules};
ghost use Rattle.muni_rule.specs.Civil.{order_of, month_index};
ghost use Rattle.muni_rule.specs.QuasiDates.{half_years_after};
ghost use Rattle.muni_rule.specs.Payments.{payments_of};
ghost use Rattle.muni_rule.specs.Redemptions.{par_price, is_called};
ghost use Rattle.muni_days.specs.Day.{civil};
ghost use Rattle.muni_terms.specs.Check.{checked, fault_of};
ghost use Rattle.muni_terms.specs.Issue as spec;
ghost use Rattle.muni_terms.specs.Issue.{anchor_of, entries_of, series_of, payments, IsRedemption};

use crate::accrued::coupon_accrued_days;
use crate::checks::fault_of;
use crate::flows::{Flows, coupon_flows, zero_flows};
use crate::quasi_dates::half_years;
use crate::row::{IssueRow, Kind, TermsFault};
use muni_days::{Day, days_by};
use muni_dec::Price;
use muni_rule::CallTerm;
use std::marker::Model;

/// An issue: a row that passed every test.
#[derive(Debug, Drop)]
pub struct Issue {
    row: IssueRow,
}

impl Model for Issue {
    ghost use Rattle.std.specs.Prelude.{◌≡◌, None};
    ghost use Rattle.muni_terms.specs.declared.row.IssueRow.{IssueRow};
    ghost use Rattle.muni_terms.specs.Check.{fault_of};

    ghost Value = { IssueRow };

    ghost view = { λ issue. issue.row };

    ghost invariant = { λ issue. fault_of issue.row ≡ None };
}

/// The issue with the terms of a row, or the fault of the first test that the row fails.
///
/// The tests are, in this order: the CUSIP, the name, the order of the dates, the day of the month
/// on which interest falls, the coupon, the basis, the length of the first interest and that of the issue. Then
/// each call in turn is tested: its date, that it rises, and its price; and at last that a call that is
/// certain is the last.
pub fn check(row: IssueRow) -> Result<Issue, TermsFault>
    // promise 4: a fault is told exactly if its test fails and those before it hold, with the date of the call
    ensures { result ≡ checked row }
{
    match fault_of(&row) {
        Some(fault) => Err(fault),
        None => Ok(Issue { row }),
    }
}

impl PartialEq for Issue {
    ghost use Rattle.muni_terms.specs.Row.{row_eq};

    ghost eq = { row_eq };

    ghost laws = { Prim.search (comparing, rules) depth 12 };

    fn eq(&self, other: &Issue) -> bool
        ensures value { result ≡ row_eq self.now other.now }
        // promise 10: issues are equal exactly if they are the same
        ensures same { (result ≡ true) ↔ (self.now ≡ other.now) }
    {
        self.row == other.row
    }
}

impl Eq for Issue {
    ghost laws = { Prim.search (comparing, rules) depth 12 };
}

impl Issue {
    /// An issue of equal value.
    pub fn copy(&self) -> Issue
        // promise 10: a copy of an issue is equal
        ensures { result ≡ self.now }
    {
        Issue {
            row: self.row.copy(),
        }
    }

    /// The terms, which pass every test.
    pub fn row(&self) -> &IssueRow
        ensures value { result.now ≡ self.now }
        // promise 4, 6: an issue has passed every test of its terms
        ensures passed { fault_of self.now ≡ None }
    {
        &self.row
    }

    /// Whether a trade can settle on a day: from the dated date on, and before the day on which the issue is
    /// redeemed for certain.
    pub fn settles(&self, settlement: Day) -> bool
        // promise 4: a day settles from the dated date on, before maturity or the day for which it was called
        ensures { result ≡ spec.settles self.now settlement }
    {
        self.row.dated <= settlement && settlement < self.last_day()
    }

    /// Whether the issue has been called or refunded, so that the last entry of its schedule stands in the place
    /// of its maturity.
    pub fn is_called(&self) -> bool
        ensures { result ≡ is_called (entries_of self.now) }
    {
        match self.row.calls.last() {
            Some(call) => call.is_certain(),
            None => false,
        }
    }

    /// The day on which it is redeemed for certain: its maturity, or the day for which it has been called.
    pub fn last_day(&self) -> Day
        // promise 4: the maturity, or the day for which the issue has been called
        ensures { civil result ≡ spec.last_day_of self.now }
    {
        match self.row.calls.last() {
            Some(call) => {
                if call.is_certain() {
                    call.date
                } else {
                    self.row.maturity
                }
            }
            None => self.row.maturity,
        }
    }

    /// On how many days the call at a place of the schedule stands, each half a year after the one before it:
    /// one, or as many as there are quasi-coupon dates from its day on and before the next call or maturity.
    pub fn call_days(&self, place: usize) -> u32
        requires { place < length self.now.calls.items }
        // promise 3: the days on which a call may redeem
        ensures days { spec.days_at self.now place
            ≡ map (half_years_after (spec.day_at self.now place)) (range_with_len 0 result) }
        // promise 3: up to the next call or maturity
        ensures end { month_index (spec.day_at self.now place) + 6 * result
            ≤ month_index (spec.day_at self.now (place + 1)) }
    {
        let call = self.row.calls[place];
        match call.term {
            CallTerm::OnDay | CallTerm::Called => 1,
            CallTerm::OnOrAfter => half_years(call.date, self.day_at(place + 1)),
        }
    }

    // The day of the call at a place, or the maturity if there is none.
    fn day_at(&self, place: usize) -> Day
        ensures { civil result ≡ spec.day_at self.now place }
    {
        match self.row.calls.get(place) {
            Some(call) => call.date,
            None => self.row.maturity,
        }
    }

    /// The days for which interest has accrued at a settlement.
    pub fn accrued_days(&self, settlement: Day) -> i32
        requires { spec.settles self.now settlement ≡ true }
        // promise 1: the accrued days of a settlement are those of the rule
        ensures days { Some result ≡ spec.accrued_days self.now settlement }
        ensures range { (pos 0 ≤ℤ result) × (result ≤ℤ pos 720) }
    {
        match self.row.kind {
            Kind::Periodic { first } => {
                coupon_accrued_days(self.row.dated, first, settlement) as i32
            }
            Kind::AtRedemption => days_by(self.row.basis, self.row.dated, settlement),
            Kind::Zero | Kind::Discount => 0,
        }
    }

    /// The payments after a settlement, up to a later redemption at maturity at 100 or at a call
    /// (MSRB Rule G-33(b); an odd first coupon by SIA, Standard Securities Calculation Methods).
    ///
    /// The issue is of a kind with quasi-coupon dates, and not a note.
    pub fn flows(&self, settlement: Day, redemption: Day, price: Price) -> Flows
        requires kind { IsSome (anchor_of self.now) }
        requires settled { spec.settles self.now settlement ≡ true }
        requires later { order_of (civil settlement) < order_of (civil redemption) }
        requires redeemed { IsRedemption self.now redemption price }
        // promise 1: the payments after a settlement are those of the rule, as numbers
        ensures numbers { Some result ≡ series_of self.now settlement redemption price }
        // promise 1: and as a list
        ensures payments { payments_of result
            ≡ payments self.now settlement redemption price }
    {
        match self.row.kind {
            Kind::Periodic { first } => coupon_flows(
                self.row.dated,
                first,
                self.row.coupon,
                settlement,
                redemption,
                price,
            ),
            Kind::Zero => zero_flows(self.row.maturity, settlement, redemption, price),
            // `kind` excludes notes: they have no quasi-coupon dates.
            Kind::AtRedemption | Kind::Discount => unreachable!(),
        }
    }

    /// The same up to any redemption, if the payments up to maturity are known.
    // Inlined, since it is called for each redemption of an issue.
    #[inline(always)]
    pub fn flows_beside(
        &self,
        known: &Flows,
        settlement: Day,
        redemption: Day,
        price: Price,
    ) -> Flows
        requires known { Some known.now
            ≡ series_of self.now settlement self.now.maturity par_price }
        requires settled { spec.settles self.now settlement ≡ true }
        requires later { order_of (civil settlement) < order_of (civil redemption) }
        requires redeemed { IsRedemption self.now redemption price }
        // promise 1: the payments to an earlier redemption are those of the rule too
        ensures { Some result ≡ series_of self.now settlement redemption price }
    {
        known.redeemed_earlier(half_years(redemption, self.row.maturity), price)
    }
}
