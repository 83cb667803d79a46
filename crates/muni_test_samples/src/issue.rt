//! The issue of a case, and its payments.

ghost use Rattle.std.specs.Prelude.{◌≤◌, IfSome};

use crate::Sample;
use arrayvec::ArrayVec;
use muni_days::{Basis, Day};
use muni_dec::{Coupon, Price};
use muni_msg::read_call;
use muni_terms::{Call, Flows, Issue, IssueRow, Kind, check};

impl<'a> Sample<'a> {
    /// The terms of the issue, which may have faults.
    pub fn row(&self) -> Option<IssueRow> {
        let mut name = ArrayVec::new();
        let _ = name.try_extend_from_slice(b"RIVERTON WATER");
        Some(IssueRow {
            cusip: *b"123456AA3",
            name,
            kind: self.kind()?,
            basis: self.basis(),
            dated: self.day("dated=")?,
            maturity: self.day("maturity=")?,
            coupon: self.coupon("coupon=").unwrap_or(Coupon::new(0)),
            calls: self.calls()?,
        })
    }

    /// The issue.
    pub fn issue(&self) -> Option<Issue> {
        check(self.row()?).ok()
    }

    /// The payments of the issue after `settle=`, up to its first call, or to its maturity if it has
    /// none. Two or more are to come.
    pub fn flows(&self) -> Option<Flows>
        ensures { IfSome result (λ flows. 2 ≤ flows.n) }
    {
        let flows = flows_at(&self.issue()?, self.day("settle=")?)?;
        if flows.n() < 2 {
            return None;
        }
        Some(flows)
    }

    fn kind(&self) -> Option<Kind> {
        if self.has("periodic") {
            return Some(Kind::Periodic {
                first: self.day("first=")?,
            });
        }
        if self.has("zero") {
            return Some(Kind::Zero);
        }
        if self.has("at-redemption") {
            return Some(Kind::AtRedemption);
        }
        if self.has("discount") {
            return Some(Kind::Discount);
        }
        None
    }

    fn basis(&self) -> Basis {
        if self.has("actual/365") {
            Basis::Actual365
        } else {
            Basis::Thirty360
        }
    }

    fn calls(&self) -> Option<ArrayVec<Call, 40>> {
        let mut calls = ArrayVec::new();
        for words in self.words() {
            for word in words.split(|b| *b == b' ') {
                if let Some(call) = word.strip_prefix(b"call=".as_slice()) {
                    calls.try_push(read_call(call)?).ok()?;
                }
            }
        }
        Some(calls)
    }
}

fn flows_at(issue: &Issue, settlement: Day) -> Option<Flows> {
    let row = issue.row();
    let (Kind::Periodic { .. } | Kind::Zero) = row.kind else {
        return None;
    };
    if !issue.settles(settlement) {
        return None;
    }
    let calls = row.calls.as_slice();
    if calls.is_empty() {
        return Some(issue.flows(settlement, row.maturity, Price::PAR));
    }
    let call = calls[0];
    if settlement >= call.date {
        return None;
    }
    Some(issue.flows(settlement, call.date, call.price))
}
