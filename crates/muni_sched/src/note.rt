//! The days of a note, and its one payment.

ghost use Rattle.std.specs.Prelude.{◌≡◌, ◌≤◌, ◌≤ℤ◌, true, pos, None};
ghost use Rattle.muni_rule.specs.DayCount as count;
ghost use Rattle.muni_rule.specs.Discount.{par_amount};
ghost use Rattle.muni_rule.specs.LastPayment as rule;
ghost use Rattle.muni_days.specs.Day.{civil};
ghost use Rattle.muni_simple.specs.Single.{IsSingle};
ghost use Rattle.muni_simple.specs.declared.single.Shape1.TheVariants.{AtRedemption};
ghost use Rattle.muni_terms.specs.Issue.{settles, anchor_of};
ghost use Rattle.muni_sched.specs.Shape.{single};

use muni_days::{Basis, Day, days_by};
use muni_simple::Single;
use muni_terms::{Issue, days_to, interest};

// The days of a note from its dated date: to maturity, and to the settlement.
#[derive(Clone, Copy)]
struct NoteDays {
    whole: u32,
    accrued: u32,
}

/// The one payment of a note that pays its interest at redemption.
pub(crate) fn note_payment(issue: &Issue, settlement: Day) -> Single
    requires note { anchor_of issue.now ≡ None }
    requires settled { settles issue.now settlement ≡ true }
    ensures payment { result ≡ single (rule.note_payment issue.now.basis issue.now.coupon
        (civil issue.now.dated) (civil issue.now.maturity) (civil settlement)) }
    ensures range { IsSingle AtRedemption result }
{
    let days = note_days(issue, settlement);
    let coupon = issue.row().coupon;
    let basis = issue.row().basis;
    Single {
        due: (par(basis) + interest(coupon, days.whole)) as i64,
        accrued: interest(coupon, days.accrued) as i64,
        left: (days.whole - days.accrued) as i32,
        basis,
    }
}

// 100 dollars.
fn par(basis: Basis) -> u64
    ensures value { pos result ≡ par_amount basis }
    ensures range { result ≤ 36_500_000_000_000 }
{
    basis.year() as u64 * 100_000_000_000
}

/// The days from a settlement to the maturity of a note, by its basis.
pub(crate) fn days_left(issue: &Issue, settlement: Day) -> i32
    requires note { anchor_of issue.now ≡ None }
    requires settled { settles issue.now settlement ≡ true }
    ensures value { result
        ≡ count.days_by issue.now.basis (civil settlement) (civil issue.now.maturity) }
    ensures range { (pos 0 ≤ℤ result) × (result ≤ℤ pos 720) }
{
    days_by(issue.row().basis, settlement, issue.row().maturity)
}

fn note_days(issue: &Issue, settlement: Day) -> NoteDays
    requires note { anchor_of issue.now ≡ None }
    requires settled { settles issue.now settlement ≡ true }
    ensures whole { pos result.whole
        ≡ count.days_by issue.now.basis (civil issue.now.dated) (civil issue.now.maturity) }
    ensures accrued { pos result.accrued
        ≡ count.days_by issue.now.basis (civil issue.now.dated) (civil settlement) }
    ensures range { (result.accrued ≤ result.whole) × (result.whole ≤ 720) }
{
    let row = issue.row();
    NoteDays {
        whole: days_to(row.basis, row.dated, row.maturity),
        accrued: days_to(row.basis, row.dated, settlement),
    }
}
