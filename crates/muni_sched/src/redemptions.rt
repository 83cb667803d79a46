//! The redemption candidates of an issue.

ghost use Rattle.std.specs.Prelude.{◌≡◌, ◌<◌, ◌≤◌, true, take, length, AllPairs};
ghost use Rattle.muni_rule.specs.Civil.{is_before};
ghost use Rattle.muni_rule.specs.Redemptions.{label_of_entry};
ghost use Rattle.muni_days.specs.Day.{civil};
ghost use Rattle.muni_terms.specs.Issue.{settles};
ghost use Rattle.muni_sched.specs.Candidates.{AreCandidatesOf, AreCandidates, IsRedeemedEarlier, calls_of};
ghost use Rattle.muni_sched.specs.Shape.{IsPricing};

use crate::Candidate;
use crate::shape::{Pricing, pricing_at, shape_at};
use muni_days::Day;
use muni_dec::Price;
use muni_terms::{Call, Issue, Label, half_years_on};

/// Puts the redemption candidates of an issue at a settlement (MSRB Rule G-15(a)) into the first of
/// some slots, and answers how many they are. In order of date they are the days after the settlement on
/// which its calls stand, each at the price of its call, and its maturity at 100, unless it has been
/// called. A note has its maturity alone.
pub fn put_candidates(slots: &mut [Candidate], issue: &Issue, settlement: Day) -> usize
    requires settled { settles issue.now settlement ≡ true }
    requires room { 100 ≤ length slots.old }
    // promise 3: the redemptions to come, with their labels; the maturity is none if the issue has been called
    ensures candidates { AreCandidates issue.now settlement (take result slots.new) }
    // promise 3: 1 to 100 of them
    ensures count { (1 ≤ result) × (result ≤ 100) }
    // promise 3: in order of date
    ensures rising { AllPairs IsRedeemedEarlier (take result slots.new) }
    ensures len { length slots.new ≡ length slots.old }
{
    let date = issue.row().maturity;
    let pricing = pricing_at(issue, settlement);
    let calls = put_calls(slots, issue, settlement, &pricing);
    if issue.is_called() {
        return calls;
    }
    slots[calls] = Candidate {
        date,
        price: Price::PAR,
        label: Label::Maturity,
        shape: shape_at(issue, &pricing, settlement, date, Price::PAR),
    };
    calls + 1
}

// Answers on how many days to come the calls stand.
fn put_calls(slots: &mut [Candidate], issue: &Issue, settlement: Day, pricing: &Pricing) -> usize
    requires settled { settles issue.now settlement ≡ true }
    requires room { 100 ≤ length slots.old }
    requires pricing { IsPricing issue.now settlement pricing.now }
    ensures candidates { AreCandidatesOf issue.now settlement (calls_of issue.now)
        (take result slots.new) }
    ensures few { result ≤ 99 }
    ensures len { length slots.new ≡ length slots.old }
{
    let mut count = 0;
    for (place, call) in issue.row().calls.iter().enumerate() {
        for half_years in 0..issue.call_days(place) {
            let date = half_years_on(call.date, half_years);
            if is_to_come(date, settlement) {
                slots[count] = Candidate {
                    date,
                    price: call.price,
                    label: call_label(call),
                    shape: shape_at(issue, pricing, settlement, date, call.price),
                };
                count += 1;
            }
        }
    }
    count
}

fn is_to_come(date: Day, settlement: Day) -> bool
    ensures { result ≡ is_before (civil settlement) (civil date) }
{
    settlement < date
}

fn call_label(call: &Call) -> Label
    ensures { result ≡ label_of_entry call.now.term call.now.price }
{
    if call.is_certain() {
        Label::Called
    } else if call.price == Price::PAR {
        Label::ParOption
    } else {
        Label::Call
    }
}
