//! The redemption that figures disclose.

ghost use Rattle.std.specs.Prelude.{◌≡◌, true, IfSome};
ghost use Rattle.std.specs.Option.{option_map};
ghost use Rattle.muni_sched.specs.Candidates.{IsCandidate};
ghost use Rattle.muni_readings.specs.Disclosed as spec;
ghost use Rattle.muni_readings.specs.Disclosed.{IsDisclosed};

use crate::Answered;
use muni_days::Day;
use muni_msg::Given;
use muni_sched::{Candidate, Schedule, out_of_range};

/// The redemption candidate on the day that the figures disclose, if what is given may be given for it. It is there
/// if the figures are right. The schedule is filled anew.
pub(crate) fn disclosed(answered: &Answered<'_>, schedule: &mut Schedule) -> Option<Candidate>
    ensures disclosed { IsDisclosed answered.now.issue.now answered.now.asked.now answered.now.figures.now
        result }
    ensures candidate { IfSome result IsCandidate }
    ensures given { IfSome result
        (λ found. spec.is_given_for answered.now.asked.now.given found ≡ true) }
{
    let asked = answered.asked;
    if !answered.issue.settles(asked.settle) {
        return None;
    }
    schedule.fill(answered.issue, asked.settle);
    match redeemed_on(
        schedule.candidates(),
        answered.figures.redemption,
        asked.given,
    ) {
        Some(found) => Some(*found),
        None => None,
    }
}

fn redeemed_on(list: &[Candidate], day: Day, given: Given) -> Option<&Candidate>
    ensures { option_map (λ candidate. candidate.now) result ≡ spec.redeemed_on day given list.now }
{
    list.iter().find(|candidate| candidate.date == day && is_given_for(given, candidate))
}

fn is_given_for(given: Given, candidate: &Candidate) -> bool
    ensures { result ≡ spec.is_given_for given candidate.now }
{
    match given {
        Given::AtYield(y) | Given::AtRate(y) => out_of_range(&[*candidate], y).is_none(),
        Given::AtPrice(_) => true,
    }
}
