//! The candidate that decides.

ghost use Rattle.std.specs.Prelude.{◌<◌, All, length, map};
ghost use Rattle.muni_sched.specs.Figures.{least_unsure, IsOf, IsLowestOf};
ghost use Rattle.muni_sched.specs.Lowest.{IsLowest};
ghost use Rattle.muni_sched.specs.Ranks.{decided_at, IsFirstOfLeastRank};

use crate::Ranked;

/// The candidate that decides the lowest figure by its outcome, the first of the least rank. The
/// outcomes are in order of date. With no candidate it is 0, and the lowest is `Above`.
pub fn lowest_of<O: Ranked>(outcomes: &[O]) -> usize
    requires { All (IsOf O.kind) (map O.outcome outcomes.now) }
    // promise 3: the lowest outcome, and the earliest of equal ones
    ensures lowest { IsLowest (least_unsure O.kind) (map O.outcome outcomes.now)
        (decided_at (map O.outcome outcomes.now) result) }
    ensures ranked { IsFirstOfLeastRank (least_unsure O.kind) (map O.outcome outcomes.now) result }
    // promise 3: of the redemption that has it
    ensures candidate { IsLowestOf O.kind (length outcomes.now)
        (decided_at (map O.outcome outcomes.now) result) }
    ensures inside { 0 < length outcomes.now → result < length outcomes.now }
{
    let mut candidate = 0;
    for (c, outcome) in outcomes.iter().enumerate() {
        if outcome.rank() < outcomes[candidate].rank() {
            candidate = c;
        }
    }
    candidate
}
