//! The least figures that searches know not to be reached.

ghost use Rattle.std.specs.Prelude.{◌≡◌, ◌≤◌, Option, All};
ghost use Rattle.muni_sched.specs.Search as spec;
ghost use Rattle.muni_sched.specs.Search.{IsSearch, IsKnownYield, missed_first, missed_after, ceiling_after};

use crate::CandidateOutcome;
use crate::search::OpenSearch;
use muni_yield::Place;

/// Whether a figure is known not to be reached by the ceiling.
pub(crate) fn is_at_ceiling(ceiling: Option<i32>, thousandths: i32) -> bool
    ensures { result ≡ spec.is_at_ceiling ceiling thousandths }
{
    match ceiling {
        Some(ceiling) => ceiling <= thousandths,
        None => false,
    }
}

/// The lower one of two figures, if there are any.
pub(crate) fn lower_of(ceiling: Option<i32>, other: Option<i32>) -> Option<i32>
    ensures { result ≡ spec.lower_of ceiling other }
{
    match (ceiling, other) {
        (Some(ceiling), Some(other)) => Some(ceiling.min(other)),
        (Some(ceiling), None) => Some(ceiling),
        (None, other) => other,
    }
}

/// The figure that an outcome shows not to be reached: the one after a yield that is printed.
pub(crate) fn missed_first(known: Option<CandidateOutcome>) -> Option<i32>
    requires { IsKnownYield known }
    ensures { result ≡ missed_first known }
{
    match known? {
        CandidateOutcome::Print(yld) => Some(yld.units() as i32 + 1),
        _ => None,
    }
}

/// The least figure that is not reached after searches were asked.
pub(crate) fn least_ceiling(searches: &[OpenSearch], before: Option<i32>) -> Option<i32>
    requires { All IsSearch searches.now }
    ensures { result ≡ ceiling_after before searches.now }
{
    let mut ceiling = before;
    for search in searches {
        ceiling = lower_of(ceiling, search.missed());
    }
    ceiling
}

/// The least place that is not reached after searches were asked.
pub(crate) fn least_missed(searches: &[OpenSearch], before: Place) -> Place
    ensures { result ≡ missed_after before searches.now }
{
    let mut missed = before;
    for search in searches {
        missed = missed.lower(search.guided.window().no());
    }
    missed
}
