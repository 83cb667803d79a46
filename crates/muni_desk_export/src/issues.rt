//! The rows of issues.

ghost use Rattle.std.specs.Prelude.{◌≡◌, Some, IfOk, IfSome, IsSome, OnOk, option_map, ◌++◌};
ghost use Rattle.muni_keep.specs.Tables.{issue_history, issue_numbered, last_issue};
ghost use Rattle.muni_desk_export.specs.Issues.{issues_left};
ghost use Rattle.muni_desk_export.specs.Issues as spec;
ghost use Rattle.muni_desk_export.specs.Looks.{LooksOver};
ghost use Rattle.muni_desk_export.specs.Pieces.{IsNext};

use crate::named::{Named, has};
use muni_export::RowWriter;
use muni_keep::{KeepFault, Keeper};
use muni_terms::Issue;
use std::alloc::Global;

/// The rows of the next issue after a CUSIP, or nothing if it is not wanted. `None` after the last.
pub(crate) fn next_issue<K: Keeper>(
    alloc: Global,
    keeper: &mut K,
    named: &Option<Named>,
    after: &mut Option<[u8; 9]>,
) -> Result<Option<Vec<u8>>, KeepFault>
    ensures next { IfOk result (λ piece. IfSome (K.tables keeper.old)
        (λ t. IsNext (issues_left t named.now after.old)
        (option_map (λ text. text.items) piece) (issues_left t named.now after.new))) }
    ensures looks { LooksOver K.Keeper result keeper.old keeper.new }
{
    let Some(next) = keeper.issue_past(after)? else {
        return Ok(None);
    };
    let text = rows_of(alloc, keeper, named, &next.0)?;
    *after = Some(next.0);
    Ok(Some(text))
}

// The rows of an issue that is kept, or nothing if it is not wanted.
fn rows_of<K: Keeper>(
    alloc: Global,
    keeper: &mut K,
    named: &Option<Named>,
    cusip: &[u8; 9],
) -> Result<Vec<u8>, KeepFault>
    requires kept { IfSome (K.tables keeper.old) (λ t. IsSome (issue_history t cusip.now)) }
    ensures text { IfOk result (λ text. IfSome (K.tables keeper.old)
        (λ t. text.items ≡ spec.text_at t (spec.is_wanted named.now) cusip.now)) }
    ensures looks { LooksOver K.Keeper result keeper.old keeper.new }
{
    let mut rows = RowWriter::new(alloc);
    if is_wanted(named, cusip) {
        put_terms(keeper, cusip, &mut rows)?;
    }
    Ok(rows.finish()?)
}

fn is_wanted(named: &Option<Named>, cusip: &[u8; 9]) -> bool
    ensures { result ≡ spec.is_wanted named.now cusip.now }
{
    match named {
        Some(named) => has(named, cusip),
        None => true,
    }
}

// The rows of all terms of an issue that is kept.
fn put_terms<K: Keeper>(
    keeper: &mut K,
    cusip: &[u8; 9],
    rows: &mut RowWriter,
) -> Result<(), KeepFault>
    requires kept { IfSome (K.tables keeper.old) (λ t. IsSome (issue_history t cusip.now)) }
    ensures rows { OnOk result (IfSome (K.tables keeper.old)
        (λ t. rows.new ≡ rows.old ++ spec.rows_at t cusip.now)) }
    ensures looks { LooksOver K.Keeper result keeper.old keeper.new }
{
    let last = last_terms(keeper, cusip)?;
    for number in 1..last.0 {
        let issue = terms_with(keeper, cusip, number)?;
        rows.issue(number, &issue)?;
    }
    rows.issue(last.0, &last.1)?;
    Ok(())
}

// The last terms of an issue that is kept, with their number. If they are missing in a store that does not
// expose its tables, the store has failed.
fn last_terms<K: Keeper>(keeper: &mut K, cusip: &[u8; 9]) -> Result<(u32, Issue), KeepFault>
    requires kept { IfSome (K.tables keeper.old) (λ t. IsSome (issue_history t cusip.now)) }
    ensures found { IfOk result (λ last. IfSome (K.tables keeper.old)
        (λ t. last_issue t cusip.now ≡ Some last)) }
    ensures looks { LooksOver K.Keeper result keeper.old keeper.new }
{
    match keeper.last_issue(cusip)? {
        Some(last) => Ok(last),
        None => Err(KeepFault::Failed),
    }
}

// Those with a number, which are kept.
fn terms_with<K: Keeper>(keeper: &mut K, cusip: &[u8; 9], number: u32) -> Result<Issue, KeepFault>
    requires kept { IfSome (K.tables keeper.old) (λ t. IsSome (issue_numbered t cusip.now number)) }
    ensures found { IfOk result (λ issue. IfSome (K.tables keeper.old)
        (λ t. issue_numbered t cusip.now number ≡ Some issue)) }
    ensures looks { LooksOver K.Keeper result keeper.old keeper.new }
{
    match keeper.issue_numbered(cusip, number)? {
        Some(issue) => Ok(issue),
        None => Err(KeepFault::Failed),
    }
}
