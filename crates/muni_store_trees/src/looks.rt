//! Look-ups of issues and versions.

ghost use Rattle.std.specs.Prelude.{◌≡◌, IsSome, IsTrue, IfOk, OnOk};
ghost use Rattle.sqlite_value.specs.Value.{owned};
ghost use Rattle.sqlite_trees.specs.View.{IsClean};
ghost use Rattle.muni_store_trees.specs.Found as spec;
ghost use Rattle.muni_store_trees.specs.Looks.{Looks};

use crate::fault::TreeFault;
use crate::keys::{cusip_key, cusip_key_past, desk_key_past, issue_key, trade_key, version_key};
use crate::places::Places;
use crate::rows::{TableRow, number_in, read_cusip, read_desk, read_issue, read_trade, text_in};
use crate::scan::{first_from, first_match, is_table};
use muni_msg::{DeskName, Key, Version};
use muni_terms::Issue;
use sqlite_trees::store::{Direction, Store};
use sqlite_value::row::Row;
use sqlite_value::value::ValueRef;
use std::alloc::Global;

/// Reads the row of a table that has the rowid in a value.
pub(crate) fn read_row<S: Store>(
    store: &mut S,
    table: u32,
    id: ValueRef<'_>,
    row: &mut Row,
) -> Result<(), TreeFault>
    ensures found { OnOk result (IsClean (S.Store.view store.new)
        → spec.HasRow ((S.Store.view store.old).trees table) (owned id.entry) row.new) }
    ensures same { OnOk result (IsClean (S.Store.view store.new) → S.Store.view store.new ≡ S.Store.view store.old) }
    ensures live { OnOk result (IsSome ((S.Store.view store.old).cursors 0) → IsSome ((S.Store.view store.new).cursors 0)) }
    ensures looks { Looks S.Store.view S.Store.recovers result store.old store.new }
{
    let ValueRef::Int(id) = id else {
        return Err(TreeFault::Failed);
    };
    if !is_table(store.shape(table)) {
        return Err(TreeFault::Failed);
    }
    if store.get(table, id, row)? {
        Ok(())
    } else {
        Err(TreeFault::Failed)
    }
}

/// The number and the terms to which an entry of the index of CUSIPs and numbers leads.
fn read_issue_at<S: Store>(
    store: &mut S,
    places: Places,
    alloc: Global,
    entry: &Row,
) -> Result<(u32, Issue), TreeFault>
    ensures read { IfOk result (λ found. IsClean (S.Store.view store.new)
        → spec.ReadsIssue ((S.Store.view store.old).trees places.issues) entry.now found) }
    ensures looks { Looks S.Store.view S.Store.recovers result store.old store.new }
{
    let mut row = Row::new(alloc);
    read_row(store, places.issues, entry.get(2), &mut row)?;
    let (number, issue) = read_issue(&TableRow(&row)).ok_or(TreeFault::Failed)?;
    if is_entry_of_terms(entry, number, &issue) {
        Ok((number, issue))
    } else {
        Err(TreeFault::Failed)
    }
}

/// Whether an entry of the index of CUSIPs and numbers has those of these terms.
fn is_entry_of_terms(entry: &Row, number: u32, issue: &Issue) -> bool
    ensures { IsTrue result → spec.HasTerms entry.now (number, issue.now) }
{
    text_in(entry, 0) == issue.row().cusip.as_slice() && number_in(entry, 1) == i64::from(number)
}

/// The issue of a CUSIP by its last terms, with their number, if it is kept.
pub(crate) fn find_last_issue<S: Store>(
    store: &mut S,
    places: Places,
    alloc: Global,
    cusip: &[u8; 9],
) -> Result<Option<(u32, Issue)>, TreeFault>
    ensures found { IfOk result (λ found. IsClean (S.Store.view store.new)
        → spec.IsLastIssue places (S.Store.view store.old).trees cusip.now found) }
    ensures looks { Looks S.Store.view S.Store.recovers result store.old store.new }
{
    let key = cusip_key(alloc, cusip)?;
    let mut entry = Row::new(alloc);
    if !first_match(store, places.cusips, &key, Direction::Backward, &mut entry)? {
        return Ok(None);
    }
    let (found, issue) = read_issue_at(store, places, alloc, &entry)?;
    if issue.row().cusip == *cusip {
        Ok(Some((found, issue)))
    } else {
        Err(TreeFault::Failed)
    }
}

/// The issue of a CUSIP by its last terms, if it is kept.
pub(crate) fn find_issue<S: Store>(
    store: &mut S,
    places: Places,
    alloc: Global,
    cusip: &[u8; 9],
) -> Result<Option<Issue>, TreeFault>
    ensures found { IfOk result (λ found. IsClean (S.Store.view store.new)
        → spec.IsIssue places (S.Store.view store.old).trees cusip.now found) }
    ensures looks { Looks S.Store.view S.Store.recovers result store.old store.new }
{
    match find_last_issue(store, places, alloc, cusip)? {
        Some((_, issue)) => Ok(Some(issue)),
        None => Ok(None),
    }
}

/// The issue of a CUSIP by its terms with this number, if they are kept.
pub(crate) fn find_issue_numbered<S: Store>(
    store: &mut S,
    places: Places,
    alloc: Global,
    cusip: &[u8; 9],
    number: u32,
) -> Result<Option<Issue>, TreeFault>
    ensures found { IfOk result (λ found. IsClean (S.Store.view store.new)
        → spec.IsIssueNumbered places (S.Store.view store.old).trees cusip.now number found) }
    ensures looks { Looks S.Store.view S.Store.recovers result store.old store.new }
{
    let key = issue_key(alloc, cusip, number)?;
    let mut entry = Row::new(alloc);
    if !first_match(store, places.cusips, &key, Direction::Forward, &mut entry)? {
        return Ok(None);
    }
    let (found, issue) = read_issue_at(store, places, alloc, &entry)?;
    if issue.row().cusip == *cusip && found == number {
        Ok(Some(issue))
    } else {
        Err(TreeFault::Failed)
    }
}

/// The first CUSIP after another, or the first of all if none is given, and its issue by its last terms.
pub(crate) fn find_issue_past<S: Store>(
    store: &mut S,
    places: Places,
    alloc: Global,
    after: &Option<[u8; 9]>,
) -> Result<Option<([u8; 9], Issue)>, TreeFault>
    ensures found { IfOk result (λ found. IsClean (S.Store.view store.new)
        → spec.IsIssuePast places (S.Store.view store.old).trees after.now found) }
    ensures looks { Looks S.Store.view S.Store.recovers result store.old store.new }
{
    let key = cusip_key_past(alloc, after)?;
    let mut entry = Row::new(alloc);
    if !first_from(store, places.cusips, &key, &mut entry)? {
        return Ok(None);
    }
    let cusip = read_cusip(&entry).ok_or(TreeFault::Failed)?;
    match find_issue(store, places, alloc, &cusip)? {
        Some(issue) => Ok(Some((cusip, issue))),
        None => Err(TreeFault::Failed),
    }
}

/// The first desk with trades after a desk, or the first of all if none is given.
pub(crate) fn find_desk_past<S: Store>(
    store: &mut S,
    places: Places,
    alloc: Global,
    after: &Option<DeskName>,
) -> Result<Option<DeskName>, TreeFault>
    ensures found { IfOk result (λ found. IsClean (S.Store.view store.new)
        → spec.IsDeskPast places (S.Store.view store.old).trees after.now found) }
    ensures looks { Looks S.Store.view S.Store.recovers result store.old store.new }
{
    let key = desk_key_past(alloc, after)?;
    let mut entry = Row::new(alloc);
    if !first_from(store, places.keys, &key, &mut entry)? {
        return Ok(None);
    }
    Ok(Some(read_desk(&entry).ok_or(TreeFault::Failed)?))
}

/// The trade, the number and the version to which an entry of the index of keys leads.
fn read_version_at<S: Store>(
    store: &mut S,
    places: Places,
    alloc: Global,
    entry: &Row,
) -> Result<(Key, u32, Version), TreeFault>
    ensures read { IfOk result (λ trade. IsClean (S.Store.view store.new)
        → spec.ReadsVersion ((S.Store.view store.old).trees places.versions) entry.now trade) }
    ensures same { OnOk result (IsClean (S.Store.view store.new)
        → S.Store.view store.new ≡ S.Store.view store.old) }
    ensures live { OnOk result (IsSome ((S.Store.view store.old).cursors 0)
        → IsSome ((S.Store.view store.new).cursors 0)) }
    ensures looks { Looks S.Store.view S.Store.recovers result store.old store.new }
{
    let mut row = Row::new(alloc);
    read_row(store, places.versions, entry.get(3), &mut row)?;
    let (key, number, version) = read_trade(&TableRow(&row)).ok_or(TreeFault::Failed)?;
    if is_entry_of(entry, &key, number) {
        Ok((key, number, version))
    } else {
        Err(TreeFault::Failed)
    }
}

/// Whether an entry of the index of keys has the key of a version.
pub(crate) fn is_entry_of(entry: &Row, key: &Key, number: u32) -> bool
    ensures { IsTrue result → spec.HasKey entry.now key.now number }
{
    text_in(entry, 0) == key.desk.bytes()
        && text_in(entry, 1) == key.reference.bytes()
        && number_in(entry, 2) == i64::from(number)
}

/// The version of a trade with this number, if it is kept.
pub(crate) fn find_version<S: Store>(
    store: &mut S,
    places: Places,
    alloc: Global,
    key: &Key,
    number: u32,
) -> Result<Option<Version>, TreeFault>
    ensures found { IfOk result (λ found. IsClean (S.Store.view store.new)
        → spec.IsVersion places (S.Store.view store.old).trees key.now number found) }
    ensures looks { Looks S.Store.view S.Store.recovers result store.old store.new }
{
    let wanted = version_key(alloc, key, number)?;
    let mut entry = Row::new(alloc);
    if !first_match(store, places.keys, &wanted, Direction::Forward, &mut entry)? {
        return Ok(None);
    }
    let (found, at, version) = read_version_at(store, places, alloc, &entry)?;
    if found == *key && at == number {
        Ok(Some(version))
    } else {
        Err(TreeFault::Failed)
    }
}

/// The last version of a trade with its number, if any is kept.
pub(crate) fn find_last<S: Store>(
    store: &mut S,
    places: Places,
    alloc: Global,
    key: &Key,
) -> Result<Option<(u32, Version)>, TreeFault>
    ensures found { IfOk result (λ found. IsClean (S.Store.view store.new)
        → spec.IsLast places (S.Store.view store.old).trees key.now found) }
    ensures looks { Looks S.Store.view S.Store.recovers result store.old store.new }
{
    let wanted = trade_key(alloc, key)?;
    let mut entry = Row::new(alloc);
    if !first_match(store, places.keys, &wanted, Direction::Backward, &mut entry)? {
        return Ok(None);
    }
    let (found, number, version) = read_version_at(store, places, alloc, &entry)?;
    if found == *key {
        Ok(Some((number, version)))
    } else {
        Err(TreeFault::Failed)
    }
}
