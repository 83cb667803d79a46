//! Puts of the terms of issues and of versions.

ghost use Rattle.muni_store_trees.specs.Adds.{Puts};
ghost use Rattle.muni_store_trees.specs.Puts as spec;

use crate::add::{Keyed, add_row};
use crate::fault::TreeFault;
use crate::keys::{issue_key, issue_values, version_key, version_values};
use crate::places::Places;
use muni_msg::{Key, Version};
use muni_store_rows::{WrittenVersion, numbered_columns};
use muni_terms::Issue;
use sqlite_trees::store::Store;
use std::alloc::Global;

/// Keeps terms of an issue. Those whose number is kept already are refused.
pub(crate) fn put_issue<S: Store>(
    store: &mut S,
    places: Places,
    alloc: Global,
    number: u32,
    issue: &Issue,
) -> Result<(), TreeFault>
    ensures puts { Puts S.Store.view S.Store.recovers (spec.AddsIssue places number issue.now) result
        store.old store.new }
{
    let keyed = Keyed {
        table: places.issues,
        index: places.cusips,
    };
    let columns = numbered_columns(number, issue);
    let key = issue_key(alloc, &issue.row().cusip, number)?;
    add_row(store, keyed, alloc, key, &issue_values(&columns))
}

/// Keeps a version of a trade. One whose number is kept already is refused.
pub(crate) fn put_version<S: Store>(
    store: &mut S,
    places: Places,
    alloc: Global,
    key: &Key,
    number: u32,
    version: &Version,
) -> Result<(), TreeFault>
    ensures puts { Puts S.Store.view S.Store.recovers
        (spec.AddsVersion places key.now number version.now) result store.old store.new }
{
    let keyed = Keyed {
        table: places.versions,
        index: places.keys,
    };
    let written = WrittenVersion::new(key, number, version);
    let row = written.row();
    let wanted = version_key(alloc, key, number)?;
    add_row(store, keyed, alloc, wanted, &version_values(&row))
}
