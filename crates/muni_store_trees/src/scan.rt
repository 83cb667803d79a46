//! Scans of the entries of an index.

ghost use Rattle.std.specs.Prelude.{◌≡◌, ◌++◌, IsSome, IsTrue, IfOk, OnOk, List, Some, None, slice_get, if◌then◌else◌};
ghost use Rattle.sqlite_value.specs.Order.{Row as Entry};
ghost use Rattle.sqlite_value.specs.Keys.{plain};
ghost use Rattle.sqlite_trees.specs.View.{IsClean};
ghost use Rattle.muni_store_trees.specs.Entries as spec;
ghost use Rattle.muni_store_trees.specs.Looks.{Looks};

use crate::fault::TreeFault;
use sqlite_trees::store::{Direction, Shape, Store};
use sqlite_value::keys::Order;
use sqlite_value::row::Row;
use std::cmp::Ordering;

/// Whether a tree is an index whose columns rise.
pub(crate) fn is_plain_index(shape: Shape) -> bool
    ensures { IsTrue result → shape ≡ Shape.Index plain }
{
    match shape {
        Shape::Index(order) => order == Order::PLAIN,
        _ => false,
    }
}

/// Whether a tree is a table that may be written.
pub(crate) fn is_table(shape: Shape) -> bool
    ensures { IsTrue result → shape ≡ Shape.Table }
{
    matches!(shape, Shape::Table)
}

/// Places the first cursor in an index.
fn seek<S: Store>(
    store: &mut S,
    index: u32,
    key: &Row,
    direction: Direction,
) -> Result<(), TreeFault>
    ensures sought { OnOk result (IsClean (S.Store.view store.new) → spec.IsSought (S.Store.view store.new)
        direction key.now ((S.Store.view store.old).trees index)) }
    ensures live { OnOk result (IsSome ((S.Store.view store.new).cursors 0)) }
    ensures looks { Looks S.Store.view S.Store.recovers result store.old store.new }
{
    if !is_plain_index(store.shape(index)) {
        return Err(TreeFault::Failed);
    }
    store.seek(0, index, key, direction)?;
    Ok(())
}

/// Begins a scan of the entries of an index that begin with a key, in a direction.
pub(crate) fn begin<S: Store>(
    store: &mut S,
    index: u32,
    key: &Row,
    direction: Direction,
) -> Result<(), TreeFault>
    ensures begun { OnOk result (IsClean (S.Store.view store.new) → spec.Scans (S.Store.view store.new) key.now
        (spec.in_direction direction (spec.matching key.now ((S.Store.view store.old).trees index)))) }
    ensures live { OnOk result (IsSome ((S.Store.view store.new).cursors 0)) }
    ensures looks { Looks S.Store.view S.Store.recovers result store.old store.new }
{
    seek(store, index, key, direction)?;
    Ok(())
}

/// The next entry of a scan, if one is left.
pub(crate) fn next<S: Store>(store: &mut S, key: &Row, entry: &mut Row) -> Result<bool, TreeFault>
    requires { IsSome ((S.Store.view store.old).cursors 0) }
    ensures found { IfOk result (λ found. IsClean (S.Store.view store.new) → (left : List Entry)
        → spec.Scans (S.Store.view store.old) key.now left
        → spec.Gives (S.Store.view store.new) key.now left entry.new found) }
    ensures live { OnOk result (IsSome ((S.Store.view store.new).cursors 0)) }
    ensures looks { Looks S.Store.view S.Store.recovers result store.old store.new }
{
    if !store.next(0, entry)? {
        return Ok(false);
    }
    Ok(entry.cmp_prefix(Order::PLAIN, key) == Ordering::Equal)
}

/// Begins a scan of the entries that begin with a key, from another key on that has more columns.
pub(crate) fn begin_from<S: Store>(
    store: &mut S,
    index: u32,
    key: &Row,
    start: &Row,
) -> Result<(), TreeFault>
    requires { (more : Entry) × (start.now ≡ key.now ++ more) }
    ensures begun { OnOk result (IsClean (S.Store.view store.new) → spec.Scans (S.Store.view store.new) key.now
        (spec.matching key.now (spec.from start.now ((S.Store.view store.old).trees index)))) }
    ensures live { OnOk result (IsSome ((S.Store.view store.new).cursors 0)) }
    ensures looks { Looks S.Store.view S.Store.recovers result store.old store.new }
{
    seek(store, index, start, Direction::Forward)?;
    Ok(())
}

/// The first entry of an index that is not below a key, if there is one.
pub(crate) fn first_from<S: Store>(
    store: &mut S,
    index: u32,
    key: &Row,
    entry: &mut Row,
) -> Result<bool, TreeFault>
    ensures found { IfOk result (λ found. IsClean (S.Store.view store.new)
        → slice_get (spec.from key.now ((S.Store.view store.old).trees index)) 0
        ≡ (if found then Some entry.new else None)) }
    ensures looks { Looks S.Store.view S.Store.recovers result store.old store.new }
{
    seek(store, index, key, Direction::Forward)?;
    Ok(store.next(0, entry)?)
}

/// The first entry of an index in a direction that begins with a key, if there is one.
pub(crate) fn first_match<S: Store>(
    store: &mut S,
    index: u32,
    key: &Row,
    direction: Direction,
    entry: &mut Row,
) -> Result<bool, TreeFault>
    ensures found { IfOk result (λ found. IsClean (S.Store.view store.new)
        → slice_get (spec.in_direction direction (spec.matching key.now ((S.Store.view store.old).trees index))) 0
        ≡ (if found then Some entry.new else None)) }
    ensures looks { Looks S.Store.view S.Store.recovers result store.old store.new }
{
    begin(store, index, key, direction)?;
    next(store, key, entry)
}
