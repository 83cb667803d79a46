//! New rows of a table.

ghost use Rattle.std.specs.Prelude.{◌≡◌, ◌∷◌, [], IfOk, OnOk, IsTrue, Some, None, map, if◌then◌else◌};
ghost use Rattle.sqlite_value.specs.Value.{owned};
ghost use Rattle.sqlite_value.specs.declared.value.Value.TheVariants.{Int};
ghost use Rattle.sqlite_trees.specs.Tree.{rowid, IsTable};
ghost use Rattle.sqlite_trees.specs.View.{IsClean, is_int};
ghost use Rattle.muni_store_trees.specs.Adds as spec;
ghost use Rattle.muni_store_trees.specs.Looks.{Looks};

use crate::fault::TreeFault;
use crate::scan::{first_match, is_plain_index, is_table};
use sqlite_trees::store::{Direction, Store};
use sqlite_value::row::Row;
use sqlite_value::value::ValueRef;
use std::alloc::{AllocError, Global};

/// A table and the index of its keys.
#[derive(Clone, Copy)]
pub(crate) struct Keyed {
    pub(crate) table: u32,
    pub(crate) index: u32,
}

/// Reads the last row of a table, if it has one.
fn last_row<S: Store>(
    store: &mut S,
    table: u32,
    none: &Row,
    last: &mut Row,
) -> Result<bool, TreeFault>
    requires { none.now ≡ [] }
    ensures found { IfOk result (λ found. IsClean (S.Store.view store.new)
        → spec.IsLastRow ((S.Store.view store.old).trees table) (if found then Some last.new else None)) }
    ensures ordered { OnOk result (IsClean (S.Store.view store.new)
        → IsTable ((S.Store.view store.old).trees table)) }
    ensures looks { Looks S.Store.view S.Store.recovers result store.old store.new }
{
    if !is_table(store.shape(table)) {
        return Err(TreeFault::Failed);
    }
    store.seek(0, table, none, Direction::Backward)?;
    Ok(store.next(0, last)?)
}

/// The rowid after the last of a table, as sqlite gives it.
fn next_id<S: Store>(store: &mut S, table: u32, alloc: Global) -> Result<i64, TreeFault>
    ensures new { IfOk result (λ id. IsClean (S.Store.view store.new)
        → spec.IsNewId id ((S.Store.view store.old).trees table)) }
    ensures looks { Looks S.Store.view S.Store.recovers result store.old store.new }
{
    let mut last = Row::new(alloc);
    if !last_row(store, table, &Row::new(alloc), &mut last)? {
        return Ok(1);
    }
    id_after(&last)
}

/// The rowid after that of a row.
fn id_after(last: &Row) -> Result<i64, TreeFault>
    ensures { IfOk result (λ id. spec.IsIdAfter (Some last.now) id) }
{
    match last.get(0) {
        ValueRef::Int(id) => id.checked_add(1).ok_or(TreeFault::Failed),
        _ => Err(TreeFault::Failed),
    }
}

/// A rowid, and the columns of a table.
fn table_row(alloc: Global, id: i64, columns: &[ValueRef<'_>]) -> Result<Row, AllocError>
    ensures { IfOk result (λ row. row ≡ Int id ∷ map owned columns.now) }
{
    let mut row = Row::new(alloc);
    row.push(ValueRef::Int(id))?;
    for value in columns {
        row.push(*value)?;
    }
    Ok(row)
}

/// Sets a row in a table and its entry in the index, and commits neither.
fn set<S: Store>(store: &mut S, keyed: Keyed, row: &Row, entry: &Row) -> Result<(), TreeFault>
    requires { IsTrue (is_int (rowid row.now)) }
    ensures edits { spec.Edits S.Store.view S.Store.recovers
        (spec.Writes keyed.table keyed.index row.now entry.now) result store.old store.new }
{
    if !is_table(store.shape(keyed.table)) || !is_plain_index(store.shape(keyed.index)) {
        return Err(TreeFault::Failed);
    }
    store.put(keyed.table, row)?;
    store.insert(keyed.index, entry)?;
    Ok(())
}

/// The same, and commits both.
fn write<S: Store>(store: &mut S, keyed: Keyed, row: &Row, entry: &Row) -> Result<(), TreeFault>
    requires { IsTrue (is_int (rowid row.now)) }
    ensures puts { spec.Puts S.Store.view S.Store.recovers
        (spec.Writes keyed.table keyed.index row.now entry.now) result store.old store.new }
{
    set(store, keyed, row, entry)?;
    store.commit()?;
    Ok(())
}

/// Adds a row whose key is not kept yet.
pub(crate) fn add_row<S: Store>(
    store: &mut S,
    keyed: Keyed,
    alloc: Global,
    mut key: Row,
    columns: &[ValueRef<'_>],
) -> Result<(), TreeFault>
    ensures puts { spec.Puts S.Store.view S.Store.recovers
        (spec.AddsRow keyed.table keyed.index key (map owned columns.now)) result store.old store.new }
{
    if first_match(
        store,
        keyed.index,
        &key,
        Direction::Forward,
        &mut Row::new(alloc),
    )? {
        return Err(TreeFault::Failed);
    }
    let id = next_id(store, keyed.table, alloc)?;
    let row = table_row(alloc, id, columns)?;
    key.push(ValueRef::Int(id))?;
    write(store, keyed, &row, &key)
}
