//! The list of tables of a database: whether it is that of a store, and which trees its tables are.

ghost use Rattle.std.specs.Prelude.{◌≡◌, length, IfSome, IfOk};
ghost use Rattle.std.specs.List.{list_any};
ghost use Rattle.sqlite_value.specs.Value.{owned};
ghost use Rattle.muni_store.specs.Catalog as spec;

use crate::schema::{ISSUES, VERSIONS};
use muni_store_trees::Places;
use sqlite::types::ValueRef;
use sqlite_trees::store::Shape;
use sqlite_value::keys::Order;
use sqlite_value::row::Row;
use std::alloc::{AllocError, Global};

/// What a row of the list is to a store.
#[derive(Clone, Copy, Debug, PartialEq, Eq)]
enum Listed {
    Issues,
    Cusips,
    Versions,
    Keys,
    /// A table of an earlier version of the program.
    Old,
    /// A view, or a table of the user's own with its indexes and triggers.
    Beside,
    /// What must not be on a table of a desk: another form of it, an index of one's own, or a trigger.
    Barred,
}

/// What a row of the list is to a store. A row is a rowid, type, name, table and SQL text.
fn kind_of_row(row: &Row) -> Listed
    ensures { result ≡ spec.kind_of_row row.now }
{
    if is_of_desk(row) {
        return kind_of_desk(row);
    }
    if is_text(row.get(1), b"table") && is_old_name(row.get(2)) {
        return Listed::Old;
    }
    Listed::Beside
}

fn is_of_desk(row: &Row) -> bool
    ensures { result ≡ spec.is_of_desk row.now }
{
    is_name(row.get(3), b"issues_3") || is_name(row.get(3), b"versions_3")
}

/// The indexes that sqlite makes for primary keys have these names.
fn kind_of_desk(row: &Row) -> Listed
    ensures { result ≡ spec.kind_of_desk row.now }
{
    if is_made_by(row, b"issues_3", ISSUES) {
        return Listed::Issues;
    }
    if is_made_by(row, b"versions_3", VERSIONS) {
        return Listed::Versions;
    }
    if is_listed_as(row, b"index", b"sqlite_autoindex_issues_3_1") {
        return Listed::Cusips;
    }
    if is_listed_as(row, b"index", b"sqlite_autoindex_versions_3_1") {
        return Listed::Keys;
    }
    Listed::Barred
}

fn is_made_by(row: &Row, name: &[u8], statement: &str) -> bool
    ensures { result ≡ spec.is_made_by row.now name.now statement.now }
{
    is_listed_as(row, b"table", name) && is_text(row.get(4), statement.as_bytes())
}

fn is_listed_as(row: &Row, kind: &[u8], name: &[u8]) -> bool
    ensures { result ≡ spec.is_listed_as row.now kind.now name.now }
{
    is_text(row.get(1), kind) && is_text(row.get(2), name)
}

/// The names of the tables of earlier versions of the program.
fn is_old_name(name: ValueRef<'_>) -> bool
    ensures { result ≡ spec.is_old_name (owned name.entry) }
{
    is_text(name, b"issues_2")
        || is_text(name, b"versions_2")
        || is_text(name, b"issues")
        || is_text(name, b"versions")
}

fn is_text(value: ValueRef<'_>, text: &[u8]) -> bool
    ensures { result ≡ spec.is_text (owned value.entry) text.now }
{
    match value {
        ValueRef::Text(bytes) => bytes == text,
        _ => false,
    }
}

/// The same in capitals or small letters, in which names of tables do not differ.
fn is_name(value: ValueRef<'_>, name: &[u8]) -> bool
    ensures { result ≡ spec.is_name (owned value.entry) name.now }
{
    match value {
        ValueRef::Text(bytes) => bytes.eq_ignore_ascii_case(name),
        _ => false,
    }
}

fn is_barred(row: &Row) -> bool
    ensures { result ≡ spec.is_barred row.now }
{
    matches!(kind_of_row(row), Listed::Barred)
}

/// Whether a row is of a table of a store, of today or of earlier versions.
fn is_table(row: &Row) -> bool
    ensures { result ≡ spec.is_table row.now }
{
    matches!(
        kind_of_row(row),
        Listed::Issues | Listed::Versions | Listed::Old
    )
}

fn lists_barred(rows: &[Row]) -> bool
    ensures { result ≡ list_any spec.is_barred rows.now }
{
    rows.iter().any(|row| is_barred(row))
}

fn lists_table(rows: &[Row]) -> bool
    ensures { result ≡ list_any spec.is_table rows.now }
{
    rows.iter().any(|row| is_table(row))
}

/// Whether a database that lists these is a store: it lists nothing yet, or a table of a store and nothing that
/// must not be on one.
pub(crate) fn is_store(rows: &[Row]) -> bool
    // promise 8: a database is a store if it lists nothing yet, or a store's table and nothing forbidden on one
    ensures { result ≡ spec.is_store rows.now }
{
    rows.is_empty() || (lists_table(rows) && !lists_barred(rows))
}

/// The tree that is listed so, if one is. Its number is its rowid less one.
fn tree_of(rows: &[Row], wanted: Listed) -> Option<u32>
    ensures { IfSome result (λ tree. spec.IsListed rows.now wanted tree) }
{
    for row in rows {
        if kind_of_row(row) == wanted {
            return tree_number(row);
        }
    }
    None
}

fn tree_number(row: &Row) -> Option<u32>
    ensures { IfSome result (λ tree. spec.HasNumber row.now tree) }
{
    match row.get(0) {
        ValueRef::Int(rowid) if rowid >= 1 => u32::try_from(rowid - 1).ok(),
        _ => None,
    }
}

/// Which trees the tables of a store are, if the list has them and their indexes, nothing that must not be on
/// them, and no table of an earlier version of the program.
pub(crate) fn places_of(rows: &[Row]) -> Option<Places>
    // promise 8: the two tables and their indexes are those that are listed so, and nothing else is on them
    ensures { IfSome result (λ places. spec.ArePlaces rows.now places) }
{
    if lists_barred(rows) || rows.iter().any(|row| kind_of_row(row) == Listed::Old) {
        return None;
    }
    Some(Places {
        issues: tree_of(rows, Listed::Issues)?,
        cusips: tree_of(rows, Listed::Cusips)?,
        versions: tree_of(rows, Listed::Versions)?,
        keys: tree_of(rows, Listed::Keys)?,
    })
}

/// The shape of each tree that is listed. No table of a desk has a column of the type REAL, and trees beside
/// them are never written.
pub(crate) fn shapes_of(
    alloc: Global,
    rows: &[Row],
    are_indexes: &[bool],
) -> Result<Vec<(Shape, u64)>, AllocError>
    requires { length are_indexes.now ≡ length rows.now }
    ensures { IfOk result (λ shapes. length shapes.items ≡ length rows.now) }
{
    let mut shapes = Vec::new(alloc);
    for at in 0..rows.len() {
        shapes.push((shape_of(&rows[at], are_indexes[at]), 0))?;
    }
    Ok(shapes)
}

/// The shape of the tree of a row. A table WITHOUT ROWID is an index too.
fn shape_of(row: &Row, is_index: bool) -> Shape {
    match kind_of_row(row) {
        Listed::Issues | Listed::Versions => Shape::Table,
        Listed::Cusips | Listed::Keys => Shape::Index(Order::PLAIN),
        _ if is_text(row.get(1), b"view") || is_text(row.get(1), b"trigger") => Shape::Pageless,
        _ if is_index => Shape::FrozenIndex(Order::PLAIN),
        _ => Shape::FrozenTable,
    }
}

/// The rows of a list without the pages at which trees begin.
pub(crate) fn without_roots(alloc: Global, listed: &[Row]) -> Result<Vec<Row>, AllocError>
    ensures { IfOk result (λ rows. length rows.items ≡ length listed.now) }
{
    let mut rows = Vec::new(alloc);
    for entry in listed {
        let mut row = Row::new(alloc);
        for at in [0usize, 1, 2, 3, 5] {
            row.push(entry.get(at))?;
        }
        rows.push(row)?;
    }
    Ok(rows)
}
