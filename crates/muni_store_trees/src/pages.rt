//! Scans of the trades of a desk.

ghost use Rattle.std.specs.Prelude.{◌≡◌, ◌+◌, ◌<◌, ◌∷◌, IsSome, Some, IfSome, IfOk, OnOk, List, drop};
ghost use Rattle.arrayvec.specs.ArrayVec.{array_vec_len};
ghost use Rattle.sqlite_value.specs.Order.{Row as Entry};
ghost use Rattle.sqlite_trees.specs.View.{IsClean};
ghost use Rattle.muni_store_trees.specs.Entries.{Scans};
ghost use Rattle.muni_store_trees.specs.Found as spec;
ghost use Rattle.muni_store_trees.specs.Looks.{Looks};
ghost use Rattle.muni_store_trees.specs.Rows.{trade_in};

use crate::fault::TreeFault;
use crate::keys::{desk_key, trade_key_past};
use crate::looks::{is_entry_of, read_row};
use crate::places::Places;
use crate::rows::{TableRow, number_in, read_reference, read_trade, text_in};
use crate::scan::{begin, begin_from, next};
use arrayvec::ArrayVec;
use muni_msg::{DeskName, Line, Reference};
use sqlite_trees::store::{Direction, Store};
use sqlite_value::row::Row;
use std::alloc::Global;
use std::mem;

/// Whether an entry is that of the first version of a trade.
fn is_first(entry: &Row) -> bool
    ensures { result ≡ spec.is_first_version entry.now }
{
    number_in(entry, 2) == 1
}

/// How many trades a desk has, or 4,294,967,295 if it has more. Each has a first version.
pub(crate) fn count_trades<S: Store>(
    store: &mut S,
    places: Places,
    alloc: Global,
    desk: &DeskName,
) -> Result<u32, TreeFault>
    ensures found { IfOk result (λ count. IsClean (S.Store.view store.new)
        → count ≡ spec.trade_count places (S.Store.view store.old).trees desk.now) }
    ensures looks { Looks S.Store.view S.Store.recovers result store.old store.new }
{
    let key = desk_key(alloc, desk)?;
    let mut entry = Row::new(alloc);
    begin(store, places.keys, &key, Direction::Forward)?;
    let mut count = 0u32;
    for _ in 0..u64::MAX {
        if !next(store, &key, &mut entry)? {
            return Ok(count);
        }
        if is_first(&entry) {
            count = count.saturating_add(1);
        }
    }
    Err(TreeFault::Failed)
}

/// The reference after which the last 50 trades of a desk come, or none if it has no more than these.
pub(crate) fn find_before_latest<S: Store>(
    store: &mut S,
    places: Places,
    alloc: Global,
    desk: &DeskName,
) -> Result<Option<Reference>, TreeFault>
    ensures found { IfOk result (λ found. IsClean (S.Store.view store.new)
        → spec.IsBeforeLatest places (S.Store.view store.old).trees desk.now found) }
    ensures looks { Looks S.Store.view S.Store.recovers result store.old store.new }
{
    let key = desk_key(alloc, desk)?;
    let mut entry = Row::new(alloc);
    begin(store, places.keys, &key, Direction::Backward)?;
    let mut passed = 0u32;
    for _ in 0..u64::MAX {
        if !next(store, &key, &mut entry)? {
            return Ok(None);
        }
        if is_first(&entry) {
            if passed == 50 {
                return Ok(Some(read_reference(&entry).ok_or(TreeFault::Failed)?));
            }
            passed += 1;
        }
    }
    Err(TreeFault::Failed)
}

/// Moves an entry on to the last one of its trade, and says whether another trade of the desk follows,
/// whose first entry is then read.
fn pass_trade<S: Store>(
    store: &mut S,
    desk: &Row,
    entry: &mut Row,
    following: &mut Row,
) -> Result<bool, TreeFault>
    requires { IsSome ((S.Store.view store.old).cursors 0) }
    ensures past { IfOk result (λ more. IsClean (S.Store.view store.new) → (left : List Entry)
        → Scans (S.Store.view store.old) desk.now left
        → spec.IsPast (S.Store.view store.new) desk.now (entry.old ∷ left) entry.new following.new more) }
    ensures live { OnOk result (IsSome ((S.Store.view store.new).cursors 0)) }
    ensures looks { Looks S.Store.view S.Store.recovers result store.old store.new }
{
    for _ in 0..u64::MAX {
        if !next(store, desk, following)? {
            return Ok(false);
        }
        if text_in(entry, 1) != text_in(following, 1) {
            return Ok(true);
        }
        mem::swap(entry, following);
    }
    Err(TreeFault::Failed)
}

/// The line of the trade of a desk in a row, if an entry has the key of that.
fn line_in(desk: &DeskName, entry: &Row, row: &Row) -> Option<Line>
    ensures read { IfSome result (λ line. trade_in (drop 1 row.now) ≡ Some (spec.traded desk.now line)) }
    ensures same { IfSome result (λ line. spec.HasKey entry.now (spec.traded desk.now line).0 line.number) }
{
    let (key, number, version) = read_trade(&TableRow(row))?;
    if key.desk != *desk || !is_entry_of(entry, &key, number) {
        return None;
    }
    Some(Line {
        reference: key.reference,
        number,
        version,
    })
}

/// Adds the line of the trade of a desk to which an entry leads. The row is where its version is read.
fn add_line<S: Store>(
    store: &mut S,
    places: Places,
    desk: &DeskName,
    entry: &Row,
    row: &mut Row,
    lines: &mut ArrayVec<Line, 50>,
) -> Result<(), TreeFault>
    requires { array_vec_len lines.old < 50 }
    ensures added { OnOk result (IsClean (S.Store.view store.new)
        → spec.AddsLine ((S.Store.view store.old).trees places.versions) desk.now entry.now lines.old.items lines.new.items) }
    ensures len { OnOk result (array_vec_len lines.new ≡ array_vec_len lines.old + 1) }
    ensures same { OnOk result (IsClean (S.Store.view store.new)
        → S.Store.view store.new ≡ S.Store.view store.old) }
    ensures live { OnOk result (IsSome ((S.Store.view store.old).cursors 0)
        → IsSome ((S.Store.view store.new).cursors 0)) }
    ensures looks { Looks S.Store.view S.Store.recovers result store.old store.new }
{
    read_row(store, places.versions, entry.get(3), row)?;
    match line_in(desk, entry, row) {
        Some(line) => {
            lines.push(line);
            Ok(())
        }
        None => Err(TreeFault::Failed),
    }
}

/// Replaces the lines by the first 50 trades of a desk after a reference, or the first of all if none is
/// given, each with its last version.
pub(crate) fn read_page<S: Store>(
    store: &mut S,
    places: Places,
    alloc: Global,
    desk: &DeskName,
    after: &Option<Reference>,
    lines: &mut ArrayVec<Line, 50>,
) -> Result<(), TreeFault>
    ensures found { OnOk result (IsClean (S.Store.view store.new)
        → spec.IsPage places (S.Store.view store.old).trees desk.now after.now lines.new.items) }
    ensures looks { Looks S.Store.view S.Store.recovers result store.old store.new }
{
    let key = desk_key(alloc, desk)?;
    let start = trade_key_past(alloc, desk, after)?;
    begin_from(store, places.keys, &key, &start)?;
    let mut entry = Row::new(alloc);
    let mut following = Row::new(alloc);
    let mut row = Row::new(alloc);
    lines.clear();
    let mut is_more = next(store, &key, &mut entry)?;
    'page: while is_more && lines.len() < 50 {
        is_more = pass_trade(store, &key, &mut entry, &mut following)?;
        add_line(store, places, desk, &entry, &mut row, lines)?;
        mem::swap(&mut entry, &mut following);
    }
    Ok(())
}
