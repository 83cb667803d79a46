//! The opening of a store that is known to be sound: its header, its free list and its list of tables are
//! read, and nothing else.

ghost use Rattle.std.specs.Prelude.{◌≡◌, ◌<◌, [], length, IsTrue, IfOk, OnOk};
ghost use Rattle.sqlite_store.specs.Unopened.{state_of, files_of, image, AreUsable};

use crate::catalog::{places_of, shapes_of, without_roots};
use crate::fault::StoreFault;
use muni_store_trees::{Places, TreeKeeper};
use sqlite::{FileStore, Files};
use sqlite_disk::Disk;
use sqlite_pager::{Options, Pager};
use sqlite_store::{OpenError, Unopened};
use sqlite_wal::{PageSize, probe_page_size};
use std::alloc::Global;

/// How many pages are kept in memory of a file that is not read as a whole.
const PAGES: usize = 256;

/// A keeper over the files of a store that is known to be sound, if it lists the tables of a desk and nothing that
/// must not be on them.
pub(crate) fn known_keeper<D: Disk + Drop>(
    alloc: Global,
    mut files: Files<D>,
    options: Options,
) -> Result<TreeKeeper<FileStore<D>>, StoreFault>
    requires log { IsTrue (D.Disk.is_usable files.log) }
    requires db { IsTrue (D.Disk.is_usable files.db) }
    requires nothing { D.Disk.seen files.db ≡ [] }
    ensures faults { IfOk result (λ keeper. keeper.faults ≡ 0) }
{
    let Some(size) = probe_page_size(&mut files)? else {
        return Err(StoreFault::Failed);
    };
    let options = Options {
        cache_pages: PAGES,
        ..options
    };
    let mut unopened = unopened(alloc, files, size, options)?;
    let places = list_tables(alloc, &mut unopened)?;
    match unopened.open_trusted() {
        Ok(store) => Ok(TreeKeeper::new(alloc, store, places, false)),
        Err((error, _)) => Err(fault_of(error)),
    }
}

fn unopened<D: Disk + Drop>(
    alloc: Global,
    files: Files<D>,
    size: PageSize,
    options: Options,
) -> Result<Unopened<D>, StoreFault>
    ensures files { IfOk result (λ it. files_of it ≡ (files.log, files.db)) }
{
    let Ok(pager) = Pager::new(alloc, files, size, options) else {
        return Err(StoreFault::NoMemory);
    };
    match Unopened::with_sums(alloc, pager, &[], false) {
        Ok(it) => Ok(it),
        Err(_) => Err(StoreFault::NoMemory),
    }
}

/// Lists the tables by what the files list. What was read of a file that is not empty is not what an empty
/// one holds.
fn list_tables<D: Disk + Drop>(alloc: Global, it: &mut Unopened<D>) -> Result<Places, StoreFault>
    requires { AreUsable it.old }
    ensures usable { OnOk result (AreUsable it.new) }
    ensures present { OnOk result (IsTrue (state_of it.new).is_clean → 0 < length (image it.old).db) }
{
    let listed = match it.read_catalog() {
        Ok(listed) => listed,
        Err(error) => return Err(fault_of(error)),
    };
    let are_indexes = match it.index_roots(listed.as_slice()) {
        Ok(found) => found,
        Err(error) => return Err(fault_of(error)),
    };
    let rows = without_roots(alloc, listed.as_slice())?;
    let Some(places) = places_of(rows.as_slice()) else {
        return Err(StoreFault::Failed);
    };
    let shapes = shapes_of(alloc, rows.as_slice(), are_indexes.as_slice())?;
    if it.list_schema(rows.as_slice(), shapes.as_slice())? {
        Ok(places)
    } else {
        Err(StoreFault::Failed)
    }
}

fn fault_of(error: OpenError) -> StoreFault {
    match error {
        OpenError::OutOfMemory => StoreFault::NoMemory,
        OpenError::Io | OpenError::Full | OpenError::Refused => StoreFault::Failed,
    }
}
