//! A database that was audited: its keeper, and its files once it is closed.

ghost use Rattle.std.specs.Prelude.{◌≡◌, false, IfOk, OnOk};

use crate::catalog::places_of;
use crate::fault::StoreFault;
use crate::moving::move_old_tables;
use crate::schema::{counts_some, make_tables};
use crate::store_file::Trust;
use muni_store_trees::TreeKeeper;
use sqlite::{Alter, Connection, FileStore, Files};
use sqlite_disk::Disk;
use std::alloc::Global;

/// What counts rows that no look-up finds: no name is empty, an issue begins with its terms of number 1, and a
/// trade with its version 1.
const COUNTS_OF_LOST: [&str; 4] = [
    "SELECT COUNT(*) FROM issues_3 WHERE cusip = ''",
    "SELECT COUNT(*) FROM (SELECT MIN(number) AS least FROM issues_3 GROUP BY cusip) WHERE least <> 1",
    "SELECT COUNT(*) FROM versions_3 WHERE desk = '' OR reference = ''",
    "SELECT COUNT(*) FROM (SELECT MIN(number) AS least FROM versions_3 GROUP BY desk, reference) \
     WHERE least <> 1",
];

/// Moves what the tables of earlier versions of the program have, makes those that are missing, and says whether
/// it has done either. If nothing is trusted a database with lost rows is refused.
pub(crate) fn prepare_tables<S: Alter>(
    alloc: Global,
    database: &mut Connection<S>,
    trust: Trust,
) -> Result<bool, StoreFault>
    // promise 8: once its tables are made or moved no transaction is open
    ensures idle { OnOk result (database.new.in_transaction ≡ false) }
{
    let moved = move_old_tables(alloc, database)?;
    let made = make_tables(database)?;
    if trust == Trust::Nothing && has_lost_rows(database)? {
        return Err(StoreFault::Failed);
    }
    if !database.is_autocommit() {
        return Err(StoreFault::Failed);
    }
    Ok(moved || made)
}

/// A keeper over a database that was audited and has its tables, and that was changed already or was not.
pub(crate) fn keeper_over<S: Alter + Drop>(
    alloc: Global,
    database: Connection<S>,
    is_changed: bool,
) -> Result<TreeKeeper<S>, StoreFault>
    requires idle { database.in_transaction ≡ false }
    ensures faults { IfOk result (λ keeper. keeper.faults ≡ 0) }
{
    let store = database.into_store();
    let listed = store.objects(alloc)?;
    match places_of(listed.as_slice()) {
        Some(places) => Ok(TreeKeeper::new(alloc, store, places, is_changed)),
        None => Err(StoreFault::Failed),
    }
}

fn has_lost_rows<S: Alter>(database: &mut Connection<S>) -> Result<bool, StoreFault> {
    for query in COUNTS_OF_LOST {
        if counts_some(database, query)? {
            return Ok(true);
        }
    }
    Ok(false)
}

/// The files of a database whose log is written into its file and synced.
pub(crate) fn settled<D: Disk + Drop>(
    database: Connection<FileStore<D>>,
) -> Result<Files<D>, StoreFault> {
    match database.close_files() {
        Ok(files) => Ok(files),
        Err((error, store)) => {
            drop(store.close());
            Err(error.into())
        }
    }
}
