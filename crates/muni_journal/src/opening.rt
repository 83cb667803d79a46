//! Opens a journal.

ghost use Rattle.std.specs.Prelude.{◌≡◌, None, IfOk, IfErr};
ghost use Rattle.muni_journal.specs.Journal.{HasTables};
ghost use Rattle.muni_journal.specs.Keeper.{IsUnsettled, IsLetGo};
ghost use Rattle.muni_journal.specs.Looks.{Stays};
ghost use Rattle.muni_journal.specs.Opened.{left, IsKeeperOf, IsUnfetched};

use crate::fetching::{FetchFault, read_slots};
use crate::keeper::JournalKeeper;
use muni_edge::Faults;
use muni_journal_disk::{Disk, DiskFault};
use muni_keep::MemTables;
use std::alloc::Global;

/// A disk from which no keeper was fetched, and why.
#[derive(Drop)]
pub struct Unfetched<D: Disk> {
    pub fault: FetchFault,
    pub disk: D,
}

/// A keeper whose failed put could not be taken back, and why.
#[derive(Drop)]
pub(crate) struct Unsettled<D: Disk> {
    pub fault: DiskFault,
    pub keeper: JournalKeeper<D>,
}

/// The keeper of the tables for which a disk stands. The disk is synced first.
pub fn open<D: Disk + Drop>(alloc: Global, disk: D) -> Result<JournalKeeper<D>, Unfetched<D>>
    // promise 8: a disk that holds a journal is opened with its tables, and no put is in doubt
    ensures found { IfOk result (IsKeeperOf D.Disk disk) }
    // promise 8: a disk that holds none is refused
    ensures refused { IfErr result (IsUnfetched D.Disk disk) }

    // What the disk reads as stays, and no image comes, nor does one within the call.
    // promise 8: what a stop may leave stays while it is opened
    ensures stays { Stays D.Disk disk (left result) }
{
    let mut disk = disk;
    let mut kept = MemTables::new(alloc);
    if let Err(fault) = disk.sync() {
        return Err(Unfetched {
            fault: FetchFault::Disk(fault),
            disk,
        });
    }
    match read_slots(&mut disk, &mut kept) {
        Ok(gate) => Ok(JournalKeeper {
            disk,
            gate,
            kept,
            in_doubt: None,
            faults: Faults::none(),
        }),
        Err(fault) => Err(Unfetched { fault, disk }),
    }
}

impl<D: Disk> JournalKeeper<D> {
    /// Its disk, which stands for its tables if no put is in doubt.
    pub fn disk(&self) -> &D
        ensures disk { result.now ≡ self.now.disk }
        ensures stands { self.now.in_doubt ≡ None → HasTables (D.bytes self.now.disk) self.now.kept }
    {
        &self.disk
    }

    /// Its disk, which then stands for its tables, if no put is in doubt or the one that is can be
    /// taken back.
    pub(crate) fn into_disk(self) -> Result<D, Unsettled<D>>
        ensures let_go { IfOk result (IsLetGo D.Disk self) }
        ensures refused { IfErr result
            (λ unsettled. IsUnsettled D.Disk unsettled.fault self unsettled.keeper) }
    {
        let mut keeper = self;
        if let Err(fault) = keeper.settle() {
            return Err(Unsettled { fault, keeper });
        }
        let JournalKeeper { disk, .. } = keeper;
        Ok(disk)
    }

    /// The same keeper with no fault counted.
    pub(crate) fn uncounted(self) -> JournalKeeper<D>
        ensures tables { result.kept ≡ self.kept }
        ensures disk { result.disk ≡ self.disk }
        ensures count { result.faults ≡ 0 }
    {
        let mut keeper = self;
        keeper.faults = Faults::none();
        keeper
    }
}
