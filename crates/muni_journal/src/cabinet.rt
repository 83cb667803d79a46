//! The cabinet that lends keepers over the journals of a shelf.

ghost use Rattle.std.specs.Prelude.{◌≡◌, ◌≢◌, ◌≤◌, ◌⊎◌, ℕ, List, Some, None, is_some, IfSome, IfNone, IsSomeAnd, IfOk, IfErr, OnOk, OnErr};
ghost use Rattle.muni_edge.specs.Calls.{raised};
ghost use Rattle.std.specs.Option.{option_map, ForSome};
ghost use Rattle.muni_edge.specs.Faults.{Rose};
ghost use Rattle.muni_keep.specs.Cabinet.{Fetches};
ghost use Rattle.muni_journal.specs.Cabinet.{IsBack, HeldFailed, DiskFailed};
ghost use Rattle.muni_journal.specs.Keeper.{IsUnsettled};
ghost use Rattle.muni_journal.specs.Told.{off_shelf};

use crate::faults::counted;
use crate::fetching::FetchFault;
use crate::keeper::JournalKeeper;
use crate::opening::{Unfetched, Unsettled, open};
use muni_edge::Faults;
use muni_journal_disk::{Disk, DiskFault, Shelf};
use muni_keep::{Cabinet, KeepFault, Keeper};
use std::alloc::Global;

/// A keeper whose failed put could not be taken back, and its name.
#[derive(Drop)]
pub(crate) struct Held<D: Disk> {
    name: Vec<u8>,
    keeper: JournalKeeper<D>,
}

/// Why a held keeper could not be let go, and the keeper.
#[derive(Drop)]
struct Unreleased<D: Disk> {
    fault: DiskFault,
    held: Held<D>,
}

/// Lends keepers over the journals of a shelf, one at a time. If the disk of a name exposes what it
/// reads as, and that stands for tables, the cabinet exposes these.
///
/// A keeper that comes back with a failed put that cannot be taken back is held, and the next fetch of
/// its name lends it again. A fetch of another name first tries to let it go.
#[derive(Drop)]
pub struct JournalCabinet<S: Shelf> {
    alloc: Global,
    shelf: S,
    out: Option<Vec<u8>>,
    held: Option<Held<S::D>>,
    faults: Faults,
    // The disk of the keeper that is out or held is off the shelf.
    ghost lent: { S.out shelf ≡ option_map (λ off. off.0) (off_shelf (option_map (λ name. name.items) out) (option_map (λ h. (h.name.items, h.keeper.kept)) held)) },
    ghost one: { ForSome out (λ _. held ≡ None) },
    ghost alike: { ForSome held (λ h. is_some (S.told shelf h.name.items) ≡ is_some (S.D.bytes h.keeper.disk)) },
}

/// Takes a failed put back, and puts the disk of a held keeper back on its shelf.
fn release<S: Shelf>(shelf: &mut S, held: Held<S::D>) -> Result<(), Unreleased<S::D>>
    requires out { S.out shelf.old ≡ Some held.name.items }
    requires alike { is_some (S.told shelf.old held.name.items) ≡ is_some (S.D.bytes held.keeper.disk) }

    ensures back { OnOk result (IsBack S.Shelf S.D.Disk held.name.items held.keeper shelf.old shelf.new) }
    ensures unchanged { OnErr result (shelf.new ≡ shelf.old) }
    ensures name { IfErr result (λ unreleased. unreleased.held.name.items ≡ held.name.items) }
    ensures refused { IfErr result (λ unreleased.
        IsUnsettled S.D.Disk unreleased.fault held.keeper unreleased.held.keeper) }
    ensures uncounted { S.faults shelf.new ≡ S.faults shelf.old }
{
    let Held { name, keeper } = held;
    match keeper.into_disk() {
        Ok(disk) => {
            shelf.put_back(&name, disk);
            Ok(())
        }
        Err(unsettled) => {
            let Unsettled { fault, keeper } = unsettled;
            let held = Held { name, keeper };
            Err(Unreleased { fault, held })
        }
    }
}

impl<S: Shelf> JournalCabinet<S> {
    /// A cabinet over a shelf with no disk out.
    pub fn new(alloc: Global, shelf: S) -> JournalCabinet<S>
        requires { S.out shelf ≡ None }
        ensures shelf { result.shelf ≡ shelf }
        ensures none_out { result.out ≡ None }
        ensures none_held { result.held ≡ None }
        ensures uncounted { result.faults ≡ 0 }
    {
        JournalCabinet {
            alloc,
            shelf,
            out: None,
            held: None,
            faults: Faults::none(),
        }
    }

    ghost use Rattle.muni_journal.specs.Whereabouts.{LendsAsItStands};

    /// Lends the keeper over the journal of a name. No keeper may be out or held.
    fn lend(&mut self, name: Vec<u8>) -> Result<JournalKeeper<S::D>, KeepFault>
        requires none_out { self.old.out ≡ None }
        requires none_held { self.old.held ≡ None }

        ensures fetched { Fetches ⟦<JournalCabinet<S> as Cabinet>⟧ ⟦<JournalKeeper<S::D> as Keeper>⟧
            name.items result self.old self.new }
        ensures settled { IfOk result (λ keeper. keeper.in_doubt ≡ None) }
        ensures stands { LendsAsItStands S.Shelf S.D.Disk name.items result self.old.shelf self.new.shelf }
        ensures held { self.new.held ≡ None }
        ensures counted { self.new.faults ≢ self.old.faults
            → Rose (S.faults self.old.shelf) (S.faults self.new.shelf)
            ⊎ DiskFailed S.Shelf name.items self.old.shelf self.new.shelf }
    {
        let disk = match self.shelf.take(&name) {
            Ok(disk) => disk,
            Err(fault) => return Err(counted(&mut self.faults, fault)),
        };
        match open(self.alloc, disk) {
            Ok(keeper) => {
                self.out = Some(name);
                Ok(keeper)
            }
            Err(unfetched) => {
                let Unfetched { fault, disk } = unfetched;
                self.shelf.put_back(&name, disk);
                Err(counted(&mut self.faults, disk_fault(fault)))
            }
        }
    }
}

/// What stands for no journal counts as a failure of the disk.
fn disk_fault(fault: FetchFault) -> DiskFault
    ensures failed { fault ≡ FetchFault.NotAJournal → result ≡ DiskFault.Failed }
    ensures cause { result ≡ DiskFault.Failed
        → (fault ≡ FetchFault.Disk DiskFault.Failed) ⊎ (fault ≡ FetchFault.NotAJournal) }
{
    match fault {
        FetchFault::Disk(fault) => fault,
        FetchFault::NotAJournal => DiskFault::Failed,
    }
}

impl<S: Shelf> Cabinet for JournalCabinet<S> {
    ghost use Rattle.std.specs.Option.{option_map};
    ghost use Rattle.muni_journal.specs.Told.{off_shelf, told_of, lent_as_of};
    ghost use Rattle.muni_journal.specs.GivenBack.{IsOutAs, TellsTables, TellsAsBefore, KeepsOthers};
    ghost use Rattle.muni_journal.specs.Whereabouts.{FetchesAsItStands, GivesBackAsItStands};

    type K = JournalKeeper<S::D>;

    ghost told = { λ cabinet. told_of (off_shelf (option_map (λ name. name.items) cabinet.out) (option_map (λ h. (h.name.items, h.keeper.kept)) cabinet.held)) (S.told cabinet.shelf) };

    ghost faults = { λ cabinet. cabinet.faults };

    ghost out = { λ cabinet. option_map (λ name. (name.items, lent_as_of (S.told cabinet.shelf name.items))) cabinet.out };

    fn fetch(&mut self, name: &[u8]) -> Result<JournalKeeper<S::D>, KeepFault>
        requires { self.old.out ≡ None }

        // promise 6: a keeper that is lent has the tables for which its disk stands
        ensures fetched { Fetches ⟦<JournalCabinet<S> as Cabinet>⟧ ⟦<JournalKeeper<S::D> as Keeper>⟧
            name.now result self.old self.new }

        // No put is in doubt but that of a keeper that was held. A stop leaves what it might have left before.
        // promise 8: no put is in doubt when a keeper is lent, unless it was held
        ensures settled { IfNone self.old.held (IfOk result (λ keeper. keeper.in_doubt ≡ None)) }
        // promise 8: what a stop may leave stays within a fetch
        ensures stands { FetchesAsItStands S.Shelf S.D.Disk name.now result
            self.old.held self.new.held self.old.shelf self.new.shelf }

        // It counts a fault only if its shelf failed, the disk of a held keeper did, or the disk of the
        // name failed or is no journal.
        // promise 9: only a failed shelf, a failed disk, or a disk that is no journal counts
        ensures counted { self.new.faults ≢ self.old.faults
            → Rose (S.faults self.old.shelf) (S.faults self.new.shelf)
            ⊎ HeldFailed S.D.Disk self.old.held self.new.held
            ⊎ DiskFailed S.Shelf name.now self.old.shelf self.new.shelf }
    {
        let name = name.to_vec(self.alloc)?;
        let Some(held) = self.held.take() else {
            return self.lend(name);
        };
        if held.name.as_slice() == name.as_slice() {
            self.out = Some(name);
            return Ok(held.keeper.uncounted());
        }
        match release(&mut self.shelf, held) {
            Ok(()) => self.lend(name),
            Err(unreleased) => {
                let Unreleased { fault, held } = unreleased;
                self.held = Some(held);
                Err(counted(&mut self.faults, fault))
            }
        }
    }

    fn give_back(&mut self, keeper: JournalKeeper<S::D>)
        requires { IsOutAs ⟦<JournalCabinet<S> as Cabinet>⟧ (lent_as_of (S.D.bytes keeper.disk)) self.old }

        // promise 6: a keeper that is given back leaves its tables under the name
        ensures tables { TellsTables ⟦<JournalCabinet<S> as Cabinet>⟧ keeper.kept self.old self.new }
        // promise 6: tables are told after it exactly if they were before
        ensures tells { TellsAsBefore ⟦<JournalCabinet<S> as Cabinet>⟧ self.old self.new }
        // promise 7: the tables of other names stay
        ensures others { KeepsOthers ⟦<JournalCabinet<S> as Cabinet>⟧ self.old self.new }
        ensures none_out { self.new.out ≡ None }
        // promise 9: a cabinet counts what its keepers counted
        ensures counted { self.new.faults ≡ raised self.old.faults keeper.faults }

        // A stop leaves what stands for the tables of the keeper, or for them after the put in doubt.
        // promise 8: what a stop may leave stays while a keeper is given back
        ensures stands { IfSome self.old.out (λ name. GivesBackAsItStands S.Shelf S.D.Disk
            name.items keeper self.new.held self.old.shelf self.new.shelf) }
    {
        self.faults.add(&keeper.faults);
        let Some(name) = self.out.take() else {
            return;
        };
        match keeper.into_disk() {
            Ok(disk) => self.shelf.put_back(&name, disk),
            Err(unsettled) => {
                let Unsettled { keeper, .. } = unsettled;
                self.held = Some(Held { name, keeper });
            }
        }
    }
}
