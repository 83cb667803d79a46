//! The file of a store.

ghost use Rattle.std.specs.Prelude.{◌≡◌, IfOk, IfSome};

use crate::audited::{keeper_over, prepare_tables, settled};
use crate::fault::StoreFault;
use crate::keeper::OpensAnew;
use crate::look::{Found, Place};
use crate::new_log::{HeldLock, NewLog};
use crate::opening::known_keeper;
use crate::seal::Seal;
use muni_host::file::Missing;
use muni_store_trees::TreeKeeper;
use sqlite::{Connection, File, FileStore, Files, Options, Unknown};
use std::hash::{BuildHasher, RandomState};

/// What a file is taken to be sound by, without an audit.
#[derive(Clone, Copy, Debug, PartialEq, Eq)]
pub enum Trust {
    /// A seal of the files as they are.
    Seal,
    /// Nothing.
    Nothing,
}

/// The file of a store, by its path.
#[derive(Drop)]
pub struct StoreFile {
    rt: HostRuntime,
    path: Vec<u8>,
    trust: Trust,
    missing: Missing,
    // The file that the last open has found, and its log, if that open has made it.
    place: Option<Place>,
    new_log: Option<NewLog>,
    // Whether the file is as its seal says, as far as it was not changed since.
    is_sealed: bool,
}

impl StoreFile {
    pub(crate) fn new(rt: HostRuntime, path: Vec<u8>, trust: Trust, missing: Missing) -> StoreFile
        ensures path { result.path ≡ path }
        // promise 8: a check of a store trusts no seal
        ensures trust { result.trust ≡ trust }
    {
        StoreFile {
            rt,
            path,
            trust,
            missing,
            place: None,
            new_log: None,
            is_sealed: false,
        }
    }

    /// A keeper over the file. One that is no store is left as it was. One that is not as its seal says is
    /// audited, and so is one whose seal is not trusted.
    pub(crate) fn open(&mut self) -> Result<TreeKeeper<FileStore<File>>, StoreFault>
        ensures path { self.new.path ≡ self.old.path }
        ensures faults { IfOk result (λ keeper. keeper.faults ≡ 0) }
    {
        self.is_sealed = false;
        match self.trusted()? {
            Some(keeper) => Ok(keeper),
            None => self.open_audited(),
        }
    }

    // The keeper of a file that needs no audit. A seal that is not trusted is taken away, so that no command
    // trusts it if the audit refuses the file.
    fn trusted(&mut self) -> Result<Option<TreeKeeper<FileStore<File>>>, StoreFault>
        ensures path { self.new.path ≡ self.old.path }
        ensures faults { IfOk result (λ found. IfSome found (λ keeper. keeper.faults ≡ 0)) }
    {
        match self.trust {
            Trust::Seal => self.open_sealed(),
            Trust::Nothing => {
                let place = self.place_at_path()?;
                Seal::remove(&self.rt, place.path());
                Ok(None)
            }
        }
    }

    fn place_at_path(&self) -> Result<Place, StoreFault> {
        match std::str::from_utf8(&self.path) {
            Ok(path) => Place::open(&self.rt, path, self.missing),
            Err(_) => Err(StoreFault::Failed),
        }
    }

    // The keeper of a file that is as its seal says.
    fn open_sealed(&mut self) -> Result<Option<TreeKeeper<FileStore<File>>>, StoreFault>
        ensures path { self.new.path ≡ self.old.path }
        ensures faults { IfOk result (λ found. IfSome found (λ keeper. keeper.faults ≡ 0)) }
    {
        let place = self.place_at_path()?;
        let Some(seal) = Seal::read(&self.rt, place.path())? else {
            return Ok(None);
        };
        if !seal.is_of(&place.seen(&self.rt)?) {
            return Ok(None);
        }
        self.new_log = place.make_log(&self.rt)?;
        let files = sqlite_std_file::open(&self.rt, place.path(), Unknown)?;
        if !self.is_still(&place, &seal)? {
            self.remove_new_log(HeldLock::Files(&files));
            return Ok(None);
        }
        match known_keeper(self.rt.alloc(), files, self.options()?) {
            Ok(keeper) => {
                self.is_sealed = true;
                self.place = Some(place);
                Ok(Some(keeper))
            }
            Err(StoreFault::NoMemory) => Err(StoreFault::NoMemory),
            Err(_) => {
                Seal::remove(&self.rt, place.path());
                Ok(None)
            }
        }
    }

    // Looks once more under the lock, since until then other programs may change or replace the files.
    fn is_still(&self, place: &Place, seal: &Seal) -> Result<bool, StoreFault> {
        Ok(place.is_there(&self.rt)? && seal.is_of(&place.seen(&self.rt)?))
    }

    // The keeper of a file that was audited.
    fn open_audited(&mut self) -> Result<TreeKeeper<FileStore<File>>, StoreFault>
        ensures path { self.new.path ≡ self.old.path }
        ensures faults { IfOk result (λ keeper. keeper.faults ≡ 0) }
    {
        let mut database = self.connect()?;
        match prepare_tables(self.rt.alloc(), &mut database, self.trust) {
            Ok(is_changed) => keeper_over(self.rt.alloc(), database, is_changed),
            Err(fault) => {
                self.remove_new_log(HeldLock::Database(&database));
                Err(fault)
            }
        }
    }

    // Until the file is locked other programs may change or replace it. So what was seen before is looked at
    // again under the lock, before anything is written.
    fn connect(&mut self) -> Result<Connection<FileStore<File>>, StoreFault>
        ensures path { self.new.path ≡ self.old.path }
    {
        let options = self.options()?;
        let place = self.place_at_path()?;
        self.new_log = match place.look(&self.rt)? {
            Found::Unlogged => place.make_log(&self.rt)?,
            Found::Logged | Found::Unmade => None,
        };
        let files = sqlite_std_file::open(&self.rt, place.path(), Unknown)?;
        if let Err(fault) = place.look_again(&self.rt) {
            self.remove_new_log(HeldLock::Files(&files));
            return Err(fault);
        }
        match Connection::open_files_with(self.rt.alloc(), files, options, false) {
            Ok(database) => {
                self.place = Some(place);
                Ok(database)
            }
            Err((error, left)) => {
                self.remove_new_log(HeldLock::Leftover(&left));
                Err(error.into())
            }
        }
    }

    // A log that is begun anew gets another salt each time.
    fn options(&self) -> Result<Options, StoreFault> {
        Ok(Options::new(RandomState::new(&self.rt)?.hash_one(&0u8)))
    }

    // A log that cannot be removed stays beside the file, and nothing is lost.
    fn remove_new_log(&self, lock: HeldLock<'_>) {
        if let Some(log) = &self.new_log {
            let _ = log.remove(&self.rt, lock);
        }
    }

    /// Closes the file, and seals it. One that was not changed is left as it is. If the log cannot be copied into
    /// the file it stays beside it, and nothing is lost.
    pub(crate) fn close(&self, keeper: TreeKeeper<FileStore<File>>) {
        let (mut store, is_changed) = keeper.into_parts();
        if is_changed {
            let _ = store.checkpoint();
        } else {
            self.remove_new_log(HeldLock::Store(&store));
        }
        let files = store.close();
        if is_changed || !self.is_sealed {
            self.seal(&files);
        }
    }

    // Seals the file, of which no sync has failed, under its lock.
    fn seal(&self, files: &Files<File>) {
        if !files.may_be_used() {
            return;
        }
        if let Some(place) = &self.place {
            if let Ok(seen) = place.seen(&self.rt) {
                Seal::write(&self.rt, place.path(), place.file(), &seen);
            }
        }
    }
}

impl OpensAnew<FileStore<File>> for StoreFile {
    // What the log holds is written into the file and synced before, since of a sync that failed the system
    // may count as written what the disk does not have. The file was audited then, and gets a seal.
    fn open_anew(&mut self) -> Result<TreeKeeper<FileStore<File>>, StoreFault> {
        let database = self.connect()?;
        let files = settled(database)?;
        self.seal(&files);
        drop(files);
        self.open()
    }
}
