//! A keeper over the file of a store.

ghost use Rattle.std.specs.Prelude.{◌≡◌, None, Ok, Some, IfOk, IfSome, OnOk, OnErr, is_ok};
ghost use Rattle.muni_store_trees.specs.Calls.{Adds, CountsFailure, CountsTrades, Finds};
ghost use Rattle.muni_store_trees.specs.Counts.{after_put};
ghost use Rattle.muni_store_trees.specs.Found as found;
ghost use Rattle.muni_store_trees.specs.Puts as puts;
ghost use Rattle.muni_store.specs.Open.{Ends, WhileOpen, in_hand, ran_on};

use crate::fault::StoreFault;
use crate::faults::counted;
use arrayvec::ArrayVec;
use muni_edge::Faults;
use muni_keep::{KeepFault, Keeper};
use muni_msg::{DeskName, Key, Line, Reference, Version};
use muni_store_trees::TreeKeeper;
use muni_terms::Issue;
use sqlite_trees::store::Store;
use std::mem;

/// What opens the file of a store after a sync has failed.
pub trait OpensAnew<S: Store + Drop> {
    /// A keeper over the file.
    fn open_anew(&mut self) -> Result<TreeKeeper<S>, StoreFault>;
}

/// A file, and its keeper if it is open.
#[derive(Drop)]
pub(crate) enum FileState<K> {
    Open(K),
    /// Opened anew. No call has run on it.
    Anew(K),
    Shut,
}

/// A keeper over the file of a store, by the trees of its tables. It does not expose what it keeps.
///
/// A sync that fails shuts the database. The call that finds it shut fails too, and opens the file anew. If
/// that cannot be, each call that follows fails and tries it again, until the file is open.
#[derive(Drop)]
pub struct SqlKeeper<S: Store + Drop, F: OpensAnew<S> + Drop> {
    file: F,
    state: FileState<TreeKeeper<S>>,
    faults: Faults,
}

impl<S: Store + Drop, F: OpensAnew<S> + Drop> SqlKeeper<S, F> {
    /// A keeper over the file, which is open.
    pub(crate) fn new(file: F, keeper: TreeKeeper<S>) -> SqlKeeper<S, F>
        ensures open { result.state ≡ FileState.Open keeper }
        ensures faults { result.faults ≡ 0 }
    {
        SqlKeeper {
            file,
            state: FileState::Open(keeper),
            faults: Faults::none(),
        }
    }

    /// The file, its keeper if it is open, and the count of faults.
    pub(crate) fn into_parts(self) -> (F, Option<TreeKeeper<S>>, Faults)
        ensures { result ≡ (self.file, in_hand self.state, self.faults) }
    {
        let SqlKeeper {
            file,
            state,
            faults,
        } = self;
        match state {
            FileState::Open(keeper) | FileState::Anew(keeper) => (file, Some(keeper), faults),
            FileState::Shut => (file, None, faults),
        }
    }

    // The keeper of the open file. If the file is shut it is opened anew, and the call fails.
    fn take(&mut self) -> Result<TreeKeeper<S>, KeepFault>
        ensures open { IfOk result (λ keeper. in_hand self.old.state ≡ Some keeper) }
        ensures shut { OnErr result (in_hand self.old.state ≡ None) }
        ensures counted { CountsFailure result self.old.faults self.new.faults }
    {
        match mem::replace(&mut self.state, FileState::Shut) {
            FileState::Open(keeper) | FileState::Anew(keeper) => Ok(keeper),
            FileState::Shut => {
                let opened = self.file.open_anew();
                self.state = FileState::Anew(counted(&mut self.faults, opened)?);
                Err(self.faults.fail().into())
            }
        }
    }

    // Puts the keeper back after a call, and gives its answer.
    fn put_back<T>(
        &mut self,
        keeper: TreeKeeper<S>,
        answer: Result<T, KeepFault>,
    ) -> Result<T, KeepFault>
        ensures same { result ≡ answer }
        ensures open { OnOk result (self.new.state ≡ FileState.Open keeper) }
        ensures kept { IfSome (ran_on self.new.state) (λ kept. kept ≡ keeper) }
        ensures counted { CountsFailure result self.old.faults self.new.faults }
    {
        match answer {
            Err(KeepFault::Failed) => {
                self.state = self.after_failure(keeper);
                Err(self.faults.fail().into())
            }
            other => {
                self.state = FileState::Open(keeper);
                other
            }
        }
    }

    // If the call found the database shut, it is let go, since it holds the lock of the file.
    fn after_failure(&mut self, keeper: TreeKeeper<S>) -> FileState<TreeKeeper<S>>
        ensures kept { IfSome (ran_on result) (λ kept. kept ≡ keeper) }
        ensures faults { self.new.faults ≡ self.old.faults }
    {
        if !keeper.is_shut() {
            return FileState::Open(keeper);
        }
        drop(keeper);
        match self.file.open_anew() {
            Ok(opened) => FileState::Anew(opened),
            Err(_) => FileState::Shut,
        }
    }
}

impl<S: Store + Drop, F: OpensAnew<S> + Drop> Keeper for SqlKeeper<S, F> {
    ghost tables = { λ _. None };

    ghost faults = { λ keeper. keeper.faults };

    ghost lent_as = { λ _. 0 };

    fn issue(&mut self, cusip: &[u8; 9]) -> Result<Option<Issue>, KeepFault>
        // promise 6, 8: it holds of a file too, in each call on an open file
        ensures finds { WhileOpen self.old.state self.new.state (Finds S.Store.view S.Store.recovers
            (λ places trees. found.IsIssue places trees cusip.now) result) }
        // promise 8, 9: an answered call ran on an open file; a failed one counts once
        ensures ends { Ends result self.old self.new }
    {
        let mut keeper = self.take()?;
        let found = keeper.issue(cusip);
        self.put_back(keeper, found)
    }

    fn issue_numbered(&mut self, cusip: &[u8; 9], number: u32) -> Result<Option<Issue>, KeepFault>
        // promise 6, 8: it holds of a file too, in each call on an open file
        ensures finds { WhileOpen self.old.state self.new.state (Finds S.Store.view S.Store.recovers
            (λ places trees. found.IsIssueNumbered places trees cusip.now number) result) }
        // promise 8, 9: an answered call ran on an open file; a failed one counts once
        ensures ends { Ends result self.old self.new }
    {
        let mut keeper = self.take()?;
        let found = keeper.issue_numbered(cusip, number);
        self.put_back(keeper, found)
    }

    fn last_issue(&mut self, cusip: &[u8; 9]) -> Result<Option<(u32, Issue)>, KeepFault>
        // promise 6, 8: it holds of a file too, in each call on an open file
        ensures finds { WhileOpen self.old.state self.new.state (Finds S.Store.view S.Store.recovers
            (λ places trees. found.IsLastIssue places trees cusip.now) result) }
        // promise 8, 9: an answered call ran on an open file; a failed one counts once
        ensures ends { Ends result self.old self.new }
    {
        let mut keeper = self.take()?;
        let found = keeper.last_issue(cusip);
        self.put_back(keeper, found)
    }

    fn put_issue(&mut self, number: u32, issue: &Issue) -> Result<(), KeepFault>
        // promise 7, 8: it holds of a file too, in each call on an open file
        ensures adds { WhileOpen self.old.state self.new.state (λ was. Adds S.Store.view S.Store.recovers
            (λ places. puts.AddsIssue places number issue.now) was.trades result was) }
        // promise 8, 9: an answered call ran on an open file; a failed one counts once
        ensures ends { Ends result self.old self.new }
    {
        let mut keeper = self.take()?;
        let put = keeper.put_issue(number, issue);
        self.put_back(keeper, put)
    }

    fn version(&mut self, key: &Key, number: u32) -> Result<Option<Version>, KeepFault>
        // promise 6, 8: it holds of a file too, in each call on an open file
        ensures finds { WhileOpen self.old.state self.new.state (Finds S.Store.view S.Store.recovers
            (λ places trees. found.IsVersion places trees key.now number) result) }
        // promise 8, 9: an answered call ran on an open file; a failed one counts once
        ensures ends { Ends result self.old self.new }
    {
        let mut keeper = self.take()?;
        let found = keeper.version(key, number);
        self.put_back(keeper, found)
    }

    fn last(&mut self, key: &Key) -> Result<Option<(u32, Version)>, KeepFault>
        // promise 6, 8: it holds of a file too, in each call on an open file
        ensures finds { WhileOpen self.old.state self.new.state (Finds S.Store.view S.Store.recovers
            (λ places trees. found.IsLast places trees key.now) result) }
        // promise 8, 9: an answered call ran on an open file; a failed one counts once
        ensures ends { Ends result self.old self.new }
    {
        let mut keeper = self.take()?;
        let found = keeper.last(key);
        self.put_back(keeper, found)
    }

    fn put_version(&mut self, key: &Key, number: u32, version: &Version) -> Result<(), KeepFault>
        // promise 7, 8: it holds of a file too, in each call on an open file
        ensures adds { WhileOpen self.old.state self.new.state (λ was. Adds S.Store.view S.Store.recovers
            (λ places. puts.AddsVersion places key.now number version.now)
            (after_put key.now.desk number (is_ok result) was.trades) result was) }
        // promise 8, 9: an answered call ran on an open file; a failed one counts once
        ensures ends { Ends result self.old self.new }
    {
        let mut keeper = self.take()?;
        let put = keeper.put_version(key, number, version);
        self.put_back(keeper, put)
    }

    fn trades(&mut self, desk: &DeskName) -> Result<u32, KeepFault>
        // promise 6, 8: it holds of a file too, in each call on an open file
        ensures counts { WhileOpen self.old.state self.new.state (CountsTrades S.Store.view S.Store.recovers
            desk.now result) }
        // promise 8, 9: an answered call ran on an open file; a failed one counts once
        ensures ends { Ends result self.old self.new }
    {
        let mut keeper = self.take()?;
        let count = keeper.trades(desk);
        self.put_back(keeper, count)
    }

    fn page(
        &mut self,
        desk: &DeskName,
        after: &Option<Reference>,
    ) -> Result<ArrayVec<Line, 50>, KeepFault>
        // promise 6, 8: it holds of a file too, in each call on an open file
        ensures finds { WhileOpen self.old.state self.new.state (Finds S.Store.view S.Store.recovers
            (λ places trees lines. found.IsPage places trees desk.now after.now lines.items) result) }
        // promise 8, 9: an answered call ran on an open file; a failed one counts once
        ensures ends { Ends result self.old self.new }
    {
        let mut keeper = self.take()?;
        let lines = keeper.page(desk, after);
        self.put_back(keeper, lines)
    }

    fn before_latest(&mut self, desk: &DeskName) -> Result<Option<Reference>, KeepFault>
        // promise 6, 8: it holds of a file too, in each call on an open file
        ensures finds { WhileOpen self.old.state self.new.state (Finds S.Store.view S.Store.recovers
            (λ places trees. found.IsBeforeLatest places trees desk.now) result) }
        // promise 8, 9: an answered call ran on an open file; a failed one counts once
        ensures ends { Ends result self.old self.new }
    {
        let mut keeper = self.take()?;
        let found = keeper.before_latest(desk);
        self.put_back(keeper, found)
    }

    fn issue_past(&mut self, after: &Option<[u8; 9]>) -> Result<Option<([u8; 9], Issue)>, KeepFault>
        // promise 6, 8: it holds of a file too, in each call on an open file
        ensures finds { WhileOpen self.old.state self.new.state (Finds S.Store.view S.Store.recovers
            (λ places trees. found.IsIssuePast places trees after.now) result) }
        // promise 8, 9: an answered call ran on an open file; a failed one counts once
        ensures ends { Ends result self.old self.new }
    {
        let mut keeper = self.take()?;
        let found = keeper.issue_past(after);
        self.put_back(keeper, found)
    }

    fn desk_past(&mut self, after: &Option<DeskName>) -> Result<Option<DeskName>, KeepFault>
        // promise 6, 8: it holds of a file too, in each call on an open file
        ensures finds { WhileOpen self.old.state self.new.state (Finds S.Store.view S.Store.recovers
            (λ places trees. found.IsDeskPast places trees after.now) result) }
        // promise 8, 9: an answered call ran on an open file; a failed one counts once
        ensures ends { Ends result self.old self.new }
    {
        let mut keeper = self.take()?;
        let found = keeper.desk_past(after);
        self.put_back(keeper, found)
    }
}
