//! A keeper over trees.

ghost use Rattle.std.specs.Prelude.{◌≡◌, [], None, OnOk, OnErr, is_ok};
ghost use Rattle.muni_store_trees.specs.Calls.{Adds, CountsFailure, CountsTrades, Finds, IsFrame, Settles, kept};
ghost use Rattle.muni_store_trees.specs.Counts.{after_put};
ghost use Rattle.muni_store_trees.specs.Found as found;
ghost use Rattle.muni_store_trees.specs.Puts as puts;

use crate::fault::TreeFault;
use crate::looks::{
    find_desk_past, find_issue, find_issue_numbered, find_issue_past, find_last, find_last_issue,
    find_version,
};
use crate::pages::{count_trades, find_before_latest, read_page};
use crate::places::Places;
use crate::puts::{put_issue, put_version};
use crate::trade_counts::TradeCounts;
use arrayvec::ArrayVec;
use muni_edge::Faults;
use muni_keep::{KeepFault, Keeper};
use muni_msg::{DeskName, Key, Line, Reference, Version};
use muni_terms::Issue;
use sqlite_trees::store::Store;
use std::alloc::Global;

/// A keeper over the trees of a store, which no other process can open meanwhile. It does not expose what
/// it keeps.
///
/// What a put answered `Ok` is committed. A call that fails is rolled back. Every refusal of the store is a
/// fault, except that memory ran out, and so is a row that is not that of a checked value or that its key does
/// not fit.
#[derive(Drop)]
pub struct TreeKeeper<S: Store + Drop> {
    store: S,
    places: Places,
    alloc: Global,
    is_changed: bool,
    is_shut: bool,
    trades: TradeCounts,
    faults: Faults,
}

impl<S: Store + Drop> TreeKeeper<S> {
    /// A keeper over a store, whose tables are these trees, and which was changed already or was not.
    pub fn new(alloc: Global, store: S, places: Places, is_changed: bool) -> TreeKeeper<S>
        ensures store { result.store ≡ store }
        ensures places { result.places ≡ places }
        ensures faults { result.faults ≡ 0 }
        ensures counts { result.trades ≡ [] }
    {
        TreeKeeper {
            store,
            places,
            alloc,
            is_changed,
            is_shut: false,
            trades: TradeCounts::new(alloc),
            faults: Faults::none(),
        }
    }

    /// Whether the last call found that an earlier failure of the disk has shut the store.
    pub fn is_shut(&self) -> bool
        ensures { result ≡ self.now.is_shut }
    {
        self.is_shut
    }

    /// The store, and whether it was changed.
    pub fn into_parts(self) -> (S, bool)
        ensures { result ≡ (self.store, self.is_changed) }
    {
        let TreeKeeper {
            store,
            is_changed,
            ..
        } = self;
        (store, is_changed)
    }

    // What the keeper answers. After a failure the store goes back to what was committed.
    fn settled<T>(&mut self, answer: Result<T, TreeFault>) -> Result<T, KeepFault>
        ensures same { result ≡ kept answer }
        ensures kept { OnOk answer (self.new.store ≡ self.old.store) }
        ensures undone { OnErr answer (Settles S.Store.view S.Store.recovers self.old.store self.new.store) }
        ensures frame { IsFrame self.old self.new }
        ensures counted { CountsFailure result self.old.faults self.new.faults }
    {
        self.is_shut = false;
        let fault = match answer {
            Ok(value) => return Ok(value),
            Err(fault) => fault,
        };
        self.store.rollback();
        match fault {
            TreeFault::NoMemory => Err(KeepFault::NoMemory),
            TreeFault::Failed => Err(self.faults.fail().into()),
            TreeFault::Shut => {
                self.is_shut = true;
                Err(self.faults.fail().into())
            }
        }
    }
}

impl<S: Store + Drop> Keeper for TreeKeeper<S> {
    ghost tables = { λ _. None };

    ghost faults = { λ keeper. keeper.faults };

    ghost lent_as = { λ _. 0 };

    fn issue(&mut self, cusip: &[u8; 9]) -> Result<Option<Issue>, KeepFault>
        // promise 6, 8: the last terms of an issue, at the last entry of its CUSIP; a stop leaves the same
        ensures finds { Finds S.Store.view S.Store.recovers (λ places trees. found.IsIssue places trees cusip.now)
            result self.old self.new }
        // promise 9: a failed call counts once, a lack of memory and an answer never
        ensures counted { CountsFailure result self.old.faults self.new.faults }
    {
        let found = find_issue(&mut self.store, self.places, self.alloc, cusip);
        self.settled(found)
    }

    fn issue_numbered(&mut self, cusip: &[u8; 9], number: u32) -> Result<Option<Issue>, KeepFault>
        // promise 6, 8: the row to which the entry of the number leads, none exactly without one
        ensures finds { Finds S.Store.view S.Store.recovers (λ places trees. found.IsIssueNumbered places trees cusip.now number)
            result self.old self.new }
        // promise 9: a failed call counts once, a lack of memory and an answer never
        ensures counted { CountsFailure result self.old.faults self.new.faults }
    {
        let found = find_issue_numbered(&mut self.store, self.places, self.alloc, cusip, number);
        self.settled(found)
    }

    fn last_issue(&mut self, cusip: &[u8; 9]) -> Result<Option<(u32, Issue)>, KeepFault>
        // promise 6, 8: the last terms of an issue with their number, at the last entry of its CUSIP
        ensures finds { Finds S.Store.view S.Store.recovers (λ places trees. found.IsLastIssue places trees cusip.now)
            result self.old self.new }
        // promise 9: a failed call counts once, a lack of memory and an answer never
        ensures counted { CountsFailure result self.old.faults self.new.faults }
    {
        let found = find_last_issue(&mut self.store, self.places, self.alloc, cusip);
        self.settled(found)
    }

    fn put_issue(&mut self, number: u32, issue: &Issue) -> Result<(), KeepFault>
        // promise 7, 8: one row and its entry, both committed, or what was before; a stop leaves one of the two
        ensures adds { Adds S.Store.view S.Store.recovers (λ places. puts.AddsIssue places number issue.now)
            self.old.trades result self.old self.new }
        // promise 9: a failed call counts once, a lack of memory and an answer never
        ensures counted { CountsFailure result self.old.faults self.new.faults }
    {
        self.is_changed = true;
        let put = put_issue(&mut self.store, self.places, self.alloc, number, issue);
        self.settled(put)
    }

    fn version(&mut self, key: &Key, number: u32) -> Result<Option<Version>, KeepFault>
        // promise 6, 8: the row to which the entry of the version leads, none exactly without one
        ensures finds { Finds S.Store.view S.Store.recovers (λ places trees. found.IsVersion places trees key.now number)
            result self.old self.new }
        // promise 9: a failed call counts once, a lack of memory and an answer never
        ensures counted { CountsFailure result self.old.faults self.new.faults }
    {
        let found = find_version(&mut self.store, self.places, self.alloc, key, number);
        self.settled(found)
    }

    fn last(&mut self, key: &Key) -> Result<Option<(u32, Version)>, KeepFault>
        // promise 6, 8: the last version of a trade, at the last entry of the trade
        ensures finds { Finds S.Store.view S.Store.recovers (λ places trees. found.IsLast places trees key.now)
            result self.old self.new }
        // promise 9: a failed call counts once, a lack of memory and an answer never
        ensures counted { CountsFailure result self.old.faults self.new.faults }
    {
        let found = find_last(&mut self.store, self.places, self.alloc, key);
        self.settled(found)
    }

    fn put_version(&mut self, key: &Key, number: u32, version: &Version) -> Result<(), KeepFault>
        // promise 7, 8: one row and its entry, both committed, or what was before; a stop leaves one of the two
        ensures adds { Adds S.Store.view S.Store.recovers (λ places. puts.AddsVersion places key.now number
            version.now) (after_put key.now.desk number (is_ok result) self.old.trades) result self.old self.new }
        // promise 9: a failed call counts once, a lack of memory and an answer never
        ensures counted { CountsFailure result self.old.faults self.new.faults }
    {
        self.is_changed = true;
        let put = put_version(
            &mut self.store,
            self.places,
            self.alloc,
            key,
            number,
            version,
        );
        self.trades.note_put(&key.desk, number, put.is_ok());
        self.settled(put)
    }

    fn trades(&mut self, desk: &DeskName) -> Result<u32, KeepFault>
        // promise 6, 8: as many trades as the index has entries with the number 1; a count that is kept goes on
        ensures counts { CountsTrades S.Store.view S.Store.recovers desk.now result self.old self.new }
        // promise 9: a failed call counts once, a lack of memory and an answer never
        ensures counted { CountsFailure result self.old.faults self.new.faults }
    {
        if let Some(count) = self.trades.of(desk) {
            return Ok(count);
        }
        let found = count_trades(&mut self.store, self.places, self.alloc, desk);
        let count = self.settled(found)?;
        self.trades.keep(desk, count);
        Ok(count)
    }

    fn page(
        &mut self,
        desk: &DeskName,
        after: &Option<Reference>,
    ) -> Result<ArrayVec<Line, 50>, KeepFault>
        // promise 6, 8: a line for each of the first 50 trades after a reference, read at the last entry of each
        ensures finds { Finds S.Store.view S.Store.recovers (λ places trees lines. found.IsPage places trees desk.now after.now lines.items)
            result self.old self.new }
        // promise 9: a failed call counts once, a lack of memory and an answer never
        ensures counted { CountsFailure result self.old.faults self.new.faults }
    {
        let mut lines = ArrayVec::new();
        let read = read_page(
            &mut self.store,
            self.places,
            self.alloc,
            desk,
            after,
            &mut lines,
        );
        self.settled(read)?;
        Ok(lines)
    }

    fn before_latest(&mut self, desk: &DeskName) -> Result<Option<Reference>, KeepFault>
        // promise 6, 8: the reference before a desk's latest trades
        ensures finds { Finds S.Store.view S.Store.recovers (λ places trees. found.IsBeforeLatest places trees desk.now)
            result self.old self.new }
        // promise 9: a failed call counts once, a lack of memory and an answer never
        ensures counted { CountsFailure result self.old.faults self.new.faults }
    {
        let found = find_before_latest(&mut self.store, self.places, self.alloc, desk);
        self.settled(found)
    }

    fn issue_past(&mut self, after: &Option<[u8; 9]>) -> Result<Option<([u8; 9], Issue)>, KeepFault>
        // promise 6, 8: the last terms of the next CUSIP, at the first entry after a key
        ensures finds { Finds S.Store.view S.Store.recovers (λ places trees. found.IsIssuePast places trees after.now)
            result self.old self.new }
        // promise 9: a failed call counts once, a lack of memory and an answer never
        ensures counted { CountsFailure result self.old.faults self.new.faults }
    {
        let found = find_issue_past(&mut self.store, self.places, self.alloc, after);
        self.settled(found)
    }

    fn desk_past(&mut self, after: &Option<DeskName>) -> Result<Option<DeskName>, KeepFault>
        // promise 6, 8: the next desk, at the first entry after a key
        ensures finds { Finds S.Store.view S.Store.recovers (λ places trees. found.IsDeskPast places trees after.now)
            result self.old self.new }
        // promise 9: a failed call counts once, a lack of memory and an answer never
        ensures counted { CountsFailure result self.old.faults self.new.faults }
    {
        let found = find_desk_past(&mut self.store, self.places, self.alloc, after);
        self.settled(found)
    }
}
