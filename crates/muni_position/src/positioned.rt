//! A keeper with the positions of one desk beside it.

ghost use Rattle.std.specs.Prelude.{◌≡◌, ◌≢◌, ◌+◌, ℕ, List, Option, Some, None, IsSome, IfOk, IfSome, OnOk, OnErr, slice_get};
ghost use Rattle.std.proofs.Props.{props};
ghost use Rattle.std.specs.Option.{option_map};
ghost use Rattle.muni_keep.specs.History.{next_number};
ghost use Rattle.muni_keep.specs.Keeper.{OnlyReads, EditsTables, SameKeeper};
ghost use Rattle.muni_keep.specs.Tables.{issue_at, issue_numbered, issue_history, last_issue, trade_at, version_at, last_at, trade_count, page_at, before_latest, issue_past, desk_past, with_issue, with_version};
ghost use Rattle.muni_position.specs.Change.{HasNoRoomFor};
ghost use Rattle.muni_position.specs.Holdings.{AreInRange, AreRight, HasFew, kept};
ghost use Rattle.muni_position.specs.Line.{position_lines};
ghost use Rattle.muni_position.specs.Positions.{last_versions, position_of, positions_of, past};

use crate::change::Change;
use crate::holdings::{Holdings, kept};
use crate::lines::{bound_past, lines_of};
use crate::pages::sum_desk;
use crate::position::Position;
use crate::put_fault::PutFault;
use arrayvec::ArrayVec;
use muni_edge::{Faults, NoMemory};
use muni_keep::{KeepFault, Keeper};
use muni_msg::{DeskName, Key, Line, Reference, Version};
use muni_terms::Issue;
use std::alloc::Global;
use std::collections::BTreeMap;
use std::ops::Bound;

/// A keeper, and the holdings of one desk over its trades, which change with each put.
///
/// It keeps what the inner one keeps. Its count of faults is that of the inner one and its own.
#[derive(Drop)]
pub struct Positioned<K: Keeper> {
    alloc: Global,
    pub(crate) inner: K,
    faults: Faults,
    desk: Option<DeskName>,
    holdings: Holdings,
    ghost range: { AreInRange holdings },
    ghost right: { AreRight desk (K.tables inner) holdings } by { Prim.hlevel props },
}

/// A keeper over another one, which watches no desk yet.
pub fn over<K: Keeper>(alloc: Global, inner: K) -> Positioned<K>
    ensures inner { result.inner ≡ inner }
    ensures faults { result.faults ≡ 0 }
    ensures desk { result.desk ≡ None }
{
    Positioned {
        alloc,
        inner,
        faults: Faults::none(),
        desk: None,
        holdings: BTreeMap::new(alloc),
    }
}

impl<K: Keeper> Positioned<K> {
    /// Sums the trades of a desk and watches it, and no other desk from then on. After a refusal it
    /// watches none.
    ///
    /// A desk with more than 100,000,000 trades is a fault of its own.
    pub fn watch(&mut self, desk: &DeskName) -> Result<(), KeepFault>
        ensures watched { OnOk result (self.new.desk ≡ Some desk.now) }
        ensures refused { OnErr result (self.new.desk ≡ None) }
        ensures reads { OnlyReads ⟦<Positioned<K> as Keeper>⟧ result self.old self.new }

        // Its own count rises only if the desk has too many trades, and then the watch is refused.
        ensures own { IfSome (K.tables self.old.inner) (λ t. HasFew desk.now t → self.new.faults ≡ self.old.faults) }
        ensures few { OnOk result (IfSome (K.tables self.old.inner) (λ t. HasFew desk.now t)) }
        ensures kept { OnOk result (self.new.faults ≡ self.old.faults) }
    {
        self.unwatch();
        let Some(holdings) = sum_desk(self.alloc, &mut self.inner, desk)? else {
            return Err(self.faults.fail().into());
        };
        self.holdings = holdings;
        self.desk = Some(desk.copy());
        Ok(())
    }

    /// The desk that is watched.
    pub fn watched(&self) -> Option<DeskName>
        ensures { result ≡ self.now.desk }
    {
        match &self.desk {
            Some(desk) => Some(desk.copy()),
            None => None,
        }
    }

    /// What the watched desk holds of a CUSIP. It sums nothing.
    pub fn position(&self, cusip: &[u8; 9]) -> Position
        requires { IsSome self.now.desk }

        // If the keeper exposes its tables, it is the sum over them as they are now.
        // promise 6: a position is the sum over the trades that stand
        ensures { IfSome self.now.desk (λ desk. IfSome (K.tables self.now.inner)
            (λ t. result ≡ position_of cusip.now (last_versions desk t))) }
    {
        kept(&self.holdings, cusip).position()
    }

    /// The first CUSIP after another, or of all, that the watched desk holds, with its position. It sums
    /// nothing.
    pub fn next(&self, after: &Option<[u8; 9]>) -> Option<([u8; 9], Position)>
        requires { IsSome self.now.desk }
        // promise 6: the next CUSIP that has one
        ensures { IfSome self.now.desk (λ desk. IfSome (K.tables self.now.inner)
            (λ t. result ≡ slice_get (past after.now (positions_of (last_versions desk t))) 0)) }
    {
        for (cusip, _) in self.holdings.range((bound_past(after), Bound::Unbounded)) {
            let holding = kept(&self.holdings, cusip);
            if holding.live > 0 {
                return Some((*cusip, holding.position()));
            }
        }
        None
    }

    /// The lines of all positions of the watched desk, in the order of their CUSIPs.
    pub fn lines(&self, alloc: Global) -> Result<Vec<u8>, NoMemory>
        requires { IsSome self.now.desk }
        ensures { IfOk result (λ text. IfSome self.now.desk (λ desk. IfSome (K.tables self.now.inner)
            (λ t. text.items ≡ position_lines (positions_of (last_versions desk t))))) }
    {
        lines_of(alloc, &self.holdings)
    }

    /// The keeper inside.
    pub fn back(self) -> K
        ensures { result ≡ self.inner }
    {
        let Positioned {
            alloc: _,
            inner,
            faults: _,
            desk: _,
            holdings: _,
        } = self;
        inner
    }
}

impl<K: Keeper> Keeper for Positioned<K> {
    ghost use Rattle.muni_position.specs.Watching.{FindsInside, KeepsWatch, LooksInside};

    ghost tables = { λ keeper. K.tables keeper.inner };

    ghost faults = { λ keeper. K.faults keeper.inner + keeper.faults };

    ghost lent_as = { λ keeper. K.lent_as keeper.inner };

    fn issue(&mut self, cusip: &[u8; 9]) -> Result<Option<Issue>, KeepFault>
        ensures { FindsInside K.Keeper result (λ t. issue_at t cusip.now) self.old self.new }
    {
        self.inner.issue(cusip)
    }

    fn issue_numbered(&mut self, cusip: &[u8; 9], number: u32) -> Result<Option<Issue>, KeepFault>
        ensures { FindsInside K.Keeper result (λ t. issue_numbered t cusip.now number) self.old self.new }
    {
        self.inner.issue_numbered(cusip, number)
    }

    fn last_issue(&mut self, cusip: &[u8; 9]) -> Result<Option<(u32, Issue)>, KeepFault>
        ensures { FindsInside K.Keeper result (λ t. last_issue t cusip.now) self.old self.new }
    {
        self.inner.last_issue(cusip)
    }

    fn put_issue(&mut self, number: u32, issue: &Issue) -> Result<(), KeepFault>
        requires { IfSome (K.tables self.old.inner) (λ t. number ≡ next_number (issue_history t issue.now.cusip)) }

        ensures edits { EditsTables K.Keeper (with_issue issue.now) result self.old.inner self.new.inner }
        ensures watch { KeepsWatch self.old self.new }
    {
        self.inner.put_issue(number, issue)
    }

    fn version(&mut self, key: &Key, number: u32) -> Result<Option<Version>, KeepFault>
        ensures { FindsInside K.Keeper result (λ t. version_at t key.now number) self.old self.new }
    {
        self.inner.version(key, number)
    }

    fn last(&mut self, key: &Key) -> Result<Option<(u32, Version)>, KeepFault>
        ensures { FindsInside K.Keeper result (λ t. last_at t key.now) self.old self.new }
    {
        self.inner.last(key)
    }

    fn put_version(&mut self, key: &Key, number: u32, version: &Version) -> Result<(), KeepFault>
        requires { IfSome (K.tables self.old.inner) (λ t. number ≡ next_number (trade_at t key.now)) }

        ensures edits { EditsTables ⟦<Positioned<K> as Keeper>⟧ (with_version key.now version.now) result
            self.old self.new }
        ensures desk { self.new.desk ≡ self.old.desk }
        ensures totals { OnErr result ((cusip : List ℕ) → kept self.new.holdings cusip ≡ kept self.old.holdings cusip) }

        // Its own count rises only if the desk that is watched has no room, and then nothing is put.
        // promise 9: it counts a fault of its own only if the desk has no room
        ensures own { self.new.faults ≢ self.old.faults
            → IfSome (K.tables self.old.inner) (λ t. HasNoRoomFor self.old.desk key.now version.now t) }
        // promise 6: after a put the desk has at most 100,000,000 live trades in a CUSIP
        ensures room { OnOk result
            (IfSome (K.tables self.old.inner) (λ t. ¬ (HasNoRoomFor self.old.desk key.now version.now t))) }
    {
        match self.put(key, number, version) {
            Ok(()) => Ok(()),
            Err(PutFault::Refused(fault)) => Err(fault),
            Err(PutFault::NoRoom) => Err(self.faults.fail().into()),
        }
    }

    fn trades(&mut self, desk: &DeskName) -> Result<u32, KeepFault>
        ensures { FindsInside K.Keeper result (λ t. trade_count t desk.now) self.old self.new }
    {
        self.inner.trades(desk)
    }

    fn page(
        &mut self,
        desk: &DeskName,
        after: &Option<Reference>,
    ) -> Result<ArrayVec<Line, 50>, KeepFault>
        ensures found { IfOk result
            (λ lines. IfSome (K.tables self.old.inner) (λ t. lines.items ≡ page_at t desk.now after.now)) }
        ensures looks { LooksInside K.Keeper result self.old self.new }
    {
        self.inner.page(desk, after)
    }

    fn before_latest(&mut self, desk: &DeskName) -> Result<Option<Reference>, KeepFault>
        ensures { FindsInside K.Keeper result (λ t. before_latest t desk.now) self.old self.new }
    {
        self.inner.before_latest(desk)
    }

    fn issue_past(&mut self, after: &Option<[u8; 9]>) -> Result<Option<([u8; 9], Issue)>, KeepFault>
        ensures { FindsInside K.Keeper result (λ t. issue_past t after.now) self.old self.new }
    {
        self.inner.issue_past(after)
    }

    fn desk_past(&mut self, after: &Option<DeskName>) -> Result<Option<DeskName>, KeepFault>
        ensures { FindsInside K.Keeper result (λ t. desk_past t after.now) self.old self.new }
    {
        self.inner.desk_past(after)
    }
}

impl<K: Keeper> Positioned<K> {
    ghost use Rattle.std.specs.Prelude.{Err, IsTrue};
    ghost use Rattle.muni_position.specs.Holdings.{is_watched};
    ghost use Rattle.muni_position.specs.Watching.{EditsInside, KeepsWatch};

    /// Puts the next version of a trade and changes the totals by it, if they have room for it.
    pub(crate) fn put(&mut self, key: &Key, number: u32, version: &Version) -> Result<(), PutFault>
        requires { IfSome (K.tables self.old.inner) (λ t. number ≡ next_number (trade_at t key.now)) }

        ensures edits { EditsInside K.Keeper (with_version key.now version.now) result self.old.inner self.new.inner }
        ensures watch { KeepsWatch self.old self.new }
        ensures totals { OnErr result ((cusip : List ℕ) → kept self.new.holdings cusip ≡ kept self.old.holdings cusip) }

        // If the tables are exposed, there is no room exactly if the desk that is watched has none.
        ensures no_room { result ≡ Err PutFault.NoRoom
            → IfSome (K.tables self.old.inner) (λ t. HasNoRoomFor self.old.desk key.now version.now t) }
        ensures room { OnOk result
            (IfSome (K.tables self.old.inner) (λ t. ¬ (HasNoRoomFor self.old.desk key.now version.now t))) }
    {
        if !self.watches(&key.desk) {
            return Ok(self.inner.put_version(key, number, version)?);
        }
        let last = self.inner.last(key)?;
        let Some(change) = Change::of(&self.holdings, &last, version) else {
            return Err(PutFault::NoRoom);
        };
        change.make_room(&mut self.holdings)?;
        self.inner.put_version(key, number, version)?;
        change.make(&mut self.holdings);
        Ok(())
    }

    /// Watches no desk from now on.
    pub(crate) fn unwatch(&mut self)
        ensures inner { self.new.inner ≡ self.old.inner }
        ensures desk { self.new.desk ≡ None }
        ensures own { self.new.faults ≡ self.old.faults }
    {
        self.desk = None;
    }

    /// Whether a desk is the one that is watched.
    pub fn watches(&self, desk: &DeskName) -> bool
        ensures tested { result ≡ is_watched self.now.desk desk.now }
        ensures watched { IsTrue result → self.now.desk ≡ Some desk.now }
    {
        match &self.desk {
            Some(watched) => watched == desk,
            None => false,
        }
    }
}
