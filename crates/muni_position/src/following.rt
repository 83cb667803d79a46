//! A keeper whose puts the positions of a desk follow as long as there is room.

ghost use Rattle.std.specs.Prelude.{◌≡◌, ◌≢◌, None, IfOk, IfSome};
ghost use Rattle.muni_keep.specs.History.{next_number};
ghost use Rattle.muni_keep.specs.Keeper.{EditsTables};
ghost use Rattle.muni_keep.specs.Tables.{issue_at, issue_numbered, issue_history, last_issue, trade_at, version_at, last_at, trade_count, page_at, before_latest, issue_past, desk_past, with_issue, with_version};
ghost use Rattle.muni_position.specs.Change.{HasNoRoomFor};

use crate::positioned::Positioned;
use crate::put_fault::PutFault;
use arrayvec::ArrayVec;
use muni_keep::{KeepFault, Keeper};
use muni_msg::{DeskName, Key, Line, Reference, Version};
use muni_terms::Issue;

/// A keeper, and the holdings of a desk that follow its puts. A version for which they have no room is
/// put all the same, and no desk is watched from then on. No other call ends the watch.
///
/// It fails only if the keeper inside fails.
#[derive(Drop)]
pub struct Following<K: Keeper> {
    positioned: Positioned<K>,
    ghost none: { positioned.faults ≡ 0 },
}

/// A keeper whose puts are followed. None of them may have been refused for lack of room.
pub fn follow<K: Keeper>(positioned: Positioned<K>) -> Following<K>
    requires { positioned.faults ≡ 0 }
    ensures { result.positioned ≡ positioned }
{
    Following { positioned }
}

impl<K: Keeper> Following<K> {
    /// The keeper with what it watches.
    pub fn back(self) -> Positioned<K>
        ensures same { result ≡ self.positioned }
        ensures faults { result.faults ≡ 0 }
    {
        let Following { positioned } = self;
        positioned
    }
}

impl<K: Keeper> Keeper for Following<K> {
    ghost use Rattle.muni_position.specs.Watching.{FindsInside, KeepsWatch, LooksInside};

    ghost tables = { λ keeper. K.tables keeper.positioned.inner };

    ghost faults = { λ keeper. K.faults keeper.positioned.inner };

    ghost lent_as = { λ keeper. K.lent_as keeper.positioned.inner };

    fn issue(&mut self, cusip: &[u8; 9]) -> Result<Option<Issue>, KeepFault>
        // promise 6: a look-up finds what the keeper inside keeps, and keeps the watch
        ensures { FindsInside K.Keeper result (λ t. issue_at t cusip.now) self.old.positioned self.new.positioned }
    {
        self.positioned.issue(cusip)
    }

    fn issue_numbered(&mut self, cusip: &[u8; 9], number: u32) -> Result<Option<Issue>, KeepFault>
        // promise 6: a look-up finds what the keeper inside keeps, and keeps the watch
        ensures { FindsInside K.Keeper result (λ t. issue_numbered t cusip.now number)
            self.old.positioned self.new.positioned }
    {
        self.positioned.issue_numbered(cusip, number)
    }

    fn last_issue(&mut self, cusip: &[u8; 9]) -> Result<Option<(u32, Issue)>, KeepFault>
        // promise 6: a look-up finds what the keeper inside keeps, and keeps the watch
        ensures { FindsInside K.Keeper result (λ t. last_issue t cusip.now) self.old.positioned self.new.positioned }
    {
        self.positioned.last_issue(cusip)
    }

    fn put_issue(&mut self, number: u32, issue: &Issue) -> Result<(), KeepFault>
        requires { IfSome (K.tables self.old.positioned.inner)
            (λ t. number ≡ next_number (issue_history t issue.now.cusip)) }

        ensures edits { EditsTables K.Keeper (with_issue issue.now) result
            self.old.positioned.inner self.new.positioned.inner }
        // promise 6: a put of terms keeps the watch
        ensures watch { KeepsWatch self.old.positioned self.new.positioned }
    {
        self.positioned.put_issue(number, issue)
    }

    fn version(&mut self, key: &Key, number: u32) -> Result<Option<Version>, KeepFault>
        // promise 6: a look-up finds what the keeper inside keeps, and keeps the watch
        ensures { FindsInside K.Keeper result (λ t. version_at t key.now number) self.old.positioned self.new.positioned }
    {
        self.positioned.version(key, number)
    }

    fn last(&mut self, key: &Key) -> Result<Option<(u32, Version)>, KeepFault>
        // promise 6: a look-up finds what the keeper inside keeps, and keeps the watch
        ensures { FindsInside K.Keeper result (λ t. last_at t key.now) self.old.positioned self.new.positioned }
    {
        self.positioned.last(key)
    }

    fn put_version(&mut self, key: &Key, number: u32, version: &Version) -> Result<(), KeepFault>
        requires { IfSome (K.tables self.old.positioned.inner) (λ t. number ≡ next_number (trade_at t key.now)) }

        ensures edits { EditsTables ⟦<Following<K> as Keeper>⟧ (with_version key.now version.now) result
            self.old self.new }

        // The watch ends only if the desk has no room, and no other desk is watched then.
        // promise 6: a put for which there is no room ends the watch, and no other does
        ensures watch { self.new.positioned.desk ≢ self.old.positioned.desk
            → IfSome (K.tables self.old.positioned.inner) (λ t. HasNoRoomFor self.old.positioned.desk key.now version.now t) }
        // promise 6: and then no desk is watched
        ensures none { self.new.positioned.desk ≢ self.old.positioned.desk → self.new.positioned.desk ≡ None }
    {
        match self.positioned.put(key, number, version) {
            Ok(()) => Ok(()),
            Err(PutFault::Refused(fault)) => Err(fault),
            Err(PutFault::NoRoom) => {
                self.positioned.unwatch();
                self.positioned.inner.put_version(key, number, version)
            }
        }
    }

    fn trades(&mut self, desk: &DeskName) -> Result<u32, KeepFault>
        // promise 6: a look-up finds what the keeper inside keeps, and keeps the watch
        ensures { FindsInside K.Keeper result (λ t. trade_count t desk.now) self.old.positioned self.new.positioned }
    {
        self.positioned.trades(desk)
    }

    fn page(
        &mut self,
        desk: &DeskName,
        after: &Option<Reference>,
    ) -> Result<ArrayVec<Line, 50>, KeepFault>
        // promise 6: a page is that of the keeper inside
        ensures found { IfOk result (λ lines. IfSome (K.tables self.old.positioned.inner)
            (λ t. lines.items ≡ page_at t desk.now after.now)) }
        // promise 6: a page keeps the watch
        ensures looks { LooksInside K.Keeper result self.old.positioned self.new.positioned }
    {
        self.positioned.page(desk, after)
    }

    fn before_latest(&mut self, desk: &DeskName) -> Result<Option<Reference>, KeepFault>
        // promise 6: a look-up finds what the keeper inside keeps, and keeps the watch
        ensures { FindsInside K.Keeper result (λ t. before_latest t desk.now) self.old.positioned self.new.positioned }
    {
        self.positioned.before_latest(desk)
    }

    fn issue_past(&mut self, after: &Option<[u8; 9]>) -> Result<Option<([u8; 9], Issue)>, KeepFault>
        // promise 6: a look-up finds what the keeper inside keeps, and keeps the watch
        ensures { FindsInside K.Keeper result (λ t. issue_past t after.now) self.old.positioned self.new.positioned }
    {
        self.positioned.issue_past(after)
    }

    fn desk_past(&mut self, after: &Option<DeskName>) -> Result<Option<DeskName>, KeepFault>
        // promise 6: a look-up finds what the keeper inside keeps, and keeps the watch
        ensures { FindsInside K.Keeper result (λ t. desk_past t after.now) self.old.positioned self.new.positioned }
    {
        self.positioned.desk_past(after)
    }
}
