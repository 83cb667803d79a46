//! A keeper of one of two kinds.

use crate::fault::KeepFault;
use crate::keeper::Keeper;
use arrayvec::ArrayVec;
use muni_msg::{DeskName, Key, Line, Reference, Version};
use muni_terms::Issue;

/// A keeper of one of two kinds.
#[derive(Drop)]
pub enum EitherKeeper<K, L> {
    First(K),
    Second(L),
}

impl<K: Keeper, L: Keeper> Keeper for EitherKeeper<K, L> {
    ghost use Rattle.std.specs.Prelude.{◌+◌, ◌*◌};
    ghost use Rattle.muni_keep.specs.EitherSide.{by_side};

    ghost tables = { by_side K.tables L.tables };

    ghost faults = { by_side K.faults L.faults };

    ghost lent_as = { by_side (λ keeper. 2 * K.lent_as keeper) (λ keeper. 2 * L.lent_as keeper + 1) };

    fn issue(&mut self, cusip: &[u8; 9]) -> Result<Option<Issue>, KeepFault> {
        match self {
            EitherKeeper::First(keeper) => keeper.issue(cusip),
            EitherKeeper::Second(keeper) => keeper.issue(cusip),
        }
    }

    fn issue_numbered(&mut self, cusip: &[u8; 9], number: u32) -> Result<Option<Issue>, KeepFault> {
        match self {
            EitherKeeper::First(keeper) => keeper.issue_numbered(cusip, number),
            EitherKeeper::Second(keeper) => keeper.issue_numbered(cusip, number),
        }
    }

    fn last_issue(&mut self, cusip: &[u8; 9]) -> Result<Option<(u32, Issue)>, KeepFault> {
        match self {
            EitherKeeper::First(keeper) => keeper.last_issue(cusip),
            EitherKeeper::Second(keeper) => keeper.last_issue(cusip),
        }
    }

    fn put_issue(&mut self, number: u32, issue: &Issue) -> Result<(), KeepFault> {
        match self {
            EitherKeeper::First(keeper) => keeper.put_issue(number, issue),
            EitherKeeper::Second(keeper) => keeper.put_issue(number, issue),
        }
    }

    fn version(&mut self, key: &Key, number: u32) -> Result<Option<Version>, KeepFault> {
        match self {
            EitherKeeper::First(keeper) => keeper.version(key, number),
            EitherKeeper::Second(keeper) => keeper.version(key, number),
        }
    }

    fn last(&mut self, key: &Key) -> Result<Option<(u32, Version)>, KeepFault> {
        match self {
            EitherKeeper::First(keeper) => keeper.last(key),
            EitherKeeper::Second(keeper) => keeper.last(key),
        }
    }

    fn put_version(&mut self, key: &Key, number: u32, version: &Version) -> Result<(), KeepFault> {
        match self {
            EitherKeeper::First(keeper) => keeper.put_version(key, number, version),
            EitherKeeper::Second(keeper) => keeper.put_version(key, number, version),
        }
    }

    fn trades(&mut self, desk: &DeskName) -> Result<u32, KeepFault> {
        match self {
            EitherKeeper::First(keeper) => keeper.trades(desk),
            EitherKeeper::Second(keeper) => keeper.trades(desk),
        }
    }

    fn page(
        &mut self,
        desk: &DeskName,
        after: &Option<Reference>,
    ) -> Result<ArrayVec<Line, 50>, KeepFault> {
        match self {
            EitherKeeper::First(keeper) => keeper.page(desk, after),
            EitherKeeper::Second(keeper) => keeper.page(desk, after),
        }
    }

    fn before_latest(&mut self, desk: &DeskName) -> Result<Option<Reference>, KeepFault> {
        match self {
            EitherKeeper::First(keeper) => keeper.before_latest(desk),
            EitherKeeper::Second(keeper) => keeper.before_latest(desk),
        }
    }

    fn issue_past(
        &mut self,
        after: &Option<[u8; 9]>,
    ) -> Result<Option<([u8; 9], Issue)>, KeepFault> {
        match self {
            EitherKeeper::First(keeper) => keeper.issue_past(after),
            EitherKeeper::Second(keeper) => keeper.issue_past(after),
        }
    }

    fn desk_past(&mut self, after: &Option<DeskName>) -> Result<Option<DeskName>, KeepFault> {
        match self {
            EitherKeeper::First(keeper) => keeper.desk_past(after),
            EitherKeeper::Second(keeper) => keeper.desk_past(after),
        }
    }
}
