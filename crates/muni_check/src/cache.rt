//! The issues of rows, which are kept in memory for the rows after them.

ghost use Rattle.std.specs.Prelude.{◌≡◌, IfSome, OnOk};
ghost use Rattle.std.specs.BTreeMap as tree;
ghost use Rattle.muni_keep.specs.Keeper.{OnlyReads};
ghost use Rattle.muni_keep.specs.Tables.{Tables};
ghost use Rattle.muni_keep.specs.Trades.{by_bytes};
ghost use Rattle.muni_marks.specs.Portfolio.{IsKnown};
ghost use Rattle.muni_check.specs.Cache.{IsSoundCache};

use muni_keep::{KeepFault, Keeper};
use muni_marks::ask;
use muni_terms::Issue;
use std::alloc::Global;
use std::collections::{BTreeMap, BTreeSet};

// So many found CUSIPs are held at most, and as many missing ones.
const MOST: usize = 2_048;

/// What is known of the CUSIPs of rows.
#[derive(Drop)]
pub(crate) struct IssueCache {
    pub issues: BTreeMap<[u8; 9], Issue>,
    pub missing: BTreeSet<[u8; 9]>,
}

impl IssueCache {
    /// Nothing is known yet.
    pub(crate) fn new(alloc: Global) -> IssueCache
        ensures { (tables : Tables) → IsSoundCache tables result }
    {
        IssueCache {
            issues: BTreeMap::new(alloc),
            missing: BTreeSet::new(alloc),
        }
    }

    /// Asks the keeper for the issue of a CUSIP, if it is not known.
    pub(crate) fn hold<K: Keeper>(
        &mut self,
        alloc: Global,
        keeper: &mut K,
        cusip: &[u8; 9],
    ) -> Result<(), KeepFault>
        requires { IfSome (K.tables keeper.old) (λ t. IsSoundCache t self.old) }
        ensures sound { OnOk result (IfSome (K.tables keeper.old) (λ t. IsSoundCache t self.new)) }
        ensures known { OnOk result (IfSome (K.tables keeper.old) (λ t. IsKnown t (tree.get by_bytes self.new.issues) cusip.now)) }
        ensures reads { OnlyReads K.Keeper result keeper.old keeper.new }
    {
        self.make_room(alloc);
        ask(keeper, cusip, &mut self.issues, &mut self.missing)
    }

    // Forgets all CUSIPs if no more may be held.
    fn make_room(&mut self, alloc: Global)
        ensures { (tables : Tables) → IsSoundCache tables self.old → IsSoundCache tables self.new }
    {
        if self.issues.len() >= MOST || self.missing.len() >= MOST {
            *self = IssueCache::new(alloc);
        }
    }
}
