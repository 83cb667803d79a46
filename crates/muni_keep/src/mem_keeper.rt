//! A keeper in memory.

ghost use Rattle.std.specs.Prelude.{◌≡◌, Some, IfOk};
ghost use Rattle.std.specs.Result.{result_map_both};
ghost use Rattle.muni_keep.specs.History.{next_number};
ghost use Rattle.muni_keep.specs.Tables.{issue_at, issue_numbered, issue_history, last_issue, trade_at, version_at, last_at, trade_count, page_at, before_latest, issue_past, desk_past, with_issue, with_version};
ghost use Rattle.muni_keep.specs.MemKeeper.{new_keeper, LooksUp, Puts};

use crate::fault::KeepFault;
use crate::keeper::Keeper;
use crate::mem_tables::MemTables;
use arrayvec::ArrayVec;
use muni_edge::{Calls, Faults, NoMemory};
use muni_msg::{DeskName, Key, Line, Reference, Version};
use muni_terms::Issue;
use std::alloc::Global;
use std::marker::Model;

/// A keeper in memory. The calls of the listed numbers fail, counted together from 0.
#[derive(Drop)]
pub struct MemKeeper {
    tables: MemTables,
    calls: Calls,
}

impl Model for MemKeeper {
    ghost use Rattle.muni_keep.specs.MemKeeper.{KeeperState, keeper_code};

    ghost Value = { KeeperState };

    ghost coded = { keeper_code };

    ghost view = { λ keeper. record {
      tables = keeper.tables;
      calls = keeper.calls;
    } };
}

impl MemKeeper {
    /// A keeper with empty tables.
    pub fn new(alloc: Global, failing: &[u64]) -> Result<MemKeeper, NoMemory>
        ensures { IfOk result (λ keeper. keeper ≡ new_keeper failing.now) }
    {
        Ok(MemKeeper {
            tables: MemTables::new(alloc),
            calls: Calls::new(alloc, failing)?,
        })
    }
}

impl MemKeeper {
    ghost use Rattle.muni_keep.specs.MemKeeper.{uncounted};

    /// The count of faults.
    pub(crate) fn faults(&self) -> &Faults
        ensures { result.now ≡ self.now.calls.faults }
    {
        self.calls.faults()
    }

    /// The same keeper with no fault counted.
    pub(crate) fn uncounted(self) -> MemKeeper
        ensures { result ≡ uncounted self }
    {
        MemKeeper {
            calls: self.calls.uncounted(),
            ..self
        }
    }
}

impl Keeper for MemKeeper {
    ghost tables = { λ keeper. Some keeper.tables };

    ghost faults = { λ keeper. keeper.calls.faults };

    ghost lent_as = { λ _. 0 };

    fn issue(&mut self, cusip: &[u8; 9]) -> Result<Option<Issue>, KeepFault>
        // promise 9: a keeper in memory fails exactly at the listed calls, and else finds what is kept
        ensures { LooksUp result (issue_at self.old.tables cusip.now) self.old self.new }
    {
        self.calls.make()?;
        Ok(self.tables.issue(cusip))
    }

    fn issue_numbered(&mut self, cusip: &[u8; 9], number: u32) -> Result<Option<Issue>, KeepFault>
        // promise 9: a keeper in memory fails exactly at the listed calls, and else finds what is kept
        ensures { LooksUp result (issue_numbered self.old.tables cusip.now number) self.old self.new }
    {
        self.calls.make()?;
        Ok(self.tables.issue_numbered(cusip, number))
    }

    fn last_issue(&mut self, cusip: &[u8; 9]) -> Result<Option<(u32, Issue)>, KeepFault>
        // promise 9: a keeper in memory fails exactly at the listed calls, and else finds what is kept
        ensures { LooksUp result (last_issue self.old.tables cusip.now) self.old self.new }
    {
        self.calls.make()?;
        Ok(self.tables.last_issue(cusip))
    }

    fn put_issue(&mut self, number: u32, issue: &Issue) -> Result<(), KeepFault>
        requires { number ≡ next_number (issue_history self.old.tables issue.now.cusip) }

        // promise 9: a put in memory fails exactly at the listed calls, and else is kept
        ensures { Puts (with_issue issue.now) result self.old self.new }
    {
        self.calls.make()?;
        self.tables.put_issue(number, issue)?;
        Ok(())
    }

    fn version(&mut self, key: &Key, number: u32) -> Result<Option<Version>, KeepFault>
        // promise 9: a keeper in memory fails exactly at the listed calls, and else finds what is kept
        ensures { LooksUp result (version_at self.old.tables key.now number) self.old self.new }
    {
        self.calls.make()?;
        Ok(self.tables.version(key, number))
    }

    fn last(&mut self, key: &Key) -> Result<Option<(u32, Version)>, KeepFault>
        // promise 9: a keeper in memory fails exactly at the listed calls, and else finds what is kept
        ensures { LooksUp result (last_at self.old.tables key.now) self.old self.new }
    {
        self.calls.make()?;
        Ok(self.tables.last(key))
    }

    fn put_version(&mut self, key: &Key, number: u32, version: &Version) -> Result<(), KeepFault>
        requires { number ≡ next_number (trade_at self.old.tables key.now) }

        // promise 9: a put in memory fails exactly at the listed calls, and else is kept
        ensures { Puts (with_version key.now version.now) result self.old self.new }
    {
        self.calls.make()?;
        self.tables.put_version(key, number, version)?;
        Ok(())
    }

    fn trades(&mut self, desk: &DeskName) -> Result<u32, KeepFault>
        // promise 9: a keeper in memory fails exactly at the listed calls, and else finds what is kept
        ensures { LooksUp result (trade_count self.old.tables desk.now) self.old self.new }
    {
        self.calls.make()?;
        Ok(self.tables.trades(desk))
    }

    fn page(
        &mut self,
        desk: &DeskName,
        after: &Option<Reference>,
    ) -> Result<ArrayVec<Line, 50>, KeepFault>
        // promise 9: a keeper in memory fails exactly at the listed calls, and else finds what is kept
        ensures { LooksUp (result_map_both (λ lines. lines.items) (λ fault. fault) result)
            (page_at self.old.tables desk.now after.now) self.old self.new }
    {
        self.calls.make()?;
        Ok(self.tables.page(desk, after))
    }

    fn before_latest(&mut self, desk: &DeskName) -> Result<Option<Reference>, KeepFault>
        // promise 9: a keeper in memory fails exactly at the listed calls, and else finds what is kept
        ensures { LooksUp result (before_latest self.old.tables desk.now) self.old self.new }
    {
        self.calls.make()?;
        Ok(self.tables.before_latest(desk))
    }

    fn issue_past(&mut self, after: &Option<[u8; 9]>) -> Result<Option<([u8; 9], Issue)>, KeepFault>
        // promise 9: a keeper in memory fails exactly at the listed calls, and else finds what is kept
        ensures { LooksUp result (issue_past self.old.tables after.now) self.old self.new }
    {
        self.calls.make()?;
        Ok(self.tables.issue_past(after))
    }

    fn desk_past(&mut self, after: &Option<DeskName>) -> Result<Option<DeskName>, KeepFault>
        // promise 9: a keeper in memory fails exactly at the listed calls, and else finds what is kept
        ensures { LooksUp result (desk_past self.old.tables after.now) self.old self.new }
    {
        self.calls.make()?;
        Ok(self.tables.desk_past(after))
    }
}
