//! The tables of the desk, in memory.

ghost use Rattle.std.specs.Prelude.{◌≡◌, ◌==◌, OnOk, OnErr};
ghost use Rattle.muni_keep.specs.History.{next_number};
ghost use Rattle.muni_keep.specs.Puts.{PutsIf};
ghost use Rattle.muni_keep.specs.Tables.{no_tables, issue_at, issue_numbered, issue_history, last_issue, trade_at, version_at, last_at, trade_count, page_at, before_latest, issue_past, desk_past, with_issue, with_version};

use crate::desks::Desks;
use crate::issues::Issues;
use crate::page::{before_latest, page};
use arrayvec::ArrayVec;
use muni_msg::{DeskName, Key, Line, Reference, Version};
use muni_terms::Issue;
use std::alloc::{AllocError, Global};
use std::marker::Model;

/// The issues and the trades of the desk, in memory. A look-up cannot fail, and a put fails only if no
/// memory is left.
#[derive(Drop)]
pub struct MemTables {
    issues: Issues,
    desks: Desks<Version>,
}

impl Model for MemTables {
    ghost use Rattle.muni_keep.specs.Tables.{Tables, tables_code};

    ghost Value = { Tables };

    ghost coded = { tables_code };

    ghost view = { λ tables. record { issues = tables.issues; desks = tables.desks } };
}

impl MemTables {
    /// Empty tables.
    pub fn new(alloc: Global) -> MemTables
        ensures { result ≡ no_tables }
    {
        MemTables {
            issues: Issues::new(alloc),
            desks: Desks::new(alloc),
        }
    }

    /// The issue of a CUSIP by its last terms, if there is one.
    pub fn issue(&self, cusip: &[u8; 9]) -> Option<Issue>
        ensures { result ≡ issue_at self.now cusip.now }
    {
        match self.issues.get(cusip) {
            Some(history) => Some(history.last()),
            None => None,
        }
    }

    /// The issue of a CUSIP by its terms with this number, if there are any.
    pub fn issue_numbered(&self, cusip: &[u8; 9], number: u32) -> Option<Issue>
        ensures { result ≡ issue_numbered self.now cusip.now number }
    {
        match self.issues.get(cusip) {
            Some(history) => history.numbered(number),
            None => None,
        }
    }

    /// The issue of a CUSIP by its last terms, with their number, if there is one.
    pub fn last_issue(&self, cusip: &[u8; 9]) -> Option<(u32, Issue)>
        ensures { result ≡ last_issue self.now cusip.now }
    {
        match self.issues.get(cusip) {
            Some(history) => Some((history.count(), history.last())),
            None => None,
        }
    }

    /// Keeps the next terms of an issue, which have this number.
    pub fn put_issue(&mut self, number: u32, issue: &Issue) -> Result<(), AllocError>
        requires { number ≡ next_number (issue_history self.old issue.now.cusip) }
        ensures put { OnOk result (self.new ≡ with_issue issue.now self.old) }
        ensures unchanged { OnErr result (self.new ≡ self.old) }
    {
        self.put_next_issue(number, issue)?;
        Ok(())
    }

    /// Keeps terms of an issue if their number is the next one, and says whether it was.
    pub fn put_next_issue(&mut self, number: u32, issue: &Issue) -> Result<bool, AllocError>
        ensures { PutsIf (number == next_number (issue_history self.old issue.now.cusip))
            (with_issue issue.now self.old) result self.old self.new }
    {
        self.issues.put_next(number, issue)
    }

    /// The version of a trade with this number, if there is one.
    pub fn version(&self, key: &Key, number: u32) -> Option<Version>
        ensures { result ≡ version_at self.now key.now number }
    {
        match self.desks.trade(&key.desk, &key.reference) {
            Some(trade) => trade.version(number),
            None => None,
        }
    }

    /// The last version of a trade, with its number, if there is one.
    pub fn last(&self, key: &Key) -> Option<(u32, Version)>
        ensures { result ≡ last_at self.now key.now }
    {
        match self.desks.trade(&key.desk, &key.reference) {
            Some(trade) => Some((trade.count(), trade.last())),
            None => None,
        }
    }

    /// Keeps the next version of a trade, which has this number.
    pub fn put_version(
        &mut self,
        key: &Key,
        number: u32,
        version: &Version,
    ) -> Result<(), AllocError>
        requires { number ≡ next_number (trade_at self.old key.now) }
        ensures put { OnOk result (self.new ≡ with_version key.now version.now self.old) }
        ensures unchanged { OnErr result (self.new ≡ self.old) }
    {
        self.put_next(key, number, version)?;
        Ok(())
    }

    /// Keeps a version of a trade if its number is the next one, and says whether it was.
    pub fn put_next(
        &mut self,
        key: &Key,
        number: u32,
        version: &Version,
    ) -> Result<bool, AllocError>
        ensures { PutsIf (number == next_number (trade_at self.old key.now))
            (with_version key.now version.now self.old) result self.old self.new }
    {
        self.desks
            .put_next(&key.desk, &key.reference, number, *version)
    }

    /// How many trades a desk has, or 4,294,967,295 if it has more.
    pub fn trades(&self, desk: &DeskName) -> u32
        ensures { result ≡ trade_count self.now desk.now }
    {
        self.desks.count(desk).min(u32::MAX as usize) as u32
    }

    /// The first 50 trades of a desk after a reference, or the first of all if none is given, each with
    /// its last version.
    pub fn page(&self, desk: &DeskName, after: &Option<Reference>) -> ArrayVec<Line, 50>
        ensures { result.items ≡ page_at self.now desk.now after.now }
    {
        page(&self.desks, desk, after)
    }

    /// The reference after which the last 50 trades of a desk come, or none if it has no more than these.
    pub fn before_latest(&self, desk: &DeskName) -> Option<Reference>
        ensures { result ≡ before_latest self.now desk.now }
    {
        before_latest(&self.desks, desk)
    }

    /// The first issue after a CUSIP, or the first of all if none is given, with its CUSIP and its last terms.
    pub fn issue_past(&self, after: &Option<[u8; 9]>) -> Option<([u8; 9], Issue)>
        ensures { result ≡ issue_past self.now after.now }
    {
        self.issues.past(after)
    }

    /// The first desk with trades after a desk, or the first of all if none is given.
    pub fn desk_past(&self, after: &Option<DeskName>) -> Option<DeskName>
        ensures { result ≡ desk_past self.now after.now }
    {
        match self.desks.past(after) {
            Some(desk) => Some(desk.copy()),
            None => None,
        }
    }
}
