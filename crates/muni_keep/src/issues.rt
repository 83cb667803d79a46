//! The issues that a keeper in memory has.

ghost use Rattle.std.specs.Prelude.{◌≡◌, ◌==◌, slice_get};
ghost use Rattle.std.specs.Option.{option_map};
ghost use Rattle.std.specs.FinMap as map;
ghost use Rattle.muni_keep.specs.History.{grown, next_number};
ghost use Rattle.muni_keep.specs.Puts.{PutsIf};
ghost use Rattle.muni_keep.specs.Trades.{past};

use crate::issue_history::IssueHistory;
use crate::past::bound_past;
use muni_terms::Issue;
use std::alloc::{AllocError, Global};
use std::collections::BTreeMap;
use std::marker::Model;
use std::ops::Bound;

/// The numbered terms of issues, by CUSIP.
#[derive(Drop)]
pub(crate) struct Issues {
    alloc: Global,
    issues: BTreeMap<[u8; 9], IssueHistory>,
}

impl Model for Issues {
    ghost use Rattle.std.specs.FinMap as map;
    ghost use Rattle.muni_keep.specs.Tables as spec;

    ghost Value = { spec.Issues };

    ghost coded = { spec.issues_code };

    ghost view = { λ issues. map.from_entries issues.issues.entries };
}

impl Issues {
    /// No issues.
    pub(crate) fn new(alloc: Global) -> Issues
        ensures { result ≡ map.empty }
    {
        Issues {
            alloc,
            issues: BTreeMap::new(alloc),
        }
    }

    /// The terms of the issue of a CUSIP, if there is one.
    pub(crate) fn get(&self, cusip: &[u8; 9]) -> Option<&IssueHistory>
        ensures { option_map (λ history. history.now) result ≡ map.get self.now cusip.now }
    {
        self.issues.get(cusip)
    }

    /// The first issue after a CUSIP, or the first of all if none is given, with its CUSIP and its last terms.
    pub(crate) fn past(&self, after: &Option<[u8; 9]>) -> Option<([u8; 9], Issue)>
        ensures { result ≡ option_map (λ issue. (issue.0, issue.1.last)) (slice_get (past after.now self.now) 0) }
    {
        let mut issues = self.issues.range((bound_past(after), Bound::Unbounded));
        match issues.next() {
            Some((cusip, history)) => Some((*cusip, history.last())),
            None => None,
        }
    }

    /// Adds terms of an issue if their number is the next one, and says whether it was.
    pub(crate) fn put_next(&mut self, number: u32, issue: &Issue) -> Result<bool, AllocError>
        ensures { PutsIf (number == next_number (map.get self.old issue.now.cusip))
            (map.insert self.old issue.now.cusip (grown (map.get self.old issue.now.cusip) issue.now))
            result self.old self.new }
    {
        let cusip = issue.row().cusip;
        match self.issues.get_mut(&cusip) {
            Some(history) => history.add_next(number, issue),
            None => {
                if number != 1 {
                    return Ok(false);
                }
                self.issues
                    .insert(cusip, IssueHistory::new(self.alloc, issue))?;
                Ok(true)
            }
        }
    }
}
