//! The numbered terms of one issue.

ghost use Rattle.std.specs.Prelude.{◌≡◌, ◌==◌, ◌+◌, Some, None};
ghost use Rattle.std.specs.Option.{option_map};
ghost use Rattle.muni_keep.specs.History as history;
ghost use Rattle.muni_keep.specs.Puts.{PutsIf};

use muni_terms::Issue;
use std::alloc::{AllocError, Global};
use std::marker::Model;

/// The last terms of an issue, and those before them in order.
#[derive(Drop)]
pub(crate) struct IssueHistory {
    earlier: Vec<Issue>,
    last: Issue,
}

impl Model for IssueHistory {
    ghost use Rattle.std.specs.Prelude.{◌<◌, ◌+◌, ◌^◌, vec_len};
    ghost use Rattle.muni_terms.specs.contracts.issue.Issue.{the_row as issue_row};
    ghost use Rattle.muni_terms.specs.declared.row.IssueRow.{IssueRow};
    ghost use Rattle.muni_keep.specs.History.{History, history_code};

    ghost Value = { History IssueRow };

    ghost coded = { history_code issue_row.coded };

    ghost view = { λ history. record {
      earlier = history.earlier.items;
      last = history.last;
    } };

    ghost invariant = { λ history. vec_len history.earlier + 1 < 2 ^ 32 };
}

impl IssueHistory {
    /// An issue with its first terms.
    pub(crate) fn new(alloc: Global, first: &Issue) -> IssueHistory
        ensures { result ≡ history.grown None first.now }
    {
        IssueHistory {
            earlier: Vec::new(alloc),
            last: first.copy(),
        }
    }

    /// The number of the last terms.
    pub(crate) fn count(&self) -> u32
        ensures { result ≡ history.count self.now }
    {
        self.earlier.len() as u32 + 1
    }

    /// The last terms.
    pub(crate) fn last(&self) -> Issue
        ensures { result ≡ self.now.last }
    {
        self.last.copy()
    }

    /// The terms with this number, if there are any.
    pub(crate) fn numbered(&self, number: u32) -> Option<Issue>
        ensures { result ≡ history.version_in self.now number }
    {
        match self.at(number) {
            Some(issue) => Some(issue.copy()),
            None => None,
        }
    }

    fn at(&self, number: u32) -> Option<&Issue>
        ensures { option_map (λ issue. issue.now) result ≡ history.version_in self.now number }
    {
        if number == 0 {
            return None;
        }
        let place = number as usize - 1;
        if place == self.earlier.len() {
            return Some(&self.last);
        }
        self.earlier.get(place)
    }

    /// Adds terms if their number is the next one, and says whether it was.
    pub(crate) fn add_next(&mut self, number: u32, issue: &Issue) -> Result<bool, AllocError>
        ensures { PutsIf (number == history.count self.old + 1) (history.grown (Some self.old) issue.now)
            result self.old self.new }
    {
        if u64::from(number) != u64::from(self.count()) + 1 {
            return Ok(false);
        }
        self.earlier.push(self.last.copy())?;
        self.last = issue.copy();
        Ok(true)
    }
}
