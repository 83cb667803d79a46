//! The tables of earlier versions of the program.

use crate::rows::{is_issue, is_trade};
use crate::schema::Table;
use sqlite::Row;

/// A table of an earlier version of the program.
#[derive(Clone, Copy)]
pub(crate) enum OldTable {
    /// Issues, whose terms had no numbers.
    Issues2,
    /// Versions, which had no number of the terms of their issue.
    Versions2,
    /// Issues that had no basis either.
    Issues1,
    /// Versions that had no fee and no commission either.
    Versions1,
}

/// All of them.
pub(crate) const OLD_TABLES: [OldTable; 4] = [
    OldTable::Issues2,
    OldTable::Versions2,
    OldTable::Issues1,
    OldTable::Versions1,
];

impl OldTable {
    pub(crate) fn name(self) -> &'static str {
        match self {
            OldTable::Issues2 => "issues_2",
            OldTable::Versions2 => "versions_2",
            OldTable::Issues1 => "issues",
            OldTable::Versions1 => "versions",
        }
    }

    /// The table to which the rows are moved.
    pub(crate) fn today(self) -> Table {
        match self {
            OldTable::Issues2 | OldTable::Issues1 => Table::Issues,
            OldTable::Versions2 | OldTable::Versions1 => Table::Versions,
        }
    }

    /// Finds the rows, with the columns of today. An issue had its first terms alone, and its days were counted
    /// by 30/360 before there was a basis; no trade had a fee before there was one.
    pub(crate) fn rows(self) -> &'static str {
        match self {
            OldTable::Issues2 => {
                "SELECT cusip, 1, name, kind, dated, first, maturity, coupon, calls, basis FROM issues_2"
            }
            OldTable::Versions2 => {
                "SELECT desk, reference, number, act, cusip, side, par, settle, basis, value, price, yld, \
                 redemption, at_price, label, days, principal, accrued, total, fee, commission, 1 \
                 FROM versions_2"
            }
            OldTable::Issues1 => {
                "SELECT cusip, 1, name, kind, dated, first, maturity, coupon, calls, 0 FROM issues"
            }
            OldTable::Versions1 => {
                "SELECT desk, reference, number, act, cusip, side, par, settle, basis, value, price, yld, \
                 redemption, at_price, label, days, principal, accrued, total, 0, 0, 1 FROM versions"
            }
        }
    }

    /// Whether a row that was found is that of a checked value.
    pub(crate) fn is_checked(self, row: &Row) -> bool {
        match self.today() {
            Table::Issues => is_issue(row),
            Table::Versions => is_trade(row),
        }
    }
}
