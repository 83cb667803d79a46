//! The columns in which the store keeps issues and versions, and the values that they stand for.
#![tactic(auto)]

mod calls;
mod codes;
mod issue;
pub mod laws;
mod outside;
mod version;
mod written_version;

pub use issue::{
    IssueColumns, NumberedColumns, issue_1, issue_2, issue_3, issue_columns, numbered_columns,
    row_columns,
};
pub use outside::{version_1, version_2, version_3};
pub use version::{AskedRow, FigureRow, TradeRow};
pub use written_version::WrittenVersion;
