//! The rows of the tables: the values that columns stand for, and their laws.

pub use muni_store_rows::{issue_1, issue_2, issue_3, version_1, version_2, version_3};
