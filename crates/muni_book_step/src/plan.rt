//! What is to be done for a command.

use muni_msg::{Act, Asked, Key, Reply, Shown, Terms, Version};
use muni_terms::Issue;

/// What is to be done for a command.
#[derive(Drop)]
pub enum Plan {
    /// This is answered, and nothing is kept.
    Answer(Reply),
    /// What is asked of the issue is computed and answered, and nothing is kept.
    Quote {
        issue: Issue,
        asked: Asked,
        shown: Shown,
    },
    /// The issue is kept, by its first terms.
    KeepIssue(Issue),
    /// The terms of an issue are kept under the next number.
    KeepAmendment {
        number: u32,
        issue: Issue,
    },
    /// The version is kept under its number.
    KeepVersion {
        issue: Issue,
        key: Key,
        number: u32,
        version: Version,
    },
    /// The figures of the terms are computed, and a version with them is kept under its number.
    KeepPriced {
        issue: Issue,
        issue_number: u32,
        key: Key,
        number: u32,
        act: Act,
        terms: Terms,
    },
}
