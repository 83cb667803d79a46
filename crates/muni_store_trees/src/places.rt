//! Which trees the tables are.

/// The trees of the tables and of their keys, by their numbers in a store.
#[derive(Clone, Copy, Debug, PartialEq, Eq)]
pub struct Places {
    /// The table of the terms of issues.
    pub issues: u32,
    /// The index of CUSIPs and numbers.
    pub cusips: u32,
    /// The table of versions.
    pub versions: u32,
    /// The index of desks, references and numbers.
    pub keys: u32,
}
