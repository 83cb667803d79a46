//! What is wanted of what a store keeps.

use muni_msg::DeskName;

/// What is written of what a store keeps.
#[derive(Drop)]
pub enum Wanted {
    /// The rows of all terms of all issues, and after them those of the trades of all desks.
    Everything,
    /// The rows of all terms of all issues.
    Issues,
    /// The rows of all terms of the issues that a desk's trades name, and after them those of its trades.
    Desk(DeskName),
    /// A line for each trade of a desk with its last version, after a line with the names of the columns.
    List(DeskName),
    /// The confirmations of a desk's trades, with an empty line between two.
    Confirmations(DeskName),
    /// How many terms of issues and how many versions of each desk could be read, and that it is sound.
    Counts,
}
