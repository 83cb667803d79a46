//! What a request asks for.

use crate::stated::StatedRow;
use muni_msg::{Command, DeskName, Key};

/// What a request asks for: a command of the book, or a look at its tables or a check by them, which keep
/// nothing.
#[derive(Drop)]
pub enum Request {
    Book(Command),
    Look(Look),
    Check(StatedRow),
}

/// A look at the tables.
#[derive(Drop)]
pub enum Look {
    /// At the terms of an issue.
    Issue { cusip: [u8; 9] },
    /// At the version of a trade with this number.
    Version { key: Key, number: u32 },
    /// At the positions of a desk.
    Positions { desk: DeskName },
    /// At the last 50 trades of a desk.
    Latest { desk: DeskName },
}
