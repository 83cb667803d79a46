//! Issues, settlements, payments, bytes and connections for the tests, from the lines of a table.
//!
//! A line is words with blanks between them. A line `base ..` is no case: its words go before those
//! of each line after it, up to the next `base`, which may have none. A line `# ..` is a comment. An
//! issue is its kind (`periodic`, `zero`, `at-redemption` or `discount`), `dated=`, `first=`,
//! `maturity=`, `coupon=` and `call=DATE:PRICE`, once for each call, and for a note of that basis
//! `actual/365`; `settle=` is a settlement.
//!
//! In a line of bytes `~` stands for LF, `^` for CR, and `<ef>` for the byte with that number.
//!
//! Beside the tables is the trade that is worked by hand.
#![tactic(auto)]

mod bytes;
mod issue;
mod pieces;
mod table;
mod worked;

pub use bytes::bytes_of;
pub use pieces::Pieces;
pub use table::{Sample, Table};
pub use worked::{key, worked_figures, worked_issue, worked_terms, worked_version};
