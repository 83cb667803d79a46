//! What the desk is asked and what it answers.

ghost use Rattle.std.specs.Prelude.{◌≡◌, ◌↔◌, true};
ghost use Rattle.std.specs.Cmp.Rules.{comparing};
ghost use Rattle.std.proofs.Common.{rules};

use crate::{Asked, DeskName, Figures, Reference, Refusal, Shown, Terms, Version};
use arrayvec::ArrayVec;
use muni_terms::{Issue, IssueRow};

/// A trade of a desk.
#[derive(Debug, Drop)]
pub struct Key {
    pub desk: DeskName,
    pub reference: Reference,
}

/// What the book of the desk is asked.
#[derive(Drop)]
pub enum Command {
    /// To keep an issue.
    AddIssue(IssueRow),
    /// To keep other terms of an issue, as its terms with this number.
    Amend {
        number: u32,
        row: IssueRow,
    },
    /// To enter a trade.
    Enter {
        key: Key,
        terms: Terms,
        /// The number of the terms of the issue by which it is figured, or none for the last ones.
        issue_number: Option<u32>,
    },
    /// To correct a trade by a version with this number.
    Correct {
        key: Key,
        number: u32,
        terms: Terms,
        /// The number of the terms of the issue by which it is figured, or none for the last ones.
        issue_number: Option<u32>,
    },
    /// To cancel a trade by a version with this number.
    Cancel {
        key: Key,
        number: u32,
    },
    /// To confirm the last version of a trade.
    Confirm {
        key: Key,
    },
    /// For figures, with nothing kept, and for what is to be shown after them.
    Quote {
        asked: Asked,
        shown: Shown,
    },
    /// For the trades of a desk, after a reference if one is given.
    List {
        desk: DeskName,
        after: Option<Reference>,
    },
}

/// A trade in a list, with its last version.
#[derive(Debug, Drop)]
pub struct Line {
    pub reference: Reference,
    /// The number of the version.
    pub number: u32,
    pub version: Version,
}

/// What the book answers.
#[derive(Drop)]
pub enum Reply {
    /// The issue of this CUSIP is kept.
    Added {
        cusip: [u8; 9],
    },
    /// The terms with this number of the issue of this CUSIP are kept.
    Amended {
        cusip: [u8; 9],
        number: u32,
    },
    /// The figures, what they were asked for and of which issue, and what is to be shown after them.
    Quoted {
        issue: Issue,
        asked: Asked,
        figures: Figures,
        shown: Shown,
    },
    /// The first 50 trades after the reference, or of all if none is given, in the order of their
    /// references.
    Listed(ArrayVec<Line, 50>),
    /// The version with this number is kept.
    Confirmed {
        issue: Issue,
        key: Key,
        number: u32,
        version: Version,
    },
    Refused(Refusal),
}

impl Key {
    /// A key of equal value.
    pub fn copy(&self) -> Key
        ensures { result ≡ self.now }
    {
        Key {
            desk: self.desk.copy(),
            reference: self.reference.copy(),
        }
    }
}

impl PartialEq for Key {
    ghost use Rattle.muni_msg.specs.Key.{key_eq};

    ghost eq = { key_eq };

    ghost laws = { Prim.search (comparing, rules) };

    #[tactic(auto, using(crate::proofs::KeyLemmas::key_decides))]
    fn eq(&self, other: &Key) -> bool
        ensures value { result ≡ key_eq self.now other.now }
        // promise 5: keys of trades are equal exactly if they are the same
        ensures same { (result ≡ true) ↔ (self.now ≡ other.now) }
    {
        self.desk == other.desk && self.reference == other.reference
    }
}

impl Eq for Key {
    ghost laws = { Prim.search (comparing, rules) };
}

impl Default for Line {
    /// An empty slot of a list. No contract reads it.
    fn default() -> Line {
        Line {
            reference: Reference::default(),
            number: 0,
            version: Version::default(),
        }
    }
}
