//! What is put into the tables of the desk.

ghost use Rattle.std.specs.Prelude.{◌≡◌};

use muni_msg::{Key, Version};
use muni_terms::Issue;

/// What is put into the tables of the desk.
#[derive(Drop)]
pub enum Put {
    /// The terms of an issue with this number.
    Issue {
        number: u32,
        issue: Issue,
    },
    /// The version of a trade with this number.
    Version {
        key: Key,
        number: u32,
        version: Version,
    },
}

impl Put {
    /// A put of equal value.
    pub fn copy(&self) -> Put
        ensures { result ≡ self.now }
    {
        match self {
            Put::Issue { number, issue } => Put::Issue {
                number: *number,
                issue: issue.copy(),
            },
            Put::Version {
                key,
                number,
                version,
            } => Put::Version {
                key: key.copy(),
                number: *number,
                version: *version,
            },
        }
    }
}
