//! A keeper that shows what it does not list.

ghost use Rattle.std.specs.Prelude.{None};

use arrayvec::ArrayVec;
use muni_keep::{KeepFault, Keeper};
use muni_msg::{DeskName, Key, Line, Reference, Version};
use muni_terms::Issue;

/// A keeper that lists no trade and shows the same last version of each. It counts puts and keeps none.
#[derive(Drop)]
pub struct Unlisted {
    last: Version,
    puts: u32,
}

impl Unlisted {
    /// A keeper of this last version.
    pub fn new(last: Version) -> Unlisted {
        Unlisted { last, puts: 0 }
    }

    /// How many versions were put.
    pub fn puts(&self) -> u32 {
        self.puts
    }
}

impl Keeper for Unlisted {
    ghost tables = { λ _. None };

    ghost faults = { λ _. 0 };

    ghost lent_as = { λ _. 0 };

    fn issue(&mut self, _cusip: &[u8; 9]) -> Result<Option<Issue>, KeepFault> {
        Ok(None)
    }

    fn issue_numbered(
        &mut self,
        _cusip: &[u8; 9],
        _number: u32,
    ) -> Result<Option<Issue>, KeepFault> {
        Ok(None)
    }

    fn last_issue(&mut self, _cusip: &[u8; 9]) -> Result<Option<(u32, Issue)>, KeepFault> {
        Ok(None)
    }

    fn put_issue(&mut self, _number: u32, _issue: &Issue) -> Result<(), KeepFault> {
        Ok(())
    }

    fn version(&mut self, _key: &Key, _number: u32) -> Result<Option<Version>, KeepFault> {
        Ok(Some(self.last))
    }

    fn last(&mut self, _key: &Key) -> Result<Option<(u32, Version)>, KeepFault> {
        Ok(Some((1, self.last)))
    }

    fn put_version(
        &mut self,
        _key: &Key,
        _number: u32,
        _version: &Version,
    ) -> Result<(), KeepFault> {
        self.puts = self.puts.wrapping_add(1);
        Ok(())
    }

    fn trades(&mut self, _desk: &DeskName) -> Result<u32, KeepFault> {
        Ok(0)
    }

    fn page(
        &mut self,
        _desk: &DeskName,
        _after: &Option<Reference>,
    ) -> Result<ArrayVec<Line, 50>, KeepFault> {
        Ok(ArrayVec::new())
    }

    fn before_latest(&mut self, _desk: &DeskName) -> Result<Option<Reference>, KeepFault> {
        Ok(None)
    }

    fn issue_past(
        &mut self,
        _after: &Option<[u8; 9]>,
    ) -> Result<Option<([u8; 9], Issue)>, KeepFault> {
        Ok(None)
    }

    fn desk_past(&mut self, _after: &Option<DeskName>) -> Result<Option<DeskName>, KeepFault> {
        Ok(None)
    }
}
