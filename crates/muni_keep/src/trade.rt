//! The versions of one trade.

ghost use Rattle.std.specs.Prelude.{◌≡◌, ◌==◌, ◌+◌, Some, None, IfOk};
ghost use Rattle.muni_keep.specs.History as history;
ghost use Rattle.muni_keep.specs.Puts.{PutsIf};

use std::alloc::{AllocError, Global};
use std::marker::Model;

/// The last version of a trade, and those before it in order.
#[derive(Drop)]
struct Versions<V> {
    earlier: Vec<V>,
    last: V,
}

/// The versions of one trade, in a box: the tree of the trades has room for twice as many as it holds.
#[derive(Drop)]
pub(crate) struct Trade<V> {
    versions: Box<Versions<V>>,
}

impl<V> Model for Trade<V> {
    ghost use Rattle.std.specs.Prelude.{◌<◌, ◌+◌, ◌^◌, vec_len};
    ghost use Rattle.muni_keep.specs.History.{History, history_code};

    ghost Value = { History V };

    ghost coded = { history_code V.code };

    ghost view = { λ trade. record {
      earlier = trade.versions.value.earlier.items;
      last = trade.versions.value.last;
    } };

    ghost invariant = { λ trade. vec_len trade.versions.value.earlier + 1 < 2 ^ 32 };
}

impl<V: Copy + Drop> Trade<V> {
    /// A trade with its first version.
    pub(crate) fn new(alloc: Global, first: V) -> Result<Trade<V>, AllocError>
        ensures { IfOk result (λ trade. trade ≡ history.grown None first) }
    {
        let versions = Versions {
            earlier: Vec::new(alloc),
            last: first,
        };
        Ok(Trade {
            versions: Box::new(alloc, versions)?,
        })
    }

    /// The number of the last version.
    pub(crate) fn count(&self) -> u32
        ensures { result ≡ history.count self.now }
    {
        self.versions.earlier.len() as u32 + 1
    }

    /// The last version.
    pub(crate) fn last(&self) -> V
        ensures { result ≡ self.now.last }
    {
        self.versions.last
    }

    /// The version with this number, if there is one.
    pub(crate) fn version(&self, number: u32) -> Option<V>
        ensures { result ≡ history.version_in self.now number }
    {
        let place = number.checked_sub(1)? as usize;
        if place == self.versions.earlier.len() {
            return Some(self.versions.last);
        }
        self.versions.earlier.get(place).copied()
    }

    /// Adds a version if its number is the next one, and says whether it was.
    pub(crate) fn add_next(&mut self, number: u32, version: V) -> Result<bool, AllocError>
        ensures { PutsIf (number == history.count self.old + 1) (history.grown (Some self.old) version)
            result self.old self.new }
    {
        if u64::from(number) != u64::from(self.count()) + 1 {
            return Ok(false);
        }
        let versions = self.versions.as_mut();
        versions.earlier.push(versions.last)?;
        versions.last = version;
        Ok(true)
    }
}
