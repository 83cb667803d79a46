//! The trades of one desk.

ghost use Rattle.std.specs.Prelude.{◌≡◌, ◌==◌, is_none};
ghost use Rattle.std.specs.Option.{option_map};
ghost use Rattle.std.specs.FinMap as map;
ghost use Rattle.muni_keep.specs.History.{next_number};
ghost use Rattle.muni_keep.specs.Puts.{PutsIf};
ghost use Rattle.muni_keep.specs.Trades as spec;

use crate::past::bound_past;
use crate::trade::Trade;
use muni_msg::Reference;
use std::alloc::{AllocError, Global};
use std::collections::BTreeMap;
use std::collections::btree_map::Range;
use std::marker::Model;
use std::ops::Bound;

/// The trades of one desk, by their references.
#[derive(Drop)]
pub(crate) struct Trades<V> {
    alloc: Global,
    trades: BTreeMap<Reference, Trade<V>>,
}

impl<V> Model for Trades<V> {
    ghost use Rattle.std.specs.FinMap as map;
    ghost use Rattle.muni_keep.specs.Trades as spec;

    ghost Value = { spec.Trades V };

    ghost coded = { spec.trades_code V.code };

    ghost view = { λ trades. map.from_entries trades.trades.entries };
}

impl<V: Copy + Drop> Trades<V> {
    /// No trades.
    pub(crate) fn new(alloc: Global) -> Trades<V>
        ensures { result ≡ map.empty }
    {
        Trades {
            alloc,
            trades: BTreeMap::new(alloc),
        }
    }

    /// How many trades there are.
    pub(crate) fn len(&self) -> usize
        ensures { result ≡ map.len self.now }
    {
        self.trades.len()
    }

    /// The trade with a reference, if there is one.
    pub(crate) fn get(&self, reference: &Reference) -> Option<&Trade<V>>
        ensures { option_map (λ trade. trade.now) result ≡ map.get self.now reference.now }
    {
        self.trades.get(reference)
    }

    /// The trades after a reference, or all if none is given, in the order of their references.
    pub(crate) fn past(&self, after: &Option<Reference>) -> Range<'_, Reference, Trade<V>>
        ensures { result ≡ spec.trades_past after.now self.now }
    {
        self.trades.range((bound_past(after), Bound::Unbounded))
    }

    /// Adds a version of a trade if its number is the next one, and says whether it was.
    pub(crate) fn put_next(
        &mut self,
        reference: &Reference,
        number: u32,
        version: V,
    ) -> Result<bool, AllocError>
        ensures { PutsIf (number == next_number (map.get self.old reference.now))
            (spec.put_own reference.now version self.old) result self.old self.new }
    {
        if number == 1 {
            return self.put_first(reference, version);
        }
        let Some(trade) = self.trades.get_mut(reference) else {
            return Ok(false);
        };
        trade.add_next(number, version)
    }

    /// Adds a trade with its first version if there is none of this reference, and says whether there was
    /// none. This takes one search of the tree, and a second one only to put back a trade that was there.
    fn put_first(&mut self, reference: &Reference, version: V) -> Result<bool, AllocError>
        ensures { PutsIf (is_none (map.get self.old reference.now))
            (spec.put_own reference.now version self.old) result self.old self.new }
    {
        let trade = Trade::new(self.alloc, version)?;
        match self.trades.insert(reference.copy(), trade)? {
            Some(kept) => {
                self.trades.insert(reference.copy(), kept)?;
                Ok(false)
            }
            None => Ok(true),
        }
    }
}
