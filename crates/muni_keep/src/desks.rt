//! The trades of all desks.

ghost use Rattle.std.specs.Prelude.{◌≡◌, ◌==◌, slice_get};
ghost use Rattle.std.specs.Option.{option_map};
ghost use Rattle.std.specs.FinMap as map;
ghost use Rattle.muni_keep.specs.History.{next_number};
ghost use Rattle.muni_keep.specs.Puts.{PutsIf};
ghost use Rattle.muni_keep.specs.Trades as spec;

use crate::past::bound_past;
use crate::trade::Trade;
use crate::trades::Trades;
use muni_msg::{DeskName, Reference};
use std::alloc::{AllocError, Global};
use std::collections::BTreeMap;
use std::marker::Model;
use std::ops::Bound;

/// The trades of all desks, by the names of the desks.
#[derive(Drop)]
pub(crate) struct Desks<V> {
    alloc: Global,
    desks: BTreeMap<DeskName, Trades<V>>,
}

impl<V> Model for Desks<V> {
    ghost use Rattle.std.specs.FinMap as map;
    ghost use Rattle.muni_keep.specs.Trades as spec;

    ghost Value = { spec.Desks V };

    ghost coded = { spec.desks_code V.code };

    ghost view = { λ desks. map.from_entries desks.desks.entries };
}

impl<V: Copy + Drop> Desks<V> {
    /// No desk has any trades.
    pub(crate) fn new(alloc: Global) -> Desks<V>
        ensures { result ≡ map.empty }
    {
        Desks {
            alloc,
            desks: BTreeMap::new(alloc),
        }
    }

    /// The trades of a desk, if it has any.
    pub(crate) fn own(&self, desk: &DeskName) -> Option<&Trades<V>>
        ensures { option_map (λ trades. trades.now) result ≡ map.get self.now desk.now }
    {
        self.desks.get(desk)
    }

    /// How many trades a desk has.
    pub(crate) fn count(&self, desk: &DeskName) -> usize
        ensures { result ≡ map.len (spec.own desk.now self.now) }
    {
        match self.own(desk) {
            Some(trades) => trades.len(),
            None => 0,
        }
    }

    /// A trade of a desk, if it has one with this reference.
    pub(crate) fn trade(&self, desk: &DeskName, reference: &Reference) -> Option<&Trade<V>>
        ensures { option_map (λ trade. trade.now) result
            ≡ map.get (spec.own desk.now self.now) reference.now }
    {
        match self.own(desk) {
            Some(trades) => trades.get(reference),
            None => None,
        }
    }

    /// The first desk after another, or the first of all if none is given.
    pub(crate) fn past(&self, after: &Option<DeskName>) -> Option<&DeskName>
        ensures { option_map (λ desk. desk.now) result
            ≡ option_map (λ entry. entry.0) (slice_get (spec.past after.now self.now) 0) }
    {
        let mut desks = self.desks.range((bound_past(after), Bound::Unbounded));
        match desks.next() {
            Some((desk, _)) => Some(desk),
            None => None,
        }
    }

    /// Adds a version of a trade of a desk if its number is the next one, and says whether it was.
    pub(crate) fn put_next(
        &mut self,
        desk: &DeskName,
        reference: &Reference,
        number: u32,
        version: V,
    ) -> Result<bool, AllocError>
        ensures { PutsIf (number == next_number (map.get (spec.own desk.now self.old) reference.now))
            (spec.put desk.now reference.now version self.old) result self.old self.new }
    {
        match self.desks.get_mut(desk) {
            Some(trades) => trades.put_next(reference, number, version),
            None => {
                let mut trades = Trades::new(self.alloc);
                if !trades.put_next(reference, number, version)? {
                    return Ok(false);
                }
                self.desks.insert(desk.copy(), trades)?;
                Ok(true)
            }
        }
    }
}
