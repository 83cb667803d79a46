//! How many trades the desks have.

ghost use Rattle.std.specs.Prelude.{◌≡◌, ◌⊎◌, [], None};
ghost use Rattle.muni_store_trees.specs.Counts as spec;

use muni_msg::DeskName;
use std::alloc::Global;
use std::collections::BTreeMap;
use std::marker::Model;

/// How many trades those desks have that were asked for. So none is counted again for each entry.
#[derive(Drop)]
pub struct TradeCounts {
    counts: BTreeMap<DeskName, u32>,
}

impl Model for TradeCounts {
    ghost use Rattle.muni_store_trees.specs.Counts.{Counts};

    ghost Value = { Counts };

    ghost view = { λ counts. counts.counts.entries };
}

impl TradeCounts {
    /// No desk is counted.
    pub fn new(alloc: Global) -> TradeCounts
        ensures { result ≡ [] }
    {
        TradeCounts {
            counts: BTreeMap::new(alloc),
        }
    }

    /// The count of a desk, if it was counted.
    pub fn of(&self, desk: &DeskName) -> Option<u32>
        ensures { result ≡ spec.count_of desk.now self.now }
    {
        match self.counts.get(desk) {
            Some(count) => Some(*count),
            None => None,
        }
    }

    /// Keeps the count of a desk. If there is no memory for a new one it is counted again when it is
    /// asked for.
    pub fn keep(&mut self, desk: &DeskName, count: u32)
        ensures { (self.new ≡ spec.with_count desk.now count self.old)
            ⊎ ((self.new ≡ self.old) × (spec.count_of desk.now self.old ≡ None)) }
    {
        let _ = self.counts.insert(desk.copy(), count);
    }

    /// A version with this number was put. The first of a trade that is kept is one trade more.
    pub fn note_put(&mut self, desk: &DeskName, number: u32, is_kept: bool)
        ensures { self.new ≡ spec.after_put desk.now number is_kept self.old }
    {
        if number == 1 && is_kept {
            if let Some(count) = self.of(desk) {
                self.keep(desk, count.saturating_add(1));
            }
        }
    }
}
