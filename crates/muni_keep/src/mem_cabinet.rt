//! A cabinet in memory.

ghost use Rattle.std.specs.Prelude.{◌≡◌, ◌≢◌, ◌≤◌, ◌↔◌, ℕ, List, [], true, map, Some, None, IfOk, IfSome, IsSome, OnOk, OnErr, IsErrOf};
ghost use Rattle.std.specs.FinMap as finmap;
ghost use Rattle.muni_edge.specs.Calls.{is_listed};
ghost use Rattle.muni_keep.specs.MemKeeper.{new_keeper, uncounted};
ghost use Rattle.muni_keep.specs.MemCabinet.{new_cabinet, keeper_at, tables_at, after_fetch, after_refusal, given_back};

use crate::cabinet::Cabinet;
use crate::fault::KeepFault;
use crate::mem_keeper::MemKeeper;
use crate::store_name::StoreName;
use muni_edge::{Calls, NoMemory};
use std::alloc::{AllocError, Global};
use std::collections::BTreeMap;
use std::marker::Model;

/// Keepers by name.
#[derive(Drop)]
struct Keepers {
    keepers: BTreeMap<StoreName, MemKeeper>,
}

impl Model for Keepers {
    ghost use Rattle.std.specs.FinMap as map;
    ghost use Rattle.muni_keep.specs.MemCabinet as spec;

    ghost Value = { spec.Keepers };

    ghost coded = { spec.keepers_code };

    ghost view = { λ keepers. map.from_entries keepers.keepers.entries };
}

impl Keepers {
    /// No keepers.
    fn new(alloc: Global) -> Keepers
        ensures { result ≡ finmap.empty }
    {
        Keepers {
            keepers: BTreeMap::new(alloc),
        }
    }

    /// Puts a keeper under a name, and gives the one that was there. Only a new name can be refused.
    fn put(&mut self, name: StoreName, keeper: MemKeeper) -> Result<Option<MemKeeper>, AllocError>
        ensures was { IfOk result (λ was. was ≡ finmap.get self.old name) }
        ensures put { OnOk result (self.new ≡ finmap.insert self.old name keeper) }
        ensures unchanged { OnErr result (self.new ≡ self.old) }
        ensures absent { OnErr result (finmap.get self.old name ≡ None) }
    {
        Ok(self.keepers.insert(name, keeper)?)
    }

    /// Takes the keeper of a name, or a new one if there is none yet, and leaves a new one in its
    /// place.
    fn take(&mut self, alloc: Global, name: StoreName) -> Result<MemKeeper, NoMemory>
        ensures keeper { IfOk result (λ keeper. keeper ≡ keeper_at self.old name) }
        ensures left { OnOk result (self.new ≡ finmap.insert self.old name (new_keeper [])) }
        ensures unchanged { OnErr result (self.new ≡ self.old) }
    {
        let left = MemKeeper::new(alloc, &[])?;
        let fresh = MemKeeper::new(alloc, &[])?;
        Ok(self.put(name, left)?.unwrap_or(fresh))
    }
    /// Puts a keeper in place of the one under a name.
    fn replace(&mut self, name: StoreName, keeper: MemKeeper)
        requires { IsSome (finmap.get self.old name) }
        ensures { self.new ≡ finmap.insert self.old name keeper }
    {
        let _ = self.put(name, keeper);
    }
}

/// A cabinet in memory. The calls of `fetch` with the listed numbers fail, counted from 0. A name
/// that is new has empty tables.
#[derive(Drop)]
pub struct MemCabinet {
    alloc: Global,
    keepers: Keepers,
    out: Option<StoreName>,
    calls: Calls,
}

impl Model for MemCabinet {
    ghost use Rattle.std.specs.Prelude.{IfSome, IsSome};
    ghost use Rattle.std.specs.FinMap as map;
    ghost use Rattle.muni_keep.specs.MemCabinet.{CabinetState, cabinet_code};

    ghost Value = { CabinetState };

    ghost coded = { cabinet_code };

    ghost view = { λ cabinet. record {
      keepers = cabinet.keepers;
      out = cabinet.out;
      calls = cabinet.calls;
    } };

    ghost invariant = { λ cabinet. IfSome cabinet.out
        (λ name. IsSome (map.get cabinet.keepers name)) };
}

impl MemCabinet {
    /// A cabinet with these keepers under their names. Of two of one name it has the first.
    pub fn new(
        alloc: Global,
        keepers: Vec<(Vec<u8>, MemKeeper)>,
        failing: &[u64],
    ) -> Result<MemCabinet, NoMemory>
        ensures { IfOk result (λ cabinet. cabinet
            ≡ new_cabinet (map (λ named. (named.0.items, named.1)) keepers.items) failing.now) }
    {
        let mut by_name = Keepers::new(alloc);
        for (name, keeper) in keepers.into_iter().rev() {
            by_name.put(StoreName::new(name), keeper)?;
        }
        Ok(MemCabinet {
            alloc,
            keepers: by_name,
            out: None,
            calls: Calls::new(alloc, failing)?,
        })
    }
}

impl Cabinet for MemCabinet {
    ghost use Rattle.std.specs.Prelude.{Some};
    ghost use Rattle.std.specs.Option.{option_map};
    ghost use Rattle.muni_keep.specs.MemCabinet.{tables_at};

    type K = MemKeeper;

    ghost told = { λ cabinet name. Some (tables_at cabinet name) };

    ghost faults = { λ cabinet. cabinet.calls.faults };

    ghost out = { λ cabinet. option_map (λ name. (name, 0)) cabinet.out };

    fn fetch(&mut self, name: &[u8]) -> Result<MemKeeper, KeepFault>
        requires { self.old.out ≡ None }

        ensures keeper { IfOk result
            (λ keeper. keeper ≡ uncounted (keeper_at self.old.keepers name.now)) }
        ensures lent { OnOk result (self.new ≡ after_fetch name.now self.old) }
        ensures refused { OnErr result (self.new ≡ after_refusal self.old) }
        // promise 9: a cabinet in memory fails exactly at the listed calls
        ensures failed { IsErrOf result KeepFault.Failed ↔ (is_listed self.old.calls ≡ true) }
        ensures later { self.old.calls.faults ≤ self.new.calls.faults }
        ensures others { (other : List ℕ) → other ≢ name.now → tables_at self.new other ≡ tables_at self.old other }
    {
        self.calls.make()?;
        let key = StoreName::copy_of(self.alloc, name)?;
        let name = StoreName::copy_of(self.alloc, name)?;
        let keeper = self.keepers.take(self.alloc, key)?;
        self.out = Some(name);
        Ok(keeper.uncounted())
    }

    fn give_back(&mut self, keeper: MemKeeper)
        requires { IsSome self.old.out }

        ensures back { IfSome self.old.out (λ name. self.new ≡ given_back name keeper self.old) }
        ensures tables { IfSome self.old.out (λ name. tables_at self.new name ≡ keeper.tables) }
        ensures others { IfSome self.old.out (λ name.
            (other : List ℕ) → other ≢ name → tables_at self.new other ≡ tables_at self.old other) }
    {
        self.calls.add_faults(keeper.faults());
        if let Some(name) = self.out.take() {
            self.keepers.replace(name, keeper);
        }
    }
}
