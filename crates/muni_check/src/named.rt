//! The references that rows name, each with the place of the first row that names it.

ghost use Rattle.std.specs.Prelude.{◌≡◌, ◌||◌, None, false, List, ℕ, IfOk, OnOk};
ghost use Rattle.muni_check.specs.Named as spec;
ghost use Rattle.muni_check.specs.Unseen.{is_same};

use muni_edge::NoMemory;
use muni_msg::Reference;
use std::alloc::Global;
use std::collections::BTreeMap;

/// The references that rows name, each with the place of the first row that names it.
pub(crate) type Named = BTreeMap<Reference, u64>;

/// None.
pub(crate) fn none(alloc: Global) -> Named
    ensures { (reference : List ℕ) → spec.place_in result reference ≡ None }
{
    BTreeMap::new(alloc)
}

/// Adds the reference of the row at a place. Returns the place of the first row with this reference, if one came before.
pub(crate) fn add(
    named: &mut Named,
    reference: &Reference,
    place: u64,
) -> Result<Option<u64>, NoMemory>
    ensures again { IfOk result (λ first. first ≡ spec.place_in named.old reference.now) }
    ensures places { OnOk result ((other : List ℕ) → spec.place_in named.new other
        ≡ spec.came_with (spec.place_in named.old) place reference.now other) }
    ensures added { OnOk result ((other : List ℕ) → spec.has named.new other
        ≡ (is_same reference.now other || spec.has named.old other)) }
{
    let first = place_in(named, reference);
    match named.insert(reference.copy(), first.unwrap_or(place)) {
        Ok(_) => Ok(first),
        Err(_) => Err(NoMemory),
    }
}

fn place_in(named: &Named, reference: &Reference) -> Option<u64>
    ensures { result ≡ spec.place_in named.now reference.now }
{
    match named.get(reference) {
        Some(place) => Some(*place),
        None => None,
    }
}

/// Whether a reference is among them.
pub(crate) fn has(named: &Named, reference: &Reference) -> bool
    ensures { result ≡ spec.has named.now reference.now }
{
    named.contains_key(reference)
}
