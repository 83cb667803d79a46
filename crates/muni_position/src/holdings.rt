//! What is kept of each security.

ghost use Rattle.std.specs.Prelude.{◌≡◌, ℕ, List, IsSome, is_some, OnOk, if◌then◌else◌};
ghost use Rattle.std.specs.Ordering.{eq_by_cmp};
ghost use Rattle.std.specs.BTreeMap as tree;
ghost use Rattle.muni_keep.specs.Trades.{by_bytes};
ghost use Rattle.muni_position.specs.Holdings as spec;

use crate::holding::Holding;
use std::alloc::AllocError;
use std::collections::BTreeMap;

/// Holdings by CUSIP.
pub(crate) type Holdings = BTreeMap<[u8; 9], Holding>;

/// The holding of a CUSIP, which is nothing if none is kept.
pub(crate) fn kept(holdings: &Holdings, cusip: &[u8; 9]) -> Holding
    ensures { result ≡ spec.kept holdings.now cusip.now }
{
    match holdings.get(cusip) {
        Some(holding) => *holding,
        None => Holding::nothing(),
    }
}

/// Makes room for the holding of a CUSIP, which stays as it is.
pub(crate) fn make_room(holdings: &mut Holdings, cusip: &[u8; 9]) -> Result<(), AllocError>
    ensures same { (other : List ℕ) → spec.kept holdings.new other ≡ spec.kept holdings.old other }
    ensures room { OnOk result (IsSome (tree.get by_bytes holdings.new cusip.now)) }
    ensures rooms { (other : List ℕ) → IsSome (tree.get by_bytes holdings.old other)
        → IsSome (tree.get by_bytes holdings.new other) }
{
    if holdings.contains_key(cusip) {
        return Ok(());
    }
    holdings.insert(*cusip, Holding::nothing())?;
    Ok(())
}

/// Puts a holding for which there is room.
pub(crate) fn set(holdings: &mut Holdings, cusip: &[u8; 9], holding: Holding)
    requires { IsSome (tree.get by_bytes holdings.old cusip.now) }
    ensures kept { (other : List ℕ) → spec.kept holdings.new other
        ≡ (if eq_by_cmp by_bytes cusip.now other then holding else spec.kept holdings.old other) }
    ensures rooms { (other : List ℕ) → is_some (tree.get by_bytes holdings.new other)
        ≡ is_some (tree.get by_bytes holdings.old other) }
{
    if let Some(place) = holdings.get_mut(cusip) {
        *place = holding;
    }
}
