//! The CUSIPs that the trades of a desk name.

ghost use Rattle.std.specs.Prelude.{◌≡◌, ◌||◌, ℕ, List, false, IfOk, IfSome, OnOk};
ghost use Rattle.std.specs.List.{list_any};
ghost use Rattle.std.specs.Ordering.{eq_by_cmp};
ghost use Rattle.muni_keep.specs.Trades.{by_bytes};
ghost use Rattle.muni_desk_export.specs.Looks.{LooksOver};
ghost use Rattle.muni_desk_export.specs.Named as spec;
ghost use Rattle.muni_desk_export.specs.Trades.{AreOf, IsLineOf, versions_at};

use crate::versions::{key_of, version_of};
use muni_keep::{KeepFault, Keeper};
use muni_msg::{DeskName, Key, Line};
use std::alloc::{AllocError, Global};
use std::collections::BTreeMap;

/// The CUSIPs that trades name.
pub(crate) type Named = BTreeMap<[u8; 9], ()>;

fn none(alloc: Global) -> Named
    ensures { (cusip : List ℕ) → spec.has result cusip ≡ false }
{
    BTreeMap::new(alloc)
}

// Adds a CUSIP, which may be there.
fn add(named: &mut Named, cusip: &[u8; 9]) -> Result<(), AllocError>
    ensures { OnOk result ((other : List ℕ) → spec.has named.new other
        ≡ (eq_by_cmp by_bytes cusip.now other || spec.has named.old other)) }
{
    named.insert(*cusip, ())?;
    Ok(())
}

/// Whether a CUSIP is among them.
pub(crate) fn has(named: &Named, cusip: &[u8; 9]) -> bool
    ensures { result ≡ spec.has named.now cusip.now }
{
    named.contains_key(cusip)
}

/// The CUSIPs that a desk's trades name, in any of their versions.
pub(crate) fn named_by<K: Keeper>(
    alloc: Global,
    keeper: &mut K,
    desk: &DeskName,
) -> Result<Named, KeepFault>
    ensures named { IfOk result (λ named. IfSome (K.tables keeper.old)
        (λ t. (cusip : List ℕ) → spec.has named cusip ≡ spec.is_named t desk.now cusip)) }
    ensures looks { LooksOver K.Keeper result keeper.old keeper.new }
{
    let mut named = none(alloc);
    let mut after = None;
    'pages: for _ in 0..u64::MAX {
        let page = keeper.page(desk, &after)?;
        let Some(last) = page.last() else {
            return Ok(named);
        };
        after = Some(last.reference.copy());
        add_page(keeper, desk, page.as_slice(), &mut named)?;
    }
    // Pages without an end are more than any memory holds.
    Err(KeepFault::NoMemory)
}

fn add_page<K: Keeper>(
    keeper: &mut K,
    desk: &DeskName,
    page: &[Line],
    named: &mut Named,
) -> Result<(), KeepFault>
    requires { IfSome (K.tables keeper.old) (λ t. AreOf t desk.now page.now) }
    ensures added { OnOk result (IfSome (K.tables keeper.old) (λ t. (cusip : List ℕ) → spec.has named.new cusip
        ≡ (list_any (spec.names t desk.now cusip) page.now || spec.has named.old cusip))) }
    ensures looks { LooksOver K.Keeper result keeper.old keeper.new }
{
    for line in page {
        add_versions(keeper, &key_of(desk, line), line, named)?;
    }
    Ok(())
}

// The CUSIPs of all versions of a trade, of which the line has the last.
fn add_versions<K: Keeper>(
    keeper: &mut K,
    key: &Key,
    line: &Line,
    named: &mut Named,
) -> Result<(), KeepFault>
    requires { IfSome (K.tables keeper.old) (λ t. IsLineOf t key.now line.now) }
    ensures added { OnOk result (IfSome (K.tables keeper.old) (λ t. (cusip : List ℕ) → spec.has named.new cusip
        ≡ (list_any (spec.is_of cusip) (versions_at t key.now) || spec.has named.old cusip))) }
    ensures looks { LooksOver K.Keeper result keeper.old keeper.new }
{
    for number in 1..line.number {
        let version = version_of(keeper, key, number)?;
        add(named, &version.terms.asked.cusip)?;
    }
    add(named, &line.version.terms.asked.cusip)?;
    Ok(())
}
