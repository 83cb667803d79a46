//! The issues that rows name.

ghost use Rattle.std.specs.Prelude.{◌≡◌, IfSome, OnOk};
ghost use Rattle.std.specs.BTreeMap as tree;
ghost use Rattle.std.specs.BTreeSet as set;
ghost use Rattle.std.specs.List.{AllByRecursion};
ghost use Rattle.muni_keep.specs.Keeper.{OnlyReads};
ghost use Rattle.muni_keep.specs.Trades.{by_bytes};
ghost use Rattle.muni_marks.specs.Portfolio.{AreKnown};
ghost use Rattle.muni_figures.specs.Issues.{AreAsked, AreFound};
ghost use Rattle.muni_figures.specs.Shares.{HasScan, unknown_of_shares};

use crate::shares::Share;
use muni_keep::{KeepFault, Keeper};
use muni_marks::ask;
use muni_terms::Issue;
use std::alloc::Global;
use std::collections::{BTreeMap, BTreeSet};

/// Asks for each issue that the rows of blocks name and that is not had, once. What is not kept is
/// remembered for these blocks alone, so that rows of unknown issues do not fill the memory.
pub(crate) fn ask_for<K: Keeper>(
    alloc: Global,
    keeper: &mut K,
    shares: &[Share],
    issues: &mut BTreeMap<[u8; 9], Issue>,
) -> Result<(), KeepFault>
    requires { IfSome (K.tables keeper.old) (λ t. AreFound t (tree.get by_bytes issues.old)) }
    ensures asked { OnOk result (IfSome (K.tables keeper.old)
        (λ t. AreAsked t (unknown_of_shares shares.now) (tree.get by_bytes issues.old) (tree.get by_bytes issues.new))) }
    ensures scanned { OnOk result (AllByRecursion HasScan shares.now) }
    ensures reads { OnlyReads K.Keeper result keeper.old keeper.new }
{
    let mut missing = BTreeSet::new(alloc);
    for share in shares {
        let Ok(scan) = &share.scan else {
            return Err(KeepFault::NoMemory);
        };
        ask_each(keeper, scan.unknown.as_slice(), issues, &mut missing)?;
    }
    Ok(())
}

fn ask_each<K: Keeper>(
    keeper: &mut K,
    unknown: &[[u8; 9]],
    issues: &mut BTreeMap<[u8; 9], Issue>,
    missing: &mut BTreeSet<[u8; 9]>,
) -> Result<(), KeepFault>
    requires { IfSome (K.tables keeper.old) (λ t. AreKnown t (tree.get by_bytes issues.old) (set.contains by_bytes missing.old)) }
    ensures known { OnOk result (IfSome (K.tables keeper.old)
        (λ t. AreKnown t (tree.get by_bytes issues.new) (set.contains by_bytes missing.new))) }
    ensures asked { OnOk result (IfSome (K.tables keeper.old)
        (λ t. AreAsked t unknown.now (tree.get by_bytes issues.old) (tree.get by_bytes issues.new))) }
    ensures reads { OnlyReads K.Keeper result keeper.old keeper.new }
{
    for cusip in unknown {
        ask(keeper, cusip, issues, missing)?;
    }
    Ok(())
}
