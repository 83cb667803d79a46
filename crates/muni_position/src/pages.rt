//! The holdings of a desk, summed over the pages of its trades.

ghost use Rattle.std.specs.Prelude.{◌≡◌, ◌+◌, ◌≤◌, ℕ, List, None, IfOk, IfSome, OnOk, length, map};
ghost use Rattle.std.specs.List.{AllByRecursion};
ghost use Rattle.muni_keep.specs.Keeper.{OnlyReads};
ghost use Rattle.muni_position.specs.Holding.{IsBounded, plus, share, holding_of};
ghost use Rattle.muni_position.specs.Holdings.{AreInRange, AreOf, HasTooMany, HasFew};
ghost use Rattle.muni_position.specs.Holdings as spec;
ghost use Rattle.muni_position.specs.Positions.{last_versions};

use crate::holding::{Holding, MOST_TRADES};
use crate::holdings::{Holdings, kept, make_room, set};
use muni_keep::{KeepFault, Keeper};
use muni_msg::{DeskName, Line, Version};
use std::alloc::{AllocError, Global};
use std::collections::BTreeMap;

/// The holdings over the trades of a desk. `None` if it has more than 100,000,000.
pub(crate) fn sum_desk<K: Keeper>(
    alloc: Global,
    keeper: &mut K,
    desk: &DeskName,
) -> Result<Option<Holdings>, KeepFault>
    ensures sums { IfOk result (λ found. IfSome found (λ holdings. IfSome (K.tables keeper.old)
        (λ t. AreOf (last_versions desk.now t) holdings))) }
    ensures range { IfOk result (λ found. IfSome found (λ holdings. AreInRange holdings)) }
    ensures too_many { IfOk result (λ found. found ≡ None → IfSome (K.tables keeper.old)
        (λ t. HasTooMany desk.now t)) }
    ensures few { IfOk result (λ found. IfSome found (λ holdings. IfSome (K.tables keeper.old)
        (λ t. HasFew desk.now t))) }
    ensures reads { OnlyReads K.Keeper result keeper.old keeper.new }
{
    let mut holdings = BTreeMap::new(alloc);
    let mut after = None;
    let mut count = 0;
    'pages: for turn in 0..MOST_TRADES + 1 {
        // Proofs alone read the number of the turn.
        let _turn = turn;
        let page = keeper.page(desk, &after)?;
        let Some(last) = page.last() else {
            return Ok(Some(holdings));
        };
        after = Some(last.reference.copy());
        count += page.len() as u32;
        if count > MOST_TRADES {
            return Ok(None);
        }
        add_lines(&mut holdings, page.as_slice())?;
    }
    // Each page but the last has a trade, so the count passes the limit before the turns end.
    unreachable!()
}

// What the versions of the lines add, for which there is room.
fn add_lines(holdings: &mut Holdings, lines: &[Line]) -> Result<(), AllocError>
    requires range { AreInRange holdings.old }
    requires room { (cusip : List ℕ) → (spec.kept holdings.old cusip).live + length lines.now ≤ 100_000_000 }
    ensures sums { OnOk result ((cusip : List ℕ) → spec.kept holdings.new cusip
        ≡ plus (spec.kept holdings.old cusip) (holding_of cusip (map (λ line. line.version) lines.now))) }
    ensures range { OnOk result (AreInRange holdings.new) }
    ensures few { OnOk result ((cusip : List ℕ)
        → (spec.kept holdings.new cusip).live ≤ (spec.kept holdings.old cusip).live + length lines.now) }
    ensures bounded { OnOk result (AllByRecursion IsBounded (map (λ line. line.version) lines.now)) }
{
    for line in lines {
        add(holdings, &line.version)?;
    }
    Ok(())
}

// What a version adds to the holding of its CUSIP, for which there is room.
fn add(holdings: &mut Holdings, version: &Version) -> Result<(), AllocError>
    requires range { AreInRange holdings.old }
    requires room { (cusip : List ℕ) → (spec.kept holdings.old cusip).live + 1 ≤ 100_000_000 }
    ensures sums { OnOk result ((cusip : List ℕ) → spec.kept holdings.new cusip
        ≡ plus (spec.kept holdings.old cusip) (share cusip version.now)) }
    ensures range { OnOk result (AreInRange holdings.new) }
    ensures few { OnOk result ((cusip : List ℕ)
        → (spec.kept holdings.new cusip).live ≤ (spec.kept holdings.old cusip).live + 1) }
    ensures bounded { IsBounded version.now }
{
    let cusip = version.terms.asked.cusip;
    let more = Holding::share(&cusip, version);
    let sum = kept(holdings, &cusip).plus(&more);
    make_room(holdings, &cusip)?;
    set(holdings, &cusip, sum);
    Ok(())
}
