//! The lines of the positions of a desk.

ghost use Rattle.std.specs.Prelude.{◌≡◌, List, IfOk, IfSome};
ghost use Rattle.std.specs.Option.{option_map};
ghost use Rattle.std.specs.Range.Bound.{bound_map};
ghost use Rattle.muni_keep.specs.Keeper.{OnlyReads};
ghost use Rattle.muni_msg.specs.declared.version.Version.{Version};
ghost use Rattle.muni_position.specs.Holdings as spec;
ghost use Rattle.muni_position.specs.Holdings.{AreInRange, AreOf};
ghost use Rattle.muni_position.specs.Line.{position_lines, summed_text};
ghost use Rattle.muni_position.specs.Positions.{positions_of};

use crate::holdings::{Holdings, kept};
use crate::line::position_line;
use crate::pages::sum_desk;
use arrayvec::ArrayVec;
use muni_edge::NoMemory;
use muni_keep::{KeepFault, Keeper};
use muni_msg::DeskName;
use std::alloc::Global;
use std::ops::Bound;

/// The lines of what a desk holds, in the order of the CUSIPs. `None` if it has more than 100,000,000 trades.
pub fn position_text<K: Keeper>(
    alloc: Global,
    keeper: &mut K,
    desk: &DeskName,
) -> Result<Option<Vec<u8>>, KeepFault>
    ensures text { IfOk result (λ found. IfSome (K.tables keeper.old)
        (λ t. option_map (λ text. text.items) found ≡ summed_text desk.now t)) }
    ensures reads { OnlyReads K.Keeper result keeper.old keeper.new }
{
    match sum_desk(alloc, keeper, desk)? {
        Some(holdings) => Ok(Some(lines_of(alloc, &holdings)?)),
        None => Ok(None),
    }
}

/// The lines of holdings with live trades, in the order of their CUSIPs.
pub(crate) fn lines_of(alloc: Global, holdings: &Holdings) -> Result<Vec<u8>, NoMemory>
    requires { AreInRange holdings.now }
    ensures { IfOk result (λ text. (versions : List Version) → AreOf versions holdings.now
        → text.items ≡ position_lines (positions_of versions)) }
{
    let mut text = Vec::new(alloc);
    let mut line = ArrayVec::new();
    for (cusip, _) in holdings.range((bound_past(&None), Bound::Unbounded)) {
        let held = kept(holdings, cusip);
        if held.live > 0 {
            position_line(cusip, &held.position(), &mut line);
            if text.extend_from_slice(line.as_slice()).is_err() {
                return Err(NoMemory);
            }
        }
    }
    Ok(text)
}

/// Bounds the CUSIPs after another from below, or none if none is given.
pub(crate) fn bound_past(after: &Option<[u8; 9]>) -> Bound<&[u8; 9]>
    ensures { bound_map (λ cusip. cusip.now) result ≡ spec.bound_past after.now }
{
    match after {
        Some(after) => Bound::Excluded(after),
        None => Bound::Unbounded,
    }
}
