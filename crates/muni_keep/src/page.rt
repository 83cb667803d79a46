//! Pages of the trades of a desk.

ghost use Rattle.std.specs.Prelude.{◌≡◌, take, map, reverse, slice_get};
ghost use Rattle.std.specs.Option.{option_map};
ghost use Rattle.std.specs.FinMap.{entries};
ghost use Rattle.muni_keep.specs.Trades.{own, trades_past};
ghost use Rattle.muni_keep.specs.Tables.{line};

use crate::desks::Desks;
use crate::trade::Trade;
use arrayvec::ArrayVec;
use muni_msg::{DeskName, Line, Reference, Version};
use std::collections::btree_map::Range;

/// The first 50 trades of a desk after a reference, or the first of all if none is given.
pub(crate) fn page(
    desks: &Desks<Version>,
    desk: &DeskName,
    after: &Option<Reference>,
) -> ArrayVec<Line, 50>
    ensures { result.items ≡ map line (take 50 (trades_past after.now (own desk.now desks.now))) }
{
    match desks.own(desk) {
        Some(trades) => first_lines(trades.past(after)),
        None => ArrayVec::new(),
    }
}

/// The reference after which the last 50 trades of a desk come, or none if it has no more than these.
pub(crate) fn before_latest(desks: &Desks<Version>, desk: &DeskName) -> Option<Reference>
    ensures { result
        ≡ option_map (λ trade. trade.0) (slice_get (reverse (entries (own desk.now desks.now))) 50) }
{
    match desks.own(desk) {
        Some(trades) => before_last(trades.past(&None)),
        None => None,
    }
}

// The reference of the trade before the last 50.
fn before_last(trades: Range<'_, Reference, Trade<Version>>) -> Option<Reference>
    ensures { result ≡ option_map (λ trade. trade.0) (slice_get (reverse trades.entry) 50) }
{
    let mut left = trades;
    for _count in 0..50u32 {
        let Some(_last) = left.next_back() else {
            return None;
        };
    }
    match left.next_back() {
        Some((reference, _)) => Some(reference.copy()),
        None => None,
    }
}

fn first_lines(trades: Range<'_, Reference, Trade<Version>>) -> ArrayVec<Line, 50>
    ensures { result.items ≡ map line (take 50 trades.entry) }
{
    let mut lines = ArrayVec::new();
    for (reference, trade) in trades.take(50) {
        lines.push(line_of(reference, trade));
    }
    lines
}

fn line_of(reference: &Reference, trade: &Trade<Version>) -> Line
    ensures { result ≡ line (reference.now, trade.now) }
{
    Line {
        reference: reference.copy(),
        number: trade.count(),
        version: trade.last(),
    }
}
