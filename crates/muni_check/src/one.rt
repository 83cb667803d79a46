//! One row by itself.

ghost use Rattle.std.specs.Prelude.{IfOk};
ghost use Rattle.csv.specs.Records.{fields_of};
ghost use Rattle.muni_keep.specs.Keeper.{OnlyReads};
ghost use Rattle.muni_check.specs.Judging.{over};
ghost use Rattle.muni_check.specs.One.{IsRowLine};

use crate::judging::Judge;
use crate::named::none;
use crate::rows::said_of;
use muni_book::Calculator;
use muni_check_rows::{Fields, add_line};
use muni_edge::Gate;
use muni_keep::{KeepFault, Keeper};
use muni_msg::DeskName;
use muni_multi::Encloser;
use std::alloc::Global;
use std::thread::Threads;

/// The line of a row, with its line end, as `check` writes it if the row is the first of an input: `1,right` and so on.
///
/// If a desk is given, the row may name a trade of it.
pub fn check_row<R: Threads + Sync, K: Keeper, E: Encloser + Sync, G: Gate + Sync>(
    calculator: &Calculator<'_, R, E, G>,
    alloc: Global,
    desk: &Option<DeskName>,
    row: &Fields<'_>,
    keeper: &mut K,
) -> Result<Vec<u8>, KeepFault>
    // promise 6: a row by itself has the line that it has as the first row
    ensures line { IfOk result (λ line. IsRowLine (over (E.ends calculator.now.encloser.now) desk.now (K.tables keeper.old))
        row.now.columns.now.items (fields_of row.now.record.now) line.items) }
    // promise 7: no tables change
    ensures reads { OnlyReads K.Keeper result keeper.old keeper.new }
{
    let mut judge = Judge::new(calculator, alloc, desk);
    let mut named = none(alloc);
    let said = said_of(&mut judge, 1, row, &mut named, keeper)?;
    let mut line = Vec::new(alloc);
    add_line(&mut line, 1, &said)?;
    Ok(line)
}
