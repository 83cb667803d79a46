//! The lines of the rows of a block.

ghost use Rattle.std.specs.Prelude.{◌≡◌, ◌+◌, ◌<◌, ◌^◌, ◌++◌, [], IfOk, OnOk};
ghost use Rattle.std.specs.BTreeMap as tree;
ghost use Rattle.muni_answer.specs.Answers.{IsRightAnswer};
ghost use Rattle.muni_keep.specs.Trades.{by_bytes};
ghost use Rattle.muni_figures.specs.Done.{AreDone, IsSmall, no_tally, tally_of, tally_sum};
ghost use Rattle.muni_figures.specs.Line.{HasName, said_line};
ghost use Rattle.muni_figures.specs.Said.{IsSaid};
ghost use Rattle.muni_figures.specs.Shares.{HasPlaces, rows_of_share};

use crate::asked::{is_row, next_line, read_line};
use crate::line::add_line;
use crate::said::{FiguresSaid, said_of};
use crate::shares::Share;
use crate::tally::Tally;
use muni_book::Calculator;
use muni_edge::{Gate, NoMemory};
use muni_multi::Encloser;
use muni_sched::Schedule;
use muni_terms::Issue;
use std::alloc::Global;
use std::collections::BTreeMap;
use std::thread::Threads;

/// The lines of rows, and what they come to.
#[derive(Drop)]
pub(crate) struct BlockLines {
    pub text: Vec<u8>,
    pub tally: Tally,
}

impl BlockLines {
    /// Of no row.
    pub(crate) fn new(alloc: Global) -> BlockLines
        ensures text { result.text.items ≡ [] }
        ensures tally { result.tally ≡ no_tally }
        ensures small { IsSmall result.tally }
    {
        BlockLines {
            text: Vec::new(alloc),
            tally: Tally::new(),
        }
    }

    // Adds the line of a row, where the first one has this place.
    fn add(&mut self, first: u64, said: &FiguresSaid) -> Result<(), NoMemory>
        requires name { HasName said.now }
        requires room { first + self.old.tally.rows + 1 < 2 ^ 64 }
        requires small { IsSmall self.old.tally }
        ensures text { OnOk result (self.new.text.items
            ≡ self.old.text.items ++ said_line (first + self.old.tally.rows) said.now) }
        ensures tally { OnOk result (self.new.tally ≡ tally_sum self.old.tally (tally_of said.now)) }
        ensures small { OnOk result (IsSmall self.new.tally) }
    {
        add_line(&mut self.text, first + self.tally.rows, said)?;
        self.tally.add(said);
        Ok(())
    }
}

/// The lines of the rows of a block. Each is priced by the issue that is had under its CUSIP, and has
/// sensitivities if they are asked for.
pub(crate) fn block_lines<R: Threads + Sync, E: Encloser + Sync, G: Gate + Sync>(
    calculator: &Calculator<'_, R, E, G>,
    alloc: Global,
    issues: &BTreeMap<[u8; 9], Issue>,
    share: &Share,
    has_risk: bool,
) -> Result<BlockLines, NoMemory>
    requires { HasPlaces share.now }
    ensures { IfOk result (λ lines.
        AreDone (IsSaid (IsRightAnswer (E.ends calculator.now.encloser.now)) has_risk (tree.get by_bytes issues.now)) share.now.place (rows_of_share share.now) lines.text.items lines.tally) }
{
    let mut lines = BlockLines::new(alloc);
    let mut schedule = Schedule::new();
    let mut left = Some(share.block.as_slice());
    while let Some(bytes) = left {
        let (line, more) = next_line(bytes);
        if is_row(line) {
            let said = said_of(
                calculator,
                &read_line(line),
                issues,
                has_risk,
                &mut schedule,
            );
            lines.add(share.place, &said)?;
        }
        left = more;
    }
    Ok(lines)
}
