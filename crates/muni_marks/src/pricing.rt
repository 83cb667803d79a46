//! Marks of rows.

ghost use Rattle.std.specs.Prelude.{◌≡◌, IfOk};
ghost use Rattle.std.specs.List.{AllZip};
ghost use Rattle.std.specs.BTreeMap as tree;
ghost use denote.Param.Send.{IsSync};
ghost use Rattle.rayon.specs.Lists.{chunks_of};
ghost use Rattle.muni_answer.specs.Answers.{IsRightAnswer};
ghost use Rattle.muni_keep.specs.Trades.{by_bytes};
ghost use Rattle.muni_marks.specs.Marks as spec;

use muni_answer::figures;
use muni_book::{Calculator, Workers};
use muni_days::Day;
use muni_dec::{Cents, Price3};
use muni_edge::{NoGate, NoMemory};
use muni_import::RowFault;
use muni_msg::{Asked, Refusal};
use muni_multi::Encloser;
use muni_sched::Schedule;
use muni_terms::Issue;
use rayon::prelude::*;
use std::alloc::Global;
use std::collections::BTreeMap;
use std::thread::Threads;

/// What is said of a row.
#[derive(Clone, Copy, Debug, PartialEq, Eq)]
pub enum MarkSaid {
    /// It has a price, and is worth so much by it.
    Marked {
        cusip: [u8; 9],
        price: Price3,
        redemption: Day,
        total: Cents,
    },
    /// It has none, by the refusal with this number.
    Refused {
        number: u32,
    },
    /// It is no row of a portfolio.
    Bad(RowFault),
}

// What is said of one row, by nothing but the row and its issue.
#[tactic(auto, unfolding(crate::specs::Marks::IsMark))]
fn mark<R: Threads + Sync, E: Encloser + Sync>(
    calculator: &Calculator<'_, R, E, NoGate>,
    row: &Result<Asked, RowFault>,
    issues: &BTreeMap<[u8; 9], Issue>,
    schedule: &mut Schedule,
) -> MarkSaid
    ensures { spec.IsMark (IsRightAnswer (E.ends calculator.now.encloser.now)) (tree.get by_bytes issues.now) row.now result }
{
    match row {
        Err(fault) => MarkSaid::Bad(*fault),
        Ok(asked) => match issues.get(&asked.cusip) {
            None => MarkSaid::Refused {
                number: Refusal::UnknownIssue.number(),
            },
            Some(issue) => priced(calculator, issue, asked, schedule),
        },
    }
}

fn priced<R: Threads + Sync, E: Encloser + Sync>(
    calculator: &Calculator<'_, R, E, NoGate>,
    issue: &Issue,
    asked: &Asked,
    schedule: &mut Schedule,
) -> MarkSaid
    ensures { spec.IsPriced (IsRightAnswer (E.ends calculator.now.encloser.now)) issue.now asked.now result }
{
    match figures(calculator, issue, asked, schedule) {
        Ok(figures) => MarkSaid::Marked {
            cusip: asked.cusip,
            price: figures.price,
            redemption: figures.redemption,
            total: figures.total,
        },
        Err(refusal) => MarkSaid::Refused {
            number: refusal.number(),
        },
    }
}

// The rows of a block: the fewest that are worth a thread of their own.
const BLOCK: usize = 64;

/// What is said of each row, by the issues that are kept under their CUSIPs.
///
/// The rows are priced on all processors in blocks, each row as the book prices a trade with one worker.
pub fn marks<R: Threads + Sync, E: Encloser + Sync>(
    rt: &R,
    alloc: Global,
    rows: &[Result<Asked, RowFault>],
    issues: &BTreeMap<[u8; 9], Issue>,
    encloser: &E,
) -> Result<Vec<MarkSaid>, NoMemory>
    // promise 3: a mark is what is said of its row alone, however the work is cut
    ensures { IfOk result (λ said.
        spec.AreMarks (IsRightAnswer (E.ends encloser.now)) (tree.get by_bytes issues.now) rows.now said.items) }
{
    let blocks = marks_in_blocks(rt, alloc, rows, issues, encloser)?;
    let mut said = Vec::new(alloc);
    for block in blocks.as_slice() {
        if said.extend_from_slice(block.as_slice()).is_err() {
            return Err(NoMemory);
        }
    }
    Ok(said)
}

// What is said of the rows of each block.
fn marks_in_blocks<R: Threads + Sync, E: Encloser + Sync>(
    rt: &R,
    alloc: Global,
    rows: &[Result<Asked, RowFault>],
    issues: &BTreeMap<[u8; 9], Issue>,
    encloser: &E,
) -> Result<Vec<Vec<MarkSaid>>, NoMemory>
    ensures { IfOk result (λ blocks. AllZip (λ rows block.
        spec.AreMarks (IsRightAnswer (E.ends encloser.now)) (tree.get by_bytes issues.now) rows block.items) (chunks_of 64 rows.now) blocks.items) }
{
    let blocks = rows
        .par_chunks(BLOCK)
        .with_min_len(1)
        .map(
            |block: &[Result<Asked, RowFault>]| -> Result<Vec<MarkSaid>, NoMemory>
                requires { IsSync R.row × IsSync E.row }
                ensures { IfOk result (λ said.
                    spec.AreMarks (IsRightAnswer (E.ends encloser.entry.now)) (tree.get by_bytes issues.entry.now) block.now said.items) }
            { marks_of_block(rt, alloc, block, issues, encloser) },
        )
        .collect::<Result<Vec<Vec<MarkSaid>>, NoMemory>>(rt, alloc);
    match blocks {
        Ok(blocks) => blocks,
        Err(_) => Err(NoMemory),
    }
}

// What is said of each row of a block.
fn marks_of_block<R: Threads + Sync, E: Encloser + Sync>(
    rt: &R,
    alloc: Global,
    rows: &[Result<Asked, RowFault>],
    issues: &BTreeMap<[u8; 9], Issue>,
    encloser: &E,
) -> Result<Vec<MarkSaid>, NoMemory>
    ensures { IfOk result (λ said.
        spec.AreMarks (IsRightAnswer (E.ends encloser.now)) (tree.get by_bytes issues.now) rows.now said.items) }
{
    let Ok(mut said) = Vec::with_capacity(alloc, rows.len()) else {
        return Err(NoMemory);
    };
    let calculator = Calculator {
        rt,
        workers: Workers::ONE,
        encloser,
        gate: &NoGate,
    };
    let mut schedule = Schedule::new();
    for row in rows {
        if said
            .push(mark(&calculator, row, issues, &mut schedule))
            .is_err()
        {
            return Err(NoMemory);
        }
    }
    Ok(said)
}
