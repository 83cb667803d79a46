//! The blocks of a group, which workers share.

ghost use Rattle.std.specs.Prelude.{◌≡◌, ◌+◌, ◌<◌, ◌≤◌, ◌^◌, length, All, IfErr, IfOk, IsErrOf, OnOk};
ghost use Rattle.std.specs.BTreeMap as tree;
ghost use denote.Param.Send.{IsSync};
ghost use Rattle.std.specs.List.{AllZip};
ghost use Rattle.muni_answer.specs.Answers.{IsRightAnswer};
ghost use Rattle.muni_keep.specs.Trades.{by_bytes};
ghost use Rattle.muni_figures.specs.Done.{AreDone};
ghost use Rattle.muni_figures.specs.Issues.{IsScan};
ghost use Rattle.muni_figures.specs.Said.{IsSaid};
ghost use Rattle.muni_figures.specs.Shares.{AreNumbered, HasPlaces, IsCounted, IsForPlaces, IsPricedShare, IsSameBlock, IsScanned, NextPlace, rows_of_share, rows_of_shares};

use crate::pricing::{BlockLines, block_lines};
use crate::scan::{Scan, scan_block};
use muni_book::{Calculator, Workers};
use muni_desk_io::Fault;
use muni_edge::{Gate, NoMemory};
use muni_multi::Encloser;
use muni_terms::Issue;
use std::alloc::Global;
use std::collections::BTreeMap;
use std::thread;
use std::thread::Threads;

/// A block of whole lines, and what a worker makes of it.
#[derive(Drop)]
pub(crate) struct Share {
    pub block: Vec<u8>,
    pub scan: Result<Scan, NoMemory>,
    /// The place of its first row.
    pub place: u64,
    pub lines: Result<BlockLines, NoMemory>,
}

impl Share {
    /// A block that no worker has had yet.
    pub(crate) fn new(alloc: Global, block: Vec<u8>) -> Share
        ensures { result.block ≡ block }
    {
        Share {
            block,
            scan: Err(NoMemory),
            place: 1,
            lines: Err(NoMemory),
        }
    }
}

/// Goes over the rows of each block, by as many workers as are asked for.
pub(crate) fn scan_shares<R: Threads + Sync, E: Encloser + Sync, G: Gate + Sync>(
    calculator: &Calculator<'_, R, E, G>,
    alloc: Global,
    issues: &BTreeMap<[u8; 9], Issue>,
    shares: &mut [Share],
)
    ensures { AllZip (IsScanned (tree.get by_bytes issues.now)) shares.old shares.new }
{
    thread::for_each_mut(
        calculator.rt,
        shares,
        calculator.workers.count() as usize,
        &|_worker: usize, share: &mut Share|
            ensures { IsScanned (tree.get by_bytes issues.entry.now) share.entry.now share.exit.now }
        {
            share.scan = own_scan(calculator.rt, calculator.workers, alloc, share, issues);
        },
    );
}

/// Prices the rows of each block and writes their lines, by as many workers as are asked for. A row is
/// priced by one worker.
pub(crate) fn price_shares<R: Threads + Sync, E: Encloser + Sync, G: Gate + Sync>(
    calculator: &Calculator<'_, R, E, G>,
    alloc: Global,
    issues: &BTreeMap<[u8; 9], Issue>,
    has_risk: bool,
    shares: &mut [Share],
)
    requires { All HasPlaces shares.old }
    ensures { AllZip (IsPricedShare (IsSaid (IsRightAnswer (E.ends calculator.now.encloser.now)) has_risk (tree.get by_bytes issues.now))) shares.old shares.new }
{
    thread::for_each_mut(
        calculator.rt,
        shares,
        calculator.workers.count() as usize,
        &|_worker: usize, share: &mut Share|
            requires { HasPlaces share.now }
            ensures { IsPricedShare (IsSaid (IsRightAnswer (E.ends calculator.entry.now.encloser.now)) has_risk (tree.get by_bytes issues.entry.now)) share.entry.now share.exit.now }
        {
            share.lines = own_lines(calculator, alloc, issues, share, has_risk);
        },
    );
}

// Goes over the rows of a block in a thread of its own, for which this one waits, if there are several workers. A
// thread that starts another and works too may share its processor with it for long, while another is idle.
fn own_scan<R: Threads>(
    rt: &R,
    workers: Workers,
    alloc: Global,
    share: &Share,
    issues: &BTreeMap<[u8; 9], Issue>,
) -> Result<Scan, NoMemory>
    ensures { IfOk result (λ scan. IsScan (tree.get by_bytes issues.now) (rows_of_share share.now) scan) }
{
    if workers == Workers::ONE {
        return scan_block(alloc, &share.block, issues);
    }
    let (scan, ()) = thread::join(
        rt,
        || -> Result<Scan, NoMemory>
            ensures { IfOk result (λ scan. IsScan (tree.get by_bytes issues.entry.now) (rows_of_share share.entry.now) scan) }
        { scan_block(alloc, &share.block, issues) },
        || {},
    );
    scan
}

// Prices the rows of a block in the same way.
fn own_lines<R: Threads + Sync, E: Encloser + Sync, G: Gate + Sync>(
    calculator: &Calculator<'_, R, E, G>,
    alloc: Global,
    issues: &BTreeMap<[u8; 9], Issue>,
    share: &Share,
    has_risk: bool,
) -> Result<BlockLines, NoMemory>
    requires { HasPlaces share.now }
    ensures { IfOk result (λ lines.
        AreDone (IsSaid (IsRightAnswer (E.ends calculator.now.encloser.now)) has_risk (tree.get by_bytes issues.now)) share.now.place (rows_of_share share.now) lines.text.items lines.tally) }
{
    if calculator.workers == Workers::ONE {
        return block_lines(calculator, alloc, issues, share, has_risk);
    }
    let &Calculator {
        rt,
        encloser,
        gate,
        ..
    } = calculator;
    let (lines, ()) = thread::join(
        rt,
        || -> Result<BlockLines, NoMemory>
            requires { IsSync R.row × IsSync E.row × IsSync G.row × HasPlaces share.now }
            ensures { IfOk result (λ lines.
                AreDone (IsSaid (IsRightAnswer (E.ends encloser.entry.now)) has_risk (tree.get by_bytes issues.entry.now)) share.entry.now.place (rows_of_share share.entry.now) lines.text.items lines.tally) }
        {
            let alone = Calculator {
                rt,
                workers: Workers::ONE,
                encloser,
                gate,
            };
            block_lines(&alone, alloc, issues, share, has_risk)
        },
        || {},
    );
    lines
}

/// Counts the places of the first rows of blocks on from a place.
///
/// A row has a place below 2^64.
pub(crate) fn number(shares: &mut [Share], first: u64) -> Result<(), Fault>
    requires { All IsCounted shares.old }
    ensures numbered { OnOk result (AreNumbered first shares.new) }
    ensures room { OnOk result (first + length (rows_of_shares shares.old) < 2 ^ 64) }
    ensures blocks { AllZip IsSameBlock shares.old shares.new }
    ensures too_many { IsErrOf result Fault.TooLarge → 2 ^ 64 ≤ first + length (rows_of_shares shares.old) }
    ensures only { IfErr result IsForPlaces }
{
    let mut place = first;
    for i in 0..shares.len() {
        shares[i].place = place;
        place = next_place(place, &shares[i].scan)?;
    }
    Ok(())
}

// The place after the rows of a block.
fn next_place(place: u64, scan: &Result<Scan, NoMemory>) -> Result<u64, Fault>
    ensures { NextPlace place scan.now result }
{
    let rows = match scan {
        Ok(scan) => scan.rows,
        Err(NoMemory) => return Err(Fault::NoMemory),
    };
    place.checked_add(rows).ok_or(Fault::TooLarge)
}
