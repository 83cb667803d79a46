//! The command over rows of any number.

ghost use Rattle.std.specs.Prelude.{◌≡◌, ◌≤◌, ◌+◌, ◌<◌, ◌^◌, None, length, IfOk, IfSome, IsErrOf, OnOk};
ghost use Rattle.std.specs.BTreeMap as tree;
ghost use Rattle.muni_answer.specs.Answers.{IsRightAnswer};
ghost use Rattle.muni_edge.specs.Faults.{Rose};
ghost use Rattle.muni_keep.specs.Cabinet.{LeavesAll};
ghost use Rattle.muni_keep.specs.Keeper.{SameKeeper};
ghost use Rattle.muni_keep.specs.Trades.{by_bytes};
ghost use Rattle.muni_desk_io.specs.Output.{Writes};
ghost use Rattle.muni_desk_io.specs.Reports.{ReportsWrites};
ghost use Rattle.muni_figures.specs.Blocks.{TakesSome};
ghost use Rattle.muni_figures.specs.Done.{IsSmall};
ghost use Rattle.muni_figures.specs.Figured.{DidRows, WroteFigures};
ghost use Rattle.muni_figures.specs.Issues.{AreFound};
ghost use Rattle.muni_figures.specs.Line.{header, total_line};
ghost use Rattle.muni_figures.specs.Said.{IsSaid, IsToldOf};
ghost use Rattle.muni_figures.specs.Shares.{AreNumbered, rows_of_shares};

use crate::blocks::{LineBlocks, Reading};
use crate::groups::take_group;
use crate::issues::ask_for;
use crate::line::{column_names, total_line};
use crate::shares::{Share, number, price_shares, scan_shares};
use crate::tally::Tally;
use arrayvec::ArrayVec;
use muni_book::Calculator;
use muni_desk_io::{Fault, write};
use muni_edge::{Gate, NoMemory, Sink, Source};
use muni_keep::{Cabinet, Keeper};
use muni_multi::Encloser;
use muni_terms::Issue;
use std::alloc::Global;
use std::collections::BTreeMap;
use std::thread::Threads;

/// How figures are written.
#[derive(Clone, Copy, Debug, PartialEq, Eq)]
pub struct FiguresOptions {
    /// The place of the first row.
    pub first: u64,
    /// Whether the names of the columns come first.
    pub has_header: bool,
    /// Whether the current yield, the duration, the convexity and the price value of a basis point follow
    /// the total of each row.
    pub has_risk: bool,
}

// What rows are valued with.
#[derive(Drop)]
struct Valuing<'a, R, E, G> {
    calculator: &'a Calculator<'a, R, E, G>,
    alloc: Global,
    options: FiguresOptions,
}

// What is had of the rows so far: the issues that they name, and what they come to.
#[derive(Drop)]
struct SoFar {
    issues: BTreeMap<[u8; 9], Issue>,
    tally: Tally,
}

/// Writes a line on each row of an input of any length, and then the total.
///
/// The store is fetched first. A group of blocks is read at a time, one or for several workers 32, and its
/// lines are written before the next one. Each issue that rows name is asked for once and is kept in
/// memory. Where the input, the output or the store fails, or no memory is left, the lines before it stay
/// written. Rows whose places do not fit in 64 bits are too many.
pub fn figures<
    R: Threads + Sync,
    I: Source,
    O: Sink,
    C: Cabinet,
    E: Encloser + Sync,
    G: Gate + Sync,
>(
    calculator: &Calculator<'_, R, E, G>,
    alloc: Global,
    store: &[u8],
    options: FiguresOptions,
    input: &mut I,
    output: &mut O,
    cabinet: &mut C,
) -> Result<(), Fault>
    requires { C.out cabinet.old ≡ None }
    // promise 3, 6, 9: each row has its figures or a refusal, by itself and its issue alone; then the total
    ensures written { IfSome (I.left input.old) (λ text. WroteFigures
        (IsToldOf (IsRightAnswer (E.ends calculator.now.encloser.now)) options.has_risk (C.told cabinet.old store.now))
        (header options) options.first text result (I.left input.new) (O.bytes output.old) (O.bytes output.new)) }
    // promise 10: of the input first bytes are read, without a limit
    ensures takes { TakesSome I.Source input.old input.new }
    ensures reads { OnOk result (I.faults input.new ≡ I.faults input.old) }
    ensures writes { ReportsWrites O.Sink result output.old output.new }
    ensures read_failed { IsErrOf result Fault.Read → Rose (I.faults input.old) (I.faults input.new) }
    ensures write_failed { IsErrOf result Fault.Write → Rose (O.faults output.old) (O.faults output.new) }
    ensures store_failed { IsErrOf result Fault.Store → Rose (C.faults cabinet.old) (C.faults cabinet.new) }
    // promise 7: no tables change
    ensures leaves { LeavesAll C.Cabinet cabinet.old cabinet.new }
{
    let mut keeper = cabinet.fetch(store)?;
    let done = figure_rows(calculator, alloc, options, input, &mut keeper, output);
    cabinet.give_back(keeper);
    done
}

// The rows of an input over a keeper.
fn figure_rows<
    R: Threads + Sync,
    I: Source,
    K: Keeper,
    O: Sink,
    E: Encloser + Sync,
    G: Gate + Sync,
>(
    calculator: &Calculator<'_, R, E, G>,
    alloc: Global,
    options: FiguresOptions,
    input: &mut I,
    keeper: &mut K,
    output: &mut O,
) -> Result<(), Fault>
    ensures written { IfSome (I.left input.old) (λ text. WroteFigures
        (IsToldOf (IsRightAnswer (E.ends calculator.now.encloser.now)) options.has_risk (K.tables keeper.old))
        (header options) options.first text result (I.left input.new) (O.bytes output.old) (O.bytes output.new)) }
    ensures takes { TakesSome I.Source input.old input.new }
    ensures reads { OnOk result (I.faults input.new ≡ I.faults input.old) }
    ensures writes { ReportsWrites O.Sink result output.old output.new }
    ensures read_failed { IsErrOf result Fault.Read → Rose (I.faults input.old) (I.faults input.new) }
    ensures write_failed { IsErrOf result Fault.Write → Rose (O.faults output.old) (O.faults output.new) }
    ensures same { SameKeeper K.Keeper Fault.Store result keeper.old keeper.new }
    ensures unchanged { K.tables keeper.new ≡ K.tables keeper.old }
{
    write_header(options, output)?;
    let mut blocks = LineBlocks::open(alloc, input)?;
    let mut so_far = SoFar {
        issues: BTreeMap::new(alloc),
        tally: Tally::new(),
    };
    let valuing = Valuing {
        calculator,
        alloc,
        options,
    };
    'groups: for _ in 0..u64::MAX {
        let mut shares = take_group(calculator.workers, alloc, &mut blocks, input)?;
        let tally = do_group(&valuing, &mut shares, &mut so_far, keeper, output)?;
        so_far.tally = tally;
        match blocks.reading {
            Reading::Open => {}
            Reading::Ended => return write_total(&so_far.tally, output),
            Reading::Failed => return Err(Fault::Read),
        }
    }
    // Groups without an end are more than any memory holds.
    Err(Fault::NoMemory)
}

// Prices the rows of a group after those that are counted, and writes their lines.
fn do_group<R: Threads + Sync, K: Keeper, O: Sink, E: Encloser + Sync, G: Gate + Sync>(
    valuing: &Valuing<'_, R, E, G>,
    shares: &mut [Share],
    so_far: &mut SoFar,
    keeper: &mut K,
    output: &mut O,
) -> Result<Tally, Fault>
    requires found { IfSome (K.tables keeper.old) (λ t. AreFound t (tree.get by_bytes so_far.old.issues)) }
    requires small { IsSmall so_far.old.tally }
    requires room { valuing.now.options.first + so_far.old.tally.rows < 2 ^ 64 }
    ensures did { DidRows (IsToldOf (IsRightAnswer (E.ends valuing.now.calculator.now.encloser.now)) valuing.now.options.has_risk (K.tables keeper.old))
        valuing.now.options.first (rows_of_shares shares.old) so_far.old.tally result (O.bytes output.old) (O.bytes output.new) }
    ensures small { IfOk result (λ tally. IsSmall tally) }
    ensures room { IfOk result (λ tally. valuing.now.options.first + tally.rows < 2 ^ 64) }
    ensures found { IfOk result (λ _. IfSome (K.tables keeper.old) (λ t. AreFound t (tree.get by_bytes so_far.new.issues))) }
    ensures writes { ReportsWrites O.Sink result output.old output.new }
    ensures write_failed { IsErrOf result Fault.Write → Rose (O.faults output.old) (O.faults output.new) }
    ensures same { SameKeeper K.Keeper Fault.Store result keeper.old keeper.new }
    ensures unchanged { K.tables keeper.new ≡ K.tables keeper.old }
{
    scan_shares(valuing.calculator, valuing.alloc, &so_far.issues, shares);
    ask_for(valuing.alloc, keeper, shares, &mut so_far.issues)?;
    number(shares, valuing.options.first + so_far.tally.rows)?;
    write_shares(valuing, shares, so_far, output)
}

// Prices the rows of blocks with places, and writes their lines.
fn write_shares<R: Threads + Sync, O: Sink, E: Encloser + Sync, G: Gate + Sync>(
    valuing: &Valuing<'_, R, E, G>,
    shares: &mut [Share],
    so_far: &SoFar,
    output: &mut O,
) -> Result<Tally, Fault>
    requires numbered { AreNumbered (valuing.now.options.first + so_far.now.tally.rows) shares.old }
    requires small { IsSmall so_far.now.tally }
    requires room { valuing.now.options.first + so_far.now.tally.rows + length (rows_of_shares shares.old) < 2 ^ 64 }
    ensures did { DidRows (IsSaid (IsRightAnswer (E.ends valuing.now.calculator.now.encloser.now)) valuing.now.options.has_risk (tree.get by_bytes so_far.now.issues))
        valuing.now.options.first (rows_of_shares shares.old) so_far.now.tally result (O.bytes output.old) (O.bytes output.new) }
    ensures small { IfOk result (λ tally. IsSmall tally) }
    ensures writes { ReportsWrites O.Sink result output.old output.new }
    ensures write_failed { IsErrOf result Fault.Write → Rose (O.faults output.old) (O.faults output.new) }
    ensures not_store { ¬ (IsErrOf result Fault.Store) }
{
    price_shares(
        valuing.calculator,
        valuing.alloc,
        &so_far.issues,
        valuing.options.has_risk,
        shares,
    );
    let mut tally = so_far.tally;
    for share in shares.iter() {
        let lines = match &share.lines {
            Ok(lines) => lines,
            Err(NoMemory) => return Err(Fault::NoMemory),
        };
        write(lines.text.as_slice(), output)?;
        tally = tally.plus(&lines.tally);
    }
    Ok(tally)
}

fn write_header<O: Sink>(options: FiguresOptions, output: &mut O) -> Result<(), Fault>
    ensures { Writes O.Sink Fault.Write result (header options) output.old output.new }
{
    if options.has_header {
        write(column_names(options.has_risk), output)
    } else {
        Ok(())
    }
}

fn write_total<O: Sink>(tally: &Tally, output: &mut O) -> Result<(), Fault>
    ensures { Writes O.Sink Fault.Write result (total_line tally.now.priced tally.now.sum tally.now.rows) output.old output.new }
{
    let mut line = ArrayVec::new();
    total_line(tally, &mut line);
    write(line.as_slice(), output)
}
