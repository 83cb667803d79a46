//! The command `drill`: the sums over a book of trades that is generated from a number.

ghost use Rattle.std.specs.Prelude.{◌≡◌, ◌≤◌, length};
ghost use Rattle.muni_desk.specs.Drill.{IsSummary, IsSummed, IsShare, AreShares, is_dealt};

mod count;
mod generator;
mod options;
mod sums;

use crate::request::{QuoteRequest, answer_of};
use arrayvec::ArrayVec;
pub use count::DrillCount;
use generator::Generator;
use muni_book::{Calculator, Workers};
use muni_edge::Gate;
use muni_multi::Encloser;
use muni_sched::Schedule;
pub use options::{DrillRequest, read_drill};
use std::thread;
use std::thread::Threads;
use sums::Sums;

/// The summary of the answers to the trades of a book. Each trade is at a given price.
pub fn summary_of<R: Threads + Sync, E: Encloser + Sync, G: Gate + Sync>(
    calculator: &Calculator<'_, R, E, G>,
    request: DrillRequest,
) -> ArrayVec<u8, 512>
    ensures { IsSummary (E.ends calculator.now.encloser.now) request result.items }
{
    let sums = sums_of(calculator, request.seed, request.count.trades());
    sums.lines()
}

// The trades are dealt out to the workers in turn, since the trades of one stretch of the book take longer
// than those of another.
fn sums_of<R: Threads + Sync, E: Encloser + Sync, G: Gate + Sync>(
    calculator: &Calculator<'_, R, E, G>,
    seed: u64,
    count: u64,
) -> Sums
    requires { count ≤ 1_000 }
    ensures { IsSummed (E.ends calculator.now.encloser.now) seed count result }
{
    let mut shares = [Sums::new(); 16];
    let shares = &mut shares[..calculator.workers.count() as usize];
    sum_shares(calculator, shares, seed, count);
    joined(shares, seed, count, calculator.encloser)
}

// All workers are started once.
fn sum_shares<R: Threads + Sync, E: Encloser + Sync, G: Gate + Sync>(
    calculator: &Calculator<'_, R, E, G>,
    shares: &mut [Sums],
    seed: u64,
    count: u64,
)
    requires few { (1 ≤ length shares.old) × (length shares.old ≤ 16) }
    requires count { count ≤ 1_000 }
    ensures len { length shares.new ≡ length shares.old }
    ensures each { AreShares (E.ends calculator.now.encloser.now) seed count shares.new }
{
    // Each trade is priced by one worker: to start a thread takes longer than an answer.
    let alone = Calculator {
        workers: Workers::ONE,
        ..*calculator
    };
    let workers = shares.len();
    thread::for_each_mut(
        calculator.rt,
        shares,
        workers,
        &|worker: usize, sums: &mut Sums|
            requires { (1 ≤ workers) × (count ≤ 1_000) }
            ensures { IsShare (E.ends alone.entry.encloser.now) (is_dealt workers worker) seed count sums.exit.now }
        {
            *sums = share(&alone, seed, count, workers, worker);
        },
    );
}

// The sums over the trades that are dealt to a worker.
fn share<R: Threads + Sync, E: Encloser + Sync, G: Gate + Sync>(
    calculator: &Calculator<'_, R, E, G>,
    seed: u64,
    count: u64,
    workers: usize,
    worker: usize,
) -> Sums
    requires some { 1 ≤ workers }
    requires count { count ≤ 1_000 }
    ensures { IsShare (E.ends calculator.now.encloser.now) (is_dealt workers worker) seed count result }
{
    let mut generator = Generator::new(seed);
    let mut schedule = Schedule::new();
    let mut sums = Sums::new();
    for place in 0..count as usize {
        if place % workers == worker {
            let QuoteRequest { row, asked } = generator.trade();
            let maturity = row.maturity;
            let answer = answer_of(calculator, row, &asked, &mut schedule);
            sums.add(maturity, &answer);
        } else {
            generator.pass();
        }
    }
    sums
}

fn joined<E: Encloser>(shares: &[Sums], seed: u64, count: u64, encloser: &E) -> Sums
    requires few { (1 ≤ length shares.now) × (length shares.now ≤ 16) }
    requires count { count ≤ 1_000 }
    requires each { AreShares (E.ends encloser.now) seed count shares.now }
    ensures { IsSummed (E.ends encloser.now) seed count result }
{
    let mut sums = Sums::new();
    for (worker, share) in shares.iter().enumerate() {
        sums = sums.plus(share);
    }
    sums
}
