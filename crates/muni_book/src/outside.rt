//! For callers outside; the program goes by `step`.

ghost use Rattle.std.specs.Prelude.{◌≡◌, ◌≤◌, IfOk, IfSome, OnErr};
ghost use Rattle.muni_keep.specs.Keeper.{SameKeeper};
ghost use Rattle.muni_book_step.specs.Runs.{StepsTo, IsRefusal};
ghost use Rattle.muni_book.specs.Rules.{book_rules};

use crate::{Book, BookFault, Calculator, Workers, step};
use muni_edge::Gate;
use muni_keep::Keeper;
use muni_msg::{Command, DeskLimit, Reply};
use muni_multi::Encloser;
use std::thread::Threads;

/// Applies one command, as `step` does: answers it, and keeps at most one issue or one version more for
/// it. Up to `workers` threads, from 1 to 16, look for the yields. A desk may have 100,000 trades.
pub fn apply<R: Threads + Sync, K: Keeper, E: Encloser + Sync, G: Gate + Sync>(
    rt: &R,
    keeper: &mut K,
    command: &Command,
    workers: u32,
    encloser: &E,
    gate: &G,
) -> Result<Reply, BookFault>
    requires { (1 ≤ workers) × (workers ≤ 16) }
    // promise 4, 6, 7: a reply and at most one entry are those of one step
    ensures step { IfOk result (λ reply. IfSome (K.tables keeper.old) (λ t.
        StepsTo (book_rules 100_000 (E.ends encloser.now)) t command.now reply (K.tables keeper.new))) }
    // promise 7: a refused command leaves the tables as they were
    ensures refused { IfOk result (λ reply. IsRefusal reply → K.tables keeper.new ≡ K.tables keeper.old) }
    // promise 7: so does a fault or a lack of memory
    ensures unchanged { OnErr result (K.tables keeper.new ≡ K.tables keeper.old) }
    // promise 9: it fails only if the keeper's count rose
    ensures same { SameKeeper K.Keeper BookFault.Failed result keeper.old keeper.new }
{
    let calculator = Calculator {
        rt,
        workers: Workers::new(workers),
        encloser,
        gate,
    };
    let book = Book {
        calculator: &calculator,
        limit: DeskLimit::USUAL,
    };
    step(&book, keeper, command)
}
