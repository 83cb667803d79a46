//! The blocks of a group, as they are taken from an input.

ghost use Rattle.std.specs.Prelude.{◌≡◌, ◌≤◌, vec_len, IfOk, OnErr, OnOk};
ghost use Rattle.muni_figures.specs.Blocks.{TakesSome, most_bytes};
ghost use Rattle.muni_figures.specs.Groups.{AddsShare, AreBounded, TakesGroup, blocks_at_once};

use crate::blocks::LineBlocks;
use crate::shares::Share;
use muni_book::Workers;
use muni_edge::{NoMemory, Source};
use std::alloc::Global;

// How many blocks several workers share out. With fewer they would wait for one another more often than they work.
const SHARED_OUT: u32 = 32;

/// The next blocks of an input: one, or 32 for several workers. So many of 64 KB at most are held at once.
pub(crate) fn take_group<I: Source>(
    workers: Workers,
    alloc: Global,
    blocks: &mut LineBlocks,
    input: &mut I,
) -> Result<Vec<Share>, NoMemory>
    requires { vec_len blocks.old.held ≤ most_bytes }
    ensures group { IfOk result (λ shares. TakesGroup I.Source blocks.old blocks.new shares.items input.old input.new) }
    ensures bounded { IfOk result (λ shares. AreBounded (blocks_at_once workers) shares.items) }
    ensures refused { OnErr result (TakesSome I.Source input.old input.new) }
{
    let mut shares = Vec::new(alloc);
    add_share(alloc, blocks, input, &mut shares)?;
    for _ in 1..blocks_at_once(workers) {
        add_share(alloc, blocks, input, &mut shares)?;
    }
    Ok(shares)
}

fn blocks_at_once(workers: Workers) -> u32
    ensures value { result ≡ blocks_at_once workers }
    ensures some { 1 ≤ result }
{
    if workers.count() == 1 { 1 } else { SHARED_OUT }
}

// The next block.
fn add_share<I: Source>(
    alloc: Global,
    blocks: &mut LineBlocks,
    input: &mut I,
    shares: &mut Vec<Share>,
) -> Result<(), NoMemory>
    ensures added { OnOk result (AddsShare I.Source blocks.old blocks.new shares.old.items shares.new.items input.old input.new) }
    ensures refused { OnErr result (TakesSome I.Source input.old input.new) }
{
    let block = blocks.next(alloc, input)?;
    if shares.push(Share::new(alloc, block)).is_err() {
        return Err(NoMemory);
    }
    Ok(())
}
