//! The positions of a desk.

ghost use Rattle.std.specs.Prelude.{◌≡◌, ◌⊎◌, ◌≤◌, None, IfOk, IfSome, IsErrOf};
ghost use Rattle.muni_edge.specs.Faults.{Rose};
ghost use Rattle.muni_keep.specs.Cabinet.{LeavesAll};
ghost use Rattle.muni_desk_io.specs.Reports.{ReportsWrites};
ghost use Rattle.muni_position.specs.Listed.{Listed};
ghost use Rattle.muni_position.specs.Listing.{MayNotSum, positions_text};

use crate::positioned::{Positioned, over};
use muni_desk_io::{Fault, write};
use muni_edge::Sink;
use muni_keep::{Cabinet, KeepFault, Keeper};
use muni_msg::DeskName;
use std::alloc::Global;

/// Writes what a desk holds of each security by the trades that a store keeps, a line for each CUSIP.
///
/// A desk with more than 100,000,000 trades is answered as a fault of the store.
pub fn positions<O: Sink, C: Cabinet>(
    alloc: Global,
    store: &[u8],
    desk: &DeskName,
    output: &mut O,
    cabinet: &mut C,
) -> Result<(), Fault>
    requires { C.out cabinet.old ≡ None }
    // promise 6, 9: the positions of a desk are listed, and how it ends
    ensures listed { Listed O.Sink desk.now (C.told cabinet.old store.now)
        (Rose (C.faults cabinet.old) (C.faults cabinet.new)) result output.old output.new }
    // promise 7: no tables change
    ensures leaves { LeavesAll C.Cabinet cabinet.old cabinet.new }
    ensures writes { ReportsWrites O.Sink result output.old output.new }
    ensures puts_later { O.faults output.old ≤ O.faults output.new }
{
    let lines = fetch_lines(alloc, store, desk, cabinet)?;
    write(lines.as_slice(), output)
}

// The lines from the tables of a store, whose keeper is fetched and given back.
fn fetch_lines<C: Cabinet>(
    alloc: Global,
    store: &[u8],
    desk: &DeskName,
    cabinet: &mut C,
) -> Result<Vec<u8>, KeepFault>
    requires { C.out cabinet.old ≡ None }
    ensures lines { IfOk result (λ lines. IfSome (C.told cabinet.old store.now)
        (λ t. lines.items ≡ positions_text desk.now t)) }
    ensures leaves { LeavesAll C.Cabinet cabinet.old cabinet.new }
    ensures failed { IsErrOf result KeepFault.Failed → Rose (C.faults cabinet.old) (C.faults cabinet.new)
        ⊎ MayNotSum desk.now (C.told cabinet.old store.now) }
{
    let mut positioned = over(alloc, cabinet.fetch(store)?);
    let lines = lines_of(alloc, &mut positioned, desk);
    cabinet.give_back(positioned.back());
    lines
}

// The lines of a desk, which is watched from now on where it is not yet.
pub(crate) fn lines_of<K: Keeper>(
    alloc: Global,
    keeper: &mut Positioned<K>,
    desk: &DeskName,
) -> Result<Vec<u8>, KeepFault>
    requires { keeper.old.faults ≡ 0 }
    ensures lines { IfOk result (λ lines. IfSome (K.tables keeper.old.inner)
        (λ t. lines.items ≡ positions_text desk.now t)) }
    ensures unchanged { K.tables keeper.new.inner ≡ K.tables keeper.old.inner }
    ensures lent_as { K.lent_as keeper.new.inner ≡ K.lent_as keeper.old.inner }
    ensures failed { IsErrOf result KeepFault.Failed
        → Rose (K.faults keeper.old.inner) (K.faults keeper.new.inner)
        ⊎ MayNotSum desk.now (K.tables keeper.old.inner) }
{
    if !keeper.watches(desk) {
        keeper.watch(desk)?;
    }
    Ok(keeper.lines(alloc)?)
}
