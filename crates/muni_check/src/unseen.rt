//! The trades of a desk for which no row came.

ghost use Rattle.std.specs.Prelude.{◌≡◌, ◌+◌, ◌<◌, ◌≤◌, ◌^◌, ◌++◌, [], ◌∷◌, length, IfOk, IsErrOf, OnOk};
ghost use Rattle.muni_edge.specs.Faults.{Rose};
ghost use Rattle.muni_keep.specs.Keeper.{SameKeeper};
ghost use Rattle.muni_desk_io.specs.Reports.{ReportsWrites};
ghost use Rattle.muni_check_rows.specs.Line.{unseen_lines};
ghost use Rattle.muni_check.specs.Named.{has};
ghost use Rattle.muni_check.specs.Pages.{WritesUnseen};
ghost use Rattle.muni_check.specs.Unseen as spec;

use crate::named;
use crate::named::Named;
use muni_check_rows::{CheckSaid, add_line};
use muni_desk_io::{Fault, write};
use muni_edge::{NoMemory, Sink};
use muni_keep::Keeper;
use muni_msg::{Act, DeskName, Line};
use std::alloc::Global;

// The lines of trades of a page for which no row came, and how many they are.
#[derive(Drop)]
struct UnseenLines {
    text: Vec<u8>,
    count: u64,
}

/// Writes a line on each live trade of a desk for which no row came, and returns how many they are.
pub(crate) fn write_unseen<K: Keeper, O: Sink>(
    alloc: Global,
    keeper: &mut K,
    desk: &DeskName,
    named: &Named,
    output: &mut O,
) -> Result<u128, Fault>
    ensures written { WritesUnseen desk.now (has named.now) (K.tables keeper.old) result (O.bytes output.old) (O.bytes output.new) }
    ensures few { IfOk result (λ count. count < 2 ^ 70) }
    ensures writes { ReportsWrites O.Sink result output.old output.new }
    ensures write_failed { IsErrOf result Fault.Write → Rose (O.faults output.old) (O.faults output.new) }
    ensures same { SameKeeper K.Keeper Fault.Store result keeper.old keeper.new }
    ensures unchanged { K.tables keeper.new ≡ K.tables keeper.old }
{
    let mut after = None;
    let mut count = 0u128;
    'pages: for turn in 0..u64::MAX {
        // Proofs alone read the turn.
        let _turn = turn;
        let page = keeper.page(desk, &after)?;
        let Some(last) = page.last() else {
            return Ok(count);
        };
        after = Some(last.reference.copy());
        let lines = lines_of(alloc, page.as_slice(), named)?;
        write(&lines.text, output)?;
        count += u128::from(lines.count);
    }
    // Pages without an end are more than any memory holds.
    Err(Fault::NoMemory)
}

fn lines_of(alloc: Global, page: &[Line], named: &Named) -> Result<UnseenLines, NoMemory>
    ensures text { IfOk result (λ lines. lines.text.items ≡ unseen_lines (spec.unseen_of (has named.now) page.now)) }
    ensures count { IfOk result (λ lines. lines.count ≡ length (spec.unseen_of (has named.now) page.now)) }
    ensures few { IfOk result (λ lines. lines.count ≤ length page.now) }
{
    let mut lines = UnseenLines {
        text: Vec::new(alloc),
        count: 0,
    };
    for trade in page {
        add_unseen(&mut lines, trade, named)?;
    }
    Ok(lines)
}

// Adds the line of a trade, if no row named it.
fn add_unseen(lines: &mut UnseenLines, trade: &Line, named: &Named) -> Result<(), NoMemory>
    requires { lines.old.count + 1 < 2 ^ 64 }
    ensures text { OnOk result (lines.new.text.items
        ≡ lines.old.text.items ++ unseen_lines (spec.unseen_of (has named.now) (trade.now ∷ []))) }
    ensures count { OnOk result (lines.new.count
        ≡ lines.old.count + length (spec.unseen_of (has named.now) (trade.now ∷ []))) }
    ensures few { OnOk result (lines.new.count ≤ lines.old.count + 1) }
{
    if !is_unseen(trade, named) {
        return Ok(());
    }
    let said = CheckSaid::Missing {
        reference: trade.reference.copy(),
    };
    add_line(&mut lines.text, 0, &said)?;
    lines.count += 1;
    Ok(())
}

// A live trade whose reference no row named.
fn is_unseen(trade: &Line, named: &Named) -> bool
    ensures { result ≡ spec.is_unseen (has named.now) trade.now }
{
    is_live(trade.version.act) && !named::has(named, &trade.reference)
}

fn is_live(act: Act) -> bool
    ensures { result ≡ spec.is_live act }
{
    match act {
        Act::Entered | Act::Corrected => true,
        Act::Canceled => false,
    }
}
