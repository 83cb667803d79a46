//! Checks of one row.

ghost use Rattle.std.specs.Prelude.{◌≡◌, List, ℕ, IfOk};
ghost use Rattle.muni_check_rows.specs.Judging.{rule};
ghost use Rattle.muni_keep.specs.Keeper.{OnlyReads};
ghost use Rattle.muni_wire.specs.Answer as wire;
ghost use Rattle.muni_desk_serve.specs.Check.{IsLineOf};

use muni_book::Calculator;
use muni_check::check_row;
use muni_check_rows::Fields;
use muni_edge::Gate;
use muni_keep::{KeepFault, Keeper};
use muni_multi::Encloser;
use muni_wire::success;
use muni_wire_body::StatedRow;
use std::alloc::Global;
use std::thread::Threads;

/// The answer with the line of a row.
pub(crate) fn check<R: Threads + Sync, K: Keeper, E: Encloser + Sync, G: Gate + Sync>(
    calculator: &Calculator<'_, R, E, G>,
    alloc: Global,
    keeper: &mut K,
    row: &StatedRow,
) -> Result<Vec<u8>, KeepFault>
    ensures answer { IfOk result (λ answer. (line : List ℕ)
        × IsLineOf (rule (E.ends calculator.now.encloser.now)) (K.tables keeper.old) row.now line
        × (answer.items ≡ wire.success line)) }
    ensures reads { OnlyReads K.Keeper result keeper.old keeper.new }
{
    let fields = Fields {
        columns: row.columns(),
        record: row.fields(),
    };
    let line = check_row(calculator, alloc, row.desk(), &fields, keeper)?;
    Ok(success(alloc, &line)?)
}
