//! The rows of a text.

ghost use Rattle.std.specs.Prelude.{◌≡◌, IfOk};
ghost use Rattle.csv.specs.Records.{fields_of};
ghost use Rattle.muni_marks.specs.Rows as spec;

use csv::{ByteRecord, ReaderBuilder};
use muni_days::Day;
use muni_dec::{Fee, Par, Yield};
use muni_edge::NoMemory;
use muni_import::RowFault;
use muni_import::columns::{field, in_column};
use muni_msg::{Asked, Given, Side, read_cusip};
use std::alloc::Global;

/// Reads all rows of a portfolio: what each asks for, or why it is no row. It fails only if memory
/// runs out.
///
/// A row has four fields: a CUSIP, a par, a settlement and a yield. It has no name.
pub fn read_marks(alloc: Global, text: &[u8]) -> Result<Vec<Result<Asked, RowFault>>, NoMemory>
    // promise 6: the rows of a portfolio
    ensures { IfOk result (λ rows. rows.items ≡ spec.rows_of text.now) }
{
    let reader = ReaderBuilder::new()
        .has_headers(false)
        .flexible(true)
        .from_reader(alloc, text);
    let mut rows = Vec::new(alloc);
    // The prover has to be shown this type, which only a row has.
    let _given: Option<Given> = None;
    for row in reader.into_byte_records() {
        match row {
            Ok(row) => {
                if rows.push(read_row(&row)).is_err() {
                    return Err(NoMemory);
                }
            }
            Err(_) => return Err(NoMemory),
        }
    }
    Ok(rows)
}

#[tactic(auto, unfolding(crate::specs::Rows::row_of))]
fn read_row(row: &ByteRecord) -> Result<Asked, RowFault>
    ensures { result ≡ spec.row_of (fields_of row.now) }
{
    if row.len() != 4 {
        return Err(RowFault::FieldCount);
    }
    read_asked(row)
}

#[tactic(auto, unfolding(crate::specs::Rows::asked_in))]
fn read_asked(row: &ByteRecord) -> Result<Asked, RowFault>
    ensures { result ≡ spec.asked_in (fields_of row.now) }
{
    Ok(Asked {
        cusip: in_column(1, read_cusip(field(row, 1)))?,
        par: in_column(2, Par::read(field(row, 2)).ok())?,
        settle: in_column(3, Day::read(field(row, 3)).ok())?,
        given: Given::AtYield(in_column(4, Yield::read(field(row, 4)).ok())?),
        side: Side::Buy,
        fee: Fee::ZERO,
    })
}
