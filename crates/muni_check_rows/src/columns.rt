//! The columns of an input.

ghost use Rattle.std.specs.Prelude.{◌≡◌, ◌<◌, IfErr, IfOk, IfSome, OnOk, Ok, Err, Some};
ghost use Rattle.csv.specs.Records.{fields_of};
ghost use Rattle.muni_check_rows.specs.Columns as spec;
ghost use Rattle.muni_msg.specs.Columns.{column_named};

use arrayvec::ArrayVec;
use csv::ByteRecord;
use muni_import::RowFault;
use muni_msg::Column;

/// The columns of an input, in their order.
pub type Columns = ArrayVec<Column, 22>;

// How many columns there are.
const MOST: usize = 22;

/// Where a column stands among those of an input, counted from 0.
pub(crate) fn place_of(columns: &Columns, column: Column) -> Option<usize>
    ensures place { result ≡ spec.place_of columns.now.items column }
    ensures inside { IfSome result (λ place. place < 22) }
{
    columns
        .iter()
        .position(|other| other.name() == column.name())
}

fn has_column(columns: &[Column], column: Column) -> bool
    ensures { result ≡ spec.has_column columns.now column }
{
    columns.iter().any(|other| other.name() == column.name())
}

/// The columns that the first line of an input names, in any order.
///
/// A name that is unknown or stands there twice is refused, with its place counted from 1.
#[tactic(auto, unfolding(crate::specs::Columns::columns_in))]
pub fn read_columns(names: &ByteRecord) -> Result<Columns, RowFault>
    ensures named { IfOk result (λ columns. spec.columns_in (fields_of names.now) ≡ Ok columns.items) }
    ensures refused { IfErr result (λ fault. spec.columns_in (fields_of names.now) ≡ Err fault) }
{
    let mut columns = ArrayVec::new();
    for place in 0..names.len() {
        add_column(&mut columns, name_at(names, place))?;
    }
    Ok(columns)
}

fn name_at(names: &ByteRecord, place: usize) -> &[u8]
    ensures { result.now ≡ spec.text_at (fields_of names.now) (Some place) }
{
    match names.get(place) {
        Some(name) => name,
        None => b"",
    }
}

// Adds the column of a name.
fn add_column(columns: &mut Columns, name: &[u8]) -> Result<(), RowFault>
    ensures added { OnOk result (spec.with_column columns.old.items (column_named name.now) ≡ Ok columns.new.items) }
    ensures refused { IfErr result (λ fault. spec.with_column columns.old.items (column_named name.now) ≡ Err fault) }
{
    let fault = RowFault::BadField {
        column: columns.len() as u32 + 1,
    };
    let Some(column) = Column::named(name) else {
        return Err(fault);
    };
    if has_column(columns, column) || columns.len() >= MOST {
        return Err(fault);
    }
    columns.push(column);
    Ok(())
}
