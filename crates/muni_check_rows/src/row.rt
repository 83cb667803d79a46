//! What a row says by itself.

ghost use Rattle.std.specs.Prelude.{◌≡◌, ℕ, List, Option, Result};
ghost use Rattle.std.specs.Option.{option_map};
ghost use Rattle.csv.specs.Records.{fields_of};
ghost use Rattle.muni_check_rows.specs.Columns as columns;
ghost use Rattle.muni_check_rows.specs.Rows as spec;

use crate::columns::{Columns, place_of};
use crate::stated::{has_figure, read_stated};
use crate::terms::{has_terms, read_terms};
use crate::trade::{TradeTexts, read_asked, read_trade_texts};
use csv::ByteRecord;
use muni_import::RowFault;
use muni_import::columns::field;
use muni_msg::{Asked, Column, Reference};
use muni_readings::Stated;
use muni_terms::IssueRow;

// The terms of a trade and of its issue.
const TERMS: [Column; 14] = [
    Column::Cusip,
    Column::Side,
    Column::Par,
    Column::Settle,
    Column::Basis,
    Column::Value,
    Column::Fee,
    Column::Kind,
    Column::Dated,
    Column::First,
    Column::Maturity,
    Column::Coupon,
    Column::Calls,
    Column::DayCount,
];

/// The fields of a row, by the columns of its input.
#[derive(Clone, Copy)]
pub struct Fields<'a> {
    pub columns: &'a Columns,
    pub record: &'a ByteRecord,
}

impl<'a> Fields<'a> {
    /// The text of a column. One that the input does not name is empty.
    pub(crate) fn text(&self, column: Column) -> &'a [u8]
        ensures { result.now ≡ columns.text_in self.now.columns.now.items (fields_of self.now.record.now) column }
    {
        match place_of(self.columns, column) {
            Some(place) => field(self.record, place as u32 + 1),
            None => b"",
        }
    }

    /// Whether a row states something in a column.
    pub(crate) fn states(&self, column: Column) -> bool
        ensures { result ≡ columns.states self.now.columns.now.items (fields_of self.now.record.now) column }
    {
        !self.text(column).is_empty()
    }

    /// The fault of a column that does not read, or that is needed and not there.
    pub(crate) fn fault(&self, column: Column) -> RowFault
        ensures { result ≡ columns.fault_in self.now.columns.now.items column }
    {
        match place_of(self.columns, column) {
            Some(place) => RowFault::BadField {
                column: place as u32 + 1,
            },
            None => RowFault::FieldCount,
        }
    }
}

/// What a row asks for, the figures that it states, and the terms of its issue if it states them.
#[derive(Drop)]
pub struct CheckRow {
    pub asked: Asked,
    pub stated: Stated,
    pub terms: Option<IssueRow>,
}

/// The reference that a row states, if it states one.
///
/// The fields of a row are counted first: a row without a field for each column is refused. So is a reference that does
/// not read, with its column.
#[tactic(auto, unfolding(crate::specs::Rows::reference_in))]
pub fn read_reference(fields: &Fields<'_>) -> Result<Option<Reference>, RowFault>
    ensures { result ≡ spec.reference_in fields.now.columns.now.items (fields_of fields.now.record.now) }
{
    if fields.record.len() != fields.columns.len() {
        return Err(RowFault::FieldCount);
    }
    let text = fields.text(Column::Reference);
    if text.is_empty() {
        return Ok(None);
    }
    match Reference::read(text) {
        Ok(reference) => Ok(Some(reference)),
        Err(_) => Err(fields.fault(Column::Reference)),
    }
}

/// What a row says by itself. Its fields were counted by `read_reference`.
///
/// The first column that does not read is told, in the order of `Column`, or `FieldCount` if the input does not name a
/// column that is needed; and at last the kind, if there is none of the other terms that are stated.
#[tactic(auto, unfolding(crate::specs::Rows::row_in))]
pub fn read_row(fields: &Fields<'_>) -> Result<CheckRow, RowFault>
    ensures { result ≡ spec.row_in fields.now.columns.now.items (fields_of fields.now.record.now) }
{
    let asked = read_asked(fields, has_terms(fields))?;
    let stated = read_stated(fields)?;
    let terms = read_terms(fields, asked.cusip)?;
    Ok(CheckRow {
        asked,
        stated,
        terms,
    })
}

/// The terms of a kept trade by what a row states of them, the figures, and the terms of its issue if it states them.
#[derive(Drop)]
pub struct TradeRow {
    pub texts: TradeTexts,
    pub stated: Stated,
    pub terms: Option<IssueRow>,
}

/// What a row says of a kept trade. Its fields were counted by `read_reference`.
///
/// The first column that does not read is told, as by `read_row`.
#[tactic(auto, unfolding(crate::specs::Rows::trade_row_in))]
pub fn read_trade_row(fields: &Fields<'_>, kept: &Asked) -> Result<TradeRow, RowFault>
    ensures { result ≡ spec.trade_row_in fields.now.columns.now.items (fields_of fields.now.record.now) kept.now }
{
    let texts = read_trade_texts(fields, kept)?;
    let stated = read_stated(fields)?;
    let terms = read_terms(fields, kept.cusip)?;
    Ok(TradeRow {
        texts,
        stated,
        terms,
    })
}

/// Whether a row states no figure and nothing of its trade.
pub fn states_nothing(fields: &Fields<'_>, stated: &Stated) -> bool
    ensures { result ≡ spec.states_nothing fields.now.columns.now.items (fields_of fields.now.record.now) stated.now }
{
    !has_figure(stated) && !states_terms(fields)
}

// Whether a row states something of a trade or of its issue.
fn states_terms(fields: &Fields<'_>) -> bool
    ensures { result ≡ columns.states_any fields.now.columns.now.items (fields_of fields.now.record.now) spec.all_terms }
{
    TERMS.iter().any(|column| fields.states(*column))
}
