//! A row of another firm's figures in a body.

ghost use Rattle.std.specs.Prelude.{◌≡◌, None, Some, Err, IfErr, IfOk, codes, option_map};
ghost use Rattle.csv.specs.Records.{fields_of};
ghost use Rattle.serde_json.specs.Find.{as_object, get};
ghost use Rattle.serde_json.specs.View.{view};
ghost use Rattle.muni_msg.specs.Columns as columns;
ghost use Rattle.muni_wire_body.specs.Faults.{IsOfBody};
ghost use Rattle.muni_wire_body.specs.Stated as spec;

use crate::{Bad, WireFault};
use arrayvec::ArrayVec;
use csv::ByteRecord;
use muni_msg::{Column, DeskName};
use serde_json::Value;
use std::alloc::Global;
use std::marker::Model;
use std::str;

/// A row of another firm's figures: some columns, in their order, with a text for each.
#[derive(Drop)]
pub struct StatedRow {
    desk: Option<DeskName>,
    columns: ArrayVec<Column, 22>,
    fields: ByteRecord,
}

impl Model for StatedRow {
    ghost use Rattle.csv.specs.Records.{fields_of};
    ghost use Rattle.muni_wire_body.specs.Stated.{RowTexts};

    ghost Value = { RowTexts };

    ghost view = { λ row. record { desk = row.desk; columns = row.columns.items; fields = fields_of row.fields } };
}

impl StatedRow {
    /// The desk whose trades its reference names, if one is given.
    pub fn desk(&self) -> &Option<DeskName>
        ensures { result.now ≡ self.now.desk }
    {
        &self.desk
    }

    pub fn columns(&self) -> &ArrayVec<Column, 22>
        ensures { result.now.items ≡ self.now.columns }
    {
        &self.columns
    }

    /// The texts of its columns.
    pub fn fields(&self) -> &ByteRecord
        ensures { fields_of result.now ≡ self.now.fields }
    {
        &self.fields
    }
}

/// The row that a value states.
#[tactic(auto, unfolding(crate::specs::Stated::row_in))]
pub(crate) fn read_row(alloc: Global, value: &Value) -> Result<StatedRow, WireFault>
    ensures whole { IfOk result (λ row. spec.row_in (view value.now) ≡ Some row) }
    ensures bad { (kind : _) → result ≡ Err (WireFault.Bad kind)
        → (kind ≡ Bad.BadRequest) × (spec.row_in (view value.now) ≡ None) }
    ensures others { IfErr result (λ fault. IsOfBody fault) }
{
    if !has_known(value) {
        return Err(WireFault::Bad(Bad::BadRequest));
    }
    read_members(alloc, value)
}

// Whether a value is an object with no other members than those that a row may have.
fn has_known(value: &Value) -> bool
    ensures { result ≡ spec.has_known (as_object (view value.now)) }
{
    let Some(members) = value.as_object() else {
        return false;
    };
    for name in members.keys() {
        if !is_known(name.as_bytes()) {
            return false;
        }
    }
    true
}

fn is_known(name: &[u8]) -> bool
    ensures { result ≡ spec.is_known name.now }
{
    name == b"desk".as_slice() || Column::named(name).is_some()
}

// The row of the members that a value has.
fn read_members(alloc: Global, value: &Value) -> Result<StatedRow, WireFault>
    ensures whole { IfOk result (λ row. spec.members_in (view value.now) ≡ Some row) }
    ensures bad { (kind : _) → result ≡ Err (WireFault.Bad kind)
        → (kind ≡ Bad.BadRequest) × (spec.members_in (view value.now) ≡ None) }
    ensures others { IfErr result (λ fault. IsOfBody fault) }
{
    let desk = read_desk(value)?;
    let mut columns = ArrayVec::new();
    let mut fields = ByteRecord::new(alloc);
    for column in Column::all() {
        if let Some(text) = read_text(value, column)? {
            columns.push(column);
            if fields.push_field(text).is_err() {
                return Err(WireFault::NoMemory);
            }
        }
    }
    Ok(StatedRow {
        desk,
        columns,
        fields,
    })
}

// The desk, if it is not left out.
fn read_desk(value: &Value) -> Result<Option<DeskName>, WireFault>
    ensures desk { IfOk result (λ desk. spec.desk_at (get (codes "desk") (view value.now)) ≡ Some desk) }
    ensures bad { IfErr result (λ fault. (fault ≡ WireFault.Bad Bad.BadRequest)
        × (spec.desk_at (get (codes "desk") (view value.now)) ≡ None)) }
{
    let Some(found) = value.get("desk") else {
        return Ok(None);
    };
    match desk_named(found) {
        Some(desk) => Ok(Some(desk)),
        None => Err(WireFault::Bad(Bad::BadRequest)),
    }
}

fn desk_named(found: &Value) -> Option<DeskName>
    ensures { result ≡ spec.desk_named (view found.now) }
{
    DeskName::read(found.as_str()?.as_bytes()).ok()
}

// The text of a column, if its member is not left out.
fn read_text<'a>(value: &'a Value, column: Column) -> Result<Option<&'a [u8]>, WireFault>
    ensures text { IfOk result (λ text.
        spec.text_at (get (columns.name_of column) (view value.now)) ≡ Some (option_map (λ t. t.now) text)) }
    ensures bad { IfErr result (λ fault. (fault ≡ WireFault.Bad Bad.BadRequest)
        × (spec.text_at (get (columns.name_of column) (view value.now)) ≡ None)) }
{
    let Some(found) = value.get(name_of(column)) else {
        return Ok(None);
    };
    match found.as_str() {
        Some(text) => Ok(Some(text.as_bytes())),
        None => Err(WireFault::Bad(Bad::BadRequest)),
    }
}

// The name of a column, as that of a member.
fn name_of(column: Column) -> &'static str
    ensures { result.now ≡ columns.name_of column }
{
    match str::from_utf8(column.name()) {
        Ok(name) => name,
        Err(_) => unreachable!(),
    }
}
