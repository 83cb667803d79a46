//! The rows of an input, a block at a time.

ghost use Rattle.std.specs.Prelude.{◌≡◌, ◌≤◌, ◌+◌, ◌^◌, ◌∷◌, [], List, ℕ, None, length, map, IfErr, IfOk, IfSome, IsErrOf, OnOk};
ghost use Rattle.csv.specs.Records.{fields_of};
ghost use Rattle.muni_keep.specs.Keeper.{OnlyReads, SameKeeper};
ghost use Rattle.muni_check.specs.Cache.{IsSoundCache};
ghost use Rattle.muni_check.specs.GoesOn.{DoesBeginning, DoesBlock, GoesOn, IsOfRows};
ghost use Rattle.muni_check.specs.Judging.{over};
ghost use Rattle.muni_check_rows.specs.Judging.{rule};
ghost use Rattle.muni_check_rows.specs.Line.{HasName};
ghost use Rattle.muni_check.specs.Named.{AddsNames, again_of, came_after, place_in};
ghost use Rattle.muni_check_rows.specs.Rows.{named_by, named_in, records_of};
ghost use Rattle.muni_check_rows.specs.Said.{IsToldOf};
ghost use Rattle.muni_check_rows.specs.Tallies.{IsSmall, no_tally};

use crate::judging::Judge;
use crate::named::{Named, add, none};
use csv::ByteRecord;
use muni_check_rows::{
    CheckSaid, Columns, Fields, Tally, add_line, read_columns, read_records, read_reference,
};
use muni_desk_io::Fault;
use muni_edge::Gate;
use muni_import::RowFault;
use muni_keep::{KeepFault, Keeper};
use muni_msg::Key;
use muni_multi::Encloser;
use std::alloc::Global;
use std::thread::Threads;

/// What rows have come to: their tally, and the references that they name if they are of a desk, with their places.
#[derive(Drop)]
pub(crate) struct Progress {
    pub tally: Tally,
    pub named: Named,
}

/// What has come of the records of an input.
#[derive(Drop)]
pub(crate) struct SoFar {
    /// None before the first record.
    pub columns: Option<Columns>,
    pub progress: Progress,
}

impl SoFar {
    /// No record has come.
    pub(crate) fn new(alloc: Global) -> SoFar
        ensures columns { result.columns ≡ None }
        ensures tally { result.progress.tally ≡ no_tally }
        ensures named { (reference : List ℕ) → place_in result.progress.named reference ≡ None }
    {
        SoFar {
            columns: None,
            progress: Progress {
                tally: Tally::new(),
                named: none(alloc),
            },
        }
    }
}

/// What comes of the records of a block.
#[derive(Drop)]
pub(crate) enum BlockDone {
    /// These are the lines of its rows.
    Lines(Vec<u8>),
    /// Its first record does not name the columns.
    BadNames(RowFault),
}

/// Judges the records of a block after those that are done.
pub(crate) fn do_block<R: Threads + Sync, K: Keeper, E: Encloser + Sync, G: Gate + Sync>(
    judge: &mut Judge<'_, R, E, G>,
    block: &[u8],
    so_far: &mut SoFar,
    keeper: &mut K,
) -> Result<BlockDone, Fault>
    requires sound { IfSome (K.tables keeper.old) (λ t. IsSoundCache t judge.old.issues) }
    requires small { IsSmall so_far.old.progress.tally }
    ensures does { IfOk result (λ done. DoesBlock (over (E.ends judge.old.calculator.now.encloser.now) judge.old.desk.now (K.tables keeper.old))
        (records_of block.now) so_far.old so_far.new done) }
    ensures sound { OnOk result (IfSome (K.tables keeper.old) (λ t. IsSoundCache t judge.new.issues)) }
    ensures small { OnOk result (IsSmall so_far.new.progress.tally) }
    ensures calculator { judge.new.calculator ≡ judge.old.calculator }
    ensures desk { judge.new.desk ≡ judge.old.desk }
    ensures too_many { IsErrOf result Fault.TooLarge → 2 ^ 64 ≤ so_far.old.progress.tally.rows + length (records_of block.now) }
    ensures only { IfErr result IsOfRows }
    ensures same { SameKeeper K.Keeper Fault.Store result keeper.old keeper.new }
    ensures unchanged { K.tables keeper.new ≡ K.tables keeper.old }
{
    let records = read_records(judge.alloc, block)?;
    match &so_far.columns {
        Some(columns) => {
            let lines = judge_rows(judge, columns, &records, &mut so_far.progress, keeper)?;
            Ok(BlockDone::Lines(lines))
        }
        None => begin(judge, &records, so_far, keeper),
    }
}

// The first records of an input, of which the first names the columns.
fn begin<R: Threads + Sync, K: Keeper, E: Encloser + Sync, G: Gate + Sync>(
    judge: &mut Judge<'_, R, E, G>,
    records: &[ByteRecord],
    so_far: &mut SoFar,
    keeper: &mut K,
) -> Result<BlockDone, Fault>
    requires sound { IfSome (K.tables keeper.old) (λ t. IsSoundCache t judge.old.issues) }
    requires small { IsSmall so_far.old.progress.tally }
    ensures does { IfOk result (λ done. DoesBeginning (over (E.ends judge.old.calculator.now.encloser.now) judge.old.desk.now (K.tables keeper.old))
        (map fields_of records.now) so_far.old so_far.new done) }
    ensures sound { OnOk result (IfSome (K.tables keeper.old) (λ t. IsSoundCache t judge.new.issues)) }
    ensures small { OnOk result (IsSmall so_far.new.progress.tally) }
    ensures calculator { judge.new.calculator ≡ judge.old.calculator }
    ensures desk { judge.new.desk ≡ judge.old.desk }
    ensures too_many { IsErrOf result Fault.TooLarge → 2 ^ 64 ≤ so_far.old.progress.tally.rows + length records.now }
    ensures only { IfErr result IsOfRows }
    ensures same { SameKeeper K.Keeper Fault.Store result keeper.old keeper.new }
    ensures unchanged { K.tables keeper.new ≡ K.tables keeper.old }
{
    let Some((names, rows)) = records.split_first() else {
        return Ok(BlockDone::Lines(Vec::new(judge.alloc)));
    };
    let columns = match read_columns(names) {
        Ok(columns) => columns,
        Err(fault) => return Ok(BlockDone::BadNames(fault)),
    };
    let lines = judge_rows(judge, &columns, rows, &mut so_far.progress, keeper)?;
    so_far.columns = Some(columns);
    Ok(BlockDone::Lines(lines))
}

// The lines of rows.
fn judge_rows<R: Threads + Sync, K: Keeper, E: Encloser + Sync, G: Gate + Sync>(
    judge: &mut Judge<'_, R, E, G>,
    columns: &Columns,
    rows: &[ByteRecord],
    progress: &mut Progress,
    keeper: &mut K,
) -> Result<Vec<u8>, Fault>
    requires sound { IfSome (K.tables keeper.old) (λ t. IsSoundCache t judge.old.issues) }
    requires small { IsSmall progress.old.tally }
    ensures goes_on { IfOk result (λ lines. GoesOn (over (E.ends judge.old.calculator.now.encloser.now) judge.old.desk.now (K.tables keeper.old))
        columns.now.items (map fields_of rows.now) progress.old progress.new lines.items) }
    ensures sound { OnOk result (IfSome (K.tables keeper.old) (λ t. IsSoundCache t judge.new.issues)) }
    ensures small { OnOk result (IsSmall progress.new.tally) }
    ensures calculator { judge.new.calculator ≡ judge.old.calculator }
    ensures desk { judge.new.desk ≡ judge.old.desk }
    ensures too_many { IsErrOf result Fault.TooLarge → 2 ^ 64 ≤ progress.old.tally.rows + length rows.now }
    ensures only { IfErr result IsOfRows }
    ensures same { SameKeeper K.Keeper Fault.Store result keeper.old keeper.new }
    ensures unchanged { K.tables keeper.new ≡ K.tables keeper.old }
{
    let mut lines = Vec::new(judge.alloc);
    for row in rows {
        let fields = Fields {
            columns,
            record: row,
        };
        let place = progress.tally.next_place()?;
        let said = said_of(judge, place, &fields, &mut progress.named, keeper)?;
        progress.tally.add(&said);
        add_line(&mut lines, place, &said)?;
    }
    Ok(lines)
}

/// What is said of the row at a place. The trade that it names, if it is of a desk, is no longer unseen.
pub(crate) fn said_of<R: Threads + Sync, K: Keeper, E: Encloser + Sync, G: Gate + Sync>(
    judge: &mut Judge<'_, R, E, G>,
    place: u64,
    fields: &Fields<'_>,
    named: &mut Named,
    keeper: &mut K,
) -> Result<CheckSaid, KeepFault>
    requires sound { IfSome (K.tables keeper.old) (λ t. IsSoundCache t judge.old.issues) }
    ensures said { IfOk result (λ said. IsToldOf (rule (E.ends judge.old.calculator.now.encloser.now)) judge.old.desk.now (K.tables keeper.old)
        fields.now.columns.now.items (again_of (place_in named.old) (named_in fields.now.columns.now.items (fields_of fields.now.record.now)))
        (fields_of fields.now.record.now) said) }
    ensures name { IfOk result HasName }
    ensures named { OnOk result (AddsNames judge.old.desk.now named.old named.new
        (named_by fields.now.columns.now.items (fields_of fields.now.record.now ∷ []))) }
    ensures places { OnOk result ((reference : List ℕ) → place_in named.new reference
        ≡ came_after judge.old.desk.now (place_in named.old) place (named_in fields.now.columns.now.items (fields_of fields.now.record.now)) reference) }
    ensures sound { OnOk result (IfSome (K.tables keeper.old) (λ t. IsSoundCache t judge.new.issues)) }
    ensures calculator { judge.new.calculator ≡ judge.old.calculator }
    ensures desk { judge.new.desk ≡ judge.old.desk }
    ensures reads { OnlyReads K.Keeper result keeper.old keeper.new }
{
    let reference = match read_reference(fields) {
        Ok(reference) => reference,
        Err(fault) => return Ok(CheckSaid::Bad(fault)),
    };
    let (Some(desk), Some(reference)) = (judge.desk, reference) else {
        return judge.judge_alone(keeper, fields);
    };
    match add(named, &reference, place)? {
        Some(first) => Ok(CheckSaid::Again { first }),
        None => {
            let key = Key {
                desk: desk.copy(),
                reference,
            };
            judge.judge_key(keeper, fields, &key)
        }
    }
}
