//! The terms that a row states beside those that are kept.

ghost use Rattle.std.specs.Prelude.{◌≡◌, Some, IfOk};
ghost use Rattle.muni_dec.specs.Values.{coupon_text};
ghost use Rattle.muni_check_rows.specs.Other as spec;

use crate::trade::TradeTexts;
use arrayvec::ArrayVec;
use muni_days::Basis;
use muni_edge::NoMemory;
use muni_export::{days_word, kind_word, side_word};
use muni_msg::{Asked, Column};
use muni_store_rows::{IssueColumns, row_columns};
use muni_terms::{IssueRow, Kind};
use std::alloc::Global;
use std::marker::Model;

/// A stated term that is another than the kept one, with the texts of both as an export writes them.
#[derive(Drop)]
pub struct OtherTerm {
    pub column: Column,
    pub ours: Vec<u8>,
    pub theirs: Vec<u8>,
}

impl Model for OtherTerm {
    ghost use Rattle.muni_check_rows.specs.Other as spec;

    ghost Value = { spec.OtherTerm };

    ghost view = { λ other. record { column = other.column; ours = other.ours.items; theirs = other.theirs.items } };
}

/// The first term of a trade, in the order of an export, that is another than the kept one.
#[tactic(auto, unfolding(muni_export::specs::Rows::terms_fields))]
pub fn other_in_trade(
    alloc: Global,
    kept: &Asked,
    theirs: &TradeTexts,
) -> Result<Option<OtherTerm>, NoMemory>
    ensures { IfOk result (λ other. other ≡ spec.other_in_trade kept.now theirs.now) }
{
    let ours = TradeTexts::of(kept);
    if ours.cusip != theirs.cusip {
        return found(alloc, Column::Cusip, &ours.cusip, &theirs.cusip);
    }
    if side_word(&ours.side) != side_word(&theirs.side) {
        return found(
            alloc,
            Column::Side,
            side_word(&ours.side),
            side_word(&theirs.side),
        );
    }
    if ours.par.as_slice() != theirs.par.as_slice() {
        return found(alloc, Column::Par, &ours.par, &theirs.par);
    }
    if ours.settle.as_slice() != theirs.settle.as_slice() {
        return found(alloc, Column::Settle, &ours.settle, &theirs.settle);
    }
    if ours.basis.word() != theirs.basis.word() {
        return found(alloc, Column::Basis, ours.basis.word(), theirs.basis.word());
    }
    if ours.value.as_slice() != theirs.value.as_slice() {
        return found(alloc, Column::Value, &ours.value, &theirs.value);
    }
    if ours.fee.as_slice() != theirs.fee.as_slice() {
        return found(alloc, Column::Fee, &ours.fee, &theirs.fee);
    }
    Ok(None)
}

/// The first term of an issue, in the order of an export, that is another than the kept one, if a row states any.
pub fn other_in_issue(
    alloc: Global,
    kept: &IssueRow,
    stated: &Option<IssueRow>,
) -> Result<Option<OtherTerm>, NoMemory>
    ensures { IfOk result (λ other. other ≡ spec.other_in_issue kept.now stated.now) }
{
    match stated {
        Some(stated) => first_other(alloc, &IssueTexts::of(kept), &IssueTexts::of(stated)),
        None => Ok(None),
    }
}

/// The texts of the terms of an issue without its name, as an export writes them.
#[derive(Drop)]
struct IssueTexts {
    columns: IssueColumns,
    kind: Kind,
    coupon: ArrayVec<u8, 32>,
    basis: Basis,
}

impl Model for IssueTexts {
    ghost use Rattle.std.specs.Prelude.{ℕ, List, [], ◌∷◌};
    ghost use Rattle.muni_export.specs.Words.{days_word, kind_word};

    ghost Value = { List (List ℕ) };

    ghost view = { λ texts. kind_word texts.kind ∷ texts.columns.dated ∷ texts.columns.first
        ∷ texts.columns.maturity ∷ texts.coupon.items ∷ texts.columns.calls ∷ days_word texts.basis ∷ [] };
}

impl IssueTexts {
    #[tactic(auto, unfolding(muni_export::specs::Rows::issue_terms_fields, muni_store_rows::specs::Issue::columns_of))]
    fn of(row: &IssueRow) -> IssueTexts
        ensures { result ≡ spec.issue_texts row.now }
    {
        IssueTexts {
            columns: row_columns(row),
            kind: row.kind,
            coupon: coupon_of(row),
            basis: row.basis,
        }
    }
}

fn first_other(
    alloc: Global,
    ours: &IssueTexts,
    theirs: &IssueTexts,
) -> Result<Option<OtherTerm>, NoMemory>
    ensures { IfOk result (λ other. other ≡ spec.first_other spec.issue_columns ours.now theirs.now) }
{
    let (our, their) = (&ours.columns, &theirs.columns);
    if kind_word(&ours.kind) != kind_word(&theirs.kind) {
        return found(
            alloc,
            Column::Kind,
            kind_word(&ours.kind),
            kind_word(&theirs.kind),
        );
    }
    if our.dated.as_slice() != their.dated.as_slice() {
        return found(alloc, Column::Dated, &our.dated, &their.dated);
    }
    if our.first.as_slice() != their.first.as_slice() {
        return found(alloc, Column::First, &our.first, &their.first);
    }
    if our.maturity.as_slice() != their.maturity.as_slice() {
        return found(alloc, Column::Maturity, &our.maturity, &their.maturity);
    }
    if ours.coupon.as_slice() != theirs.coupon.as_slice() {
        return found(alloc, Column::Coupon, &ours.coupon, &theirs.coupon);
    }
    if our.calls() != their.calls() {
        return found(alloc, Column::Calls, our.calls(), their.calls());
    }
    if days_word(&ours.basis) != days_word(&theirs.basis) {
        return found(
            alloc,
            Column::DayCount,
            days_word(&ours.basis),
            days_word(&theirs.basis),
        );
    }
    Ok(None)
}

fn coupon_of(row: &IssueRow) -> ArrayVec<u8, 32>
    ensures { result.items ≡ coupon_text row.now.coupon }
{
    let mut text = ArrayVec::new();
    row.coupon.print_into(&mut text);
    text
}

fn found(
    alloc: Global,
    column: Column,
    ours: &[u8],
    theirs: &[u8],
) -> Result<Option<OtherTerm>, NoMemory>
    ensures { IfOk result (λ other. other ≡ Some (spec.other_term column ours.now theirs.now)) }
{
    let mut other = OtherTerm {
        column,
        ours: Vec::new(alloc),
        theirs: Vec::new(alloc),
    };
    other.ours.extend_from_slice(ours)?;
    other.theirs.extend_from_slice(theirs)?;
    Ok(Some(other))
}
