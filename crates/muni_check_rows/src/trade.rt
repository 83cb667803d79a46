//! What a row asks for, and what it states of a trade that is kept.

ghost use Rattle.std.specs.Prelude.{◌≡◌, decimal, Some};
ghost use Rattle.csv.specs.Records.{fields_of};
ghost use Rattle.std.specs.Result.{result_ok};
ghost use Rattle.muni_dec.specs.Values.{fee_reading, fee_text, par_reading};
ghost use Rattle.muni_days.specs.Day.{civil, day_text};
ghost use Rattle.muni_export.specs.Rows.{terms_fields};
ghost use Rattle.muni_export.specs.Words.{basis_word, value_text};
ghost use Rattle.muni_import.specs.Row.{is_basis};
ghost use Rattle.muni_msg.specs.Fields.{day_in, given_reading, side_reading};
ghost use Rattle.muni_msg.specs.IssueFields.{cusip_reading};
ghost use Rattle.muni_check_rows.specs.Basis.{basis_of, basis_reading, basis_text};
ghost use Rattle.muni_check_rows.specs.Trade as spec;

use crate::row::Fields;
use arrayvec::ArrayVec;
use muni_days::Day;
use muni_dec::{Fee, Par};
use muni_export::print_value;
use muni_import::RowFault;
use muni_msg::{Asked, Column, Given, Side, read_cusip, read_given, read_side};
use std::marker::Model;

// The CUSIP of terms that a row states without one. Nothing hangs on it.
const NO_CUSIP: [u8; 9] = *b"000000000";

/// On what a trade is done.
#[derive(Clone, Copy, Debug, PartialEq, Eq)]
pub enum GivenBasis {
    Yield,
    Price,
    Rate,
}

impl GivenBasis {
    fn of(given: &Given) -> GivenBasis
        ensures basis { result ≡ basis_of given.now }
        ensures word { basis_text result ≡ basis_word given.now }
    {
        match given {
            Given::AtYield(_) => GivenBasis::Yield,
            Given::AtPrice(_) => GivenBasis::Price,
            Given::AtRate(_) => GivenBasis::Rate,
        }
    }

    fn read(text: &[u8]) -> Option<GivenBasis>
        ensures { result ≡ basis_reading text.now }
    {
        if text == b"yield".as_slice() {
            return Some(GivenBasis::Yield);
        }
        if text == b"price".as_slice() {
            return Some(GivenBasis::Price);
        }
        if text == b"rate".as_slice() {
            return Some(GivenBasis::Rate);
        }
        None
    }

    pub(crate) fn word(self) -> &'static [u8]
        ensures { result.now ≡ basis_text self }
    {
        match self {
            GivenBasis::Yield => b"yield",
            GivenBasis::Price => b"price",
            GivenBasis::Rate => b"rate",
        }
    }
}

/// The texts of the terms of a trade, as an export writes them.
#[derive(Drop)]
pub struct TradeTexts {
    pub(crate) cusip: [u8; 9],
    pub(crate) side: Side,
    pub(crate) par: ArrayVec<u8, 32>,
    pub(crate) settle: ArrayVec<u8, 32>,
    pub(crate) basis: GivenBasis,
    pub(crate) value: ArrayVec<u8, 32>,
    pub(crate) fee: ArrayVec<u8, 32>,
}

impl Model for TradeTexts {
    ghost use Rattle.std.specs.Prelude.{ℕ, List, [], ◌∷◌};
    ghost use Rattle.muni_export.specs.Words.{side_word};
    ghost use Rattle.muni_check_rows.specs.Basis.{basis_text};

    ghost Value = { List (List ℕ) };

    ghost view = { λ texts. texts.cusip ∷ side_word texts.side ∷ texts.par.items ∷ texts.settle.items
        ∷ basis_text texts.basis ∷ texts.value.items ∷ texts.fee.items ∷ [] };
}

impl TradeTexts {
    /// Those of a trade that is kept.
    #[tactic(auto, unfolding(muni_export::specs::Rows::terms_fields))]
    pub(crate) fn of(asked: &Asked) -> TradeTexts
        ensures { result ≡ terms_fields asked.now }
    {
        TradeTexts {
            cusip: asked.cusip,
            side: asked.side,
            par: print_par(asked.par),
            settle: print_day(asked.settle),
            basis: GivenBasis::of(&asked.given),
            value: print_given(asked.given),
            fee: print_fee(asked.fee),
        }
    }
}

fn print_par(par: Par) -> ArrayVec<u8, 32>
    ensures { result.items ≡ decimal par }
{
    let mut text = ArrayVec::new();
    par.print_into(&mut text);
    text
}

fn print_day(day: Day) -> ArrayVec<u8, 32>
    ensures { result.items ≡ day_text (civil day) }
{
    let mut text = ArrayVec::new();
    day.print_into(&mut text);
    text
}

fn print_given(given: Given) -> ArrayVec<u8, 32>
    ensures { result.items ≡ value_text given }
{
    let mut text = ArrayVec::new();
    print_value(given, &mut text);
    text
}

fn print_fee(fee: Fee) -> ArrayVec<u8, 32>
    ensures { result.items ≡ fee_text fee }
{
    let mut text = ArrayVec::new();
    fee.print_into(&mut text);
    text
}

/// What a row asks for by itself: a buy without a commission unless it says otherwise. One with terms of its own needs
/// no CUSIP.
///
/// The first column that does not read is told, in the order of `Column`, or one that is needed and not there.
#[tactic(auto, unfolding(crate::specs::Trade::asked_in))]
pub(crate) fn read_asked(fields: &Fields<'_>, has_terms: bool) -> Result<Asked, RowFault>
    ensures { result ≡ spec.asked_in fields.now.columns.now.items (fields_of fields.now.record.now) has_terms }
{
    let cusip = read_cusip_or(fields, cusip_for(has_terms))?;
    let side = read_side_or(fields, Side::Buy)?;
    let par = read_par_or(fields, None)?;
    let settle = read_settle_or(fields, None)?;
    let given = read_given_in(fields)?;
    let fee = read_fee_or(fields, Fee::ZERO)?;
    Ok(Asked {
        cusip,
        par,
        settle,
        given,
        side,
        fee,
    })
}

fn cusip_for(has_terms: bool) -> Option<[u8; 9]>
    ensures { result ≡ spec.cusip_for has_terms }
{
    if has_terms { Some(NO_CUSIP) } else { None }
}

/// The texts of the terms of a trade: those that a row states, and else the kept ones.
///
/// The first column that does not read is told, in the order of `Column`.
#[tactic(auto, unfolding(crate::specs::Trade::trade_texts_in))]
pub(crate) fn read_trade_texts(fields: &Fields<'_>, kept: &Asked) -> Result<TradeTexts, RowFault>
    ensures { result ≡ spec.trade_texts_in fields.now.columns.now.items (fields_of fields.now.record.now) kept.now }
{
    let cusip = read_cusip_or(fields, Some(kept.cusip))?;
    let side = read_side_or(fields, kept.side)?;
    let par = read_par_or(fields, Some(kept.par))?;
    let settle = read_settle_or(fields, Some(kept.settle))?;
    let basis = read_basis_or(fields, &kept.given)?;
    let value = read_value_or(fields, kept.given, basis)?;
    let fee = read_fee_or(fields, kept.fee)?;
    Ok(TradeTexts {
        cusip,
        side,
        par: print_par(par),
        settle: print_day(settle),
        basis,
        value: print_given(value),
        fee: print_fee(fee),
    })
}

fn read_cusip_or(fields: &Fields<'_>, other: Option<[u8; 9]>) -> Result<[u8; 9], RowFault>
    ensures { result ≡ spec.needed_in fields.now.columns.now.items (fields_of fields.now.record.now) Column.Cusip other cusip_reading }
{
    let text = fields.text(Column::Cusip);
    let cusip = if text.is_empty() {
        other
    } else {
        read_cusip(text)
    };
    cusip.ok_or(fields.fault(Column::Cusip))
}

fn read_side_or(fields: &Fields<'_>, other: Side) -> Result<Side, RowFault>
    ensures { result ≡ spec.needed_in fields.now.columns.now.items (fields_of fields.now.record.now) Column.Side (Some other) side_reading }
{
    let text = fields.text(Column::Side);
    let side = if text.is_empty() {
        Some(other)
    } else {
        read_side(text)
    };
    side.ok_or(fields.fault(Column::Side))
}

fn read_par_or(fields: &Fields<'_>, other: Option<Par>) -> Result<Par, RowFault>
    ensures { result ≡ spec.needed_in fields.now.columns.now.items (fields_of fields.now.record.now) Column.Par other (λ text. result_ok (par_reading text)) }
{
    let text = fields.text(Column::Par);
    let par = if text.is_empty() {
        other
    } else {
        Par::read(text).ok()
    };
    par.ok_or(fields.fault(Column::Par))
}

fn read_settle_or(fields: &Fields<'_>, other: Option<Day>) -> Result<Day, RowFault>
    ensures { result ≡ spec.needed_in fields.now.columns.now.items (fields_of fields.now.record.now) Column.Settle other day_in }
{
    let text = fields.text(Column::Settle);
    let settle = if text.is_empty() {
        other
    } else {
        Day::read(text).ok()
    };
    settle.ok_or(fields.fault(Column::Settle))
}

fn read_fee_or(fields: &Fields<'_>, other: Fee) -> Result<Fee, RowFault>
    ensures { result ≡ spec.needed_in fields.now.columns.now.items (fields_of fields.now.record.now) Column.Fee (Some other) (λ text. result_ok (fee_reading text)) }
{
    let text = fields.text(Column::Fee);
    let fee = if text.is_empty() {
        Some(other)
    } else {
        Fee::read(text).ok()
    };
    fee.ok_or(fields.fault(Column::Fee))
}

// What is given, in the columns of the basis and of the value.
fn read_given_in(fields: &Fields<'_>) -> Result<Given, RowFault>
    ensures { result ≡ spec.given_in fields.now.columns.now.items (fields_of fields.now.record.now) }
{
    let basis = fields.text(Column::Basis);
    if !is_basis(basis) {
        return Err(fields.fault(Column::Basis));
    }
    read_given(basis, fields.text(Column::Value)).ok_or(fields.fault(Column::Value))
}

fn is_basis(text: &[u8]) -> bool
    ensures { result ≡ is_basis text.now }
{
    text == b"yield".as_slice() || text == b"price".as_slice() || text == b"rate".as_slice()
}

// The basis that a row states, or the kept one.
fn read_basis_or(fields: &Fields<'_>, kept: &Given) -> Result<GivenBasis, RowFault>
    ensures { result ≡ spec.needed_in fields.now.columns.now.items (fields_of fields.now.record.now) Column.Basis (Some (basis_of kept.now)) basis_reading }
{
    let text = fields.text(Column::Basis);
    let basis = if text.is_empty() {
        Some(GivenBasis::of(kept))
    } else {
        GivenBasis::read(text)
    };
    basis.ok_or(fields.fault(Column::Basis))
}

// The value that a row states on a basis, or the kept one.
fn read_value_or(fields: &Fields<'_>, kept: Given, basis: GivenBasis) -> Result<Given, RowFault>
    ensures { result ≡ spec.needed_in fields.now.columns.now.items (fields_of fields.now.record.now) Column.Value (Some kept) (given_reading (basis_text basis)) }
{
    let text = fields.text(Column::Value);
    let given = if text.is_empty() {
        Some(kept)
    } else {
        read_given(basis.word(), text)
    };
    given.ok_or(fields.fault(Column::Value))
}
