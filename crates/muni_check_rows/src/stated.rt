//! The figures that a row states, as another firm printed them.

ghost use Rattle.std.specs.Prelude.{◌≡◌, ◌<◌, ◌≤◌, ◌*◌, ◌^◌, IfSome};
ghost use Rattle.csv.specs.Records.{fields_of};
ghost use Rattle.muni_check_rows.specs.StatedFigures as spec;
ghost use Rattle.muni_msg.specs.Fields.{day_in};

use crate::row::Fields;
use muni_days::Day;
use muni_dec::digits::read_number;
use muni_dec::text::find;
use muni_dec::{Cents, Price3, Yield3};
use muni_import::RowFault;
use muni_msg::Column;
use muni_readings::Stated;

/// The figures that a row states. One whose column is empty or not there is not stated.
#[tactic(auto, unfolding(crate::specs::StatedFigures::stated_in))]
pub(crate) fn read_stated(fields: &Fields<'_>) -> Result<Stated, RowFault>
    ensures { result ≡ spec.stated_in fields.now.columns.now.items (fields_of fields.now.record.now) }
{
    let price = read_price(fields)?;
    let yld = read_yield(fields)?;
    let redemption = read_redemption(fields)?;
    let days = read_days(fields)?;
    let principal = read_money(fields, Column::Principal)?;
    let accrued = read_money(fields, Column::Accrued)?;
    let total = read_money(fields, Column::Total)?;
    Ok(Stated {
        price,
        yld,
        redemption,
        days,
        principal,
        accrued,
        total,
    })
}

/// Whether a row states a figure.
pub fn has_figure(stated: &Stated) -> bool
    ensures { result ≡ spec.has_figure stated.now }
{
    stated.price.is_some()
        || stated.yld.is_some()
        || stated.redemption.is_some()
        || stated.days.is_some()
        || stated.principal.is_some()
        || stated.accrued.is_some()
        || stated.total.is_some()
}

fn read_price(fields: &Fields<'_>) -> Result<Option<Price3>, RowFault>
    ensures { result ≡ spec.figure_in fields.now.columns.now.items (fields_of fields.now.record.now) Column.Price spec.price_in }
{
    let text = fields.text(Column::Price);
    if text.is_empty() {
        return Ok(None);
    }
    match price_in(text) {
        Some(price) => Ok(Some(price)),
        None => Err(fields.fault(Column::Price)),
    }
}

fn price_in(text: &[u8]) -> Option<Price3>
    ensures { result ≡ spec.price_in text.now }
{
    Some(Price3::new(decimal_in(text, 3)?))
}

fn read_yield(fields: &Fields<'_>) -> Result<Option<Yield3>, RowFault>
    ensures { result ≡ spec.figure_in fields.now.columns.now.items (fields_of fields.now.record.now) Column.Yield spec.yield_in }
{
    let text = fields.text(Column::Yield);
    if text.is_empty() {
        return Ok(None);
    }
    match yield_in(text) {
        Some(yld) => Ok(Some(yld)),
        None => Err(fields.fault(Column::Yield)),
    }
}

fn yield_in(text: &[u8]) -> Option<Yield3>
    ensures { result ≡ spec.yield_in text.now }
{
    Yield3::of(signed_in(text)?)
}

fn signed_in(text: &[u8]) -> Option<i64>
    ensures { result ≡ spec.signed_in text.now }
{
    match text.split_first() {
        Some((b'-', magnitude)) => Some(-(decimal_in(magnitude, 3)? as i64)),
        _ => Some(decimal_in(text, 3)? as i64),
    }
}

fn read_redemption(fields: &Fields<'_>) -> Result<Option<Day>, RowFault>
    ensures { result ≡ spec.figure_in fields.now.columns.now.items (fields_of fields.now.record.now) Column.Redemption day_in }
{
    let text = fields.text(Column::Redemption);
    if text.is_empty() {
        return Ok(None);
    }
    match Day::read(text) {
        Ok(day) => Ok(Some(day)),
        Err(_) => Err(fields.fault(Column::Redemption)),
    }
}

fn read_days(fields: &Fields<'_>) -> Result<Option<i32>, RowFault>
    ensures { result ≡ spec.figure_in fields.now.columns.now.items (fields_of fields.now.record.now) Column.Days spec.days_in }
{
    let text = fields.text(Column::Days);
    if text.is_empty() {
        return Ok(None);
    }
    match days_in(text) {
        Some(days) => Ok(Some(days)),
        None => Err(fields.fault(Column::Days)),
    }
}

fn days_in(text: &[u8]) -> Option<i32>
    ensures { result ≡ spec.days_in text.now }
{
    match read_number(text, 3, 0, 999) {
        Some(days) => Some(days as i32),
        None => None,
    }
}

fn read_money(fields: &Fields<'_>, column: Column) -> Result<Option<Cents>, RowFault>
    ensures { result ≡ spec.figure_in fields.now.columns.now.items (fields_of fields.now.record.now) column spec.money_in }
{
    let text = fields.text(column);
    if text.is_empty() {
        return Ok(None);
    }
    match money_in(text) {
        Some(money) => Ok(Some(money)),
        None => Err(fields.fault(column)),
    }
}

fn money_in(text: &[u8]) -> Option<Cents>
    ensures { result ≡ spec.money_in text.now }
{
    Some(Cents::new(decimal_in(text, 2)?))
}

// A decimal of at most so many places, in units of the last one.
#[tactic(auto, unfolding(crate::specs::StatedFigures::decimal_in))]
fn decimal_in(text: &[u8], places: usize) -> Option<u64>
    requires { places ≤ 3 }
    ensures value { result ≡ spec.decimal_in places text.now }
    ensures range { IfSome result (λ units. units < 2 * 10 ^ 18) }
{
    match find(text, b'.') {
        None => Some(in_places(whole_in(text)?, places)),
        Some(point) => {
            let whole = whole_in(&text[..point])?;
            let fraction = fraction_in(&text[point + 1..], places)?;
            Some(in_places(whole, places) + fraction)
        }
    }
}

fn whole_in(digits: &[u8]) -> Option<u64>
    ensures value { result ≡ spec.whole_in digits.now }
    ensures range { IfSome result (λ n. n < 10 ^ 15) }
{
    read_number(digits, 15, 0, 999_999_999_999_999)
}

// Digits after a point.
fn fraction_in(digits: &[u8], places: usize) -> Option<u64>
    requires { places ≤ 3 }
    ensures value { result ≡ spec.fraction_in places digits.now }
    ensures range { IfSome result (λ units. units < 10 ^ 6) }
{
    let fraction = read_number(digits, places, 0, 999)?;
    Some(in_places(fraction, places - digits.len()))
}

// A number with so many zeros after it.
fn in_places(number: u64, places: usize) -> u64
    requires places { places ≤ 3 }
    requires few { number < 10 ^ 15 }
    ensures value { result ≡ number * 10 ^ places }
    ensures range { result ≤ 1_000 * number }
{
    match places {
        0 => number,
        1 => number * 10,
        2 => number * 100,
        _ => number * 1_000,
    }
}
