//! For callers outside; the program goes by `TradeRow::trade`.

ghost use Rattle.std.specs.Prelude.{◌≡◌};
ghost use Rattle.muni_store_rows.specs.Version as spec;

use crate::version::{AskedRow, FigureRow, TradeRow};
use muni_msg::{Key, Version};

/// The trade, the number and the version with these columns, if there are such. There were no columns
/// for a fee and a commission when there was none.
pub fn version_1(
    desk: &str,
    reference: &str,
    number: i64,
    act: i64,
    cusip: &str,
    side: i64,
    par: i64,
    settle: &str,
    basis: i64,
    value: i64,
    price: i64,
    yld: i64,
    redemption: &str,
    at_price: i64,
    label: i64,
    days: i64,
    principal: i64,
    accrued: i64,
    total: i64,
) -> Option<(Key, u32, Version)>
    // promise 8: those of the first tables: no fee and no commission, by terms of number 1
    ensures read { result ≡ spec.trade_of (spec.columns_1 desk.now reference.now number act cusip.now side
        par settle.now basis value price yld redemption.now at_price label days principal accrued total) }
{
    version_2(
        desk, reference, number, act, cusip, side, par, settle, basis, value, price, yld,
        redemption, at_price, label, days, principal, accrued, total, 0, 0,
    )
}

/// The trade, the number and the version with these columns, if there are such. There was no column for the
/// number of the terms of the issue when an issue had its first terms alone.
pub fn version_2(
    desk: &str,
    reference: &str,
    number: i64,
    act: i64,
    cusip: &str,
    side: i64,
    par: i64,
    settle: &str,
    basis: i64,
    value: i64,
    price: i64,
    yld: i64,
    redemption: &str,
    at_price: i64,
    label: i64,
    days: i64,
    principal: i64,
    accrued: i64,
    total: i64,
    fee: i64,
    commission: i64,
) -> Option<(Key, u32, Version)>
    // promise 8: those of tables before: by terms of number 1
    ensures read { result ≡ spec.trade_of (spec.columns_2 desk.now reference.now number act cusip.now side
        par settle.now basis value price yld redemption.now at_price label days principal accrued total
        fee commission) }
{
    version_3(
        desk, reference, number, act, cusip, side, par, settle, basis, value, price, yld,
        redemption, at_price, label, days, principal, accrued, total, fee, commission, 1,
    )
}

/// The trade, the number and the version with these columns, if there are such.
pub fn version_3(
    desk: &str,
    reference: &str,
    number: i64,
    act: i64,
    cusip: &str,
    side: i64,
    par: i64,
    settle: &str,
    basis: i64,
    value: i64,
    price: i64,
    yld: i64,
    redemption: &str,
    at_price: i64,
    label: i64,
    days: i64,
    principal: i64,
    accrued: i64,
    total: i64,
    fee: i64,
    commission: i64,
    issue: i64,
) -> Option<(Key, u32, Version)>
    ensures read { result ≡ spec.trade_of (spec.columns_3 desk.now reference.now number act cusip.now side
        par settle.now basis value price yld redemption.now at_price label days principal accrued total
        fee commission issue) }
{
    let asked = AskedRow {
        cusip: cusip.as_bytes(),
        side,
        par,
        settle: settle.as_bytes(),
        basis,
        value,
        fee,
    };
    let figures = FigureRow {
        price,
        yld,
        redemption: redemption.as_bytes(),
        at_price,
        label,
        days,
        principal,
        accrued,
        total,
        commission,
    };
    let row = TradeRow {
        desk: desk.as_bytes(),
        reference: reference.as_bytes(),
        number,
        act,
        asked,
        figures,
        issue,
    };
    row.trade()
}
