//! The lines of figures, their header and their total.

ghost use Rattle.std.specs.Prelude.{◌≡◌, ◌+◌, ◌≤◌, ◌++◌, ◌∷◌, [], length, decimal, OnOk};
ghost use Rattle.std.specs.Fmt.{signed_decimal};
ghost use Rattle.arrayvec.specs.ArrayVec.{array_vec_len};
ghost use Rattle.muni_confirm.specs.Figures.{label_text};
ghost use Rattle.muni_dec.specs.Decimal.{decimal_text};
ghost use Rattle.muni_dec.specs.Values.{price_text, printed_yield_text};
ghost use Rattle.muni_import.specs.Line.{behind_commas};
ghost use Rattle.muni_figures.specs.Line as spec;

use crate::said::{FiguresSaid, RiskColumns};
use crate::tally::Tally;
use arrayvec::ArrayVec;
use itoa::Buffer;
use muni_dec::text::push;
use muni_dec::{Price, Yield3};
use muni_edge::NoMemory;
use muni_import::line::{push_bad, push_day, push_field, push_money, push_price, push_refused};
use muni_marks::{push_count, push_sum};
use muni_msg::Figures;
use muni_risk::{Risk, print_millionths, print_thousandths};
use muni_terms::Label;

const NAMES: &[u8] =
    b"place,answer,cusip,price,yield,redemption,redemption_price,redemption_label,days,principal,accrued,commission,total\n";

const NAMES_WITH_RISK: &[u8] =
    b"place,answer,cusip,price,yield,redemption,redemption_price,redemption_label,days,principal,accrued,commission,total,current_yield,duration,convexity,dv01\n";

/// The names of the columns, as a line.
pub(crate) fn column_names(has_risk: bool) -> &'static [u8]
    ensures { result.now ≡ spec.names_line has_risk }
{
    if has_risk { NAMES_WITH_RISK } else { NAMES }
}

/// Appends the line of a row, with its line end.
///
/// `place,figures,CUSIP,PRICE,YIELD,REDEMPTION,REDEMPTION PRICE,LABEL,DAYS,PRINCIPAL,ACCRUED,COMMISSION,TOTAL`,
/// `place,refused,NUMBER,NAME`, `place,bad,1`, or `place,bad,2,COLUMN`. The price and the yield have three
/// decimals, the redemption price has six, and money is in dollars. If sensitivities are asked for,
/// `,CURRENT,DURATION,CONVEXITY,DV01` follow the total, with three decimals, and DV01 with six. A column that
/// does not apply is empty.
pub(crate) fn add_line(text: &mut Vec<u8>, place: u64, said: &FiguresSaid) -> Result<(), NoMemory>
    requires { spec.HasName said.now }
    ensures { OnOk result (text.new.items ≡ text.old.items ++ spec.said_line place said.now) }
{
    add_place(text, place)?;
    add_fields(text, said)?;
    text.extend_from_slice(b"\n")?;
    Ok(())
}

#[tactic(auto, unfolding(crate::specs::Line::said_fields))]
fn add_fields(text: &mut Vec<u8>, said: &FiguresSaid) -> Result<(), NoMemory>
    requires { spec.HasName said.now }
    ensures { OnOk result (text.new.items ≡ text.old.items ++ spec.said_fields said.now) }
{
    let mut part = ArrayVec::new();
    match said {
        FiguresSaid::Priced {
            cusip,
            figures,
            risk,
        } => {
            add_figures(text, cusip, figures)?;
            return add_risk(text, risk);
        }
        FiguresSaid::Refused { number } => push_refused(&mut part, *number),
        FiguresSaid::Bad(fault) => push_bad(&mut part, *fault),
    }
    text.extend_from_slice(&part)?;
    Ok(())
}

fn add_figures(text: &mut Vec<u8>, cusip: &[u8; 9], figures: &Figures) -> Result<(), NoMemory>
    ensures { OnOk result (text.new.items ≡ text.old.items ++ spec.figure_fields cusip.now figures.now) }
{
    let mut part = ArrayVec::new();
    push_prices(&mut part, cusip, figures);
    push_redemption(&mut part, figures);
    text.extend_from_slice(&part)?;
    part.clear();
    push_days(&mut part, figures.days);
    push_amounts(&mut part, figures);
    text.extend_from_slice(&part)?;
    Ok(())
}

// The sensitivities, as far as they are asked for.
#[tactic(auto, unfolding(crate::specs::Line::risk_fields))]
fn add_risk(text: &mut Vec<u8>, columns: &RiskColumns) -> Result<(), NoMemory>
    ensures { OnOk result (text.new.items ≡ text.old.items ++ spec.risk_fields columns.now) }
{
    let mut part = ArrayVec::new();
    match columns {
        RiskColumns::LeftOut => {}
        RiskColumns::Shown(None) => push(&mut part, b",,,,"),
        RiskColumns::Shown(Some(risk)) => push_risk(&mut part, risk),
    }
    text.extend_from_slice(&part)?;
    Ok(())
}

fn add_place(text: &mut Vec<u8>, place: u64) -> Result<(), NoMemory>
    ensures { OnOk result (text.new.items ≡ text.old.items ++ decimal place) }
{
    let mut buffer = Buffer::new();
    text.extend_from_slice(buffer.format(place).as_bytes())?;
    Ok(())
}

#[tactic(auto, unfolding(crate::specs::Line::price_fields))]
fn push_prices(text: &mut ArrayVec<u8, 256>, cusip: &[u8; 9], figures: &Figures)
    requires { array_vec_len text.old ≤ 0 }
    ensures items { text.new.items ≡ text.old.items ++ spec.price_fields cusip.now figures.now }
    ensures len { array_vec_len text.new ≤ 80 }
{
    push_field(text, b"figures");
    push_field(text, cusip);
    push_price(text, &figures.price);
    push_yield(text, &figures.yld);
}

#[tactic(auto, unfolding(crate::specs::Line::redemption_fields))]
fn push_redemption(text: &mut ArrayVec<u8, 256>, figures: &Figures)
    requires { array_vec_len text.old ≤ 80 }
    ensures items { text.new.items ≡ text.old.items ++ spec.redemption_fields figures.now }
    ensures len { array_vec_len text.new ≤ 140 }
{
    push_day(text, figures.redemption);
    push_redemption_price(text, &figures.at);
    push_field(text, label(&figures.label));
}

#[tactic(auto, unfolding(crate::specs::Line::money_fields))]
fn push_amounts(text: &mut ArrayVec<u8, 256>, figures: &Figures)
    requires { array_vec_len text.old ≤ 20 }
    ensures items { text.new.items ≡ text.old.items ++ spec.money_fields figures.now }
    ensures len { array_vec_len text.new ≤ 140 }
{
    push_money(text, &figures.principal);
    push_money(text, &figures.accrued);
    push_money(text, &figures.commission);
    push_money(text, &figures.total);
}

#[tactic(auto, unfolding(crate::specs::Line::sensitivity_fields))]
fn push_risk(text: &mut ArrayVec<u8, 256>, risk: &Risk)
    requires { array_vec_len text.old ≤ 0 }
    ensures items { text.new.items ≡ text.old.items ++ spec.sensitivity_fields risk.now }
    ensures len { array_vec_len text.new ≤ 120 }
{
    push_current(text, risk.current_yield);
    push_thousandths(text, risk.sensitivities.duration);
    push_thousandths(text, risk.sensitivities.convexity);
    push_millionths(text, risk.sensitivities.dv01);
}

fn push_current(text: &mut ArrayVec<u8, 256>, current: Option<u64>)
    requires { array_vec_len text.old ≤ 0 }
    ensures items { text.new.items ≡ text.old.items ++ behind_commas (spec.current_text current ∷ []) }
    ensures len { array_vec_len text.new ≤ array_vec_len text.old + 30 }
{
    match current {
        Some(units) => push_thousandths(text, units),
        None => push_field(text, b""),
    }
}

fn push_thousandths(text: &mut ArrayVec<u8, 256>, units: u64)
    requires { array_vec_len text.old ≤ 200 }
    ensures items { text.new.items ≡ text.old.items ++ behind_commas (decimal_text 3 units ∷ []) }
    ensures len { array_vec_len text.new ≤ array_vec_len text.old + 30 }
{
    let mut value = ArrayVec::new();
    print_thousandths(units, &mut value);
    push_field(text, &value);
}

fn push_millionths(text: &mut ArrayVec<u8, 256>, units: u64)
    requires { array_vec_len text.old ≤ 200 }
    ensures items { text.new.items ≡ text.old.items ++ behind_commas (decimal_text 6 units ∷ []) }
    ensures len { array_vec_len text.new ≤ array_vec_len text.old + 30 }
{
    let mut value = ArrayVec::new();
    print_millionths(units, &mut value);
    push_field(text, &value);
}

fn push_yield(text: &mut ArrayVec<u8, 256>, yld: &Yield3)
    requires { array_vec_len text.old ≤ 200 }
    ensures items { text.new.items
        ≡ text.old.items ++ behind_commas (printed_yield_text yld.now ∷ []) }
    ensures len { array_vec_len text.new ≤ array_vec_len text.old + 30 }
{
    let mut value = ArrayVec::new();
    yld.print_into(&mut value);
    push_field(text, &value);
}

fn push_redemption_price(text: &mut ArrayVec<u8, 256>, price: &Price)
    requires { array_vec_len text.old ≤ 200 }
    ensures items { text.new.items ≡ text.old.items ++ behind_commas (price_text price.now ∷ []) }
    ensures len { array_vec_len text.new ≤ array_vec_len text.old + 30 }
{
    let mut value = ArrayVec::new();
    price.print_into(&mut value);
    push_field(text, &value);
}

fn push_days(text: &mut ArrayVec<u8, 256>, days: i32)
    requires { array_vec_len text.old ≤ 200 }
    ensures items { text.new.items ≡ text.old.items ++ behind_commas (signed_decimal days ∷ []) }
    ensures len { array_vec_len text.new ≤ array_vec_len text.old + 12 }
{
    let mut buffer = Buffer::new();
    push_field(text, buffer.format(days).as_bytes());
}

fn label(label: &Label) -> &'static [u8]
    ensures words { result.now ≡ label_text label.now }
    ensures short { length result.now ≤ 10 }
{
    match label {
        Label::Maturity => b"MATURITY",
        Label::ParOption => b"PAR OPTION",
        Label::Call => b"CALL",
        Label::Called => b"CALLED",
    }
}

/// Replaces the text by the line of the total: how many rows have figures, the sum of their totals in
/// dollars, and how many rows there are.
#[tactic(auto, unfolding(crate::specs::Line::total_line))]
pub(crate) fn total_line(tally: &Tally, text: &mut ArrayVec<u8, 256>)
    ensures { text.new.items ≡ spec.total_line tally.now.priced tally.now.sum tally.now.rows }
{
    text.clear();
    push(text, b"TOTAL");
    push_count(text, tally.priced);
    push_sum(text, tally.sum);
    push_count(text, tally.rows);
    text.push(b'\n');
}
