//! What a body asks for: the members of a JSON object.

ghost use Rattle.std.specs.Prelude.{◌≡◌, Some, None, Err, IfOk, IfErr, IfSome, option_map};
ghost use Rattle.serde_json.specs.Find.{get};
ghost use Rattle.serde_json.specs.View.{view};
ghost use Rattle.muni_wire_body.specs.Body as spec;
ghost use Rattle.muni_wire_body.specs.Faults.{IsOfBody};
ghost use Rattle.muni_wire_body.specs.Members as members;

use crate::calls::read_calls;
use crate::stated::read_row;
use crate::{Bad, Form, Request, WireFault};
use arrayvec::ArrayVec;
use muni_days::{Basis, Day};
use muni_dec::{Coupon, Fee, Par};
use muni_msg::{
    Asked, Command, DeskName, Given, Key, Reference, Shown, Side, Terms, read_basis_field,
    read_coupon, read_cusip, read_fee_field, read_given, read_issue_name, read_kind, read_side,
    read_version_number,
};
use muni_terms::{IssueRow, Kind};
use serde_json::Value;
use std::alloc::Global;

/// What a body of this form asks for.
pub fn read_body(alloc: Global, form: Form, body: &[u8]) -> Result<Request, WireFault>
    // promise 6: a body is read as the request of its form, with the columns of a check in their order
    ensures whole { IfOk result (λ request. spec.request_of form body.now ≡ Some request) }
    ensures bad { (kind : _) → result ≡ Err (WireFault.Bad kind)
        → (kind ≡ Bad.BadRequest) × (spec.request_of form body.now ≡ None) }
    ensures others { IfErr result (λ fault. IsOfBody fault) }
{
    let value = read_value(alloc, body)?;
    if form == Form::Check {
        return Ok(Request::Check(read_row(alloc, &value)?));
    }
    match read_command(form, &value) {
        Some(command) => Ok(Request::Book(command)),
        None => Err(WireFault::Bad(Bad::BadRequest)),
    }
}

fn read_value(alloc: Global, body: &[u8]) -> Result<Value, WireFault>
    ensures value { IfOk result (λ value. spec.data_of body.now ≡ Some (view value)) }
    ensures bad { (kind : _) → result ≡ Err (WireFault.Bad kind)
        → (kind ≡ Bad.BadRequest) × (spec.data_of body.now ≡ None) }
    ensures others { IfErr result (λ fault. IsOfBody fault) }
{
    match Value::from_slice(alloc, body) {
        Ok(value) => Ok(value),
        Err(error) => {
            if error.is_memory() {
                Err(WireFault::NoMemory)
            } else {
                Err(WireFault::Bad(Bad::BadRequest))
            }
        }
    }
}

#[tactic(auto, unfolding(crate::specs::Body::command_in))]
fn read_command(form: Form, value: &Value) -> Option<Command>
    ensures { result ≡ spec.command_in form (view value.now) }
{
    match form {
        Form::Issue => Some(Command::AddIssue(issue(value)?)),
        Form::Amendment => Some(Command::Amend {
            number: number(value)?,
            row: issue(value)?,
        }),
        Form::Trade => Some(Command::Enter {
            key: key(value)?,
            terms: terms(value)?,
            issue_number: issue_number(value)?,
        }),
        Form::Correction => Some(Command::Correct {
            key: key(value)?,
            number: number(value)?,
            terms: terms(value)?,
            issue_number: issue_number(value)?,
        }),
        Form::Cancellation => Some(Command::Cancel {
            key: key(value)?,
            number: number(value)?,
        }),
        Form::Quote => Some(Command::Quote {
            asked: asked(value, Side::Buy, Fee::new(0))?,
            shown: shown(value)?,
        }),
        // A check asks the book for nothing.
        Form::Check => None,
    }
}

// What is to be shown after the figures.
#[tactic(auto, unfolding(crate::specs::Body::shown_in))]
fn shown(value: &Value) -> Option<Shown>
    ensures { result ≡ spec.shown_in (view value.now) }
{
    Some(Shown {
        each: wanted(value, "each")?,
        risk: wanted(value, "risk")?,
    })
}

// Whether something is wanted: it is not if its member is left out.
fn wanted(value: &Value, name: &str) -> Option<bool>
    ensures { result ≡ spec.wanted_in (get name.now (view value.now)) }
{
    match value.get(name) {
        Some(found) => found.as_bool(),
        None => Some(false),
    }
}

/// The text of a member.
pub(crate) fn member<'a>(value: &'a Value, name: &str) -> Option<&'a [u8]>
    ensures { option_map (λ text. text.now) result ≡ members.member name.now (view value.now) }
{
    let text = value.get(name)?.as_str()?;
    Some(text.as_bytes())
}

// The text of a member that may be left out, and reads as an empty one then.
fn optional<'a>(value: &'a Value, name: &str) -> Option<&'a [u8]>
    ensures { option_map (λ text. text.now) result ≡ members.optional name.now (view value.now) }
{
    let Some(found) = value.get(name) else {
        return Some(b"");
    };
    let text = found.as_str()?;
    Some(text.as_bytes())
}

fn key(value: &Value) -> Option<Key>
    ensures { result ≡ spec.key_in (view value.now) }
{
    Some(Key {
        desk: desk(value)?,
        reference: reference(value)?,
    })
}

fn desk(value: &Value) -> Option<DeskName>
    ensures { result ≡ spec.desk_in (view value.now) }
{
    DeskName::read(member(value, "desk")?).ok()
}

fn reference(value: &Value) -> Option<Reference>
    ensures { result ≡ spec.reference_in (view value.now) }
{
    Reference::read(member(value, "reference")?).ok()
}

fn number(value: &Value) -> Option<u32>
    ensures { result ≡ spec.number_in (view value.now) }
{
    read_version_number(member(value, "number")?)
}

// The number of the terms of its issue that a trade chooses, if it chooses one.
fn issue_number(value: &Value) -> Option<Option<u32>>
    ensures { result ≡ spec.issue_number_in (view value.now) }
{
    let Some(found) = value.get("issue") else {
        return Some(None);
    };
    let text = found.as_str()?;
    let number = read_version_number(text.as_bytes())?;
    Some(Some(number))
}

// The terms of a trade.
#[tactic(auto, unfolding(crate::specs::Body::terms_in))]
fn terms(value: &Value) -> Option<Terms>
    ensures { result ≡ spec.terms_in (view value.now) }
{
    let side = side(value)?;
    let fee = fee(value)?;
    Some(Terms {
        asked: asked(value, side, fee)?,
    })
}

fn side(value: &Value) -> Option<Side>
    ensures { result ≡ spec.side_in (view value.now) }
{
    read_side(member(value, "side")?)
}

#[tactic(auto, unfolding(crate::specs::Body::fee_in))]
fn fee(value: &Value) -> Option<Fee>
    ensures { result ≡ spec.fee_in (view value.now) }
{
    read_fee_field(optional(value, "fee")?)
}

// What is asked on a side with a commission.
#[tactic(auto, unfolding(crate::specs::Body::asked_in))]
fn asked(value: &Value, side: Side, fee: Fee) -> Option<Asked>
    ensures { result ≡ spec.asked_in side fee (view value.now) }
{
    Some(Asked {
        cusip: cusip(value)?,
        par: par(value)?,
        settle: date(value, "settle")?,
        given: given(value)?,
        side,
        fee,
    })
}

fn cusip(value: &Value) -> Option<[u8; 9]>
    ensures { result ≡ spec.cusip_in (view value.now) }
{
    read_cusip(member(value, "cusip")?)
}

fn par(value: &Value) -> Option<Par>
    ensures { result ≡ spec.par_in (view value.now) }
{
    Par::read(member(value, "par")?).ok()
}

fn date(value: &Value, name: &str) -> Option<Day>
    ensures { result ≡ spec.date_in name.now (view value.now) }
{
    Day::read(member(value, name)?).ok()
}

fn given(value: &Value) -> Option<Given>
    ensures { result ≡ spec.given_in (view value.now) }
{
    read_given(member(value, "basis")?, member(value, "value")?)
}

// The terms of an issue.
fn issue(value: &Value) -> Option<IssueRow>
    ensures { result ≡ spec.issue_in (view value.now) }
{
    let basis = basis(value)?;
    issue_with(value, basis)
}

#[tactic(auto, unfolding(crate::specs::Body::basis_in))]
fn basis(value: &Value) -> Option<Basis>
    ensures { result ≡ spec.basis_in (view value.now) }
{
    read_basis_field(optional(value, "days")?)
}

// The terms of an issue with a day count basis.
#[tactic(auto, unfolding(crate::specs::Body::issue_with))]
fn issue_with(value: &Value, basis: Basis) -> Option<IssueRow>
    ensures { result ≡ spec.issue_with basis (view value.now) }
{
    let (kind, dated, maturity) = calendar(value)?;
    Some(IssueRow {
        cusip: cusip(value)?,
        name: name(value)?,
        kind,
        basis,
        dated,
        maturity,
        coupon: coupon(value, kind)?,
        calls: read_calls(value)?,
    })
}

fn name(value: &Value) -> Option<ArrayVec<u8, 60>>
    ensures { result ≡ spec.name_in (view value.now) }
{
    read_issue_name(member(value, "name")?)
}

fn coupon(value: &Value, kind: Kind) -> Option<Coupon>
    ensures { result ≡ spec.coupon_in kind (view value.now) }
{
    read_coupon(kind, optional(value, "coupon")?)
}

// How an issue pays and when: its kind, its dated date and its maturity.
#[tactic(auto, unfolding(crate::specs::Body::calendar_in))]
fn calendar(value: &Value) -> Option<(Kind, Day, Day)>
    ensures { result ≡ spec.calendar_in (view value.now) }
{
    let kind = kind(value)?;
    let dated = date(value, "dated")?;
    let maturity = date(value, "maturity")?;
    Some((kind, dated, maturity))
}

// A kind. A first interest date is given exactly if it is periodic.
fn kind(value: &Value) -> Option<Kind>
    ensures { result ≡ spec.kind_in (view value.now) }
{
    let text = member(value, "kind")?;
    let Some(first) = value.get("first") else {
        return read_kind(text, None);
    };
    let first = first.as_str()?;
    read_kind(text, Some(first.as_bytes()))
}
