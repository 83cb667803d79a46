//! The calls of an issue in a body.

ghost use Rattle.std.specs.Prelude.{◌≡◌, ◌≤◌, length, map, option_map};
ghost use Rattle.serde_json.specs.View.{view};
ghost use Rattle.muni_wire_body.specs.Calls as spec;

use crate::body::member;
use arrayvec::ArrayVec;
use muni_days::Day;
use muni_msg::read_call_price;
use muni_terms::Call;
use serde_json::Value;

/// At most 40 calls, and none if the member is left out.
pub(crate) fn read_calls(value: &Value) -> Option<ArrayVec<Call, 40>>
    ensures { option_map (λ calls. calls.items) result ≡ spec.calls_in (view value.now) }
{
    let Some(found) = value.get("calls") else {
        return Some(ArrayVec::new());
    };
    let items = found.as_array()?;
    if items.len() > 40 {
        return None;
    }
    read_each(items.as_slice())
}

fn read_each(items: &[Value]) -> Option<ArrayVec<Call, 40>>
    requires { length items.now ≤ 40 }
    ensures { option_map (λ calls. calls.items) result ≡ spec.each_call (map view items.now) }
{
    let mut calls = ArrayVec::new();
    for item in items {
        calls.push(call(item)?);
    }
    Some(calls)
}

fn call(value: &Value) -> Option<Call>
    ensures { result ≡ spec.call_in (view value.now) }
{
    let date = Day::read(member(value, "date")?).ok()?;
    let (price, term) = read_call_price(member(value, "price")?)?;
    Some(Call { date, price, term })
}
