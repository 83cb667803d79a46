//! The length of a body, by the header fields.

ghost use Rattle.std.specs.Prelude.{◌≡◌, ◌≤◌, All, Some, IfOk, find, map, length, option_map};
ghost use Rattle.std.specs.List.{list_any, list_all};
ghost use Rattle.httparse.specs.Spans.{IsHeaderWithin, header_bytes};
ghost use Rattle.muni_wire.specs.BodyLength as spec;

use httparse::spans::HeaderSpan;
use muni_dec::digits::read_number;
use muni_wire_body::Bad;

/// The length of a body.
#[tactic(auto, unfolding(crate::specs::BodyLength::body_length))]
pub(crate) fn body_length(bytes: &[u8], fields: &[HeaderSpan]) -> Result<usize, Bad>
    requires { All (IsHeaderWithin (length bytes.now)) fields.now }
    ensures value { result ≡ spec.body_length (map (header_bytes bytes.now) fields.now) }
    ensures limit { IfOk result (λ size. size ≤ spec.body_limit) }
{
    if has(bytes, fields, b"transfer-encoding") {
        return Err(Bad::LengthRequired);
    }
    let Some(value) = first(bytes, fields, b"content-length") else {
        return Err(Bad::LengthRequired);
    };
    let Some(size) = read_length(value) else {
        return Err(Bad::BadRequest);
    };
    if !all_tell(bytes, fields, size) {
        return Err(Bad::BadRequest);
    }
    if size > 65_536 {
        return Err(Bad::TooLarge);
    }
    Ok(size as usize)
}

fn has(bytes: &[u8], fields: &[HeaderSpan], name: &[u8]) -> bool
    requires { All (IsHeaderWithin (length bytes.now)) fields.now }
    ensures { result
        ≡ list_any (spec.is_named name.now) (map (header_bytes bytes.now) fields.now) }
{
    for field in fields {
        if is_named(bytes, field, name) {
            return true;
        }
    }
    false
}

// The value of the first field of this name.
fn first<'b>(bytes: &'b [u8], fields: &[HeaderSpan], name: &[u8]) -> Option<&'b [u8]>
    requires { All (IsHeaderWithin (length bytes.now)) fields.now }
    ensures { option_map (λ value. value.now) result
        ≡ option_map (λ field. field.1)
        (find (spec.is_named name.now) (map (header_bytes bytes.now) fields.now)) }
{
    for field in fields {
        if is_named(bytes, field, name) {
            return Some(field.value.of(bytes));
        }
    }
    None
}

// Whether every Content-Length is this number.
fn all_tell(bytes: &[u8], fields: &[HeaderSpan], size: u64) -> bool
    requires { All (IsHeaderWithin (length bytes.now)) fields.now }
    ensures { result
        ≡ list_all (spec.may_stand_beside size) (map (header_bytes bytes.now) fields.now) }
{
    for field in fields {
        if !may_stand_beside(bytes, field, size) {
            return false;
        }
    }
    true
}

// Whether a field is no Content-Length, or is this number.
fn may_stand_beside(bytes: &[u8], field: &HeaderSpan, size: u64) -> bool
    requires { IsHeaderWithin (length bytes.now) field.now }
    ensures { result ≡ spec.may_stand_beside size (header_bytes bytes.now field.now) }
{
    if !is_named(bytes, field, b"content-length") {
        return true;
    }
    match read_length(field.value.of(bytes)) {
        Some(other) => other == size,
        None => false,
    }
}

fn is_named(bytes: &[u8], field: &HeaderSpan, name: &[u8]) -> bool
    requires { IsHeaderWithin (length bytes.now) field.now }
    ensures { result ≡ spec.is_named name.now (header_bytes bytes.now field.now) }
{
    field.name.of(bytes).eq_ignore_ascii_case(name)
}

// The number of one to ten digits.
fn read_length(value: &[u8]) -> Option<u64>
    ensures { result ≡ spec.length_in value.now }
{
    read_number(value, 10, 0, 9_999_999_999)
}
