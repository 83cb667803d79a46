//! The body of an issue.

ghost use Rattle.std.specs.Prelude.{◌≡◌, ◌≤◌, ◌+◌, ◌*◌, ◌++◌, length};
ghost use Rattle.std.specs.List.{flat_map, All};
ghost use Rattle.std.specs.Option.{option_map};
ghost use Rattle.arrayvec.specs.ArrayVec.{array_vec_len};
ghost use Rattle.muni_dec.specs.Ranges.{IsAmount};
ghost use Rattle.muni_journal_record.specs.IssueBody as spec;

use crate::fields::{
    Body, byte_front, cusip_of, day_of, four_front, front, number_of_4, push_byte, push_day,
    push_four, push_text, text_front,
};
use arrayvec::ArrayVec;
use muni_dec::text::push;
use muni_dec::{Coupon, Price};
use muni_msg::{basis_code, basis_of_code, kind_code};
use muni_terms::{Call, CallTerm, Issue, IssueRow, Kind, check};

/// Whether a call of an issue has a mark: it stands on other days than its own alone, or for certain.
pub(crate) fn has_mark(issue: &Issue) -> bool
    ensures { result ≡ spec.has_mark issue.now }
{
    issue.row().calls.iter().any(|call| is_marked(call))
}

fn is_marked(call: &Call) -> bool
    ensures { result ≡ spec.is_marked call.now }
{
    call.term != CallTerm::OnDay
}

fn term_code(term: CallTerm) -> u8
    ensures { result ≡ spec.term_code term }
{
    match term {
        CallTerm::OnDay => 0,
        CallTerm::OnOrAfter => 1,
        CallTerm::Called => 2,
    }
}

fn push_mark(body: &mut Body, call: &Call, marked: bool)
    requires { array_vec_len body.old + 1 ≤ 1_024 }
    ensures items { body.new.items ≡ body.old.items ++ spec.mark_bytes marked call.now.term }
    ensures len { array_vec_len body.new ≤ array_vec_len body.old + 1 }
{
    if marked {
        push_byte(body, term_code(call.term));
    }
}

fn push_call(body: &mut Body, call: &Call, marked: bool)
    requires { array_vec_len body.old + 9 ≤ 1_024 }
    ensures items { body.new.items ≡ body.old.items ++ spec.call_bytes marked call.now }
    ensures len { array_vec_len body.new ≤ array_vec_len body.old + 9 }
    ensures fits { spec.CallFits call.now }
{
    push_day(body, call.date);
    push_four(body, call.price.units() as u32);
    push_mark(body, call, marked);
}

fn push_calls(body: &mut Body, calls: &[Call], marked: bool)
    requires { array_vec_len body.old + 9 * length calls.now ≤ 1_024 }
    ensures items { body.new.items
        ≡ body.old.items ++ flat_map (spec.call_bytes marked) calls.now }
    ensures len { array_vec_len body.new ≤ array_vec_len body.old + 9 * length calls.now }
    ensures fits { All spec.CallFits calls.now }
{
    for (i, call) in calls.iter().enumerate() {
        push_call(body, call, marked);
    }
}

fn push_first(body: &mut Body, kind: Kind)
    requires { array_vec_len body.old + 4 ≤ 1_024 }
    ensures items { body.new.items ≡ body.old.items ++ spec.first_bytes kind }
    ensures len { array_vec_len body.new ≤ array_vec_len body.old + 4 }
{
    if let Kind::Periodic { first } = kind {
        push_day(body, first);
    }
}

fn push_dates(body: &mut Body, row: &IssueRow)
    requires { array_vec_len body.old + 12 ≤ 1_024 }
    ensures items { body.new.items ≡ body.old.items ++ spec.dates_bytes row.now }
    ensures len { array_vec_len body.new ≤ array_vec_len body.old + 12 }
{
    push_day(body, row.dated);
    push_first(body, row.kind);
    push_day(body, row.maturity);
}

fn push_coupon(body: &mut Body, row: &IssueRow, marked: bool)
    requires { array_vec_len body.old + 365 ≤ 1_024 }
    ensures items { body.new.items ≡ body.old.items ++ spec.coupon_bytes marked row.now }
    ensures len { array_vec_len body.new ≤ array_vec_len body.old + 365 }
    ensures coupon { IsAmount 0 300_000_000 row.now.coupon }
    ensures few { length row.now.calls.items ≤ 40 }
    ensures calls { All spec.CallFits row.now.calls.items }
{
    push_four(body, row.coupon.units() as u32);
    push_byte(body, row.calls.len() as u8);
    push_calls(body, &row.calls, marked);
}

/// Appends the body of an issue, with the marks of its calls or without them.
pub(crate) fn push_issue(body: &mut Body, issue: &Issue, marked: bool)
    requires { array_vec_len body.old + 449 ≤ 1_024 }
    ensures items { body.new.items ≡ body.old.items ++ spec.row_bytes marked issue.now }
    ensures len { array_vec_len body.new ≤ array_vec_len body.old + 449 }
    ensures fits { spec.IssueFits issue.now }
{
    let row = issue.row();
    push(body, &row.cusip);
    push_text(body, &row.name);
    push_byte(body, kind_code(row.kind));
    push_byte(body, basis_code(row.basis));
    push_dates(body, row);
    push_coupon(body, row, marked);
}

fn term_of_code(code: u8) -> Option<CallTerm>
    ensures { result ≡ spec.term_of_code code }
{
    match code {
        0 => Some(CallTerm::OnDay),
        1 => Some(CallTerm::OnOrAfter),
        2 => Some(CallTerm::Called),
        _ => None,
    }
}

// A call without a mark stands on its own day alone.
fn term_of(mark: &[u8]) -> Option<CallTerm>
    ensures { result ≡ spec.term_of mark.now }
{
    match mark {
        [] => Some(CallTerm::OnDay),
        [code, ..] => term_of_code(*code),
    }
}

fn call_size(marked: bool) -> usize
    ensures { result ≡ spec.call_size marked }
{
    if marked { 9 } else { 8 }
}

#[tactic(auto, unfolding(crate::specs::IssueBody::call_of))]
fn call_of(bytes: &[u8]) -> Option<Call>
    requires { 8 ≤ length bytes.now }
    ensures { result ≡ spec.call_of bytes.now }
{
    let (date, rest) = bytes.split_at(4);
    let (price, mark) = rest.split_at(4);
    Some(Call {
        date: day_of(date)?,
        price: Price::of(u64::from(number_of_4(price)))?,
        term: term_of(mark)?,
    })
}

fn calls_of(count: usize, bytes: &[u8], marked: bool) -> Option<ArrayVec<Call, 40>>
    requires { count ≤ 40 }
    ensures { option_map (λ calls. calls.items) result ≡ spec.calls_of marked count bytes.now }
{
    let mut calls = ArrayVec::new();
    let mut rest = bytes;
    for i in 0..count {
        let (call, behind) = front(rest, call_size(marked))?;
        calls.push(call_of(call)?);
        rest = behind;
    }
    Some(calls)
}

fn few_calls_of(count: u8, bytes: &[u8], marked: bool) -> Option<ArrayVec<Call, 40>>
    ensures { option_map (λ calls. calls.items) result
        ≡ spec.few_calls_of marked count bytes.now }
{
    if count > 40 {
        return None;
    }
    calls_of(usize::from(count), bytes, marked)
}

fn name_of(text: &[u8]) -> Option<ArrayVec<u8, 60>>
    ensures { option_map (λ name. name.items) result ≡ spec.name_of text.now }
{
    ArrayVec::try_from(text).ok()
}

fn first_size(code: u8) -> usize
    ensures { result ≡ spec.first_size code }
{
    if code == 0 { 4 } else { 0 }
}

fn kind_of(code: u8, first: &[u8]) -> Option<Kind>
    requires { length first.now ≡ spec.first_size code }
    ensures { result ≡ spec.kind_of code first.now }
{
    match code {
        0 => Some(Kind::Periodic {
            first: day_of(first)?,
        }),
        1 => Some(Kind::Zero),
        2 => Some(Kind::AtRedemption),
        3 => Some(Kind::Discount),
        _ => None,
    }
}

#[tactic(auto, unfolding(crate::specs::IssueBody::row_of))]
fn row_of(bytes: &[u8], marked: bool) -> Option<IssueRow>
    ensures { result ≡ spec.row_of marked bytes.now }
{
    let (cusip, rest) = front(bytes, 9)?;
    let (text, rest) = text_front(rest)?;
    let name = name_of(text)?;
    let (code, rest) = byte_front(rest)?;
    let (basis, rest) = byte_front(rest)?;
    let basis = basis_of_code(basis)?;
    let (dated, rest) = front(rest, 4)?;
    let dated = day_of(dated)?;
    let (first, rest) = front(rest, first_size(code))?;
    let kind = kind_of(code, first)?;
    let (maturity, rest) = front(rest, 4)?;
    let maturity = day_of(maturity)?;
    let (coupon, rest) = four_front(rest)?;
    let coupon = Coupon::of(u64::from(coupon))?;
    let (count, rest) = byte_front(rest)?;
    let calls = few_calls_of(count, rest, marked)?;
    Some(IssueRow {
        cusip: cusip_of(cusip),
        name,
        kind,
        basis,
        dated,
        maturity,
        coupon,
        calls,
    })
}

/// The issue whose body begins so, with the marks of its calls or without them.
pub(crate) fn issue_of(bytes: &[u8], marked: bool) -> Option<Issue>
    ensures { result ≡ spec.issue_of marked bytes.now }
{
    check(row_of(bytes, marked)?).ok()
}
