//! The body of a record, both ways.

ghost use Rattle.std.specs.Prelude.{◌≡◌, ◌≤◌, ◌+◌, ◌++◌, length, nat_eq, IfSome};
ghost use Rattle.std.specs.Cmp.Lexicographic.{pointwise};
ghost use Rattle.std.specs.Option.{option_map, option_and_then};
ghost use Rattle.arrayvec.specs.ArrayVec.{array_vec_len};
ghost use Rattle.muni_journal_record.specs.Body as spec;
ghost use Rattle.muni_journal_record.specs.declared.put.Put.TheVariants as put;

use crate::fields::{Body, byte_front, later_front, push_byte, push_four};
use crate::issue_body::{has_mark, issue_of, push_issue};
use crate::put::Put;
use crate::version_body::{push_version, version_of};
use arrayvec::ArrayVec;
use muni_msg::{Key, Version};
use muni_terms::Issue;

fn push_terms(body: &mut Body, number: u32, issue: &Issue)
    requires { array_vec_len body.old + 454 ≤ 1_024 }
    ensures items { body.new.items ≡ body.old.items ++ spec.terms_bytes number issue.now }
    ensures len { (array_vec_len body.old + 1 ≤ array_vec_len body.new)
        × (array_vec_len body.new ≤ array_vec_len body.old + 454) }
    ensures fits { spec.TermsFit number issue.now }
{
    if number == 1 {
        let marked = has_mark(issue);
        push_byte(body, if marked { 3 } else { 1 });
        push_issue(body, issue, marked);
    } else {
        push_byte(body, 4);
        push_four(body, number);
        push_issue(body, issue, true);
    }
}

/// The kind of the body of a version, with the number of the terms of its issue if they are not the first.
fn push_kind(body: &mut Body, issue_number: u32)
    requires { array_vec_len body.old + 5 ≤ 1_024 }
    ensures items { body.new.items ≡ body.old.items ++ spec.kind_bytes issue_number }
    ensures len { (array_vec_len body.old + 1 ≤ array_vec_len body.new)
        × (array_vec_len body.new ≤ array_vec_len body.old + 5) }
{
    if issue_number == 1 {
        push_byte(body, 2);
    } else {
        push_byte(body, 5);
        push_four(body, issue_number);
    }
}

/// The body of a put.
#[tactic(auto, unfolding(crate::specs::Body::body_of))]
pub fn body_of(put: &Put) -> Body
    ensures items { result.items ≡ spec.body_of put.now }
    ensures len { (1 ≤ array_vec_len result) × (array_vec_len result ≤ 454) }
    ensures fits { spec.PutFits put.now }
{
    let mut body = ArrayVec::new();
    match put {
        Put::Issue { number, issue } => push_terms(&mut body, *number, issue),
        Put::Version {
            key,
            number,
            version,
        } => {
            push_kind(&mut body, version.issue_number);
            push_version(&mut body, key, *number, version);
        }
    }
    body
}

fn first_terms(bytes: &[u8], marked: bool) -> Option<Put>
    ensures { result ≡ spec.first_terms marked bytes.now }
{
    let issue = issue_of(bytes, marked)?;
    Some(Put::Issue { number: 1, issue })
}

fn later_terms(bytes: &[u8]) -> Option<Put>
    ensures { result ≡ spec.later_terms bytes.now }
{
    let (number, rest) = later_front(bytes)?;
    let issue = issue_of(rest, true)?;
    Some(Put::Issue { number, issue })
}

fn version_put(bytes: &[u8]) -> Option<Put>
    ensures { result ≡ option_map spec.of_version (option_and_then spec.version_in (spec.begun_of bytes.now)) }
{
    let (key, number, version) = begun_version(bytes)?;
    Some(Put::Version {
        key,
        number,
        version,
    })
}

fn begun_of(bytes: &[u8]) -> Option<Put>
    ensures { result ≡ spec.begun_of bytes.now }
{
    let (kind, rest) = byte_front(bytes)?;
    match kind {
        1 => first_terms(rest, false),
        3 => first_terms(rest, true),
        4 => later_terms(rest),
        _ => version_put(bytes),
    }
}

fn has_body(put: &Put, bytes: &[u8]) -> bool
    ensures { result ≡ pointwise nat_eq (spec.body_of put.now) bytes.now }
{
    body_of(put).as_slice() == bytes
}

/// The put that has these bytes as its body, if one has.
#[tactic(auto, unfolding(crate::specs::Body::put_of))]
pub fn put_of(bytes: &[u8]) -> Option<Put>
    ensures { result ≡ spec.put_of bytes.now }
{
    let put = begun_of(bytes)?;
    if has_body(&put, bytes) {
        Some(put)
    } else {
        None
    }
}

/// The version with which bytes begin, if they begin with the kind of one.
#[tactic(auto, using(crate::proofs::BodyLaws::other_begins_none, crate::proofs::BodyLaws::two_begins, crate::proofs::BodyLaws::five_begins), unfolding(crate::specs::Body::body_of))]
fn begun_version(bytes: &[u8]) -> Option<(Key, u32, Version)>
    ensures found { result ≡ option_and_then spec.version_in (spec.begun_of bytes.now) }
    ensures size { IfSome result (λ found. length (spec.body_of (put.Version found.0 found.1 found.2))
        ≡ spec.version_size found.0 found.2) }
    ensures bytes { IfSome result (λ found.
        length bytes.now ≡ spec.version_size found.0 found.2
        → bytes.now ≡ spec.body_of (put.Version found.0 found.1 found.2)) }
{
    let (kind, rest) = byte_front(bytes)?;
    match kind {
        2 => version_of(rest, 1),
        5 => {
            let (issue_number, rest) = later_front(rest)?;
            version_of(rest, issue_number)
        }
        _ => None,
    }
}

fn version_size(key: &Key, version: &Version) -> usize
    ensures { result ≡ spec.version_size key.now version.now }
{
    let around = if version.issue_number == 1 { 92 } else { 96 };
    around + key.desk.bytes().len() + key.reference.bytes().len()
}

/// The version that has these bytes as its body, if one has, with its trade and its number. No room for an
/// issue is taken, as a put has it.
#[tactic(auto, using(crate::proofs::BodyLaws::none_begun, crate::proofs::BodyLaws::same_size, crate::proofs::BodyLaws::other_size), unfolding(crate::specs::Body::put_of))]
pub fn version_of_body(bytes: &[u8]) -> Option<(Key, u32, Version)>
    ensures { result ≡ option_and_then spec.version_in (spec.put_of bytes.now) }
{
    let (key, number, version) = begun_version(bytes)?;
    // Each field has one form, so that only the size tells a body from one with more bytes.
    if bytes.len() == version_size(&key, &version) {
        Some((key, number, version))
    } else {
        None
    }
}
