//! The answers to requests.

ghost use Rattle.std.specs.Prelude.{◌≡◌, ◌≤◌, ◌+◌, ◌++◌, [], decimal, length, IfOk};
ghost use Rattle.arrayvec.specs.ArrayVec.{array_vec_len};
ghost use Rattle.muni_confirm.specs.Confirmation.{confirmation_text};
ghost use Rattle.muni_confirm.specs.Details.{quoted_text};
ghost use Rattle.muni_confirm.specs.Refusal.{refusal_text};
ghost use Rattle.muni_wire.specs.Answer as spec;
ghost use Rattle.muni_wire.specs.Answers.{Answers};
ghost use Rattle.muni_wire.specs.HttpStatus.{status_of_bad, status_of_refusal, status_of_reply};
ghost use Rattle.muni_wire.specs.List.{list_text};

use crate::list::push_list;
use crate::status::HttpStatus;
use arrayvec::ArrayVec;
use itoa::Buffer;
use muni_confirm::{Details, confirmation, figure_lines, push_details, refusal_line};
use muni_dec::text::{push, push_line, push_number, push_part};
use muni_edge::{Failed, Link, NoMemory};
use muni_msg::{Asked, Figures, Key, Line, Refusal, Reply, Version};
use muni_terms::Issue;
use muni_wire_body::Bad;
use std::alloc::Global;

/// Answers a reply: its status and its text. A confirmation, the lines of figures, the lines of a
/// list, each a trade of the desk, or the line of a refusal. Returns the status.
///
/// After a failure the connection may hold a part of the answer.
pub fn write_reply<L: Link>(
    link: &mut L,
    reply: &Reply,
    details: &Details,
) -> Result<HttpStatus, Failed>
    // promise 6, 9: the answer to a request, byte for byte; a failed write is counted, with a front part written
    ensures { Answers L.Source L.Sink (status_of_reply reply.now)
        (spec.answer_to_reply reply.now details.now) result link.old link.new }
{
    match reply {
        Reply::Added { cusip } => write_added(link, cusip),
        Reply::Amended { cusip, number } => write_amended(link, cusip, *number),
        Reply::Quoted { asked, figures, .. } => write_figures(link, asked, figures, details),
        Reply::Listed(lines) => write_list(link, lines),
        Reply::Confirmed {
            issue,
            key,
            number,
            version,
        } => write_confirmation(link, issue, key, *number, version),
        Reply::Refused(refusal) => write_refusal(link, refusal),
    }
}

/// The answer to a request that was done, with a text of any length.
pub fn success(alloc: Global, text: &[u8]) -> Result<Vec<u8>, NoMemory>
    ensures { IfOk result (λ answer. answer.items ≡ spec.success text.now) }
{
    let mut head = ArrayVec::new();
    push_head(&mut head, HttpStatus::Success, b"", text.len());
    let mut answer = Vec::new(alloc);
    if answer.extend_from_slice(&head).is_err() || answer.extend_from_slice(text).is_err() {
        return Err(NoMemory);
    }
    Ok(answer)
}

/// Answers a request by an answer that is made: its bytes. Returns the status.
///
/// After a failure the connection may hold a part of the answer.
pub fn write_success<L: Link>(link: &mut L, answer: &[u8]) -> Result<HttpStatus, Failed>
    ensures { Answers L.Source L.Sink HttpStatus.Success answer.now result link.old link.new }
{
    link.put(answer)?;
    Ok(HttpStatus::Success)
}

/// Answers a request that is no command: its status, and that with its phrase as the text. If the
/// method is not allowed, the answer names the one that is. Returns the status.
///
/// After a failure the connection may hold a part of the answer.
pub fn write_bad<L: Link>(link: &mut L, bad: Bad) -> Result<HttpStatus, Failed>
    // promise 4, 9: the answer to what is no request, byte for byte; a failed write is counted
    ensures { Answers L.Source L.Sink (status_of_bad bad) (spec.answer_to_bad bad) result link.old link.new }
{
    write_status(link, HttpStatus::of_bad(bad), allowed(bad))
}

/// Answers that the store has failed: 503, and that with its phrase as the text. Returns the status.
///
/// After a failure the connection may hold a part of the answer.
pub fn write_unavailable<L: Link>(link: &mut L) -> Result<HttpStatus, Failed>
    // promise 9: the answer 503, byte for byte; a failed write is counted
    ensures { Answers L.Source L.Sink HttpStatus.Unavailable spec.unavailable result link.old link.new }
{
    write_status(link, HttpStatus::Unavailable, b"")
}

fn write_added<L: Link>(link: &mut L, cusip: &[u8; 9]) -> Result<HttpStatus, Failed>
    ensures { Answers L.Source L.Sink HttpStatus.Success
        (spec.success (spec.added_text cusip.now)) result link.old link.new }
{
    let mut text = ArrayVec::<u8, 16>::new();
    push_line(&mut text, b"ADDED", cusip);
    write(link, HttpStatus::Success, b"", &text)
}

fn write_amended<L: Link>(link: &mut L, cusip: &[u8; 9], number: u32) -> Result<HttpStatus, Failed>
    ensures { Answers L.Source L.Sink HttpStatus.Success
        (spec.success (spec.amended_text cusip.now number)) result link.old link.new }
{
    let mut text = ArrayVec::<u8, 32>::new();
    push(&mut text, b"AMENDED");
    push_part(&mut text, cusip);
    push_number(&mut text, number);
    text.push(b'\n');
    write(link, HttpStatus::Success, b"", &text)
}

fn write_figures<L: Link>(
    link: &mut L,
    asked: &Asked,
    figures: &Figures,
    details: &Details,
) -> Result<HttpStatus, Failed>
    ensures { Answers L.Source L.Sink HttpStatus.Success
        (spec.success (quoted_text figures.now asked.now details.now)) result link.old link.new }
{
    let mut lines = ArrayVec::new();
    figure_lines(figures, &asked.given, asked.fee, &mut lines);
    let mut text = ArrayVec::<u8, 10624>::new();
    push(&mut text, &lines);
    push_details(&mut text, details);
    write(link, HttpStatus::Success, b"", &text)
}

fn write_list<L: Link>(link: &mut L, trades: &[Line]) -> Result<HttpStatus, Failed>
    requires { length trades.now ≤ 50 }
    ensures { Answers L.Source L.Sink HttpStatus.Success
        (spec.success (list_text trades.now)) result link.old link.new }
{
    let mut lines = ArrayVec::new();
    push_list(&mut lines, trades);
    write(link, HttpStatus::Success, b"", &lines)
}

fn write_confirmation<L: Link>(
    link: &mut L,
    issue: &Issue,
    key: &Key,
    number: u32,
    version: &Version,
) -> Result<HttpStatus, Failed>
    ensures { Answers L.Source L.Sink HttpStatus.Success
        (spec.success (confirmation_text issue.now key.now number version.now)) result
        link.old link.new }
{
    let mut lines = ArrayVec::new();
    confirmation(issue, key, number, version, &mut lines);
    write(link, HttpStatus::Success, b"", &lines)
}

fn write_refusal<L: Link>(link: &mut L, refusal: &Refusal) -> Result<HttpStatus, Failed>
    ensures { Answers L.Source L.Sink (status_of_refusal refusal.now)
        (spec.answer (status_of_refusal refusal.now) [] (refusal_text refusal.now)) result
        link.old link.new }
{
    let mut line = ArrayVec::new();
    refusal_line(refusal, &mut line);
    write(link, HttpStatus::of_refusal(refusal), b"", &line)
}

// The header line that names the method that is allowed.
fn allowed(bad: Bad) -> &'static [u8]
    ensures bytes { result.now ≡ spec.allowed bad }
    ensures short { length result.now ≤ 13 }
{
    match bad {
        Bad::NotAllowed { post: true } => b"Allow: POST\r\n",
        Bad::NotAllowed { post: false } => b"Allow: GET\r\n",
        _ => b"",
    }
}

// Writes an answer whose text is its status and phrase.
fn write_status<L: Link>(
    link: &mut L,
    status: HttpStatus,
    allow: &[u8],
) -> Result<HttpStatus, Failed>
    requires { length allow.now ≤ 13 }

    ensures { Answers L.Source L.Sink status (spec.status_answer status allow.now) result link.old link.new }
{
    let mut text = ArrayVec::<u8, 64>::new();
    push_status(&mut text, status);
    push(&mut text, b"\n");
    write(link, status, allow, &text)
}

// Writes an answer with a header line more, or none, and a text. A head has room for 256 bytes, and a text
// for 10,624.
fn write<L: Link>(
    link: &mut L,
    status: HttpStatus,
    allow: &[u8],
    text: &[u8],
) -> Result<HttpStatus, Failed>
    requires allow { length allow.now ≤ 13 }
    requires text { length text.now ≤ 10_624 }

    ensures { Answers L.Source L.Sink status (spec.answer status allow.now text.now) result link.old link.new }
{
    let mut answer = ArrayVec::new();
    push_head(&mut answer, status, allow, text.len());
    push(&mut answer, text);
    link.put(&answer)?;
    Ok(status)
}

// The head of an answer, with the length of its text.
fn push_head(answer: &mut ArrayVec<u8, 10880>, status: HttpStatus, allow: &[u8], size: usize)
    requires empty { array_vec_len answer.old ≡ 0 }
    requires allow { length allow.now ≤ 13 }

    ensures items { answer.new.items ≡ answer.old.items ++ spec.head status allow.now size }
    ensures len { array_vec_len answer.new ≤ 256 }
{
    push_status_line(answer, status);
    push_text_lines(answer, size);
    push(answer, allow);
    push(answer, b"Connection: close\r\n\r\n");
}

#[tactic(auto, unfolding(crate::specs::Answer::status_line))]
fn push_status_line(answer: &mut ArrayVec<u8, 10880>, status: HttpStatus)
    requires room { array_vec_len answer.old + 63 ≤ 10880 }

    ensures items { answer.new.items ≡ answer.old.items ++ spec.status_line status }
    ensures len { array_vec_len answer.new ≤ array_vec_len answer.old + 63 }
{
    push(answer, b"HTTP/1.1 ");
    push_status(answer, status);
    push(answer, b"\r\n");
}

#[tactic(auto, unfolding(crate::specs::Answer::text_lines))]
fn push_text_lines(answer: &mut ArrayVec<u8, 10880>, size: usize)
    requires room { array_vec_len answer.old + 64 ≤ 10880 }

    ensures items { answer.new.items ≡ answer.old.items ++ spec.text_lines size }
    ensures len { array_vec_len answer.new ≤ array_vec_len answer.old + 64 }
{
    push(answer, b"Content-Type: text/plain\r\nContent-Length: ");
    push_decimal(answer, size);
    push(answer, b"\r\n");
}

fn push_status<const ROOM: usize>(text: &mut ArrayVec<u8, ROOM>, status: HttpStatus)
    requires room { array_vec_len text.old + 52 ≤ ROOM }

    ensures items { text.new.items ≡ text.old.items ++ spec.status_text status }
    ensures len { array_vec_len text.new ≤ array_vec_len text.old + 52 }
{
    push_decimal(text, status.code() as usize);
    push(text, b" ");
    push(text, status.phrase());
}

fn push_decimal<const ROOM: usize>(text: &mut ArrayVec<u8, ROOM>, number: usize)
    requires room { array_vec_len text.old + 20 ≤ ROOM }

    ensures items { text.new.items ≡ text.old.items ++ decimal number }
    ensures len { array_vec_len text.new ≤ array_vec_len text.old + 20 }
{
    let mut buffer = Buffer::new();
    push(text, buffer.format(number).as_bytes());
}
