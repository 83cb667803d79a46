//! The line of a refusal.

ghost use Rattle.std.specs.Prelude.{◌≡◌, ◌+◌, ◌≤◌, ◌++◌, [], ◌∷◌, length};
ghost use Rattle.arrayvec.specs.ArrayVec.{array_vec_len};
ghost use Rattle.muni_msg.specs.Refusal.{number_of};
ghost use Rattle.muni_days.specs.Day.{civil, day_text};
ghost use Rattle.muni_dec.specs.Line.{behind_blanks};
ghost use Rattle.muni_confirm.specs.Refusal.{kept_parts, fault_day, fault_parts, range_text, boundary_parts, detail, name_text, refusal_text};

use crate::laws::refusal_fits;
use arrayvec::ArrayVec;
use muni_days::Day;
use muni_dec::text::{push, push_number, push_part};
use muni_msg::{Kept, Range, Refusal, refusal_name};
use muni_terms::{Boundary, TermsFault};

fn push_day(text: &mut ArrayVec<u8, 128>, date: &Day)
    requires { array_vec_len text.old + length (behind_blanks (day_text (civil date.now) ∷ []))
        ≤ 100 }
    ensures { text.new.items ≡ text.old.items ++ behind_blanks (day_text (civil date.now) ∷ []) }
{
    let mut value = ArrayVec::new();
    date.print_into(&mut value);
    push_part(text, &value);
}

fn push_kept(text: &mut ArrayVec<u8, 128>, kept: &Kept)
    requires { array_vec_len text.old + length (behind_blanks (kept_parts kept.now)) ≤ 100 }
    ensures { text.new.items ≡ text.old.items ++ behind_blanks (kept_parts kept.now) }
{
    match kept {
        Kept::Issue(_) => push_part(text, b"issue"),
        Kept::Version { number, .. } => {
            push_part(text, b"version");
            push_number(text, *number);
        }
    }
}

fn push_fault_day(text: &mut ArrayVec<u8, 128>, fault: &TermsFault)
    requires { array_vec_len text.old + length (behind_blanks (fault_day fault.now)) ≤ 100 }
    ensures { text.new.items ≡ text.old.items ++ behind_blanks (fault_day fault.now) }
{
    match fault {
        TermsFault::CallOffCalendar { date }
        | TermsFault::CallsNotRising { date }
        | TermsFault::BadCallPrice { date }
        | TermsFault::CalledNotLast { date } => push_day(text, date),
        _ => {}
    }
}

fn push_fault(text: &mut ArrayVec<u8, 128>, fault: &TermsFault)
    requires { array_vec_len text.old + length (behind_blanks (fault_parts fault.now)) ≤ 100 }
    ensures { text.new.items ≡ text.old.items ++ behind_blanks (fault_parts fault.now) }
{
    push_number(text, fault.number());
    push_fault_day(text, fault);
}

fn range_text(range: &Range) -> &'static [u8]
    ensures { result.now ≡ range_text range.now }
{
    match range {
        Range::Below => b"below",
        Range::Above => b"above",
        Range::PriceBelowZero => b"price below zero",
    }
}

pub(crate) fn push_boundary(text: &mut ArrayVec<u8, 128>, boundary: &Boundary)
    requires { array_vec_len text.old + length (behind_blanks (boundary_parts boundary.now)) ≤ 100 }
    ensures { text.new.items ≡ text.old.items ++ behind_blanks (boundary_parts boundary.now) }
{
    let mut value = ArrayVec::new();
    match boundary {
        Boundary::Price(price) => {
            price.print_into(&mut value);
            push_part(text, b"price");
            push_part(text, &value);
        }
        Boundary::Yield(yld) => {
            yld.print_into(&mut value);
            push_part(text, b"yield");
            push_part(text, &value);
        }
    }
}

fn push_detail(text: &mut ArrayVec<u8, 128>, refusal: &Refusal)
    requires { array_vec_len text.old + length (behind_blanks (detail refusal.now)) ≤ 100 }
    ensures { text.new.items ≡ text.old.items ++ behind_blanks (detail refusal.now) }
{
    match refusal {
        Refusal::Conflict(kept) => push_kept(text, kept),
        Refusal::BadTerms(fault) => push_fault(text, fault),
        Refusal::GivenOutOfRange(range) => push_part(text, range_text(range)),
        Refusal::YieldBelow { date } | Refusal::NoTime { date } => push_day(text, date),
        Refusal::Undecided { date, boundary } => {
            push_day(text, date);
            push_boundary(text, boundary);
        }
        Refusal::WrongNumber { next } => push_number(text, *next),
        _ => {}
    }
}

fn push_name(text: &mut ArrayVec<u8, 128>, number: u32)
    requires number { (1 ≤ number) × (number ≤ 15) }
    requires room { array_vec_len text.old + length (name_text number) ≤ 100 }
    ensures { text.new.items ≡ text.old.items ++ name_text number }
{
    push(text, b"REFUSED");
    push_number(text, number);
    push_part(text, refusal_name(number).as_bytes());
}

/// Replaces the text by the line of the refusal, with its line end: its number, its name, and what
/// the refusal carries.
///
/// A version and the next number are whole numbers, and a fault of the terms is given by its number.
/// Days are as `2024-02-29`.
pub fn refusal_line(refusal: &Refusal, text: &mut ArrayVec<u8, 128>)
    // promise 4: the line of a refusal, byte for byte
    ensures items { text.new.items ≡ refusal_text refusal.now }
    // promise 10: at most 82 bytes
    ensures len { array_vec_len text.new ≤ 82 }
{
    refusal_fits(refusal);
    text.clear();
    push_name(text, refusal.number());
    push_detail(text, refusal);
    text.push(b'\n');
}
