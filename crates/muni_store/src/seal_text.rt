//! The text of a seal.

ghost use Rattle.std.specs.Prelude.{◌≡◌, ◌+◌, ◌*◌, ◌<◌, ◌≤◌, ◌++◌, [], ◌∷◌, codes, length};
ghost use Rattle.std.specs.Fmt.{decimal, signed_decimal};
ghost use Rattle.arrayvec.specs.ArrayVec.{array_vec_len};
ghost use Rattle.muni_dec.specs.Line.{behind_blanks};
ghost use Rattle.muni_store.specs.SealText as spec;

use crate::marks::{FileMarks, FileTime, Seen};
use arrayvec::ArrayVec;
use muni_dec::text::{push, push_number, push_part};

/// The most bytes that a seal has.
pub(crate) const MOST: usize = 1024;

/// The text of a seal.
pub(crate) type Text = ArrayVec<u8, MOST>;

/// The text of a seal for what was seen.
pub(crate) fn text_of(seen: &Seen) -> Text
    ensures { result.items ≡ spec.text seen.now }
{
    let mut text = ArrayVec::new();
    push(&mut text, b"muni seal 2\n");
    push_marks(&mut text, b"store", &seen.store);
    match &seen.log {
        Some(log) => push_marks(&mut text, b"log", log),
        None => push(&mut text, b"no log\n"),
    }
    text
}

fn push_marks<const HEAD: usize>(text: &mut Text, name: &[u8], marks: &FileMarks<HEAD>)
    requires { array_vec_len text.old + length name.now + 2 * HEAD + 200 ≤ MOST }
    ensures items { text.new.items ≡ text.old.items ++ spec.marks_text name.now marks.now }
    ensures len { array_vec_len text.new ≤ array_vec_len text.old + length name.now + 2 * HEAD + 200 }
{
    push_place(text, name, marks);
    push_times(text, marks);
    push_head(text, &marks.head);
}

fn push_place<const HEAD: usize>(text: &mut Text, name: &[u8], marks: &FileMarks<HEAD>)
    requires { array_vec_len text.old + length name.now + 82 ≤ MOST }
    ensures items { text.new.items ≡ text.old.items ++ spec.place_line name.now marks.now }
    ensures len { array_vec_len text.new ≤ array_vec_len text.old + length name.now + 82 }
{
    push(text, name);
    push_number_of(text, b"device", marks.device);
    push_number_of(text, b"inode", marks.inode);
    push_number_of(text, b"size", marks.size);
    push(text, b"\n");
}

fn push_times<const HEAD: usize>(text: &mut Text, marks: &FileMarks<HEAD>)
    requires { array_vec_len text.old + 102 ≤ MOST }
    ensures items { text.new.items ≡ text.old.items ++ spec.times_line marks.now }
    ensures len { array_vec_len text.new ≤ array_vec_len text.old + 102 }
{
    push(text, b"modified");
    push_time(text, marks.modified);
    push_part(text, b"changed");
    push_time(text, marks.changed);
    push(text, b"\n");
}

fn push_head(text: &mut Text, head: &[u8])
    requires { array_vec_len text.old + 2 * length head.now + 6 ≤ MOST }
    ensures items { text.new.items ≡ text.old.items ++ spec.head_line head.now }
    ensures len { array_vec_len text.new ≡ array_vec_len text.old + 2 * length head.now + 6 }
{
    push(text, b"head ");
    push_hex(text, head);
    push(text, b"\n");
}

fn push_number_of(text: &mut Text, word: &[u8], number: u64)
    requires { array_vec_len text.old + length word.now + 22 ≤ MOST }
    ensures items { text.new.items ≡ text.old.items ++ behind_blanks (word.now ∷ decimal number ∷ []) }
    ensures len { array_vec_len text.new ≤ array_vec_len text.old + length word.now + 22 }
{
    push_part(text, word);
    push_number(text, number);
}

fn push_time(text: &mut Text, time: FileTime)
    requires { array_vec_len text.old + 42 ≤ MOST }
    ensures items { text.new.items ≡ text.old.items
        ++ behind_blanks (signed_decimal time.seconds ∷ signed_decimal time.nanoseconds ∷ []) }
    ensures len { array_vec_len text.new ≤ array_vec_len text.old + 42 }
{
    push_number(text, time.seconds);
    push_number(text, time.nanoseconds);
}

fn push_hex(text: &mut Text, bytes: &[u8])
    requires { array_vec_len text.old + 2 * length bytes.now ≤ MOST }
    ensures items { text.new.items ≡ text.old.items ++ spec.hex bytes.now }
    ensures len { array_vec_len text.new ≡ array_vec_len text.old + 2 * length bytes.now }
{
    for byte in bytes {
        text.push(hex_digit(*byte / 16));
        text.push(hex_digit(*byte % 16));
    }
}

fn hex_digit(number: u8) -> u8
    requires { number < 16 }
    ensures { result ≡ spec.hex_digit number }
{
    if number < 10 {
        b'0' + number
    } else {
        b'a' - 10 + number
    }
}
