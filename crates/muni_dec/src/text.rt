//! Finding a byte in a text, and appending parts and lines to one of a fixed room.

ghost use Rattle.std.specs.Prelude.{◌≡◌, ◌+◌, ◌<◌, ◌≤◌, ◌++◌, ◌==◌, [], ◌∷◌, length, position, IfSome};
ghost use Rattle.arrayvec.specs.ArrayVec.{array_vec_len};
ghost use Rattle.muni_dec.specs.Line.{behind_blanks, line};

use arrayvec::ArrayVec;
use itoa::{Buffer, Integer};

/// Where a byte first is in a text, counted from 0.
pub fn find(text: &[u8], byte: u8) -> Option<usize>
    ensures place { result ≡ position (λ b. b == byte) text.now }
    ensures inside { IfSome result (λ at. at < length text.now) }
{
    text.iter().position(|b| *b == byte)
}

/// Appends bytes.
pub fn push<const ROOM: usize>(text: &mut ArrayVec<u8, ROOM>, bytes: &[u8])
    requires { array_vec_len text.old + length bytes.now ≤ ROOM }
    ensures items { text.new.items ≡ text.old.items ++ bytes.now }
    ensures len { array_vec_len text.new ≡ array_vec_len text.old + length bytes.now }
{
    let _ = text.try_extend_from_slice(bytes);
}

/// Appends a blank and a part of a line.
pub fn push_part<const ROOM: usize>(text: &mut ArrayVec<u8, ROOM>, part: &[u8])
    requires { array_vec_len text.old + length part.now + 1 ≤ ROOM }
    ensures items { text.new.items ≡ text.old.items ++ behind_blanks (part.now ∷ []) }
    ensures len { array_vec_len text.new ≡ array_vec_len text.old + length part.now + 1 }
{
    text.push(b' ');
    push(text, part);
}

/// Appends a blank and a whole number, which has a minus sign if it is below zero.
pub fn push_number<I: Integer, const ROOM: usize>(text: &mut ArrayVec<u8, ROOM>, number: I)
    requires { array_vec_len text.old + I.MAX_STR_LEN + 1 ≤ ROOM }
    ensures items { text.new.items ≡ text.old.items ++ behind_blanks (I.text number ∷ []) }
    ensures len { array_vec_len text.new ≤ array_vec_len text.old + I.MAX_STR_LEN + 1 }
{
    let mut buffer = Buffer::new();
    push_part(text, buffer.format(number).as_bytes());
}

/// Appends a line of a word and a whole number.
pub fn push_number_line<I: Integer, const ROOM: usize>(
    text: &mut ArrayVec<u8, ROOM>,
    word: &[u8],
    number: I,
)
    requires { array_vec_len text.old + length word.now + I.MAX_STR_LEN + 2 ≤ ROOM }
    ensures items { text.new.items ≡ text.old.items ++ line (word.now ∷ I.text number ∷ []) }
    ensures len { array_vec_len text.new
        ≤ array_vec_len text.old + length word.now + I.MAX_STR_LEN + 2 }
{
    push(text, word);
    push_number(text, number);
    text.push(b'\n');
}

/// Appends a line of a word and a value.
pub fn push_line<const ROOM: usize>(text: &mut ArrayVec<u8, ROOM>, word: &[u8], value: &[u8])
    requires { array_vec_len text.old + length word.now + length value.now + 2 ≤ ROOM }
    ensures items { text.new.items ≡ text.old.items ++ line (word.now ∷ value.now ∷ []) }
    ensures len { array_vec_len text.new
        ≡ array_vec_len text.old + length word.now + length value.now + 2 }
{
    push(text, word);
    push_part(text, value);
    text.push(b'\n');
}
