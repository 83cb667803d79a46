//! The fields of a body. They are written at its end, and read from the front of bytes; then the rest
//! is given as well.

ghost use Rattle.std.specs.Prelude.{◌≡◌, ◌≢◌, ◌≤◌, ◌<◌, ◌+◌, ◌^◌, ◌++◌, ◌∷◌, [], length, IfSome, FitsSigned};
ghost use Rattle.std.specs.Int.{w32};
ghost use Rattle.std.specs.Option.{option_map};
ghost use Rattle.arrayvec.specs.ArrayVec.{array_vec_len};
ghost use Rattle.muni_journal_record.specs.Words as words;
ghost use Rattle.muni_journal_record.specs.Fields as spec;

use arrayvec::ArrayVec;
use muni_days::Day;
use muni_dec::text::push;

/// The body of a record.
pub type Body = ArrayVec<u8, 1024>;

pub(crate) fn push_byte(body: &mut Body, byte: u8)
    requires { array_vec_len body.old + 1 ≤ 1_024 }
    ensures items { body.new.items ≡ body.old.items ++ byte ∷ [] }
    ensures len { array_vec_len body.new ≡ array_vec_len body.old + 1 }
{
    body.push(byte);
}

#[tactic(auto, unfolding(crate::specs::Words::two))]
fn push_two(body: &mut Body, number: u16)
    requires { array_vec_len body.old + 2 ≤ 1_024 }
    ensures items { body.new.items ≡ body.old.items ++ words.two number }
    ensures len { array_vec_len body.new ≡ array_vec_len body.old + 2 }
{
    push(body, &number.to_be_bytes());
}

#[tactic(auto, unfolding(crate::specs::Words::four))]
pub(crate) fn push_four(body: &mut Body, number: u32)
    requires { array_vec_len body.old + 4 ≤ 1_024 }
    ensures items { body.new.items ≡ body.old.items ++ words.four number }
    ensures len { array_vec_len body.new ≡ array_vec_len body.old + 4 }
    ensures fits { number < 2 ^ 32 }
{
    push(body, &number.to_be_bytes());
}

#[tactic(auto, unfolding(crate::specs::Words::eight))]
pub(crate) fn push_eight(body: &mut Body, number: u64)
    requires { array_vec_len body.old + 8 ≤ 1_024 }
    ensures items { body.new.items ≡ body.old.items ++ words.eight number }
    ensures len { array_vec_len body.new ≡ array_vec_len body.old + 8 }
{
    push(body, &number.to_be_bytes());
}

#[tactic(auto, unfolding(crate::specs::Words::signed))]
pub(crate) fn push_signed(body: &mut Body, number: i32)
    requires { array_vec_len body.old + 4 ≤ 1_024 }
    ensures items { body.new.items ≡ body.old.items ++ words.signed number }
    ensures len { array_vec_len body.new ≡ array_vec_len body.old + 4 }
    ensures fits { FitsSigned w32 number }
{
    push(body, &number.to_be_bytes());
}

pub(crate) fn push_day(body: &mut Body, day: Day)
    requires { array_vec_len body.old + 4 ≤ 1_024 }
    ensures items { body.new.items ≡ body.old.items ++ spec.day_bytes day }
    ensures len { array_vec_len body.new ≡ array_vec_len body.old + 4 }
{
    push_two(body, day.year() as u16);
    push_byte(body, day.month() as u8);
    push_byte(body, day.day() as u8);
}

/// A length, and then a text.
pub(crate) fn push_text(body: &mut Body, text: &[u8])
    requires room { array_vec_len body.old + 1 + length text.now ≤ 1_024 }
    requires short { length text.now < 2 ^ 8 }
    ensures items { body.new.items ≡ body.old.items ++ spec.text_bytes text.now }
    ensures len { array_vec_len body.new ≡ array_vec_len body.old + 1 + length text.now }
{
    push_byte(body, text.len() as u8);
    push(body, text);
}

/// The first bytes, and the rest.
pub(crate) fn front(bytes: &[u8], count: usize) -> Option<(&[u8], &[u8])>
    ensures found { option_map (λ found. (found.0.now, found.1.now)) result ≡ words.front count bytes.now }
    ensures long { IfSome result (λ found. length found.0.now ≡ count) }
    ensures parts { IfSome result (λ found. bytes.now ≡ found.0.now ++ found.1.now) }
{
    if count > bytes.len() {
        return None;
    }
    Some(bytes.split_at(count))
}

pub(crate) fn byte_front(bytes: &[u8]) -> Option<(u8, &[u8])>
    ensures found { option_map (λ found. (found.0, found.1.now)) result ≡ words.byte_front bytes.now }
    ensures parts { IfSome result (λ found. bytes.now ≡ found.0 ∷ found.1.now) }
{
    let [byte, rest @ ..] = bytes else {
        return None;
    };
    Some((*byte, rest))
}

#[tactic(auto, unfolding(crate::specs::Words::number_of_4, crate::specs::Words::four))]
pub(crate) fn number_of_4(bytes: &[u8]) -> u32
    requires { length bytes.now ≡ 4 }
    ensures value { result ≡ words.number_of_4 bytes.now }
    ensures bytes { bytes.now ≡ words.four result }
{
    u32::from_be_bytes([bytes[0], bytes[1], bytes[2], bytes[3]])
}

#[tactic(auto, unfolding(crate::specs::Words::number_of_8, crate::specs::Words::eight))]
fn number_of_8(bytes: &[u8]) -> u64
    requires { length bytes.now ≡ 8 }
    ensures value { result ≡ words.number_of_8 bytes.now }
    ensures bytes { bytes.now ≡ words.eight result }
{
    u64::from_be_bytes([
        bytes[0], bytes[1], bytes[2], bytes[3], bytes[4], bytes[5], bytes[6], bytes[7],
    ])
}

#[tactic(auto, unfolding(crate::specs::Words::signed_of, crate::specs::Words::signed))]
fn signed_of(bytes: &[u8]) -> i32
    requires { length bytes.now ≡ 4 }
    ensures value { result ≡ words.signed_of bytes.now }
    ensures bytes { bytes.now ≡ words.signed result }
{
    i32::from_be_bytes([bytes[0], bytes[1], bytes[2], bytes[3]])
}

pub(crate) fn four_front(bytes: &[u8]) -> Option<(u32, &[u8])>
    ensures found { option_map (λ found. (found.0, found.1.now)) result ≡ words.four_front bytes.now }
    ensures parts { IfSome result (λ found. bytes.now ≡ words.four found.0 ++ found.1.now) }
{
    let (piece, rest) = front(bytes, 4)?;
    Some((number_of_4(piece), rest))
}

/// A number other than 1, and the rest.
pub(crate) fn later_front(bytes: &[u8]) -> Option<(u32, &[u8])>
    ensures found { option_map (λ found. (found.0, found.1.now)) result ≡ words.later_front bytes.now }
    ensures later { IfSome result (λ found. found.0 ≢ 1) }
    ensures parts { IfSome result (λ found. bytes.now ≡ words.four found.0 ++ found.1.now) }
{
    let (number, rest) = four_front(bytes)?;
    if number == 1 {
        return None;
    }
    Some((number, rest))
}

pub(crate) fn eight_front(bytes: &[u8]) -> Option<(u64, &[u8])>
    ensures found { option_map (λ found. (found.0, found.1.now)) result ≡ words.eight_front bytes.now }
    ensures parts { IfSome result (λ found. bytes.now ≡ words.eight found.0 ++ found.1.now) }
{
    let (piece, rest) = front(bytes, 8)?;
    Some((number_of_8(piece), rest))
}

pub(crate) fn signed_front(bytes: &[u8]) -> Option<(i32, &[u8])>
    ensures found { option_map (λ found. (found.0, found.1.now)) result ≡ words.signed_front bytes.now }
    ensures parts { IfSome result (λ found. bytes.now ≡ words.signed found.0 ++ found.1.now) }
{
    let (piece, rest) = front(bytes, 4)?;
    Some((signed_of(piece), rest))
}

/// The CUSIP of nine bytes.
pub(crate) fn cusip_of(bytes: &[u8]) -> [u8; 9]
    requires { length bytes.now ≡ 9 }
    ensures { result ≡ bytes.now }
{
    let mut cusip = [0; 9];
    cusip.copy_from_slice(bytes);
    cusip
}

/// The day of four bytes.
#[tactic(auto, unfolding(crate::specs::Words::number_of_2, crate::specs::Words::two))]
pub(crate) fn day_of(bytes: &[u8]) -> Option<Day>
    requires { length bytes.now ≡ 4 }
    ensures value { result ≡ spec.day_of bytes.now }
    ensures bytes { IfSome result (λ day. bytes.now ≡ spec.day_bytes day) }
{
    let year = u16::from_be_bytes([bytes[0], bytes[1]]);
    Day::of(u64::from(year), u64::from(bytes[2]), u64::from(bytes[3]))
}

/// A length, and then a text.
pub(crate) fn text_front(bytes: &[u8]) -> Option<(&[u8], &[u8])>
    ensures found { option_map (λ found. (found.0.now, found.1.now)) result ≡ spec.text_front bytes.now }
    ensures parts { IfSome result (λ found.
        bytes.now ≡ spec.text_bytes found.0.now ++ found.1.now) }
{
    let (count, rest) = byte_front(bytes)?;
    front(rest, usize::from(count))
}
