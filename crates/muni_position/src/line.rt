//! The line of a position.

ghost use Rattle.std.specs.Prelude.{◌≡◌, ◌+◌, ◌≤◌, ◌-ℤ◌, pos, ◌++◌, [], ◌∷◌};
ghost use Rattle.std.specs.Fmt.{signed_decimal};
ghost use Rattle.arrayvec.specs.ArrayVec.{array_vec_len};
ghost use Rattle.muni_dec.specs.Decimal.{sign_text, signed_text};
ghost use Rattle.muni_dec.specs.Line.{behind_blanks};
ghost use Rattle.muni_position.specs.Line as spec;

use crate::position::Position;
use arrayvec::ArrayVec;
use itoa::Buffer;
use muni_dec::text::{push, push_number};

/// Replaces the text by the line of a position, with its line end.
///
/// The CUSIP, how many trades are live, the par that was bought, that was sold and that is left, all in
/// dollars, and the money in dollars with two decimals. What is below zero has a minus sign.
#[tactic(auto, unfolding(crate::specs::Line::position_line))]
pub fn position_line(cusip: &[u8; 9], position: &Position, text: &mut ArrayVec<u8, 256>)
    ensures items { text.new.items ≡ spec.position_line cusip.now position.now }
    ensures len { array_vec_len text.new ≤ 200 }
{
    text.clear();
    push(text, cusip);
    push_number(text, position.live);
    push_number(text, position.bought);
    push_number(text, position.sold);
    push_par_left(text, position);
    push_money(text, position);
    text.push(b'\n');
}

// A blank, and what was bought less what was sold.
fn push_par_left(text: &mut ArrayVec<u8, 256>, position: &Position)
    requires { array_vec_len text.old ≤ 100 }
    ensures items { text.new.items ≡ text.old.items
        ++ behind_blanks (signed_decimal (pos position.now.bought -ℤ pos position.now.sold) ∷ []) }
    ensures len { array_vec_len text.new ≤ array_vec_len text.old + 41 }
{
    push_number(
        text,
        i128::from(position.bought) - i128::from(position.sold),
    );
}

// A blank and the money, in dollars.
fn push_money(text: &mut ArrayVec<u8, 256>, position: &Position)
    requires { array_vec_len text.old ≤ 145 }
    ensures items { text.new.items
        ≡ text.old.items ++ behind_blanks (signed_text 2 position.now.money ∷ []) }
    ensures len { array_vec_len text.new ≤ array_vec_len text.old + 45 }
{
    text.push(b' ');
    push_sign(text, position);
    let cents = position.money.unsigned_abs();
    let mut buffer = Buffer::new();
    push(text, buffer.format(cents / 100).as_bytes());
    text.push(b'.');
    text.push(b'0' + (cents / 10 % 10) as u8);
    text.push(b'0' + (cents % 10) as u8);
}

fn push_sign(text: &mut ArrayVec<u8, 256>, position: &Position)
    requires { array_vec_len text.old ≤ 150 }
    ensures items { text.new.items ≡ text.old.items ++ sign_text position.now.money }
    ensures len { array_vec_len text.new ≤ array_vec_len text.old + 1 }
{
    if position.money < 0 {
        text.push(b'-');
    }
}
