//! Numbers with their decimals.

ghost use Rattle.std.specs.Prelude.{◌≡◌, ◌+◌, ◌≤◌, ◌++◌, ◌∷◌, decimal};
ghost use Rattle.arrayvec.specs.ArrayVec.{array_vec_len};
ghost use Rattle.muni_dec.specs.Decimal.{decimal_text};
ghost use Rattle.muni_dec.specs.Digits.{last_digits};

use arrayvec::ArrayVec;
use itoa::Buffer;
use muni_dec::digits::push_last_digits;
use muni_dec::text::push;

/// Replaces the text by a number of thousandths with its three decimals.
pub fn print_thousandths(number: u64, text: &mut ArrayVec<u8, 32>)
    ensures items { text.new.items ≡ decimal_text 3 number }
    ensures len { array_vec_len text.new ≤ 24 }
{
    print_parts(number / 1_000, number, 3, text);
}

/// Replaces the text by a number of millionths with its six decimals.
pub fn print_millionths(number: u64, text: &mut ArrayVec<u8, 32>)
    ensures items { text.new.items ≡ decimal_text 6 number }
    ensures len { array_vec_len text.new ≤ 27 }
{
    print_parts(number / 1_000_000, number, 6, text);
}

fn print_parts(whole: u64, number: u64, places: usize, text: &mut ArrayVec<u8, 32>)
    requires { places ≤ 6 }
    ensures items { text.new.items ≡ decimal whole ++ 46 ∷ last_digits places number }
    ensures len { array_vec_len text.new ≤ 21 + places }
{
    text.clear();
    let mut buffer = Buffer::new();
    push(text, buffer.format(whole).as_bytes());
    text.push(b'.');
    push_last_digits(text, number, places);
}
