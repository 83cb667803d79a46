//! The lines of a list of trades.

ghost use Rattle.std.specs.Prelude.{◌≡◌, ◌≤◌, ◌+◌, ◌++◌, length};
ghost use Rattle.arrayvec.specs.ArrayVec.{array_vec_len};
ghost use Rattle.muni_wire.specs.List as spec;

use arrayvec::ArrayVec;
use muni_dec::text::{push, push_number, push_part};
use muni_msg::{Act, Line};

/// Appends a line for each trade: the reference, the number of the last version, whether the trade is
/// live or canceled, the par, the price and the yield.
pub(crate) fn push_list(text: &mut ArrayVec<u8, 8192>, lines: &[Line])
    requires empty { array_vec_len text.old ≡ 0 }
    requires page { length lines.now ≤ 50 }

    ensures { text.new.items ≡ text.old.items ++ spec.list_text lines.now }
{
    for line in lines {
        push_list_line(text, line);
    }
}

fn push_list_line(text: &mut ArrayVec<u8, 8192>, line: &Line)
    requires room { array_vec_len text.old + 160 ≤ 8192 }

    ensures items { text.new.items ≡ text.old.items ++ spec.list_line line.now }
    ensures len { array_vec_len text.new ≤ array_vec_len text.old + 160 }
{
    push(text, line.reference.bytes());
    push_number(text, line.number);
    push_part(text, state(line.version.act));
    push_amounts(text, line);
    text.push(b'\n');
}

fn state(act: Act) -> &'static [u8]
    ensures bytes { result.now ≡ spec.state act }
    ensures short { length result.now ≤ 8 }
{
    match act {
        Act::Entered | Act::Corrected => b"LIVE",
        Act::Canceled => b"CANCELED",
    }
}

// The par, the price and the yield.
fn push_amounts(text: &mut ArrayVec<u8, 8192>, line: &Line)
    requires room { array_vec_len text.old + 90 ≤ 8192 }

    ensures items { text.new.items ≡ text.old.items ++ spec.amounts line.now }
    ensures len { array_vec_len text.new ≤ array_vec_len text.old + 90 }
{
    let mut value = ArrayVec::new();
    line.version.terms.asked.par.print_into(&mut value);
    push_part(text, &value);
    line.version.figures.price.print_into(&mut value);
    push_part(text, &value);
    line.version.figures.yld.print_into(&mut value);
    push_part(text, &value);
}
