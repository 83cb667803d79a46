//! The lines of the redemption candidates of an issue.

ghost use Rattle.std.specs.Prelude.{◌≡◌, ◌≤◌, ◌+◌, ◌*◌, ◌++◌, length};
ghost use Rattle.std.specs.List.{flat_map};
ghost use Rattle.arrayvec.specs.ArrayVec.{array_vec_len};
ghost use Rattle.muni_dec.specs.Line.{behind_blanks};
ghost use Rattle.muni_confirm.specs.Each.{figure_parts, each_text};

use crate::figures::label;
use crate::laws::each_fits;
use crate::refusal::push_boundary;
use arrayvec::ArrayVec;
use muni_dec::text::{push, push_part};
use muni_msg::{EachFigure, EachRedemption};

/// Appends the line of each redemption candidate: its date, its price and which redemption it is, and then
/// its figure or why it has none.
pub fn push_each<const ROOM: usize>(text: &mut ArrayVec<u8, ROOM>, each: &[EachRedemption])
    requires { array_vec_len text.old + 101 * length each.now ≤ ROOM }
    // promise 3: the line of each redemption, byte for byte
    ensures items { text.new.items ≡ text.old.items ++ flat_map each_text each.now }
    // promise 10: at most 101 bytes each
    ensures len { array_vec_len text.new ≤ array_vec_len text.old + 101 * length each.now }
{
    for redemption in each {
        push(text, &each_line(redemption));
    }
}

#[tactic(auto, unfolding(crate::specs::Each::each_text))]
fn each_line(redemption: &EachRedemption) -> ArrayVec<u8, 128>
    ensures items { result.items ≡ each_text redemption.now }
    ensures len { array_vec_len result ≤ 101 }
{
    each_fits(redemption);
    let mut line = ArrayVec::new();
    let mut value = ArrayVec::new();
    push(&mut line, b"EACH");
    redemption.date.print_into(&mut value);
    push_part(&mut line, &value);
    redemption.price.print_into(&mut value);
    push_part(&mut line, &value);
    push_part(&mut line, label(&redemption.label));
    push_figure(&mut line, &redemption.figure);
    line.push(b'\n');
    line
}

fn push_figure(line: &mut ArrayVec<u8, 128>, figure: &EachFigure)
    requires { array_vec_len line.old + length (behind_blanks (figure_parts figure.now)) ≤ 100 }
    ensures { line.new.items ≡ line.old.items ++ behind_blanks (figure_parts figure.now) }
{
    let mut value = ArrayVec::new();
    match figure {
        EachFigure::Price(price) => {
            price.print_into(&mut value);
            push_part(line, b"PRICE");
            push_part(line, &value);
        }
        EachFigure::Yield(yld) => {
            yld.print_into(&mut value);
            push_part(line, b"YIELD");
            push_part(line, &value);
        }
        EachFigure::Undecided(boundary) => {
            push_part(line, b"UNDECIDED");
            push_boundary(line, boundary);
        }
        EachFigure::Below => push_part(line, b"BELOW"),
        EachFigure::Above => push_part(line, b"ABOVE"),
        EachFigure::NoTime => push_part(line, b"NO TIME"),
    }
}
