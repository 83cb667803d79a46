//! The lines of the figures of a trade.

ghost use Rattle.std.specs.Prelude.{◌≡◌, ◌+◌, ◌≤◌, ◌++◌, [], ◌∷◌, length};
ghost use Rattle.arrayvec.specs.ArrayVec.{array_vec_len};
ghost use Rattle.muni_dec.specs.Line.{line};
ghost use Rattle.muni_confirm.specs.Figures.{price_source, yield_source, rate_line, price_lines, label_text, redemption_line, days_line, commission_line, money_lines, figure_text};

use crate::laws::figures_fit;
use arrayvec::ArrayVec;
use muni_dec::Fee;
use muni_dec::text::{push, push_line, push_number_line, push_part};
use muni_msg::{Figures, Given};
use muni_terms::Label;

fn price_source(given: &Given) -> &'static [u8]
    ensures { result.now ≡ price_source given.now }
{
    match given {
        Given::AtPrice(_) => b"GIVEN",
        Given::AtYield(_) | Given::AtRate(_) => b"COMPUTED",
    }
}

fn yield_source(given: &Given) -> &'static [u8]
    ensures { result.now ≡ yield_source given.now }
{
    match given {
        Given::AtYield(_) => b"GIVEN",
        Given::AtPrice(_) | Given::AtRate(_) => b"COMPUTED",
    }
}

pub(crate) fn label(label: &Label) -> &'static [u8]
    ensures { result.now ≡ label_text label.now }
{
    match label {
        Label::Maturity => b"MATURITY",
        Label::ParOption => b"PAR OPTION",
        Label::Call => b"CALL",
        Label::Called => b"CALLED",
    }
}

fn push_sourced(text: &mut ArrayVec<u8, 512>, word: &[u8], value: &[u8], source: &[u8])
    requires { array_vec_len text.old + length (line (word.now ∷ value.now ∷ source.now ∷ []))
        ≤ 512 }
    ensures { text.new.items ≡ text.old.items ++ line (word.now ∷ value.now ∷ source.now ∷ []) }
{
    push(text, word);
    push_part(text, value);
    push_part(text, source);
    text.push(b'\n');
}

fn push_rate_line(text: &mut ArrayVec<u8, 512>, given: &Given)
    requires { array_vec_len text.old + length (rate_line given.now) ≤ 512 }
    ensures { text.new.items ≡ text.old.items ++ rate_line given.now }
{
    if let Given::AtRate(rate) = given {
        let mut value = ArrayVec::new();
        rate.print_into(&mut value);
        push_sourced(text, b"RATE", &value, b"GIVEN");
    }
}

#[tactic(auto, unfolding(crate::specs::Figures::price_lines))]
fn push_price_lines(text: &mut ArrayVec<u8, 512>, figures: &Figures, given: &Given)
    requires { array_vec_len text.old + length (price_lines figures.now given.now) ≤ 512 }
    ensures { text.new.items ≡ text.old.items ++ price_lines figures.now given.now }
{
    let mut value = ArrayVec::new();
    figures.price.print_into(&mut value);
    push_sourced(text, b"PRICE", &value, price_source(given));
    figures.yld.print_into(&mut value);
    push_sourced(text, b"YIELD", &value, yield_source(given));
    push_rate_line(text, given);
}

#[tactic(auto, unfolding(crate::specs::Figures::redemption_line))]
fn push_redemption_line(text: &mut ArrayVec<u8, 512>, figures: &Figures)
    requires { array_vec_len text.old + length (redemption_line figures.now) ≤ 512 }
    ensures { text.new.items ≡ text.old.items ++ redemption_line figures.now }
{
    let mut value = ArrayVec::new();
    push(text, b"REDEMPTION");
    figures.redemption.print_into(&mut value);
    push_part(text, &value);
    figures.at.print_into(&mut value);
    push_part(text, &value);
    push_part(text, label(&figures.label));
    text.push(b'\n');
}

fn push_commission_line(text: &mut ArrayVec<u8, 512>, figures: &Figures, fee: Fee)
    requires { array_vec_len text.old + length (commission_line figures.now fee) ≤ 512 }
    ensures { text.new.items ≡ text.old.items ++ commission_line figures.now fee }
{
    if fee.units() > 0 {
        let mut value = ArrayVec::new();
        figures.commission.print_into(&mut value);
        push_line(text, b"COMMISSION", &value);
    }
}

#[tactic(auto, unfolding(crate::specs::Figures::money_lines))]
fn push_money_lines(text: &mut ArrayVec<u8, 512>, figures: &Figures, fee: Fee)
    requires { array_vec_len text.old + length (money_lines figures.now fee) ≤ 512 }
    ensures { text.new.items ≡ text.old.items ++ money_lines figures.now fee }
{
    let mut value = ArrayVec::new();
    figures.principal.print_into(&mut value);
    push_line(text, b"PRINCIPAL", &value);
    figures.accrued.print_into(&mut value);
    push_line(text, b"ACCRUED", &value);
    push_commission_line(text, figures, fee);
    figures.total.print_into(&mut value);
    push_line(text, b"TOTAL", &value);
}

// The number is given room for the longest one.
#[tactic(auto, unfolding(crate::specs::Figures::days_line))]
fn push_days_line(text: &mut ArrayVec<u8, 512>, days: i32)
    requires { array_vec_len text.old + length (days_line days) ≤ 500 }
    ensures { text.new.items ≡ text.old.items ++ days_line days }
{
    push_number_line(text, b"ACCRUED DAYS", days);
}

/// Replaces the text by the lines of the figures, each with its line end: the price, the yield, a
/// given discount rate, the disclosed redemption, the days of accrued interest, and the money. The
/// commission has a line if the fee is above 0.
///
/// A price or a yield is shown with three decimals, a rate with four, a redemption price with six,
/// and money in dollars with two.
#[tactic(auto, unfolding(crate::specs::Figures::figure_text))]
pub fn figure_lines(figures: &Figures, given: &Given, fee: Fee, text: &mut ArrayVec<u8, 512>)
    // promise 1: the lines of figures, byte for byte
    ensures items { text.new.items ≡ figure_text figures.now given.now fee }
    // promise 10: at most 374 bytes
    ensures len { array_vec_len text.new ≤ 374 }
{
    figures_fit(figures, given, fee);
    text.clear();
    push_price_lines(text, figures, given);
    push_redemption_line(text, figures);
    push_days_line(text, figures.days);
    push_money_lines(text, figures, fee);
}
