//! The confirmation of a trade.

ghost use Rattle.std.specs.Prelude.{◌≡◌, ◌+◌, ◌≤◌, ◌++◌, length};
ghost use Rattle.arrayvec.specs.ArrayVec.{array_vec_len};
ghost use Rattle.muni_confirm.specs.Confirmation as spec;

use crate::figure_lines;
use crate::laws::confirmation_fits;
use arrayvec::ArrayVec;
use muni_days::{Basis, Day};
use muni_dec::text::{push, push_line, push_number_line};
use muni_msg::{Act, Asked, Key, Side, Version};
use muni_terms::{Issue, IssueRow};

fn heading(act: Act) -> &'static [u8]
    ensures { result.now ≡ spec.heading act }
{
    match act {
        Act::Entered => b"CONFIRMATION",
        Act::Corrected => b"CORRECTED CONFIRMATION",
        Act::Canceled => b"CANCELED CONFIRMATION",
    }
}

fn side_text(side: Side) -> &'static [u8]
    ensures { result.now ≡ spec.side_text side }
{
    match side {
        Side::Buy => b"BOUGHT",
        Side::Sell => b"SOLD",
    }
}

#[tactic(auto, unfolding(crate::specs::Confirmation::day_line))]
fn push_day_line(text: &mut ArrayVec<u8, 1024>, word: &[u8], date: &Day)
    requires { array_vec_len text.old + length (spec.day_line word.now date.now) ≤ 1024 }
    ensures { text.new.items ≡ text.old.items ++ spec.day_line word.now date.now }
{
    let mut value = ArrayVec::new();
    date.print_into(&mut value);
    push_line(text, word, &value);
}

#[tactic(auto, unfolding(crate::specs::Confirmation::trade_lines))]
fn push_trade_lines(text: &mut ArrayVec<u8, 1024>, act: Act, number: u32, key: &Key)
    requires { array_vec_len text.old + length (spec.trade_lines act number key.now) ≤ 1000 }
    ensures { text.new.items ≡ text.old.items ++ spec.trade_lines act number key.now }
{
    push_number_line(text, heading(act), number);
    push_line(text, b"DESK", key.desk.bytes());
    push_line(text, b"REFERENCE", key.reference.bytes());
}

#[tactic(auto, unfolding(crate::specs::Confirmation::par_line))]
fn push_par_line(text: &mut ArrayVec<u8, 1024>, asked: &Asked)
    requires { array_vec_len text.old + length (spec.par_line asked.now) ≤ 1024 }
    ensures { text.new.items ≡ text.old.items ++ spec.par_line asked.now }
{
    let mut value = ArrayVec::new();
    asked.par.print_into(&mut value);
    push_line(text, side_text(asked.side), &value);
}

#[tactic(auto, unfolding(crate::specs::Confirmation::name_lines))]
fn push_name_lines(text: &mut ArrayVec<u8, 1024>, issue: &IssueRow)
    requires { array_vec_len text.old + length (spec.name_lines issue.now) ≤ 1024 }
    ensures { text.new.items ≡ text.old.items ++ spec.name_lines issue.now }
{
    push_line(text, b"CUSIP", &issue.cusip);
    push_line(text, b"ISSUE", &issue.name);
}

#[tactic(auto, unfolding(crate::specs::Confirmation::terms_lines))]
fn push_terms_lines(text: &mut ArrayVec<u8, 1024>, issue: &IssueRow)
    requires { array_vec_len text.old + length (spec.terms_lines issue.now) ≤ 1024 }
    ensures { text.new.items ≡ text.old.items ++ spec.terms_lines issue.now }
{
    let mut coupon = ArrayVec::new();
    issue.coupon.print_into(&mut coupon);
    push_line(text, b"COUPON", &coupon);
    push_day_line(text, b"DATED", &issue.dated);
    push_day_line(text, b"MATURITY", &issue.maturity);
    push_basis_line(text, issue.basis);
}

fn push_basis_line(text: &mut ArrayVec<u8, 1024>, basis: Basis)
    requires { array_vec_len text.old + length (spec.basis_line basis) ≤ 1024 }
    ensures { text.new.items ≡ text.old.items ++ spec.basis_line basis }
{
    match basis {
        Basis::Thirty360 => {}
        Basis::Actual365 => push_line(text, b"BASIS", b"ACTUAL/365"),
    }
}

/// Replaces the text by the confirmation of a version of a trade, which has this number, in the
/// issue that it is of.
///
/// Its first line says whether the version entered, corrected or canceled the trade. Then come the
/// desk, the reference, the par that was bought or sold, the terms of the issue, the settlement, and
/// the lines of the figures, each with its line end.
pub fn confirmation(
    issue: &Issue,
    key: &Key,
    number: u32,
    version: &Version,
    text: &mut ArrayVec<u8, 1024>,
)
    // promise 6: a confirmation, byte for byte
    ensures items { text.new.items
        ≡ spec.confirmation_text issue.now key.now number version.now }
    // promise 10: at most 685 bytes
    ensures len { array_vec_len text.new ≤ 685 }
{
    let asked = &version.terms.asked;
    confirmation_fits(issue, key, number, version);
    text.clear();
    push_trade_lines(text, version.act, number, key);
    push_par_line(text, asked);
    push_name_lines(text, issue.row());
    push_terms_lines(text, issue.row());
    push_day_line(text, b"SETTLEMENT", &asked.settle);
    let mut lines = ArrayVec::new();
    figure_lines(&version.figures, &asked.given, asked.fee, &mut lines);
    push(text, &lines);
}
