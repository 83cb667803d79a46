//! Laws of exports: an import reads each row as the command that brings what was written.
//!
//! A body here reads values only to know the ranges of their types.

ghost use Rattle.std.specs.Prelude.{◌≡◌, ◌≤◌, length, decimal, Some, Ok};
ghost use Rattle.std.specs.Char.{is_ascii_alphanumeric};
ghost use Rattle.muni_dec.specs.Values.{fee_text, if_yield, par_reading, price_reading, price_text, yield_reading, yield_text};
ghost use Rattle.muni_import.specs.Row.{row_of};
ghost use Rattle.muni_msg.specs.Fields.{fee_field, given_reading};
ghost use Rattle.muni_msg.specs.Names.{is_desk_letter, IsName};
ghost use Rattle.muni_export.specs.Laws.{command_of, issue_command, IsWritable, RowsAreReadAgain};
ghost use Rattle.muni_export.specs.Rows.{issue_fields, version_fields};
ghost use Rattle.muni_export.specs.Words.{basis_word, value_text};

use muni_dec::{Fee, Par, Price, Yield};
use muni_msg::{Given, Key, Version};
use muni_terms::Issue;

/// A law: the row of an issue by its terms with a number is read as the command that keeps these terms.
pub fn issues_are_read_again(number: u32, issue: &Issue)
    requires { number ≤ 999_999_999 }
    // promise 6: the row of an issue is read as its terms with their number
    ensures { row_of (issue_fields number issue.now) ≡ Ok (issue_command number issue.now) }
{
    let row = issue.row();
    nine_characters(&row.cusip);
    let _name = row.name.as_slice();
    let _coupon = row.coupon.units();
    let _calls = row.calls.as_slice();
}

/// A law: the row of a version is read as the command that enters, corrects or cancels the trade so, by the
/// terms of its issue with the number that is written.
pub fn versions_are_read_again(key: &Key, number: u32, version: &Version, issue_number: Option<u32>)
    requires { IsWritable number version.now issue_number }
    // promise 6: that of a version as its entry, correction or cancel, by the terms whose number is written
    ensures { row_of (version_fields key.now number version.now issue_number)
        ≡ Ok (command_of key.now number version.now issue_number) }
{
    let asked = &version.terms.asked;
    names_are_names(key);
    nine_characters(&asked.cusip);
    par_is_read_again(asked.par);
    given_is_read_again(asked.given);
    fee_is_read_again(asked.fee);
}

/// A law: from rows one after another, each is read as its fields say.
pub fn rows_are_read_again()
    // promise 6: rows one after another are read each by itself
    ensures { RowsAreReadAgain }
{}

fn nine_characters(cusip: &[u8; 9])
    ensures { length cusip.now ≡ 9 }
{}

fn names_are_names(key: &Key)
    ensures desk { IsName is_desk_letter 16 key.now.desk }
    ensures reference { IsName is_ascii_alphanumeric 20 key.now.reference }
{
    let _desk = key.desk.bytes();
    let _reference = key.reference.bytes();
}

#[tactic(auto, using(crate::proofs::VersionLemmas::par_again))]
fn par_is_read_again(par: Par)
    ensures { par_reading (decimal par) ≡ Ok par }
{
    let _range = par.units();
}

fn given_is_read_again(given: Given)
    ensures { given_reading (basis_word given) (value_text given) ≡ Some given }
{
    match given {
        Given::AtYield(y) => percent_is_read_again(y),
        Given::AtPrice(price) => price_is_read_again(price),
        Given::AtRate(rate) => percent_is_read_again(rate),
    }
}

#[tactic(auto, using(crate::proofs::VersionLemmas::percent_again))]
fn percent_is_read_again(percent: Yield)
    ensures { yield_reading (yield_text percent) ≡ Ok percent }
{
    percent_is_in_range(percent);
}

fn percent_is_in_range(percent: Yield)
    ensures { if_yield percent ≡ Some percent }
{
    let _range = percent.units();
}

#[tactic(auto, using(crate::proofs::VersionLemmas::price_again))]
fn price_is_read_again(price: Price)
    ensures { price_reading (price_text price) ≡ Ok price }
{
    let _range = price.units();
}

#[tactic(auto, using(crate::proofs::VersionLemmas::fee_again))]
fn fee_is_read_again(fee: Fee)
    ensures { fee_field (fee_text fee) ≡ Some fee }
{
    let _range = fee.units();
}
