//! Laws of the columns: what is written in them is read from them again, and nothing else is read.
//!
//! A body here reads values only to know the ranges of their types.

ghost use Rattle.std.specs.Prelude.{◌≡◌, pos, length, Some};
ghost use Rattle.muni_dec.specs.Values.{if_yield, if_printed_yield};
ghost use Rattle.muni_days.specs.Day.{civil, day_text};
ghost use Rattle.muni_msg.specs.Codes.{act_code, given_code, given_units, label_code, side_code};
ghost use Rattle.muni_msg.specs.Fields.{day_in};
ghost use Rattle.muni_store_rows.specs.Codes as codes;
ghost use Rattle.muni_store_rows.specs.Laws.{ReadsIssuesAsWritten, ReadsVersionsAsWritten};
ghost use Rattle.muni_store_rows.specs.Issue as issues;
ghost use Rattle.muni_store_rows.specs.Version as versions;

use muni_days::Day;
use muni_dec::{Cents, Fee, Par, Price, Price3, Yield, Yield3};
use muni_msg::{Act, Asked, Figures, Given, Key, Side, Version};
use muni_terms::{Issue, Label};

/// A law: the columns in which an issue is written by its terms with a number are read as that number and
/// these terms.
#[tactic(auto, unfolding(crate::specs::Issue::numbered_of, crate::specs::Issue::numbered_columns))]
pub fn issues_are_read_again(number: u32, issue: &Issue)
    // promise 8: what is written of terms with their number is read as these
    ensures { issues.numbered_of (issues.numbered_columns number issue.now) ≡ Some (number, issue.now) }
{
    number_is_read_again(number);
    terms_are_read_again(issue);
}

fn terms_are_read_again(issue: &Issue)
    ensures { issues.issue_of (issues.columns_of issue.now) ≡ Some issue.now }
{
    let row = issue.row();
    nine_characters(&row.cusip);
    let _name = row.name.as_slice();
    let _coupon = row.coupon.units();
    let _calls = row.calls.as_slice();
}

/// A law: columns that are read as numbered terms of an issue are those in which they are written.
pub fn issues_are_read_as_written()
    // promise 8: and no other columns are read as these terms
    ensures { ReadsIssuesAsWritten }
{}

fn nine_characters(cusip: &[u8; 9])
    ensures { length cusip.now ≡ 9 }
{}

/// A law: the columns in which a version is written are read as that version, with its trade and
/// its number.
#[tactic(auto, unfolding(crate::specs::Version::trade_of, crate::specs::Version::columns_of))]
pub fn versions_are_read_again(key: &Key, number: u32, version: &Version)
    // promise 8: what is written of a version is read as it
    ensures { versions.trade_of (versions.columns_of key.now number version.now)
        ≡ Some (key.now, number, version.now) }
{
    key_is_read_again(key);
    number_is_read_again(number);
    number_is_read_again(version.issue_number);
    act_is_read_again(version.act);
    asked_is_read_again(&version.terms.asked);
    figures_are_read_again(&version.figures);
}

/// A law: columns that are read as a version of a trade are those in which it is written.
pub fn versions_are_read_as_written()
    // promise 8: and no other columns are read as this version
    ensures { ReadsVersionsAsWritten }
{}

#[tactic(auto, using(crate::proofs::NameLemmas::name_again), unfolding(crate::specs::Version::key_of))]
fn key_is_read_again(key: &Key)
    ensures { versions.key_of key.now.desk key.now.reference ≡ Some key.now }
{
    let _desk = key.desk.bytes();
    let _reference = key.reference.bytes();
}

#[tactic(auto, unfolding(crate::specs::Version::asked_of, crate::specs::Version::asked_columns))]
fn asked_is_read_again(asked: &Asked)
    ensures { versions.asked_of (versions.asked_columns asked.now) ≡ Some asked.now }
{
    given_is_read_again(asked.given);
    cusip_is_read_again(&asked.cusip);
    par_is_read_again(asked.par);
    day_is_read_again(asked.settle);
    side_is_read_again(asked.side);
    fee_is_read_again(asked.fee);
}

#[tactic(auto, unfolding(crate::specs::Version::figures_of, crate::specs::Version::figure_columns))]
fn figures_are_read_again(figures: &Figures)
    ensures { versions.figures_of (versions.figure_columns figures.now) ≡ Some figures.now }
{
    printed_price_is_read_again(figures.price);
    printed_yield_is_read_again(figures.yld);
    day_is_read_again(figures.redemption);
    price_is_read_again(figures.at);
    label_is_read_again(figures.label);
    day_count_is_read_again(figures.days);
    money_is_read_again(figures.principal);
    money_is_read_again(figures.accrued);
    money_is_read_again(figures.commission);
    money_is_read_again(figures.total);
}

#[tactic(auto, unfolding(crate::specs::Codes::count))]
fn number_is_read_again(number: u32)
    ensures { codes.count (pos number) ≡ Some number }
{}

#[tactic(auto, unfolding(crate::specs::Codes::signed_count))]
fn day_count_is_read_again(days: i32)
    ensures { codes.signed_count days ≡ Some days }
{}

#[tactic(auto, unfolding(crate::specs::Codes::code_in))]
fn act_is_read_again(act: Act)
    ensures { codes.act_of (pos (act_code act)) ≡ Some act }
{}

#[tactic(auto, unfolding(crate::specs::Codes::code_in))]
fn side_is_read_again(side: Side)
    ensures { codes.side_of (pos (side_code side)) ≡ Some side }
{}

#[tactic(auto, unfolding(crate::specs::Codes::code_in))]
fn label_is_read_again(label: Label)
    ensures { codes.label_of (pos (label_code label)) ≡ Some label }
{}

#[tactic(auto, unfolding(crate::specs::Codes::code_in))]
fn given_is_read_again(given: Given)
    ensures { codes.given_of (pos (given_code given)) (given_units given) ≡ Some given }
{
    match given {
        Given::AtYield(y) => yield_is_read_again(y),
        Given::AtPrice(price) => price_is_read_again(price),
        Given::AtRate(rate) => yield_is_read_again(rate),
    }
}

#[tactic(auto, unfolding(crate::specs::Codes::cusip_of))]
fn cusip_is_read_again(cusip: &[u8; 9])
    ensures { codes.cusip_of cusip.now ≡ Some cusip.now }
{}

#[tactic(auto, using(crate::proofs::TextLemmas::day_again))]
fn day_is_read_again(date: Day)
    ensures { day_in (day_text (civil date)) ≡ Some date }
{}

fn yield_is_read_again(y: Yield)
    ensures { if_yield y ≡ Some y }
{
    let _range = y.units();
}

fn printed_yield_is_read_again(y: Yield3)
    ensures { if_printed_yield y ≡ Some y }
{
    let _range = y.units();
}

#[tactic(auto, unfolding(crate::specs::Codes::price_of))]
fn price_is_read_again(price: Price)
    ensures { codes.price_of (pos price) ≡ Some price }
{
    let _range = price.units();
}

#[tactic(auto, unfolding(crate::specs::Codes::printed_price_of))]
fn printed_price_is_read_again(price: Price3)
    ensures { codes.printed_price_of (pos price) ≡ Some price }
{
    let _range = price.units();
}

#[tactic(auto, unfolding(crate::specs::Codes::par_of))]
fn par_is_read_again(par: Par)
    ensures { codes.par_of (pos par) ≡ Some par }
{
    let _range = par.units();
}

#[tactic(auto, unfolding(crate::specs::Codes::fee_of))]
fn fee_is_read_again(fee: Fee)
    ensures { codes.fee_of (pos fee) ≡ Some fee }
{
    let _range = fee.units();
}

#[tactic(auto, unfolding(crate::specs::Codes::money_of))]
fn money_is_read_again(money: Cents)
    ensures { codes.money_of (pos money) ≡ Some money }
{
    let _range = money.units();
}
