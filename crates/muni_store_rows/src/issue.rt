//! The columns of issues.

ghost use Rattle.std.specs.Prelude.{◌≡◌, ◌≤◌, pos, drop, IfSome};
ghost use Rattle.arrayvec.specs.ArrayVec.{array_vec_len};
ghost use Rattle.muni_days.specs.Day.{civil, day_text};
ghost use Rattle.muni_store_rows.specs.Issue as spec;

use crate::calls::{CallsText, print_calls, print_day, without_first, written_calls};
use crate::codes::{natural, read_code, read_count, read_coupon, units};
use arrayvec::ArrayVec;
use muni_days::Day;
use muni_msg::{basis_code, basis_of_code, kind_code, read_cusip, read_issue_name};
use muni_terms::{Issue, IssueRow, Kind, check};
use std::marker::Model;

/// The columns in which the terms of an issue are kept.
#[derive(Debug, Drop)]
pub struct IssueColumns {
    pub cusip: [u8; 9],
    pub name: ArrayVec<u8, 60>,
    /// 0 to 3: periodic, zero, interest at redemption, discount.
    pub kind: i64,
    pub dated: ArrayVec<u8, 32>,
    /// The first interest date, or nothing if there is none.
    pub first: ArrayVec<u8, 32>,
    pub maturity: ArrayVec<u8, 32>,
    pub coupon: i64,
    /// The calls, with a blank before each.
    calls: CallsText,
    /// 0 for 30/360, and 1 for actual/365.
    pub basis: i64,
}

impl Model for IssueColumns {
    ghost use Rattle.std.specs.Prelude.{drop};
    ghost use Rattle.muni_store_rows.specs.Issue as spec;

    ghost Value = { spec.Columns };

    ghost view = { λ columns. record {
      cusip = columns.cusip;
      name = columns.name.items;
      kind = columns.kind;
      dated = columns.dated.items;
      first = columns.first.items;
      maturity = columns.maturity.items;
      coupon = columns.coupon;
      calls = drop 1 columns.calls.items;
      basis = columns.basis;
    } };
}

impl IssueColumns {
    /// The calls, each as its date, a colon and its price with six decimals, with a blank between.
    pub fn calls(&self) -> &[u8]
        ensures { result.now ≡ self.now.calls }
    {
        without_first(&self.calls)
    }
}

/// The columns of an issue.
pub fn issue_columns(issue: &Issue) -> IssueColumns
    // promise 8: terms are written in the format's columns
    ensures { result ≡ spec.columns_of issue.now }
{
    row_columns(issue.row())
}

/// The columns of terms that may not have passed.
#[tactic(auto, unfolding(crate::specs::Issue::columns_of))]
pub fn row_columns(row: &IssueRow) -> IssueColumns
    ensures { result ≡ spec.columns_of row.now }
{
    IssueColumns {
        cusip: row.cusip,
        name: row.copy_name(),
        kind: i64::from(kind_code(row.kind)),
        dated: print_day(row.dated),
        first: print_first(row.kind),
        maturity: print_day(row.maturity),
        coupon: units(&row.coupon),
        calls: print_calls(row.calls.as_slice()),
        basis: i64::from(basis_code(row.basis)),
    }
}

/// The columns in which the terms of an issue are kept with their number.
#[derive(Debug, Drop)]
pub struct NumberedColumns {
    pub number: i64,
    pub terms: IssueColumns,
}

impl Model for NumberedColumns {
    ghost use Rattle.muni_store_rows.specs.Issue as spec;

    ghost Value = { spec.NumberedColumns };

    ghost view = { λ columns. record { number = columns.number; terms = columns.terms } };
}

/// The columns of an issue by its terms with this number.
#[tactic(auto, unfolding(crate::specs::Issue::numbered_columns))]
pub fn numbered_columns(number: u32, issue: &Issue) -> NumberedColumns
    // promise 8: terms and their number are written in the format's columns
    ensures { result ≡ spec.numbered_columns number issue.now }
{
    NumberedColumns {
        number: i64::from(number),
        terms: issue_columns(issue),
    }
}

fn print_first(kind: Kind) -> ArrayVec<u8, 32>
    ensures { result.items ≡ spec.first_text kind }
{
    match kind {
        Kind::Periodic { first } => print_day(first),
        Kind::Zero | Kind::AtRedemption | Kind::Discount => ArrayVec::new(),
    }
}

/// The issue with these columns, if there is one. There was no column for the basis when days were
/// counted by 30/360 alone.
pub fn issue_1(
    cusip: &str,
    name: &str,
    kind: i64,
    dated: &str,
    first: &str,
    maturity: &str,
    coupon: i64,
    calls: &str,
) -> Option<Issue>
    // promise 8: those of the first tables: 30/360, terms of number 1
    ensures read { result ≡ spec.issue_of (spec.columns_1 cusip.now name.now kind dated.now first.now
        maturity.now coupon calls.now) }
{
    issue_2(cusip, name, kind, dated, first, maturity, coupon, calls, 0)
}

/// The issue with these columns, if there is one. There was no column for a number when an issue had its
/// first terms alone.
#[tactic(auto, unfolding(crate::specs::Issue::issue_of))]
pub fn issue_2(
    cusip: &str,
    name: &str,
    kind: i64,
    dated: &str,
    first: &str,
    maturity: &str,
    coupon: i64,
    calls: &str,
    basis: i64,
) -> Option<Issue>
    // promise 8: those of tables before: terms of number 1
    ensures read { result ≡ spec.issue_of (spec.columns_2 cusip.now name.now kind dated.now first.now
        maturity.now coupon calls.now basis) }
{
    let row = IssueRow {
        cusip: read_cusip(cusip.as_bytes())?,
        name: read_issue_name(name.as_bytes())?,
        kind: read_kind(kind, first.as_bytes())?,
        basis: basis_of_code(read_code(basis)?)?,
        dated: Day::read(dated.as_bytes()).ok()?,
        maturity: Day::read(maturity.as_bytes()).ok()?,
        coupon: read_coupon(coupon)?,
        calls: written_calls(calls.as_bytes())?,
    };
    check(row).ok()
}

/// The number and the terms with these columns, if there are such.
#[tactic(auto, unfolding(crate::specs::Issue::numbered_of))]
pub fn issue_3(
    cusip: &str,
    number: i64,
    name: &str,
    kind: i64,
    dated: &str,
    first: &str,
    maturity: &str,
    coupon: i64,
    calls: &str,
    basis: i64,
) -> Option<(u32, Issue)>
    // promise 8: the columns of an issue are read as its terms with their number, or as none
    ensures read { result ≡ spec.numbered_of (spec.columns_3 cusip.now number name.now kind dated.now first.now
        maturity.now coupon calls.now basis) }
{
    let number = read_count(number)?;
    let issue = issue_2(
        cusip, name, kind, dated, first, maturity, coupon, calls, basis,
    )?;
    Some((number, issue))
}

fn read_kind(kind: i64, first: &[u8]) -> Option<Kind>
    ensures { result ≡ spec.kind_of kind first.now }
{
    let kind = natural(kind)?;
    if kind == 0 {
        let first = Day::read(first).ok()?;
        return Some(Kind::Periodic { first });
    }
    if !first.is_empty() {
        return None;
    }
    match kind {
        1 => Some(Kind::Zero),
        2 => Some(Kind::AtRedemption),
        3 => Some(Kind::Discount),
        _ => None,
    }
}
