//! The trades of a desk, a page at a time.

ghost use Rattle.std.specs.Prelude.{◌≡◌, ◌++◌, IfOk, IfSome, OnOk, option_map};
ghost use Rattle.muni_keep.specs.Keeper.{OnlyReads};
ghost use Rattle.muni_desk_import.specs.Confirm.{confirmed, of_version};
ghost use Rattle.muni_desk_export.specs.Looks.{LooksOver};
ghost use Rattle.muni_desk_export.specs.Pieces.{IsNext};
ghost use Rattle.muni_desk_export.specs.Trades as spec;

use crate::versions::{key_of, version_of};
use arrayvec::ArrayVec;
use muni_confirm::{confirmation, refusal_line};
use muni_dec::text::push;
use muni_edge::NoMemory;
use muni_export::RowWriter;
use muni_keep::{KeepFault, Keeper};
use muni_msg::{DeskName, Key, Line, Reference, Refusal, Version};
use muni_terms::Issue;
use std::alloc::Global;

/// How a trade is written.
#[derive(Clone, Copy, Debug)]
pub(crate) enum Style {
    /// A row for each version.
    Rows,
    /// A line of a list.
    Line,
    /// The confirmation of the last version.
    Confirmation,
}

/// The text of the next page of a desk's trades after a reference. `None` after the last page.
pub(crate) fn next_page<K: Keeper>(
    alloc: Global,
    keeper: &mut K,
    desk: &DeskName,
    style: Style,
    after: &mut Option<Reference>,
) -> Result<Option<Vec<u8>>, KeepFault>
    ensures next { IfOk result (λ piece. IfSome (K.tables keeper.old) (λ t.
        IsNext (spec.trades_left t style desk.now after.old) (option_map (λ text. text.items) piece)
        (spec.trades_left t style desk.now after.new))) }
    ensures looks { LooksOver K.Keeper result keeper.old keeper.new }
{
    let page = keeper.page(desk, after)?;
    let Some(last) = page.last() else {
        return Ok(None);
    };
    let is_first = after.is_none();
    let text = page_text(alloc, keeper, desk, style, is_first, page.as_slice())?;
    *after = Some(last.reference.copy());
    Ok(Some(text))
}

// The text of the trades of a page, which begins with the first of its desk or not.
fn page_text<K: Keeper>(
    alloc: Global,
    keeper: &mut K,
    desk: &DeskName,
    style: Style,
    is_first: bool,
    page: &[Line],
) -> Result<Vec<u8>, KeepFault>
    requires { IfSome (K.tables keeper.old) (λ t. spec.AreOf t desk.now page.now) }
    ensures text { IfOk result (λ text. IfSome (K.tables keeper.old)
        (λ t. text.items ≡ spec.trade_texts t style is_first desk.now page.now)) }
    ensures looks { LooksOver K.Keeper result keeper.old keeper.new }
{
    match style {
        Style::Rows => rows_of(alloc, keeper, desk, page),
        Style::Line => Ok(lines_of(alloc, page)?),
        Style::Confirmation => confirmations_of(alloc, keeper, desk, is_first, page),
    }
}

fn rows_of<K: Keeper>(
    alloc: Global,
    keeper: &mut K,
    desk: &DeskName,
    page: &[Line],
) -> Result<Vec<u8>, KeepFault>
    requires { IfSome (K.tables keeper.old) (λ t. spec.AreOf t desk.now page.now) }
    ensures text { IfOk result (λ text. IfSome (K.tables keeper.old)
        (λ t. text.items ≡ spec.rows_of t desk.now page.now)) }
    ensures looks { LooksOver K.Keeper result keeper.old keeper.new }
{
    let mut rows = RowWriter::new(alloc);
    for line in page {
        put_versions(keeper, &key_of(desk, line), line, &mut rows)?;
    }
    Ok(rows.finish()?)
}

// The rows of all versions of a trade, of which the line has the last.
fn put_versions<K: Keeper>(
    keeper: &mut K,
    key: &Key,
    line: &Line,
    rows: &mut RowWriter,
) -> Result<(), KeepFault>
    requires { IfSome (K.tables keeper.old) (λ t. spec.IsLineOf t key.now line.now) }
    ensures rows { OnOk result (IfSome (K.tables keeper.old)
        (λ t. rows.new ≡ rows.old ++ spec.trade_rows t key.now)) }
    ensures looks { LooksOver K.Keeper result keeper.old keeper.new }
{
    for number in 1..line.number {
        let version = version_of(keeper, key, number)?;
        put_version(keeper, key, number, &version, rows)?;
    }
    put_version(keeper, key, line.number, &line.version, rows)?;
    Ok(())
}

// The row of a version.
fn put_version<K: Keeper>(
    keeper: &mut K,
    key: &Key,
    number: u32,
    version: &Version,
    rows: &mut RowWriter,
) -> Result<(), KeepFault>
    ensures row { OnOk result (IfSome (K.tables keeper.old)
        (λ t. rows.new ≡ rows.old ++ spec.version_text t key.now number version.now)) }
    ensures reads { OnlyReads K.Keeper result keeper.old keeper.new }
{
    let last = keeper.last_issue(&version.terms.asked.cusip)?;
    let issue_number = unless_last(&last, version.issue_number);
    rows.version(key, number, version, issue_number)?;
    Ok(())
}

// The number of terms of an issue, unless they are its last ones.
fn unless_last(last: &Option<(u32, Issue)>, number: u32) -> Option<u32>
    ensures { result ≡ spec.unless_last last.now number }
{
    match last {
        Some(last) if last.0 == number => None,
        _ => Some(number),
    }
}

fn lines_of(alloc: Global, page: &[Line]) -> Result<Vec<u8>, NoMemory>
    ensures { IfOk result (λ text. text.items ≡ spec.lines_of page.now) }
{
    let mut lines = RowWriter::new(alloc);
    for line in page {
        lines.line(line)?;
    }
    lines.finish()
}

fn confirmations_of<K: Keeper>(
    alloc: Global,
    keeper: &mut K,
    desk: &DeskName,
    is_first: bool,
    page: &[Line],
) -> Result<Vec<u8>, KeepFault>
    requires { IfSome (K.tables keeper.old) (λ t. spec.AreOf t desk.now page.now) }
    ensures text { IfOk result (λ text. IfSome (K.tables keeper.old)
        (λ t. text.items ≡ spec.confirmations_of t is_first desk.now page.now)) }
    ensures looks { LooksOver K.Keeper result keeper.old keeper.new }
{
    let mut text = Vec::new(alloc);
    let mut starts = is_first;
    for line in page {
        text.extend_from_slice(separator(starts))?;
        starts = false;
        let confirmation = confirmation_of(keeper, &key_of(desk, line), line)?;
        text.extend_from_slice(confirmation.as_slice())?;
    }
    Ok(text)
}

// What stands before the confirmation of a trade, which is the first of its desk or not.
fn separator(is_first: bool) -> &'static [u8]
    ensures { result.now ≡ spec.separator is_first }
{
    if is_first { b"" } else { b"\n" }
}

// The confirmation of a trade, of which the line has the last version, or the line of a refusal.
fn confirmation_of<K: Keeper>(
    keeper: &mut K,
    key: &Key,
    line: &Line,
) -> Result<ArrayVec<u8, 1024>, KeepFault>
    requires { IfSome (K.tables keeper.old) (λ t. spec.IsLineOf t key.now line.now) }
    ensures text { IfOk result (λ text. IfSome (K.tables keeper.old)
        (λ t. text.items ≡ (confirmed t key.now).text)) }
    ensures reads { OnlyReads K.Keeper result keeper.old keeper.new }
{
    let version = &line.version;
    let issue = keeper.issue_numbered(&version.terms.asked.cusip, version.issue_number)?;
    Ok(confirmed_by(&issue, key, line))
}

fn confirmed_by(issue: &Option<Issue>, key: &Key, line: &Line) -> ArrayVec<u8, 1024>
    ensures { result.items ≡ (of_version key.now line.now.number line.now.version issue.now).text }
{
    let mut text = ArrayVec::new();
    let Some(issue) = issue else {
        let mut refusal = ArrayVec::new();
        refusal_line(&Refusal::UnknownIssue, &mut refusal);
        push(&mut text, &refusal);
        return text;
    };
    confirmation(issue, key, line.number, &line.version, &mut text);
    text
}
