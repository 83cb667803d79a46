//! Rows as the commands of a desk, and the texts of what is answered to them, worked by hand.

ghost use Rattle.std.specs.Prelude.{◌≡◌};

use arrayvec::ArrayVec;
use muni_book::apply;
use muni_confirm::refusal_line;
use muni_dec::Coupon;
use muni_edge::NoGate;
use muni_import::{read_rows, report_row};
use muni_keep::{KeepFault, Keeper};
use muni_msg::{Command, DeskName, Key, Line, Reply, Version};
use muni_multi::Horner;
use muni_test_samples::key;
use std::alloc::Global;
use std::thread::Threads;

/// A trade that is entered, sent again, corrected and canceled, its issue that is amended before the cancel, and what is
/// refused on the way.
pub const ROWS: &str =
    "issue,123456AA3,RIVERTON WATER 5S 2025,periodic,2020-01-01,2020-07-01,2025-01-01,5,
trade,ALPHA,T0001,123456AA3,buy,25000,2024-04-01,yield,4
trade,ALPHA,T0001,123456AA3,buy,25000,2024-04-01,yield,4
trade,ALPHA,T0001,123456AA3,buy,30000,2024-04-01,yield,4
correct,ALPHA,T0001,3,123456AA3,buy,30000,2024-04-01,yield,4
correct,ALPHA,T0001,2,123456AA3,buy,30000,2024-04-01,yield,4
amend,123456AA3,3,RIVERTON WATER 5S 2025,periodic,2020-01-01,2020-07-01,2025-01-01,4.5,
amend,123456AA3,2,RIVERTON WATER 5S 2025,periodic,2020-01-01,2020-07-01,2025-01-01,4.5,
cancel,ALPHA,T0001,3
correct,ALPHA,T0001,4,123456AA3,buy,30000,2024-04-01,yield,4
confirm,T0001
confirm,T0009
trade,ALPHA,T0002,000000000,buy,25000,2024-04-01,yield,4
list,BETA
list,ALPHA
";

pub const ANSWERS: &str = "added,123456AA3
confirmed,T0001,1,100.725,4.000,2025-01-01,25493.75
confirmed,T0001,1,100.725,4.000,2025-01-01,25493.75
REFUSED 3 Conflict version 1
REFUSED 12 WrongNumber 2
confirmed,T0001,2,100.725,4.000,2025-01-01,30592.50
REFUSED 12 WrongNumber 2
amended,123456AA3,2
confirmed,T0001,3,100.725,4.000,2025-01-01,30592.50
REFUSED 11 Canceled
confirmed,T0001,3,100.725,4.000,2025-01-01,30592.50
REFUSED 2 UnknownTrade
REFUSED 1 UnknownIssue
listed
listed,T0001
";

/// The command of a row. Beside the rows of an import there are those that confirm a trade of ALPHA and
/// that list a desk.
fn command(alloc: Global, row: &str) -> Option<Command> {
    if let Some(reference) = row.strip_prefix("confirm,") {
        let key = key("ALPHA", reference)?;
        return Some(Command::Confirm { key });
    }
    if let Some(desk) = row.strip_prefix("list,") {
        let desk = DeskName::read(desk.as_bytes()).ok()?;
        return Some(Command::List { desk, after: None });
    }
    read_rows(alloc, row.as_bytes()).ok()?.pop()?.ok()
}

fn commands(alloc: Global, rows: &str) -> Option<Vec<Command>> {
    let mut commands = Vec::new(alloc);
    for row in rows.lines() {
        commands.push(command(alloc, row)?).ok()?;
    }
    Some(commands)
}

/// Pushes the references of a list.
fn push_list(text: &mut Vec<u8>, lines: &[Line]) -> Option<()> {
    text.extend_from_slice(b"listed").ok()?;
    for line in lines {
        text.push(b',').ok()?;
        text.extend_from_slice(line.reference.bytes()).ok()?;
    }
    text.push(b'\n').ok()
}

/// Pushes the line of a refusal or of a list, or what comes after the place in the report of an import.
fn push_answer(text: &mut Vec<u8>, reply: Reply) -> Option<()> {
    if let Reply::Refused(why) = &reply {
        let mut line = ArrayVec::new();
        refusal_line(why, &mut line);
        return text.extend_from_slice(&line).ok();
    }
    if let Reply::Listed(lines) = &reply {
        return push_list(text, lines);
    }
    let mut line = ArrayVec::new();
    report_row(1, &Ok(reply), &mut line);
    text.extend_from_slice(line.strip_prefix(b"1,")?).ok()
}

/// What is answered to the rows of a text, a line each, if each of them is answered.
pub fn said<R: Threads + Sync, K: Keeper>(
    rt: &R,
    alloc: Global,
    keeper: &mut K,
    rows: &str,
) -> Option<Vec<u8>>
    ensures lent_as { K.lent_as keeper.new ≡ K.lent_as keeper.old }
{
    let commands = commands(alloc, rows)?;
    let mut text = Vec::new(alloc);
    for command in &commands {
        let reply = apply(rt, keeper, command, 2, &Horner, &NoGate).ok()?;
        push_answer(&mut text, reply)?;
    }
    Some(text)
}

/// What a keeper has of the worked issue, of a trade, and of the desk of the trade.
#[derive(Clone, Copy, Debug, PartialEq, Eq)]
pub struct Kept {
    /// The number of its last terms, and their coupon.
    pub terms: Option<(u32, Coupon)>,
    pub last: Option<(u32, Version)>,
    pub trades: u32,
}

/// Looks at the tables of a keeper.
pub fn kept_of<K: Keeper>(keeper: &mut K, key: &Key) -> Result<Kept, KeepFault> {
    let terms = match keeper.last_issue(b"123456AA3")? {
        Some((number, issue)) => Some((number, issue.row().coupon)),
        None => None,
    };
    Ok(Kept {
        terms,
        last: keeper.last(key)?,
        trades: keeper.trades(&key.desk)?,
    })
}

/// Whether two keepers have the same, if each answers.
fn are_alike<K: Keeper>(keeper: &mut K, other: &mut K, key: &Key) -> bool {
    match (kept_of(keeper, key), kept_of(other, key)) {
        (Ok(kept), Ok(also)) => kept == also,
        _ => false,
    }
}

/// How many rows failed at first and were answered so when they were sent again, if all the others are answered so at
/// once. From the first that fails on, the tables are those of a keeper that does not fail, before a row and after it.
pub fn failed_once<R: Threads + Sync, K: Keeper>(
    rt: &R,
    alloc: Global,
    keeper: &mut K,
    sound: &mut K,
) -> Option<u32> {
    let key = key("ALPHA", "T0001")?;
    let mut failed = 0_u32;
    for (row, answer) in ROWS.lines().zip(ANSWERS.lines()) {
        let mut text = said(rt, alloc, keeper, row);
        if text.is_none() {
            failed = failed.wrapping_add(1);
            if !are_alike(keeper, sound, &key) {
                return None;
            }
            text = said(rt, alloc, keeper, row);
        }
        let is_sound = said(rt, alloc, sound, row).is_some();
        if !is_sound || text?.strip_suffix(b"\n")? != answer.as_bytes() {
            return None;
        }
        if failed > 0 && !are_alike(keeper, sound, &key) {
            return None;
        }
    }
    Some(failed)
}
