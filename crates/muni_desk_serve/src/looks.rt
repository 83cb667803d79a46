//! Looks at the tables.

ghost use Rattle.std.specs.Prelude.{◌≡◌, IfOk, IfSome, option_map};
ghost use Rattle.muni_keep.specs.Keeper.{OnlyReads};
ghost use Rattle.muni_keep.specs.Tables as tables;
ghost use Rattle.muni_wire.specs.Answers.{Answers};
ghost use Rattle.muni_desk_serve.specs.Look as spec;

use arrayvec::ArrayVec;
use muni_confirm::Details;
use muni_edge::{Failed, Link};
use muni_export::RowWriter;
use muni_keep::{KeepFault, Keeper};
use muni_msg::{DeskName, Key, Line, Refusal, Reply};
use muni_position::position_text;
use muni_wire::{HttpStatus, success, write_reply, write_success};
use muni_wire_body::Look;
use std::alloc::Global;

/// What a look at the tables found.
#[derive(Drop)]
pub(crate) enum Seen {
    /// A reply as the book has it.
    Reply(Reply),
    /// The bytes of an answer.
    Answer(Vec<u8>),
}

/// Looks at the tables of a keeper.
pub(crate) fn look_up<K: Keeper>(
    alloc: Global,
    keeper: &mut K,
    look: &Look,
) -> Result<Seen, KeepFault>
    ensures seen { IfOk result (λ seen. IfSome (K.tables keeper.old)
        (λ t. spec.seen_answer seen ≡ spec.look_answer t look.now)) }
    ensures reads { OnlyReads K.Keeper result keeper.old keeper.new }
{
    match look {
        Look::Issue { cusip } => look_up_issue(alloc, keeper, cusip),
        Look::Version { key, number } => look_up_version(keeper, key, *number),
        Look::Positions { desk } => look_up_positions(alloc, keeper, desk),
        Look::Latest { desk } => Ok(Seen::Reply(Reply::Listed(latest(keeper, desk)?))),
    }
}

/// Answers by what was found. Returns the status.
pub(crate) fn write_seen<L: Link>(link: &mut L, seen: &Seen) -> Result<HttpStatus, Failed>
    ensures { Answers L.Source L.Sink (spec.seen_status seen.now) (spec.seen_bytes seen.now) result link.old link.new }
{
    match seen {
        Seen::Reply(reply) => write_reply(link, reply, &Details::none()),
        Seen::Answer(answer) => write_success(link, answer),
    }
}

fn look_up_issue<K: Keeper>(
    alloc: Global,
    keeper: &mut K,
    cusip: &[u8; 9],
) -> Result<Seen, KeepFault>
    ensures seen { IfOk result (λ seen. IfSome (K.tables keeper.old)
        (λ t. spec.seen_answer seen ≡ spec.issue_answer (spec.kept_rows t cusip.now))) }
    ensures reads { OnlyReads K.Keeper result keeper.old keeper.new }
{
    match issue_rows(alloc, keeper, cusip)? {
        Some(rows) => Ok(Seen::Answer(success(alloc, &rows)?)),
        None => Ok(Seen::Reply(Reply::Refused(Refusal::UnknownIssue))),
    }
}

// The rows of all terms of an issue, if it is kept.
fn issue_rows<K: Keeper>(
    alloc: Global,
    keeper: &mut K,
    cusip: &[u8; 9],
) -> Result<Option<Vec<u8>>, KeepFault>
    ensures rows { IfOk result (λ rows. IfSome (K.tables keeper.old)
        (λ t. option_map (λ rows. rows.items) rows ≡ spec.kept_rows t cusip.now)) }
    ensures reads { OnlyReads K.Keeper result keeper.old keeper.new }
{
    let Some(last) = keeper.last_issue(cusip)? else {
        return Ok(None);
    };
    let mut rows = RowWriter::new(alloc);
    for number in 1..last.0 {
        let Some(issue) = keeper.issue_numbered(cusip, number)? else {
            return Ok(None);
        };
        rows.issue(number, &issue)?;
    }
    rows.issue(last.0, &last.1)?;
    Ok(Some(rows.finish()?))
}

fn look_up_version<K: Keeper>(keeper: &mut K, key: &Key, number: u32) -> Result<Seen, KeepFault>
    ensures seen { IfOk result (λ seen. IfSome (K.tables keeper.old) (λ t. spec.seen_answer seen
        ≡ spec.look_answer t (Look.Version key.now number))) }
    ensures reads { OnlyReads K.Keeper result keeper.old keeper.new }
{
    let Some(version) = keeper.version(key, number)? else {
        return Ok(Seen::Reply(Reply::Refused(Refusal::UnknownTrade)));
    };
    let Some(issue) = keeper.issue_numbered(&version.terms.asked.cusip, version.issue_number)?
    else {
        return Ok(Seen::Reply(Reply::Refused(Refusal::UnknownIssue)));
    };
    Ok(Seen::Reply(Reply::Confirmed {
        issue,
        key: key.copy(),
        number,
        version,
    }))
}

fn look_up_positions<K: Keeper>(
    alloc: Global,
    keeper: &mut K,
    desk: &DeskName,
) -> Result<Seen, KeepFault>
    ensures seen { IfOk result (λ seen. IfSome (K.tables keeper.old)
        (λ t. spec.seen_answer seen ≡ spec.look_answer t (Look.Positions desk.now))) }
    ensures reads { OnlyReads K.Keeper result keeper.old keeper.new }
{
    match position_text(alloc, keeper, desk)? {
        Some(text) => Ok(Seen::Answer(success(alloc, &text)?)),
        None => Ok(Seen::Reply(Reply::Refused(Refusal::DeskFull))),
    }
}

// The last 50 trades of a desk.
fn latest<K: Keeper>(keeper: &mut K, desk: &DeskName) -> Result<ArrayVec<Line, 50>, KeepFault>
    ensures found { IfOk result (λ lines. IfSome (K.tables keeper.old)
        (λ t. lines.items ≡ tables.latest_at t desk.now)) }
    ensures reads { OnlyReads K.Keeper result keeper.old keeper.new }
{
    let before = keeper.before_latest(desk)?;
    keeper.page(desk, &before)
}
