//! The confirmation of a kept trade.

ghost use Rattle.std.specs.Prelude.{◌≡◌, ◌≤◌, None, IfOk, IfSome, IsErrOf};
ghost use Rattle.muni_confirm.specs.Refusal.{refusal_text};
ghost use Rattle.muni_edge.specs.Faults.{Rose};
ghost use Rattle.muni_keep.specs.Cabinet.{LeavesAll};
ghost use Rattle.muni_keep.specs.Keeper.{OnlyReads};
ghost use Rattle.muni_desk_io.specs.Reports.{ReportsWrites};
ghost use Rattle.muni_desk_import.specs.Confirm.{confirmed};
ghost use Rattle.muni_desk_import.specs.Confirmed.{Confirmed};

use arrayvec::ArrayVec;
use muni_confirm::{confirmation, refusal_line};
use muni_dec::text::push;
use muni_desk_io::{Fault, write};
use muni_edge::Sink;
use muni_keep::{Cabinet, KeepFault, Keeper};
use muni_msg::{Key, Refusal};

/// Which answer was written.
#[derive(Clone, Copy, Debug, PartialEq, Eq)]
pub enum Answered {
    /// The confirmation of the trade.
    Confirmed,
    /// The line of a refusal.
    Refused,
}

/// Writes the confirmation of the last version of a trade that a store keeps, or the line of a refusal
/// where none is kept.
///
/// It goes by the terms of the issue by which that version was figured, whatever terms came later.
pub fn confirm<O: Sink, C: Cabinet>(
    store: &[u8],
    key: &Key,
    output: &mut O,
    cabinet: &mut C,
) -> Result<Answered, Fault>
    requires { C.out cabinet.old ≡ None }
    // promise 6, 9: the confirmation of the last version, by the terms that it names, or the refusal, and how it ends
    ensures confirmed { Confirmed O.Sink C.Cabinet store.now key.now result
        output.old output.new cabinet.old cabinet.new }
    // promise 7: no tables change
    ensures leaves { LeavesAll C.Cabinet cabinet.old cabinet.new }
    // promise 9: a failed write is what it ends by
    ensures writes { ReportsWrites O.Sink result output.old output.new }
    ensures puts_later { O.faults output.old ≤ O.faults output.new }
{
    let mut text = ArrayVec::new();
    let answered = fetch_answer(store, key, cabinet, &mut text)?;
    write(text.as_slice(), output)?;
    Ok(answered)
}

// The answer from the tables of a store, whose keeper is fetched and given back.
fn fetch_answer<C: Cabinet>(
    store: &[u8],
    key: &Key,
    cabinet: &mut C,
    text: &mut ArrayVec<u8, 1024>,
) -> Result<Answered, KeepFault>
    requires { C.out cabinet.old ≡ None }
    ensures answered { IfOk result (λ answered. IfSome (C.told cabinet.old store.now) (λ t.
        confirmed t key.now ≡ record { answered = answered; text = text.new.items })) }
    ensures leaves { LeavesAll C.Cabinet cabinet.old cabinet.new }
    ensures failed { IsErrOf result KeepFault.Failed → Rose (C.faults cabinet.old) (C.faults cabinet.new) }
{
    let mut keeper = cabinet.fetch(store)?;
    let answered = answer(&mut keeper, key, text);
    cabinet.give_back(keeper);
    answered
}

// The confirmation of the last version by the terms of its issue that it names, or the line of a refusal.
#[tactic(auto, unfolding(crate::specs::Confirm::confirmed))]
fn answer<K: Keeper>(
    keeper: &mut K,
    key: &Key,
    text: &mut ArrayVec<u8, 1024>,
) -> Result<Answered, KeepFault>
    ensures answered { IfOk result (λ answered. IfSome (K.tables keeper.old) (λ t.
        confirmed t key.now ≡ record { answered = answered; text = text.new.items })) }
    ensures reads { OnlyReads K.Keeper result keeper.old keeper.new }
{
    let Some((number, version)) = keeper.last(key)? else {
        refuse(&Refusal::UnknownTrade, text);
        return Ok(Answered::Refused);
    };
    let Some(issue) = keeper.issue_numbered(&version.terms.asked.cusip, version.issue_number)?
    else {
        refuse(&Refusal::UnknownIssue, text);
        return Ok(Answered::Refused);
    };
    confirmation(&issue, key, number, &version, text);
    Ok(Answered::Confirmed)
}

fn refuse(refusal: &Refusal, text: &mut ArrayVec<u8, 1024>)
    ensures { text.new.items ≡ refusal_text refusal.now }
{
    let mut line = ArrayVec::new();
    refusal_line(refusal, &mut line);
    text.clear();
    push(text, &line);
}
