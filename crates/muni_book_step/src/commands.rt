//! What is to be done for each command, by what a keeper keeps.

ghost use Rattle.std.specs.Prelude.{◌≡◌};
ghost use Rattle.muni_terms.specs.Check.{checked};
ghost use Rattle.muni_keep.specs.Trades.{own};
ghost use Rattle.muni_book_step.specs.Finds.{Finds};
ghost use Rattle.muni_book_step.specs.Plan as spec;
ghost use Rattle.muni_book_step.specs.Step.{own_of, desk_of};

use crate::Plan;
use muni_keep::{KeepFault, Keeper};
use muni_msg::{
    Act, Asked, Command, DeskLimit, DeskName, Kept, Key, Reference, Refusal, Reply, Shown, Terms,
    Version,
};
use muni_terms::{Issue, IssueRow, check};

// A trade as it is entered or corrected.
#[derive(Clone, Copy)]
struct Sent<'a> {
    key: &'a Key,
    // The number of its version.
    number: u32,
    terms: &'a Terms,
    // The number of the terms of its issue by which it is figured, or none for the last ones.
    issue_number: Option<u32>,
}

/// What is to be done for a command, if a desk may have so many trades. The keeper is only read from.
pub fn plan_of<K: Keeper>(
    keeper: &mut K,
    command: &Command,
    limit: DeskLimit,
) -> Result<Plan, KeepFault>
    // promise 4, 7: what a command does is planned by the issues and the trades of its own desk alone
    ensures plan { Finds K.Keeper keeper.old keeper.new result
        (λ t. spec.plan_of limit t.issues (own_of (desk_of command.now) t) command.now) }
{
    match command {
        Command::AddIssue(row) => add_issue(keeper, row),
        Command::Amend { number, row } => amend(keeper, *number, row),
        Command::Enter {
            key,
            terms,
            issue_number,
        } => {
            let sent = Sent {
                key,
                number: 1,
                terms,
                issue_number: *issue_number,
            };
            enter(keeper, &sent, limit)
        }
        Command::Correct {
            key,
            number,
            terms,
            issue_number,
        } => {
            let sent = Sent {
                key,
                number: *number,
                terms,
                issue_number: *issue_number,
            };
            correct(keeper, &sent)
        }
        Command::Cancel { key, number } => cancel(keeper, key, *number),
        Command::Confirm { key } => confirm(keeper, key),
        Command::Quote { asked, shown } => quote(keeper, asked, *shown),
        Command::List { desk, after } => list(keeper, desk, after),
    }
}

fn refused(why: Refusal) -> Plan
    ensures { result ≡ spec.refused why }
{
    Plan::Answer(Reply::Refused(why))
}

fn conflict(number: u32, version: Version) -> Plan
    ensures { result ≡ spec.conflict number version }
{
    refused(Refusal::Conflict(Kept::Version { number, version }))
}

fn confirmed<K: Keeper>(
    keeper: &mut K,
    key: &Key,
    number: u32,
    version: Version,
) -> Result<Plan, KeepFault>
    ensures plan { Finds K.Keeper keeper.old keeper.new result
        (λ t. spec.confirmed t.issues key.now number version) }
{
    match issue_of(keeper, &version)? {
        Some(issue) => Ok(Plan::Answer(Reply::Confirmed {
            issue,
            key: key.copy(),
            number,
            version,
        })),
        None => Ok(refused(Refusal::UnknownIssue)),
    }
}

// The issue by whose terms a version was figured.
fn issue_of<K: Keeper>(keeper: &mut K, version: &Version) -> Result<Option<Issue>, KeepFault>
    ensures issue { Finds K.Keeper keeper.old keeper.new result (λ t. spec.issue_of t.issues version.now) }
{
    keeper.issue_numbered(&version.terms.asked.cusip, version.issue_number)
}

fn sent_again<K: Keeper>(
    keeper: &mut K,
    sent: &Sent<'_>,
    version: Version,
) -> Result<Plan, KeepFault>
    ensures plan { Finds K.Keeper keeper.old keeper.new result
        (λ t. spec.sent_again t.issues sent.now.key.now sent.now.number sent.now.terms.now sent.now.issue_number version) }
{
    if version.terms == *sent.terms && is_chosen(sent.issue_number, version.issue_number) {
        confirmed(keeper, sent.key, sent.number, version)
    } else {
        Ok(conflict(sent.number, version))
    }
}

fn is_chosen(chosen: Option<u32>, number: u32) -> bool
    ensures { result ≡ spec.is_chosen chosen number }
{
    match chosen {
        Some(other) => other == number,
        None => true,
    }
}

fn add_issue<K: Keeper>(keeper: &mut K, row: &IssueRow) -> Result<Plan, KeepFault>
    ensures plan { Finds K.Keeper keeper.old keeper.new result
        (λ t. spec.issue_plan t.issues (checked row.now)) }
{
    match check(row.copy()) {
        Ok(issue) => add_checked(keeper, issue),
        Err(fault) => Ok(refused(Refusal::BadTerms(fault))),
    }
}

fn add_checked<K: Keeper>(keeper: &mut K, issue: Issue) -> Result<Plan, KeepFault>
    ensures plan { Finds K.Keeper keeper.old keeper.new result
        (λ t. spec.checked_issue_plan t.issues issue) }
{
    match keeper.issue_numbered(&issue.row().cusip, 1)? {
        Some(other) => Ok(kept_issue(&issue, other)),
        None => Ok(Plan::KeepIssue(issue)),
    }
}

fn kept_issue(issue: &Issue, other: Issue) -> Plan
    ensures { result ≡ spec.kept_issue_plan issue.now other }
{
    if other == *issue {
        Plan::Answer(Reply::Added {
            cusip: issue.row().cusip,
        })
    } else {
        refused(Refusal::Conflict(Kept::Issue(other)))
    }
}

fn amend<K: Keeper>(keeper: &mut K, number: u32, row: &IssueRow) -> Result<Plan, KeepFault>
    ensures plan { Finds K.Keeper keeper.old keeper.new result
        (λ t. spec.amendment_plan t.issues number (checked row.now)) }
{
    match check(row.copy()) {
        Ok(issue) => amend_checked(keeper, number, issue),
        Err(fault) => Ok(refused(Refusal::BadTerms(fault))),
    }
}

fn amend_checked<K: Keeper>(keeper: &mut K, number: u32, issue: Issue) -> Result<Plan, KeepFault>
    ensures plan { Finds K.Keeper keeper.old keeper.new result
        (λ t. spec.checked_amendment_plan t.issues number issue) }
{
    let cusip = issue.row().cusip;
    let Some(last) = keeper.last_issue(&cusip)? else {
        return Ok(refused(Refusal::UnknownIssue));
    };
    let kept = keeper.issue_numbered(&cusip, number)?;
    Ok(after_terms(&last, number, issue, kept))
}

// By the last terms of the issue, and by those that are kept under the number.
fn after_terms(last: &(u32, Issue), number: u32, issue: Issue, kept: Option<Issue>) -> Plan
    ensures { result ≡ spec.after_terms_plan number issue last.now kept }
{
    match kept {
        Some(other) => kept_amendment(number, &issue, other),
        None => next_amendment(last, number, issue),
    }
}

fn kept_amendment(number: u32, issue: &Issue, other: Issue) -> Plan
    ensures { result ≡ spec.kept_amendment_plan number issue.now other }
{
    if other == *issue {
        Plan::Answer(Reply::Amended {
            cusip: issue.row().cusip,
            number,
        })
    } else {
        refused(Refusal::Conflict(Kept::Issue(other)))
    }
}

fn amendment_refusal(count: u32, number: u32) -> Option<Refusal>
    ensures { result ≡ spec.amendment_refusal count number }
{
    if count >= 99 {
        return Some(Refusal::VersionsFull);
    }
    number_refusal(count, number)
}

fn next_amendment(last: &(u32, Issue), number: u32, issue: Issue) -> Plan
    ensures { result ≡ spec.next_amendment_plan number issue last.now }
{
    match amendment_refusal(last.0, number) {
        Some(why) => refused(why),
        None => Plan::KeepAmendment { number, issue },
    }
}

fn wrong_number(count: u32) -> Refusal
    ensures { result ≡ spec.wrong_number count }
{
    Refusal::WrongNumber {
        next: count.saturating_add(1),
    }
}

// The terms by which a trade is figured, with their number, or why there are none.
fn terms_for<K: Keeper>(
    keeper: &mut K,
    cusip: &[u8; 9],
    chosen: Option<u32>,
) -> Result<Result<(u32, Issue), Refusal>, KeepFault>
    ensures terms { Finds K.Keeper keeper.old keeper.new result
        (λ t. spec.terms_for t.issues cusip.now chosen) }
{
    let Some(last) = keeper.last_issue(cusip)? else {
        return Ok(Err(Refusal::UnknownIssue));
    };
    let Some(number) = chosen else {
        return Ok(Ok(last));
    };
    match keeper.issue_numbered(cusip, number)? {
        Some(issue) => Ok(Ok((number, issue))),
        None => Ok(Err(wrong_number(last.0))),
    }
}

fn enter<K: Keeper>(keeper: &mut K, sent: &Sent<'_>, limit: DeskLimit) -> Result<Plan, KeepFault>
    requires { sent.now.number ≡ 1 }
    ensures plan { Finds K.Keeper keeper.old keeper.new result
        (λ t. spec.entry_plan limit t.issues (own sent.now.key.now.desk t.desks) sent.now.key.now sent.now.terms.now sent.now.issue_number) }
{
    match keeper.version(sent.key, 1)? {
        Some(version) => sent_again(keeper, sent, version),
        None => first_entry(keeper, sent, limit),
    }
}

fn first_entry<K: Keeper>(
    keeper: &mut K,
    sent: &Sent<'_>,
    limit: DeskLimit,
) -> Result<Plan, KeepFault>
    ensures plan { Finds K.Keeper keeper.old keeper.new result
        (λ t. spec.first_entry_plan limit t.issues (own sent.now.key.now.desk t.desks) sent.now.key.now sent.now.terms.now sent.now.issue_number) }
{
    let (issue_number, issue) = match terms_for(
        keeper,
        &sent.terms.asked.cusip,
        sent.issue_number,
    )? {
        Ok(found) => found,
        Err(why) => return Ok(refused(why)),
    };
    if is_full(keeper, &sent.key.desk, limit)? {
        return Ok(refused(Refusal::DeskFull));
    }
    Ok(Plan::KeepPriced {
        issue,
        issue_number,
        key: sent.key.copy(),
        number: 1,
        act: Act::Entered,
        terms: *sent.terms,
    })
}

fn is_full<K: Keeper>(keeper: &mut K, desk: &DeskName, limit: DeskLimit) -> Result<bool, KeepFault>
    ensures full { Finds K.Keeper keeper.old keeper.new result
        (λ t. spec.is_full limit (own desk.now t.desks)) }
{
    Ok(keeper.trades(desk)? >= limit.trades())
}

fn is_corrected(act: Act) -> bool
    ensures { result ≡ spec.is_corrected act }
{
    match act {
        Act::Corrected => true,
        Act::Entered | Act::Canceled => false,
    }
}

fn is_canceled(act: Act) -> bool
    ensures { result ≡ spec.is_canceled act }
{
    match act {
        Act::Canceled => true,
        Act::Entered | Act::Corrected => false,
    }
}

fn number_refusal(count: u32, number: u32) -> Option<Refusal>
    ensures { result ≡ spec.number_refusal count number }
{
    if u64::from(number) == u64::from(count) + 1 {
        None
    } else {
        Some(wrong_number(count))
    }
}

fn correction_refusal(count: u32, last: &Version, number: u32) -> Option<Refusal>
    ensures { result ≡ spec.correction_refusal (count, last.now) number }
{
    if is_canceled(last.act) {
        return Some(Refusal::Canceled);
    }
    if count >= 99 {
        return Some(Refusal::VersionsFull);
    }
    number_refusal(count, number)
}

fn cancel_refusal(count: u32, last: &Version, number: u32) -> Option<Refusal>
    ensures { result ≡ spec.cancel_refusal (count, last.now) number }
{
    if is_canceled(last.act) {
        return Some(Refusal::Canceled);
    }
    number_refusal(count, number)
}

fn correct<K: Keeper>(keeper: &mut K, sent: &Sent<'_>) -> Result<Plan, KeepFault>
    ensures plan { Finds K.Keeper keeper.old keeper.new result
        (λ t. spec.correction_plan t.issues (own sent.now.key.now.desk t.desks) sent.now.key.now sent.now.number sent.now.terms.now sent.now.issue_number) }
{
    let Some((count, last)) = keeper.last(sent.key)? else {
        return Ok(refused(Refusal::UnknownTrade));
    };
    match keeper.version(sent.key, sent.number)? {
        Some(version) => kept_correction(keeper, sent, version),
        None => next_correction(keeper, sent, count, &last),
    }
}

fn kept_correction<K: Keeper>(
    keeper: &mut K,
    sent: &Sent<'_>,
    version: Version,
) -> Result<Plan, KeepFault>
    ensures plan { Finds K.Keeper keeper.old keeper.new result
        (λ t. spec.kept_correction_plan t.issues sent.now.key.now sent.now.number sent.now.terms.now sent.now.issue_number version) }
{
    if is_corrected(version.act) {
        sent_again(keeper, sent, version)
    } else {
        Ok(conflict(sent.number, version))
    }
}

fn next_correction<K: Keeper>(
    keeper: &mut K,
    sent: &Sent<'_>,
    count: u32,
    last: &Version,
) -> Result<Plan, KeepFault>
    ensures plan { Finds K.Keeper keeper.old keeper.new result
        (λ t. spec.next_correction_plan t.issues sent.now.key.now sent.now.number sent.now.terms.now sent.now.issue_number (count, last.now)) }
{
    if let Some(why) = correction_refusal(count, last, sent.number) {
        return Ok(refused(why));
    }
    match terms_for(keeper, &sent.terms.asked.cusip, sent.issue_number)? {
        Ok((issue_number, issue)) => Ok(Plan::KeepPriced {
            issue,
            issue_number,
            key: sent.key.copy(),
            number: sent.number,
            act: Act::Corrected,
            terms: *sent.terms,
        }),
        Err(why) => Ok(refused(why)),
    }
}

fn cancel<K: Keeper>(keeper: &mut K, key: &Key, number: u32) -> Result<Plan, KeepFault>
    ensures plan { Finds K.Keeper keeper.old keeper.new result
        (λ t. spec.cancel_plan t.issues (own key.now.desk t.desks) key.now number) }
{
    let Some((count, last)) = keeper.last(key)? else {
        return Ok(refused(Refusal::UnknownTrade));
    };
    match keeper.version(key, number)? {
        Some(version) => kept_cancel(keeper, key, number, version),
        None => next_cancel(keeper, key, number, count, &last),
    }
}

fn kept_cancel<K: Keeper>(
    keeper: &mut K,
    key: &Key,
    number: u32,
    version: Version,
) -> Result<Plan, KeepFault>
    ensures plan { Finds K.Keeper keeper.old keeper.new result
        (λ t. spec.kept_cancel_plan t.issues key.now number version) }
{
    if is_canceled(version.act) {
        confirmed(keeper, key, number, version)
    } else {
        Ok(conflict(number, version))
    }
}

fn next_cancel<K: Keeper>(
    keeper: &mut K,
    key: &Key,
    number: u32,
    count: u32,
    last: &Version,
) -> Result<Plan, KeepFault>
    ensures plan { Finds K.Keeper keeper.old keeper.new result
        (λ t. spec.next_cancel_plan t.issues key.now number (count, last.now)) }
{
    if let Some(why) = cancel_refusal(count, last, number) {
        return Ok(refused(why));
    }
    match issue_of(keeper, last)? {
        Some(issue) => Ok(Plan::KeepVersion {
            issue,
            key: key.copy(),
            number,
            version: Version {
                act: Act::Canceled,
                ..*last
            },
        }),
        None => Ok(refused(Refusal::UnknownIssue)),
    }
}

fn confirm<K: Keeper>(keeper: &mut K, key: &Key) -> Result<Plan, KeepFault>
    ensures plan { Finds K.Keeper keeper.old keeper.new result
        (λ t. spec.confirmation_plan t.issues (own key.now.desk t.desks) key.now) }
{
    match keeper.last(key)? {
        Some((number, version)) => confirmed(keeper, key, number, version),
        None => Ok(refused(Refusal::UnknownTrade)),
    }
}

fn quote<K: Keeper>(keeper: &mut K, asked: &Asked, shown: Shown) -> Result<Plan, KeepFault>
    ensures plan { Finds K.Keeper keeper.old keeper.new result
        (λ t. spec.quote_plan t.issues asked.now shown) }
{
    match keeper.issue(&asked.cusip)? {
        Some(issue) => Ok(Plan::Quote {
            issue,
            asked: *asked,
            shown,
        }),
        None => Ok(refused(Refusal::UnknownIssue)),
    }
}

fn list<K: Keeper>(
    keeper: &mut K,
    desk: &DeskName,
    after: &Option<Reference>,
) -> Result<Plan, KeepFault>
    ensures plan { Finds K.Keeper keeper.old keeper.new result
        (λ t. spec.list_plan (own desk.now t.desks) after.now) }
{
    Ok(Plan::Answer(Reply::Listed(keeper.page(desk, after)?)))
}
