//! The book: what each command is answered, and what is kept for it.

ghost use Rattle.std.specs.Prelude.{◌≡◌, IfOk, IfSome, OnErr};
ghost use Rattle.muni_keep.specs.History.{next_number};
ghost use Rattle.muni_keep.specs.Keeper.{SameKeeper};
ghost use Rattle.muni_keep.specs.Tables.{issue_history, trade_at};
ghost use Rattle.muni_book_step.specs.Runs.{StepsTo, IsRefusal};
ghost use Rattle.muni_book_step.specs.Step.{CanKeep};
ghost use Rattle.muni_book_step.specs.CarriedOut.{IsCarriedOut, KeepsIssue, KeepsAmendment, KeepsVersion};
ghost use Rattle.muni_answer.specs.Answers.{IsRightAnswer};
ghost use Rattle.muni_book.specs.Rules.{book_rules};

use crate::{Book, BookFault};
use muni_answer::figures;
use muni_book_step::{Plan, plan_of};
use muni_edge::Gate;
use muni_keep::{KeepFault, Keeper};
use muni_msg::{Command, Key, Reply, Version};
use muni_multi::Encloser;
use muni_sched::{Calculator, Schedule};
use muni_terms::Issue;
use std::thread::Threads;

/// Applies one command: answers it, and keeps at most one issue or one version more for it.
///
/// Nothing is kept for a command that is refused. If the keeper fails or is out of memory, one that
/// exposes its tables has kept nothing; any other may have kept the put that failed, as a file does if
/// its sync failed. The contract says what is answered for a keeper that exposes its tables. For any
/// other keeper only the code shows it.
pub fn step<R: Threads + Sync, K: Keeper, E: Encloser + Sync, G: Gate + Sync>(
    book: &Book<'_, R, E, G>,
    keeper: &mut K,
    command: &Command,
) -> Result<Reply, BookFault>
    // If the keeper exposes its tables, a reply and the tables after it are those of one step.
    // promise 4, 6, 7: a reply and at most one entry are those of one step
    ensures step { IfOk result (λ reply. IfSome (K.tables keeper.old) (λ t.
        StepsTo (book_rules book.now.limit (E.ends book.now.calculator.now.encloser.now)) t command.now reply (K.tables keeper.new))) }
    // promise 7: a refused command leaves the tables as they were
    ensures refused { IfOk result (λ reply. IsRefusal reply → K.tables keeper.new ≡ K.tables keeper.old) }
    // promise 7: so does a fault or a lack of memory
    ensures unchanged { OnErr result (K.tables keeper.new ≡ K.tables keeper.old) }
    // promise 9: a step fails only if the keeper's count rose
    ensures same { SameKeeper K.Keeper BookFault.Failed result keeper.old keeper.new }
{
    let plan = plan_of(keeper, command, book.limit)?;
    Ok(carry_out(book.calculator, keeper, plan)?)
}

fn carry_out<R: Threads + Sync, K: Keeper, E: Encloser + Sync, G: Gate + Sync>(
    calculator: &Calculator<'_, R, E, G>,
    keeper: &mut K,
    plan: Plan,
) -> Result<Reply, KeepFault>
    requires can_keep { IfSome (K.tables keeper.old) (λ t. CanKeep t plan) }
    ensures done { IfOk result (λ reply. IfSome (K.tables keeper.old) (λ t.
        IsCarriedOut (IsRightAnswer (E.ends calculator.now.encloser.now)) plan t reply
        (K.tables keeper.new))) }
    ensures unchanged { OnErr result (K.tables keeper.new ≡ K.tables keeper.old) }
    ensures same { SameKeeper K.Keeper KeepFault.Failed result keeper.old keeper.new }
{
    match plan {
        Plan::Answer(reply) => Ok(reply),
        Plan::Quote {
            issue,
            asked,
            shown,
        } => {
            match figures(calculator, &issue, &asked, &mut Schedule::new()) {
                Ok(figures) => Ok(Reply::Quoted {
                    issue,
                    asked,
                    figures,
                    shown,
                }),
                Err(why) => Ok(Reply::Refused(why)),
            }
        }
        Plan::KeepIssue(issue) => keep_issue(keeper, &issue),
        Plan::KeepAmendment { number, issue } => keep_amendment(keeper, number, &issue),
        Plan::KeepVersion {
            issue,
            key,
            number,
            version,
        } => keep_version(keeper, issue, key, number, version),
        Plan::KeepPriced {
            issue,
            issue_number,
            key,
            number,
            act,
            terms,
        } => match figures(calculator, &issue, &terms.asked, &mut Schedule::new()) {
            Ok(figures) => {
                let version = Version {
                    act,
                    terms,
                    issue_number,
                    figures,
                };
                keep_version(keeper, issue, key, number, version)
            }
            Err(why) => Ok(Reply::Refused(why)),
        },
    }
}

fn keep_issue<K: Keeper>(keeper: &mut K, issue: &Issue) -> Result<Reply, KeepFault>
    requires { IfSome (K.tables keeper.old) (λ t. 1 ≡ next_number (issue_history t issue.now.cusip)) }
    ensures kept { IfOk result (KeepsIssue issue.now (K.tables keeper.old) (K.tables keeper.new)) }
    ensures unchanged { OnErr result (K.tables keeper.new ≡ K.tables keeper.old) }
    ensures same { SameKeeper K.Keeper KeepFault.Failed result keeper.old keeper.new }
{
    keeper.put_issue(1, issue)?;
    Ok(Reply::Added {
        cusip: issue.row().cusip,
    })
}

fn keep_amendment<K: Keeper>(keeper: &mut K, number: u32, issue: &Issue) -> Result<Reply, KeepFault>
    requires { IfSome (K.tables keeper.old) (λ t. number ≡ next_number (issue_history t issue.now.cusip)) }
    ensures kept { IfOk result (KeepsAmendment number issue.now (K.tables keeper.old) (K.tables keeper.new)) }
    ensures unchanged { OnErr result (K.tables keeper.new ≡ K.tables keeper.old) }
    ensures same { SameKeeper K.Keeper KeepFault.Failed result keeper.old keeper.new }
{
    keeper.put_issue(number, issue)?;
    Ok(Reply::Amended {
        cusip: issue.row().cusip,
        number,
    })
}

fn keep_version<K: Keeper>(
    keeper: &mut K,
    issue: Issue,
    key: Key,
    number: u32,
    version: Version,
) -> Result<Reply, KeepFault>
    requires { IfSome (K.tables keeper.old) (λ t. number ≡ next_number (trade_at t key)) }
    ensures kept { IfOk result
        (KeepsVersion issue key number version (K.tables keeper.old) (K.tables keeper.new)) }
    ensures unchanged { OnErr result (K.tables keeper.new ≡ K.tables keeper.old) }
    ensures same { SameKeeper K.Keeper KeepFault.Failed result keeper.old keeper.new }
{
    keeper.put_version(&key, number, &version)?;
    Ok(Reply::Confirmed {
        issue,
        key,
        number,
        version,
    })
}
