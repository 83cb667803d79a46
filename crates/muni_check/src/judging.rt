//! The figures of a row beside those of the rule.

ghost use Rattle.std.specs.Prelude.{◌≡◌, IfOk, IfSome, OnOk, option_map};
ghost use Rattle.std.specs.BTreeMap as tree;
ghost use Rattle.csv.specs.Records.{fields_of};
ghost use Rattle.muni_keep.specs.Keeper.{OnlyReads};
ghost use Rattle.muni_keep.specs.Tables.{Tables, issue_at, issue_numbered, last_at};
ghost use Rattle.muni_keep.specs.Trades.{by_bytes};
ghost use Rattle.muni_terms.specs.Check.{checked};
ghost use Rattle.muni_check.specs.Cache.{IsSoundCache};
ghost use Rattle.muni_check_rows.specs.Judging.{rule};
ghost use Rattle.muni_check_rows.specs.Line.{HasName};
ghost use Rattle.muni_check_rows.specs.Rows.{row_in, trade_row_in};
ghost use Rattle.muni_check_rows.specs.Said as spec;
ghost use Rattle.muni_check_rows.specs.StatedFigures.{has_figure};

use crate::cache::IssueCache;
use muni_answer::figures;
use muni_book::Calculator;
use muni_check_rows::{
    CheckRow, CheckSaid, Fields, TradeRow, compared_said, has_figure, other_in_issue,
    other_in_trade, read_row, read_trade_row, refused_said, states_nothing,
};
use muni_edge::{Gate, NoMemory};
use muni_keep::{KeepFault, Keeper};
use muni_msg::{Act, Asked, DeskName, Key, Refusal, Version};
use muni_multi::Encloser;
use muni_readings::{Answered, Stated, check_figures};
use muni_sched::Schedule;
use muni_terms::{Issue, IssueRow, check};
use std::alloc::Global;
use std::thread::Threads;

/// What rows are judged with.
#[derive(Drop)]
pub(crate) struct Judge<'a, R, E, G> {
    pub calculator: &'a Calculator<'a, R, E, G>,
    pub alloc: Global,
    /// The desk whose trades the rows name, if any.
    pub desk: &'a Option<DeskName>,
    pub issues: IssueCache,
    pub schedule: Schedule,
}

impl<'a, R: Threads + Sync, E: Encloser + Sync, G: Gate + Sync> Judge<'a, R, E, G> {
    /// A judge who knows no issue yet.
    pub(crate) fn new(
        calculator: &'a Calculator<'a, R, E, G>,
        alloc: Global,
        desk: &'a Option<DeskName>,
    ) -> Judge<'a, R, E, G>
        ensures sound { (tables : Tables) → IsSoundCache tables result.issues }
        ensures calculator { result.calculator.now ≡ calculator.now }
        ensures desk { result.desk.now ≡ desk.now }
    {
        Judge {
            calculator,
            alloc,
            desk,
            issues: IssueCache::new(alloc),
            schedule: Schedule::new(),
        }
    }

    /// What is said of a row by itself.
    pub(crate) fn judge_alone<K: Keeper>(
        &mut self,
        keeper: &mut K,
        fields: &Fields<'_>,
    ) -> Result<CheckSaid, KeepFault>
        requires { IfSome (K.tables keeper.old) (λ t. IsSoundCache t self.old.issues) }
        ensures said { IfOk result (λ said. spec.IsSaidOfRow (rule (E.ends self.old.calculator.now.encloser.now)) (K.tables keeper.old)
            (row_in fields.now.columns.now.items (fields_of fields.now.record.now)) said) }
        ensures sound { OnOk result (IfSome (K.tables keeper.old) (λ t. IsSoundCache t self.new.issues)) }
        ensures name { IfOk result HasName }
        ensures calculator { self.new.calculator ≡ self.old.calculator }
        ensures desk { self.new.desk ≡ self.old.desk }
        ensures reads { OnlyReads K.Keeper result keeper.old keeper.new }
    {
        match read_row(fields) {
            Ok(row) => self.judge_row(keeper, row),
            Err(fault) => Ok(CheckSaid::Bad(fault)),
        }
    }

    // A row goes by the terms that it states, and else by the last ones that are kept for its CUSIP.
    fn judge_row<K: Keeper>(
        &mut self,
        keeper: &mut K,
        row: CheckRow,
    ) -> Result<CheckSaid, KeepFault>
        requires { IfSome (K.tables keeper.old) (λ t. IsSoundCache t self.old.issues) }
        ensures said { IfOk result (λ said. spec.IsCompared (rule (E.ends self.old.calculator.now.encloser.now)) (K.tables keeper.old)
            row (has_figure row.stated) said) }
        ensures sound { OnOk result (IfSome (K.tables keeper.old) (λ t. IsSoundCache t self.new.issues)) }
        ensures name { IfOk result HasName }
        ensures calculator { self.new.calculator ≡ self.old.calculator }
        ensures desk { self.new.desk ≡ self.old.desk }
        ensures reads { OnlyReads K.Keeper result keeper.old keeper.new }
    {
        let CheckRow {
            asked,
            stated,
            terms,
        } = row;
        if !has_figure(&stated) {
            return Ok(CheckSaid::Nothing);
        }
        match terms {
            Some(terms) => Ok(self.by_terms(terms, &asked, &stated)),
            None => self.by_last(keeper, &asked, &stated),
        }
    }

    /// What is said of a row of a trade whose reference did not come before.
    pub(crate) fn judge_key<K: Keeper>(
        &mut self,
        keeper: &mut K,
        fields: &Fields<'_>,
        key: &Key,
    ) -> Result<CheckSaid, KeepFault>
        ensures said { IfOk result (λ said. spec.ByKept (K.tables keeper.old) (λ t. last_at t key.now)
            (λ last. spec.IsSaidOfTrade (rule (E.ends self.old.calculator.now.encloser.now)) (K.tables keeper.old)
            fields.now.columns.now.items (fields_of fields.now.record.now) key.now.reference (spec.live_by last) said)) }
        ensures issues { self.new.issues ≡ self.old.issues }
        ensures name { IfOk result HasName }
        ensures calculator { self.new.calculator ≡ self.old.calculator }
        ensures desk { self.new.desk ≡ self.old.desk }
        ensures reads { OnlyReads K.Keeper result keeper.old keeper.new }
    {
        let last = keeper.last(key)?;
        self.judge_last(keeper, fields, key, &last)
    }

    // A row of a trade by its last version, or of one that is missing.
    fn judge_last<K: Keeper>(
        &mut self,
        keeper: &mut K,
        fields: &Fields<'_>,
        key: &Key,
        last: &Option<(u32, Version)>,
    ) -> Result<CheckSaid, KeepFault>
        ensures said { IfOk result (λ said. spec.IsSaidOfTrade (rule (E.ends self.old.calculator.now.encloser.now)) (K.tables keeper.old)
            fields.now.columns.now.items (fields_of fields.now.record.now) key.now.reference (spec.live_by last.now) said) }
        ensures issues { self.new.issues ≡ self.old.issues }
        ensures name { IfOk result HasName }
        ensures calculator { self.new.calculator ≡ self.old.calculator }
        ensures desk { self.new.desk ≡ self.old.desk }
        ensures reads { OnlyReads K.Keeper result keeper.old keeper.new }
    {
        match live_in(last) {
            Some(version) => self.judge_trade(keeper, fields, &version),
            None => Ok(CheckSaid::Missing {
                reference: key.reference.copy(),
            }),
        }
    }

    // A row of a kept trade: its terms come before those of its issue, and those before the figures.
    fn judge_trade<K: Keeper>(
        &mut self,
        keeper: &mut K,
        fields: &Fields<'_>,
        version: &Version,
    ) -> Result<CheckSaid, KeepFault>
        ensures said { IfOk result (λ said. spec.IsSaidOfTradeRow (rule (E.ends self.old.calculator.now.encloser.now)) (K.tables keeper.old)
            fields.now.columns.now.items (fields_of fields.now.record.now) version.now
            (trade_row_in fields.now.columns.now.items (fields_of fields.now.record.now) version.now.terms.asked) said) }
        ensures issues { self.new.issues ≡ self.old.issues }
        ensures name { IfOk result HasName }
        ensures calculator { self.new.calculator ≡ self.old.calculator }
        ensures desk { self.new.desk ≡ self.old.desk }
        ensures reads { OnlyReads K.Keeper result keeper.old keeper.new }
    {
        let kept = &version.terms.asked;
        let row = match read_trade_row(fields, kept) {
            Ok(row) => row,
            Err(fault) => return Ok(CheckSaid::Bad(fault)),
        };
        if let Some(other) = other_in_trade(self.alloc, kept, &row.texts)? {
            return Ok(CheckSaid::OtherTerm(other));
        }
        if states_nothing(fields, &row.stated) {
            return Ok(CheckSaid::Nothing);
        }
        self.by_number(keeper, version, &row)
    }

    // By the terms by which the trade was figured.
    fn by_number<K: Keeper>(
        &mut self,
        keeper: &mut K,
        version: &Version,
        row: &TradeRow,
    ) -> Result<CheckSaid, KeepFault>
        ensures said { IfOk result (λ said. spec.ByKept (K.tables keeper.old)
            (λ t. issue_numbered t version.now.terms.asked.cusip version.now.issue_number)
            (λ issue. spec.IsJudgedOfTrade (rule (E.ends self.old.calculator.now.encloser.now)) version.now.terms.asked row.now issue said)) }
        ensures issues { self.new.issues ≡ self.old.issues }
        ensures name { IfOk result HasName }
        ensures calculator { self.new.calculator ≡ self.old.calculator }
        ensures desk { self.new.desk ≡ self.old.desk }
        ensures reads { OnlyReads K.Keeper result keeper.old keeper.new }
    {
        let kept = &version.terms.asked;
        let issue = keeper.issue_numbered(&kept.cusip, version.issue_number)?;
        let said = self.by_issue(&issue, kept, row)?;
        Ok(said)
    }

    // By terms that were found, or none.
    fn by_issue(
        &mut self,
        issue: &Option<Issue>,
        kept: &Asked,
        row: &TradeRow,
    ) -> Result<CheckSaid, NoMemory>
        ensures said { IfOk result (λ said.
            spec.IsJudgedOfTrade (rule (E.ends self.old.calculator.now.encloser.now)) kept.now row.now issue.now said) }
        ensures issues { self.new.issues ≡ self.old.issues }
        ensures name { IfOk result HasName }
        ensures calculator { self.new.calculator ≡ self.old.calculator }
        ensures desk { self.new.desk ≡ self.old.desk }
    {
        let Some(issue) = issue else {
            return Ok(refused_said(&Refusal::UnknownIssue));
        };
        match other_in_issue(self.alloc, issue.row(), &row.terms)? {
            Some(other) => Ok(CheckSaid::OtherTerm(other)),
            None => Ok(compared(
                self.calculator,
                issue,
                kept,
                &row.stated,
                &mut self.schedule,
            )),
        }
    }

    // A row with terms of its own, if they pass.
    fn by_terms(&mut self, terms: IssueRow, asked: &Asked, stated: &Stated) -> CheckSaid
        ensures said { spec.IsJudgedByTerms (rule (E.ends self.old.calculator.now.encloser.now)) asked.now stated.now (checked terms) result }
        ensures name { HasName result }
        ensures issues { self.new.issues ≡ self.old.issues }
        ensures calculator { self.new.calculator ≡ self.old.calculator }
        ensures desk { self.new.desk ≡ self.old.desk }
    {
        match check(terms) {
            Ok(issue) => compared(self.calculator, &issue, asked, stated, &mut self.schedule),
            Err(fault) => refused_said(&Refusal::BadTerms(fault)),
        }
    }

    // A row of an issue by its last terms, or of none that is kept.
    fn by_last<K: Keeper>(
        &mut self,
        keeper: &mut K,
        asked: &Asked,
        stated: &Stated,
    ) -> Result<CheckSaid, KeepFault>
        requires { IfSome (K.tables keeper.old) (λ t. IsSoundCache t self.old.issues) }
        ensures said { IfOk result (λ said. spec.ByKept (K.tables keeper.old) (λ t. issue_at t asked.now.cusip)
            (λ kept. spec.IsJudgedByKept (rule (E.ends self.old.calculator.now.encloser.now)) asked.now stated.now kept said)) }
        ensures sound { OnOk result (IfSome (K.tables keeper.old) (λ t. IsSoundCache t self.new.issues)) }
        ensures name { IfOk result HasName }
        ensures calculator { self.new.calculator ≡ self.old.calculator }
        ensures desk { self.new.desk ≡ self.old.desk }
        ensures reads { OnlyReads K.Keeper result keeper.old keeper.new }
    {
        self.issues.hold(self.alloc, keeper, &asked.cusip)?;
        Ok(self.by_held(asked, stated))
    }

    // A row of an issue that is held, or of none.
    fn by_held(&mut self, asked: &Asked, stated: &Stated) -> CheckSaid
        ensures said { spec.IsJudgedByKept (rule (E.ends self.old.calculator.now.encloser.now)) asked.now stated.now
            (tree.get by_bytes self.old.issues.issues asked.now.cusip) result }
        ensures name { HasName result }
        ensures issues { self.new.issues ≡ self.old.issues }
        ensures calculator { self.new.calculator ≡ self.old.calculator }
        ensures desk { self.new.desk ≡ self.old.desk }
    {
        match self.issues.issues.get(&asked.cusip) {
            Some(issue) => compared(self.calculator, issue, asked, stated, &mut self.schedule),
            None => refused_said(&Refusal::UnknownIssue),
        }
    }
}

// Stated figures are compared with those that are found, if any are.
fn compared<R: Threads + Sync, E: Encloser + Sync, G: Gate + Sync>(
    calculator: &Calculator<'_, R, E, G>,
    issue: &Issue,
    asked: &Asked,
    stated: &Stated,
    schedule: &mut Schedule,
) -> CheckSaid
    ensures said { spec.IsJudgedBy (rule (E.ends calculator.now.encloser.now)) issue.now asked.now stated.now result }
    ensures name { HasName result }
{
    let figures = match figures(calculator, issue, asked, schedule) {
        Ok(figures) => figures,
        Err(refusal) => return refused_said(&refusal),
    };
    let answered = Answered {
        issue,
        asked,
        figures: &figures,
    };
    compared_said(
        &figures,
        stated,
        check_figures(calculator, &answered, stated, schedule),
    )
}

// The last version of a trade, if that is not canceled.
fn live_in(last: &Option<(u32, Version)>) -> Option<Version>
    ensures { result ≡ spec.live_by last.now }
{
    match last {
        Some((_, version)) => match version.act {
            Act::Entered | Act::Corrected => Some(*version),
            Act::Canceled => None,
        },
        None => None,
    }
}
