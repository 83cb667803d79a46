//! Rows of CSV in memory.

ghost use Rattle.std.specs.Prelude.{◌≡◌, ◌++◌, [], map, IfOk, OnOk};
ghost use Rattle.muni_export.specs.List.{list_line, list_names};
ghost use Rattle.muni_export.specs.Rows.{amendment_fields, cancel_fields, correction_fields, first_terms_fields, issue_row, row, trade_fields, version_row};

use crate::texts::{FigureTexts, IssueTexts, MoneyTexts, TermTexts, print_if_some, print_number};
use crate::words::{basis_word, days_word, kind_word, label_word, side_word, state_word};
use csv::{Writer, WriterBuilder};
use muni_edge::NoMemory;
use muni_msg::{Act, Asked, Key, Line, Version};
use muni_terms::Issue;
use std::alloc::Global;
use std::marker::Model;

/// Rows of CSV, as an import reads them, in memory. A contract sees the text of those so far.
///
/// Out of memory is the only refusal, and after it each call is refused.
#[derive(Drop)]
pub struct RowWriter {
    writer: Writer<Vec<u8>>,
    failed: bool,
}

impl Model for RowWriter {
    ghost use Rattle.std.specs.Prelude.{◌≡◌, ◌⊎◌, true, ℕ, List};
    ghost use Rattle.muni_export.specs.Writer.{text_of, IsBetween};

    ghost Value = { List ℕ };

    ghost view = { λ rows. text_of rows.writer };

    ghost invariant = { λ rows. (rows.failed ≡ true) ⊎ IsBetween rows.writer };
}

impl RowWriter {
    /// A writer of no row yet.
    pub fn new(alloc: Global) -> RowWriter
        ensures { result ≡ [] }
    {
        RowWriter {
            writer: WriterBuilder::new()
                .flexible(true)
                .from_writer(Vec::new(alloc)),
            failed: false,
        }
    }

    /// Appends the row of an issue by its terms with this number: that of the first ones, or of an amendment.
    pub fn issue(&mut self, number: u32, issue: &Issue) -> Result<(), NoMemory>
        ensures { OnOk result (self.new ≡ self.old ++ issue_row number issue.now) }
    {
        if number == 1 {
            self.first_terms(issue)
        } else {
            self.amendment(number, issue)
        }
    }

    /// Appends the row of a version of a trade: that of its entry, of a correction or of a cancel. The number of
    /// the terms of its issue is written at the end if it is given; a cancel has none.
    pub fn version(
        &mut self,
        key: &Key,
        number: u32,
        version: &Version,
        issue_number: Option<u32>,
    ) -> Result<(), NoMemory>
        ensures { OnOk result (self.new
            ≡ self.old ++ version_row key.now number version.now issue_number) }
    {
        let asked = &version.terms.asked;
        match version.act {
            Act::Entered => self.trade(key, asked, issue_number),
            Act::Corrected => self.correction(key, number, asked, issue_number),
            Act::Canceled => self.cancel(key, number),
        }
    }

    /// Appends the names of the columns of a list.
    pub fn names(&mut self) -> Result<(), NoMemory>
        ensures { OnOk result (self.new ≡ self.old ++ list_names) }
    {
        self.push(&[
            b"reference".as_slice(),
            b"version",
            b"state",
            b"cusip",
            b"side",
            b"par",
            b"settlement",
            b"basis",
            b"value",
            b"fee",
            b"price",
            b"yield",
            b"redemption",
            b"redemption_price",
            b"redemption_label",
            b"days",
            b"principal",
            b"accrued",
            b"commission",
            b"total",
        ])
    }

    /// Appends the line of a trade with its last version.
    pub fn line(&mut self, line: &Line) -> Result<(), NoMemory>
        ensures { OnOk result (self.new ≡ self.old ++ list_line line.now) }
    {
        let number = print_number(line.number);
        let terms = TermTexts::new(&line.version.terms.asked);
        let figures = FigureTexts::new(&line.version.figures);
        let money = MoneyTexts::new(&line.version.figures);
        self.push(&[
            line.reference.bytes(),
            number.as_slice(),
            state_word(&line.version.act),
            terms.cusip.as_slice(),
            side_word(&terms.side),
            terms.par.as_slice(),
            terms.settle.as_slice(),
            basis_word(&terms.given),
            terms.value.as_slice(),
            terms.fee.as_slice(),
            figures.price.as_slice(),
            figures.yld.as_slice(),
            figures.redemption.as_slice(),
            figures.at.as_slice(),
            label_word(&figures.label),
            money.days.as_slice(),
            money.principal.as_slice(),
            money.accrued.as_slice(),
            money.commission.as_slice(),
            money.total.as_slice(),
        ])
    }

    /// The text.
    pub fn finish(self) -> Result<Vec<u8>, NoMemory>
        ensures { IfOk result (λ text. text.items ≡ self) }
    {
        if self.failed {
            return Err(NoMemory);
        }
        match self.writer.into_inner() {
            Ok(text) => Ok(text),
            Err(_) => Err(NoMemory),
        }
    }

    fn first_terms(&mut self, issue: &Issue) -> Result<(), NoMemory>
        ensures { OnOk result (self.new ≡ self.old ++ row (first_terms_fields issue.now)) }
    {
        let cusip = issue.row().cusip;
        let terms = IssueTexts::new(issue);
        let columns = &terms.columns;
        self.push(&[
            b"issue".as_slice(),
            cusip.as_slice(),
            columns.name.as_slice(),
            kind_word(&terms.kind),
            columns.dated.as_slice(),
            columns.first.as_slice(),
            columns.maturity.as_slice(),
            terms.coupon.as_slice(),
            columns.calls(),
            days_word(&terms.basis),
        ])
    }

    fn amendment(&mut self, number: u32, issue: &Issue) -> Result<(), NoMemory>
        ensures { OnOk result (self.new ≡ self.old ++ row (amendment_fields number issue.now)) }
    {
        let number = print_number(number);
        let cusip = issue.row().cusip;
        let terms = IssueTexts::new(issue);
        let columns = &terms.columns;
        self.push(&[
            b"amend".as_slice(),
            cusip.as_slice(),
            number.as_slice(),
            columns.name.as_slice(),
            kind_word(&terms.kind),
            columns.dated.as_slice(),
            columns.first.as_slice(),
            columns.maturity.as_slice(),
            terms.coupon.as_slice(),
            columns.calls(),
            days_word(&terms.basis),
        ])
    }

    fn trade(&mut self, key: &Key, asked: &Asked, issue_number: Option<u32>) -> Result<(), NoMemory>
        ensures { OnOk result (self.new
            ≡ self.old ++ row (trade_fields key.now asked.now issue_number)) }
    {
        let terms = TermTexts::new(asked);
        let last = print_if_some(issue_number);
        let fields = [
            b"trade".as_slice(),
            key.desk.bytes(),
            key.reference.bytes(),
            terms.cusip.as_slice(),
            side_word(&terms.side),
            terms.par.as_slice(),
            terms.settle.as_slice(),
            basis_word(&terms.given),
            terms.value.as_slice(),
            terms.fee.as_slice(),
            last.as_slice(),
        ];
        match issue_number {
            Some(_) => self.push(&fields),
            None => self.push(&fields[..fields.len() - 1]),
        }
    }

    fn correction(
        &mut self,
        key: &Key,
        number: u32,
        asked: &Asked,
        issue_number: Option<u32>,
    ) -> Result<(), NoMemory>
        ensures { OnOk result (self.new
            ≡ self.old ++ row (correction_fields key.now number asked.now issue_number)) }
    {
        let number = print_number(number);
        let terms = TermTexts::new(asked);
        let last = print_if_some(issue_number);
        let fields = [
            b"correct".as_slice(),
            key.desk.bytes(),
            key.reference.bytes(),
            number.as_slice(),
            terms.cusip.as_slice(),
            side_word(&terms.side),
            terms.par.as_slice(),
            terms.settle.as_slice(),
            basis_word(&terms.given),
            terms.value.as_slice(),
            terms.fee.as_slice(),
            last.as_slice(),
        ];
        match issue_number {
            Some(_) => self.push(&fields),
            None => self.push(&fields[..fields.len() - 1]),
        }
    }

    fn cancel(&mut self, key: &Key, number: u32) -> Result<(), NoMemory>
        ensures { OnOk result (self.new ≡ self.old ++ row (cancel_fields key.now number)) }
    {
        let number = print_number(number);
        self.push(&[
            b"cancel".as_slice(),
            key.desk.bytes(),
            key.reference.bytes(),
            number.as_slice(),
        ])
    }

    // Appends a row of any fields.
    fn push(&mut self, fields: &[&[u8]]) -> Result<(), NoMemory>
        ensures { OnOk result (self.new ≡ self.old ++ row (map (λ field. field.now) fields.now)) }
    {
        if self.failed {
            return Err(NoMemory);
        }
        match self.writer.write_fields(fields) {
            Ok(()) => Ok(()),
            Err(_) => {
                self.failed = true;
                Err(NoMemory)
            }
        }
    }
}
