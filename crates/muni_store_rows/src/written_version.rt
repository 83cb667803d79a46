//! The columns in which a version of a trade is written.

ghost use Rattle.std.specs.Prelude.{◌≡◌};
ghost use Rattle.muni_store_rows.specs.Version as spec;

use crate::calls::print_day;
use crate::codes::{dollars, units};
use crate::version::{AskedRow, FigureRow, TradeRow};
use arrayvec::ArrayVec;
use muni_msg::{Key, Version, label_code};
use std::marker::Model;

/// A version of a trade with the texts of its days.
#[derive(Drop)]
pub struct WrittenVersion<'a> {
    key: &'a Key,
    number: u32,
    version: &'a Version,
    settle: ArrayVec<u8, 32>,
    redemption: ArrayVec<u8, 32>,
}

impl<'a> Model for WrittenVersion<'a> {
    ghost use Rattle.std.specs.Prelude.{◌≡◌, ℕ};
    ghost use Rattle.muni_days.specs.Day.{civil, day_text};
    ghost use Rattle.muni_msg.specs.declared.command.Key.{Key};
    ghost use Rattle.muni_msg.specs.declared.version.Version.{Version};

    ghost Value = { Key × ℕ × Version };

    ghost view = { λ written. (written.key.now, written.number, written.version.now) };

    ghost invariant = { λ written.
        (written.settle.items ≡ day_text (civil written.version.now.terms.asked.settle))
        × (written.redemption.items ≡ day_text (civil written.version.now.figures.redemption)) };
}

impl<'a> WrittenVersion<'a> {
    /// A version of a trade, with its number.
    pub fn new(key: &'a Key, number: u32, version: &'a Version) -> WrittenVersion<'a>
        ensures { result ≡ (key.now, number, version.now) }
    {
        WrittenVersion {
            key,
            number,
            version,
            settle: print_day(version.terms.asked.settle),
            redemption: print_day(version.figures.redemption),
        }
    }

    /// Its columns.
    #[tactic(auto, unfolding(crate::specs::Version::columns_of))]
    pub fn row(&self) -> TradeRow<'_>
        // promise 8: a version is written in the format's columns
        ensures { result ≡ spec.columns_of self.now.0 self.now.1 self.now.2 }
    {
        TradeRow {
            desk: self.key.desk.bytes(),
            reference: self.key.reference.bytes(),
            number: i64::from(self.number),
            act: i64::from(self.version.act.code()),
            asked: self.asked_row(),
            figures: self.figure_row(),
            issue: i64::from(self.version.issue_number),
        }
    }

    #[tactic(auto, unfolding(crate::specs::Version::asked_columns))]
    fn asked_row(&self) -> AskedRow<'_>
        ensures { result ≡ spec.asked_columns self.now.2.terms.asked }
    {
        let asked = &self.version.terms.asked;
        AskedRow {
            cusip: &asked.cusip,
            side: i64::from(asked.side.code()),
            par: dollars(asked.par),
            settle: &self.settle,
            basis: i64::from(asked.given.code()),
            value: asked.given.units(),
            fee: units(&asked.fee),
        }
    }

    #[tactic(auto, unfolding(crate::specs::Version::figure_columns))]
    fn figure_row(&self) -> FigureRow<'_>
        ensures { result ≡ spec.figure_columns self.now.2.figures }
    {
        let figures = &self.version.figures;
        FigureRow {
            price: units(&figures.price),
            yld: figures.yld.units(),
            redemption: &self.redemption,
            at_price: units(&figures.at),
            label: i64::from(label_code(figures.label)),
            days: i64::from(figures.days),
            principal: units(&figures.principal),
            accrued: units(&figures.accrued),
            total: units(&figures.total),
            commission: units(&figures.commission),
        }
    }
}
