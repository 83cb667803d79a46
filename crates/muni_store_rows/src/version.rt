//! The columns of versions of trades.

ghost use Rattle.std.specs.Prelude.{◌≡◌};
ghost use Rattle.muni_store_rows.specs.Version as spec;

use crate::codes::{
    read_code, read_count, read_fee, read_money, read_nine, read_par, read_price,
    read_printed_price, read_signed,
};
use muni_days::Day;
use muni_dec::Yield3;
use muni_msg::{
    Act, Asked, DeskName, Figures, Given, Key, Reference, Side, Terms, Version, label_of_code,
};
use std::marker::Model;

/// The columns of what a trade asks for.
#[derive(Drop)]
pub struct AskedRow<'a> {
    pub cusip: &'a [u8],
    /// The code of the side.
    pub side: i64,
    pub par: i64,
    pub settle: &'a [u8],
    /// The code of what is given.
    pub basis: i64,
    /// The units of what is given.
    pub value: i64,
    pub fee: i64,
}

impl<'a> Model for AskedRow<'a> {
    ghost use Rattle.muni_store_rows.specs.Version.{AskedColumns};

    ghost Value = { AskedColumns };

    ghost view = { λ row. record {
      cusip = row.cusip.now;
      side = row.side;
      par = row.par;
      settle = row.settle.now;
      basis = row.basis;
      value = row.value;
      fee = row.fee;
    } };
}

impl<'a> AskedRow<'a> {
    #[tactic(auto, unfolding(crate::specs::Version::asked_of))]
    fn asked(&self) -> Option<Asked>
        ensures { result ≡ spec.asked_of self.now }
    {
        let given = Given::of_code(read_code(self.basis)?, self.value)?;
        Some(Asked {
            cusip: read_nine(self.cusip)?,
            par: read_par(self.par)?,
            settle: Day::read(self.settle).ok()?,
            given,
            side: Side::of_code(read_code(self.side)?)?,
            fee: read_fee(self.fee)?,
        })
    }
}

/// The columns of the figures of a trade.
#[derive(Drop)]
pub struct FigureRow<'a> {
    pub price: i64,
    pub yld: i64,
    pub redemption: &'a [u8],
    pub at_price: i64,
    /// The code of the redemption.
    pub label: i64,
    pub days: i64,
    pub principal: i64,
    pub accrued: i64,
    pub total: i64,
    pub commission: i64,
}

impl<'a> Model for FigureRow<'a> {
    ghost use Rattle.muni_store_rows.specs.Version.{FigureColumns};

    ghost Value = { FigureColumns };

    ghost view = { λ row. record {
      price = row.price;
      yld = row.yld;
      redemption = row.redemption.now;
      at_price = row.at_price;
      label = row.label;
      days = row.days;
      principal = row.principal;
      accrued = row.accrued;
      total = row.total;
      commission = row.commission;
    } };
}

impl<'a> FigureRow<'a> {
    #[tactic(auto, unfolding(crate::specs::Version::figures_of))]
    fn figures(&self) -> Option<Figures>
        ensures { result ≡ spec.figures_of self.now }
    {
        Some(Figures {
            price: read_printed_price(self.price)?,
            yld: Yield3::of(self.yld)?,
            redemption: Day::read(self.redemption).ok()?,
            at: read_price(self.at_price)?,
            label: label_of_code(read_code(self.label)?)?,
            days: read_signed(self.days)?,
            principal: read_money(self.principal)?,
            accrued: read_money(self.accrued)?,
            commission: read_money(self.commission)?,
            total: read_money(self.total)?,
        })
    }
}

/// The columns in which a version of a trade is kept.
#[derive(Drop)]
pub struct TradeRow<'a> {
    pub desk: &'a [u8],
    pub reference: &'a [u8],
    pub number: i64,
    /// The code of what made the version.
    pub act: i64,
    pub asked: AskedRow<'a>,
    pub figures: FigureRow<'a>,
    /// The number of the terms of its issue.
    pub issue: i64,
}

impl<'a> Model for TradeRow<'a> {
    ghost use Rattle.muni_store_rows.specs.Version.{Columns};

    ghost Value = { Columns };

    ghost view = { λ row. record {
      desk = row.desk.now;
      reference = row.reference.now;
      number = row.number;
      act = row.act;
      asked = row.asked;
      figures = row.figures;
      issue = row.issue;
    } };
}

impl<'a> TradeRow<'a> {
    /// The trade, the number and the version with these columns, if there are such.
    #[tactic(auto, unfolding(crate::specs::Version::trade_of))]
    pub fn trade(&self) -> Option<(Key, u32, Version)>
        // promise 8: the columns of a version are read as the one value of the format, or as none
        ensures { result ≡ spec.trade_of self.now }
    {
        let key = read_key(self.desk, self.reference)?;
        let number = read_count(self.number)?;
        let version = Version {
            act: Act::of_code(read_code(self.act)?)?,
            terms: Terms {
                asked: self.asked.asked()?,
            },
            figures: self.figures.figures()?,
            issue_number: read_count(self.issue)?,
        };
        Some((key, number, version))
    }
}

#[tactic(auto, unfolding(crate::specs::Version::key_of))]
fn read_key(desk: &[u8], reference: &[u8]) -> Option<Key>
    ensures { result ≡ spec.key_of desk.now reference.now }
{
    Some(Key {
        desk: DeskName::read(desk).ok()?,
        reference: Reference::read(reference).ok()?,
    })
}
