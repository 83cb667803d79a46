//! The texts of an issue and of a trade.

ghost use Rattle.std.specs.Prelude.{◌≡◌, decimal, IfSome};
ghost use Rattle.std.specs.Fmt.{signed_decimal};
ghost use Rattle.muni_export.specs.List.{figure_fields, money_fields};
ghost use Rattle.muni_export.specs.Rows.{issue_terms_fields, terms_fields};
ghost use Rattle.muni_export.specs.Words.{value_text};

use arrayvec::ArrayVec;
use itoa::Buffer;
use muni_days::Basis;
use muni_dec::text::push;
use muni_msg::{Asked, Figures, Given, Side};
use muni_store_rows::{IssueColumns, issue_columns};
use muni_terms::{Issue, Kind, Label};
use std::marker::Model;

/// The texts of the terms of an issue.
#[derive(Drop)]
pub(crate) struct IssueTexts {
    pub columns: IssueColumns,
    pub kind: Kind,
    pub coupon: ArrayVec<u8, 32>,
    pub basis: Basis,
}

impl Model for IssueTexts {
    ghost use Rattle.std.specs.Prelude.{ℕ, List, [], ◌∷◌};
    ghost use Rattle.muni_export.specs.Words.{days_word, kind_word};

    ghost Value = { List (List ℕ) };

    ghost view = { λ texts. texts.columns.name ∷ kind_word texts.kind ∷ texts.columns.dated
        ∷ texts.columns.first ∷ texts.columns.maturity ∷ texts.coupon.items ∷ texts.columns.calls
        ∷ days_word texts.basis ∷ [] };
}

impl IssueTexts {
    #[tactic(auto, unfolding(crate::specs::Rows::issue_terms_fields, muni_store_rows::specs::Issue::columns_of))]
    pub(crate) fn new(issue: &Issue) -> IssueTexts
        ensures { result ≡ issue_terms_fields issue.now }
    {
        let row = issue.row();
        let mut texts = IssueTexts {
            columns: issue_columns(issue),
            kind: row.kind,
            coupon: ArrayVec::new(),
            basis: row.basis,
        };
        row.coupon.print_into(&mut texts.coupon);
        texts
    }
}

/// The texts of the terms of a trade.
#[derive(Drop)]
pub(crate) struct TermTexts {
    pub cusip: [u8; 9],
    pub side: Side,
    pub par: ArrayVec<u8, 32>,
    pub settle: ArrayVec<u8, 32>,
    pub given: Given,
    pub value: ArrayVec<u8, 32>,
    pub fee: ArrayVec<u8, 32>,
}

impl Model for TermTexts {
    ghost use Rattle.std.specs.Prelude.{ℕ, List, [], ◌∷◌};
    ghost use Rattle.muni_export.specs.Words.{basis_word, side_word};

    ghost Value = { List (List ℕ) };

    ghost view = { λ texts. texts.cusip ∷ side_word texts.side ∷ texts.par.items ∷ texts.settle.items
        ∷ basis_word texts.given ∷ texts.value.items ∷ texts.fee.items ∷ [] };
}

impl TermTexts {
    #[tactic(auto, unfolding(crate::specs::Rows::terms_fields))]
    pub(crate) fn new(asked: &Asked) -> TermTexts
        ensures { result ≡ terms_fields asked.now }
    {
        let mut texts = TermTexts {
            cusip: asked.cusip,
            side: asked.side,
            par: ArrayVec::new(),
            settle: ArrayVec::new(),
            given: asked.given,
            value: ArrayVec::new(),
            fee: ArrayVec::new(),
        };
        asked.par.print_into(&mut texts.par);
        asked.settle.print_into(&mut texts.settle);
        print_value(asked.given, &mut texts.value);
        asked.fee.print_into(&mut texts.fee);
        texts
    }
}

/// Replaces the text by what a trade is done at: a price with six decimals, a yield or a rate with four.
pub fn print_value(given: Given, text: &mut ArrayVec<u8, 32>)
    ensures { text.new.items ≡ value_text given }
{
    match given {
        Given::AtPrice(price) => price.print_into(text),
        Given::AtYield(percent) | Given::AtRate(percent) => percent.print_into(text),
    }
}

/// The texts of the price, the yield and the redemption.
#[derive(Drop)]
pub(crate) struct FigureTexts {
    pub price: ArrayVec<u8, 32>,
    pub yld: ArrayVec<u8, 32>,
    pub redemption: ArrayVec<u8, 32>,
    pub at: ArrayVec<u8, 32>,
    pub label: Label,
}

impl Model for FigureTexts {
    ghost use Rattle.std.specs.Prelude.{ℕ, List, [], ◌∷◌};
    ghost use Rattle.muni_confirm.specs.Figures.{label_text};

    ghost Value = { List (List ℕ) };

    ghost view = { λ texts. texts.price.items ∷ texts.yld.items ∷ texts.redemption.items
        ∷ texts.at.items ∷ label_text texts.label ∷ [] };
}

impl FigureTexts {
    #[tactic(auto, unfolding(crate::specs::List::figure_fields))]
    pub(crate) fn new(figures: &Figures) -> FigureTexts
        ensures { result ≡ figure_fields figures.now }
    {
        let mut texts = FigureTexts {
            price: ArrayVec::new(),
            yld: ArrayVec::new(),
            redemption: ArrayVec::new(),
            at: ArrayVec::new(),
            label: figures.label,
        };
        figures.price.print_into(&mut texts.price);
        figures.yld.print_into(&mut texts.yld);
        figures.redemption.print_into(&mut texts.redemption);
        figures.at.print_into(&mut texts.at);
        texts
    }
}

/// The texts of the days of accrued interest and of the money.
#[derive(Drop)]
pub(crate) struct MoneyTexts {
    pub days: ArrayVec<u8, 32>,
    pub principal: ArrayVec<u8, 32>,
    pub accrued: ArrayVec<u8, 32>,
    pub commission: ArrayVec<u8, 32>,
    pub total: ArrayVec<u8, 32>,
}

impl Model for MoneyTexts {
    ghost use Rattle.std.specs.Prelude.{ℕ, List, [], ◌∷◌};

    ghost Value = { List (List ℕ) };

    ghost view = { λ texts. texts.days.items ∷ texts.principal.items ∷ texts.accrued.items
        ∷ texts.commission.items ∷ texts.total.items ∷ [] };
}

impl MoneyTexts {
    #[tactic(auto, unfolding(crate::specs::List::money_fields))]
    pub(crate) fn new(figures: &Figures) -> MoneyTexts
        ensures { result ≡ money_fields figures.now }
    {
        let mut texts = MoneyTexts {
            days: print_days(figures.days),
            principal: ArrayVec::new(),
            accrued: ArrayVec::new(),
            commission: ArrayVec::new(),
            total: ArrayVec::new(),
        };
        figures.principal.print_into(&mut texts.principal);
        figures.accrued.print_into(&mut texts.accrued);
        figures.commission.print_into(&mut texts.commission);
        figures.total.print_into(&mut texts.total);
        texts
    }
}

fn print_days(days: i32) -> ArrayVec<u8, 32>
    ensures { result.items ≡ signed_decimal days }
{
    let mut buffer = Buffer::new();
    let mut text = ArrayVec::new();
    push(&mut text, buffer.format(days).as_bytes());
    text
}

/// A whole number in digits.
pub(crate) fn print_number(number: u32) -> ArrayVec<u8, 32>
    ensures { result.items ≡ decimal number }
{
    let mut buffer = Buffer::new();
    let mut text = ArrayVec::new();
    push(&mut text, buffer.format(number).as_bytes());
    text
}

/// A whole number in digits, or nothing.
pub(crate) fn print_if_some(number: Option<u32>) -> ArrayVec<u8, 32>
    ensures { IfSome number (λ number. result.items ≡ decimal number) }
{
    match number {
        Some(number) => print_number(number),
        None => ArrayVec::new(),
    }
}
