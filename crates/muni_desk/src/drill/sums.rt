//! The sums over a book of trades and the answers to them.

ghost use Rattle.std.specs.Prelude.{◌≡◌, ◌+◌, ◌<◌, ◌≤◌, [], IfOk};
ghost use Rattle.muni_days.specs.Day.{civil};
ghost use Rattle.muni_desk.specs.Sums as spec;
ghost use Rattle.muni_desk.specs.Sums.{AreSums, HaveAnswer, AreTogether, AreSmall};

use arrayvec::ArrayVec;
use muni_days::Day;
use muni_dec::Cents;
use muni_dec::text::{push_line, push_number_line};
use muni_msg::{Figures, Refusal};

/// The sums over trades and the answers to them.
#[derive(Clone, Copy)]
pub struct Sums {
    pub trades: u64,
    /// Those with figures.
    pub printed: u64,
    /// Those whose yield is undecided.
    pub undecided: u64,
    /// Those whose yield is outside the printed range.
    pub outside: u64,
    /// The yields, in units of 0.001 percent.
    pub yields: i64,
    pub accrued: Cents,
    /// Those that are redeemed before maturity.
    pub called: u64,
}

impl Sums {
    /// The sums over no trade.
    pub fn new() -> Sums
        ensures sums { AreSums [] result }
        ensures small { AreSmall result }
    {
        Sums {
            trades: 0,
            printed: 0,
            undecided: 0,
            outside: 0,
            yields: 0,
            accrued: Cents::ZERO,
            called: 0,
        }
    }

    /// Counts one trade more, in a security with this maturity, and the answer to it.
    ///
    /// A call on the maturity date is no call of an issue, so a redemption before maturity is one.
    pub fn add(&mut self, maturity: Day, answer: &Result<Figures, Refusal>)
        requires few { self.old.trades < 1_000 }
        requires small { AreSmall self.old }
        requires accrued { IfOk answer.now (λ figures. figures.accrued ≤ 60_000_000_000) }
        ensures sums { HaveAnswer self.old (civil maturity) answer.now self.new }
        ensures small { AreSmall self.new }
    {
        self.trades += 1;
        match answer {
            Ok(figures) => {
                self.printed += 1;
                self.yields += figures.yld.units();
                self.accrued = self.accrued.plus(figures.accrued);
                self.called += u64::from(figures.redemption < maturity);
            }
            Err(Refusal::Undecided { .. }) => self.undecided += 1,
            Err(Refusal::YieldBelow { .. } | Refusal::YieldAbove) => self.outside += 1,
            Err(_) => {}
        }
    }

    /// The sums over these trades and others.
    pub fn plus(&self, other: &Sums) -> Sums
        requires few { self.now.trades + other.now.trades ≤ 1_000 }
        requires small { AreSmall self.now }
        requires others_small { AreSmall other.now }
        ensures { AreTogether self.now other.now result }
    {
        Sums {
            trades: self.trades + other.trades,
            printed: self.printed + other.printed,
            undecided: self.undecided + other.undecided,
            outside: self.outside + other.outside,
            yields: self.yields + other.yields,
            accrued: self.accrued.plus(other.accrued),
            called: self.called + other.called,
        }
    }

    /// The lines of the summary, each with its line end.
    #[tactic(auto, unfolding(crate::specs::Sums::summary_lines))]
    pub fn lines(&self) -> ArrayVec<u8, 512>
        ensures { result.items ≡ spec.summary_lines self.now.trades self.now.printed
            self.now.undecided self.now.outside self.now.yields self.now.accrued self.now.called }
    {
        let mut text = ArrayVec::new();
        push_number_line(&mut text, b"DRILL", self.trades);
        push_number_line(&mut text, b"PRINTED", self.printed);
        push_number_line(&mut text, b"UNDECIDED", self.undecided);
        push_number_line(&mut text, b"OUTSIDE", self.outside);
        push_number_line(&mut text, b"YIELDS", self.yields);
        let mut money = ArrayVec::new();
        self.accrued.print_into(&mut money);
        push_line(&mut text, b"ACCRUED", &money);
        push_number_line(&mut text, b"CALLED", self.called);
        text
    }
}
