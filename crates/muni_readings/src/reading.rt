//! Other formulas than those of the rule.

ghost use Rattle.std.specs.Prelude.{Ok};
ghost use Rattle.muni_answer.specs.Answers.{IsRightAnswer};
ghost use Rattle.muni_readings.specs.Readings.{IsBy};

use crate::Answered;
use crate::compounded::by_compounding;
use crate::february::by_february;
use crate::other_terms::{by_first_call, by_gross_price, by_maturity};
use crate::regular::by_regular_coupons;
use crate::rounded::by_rounding;
use muni_edge::Gate;
use muni_msg::Figures;
use muni_multi::Encloser;
use muni_sched::{Calculator, Schedule};
use std::thread::Threads;

/// Another formula than that of the rule, in the order in which they are tried.
#[derive(Clone, Copy, Debug, PartialEq, Eq)]
pub enum Reading {
    /// The issue is priced to maturity alone.
    Maturity,
    /// It is priced to the first call after the settlement alone.
    FirstCall,
    /// A computed price is rounded to thousandths, and not truncated.
    Rounded,
    /// One payment is left, and it is discounted as several are.
    Compounded,
    /// Days accrued are counted by 30/360 with a rule for the end of February.
    February,
    /// The yield is that at the price without the commission.
    Gross,
    /// An odd first coupon is taken as a regular one.
    Regular,
}

impl Reading {
    /// All of them in their order.
    pub const ALL: [Reading; 7] = [
        Reading::Maturity,
        Reading::FirstCall,
        Reading::Rounded,
        Reading::Compounded,
        Reading::February,
        Reading::Gross,
        Reading::Regular,
    ];
}

/// The figures by a reading, which are those of the rule if its formula is the same here.
///
/// None if the formula gives none, or if the enclosure of a price leaves it open which they are.
pub fn figures_by<R: Threads + Sync, E: Encloser + Sync, G: Gate + Sync>(
    calculator: &Calculator<'_, R, E, G>,
    answered: &Answered<'_>,
    reading: Reading,
    schedule: &mut Schedule,
) -> Option<Figures>
    // promise 6: the figures by one formula; a price that an enclosure leaves open is given by none
    ensures { IsRightAnswer (E.ends calculator.now.encloser.now) answered.now.issue.now
        answered.now.asked.now (Ok answered.now.figures.now)
        → IsBy (E.ends calculator.now.encloser.now) answered.now.issue.now
        answered.now.asked.now answered.now.figures.now reading result }
{
    match reading {
        Reading::Maturity => by_maturity(calculator, answered, schedule),
        Reading::FirstCall => by_first_call(calculator, answered, schedule),
        Reading::Rounded => by_rounding(calculator.encloser, answered, schedule),
        Reading::Compounded => by_compounding(answered, schedule),
        Reading::February => by_february(answered),
        Reading::Gross => by_gross_price(calculator, answered, schedule),
        Reading::Regular => by_regular_coupons(calculator, answered, schedule),
    }
}
