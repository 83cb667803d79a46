use muni_answer::figures;
use muni_dec::{Fee, Par};
use muni_edge::NoGate;
use muni_msg::{Asked, Given, Side};
use muni_multi::Doubling;
use muni_readings::{Answered, Checked, Stated, check_figures};
use muni_sched::{Calculator, Schedule, Workers};
use muni_terms::Issue;
use muni_test_samples::Sample;
use std::thread::Threads;

/// A trade of the words of a case.
#[derive(Drop)]
pub(crate) struct Trade {
    issue: Issue,
    asked: Asked,
}

/// No figure is stated.
pub(crate) const NOTHING: Stated = Stated {
    price: None,
    yld: None,
    redemption: None,
    days: None,
    principal: None,
    accrued: None,
    total: None,
};

impl Trade {
    /// Beside the words of an issue are `settle=`, one of `yield=`, `price=` and `rate=`, and `par=` in dollars,
    /// `fee=` in thousandths and `sell` where they are not 100, 0 and a buy.
    pub(crate) fn of(case: &str) -> Option<Trade> {
        let case = Sample::of(case);
        let side = if case.has("sell") {
            Side::Sell
        } else {
            Side::Buy
        };
        let asked = Asked {
            cusip: *b"123456AA3",
            par: Par::of(case.count("par=").unwrap_or(100) as u64)?,
            settle: case.day("settle=")?,
            given: given(&case)?,
            side,
            fee: Fee::of(case.count("fee=").unwrap_or(0) as u64)?,
        };
        Some(Trade {
            issue: case.issue()?,
            asked,
        })
    }

    /// What is said of stated figures. None if the rule has no figures.
    pub(crate) fn check<R: Threads + Sync>(&self, rt: &R, stated: &Stated) -> Option<Checked> {
        let mut schedule = Schedule::new();
        let calculator = Calculator {
            rt,
            workers: Workers::new(1),
            encloser: &Doubling,
            gate: &NoGate,
        };
        match figures(&calculator, &self.issue, &self.asked, &mut schedule) {
            Ok(figures) => {
                let answered = Answered {
                    issue: &self.issue,
                    asked: &self.asked,
                    figures: &figures,
                };
                Some(check_figures(&calculator, &answered, stated, &mut schedule))
            }
            Err(_) => None,
        }
    }
}

fn given(case: &Sample<'_>) -> Option<Given> {
    if let Some(y) = case.yld("yield=") {
        return Some(Given::AtYield(y));
    }
    if let Some(rate) = case.yld("rate=") {
        return Some(Given::AtRate(rate));
    }
    Some(Given::AtPrice(case.price("price=")?))
}
