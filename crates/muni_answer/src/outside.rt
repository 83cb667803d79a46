//! For callers outside, which need have no threads; the program goes by `figures`.

ghost use Rattle.std.specs.Prelude.{◌≡◌, ◌≤◌, IfOk, OnOk};
ghost use Rattle.muni_sched.specs.Candidates.{AreCandidates};
ghost use Rattle.muni_answer.specs.Answers.{IsRightAnswer};

use crate::answers::{at_price, at_rate, at_yield, fill_for};
use crate::trade::net_price;
use muni_dec::Price;
use muni_edge::Gate;
use muni_msg::{Asked, Figures, Given, Refusal, Side};
use muni_multi::Encloser;
use muni_sched::{Calculator, Schedule};
use muni_terms::Issue;

/// The figures of a trade, as `figures` answers them, without threads. Those of the calculator are not used.
pub fn figures_alone<R, E: Encloser, G: Gate>(
    calculator: &Calculator<'_, R, E, G>,
    issue: &Issue,
    asked: &Asked,
    schedule: &mut Schedule,
) -> Result<Figures, Refusal>
    ensures right { IsRightAnswer (E.ends calculator.now.encloser.now) issue.now asked.now result }
    ensures covered { IfOk result (λ figures. asked.now.side ≡ Side.Sell
        → figures.commission ≤ figures.principal) }
    ensures accrued { IfOk result (λ figures. figures.accrued ≤ 60_000_000_000) }
    ensures candidates { OnOk result
        (AreCandidates issue.now asked.now.settle schedule.new.candidates) }
{
    match fill_for(issue, asked, schedule) {
        Ok(()) => match asked.given {
            Given::AtYield(y) => {
                at_yield(issue, asked, schedule.candidates(), y, calculator.encloser)
            }
            Given::AtPrice(price) => {
                let net = Price::new(net_price(price, asked.side, asked.fee));
                let lowest = schedule.yield_to_worst_alone(calculator, net);
                at_price(issue, asked, schedule.candidates(), price, lowest)
            }
            Given::AtRate(rate) => at_rate(issue, asked, schedule.candidates(), rate),
        },
        Err(early) => Err(early.refusal()),
    }
}
