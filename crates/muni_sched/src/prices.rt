//! The lowest price over redemption candidates.

ghost use Rattle.std.specs.Prelude.{◌≡◌, ◌<◌, ◌≤◌, Some, length, All};
ghost use Rattle.std.specs.List.{AllZip};
ghost use Rattle.muni_multi.specs.Prices as multi;
ghost use Rattle.muni_simple.specs.Single as simple;
ghost use Rattle.muni_sched.specs.Answer.{dated, IsLowestAnswer};
ghost use Rattle.muni_sched.specs.Candidates.{IsCandidate};
ghost use Rattle.muni_sched.specs.FigureKind.{Price};
ghost use Rattle.muni_sched.specs.Figures.{IsOf};
ghost use Rattle.muni_sched.specs.GivenFigure.{at_yield};
ghost use Rattle.muni_sched.specs.LowAnswers.{low_price};
ghost use Rattle.muni_sched.specs.PriceOutcome.{price_outcome, one_price, IsAtYield, IsPriceAt, IsPrintable};
ghost use Rattle.muni_sched.specs.Range.{IsGivenFor};
ghost use Rattle.muni_sched.specs.Ranks.{decided_by};

use crate::lowest::lowest_of;
use crate::{Candidate, LowestPrice, NoPrice, Shape};
use arrayvec::ArrayVec;
use muni_dec::Yield;
use muni_multi::{Discount, Encloser, PriceAnswer, printed_price_at};
use muni_simple::{Shape1, SimplePrice, single_price};

/// The lowest dollar price at a yield over the redemption candidates of an issue (MSRB Rule
/// G-15(a)), in order of date. `out_of_range` of the yield is None, and the issue is no discounted
/// note.
pub fn price_to_worst<E: Encloser>(
    list: &[Candidate],
    y: Yield,
    encloser: &E,
) -> Result<LowestPrice, NoPrice>
    requires some { 0 < length list.now }
    requires few { length list.now ≤ 100 }
    requires candidates { All IsCandidate list.now }
    requires basis { All IsAtYield list.now }
    requires in_range { All (IsGivenFor y) list.now }
    // promise 3, 4: the program's lowest price, the earliest redemption that has it, undecided exactly by the rule
    ensures { IsLowestAnswer (E.ends encloser.now) (at_yield y) list.now (low_price result) }
{
    let prices = prices_at(encloser, list, y);
    let candidate = lowest_of(prices.as_slice());
    decided_price(list, prices.as_slice()[candidate], candidate)
}

// The price of the candidate that decides, or why there is none.
fn decided_price(
    list: &[Candidate],
    answer: PriceAnswer,
    candidate: usize,
) -> Result<LowestPrice, NoPrice>
    requires { candidate < length list.now }
    ensures { Some (low_price result)
        ≡ dated Price list.now (decided_by (price_outcome answer) candidate) }
{
    match answer {
        PriceAnswer::Price(price) => Ok(LowestPrice { price, candidate }),
        PriceAnswer::BelowZero => Err(NoPrice::Below {
            date: list[candidate].date,
        }),
        PriceAnswer::Undecided { boundary } => Err(NoPrice::Undecided {
            date: list[candidate].date,
            boundary,
        }),
    }
}

fn prices_at<E: Encloser>(encloser: &E, list: &[Candidate], y: Yield) -> ArrayVec<PriceAnswer, 100>
    requires few { length list.now ≤ 100 }
    requires candidates { All IsCandidate list.now }
    requires basis { All IsAtYield list.now }
    requires in_range { All (IsGivenFor y) list.now }
    ensures each { AllZip (IsPriceAt (E.ends encloser.now) y) list.now result.items }
    ensures range { All IsPrintable result.items }
{
    let mut prices = ArrayVec::new();
    let mut discount = None;
    for candidate in list {
        prices.push(price_at(encloser, candidate, y, &mut discount));
    }
    prices
}

// The candidates after the first find the discount of the yield at hand.
fn price_at<E: Encloser>(
    encloser: &E,
    candidate: &Candidate,
    y: Yield,
    discount: &mut Option<Discount>,
) -> PriceAnswer
    requires candidate { IsCandidate candidate.now }
    requires basis { IsAtYield candidate.now }
    requires in_range { IsGivenFor y candidate.now }
    ensures outcome { IsPriceAt (E.ends encloser.now) y candidate.now result }
    ensures range { IsPrintable result }
{
    match &candidate.shape {
        Shape::Many(flows) => {
            let at = Discount::kept_or_at(discount.as_ref(), y.units() as i32, flows.a());
            *discount = Some(at);
            printed_price_at(encloser, flows, &at)
        }
        Shape::One(payment) => sure(single_price(payment, Shape1::OnePeriod, y)),
        Shape::AtRedemption(payment) => sure(single_price(payment, Shape1::AtRedemption, y)),
        Shape::Discount { .. } => unreachable!(),
    }
}

fn sure(answer: SimplePrice) -> PriceAnswer
    requires { simple.PrintsAtMost 100_000_000 answer }
    ensures value { price_outcome result ≡ one_price answer }
    ensures range { IsPrintable result }
{
    match answer {
        SimplePrice::Price(price) => PriceAnswer::Price(price),
        SimplePrice::BelowZero => PriceAnswer::BelowZero,
    }
}
