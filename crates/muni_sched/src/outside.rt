//! For callers outside; the program goes by `Schedule` and `price_to_worst`.

ghost use Rattle.std.specs.Prelude.{◌≡◌, ◌↔◌, ◌<◌, ◌≤◌, ◌+◌, ◌^◌, true, length, All, AllPairs, Err, None};
ghost use Rattle.muni_terms.specs.Issue.{settles};
ghost use Rattle.muni_sched.specs.Answer.{IsLowestAnswer};
ghost use Rattle.muni_sched.specs.Candidates.{AreCandidates, IsCandidate, IsRedeemedEarlier};
ghost use Rattle.muni_sched.specs.GivenFigure.{at_price, at_yield};
ghost use Rattle.muni_sched.specs.LowAnswers.{low_price, low_yield};
ghost use Rattle.muni_sched.specs.PriceOutcome.{IsAtYield};
ghost use Rattle.muni_sched.specs.Range.{IsGivenFor, side_of_first};
ghost use Rattle.muni_sched.specs.SearchedOut.{CountsRounds};

use crate::search::{OpenSearch, Search};
use crate::yields::{lowest_of_search, search_in_threads};
use crate::{
    Calculator, Candidate, Figure, LowAnswer, LowestPrice, LowestYield, NoPrice, NoYield, Workers,
    out_of_range, price_to_worst, put_candidates,
};
use arrayvec::ArrayVec;
use muni_days::Day;
use muni_dec::{Price, Yield};
use muni_edge::{Gate, Steps};
use muni_multi::Encloser;
use muni_terms::{Boundary, Issue};
use std::cmp::Ordering;
use std::sync::ledger::Ledger;
use std::thread::Threads;

/// The redemption candidates of an issue at a settlement (MSRB Rule G-15(a)), in order of date: the days
/// after the settlement on which its calls stand, each at the price of its call, and its maturity at 100,
/// unless it has been called. A note has its maturity alone.
pub fn candidates(issue: &Issue, settlement: Day) -> ArrayVec<Candidate, 100>
    requires { settles issue.now settlement ≡ true }
    // promise 3: the redemptions to come, with their labels
    ensures candidates { AreCandidates issue.now settlement result.items }
    ensures some { 0 < length result.items }
    // promise 3: in order of date
    ensures rising { AllPairs IsRedeemedEarlier result.items }
{
    let mut slots = [Candidate::default(); 100];
    let count = put_candidates(&mut slots, issue, settlement);
    let mut list = ArrayVec::new();
    let _ = list.try_extend_from_slice(&slots[..count]);
    list
}

/// None exactly if a yield may be given for every redemption candidate, and otherwise the side on
/// which it leaves the range of the first that excludes it.
pub fn in_range(list: &[Candidate], y: Yield) -> Option<Ordering>
    ensures inside { (result ≡ None) ↔ All (IsGivenFor y) list.now }
    ensures first { result ≡ side_of_first y list.now }
{
    out_of_range(list, y)
}

/// The lowest dollar price at a yield over the redemption candidates of an issue (MSRB Rule
/// G-15(a)). They are those of `candidates`, in order of date, and `in_range` of the yield is None.
///
/// The issue is no discounted note. The answer is neither `Above` nor `NoTime`.
pub fn lowest_price<E: Encloser>(list: &[Candidate], y: Yield, encloser: &E) -> LowAnswer
    requires some { 0 < length list.now }
    requires few { length list.now ≤ 100 }
    requires candidates { All IsCandidate list.now }
    requires basis { All IsAtYield list.now }
    requires in_range { All (IsGivenFor y) list.now }
    // promise 3, 4: the lowest price, the earliest redemption that has it, undecided exactly by the rule
    ensures { IsLowestAnswer (E.ends encloser.now) (at_yield y) list.now result }
{
    LowAnswer::of_price(price_to_worst(list, y, encloser))
}

/// The lowest yield at a dollar price over 0, over the redemption candidates of an issue (MSRB Rule
/// G-15(a)). They are those of `candidates`, in order of date.
///
/// The searches for the yields go by rounds, which `steps` counts.
// In each, up to `workers` threads, from 1 to 16, halve each search that is still needed, and call the
// gate before it (tested). A halving calls the encloser at most once (tested).
pub fn lowest_yield<R: Threads + Sync, E: Encloser + Sync, G: Gate + Sync, L: Ledger>(
    rt: &R,
    list: &[Candidate],
    price: Price,
    workers: u32,
    encloser: &E,
    gate: &G,
    steps: &mut Steps<L>,
) -> LowAnswer
    requires few { length list.now ≤ 100 }
    requires candidates { All IsCandidate list.now }
    requires price { 0 < price }
    requires workers { (1 ≤ workers) × (workers ≤ 16) }
    requires room { steps.old + 19 < 2 ^ 64 }
    // promise 3, 4: the lowest yield, the earliest redemption that has it, and no time, below, above or undecided
    ensures answer { IsLowestAnswer (E.ends encloser.now) (at_price price) list.now result }
    // promise 10: the rounds that a search takes leave nothing to ask, and no fewer do
    ensures rounds { CountsRounds (E.ends encloser.now) price list.now steps.old steps.new }
    // promise 10: at most 19 rounds
    ensures few { steps.new ≤ steps.old + 19 }
{
    let mut slots = [OpenSearch::default(); 100];
    let mut search = Search::new();
    let calculator = Calculator {
        rt,
        workers: Workers::new(workers),
        encloser,
        gate,
    };
    let rounds = search_in_threads(&calculator, &mut search, &mut slots, list, price);
    for _round in 0..rounds {
        steps.tick();
    }
    LowAnswer::of_yield(lowest_of_search(&search, list, price, encloser))
}

impl LowAnswer {
    fn of_price(lowest: Result<LowestPrice, NoPrice>) -> LowAnswer
        ensures { result ≡ low_price lowest }
    {
        match lowest {
            Ok(lowest) => LowAnswer::Low {
                figure: Figure::Price(lowest.price),
                candidate: lowest.candidate,
            },
            Err(none) => LowAnswer::no_price(none),
        }
    }

    fn no_price(none: NoPrice) -> LowAnswer
        ensures { result ≡ low_price (Err none) }
    {
        match none {
            NoPrice::Undecided { date, boundary } => LowAnswer::Undecided {
                date,
                boundary: Boundary::Price(boundary),
            },
            NoPrice::Below { date } => LowAnswer::Below { date },
        }
    }

    fn of_yield(lowest: Result<LowestYield, NoYield>) -> LowAnswer
        ensures { result ≡ low_yield lowest }
    {
        match lowest {
            Ok(lowest) => LowAnswer::Low {
                figure: Figure::Yield(lowest.yld),
                candidate: lowest.candidate,
            },
            Err(none) => LowAnswer::no_yield(none),
        }
    }

    fn no_yield(none: NoYield) -> LowAnswer
        ensures { result ≡ low_yield (Err none) }
    {
        match none {
            NoYield::Undecided { date, boundary } => LowAnswer::Undecided {
                date,
                boundary: Boundary::Yield(boundary),
            },
            NoYield::Below { date } => LowAnswer::Below { date },
            NoYield::Above => LowAnswer::Above,
            NoYield::NoTime { date } => LowAnswer::NoTime { date },
        }
    }
}
