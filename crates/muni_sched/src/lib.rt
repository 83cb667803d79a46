//! The schedule of an issue: its redemption candidates, and the lowest figure over them (MSRB Rule
//! G-15(a)).
#![tactic(auto)]

mod aim;
mod answer;
mod calculator;
mod candidate;
mod ceiling;
pub mod laws;
mod look;
mod lowest;
mod note;
mod outcome;
mod outside;
mod prices;
mod range;
mod redemptions;
mod round;
mod schedule;
mod search;
mod shape;
mod workers;
mod yield_outcome;
mod yields;

pub use answer::{Figure, LowAnswer, LowestPrice, LowestYield, NoPrice, NoYield};
pub use calculator::Calculator;
pub use candidate::{Candidate, Shape};
pub use lowest::lowest_of;
pub use muni_terms::{Boundary, Label};
pub use outcome::{CandidateOutcome, Ranked};
pub use outside::{candidates, in_range, lowest_price, lowest_yield};
pub use prices::price_to_worst;
pub use range::out_of_range;
pub use redemptions::put_candidates;
pub use schedule::Schedule;
pub use workers::Workers;
