//! The generator of a drill: trades that are made from a number.

ghost use Rattle.std.specs.Prelude.{◌≡◌, ◌+◌, ◌-◌, ◌*◌, ◌<◌, ◌≤◌, ◌++◌, map, max};
ghost use Rattle.arrayvec.specs.ArrayVec.{array_vec_len};
ghost use Rattle.muni_days.specs.Day.{civil};
ghost use Rattle.muni_terms.specs.Issue.{entry_of};
ghost use Rattle.muni_desk.specs.Generator as spec;
ghost use Rattle.muni_desk.specs.Generator.{IsGenerated};

use crate::request::{NO_CUSIP, QuoteRequest, issue_name};
use arrayvec::ArrayVec;
use muni_days::{Basis, Day, months_on};
use muni_dec::{Coupon, Fee, Par, Price};
use muni_msg::{Asked, Given, Side};
use muni_terms::{Call, CallTerm, IssueRow, Kind};
use std::marker::Model;

const MULTIPLIER: u64 = 6_364_136_223_846_793_005;

const INCREMENT: u64 = 1_442_695_040_888_963_407;

/// Generates trades, with a linear congruential generator of 64 bits.
#[derive(Drop)]
pub struct Generator {
    state: u64,
}

impl Model for Generator {
    ghost use Rattle.std.specs.Prelude.{ℕ};

    ghost Value = { ℕ };

    ghost view = { λ generator. generator.state };

    ghost inverse = { λ state. record { state = state } };
}

impl Generator {
    /// A generator whose first state is the seed.
    pub fn new(seed: u64) -> Generator
        ensures { result ≡ seed }
    {
        Generator { state: seed }
    }

    #[tactic(auto, unfolding(crate::specs::Generator::next_state, crate::specs::Generator::drawn))]
    fn draw(&mut self) -> u64
        ensures state { self.new ≡ spec.next_state self.old }
        ensures value { result ≡ spec.drawn self.new }
    {
        self.state = self.state.wrapping_mul(MULTIPLIER).wrapping_add(INCREMENT);
        self.state >> 33
    }

    /// The trade that the next seven draws make.
    pub fn trade(&mut self) -> QuoteRequest
        ensures trade { IsGenerated self.old result }
        ensures state { self.new ≡ spec.state_after self.old 7 }
    {
        let row = self.row();
        let asked = self.asked();
        QuoteRequest { row, asked }
    }

    /// Passes over the trade that the next seven draws make.
    pub fn pass(&mut self)
        ensures { self.new ≡ spec.state_after self.old 7 }
    {
        for draws in 0..7u64 {
            let _ = self.draw();
        }
    }

    fn row(&mut self) -> IssueRow
        ensures row { spec.IsGeneratedRow (spec.draw self.old 1) (spec.draw self.old 2)
            (spec.draw self.old 3) result }
        ensures state { self.new ≡ spec.state_after self.old 3 }
    {
        let maturity = interest_date(1 + self.draw() % 60);
        let coupon = Coupon::new(10_000_000 + 1_250_000 * (self.draw() % 49));
        let calls = calls_before(maturity, self.draw() % 41);
        IssueRow {
            cusip: NO_CUSIP,
            name: issue_name(b"DRILL"),
            kind: Kind::Periodic {
                first: day_in_2020(7, 1),
            },
            basis: Basis::Thirty360,
            dated: day_in_2020(1, 1),
            maturity,
            coupon,
            calls,
        }
    }

    fn asked(&mut self) -> Asked
        ensures asked { spec.IsGeneratedAsked (spec.draw self.old 1) (spec.draw self.old 2)
            (spec.draw self.old 3) (spec.draw self.old 4) result }
        ensures state { self.new ≡ spec.state_after self.old 4 }
    {
        let month = 7 + self.draw() % 6;
        let day = 1 + self.draw() % 28;
        let par = Par::new(5_000 * (1 + self.draw() % 200));
        let price = Price::new(90_000_000 + 1_000 * (self.draw() % 30_001));
        Asked {
            cusip: NO_CUSIP,
            par,
            settle: day_in_2020(month, day),
            given: Given::AtPrice(price),
            side: Side::Buy,
            fee: Fee::ZERO,
        }
    }
}

fn day_in_2020(month: u64, day: u64) -> Day
    requires month { (1 ≤ month) × (month ≤ 12) }
    requires day { (1 ≤ day) × (day ≤ 28) }
    ensures { civil result ≡ spec.day_in_2020 month day }
{
    match Day::of(2020, month, day) {
        Some(date) => date,
        None => unreachable!(),
    }
}

fn interest_date(half_years: u64) -> Day
    requires { half_years ≤ 60 }
    ensures { civil result ≡ spec.interest_date half_years }
{
    match months_on(day_in_2020(7, 1), (6 * half_years) as i32) {
        Some(date) => date,
        None => unreachable!(),
    }
}

fn calls_before(maturity: Day, count: u64) -> ArrayVec<Call, 40>
    requires { count ≤ 40 }
    ensures { map entry_of result.items ≡ spec.calls_before (civil maturity) count }
{
    let mut calls = ArrayVec::new();
    for place in 0..count {
        push_if_before(&mut calls, call_at(place), maturity);
    }
    calls
}

fn push_if_before(calls: &mut ArrayVec<Call, 40>, call: Call, maturity: Day)
    requires { array_vec_len calls.old < 40 }
    ensures items { map entry_of calls.new.items
        ≡ map entry_of calls.old.items
        ++ spec.if_before (civil maturity) (entry_of call) }
    ensures len { array_vec_len calls.new ≤ array_vec_len calls.old + 1 }
{
    if call.date < maturity {
        calls.push(call);
    }
}

fn call_at(place: u64) -> Call
    requires { place < 40 }
    ensures { entry_of result ≡ spec.call_at place }
{
    Call {
        date: interest_date(2 + place),
        price: Price::new((102_000_000 - 250_000 * place).max(100_000_000)),
        term: CallTerm::OnDay,
    }
}
