ghost use Rattle.std.specs.Prelude.{◌≡◌, ◌↔◌, ◌≤◌, ◌≤ℤ◌, true, length, pos, nat_eq};
ghost use Rattle.std.specs.Cmp.{partial_order_from_own_ties};
ghost use Rattle.std.specs.Cmp.Rules.{comparing};
ghost use Rattle.std.specs.Ordering.{on, nat_cmp, as_partial_cmp};
ghost use Rattle.std.proofs.Common.{rules};
ghost use Rattle.arrayvec.specs.ArrayVec.{array_vec_len};
ghost use Rattle.jiff.specs.Words.{IsYmd};
ghost use Rattle.muni_days.specs.Calendar as calendar;
ghost use Rattle.muni_days.specs.Form.{digits_reading, numbers_reading};

use arrayvec::ArrayVec;
use jiff::civil;
use muni_dec::digits::{push_last_digits, read_number};
use std::cmp::Ordering;
use thiserror::Error;

/// A day of the civil calendar from 1900-01-01 to 2199-12-31. Days are ordered by date.
#[derive(Clone, Copy, Debug)]
pub struct Day {
    // In this order the three are one number in memory, which rises with the date.
    day: u8,
    month: u8,
    year: u16,
    ghost real: { calendar.is_day (record { year = year; month = month; day = day }) ≡ true },
}

/// Why a text names no day.
#[derive(Clone, Copy, Debug, PartialEq, Eq, Error)]
pub enum DayFault {
    /// The text is not four digits, a dash, two digits, a dash and two digits.
    #[error("not a day of the form YYYY-MM-DD")]
    Form,
    /// It is no day from 1900-01-01 to 2199-12-31.
    #[error("no such day from 1900-01-01 to 2199-12-31")]
    NoSuchDay,
}

impl DayFault {
    ghost use Rattle.muni_days.specs.Fault.{fault_number};

    /// The number of the fault, 1 or 2.
    pub fn number(&self) -> u32
        // promise 4: each fault of a date has its number
        ensures { result ≡ fault_number self.now }
    {
        match self {
            DayFault::Form => 1,
            DayFault::NoSuchDay => 2,
        }
    }
}

fn is_day(year: u64, month: u64, day: u64) -> bool
    ensures { result ≡ calendar.is_day (record { year = year; month = month; day = day }) }
{
    if year < 1900 || year > 2199 || month > 12 || day > 31 {
        return false;
    }
    civil::Date::new(year as i16, month as i8, day as i8).is_ok()
}

#[tactic(auto, using(crate::proofs::FormLemmas::few_digits))]
fn read_few_digits(text: &[u8]) -> Option<u64>
    requires { length text.now ≤ 4 }
    ensures { result ≡ digits_reading text.now }
{
    read_number(text, 4, 0, 9_999)
}

fn read_numbers(text: &[u8]) -> Option<(u64, u64, u64)>
    ensures { result ≡ numbers_reading text.now }
{
    if text.len() != 10 || text[4] != b'-' || text[7] != b'-' {
        return None;
    }
    let year = read_few_digits(&text[..4])?;
    let month = read_few_digits(&text[5..7])?;
    let day = read_few_digits(&text[8..10])?;
    Some((year, month, day))
}

impl Day {
    ghost use Rattle.muni_days.specs.Day.{civil, rank_of, if_day, day_reading, day_text};

    /// The first day of the desk, 1900-01-01.
    pub const FIRST: Day = Day {
        year: 1900,
        month: 1,
        day: 1,
    };

    /// Reads a day as `2024-02-29`.
    pub fn read(text: &[u8]) -> Result<Day, DayFault>
        // promise 4: a date is read exactly by its format and range
        ensures { result ≡ day_reading text.now }
    {
        let (year, month, day) = read_numbers(text).ok_or(DayFault::Form)?;
        Day::of(year, month, day).ok_or(DayFault::NoSuchDay)
    }

    /// The day of a year, a month from 1 and a day from 1, if the calendar and the desk have it.
    pub fn of(year: u64, month: u64, day: u64) -> Option<Day>
        // promise 10: a day is made of a date in the range, and of no other
        ensures { result ≡ if_day (record { year = year; month = month; day = day }) }
    {
        if !is_day(year, month, day) {
            return None;
        }
        Some(Day {
            year: year as u16,
            month: month as u8,
            day: day as u8,
        })
    }

    /// The year, from 1900 to 2199.
    pub fn year(&self) -> i32
        ensures value { result ≡ pos (civil self.now).year }
        ensures range { (pos 1900 ≤ℤ result) × (result ≤ℤ pos 2199) }
    {
        i32::from(self.year)
    }

    /// The month, from 1 to 12.
    pub fn month(&self) -> i32
        ensures value { result ≡ pos (civil self.now).month }
        ensures range { (pos 1 ≤ℤ result) × (result ≤ℤ pos 12) }
    {
        i32::from(self.month)
    }

    /// The day of the month, from 1 to 31.
    pub fn day(&self) -> i32
        ensures value { result ≡ pos (civil self.now).day }
        ensures range { (pos 1 ≤ℤ result) × (result ≤ℤ pos 31) }
    {
        i32::from(self.day)
    }

    /// Replaces the text by the day as `2024-02-29`.
    pub fn print_into(&self, text: &mut ArrayVec<u8, 32>)
        // promise 1: a date is written as it is read
        ensures items { text.new.items ≡ day_text (civil self.now) }
        ensures len { array_vec_len text.new ≡ 10 }
    {
        text.clear();
        push_last_digits(text, self.year() as u64, 4);
        text.push(b'-');
        push_last_digits(text, self.month() as u64, 2);
        text.push(b'-');
        push_last_digits(text, self.day() as u64, 2);
    }

    /// The date as `jiff` counts the days between dates.
    pub(crate) fn date(&self) -> civil::Date
        ensures { IsYmd (pos (civil self.now).year) (pos (civil self.now).month)
            (pos (civil self.now).day) result }
    {
        civil::Date::new(self.year as i16, self.month as i8, self.day as i8).unwrap_or(
            civil::Date::ZERO,
        )
    }

    // A number that rises with the date.
    fn rank(&self) -> u32
        ensures { result ≡ rank_of self.now }
    {
        u32::from(self.year) * 65_536 + u32::from(self.month) * 256 + u32::from(self.day)
    }
}

impl PartialEq for Day {
    ghost use Rattle.muni_days.specs.Day.{place_of};

    ghost eq = { on place_of nat_eq };

    ghost laws = { Prim.search (comparing, rules) };

    #[tactic(auto, using(crate::proofs::DayLemmas::day_decides, crate::proofs::OrderLemmas::rank_decides))]
    fn eq(&self, other: &Day) -> bool
        ensures value { result ≡ on place_of nat_eq self.now other.now }
        // promise 10: days are equal exactly if they are the same
        ensures same { (result ≡ true) ↔ (self.now ≡ other.now) }
    {
        self.rank() == other.rank()
    }
}

impl Eq for Day {
    ghost laws = { Prim.search (comparing, rules) };
}

impl Ord for Day {
    ghost use Rattle.muni_days.specs.Day.{place_of};

    ghost cmp = { on place_of nat_cmp };

    ghost total = { Prim.search (comparing, rules) };

    ghost matches_partial_cmp = { Prim.search (comparing, rules) };

    ghost matches_eq = { Prim.search (comparing, rules) };

    #[tactic(auto, using(crate::proofs::OrderLemmas::rank_orders))]
    fn cmp(&self, other: &Day) -> Ordering {
        self.rank().cmp(&other.rank())
    }
}

impl PartialOrd for Day {
    ghost use Rattle.muni_days.specs.Day.{place_of};

    ghost partial_cmp = { as_partial_cmp (on place_of nat_cmp) };

    ghost laws = { partial_order_from_own_ties (Prim.search (comparing, rules))
        (Prim.search (comparing, rules)) };

    fn partial_cmp(&self, other: &Day) -> Option<Ordering> {
        Some(self.cmp(other))
    }
}
