//! Steps of whole months.

ghost use Rattle.std.specs.Prelude.{◌≡◌, ◌≤◌, ◌≤ℤ◌, ◌+ℤ◌, pos, negsuc, unsigned_abs};
ghost use Rattle.muni_rule.specs.Civil as rule;
ghost use Rattle.muni_days.specs.Day.{civil, if_day};

use crate::Day;

/// The same day of the month a number of months later, or earlier if the number is negative.
///
/// The day of the month is 28 at most, and the months are 1,200 at most either way. None if that
/// day is outside the desk's range.
pub fn months_on(date: Day, months: i32) -> Option<Day>
    requires day { (civil date).day ≤ 28 }
    requires months { (negsuc 1199 ≤ℤ months) × (months ≤ℤ pos 1200) }
    // promise 1: so many months later, and none when a day leaves the range
    ensures { result ≡ if_day (rule.months_on (civil date) months) }
{
    let index = month_index_on(date, months);
    Day::of(index / 12, index % 12 + 1, date.day() as u64)
}

fn month_index_on(date: Day, months: i32) -> u64
    requires { (negsuc 1199 ≤ℤ months) × (months ≤ℤ pos 1200) }
    ensures { result ≡ unsigned_abs (pos (rule.month_index (civil date)) +ℤ months) }
{
    (date.year() * 12 + (date.month() - 1) + months) as u64
}
