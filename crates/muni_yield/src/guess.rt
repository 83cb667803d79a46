//! A guess at a yield. Nothing rests on it: whichever place it names, the answer there is proved.

use crate::Place;
use muni_dec::Price;
use muni_terms::Flows;

/// One, in units of 2^-58, in which fractions are counted.
const ONE: i64 = 1 << 58;

/// One divided by 1, 2 and so on up to 18, in units of 2^-58.
const PARTS: [i64; 18] = [
    ONE,
    ONE / 2,
    ONE / 3,
    ONE / 4,
    ONE / 5,
    ONE / 6,
    ONE / 7,
    ONE / 8,
    ONE / 9,
    ONE / 10,
    ONE / 11,
    ONE / 12,
    ONE / 13,
    ONE / 14,
    ONE / 15,
    ONE / 16,
    ONE / 17,
    ONE / 18,
];

/// One payment, in units of 2^-40.
const PAYMENT: i64 = 1 << 40;

/// The boundaries of the least and of the greatest yield, in 10^-6.
const LEAST: i64 = -50_005;

const GREATEST: i64 = 1_000_005;

/// A rough yield: interest and the pull to the redemption over a price between. It stays a fraction,
/// since a division costs more than the comparison of two.
#[derive(Clone, Copy, Debug, PartialEq, Eq)]
pub struct RoughYield {
    earned: i64,
    invested: i64,
}

impl RoughYield {
    /// Above all others.
    pub const HIGHEST: RoughYield = RoughYield {
        earned: i64::MAX,
        invested: 1,
    };

    /// That of payments at a price.
    pub fn of(flows: &Flows, price: Price) -> RoughYield {
        let redemption = flows.redemption() as i64;
        let price = 360_000 * price.units() as i64;
        let days = 180 * i64::from(flows.n()) - i64::from(flows.a());
        let pull = (redemption - price) * 180;
        let interest = (flows.regular() as i64).wrapping_mul(days);
        let between = (2 * redemption + 3 * price) >> 3;
        RoughYield {
            earned: pull.wrapping_add(interest),
            invested: between.wrapping_mul(days),
        }
    }

    /// Whether it is below another one.
    pub fn is_below(self, other: RoughYield) -> bool {
        let own = (self.earned as i128).wrapping_mul(other.invested as i128);
        own < (other.earned as i128).wrapping_mul(self.invested as i128)
    }

    /// In 10^-6.
    pub fn millionths(self) -> i64 {
        part(self.earned, self.invested / 1_250_000)
    }
}

/// The highest place that is reached, nearly, by Newton's method from a yield in 10^-6.
pub fn place_near(flows: &Flows, price: Price, from: i64) -> Place {
    let dirty = (360_000 * price.units() + flows.accrued()) as i64;
    let mut y = from.clamp(LEAST, GREATEST);
    // In 10^-6 / 1024. The boundary of a place that is met nearly is taken as reached.
    let mut finer = 0i64;
    for _turn in 0u32..8 {
        let step = step(flows, dirty, y);
        finer = y
            .wrapping_mul(1_024)
            .wrapping_add(step)
            .clamp(LEAST * 1_024, GREATEST * 1_024);
        let next = (finer + 512) / 1_024;
        if next == y || (-204_800 < step && step < 204_800) {
            break;
        }
        y = next.clamp(LEAST, GREATEST);
    }
    Place::near(finer.wrapping_add(512 + 50_015 * 1_024) / 10_240)
}

// By how much a yield is too low, in 10^-6 / 1024, from the logarithms of two worths on the day of
// the first payment: that of all payments, and the price.
fn step(flows: &Flows, dirty: i64, y: i64) -> i64 {
    let divisor = y.wrapping_add(2_000_000);
    let half_year = part(2_000_000 << 42, divisor).wrapping_mul(1 << 16);
    let near = Near::at(flows, half_year);
    let days = 180 - i64::from(flows.a());
    let asked = times(dirty, growth(y, days));
    let mean = near.worth.wrapping_add(asked) / 2;
    let over = near.worth.wrapping_sub(asked).wrapping_mul(4_096);
    let relative = part(over, mean / (1 << 14));
    let later = part(near.weighted, near.worth / (1 << 20));
    let duration = later.wrapping_add(days * (1 << 20) / 180);
    part(relative.wrapping_mul(divisor).wrapping_mul(16), duration)
}

/// Payments on the day of the first: their worth, and the sum of each worth by its half-years.
#[derive(Clone, Copy)]
struct Near {
    worth: i64,
    weighted: i64,
}

impl Near {
    fn at(flows: &Flows, half_year: i64) -> Near {
        let later = flows.n() - 1 - flows.skip();
        let level = Level::of(half_year, later);
        let regular = flows.regular() as i64;
        let interest = times(paid(regular, level.count), half_year);
        let redeemed = times(flows.redemption() as i64, level.factor);
        let mut near = Near {
            worth: (flows.first() as i64)
                .wrapping_add(interest)
                .wrapping_add(redeemed),
            weighted: times(paid(regular, level.weighted), half_year)
                .wrapping_add(interest)
                .wrapping_add(redeemed.wrapping_mul(i64::from(later))),
        };
        for _half_year in 0..flows.skip() {
            near = near.half_a_year_before(half_year);
        }
        near
    }

    fn half_a_year_before(self, half_year: i64) -> Near {
        let worth = times(self.worth, half_year);
        Near {
            worth,
            weighted: times(self.weighted, half_year).wrapping_add(worth),
        }
    }
}

/// Payments of one, half a year apart, on the day of the first: their worth, the sum of each worth
/// by its half-years, and the factor of as many half-years.
#[derive(Clone, Copy)]
struct Level {
    count: i64,
    weighted: i64,
    factor: i64,
}

impl Level {
    fn of(half_year: i64, count: u32) -> Level {
        if count == 0 {
            return Level {
                count: 0,
                weighted: 0,
                factor: ONE,
            };
        }
        let mut level = Level {
            count: PAYMENT,
            weighted: 0,
            factor: half_year,
        };
        for place in (0..count.ilog2()).rev() {
            level = level.doubled(half_year, count >> place);
        }
        level
    }

    // A number of payments, from half as many.
    fn doubled(self, half_year: i64, count: u32) -> Level {
        let half = i64::from(count / 2);
        let later = self.weighted.wrapping_add(half.wrapping_mul(self.count));
        let doubled = Level {
            count: self.count.wrapping_add(times(self.count, self.factor)),
            weighted: self.weighted.wrapping_add(times(later, self.factor)),
            factor: times(self.factor, self.factor),
        };
        if count % 2 == 0 {
            return doubled;
        }
        let last = doubled.factor / (ONE / PAYMENT);
        Level {
            count: doubled.count.wrapping_add(last),
            weighted: doubled.weighted.wrapping_add(last.wrapping_mul(2 * half)),
            factor: times(doubled.factor, half_year),
        }
    }
}

// By how much an amount grows in some days of half a year: a power of one and half the yield, by its
// series.
fn growth(y: i64, days: i64) -> i64 {
    let half_yield = y.wrapping_mul(ONE / 2_000_000);
    let mut exponent = days.wrapping_mul(ONE / 180);
    let mut term = ONE;
    let mut sum = ONE;
    for part in PARTS {
        term = times(times(term, half_yield), times(exponent, part));
        sum = sum.wrapping_add(term);
        exponent = exponent.wrapping_sub(ONE);
        if -PAYMENT < term && term < PAYMENT {
            break;
        }
    }
    sum
}

// A number divided by one above 0.
fn part(number: i64, divisor: i64) -> i64 {
    if divisor > 0 { number / divisor } else { 0 }
}

// A number of payments of an amount.
fn paid(amount: i64, count: i64) -> i64 {
    high(amount.wrapping_mul(1 << 16), count).wrapping_mul(1 << 8)
}

// The product of a number and a fraction.
fn times(number: i64, fraction: i64) -> i64 {
    high(number, fraction).wrapping_mul(64)
}

// The product of two numbers, divided by 2^64.
fn high(a: i64, b: i64) -> i64 {
    ((a as i128).wrapping_mul(b as i128) >> 64) as i64
}
