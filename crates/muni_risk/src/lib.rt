//! How the price moves with the yield: current yield, duration, convexity and what a basis point is worth.
#![tactic(auto)]

mod current;
mod nearest;
mod print;
mod series;
mod single;
mod sums;

pub use current::current_yield;
pub use print::{print_millionths, print_thousandths};
pub use series::series_sensitivities;
pub use single::single_sensitivities;

/// How the price with the accrued interest moves with the yield, rounded to the nearest last digit.
#[derive(Clone, Copy, Debug, PartialEq, Eq)]
pub struct Sensitivities {
    /// The modified duration, in 10^-3 years.
    pub duration: u64,
    /// The convexity, in 10^-3 years squared.
    pub convexity: u64,
    /// What the price falls by if the yield rises by 0.01 percent, in 10^-6 dollars per 100 of par, by
    /// the first derivative.
    pub dv01: u64,
}

/// How the price of a trade moves with its yield, and what its coupon yields on the price.
#[derive(Clone, Copy, Debug, PartialEq, Eq)]
pub struct Risk {
    /// The current yield, in units of 0.001 percent. None if interest is not paid periodically, and at a
    /// price of 0.
    pub current_yield: Option<u64>,
    pub sensitivities: Sensitivities,
}
