//! The figures of a trade.

use muni_days::Day;
use muni_dec::{Cents, Price, Price3, Yield3};
use muni_terms::Label;

/// What a confirmation prints of a trade. Money is for the par of the trade.
#[derive(Clone, Copy, Debug, PartialEq, Eq)]
pub struct Figures {
    /// The dollar price per 100 of par, computed or as given.
    pub price: Price3,
    /// The yield or return, computed or as given.
    pub yld: Yield3,
    /// The disclosed redemption date.
    pub redemption: Day,
    /// The redemption price on that date.
    pub at: Price,
    /// Which redemption it is.
    pub label: Label,
    /// The days of accrued interest.
    pub days: i32,
    /// The extended principal.
    pub principal: Cents,
    /// The accrued interest.
    pub accrued: Cents,
    /// The commission.
    pub commission: Cents,
    /// Principal and accrued interest together, with the commission added for a buy and taken off
    /// for a sale.
    pub total: Cents,
}
