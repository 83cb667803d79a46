//! The figures that another firm printed, and where they differ.

ghost use Rattle.std.specs.Prelude.{◌≡◌};
ghost use Rattle.muni_readings.specs.Stated as spec;
ghost use Rattle.muni_readings.specs.Stated.{is_stated};

use muni_days::Day;
use muni_dec::{Cents, Price3, Yield3};
use muni_msg::Figures;

/// The figures of a trade that another firm printed. What it did not print is None, and is not compared.
#[derive(Clone, Copy, Debug, PartialEq, Eq)]
pub struct Stated {
    /// The dollar price per 100 of par.
    pub price: Option<Price3>,
    pub yld: Option<Yield3>,
    /// The redemption date.
    pub redemption: Option<Day>,
    /// The days of accrued interest.
    pub days: Option<i32>,
    pub principal: Option<Cents>,
    pub accrued: Option<Cents>,
    pub total: Option<Cents>,
}

/// A figure of a trade, in the order in which they are compared.
#[derive(Clone, Copy, Debug, PartialEq, Eq)]
pub enum Field {
    Price,
    Yield,
    Redemption,
    Days,
    Principal,
    Accrued,
    Total,
}

impl Field {
    /// All of them in their order.
    pub const ALL: [Field; 7] = [
        Field::Price,
        Field::Yield,
        Field::Redemption,
        Field::Days,
        Field::Principal,
        Field::Accrued,
        Field::Total,
    ];

    /// Whether some figures have what is stated of this field. None if nothing is.
    pub fn is_as_stated(self, figures: &Figures, stated: &Stated) -> Option<bool>
        ensures { result ≡ spec.is_as_stated self figures.now stated.now }
    {
        match self {
            Field::Price => same(figures.price, stated.price),
            Field::Yield => same(figures.yld, stated.yld),
            Field::Redemption => same(figures.redemption, stated.redemption),
            Field::Days => same(figures.days, stated.days),
            Field::Principal => same(figures.principal, stated.principal),
            Field::Accrued => same(figures.accrued, stated.accrued),
            Field::Total => same(figures.total, stated.total),
        }
    }
}

fn same<T: Copy + PartialEq>(figure: T, stated: Option<T>) -> Option<bool>
    ensures { result ≡ is_stated T.eq figure stated }
{
    match stated {
        Some(other) => Some(figure == other),
        None => None,
    }
}

/// The first field in which figures are not as stated.
pub(crate) fn first_difference(figures: &Figures, stated: &Stated) -> Option<Field>
    ensures { result ≡ spec.first_difference figures.now stated.now }
{
    Field::ALL
        .iter()
        .copied()
        .find(|field| is_other(field.is_as_stated(figures, stated)))
}

fn is_other(same: Option<bool>) -> bool
    ensures { result ≡ spec.is_other same }
{
    match same {
        Some(same) => !same,
        None => false,
    }
}
