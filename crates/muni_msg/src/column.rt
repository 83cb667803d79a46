//! What the columns of a check hold, and their names.

ghost use Rattle.std.specs.Prelude.{◌≡◌};
ghost use Rattle.muni_msg.specs.Columns as spec;

/// What a column of an input holds.
#[derive(Clone, Copy, Debug, Default, PartialEq, Eq)]
pub enum Column {
    /// The reference of a trade of the desk.
    #[default]
    Reference,
    Cusip,
    Side,
    Par,
    /// The settlement date.
    Settle,
    /// What the trade is done at: `yield`, `price` or `rate`.
    Basis,
    Value,
    /// The commission per 100 of par.
    Fee,
    /// The price that the other firm printed, and the other figures after it.
    Price,
    Yield,
    Redemption,
    /// The days of accrued interest.
    Days,
    Principal,
    Accrued,
    Total,
    /// How the issue pays interest, and the other terms after it.
    Kind,
    Dated,
    First,
    Maturity,
    Coupon,
    Calls,
    /// How days are counted.
    DayCount,
}

const ALL: [Column; 22] = [
    Column::Reference,
    Column::Cusip,
    Column::Side,
    Column::Par,
    Column::Settle,
    Column::Basis,
    Column::Value,
    Column::Fee,
    Column::Price,
    Column::Yield,
    Column::Redemption,
    Column::Days,
    Column::Principal,
    Column::Accrued,
    Column::Total,
    Column::Kind,
    Column::Dated,
    Column::First,
    Column::Maturity,
    Column::Coupon,
    Column::Calls,
    Column::DayCount,
];

impl Column {
    /// All columns.
    pub fn all() -> [Column; 22]
        ensures { result ≡ spec.all_columns }
    {
        ALL
    }

    /// The name of the column in the first line of an input.
    pub fn name(self) -> &'static [u8]
        ensures { result.now ≡ spec.name_of self }
    {
        match self {
            Column::Reference => b"reference",
            Column::Cusip => b"cusip",
            Column::Side => b"side",
            Column::Par => b"par",
            Column::Settle => b"settle",
            Column::Basis => b"basis",
            Column::Value => b"value",
            Column::Fee => b"fee",
            Column::Price => b"price",
            Column::Yield => b"yield",
            Column::Redemption => b"redemption",
            Column::Days => b"days",
            Column::Principal => b"principal",
            Column::Accrued => b"accrued",
            Column::Total => b"total",
            Column::Kind => b"kind",
            Column::Dated => b"dated",
            Column::First => b"first",
            Column::Maturity => b"maturity",
            Column::Coupon => b"coupon",
            Column::Calls => b"calls",
            Column::DayCount => b"day_count",
        }
    }

    /// The column of a name.
    pub fn named(name: &[u8]) -> Option<Column>
        ensures { result ≡ spec.column_named name.now }
    {
        ALL.iter().copied().find(|column| column.name() == name)
    }
}
