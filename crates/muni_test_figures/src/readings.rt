mod trade;

use muni_days::Day;
use muni_dec::{Cents, Price3, Yield3};
use muni_readings::{Checked, Field, Reading, Stated};
use std::thread::Threads;
use trade::{NOTHING, Trade};

const CALLED: &str =
    "periodic dated=2022-01-01 first=2022-07-01 maturity=2044-01-01 coupon=4 call=2034-01-01:100 settle=2024-01-01 par=250000 yield=3";

const CALLED_AT_5: &str =
    "periodic dated=2022-01-01 first=2022-07-01 maturity=2044-01-01 coupon=4 call=2034-01-01:100 settle=2024-01-01 yield=5";

// At a yield of zero it is worth 125 at the first call and at maturity, and 110 at the second call.
const TWO_CALLS: &str =
    "periodic dated=2020-01-01 first=2020-07-01 maturity=2029-01-01 coupon=5 call=2025-01-01:120 call=2026-01-01:100 settle=2024-01-01 yield=0";

const ZERO: &str = "zero dated=2020-01-01 maturity=2034-01-01 settle=2024-01-01 yield=6";

const LAST_PERIOD: &str =
    "periodic dated=2020-01-01 first=2020-07-01 maturity=2024-07-01 coupon=5 settle=2024-04-01 yield=4";

const LAST_PERIOD_AT_PRICE: &str =
    "periodic dated=2020-01-01 first=2020-07-01 maturity=2024-07-01 coupon=5 settle=2024-04-01 price=100.24";

// Its price at the rate is 99.9995.
const TIE: &str = "discount dated=2024-01-01 maturity=2024-01-02 settle=2024-01-01 rate=0.18";

const FEBRUARY: &str =
    "periodic dated=2020-02-28 first=2020-08-28 maturity=2030-02-28 coupon=4 settle=2023-03-31 par=100000 price=100";

const COMMISSION: &str =
    "periodic dated=2020-01-01 first=2020-07-01 maturity=2025-01-01 coupon=5 settle=2024-04-01 price=100.625 fee=100";

const LONG_FIRST: &str =
    "periodic dated=2024-01-15 first=2024-10-01 maturity=2026-10-01 coupon=6 settle=2024-02-01 yield=4";

fn price(thousandths: u64) -> Stated {
    Stated {
        price: Price3::of(thousandths),
        ..NOTHING
    }
}

fn differs(field: Field, reading: Reading) -> Checked {
    Checked::Differs {
        field,
        reading: Some(reading),
    }
}

fn says<R: Threads + Sync>(rt: &R, case: &str, stated: Stated, expected: Checked) -> bool {
    match Trade::of(case) {
        Some(trade) => trade.check(rt, &stated) == Some(expected),
        None => false,
    }
}

#[test]
fn each_reading_is_named_at_its_figure(rt: HostRuntime) {
    assert!(rt; says(&rt, CALLED, price(108_584), Checked::Right));
    assert!(rt;
        says(
            &rt,
            CALLED,
            price(114_957),
            differs(Field::Price, Reading::Maturity)
        )
    );
    assert!(rt;
        says(
            &rt,
            ZERO,
            price(55_368),
            differs(Field::Price, Reading::Rounded)
        )
    );
    assert!(rt;
        says(
            &rt,
            LAST_PERIOD,
            price(100_240),
            differs(Field::Price, Reading::Compounded)
        )
    );
    assert!(rt;
        says(
            &rt,
            LONG_FIRST,
            price(105_004),
            differs(Field::Price, Reading::Regular)
        )
    );
    let accrued = Stated {
        accrued: Cents::of(34_444),
        ..NOTHING
    };
    assert!(rt;
        says(
            &rt,
            FEBRUARY,
            accrued,
            differs(Field::Accrued, Reading::February)
        )
    );
    let gross = Stated {
        yld: Yield3::of(4_136),
        ..NOTHING
    };
    assert!(rt;
        says(
            &rt,
            COMMISSION,
            gross,
            differs(Field::Yield, Reading::Gross)
        )
    );
}

#[test]
fn a_price_to_the_first_call_is_named(rt: HostRuntime) {
    assert!(rt; says(&rt, CALLED_AT_5, price(87_448), Checked::Right));
    assert!(rt;
        says(
            &rt,
            CALLED_AT_5,
            price(92_205),
            differs(Field::Price, Reading::FirstCall)
        )
    );
}

#[test]
fn a_yield_of_the_last_period_may_be_compounded(rt: HostRuntime) {
    let ours = Stated {
        yld: Yield3::of(3_981),
        ..NOTHING
    };
    assert!(rt; says(&rt, LAST_PERIOD_AT_PRICE, ours, Checked::Right));
    let theirs = Stated {
        yld: Yield3::of(4_000),
        ..NOTHING
    };
    assert!(rt;
        says(
            &rt,
            LAST_PERIOD_AT_PRICE,
            theirs,
            differs(Field::Yield, Reading::Compounded)
        )
    );
}

#[test]
fn half_a_thousandth_is_rounded_upward(rt: HostRuntime) {
    assert!(rt; says(&rt, TIE, price(99_999), Checked::Right));
    assert!(rt;
        says(
            &rt,
            TIE,
            price(100_000),
            differs(Field::Price, Reading::Rounded)
        )
    );
}

#[test]
fn of_two_readings_the_first_is_named(rt: HostRuntime) {
    assert!(rt; says(&rt, TWO_CALLS, price(110_000), Checked::Right));
    assert!(rt;
        says(
            &rt,
            TWO_CALLS,
            price(125_000),
            differs(Field::Price, Reading::Maturity)
        )
    );
}

#[test]
fn a_figure_of_no_reading_has_none(rt: HostRuntime) {
    let unnamed = Checked::Differs {
        field: Field::Price,
        reading: None,
    };
    assert!(rt; says(&rt, CALLED, price(108_585), unnamed));
    assert!(rt; says(&rt, CALLED, price(114_958), unnamed));
}

#[test]
fn nothing_stated_is_right(rt: HostRuntime) {
    assert!(rt; says(&rt, CALLED, NOTHING, Checked::Right));
}

#[test]
fn each_field_is_compared(rt: HostRuntime) {
    let redemption = Stated {
        redemption: Day::of(2044, 1, 1),
        ..NOTHING
    };
    assert!(rt;
        says(
            &rt,
            CALLED,
            redemption,
            differs(Field::Redemption, Reading::Maturity)
        )
    );
    let days = Stated {
        days: Some(31),
        ..NOTHING
    };
    assert!(rt; says(&rt, FEBRUARY, days, differs(Field::Days, Reading::February)));
    let principal = Stated {
        principal: Cents::of(28_739_250),
        ..NOTHING
    };
    assert!(rt;
        says(
            &rt,
            CALLED,
            principal,
            differs(Field::Principal, Reading::Maturity)
        )
    );
    let total = Stated {
        total: Cents::of(10_034_444),
        ..NOTHING
    };
    assert!(rt;
        says(
            &rt,
            FEBRUARY,
            total,
            differs(Field::Total, Reading::February)
        )
    );
}

#[test]
fn the_first_field_that_differs_is_named(rt: HostRuntime) {
    let both = Stated {
        price: Price3::of(114_957),
        yld: Yield3::of(3_001),
        ..NOTHING
    };
    assert!(rt; says(&rt, CALLED, both, differs(Field::Price, Reading::Maturity)));
    let later = Stated {
        price: Price3::of(108_584),
        yld: Yield3::of(3_001),
        ..NOTHING
    };
    let unnamed = Checked::Differs {
        field: Field::Yield,
        reading: None,
    };
    assert!(rt; says(&rt, CALLED, later, unnamed));
}
