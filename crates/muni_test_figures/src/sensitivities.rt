ghost use Rattle.muni_rule.specs.Ranges.{IsManyPeriodsBoundary};

use muni_dec::{Coupon, Price3, Yield};
use muni_multi::Discount;
use muni_risk::{Sensitivities, current_yield, series_sensitivities, single_sensitivities};
use muni_rule::Basis;
use muni_simple::{Shape1, Single};
use muni_test_samples::Sample;
use std::test::Fail;

const TWO_PERIODS: &str =
    "periodic dated=2022-01-01 first=2022-07-01 maturity=2024-01-01 coupon=5 settle=2023-04-01";

const CALLED: &str =
    "periodic dated=2022-01-01 first=2022-07-01 maturity=2044-01-01 coupon=4 call=2034-01-01:100 settle=2024-01-01";

const ZERO: &str = "zero dated=2020-01-01 maturity=2044-01-01 settle=2024-03-01";

fn figures(duration: u64, convexity: u64, dv01: u64) -> Sensitivities {
    Sensitivities {
        duration,
        convexity,
        dv01,
    }
}

fn of_series(case: &str, y: i32) -> Result<Sensitivities, Fail>
    requires { IsManyPeriodsBoundary y }
{
    let flows = Sample::of(case).flows().ok_or("payments")?;
    Ok(series_sensitivities(&flows, &Discount::at(y, flows.a())))
}

#[test]
fn series_move_as_computed_outside(rt: HostRuntime) -> Result<(), Fail> {
    // 51675/71434 years, 6438125/7286268 years squared and 0.0073768.. dollars
    assert_eq!(rt; of_series(TWO_PERIODS, 40_000)?, figures(723, 884, 7_377));
    // 8.2953.. years, 80.6802.. years squared and 0.0900744.. dollars
    assert_eq!(rt; of_series(CALLED, 30_000)?, figures(8_295, 80_680, 90_074));
    // 238/12 years over 1.0225, 385.7247.. years squared and 0.0802460.. dollars
    assert_eq!(rt; of_series(ZERO, 45_000)?, figures(19_397, 385_725, 80_246));
    Ok(())
}

#[test]
fn one_payment_moves_as_computed_outside(rt: HostRuntime) {
    // 102.5 dollars due in 90 days, at 4 percent: 0.25 / 1.01 years, 0.125 / 1.0201 years squared
    let bond = Single {
        due: 36_900_000_000_000,
        accrued: 450_000_000_000,
        left: 90,
        basis: Basis::Thirty360,
    };
    let moved = single_sensitivities(&bond, Shape1::OnePeriod, Yield::new(40_000));
    assert_eq!(rt; moved, figures(248, 123, 2_512));

    // 104 dollars due in 183 days of 365, at 3 percent: 0.4939.. years
    let note = Single {
        due: 37_960_000_000_000,
        accrued: 728_000_000_000,
        left: 183,
        basis: Basis::Actual365,
    };
    let moved = single_sensitivities(&note, Shape1::AtRedemption, Yield::new(30_000));
    assert_eq!(rt; moved, figures(494, 488, 5_061));
}

#[test]
fn current_yields_are_rounded(rt: HostRuntime) {
    let coupon = Coupon::new(40_000_000);
    assert_eq!(rt; current_yield(coupon, Price3::new(108_584)), Some(3_684));
    assert_eq!(rt; current_yield(coupon, Price3::new(0)), None);
}
