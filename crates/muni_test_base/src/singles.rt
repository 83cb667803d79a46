//! Securities with one payment to come, and discounts.

ghost use Rattle.std.specs.Prelude.{◌≡◌, ◌<◌, ◌^◌, ◌≤ℤ◌, pos, IfSome};
ghost use Rattle.muni_rule.specs.Ranges.{IsDiscountRate};
ghost use Rattle.muni_simple.specs.Single.{IsBasisOf, IsGivenYield, IsSingle, most_left};

use arrayvec::ArrayVec;
use muni_dec::text::push;
use muni_dec::{Price, Yield};
use muni_rule::Basis;
use muni_simple::{
    Shape1, SimplePrice, SimpleYield, Single, discount_return, rate_price, rate_return,
    single_price, single_yield,
};
use muni_test_samples::{Sample, Table};

// Amounts are in 1/(B * 10^9) dollars, where B is the days of a year.
const CASES: &str = "\
# 102.5 dollars due in 90 days, and 1.25 accrued: 102.5 / 1.01 - 1.25 is 100.2351.., and
# (102.5 - 101.485) / 101.485 * 4 is 4.00059..%
base one due=36900000000000 accrued=450000000000 left=90
yield=4 gives=100.235
price=100.235 gives=4.001
price=0.000001 gives=above
# 104 dollars due in 180 days, and 2 accrued: 104 / 1.015 - 2 is 100.4630.., and
# (104 - 102.463) / 102.463 * 2 is 3.00010..%
base note due=37440000000000 accrued=720000000000 left=180
yield=3 gives=100.463
price=100.463 gives=3.000
price=999.999999 gives=below
# 104 dollars due in 183 days of 365, and 728/365 accrued: 104 / 1.01504.. - 1.9945.. is 100.4643..
base note actual/365 due=37960000000000 accrued=728000000000 left=183
yield=3 gives=100.464
price=100.464 gives=3.001
# 22 / 10.99999 is 2.0000018..
base note due=7920000000000 left=360 yield=999.999
accrued=720000000000 gives=0.000
accrued=720001000000 gives=below-zero
base one due=36000000000000 accrued=0 left=0
price=99 gives=no-time
# With 180 days left, a payment of due dollars yields (due / price - 1) * 200 percent: -90.0004..,
# -90.0005 and -90.001 percent
base accrued=0 left=180 price=100
one due=19799913600000 gives=-90.000
one due=19799910000000 gives=below
one due=19799820000000 gives=below
# -45.0004.., -45.0005 and -45.001 percent
note due=27899913600000 gives=-45.000
note due=27899910000000 gives=below
note due=27899820000000 gives=below
one due=27899820000000 gives=-45.001
# 999.9994 and 999.9996 percent
one due=215999892000000 gives=999.999
one due=215999928000000 gives=above
note due=215999892000000 gives=999.999
note due=215999928000000 gives=above
# 3% is 0.75 dollars for 90 days of 360 and 0.7479.. for 91 of 365. 0.03 / 0.9925 is 3.0226..%, as
# 0.03 / 0.99252.. is.
base days=90
rate=3 costs=99.250
rate=3 gives=3.023
price=99.25 gives=3.023
base days=91 actual/365
rate=3 costs=99.252
rate=3 gives=3.023
price=99.252 gives=3.023
base days=0 actual/365
rate=3 gives=no-time";

type Text = ArrayVec<u8, 32>;

fn shape_of(case: &Sample<'_>) -> Shape1 {
    if case.has("note") {
        Shape1::AtRedemption
    } else {
        Shape1::OnePeriod
    }
}

fn basis_of(case: &Sample<'_>) -> Basis {
    if case.has("actual/365") {
        Basis::Actual365
    } else {
        Basis::Thirty360
    }
}

// The basis of a case, which is 30/360 with interest paid periodically.
fn basis_for(case: &Sample<'_>, shape: Shape1) -> Basis
    ensures { IsBasisOf shape result }
{
    match shape {
        Shape1::OnePeriod => Basis::Thirty360,
        Shape1::AtRedemption => basis_of(case),
    }
}

fn most_of(shape: Shape1) -> i64
    ensures value { result ≡ pos (most_left shape) }
    ensures range { (pos 0 ≤ℤ result) × (result ≤ℤ pos 720) }
{
    match shape {
        Shape1::OnePeriod => 180,
        Shape1::AtRedemption => 720,
    }
}

// The days that are left.
fn left_of(case: &Sample<'_>, most: i64) -> Option<i32>
    requires { (pos 0 ≤ℤ most) × (most ≤ℤ pos 720) }
    ensures { IfSome result (λ left. (pos 0 ≤ℤ left) × (left ≤ℤ most)) }
{
    let left = case.number("left=")?;
    if left < 0 || left > most {
        return None;
    }
    Some(left as i32)
}

// An amount from 0 to 10^15.
fn amount(case: &Sample<'_>, name: &str) -> Option<i64>
    ensures { IfSome result (λ amount. (pos 0 ≤ℤ amount) × (amount ≤ℤ pos (10 ^ 15))) }
{
    let amount = case.number(name)?;
    if amount < 0 || amount > 1_000_000_000_000_000 {
        return None;
    }
    Some(amount)
}

fn single(case: &Sample<'_>, shape: Shape1) -> Option<Single>
    ensures { IfSome result (IsSingle shape) }
{
    let due = amount(case, "due=")?;
    let accrued = amount(case, "accrued=")?;
    let left = left_of(case, most_of(shape))?;
    let basis = basis_for(case, shape);
    Some(Single {
        due,
        accrued,
        left,
        basis,
    })
}

// The yield of a case, in the range for its shape.
fn yield_for(case: &Sample<'_>, shape: Shape1) -> Option<Yield>
    ensures { IfSome result (IsGivenYield shape) }
{
    let y = case.yld("yield=")?;
    let least = match shape {
        Shape1::OnePeriod => -900_000,
        Shape1::AtRedemption => -450_000,
    };
    if y.units() < least || y.units() > 9_999_990 {
        return None;
    }
    Some(y)
}

fn price_over_0(case: &Sample<'_>) -> Option<Price>
    ensures { IfSome result (λ price. 0 < price) }
{
    let price = case.price("price=")?;
    if price.units() == 0 {
        return None;
    }
    Some(price)
}

fn yield_text(answer: &SimpleYield) -> Text {
    let mut text = ArrayVec::new();
    match answer {
        SimpleYield::Print(y) => y.print_into(&mut text),
        SimpleYield::Below => push(&mut text, b"below"),
        SimpleYield::Above => push(&mut text, b"above"),
        SimpleYield::NoTime => push(&mut text, b"no-time"),
    }
    text
}

// What a payment of a case costs at its yield, or yields at its price.
fn of_payment(case: &Sample<'_>) -> Option<Text> {
    let shape = shape_of(case);
    let single = single(case, shape)?;
    if case.text("price=").is_some() {
        return Some(yield_text(&single_yield(&single, shape, price_over_0(case)?)));
    }
    let mut text = ArrayVec::new();
    match single_price(&single, shape, yield_for(case, shape)?) {
        SimplePrice::Price(price) => price.print_into(&mut text),
        SimplePrice::BelowZero => push(&mut text, b"below-zero"),
    }
    Some(text)
}

fn days_of(case: &Sample<'_>) -> Option<i32>
    ensures { IfSome result (λ days. (pos 0 ≤ℤ days) × (days ≤ℤ pos 720)) }
{
    let days = case.number("days=")?;
    if days < 0 || days > 720 {
        return None;
    }
    Some(days as i32)
}

fn rate_of(case: &Sample<'_>) -> Option<Yield>
    ensures { IfSome result IsDiscountRate }
{
    let rate = case.yld("rate=")?;
    if rate.units() < 0 || rate.units() > 300_000 {
        return None;
    }
    Some(rate)
}

// What a discount of a case costs, or returns.
fn of_discount(case: &Sample<'_>) -> Option<Text> {
    let days = days_of(case)?;
    let basis = basis_of(case);
    if case.text("price=").is_some() {
        let price = price_over_0(case)?;
        return Some(yield_text(&discount_return(price, days, basis)));
    }
    let rate = rate_of(case)?;
    if case.text("gives=").is_some() {
        return Some(yield_text(&rate_return(rate, days, basis)));
    }
    let mut text = ArrayVec::new();
    rate_price(rate, days, basis).print_into(&mut text);
    Some(text)
}

fn is_right(case: &Sample<'_>) -> Option<bool> {
    let said = match case.text("days=") {
        Some(_) => of_discount(case)?,
        None => of_payment(case)?,
    };
    let wanted = case.text("gives=").or(case.text("costs="))?;
    Some(said.as_slice() == wanted)
}

// The first case that is not as it says, and how many are.
fn first_bad(cases: &str) -> (Option<&str>, u32) {
    let mut table = Table::new();
    let mut right = 0_u32;
    for line in cases.lines() {
        if let Some(case) = table.sample(line) {
            if is_right(&case) != Some(true) {
                return (Some(line), right);
            }
            right = right.wrapping_add(1);
        }
    }
    (None, right)
}

#[test]
fn one_payment_has_its_price_and_its_yield(rt: HostRuntime) {
    assert_eq!(rt; first_bad(CASES), (None, 29));
}
