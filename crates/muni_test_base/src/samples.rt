use muni_dec::Price;
use muni_test_samples::{Sample, Table};
use std::test::Fail;

const TABLE: &str = "\
# the payments up to a call, and up to maturity
base periodic dated=2022-01-01 first=2022-07-01 maturity=2044-01-01 coupon=4
settle=2024-01-01 call=2034-01-01:101.5 n=20 redemption=101.5
settle=2024-01-01 n=40 redemption=100
base
zero dated=2020-01-01 maturity=2034-01-01 settle=2024-01-01 n=20 redemption=100";

#[test]
fn a_line_extends_the_base_before_it(rt: HostRuntime) -> Result<(), Fail> {
    let mut table = Table::new();
    let mut cases = 0_u32;
    for line in TABLE.lines() {
        if let Some(case) = table.sample(line) {
            let flows = case.flows().ok_or("payments")?;
            let redemption = case.price("redemption=").ok_or("a price")?;
            assert_eq!(rt; flows.redemption(), 360_000 * redemption.units(), "{line}");
            let wanted = if flows.n() == 20 { b"20" } else { b"40" };
            assert_eq!(rt; case.text("n="), Some(wanted.as_slice()), "{line}");
            cases = cases.wrapping_add(1);
        }
    }
    assert_eq!(rt; cases, 3);
    Ok(())
}

#[test]
fn a_case_is_as_its_words_say(rt: HostRuntime) -> Result<(), Fail> {
    let note = Sample::of("at-redemption dated=2024-01-01 maturity=2025-01-01 coupon=4 price=99.5");
    assert!(rt; note.issue().is_some());
    assert!(rt; note.flows().is_none(), "a note");
    assert_eq!(rt; note.price("price="), Price::of(99_500_000));
    assert!(rt; note.has("at-redemption") && !note.has("price"));
    assert!(rt; note.text("settle=").is_none());
    Ok(())
}
