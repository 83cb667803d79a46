use muni_dec::Yield;
use muni_sched::{Candidate, candidates, out_of_range};
use muni_test_samples::{Sample, Table};
use std::cmp::Ordering;
use std::test::Fail;

// Issues at a settlement, and the least and the greatest yield that may be given, in 10^-6.
const RANGES: &str = "\
base periodic dated=2020-01-01 first=2020-07-01 maturity=2032-01-01 coupon=4
settle=2024-03-31 call=2024-07-01:100 least=-50000 greatest=1000000
settle=2031-07-01 least=-900000 greatest=9999990
base zero dated=2020-01-01 maturity=2032-01-01
settle=2020-01-01 least=-50000 greatest=1000000
base at-redemption dated=2024-01-31 maturity=2025-03-31 coupon=4
settle=2024-02-29 least=-450000 greatest=9999990
base discount dated=2024-01-31 maturity=2025-03-31
settle=2024-02-29 least=0 greatest=300000";

// Whether a range of candidates ends at two yields, outside and inside by one unit.
fn ends_at(list: &[Candidate], least: i64, greatest: i64) -> Option<bool> {
    for (units, side) in [
        (least.wrapping_sub(1), Some(Ordering::Less)),
        (least, None),
        (greatest, None),
        (greatest.wrapping_add(1), Some(Ordering::Greater)),
    ] {
        if out_of_range(list, Yield::of(units)?) != side {
            return Some(false);
        }
    }
    Some(true)
}

fn is_range(case: &Sample<'_>) -> Option<bool> {
    let issue = case.issue()?;
    let settlement = case.day("settle=")?;
    if !issue.settles(settlement) {
        return None;
    }
    let list = candidates(&issue, settlement);
    ends_at(
        list.as_slice(),
        case.number("least=")?,
        case.number("greatest=")?,
    )
}

// The first case that is not as it says, and how many are before it.
fn first_bad(cases: &str) -> (Option<&str>, u32) {
    let mut table = Table::new();
    let mut right = 0_u32;
    for line in cases.lines() {
        if let Some(case) = table.sample(line) {
            if is_range(&case) != Some(true) {
                return (Some(line), right);
            }
            right = right.wrapping_add(1);
        }
    }
    (None, right)
}

#[test]
fn a_yield_leaves_its_range_by_one_unit(rt: HostRuntime) {
    assert_eq!(rt; first_bad(RANGES), (None, 5));
}

#[test]
fn no_candidate_excludes_no_yield(rt: HostRuntime) -> Result<(), Fail> {
    let y = Yield::of(-900_000).ok_or("a yield")?;
    assert!(rt; out_of_range(&[], y).is_none(), "no candidate");
    Ok(())
}
