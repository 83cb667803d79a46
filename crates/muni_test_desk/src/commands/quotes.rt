//! How the price moves with the yield, as a quote says it.

use super::watch::Watch;
use super::{ask_alone, words_of, written};
use muni_desk::{Status, quote_one};
use muni_edge::MemSink;
use std::alloc::Global;
use std::test::Fail;
use std::thread::Threads;

const CALLED: &str =
    "quote --kind=periodic --dated=2022-01-01 --first=2022-07-01 --maturity=2044-01-01 --coupon=4 --call=2034-01-01:100 --settle=2024-01-01 --yield=3";

const TWO_PERIODS: &str =
    "quote --kind=periodic --dated=2022-01-01 --first=2022-07-01 --maturity=2024-01-01 --coupon=5 --settle=2023-04-01 --yield=4";

const ZERO: &str =
    "quote --kind=zero --dated=2020-01-01 --maturity=2044-01-01 --settle=2024-03-01 --yield=4.5";

const NOTE: &str =
    "quote --kind=at-redemption --dated=2025-01-01 --maturity=2026-01-01 --coupon=4 --days=actual/365 --settle=2025-07-02 --yield=3";

const DISCOUNT: &str =
    "quote --kind=discount --dated=2024-01-01 --maturity=2024-12-21 --settle=2024-04-01 --rate=5";

// What a quote writes, with a slash for each line end but the last.
fn quoted<R: Threads + Sync>(rt: &R, alloc: Global, words: &[&str]) -> Result<String, Fail> {
    let idle = Watch::idle();
    let outcome = ask_alone(rt, alloc, words, &idle, &idle)?;
    match outcome.status {
        Status::Done => written(alloc, &outcome.output),
        _ => Err("figures".into()),
    }
}

#[test]
fn the_price_moves_as_computed_outside(rt: HostRuntime) -> Result<(), Fail> {
    for (words, end) in [
        // 8.2953.. years, 80.6802.. years squared, 0.0900744.. dollars, and 4 / 108.584
        (
            CALLED,
            "/TOTAL 108.58/CURRENT YIELD 3.684/DURATION 8.295/CONVEXITY 80.680/DV01 0.090074",
        ),
        // 51675/71434 years, 6438125/7286268 years squared, 0.0073768.. dollars, and 5 / 100.725
        (
            TWO_PERIODS,
            "/TOTAL 101.98/CURRENT YIELD 4.964/DURATION 0.723/CONVEXITY 0.884/DV01 0.007377",
        ),
        // 238/12 years over 1.0225, 385.7247.. years squared and 0.0802460.. dollars
        (
            ZERO,
            "/TOTAL 41.37/DURATION 19.397/CONVEXITY 385.725/DV01 0.080246",
        ),
        // 183/365 years over 1.0150.., 0.4879.. years squared and 0.0050611.. dollars
        (
            NOTE,
            "/TOTAL 102.45/DURATION 0.494/CONVEXITY 0.488/DV01 0.005061",
        ),
    ] {
        let text = quoted(&rt, rt.alloc(), &[words, "--risk"])?;
        assert!(rt; text.ends_with(end), "{text}");
    }
    Ok(())
}

#[test]
fn a_discounted_note_has_no_lines_more(rt: HostRuntime) -> Result<(), Fail> {
    let alone = quoted(&rt, rt.alloc(), &[DISCOUNT])?;
    assert!(rt; quoted(&rt, rt.alloc(), &[DISCOUNT, "--risk"])? == alone);
    Ok(())
}

#[test]
fn the_lines_stand_after_those_of_each_redemption(rt: HostRuntime) -> Result<(), Fail> {
    let end =
        "/EACH 2044-01-01 100.000000 MATURITY PRICE 114.957/CURRENT YIELD 3.684/DURATION 8.295/CONVEXITY 80.680/DV01 0.090074";
    for words in ["--each --risk", "--risk --each"] {
        let text = quoted(&rt, rt.alloc(), &[CALLED, words])?;
        assert!(rt; text.ends_with(end), "{text}");
    }
    Ok(())
}

#[test]
fn the_word_stands_once_and_without_a_value(rt: HostRuntime) -> Result<(), Fail> {
    let idle = Watch::idle();
    for words in ["--risk=1", "--risk=", "--risk --risk", "--Risk", "risk"] {
        let outcome = ask_alone(&rt, rt.alloc(), &[CALLED, words], &idle, &idle)?;
        assert_eq!(rt; outcome.status, Status::Usage, "{words}");
    }
    Ok(())
}

// How `quote-one` alone ends, and what it writes, if the output has room for so many bytes.
fn quoted_alone(alloc: Global, words: &[&str], room: usize) -> Result<(Status, String), Fail> {
    let words = words_of(alloc, words)?;
    let mut output = MemSink::new(alloc, room, &[])?;
    let status = quote_one(&words, &mut output);
    Ok((status, written(alloc, &output)?))
}

#[test]
fn one_period_is_quoted_alone(rt: HostRuntime) -> Result<(), Fail> {
    for (words, room, status, text) in [
        // 102.5 / 1.01 - 1.25, and 102.5 - 2.5
        (
            "quote-one 5 2024-07-01 2024-04-01 100 4",
            64,
            Status::Done,
            "100.235",
        ),
        (
            "quote-one 5 2024-01-01 2023-12-31 100 4",
            64,
            Status::Done,
            "100.000",
        ),
        (
            "quote-one 5 2024-07-01 2023-12-31 100 4",
            64,
            Status::Refused,
            "REFUSED 5 SettleOutside",
        ),
        (
            "quote-one 5 2024-07-01 2024-04-01 100 4",
            3,
            Status::WriteFault,
            "100",
        ),
        ("quote-one 5", 64, Status::Usage, ""),
        ("help", 64, Status::Usage, ""),
    ] {
        let (end, found) = quoted_alone(rt.alloc(), &[words], room)?;
        assert_eq!(rt; end, status, "{words}");
        assert_eq!(rt; found.as_str(), text, "{words}");
    }
    let (end, _) = quoted_alone(rt.alloc(), &[], 64)?;
    assert_eq!(rt; end, Status::Usage);
    Ok(())
}
