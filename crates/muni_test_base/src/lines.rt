//! The lines of figures, confirmations and refusals, the longest among them, worked by hand.

use arrayvec::ArrayVec;
use muni_confirm::{confirmation, figure_lines, push_risk, refusal_line};
use muni_days::{Basis, Day};
use muni_dec::{Cents, Coupon, Fee, Par, Price, Price3, Yield, Yield3};
use muni_msg::{Act, Asked, Figures, Given, Kept, Key, Range, Refusal, Side, Terms, Version};
use muni_risk::{Risk, Sensitivities};
use muni_terms::{Boundary, Issue, IssueRow, Kind, Label, TermsFault, check};
use muni_test_samples::{key, worked_figures, worked_issue, worked_terms, worked_version};
use std::test::Fail;

const CALLED: &str = "PRICE 100.725 GIVEN
YIELD -0.005 COMPUTED
REDEMPTION 2025-01-01 101.500000 CALL
ACCRUED DAYS 90
PRINCIPAL 25181.25
ACCRUED 312.50
TOTAL 25493.75
";

const LONGEST: &str = "PRICE 9223372036854775.807 COMPUTED
YIELD -90.000 COMPUTED
RATE -99.9999 GIVEN
REDEMPTION 2199-12-31 999.999999 PAR OPTION
ACCRUED DAYS -2147483648
PRINCIPAL 92233720368547758.07
ACCRUED 92233720368547758.07
COMMISSION 92233720368547758.07
TOTAL 92233720368547758.07
";

const LONGEST_RISK: &str = "TOTAL 0.00
CURRENT YIELD 18446744073709551.615
DURATION 18446744073709551.615
CONVEXITY 18446744073709551.615
DV01 18446744073709.551615
";

const LONGEST_NAMES: &str = "CANCELED CONFIRMATION 4294967295
DESK ABCDEFGHIJKLMNOP
REFERENCE abcdefghij0123456789
SOLD 1000000000
CUSIP 123456AA3
ISSUE NNNNNNNNNNNNNNNNNNNNNNNNNNNNNNNNNNNNNNNNNNNNNNNNNNNNNNNNNNNN
COUPON 0.0000000
DATED 2024-01-01
MATURITY 2024-04-01
BASIS ACTUAL/365
SETTLEMENT 2024-01-01
PRICE 99.250 COMPUTED
YIELD 3.023 COMPUTED
RATE 3.0000 GIVEN
REDEMPTION 2024-04-01 100.000000 MATURITY
ACCRUED DAYS 0
PRINCIPAL 992500000.00
ACCRUED 0.00
TOTAL 992500000.00
";

fn day(text: &str) -> Result<Day, Fail> {
    Ok(Day::read(text.as_bytes()).ok().ok_or("a day")?)
}

fn yld(text: &str) -> Result<Yield, Fail> {
    Ok(Yield::read(text.as_bytes()).ok().ok_or("a yield")?)
}

fn is_written(figures: &Figures, given: &Given, fee: Fee, lines: &str) -> bool {
    let mut text = ArrayVec::new();
    text.push(b'x');
    figure_lines(figures, given, fee, &mut text);
    text.as_slice() == lines.as_bytes()
}

// A given price and a call are named.
fn is_called_written() -> Result<bool, Fail> {
    let called = Figures {
        yld: Yield3::of(-5).ok_or("a yield")?,
        at: Price::of(101_500_000).ok_or("a price")?,
        label: Label::Call,
        ..worked_figures().ok_or("figures")?
    };
    let price = Price::of(100_725_000).ok_or("a price")?;
    Ok(is_written(&called, &Given::AtPrice(price), Fee::ZERO, CALLED))
}

// The longest figures have room.
fn is_longest_written() -> Result<bool, Fail> {
    let greatest = Cents::of(9_223_372_036_854_775_807).ok_or("cents")?;
    let longest = Figures {
        price: Price3::of(9_223_372_036_854_775_807).ok_or("a price")?,
        yld: Yield3::of(-90_000).ok_or("a yield")?,
        redemption: day("2199-12-31")?,
        at: Price::of(999_999_999).ok_or("a price")?,
        label: Label::ParOption,
        days: i32::MIN,
        principal: greatest,
        accrued: greatest,
        commission: greatest,
        total: greatest,
    };
    let given = Given::AtRate(yld("-99.9999")?);
    Ok(is_written(&longest, &given, Fee::new(10_000), LONGEST))
}

#[test]
fn figures_have_their_lines(rt: HostRuntime) -> Result<(), Fail> {
    assert!(rt; is_called_written()?);
    assert!(rt; is_longest_written()?);
    Ok(())
}

// The longest lines of how a price moves have room.
#[test]
fn what_moves_has_its_lines(rt: HostRuntime) {
    let sensitivities = Sensitivities {
        duration: u64::MAX,
        convexity: u64::MAX,
        dv01: u64::MAX,
    };
    let risk = Risk {
        current_yield: Some(u64::MAX),
        sensitivities,
    };
    let mut text = ArrayVec::<u8, 152>::new();
    let _ = text.try_extend_from_slice(b"TOTAL 0.00\n");
    push_risk(&mut text, None);
    push_risk(&mut text, Some(risk));
    assert!(rt; text.as_slice() == LONGEST_RISK.as_bytes());
}

// A note with the longest name.
fn note() -> Result<IssueRow, Fail> {
    let mut name = ArrayVec::new();
    for _ in 0..60 {
        let _ = name.try_push(b'N');
    }
    Ok(IssueRow {
        cusip: *b"123456AA3",
        name,
        kind: Kind::Discount,
        basis: Basis::Actual365,
        dated: day("2024-01-01")?,
        maturity: day("2024-04-01")?,
        coupon: Coupon::new(0),
        calls: ArrayVec::new(),
    })
}

// Whether a canceled sale of the greatest par of it is confirmed.
fn is_sale_confirmed(issue: &Issue, key: &Key) -> Result<bool, Fail> {
    let principal = Cents::of(99_250_000_000).ok_or("cents")?;
    let given: Given = Given::AtRate(yld("3")?);
    let asked = Asked {
        par: Par::of(1_000_000_000).ok_or("a par")?,
        settle: day("2024-01-01")?,
        given,
        side: Side::Sell,
        ..worked_terms().ok_or("terms")?.asked
    };
    let figures = Figures {
        price: Price3::of(99_250).ok_or("a price")?,
        yld: Yield3::of(3_023).ok_or("a yield")?,
        redemption: day("2024-04-01")?,
        days: 0,
        principal,
        accrued: Cents::ZERO,
        total: principal,
        ..worked_figures().ok_or("figures")?
    };
    let version = Version {
        act: Act::Canceled,
        terms: Terms { asked },
        issue_number: 1,
        figures,
    };
    let mut text = ArrayVec::new();
    confirmation(issue, key, u32::MAX, &version, &mut text);
    Ok(text.as_slice() == LONGEST_NAMES.as_bytes())
}

#[test]
fn the_longest_names_are_confirmed(rt: HostRuntime) -> Result<(), Fail> {
    let issue = check(note()?).ok().ok_or("an issue")?;
    let key = key("ABCDEFGHIJKLMNOP", "abcdefghij0123456789").ok_or("a key")?;
    assert!(rt; is_sale_confirmed(&issue, &key)?);
    Ok(())
}

// The first line of a refusal that is another one.
fn first_wrong_refusal() -> Result<Option<&'static str>, Fail> {
    let date = day("2024-02-29")?;
    let kept = Kept::Version {
        number: 99,
        version: worked_version(Act::Entered).ok_or("a version")?,
    };
    let price = Boundary::Price(Price3::of(100_726).ok_or("a price")?);
    let mut text = ArrayVec::new();
    for (refusal, line) in [
        (Refusal::UnknownIssue, "REFUSED 1 UnknownIssue\n"),
        (Refusal::UnknownTrade, "REFUSED 2 UnknownTrade\n"),
        (
            Refusal::Conflict(Kept::Issue(worked_issue().ok_or("an issue")?)),
            "REFUSED 3 Conflict issue\n",
        ),
        (Refusal::Conflict(kept), "REFUSED 3 Conflict version 99\n"),
        (
            Refusal::BadTerms(TermsFault::BadBasis),
            "REFUSED 4 BadTerms 11\n",
        ),
        (
            Refusal::BadTerms(TermsFault::CallsNotRising { date }),
            "REFUSED 4 BadTerms 7 2024-02-29\n",
        ),
        (Refusal::SettleOutside, "REFUSED 5 SettleOutside\n"),
        (
            Refusal::GivenOutOfRange(Range::Below),
            "REFUSED 6 GivenOutOfRange below\n",
        ),
        (
            Refusal::GivenOutOfRange(Range::Above),
            "REFUSED 6 GivenOutOfRange above\n",
        ),
        (
            Refusal::GivenOutOfRange(Range::PriceBelowZero),
            "REFUSED 6 GivenOutOfRange price below zero\n",
        ),
        (
            Refusal::YieldBelow { date },
            "REFUSED 7 YieldBelow 2024-02-29\n",
        ),
        (Refusal::YieldAbove, "REFUSED 8 YieldAbove\n"),
        (Refusal::NoTime { date }, "REFUSED 9 NoTime 2024-02-29\n"),
        (
            Refusal::Undecided {
                date,
                boundary: price,
            },
            "REFUSED 10 Undecided 2024-02-29 price 100.726\n",
        ),
        (
            Refusal::Undecided {
                date,
                boundary: Boundary::Yield(yld("-0.0005")?),
            },
            "REFUSED 10 Undecided 2024-02-29 yield -0.0005\n",
        ),
        (Refusal::Canceled, "REFUSED 11 Canceled\n"),
        (
            Refusal::WrongNumber { next: 2 },
            "REFUSED 12 WrongNumber 2\n",
        ),
        (Refusal::VersionsFull, "REFUSED 13 VersionsFull\n"),
        (Refusal::DeskFull, "REFUSED 14 DeskFull\n"),
        (Refusal::WrongBasis, "REFUSED 15 WrongBasis\n"),
    ] {
        refusal_line(&refusal, &mut text);
        if text.as_slice() != line.as_bytes() {
            return Ok(Some(line));
        }
    }
    Ok(None)
}

#[test]
fn each_refusal_has_a_line(rt: HostRuntime) -> Result<(), Fail> {
    assert_eq!(rt; first_wrong_refusal()?, None);
    Ok(())
}
