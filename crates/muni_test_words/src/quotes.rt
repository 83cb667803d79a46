//! The words of quotes, in which `clap` finds the options and values that the desk reads.

use arrayvec::ArrayVec;
use clap::{Arg, ArgAction, ArgMatches, Command};
use muni_days::{Basis, Day};
use muni_dec::{Coupon, Fee, Par};
use muni_desk::{CommandLine, DeskCommand, QuoteRequest, read};
use muni_msg::{Asked, Given, Shown, Side, read_basis, read_call, read_given, read_kind};
use muni_terms::{Call, IssueRow};
use std::alloc::Global;
use std::test::Fail;

const LINES: [&str; 6] = [
    "quote --kind=periodic --dated=2020-01-01 --first=2020-07-01 --maturity=2025-01-01 --coupon=5 --settle=2024-04-01 --yield=4",
    "quote --kind=zero --dated=2020-01-01 --maturity=2034-01-01 --settle=2024-01-01 --price=70.5 --par=25000 --workers=2",
    "quote --kind=discount --dated=2024-01-01 --maturity=2024-12-21 --settle=2024-04-01 --rate=5 --days=actual/365",
    "quote --kind=periodic --dated=2022-01-01 --first=2022-07-01 --maturity=2044-01-01 --coupon=4 --settle=2024-01-01 --call=2034-01-01:100 --call=2036-01-01:100 --price=108.584",
    "quote --each --kind=periodic --dated=2022-01-01 --first=2022-07-01 --maturity=2044-01-01 --coupon=4 --settle=2024-01-01 --call=2034-01-01:100+ --yield=3",
    "quote --risk --kind=zero --dated=2020-01-01 --maturity=2034-01-01 --settle=2024-01-01 --each --price=70.5",
];

const OPTIONS: [&str; 12] = [
    "days", "workers", "rate", "price", "yield", "par", "settle", "coupon", "maturity", "first",
    "dated", "kind",
];

fn words_of(alloc: Global, line: &str) -> Result<Vec<String>, Fail> {
    let mut words = Vec::new(alloc);
    for word in line.split(' ') {
        words.push(String::from_str(alloc, word)?)?;
    }
    Ok(words)
}

fn value<'a>(found: &ArgMatches<'a>, name: &str) -> Option<&'a [u8]> {
    match found.get_str(name) {
        Some(text) => Some(text.as_bytes()),
        None => None,
    }
}

fn day(found: &ArgMatches<'_>, name: &str) -> Option<Day> {
    Day::read(value(found, name)?).ok()
}

fn basis(found: &ArgMatches<'_>) -> Option<Basis> {
    match value(found, "days") {
        Some(text) => read_basis(text),
        None => Some(Basis::Thirty360),
    }
}

fn coupon(found: &ArgMatches<'_>) -> Option<Coupon> {
    match value(found, "coupon") {
        Some(text) => Coupon::read(text).ok(),
        None => Some(Coupon::new(0)),
    }
}

fn par(found: &ArgMatches<'_>) -> Option<Par> {
    match value(found, "par") {
        Some(text) => Par::read(text).ok(),
        None => Some(Par::new(100)),
    }
}

fn calls(found: &ArgMatches<'_>) -> Option<ArrayVec<Call, 40>> {
    let mut calls = ArrayVec::new();
    if let Some(texts) = found.get_strs("call") {
        for text in texts {
            calls.try_push(read_call(text.as_bytes())?).ok()?;
        }
    }
    Some(calls)
}

fn given(found: &ArgMatches<'_>) -> Option<Given> {
    match (
        value(found, "yield"),
        value(found, "price"),
        value(found, "rate"),
    ) {
        (Some(yld), None, None) => read_given(b"yield", yld),
        (None, Some(price), None) => read_given(b"price", price),
        (None, None, Some(rate)) => read_given(b"rate", rate),
        _ => None,
    }
}

fn row(found: &ArgMatches<'_>) -> Option<IssueRow> {
    let kind = read_kind(value(found, "kind")?, value(found, "first"))?;
    let mut name = ArrayVec::new();
    name.try_extend_from_slice(b"QUOTE").ok()?;
    Some(IssueRow {
        cusip: *b"000000000",
        name,
        kind,
        basis: basis(found)?,
        dated: day(found, "dated")?,
        maturity: day(found, "maturity")?,
        coupon: coupon(found)?,
        calls: calls(found)?,
    })
}

fn asked(found: &ArgMatches<'_>) -> Option<Asked> {
    Some(Asked {
        cusip: *b"000000000",
        par: par(found)?,
        settle: day(found, "settle")?,
        given: given(found)?,
        side: Side::Buy,
        fee: Fee::ZERO,
    })
}

// The options of a quote as `clap` is told them: a call may come more than once, and two have no value.
fn options<'a>(alloc: Global) -> Option<Command<'a>> {
    let mut command = Command::new(alloc, "quote");
    for name in OPTIONS {
        let option = Arg::new(alloc, name).long(name);
        command = command.arg(option).ok()?;
    }
    let call = Arg::new(alloc, "call")
        .long("call")
        .action(ArgAction::Append);
    command = command.arg(call).ok()?;
    for name in ["each", "risk"] {
        let flag = Arg::new(alloc, name).long(name).action(ArgAction::SetTrue);
        command = command.arg(flag).ok()?;
    }
    Some(command)
}

// What the words ask for by the values that `clap` reads.
fn asked_by_clap(alloc: Global, words: &[String]) -> Option<(QuoteRequest, Shown)> {
    let found = options(alloc)?.try_get_matches_from(words).ok()?;
    let request = QuoteRequest {
        row: row(&found)?,
        asked: asked(&found)?,
    };
    let shown = Shown {
        each: found.get_flag("each"),
        risk: found.get_flag("risk"),
    };
    Some((request, shown))
}

// What the words ask for by the desk's own reader.
fn asked_by_desk(words: &[String]) -> Option<(QuoteRequest, Shown)> {
    let CommandLine { command, .. } = read(words)?;
    match command {
        DeskCommand::Quote { request, shown } => Some((request, shown)),
        _ => None,
    }
}

// Whether both read the same of a line.
fn is_read_alike(alloc: Global, line: &str) -> Result<bool, Fail> {
    let words = words_of(alloc, line)?;
    let (request, shown) = asked_by_clap(alloc, &words).ok_or("a quote by clap")?;
    let (wanted, also) = asked_by_desk(&words).ok_or("a quote")?;
    Ok(request.row == wanted.row && request.asked == wanted.asked && shown == also)
}

#[test]
fn clap_reads_the_same_options_and_values(rt: HostRuntime) -> Result<(), Fail> {
    for line in LINES {
        assert!(rt; is_read_alike(rt.alloc(), line)?, "{line}");
    }
    Ok(())
}
