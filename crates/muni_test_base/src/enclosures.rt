ghost use Rattle.std.specs.Prelude.{◌≡◌, ℕ, ◌+◌, ◌*◌, ◌^◌, ◌<◌, ◌≤◌, IsTrue};

mod cases;

use cases::CASES;
use muni_span::root::root180;
use muni_span::span::{Span, recip};
use muni_span::worth::{Worth, of};
use std::str::SplitWhitespace;
use std::test::Fail;

// Whether a call gives the ends of its line.
fn is_right(line: &str) -> Result<bool, Fail> {
    let mut words = line.split_whitespace();
    let call = words.next().ok_or("a call")?;
    let given = if call == "of" || call == "add" || call == "scale" {
        ends_of_worth(worth_given(call, &mut words)?)
    } else {
        ends_of_span(span_given(call, &mut words)?)
    };
    Ok(given == (number(&mut words)?, number(&mut words)?))
}

fn first_bad(cases: &str) -> Result<Option<&str>, Fail> {
    for line in cases.lines() {
        if !is_right(line)? {
            return Ok(Some(line));
        }
    }
    Ok(None)
}

#[test]
fn every_call_gives_the_exact_ends(rt: HostRuntime) -> Result<(), Fail> {
    assert_eq!(rt; CASES.lines().count(), 367);
    assert_eq!(rt; first_bad(CASES)?, None);
    Ok(())
}

fn ends_of_span(span: Span) -> (u128, u128) {
    (span.lo() as u128, span.hi() as u128)
}

fn ends_of_worth(worth: Worth) -> (u128, u128) {
    (worth.lo(), worth.hi())
}

/// What a call that gives a span gives for the numbers that follow it.
fn span_given(call: &str, words: &mut SplitWhitespace<'_>) -> Result<Span, Fail> {
    match call {
        "recip" => recip_given(words),
        "mul" => mul_given(words),
        "power" => power_given(words),
        "root180" => root_given(words),
        _ => Err(Fail::from("a call")),
    }
}

/// What a call that gives a worth gives for the numbers that follow it.
fn worth_given(call: &str, words: &mut SplitWhitespace<'_>) -> Result<Worth, Fail> {
    match call {
        "of" => of_given(words),
        "add" => add_given(words),
        "scale" => scale_given(words),
        _ => Err(Fail::from("a call")),
    }
}

fn number(words: &mut SplitWhitespace<'_>) -> Result<u128, Fail> {
    let word = words.next().ok_or("a number")?;
    Ok(word.parse::<u128>().ok().ok_or("a number of 128 bits")?)
}

fn span(words: &mut SplitWhitespace<'_>) -> Result<Span, Fail> {
    let lo = number(words)?;
    let hi = number(words)?;
    if lo > hi || hi > u64::MAX as u128 {
        return Err(Fail::from("ends in order"));
    }
    Ok(Span::new(lo as u64, hi as u64))
}

fn worth(words: &mut SplitWhitespace<'_>) -> Result<Worth, Fail> {
    let lo = number(words)?;
    let hi = number(words)?;
    if lo > hi {
        return Err(Fail::from("ends in order"));
    }
    Ok(Worth::new(lo, hi))
}

fn recip_given(words: &mut SplitWhitespace<'_>) -> Result<Span, Fail> {
    let word = words.next().ok_or("a yield")?;
    let y = word.parse::<i32>().ok().ok_or("a yield of 32 bits")?;
    if y < -50_005 || y > 1_000_005 {
        return Err(Fail::from("a yield in range"));
    }
    Ok(recip(y))
}

fn mul_given(words: &mut SplitWhitespace<'_>) -> Result<Span, Fail> {
    let one = span(words)?;
    let other = span(words)?;
    if one.hi() as u128 * other.hi() as u128 > 15 << 120 {
        return Err(Fail::from("a product of at most 15"));
    }
    Ok(one.mul(other))
}

fn power_given(words: &mut SplitWhitespace<'_>) -> Result<Span, Fail> {
    let base = span(words)?;
    let k = number(words)?;
    if k > 180 || base.hi() > greatest_base(k as u32) {
        return Err(Fail::from("a power of at most 15"));
    }
    Ok(base.power(k as u32))
}

/// A number whose power is at most 15: the greatest one for the exponents named.
fn greatest_base(k: u32) -> u64
    ensures { result ^ k ≤ 15 * (2 ^ 60) ^ k }
{
    match k {
        0 => u64::MAX,
        1 => 17293822569102704640,
        2 => 4465245786826716002,
        3 => 2843348935416658721,
        4 => 2268937612846074202,
        5 => 1981609116830166669,
        7 => 1697511702089897857,
        12 => 1444798708515764967,
        45 => 1224433212266893691,
        90 => 1188139462090769004,
        127 => 1177769493143754158,
        128 => 1177573307534431742,
        177 => 1170696508803021915,
        178 => 1170595887693689273,
        179 => 1170496399346521776,
        180 => 1170398024740497938,
        _ => 1 << 60,
    }
}

fn root_given(words: &mut SplitWhitespace<'_>) -> Result<Span, Fail> {
    let v = span(words)?;
    let (lo, hi) = (v.lo() as u128, v.hi() as u128);
    if 10 * lo < 6 << 60 || 100 * hi > 103 << 60 || hi - lo > 1 {
        return Err(Fail::from("a narrow span from 0.6 to 1.03"));
    }
    Ok(root180(v))
}

fn of_given(words: &mut SplitWhitespace<'_>) -> Result<Worth, Fail> {
    let units = number(words)?;
    if units >= 1 << 52 {
        return Err(Fail::from("less than 2^52"));
    }
    Ok(of(units as u64))
}

fn add_given(words: &mut SplitWhitespace<'_>) -> Result<Worth, Fail> {
    let one = worth(words)?;
    let other = worth(words)?;
    if one.hi() >= 1 << 127 || other.hi() >= (1 << 127) - one.hi() {
        return Err(Fail::from("a sum below 2^127"));
    }
    Ok(one.add(other))
}

fn scale_given(words: &mut SplitWhitespace<'_>) -> Result<Worth, Fail> {
    let amount = worth(words)?;
    let factor = span(words)?;
    if !is_below_limit(amount.hi(), factor.hi()) {
        return Err(Fail::from("a product below 2^127"));
    }
    Ok(amount.scale(factor))
}

/// Whether an amount times a fraction in units of 2^-60 is below 2^127.
fn is_below_limit(amount: u128, factor: u64) -> bool
    ensures { IsTrue result → amount * factor < 2 ^ 127 * 2 ^ 60 }
{
    let factor = factor as u128;
    let upper = amount >> 64;
    let lower = amount % (1 << 64);
    upper * factor + ((lower * factor) >> 64) < 1 << 123
}
