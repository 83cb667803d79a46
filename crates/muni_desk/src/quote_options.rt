//! The options of `quote`.

ghost use Rattle.std.specs.Prelude.{◌≡◌, map, codes, string_bytes};
ghost use Rattle.std.specs.Option.{option_map};
ghost use Rattle.muni_desk.specs.QuoteOptions as spec;

use crate::command::{CommandLine, DeskCommand};
use crate::request::{NO_CUSIP, QuoteRequest, issue_name};
use crate::words::{RISK, WORKERS, are_options_beside, has_word, value_in, value_of};
use arrayvec::ArrayVec;
use muni_book::Workers;
use muni_days::{Basis, Day};
use muni_dec::digits::read_number;
use muni_dec::{Coupon, Fee, Par};
use muni_msg::{Asked, Given, Shown, Side, read_basis, read_call, read_given, read_kind};
use muni_terms::{Call, IssueRow, Kind};

const CALL: &[u8] = b"--call=";

const KIND: &[u8] = b"--kind=";

const DATED: &[u8] = b"--dated=";

const FIRST: &[u8] = b"--first=";

const MATURITY: &[u8] = b"--maturity=";

const COUPON: &[u8] = b"--coupon=";

const SETTLE: &[u8] = b"--settle=";

const PAR: &[u8] = b"--par=";

const YIELD: &[u8] = b"--yield=";

const PRICE: &[u8] = b"--price=";

const RATE: &[u8] = b"--rate=";

const DAYS: &[u8] = b"--days=";

const EACH: &[u8] = b"--each";

// Each but the first is given once at most.
const NAMES: [&[u8]; 13] = [
    CALL, KIND, DATED, FIRST, MATURITY, COUPON, SETTLE, PAR, YIELD, PRICE, RATE, WORKERS, DAYS,
];

/// What words ask for, if they are options of `quote` and perhaps `--each` and `--risk`, in any order.
#[tactic(auto, using(crate::proofs::WordsLemmas::word_strings))]
pub fn read_quote(words: &[String]) -> Option<CommandLine>
    ensures { result ≡ spec.quote_of (map string_bytes words.now) }
{
    if !are_options_beside(words, &[EACH, RISK], &NAMES, &NAMES[1..]) {
        return None;
    }
    let row = read_row(words)?;
    let asked = read_asked(words)?;
    let workers = read_workers(words)?;
    Some(CommandLine {
        command: DeskCommand::Quote {
            request: QuoteRequest { row, asked },
            shown: Shown {
                each: has_word(words, EACH),
                risk: has_word(words, RISK),
            },
        },
        workers,
    })
}

fn read_row(words: &[String]) -> Option<IssueRow>
    ensures { result ≡ spec.row_of (map string_bytes words.now) }
{
    let kind = read_kind(value_of(words, KIND)?, value_of(words, FIRST))?;
    let basis = read_day_count(kind, value_of(words, DAYS))?;
    let dated = read_date(words, DATED)?;
    let maturity = read_date(words, MATURITY)?;
    let coupon = read_coupon(kind.pays_interest(), value_of(words, COUPON))?;
    let calls = read_calls(words)?;
    Some(IssueRow {
        cusip: NO_CUSIP,
        name: issue_name(b"QUOTE"),
        kind,
        basis,
        dated,
        maturity,
        coupon,
        calls,
    })
}

// A quote is for a buyer, and without a commission.
fn read_asked(words: &[String]) -> Option<Asked>
    ensures { result ≡ spec.asked_of (map string_bytes words.now) }
{
    let par = read_par(value_of(words, PAR))?;
    let settle = read_date(words, SETTLE)?;
    let given = read_one_given(words)?;
    Some(Asked {
        cusip: NO_CUSIP,
        par,
        settle,
        given,
        side: Side::Buy,
        fee: Fee::ZERO,
    })
}

fn read_date(words: &[String], name: &[u8]) -> Option<Day>
    ensures { result ≡ spec.date_of name.now (map string_bytes words.now) }
{
    Day::read(value_of(words, name)?).ok()
}

// A note alone may say how it counts days.
fn read_day_count(kind: Kind, text: Option<&[u8]>) -> Option<Basis>
    ensures { result ≡ spec.day_count_of kind (option_map (λ t. t.now) text.entry) }
{
    let Some(text) = text else {
        return Some(Basis::Thirty360);
    };
    match kind {
        Kind::Periodic { .. } | Kind::Zero => None,
        Kind::AtRedemption | Kind::Discount => read_basis(text),
    }
}

// A coupon is given exactly if there is interest.
fn read_coupon(has_interest: bool, text: Option<&[u8]>) -> Option<Coupon>
    ensures { result ≡ spec.coupon_of has_interest (option_map (λ t. t.now) text.entry) }
{
    match (has_interest, text) {
        (true, Some(text)) => Coupon::read(text).ok(),
        (false, None) => Some(Coupon::new(0)),
        (true, None) | (false, Some(_)) => None,
    }
}

fn read_calls(words: &[String]) -> Option<ArrayVec<Call, 40>>
    ensures { option_map (λ calls. calls.items) result
        ≡ spec.calls_of (map string_bytes words.now) }
{
    let mut calls = ArrayVec::new();
    for word in words {
        if let Some(text) = value_in(word.as_bytes(), CALL) {
            if calls.is_full() {
                return None;
            }
            calls.push(read_call(text)?);
        }
    }
    Some(calls)
}

fn read_par(text: Option<&[u8]>) -> Option<Par>
    ensures { result ≡ spec.par_of (option_map (λ t. t.now) text.entry) }
{
    match text {
        Some(text) => Par::read(text).ok(),
        None => Some(Par::new(100)),
    }
}

fn read_one_given(words: &[String]) -> Option<Given>
    ensures { result ≡ spec.given_of (map string_bytes words.now) }
{
    match (
        value_of(words, YIELD),
        value_of(words, PRICE),
        value_of(words, RATE),
    ) {
        (Some(yld), None, None) => read_given(b"yield", yld),
        (None, Some(price), None) => read_given(b"price", price),
        (None, None, Some(rate)) => read_given(b"rate", rate),
        _ => None,
    }
}

/// How many workers may compute: one if no number is given.
pub fn read_workers(words: &[String]) -> Option<Workers>
    ensures { result ≡ spec.workers_of (map string_bytes words.now) }
{
    match value_of(words, WORKERS) {
        Some(text) => Some(Workers::new(read_number(text, 20, 1, 16)? as u32)),
        None => Some(Workers::ONE),
    }
}
