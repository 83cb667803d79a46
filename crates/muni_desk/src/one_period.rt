//! The command `quote-one`: the price of a security in its last interest period.

ghost use Rattle.std.specs.Prelude.{◌≡◌, ◌+◌, ◌*◌, ◌<◌, ◌≤◌, ◌≤ℤ◌, ◌++◌, ◌∷◌, [], pos, negsuc, true, map, length, None, IsNone, string_bytes};
ghost use Rattle.muni_rule.specs.Civil.{months_on};
ghost use Rattle.muni_days.specs.Day.{civil};
ghost use Rattle.muni_simple.specs.Single.{IsSingle, IsGivenYield};
ghost use Rattle.muni_simple.specs.declared.single.Shape1.TheVariants.{OnePeriod};
ghost use Rattle.muni_desk.specs.NextInterestDate.{is_next};
ghost use Rattle.muni_desk.specs.QuoteOne as spec;
ghost use Rattle.muni_desk.specs.QuoteOne.{IsPriced};

use crate::command::{CommandLine, DeskCommand};
use crate::next_interest_date::NextInterestDate;
use crate::words::word_at;
use muni_book::Workers;
use muni_days::{Basis, Day, days360, months_on};
use muni_dec::{Coupon, Price, Price3, Yield};
use muni_msg::{Range, Refusal};
use muni_rule::YieldRange;
use muni_simple::{Shape1, SimplePrice, Single, single_price};
use muni_terms::{half_year_interest, interest};

/// A security in its last interest period, with its settlement, and a yield.
#[derive(Clone, Copy)]
pub struct QuoteOneRequest {
    pub coupon: Coupon,
    pub next: NextInterestDate,
    pub settlement: Day,
    /// The redemption price.
    pub redemption: Price,
    pub yld: Yield,
}

/// What words ask for, if they are COUPON, NEXT, SETTLE, REDEMPTION and YIELD.
pub fn read_quote_one(words: &[String]) -> Option<CommandLine>
    ensures { result ≡ spec.quote_one_of (map string_bytes words.now) }
{
    if words.len() != 5 {
        return None;
    }
    read_values(
        word_at(words, 0),
        word_at(words, 1),
        word_at(words, 2),
        word_at(words, 3),
        word_at(words, 4),
    )
}

fn read_values(
    coupon: &[u8],
    next: &[u8],
    settlement: &[u8],
    redemption: &[u8],
    yld: &[u8],
) -> Option<CommandLine>
    ensures { result ≡ spec.values_reading coupon.now next.now settlement.now
        redemption.now yld.now }
{
    let coupon = Coupon::read(coupon).ok()?;
    let next = Day::read(next).ok()?;
    let settlement = Day::read(settlement).ok()?;
    let redemption = Price::read(redemption).ok()?;
    let yld = Yield::read(yld).ok()?;
    let next = NextInterestDate::of(next)?;
    Some(CommandLine {
        command: DeskCommand::QuoteOne(QuoteOneRequest {
            coupon,
            next,
            settlement,
            redemption,
            yld,
        }),
        workers: Workers::ONE,
    })
}

/// The dollar price at a yield with six months or less to redemption (MSRB Rule G-33(b)(i)(B)), or a
/// refusal.
pub fn last_period_price(request: &QuoteOneRequest) -> Result<Price3, Refusal>
    ensures { IsPriced request.now result }
{
    let start = period_start(request.next.date());
    if let Some(refusal) = early_refusal(request, start) {
        return Err(refusal);
    }
    let payment = payment_of(request, start);
    match single_price(&payment, Shape1::OnePeriod, request.yld) {
        SimplePrice::Price(price) => Ok(price),
        SimplePrice::BelowZero => Err(Refusal::GivenOutOfRange(Range::PriceBelowZero)),
    }
}

fn period_start(next: Day) -> Day
    requires { is_next (civil next) ≡ true }
    ensures { civil result ≡ months_on (civil next) (negsuc 5) }
{
    let _in_range = next.year();
    match months_on(next, -6) {
        Some(start) => start,
        None => unreachable!(),
    }
}

fn early_refusal(request: &QuoteOneRequest, start: Day) -> Option<Refusal>
    requires { civil start ≡ spec.period_start request.now }
    ensures refusal { result ≡ spec.early_refusal request.now }
    ensures settles { IsNone result → spec.settles request.now ≡ true }
    ensures yld { IsNone result → IsGivenYield OnePeriod request.now.yld }
{
    if !settles(request, start) {
        return Some(Refusal::SettleOutside);
    }
    let side = YieldRange::ONE_PERIOD.side_of(request.yld.units())?;
    Some(Refusal::GivenOutOfRange(Range::of(side)))
}

fn settles(request: &QuoteOneRequest, start: Day) -> bool
    requires { civil start ≡ spec.period_start request.now }
    ensures { result ≡ spec.settles request.now }
{
    start <= request.settlement && request.settlement < request.next.date()
}

fn payment_of(request: &QuoteOneRequest, start: Day) -> Single
    requires start { civil start ≡ spec.period_start request.now }
    requires next { is_next (civil request.now.next) ≡ true }
    requires settles { spec.settles request.now ≡ true }
    ensures ranges { IsSingle OnePeriod result }
    ensures due { result.due ≡ (spec.payment_of request.now).due }
    ensures accrued { result.accrued ≡ (spec.payment_of request.now).accrued }
    ensures left { result.left ≡ (spec.payment_of request.now).left }
    ensures basis { result.basis ≡ (spec.payment_of request.now).basis }
{
    let accrued_days = accrued_days(request, start);
    Single {
        due: half_year_interest(request.coupon) as i64
            + 360_000 * request.redemption.units() as i64,
        accrued: interest(request.coupon, accrued_days as u32) as i64,
        left: 180 - accrued_days,
        basis: Basis::Thirty360,
    }
}

fn accrued_days(request: &QuoteOneRequest, start: Day) -> i32
    requires start { civil start ≡ spec.period_start request.now }
    requires next { is_next (civil request.now.next) ≡ true }
    requires settles { spec.settles request.now ≡ true }
    ensures value { result ≡ spec.accrued_days request.now }
    ensures range { (pos 0 ≤ℤ result) × (result ≤ℤ pos 180) }
{
    days360(start, request.settlement)
}
