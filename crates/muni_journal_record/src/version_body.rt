//! The body of a version.

ghost use Rattle.std.specs.Prelude.{◌≡◌, ◌≤◌, ◌+◌, ◌++◌, ◌∷◌, length, IfSome};
ghost use Rattle.arrayvec.specs.ArrayVec.{array_vec_len};
ghost use Rattle.muni_msg.specs.Codes.{given_code, given_units};
ghost use Rattle.muni_journal_record.specs.Words.{signed};
ghost use Rattle.muni_journal_record.specs.VersionBody as spec;

use crate::fields::{
    Body, byte_front, cusip_of, day_of, eight_front, four_front, front, push_byte, push_day,
    push_eight, push_four, push_signed, push_text, signed_front, text_front,
};
use muni_dec::text::push;
use muni_dec::{Cents, Fee, Par, Price, Price3, Yield, Yield3};
use muni_msg::{
    Act, Asked, DeskName, Figures, Given, Key, Reference, Side, Terms, Version, label_code,
    label_of_code,
};

/// The amounts of money of figures.
#[derive(Clone, Copy)]
pub(crate) struct Money {
    principal: Cents,
    accrued: Cents,
    commission: Cents,
    total: Cents,
}

#[tactic(auto, unfolding(crate::specs::VersionBody::money_of))]
fn money_of(bytes: &[u8]) -> Option<Money>
    ensures value { result ≡ spec.money_of bytes.now }
    ensures bytes { length bytes.now ≡ 32
        → IfSome result (λ money. bytes.now ≡ spec.amounts_bytes money) }
{
    let (principal, rest) = eight_front(bytes)?;
    let principal = Cents::of(principal)?;
    let (accrued, rest) = eight_front(rest)?;
    let accrued = Cents::of(accrued)?;
    let (commission, rest) = eight_front(rest)?;
    let commission = Cents::of(commission)?;
    let (total, _) = eight_front(rest)?;
    let total = Cents::of(total)?;
    Some(Money {
        principal,
        accrued,
        commission,
        total,
    })
}

#[tactic(auto, unfolding(crate::specs::VersionBody::figures_of))]
fn figures_of(bytes: &[u8]) -> Option<Figures>
    ensures value { result ≡ spec.figures_of bytes.now }
    ensures bytes { length bytes.now ≡ 57
        → IfSome result (λ figures. bytes.now ≡ spec.figures_bytes figures) }
{
    let (price, rest) = eight_front(bytes)?;
    let price = Price3::of(price)?;
    let (yld, rest) = signed_front(rest)?;
    let yld = Yield3::of(i64::from(yld))?;
    let (redemption, rest) = front(rest, 4)?;
    let redemption = day_of(redemption)?;
    let (at, rest) = four_front(rest)?;
    let at = Price::of(u64::from(at))?;
    let (label, rest) = byte_front(rest)?;
    let label = label_of_code(label)?;
    let (days, rest) = signed_front(rest)?;
    let money = money_of(rest)?;
    Some(Figures {
        price,
        yld,
        redemption,
        at,
        label,
        days,
        principal: money.principal,
        accrued: money.accrued,
        commission: money.commission,
        total: money.total,
    })
}

fn push_money(body: &mut Body, figures: &Figures)
    requires { array_vec_len body.old + 32 ≤ 1_024 }
    ensures items { body.new.items ≡ body.old.items ++ spec.money_bytes figures.now }
    ensures len { array_vec_len body.new ≡ array_vec_len body.old + 32 }
    ensures fits { spec.MoneyFits figures.now }
{
    push_eight(body, figures.principal.units());
    push_eight(body, figures.accrued.units());
    push_eight(body, figures.commission.units());
    push_eight(body, figures.total.units());
}

fn push_prices(body: &mut Body, figures: &Figures)
    requires { array_vec_len body.old + 20 ≤ 1_024 }
    ensures items { body.new.items ≡ body.old.items ++ spec.prices_bytes figures.now }
    ensures len { array_vec_len body.new ≡ array_vec_len body.old + 20 }
    ensures fits { spec.PricesFit figures.now }
{
    push_eight(body, figures.price.units());
    push_signed(body, figures.yld.units() as i32);
    push_day(body, figures.redemption);
    push_four(body, figures.at.units() as u32);
}

fn push_figures(body: &mut Body, figures: &Figures)
    requires { array_vec_len body.old + 57 ≤ 1_024 }
    ensures items { body.new.items ≡ body.old.items ++ spec.figures_bytes figures.now }
    ensures len { array_vec_len body.new ≡ array_vec_len body.old + 57 }
    ensures fits { spec.FiguresFit figures.now }
{
    push_prices(body, figures);
    push_byte(body, label_code(figures.label));
    push_signed(body, figures.days);
    push_money(body, figures);
}

fn push_given(body: &mut Body, given: Given)
    requires { array_vec_len body.old + 5 ≤ 1_024 }
    ensures items { body.new.items
        ≡ body.old.items ++ given_code given ∷ signed (given_units given) }
    ensures len { array_vec_len body.new ≡ array_vec_len body.old + 5 }
    ensures fits { spec.GivenFits given }
{
    match given {
        Given::AtYield(yld) => {
            push_byte(body, 0);
            push_signed(body, yld.units() as i32);
        }
        Given::AtPrice(price) => {
            push_byte(body, 1);
            push_signed(body, price.units() as i32);
        }
        Given::AtRate(rate) => {
            push_byte(body, 2);
            push_signed(body, rate.units() as i32);
        }
    }
}

fn push_asked(body: &mut Body, asked: &Asked)
    requires { array_vec_len body.old + 27 ≤ 1_024 }
    ensures items { body.new.items ≡ body.old.items ++ spec.asked_bytes asked.now }
    ensures len { array_vec_len body.new ≡ array_vec_len body.old + 27 }
    ensures fits { spec.AskedFits asked.now }
{
    push(body, &asked.cusip);
    push_byte(body, asked.side.code());
    push_four(body, asked.par.units() as u32);
    push_day(body, asked.settle);
    push_given(body, asked.given);
    push_four(body, asked.fee.units() as u32);
}

/// Appends the body of a version, without the number of the terms of its issue.
pub(crate) fn push_version(body: &mut Body, key: &Key, number: u32, version: &Version)
    requires { array_vec_len body.old + 127 ≤ 1_024 }
    ensures items { body.new.items
        ≡ body.old.items ++ spec.version_bytes key.now number version.now }
    ensures len { array_vec_len body.new ≤ array_vec_len body.old + 127 }
    ensures fits { spec.VersionFits key.now number version.now }
{
    let _issue_number = version.issue_number;
    push_text(body, key.desk.bytes());
    push_text(body, key.reference.bytes());
    push_four(body, number);
    push_byte(body, version.act.code());
    push_asked(body, &version.terms.asked);
    push_figures(body, &version.figures);
}

#[tactic(auto, unfolding(crate::specs::VersionBody::asked_of))]
fn asked_of(bytes: &[u8]) -> Option<Asked>
    ensures value { result ≡ spec.asked_of bytes.now }
    ensures size { IfSome result (λ asked. length (spec.asked_bytes asked) ≡ 27) }
    ensures bytes { length bytes.now ≡ 27
        → IfSome result (λ asked. bytes.now ≡ spec.asked_bytes asked) }
{
    let (cusip, rest) = front(bytes, 9)?;
    let (side, rest) = byte_front(rest)?;
    let side = Side::of_code(side)?;
    let (par, rest) = four_front(rest)?;
    let par = Par::of(u64::from(par))?;
    let (settle, rest) = front(rest, 4)?;
    let settle = day_of(settle)?;
    let (basis, rest) = byte_front(rest)?;
    let (units, rest) = signed_front(rest)?;
    let given = Given::of_code(basis, i64::from(units))?;
    let (fee, _) = four_front(rest)?;
    let fee = Fee::of(u64::from(fee))?;
    Some(Asked {
        cusip: cusip_of(cusip),
        par,
        settle,
        given,
        side,
        fee,
    })
}

/// The version whose body begins so, with its trade and its number. It was figured by the terms of its
/// issue with the number that is given.
#[tactic(auto, unfolding(crate::specs::VersionBody::version_of))]
pub(crate) fn version_of(bytes: &[u8], issue_number: u32) -> Option<(Key, u32, Version)>
    ensures found { result ≡ spec.version_of issue_number bytes.now }
    ensures number { IfSome result (λ found. found.2.issue_number ≡ issue_number) }
    ensures size { IfSome result (λ found. length (spec.version_bytes found.0 found.1 found.2)
        ≡ 91 + length found.0.desk + length found.0.reference) }
    ensures bytes { IfSome result (λ found.
        length bytes.now ≡ 91 + length found.0.desk + length found.0.reference
        → bytes.now ≡ spec.version_bytes found.0 found.1 found.2) }
{
    let (desk, rest) = text_front(bytes)?;
    let desk = DeskName::read(desk).ok()?;
    let (reference, rest) = text_front(rest)?;
    let reference = Reference::read(reference).ok()?;
    let (number, rest) = four_front(rest)?;
    let (act, rest) = byte_front(rest)?;
    let act = Act::of_code(act)?;
    let (asked, rest) = front(rest, 27)?;
    let asked = asked_of(asked)?;
    let figures = figures_of(rest)?;
    let version = Version {
        act,
        terms: Terms { asked },
        issue_number,
        figures,
    };
    Some((Key { desk, reference }, number, version))
}
