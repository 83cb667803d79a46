//! How a redemption is priced.

ghost use Rattle.std.specs.Prelude.{◌≡◌, ◌<◌, true, Some};
ghost use Rattle.muni_rule.specs.Civil.{order_of};
ghost use Rattle.muni_rule.specs.LastPayment as rule;
ghost use Rattle.muni_days.specs.Day.{civil};
ghost use Rattle.muni_simple.specs.Single.{IsSingle};
ghost use Rattle.muni_simple.specs.declared.single.Shape1.TheVariants as single;
ghost use Rattle.muni_terms.specs.Issue.{IsRedemption, settles};
ghost use Rattle.muni_sched.specs.Shape as spec;
ghost use Rattle.muni_sched.specs.Shape.{IsPriceable, IsPricing};

use crate::Shape;
use crate::note::{days_left, note_payment};
use muni_days::{Basis, Day};
use muni_dec::Price;
use muni_simple::Single;
use muni_terms::{Flows, Issue, Kind};

/// How the redemptions of an issue after a settlement are priced.
#[derive(Clone, Copy)]
pub(crate) enum Pricing {
    /// Each by its part of the payments up to maturity.
    Series(Flows),
    /// All in one way, that of a note.
    Note(Shape),
}

/// Computes what all redemptions of an issue after a settlement have in common.
pub(crate) fn pricing_at(issue: &Issue, settlement: Day) -> Pricing
    requires { settles issue.now settlement ≡ true }
    ensures { IsPricing issue.now settlement result }
{
    match issue.row().kind {
        Kind::Periodic { .. } | Kind::Zero => {
            Pricing::Series(issue.flows(settlement, issue.row().maturity, Price::PAR))
        }
        Kind::AtRedemption => Pricing::Note(Shape::AtRedemption(note_payment(issue, settlement))),
        Kind::Discount => Pricing::Note(Shape::Discount {
            days: days_left(issue, settlement),
            basis: issue.row().basis,
        }),
    }
}

/// How one redemption after the settlement is priced.
// Inlined as `Issue::flows_beside` is.
#[inline(always)]
pub(crate) fn shape_at(
    issue: &Issue,
    pricing: &Pricing,
    settlement: Day,
    date: Day,
    price: Price,
) -> Shape
    requires pricing { IsPricing issue.now settlement pricing.now }
    requires settled { settles issue.now settlement ≡ true }
    requires later { order_of (civil settlement) < order_of (civil date) }
    requires redeemed { IsRedemption issue.now date price }
    ensures shape { Some result ≡ spec.shape_at issue.now settlement date price }
    ensures range { IsPriceable result }
{
    match pricing {
        Pricing::Series(known) => {
            series_shape(&issue.flows_beside(known, settlement, date, price))
        }
        Pricing::Note(shape) => *shape,
    }
}

fn series_shape(flows: &Flows) -> Shape
    ensures shape { result ≡ spec.series_shape flows.now }
    ensures range { IsPriceable result }
{
    if flows.n() == 1 {
        Shape::One(last_payment(flows))
    } else {
        Shape::Many(*flows)
    }
}

fn last_payment(flows: &Flows) -> Single
    requires { rule.is_last_period flows.now ≡ true }
    ensures payment { result ≡ spec.single (rule.last_payment flows.now) }
    ensures range { IsSingle single.OnePeriod result }
{
    Single {
        due: (flows.first() + flows.redemption()) as i64,
        accrued: flows.accrued() as i64,
        left: 180 - flows.a() as i32,
        basis: Basis::Thirty360,
    }
}
