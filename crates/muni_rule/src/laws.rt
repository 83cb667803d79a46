//! Laws of the definitions: of days and dates, of payments, of prices and of yields.

ghost use Rattle.std.specs.Prelude.{◌≡◌};
ghost use Rattle.muni_rule.specs.CivilDayLaws.{NextDayIsOneMore, CivilDaysAdd, CivilDaysRise};
ghost use Rattle.muni_rule.specs.ManyPeriodLaws.{BelowZeroIsReached, FirstDayIsFraction, LastDayIsFraction, ZeroYieldIsSum, ParBondIsRedemption, ParYieldIsCoupon, NumbersTellExactCases, ExactCasesAreExact, OthersAreEnclosed};
ghost use Rattle.muni_rule.specs.ManyPeriodYields.{ManyPeriodsPriceFalls, ManyPeriodsPrintOneYield, ManyPeriodsPrintRounded, ManyPeriodsHaveOneOutcome};
ghost use Rattle.muni_rule.specs.PaymentLaws.{CouponSeriesIsPayments, ZeroSeriesIsPayments, PaymentsAreByPlace};
ghost use Rattle.muni_rule.specs.PriceLaws.{OnePaymentHasOnePrice, ManyPeriodsHaveOnePrice};
ghost use Rattle.muni_rule.specs.PrintedYield.{PriceFalls, PrintsOneYield, PrintsRounded};
ghost use Rattle.muni_rule.specs.QuasiDateLaws.{QuasiDatesAreAll, QuasiDatesRise, QuasiTestIsMembership};
ghost use Rattle.muni_rule.specs.Ranges as ranges;
ghost use Rattle.muni_rule.specs.RedemptionLaws.{PlainCallsAreTheirDays, CallsStandOnEachDate};
ghost use Rattle.muni_rule.specs.SensitivityLaws.{DurationIsWithinYears, DurationIsAtMostYears, DurationOfZeroIsYears};

use crate::YieldRange;

/// From each date of the calendar to the next it is one day, in leap years too, and the days from
/// one date to another add up. So a later date is some days later.
pub fn civil_days_count_each_day()
    // promise 1: the day after a day has the next number
    ensures next { NextDayIsOneMore }
    // promise 1: so many days later the number is so much greater
    ensures add { CivilDaysAdd }
    // promise 1: a later date has a greater number
    ensures rise { CivilDaysRise }
{}

/// The list of quasi-coupon dates holds exactly the dates of the years 1900 to 2199 at whole
/// multiples of six months from the anchor, each after the one before it. For an anchor from the 1st
/// to the 28th, as an issue has it, each of them is a day of the calendar.
///
/// The test by day and month says of each date of these years whether the list holds it.
pub fn quasi_dates_are_all_half_years()
    // promise 1: quasi-coupon dates are all half years from an anchor on day 1 to 28
    ensures all { QuasiDatesAreAll }
    // promise 1: they come in order
    ensures rising { QuasiDatesRise }
    // promise 1: the test of a date tells whether it is one of them
    ensures test { QuasiTestIsMembership }
{}

/// If each call of an issue stands on its day alone, its redemptions are the calls to come and the maturity. A
/// call on or after a day stands on each quasi-coupon date to come from that day on, before the next call or
/// maturity.
pub fn calls_stand_on_their_days()
    // promise 3: if each call stands on its day alone, the redemptions are the calls to come and the maturity
    ensures plain { PlainCallsAreTheirDays }
    // promise 3: a call on or after a day stands on each interest date to come, up to the next call or maturity
    ensures each_date { CallsStandOnEachDate }
{}

/// The numbers of a series stand for the list of its payments, with coupons and without, and give the
/// payment at each place.
pub fn series_stand_for_their_payments()
    // promise 1: the numbers of a series of coupons stand for its list of payments
    ensures coupons { CouponSeriesIsPayments }
    // promise 1: so do those of an issue without coupons
    ensures zeros { ZeroSeriesIsPayments }
    // promise 1: each payment is told by its place
    ensures by_place { PaymentsAreByPlace }
{}

/// At a yield one price is printed and no other, or the exact price is below zero, as long as what
/// discounts the payments is above zero.
pub fn one_price_is_printed()
    // promise 1: one price is printed and no other, or the exact one is below zero, with one payment to come
    ensures one_payment { OnePaymentHasOnePrice }
    // promise 1: the same with more payments
    ensures many_periods { ManyPeriodsHaveOnePrice }
{}

/// If days are left and the price with the accrued interest is above zero, the price of one payment
/// to come falls as the yield rises. So at most one yield is printed for a price: the exact
/// one, truncated to four decimals of the percentage and rounded to three.
pub fn the_price_falls()
    // promise 2: with one payment to come the price falls as the yield rises
    ensures falls { PriceFalls }
    // promise 2: so one yield is printed
    ensures one { PrintsOneYield }
    // promise 2: a printed yield is the rounded one
    ensures rounded { PrintsRounded }
{}

/// On an interest date the comparison by whole powers is that of a fraction.
///
/// At a yield of zero and for a par bond this fraction is a whole amount. An amount that is at or
/// below zero with the accrued interest is always reached.
pub fn the_price_is_the_rules_fraction()
    // promise 1: what is at or below zero with the accrued interest is reached at every yield
    ensures below_zero_is_reached { BelowZeroIsReached }
    // promise 1: on the day that begins a half year the comparison is that of the rule's fraction
    ensures first_day { FirstDayIsFraction }
    // promise 1: so on the day that ends it
    ensures last_day { LastDayIsFraction }
    // promise 1: at a yield of zero the price is the sum of the payments
    ensures zero_yield { ZeroYieldIsSum }
    // promise 1: on an interest date a par bond is worth its redemption
    ensures par_bond { ParBondIsRedemption }
{}

/// The numbers of a series show whether one of the three exact cases applies. In these cases verdicts
/// are read off the exact worth.
pub fn exact_cases_are_the_rules()
    // promise 4: the numbers of a series tell which cases are exact
    ensures numbers { NumbersTellExactCases }
    // promise 4: interest of half the yield on the redemption, in the numbers of an issue
    ensures coupon { ParYieldIsCoupon }
    // promise 4: in an exact case the price is compared by the worth itself
    ensures exact { ExactCasesAreExact }
    // promise 4: and else by the enclosure
    ensures others { OthersAreEnclosed }
{}

/// The price falls as the yield rises. So for every price at most one yield is printed: the exact
/// one, truncated to four decimals of the percentage and rounded to three.
///
/// In a range of printed yields one of it is printed, or the yield is below the range, or above it.
pub fn the_price_of_many_periods_falls()
    // promise 2: with more than six months left the price falls as the yield rises
    ensures falls { ManyPeriodsPriceFalls }
    // promise 2: so one yield is printed
    ensures one { ManyPeriodsPrintOneYield }
    // promise 2: a printed yield is the rounded one
    ensures rounded { ManyPeriodsPrintRounded }
    // promise 2: there is one outcome for a price
    ensures outcome { ManyPeriodsHaveOneOutcome }
{}

/// The duration is at most the years to redemption over one and half the yield, and it is these years if
/// nothing is paid before the redemption. So it is at most the years where no yield is below zero.
pub fn durations_are_within_years()
    // promise 1: a duration is at most the years to redemption over one and half the yield
    ensures within { DurationIsWithinYears }
    // promise 1: so it is at most the years where no yield is below zero
    ensures at_most { DurationIsAtMostYears }
    // promise 1: if nothing is paid before the redemption it is these years
    ensures zero { DurationOfZeroIsYears }
{}

/// The ranges are those of the definitions.
pub fn ranges_are_the_desks()
    // promise 2: the range of yields with more than six months left is that of the definitions
    ensures many_periods { YieldRange.MANY_PERIODS ≡ ranges.many_periods_yields }
    // promise 2: so is that of one period
    ensures one_period { YieldRange.ONE_PERIOD ≡ ranges.one_period_yields }
    // promise 2: so is that of interest at redemption
    ensures at_redemption { YieldRange.AT_REDEMPTION ≡ ranges.at_redemption_yields }
    // promise 2: so is that of discount rates
    ensures discount_rates { YieldRange.DISCOUNT_RATES ≡ ranges.discount_rates }
{}
