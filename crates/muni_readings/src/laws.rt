//! Laws of the readings.

ghost use Rattle.muni_readings.specs.Laws.{MaturityOfUncalled, FirstCallOfUncalled, GivenPricesStay, SeriesRoundToNearest, PaymentsRoundToNearest, SeveralAreCompounded, GrossWithoutFee, RegularOfRegular, FebruaryCountsElsewhere, FebruaryCountsLess, RightIsAsStated};

/// A law of the definitions: figures are right exactly if each one that is stated is the same. What is not stated is
/// not compared.
pub fn right_figures_are_as_stated()
    // promise 6: right figures are as stated
    ensures { RightIsAsStated }
{}

/// A law of the definitions: the figures to maturity alone are those of the rule for an issue without calls.
pub fn an_issue_without_calls_is_priced_to_maturity()
    // promise 6: to maturity is the rule itself of an issue without calls
    ensures { MaturityOfUncalled }
{}

/// A law of the definitions: the figures to the first call alone are those of the rule if none is to come.
pub fn without_a_call_to_come_the_first_is_the_maturity()
    // promise 6: to the first call is the rule itself if no call is to come
    ensures { FirstCallOfUncalled }
{}

/// A law of the definitions: a given price is not rounded, and a computed one is rounded to the thousandth that is
/// nearest to the exact price, half a thousandth upward.
pub fn prices_are_rounded_to_the_nearest()
    // promise 6: rounded is the rule itself at a given price
    ensures given { GivenPricesStay }
    // promise 6: rounded is nearest, half a thousandth upward, with more than six months left
    ensures series { SeriesRoundToNearest }
    // promise 6: so with one payment to come
    ensures payments { PaymentsRoundToNearest }
{}

/// A law of the definitions: if several payments are to come, the rule compounds them already.
pub fn several_payments_are_compounded()
    // promise 6: compounded is the rule itself if several payments are to come
    ensures { SeveralAreCompounded }
{}

/// A law of the definitions: the count with a rule for the end of February is that of the rule, save from the last
/// day of February on. From there it counts so many days less as February has less than 30.
pub fn february_counts_differ_from_its_last_day()
    // promise 6: the end of February counts as the rule on other days
    ensures elsewhere { FebruaryCountsElsewhere }
    // promise 6: so many days less on its last day as it has less than 30
    ensures less { FebruaryCountsLess }
{}

/// A law of the definitions: without a commission the yield is that of the rule.
pub fn without_a_commission_the_yield_is_gross()
    // promise 6: gross is the rule itself without a commission
    ensures { GrossWithoutFee }
{}

/// A law of the definitions: the figures with a regular first coupon are those of the rule if it is no odd one.
pub fn regular_first_coupons_stay()
    // promise 6: regular is the rule itself if the first coupon is no odd one
    ensures { RegularOfRegular }
{}
