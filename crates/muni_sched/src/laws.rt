//! Laws of the candidates and of the lowest figure over them.

ghost use Rattle.muni_sched.specs.AnswerLaws.{HasOneExactOutcome, HaveOneExactOutcomes, AllowsOneAnswer, OneAnswerIsRight};
ghost use Rattle.muni_sched.specs.CandidateLaws.{AreOneList, CandidatesStandForPayments, IsAtMostEachDate};
ghost use Rattle.muni_sched.specs.LowestLaws.{AllowsOneLowest, SoundIsRight, OneLowestIsRight, UndecidedIsUnsure, NoDoubtIsDecided};

/// A law of the rule: an issue has one list of redemption candidates at a settlement.
pub fn the_candidates_are_one()
    // promise 3: one list of redemptions is right
    ensures { AreOneList }
{}

/// A law of the rule: the candidates of an issue are priced by what it pays after the settlement up to
/// their redemptions: by all payments on their dates, or in the last six months by the one that is
/// left (MSRB Rule G-33(b)).
pub fn candidates_stand_for_their_payments()
    // promise 3: each redemption is priced by what the issue pays after the settlement up to it
    ensures { CandidatesStandForPayments }
{}

/// A law of the rule: of an issue that may be called on or after a day, the disclosed figure is at most that of
/// each interest date to come from that day on, before the next call or maturity, at the price of the call.
pub fn the_lowest_is_at_most_that_of_each_date()
    // promise 3: the disclosed figure is at most that of each date on which it may be called
    ensures { IsAtMostEachDate }
{}

/// A law of the definitions: a candidate has one exact yield at a price, and one exact price at a
/// yield, and so a list of candidates has one list of them.
pub fn the_exact_outcome_is_one()
    // promise 3: each redemption has one exact figure, or one reason why it has none
    ensures candidate { HasOneExactOutcome }
    // promise 3: so has a list of them
    ensures list { HaveOneExactOutcomes }
{}

/// A law of the rule: for the same candidates and the same ends of their worths it allows one
/// answer. So the answer does not depend on how many threads ask, nor on the order in which they
/// do.
pub fn the_answer_is_one()
    // promise 3: over redemptions the rule allows one answer
    ensures { AllowsOneAnswer }
{}

/// A law of the rule: of the answers that are not undecided, at most one is right.
pub fn one_answer_is_right()
    // promise 3: and one answer is right
    ensures { OneAnswerIsRight }
{}

/// A law of the rule: it allows at most one answer.
pub fn the_lowest_is_one()
    // promise 3: the rule allows one lowest figure, however many threads ask in whatever order
    ensures { AllowsOneLowest }
{}

/// A law of the rule: if each outcome says what is exactly so, or is unsure with cause, the
/// answer is right (MSRB Rule G-15(a)). Of all answers but the undecided, at most one is right.
pub fn the_lowest_is_right()
    // promise 3: over true outcomes it is right
    ensures right { SoundIsRight }
    // promise 3: and one
    ensures one { OneLowestIsRight }
{}

/// A law of the rule: an undecided answer names a candidate that is unsure, and if nothing is in
/// doubt the answer is not undecided.
pub fn the_lowest_is_undecided_only_in_doubt()
    // promise 4: it is undecided only if an outcome is unsure
    ensures unsure { UndecidedIsUnsure }
    // promise 4: and nowhere if none is in doubt
    ensures decided { NoDoubtIsDecided }
{}
