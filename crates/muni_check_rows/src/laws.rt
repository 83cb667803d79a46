//! Laws of what is said of rows, over every issue and every stated figure.

ghost use Rattle.muni_check_rows.specs.Laws.{RightIsExact, RightIsOurTrade, TheFirstDifferenceIsTold};

/// A law of the definitions: of a row of an issue `right` is said exactly if there are figures of the rule, and each
/// stated one is that of the rule.
pub fn right_is_exact()
    // promise 6: right means that each stated figure is the rule's
    ensures { RightIsExact }
{}

/// A law of the definitions: the field that is said to differ is the first of the stated ones that is not that of the
/// rule.
pub fn the_first_difference_is_told()
    // promise 6: else the first that differs is told
    ensures { TheFirstDifferenceIsTold }
{}

/// A law of the definitions: of a row of a kept trade `right` is said only if each term that it states of the trade and
/// of its issue is the kept one, and each figure that of the rule for the kept trade, by the terms by which it was figured.
pub fn right_is_our_trade()
    // promise 6: of a row that names a trade also that each stated term is the kept one
    ensures { RightIsOurTrade }
{}
