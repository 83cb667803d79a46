//! Laws of checks, over every row and every input.

ghost use Rattle.muni_check.specs.Laws.{EachRowHasALine, OneRowHasTheSameLine, UnseenTradesAreTold};

/// A law of the definitions: the answer to rows has a line on each of them, in their order and with their places.
pub fn each_row_has_a_line()
    // promise 6: each row has a line, in order
    ensures { EachRowHasALine }
{}

/// A law of the definitions: a live trade of the desk whose reference no row names is told after the rows.
pub fn unseen_trades_are_told()
    // promise 6: each live trade of the desk without a row is told
    ensures { UnseenTradesAreTold }
{}

/// A law of the definitions: of the columns of an input and one row, each answer has a line that the row may have by
/// itself, and each such line has an answer.
pub fn one_row_has_the_same_line()
    // promise 6: one row by itself has the same line
    ensures { OneRowHasTheSameLine }
{}
