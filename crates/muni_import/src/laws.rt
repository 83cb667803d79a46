//! What holds of all rows.

ghost use Rattle.std.specs.Prelude.{codes};
ghost use Rattle.muni_import.specs.ColumnLaws.{NameIsFirst, CountIsSecond, LeastIsTold, OthersAreCommands};
ghost use Rattle.muni_import.specs.RowLaws.{TextsHaveRows, TextsHaveNoOtherRows, LastMayBeLeftOut};

/// Every text has one list of rows, whatever its bytes.
pub fn texts_have_one_list_of_rows()
    // promise 5: a text has a list of rows
    ensures some { TextsHaveRows }
    // promise 5: and no other
    ensures no_other { TextsHaveNoOtherRows }
{}

/// The last field of an issue and of an amendment may be left out, and the last one or two of a trade
/// and of a correction: the row says what it says with empty ones.
pub fn last_fields_may_be_left_out()
    // promise 4: the calls of an issue may be left out
    ensures issues { LastMayBeLeftOut (codes "issue") 8 }
    // promise 4: so may those of an amendment
    ensures amendments { LastMayBeLeftOut (codes "amend") 9 }
    // promise 4: so may the commission of a trade
    ensures fees { LastMayBeLeftOut (codes "trade") 8 × LastMayBeLeftOut (codes "correct") 9 }
    // promise 4: so may the number of its terms
    ensures issue_numbers { LastMayBeLeftOut (codes "trade") 9 × LastMayBeLeftOut (codes "correct") 10 }
{}

/// Of a row that is no command the first fault is reported: that it has no name, then that it has
/// another number of fields, then the least column that does not read. Every other row is a
/// command.
pub fn the_least_bad_column_is_told()
    // promise 4: of a row that is no command it is told first that it has no name
    ensures name { NameIsFirst }
    // promise 4: then that it has another number of fields
    ensures count { CountIsSecond }
    // promise 4: and else the least column that does not read
    ensures column { LeastIsTold }
    // promise 4: every other row is a command
    ensures commands { OthersAreCommands }
{}
