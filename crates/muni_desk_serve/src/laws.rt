//! What holds of the definitions that the contracts of serving cite.

ghost use Rattle.muni_desk_serve.specs.Laws.{WhatHasComeIsAnswered, ServingRunsTheBook, AnswersAreRight, VersionsAreShownRight, WhatIsSentAgainActsOnce};

use muni_book::laws::confirmed_figures_are_right;

/// A law of the definitions: if no count of faults rose, what has come is answered as one of its
/// readings says, or no memory was left. A whole request gets the answer to what it asks for, with its
/// status, what it looks at or the line of the row that it checks, a bad one its own, and one that ends too early
/// none. Bytes that begin with a head within the limits have one reading (`muni_wire`).
pub fn what_has_come_is_answered()
    // promise 4: if no count rose, what has come is answered, or memory ran out
    ensures { WhatHasComeIsAnswered }
{}

/// A law of the definitions: connections that are served one after another run commands of the book:
/// what they asked for, at most one each, with the replies by which they were answered; a look at the
/// tables is none, nor is a check by them. So what holds
/// of every run holds of the tables that they leave, and of their replies.
pub fn serving_runs_the_book()
    // promise 5: serving is a run of the book
    ensures { ServingRunsTheBook }
{}

/// A law of the definitions: over sound tables each connection that is answered by a confirmation has as
/// its body that of a version that is kept, with figures that are right by the rule's exact formulas, and
/// each that is answered by a quote has right figures.
pub fn answers_are_right()
    // promise 1, 2, 3, 6: a confirmation that answers is of a kept version, with right figures, and so is a quote
    ensures { AnswersAreRight }
{
    confirmed_figures_are_right();
}

/// A law of the definitions: over sound tables each version that is kept is shown by its confirmation, with
/// figures that are right by the rule's exact formulas.
pub fn versions_are_shown_right()
    // promise 6: a version that is looked at has its confirmation, with right figures
    ensures { VersionsAreShownRight }
{
    confirmed_figures_are_right();
}

/// A law of the definitions: of the connections of a run, what is sent again over a later one acts once.
/// If it was accepted, it has the same answer again, unless that tells of a store that failed, and adds
/// nothing.
pub fn what_is_sent_again_acts_once()
    // promise 5: what was answered, and not by 503, acts once if it is sent again; of the rest what is kept is answered
    ensures { WhatIsSentAgainActsOnce }
{}
