//! Laws of what is shown of each redemption, and of runs over every list of commands.

ghost use Rattle.muni_book.specs.Each.{AnsweredEachAreRight, DisclosedIsLeastOfEach, EachAreOne};
ghost use Rattle.muni_book.specs.RunLaws.{TablesAreSound, ConfirmedFiguresAreRight, AcceptedCommandsActOnce, WhatIsKeptIsAnsweredAgain, NothingKeptIsLost, WhatWasConfirmedStays, EachDeskIsIsolated, RepliesAreUnique, EachEntryHasItsReason, EachRefusalHasItsCause, ConfirmationsAreOfLastVersions, ListsArePages, QuotesAreRightAnswers};

pub use muni_answer::laws::right_figures_are_one;

/// A law of the definitions: what is answered of each redemption candidate by itself is right by its exact
/// figure, whatever encloser computed it. There is one list of it, however many workers compute.
pub fn answered_each_are_right()
    // promise 3: what is answered of each is right by its exact figure, undecided only in doubt
    ensures right { AnsweredEachAreRight }
    // promise 3: and one list of it is answered
    ensures one { EachAreOne }
{}

/// A law of the rule: what is disclosed is the least of the redemption candidates by their own figures, and the
/// earliest among equal ones, if each has a figure (MSRB Rule G-15(a)).
pub fn the_disclosed_is_the_least_of_each()
    // promise 3: the disclosed figure is the least of them, the earliest among equal ones, if each has one
    ensures { DisclosedIsLeastOfEach }
{}

/// A law of the definitions: the empty tables are sound, and a run leaves sound tables sound. So
/// every figure that is ever kept is right by the rule's exact formulas.
pub fn tables_are_sound()
    // promise 6: sound tables stay sound after every step and run; all terms in them pass every test
    ensures { TablesAreSound }
{}

/// A law of the definitions: over sound tables what is confirmed has figures that are right by the
/// rule's exact formulas, of a version and an issue that are kept. So it is with each reply of a run,
/// with the last version of every trade, and with each line of a list. Quoted figures are right too.
pub fn confirmed_figures_are_right()
    // promise 1, 2, 3, 6: what a run confirms or lists has right figures, by the kept terms of its issue
    ensures { ConfirmedFiguresAreRight }
{}

/// A law of the definitions: a command that was accepted acts once. Sent again at any later time it
/// adds nothing, and is answered by an equal reply.
pub fn accepted_commands_act_once()
    // promise 5: what was accepted and is sent again at any later time acts once, with the same answer
    ensures { AcceptedCommandsActOnce }
{}

/// A law of the definitions: a command for what is kept already is answered by it and adds nothing,
/// whatever led to the tables.
pub fn what_is_kept_is_answered_again()
    // promise 5: what is kept is answered so, whatever led to the tables; other terms conflict
    ensures { WhatIsKeptIsAnsweredAgain }
{}

/// A law of the definitions: a run changes and removes nothing that is kept.
pub fn nothing_kept_is_lost()
    // promise 7: no terms of an issue and no version is changed or removed
    ensures { NothingKeptIsLost }
{}

/// A law of the definitions: what confirms a version confirms it after any run too, by the same terms of its
/// issue. So no amendment changes what was confirmed.
pub fn what_was_confirmed_stays()
    // promise 6, 7: what confirms a version confirms it after every run, by the same terms
    ensures { WhatWasConfirmedStays }
{}

/// A law of the definitions: with equal issues and equal trades of one desk, a run gives that desk
/// the same replies, whatever other desks keep and send.
pub fn each_desk_is_isolated()
    // promise 7: no desk sees another, but by the issues
    ensures { EachDeskIsIsolated }
{}

/// A law of the definitions: the replies to a list of commands over given tables are unique. So they
/// do not depend on how many workers compute.
pub fn replies_are_unique()
    // promise 4: one list of replies to one list of commands
    ensures { RepliesAreUnique }
{}

/// A law of the definitions: an entry is made exactly if it has its reason. An issue is kept if it is
/// new and passes its checks, and its next terms if they pass them, up to 99. A trade is kept if it is new and its desk has room, with the figures of
/// its terms. A live trade takes a correction or a cancel with the next number. If nothing is kept for
/// a command that is accepted, it was kept before.
pub fn each_entry_has_its_reason()
    // promise 4, 7: an issue, its next terms, a trade, a correction or a cancel is kept exactly if it has its reason
    ensures { EachEntryHasItsReason }
{}

/// A law of the definitions: a refusal comes exactly if it has its cause and none that comes before
/// it, or if nothing is wrong with the command and the figures that it asks for are refused so.
/// A conflict has the issue or the version that is kept, which is not what was sent.
pub fn each_refusal_has_its_cause()
    // promise 4: each refusal comes exactly if its condition holds, the first in order; what conflicts is named
    ensures { EachRefusalHasItsCause }
{}

/// A law of the definitions: a confirmation that is asked for is of the last version of the trade. It
/// is refused only if the trade or its issue is not kept.
pub fn confirmations_are_of_last_versions()
    // promise 6: a trade that is asked for is confirmed by its last version, and nothing is kept
    ensures { ConfirmationsAreOfLastVersions }
{}

/// A law of the definitions: a list has the first 50 trades of the desk, or those after a reference,
/// with their last versions.
pub fn lists_are_pages()
    // promise 6: a list is the desk's page, and nothing is kept
    ensures { ListsArePages }
{}

/// A law of the definitions: a quote has the right answer to what is asked of an issue that is kept.
pub fn quotes_are_right_answers()
    // promise 1, 2, 3, 4: a quote is the right answer, and nothing is kept
    ensures { QuotesAreRightAnswers }
{}
