//! Laws of what the desk says.

ghost use Rattle.muni_desk.specs.AnswerLaws.{AnswersAreUnique, WorkersDoNotShow};
ghost use Rattle.muni_desk.specs.CompletenessLaws.{CommandsAreCompleted};
ghost use Rattle.muni_desk.specs.PrintLaws.{ImportsPrintRight, LoadsPrintRight, ConfirmationsPrintRight, ConnectionsAreAnsweredRight};

mod words;

use muni_desk_import::laws::{confirmations_are_right, reports_are_right};
use muni_desk_serve::laws::answers_are_right;
use muni_edge::{Door, Sink, Source};
use muni_keep::Cabinet;
pub use words::words_are_read_by_the_rule;

/// A law of the definitions: for words of a command that needs no store they allow one answer, and so
/// one text to be written, and one way to end. The lines of `quote --risk` alone may differ, in a last digit
/// that their accuracy leaves open.
pub fn the_answer_is_unique()
    // promise 4: a line has one answer: the first refusal that applies, or if none does it is done
    ensures { AnswersAreUnique }
{}

/// A law of the definitions: two lists of words of such a command that differ in their workers at most
/// have one answer. So what is written and how it ends is the same, whatever the number of workers.
pub fn the_workers_do_not_show()
    // promise 3: lines that differ only in their workers have the same text and end
    ensures { WorkersDoNotShow }
{}

/// A law of the definitions: a command is done or refused by the rule, or over a store finds no memory, if
/// no count of faults rose, its input is exposed and within its limit, and what it lists or exports can be
/// read: its tables are exposed, and a desk whose positions it lists has at most 100,000,000 trades.
pub fn commands_are_completed<I: Source, O: Sink, C: Cabinet, D: Door>()
    // promise 9: a command is done, refused by the rule or out of memory, if no count rises and its input is read
    ensures { CommandsAreCompleted I.Source O.Sink C.Cabinet D.Door }
{}

/// A law of the definitions: over sound tables what the desk prints is right by the rule's exact
/// formulas. Each line of an import or a load that confirms a trade has the price, the yield, the date
/// of the redemption and the total of a version that is kept. A confirmation, asked for by `confirm` or
/// answered over HTTP, is the whole text of one.
pub fn printed_figures_are_right<I: Source, O: Sink, C: Cabinet, D: Door>()
    // promise 1, 2, 3, 6: what an import prints is right
    ensures imports { ImportsPrintRight I.Source O.Sink C.Cabinet D.Door }
    // promise 1, 2, 3, 6: what a load prints is right
    ensures loads { LoadsPrintRight I.Source O.Sink C.Cabinet D.Door }
    // promise 1, 2, 3, 6: what a confirmation prints is right
    ensures confirmations { ConfirmationsPrintRight I.Source O.Sink C.Cabinet D.Door }
    // promise 1, 2, 3, 6: what connections are answered is right
    ensures connections { ConnectionsAreAnsweredRight I.Source O.Sink C.Cabinet D.Door }
{
    reports_are_right();
    confirmations_are_right();
    answers_are_right();
}
