//! Laws of imports, over every list of rows, and of confirmations.

ghost use Rattle.muni_desk_import.specs.Laws.{ImportsAreRuns, ReportsAreUnique, ReportsAreRight, ConfirmationsAreSteps, ConfirmationsAreRight};

use muni_book::laws::{
    confirmations_are_of_last_versions, confirmed_figures_are_right, replies_are_unique,
};

/// A law of the definitions: an import is a run of the commands among its rows, in their order. So
/// what holds of runs holds of imports: sound tables stay sound, a command that was accepted acts
/// once, and nothing that is kept is lost.
pub fn imports_are_runs()
    // promise 5: an import is a run of the book
    ensures { ImportsAreRuns }
{}

/// A law of the definitions: rows over given tables have one report, and lead to one end. So what an
/// import writes does not depend on how many workers compute.
pub fn reports_are_unique()
    // promise 3: rows have one report and one end, whatever the number of workers
    ensures { ReportsAreUnique }
{
    replies_are_unique();
}

/// A law of the definitions: over sound tables each line of a report that confirms a trade has the
/// price, the yield, the date of the redemption and the total of a version that is kept, and these
/// figures are right by the rule's exact formulas.
pub fn reports_are_right()
    // promise 1, 2, 3: each line that confirms a trade has the figures of a kept version, all right
    ensures { ReportsAreRight }
{
    confirmed_figures_are_right();
}

/// A law of the definitions: a step of the book on a request for a confirmation and what `confirm`
/// prints are one, text and end. So the laws of replies hold of `confirm`.
pub fn confirmations_are_steps()
    // promise 6: what confirm prints is the reply of a step
    ensures { ConfirmationsAreSteps }
{
    confirmations_are_of_last_versions();
}

/// A law of the definitions: over sound tables each trade that is kept is confirmed, by figures that
/// are right by the rule's exact formulas, of a version and an issue that are kept.
pub fn confirmations_are_right()
    // promise 6: it confirms each kept trade by right figures
    ensures { ConfirmationsAreRight }
{
    confirmed_figures_are_right();
}
