//! Laws of exports, over all tables to which commands lead from empty ones.

ghost use Rattle.muni_desk_export.specs.Laws.{DesksAreImportedAgain, ExportsAreImportedAgain, ExportsAreReadAgain, OwnLimitIsEnough};
ghost use Rattle.muni_desk_export.specs.AgainWanted.{DesksAreOfCommands, ExportsAreOfCommands};

use muni_export::laws::rows_are_read_again;

/// A law of the definitions: imported into empty tables, an export of everything gives equal tables, with
/// all terms of each issue under their numbers, and each of its rows is added, amended or confirmed. So it
/// is with all tables to which commands lead from empty ones, if the import lets a desk have as many
/// trades as each of theirs has. The limit under which they were kept is enough.
pub fn exports_are_imported_again()
    // promise 6: an export of a store, imported into empty tables, gives equal tables
    ensures again { ExportsAreImportedAgain }
    // promise 6: the limit of the commands that led to them is enough
    ensures enough { OwnLimitIsEnough }
{}

/// A law of the definitions: imported into empty tables, an export of a desk gives tables with that desk
/// as it was and the issues that its trades name with all their terms, and nothing else, and each of its
/// rows is added, amended or confirmed, if the import lets a desk have as many trades.
pub fn desks_are_imported_again()
    // promise 6: an export of a desk gives the desk, and the issues that its trades name, and nothing else
    ensures { DesksAreImportedAgain }
{}

/// A law of the definitions: the text of an export is read as its commands, if each of its rows is.
pub fn exports_are_read_again()
    // promise 6: and is read as them
    ensures { ExportsAreReadAgain }
{
    rows_are_read_again();
}

/// A law of the definitions: what an export of everything writes is the text of its commands.
pub fn exports_are_of_commands()
    // promise 6: the text of an export is that of these commands
    ensures { ExportsAreOfCommands }
{}

/// A law of the definitions: what an export of a desk writes is the text of the commands of that part
/// of the tables.
pub fn desks_are_of_commands()
    // promise 6: the text of such an export is that of its commands
    ensures { DesksAreOfCommands }
{}
