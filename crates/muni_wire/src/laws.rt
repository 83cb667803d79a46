//! What holds of the definitions that the contracts of the reader cite.

ghost use Rattle.muni_wire.specs.Laws.{HeadsAreReadOnce, AreReadOnce, AreAllRead};
ghost use Rattle.muni_wire.specs.LengthLaw.{LengthsAreGiven};
ghost use Rattle.muni_wire.specs.PathLaws.{BodiesArePosted, TradesAreConfirmed, ListsAreGiven, ListsGoOn, BodiesHaveOnePath, EachTradeIsConfirmed, EachListIsGiven, EachListGoesOn, LooksHavePaths, EachLookIsMade};
ghost use Rattle.muni_wire.specs.StatusLaws.{RefusalsHaveCodes};

/// The bytes of a connection have one reading, unless they are ambiguous: if they, or the first
/// 16,384 of them, end within a target that no request has, or if they hold more than 64 header
/// fields and no whole head. Bytes that begin with a head within the limits are never ambiguous, and
/// none are without a reading.
pub fn bytes_are_read_in_one_way()
    // promise 4: bytes that begin with a head within the limits have one reading
    ensures heads { HeadsAreReadOnce }
    // promise 4: so have other bytes, unless they are ambiguous
    ensures others { AreReadOnce }
    // promise 4: no bytes are without a reading
    ensures some { AreAllRead }
{}

/// Header fields give a body a length if there is no Transfer-Encoding and some Content-Length, each of
/// them is that number of one to ten digits, and it is at most 65,536; and in no other case.
pub fn lengths_are_given()
    // promise 4: when a body has a length: no Transfer-Encoding, and a Content-Length up to 65,536
    ensures { LengthsAreGiven }
{}

/// A refusal with the number 1 or 2 has the status 404, one with 3 or 11 to 14 has 409, and each other
/// one 422.
pub fn refusals_have_codes()
    // promise 4: each refusal has the status of its number
    ensures { RefusalsHaveCodes }
{}

/// Bodies are posted under the six paths of the desk. A trade is confirmed under `/trades/`, its
/// desk, a slash and its reference, and under no other path. A list is given under `/lists/` and its
/// desk, and goes on after a reference if a slash and that reference follow, and under no other path.
/// Desk and reference are names.
pub fn paths_lead_to_requests()
    // promise 4: the path of a form leads to its body
    ensures posted { BodiesArePosted }
    // promise 4: the path of a trade leads to its confirmation
    ensures confirmed { TradesAreConfirmed }
    // promise 4: the path of a list leads to it
    ensures listed { ListsAreGiven }
    // promise 4: so does that of a list after a reference
    ensures listed_after { ListsGoOn }
{}

/// Each trade is confirmed under its path, and the list of each desk is given under its own and goes on
/// after each reference. A body is posted under the one path of its form.
pub fn each_path_leads_to_its_request()
    // promise 4: each form has one path
    ensures posted { BodiesHaveOnePath }
    // promise 4: each trade has its path
    ensures confirmed { EachTradeIsConfirmed }
    // promise 4: each list has its path
    ensures listed { EachListIsGiven }
    // promise 4: so has each list after a reference
    ensures listed_after { EachListGoesOn }
{}

/// Each look at the tables is made under its paths, and under no other: at an issue under `/issues/` and
/// its CUSIP, at a version under `/trades/`, its desk, its reference and its number with slashes between,
/// at the positions of a desk under `/positions/` and its name, and at its last trades under `/latest/`.
pub fn looks_have_paths()
    // promise 4: a look is made under its paths, and under no other
    ensures only { LooksHavePaths }
    // promise 4: each look is made under each of its paths
    ensures each { EachLookIsMade }
{}
