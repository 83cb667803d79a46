//! Laws of journals.

ghost use Rattle.muni_journal.specs.Laws.{WhatIsWrittenStands, JournalsStand, NothingElseStands};

/// What stands for tables is the slots of puts that lead to them from empty tables, in order, and a
/// closed gate; and nothing else does.
pub fn journals_are_slots()
    // promise 8: the slots of puts that lead from empty tables, and a closed gate, are a journal, whatever follows
    ensures written { WhatIsWrittenStands }
    // promise 8: so is whatever begins so
    ensures slots { JournalsStand }
    // promise 8: no other bytes stand for tables
    ensures only { NothingElseStands }
{}
