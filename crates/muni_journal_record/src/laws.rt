//! Laws of puts and their bodies.

ghost use Rattle.muni_journal_record.specs.Laws.{WhatIsWrittenIsRead, OnePutHasOneBody};

/// What was written is read, and what is read was written so: one put has one body, and a body with
/// more bytes after it is none.
pub fn bodies_are_puts()
    // promise 8: what is written of a put is read
    ensures read { WhatIsWrittenIsRead }
    // promise 8: and a put has one body
    ensures one { OnePutHasOneBody }
{}
