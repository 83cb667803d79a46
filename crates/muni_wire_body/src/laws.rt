//! What holds of the definitions that the contract of the reader of bodies cites.

ghost use Rattle.muni_wire_body.specs.LeftOut.{MayBeLeftOut};
ghost use Rattle.muni_wire_body.specs.OtherMembers.{ChecksHaveNoOthers, OtherMembersAreIgnored};

/// A body that is no check is one of 30/360 without a day count basis, and has the commission 0 without
/// one.
pub fn days_and_fee_may_be_left_out()
    // promise 4: what may be left out of a body
    ensures { MayBeLeftOut }
{}

/// A body that is no check asks for the same whatever members it has besides those that its form reads.
pub fn other_members_are_ignored()
    // promise 4: members that a form does not read change nothing
    ensures { OtherMembersAreIgnored }
{}

/// A check with any other member than its desk and the columns is refused.
pub fn checks_have_no_other_members()
    // promise 4: a check with a member that is no column is refused
    ensures { ChecksHaveNoOthers }
{}
