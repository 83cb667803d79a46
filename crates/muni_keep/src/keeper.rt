//! What keeps the tables of the desk.

ghost use Rattle.std.specs.Prelude.{◌≡◌, ℕ, Option, IfOk, IfSome};
ghost use Rattle.muni_keep.specs.Frames.{Found, Reads, Edits};
ghost use Rattle.muni_keep.specs.History.{next_number};
ghost use Rattle.muni_keep.specs.Tables.{Tables, issue_at, issue_numbered, issue_history, last_issue, trade_at, version_at, last_at, trade_count, page_at, before_latest, issue_past, desk_past, with_issue, with_version};

use crate::fault::KeepFault;
use arrayvec::ArrayVec;
use muni_msg::{DeskName, Key, Line, Reference, Version};
use muni_terms::Issue;

/// What keeps the tables of the desk. It exposes them either at every call or at none.
pub trait Keeper {
    /// The issues and the trades that it keeps, if it exposes them.
    ghost tables: { Self → Option Tables };

    /// How often it has failed.
    ghost faults: { Self → ℕ };

    /// The number by which the cabinet that lent it knows it again. No call changes it.
    ghost lent_as: { Self → ℕ };

    /// The issue of a CUSIP by its last terms, if it is kept.
    fn issue(&mut self, cusip: &[u8; 9]) -> Result<Option<Issue>, KeepFault>
        // promise 6: a look-up finds what is kept: the last terms of an issue
        ensures found { Found (tables self.old) result (λ t. issue_at t cusip.now) }
        // promise 7, 9: it changes nothing, and fails only if the count rose
        ensures reads { Reads tables faults lent_as result self.old self.new };

    /// The issue of a CUSIP by its terms with this number, if they are kept.
    fn issue_numbered(&mut self, cusip: &[u8; 9], number: u32) -> Result<Option<Issue>, KeepFault>
        // promise 6: the terms of an issue with this number
        ensures found { Found (tables self.old) result (λ t. issue_numbered t cusip.now number) }
        // promise 7, 9: it changes nothing, and fails only if the count rose
        ensures reads { Reads tables faults lent_as result self.old self.new };

    /// The issue of a CUSIP by its last terms, with their number, if it is kept.
    fn last_issue(&mut self, cusip: &[u8; 9]) -> Result<Option<(u32, Issue)>, KeepFault>
        // promise 6: the last terms of an issue, with their number
        ensures found { Found (tables self.old) result (λ t. last_issue t cusip.now) }
        // promise 7, 9: it changes nothing, and fails only if the count rose
        ensures reads { Reads tables faults lent_as result self.old self.new };

    /// Keeps the next terms of an issue, which have this number, 1 for an issue that is not kept yet.
    fn put_issue(&mut self, number: u32, issue: &Issue) -> Result<(), KeepFault>
        requires { IfSome (tables self.old) (λ t. number ≡ next_number (issue_history t issue.now.cusip)) }

        // promise 7, 9: one put of terms, or a refusal that changes nothing and is counted if it failed
        ensures edits { Edits tables faults lent_as (with_issue issue.now) result self.old self.new };

    /// The version of a trade with this number, if it is kept.
    fn version(&mut self, key: &Key, number: u32) -> Result<Option<Version>, KeepFault>
        // promise 6: the version of a trade with this number
        ensures found { Found (tables self.old) result (λ t. version_at t key.now number) }
        // promise 7, 9: it changes nothing, and fails only if the count rose
        ensures reads { Reads tables faults lent_as result self.old self.new };

    /// The last version of a trade, with its number, if any is kept.
    fn last(&mut self, key: &Key) -> Result<Option<(u32, Version)>, KeepFault>
        // promise 6: the last version of a trade
        ensures found { Found (tables self.old) result (λ t. last_at t key.now) }
        // promise 7, 9: it changes nothing, and fails only if the count rose
        ensures reads { Reads tables faults lent_as result self.old self.new };

    /// Keeps the next version of a trade, which has this number.
    fn put_version(&mut self, key: &Key, number: u32, version: &Version) -> Result<(), KeepFault>
        requires { IfSome (tables self.old) (λ t. number ≡ next_number (trade_at t key.now)) }

        // promise 7, 9: one put of a version, or a refusal that changes nothing and is counted if it failed
        ensures edits { Edits tables faults lent_as (with_version key.now version.now) result self.old self.new };

    /// How many trades of a desk are kept, or 4,294,967,295 if there are more.
    fn trades(&mut self, desk: &DeskName) -> Result<u32, KeepFault>
        // promise 6: how many trades a desk has
        ensures found { Found (tables self.old) result (λ t. trade_count t desk.now) }
        // promise 7, 9: it changes nothing, and fails only if the count rose
        ensures reads { Reads tables faults lent_as result self.old self.new };

    /// The first 50 trades of a desk after a reference, or the first of all if none is given, in the
    /// order of their references. Each has its last version.
    fn page(
        &mut self,
        desk: &DeskName,
        after: &Option<Reference>,
    ) -> Result<ArrayVec<Line, 50>, KeepFault>
        // promise 6: a page of a desk's trades
        ensures found { IfOk result
            (λ lines. IfSome (tables self.old) (λ t. lines.items ≡ page_at t desk.now after.now)) }
        // promise 7, 9: it changes nothing, and fails only if the count rose
        ensures reads { Reads tables faults lent_as result self.old self.new };

    /// The reference after which the last 50 trades of a desk come, or none if it has no more than these.
    fn before_latest(&mut self, desk: &DeskName) -> Result<Option<Reference>, KeepFault>
        // promise 6: the reference before a desk's latest trades
        ensures found { Found (tables self.old) result (λ t. before_latest t desk.now) }
        // promise 7, 9: it changes nothing, and fails only if the count rose
        ensures reads { Reads tables faults lent_as result self.old self.new };

    /// The first issue after a CUSIP, or the first of all if none is given, in the order of their CUSIPs,
    /// with its CUSIP and its last terms.
    fn issue_past(&mut self, after: &Option<[u8; 9]>) -> Result<Option<([u8; 9], Issue)>, KeepFault>
        // promise 6: the next issue in the order of CUSIPs
        ensures found { Found (tables self.old) result (λ t. issue_past t after.now) }
        // promise 7, 9: it changes nothing, and fails only if the count rose
        ensures reads { Reads tables faults lent_as result self.old self.new };

    /// The first desk with trades after a desk, or the first of all if none is given, in the order of
    /// their names.
    fn desk_past(&mut self, after: &Option<DeskName>) -> Result<Option<DeskName>, KeepFault>
        // promise 6: the next desk in the order of names
        ensures found { Found (tables self.old) result (λ t. desk_past t after.now) }
        // promise 7, 9: it changes nothing, and fails only if the count rose
        ensures reads { Reads tables faults lent_as result self.old self.new };
}
