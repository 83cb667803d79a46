//! How a put changes the holdings of a desk.

ghost use Rattle.std.specs.Prelude.{◌≡◌, ◌⊎◌, ℕ, List, None, IsSome, IfSome, OnOk};
ghost use Rattle.std.specs.BTreeMap as tree;
ghost use Rattle.muni_keep.specs.Trades.{by_bytes};
ghost use Rattle.muni_position.specs.Change as spec;
ghost use Rattle.muni_position.specs.Change.{IsChange, IsMoved, HasNoRoom, after_change};
ghost use Rattle.muni_position.specs.Holding.{IsBounded, IsInRange};
ghost use Rattle.muni_position.specs.Holdings as sums;
ghost use Rattle.muni_position.specs.Holdings.{AreInRange};

use crate::holding::Holding;
use crate::holdings::{Holdings, kept, make_room, set};
use muni_msg::Version;
use std::alloc::AllocError;

/// The holdings after a put of the CUSIP that the trade named before, and of the one that it names
/// now. The two may be one.
#[derive(Clone, Copy, Debug)]
pub(crate) struct Change {
    pub before: [u8; 9],
    pub left: Holding,
    pub cusip: [u8; 9],
    pub held: Holding,
}

impl Change {
    /// The change by the next version of a trade, if each sum stays in its range.
    pub(crate) fn of(
        holdings: &Holdings,
        last: &Option<(u32, Version)>,
        version: &Version,
    ) -> Option<Change>
        requires { AreInRange holdings.now }
        ensures change { IfSome result (λ change. IsChange holdings.now last.now version.now change) }
        ensures none { result ≡ None
            → HasNoRoom holdings.now last.now version.now (spec.named_before last.now version.now)
            ⊎ HasNoRoom holdings.now last.now version.now version.now.terms.asked.cusip }
        ensures bounded { IsBounded version.now }
    {
        let before = named_before(last, version);
        let cusip = version.terms.asked.cusip;
        Some(Change {
            before,
            left: moved_at(holdings, &before, last, version)?,
            cusip,
            held: moved_at(holdings, &cusip, last, version)?,
        })
    }

    /// Makes room for it.
    pub(crate) fn make_room(&self, holdings: &mut Holdings) -> Result<(), AllocError>
        ensures same { (other : List ℕ) → sums.kept holdings.new other ≡ sums.kept holdings.old other }
        ensures before { OnOk result (IsSome (tree.get by_bytes holdings.new self.now.before)) }
        ensures cusip { OnOk result (IsSome (tree.get by_bytes holdings.new self.now.cusip)) }
    {
        make_room(holdings, &self.before)?;
        make_room(holdings, &self.cusip)
    }

    /// Makes it. There has to be room for it.
    pub(crate) fn make(&self, holdings: &mut Holdings)
        requires before { IsSome (tree.get by_bytes holdings.old self.now.before) }
        requires cusip { IsSome (tree.get by_bytes holdings.old self.now.cusip) }
        ensures { (other : List ℕ) → sums.kept holdings.new other
            ≡ after_change self.now holdings.old other }
    {
        set(holdings, &self.before, self.left);
        set(holdings, &self.cusip, self.held);
    }
}

// The CUSIP that a trade named before a version.
fn named_before(last: &Option<(u32, Version)>, version: &Version) -> [u8; 9]
    ensures { result ≡ spec.named_before last.now version.now }
{
    match last {
        Some((_, last)) => last.terms.asked.cusip,
        None => version.terms.asked.cusip,
    }
}

// The holding of a CUSIP after the next version of a trade, if each sum stays in its range.
fn moved_at(
    holdings: &Holdings,
    cusip: &[u8; 9],
    last: &Option<(u32, Version)>,
    version: &Version,
) -> Option<Holding>
    requires { AreInRange holdings.now }
    ensures moved { IfSome result
        (λ h. IsMoved cusip.now last.now version.now (sums.kept holdings.now cusip.now) h) }
    ensures range { IfSome result (λ h. IsInRange h) }
    ensures none { result ≡ None → HasNoRoom holdings.now last.now version.now cusip.now }
    ensures bounded { IsBounded version.now }
{
    let more = Holding::share(cusip, version);
    let less = Holding::share_of_last(cusip, last);
    kept(holdings, cusip).moved(&more, &less)
}
