//! A walk over what a keeper keeps, with a piece of text at a time.

ghost use Rattle.std.specs.Prelude.{◌≡◌, None, IfOk, IfSome, option_map};
ghost use Rattle.muni_desk_export.specs.Looks.{LooksOver};
ghost use Rattle.muni_desk_export.specs.Pieces.{IsNext};
ghost use Rattle.muni_desk_export.specs.Walk.{desk_left, desks_left, left};

use crate::issues::next_issue;
use crate::named::Named;
use crate::trades::{Style, next_page};
use muni_keep::{KeepFault, Keeper};
use muni_msg::{DeskName, Reference};
use std::alloc::Global;

/// How far a walk has come.
#[derive(Drop)]
pub(crate) enum Walk {
    /// The rows of all terms of the issues after a CUSIP: of all, or of those that are named.
    Issues {
        named: Option<Named>,
        after: Option<[u8; 9]>,
    },
    /// The trades of a desk after a reference.
    Trades {
        desk: DeskName,
        style: Style,
        after: Option<Reference>,
    },
    /// The rows of the trades of a desk after a reference and of the desks after it, or of all desks.
    Desks {
        desk: Option<DeskName>,
        after: Option<Reference>,
    },
}

impl Walk {
    /// A walk over the issues that are named, or over all.
    pub(crate) fn issues(named: Option<Named>) -> Walk
        ensures { result ≡ Walk.Issues named None }
    {
        Walk::Issues { named, after: None }
    }

    /// A walk over all trades of a desk.
    pub(crate) fn trades(desk: &DeskName, style: Style) -> Walk
        ensures { result ≡ Walk.Trades desk.now style None }
    {
        Walk::Trades {
            desk: desk.copy(),
            style,
            after: None,
        }
    }

    /// A walk over the trades of all desks.
    pub(crate) fn desks() -> Walk
        ensures { result ≡ Walk.Desks None None }
    {
        Walk::Desks {
            desk: None,
            after: None,
        }
    }

    /// The next piece of the text, which may be empty. `None` if all is written.
    pub(crate) fn next<K: Keeper>(
        &mut self,
        alloc: Global,
        keeper: &mut K,
    ) -> Result<Option<Vec<u8>>, KeepFault>
        ensures next { IfOk result (λ piece. IfSome (K.tables keeper.old) (λ t.
            IsNext (left t self.old) (option_map (λ text. text.items) piece) (left t self.new))) }
        ensures looks { LooksOver K.Keeper result keeper.old keeper.new }
    {
        match self {
            Walk::Issues { named, after } => next_issue(alloc, keeper, named, after),
            Walk::Trades { desk, style, after } => next_page(alloc, keeper, desk, *style, after),
            Walk::Desks { desk, after } => next_of_desks(alloc, keeper, desk, after),
        }
    }
}

// The next piece of the desk at hand, if there is one.
fn next_of_desk<K: Keeper>(
    alloc: Global,
    keeper: &mut K,
    desk: &Option<DeskName>,
    after: &mut Option<Reference>,
) -> Result<Option<Vec<u8>>, KeepFault>
    ensures next { IfOk result (λ piece. IfSome (K.tables keeper.old) (λ t.
        IsNext (desk_left t desk.now after.old) (option_map (λ text. text.items) piece)
        (desk_left t desk.now after.new))) }
    ensures looks { LooksOver K.Keeper result keeper.old keeper.new }
{
    match desk {
        Some(desk) => next_page(alloc, keeper, desk, Style::Rows, after),
        None => Ok(None),
    }
}

// The next piece of the desk at hand, or else a step to the next desk.
fn next_of_desks<K: Keeper>(
    alloc: Global,
    keeper: &mut K,
    desk: &mut Option<DeskName>,
    after: &mut Option<Reference>,
) -> Result<Option<Vec<u8>>, KeepFault>
    ensures next { IfOk result (λ piece. IfSome (K.tables keeper.old) (λ t.
        IsNext (desks_left t desk.old after.old) (option_map (λ text. text.items) piece)
        (desks_left t desk.new after.new))) }
    ensures looks { LooksOver K.Keeper result keeper.old keeper.new }
{
    if let Some(text) = next_of_desk(alloc, keeper, desk, after)? {
        return Ok(Some(text));
    }
    let Some(next) = keeper.desk_past(desk)? else {
        return Ok(None);
    };
    *desk = Some(next);
    *after = None;
    Ok(Some(Vec::new(alloc)))
}
