//! What is asked under the path of a request.

ghost use Rattle.std.specs.Prelude.{◌≡◌, option_map};
ghost use Rattle.muni_wire.specs.Routes as spec;
ghost use Rattle.muni_wire.specs.Table as table;

use crate::router::Route;
use muni_dec::text::find;
use muni_msg::{Command, DeskName, Key, Reference, read_cusip, read_version_number};
use muni_wire_body::{Form, Look, Request};

/// What is asked under a path: a body of a form is posted, or something kept is got.
#[derive(Drop)]
pub(crate) enum Target {
    Post(Form),
    Get(Request),
}

/// The path of a target: what comes before the first `?`.
pub(crate) fn path_of(target: &[u8]) -> &[u8]
    ensures { result.now ≡ spec.path_of target.now }
{
    match find(target, b'?') {
        Some(at) => &target[..at],
        None => target,
    }
}

/// What is asked along a route by the rest of a path.
pub(crate) fn asked_by(route: Route, rest: &[u8]) -> Option<Target>
    ensures { result ≡ table.asked_by route rest.now }
{
    match route {
        Route::Post(form) => Some(Target::Post(form)),
        Route::Issue => look(issue(rest)),
        Route::Trade => trade(rest).or_else(|| look(version(rest))),
        Route::List => list(rest).or_else(|| list_after(rest)),
        Route::Positions => look(positions(rest)),
        Route::Latest => look(latest(rest)),
    }
}

fn look(found: Option<Look>) -> Option<Target>
    ensures { result ≡ table.looked found }
{
    Some(Target::Get(Request::Look(found?)))
}

fn issue(rest: &[u8]) -> Option<Look>
    ensures { result ≡ table.issue_by rest.now }
{
    let cusip = read_cusip(rest)?;
    Some(Look::Issue { cusip })
}

fn trade(rest: &[u8]) -> Option<Target>
    ensures { result ≡ table.confirmed_by rest.now }
{
    let key = read_key(rest)?;
    Some(Target::Get(Request::Book(Command::Confirm { key })))
}

fn version(rest: &[u8]) -> Option<Look>
    ensures { result ≡ table.version_by rest.now }
{
    let (desk, rest) = parts(rest)?;
    let (reference, number) = parts(rest)?;
    let desk = DeskName::read(desk).ok()?;
    let reference = Reference::read(reference).ok()?;
    let number = read_version_number(number)?;
    Some(Look::Version {
        key: Key { desk, reference },
        number,
    })
}

fn list(rest: &[u8]) -> Option<Target>
    ensures { result ≡ table.list_by rest.now }
{
    let desk = DeskName::read(rest).ok()?;
    Some(Target::Get(Request::Book(Command::List { desk, after: None })))
}

fn list_after(rest: &[u8]) -> Option<Target>
    ensures { result ≡ table.list_after_by rest.now }
{
    let Key { desk, reference } = read_key(rest)?;
    Some(Target::Get(Request::Book(Command::List {
        desk,
        after: Some(reference),
    })))
}

fn positions(rest: &[u8]) -> Option<Look>
    ensures { result ≡ table.positions_by rest.now }
{
    let desk = DeskName::read(rest).ok()?;
    Some(Look::Positions { desk })
}

fn latest(rest: &[u8]) -> Option<Look>
    ensures { result ≡ table.latest_by rest.now }
{
    let desk = DeskName::read(rest).ok()?;
    Some(Look::Latest { desk })
}

// What comes before the first slash and after it.
fn parts(text: &[u8]) -> Option<(&[u8], &[u8])>
    ensures { option_map (λ parts. (parts.0.now, parts.1.now)) result ≡ spec.parts_of text.now }
{
    let slash = find(text, b'/')?;
    Some((&text[..slash], &text[slash + 1..]))
}

// A desk, a slash and a reference.
#[tactic(auto, unfolding(crate::specs::Routes::key_of))]
fn read_key(text: &[u8]) -> Option<Key>
    ensures { result ≡ spec.key_of text.now }
{
    let slash = find(text, b'/')?;
    let desk = DeskName::read(&text[..slash]).ok()?;
    let reference = Reference::read(&text[slash + 1..]).ok()?;
    Some(Key { desk, reference })
}
