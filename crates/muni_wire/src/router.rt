//! The routes of a server.

ghost use Rattle.std.specs.Prelude.{◌≡◌, IsUtf8, MatchOption, None, OnOk};
ghost use Rattle.muni_wire.specs.Routes as spec;
ghost use Rattle.muni_wire.specs.Table.{LeadsAlong, with_route};

use crate::routes::{Target, asked_by};
use matchit::Router;
use muni_edge::NoMemory;
use muni_wire_body::Form;
use std::alloc::Global;
use std::marker::Model;
use std::str;

/// Where a path leads: a body of a form is posted to it, or something kept is got by the rest of it.
#[derive(Clone, Copy, Debug, PartialEq, Eq)]
pub(crate) enum Route {
    Post(Form),
    Issue,
    Trade,
    List,
    Positions,
    Latest,
}

/// The routes of a server. They are made once, for all its connections.
#[derive(Drop)]
pub struct Routes {
    router: Router<Route>,
}

impl Model for Routes {
    ghost use Rattle.std.specs.Prelude.{◌≡◌, ⊤};
    ghost use Rattle.muni_wire.specs.Table.{table};

    ghost Value = { ⊤ };

    ghost view = { λ _. tt };

    ghost invariant = { λ routes. routes.router ≡ table };
}

impl Routes {
    /// The routes of the desk.
    pub fn new(alloc: Global) -> Result<Routes, NoMemory> {
        let mut router = Router::new(alloc);
        add(&mut router, "/issues", Route::Post(Form::Issue))?;
        add(&mut router, "/amendments", Route::Post(Form::Amendment))?;
        add(&mut router, "/trades", Route::Post(Form::Trade))?;
        add(&mut router, "/corrections", Route::Post(Form::Correction))?;
        add(&mut router, "/cancels", Route::Post(Form::Cancellation))?;
        add(&mut router, "/quotes", Route::Post(Form::Quote))?;
        add(&mut router, "/checks", Route::Post(Form::Check))?;
        add(&mut router, "/issues/{*rest}", Route::Issue)?;
        add(&mut router, "/trades/{*rest}", Route::Trade)?;
        add(&mut router, "/lists/{*rest}", Route::List)?;
        add(&mut router, "/positions/{*rest}", Route::Positions)?;
        add(&mut router, "/latest/{*rest}", Route::Latest)?;
        Ok(Routes { router })
    }

    /// What is asked under a path.
    pub(crate) fn find(&self, path: &[u8]) -> Option<Target>
        requires { IsUtf8 path.now }

        // promise 4: a server finds the request of a path by its routes
        ensures { result ≡ spec.target_of path.now }
    {
        let Ok(path) = str::from_utf8(path) else {
            unreachable!()
        };
        let (route, rest) = self.route_of(path)?;
        asked_by(route, rest.as_bytes())
    }

    // The route along which a path leads, and the rest of the path.
    fn route_of<'p>(&self, path: &'p str) -> Option<(Route, &'p str)>
        ensures { MatchOption result (spec.target_of path.now ≡ None)
            (λ found. LeadsAlong path.now found.0 found.1.now) }
    {
        let found = self.router.at(path).ok()?;
        Some((*found.value, found.params.get("rest").unwrap_or("")))
    }
}

#[tactic(auto, unfolding(crate::specs::Table::with_route))]
fn add(router: &mut Router<Route>, path: &str, route: Route) -> Result<(), NoMemory>
    ensures { OnOk result (router.new ≡ with_route router.old (path.now, route)) }
{
    match router.insert(path, route) {
        Ok(()) => Ok(()),
        Err(_) => Err(NoMemory),
    }
}
