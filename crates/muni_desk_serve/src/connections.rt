//! Connections, served one after another.

ghost use Rattle.std.specs.Prelude.{◌≡◌, ◌≢◌, ◌≤◌, ℕ, List, [], Some, None, Err, is_some, IfSome, IsSome, IsErrOf, OnOk, OnErr};
ghost use Rattle.muni_desk_serve.specs.Rules.{serving_rules};
ghost use Rattle.muni_edge.specs.Faults.{Rose};
ghost use Rattle.muni_keep.specs.Cabinet.{LeavesOthers};
ghost use Rattle.muni_desk_serve.specs.Connections.{AsksDoor, IsRun, KeepsServing};
ghost use Rattle.muni_desk_serve.specs.Serves.{traffic};
ghost use Rattle.muni_desk_serve.specs.Serving.{ServedStore};

use crate::answers::answer_one;
use crate::fault::{ServeFault, after};
use crate::served::Served;
use muni_book::Book;
use muni_edge::{Door, Failed, Gate};
use muni_keep::{Cabinet, Keeper};
use muni_multi::Encloser;
use muni_wire::Routes;
use std::alloc::Global;
use std::thread::Threads;

/// Serves up to `connections` connections that come in by a door, one after the other, over the
/// tables of a store.
///
/// The routes are made once, for all of them. The store is fetched then, and given back at the end, and the door is
/// bound to the port after that. What a connection does or suffers ends that connection alone.
pub fn serve<R: Threads + Sync, C: Cabinet, D: Door, E: Encloser + Sync, G: Gate + Sync>(
    book: &Book<'_, R, E, G>,
    alloc: Global,
    store: &[u8],
    port: u16,
    connections: u32,
    cabinet: &mut C,
    door: &mut D,
) -> Result<(), ServeFault>
    requires none_out { C.out cabinet.old ≡ None }
    // promise 5, 9, 10: connections are served in order, as a run of the book; a fault ends one alone
    ensures served { ServedStore C.Cabinet D.Door (serving_rules book.now.limit (E.ends book.now.calculator.now.encloser.now))
        (traffic D.L.left D.L.bytes D.L.Source.faults D.L.Sink.faults) store.now port connections result
        cabinet.old cabinet.new door.old door.new }
    // promise 7: no other tables change
    ensures leaves { LeavesOthers C.Cabinet store.now cabinet.old cabinet.new }
    ensures tells { (other : List ℕ) → is_some (C.told cabinet.new other) ≡ is_some (C.told cabinet.old other) }
    ensures door_later { D.faults door.old ≤ D.faults door.new }
{
    let Ok(routes) = Routes::new(alloc) else {
        return Err(ServeFault::NoMemory);
    };
    let mut keeper = cabinet.fetch(store)?;
    let end = serve_links(book, &routes, alloc, port, connections, &mut keeper, door);
    cabinet.give_back(keeper);
    end
}

// Serves connections over the tables of a keeper.
fn serve_links<R: Threads + Sync, K: Keeper, D: Door, E: Encloser + Sync, G: Gate + Sync>(
    book: &Book<'_, R, E, G>,
    routes: &Routes,
    alloc: Global,
    port: u16,
    connections: u32,
    keeper: &mut K,
    door: &mut D,
) -> Result<(), ServeFault>
    ensures run { IfSome (D.state door.old) (λ d. IsRun (serving_rules book.now.limit (E.ends book.now.calculator.now.encloser.now))
        (traffic D.L.left D.L.bytes D.L.Source.faults D.L.Sink.faults) port connections
        d (D.state door.new) (K.tables keeper.old) (K.tables keeper.new)
        (K.faults keeper.old) (K.faults keeper.new) result) }
    ensures bound { OnOk result (IfSome (D.state door.new) (λ d. d.port ≡ Some port)) }
    ensures door_fault { IsErrOf result ServeFault.Door → Rose (D.faults door.old) (D.faults door.new) }
    ensures no_store_fault { result ≢ Err ServeFault.Store }
    ensures keeps { KeepsServing K.Keeper D.Door keeper.old keeper.new door.old door.new }
{
    if door.bind(port).is_err() {
        return Err(ServeFault::Door);
    }
    let mut end = Ok(());
    for _count in 0..connections {
        match serve_next(book, routes, alloc, keeper, door) {
            Ok(Some(served)) => end = after(end, served),
            Ok(None) => return end,
            Err(Failed) => return Err(ServeFault::Door),
        }
    }
    end
}

// Serves the first connection that waits, if one does, and hands it back.
fn serve_next<R: Threads + Sync, K: Keeper, D: Door, E: Encloser + Sync, G: Gate + Sync>(
    book: &Book<'_, R, E, G>,
    routes: &Routes,
    alloc: Global,
    keeper: &mut K,
    door: &mut D,
) -> Result<Option<Served>, Failed>
    requires bound { IfSome (D.state door.old) (λ d. IsSome d.port) }

    ensures next { AsksDoor K.Keeper D.Door (serving_rules book.now.limit (E.ends book.now.calculator.now.encloser.now))
        (traffic D.L.left D.L.bytes D.L.Source.faults D.L.Sink.faults) result keeper.old keeper.new door.old door.new }
    ensures failed { OnErr result (Rose (D.faults door.old) (D.faults door.new)) }
    ensures port { (port : ℕ) → IfSome (D.state door.old) (λ d. d.port ≡ Some port)
        → IfSome (D.state door.new) (λ d. d.port ≡ Some port) }
    ensures keeps { KeepsServing K.Keeper D.Door keeper.old keeper.new door.old door.new }
{
    match door.accept() {
        Ok(Some(link)) => {
            let mut link = link;
            let served = answer_one(book, routes, alloc, &mut link, keeper);
            door.hand_back(link);
            Ok(Some(served))
        }
        Ok(None) => Ok(None),
        Err(Failed) => Err(Failed),
    }
}
