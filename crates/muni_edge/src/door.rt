//! Where connections come in.

ghost use Rattle.std.specs.Prelude.{◌≡◌, ◌<◌, ◌≤◌, ℕ, Option, Some, is_some, is_ok, not, IsSome, OnOk, OnErr, IfOk, IfSome, slice_get};
ghost use Rattle.std.specs.Option.{option_map};
ghost use Rattle.muni_edge.specs.Calls.{is_listed, after_call};
ghost use Rattle.muni_edge.specs.Faults.{CountsFaults};
ghost use Rattle.muni_edge.specs.Door.{DoorState, bound_to, after_accept, handed_back};
ghost use Rattle.muni_edge.specs.MemDoor.{new_door};

use crate::calls::Calls;
use crate::fault::{Failed, NoMemory};
use crate::link::{Link, MemLink};
use std::alloc::Global;
use std::collections::VecDeque;
use std::marker::Model;

/// Where connections come in, and where they go back when they are served.
pub trait Door {
    type L: Link;

    /// The port, the links that wait and are served, and how many are out, where it tells them.
    ghost state: { Self → Option (DoorState Self.L) };

    /// How often it has failed.
    ghost faults: { Self → ℕ };

    /// Binds the door to a port, and leaves the links where they are. What succeeds counts no fault.
    fn bind(&mut self, port: u16) -> Result<(), Failed>
        ensures tells { is_some (state self.new) ≡ is_some (state self.old) }
        // promise 9: the port that was asked for is bound, and no other
        ensures bound { OnOk result (state self.new ≡ option_map (bound_to port) (state self.old)) }
        ensures unchanged { OnErr result (state self.new ≡ state self.old) }
        // promise 9: it counts a fault exactly if it says that it failed
        ensures counts { CountsFaults (faults self.old) (faults self.new) result };

    /// Gives out the first link that waits, or `None` where none does. A port has to be bound. What
    /// succeeds counts no fault.
    fn accept(&mut self) -> Result<Option<Self::L>, Failed>
        requires { IfSome (state self.old) (λ door. IsSome door.port) }

        ensures tells { is_some (state self.new) ≡ is_some (state self.old) }
        // promise 9: the connection that waited first, and none exactly if none waits
        ensures first { IfOk result
            (λ given. IfSome (state self.old) (λ door. given ≡ slice_get door.waiting 0)) }
        ensures given_out { IfOk result
            (λ given. state self.new ≡ option_map (after_accept given) (state self.old)) }
        ensures unchanged { OnErr result (state self.new ≡ state self.old) }
        // promise 9: it counts a fault exactly if it says that it failed
        ensures counts { CountsFaults (faults self.old) (faults self.new) result };

    /// Takes back a link that was served. One has to be out.
    fn hand_back(&mut self, link: Self::L)
        requires { IfSome (state self.old) (λ door. 0 < door.out) }

        ensures tells { is_some (state self.new) ≡ is_some (state self.old) }
        ensures served { state self.new ≡ option_map (handed_back link) (state self.old) }
        ensures later { faults self.old ≤ faults self.new };
}

/// A door in memory. The calls of `bind` and `accept` with the listed numbers fail, counted
/// together from 0. From the start it has room for every link that can be handed back.
#[derive(Drop)]
pub struct MemDoor {
    port: Option<u16>,
    waiting: VecDeque<MemLink>,
    served: Vec<MemLink>,
    out: usize,
    calls: Calls,
}

impl Model for MemDoor {
    ghost use Rattle.std.specs.Prelude.{◌+◌, ◌≤◌, vec_len, vec_capacity};
    ghost use Rattle.std.specs.VecDeque.{deque_len};
    ghost use Rattle.muni_edge.specs.MemDoor.{MemDoorState};

    ghost Value = { MemDoorState };

    ghost view = { λ d. record {
      door = record {
        port = d.port;
        waiting = d.waiting.items;
        served = d.served.items;
        out = d.out;
      };
      calls = d.calls;
    } };

    ghost invariant = { λ d. vec_len d.served + d.out + deque_len d.waiting
        ≤ vec_capacity d.served };
}

impl MemDoor {
    /// A door that is bound to no port, at which these links wait.
    pub fn new(alloc: Global, waiting: Vec<MemLink>, failing: &[u64]) -> Result<MemDoor, NoMemory>
        ensures { IfOk result (λ door. door ≡ new_door waiting.items failing.now) }
    {
        Ok(MemDoor {
            port: None,
            served: Vec::with_capacity(alloc, waiting.len())?,
            waiting: VecDeque::from(waiting),
            out: 0,
            calls: Calls::new(alloc, failing)?,
        })
    }

    /// The links that were handed back, in the order in which they were.
    pub fn served(&self) -> &[MemLink]
        ensures { result.now ≡ self.now.door.served }
    {
        self.served.as_slice()
    }
}

impl Door for MemDoor {
    type L = MemLink;

    ghost state = { λ door. Some door.door };

    ghost faults = { λ door. door.calls.faults };

    fn bind(&mut self, port: u16) -> Result<(), Failed>
        ensures bound { OnOk result (self.new.door ≡ bound_to port self.old.door) }
        ensures unchanged { OnErr result (self.new.door ≡ self.old.door) }
        // promise 9: and counts exactly that
        ensures counts { CountsFaults self.old.calls.faults self.new.calls.faults result }

        // It fails exactly at the listed calls.
        // promise 9: a port in memory fails exactly at the listed calls
        ensures fails { is_ok result ≡ not (is_listed self.old.calls) }
        ensures counted { self.new.calls ≡ after_call self.old.calls }
    {
        self.calls.make()?;
        self.port = Some(port);
        Ok(())
    }

    fn accept(&mut self) -> Result<Option<MemLink>, Failed>
        requires { IsSome self.old.door.port }

        ensures first { IfOk result (λ given. given ≡ slice_get self.old.door.waiting 0) }
        ensures given_out { IfOk result
            (λ given. self.new.door ≡ after_accept given self.old.door) }
        ensures unchanged { OnErr result (self.new.door ≡ self.old.door) }
        // promise 9: and counts exactly that
        ensures counts { CountsFaults self.old.calls.faults self.new.calls.faults result }

        // It fails exactly at the listed calls.
        // promise 9: a port in memory fails exactly at the listed calls
        ensures fails { is_ok result ≡ not (is_listed self.old.calls) }
        ensures counted { self.new.calls ≡ after_call self.old.calls }
    {
        self.calls.make()?;
        let Some(link) = self.waiting.pop_front() else {
            return Ok(None);
        };
        self.out += 1;
        Ok(Some(link))
    }

    fn hand_back(&mut self, link: MemLink)
        requires { 0 < self.old.door.out }

        ensures served { self.new.door ≡ handed_back link self.old.door }
        ensures later { self.old.calls.faults ≤ self.new.calls.faults }
        ensures uncounted { self.new.calls ≡ self.old.calls }
    {
        self.served.push_reserved(link);
        self.out -= 1;
    }
}
