//! An encloser and a gate that watch a command.

ghost use Rattle.muni_multi.specs.Horner.{horner_ends};
ghost use Rattle.muni_multi.specs.HornerLaws.{horner-encloses, horner-narrow};

use muni_edge::Gate;
use muni_multi::{Encloser, Horner};
use muni_span::worth::Worth;
use muni_terms::Flows;
use std::sync::atomic::{AtomicBool, AtomicU32, AtomicUsize, Ordering};

/// Counts the starts, and the calls that it hands on to `Horner`. It holds each candidate at its first
/// start until a number of them are held at once, or for its turns.
#[derive(Drop)]
pub struct Watch {
    held: AtomicU32,
    /// The most that were held at once.
    pub most: AtomicU32,
    wanted: u32,
    turns: u32,
    pub starts: AtomicU32,
    pub calls: AtomicU32,
    round: AtomicU32,
    /// The candidate that started last.
    pub place: AtomicUsize,
    /// A round was lower than one before.
    pub falls: AtomicBool,
    /// A call came before its start.
    pub early: AtomicBool,
}

impl Watch {
    /// Waits for a number of candidates, at most for a number of turns.
    pub fn new(wanted: u32, turns: u32) -> Watch {
        Watch {
            held: AtomicU32::new(0),
            most: AtomicU32::new(0),
            wanted,
            turns,
            starts: AtomicU32::new(0),
            calls: AtomicU32::new(0),
            round: AtomicU32::new(0),
            place: AtomicUsize::new(0),
            falls: AtomicBool::new(false),
            early: AtomicBool::new(false),
        }
    }

    /// Holds no candidate.
    pub fn idle() -> Watch {
        Watch::new(0, 0)
    }

    fn hold(&self) {
        let held = self.held.fetch_add(1, Ordering::SeqCst).wrapping_add(1);
        let _ = self.most.fetch_max(held, Ordering::SeqCst);
        for _turn in 0u32..self.turns {
            if self.most.load(Ordering::SeqCst) >= self.wanted {
                break;
            }
        }
        let _ = self.held.fetch_sub(1, Ordering::SeqCst);
    }
}

impl Gate for Watch {
    fn start(&self, round: u32, place: usize) {
        let _before = self.starts.fetch_add(1, Ordering::SeqCst);
        if round < self.round.load(Ordering::SeqCst) {
            self.falls.store(true, Ordering::SeqCst);
        }
        self.round.store(round, Ordering::SeqCst);
        self.place.store(place, Ordering::SeqCst);
        if round == 0 {
            self.hold();
        }
    }
}

impl Encloser for Watch {
    ghost ends = { λ _ series y. horner_ends series y };

    fn pv(&self, flows: &Flows, y: i32) -> Worth {
        let before = self.calls.fetch_add(1, Ordering::SeqCst);
        if self.starts.load(Ordering::SeqCst) <= before {
            self.early.store(true, Ordering::SeqCst);
        }
        Horner.pv(flows, y)
    }

    ghost encloses = { λ _ series y is many within. horner-encloses series y is many within };

    ghost narrow = { λ _ series y is many within. horner-narrow series y is many within };
}
