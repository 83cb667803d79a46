//! A watcher of the search for the lowest yield.

/// Watches the workers of a search: each calls it before it asks about a candidate.
pub trait Gate {
    /// The round, and the place in the list of the candidate that is asked about. A search needs no
    /// more of the call than that it returns.
    fn start(&self, round: u32, place: usize);
}

/// A gate that does nothing.
#[derive(Clone, Copy, Debug)]
pub struct NoGate;

impl Gate for NoGate {
    fn start(&self, _round: u32, _place: usize) {}
}
