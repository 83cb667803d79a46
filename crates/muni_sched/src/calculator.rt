//! What computes figures.

use crate::Workers;

/// What computes figures: threads, how many of them may work at once, the encloser that prices payments,
/// and the gate that is called before each halving.
// How many threads work and when the gate is called is only tested.
#[derive(Drop)]
pub struct Calculator<'a, R, E, G> {
    pub rt: &'a R,
    pub workers: Workers,
    pub encloser: &'a E,
    pub gate: &'a G,
}
