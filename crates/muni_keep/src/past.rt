//! The keys after a key.

ghost use Rattle.std.specs.Prelude.{◌≡◌};
ghost use Rattle.std.specs.Range.Bound.{bound_map};
ghost use Rattle.muni_keep.specs.Trades as spec;

use std::ops::Bound;

/// Bounds the keys after a key from below, or none if no key is given.
pub(crate) fn bound_past<K>(after: &Option<K>) -> Bound<&K>
    ensures { bound_map (λ key. key.now) result ≡ spec.bound_past after.now }
{
    match after {
        Some(after) => Bound::Excluded(after),
        None => Bound::Unbounded,
    }
}
