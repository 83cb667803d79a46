//! The ends between which a worth lies.

ghost use Rattle.std.specs.Prelude.{◌≡◌, ◌/◌, ◌^◌, ◌<◌};

use std::marker::Model;

/// A worth lies between `lo / unit` and `hi / unit`.
#[derive(Clone, Copy, Debug, PartialEq, Eq)]
pub(crate) struct Ends {
    pub(crate) lo: u128,
    pub(crate) hi: u128,
    pub(crate) unit: u128,
}

impl Model for Ends {
    ghost use Rattle.muni_rule.specs.WorthEnds.{WorthEnds};

    ghost Value = { WorthEnds };

    ghost view = { λ ends. record { lo = ends.lo; hi = ends.hi; unit = ends.unit } };

    ghost inverse = { λ value. record { lo = value.lo; hi = value.hi; unit = value.unit } };
}

impl Ends {
    /// The greatest whole amount that is not above the lower end.
    pub(crate) fn whole_low(&self) -> u64
        requires some { 0 < self.now.unit }
        requires fits { self.now.lo / self.now.unit < 2 ^ 64 }
        ensures { result ≡ self.now.lo / self.now.unit }
    {
        (self.lo / self.unit) as u64
    }

    /// The greatest whole amount that is not above the upper end.
    pub(crate) fn whole_high(&self) -> u64
        requires some { 0 < self.now.unit }
        requires fits { self.now.hi / self.now.unit < 2 ^ 64 }
        ensures { result ≡ self.now.hi / self.now.unit }
    {
        (self.hi / self.unit) as u64
    }
}
