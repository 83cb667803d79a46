//! Names of stores.

ghost use Rattle.std.specs.Prelude.{◌≡◌, refl, nat_eq, Some, IfOk};
ghost use Rattle.std.specs.Ordering.{nat_cmp};
ghost use Rattle.std.specs.Cmp.{partial_equiv_from_equiv};
ghost use Rattle.std.specs.Cmp.Lexicographic.{pointwise, slice_cmp, nat_list_eq_equiv, nat_list_cmp_total, texts_po, texts_ties};

use std::alloc::{AllocError, Global};
use std::cmp::Ordering;
use std::marker::Model;

/// The name of a store: any bytes, in the order of lists of bytes.
#[derive(Drop)]
pub(crate) struct StoreName {
    bytes: Vec<u8>,
}

impl Model for StoreName {
    ghost use Rattle.std.specs.Prelude.{ℕ, List};

    ghost Value = { List ℕ };

    ghost view = { λ name. name.bytes.items };
}

impl StoreName {
    /// The name of these bytes.
    pub(crate) fn new(bytes: Vec<u8>) -> StoreName
        ensures { result ≡ bytes.items }
    {
        StoreName { bytes }
    }

    /// A name of the same bytes.
    pub(crate) fn copy_of(alloc: Global, bytes: &[u8]) -> Result<StoreName, AllocError>
        ensures { IfOk result (λ name. name ≡ bytes.now) }
    {
        Ok(StoreName::new(bytes.to_vec(alloc)?))
    }
}

impl PartialEq for StoreName {
    ghost eq = { pointwise nat_eq };

    ghost laws = { partial_equiv_from_equiv nat_list_eq_equiv };

    fn eq(&self, other: &StoreName) -> bool {
        self.bytes.as_slice() == other.bytes.as_slice()
    }
}

impl Eq for StoreName {
    ghost laws = { nat_list_eq_equiv };
}

impl PartialOrd for StoreName {
    ghost partial_cmp = { λ s t. Some (slice_cmp nat_cmp s t) };

    ghost laws = { texts_po };

    fn partial_cmp(&self, other: &StoreName) -> Option<Ordering> {
        Some(self.cmp(other))
    }
}

impl Ord for StoreName {
    ghost cmp = { slice_cmp nat_cmp };

    ghost total = { nat_list_cmp_total };

    ghost matches_partial_cmp = { λ s t. refl };

    ghost matches_eq = { texts_ties };

    fn cmp(&self, other: &StoreName) -> Ordering {
        self.bytes.as_slice().cmp(&other.bytes.as_slice())
    }
}
