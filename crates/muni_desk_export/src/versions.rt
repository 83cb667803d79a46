//! The versions of a trade.

ghost use Rattle.std.specs.Prelude.{◌≡◌, Some, IfOk, IfSome, IsSome};
ghost use Rattle.muni_keep.specs.Tables.{version_at};
ghost use Rattle.muni_desk_export.specs.Looks.{LooksOver};
ghost use Rattle.muni_desk_export.specs.Trades as spec;

use muni_keep::{KeepFault, Keeper};
use muni_msg::{DeskName, Key, Line, Version};

/// The trade of a desk of which a line has the last version.
pub(crate) fn key_of(desk: &DeskName, line: &Line) -> Key
    ensures { result ≡ spec.key_of desk.now line.now.reference }
{
    Key {
        desk: desk.copy(),
        reference: line.reference.copy(),
    }
}

/// A version of a trade that is kept. If it is missing in a store that does not expose its tables, the store
/// has failed.
pub(crate) fn version_of<K: Keeper>(
    keeper: &mut K,
    key: &Key,
    number: u32,
) -> Result<Version, KeepFault>
    requires kept { IfSome (K.tables keeper.old) (λ t. IsSome (version_at t key.now number)) }
    ensures found { IfOk result (λ version. IfSome (K.tables keeper.old)
        (λ t. version_at t key.now number ≡ Some version)) }
    ensures looks { LooksOver K.Keeper result keeper.old keeper.new }
{
    match keeper.version(key, number)? {
        Some(version) => Ok(version),
        None => Err(KeepFault::Failed),
    }
}
