//! Trades that are put one after another, and as many as a desk usually may have.

ghost use Rattle.std.specs.Prelude.{◌≡◌};

use muni_keep::{KeepFault, Keeper};
use muni_msg::{DeskName, Key, Reference, Version};
use std::test::Fail;

/// Puts the next version of a trade.
pub fn put<K: Keeper>(keeper: &mut K, key: &Key, version: &Version) -> Result<(), KeepFault>
    ensures lent_as { K.lent_as keeper.new ≡ K.lent_as keeper.old }
{
    match keeper.last(key)? {
        None => keeper.put_version(key, 1, version),
        Some((u32::MAX, _)) => Err(KeepFault::NoMemory),
        Some((number, _)) => keeper.put_version(key, number + 1, version),
    }
}

/// The trade of ALPHA of a place, whose reference has six digits.
pub fn trade_of(place: u32) -> Result<Key, Fail> {
    let mut name = [b'0'; 6];
    let mut rest = place;
    for digit in name.iter_mut().rev() {
        *digit = b'0' + (rest % 10) as u8;
        rest /= 10;
    }
    Ok(Key {
        desk: DeskName::read(b"ALPHA").ok().ok_or("a desk")?,
        reference: Reference::read(&name).ok().ok_or("a reference")?,
    })
}

/// Puts a version of as many trades as a desk usually may have.
pub fn fill<K: Keeper>(keeper: &mut K, version: &Version) -> Result<(), Fail> {
    for place in 0..100_000_u32 {
        put(keeper, &trade_of(place)?, version)?;
    }
    Ok(())
}
