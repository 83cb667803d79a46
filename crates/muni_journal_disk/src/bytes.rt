//! Bytes with 0 at every place past the end.

ghost use Rattle.std.specs.Prelude.{◌≡◌, ◌+◌, ◌≤◌, ◌<◌, ◌^◌, ℕ, length, IfOk};
ghost use Rattle.muni_journal_disk.specs.Bytes.{byte_at, bytes_at, StandsAt, IsSameOutside};

use std::alloc::{AllocError, Global};

/// The bytes with a piece written over them at a place.
pub fn overlaid(
    alloc: Global,
    bytes: &[u8],
    place: usize,
    piece: &[u8],
) -> Result<Vec<u8>, AllocError>
    requires { place + length piece.now < 2 ^ 41 }
    ensures written { IfOk result (λ next. StandsAt place piece.now next.items) }
    ensures outside { IfOk result
        (λ next. IsSameOutside place (length piece.now) bytes.now next.items) }
{
    let end = place + piece.len();
    let mut next = padded(alloc, bytes, end)?;
    next[place..end].copy_from_slice(piece);
    Ok(next)
}

/// The bytes, followed by 0 up to a length.
fn padded(alloc: Global, bytes: &[u8], len: usize) -> Result<Vec<u8>, AllocError>
    ensures same { IfOk result (λ next. (i : ℕ) → byte_at next.items i ≡ byte_at bytes.now i) }
    ensures long { IfOk result (λ next. len ≤ length next.items) }
{
    let mut next = bytes.to_vec(alloc)?;
    if len > next.len() {
        next.resize(len, 0)?;
    }
    Ok(next)
}

/// Fills a room with the bytes at a place.
pub fn fill(bytes: &[u8], place: usize, room: &mut [u8])
    requires { place + length room.old < 2 ^ 41 }
    ensures { room.new ≡ bytes_at bytes.now place (length room.old) }
{
    for (i, byte) in room.iter_mut().enumerate() {
        *byte = match bytes.get(place + i) {
            Some(there) => *there,
            None => 0,
        };
    }
}
