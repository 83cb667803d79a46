//! The calls that a disk in memory has had.

ghost use Rattle.std.specs.Prelude.{◌+◌, ◌<◌, ◌^◌, vec_len};

/// What was to be written, and where.
#[derive(Drop)]
pub struct Piece {
    pub place: u64,
    pub bytes: Vec<u8>,
    ghost room: { place + vec_len bytes < 2 ^ 41 },
}

/// What a call was to do: a read, a write, a sync that succeeded or one that did not.
#[derive(Drop)]
pub enum Step {
    Read,
    Write(Piece),
    Synced,
    Unsynced,
}

/// A call, and what the disk read as before it.
#[derive(Drop)]
pub struct MadeCall {
    pub before: Vec<u8>,
    pub step: Step,
}
