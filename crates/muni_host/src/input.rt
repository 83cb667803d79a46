//! Standard input as a source.

ghost use Rattle.std.specs.Prelude.{◌≡◌, ◌≤◌, length, None, IfOk};
ghost use Rattle.std.specs.Io.KnownBytes.{ReadConsumes};
ghost use Rattle.muni_edge.specs.Faults.{CountsFaults};

use crate::reading::read_on;
use muni_edge::{Failed, Faults, Source};
use std::io;

/// Bytes are taken from the reader as they come. It does not tell what is left.
#[derive(Drop)]
pub struct Input<R> {
    reader: R,
    faults: Faults,
}

impl<R> Input<R> {
    /// A source that reads from `reader`.
    pub fn new(reader: R) -> Input<R>
        ensures { result.faults ≡ 0 }
    {
        Input {
            reader,
            faults: Faults::none(),
        }
    }
}

impl<R: io::Read> Source for Input<R> {
    ghost left = { λ _. None };

    ghost faults = { λ input. input.faults };

    fn take(&mut self, room: &mut [u8]) -> Result<usize, Failed>
        ensures within { IfOk result (λ count. count ≤ length room.old) }
        // promise 10: if the bytes are known, a take moves what the input loses, none only at its end or without room
        ensures bytes { ReadConsumes (R.remaining self.old.reader) (R.remaining self.new.reader)
            result room.new }
        // promise 9: a read of standard input counts a fault exactly if it says that it failed
        ensures faults { CountsFaults self.old.faults self.new.faults result }
    {
        match read_on(&mut self.reader, room) {
            Ok(count) => Ok(count),
            Err(_) => Err(self.faults.fail()),
        }
    }
}
