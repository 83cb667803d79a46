//! Standard output as a sink.

ghost use Rattle.std.specs.Prelude.{◌≡◌, None};
ghost use Rattle.muni_host.specs.Bytes.{AppendsPiece};
ghost use Rattle.muni_edge.specs.Faults.{CountsFaults};

use crate::writing::write_on;
use muni_edge::{Failed, Faults, Sink};
use std::io;

/// What is written goes to the writer at once. It does not tell what it holds.
#[derive(Drop)]
pub struct Output<W> {
    writer: W,
    faults: Faults,
}

impl<W> Output<W> {
    /// A sink that writes to `writer`.
    pub fn new(writer: W) -> Output<W>
        ensures { result.faults ≡ 0 }
    {
        Output {
            writer,
            faults: Faults::none(),
        }
    }
}

impl<W: io::Write> Sink for Output<W> {
    ghost bytes = { λ _. None };

    ghost faults = { λ output. output.faults };

    fn put(&mut self, piece: &[u8]) -> Result<(), Failed>
        // promise 9: if the bytes are known, a put appends the piece, and after a failure a front part of it
        ensures bytes { AppendsPiece (W.contents self.old.writer) (W.contents self.new.writer)
            result piece.now }
        // promise 9: a write of standard output counts a fault exactly if it says that it failed
        ensures faults { CountsFaults self.old.faults self.new.faults result }
    {
        if write_on(&mut self.writer, piece).is_err() {
            return Err(self.faults.fail());
        }
        Ok(())
    }
}
