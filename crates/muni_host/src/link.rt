//! A stream as a connection.

ghost use Rattle.std.specs.Prelude.{◌≡◌, ◌≤◌, length, None, IfOk, refl};
ghost use Rattle.std.specs.Io.KnownBytes.{ReadConsumes};
ghost use Rattle.muni_host.specs.Bytes.{AppendsPiece};
ghost use Rattle.muni_edge.specs.Faults.{CountsFaults};

use crate::reading::read_on;
use crate::writing::write_on;
use muni_edge::{Failed, Faults, Link, Sink, Source};
use std::io::{Read, Write};

/// Bytes are taken from the stream as they come, and put to it at once. It does not tell them.
#[derive(Drop)]
pub struct StreamLink<S> {
    stream: S,
    read_faults: Faults,
    write_faults: Faults,
}

impl<S> StreamLink<S> {
    /// A connection that reads from `stream` and writes to it.
    pub fn new(stream: S) -> StreamLink<S>
        ensures reads { result.read_faults ≡ 0 }
        ensures writes { result.write_faults ≡ 0 }
    {
        StreamLink {
            stream,
            read_faults: Faults::none(),
            write_faults: Faults::none(),
        }
    }

    /// The stream itself.
    pub(crate) fn into_stream(self) -> S
        ensures { result ≡ self.stream }
    {
        self.stream
    }
}

impl<S: Read> Source for StreamLink<S> {
    ghost left = { λ _. None };

    ghost faults = { λ link. link.read_faults };

    ghost take_keeps = { λ old new. new.write_faults ≡ old.write_faults };

    fn take(&mut self, room: &mut [u8]) -> Result<usize, Failed>
        ensures within { IfOk result (λ count. count ≤ length room.old) }
        // promise 10: if the bytes are known, a take moves what the connection loses
        ensures bytes { ReadConsumes (S.remaining self.old.stream) (S.remaining self.new.stream)
            result room.new }
        // promise 9: a read of a connection counts a fault exactly if it says that it failed
        ensures faults { CountsFaults self.old.read_faults self.new.read_faults result }
        ensures keeps { self.new.write_faults ≡ self.old.write_faults }
    {
        match read_on(&mut self.stream, room) {
            Ok(count) => Ok(count),
            Err(_) => Err(self.read_faults.fail()),
        }
    }
}

impl<S: Write> Sink for StreamLink<S> {
    ghost bytes = { λ _. None };

    ghost faults = { λ link. link.write_faults };

    ghost put_keeps = { λ old new. new.read_faults ≡ old.read_faults };

    fn put(&mut self, piece: &[u8]) -> Result<(), Failed>
        // promise 9: if the bytes are known, a put appends the piece, and after a failure a front part of it
        ensures bytes { AppendsPiece (S.contents self.old.stream) (S.contents self.new.stream)
            result piece.now }
        // promise 9: a write of a connection counts a fault exactly if it says that it failed
        ensures faults { CountsFaults self.old.write_faults self.new.write_faults result }
        ensures keeps { self.new.read_faults ≡ self.old.read_faults }
    {
        if write_on(&mut self.stream, piece).is_err() {
            return Err(self.write_faults.fail());
        }
        Ok(())
    }
}

impl<S: Read + Write> Link for StreamLink<S> {
    ghost take_keeps_bytes = { λ old new same. refl };

    ghost take_keeps_faults = { λ old new same. same };

    ghost put_keeps_left = { λ old new same. refl };

    ghost put_keeps_faults = { λ old new same. same };
}
