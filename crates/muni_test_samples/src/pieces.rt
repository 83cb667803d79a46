//! A connection whose bytes come in pieces of one size.

ghost use Rattle.std.specs.Prelude.{◌≡◌, ◌<◌, ◌≤◌, length, max, None, IfOk};
ghost use Rattle.muni_edge.specs.Faults.{CountsFaults};

use muni_edge::{Failed, Link, MemLink, Sink, Source};

/// A connection in memory that hands over a limited number of bytes at a time.
#[derive(Drop)]
pub struct Pieces {
    link: MemLink,
    size: usize,
}

impl Pieces {
    /// A connection over one in memory, by pieces of at least one byte.
    pub fn new(link: MemLink, size: usize) -> Pieces
        ensures { result.size ≡ size }
    {
        Pieces { link, size }
    }

    /// What was written to it.
    pub fn written(&self) -> &[u8] {
        self.link.written()
    }
}

impl Source for Pieces {
    ghost left = { λ _. None };

    ghost faults = { λ pieces. pieces.link.source.calls.faults };

    ghost take_keeps = { λ old new. new.link.sink ≡ old.link.sink };

    fn take(&mut self, room: &mut [u8]) -> Result<usize, Failed>
        requires { 0 < length room.old }

        ensures within { IfOk result (λ count. count ≤ length room.old) }
        ensures few { IfOk result (λ count. count ≤ max 1 self.old.size) }
        ensures size { self.new.size ≡ self.old.size }
        ensures keeps { self.new.link.sink ≡ self.old.link.sink }
        ensures counts { CountsFaults self.old.link.source.calls.faults
            self.new.link.source.calls.faults result }
    {
        let size = self.size.min(room.len()).max(1);
        self.link.take(&mut room[..size])
    }
}

impl Sink for Pieces {
    ghost bytes = { λ _. None };

    ghost faults = { λ pieces. pieces.link.sink.calls.faults };

    ghost put_keeps = { λ old new. new.link.source ≡ old.link.source };

    fn put(&mut self, piece: &[u8]) -> Result<(), Failed> {
        self.link.put(piece)
    }
}

impl Link for Pieces {
    ghost use Rattle.std.proofs.Common.{ap, refl};

    ghost take_keeps_bytes = { λ old new same. refl };

    ghost take_keeps_faults = { λ old new same. ap (λ sink. sink.calls.faults) same };

    ghost put_keeps_left = { λ old new same. refl };

    ghost put_keeps_faults = { λ old new same. ap (λ source. source.calls.faults) same };
}
