//! An input, a block of whole records at a time.

ghost use Rattle.std.specs.Prelude.{◌≡◌, [], false};
ghost use Rattle.muni_check.specs.Next.{GivesBlock};

use muni_desk_io::Fault;
use muni_edge::{Failed, Source};
use muni_import::RowBlocks;
use std::alloc::Global;
use std::mem;

/// The records of an input. Only a record that is not whole yet is held between blocks.
#[derive(Drop)]
pub(crate) struct Blocks {
    pub held: RowBlocks,
    /// The input is at its end, and nothing is held.
    pub ended: bool,
}

impl Blocks {
    /// Before an input.
    pub(crate) fn new(alloc: Global) -> Blocks
        ensures held { result.held ≡ [] }
        ensures ended { result.ended ≡ false }
    {
        Blocks {
            held: RowBlocks::new(alloc),
            ended: false,
        }
    }

    /// Takes the next piece of the input. Returns the records that are whole with it, as a text of their own, and at
    /// the end what is held.
    pub(crate) fn next<I: Source>(&mut self, alloc: Global, input: &mut I) -> Result<Vec<u8>, Fault>
        requires { self.old.ended ≡ false }
        ensures { GivesBlock I.Source result self.old self.new input.old input.new }
    {
        let mut room = [0u8; 16_384];
        match input.take(&mut room) {
            Ok(0) => {
                self.ended = true;
                let held = mem::replace(&mut self.held, RowBlocks::new(alloc));
                Ok(held.rest())
            }
            Ok(count) => Ok(self.held.add(&room[..count])?),
            Err(Failed) => Err(Fault::Read),
        }
    }
}
