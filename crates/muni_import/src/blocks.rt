//! The rows of a text that comes a piece at a time.

ghost use Rattle.std.specs.Prelude.{◌≡◌, ◌++◌, ◌∷◌, [], IfOk, OnErr};
ghost use Rattle.muni_import.specs.Blocks.{CutsOff, CutsRecords};

use crate::place::Place;
use muni_edge::NoMemory;
use std::alloc::Global;
use std::marker::Model;
use std::mem;

/// The rows of a text that comes a piece at a time. Only a row that is not whole yet is held. A
/// contract sees it as a text of its own.
#[derive(Drop)]
pub struct RowBlocks {
    alloc: Global,
    held: Vec<u8>,
    place: Place,
}

impl Model for RowBlocks {
    ghost use Rattle.std.specs.Prelude.{List, ℕ};
    ghost use Rattle.muni_import.specs.Blocks.{IsHeld};

    ghost Value = { List ℕ };

    ghost view = { λ b. b.held.items };

    ghost invariant = { λ b. IsHeld b.place b.held.items };
}

impl RowBlocks {
    /// Before a text.
    pub fn new(alloc: Global) -> RowBlocks
        ensures { result ≡ [] }
    {
        RowBlocks {
            alloc,
            held: Vec::new(alloc),
            place: Place::Start,
        }
    }

    /// The rows that are whole with one piece more, as a text of their own.
    ///
    /// Out of memory is the only refusal, and nothing is taken then.
    pub fn add(&mut self, piece: &[u8]) -> Result<Vec<u8>, NoMemory>
        // promise 5: a text is cut after its rows, wherever its bytes come
        ensures cuts { IfOk result (λ block. CutsOff (self.old ++ piece.now) block.items self.new) }
        ensures records { IfOk result (λ block. CutsRecords (self.old ++ piece.now) block.items self.new) }
        ensures refused { OnErr result (self.new ≡ self.old) }
    {
        let mut place = self.place;
        let end = place.pass(piece);
        if end == 0 {
            self.held.extend_from_slice(piece)?;
            self.place = place;
            return Ok(Vec::new(self.alloc));
        }
        let (whole, rest) = piece.split_at(end);
        let begun = begin(self.alloc, rest)?;
        self.held.extend_from_slice(whole)?;
        self.place = place;
        Ok(mem::replace(&mut self.held, begun))
    }

    /// What is held at the end of the text: one row at most.
    pub fn rest(self) -> Vec<u8>
        ensures { result.items ≡ self }
    {
        self.held
    }
}

// Bytes after a row. An empty line comes before them, so that they do not begin with a mark of a byte order.
fn begin(alloc: Global, bytes: &[u8]) -> Result<Vec<u8>, NoMemory>
    ensures { IfOk result (λ text. text.items ≡ 10 ∷ bytes.now) }
{
    let mut text = Vec::new(alloc);
    text.extend_from_slice(b"\n")?;
    text.extend_from_slice(bytes)?;
    Ok(text)
}
