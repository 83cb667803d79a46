//! The lines of an input, a block at a time.

ghost use Rattle.std.specs.Prelude.{◌≡◌, ◌≤◌, length, IfOk, OnErr};
ghost use Rattle.csv.specs.Reading.{strip_bom};
ghost use Rattle.muni_figures.specs.Blocks.{CutsOff, FillsOr, IsWhole, has_mark, Opens, ReadsOn, TakesBlock, TakesSome};

use muni_desk_io::Fault;
use muni_edge::{Failed, NoMemory, Source};
use std::alloc::Global;
use std::mem;

// A block has so many bytes if the input has, and the bytes of one take more at most.
const BLOCK: usize = 57_344;

// The bytes of a mark of the byte order.
const MARK: usize = 3;

// A begun line is held up to one byte more than a row may have, so that a line without an end does not grow.
const LONGEST_HELD: usize = 4_097;

/// How far an input was read.
#[derive(Clone, Copy, Debug, PartialEq, Eq)]
pub(crate) enum Reading {
    /// It may have bytes left.
    Open,
    /// It is at its end.
    Ended,
    /// It has failed, and is read no more.
    Failed,
}

/// The lines of an input, a block at a time. Only a line that is not whole yet is held between blocks.
#[derive(Drop)]
pub(crate) struct LineBlocks {
    pub held: Vec<u8>,
    pub reading: Reading,
}

impl LineBlocks {
    /// The lines of an input, which may begin with a mark of its byte order.
    pub(crate) fn open<I: Source>(alloc: Global, input: &mut I) -> Result<LineBlocks, Fault>
        ensures { Opens I.Source result input.old input.new }
    {
        let mut bytes = Vec::new(alloc);
        let reading = fill(input, &mut bytes, MARK)?;
        if let Reading::Failed = reading {
            return Err(Fault::Read);
        }
        match without_mark(&bytes).to_vec(alloc) {
            Ok(held) => Ok(LineBlocks { held, reading }),
            Err(_) => Err(Fault::NoMemory),
        }
    }

    /// The next lines that are whole, of 64 KB at most. After the end the last one is whole too.
    pub(crate) fn next<I: Source>(
        &mut self,
        alloc: Global,
        input: &mut I,
    ) -> Result<Vec<u8>, NoMemory>
        ensures block { IfOk result (λ block. TakesBlock I.Source self.old self.new block.items input.old input.new) }
        ensures refused { OnErr result (TakesSome I.Source input.old input.new) }
    {
        let mut block = mem::replace(&mut self.held, Vec::new(alloc));
        self.reading = read_on(self.reading, input, &mut block)?;
        if let Reading::Ended = self.reading {
            return Ok(block);
        }
        self.held = split_begun(&mut block)?;
        Ok(block)
    }
}

// Adds the bytes of a block, if the input was not read to its end and has not failed.
fn read_on<I: Source>(
    reading: Reading,
    input: &mut I,
    block: &mut Vec<u8>,
) -> Result<Reading, NoMemory>
    ensures read { IfOk result (λ now. ReadsOn I.Source reading now block.old.items block.new.items input.old input.new) }
    ensures refused { OnErr result (TakesSome I.Source input.old input.new) }
{
    match reading {
        Reading::Open => fill(input, block, BLOCK),
        Reading::Ended | Reading::Failed => Ok(reading),
    }
}

// Adds bytes of an input until there are so many, or it ends or fails.
fn fill<I: Source>(input: &mut I, bytes: &mut Vec<u8>, least: usize) -> Result<Reading, NoMemory>
    requires { least ≤ 57_344 }
    ensures { FillsOr I.Source least result bytes.old.items bytes.new.items input.old input.new }
{
    let mut room = [0u8; 8_192];
    while bytes.len() < least {
        match input.take(&mut room) {
            Ok(0) => return Ok(Reading::Ended),
            Ok(count) => bytes.extend_from_slice(&room[..count])?,
            Err(Failed) => return Ok(Reading::Failed),
        }
    }
    Ok(Reading::Open)
}

fn without_mark(bytes: &[u8]) -> &[u8]
    ensures { result.now ≡ strip_bom bytes.now }
{
    if has_mark(bytes) {
        &bytes[MARK..]
    } else {
        bytes
    }
}

fn has_mark(bytes: &[u8]) -> bool
    ensures { result ≡ has_mark bytes.now }
{
    bytes.len() >= MARK && bytes[0] == 0xef && bytes[1] == 0xbb && bytes[2] == 0xbf
}

// Takes the line that is begun off whole ones.
fn split_begun(block: &mut Vec<u8>) -> Result<Vec<u8>, NoMemory>
    ensures cuts { IfOk result (λ begun. CutsOff block.old.items block.new.items begun.items) }
    ensures few { IfOk result (λ begun. length begun.items ≤ 4_097) }
    ensures shorter { IfOk result (λ begun. length block.new.items ≤ length block.old.items) }
{
    let mut begun = block.split_off(whole_len(block))?;
    begun.truncate(LONGEST_HELD);
    Ok(begun)
}

// How many bytes come up to the end of the last line that ends among them.
fn whole_len(bytes: &[u8]) -> usize
    ensures { IsWhole bytes.now result }
{
    let mut end = bytes.len();
    while 0 < end && bytes[end - 1] != b'\n' {
        end -= 1;
    }
    end
}
