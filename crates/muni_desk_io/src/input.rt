//! A whole input.

ghost use Rattle.std.specs.Prelude.{◌≤◌, ◌<◌, ◌+◌, ◌-◌, ◌^◌, vec_len, IfOk, IfErr};
ghost use Rattle.muni_desk_io.specs.Input.{AddsTaken, CountsReads, IsNotTooLarge, ReadsAll, TakesUpTo};

use muni_edge::{Failed, Source};
use std::alloc::Global;
use thiserror::Error;

/// Why there is no input.
#[derive(Clone, Copy, Debug, PartialEq, Eq, Error)]
pub enum InputFault {
    /// The source failed.
    #[error("the input could not be read")]
    Failed,
    /// It has more bytes than it may have.
    #[error("the input is too long")]
    TooLarge,
    /// No memory was left.
    #[error("out of memory")]
    NoMemory,
}

/// All bytes of a source, up to its end, where there are at most `limit`.
pub fn read_input<I: Source>(
    alloc: Global,
    source: &mut I,
    limit: usize,
) -> Result<Vec<u8>, InputFault>
    requires { limit < 2 ^ 32 }
    ensures { ReadsAll I.Source limit result (λ bytes. bytes.items) source.old source.new }
{
    let mut bytes = Vec::new(alloc);
    for turn in 0..limit + 2 {
        // Proofs alone read the turn.
        let _turn = turn;
        if bytes.len() > limit {
            return Err(InputFault::TooLarge);
        }
        if take_more(source, &mut bytes, limit)? == 0 {
            return Ok(bytes);
        }
    }
    // Each turn takes a byte at least, so the last one finds too many bytes.
    unreachable!()
}

// Adds the next bytes, up to the first byte past the limit.
fn take_more<I: Source>(
    source: &mut I,
    bytes: &mut Vec<u8>,
    limit: usize,
) -> Result<usize, InputFault>
    requires limit { limit < 2 ^ 32 }
    requires room { vec_len bytes.old ≤ limit }
    ensures adds { IfOk result (λ count.
        AddsTaken I.Source limit count bytes.old.items bytes.new.items source.old source.new) }
    ensures limited { TakesUpTo I.Source (limit + 1 - vec_len bytes.old) source.old source.new }
    ensures counts { CountsReads result (I.faults source.old) (I.faults source.new) }
    ensures later { I.faults source.old ≤ I.faults source.new }
    ensures others { IfErr result (λ fault. IsNotTooLarge fault) }
{
    let mut room = [0u8; 4096];
    let size = (limit + 1 - bytes.len()).min(4096);
    match source.take(&mut room[..size]) {
        Ok(count) => match bytes.extend_from_slice(&room[..count]) {
            Ok(()) => Ok(count),
            Err(_) => Err(InputFault::NoMemory),
        },
        Err(Failed) => Err(InputFault::Failed),
    }
}
