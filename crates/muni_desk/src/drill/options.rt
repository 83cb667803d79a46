//! The options of `drill`.

ghost use Rattle.std.specs.Prelude.{◌≡◌, ◌≤◌, map, IfSome, string_bytes};
ghost use Rattle.muni_desk.specs.DrillOptions as spec;

use crate::command::{CommandLine, DeskCommand};
use crate::drill::DrillCount;
use crate::words::{WORKERS, are_options, value_of};
use muni_book::Workers;
use muni_dec::digits::read_number;

const COUNT: &[u8] = b"--count=";

const SEED: &[u8] = b"--seed=";

const NAMES: [&[u8]; 3] = [COUNT, SEED, WORKERS];

/// A book of trades that is generated from a number.
#[derive(Clone, Copy)]
pub struct DrillRequest {
    /// The first state of the generator.
    pub seed: u64,
    pub count: DrillCount,
}

/// What words ask for, if they are options of `drill`, in any order.
pub fn read_drill(words: &[String]) -> Option<CommandLine>
    ensures { result ≡ spec.drill_of (map string_bytes words.now) }
{
    if !are_options(words, &NAMES, &NAMES) {
        return None;
    }
    let count = DrillCount::new(read_number_of(words, COUNT, 0, 1_000)?);
    let seed = read_number_of(words, SEED, 0, u64::MAX)?;
    let workers = Workers::new(read_number_of(words, WORKERS, 1, 16)? as u32);
    Some(CommandLine {
        command: DeskCommand::Drill(DrillRequest { seed, count }),
        workers,
    })
}

fn read_number_of(words: &[String], name: &[u8], least: u64, greatest: u64) -> Option<u64>
    ensures value { result
        ≡ spec.number_of name.now least greatest (map string_bytes words.now) }
    ensures range { IfSome result (λ number. (least ≤ number) × (number ≤ greatest)) }
{
    read_number(value_of(words, name)?, 20, least, greatest)
}
