//! The command `help`: a line for each command of the finished program.

ghost use Rattle.std.specs.Prelude.{◌≡◌, map, string_bytes};
ghost use Rattle.muni_desk.specs.Help as spec;

use crate::command::{CommandLine, DeskCommand};
use arrayvec::ArrayVec;
use muni_book::Workers;
use muni_dec::text::push;

const TEXT: &[u8] = b"quote-one COUPON NEXT SETTLE REDEMPTION YIELD\n\
quote --kind --dated --maturity --settle --yield|--price|--rate --first --coupon --call --par --workers --days --each --risk\n\
import --store --workers --positions --desk-limit\n\
confirm --store --desk --ref|--all\n\
serve --store --port --connections --workers --desk-limit\n\
drill --count --seed --workers\n\
positions --store --desk\n\
mark --store\n\
export --store --desk --issues\n\
list --store --desk\n\
load --store --desk-limit\n\
check-store --store\n\
figures --store --workers --from --header --risk\n\
check --store --desk\n\
help\n";

/// What is asked for if there are no words.
pub fn read_help(words: &[String]) -> Option<CommandLine>
    ensures { result ≡ spec.help_of (map string_bytes words.now) }
{
    if !words.is_empty() {
        return None;
    }
    Some(CommandLine {
        command: DeskCommand::Help,
        workers: Workers::ONE,
    })
}

/// A line for each command, with its options.
pub fn help_text() -> ArrayVec<u8, 1024>
    ensures { result.items ≡ spec.help_text }
{
    let mut text = ArrayVec::new();
    push(&mut text, TEXT);
    text
}
