//! The commands, and the words that name them.

ghost use Rattle.std.specs.Prelude.{◌≡◌, map, string_bytes};
ghost use Rattle.muni_desk.specs.Command as spec;

use crate::drill::{DrillRequest, read_drill};
use crate::help::read_help;
use crate::one_period::{QuoteOneRequest, read_quote_one};
use crate::quote_options::read_quote;
use crate::request::QuoteRequest;
use crate::store_options::{
    read_check, read_check_store, read_confirm, read_export, read_figures, read_import, read_list,
    read_load, read_mark, read_positions, read_serve,
};
use arrayvec::ArrayVec;
use muni_book::Workers;
use muni_desk_export::Wanted;
use muni_figures::FiguresOptions;
use muni_msg::{DeskLimit, DeskName, Key, Shown};

/// What the desk can be asked for.
#[derive(Drop)]
pub enum DeskCommand {
    /// The price of a security in its last interest period.
    QuoteOne(QuoteOneRequest),
    /// The figures of a security, and what is to be shown after them.
    Quote {
        request: QuoteRequest,
        shown: Shown,
    },
    /// To apply the rows of the input to the tables of a store, and to list the positions of a desk
    /// after them if one is named. A name of a store has 1 to 200 printing bytes, and no blank.
    Import {
        store: ArrayVec<u8, 200>,
        listed: Option<DeskName>,
        limit: DeskLimit,
    },
    /// To apply the rows of an input of any length to the tables of a store.
    Load {
        store: ArrayVec<u8, 200>,
        limit: DeskLimit,
    },
    /// The confirmation of a trade that a store keeps.
    Confirm {
        store: ArrayVec<u8, 200>,
        key: Key,
    },
    /// What a desk holds of each security, by the trades that a store keeps.
    Positions {
        store: ArrayVec<u8, 200>,
        desk: DeskName,
    },
    /// What the rows of the input are worth, by the issues that a store keeps.
    Mark {
        store: ArrayVec<u8, 200>,
    },
    /// The figures of rows of any number, by the issues that a store keeps.
    Figures {
        store: ArrayVec<u8, 200>,
        options: FiguresOptions,
    },
    /// Whether figures that another firm printed are right, by the issues that a store keeps, and by the trades of
    /// a desk if one is named.
    Check {
        store: ArrayVec<u8, 200>,
        desk: Option<DeskName>,
    },
    /// Whether they are, each row by the terms of its issue that it states.
    CheckAlone,
    /// What a store keeps, as it is wanted.
    Export {
        store: ArrayVec<u8, 200>,
        wanted: Wanted,
    },
    /// To serve a number of connections that come in by a port, over the tables of a store.
    Serve {
        store: ArrayVec<u8, 200>,
        port: u16,
        connections: u32,
        limit: DeskLimit,
    },
    /// The sums over a generated book of trades.
    Drill(DrillRequest),
    /// What the program can be asked for.
    Help,
}

/// A command, and how it is to be done.
#[derive(Drop)]
pub struct CommandLine {
    pub command: DeskCommand,
    pub workers: Workers,
}

/// The command that words name: its name, and then its options.
pub fn read(words: &[String]) -> Option<CommandLine>
    ensures { result ≡ spec.command_of (map string_bytes words.now) }
{
    let (name, options) = words.split_first()?;
    match name.as_str() {
        "quote-one" => read_quote_one(options),
        "quote" => read_quote(options),
        "drill" => read_drill(options),
        "help" => read_help(options),
        other => read_over_store(other, options),
    }
}

// A command that reads an input or requests over a store, or one that only writes what it keeps.
fn read_over_store(name: &str, options: &[String]) -> Option<CommandLine>
    ensures { result ≡ spec.over_store_of name.now (map string_bytes options.now) }
{
    match name {
        "import" => read_import(options),
        "load" => read_load(options),
        "serve" => read_serve(options),
        "mark" => read_mark(options),
        "figures" => read_figures(options),
        "check" => read_check(options),
        other => read_of_kept(other, options),
    }
}

#[tactic(auto, unfolding(crate::specs::Command::of_kept_of))]
fn read_of_kept(name: &str, options: &[String]) -> Option<CommandLine>
    ensures { result ≡ spec.of_kept_of name.now (map string_bytes options.now) }
{
    match name {
        "confirm" => read_confirm(options),
        "positions" => read_positions(options),
        "export" => read_export(options),
        "list" => read_list(options),
        "check-store" => read_check_store(options),
        _ => None,
    }
}

/// Whether words ask for a check of a store, whatever its options are.
pub fn is_check(words: &[String]) -> bool
    ensures { result ≡ spec.is_check (map string_bytes words.now) }
{
    match words.first() {
        Some(name) => name.as_str() == "check-store",
        None => false,
    }
}

/// Whether words ask for a command that only reads what a store keeps, whatever its options are.
pub fn only_reads(words: &[String]) -> bool
    ensures { result ≡ spec.only_reads (map string_bytes words.now) }
{
    match words.first() {
        Some(name) => is_reader(name.as_str()),
        None => false,
    }
}

fn is_reader(name: &str) -> bool
    ensures { result ≡ spec.is_reader name.now }
{
    name == "confirm"
        || name == "positions"
        || name == "list"
        || name == "export"
        || name == "mark"
        || name == "figures"
        || name == "check"
        || name == "check-store"
}
