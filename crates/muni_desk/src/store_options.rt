//! The options of the commands over a store.

ghost use Rattle.std.specs.Prelude.{◌≡◌, map, string_bytes};
ghost use Rattle.std.specs.Char.{is_ascii_graphic};
ghost use Rattle.std.specs.List.{list_all};
ghost use Rattle.muni_desk.specs.StoreOptions as spec;

use crate::command::{CommandLine, DeskCommand};
use crate::quote_options::read_workers;
use crate::words::{RISK, WORKERS, are_options, are_options_beside, has_word, value_of};
use arrayvec::ArrayVec;
use muni_book::Workers;
use muni_dec::digits::read_number;
use muni_desk_export::Wanted;
use muni_figures::FiguresOptions;
use muni_msg::{DeskLimit, DeskName, Key, Reference};

const STORE: &[u8] = b"--store=";

const DESK: &[u8] = b"--desk=";

const REF: &[u8] = b"--ref=";

const PORT: &[u8] = b"--port=";

const CONNECTIONS: &[u8] = b"--connections=";

const POSITIONS_OF: &[u8] = b"--positions=";

const DESK_LIMIT: &[u8] = b"--desk-limit=";

const IMPORT: [&[u8]; 4] = [STORE, WORKERS, POSITIONS_OF, DESK_LIMIT];

const LOAD: [&[u8]; 2] = [STORE, DESK_LIMIT];

const CONFIRM: [&[u8]; 3] = [STORE, DESK, REF];

const OF_DESK: [&[u8]; 2] = [STORE, DESK];

const OF_STORE: [&[u8]; 1] = [STORE];

const ALL: &[u8] = b"--all";

const ISSUES: &[u8] = b"--issues";

const FROM: &[u8] = b"--from=";

const HEADER: &[u8] = b"--header";

const FIGURES: [&[u8]; 3] = [STORE, WORKERS, FROM];

const SERVE: [&[u8]; 5] = [STORE, PORT, CONNECTIONS, WORKERS, DESK_LIMIT];

/// What words ask for, where they are options of `import`, in any order.
pub fn read_import(words: &[String]) -> Option<CommandLine>
    ensures { result ≡ spec.import_of (map string_bytes words.now) }
{
    if !are_options(words, &IMPORT, &IMPORT) {
        return None;
    }
    let store = read_store(words)?;
    let listed = read_maybe_desk(words, POSITIONS_OF)?;
    let workers = read_workers(words)?;
    let limit = read_limit(words)?;
    Some(CommandLine {
        command: DeskCommand::Import {
            store,
            listed,
            limit,
        },
        workers,
    })
}

// The desk that an option names, if it is there.
fn read_maybe_desk(words: &[String], option: &[u8]) -> Option<Option<DeskName>>
    ensures { result ≡ spec.maybe_desk_of option.now (map string_bytes words.now) }
{
    match value_of(words, option) {
        Some(text) => Some(Some(DeskName::read(text).ok()?)),
        None => Some(None),
    }
}

/// What words ask for, where they are options of `confirm`, for one trade or by `--all` for those of a desk, in
/// any order.
#[tactic(auto, using(crate::proofs::WordsLemmas::word_strings))]
pub fn read_confirm(words: &[String]) -> Option<CommandLine>
    ensures { result ≡ spec.confirm_of (map string_bytes words.now) }
{
    if has_word(words, ALL) {
        read_confirm_all(words)
    } else {
        read_confirm_one(words)
    }
}

fn read_confirm_one(words: &[String]) -> Option<CommandLine>
    ensures { result ≡ spec.confirm_one_of (map string_bytes words.now) }
{
    if !are_options(words, &CONFIRM, &CONFIRM) {
        return None;
    }
    let store = read_store(words)?;
    let desk = read_desk(words)?;
    let reference = read_reference(words)?;
    Some(CommandLine {
        command: DeskCommand::Confirm {
            store,
            key: Key { desk, reference },
        },
        workers: Workers::ONE,
    })
}

fn read_confirm_all(words: &[String]) -> Option<CommandLine>
    ensures { result ≡ spec.confirm_all_of (map string_bytes words.now) }
{
    if !are_options_beside(words, &[ALL], &OF_DESK, &OF_DESK) {
        return None;
    }
    let store = read_store(words)?;
    let desk = read_desk(words)?;
    Some(wanted_line(store, Wanted::Confirmations(desk)))
}

/// What words ask for, where they are options of `serve`, in any order.
pub fn read_serve(words: &[String]) -> Option<CommandLine>
    ensures { result ≡ spec.serve_of (map string_bytes words.now) }
{
    if !are_options(words, &SERVE, &SERVE) {
        return None;
    }
    let store = read_store(words)?;
    let port = read_port(words)?;
    let connections = read_connections(words)?;
    let workers = read_workers(words)?;
    let limit = read_limit(words)?;
    Some(CommandLine {
        command: DeskCommand::Serve {
            store,
            port,
            connections,
            limit,
        },
        workers,
    })
}

/// What words ask for, where they are options of `positions`, in any order.
pub fn read_positions(words: &[String]) -> Option<CommandLine>
    ensures { result ≡ spec.positions_of (map string_bytes words.now) }
{
    if !are_options(words, &OF_DESK, &OF_DESK) {
        return None;
    }
    let store = read_store(words)?;
    let desk = read_desk(words)?;
    Some(CommandLine {
        command: DeskCommand::Positions { store, desk },
        workers: Workers::ONE,
    })
}

/// What words ask for, where they are options of `load`, in any order.
pub fn read_load(words: &[String]) -> Option<CommandLine>
    ensures { result ≡ spec.load_of (map string_bytes words.now) }
{
    if !are_options(words, &LOAD, &LOAD) {
        return None;
    }
    let store = read_store(words)?;
    let limit = read_limit(words)?;
    Some(CommandLine {
        command: DeskCommand::Load { store, limit },
        workers: Workers::ONE,
    })
}

/// What words ask for, where they are options of `mark`.
pub fn read_mark(words: &[String]) -> Option<CommandLine>
    ensures { result ≡ spec.mark_of (map string_bytes words.now) }
{
    if !are_options(words, &OF_STORE, &OF_STORE) {
        return None;
    }
    let store = read_store(words)?;
    Some(CommandLine {
        command: DeskCommand::Mark { store },
        workers: Workers::ONE,
    })
}

/// What words ask for, where they are options of `figures` and perhaps `--header` and `--risk`, in any order.
#[tactic(auto, using(crate::proofs::WordsLemmas::word_strings))]
pub fn read_figures(words: &[String]) -> Option<CommandLine>
    ensures { result ≡ spec.figures_of (map string_bytes words.now) }
{
    if !are_options_beside(words, &[HEADER, RISK], &FIGURES, &FIGURES) {
        return None;
    }
    let store = read_store(words)?;
    let first = read_first(words)?;
    let workers = read_workers(words)?;
    let options = FiguresOptions {
        first,
        has_header: has_word(words, HEADER),
        has_risk: has_word(words, RISK),
    };
    Some(CommandLine {
        command: DeskCommand::Figures { store, options },
        workers,
    })
}

/// What words ask for, if they are options of `check`, in any order. Without any the rows have the terms of
/// their issues.
pub fn read_check(words: &[String]) -> Option<CommandLine>
    ensures { result ≡ spec.check_of (map string_bytes words.now) }
{
    if words.is_empty() {
        return Some(CommandLine {
            command: DeskCommand::CheckAlone,
            workers: Workers::ONE,
        });
    }
    if !are_options(words, &OF_DESK, &OF_DESK) {
        return None;
    }
    let store = read_store(words)?;
    let desk = read_maybe_desk(words, DESK)?;
    Some(CommandLine {
        command: DeskCommand::Check { store, desk },
        workers: Workers::ONE,
    })
}

// The place of the first row: 1 if no number is given.
fn read_first(words: &[String]) -> Option<u64>
    ensures { result ≡ spec.first_of (map string_bytes words.now) }
{
    match value_of(words, FROM) {
        Some(text) => read_number(text, 20, 1, 9_223_372_036_854_775_807),
        None => Some(1),
    }
}

/// What words ask for, where they are options of `export` and perhaps `--issues`, in any order.
pub fn read_export(words: &[String]) -> Option<CommandLine>
    ensures { result ≡ spec.export_of (map string_bytes words.now) }
{
    if !are_options_beside(words, &[ISSUES], &OF_DESK, &OF_DESK) {
        return None;
    }
    let store = read_store(words)?;
    let wanted = read_wanted(words)?;
    Some(wanted_line(store, wanted))
}

// A desk, or the issues alone, or everything if neither is given.
#[tactic(auto, using(crate::proofs::WordsLemmas::word_strings))]
fn read_wanted(words: &[String]) -> Option<Wanted>
    ensures { result ≡ spec.wanted_of (map string_bytes words.now) }
{
    match (has_word(words, ISSUES), value_of(words, DESK)) {
        (true, Some(_)) => None,
        (true, None) => Some(Wanted::Issues),
        (false, Some(text)) => Some(Wanted::Desk(DeskName::read(text).ok()?)),
        (false, None) => Some(Wanted::Everything),
    }
}

/// What words ask for, where they are options of `list`, in any order.
pub fn read_list(words: &[String]) -> Option<CommandLine>
    ensures { result ≡ spec.list_of (map string_bytes words.now) }
{
    if !are_options(words, &OF_DESK, &OF_DESK) {
        return None;
    }
    let store = read_store(words)?;
    let desk = read_desk(words)?;
    Some(wanted_line(store, Wanted::List(desk)))
}

/// What words ask for, where they are options of `check-store`.
pub fn read_check_store(words: &[String]) -> Option<CommandLine>
    ensures { result ≡ spec.check_store_of (map string_bytes words.now) }
{
    if !are_options(words, &OF_STORE, &OF_STORE) {
        return None;
    }
    let store = read_store(words)?;
    Some(wanted_line(store, Wanted::Counts))
}

// The line of a command that writes what a store keeps.
fn wanted_line(store: ArrayVec<u8, 200>, wanted: Wanted) -> CommandLine
    ensures command { result.command ≡ DeskCommand.Export store wanted }
    ensures workers { result.workers ≡ 1 }
{
    CommandLine {
        command: DeskCommand::Export { store, wanted },
        workers: Workers::ONE,
    }
}

fn read_store(words: &[String]) -> Option<ArrayVec<u8, 200>>
    ensures { result ≡ spec.store_of (map string_bytes words.now) }
{
    store_name(value_of(words, STORE)?)
}

fn read_desk(words: &[String]) -> Option<DeskName>
    ensures { result ≡ spec.desk_of (map string_bytes words.now) }
{
    DeskName::read(value_of(words, DESK)?).ok()
}

fn read_reference(words: &[String]) -> Option<Reference>
    ensures { result ≡ spec.reference_of (map string_bytes words.now) }
{
    Reference::read(value_of(words, REF)?).ok()
}

fn read_port(words: &[String]) -> Option<u16>
    ensures { result ≡ spec.port_of (map string_bytes words.now) }
{
    Some(read_number(value_of(words, PORT)?, 20, 1, 65_535)? as u16)
}

fn read_connections(words: &[String]) -> Option<u32>
    ensures { result ≡ spec.connections_of (map string_bytes words.now) }
{
    Some(read_number(value_of(words, CONNECTIONS)?, 20, 1, 1_000_000)? as u32)
}

// How many trades a desk may have: 100,000 if no number is given.
fn read_limit(words: &[String]) -> Option<DeskLimit>
    ensures { result ≡ spec.limit_of (map string_bytes words.now) }
{
    match value_of(words, DESK_LIMIT) {
        Some(text) => Some(DeskLimit::new(read_number(text, 20, 1, 100_000_000)? as u32)),
        None => Some(DeskLimit::USUAL),
    }
}

fn is_graphic(text: &[u8]) -> bool
    ensures { result ≡ list_all is_ascii_graphic text.now }
{
    text.iter().all(|b| b.is_ascii_graphic())
}

fn store_name(text: &[u8]) -> Option<ArrayVec<u8, 200>>
    ensures { result ≡ spec.store_reading text.now }
{
    if text.len() > 200 || !is_graphic(text) || text == b"journal:".as_slice() {
        return None;
    }
    let mut store = ArrayVec::new();
    let _ = store.try_extend_from_slice(text);
    Some(store)
}
