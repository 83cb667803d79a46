//! The program: the words that it was started with, the real input and output, cabinets of files and of
//! journals, a door on this machine, and the encloser.
#![tactic(auto)]

ghost use Rattle.std.specs.Prelude.{◌≡◌, true, false, map, string_bytes};
ghost use Rattle.muni_desk.specs.Command.{is_check, only_reads};

use muni_desk::{Status, desk, is_check, only_reads};
use muni_edge::NoGate;
use muni_host::file::Missing;
use muni_host::{FileShelf, Input, LoopbackDoor, NoWords, Output, words};
use muni_journal::JournalCabinet;
use muni_keep::Either;
use muni_multi::Doubling;
use muni_store::{SqlCabinet, Trust};
use std::io;
use std::io::Input as _;
use std::process::ExitCode;

fn main(rt: HostRuntime) -> ExitCode {
    let status = match words(&rt) {
        Ok(words) => {
            let mut input = Input::new(rt.reader());
            let mut output = Output::new(io::writer(&rt));
            let missing = missing_of(&words);
            let journals = JournalCabinet::new(rt.alloc(), FileShelf::new(&rt, missing));
            let stores = SqlCabinet::new(&rt, trust_of(&words), missing);
            let mut cabinet = Either::new(stores, journals);
            let mut door = LoopbackDoor::new(&rt);
            desk(
                &rt,
                rt.alloc(),
                &words,
                &mut input,
                &mut output,
                &mut cabinet,
                &mut door,
                &Doubling,
                &NoGate,
            )
        }
        Err(fault) => without_words(fault),
    };
    ExitCode::from(status.number())
}

/// What the files of stores are trusted by. A check trusts nothing.
fn trust_of(words: &[String]) -> Trust
    // promise 8: a check of a store trusts no seal
    ensures check { is_check (map string_bytes words.now) ≡ true → result ≡ Trust.Nothing }
    ensures other { is_check (map string_bytes words.now) ≡ false → result ≡ Trust.Seal }
{
    if is_check(words) {
        Trust::Nothing
    } else {
        Trust::Seal
    }
}

/// What becomes of a store that is not there. A command that only reads makes none.
fn missing_of(words: &[String]) -> Missing
    ensures reader { only_reads (map string_bytes words.now) ≡ true → result ≡ Missing.Refused }
    ensures other { only_reads (map string_bytes words.now) ≡ false → result ≡ Missing.Made }
{
    if only_reads(words) {
        Missing::Refused
    } else {
        Missing::Made
    }
}

/// The status if there are no words: a word that is not text is no command.
fn without_words(fault: NoWords) -> Status
    // promise 9: no words for lack of memory end with status 8
    ensures memory { fault ≡ NoWords.NoMemory → result ≡ Status.NoMemory }
    // promise 9: a word that is no text ends with status 2
    ensures no_text { fault ≡ NoWords.NoText → result ≡ Status.Usage }
{
    match fault {
        NoWords::NoMemory => Status::NoMemory,
        NoWords::NoText => Status::Usage,
    }
}
