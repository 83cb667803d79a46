//! The words that the program was started with.

ghost use Rattle.std.specs.Prelude.{◌≡◌, ◌≢◌, drop, IfErr, IfOk};
ghost use Rattle.std.specs.IoError.{error_kind};
ghost use Rattle.std.specs.Vec.Iter.{into_iter_items};

use std::alloc::Global;
use std::env;
use std::env::Args;
use std::io::{Error, ErrorKind};
use thiserror::Error;

/// Why there are no words.
#[derive(Debug, Drop, Error)]
pub enum NoWords {
    #[error("out of memory")]
    NoMemory,
    /// A word is no text.
    #[error("a word is not text")]
    NoText,
}

/// The words after the program's own name.
pub fn words(rt: &HostRuntime) -> Result<Vec<String>, NoWords> {
    match env::args(rt) {
        Ok(args) => past_name(rt.alloc(), args),
        Err(error) => Err(unread(error)),
    }
}

fn past_name(alloc: Global, args: Args) -> Result<Vec<String>, NoWords>
    // promise 10: the words after the program's name are handed on as they came
    ensures rest { IfOk result (λ words. words.items ≡ drop 1 (into_iter_items args)) }
    // promise 9: there are none only if no memory is left
    ensures memory { IfErr result (λ fault. fault ≡ NoWords.NoMemory) }
{
    match args.skip(1).collect::<Vec<String>>(alloc) {
        Ok(words) => Ok(words),
        Err(_) => Err(NoWords::NoMemory),
    }
}

fn unread(error: Error) -> NoWords
    // promise 9: an error that is a lack of memory is told as one
    ensures memory { error_kind error ≡ ErrorKind.OutOfMemory → result ≡ NoWords.NoMemory }
    ensures other { error_kind error ≢ ErrorKind.OutOfMemory → result ≡ NoWords.NoText }
{
    if error.kind() == ErrorKind::OutOfMemory {
        NoWords::NoMemory
    } else {
        NoWords::NoText
    }
}
