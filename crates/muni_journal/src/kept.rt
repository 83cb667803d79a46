//! Puts on the tables of a journal.

ghost use Rattle.std.specs.Prelude.{◌≡◌, true, false, Some, None, Ok, OnOk, OnErr};
ghost use Rattle.std.specs.Option.{option_and_then};
ghost use Rattle.muni_journal_record.specs.Body.{put_of as spec_put_of};
ghost use Rattle.muni_journal.specs.Puts as spec;

use muni_journal_record::{Put, put_of, version_of_body};
use muni_keep::MemTables;
use std::alloc::AllocError;

/// Puts what a body holds if that meets its condition, and says whether it did.
#[tactic(auto, using(crate::proofs::PutLemmas::version_puts, crate::proofs::PutLemmas::put_puts))]
pub(crate) fn put_body(kept: &mut MemTables, body: &[u8]) -> Result<bool, AllocError>
    ensures put { result ≡ Ok true
        → option_and_then (spec.put_on kept.old) (spec_put_of body.now) ≡ Some kept.new }
    ensures refused { result ≡ Ok false
        → option_and_then (spec.put_on kept.old) (spec_put_of body.now) ≡ None }
{
    if let Some((key, number, version)) = version_of_body(body) {
        return kept.put_next(&key, number, &version);
    }
    match put_of(body) {
        Some(put) => put_next(kept, &put),
        None => Ok(false),
    }
}

/// Puts what meets its condition, and says whether it did.
fn put_next(kept: &mut MemTables, put: &Put) -> Result<bool, AllocError>
    ensures put { result ≡ Ok true → spec.put_on kept.old put.now ≡ Some kept.new }
    ensures refused { result ≡ Ok false → spec.put_on kept.old put.now ≡ None }
{
    match put {
        Put::Issue { number, issue } => kept.put_next_issue(*number, issue),
        Put::Version {
            key,
            number,
            version,
        } => kept.put_next(key, *number, version),
    }
}

/// Puts what meets its condition.
pub(crate) fn put_on(kept: &mut MemTables, put: &Put) -> Result<(), AllocError>
    requires { spec.is_next kept.old put.now ≡ true }
    ensures put { OnOk result (kept.new ≡ spec.after kept.old put.now) }
    ensures unchanged { OnErr result (kept.new ≡ kept.old) }
{
    match put {
        Put::Issue { number, issue } => kept.put_issue(*number, issue),
        Put::Version {
            key,
            number,
            version,
        } => kept.put_version(key, *number, version),
    }
}
