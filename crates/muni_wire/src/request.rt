//! One request of a connection.

ghost use Rattle.std.specs.Prelude.{◌≡◌, ◌≤◌, ◌<◌, ◌+◌, ◌-◌, drop, ◌++◌, length, IfSome, vec_len};
ghost use Rattle.muni_wire.specs.BodyLength.{body_limit};
ghost use Rattle.muni_wire.specs.Extent.{AwaitsMore, ReadsNoFurther, TakesAtMost, TakesOnlyWhile};
ghost use Rattle.muni_wire.specs.Faults.{TakesAndTells};
ghost use Rattle.muni_wire.specs.Head.{head_limit};
ghost use Rattle.muni_wire.specs.Laws.{IsTheAnswer};
ghost use Rattle.muni_wire.specs.Reading.{Allows};
ghost use Rattle.muni_wire.specs.Taken.{IsAnswerTo};

use crate::head::{Awaited, Head};
use crate::router::Routes;
use crate::taking::{fill, read_head};
use muni_edge::Link;
use muni_wire_body::{Bad, Form, Request, WireFault, read_body};
use std::alloc::Global;

/// Reads one request of HTTP/1.0 or HTTP/1.1 (RFC 9112), by all bytes of the connection, however
/// they come. Less than one piece of the bytes after the request may have been taken too, and no take is
/// made once the request is there.
///
/// If memory runs out nothing is said of the bytes.
#[tactic(auto, using(crate::proofs::UniqueLemmas::told_answer))]
pub fn read_request<L: Link>(
    routes: &Routes,
    alloc: Global,
    link: &mut L,
) -> Result<Request, WireFault>
    // promise 4: what is answered of a request is allowed by its bytes, however they are cut
    ensures allowed { IfSome (L.left link.old) (λ bytes. Allows bytes result) }
    // promise 4, 9: a bad request is the first fault of the bytes; Gone exactly if they end and no read failed
    ensures only { IfSome (L.left link.old) (λ bytes. IsTheAnswer bytes result) }
    // promise 10: no more is read than the head and its body, or 1,024 bytes after the head, or 16,384
    ensures no_further { ReadsNoFurther (L.left link.old) (L.left link.new) }
    // promise 10: it reads only while more of the request is awaited
    ensures ready { TakesOnlyWhile L.Source AwaitsMore link.old link.new }
    // promise 9: a fault of the connection is told only if its count of reads rose
    ensures takes { TakesAndTells L.Source L.Sink result link.old link.new }
{
    let (head, mut bytes) = read_head(routes, alloc, link)?;
    match head {
        Head::More => Err(WireFault::Gone),
        Head::Never => Err(WireFault::Bad(Bad::BadRequest)),
        Head::TooLarge => Err(WireFault::Bad(Bad::HeadTooLarge)),
        Head::Whole { end, plan } => match plan {
            Awaited::Refuse(bad) => Err(WireFault::Bad(bad)),
            Awaited::Ask(request) => Ok(request),
            Awaited::Read { form, size } => take_body(alloc, link, &mut bytes, end, form, size),
        },
    }
}

// Reads the body after a head that ends at a place of the bytes that were taken.
fn take_body<L: Link>(
    alloc: Global,
    link: &mut L,
    bytes: &mut Vec<u8>,
    end: usize,
    form: Form,
    size: usize,
) -> Result<Request, WireFault>
    requires inside { end ≤ vec_len bytes.old }
    requires head { end ≤ head_limit }
    requires body { size ≤ body_limit }

    ensures answer { IfSome (L.left link.old)
        (λ left. IsAnswerTo form size (drop end bytes.old.items ++ left) result) }
    ensures few { TakesAtMost (end + size - vec_len bytes.old) (L.left link.old) (L.left link.new) }
    ensures ready { TakesOnlyWhile L.Source (λ before. length bytes.old.items + length before < end + size)
        link.old link.new }
    ensures takes { TakesAndTells L.Source L.Sink result link.old link.new }
{
    fill(link, bytes, end + size)?;
    if bytes.len() < end + size {
        return Err(WireFault::Gone);
    }
    read_body(alloc, form, &bytes[end..end + size])
}
