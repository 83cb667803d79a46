//! The head of a request, in the bytes that have come.

ghost use Rattle.std.specs.Prelude.{◌≡◌, ◌≤◌, ◌<◌, ℕ, List, true, false, length, take, map, ◌++◌, IsUtf8};
ghost use Rattle.httparse.specs.Spans.{IsRequestWithin, header_bytes, span_bytes};
ghost use Rattle.muni_wire.specs.Head.{EndsInHead, head_limit};
ghost use Rattle.muni_wire.specs.Awaited as spec;
ghost use Rattle.muni_wire.specs.Taken.{IsSeenIn, IsWithinLimit};

use crate::length::body_length;
use crate::router::Routes;
use crate::routes::{Target, path_of};
use httparse::spans::{EMPTY_HEADER_SPAN, HeaderSpan, RequestSpans, parse_request};
use httparse::{Error, Status};
use muni_wire_body::{Bad, Form, Request};

/// What is to be done about a request, by its head alone.
#[derive(Drop)]
pub(crate) enum Awaited {
    Refuse(Bad),
    Ask(Request),
    /// A body of `size` bytes is to be read.
    Read { form: Form, size: usize },
}

/// What the bytes that have come are.
#[derive(Drop)]
pub(crate) enum Head {
    /// A whole head, which ends at a place.
    Whole { end: usize, plan: Awaited },
    /// More is to come.
    More,
    /// No further bytes can complete these into a head.
    Never,
    TooLarge,
}

impl Head {
    /// Whether no more is to be awaited after a take that gave `count` bytes.
    pub(crate) fn is_settled(&self, count: usize) -> bool
        ensures settled { result ≡ true → self.now ≡ Head.More → count ≡ 0 }
        ensures open { result ≡ false → (self.now ≡ Head.More) × (0 < count) }
    {
        match self {
            Head::More => count == 0,
            _ => true,
        }
    }
}

/// Looks at what has come. The answer stays right whatever comes after it.
pub(crate) fn look(routes: &Routes, bytes: &[u8]) -> Head
    requires limit { length bytes.now ≤ head_limit }

    ensures seen { IsSeenIn bytes.now result }
    ensures more { result ≡ Head.More → EndsInHead bytes.now }
{
    let mut headers = [EMPTY_HEADER_SPAN; 64];
    match parse_request(bytes, &mut headers) {
        Ok(Status::Complete(head)) => Head::Whole {
            end: head.len,
            plan: plan_for(routes, bytes, &head, &headers),
        },
        Ok(Status::Partial) => {
            if bytes.len() < 16_384 {
                Head::More
            } else {
                Head::TooLarge
            }
        }
        Err(Error::TooManyHeaders) => Head::TooLarge,
        Err(_) => Head::Never,
    }
}

fn plan_for(routes: &Routes, bytes: &[u8], head: &RequestSpans, headers: &[HeaderSpan]) -> Awaited
    requires head { IsRequestWithin bytes.now headers.now head.now }
    requires text { IsUtf8 (span_bytes bytes.now head.now.path) }

    ensures plan { result
        ≡ spec.plan_by (span_bytes bytes.now head.now.method) (span_bytes bytes.now head.now.path)
        (map (header_bytes bytes.now) (take head.now.headers headers.now)) }
    ensures limit { IsWithinLimit result }
{
    let method = head.method.of(bytes);
    match routes.find(path_of(head.path.of(bytes))) {
        None => Awaited::Refuse(Bad::NotFound),
        Some(Target::Get(request)) => {
            if method == b"GET".as_slice() {
                Awaited::Ask(request)
            } else {
                Awaited::Refuse(Bad::NotAllowed { post: false })
            }
        }
        Some(Target::Post(form)) => {
            if method != b"POST".as_slice() {
                return Awaited::Refuse(Bad::NotAllowed { post: true });
            }
            match body_length(bytes, &headers[..head.headers]) {
                Ok(size) => Awaited::Read { form, size },
                Err(bad) => Awaited::Refuse(bad),
            }
        }
    }
}
