//! Looks at a store, and checks by it, at whose calls its keeper fails.

use super::faults::{CALLS, IMPORT, ROWS};
use super::{Failing, NONE_FAILS, ask_both};
use std::test::Fail;

const SERVE: &str = "serve --store=S --port=8080 --connections=2";

// Requests, and how often each asks the keeper.
const REQUESTS: &[(&[u8], u8)] = &[
    (b"GET /issues/123456AA3 HTTP/1.1\r\n\r\n", 1),
    (b"GET /trades/ALPHA/T0001/1 HTTP/1.1\r\n\r\n", 2),
    (b"GET /positions/ALPHA HTTP/1.1\r\n\r\n", 2),
    (b"GET /latest/ALPHA HTTP/1.1\r\n\r\n", 2),
    (
        b"POST /checks HTTP/1.1\r\nContent-Length: 54\r\n\r\n{\"desk\":\"ALPHA\",\"reference\":\"T0001\",\"price\":\"100.725\"}",
        2,
    ),
];

const UNAVAILABLE: &[u8] = b"HTTP/1.1 503 Service Unavailable\r
Content-Type: text/plain\r
Content-Length: 24\r
Connection: close\r
\r
503 Service Unavailable
";

const SUCCESS: &[u8] = b"HTTP/1.1 200 OK\r\n";

#[test]
fn a_look_at_which_the_keeper_fails_is_unavailable_and_answered_on_the_next_link(
    rt: HostRuntime,
) -> Result<(), Fail> {
    for (request, calls) in REQUESTS {
        for call in 0..*calls {
            let at = [CALLS + u64::from(call)];
            let failing = Failing {
                calls: &at,
                ..NONE_FAILS
            };
            let (_, outcome) = ask_both(
                &rt,
                rt.alloc(),
                [failing, NONE_FAILS],
                (IMPORT, ROWS),
                (SERVE, *request),
            )?;
            let served = outcome.door.served();
            let first = served.first().ok_or("a link")?;
            let next = served.get(1).ok_or("another link")?;
            assert_eq!(rt; first.written(), UNAVAILABLE, "call {call}");
            assert!(rt; next.written().starts_with(SUCCESS), "call {call}");
        }
    }
    Ok(())
}
