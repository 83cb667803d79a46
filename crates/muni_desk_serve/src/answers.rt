//! One connection.

ghost use Rattle.std.specs.Prelude.{◌≡◌};
ghost use Rattle.muni_answer.specs.Answers.{IsRightAnswer};
ghost use Rattle.muni_desk_serve.specs.Rules.{serving_rules};
ghost use Rattle.muni_desk_serve.specs.Answer as spec;
ghost use Rattle.muni_desk_serve.specs.Serves.{LeavesCounted, TakesRequest, WasServed, traffic};

use crate::checks::check;
use crate::looks::{look_up, write_seen};
use crate::served::Served;
use muni_book::{Book, BookFault, Calculator, details, step};
use muni_confirm::Details;
use muni_edge::{Failed, Gate, Link};
use muni_keep::{KeepFault, Keeper};
use muni_msg::Reply;
use muni_multi::Encloser;
use muni_wire::{
    HttpStatus, Routes, read_request, write_bad, write_reply, write_success, write_unavailable,
};
use muni_wire_body::{Request, WireFault};
use std::alloc::Global;
use std::thread::Threads;

/// Reads one request of a connection, applies it to the tables of a keeper, looks at them or checks a row by
/// them, and writes the answer.
///
/// What is no command is answered too, and so is a command at which the keeper fails: by 503. A
/// request that ends too early gets no answer, nor does one for which no memory is left; then the
/// tables stay as they are.
pub fn answer_one<R: Threads + Sync, L: Link, K: Keeper, E: Encloser + Sync, G: Gate + Sync>(
    book: &Book<'_, R, E, G>,
    routes: &Routes,
    alloc: Global,
    link: &mut L,
    keeper: &mut K,
) -> Served
    // What was answered, if the connection exposes its bytes and the keeper its tables.
    // promise 4, 5, 6: one connection gets the answer due to its bytes, or none, and the tables are those of its step
    ensures served { WasServed (serving_rules book.now.limit (E.ends book.now.calculator.now.encloser.now))
        (K.tables keeper.old) (K.faults keeper.old)
        (traffic L.left L.bytes L.Source.faults L.Sink.faults link.old) result
        (K.tables keeper.new) (K.faults keeper.new)
        (traffic L.left L.bytes L.Source.faults L.Sink.faults link.new) }
    // A take is made only while more of the request is awaited, and none after it.
    // promise 10: there is no wait once a whole request has come, and none after the answer
    ensures ready { TakesRequest L.Source link.old link.new }
    // promise 7, 9: 503 only if the keeper's count rose; a bad request leaves the keeper as it was
    ensures leaves { LeavesCounted K.Keeper L.Source L.Sink result keeper.old keeper.new link.old link.new }
{
    let request = match read_request(routes, alloc, link) {
        Ok(request) => request,
        Err(WireFault::Bad(bad)) => return came_of(write_bad(link, bad)),
        Err(WireFault::Gone) => return Served::Gone,
        Err(WireFault::LinkFault) => return Served::LinkFault,
        Err(WireFault::NoMemory) => return Served::NoMemory,
    };
    match request {
        Request::Book(command) => match step(book, keeper, &command) {
            Ok(reply) => came_of(write_reply(link, &reply, &beside(book.calculator, &reply))),
            Err(BookFault::Failed) => came_of(write_unavailable(link)),
            Err(BookFault::NoMemory) => Served::NoMemory,
        },
        Request::Look(look) => match look_up(alloc, keeper, &look) {
            Ok(seen) => came_of(write_seen(link, &seen)),
            Err(KeepFault::Failed) => came_of(write_unavailable(link)),
            Err(KeepFault::NoMemory) => Served::NoMemory,
        },
        Request::Check(row) => match check(book.calculator, alloc, keeper, &row) {
            Ok(answer) => came_of(write_success(link, &answer)),
            Err(KeepFault::Failed) => came_of(write_unavailable(link)),
            Err(KeepFault::NoMemory) => Served::NoMemory,
        },
    }
}

// What is shown after the figures, if the reply is a quote.
fn beside<R: Threads + Sync, E: Encloser + Sync, G: Gate + Sync>(
    calculator: &Calculator<'_, R, E, G>,
    reply: &Reply,
) -> Details
    ensures { spec.IsPricedReply (IsRightAnswer (E.ends calculator.now.encloser.now)) reply.now
        → spec.AreBeside reply.now result }
{
    match reply {
        Reply::Quoted {
            issue,
            asked,
            figures,
            shown,
        } => details(calculator, issue, asked, figures, *shown),
        Reply::Added { .. }
        | Reply::Amended { .. }
        | Reply::Listed(_)
        | Reply::Confirmed { .. }
        | Reply::Refused(_) => Details::none(),
    }
}

// What came of a connection to which an answer was to be written.
fn came_of(written: Result<HttpStatus, Failed>) -> Served
    ensures { result ≡ spec.came_of written }
{
    match written {
        Ok(status) => Served::Answered {
            status: status.code(),
        },
        Err(Failed) => Served::LinkFault,
    }
}
