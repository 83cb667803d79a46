//! How a connection is ended, so that its other end has the whole answer.

ghost use Rattle.muni_host.specs.Bytes.{LosesAtMost};

use crate::reading::read_on;
use std::io::{ErrorKind, Read};
use std::net::{OpenStream, Shutdown};
use std::time::Duration;

/// At most this many reads are made, so they take two seconds at most.
const READS: usize = 240;

/// A read takes at most this many bytes, so all of them take at most 15 MiB.
const ROOM: usize = 65_536;

/// A read waits so long for bytes, and one tick of the system's clock more, which is 4 ms too at most.
const WAIT_MILLIS: u64 = 4;

/// At most this many reads find none, so an end that is silent is waited for half a second to one.
const SILENT_READS: usize = 120;

/// Ends what is sent over a stream, and reads away what the other end still sends.
///
/// The system resets a connection that is closed while bytes come, and the other end may then lose what it
/// was sent. Nothing is read if reads cannot be timed, since the other end may be silent for ever.
pub(crate) fn finish<S: Read + OpenStream>(stream: &mut S)
    // promise 10: after an answer at most 15 MiB of what a client still sends are read away
    ensures few { LosesAtMost 15_728_640 (S.remaining stream.old) (S.remaining stream.new) }
{
    let wait = Duration::from_millis(WAIT_MILLIS);
    if stream.shutdown(Shutdown::Write).is_ok() && stream.set_read_timeout(Some(wait)).is_ok() {
        read_away(stream);
    }
}

/// Reads up to the end, a failure, or the last read of those that are made or that find nothing.
fn read_away<R: Read>(reader: &mut R)
    // promise 10: at most 15 MiB are read away
    ensures few { LosesAtMost 15_728_640 (R.remaining reader.old) (R.remaining reader.new) }
{
    let mut room = [0; ROOM];
    let mut silent = 0;
    for _turn in 0..READS {
        match read_on(reader, &mut room) {
            Ok(0) => return,
            Ok(_) => {}
            Err(error) => {
                silent += 1;
                if error.kind() != ErrorKind::WouldBlock || silent == SILENT_READS {
                    return;
                }
            }
        }
    }
}
