//! A connection over a stream that fails.

use muni_edge::{Failed, Sink, Source};
use muni_host::StreamLink;
use std::io::{self, ErrorKind, Read, Write};

/// A stream whose first read and first write are reset, and whose first flush fails. The next ones do not.
#[derive(Drop)]
struct FirstFails {
    was_read: bool,
    was_written: bool,
    was_flushed: bool,
}

impl Read for FirstFails {
    fn read(&mut self, room: &mut [u8]) -> io::Result<usize> {
        if !self.was_read {
            self.was_read = true;
            return Err(io::Error::from(ErrorKind::ConnectionReset));
        }
        Ok(room.len())
    }
}

impl Write for FirstFails {
    fn write(&mut self, piece: &[u8]) -> io::Result<usize> {
        if !self.was_written {
            self.was_written = true;
            return Err(io::Error::from(ErrorKind::ConnectionReset));
        }
        Ok(piece.len())
    }

    fn flush(&mut self) -> io::Result<()> {
        if !self.was_flushed {
            self.was_flushed = true;
            return Err(io::Error::from(ErrorKind::BrokenPipe));
        }
        Ok(())
    }
}

#[test]
fn a_failure_ends_a_take_or_a_put_and_is_not_tried_again(rt: HostRuntime) {
    let mut link = StreamLink::new(FirstFails {
        was_read: false,
        was_written: false,
        was_flushed: false,
    });
    let mut room = [0; 8];
    assert_eq!(rt; link.take(&mut room), Err(Failed));
    assert_eq!(rt; link.take(&mut room), Ok(8));
    // Of the first put the write fails, and of the second the flush.
    for done in [Err(Failed), Err(Failed), Ok(())] {
        assert_eq!(rt; link.put(b"x"), done);
    }
}
