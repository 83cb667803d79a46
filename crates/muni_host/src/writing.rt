//! Writes that a signal does not end.

ghost use Rattle.muni_host.specs.Bytes.{AppendsPiece};

use std::io::{self, ErrorKind, Write};

/// Writes a piece, also where a signal interrupts, and flushes it.
pub(crate) fn write_on<W: Write>(writer: &mut W, piece: &[u8]) -> io::Result<()>
    // promise 9: a write appends the piece, and one that fails a front part of it
    ensures { AppendsPiece (W.contents writer.old) (W.contents writer.new) result piece.now }
{
    let mut at = 0;
    // A loop has to end for its proof: these are more writes than are ever made.
    for _ in 0..u64::MAX {
        if at >= piece.len() {
            return writer.flush();
        }
        match writer.write(&piece[at..]) {
            Ok(0) => return Err(io::Error::from(ErrorKind::WriteZero)),
            Ok(count) => at += count,
            Err(error) => {
                if error.kind() != ErrorKind::Interrupted {
                    return Err(error);
                }
            }
        }
    }
    Err(io::Error::from(ErrorKind::TimedOut))
}
