//! The output of a command over a store.

ghost use Rattle.muni_desk_io.specs.Output.{Writes};

use crate::fault::Fault;
use muni_edge::Sink;

/// Writes a text to the output.
pub fn write<O: Sink>(text: &[u8], output: &mut O) -> Result<(), Fault>
    // promise 9: the whole text is written, or it fails with a front part written, and is counted
    ensures { Writes O.Sink Fault.Write result text.now output.old output.new }
{
    match output.put(text) {
        Ok(()) => Ok(()),
        Err(_) => Err(Fault::Write),
    }
}
