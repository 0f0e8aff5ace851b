//! Writes a text whole to a sink.

ghost use Rattle.pg_tool.specs.Writing.{WritesAll};

use pg_wire::{Sink, SinkFlush, SinkWrite};

/// Why a text isn't written whole.
#[derive(Clone, Copy, Debug, PartialEq, Eq, Drop)]
pub enum WriteFault {
    /// A call of the sink failed.
    Failed,
    OutOfMemory,
}

/// Writes a text whole and flushes it.
pub fn write_all<K: Sink>(sink: &mut K, text: &[u8]) -> Result<(), WriteFault>
    ensures { WritesAll (K.state sink.old) (K.state sink.new) text.now result }
{
    let mut at = 0;
    while at < text.len() {
        match sink.write(&text[at..]) {
            SinkWrite::Took(n) => at += n,
            SinkWrite::Failed => return Err(WriteFault::Failed),
            SinkWrite::OutOfMemory => return Err(WriteFault::OutOfMemory),
        }
    }
    match sink.flush() {
        SinkFlush::Done => Ok(()),
        SinkFlush::Failed => Err(WriteFault::Failed),
    }
}
