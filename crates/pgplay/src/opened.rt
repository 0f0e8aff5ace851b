//! A source or a sink that may not have been opened.

use pg_wire::{Sink, SinkFlush, SinkWrite, Source, SourceRead};

/// A source or a sink that was opened, or one of which each call fails.
#[derive(Drop)]
pub(crate) enum Opened<S> {
    Open(S),
    /// It couldn't be opened; with how often a call failed.
    Missing(u64),
}

impl<S: Source> Source for Opened<S> {
    ghost use Rattle.pgplay.specs.Opened.{source_of};

    ghost state = { source_of S.state };

    fn read(&mut self, out: &mut [u8]) -> SourceRead {
        match self {
            Opened::Open(source) => source.read(out),
            Opened::Missing(faults) => {
                *faults = faults.saturating_add(1);
                SourceRead::Failed
            }
        }
    }
}

impl<S: Sink> Sink for Opened<S> {
    ghost use Rattle.pgplay.specs.Opened.{sink_of};

    ghost state = { sink_of S.state };

    fn write(&mut self, bytes: &[u8]) -> SinkWrite {
        match self {
            Opened::Open(sink) => sink.write(bytes),
            Opened::Missing(faults) => {
                *faults = faults.saturating_add(1);
                SinkWrite::Failed
            }
        }
    }

    fn flush(&mut self) -> SinkFlush {
        match self {
            Opened::Open(sink) => sink.flush(),
            Opened::Missing(faults) => {
                *faults = faults.saturating_add(1);
                SinkFlush::Failed
            }
        }
    }
}
