//! Sources and sinks over std's readers and writers.

ghost use Rattle.std.specs.Prelude.{◌≡◌, None};
ghost use Rattle.std.specs.Io.{WritesAtMost};

use crate::{Sink, Source};
use ledger_bytes::Failed;
use std::io;
use std::io::{Read, Write};

/// A source over a reader of std. It retries no call, so an interrupted one counts as failed.
#[derive(Drop)]
pub struct StdSource<R> {
    reader: R,
    faults: u64,
}

impl<R: Read> StdSource<R> {
    pub fn new(reader: R) -> Self
        ensures { ⟦<StdSource<R> as Source>⟧.state result
            ≡ record { left = R.remaining reader; faults = 0 } }
    {
        StdSource { reader, faults: 0 }
    }
}

impl<R: Read> Source for StdSource<R> {
    ghost state = { λ s. record { left = R.remaining s.reader; faults = s.faults } };

    fn read(&mut self, into: &mut [u8]) -> Result<usize, Failed> {
        match self.reader.read(into) {
            Ok(count) => Ok(count),
            Err(_) => {
                self.faults = self.faults.saturating_add(1);
                Err(Failed)
            }
        }
    }

    fn faults(&self) -> u64 {
        self.faults
    }
}

/// A sink over a writer of std. It flushes after each write, and a flush that fails is a failed write, though the
/// writer may hold the bytes. It retries no call, so an interrupted one counts as failed.
#[derive(Drop)]
pub struct StdSink<W> {
    writer: W,
    faults: u64,
    idles: u64,
}

impl<W: Write> StdSink<W> {
    pub fn new(writer: W) -> Self
        ensures { ⟦<StdSink<W> as Sink>⟧.state result
            ≡ record { held = None; faults = 0; idles = 0 } }
    {
        StdSink {
            writer,
            faults: 0,
            idles: 0,
        }
    }
}

impl<W: Write> Sink for StdSink<W> {
    ghost state = { λ s. record { held = None; faults = s.faults; idles = s.idles } };

    fn write(&mut self, piece: &[u8]) -> Result<usize, Failed> {
        match write_through(&mut self.writer, piece) {
            Ok(count) => {
                if count == 0 && !piece.is_empty() {
                    self.idles = self.idles.saturating_add(1);
                }
                Ok(count)
            }
            Err(_) => {
                self.faults = self.faults.saturating_add(1);
                Err(Failed)
            }
        }
    }

    fn faults(&self) -> u64 {
        self.faults
    }
}

// One write, and a flush where it took place.
fn write_through<W: Write>(writer: &mut W, piece: &[u8]) -> io::Result<usize>
    ensures { WritesAtMost result piece.now }
{
    let count = writer.write(piece)?;
    writer.flush()?;
    Ok(count)
}
