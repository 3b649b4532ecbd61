//! Writing a piece whole, and the line with which a program ends.

ghost use Rattle.std.specs.Prelude.{◌≡◌, OnOk, IfErr};
ghost use Rattle.std.specs.Io.KnownBytes.{Appends};
ghost use Rattle.ledger_io.specs.Endings.{status_of, last_line};
ghost use Rattle.ledger_io.specs.Writing.{WritesFirst, MeetsAtMostOne, WritesLast};

use crate::{Ending, Sink};
use thiserror::Error;

/// Why a piece was not written whole.
#[derive(Clone, Copy, Debug, PartialEq, Eq, Error)]
pub enum WriteErr {
    /// A write failed, or it took nothing. `taken` is how many bytes of the piece were written before it.
    #[error("writing failed after {taken} bytes")]
    WriteFault { taken: u64 },
}

/// Writes the whole piece, in as many calls as it takes.
pub fn write_all<K: Sink>(sink: &mut K, piece: &[u8]) -> Result<(), WriteErr>
    ensures ok { OnOk result (Appends (K.state sink.old).held (K.state sink.new).held piece.now) }
    ensures taken { IfErr result (WritesFirst (K.state sink.old).held
        (K.state sink.new).held piece.now) }
    // It gives up at the first fault: a write that failed, or took nothing.
    ensures once { MeetsAtMostOne result (K.state sink.old) (K.state sink.new) }
{
    let mut taken = 0;
    while taken < piece.len() {
        match sink.write(piece.split_at(taken).1) {
            Ok(0) | Err(_) => {
                return Err(WriteErr::WriteFault {
                    taken: taken as u64,
                });
            }
            Ok(count) => taken += count,
        }
    }
    Ok(())
}

/// Writes the line with which a program ends, by one attempt: nothing is left to do where it fails.
pub fn write_last<K: Sink>(sink: &mut K, line: &[u8])
    ensures { WritesLast line.now (K.state sink.old) (K.state sink.new) }
{
    let _ = write_all(sink, line);
}

/// Ends a run: writes its last line by one attempt, and answers its exit status.
pub fn finish<K: Sink>(sink: &mut K, ending: Ending) -> u8
    ensures status { result ≡ status_of ending }
    ensures last { WritesLast (last_line ending) (K.state sink.old) (K.state sink.new) }
{
    write_last(sink, ending.last_line());
    ending.status()
}
