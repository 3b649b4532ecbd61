//! One piece of a dump is written.

ghost use Rattle.std.specs.Prelude.{IfErr};
ghost use Rattle.dump_export.specs.Exports.{IsUndamaged, Puts};

use crate::DumpErr;
use ledger_io::{Sink, write_all};

/// Writes a piece, in as many calls as it takes.
pub(crate) fn put<K: Sink>(sink: &mut K, piece: &[u8]) -> Result<(), DumpErr>
    ensures only { IfErr result IsUndamaged }
    ensures puts { Puts piece.now result (K.state sink.old) (K.state sink.new) }
{
    match write_all(sink, piece) {
        Ok(()) => Ok(()),
        Err(_) => Err(DumpErr::WriteFault),
    }
}
