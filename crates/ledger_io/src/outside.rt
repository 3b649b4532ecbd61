//! What a source and a sink are: where bytes are read from, and where they are written to.

ghost use Rattle.std.specs.Prelude.{◌≡◌};
ghost use Rattle.std.specs.Io.{ReadsAtMost, WritesAtMost};
ghost use Rattle.std.specs.Io.KnownBytes.{ReadConsumes, WriteAppends};
ghost use Rattle.ledger_bytes.specs.Causes.{HasCause};
ghost use Rattle.ledger_io.specs.Outside.{SourceState, SinkState, CountsIdle, faults_after};

use ledger_bytes::Failed;

/// What bytes are read from.
pub trait Source {
    /// What a clause knows of the source.
    ghost state: { Self → SourceState };

    /// Reads bytes to the front of `into` and answers how many they are: into room that isn't empty 0 exactly at
    /// the end of the input.
    fn read(&mut self, into: &mut [u8]) -> Result<usize, Failed>
        ensures bound { ReadsAtMost result into.new }
        ensures bytes { ReadConsumes (state self.old).left (state self.new).left result into.new }
        ensures cause { HasCause (state self.old).faults (state self.new).faults result }
        ensures counts { (state self.new).faults ≡ faults_after (state self.old).faults result };

    /// How many calls failed. The count stays at 2^64 - 1 once it is there.
    fn faults(&self) -> u64
        ensures { result ≡ (state self.now).faults };
}

/// What bytes are written to.
pub trait Sink {
    /// What a clause knows of the sink.
    ghost state: { Self → SinkState };

    /// Writes bytes from the front of `piece` and answers how many it took. A write that takes nothing of a piece
    /// that isn't empty is idle, and is counted.
    fn write(&mut self, piece: &[u8]) -> Result<usize, Failed>
        ensures bound { WritesAtMost result piece.now }
        ensures bytes { WriteAppends (state self.old).held (state self.new).held result piece.now }
        ensures cause { HasCause (state self.old).faults (state self.new).faults result }
        ensures counts { (state self.new).faults ≡ faults_after (state self.old).faults result }
        ensures idle { CountsIdle (state self.old).idles (state self.new).idles result piece.now };

    /// How many calls failed. The count stays at 2^64 - 1 once it is there.
    fn faults(&self) -> u64
        ensures { result ≡ (state self.now).faults };
}
