//! How a run over the lines of a source ends: its exit status, and the line that it writes last.

ghost use Rattle.std.specs.Prelude.{◌≡◌};

use crate::{LineErr, WriteErr};
use ledger_bytes::NoMemory;

/// How a run over the lines of a source ended. Each ending has an exit status and a last line.
#[derive(Clone, Copy, Debug, PartialEq, Eq)]
pub enum Ending {
    /// The input was read to its end and every line has its reply, or the single text was written.
    Done,
    /// The words of the command line are of no form.
    Usage,
    /// Reading failed.
    ReadFault,
    /// Writing failed, or the sink took nothing.
    WriteFault,
    NoMemory,
    /// A line has more bytes than a line may have.
    LineTooLong,
    /// The script has more bytes than a script may have.
    ScriptTooLong,
}

impl Ending {
    ghost use Rattle.ledger_io.specs.Endings.{status_of, last_line};

    /// The exit status, by which whoever started the program is told the ending.
    pub fn status(self) -> u8
        ensures { result ≡ status_of self }
    {
        match self {
            Ending::Done => 0,
            Ending::Usage => 1,
            Ending::ReadFault => 2,
            Ending::WriteFault => 3,
            Ending::NoMemory => 6,
            Ending::LineTooLong | Ending::ScriptTooLong => 7,
        }
    }

    /// The line that is written last, with its newline; nothing where there is none.
    pub fn last_line(self) -> &'static [u8]
        ensures { result.now ≡ last_line self }
    {
        match self {
            Ending::Done | Ending::WriteFault => b"",
            Ending::Usage => b"fail 1 usage\n",
            Ending::ReadFault => b"fail 2 read\n",
            Ending::NoMemory => b"fail 6 memory\n",
            Ending::LineTooLong => b"fail 7 line\n",
            Ending::ScriptTooLong => b"fail 7 script\n",
        }
    }
}

impl From<LineErr> for Ending {
    ghost use Rattle.ledger_io.specs.Endings.{ending_of};

    ghost from_gives = { λ error ending. ending ≡ ending_of error };

    fn from(error: LineErr) -> Self {
        match error {
            LineErr::ReadFault => Ending::ReadFault,
            LineErr::LineTooLong => Ending::LineTooLong,
            LineErr::ScriptTooLong => Ending::ScriptTooLong,
            LineErr::NoMemory => Ending::NoMemory,
        }
    }
}

impl From<WriteErr> for Ending {
    ghost use Rattle.ledger_io.specs.declared.ending.Ending.TheVariants.{WriteFault};

    ghost from_gives = { λ _ ending. ending ≡ WriteFault };

    fn from(_: WriteErr) -> Self {
        Ending::WriteFault
    }
}

impl From<NoMemory> for Ending {
    ghost use Rattle.ledger_io.specs.declared.ending.Ending.TheVariants.{NoMemory as no_memory};

    ghost from_gives = { λ _ ending. ending ≡ no_memory };

    fn from(_: NoMemory) -> Self {
        Ending::NoMemory
    }
}
