//! Why a source gives no further line.

ghost use Rattle.std.specs.Prelude.{◌≡◌};
ghost use Rattle.ledger_io.specs.declared.failure.LineErr.TheVariants.{ReadFault as read_fault, NoMemory as no_memory};

use ledger_bytes::Failed;
use std::alloc::AllocError;
use thiserror::Error;

/// Why there is no further line.
#[derive(Clone, Copy, Debug, PartialEq, Eq, Error)]
pub enum LineErr {
    /// A read of the source failed.
    #[error("reading failed")]
    ReadFault,
    /// The next line has more than `LINE_LIMIT` bytes.
    #[error("a line is too long")]
    LineTooLong,
    /// `SCRIPT_LIMIT` bytes were read.
    #[error("there are too many bytes")]
    ScriptTooLong,
    #[error("out of memory")]
    NoMemory,
}

impl From<ledger_bytes::NoMemory> for LineErr {
    ghost from_gives = { λ _ e. e ≡ no_memory };

    fn from(_: ledger_bytes::NoMemory) -> Self {
        LineErr::NoMemory
    }
}

impl From<AllocError> for LineErr {
    ghost from_gives = { λ _ e. e ≡ no_memory };

    fn from(_: AllocError) -> Self {
        LineErr::NoMemory
    }
}

impl From<Failed> for LineErr {
    ghost from_gives = { λ _ e. e ≡ read_fault };

    fn from(_: Failed) -> Self {
        LineErr::ReadFault
    }
}
