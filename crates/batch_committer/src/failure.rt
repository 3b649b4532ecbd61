//! Why a committer's run ended early.

use ledger_bytes::NoMemory;
use ledger_io::WriteErr;
use ledger_open::PieceErr;
use thiserror::Error;

/// Why a call of a committer ended its run.
#[derive(Clone, Copy, Debug, PartialEq, Eq, Error)]
pub enum CommitErr {
    /// A call of a disk failed, and its count of faults rose.
    #[error("a disk failed")]
    DiskFault,
    /// The sink failed, or it took nothing of a piece that wasn't empty.
    #[error("writing failed")]
    WriteFault,
    #[error("out of memory")]
    NoMemory,
    /// An earlier call ended the run.
    #[error("the run has ended")]
    Closed,
}

impl From<NoMemory> for CommitErr {
    ghost use Rattle.std.specs.Prelude.{◌≡◌};
    ghost use Rattle.batch_committer.specs.declared.failure.CommitErr.TheVariants.{NoMemory as no_memory};

    ghost from_gives = { λ _ end. end ≡ no_memory };

    fn from(_: NoMemory) -> Self {
        CommitErr::NoMemory
    }
}

impl From<WriteErr> for CommitErr {
    ghost use Rattle.std.specs.Prelude.{◌≡◌};
    ghost use Rattle.batch_committer.specs.declared.failure.CommitErr.TheVariants.{WriteFault};

    ghost from_gives = { λ _ end. end ≡ WriteFault };

    fn from(_: WriteErr) -> Self {
        CommitErr::WriteFault
    }
}

impl From<PieceErr> for CommitErr {
    ghost use Rattle.std.specs.Prelude.{◌≡◌};
    ghost use Rattle.batch_committer.specs.Read.{end_of_piece};

    ghost from_gives = { λ e end. end ≡ end_of_piece e };

    fn from(e: PieceErr) -> Self {
        match e {
            PieceErr::DiskFault => CommitErr::DiskFault,
            PieceErr::NoMemory => CommitErr::NoMemory,
        }
    }
}
