//! Why a dump isn't written whole.

ghost use Rattle.std.specs.Prelude.{◌≡◌};

use block_file::Damage;
use ledger_bytes::NoMemory;
use ledger_open::PieceErr;
use thiserror::Error;

/// Why a dump isn't written whole.
#[derive(Clone, Copy, Debug, PartialEq, Eq, Error)]
pub enum DumpErr {
    /// A call of a disk failed, and its count of faults rose.
    #[error("a disk failed")]
    DiskFault,
    /// A call of the notary failed, and its count of faults rose.
    #[error("the notary failed")]
    NotaryFault,
    /// The sink failed, or it took nothing of a piece that wasn't empty.
    #[error("writing failed")]
    WriteFault,
    /// A journal has another content than its header says, which isn't hidden, or another who: the damage is `Content`,
    /// with the digest that the header names and the one that was found. Where no place in the open file is known for a
    /// journal it is `Entry`; in a ledger that was opened each has one.
    #[error("the ledger is damaged: {0}")]
    Damaged(Damage),
    #[error("out of memory")]
    NoMemory,
}

impl From<NoMemory> for DumpErr {
    ghost use Rattle.dump_export.specs.declared.failure.DumpErr.TheVariants.{NoMemory as no_memory};

    ghost from_gives = { λ _ e. e ≡ no_memory };

    fn from(_: NoMemory) -> Self {
        DumpErr::NoMemory
    }
}

impl From<PieceErr> for DumpErr {
    ghost use Rattle.dump_export.specs.Exports.{error_of_piece};

    ghost from_gives = { λ e o. o ≡ error_of_piece e };

    fn from(e: PieceErr) -> Self {
        match e {
            PieceErr::DiskFault => DumpErr::DiskFault,
            PieceErr::NoMemory => DumpErr::NoMemory,
        }
    }
}
