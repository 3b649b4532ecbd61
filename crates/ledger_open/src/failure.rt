//! Why a ledger can't be made or opened.

ghost use Rattle.std.specs.Prelude.{◌≡◌};

use block_file::{Damage, FileErr};
use ledger_bytes::{Failed, NoMemory};
use thiserror::Error;

/// Why a ledger isn't made or opened.
#[derive(Clone, Copy, Debug, PartialEq, Eq, Error)]
pub enum OpenErr {
    /// A call of a disk failed, and its count of faults rose.
    #[error("a disk failed")]
    DiskFault,
    #[error("the ledger is damaged: {0}")]
    Damaged(Damage),
    /// There is no ledger to open: both files are shut.
    #[error("there is no ledger")]
    Empty,
    /// There is a ledger already: one of the files is open.
    #[error("there is a ledger")]
    Exists,
    /// The version of a file, at offset 9, is neither 1 nor 2.
    #[error("version {found} is not known")]
    NewerFormat { found: u8 },
    #[error("out of memory")]
    NoMemory,
}

impl From<Failed> for OpenErr {
    ghost use Rattle.ledger_open.specs.declared.failure.OpenErr.TheVariants.{DiskFault};

    ghost from_gives = { λ _ e. e ≡ DiskFault };

    fn from(_: Failed) -> Self {
        OpenErr::DiskFault
    }
}

impl From<NoMemory> for OpenErr {
    ghost use Rattle.ledger_open.specs.declared.failure.OpenErr.TheVariants.{NoMemory};

    ghost from_gives = { λ _ e. e ≡ NoMemory };

    fn from(_: NoMemory) -> Self {
        OpenErr::NoMemory
    }
}

impl From<FileErr> for OpenErr {
    ghost use Rattle.ledger_open.specs.Opening.{as_open};

    ghost from_gives = { λ e o. o ≡ as_open e };

    fn from(e: FileErr) -> Self {
        match e {
            FileErr::DiskFault => OpenErr::DiskFault,
            FileErr::Damaged(damage) => OpenErr::Damaged(damage),
            FileErr::NewerFormat { found } => OpenErr::NewerFormat { found },
            FileErr::NoMemory => OpenErr::NoMemory,
        }
    }
}
