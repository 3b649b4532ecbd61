//! What can be wrong with a file of blocks, and why a call on one fails.

ghost use Rattle.std.specs.Prelude.{◌≡◌};

use ledger_bytes::{Digest, Failed};
use std::alloc::AllocError;
use thiserror::Error;

/// What is wrong with a file that is open. Offsets and lengths are in bytes, and offsets count from the file's first.
#[derive(Clone, Copy, Debug, PartialEq, Eq, Error)]
pub enum Damage {
    #[error("the magic is another")]
    Magic,
    /// A base with the right digest doesn't decode.
    #[error("the base breaks at {at}")]
    BaseForm {
        /// The place in the base where it breaks.
        at: u64,
    },
    #[error("the base has another digest")]
    Base {
        /// The digest that the head names.
        kept: Digest,
        /// The digest of the base.
        found: Digest,
    },
    /// A number of bytes or of journals doesn't fit what stands there:
    ///
    /// | `at` is the offset of | `kept` | `found` |
    /// |---|---|---|
    /// | the base's length | that length | the bytes that there are for the base |
    /// | a block's count | 44, a head's length | the bytes between the gate and the file's last byte |
    /// | a block's count | the count, which is 0 or above 64 | 64 |
    /// | a body's length | that length | the bytes that there are for the body, less than it |
    /// | a body's length | that length | the sum of the records, which don't fill the body |
    ///
    /// The sum of the records ends with the first record that ends past the body or has more than 1,050,112 bytes of
    /// who, and counts 178 for a record with fewer than 178 bytes left.
    #[error("the length at {at} is {kept}, and there is {found} for it")]
    Length {
        at: u64,
        kept: u64,
        found: u64,
    },
    /// The journal with this number doesn't decode, or isn't the next one.
    #[error("journal {jsn} isn't the next one")]
    Entry {
        jsn: u64,
    },
    #[error("block {block} has another root")]
    Root {
        /// The block's number, from 0.
        block: u64,
        /// The root that the block names.
        kept: Digest,
        /// The root over the journals up to the block's end.
        found: Digest,
    },
    #[error("the content of journal {jsn} has another digest")]
    Content {
        jsn: u64,
        /// The digest that the journal's header names.
        kept: Digest,
        /// The digest of the content.
        found: Digest,
    },
}

/// Why a call on a file ended early.
#[derive(Clone, Copy, Debug, PartialEq, Eq, Error)]
pub enum FileErr {
    /// A call of the disk failed, and its count of faults rose.
    #[error("the disk failed")]
    DiskFault,
    #[error("the file is damaged: {0}")]
    Damaged(Damage),
    /// The file's version, at offset 9, is neither 1 nor 2.
    #[error("version {found} is not known")]
    NewerFormat { found: u8 },
    #[error("out of memory")]
    NoMemory,
}

impl From<AllocError> for FileErr {
    ghost use Rattle.block_file.specs.declared.failure.FileErr.TheVariants.{NoMemory};

    ghost from_gives = { λ _ e. e ≡ NoMemory };

    fn from(_: AllocError) -> Self {
        FileErr::NoMemory
    }
}

impl From<Failed> for FileErr {
    ghost use Rattle.block_file.specs.declared.failure.FileErr.TheVariants.{DiskFault};

    ghost from_gives = { λ _ e. e ≡ DiskFault };

    fn from(_: Failed) -> Self {
        FileErr::DiskFault
    }
}
