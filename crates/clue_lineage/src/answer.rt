//! What is answered of a lineage, and why none is made.

ghost use Rattle.std.specs.Prelude.{◌≡◌};

use ledger_bytes::NoMemory;
use merkle_batch::TreeErr;
use merkle_tree::Clash;
use thiserror::Error;

/// Why the auditor says no to a lineage. `docs/FORMATS.md` has the code of each.
#[derive(Clone, Copy, Debug, PartialEq, Eq, Error)]
pub enum LineageNo {
    /// Code 41: the bytes are no lineage.
    #[error("the bytes are no lineage, from {at} on")]
    Malformed {
        /// Where they break the layout of a lineage, from 0.
        at: u64,
    },
    /// Code 34: no head of that size is trusted.
    #[error("no head of size {size} is trusted")]
    HeadUnknown {
        /// The size that the lineage names.
        size: u64,
    },
    /// Code 54: the lineage or a journal is of another clue, or the journal is no record.
    #[error("journal {at} of the lineage isn't a record of the clue")]
    LineageClue {
        /// The journal's place in the lineage, from 0; 0 too where the whole lineage is of another clue.
        at: u32,
    },
    /// Code 55: a journal isn't the clue's next record behind the one in front of it.
    #[error("journal {at} of the lineage doesn't follow the one in front of it")]
    LineageLink {
        /// The journal's place in the lineage, from 0.
        at: u32,
    },
    /// Code 35: a journal and its path don't give the trusted root.
    #[error("a path doesn't give the trusted root")]
    LeafPath,
}

/// Records of one clue that follow one another, by their ordinals.
#[derive(Clone, Copy, Debug, PartialEq, Eq)]
pub struct Run {
    /// The ordinal of the first, from 1.
    pub first: u32,
    /// The ordinal of the last.
    pub last: u32,
    /// How many there are.
    pub count: u32,
}

/// Why no lineage is made.
#[derive(Clone, Copy, Debug, PartialEq, Eq, Error)]
pub enum LineageErr {
    /// Code 53: no record of the clue that is kept has such an ordinal.
    #[error("the clue has no such record that is kept")]
    NoLineage,
    #[error("not enough memory")]
    NoMemory,
}

impl From<NoMemory> for LineageErr {
    ghost use Rattle.clue_lineage.specs.declared.answer.LineageErr.TheVariants.{NoMemory as no_memory};

    ghost from_gives = { λ _ e. e ≡ no_memory };

    fn from(_: NoMemory) -> Self {
        LineageErr::NoMemory
    }
}

// A book that serves a history has the leaf of each journal that is kept, so that only memory can be wanting.
impl From<TreeErr> for LineageErr {
    ghost use Rattle.clue_lineage.specs.Making.{of_tree};

    ghost from_gives = { λ from e. e ≡ of_tree from };

    fn from(from: TreeErr) -> Self {
        match from {
            TreeErr::Below { .. } | TreeErr::Beyond { .. } => LineageErr::NoLineage,
            TreeErr::NoMemory => LineageErr::NoMemory,
        }
    }
}

/// What a lineage is worth to one who has all headers of the ledger.
#[derive(Clone, Copy, Debug, PartialEq, Eq)]
pub enum LineageVerdict {
    /// It isn't accepted under the headers' own head.
    Unaccepted(LineageNo),
    /// It is accepted, and each of its headers is the ledger's at its number.
    True,
    /// It is accepted, and a header isn't the ledger's. Then these two strings have one digest, the lineage's first.
    Clash(Clash),
}
