//! Why no set is made, and why nothing is made of one.

ghost use Rattle.std.specs.Prelude.{◌≡◌};

use ledger_bytes::{Bad, Digest, NoMemory, Refusal};
use merkle_batch::TreeErr;
use proof_maker::MakeErr;
use thiserror::Error;

/// Why no set is made, and why nothing is made of one. `docs/FORMATS.md` has the code of each.
#[derive(Clone, Copy, Debug, PartialEq, Eq, Error)]
pub enum SetErr {
    /// What is refused with a code that lines of a script have too.
    #[error("it is refused")]
    Refused(Refusal),
    /// Codes 1, 2, 8, 9 and 31: the bytes spell no set.
    #[error("these are no survivors: {0}")]
    Bad(Bad),
    /// Code 51: the number isn't below the point.
    #[error("it isn't below the point {point}")]
    NotBelow {
        point: u64,
    },
    /// Code 52: the set is of another ledger.
    #[error("the survivors are of another ledger")]
    OtherLedger {
        /// The id of the ledger that is open.
        kept: Digest,
    },
    /// Code 35: a survivor's path doesn't lead to the set's root.
    #[error("the path of a survivor doesn't lead to the root")]
    LeafPath,
    /// A call of a disk failed, and its count of faults rose.
    #[error("a disk failed")]
    DiskFault,
    #[error("out of memory")]
    NoMemory,
}

impl From<Bad> for SetErr {
    ghost use Rattle.survivor_set.specs.declared.failure.SetErr.TheVariants.{Bad as bad};

    ghost from_gives = { λ from e. e ≡ bad from };

    fn from(from: Bad) -> Self {
        SetErr::Bad(from)
    }
}

impl From<NoMemory> for SetErr {
    ghost use Rattle.survivor_set.specs.declared.failure.SetErr.TheVariants.{NoMemory as no_memory};

    ghost from_gives = { λ _ e. e ≡ no_memory };

    fn from(_: NoMemory) -> Self {
        SetErr::NoMemory
    }
}

impl From<TreeErr> for SetErr {
    ghost use Rattle.survivor_set.specs.Outcomes.{of_tree};

    ghost from_gives = { λ from e. e ≡ of_tree from };

    fn from(from: TreeErr) -> Self {
        match from {
            TreeErr::Below { p } => SetErr::Refused(Refusal::Purged { point: p }),
            TreeErr::Beyond { size } => SetErr::Refused(Refusal::NoJournal { size }),
            TreeErr::NoMemory => SetErr::NoMemory,
        }
    }
}

impl From<MakeErr> for SetErr {
    ghost use Rattle.survivor_set.specs.Outcomes.{of_make};

    ghost from_gives = { λ from e. e ≡ of_make from };

    fn from(from: MakeErr) -> Self {
        match from {
            MakeErr::Refused(why) => SetErr::Refused(why),
            MakeErr::NoMemory => SetErr::NoMemory,
        }
    }
}
