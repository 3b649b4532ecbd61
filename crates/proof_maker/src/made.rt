//! What comes of a request for a proof: the proof with what it claims, or why none is made.

ghost use Rattle.std.specs.Prelude.{◌≡◌};

use ledger_bytes::{Bytes, NoMemory, Refusal};
use merkle_batch::TreeErr;
use merkle_tree::Head;
use proof_codec::Claim;
use thiserror::Error;
use time_peg::NotaryErr;

/// A proof with what it claims, as a reply tells both.
#[derive(Debug, Drop)]
pub struct Made {
    /// What it claims.
    pub claim: Claim,
    /// Its bytes, in the layout of [`proof_codec::Proof`].
    pub proof: Bytes,
}

/// A proof that a ledger or a notary's list goes on from an earlier head.
#[derive(Debug, Drop)]
pub struct MadeExtension {
    /// The head that it leads to.
    pub head: Head,
    /// Its digests, one after the other (RFC 6962, section 2.1.2).
    pub proof: Bytes,
}

/// Why no proof was made.
#[derive(Clone, Copy, Debug, PartialEq, Eq, Error)]
pub enum MakeErr {
    /// There is no such journal or size, or the notary failed.
    #[error("nothing is proved of that journal or size")]
    Refused(Refusal),
    #[error("not enough memory")]
    NoMemory,
}

impl From<NoMemory> for MakeErr {
    ghost use Rattle.proof_maker.specs.declared.made.MakeErr.TheVariants.{NoMemory as no_memory};

    ghost from_gives = { λ _ e. e ≡ no_memory };

    fn from(_: NoMemory) -> Self {
        MakeErr::NoMemory
    }
}

impl From<TreeErr> for MakeErr {
    ghost use Rattle.proof_maker.specs.Making.{of_tree};

    ghost from_gives = { λ from e. e ≡ of_tree from };

    fn from(from: TreeErr) -> Self {
        match from {
            TreeErr::Below { p } => MakeErr::Refused(Refusal::Purged { point: p }),
            TreeErr::Beyond { size } => MakeErr::Refused(Refusal::NoJournal { size }),
            TreeErr::NoMemory => MakeErr::NoMemory,
        }
    }
}

// A list that is full refuses stamps alone, and a proof needs none.
impl From<NotaryErr> for MakeErr {
    ghost use Rattle.proof_maker.specs.Making.{of_notary};

    ghost from_gives = { λ from e. e ≡ of_notary from };

    fn from(from: NotaryErr) -> Self {
        match from {
            NotaryErr::Failed | NotaryErr::Full => MakeErr::Refused(Refusal::NotaryFault),
            NotaryErr::NoMemory => MakeErr::NoMemory,
        }
    }
}
