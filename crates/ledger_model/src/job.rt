//! What each line asks for, as a job that a ledger takes, and which jobs end the open block.

ghost use Rattle.std.specs.Prelude.{◌≡◌};
ghost use Rattle.ledger_model.specs.Rules.{closes_before, closes_after};

use crate::Query;
use journal_record::Approval;
use ledger_bytes::{Bytes, Digest, Items, Refusal};

/// What a line of a script asks for, with everything that the line alone defines.
#[derive(Debug, Drop)]
pub enum Job {
    /// The line has no right form.
    Refused(Refusal),
    /// A member's record.
    Append {
        /// Who places it.
        member: u32,
        /// The digest of the clue's name, or 32 zero bytes where there is no clue.
        clue: Digest,
        content: Bytes,
        content_digest: Digest,
        /// The digest that the member approves.
        request: Digest,
        /// The member's approval of the request.
        by: Approval,
        /// The digest of the approval's bytes, as the header of the record tells it.
        who: Digest,
        /// The number that the member gives the request, or 0 where it gives none.
        number: u64,
    },
    /// A new member.
    NewMember {
        /// The new member's number.
        number: u32,
        /// The key that the new member's proofs will show.
        key: Digest,
        /// The approval of member 0.
        by: Approval,
    },
    /// A journal that tells a time, with a stamp of the notary over everything that was placed before.
    Anchor,
    /// An occult: a journal that hides the content of a record.
    Occult {
        /// The record's number.
        target: u64,
        /// The digest of the record's leaf.
        leaf: Digest,
        /// Who approves it, in the order in which they were given.
        given: Items<Approval>,
    },
    /// An occult by clue: a journal that hides the contents of all records of a clue in front of it.
    OccultClue {
        /// The digest of the clue's name, or 32 zero bytes for no clue.
        clue: Digest,
        /// How many records of the clue there are.
        count: u32,
        /// Who approves it, in the order in which they were given.
        given: Items<Approval>,
    },
    /// A purge: all journals in front of a time journal are given up.
    Purge {
        /// The time journal's number.
        point: u64,
        /// The root of the tree over the journals in front of it.
        root: Digest,
        /// Who approves it, in the order in which they were given.
        given: Items<Approval>,
    },
    /// It asks for something, and places nothing.
    Ask(Query),
}

impl Job {
    /// Whether the open block ends before the job is judged.
    pub fn closes_before(&self) -> bool
        ensures { result ≡ closes_before self.now }
    {
        match self {
            Job::Refused(_) | Job::Append { .. } | Job::NewMember { .. } => false,
            Job::Anchor
            | Job::Occult { .. }
            | Job::OccultClue { .. }
            | Job::Purge { .. }
            | Job::Ask(_) => true,
        }
    }

    /// Whether the open block ends behind the job: its journal is a block of its own.
    pub fn closes_after(&self) -> bool
        ensures { result ≡ closes_after self.now }
    {
        match self {
            Job::Anchor | Job::Occult { .. } | Job::OccultClue { .. } | Job::Purge { .. } => true,
            Job::Refused(_) | Job::Append { .. } | Job::NewMember { .. } | Job::Ask(_) => false,
        }
    }
}
