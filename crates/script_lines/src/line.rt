//! The verbs of a script's lines, and what each asks for.

use crate::said::{SaidApproval, Which};
use ledger_bytes::{Bytes, Digest, Items};

/// What a line of a script asks for.
#[derive(Debug, Drop)]
pub enum Line {
    /// A journal is to be added: `append MEMBER CLUE CONTENT PROOF`, or with a last field, `append MEMBER CLUE CONTENT PROOF NUMBER`.
    Append {
        /// The member who asks.
        member: u32,
        /// The clue's name, up to 64 bytes. No clue is the empty name.
        clue: Bytes,
        /// What the journal is to hold, up to 1,048,576 bytes.
        content: Bytes,
        /// The member's proof, up to 4,096 bytes.
        proof: Bytes,
        /// The number by which the member tells this request from others. 0 where the line has none.
        number: u64,
    },
    /// A member is to be added: `member NUMBER KEY PROOF`.
    NewMember {
        /// The new member's number.
        number: u32,
        /// The new member's key.
        key: Digest,
        /// The proof of member 0, up to 4,096 bytes.
        proof: Bytes,
    },
    /// A time journal is to be added, with a notary's stamp: `anchor`.
    Anchor,
    /// The content of a journal is to be hidden: `occult TARGET LEAF APPROVALS`.
    Occult {
        /// The journal's number.
        target: u64,
        /// The digest of the journal's leaf.
        leaf: Digest,
        /// Who approves it, up to 256 members.
        given: Items<SaidApproval>,
    },
    /// The contents of all records of a clue are to be hidden: `occultclue NAME COUNT APPROVALS`.
    OccultClue {
        /// The clue's name, or no bytes for no clue.
        name: Bytes,
        /// How many records the clue has, 1 or more.
        count: u32,
        /// Who approves it, up to 256 members.
        given: Items<SaidApproval>,
    },
    /// All journals in front of a time journal are to be removed: `purge POINT ROOT APPROVALS`.
    Purge {
        /// The time journal's number.
        point: u64,
        /// The root of the tree over the journals in front of it.
        root: Digest,
        /// Who approves it, up to 256 members.
        given: Items<SaidApproval>,
    },
    /// A journal is asked for: `get N`.
    Get {
        /// The journal's number.
        n: u64,
    },
    /// The proof of a journal is asked for: `prove N`.
    Prove {
        /// The journal's number.
        n: u64,
    },
    /// The proof that a tree goes on from an earlier one is asked for: `extend ledger M` or `extend notary M`.
    Extend {
        which: Which,
        /// The earlier size.
        m: u64,
    },
    /// A clue's journals are asked for: `clue NAME`.
    Clue {
        /// The clue's name, up to 64 bytes. No clue is the empty name.
        name: Bytes,
    },
    /// The ledger's head is asked for: `head`.
    Head,
}
