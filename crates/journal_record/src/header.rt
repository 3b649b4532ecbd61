//! A journal's header and its 174 bytes.

ghost use Rattle.std.specs.Prelude.{◌≡◌, ◌≢◌, ◌<◌, ℕ, List, [], ◌++◌, take, IfOk, Ok, Err};

use crate::filling::Filling;
use crate::reading::read;
use ledger_bytes::{Bad, Digest};

/// The length of a header in bytes.
pub const HEADER_LEN: usize = 174;

/// What a journal is.
#[derive(Clone, Copy, Debug, PartialEq, Eq)]
pub enum Kind {
    /// Code 0: the first journal, which names the operator and the regulator.
    Genesis,
    /// Code 1: a member's record.
    Content,
    /// Code 2: a new member and its key.
    Member,
    /// Code 3: a time that a notary has told.
    Time,
    /// Code 4: another journal's content is hidden.
    Occult,
    /// Code 5: the journals in front of a point are given up.
    Purge,
    /// Code 6: the contents of all records of a clue so far are hidden.
    ClueOccult,
}

impl Kind {
    ghost use Rattle.journal_record.specs.Header.{code_of};

    /// The byte that stands for the kind in a header.
    pub fn code(self) -> u8
        ensures { result ≡ code_of self }
    {
        match self {
            Kind::Genesis => 0,
            Kind::Content => 1,
            Kind::Member => 2,
            Kind::Time => 3,
            Kind::Occult => 4,
            Kind::Purge => 5,
            Kind::ClueOccult => 6,
        }
    }
}

/// A journal's header. Its bytes are the fields one after the other, in the order below, each at the offset that
/// stands beside it; numbers are unsigned and big-endian. `a`, `b` and `link` go by the kind:
///
/// | Kind | `a` | `b` | `link` |
/// |---|---|---|---|
/// | genesis | 0 | 0 | SHA-256 of the byte 0B and the ledger's name |
/// | content | the request's number, or 0 where it has none | 0 | digest of the request |
/// | member | the new member's number | 0 | the new member's key |
/// | time | the notary's index | the notary's time | the salt |
/// | occult | the hidden journal's number | 0 | that journal's leaf digest |
/// | purge | the point: the first journal that stays | 0 | digest of the pseudo-genesis |
/// | occult by clue | how many records of the clue stand in front | 0 | the clue's digest |
///
/// The content of a genesis journal is the operator's key and then the regulator's.
#[derive(Clone, Copy, Debug, PartialEq, Eq)]
pub struct Header {
    /// Offset 0, 1 byte: the version of the layout.
    pub version: u8,
    /// Offset 1, 1 byte: the code of the kind.
    pub kind: Kind,
    /// Offset 2, 8 bytes: the journal's number in the ledger, from 0.
    pub jsn: u64,
    /// Offset 10, 4 bytes: the number of the member who placed the journal.
    pub member: u32,
    /// Offset 14, 32 bytes: the digest of the clue's name, or 32 zero bytes where there is no clue.
    pub clue: Digest,
    /// Offset 46, 4 bytes: the number of this journal among those of its clue, from 1; 0 where there is no clue.
    pub clue_ord: u32,
    /// Offset 50, 8 bytes: the number of the clue's journal before this one, or 0.
    pub clue_prev: u64,
    /// Offset 58, 8 bytes.
    pub a: u64,
    /// Offset 66, 8 bytes.
    pub b: u64,
    /// Offset 74, 32 bytes.
    pub link: Digest,
    /// Offset 106, 4 bytes: the length of the content in bytes.
    pub content_len: u32,
    /// Offset 110, 32 bytes: see [`content_digest`](crate::content_digest).
    pub content_digest: Digest,
    /// Offset 142, 32 bytes: see [`who_digest`](crate::who_digest).
    pub who_digest: Digest,
}

impl Header {
    ghost use Rattle.journal_record.specs.declared.header.Header.{Header as HeaderRecord};
    ghost use Rattle.journal_record.specs.Header.{spelling, HasWidths};
    ghost use Rattle.journal_record.specs.Reading.{header_of};
    ghost use Rattle.journal_record.specs.Rules.{IsHeader};

    /// Reads a header from its 174 bytes. The first break in the order of the bytes is told: `NewerFormat` for a
    /// version other than 1 and 2, `BadKind` for a kind above 6, and in version 1 above 5, `BadFixedField` with
    /// offset 0 where the version isn't the header's own, `BadFixedField` with its offset for a field that breaks its
    /// rule, `Short` with the input's length where a field isn't whole, and at last `Trailing`. Digests may be any,
    /// and so may links but that of an occult by clue, which isn't zero.
    pub fn decode(bytes: &[u8]) -> Result<Header, Bad>
        // Which answer it is, and at a break which break and where.
        ensures exact { result ≡ header_of bytes.now }
        // What is read keeps every rule and is spelled so, each byte of it.
        ensures found { IfOk result (λ h. IsHeader h × (bytes.now ≡ spelling h)) }
        // What keeps every rule and is spelled so is read.
        ensures only { (h : HeaderRecord) → IsHeader h → HasWidths h → bytes.now ≡ spelling h
            → result ≡ Ok h }
        // What is left of a header when its end is cut off is too short.
        ensures cut { (h : HeaderRecord) (k : ℕ) → IsHeader h → HasWidths h → k < 174
            → bytes.now ≡ take k (spelling h) → result ≡ Err (Bad.Short k) }
        // Bytes behind a header are told by the place of the first.
        ensures trailing { (h : HeaderRecord) (rest : List ℕ) → IsHeader h → HasWidths h → rest ≢ []
            → bytes.now ≡ spelling h ++ rest → result ≡ Err (Bad.Trailing 174) }
    {
        read(bytes)
    }

    /// The bytes that are the journal's leaf, and stand in front of its content on the disk.
    #[tactic(auto, unfolding(crate::specs::Header::spelling))]
    pub fn encode(&self) -> [u8; HEADER_LEN]
        ensures bytes { result ≡ spelling self.now }
        ensures widths { HasWidths self.now }
    {
        let mut filling = Filling::new();
        filling.put(&[self.version]);
        filling.put(&[self.kind.code()]);
        filling.put(&self.jsn.to_be_bytes());
        filling.put(&self.member.to_be_bytes());
        filling.put(&self.clue.0);
        filling.put(&self.clue_ord.to_be_bytes());
        filling.put(&self.clue_prev.to_be_bytes());
        filling.put(&self.a.to_be_bytes());
        filling.put(&self.b.to_be_bytes());
        filling.put(&self.link.0);
        filling.put(&self.content_len.to_be_bytes());
        filling.put(&self.content_digest.0);
        filling.put(&self.who_digest.0);
        filling.finish()
    }
}
