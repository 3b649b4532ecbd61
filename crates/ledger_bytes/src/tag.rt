//! The tags in front of what is hashed, by which strings of different kinds are never the same.

ghost use Rattle.std.specs.Prelude.{◌≡◌};
ghost use Rattle.ledger_bytes.specs.Tags.{byte_of};
ghost use Rattle.ledger_bytes.specs.declared.tag.Tag.{Tag as AnyTag};

/// What is hashed. Every string that is hashed begins with the byte of its tag, so that no two of different kinds are
/// the same.
#[derive(Clone, Copy, Debug, PartialEq, Eq)]
pub enum Tag {
    /// Byte 00: a leaf of a tree (RFC 6962, section 2.1).
    Leaf,
    /// Byte 01: an inner node of a tree (RFC 6962, section 2.1).
    Node,
    /// Byte 02: a journal's content.
    Content,
    /// Byte 03: a request to append.
    AppendRequest,
    /// Byte 04: a request to occult.
    OccultRequest,
    /// Byte 05: a request to purge.
    PurgeRequest,
    /// Byte 06: what a notary is asked to stamp.
    Peg,
    /// Byte 07: the base of a ledger that was purged.
    Base,
    /// Byte 08: a request to admit a member.
    MemberRequest,
    /// Byte 09: the salt of a notary's entry.
    Salt,
    /// Byte 0A: the bytes that show who placed a journal.
    Who,
    /// Byte 0B: a ledger's name.
    LedgerName,
    /// Byte 0C: a clue's name.
    ClueName,
    /// Byte 0D: a request to occult all journals of a clue.
    ClueOccultRequest,
    /// Byte 40: a key and the message that it proves.
    Proof,
    /// Byte 41: the root over the one-time keys of a scheme of hash chains.
    ChainKey,
    /// Byte 42: a step of a hash chain.
    ChainStep,
    /// Byte 44: the secret at which a hash chain begins.
    ChainSecret,
}

impl Tag {
    /// The byte in front of what is hashed.
    pub fn byte(self) -> u8
        ensures { result ≡ byte_of self }
    {
        match self {
            Tag::Leaf => 0x00,
            Tag::Node => 0x01,
            Tag::Content => 0x02,
            Tag::AppendRequest => 0x03,
            Tag::OccultRequest => 0x04,
            Tag::PurgeRequest => 0x05,
            Tag::Peg => 0x06,
            Tag::Base => 0x07,
            Tag::MemberRequest => 0x08,
            Tag::Salt => 0x09,
            Tag::Who => 0x0a,
            Tag::LedgerName => 0x0b,
            Tag::ClueName => 0x0c,
            Tag::ClueOccultRequest => 0x0d,
            Tag::Proof => 0x40,
            Tag::ChainKey => 0x41,
            Tag::ChainStep => 0x42,
            Tag::ChainSecret => 0x44,
        }
    }
}

/// No two tags have the same byte.
pub fn tags_differ()
    ensures { (x y : AnyTag) → byte_of x ≡ byte_of y → x ≡ y }
{}
