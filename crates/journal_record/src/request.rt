//! What members prove to ask for something, and the digests of names.

ghost use Rattle.std.specs.Prelude.{◌≡◌, ◌∷◌, ◌++◌};
ghost use Rattle.std.specs.Int.{w64, to_be_bytes};
ghost use Rattle.sha2.specs.Sha256.{sha256};
ghost use Rattle.ledger_bytes.specs.Tags.{byte_of};
ghost use Rattle.journal_record.specs.Request.{request_digest_of, member_request_digest_of, occult_request_digest_of, clue_occult_request_digest_of, purge_request_digest_of, clue_digest_of, name_digest_of};

use crate::digests::tagged_digest;
use crate::filling::Filling;
use ledger_bytes::{Digest, Tag};

/// The message that a member proves to append a journal: SHA-256 of the byte 03, the ledger's identity (32 bytes), the
/// member's number (4 bytes, big-endian), the clue's digest (32 bytes, zeros where there is no clue), the content's
/// length (4 bytes, big-endian), the content's digest (32 bytes, see [`content_digest`](crate::content_digest)), and the
/// request's number (8 bytes, big-endian), which is left out where it is 0.
pub fn request_digest(
    id: &Digest,
    member: u32,
    clue: &Digest,
    content_len: u32,
    content_digest: &Digest,
    number: u64,
) -> Digest
    ensures { result.0 ≡ request_digest_of id.now.0 member clue.now.0 content_len
        content_digest.now.0 number }
{
    let mut message = Filling::new();
    message.put(&[Tag::AppendRequest.byte()]);
    message.put(&id.0);
    message.put(&member.to_be_bytes());
    message.put(&clue.0);
    message.put(&content_len.to_be_bytes());
    message.put(&content_digest.0);
    if number != 0 {
        message.put(&number.to_be_bytes());
    }
    message.digest()
}

/// The message that member 0 proves to admit a member: SHA-256 of the byte 08, the ledger's identity (32 bytes), the
/// new member's number (4 bytes, big-endian) and the new member's key (32 bytes).
pub fn member_request_digest(id: &Digest, number: u32, key: &Digest) -> Digest
    ensures { result.0 ≡ member_request_digest_of id.now.0 number key.now.0 }
{
    let mut message = Filling::new();
    message.put(&[Tag::MemberRequest.byte()]);
    message.put(&id.0);
    message.put(&number.to_be_bytes());
    message.put(&key.0);
    message.digest()
}

/// The message that members 0 and 1 prove to occult a journal: SHA-256 of the byte 04, the ledger's identity (32 bytes),
/// the journal's number (8 bytes, big-endian) and the digest of its leaf (32 bytes).
pub fn occult_request_digest(id: &Digest, target: u64, leaf: &Digest) -> Digest
    ensures { result.0 ≡ occult_request_digest_of id.now.0 target leaf.now.0 }
{
    placed_digest(Tag::OccultRequest, id, target, leaf)
}

/// The message that members 0 and 1 prove to occult all records of a clue: SHA-256 of the byte 0D, the ledger's identity (32
/// bytes), the clue's digest (32 bytes) and the number of these records (4 bytes, big-endian).
pub fn clue_occult_request_digest(id: &Digest, clue: &Digest, count: u32) -> Digest
    ensures { result.0 ≡ clue_occult_request_digest_of id.now.0 clue.now.0 count }
{
    let mut message = Filling::new();
    message.put(&[Tag::ClueOccultRequest.byte()]);
    message.put(&id.0);
    message.put(&clue.0);
    message.put(&count.to_be_bytes());
    message.digest()
}

/// The message that members prove to purge the journals below a point: SHA-256 of the byte 05, the ledger's identity (32
/// bytes), the point (8 bytes, big-endian) and the root of the journals below it (32 bytes).
pub fn purge_request_digest(id: &Digest, point: u64, root: &Digest) -> Digest
    ensures { result.0 ≡ purge_request_digest_of id.now.0 point root.now.0 }
{
    placed_digest(Tag::PurgeRequest, id, point, root)
}

// The digest of a tag's byte, an identity, a place in that ledger and a digest.
fn placed_digest(tag: Tag, id: &Digest, place: u64, digest: &Digest) -> Digest
    ensures { result.0 ≡ sha256 (byte_of tag ∷ (id.now.0 ++ to_be_bytes w64 place
        ++ digest.now.0)) }
{
    let mut message = Filling::new();
    message.put(&[tag.byte()]);
    message.put(&id.0);
    message.put(&place.to_be_bytes());
    message.put(&digest.0);
    message.digest()
}

/// The digest of a clue's name: SHA-256 of the byte 0C and the name, or 32 zero bytes for the empty name, which names
/// no clue.
pub fn clue_digest(name: &[u8]) -> Digest
    ensures { result.0 ≡ clue_digest_of name.now }
{
    if name.is_empty() {
        return Digest::ZERO;
    }
    tagged_digest(Tag::ClueName, name)
}

/// The digest of a ledger's name: SHA-256 of the byte 0B and the name.
pub fn name_digest(name: &[u8]) -> Digest
    ensures { result.0 ≡ name_digest_of name.now }
{
    tagged_digest(Tag::LedgerName, name)
}
