//! The digests of a journal's content and of the bytes that show who placed it.

ghost use Rattle.std.specs.Prelude.{◌≡◌, ◌+◌, ◌<◌, ◌^◌, [], ◌∷◌, ◌++◌, length, All};
ghost use Rattle.sha2.specs.Sha256.{sha256};
ghost use Rattle.ledger_bytes.specs.Tags.{byte_of};
ghost use Rattle.journal_record.specs.Approval.{who_of};
ghost use Rattle.journal_record.specs.Entry.{content_digest_of, who_digest_of};
ghost use Rattle.journal_record.specs.declared.header.TheConstants.{HEADER_LEN};

use crate::filling::Filling;
use crate::{Approval, HEADER_LEN};
use ledger_bytes::{Digest, Sha, Tag, TreeHash};
use std::slice;

/// The digest of a journal's content: SHA-256 of the byte 02 and the content.
pub fn content_digest(content: &[u8]) -> Digest
    ensures { result.0 ≡ content_digest_of content.now }
{
    tagged_digest(Tag::Content, content)
}

/// The digest of the bytes that show who placed a journal: SHA-256 of the byte 0A and those bytes.
pub fn who_digest(who: &[u8]) -> Digest
    ensures { result.0 ≡ who_digest_of who.now }
{
    tagged_digest(Tag::Who, who)
}

/// The digest of the bytes that show that one member alone placed a journal: of its approval's. It takes no memory.
pub fn approval_digest(by: &Approval) -> Digest
    requires { length by.now.proof < 2 ^ 16 }
    ensures { result.0 ≡ who_digest_of (who_of (by.now ∷ [])) }
{
    let front = by.front();
    let proof = by.proof.as_slice();
    if front.len() + proof.len() < HEADER_LEN {
        short_digest(Tag::Who, &front, proof)
    } else {
        approvals_digest(slice::from_ref(by))
    }
}

/// The digest of the bytes that show which members approved a journal: of those of these approvals, in their order. It
/// takes no memory.
pub fn approvals_digest(given: &[Approval]) -> Digest
    requires { All (λ a. length a.proof < 2 ^ 16) given.now }
    ensures { result.0 ≡ who_digest_of (who_of given.now) }
{
    let mut hasher = Sha::start(Tag::Who.byte());
    for approval in given {
        hasher.add(&approval.front());
        hasher.add(approval.proof.as_slice());
    }
    hasher.end()
}

// The digest of a tag's byte and some bytes.
pub(crate) fn tagged_digest(tag: Tag, bytes: &[u8]) -> Digest
    ensures { result.0 ≡ sha256 (byte_of tag ∷ bytes.now) }
{
    if bytes.len() < HEADER_LEN {
        return short_digest(tag, &[], bytes);
    }
    let mut hasher = Sha::start(tag.byte());
    hasher.add(bytes);
    hasher.end()
}

// The digest of a tag's byte and a few bytes, which are hashed in one piece: that is faster than piece by piece.
fn short_digest(tag: Tag, front: &[u8], rest: &[u8]) -> Digest
    requires { length front.now + length rest.now < HEADER_LEN }
    ensures { result.0 ≡ sha256 (byte_of tag ∷ (front.now ++ rest.now)) }
{
    let mut message = Filling::new();
    message.put(&[tag.byte()]);
    message.put(front);
    message.put(rest);
    message.digest()
}
