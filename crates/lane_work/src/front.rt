//! The front of a record's request, which is hashed once for records of one member and one clue that come one after the other.

ghost use Rattle.std.specs.Prelude.{◌≡◌, ◌↔◌, true};
ghost use Rattle.journal_record.specs.Request.{request_digest_of};

use ledger_bytes::{Digest, Tag};
use sha2::{Digest as Hasher, Sha256};
use std::marker::Model;

/// A hasher that holds the first 69 bytes of a request, of which 64 are a whole block.
#[derive(Drop)]
pub(crate) struct Front {
    id: Digest,
    member: u32,
    clue: Digest,
    hasher: Sha256,
}

impl Model for Front {
    ghost use Rattle.sha2.specs.Hashers.{Holds256};
    ghost use Rattle.lane_work.specs.Fronts.{FrontOf, front_bytes};

    ghost Value = { FrontOf };

    ghost view = { λ f. record { id = f.id; member = f.member; clue = f.clue } };

    ghost invariant = { λ f. Holds256 f.hasher (front_bytes f.id.0 f.member f.clue.0) };
}

impl Front {
    fn of(id: &Digest, member: u32, clue: &Digest) -> Self
        ensures id { result.id ≡ id.now }
        ensures member { result.member ≡ member }
        ensures clue { result.clue ≡ clue.now }
    {
        let mut hasher = Sha256::new();
        hasher.update([Tag::AppendRequest.byte()].as_slice());
        hasher.update(id.0.as_slice());
        hasher.update(member.to_be_bytes().as_slice());
        hasher.update(clue.0.as_slice());
        Front {
            id: *id,
            member,
            clue: *clue,
            hasher,
        }
    }

    // Whether it is that of this member's requests for this clue.
    fn is_of(&self, id: &Digest, member: u32, clue: &Digest) -> bool
        ensures { (result ≡ true)
            ↔ ((self.now.id ≡ id.now) × (self.now.member ≡ member) × (self.now.clue ≡ clue.now)) }
    {
        self.id == *id && self.member == member && self.clue == *clue
    }

    // The digest of a request that begins so.
    fn request(&self, content_len: u32, content: &Digest, number: u64) -> Digest
        ensures { result.0 ≡ request_digest_of self.now.id.0 self.now.member self.now.clue.0 content_len
            content.now.0 number }
    {
        let Ok(mut hasher) = self.hasher.clone() else {
            unreachable!()
        };
        hasher.update(content_len.to_be_bytes().as_slice());
        hasher.update(content.0.as_slice());
        if number != 0 {
            hasher.update(number.to_be_bytes().as_slice());
        }
        Digest(hasher.finalize())
    }
}

/// The digest of a record's request, as `request_digest` (`journal_record`) makes it. Where the last one that was made with this
/// front was of the same member and clue, its front isn't hashed again.
pub(crate) fn request_behind(
    front: &mut Option<Front>,
    id: &Digest,
    member: u32,
    clue: &Digest,
    content_len: u32,
    content: &Digest,
    number: u64,
) -> Digest
    ensures { result.0 ≡ request_digest_of id.now.0 member clue.now.0 content_len content.now.0 number }
{
    if let Some(kept) = front {
        if kept.is_of(id, member, clue) {
            return kept.request(content_len, content, number);
        }
    }
    let new = Front::of(id, member, clue);
    let request = new.request(content_len, content, number);
    *front = Some(new);
    request
}
