//! The tag scheme: a proof of a message, which shows a key.

ghost use Rattle.std.specs.Prelude.{◌≡◌, ℕ, List, length, Some, IfSome, option_map};
ghost use Rattle.journal_record.specs.Tags.{tag_of, tag_key_of, tag_proof_of};

use crate::filling::Filling;
use ledger_bytes::{Digest, Tag};

/// The key that a tag proof of this message shows, or `None` where the bytes are no such proof. A tag proof is the
/// key and the key's tag of the message: 64 bytes, of which the last 32 are SHA-256 of the byte 40, the key and the
/// message.
pub fn tag_key(message: &Digest, proof: &[u8]) -> Option<Digest>
    ensures key { option_map (λ d. d.0) result ≡ tag_key_of message.now.0 proof.now }
    // A key's proof shows that key, and what shows a key is that key's proof.
    ensures found { (key : List ℕ) → length key ≡ 32 → proof.now ≡ tag_proof_of key message.now.0
        → option_map (λ d. d.0) result ≡ Some key }
    ensures only { IfSome result (λ key. proof.now ≡ tag_proof_of key.0 message.now.0) }
{
    let (key, tag) = proof.split_first_chunk::<32>()?;
    let key = Digest(*key);
    if tag == tag_of(&key, message).0.as_slice() {
        Some(key)
    } else {
        None
    }
}

/// A key's tag of a message: SHA-256 of the byte 40, the key and the message.
pub fn tag_of(key: &Digest, message: &Digest) -> Digest
    ensures { result.0 ≡ tag_of key.now.0 message.now.0 }
{
    let mut proved = Filling::new();
    proved.put(&[Tag::Proof.byte()]);
    proved.put(&key.0);
    proved.put(&message.0);
    proved.digest()
}
