//! Whose key a proof shows: what a scheme of proofs is, and the scheme of tags, which keeps nothing secret.

ghost use Rattle.std.specs.Prelude.{◌≡◌, ℕ, List, Option, option_map, Some, IfSome, length};
ghost use Rattle.journal_record.specs.Tags.{tag_key_of, tag_proof_of};

use journal_record::{tag_key, tag_of};
use ledger_bytes::Digest;

/// A scheme of proofs: it tells whose key a proof of a message shows. The answer depends on the message and the
/// proof alone.
pub trait Verifier: Sync {
    /// The key that a proof of a message shows, where it shows one.
    ghost shows: { Self → List ℕ → List ℕ → Option (List ℕ) };

    /// The key that the proof of the message shows; `None` where it is the proof of no key.
    fn key_of(&self, message: &Digest, proof: &[u8]) -> Option<Digest>
        ensures { option_map (λ d. d.0) result ≡ shows self.now message.now.0 proof.now };
}

/// The scheme of tags: a proof is the key and SHA-256 of the byte 40, the key and the message, 64 bytes together. It
/// names who approves, and keeps nothing secret: whoever knows the key can make the proof.
#[derive(Clone, Copy, Debug)]
pub struct TagScheme;

impl Verifier for TagScheme {
    ghost shows = { λ scheme message proof. tag_key_of message proof };

    fn key_of(&self, message: &Digest, proof: &[u8]) -> Option<Digest>
        ensures shows { option_map (λ d. d.0) result ≡ tag_key_of message.now.0 proof.now }
        // A key's proof shows that key, and what shows a key is that key's proof.
        ensures found { (key : List ℕ) → length key ≡ 32
            → proof.now ≡ tag_proof_of key message.now.0
            → option_map (λ d. d.0) result ≡ Some key }
        ensures only { IfSome result (λ key. proof.now ≡ tag_proof_of key.0 message.now.0) }
    {
        tag_key(message, proof)
    }
}

/// A key's proof of a message in the scheme of tags: the key and its tag.
pub fn tag_proof(key: &Digest, message: &Digest) -> [u8; 64]
    ensures proof { result ≡ tag_proof_of key.now.0 message.now.0 }
    ensures shown { tag_key_of message.now.0 result ≡ Some key.now.0 }
{
    let mut proof = [0; 64];
    let (front, back) = proof.split_at_mut(32);
    front.copy_from_slice(&key.0);
    back.copy_from_slice(&tag_of(key, message).0);
    proof
}
