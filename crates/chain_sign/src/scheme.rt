//! The scheme as a verifier of members' proofs.

ghost use Rattle.std.specs.Prelude.{◌≡◌, ◌↔◌, option_map, IsSome};
ghost use Rattle.sha2.specs.Sha256.{sha256};
ghost use Rattle.chain_sign.specs.Chain.{key_shown, IsSignature};

use crate::signature::chain_key_of;
use ledger_bytes::{Digest, Sha};
use member_book::Verifier;

/// The scheme of chains, over SHA-256: a proof is a signature by one of up to 1,024 one-time keys. It shows no secret of
/// the others; that a one-time key signs one message alone is the signer's affair.
#[derive(Clone, Copy, Debug)]
pub struct ChainScheme;

impl Verifier for ChainScheme {
    ghost shows = { λ scheme message proof. key_shown sha256 message proof };

    fn key_of(&self, message: &Digest, proof: &[u8]) -> Option<Digest>
        ensures shows { option_map (λ d. d.0) result ≡ key_shown sha256 message.now.0 proof.now }
        ensures some { IsSome result ↔ IsSignature proof.now }
    {
        chain_key_of::<Sha>(message, proof)
    }
}
