//! The proof of a journal, and the bytes that spell it.

ghost use Rattle.std.specs.Prelude.{◌≡◌, ◌≢◌, ◌⊎◌, ℕ, ◌<◌, ◌≤◌, List, [], ◌∷◌, ◌++◌, length, take, IfOk, IfErr};
ghost use Rattle.proof_codec.specs.Proofs.{Shown, IsProof, spelling, lower_place, upper_place, proof_len};
ghost use Rattle.proof_codec.specs.Reading.{proof_of, IsBreak};
ghost use Rattle.proof_codec.specs.Claims.{claim_of};

use crate::reading::read;
use crate::writing::write;
use crate::{Claim, Lower, Upper};
use ledger_bytes::{Bad, Bytes, Digest, NoMemory};
use std::alloc::Global;
use std::marker::Model;

/// The greatest length of a proof in bytes.
pub const PROOF_LIMIT: usize = 8192;

/// A proof that a journal stands in a ledger, with its bounds in time, read from bytes that it borrows. Its spelling has
/// these fields one after the other, all numbers unsigned and big-endian, and at most [`PROOF_LIMIT`] bytes. Digests that
/// are counted stand behind one byte with their number.
///
/// | Length | Field |
/// |---|---|
/// | 1 | version, 1 |
/// | 8 | the size of the ledger whose root the proof leads to |
/// | 8 | the journal's number n |
/// | 32 | the digest of its leaf |
/// | 1 + 32c | the path of leaf n in the tree of that size, from the leaf up (RFC 6962, section 2.1.1) |
/// | 1 | flag of the lower bound: 0 there is none, 1 the next four fields follow |
/// | 174 | the header of time journal j |
/// | 1 + 32c | the path of leaf j |
/// | 32 | the root over the first j journals |
/// | 1 + 32c | the proof that the tree goes on from them (RFC 6962, section 2.1.2) |
/// | 1 | flag of the upper bound: 0 there is none, 1 the next four fields follow |
/// | 24 | the number m of a time journal, its notary's index and time |
/// | 32 | the salt of the notary's entry |
/// | 32 | the root over the first m journals |
/// | 1 + 32c | the proof that the tree goes on from them |
/// | 8 | with a bound, the size of the notary's list |
/// | 1 + 32c | with a lower bound, the path of its entry in the notary's tree |
/// | 1 + 32c | with an upper bound, the path of its entry |
#[derive(Debug, Drop)]
pub struct Proof<'a> {
    pub size: u64,
    pub n: u64,
    pub leaf: Digest,
    pub path: &'a [u8],
    pub lo: Option<Lower<'a>>,
    pub hi: Option<Upper<'a>>,
    /// 0 where there is no bound.
    pub notary_size: u64,
    /// Empty where there is no lower bound.
    pub lo_path: &'a [u8],
    /// Empty where there is no upper bound.
    pub hi_path: &'a [u8],
}

impl<'a> Model for Proof<'a> {
    ghost use Rattle.proof_codec.specs.Proofs.{Shown};

    ghost Value = { Shown };

    ghost view = { λ p. record {
      size = p.size;
      n = p.n;
      leaf = p.leaf;
      path = p.path.now;
      lo = p.lo;
      hi = p.hi;
      notary_size = p.notary_size;
      lo_path = p.lo_path.now;
      hi_path = p.hi_path.now;
    } };
}

impl<'a> Proof<'a> {
    /// Reads a proof. Errors come by the first break in the order of the bytes: `TooLong` above [`PROOF_LIMIT`]
    /// before all others; `BadFixedField` at offset 0 for another version, at a flag's offset for a flag above 1, and at
    /// the header's offset for a header that isn't a time journal's; `Short` where a field isn't whole; `Trailing` last.
    /// In a header that is cut off what breaks a rule is told before that, and its kind isn't looked at.
    pub fn decode(bytes: &'a [u8]) -> Result<Proof<'a>, Bad>
        // Which answer it is, and at a break which break and where.
        ensures exact { result ≡ proof_of bytes.now }
        // What is read is spelled so, each byte of it.
        ensures found { IfOk result (λ p. IsProof p × (bytes.now ≡ spelling p)) }
        // What is spelled so is read.
        ensures only { (p : Shown) → IsProof p → bytes.now ≡ spelling p → result ≡ Ok p }
        // No other error comes.
        ensures breaks { IfErr result IsBreak }
        // What is left of a proof when its end is cut off is too short.
        ensures cut { (p : Shown) (k : ℕ) → IsProof p → k < length (spelling p)
            → bytes.now ≡ take k (spelling p)
            → result ≡ Err (Bad.Short k) }
        // Bytes behind a proof are told by the place of the first.
        ensures trailing { (p : Shown) (rest : List ℕ) → IsProof p → rest ≢ []
            → length bytes.now ≤ 8192
            → bytes.now ≡ spelling p ++ rest → result ≡ Err (Bad.Trailing (length (spelling p))) }
        // Another version, whatever follows, is told at its place.
        ensures version { (version : ℕ) (rest : List ℕ) → version ≢ 1 → length bytes.now ≤ 8192
            → bytes.now ≡ version ∷ rest → result ≡ Err (Bad.BadFixedField 0) }
        // So is another flag.
        ensures flag { (p : Shown) (at flag : ℕ) (rest : List ℕ) → IsProof p
            → (at ≡ lower_place p) ⊎ (at ≡ upper_place p)
            → 1 < flag → length bytes.now ≤ 8192
            → bytes.now ≡ take at (spelling p) ++ flag ∷ rest
            → result ≡ Err (Bad.BadFixedField at) }
    {
        read(bytes)
    }

    /// What the proof claims: the journal, its leaf digest, and its bounds in time.
    pub fn claim(&self) -> Claim
        ensures { result ≡ claim_of self.now }
    {
        Claim {
            n: self.n,
            leaf: self.leaf,
            lo: self.lo.as_ref().map(|lower| lower.mark()),
            hi: self.hi.as_ref().map(|upper| upper.mark),
        }
    }

    /// The one spelling of the proof, as a reply tells it.
    pub fn encode(&self, alloc: Global) -> Result<Bytes, NoMemory>
        requires { IsProof self.now }
        ensures text { IfOk result (λ bytes. bytes ≡ spelling self.now) }
        ensures len { IfOk result (λ bytes. length bytes ≡ proof_len self.now) }
        // Its bytes are read as this proof.
        ensures again { IfOk result (λ bytes. proof_of bytes ≡ Ok self.now) }
    {
        write(self, alloc)
    }
}
