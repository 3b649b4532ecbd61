//! Whether the auditor accepts a proof of a claim under the heads that it trusts, and else why not.

ghost use Rattle.std.specs.Prelude.{◌≡◌, ◌↔◌, IsOk};
ghost use Rattle.proof_codec.specs.Claims.{claim_of};
ghost use Rattle.proof_codec.specs.Reading.{IsBreak};
ghost use Rattle.audit_core.specs.Acceptance.{break_of, same_claim, is_unnoted, acceptance_under, acceptance, IsAccepted};

use crate::bounds::{in_order, lower_leads, lower_noted, upper_leads, upper_noted};
use crate::known::KnownLedger;
use crate::leading::path_leads;
use crate::{Heads, No};
use ledger_bytes::{Bad, Digest, TreeHash};
use proof_codec::{Claim, PROOF_LIMIT, Proof};
use script_lines::Which;

/// Accepts a proof of a claim under the trusted heads. The first of these that holds is the answer:
///
/// | Answer | Comes where |
/// |---|---|
/// | `Malformed` | the bytes spell no proof, with the place where they break, which is [`PROOF_LIMIT`] for too many |
/// | `HeadUnknown` | no head of the ledger at the proof's size is trusted, or with a bound none of the notary at its size |
/// | `ClaimDiffers` | the claim isn't the proof's |
/// | `LeafPath` | the leaf doesn't lead along its path to the ledger's trusted root |
/// | `LowerBound` | the time journal in front isn't in front, or its header or the root in front of it doesn't lead there |
/// | `UpperBound` | the time journal behind isn't behind, or the root in front of it doesn't lead there |
/// | `NotaryPath` | the notary's entry for a bound doesn't lead to the notary's trusted root |
/// | `TimesCross` | the time in front is greater than the one behind |
///
/// It takes no memory, and its cost grows with the bytes and with the logarithm of the number of heads.
pub fn accept<H: TreeHash>(proof: &[u8], claim: &Claim, heads: &Heads) -> Result<(), No>
    ensures exact { result ≡ acceptance H.of proof.now claim.now heads.now }
    // Yes comes exactly where the bytes spell a proof of this very claim, its leaf and bounds lead to the trusted roots with
    // the journal between the bounds, and their times don't cross.
    ensures yes { IsOk result ↔ IsAccepted H.of proof.now claim.now heads.now }
{
    answer_of::<H>(proof, claim, heads)
}

#[tactic(auto, unfolding(crate::specs::Acceptance::acceptance_by))]
fn answer_of<H: TreeHash>(proof: &[u8], claim: &Claim, heads: &Heads) -> Result<(), No>
    ensures { result ≡ acceptance H.of proof.now claim.now heads.now }
{
    let proof = match Proof::decode(proof) {
        Ok(proof) => proof,
        Err(bad) => return Err(No::Malformed { at: break_of(bad) }),
    };
    let notary = heads.root_of(Which::Notary, proof.notary_size);
    accept_under::<H>(&proof, claim, heads.ledger_at(proof.size), notary)
}

// Where bytes break that spell no proof.
pub(crate) fn break_of(bad: Bad) -> u64
    requires { IsBreak bad }
    ensures { result ≡ break_of bad }
{
    match bad {
        Bad::Short { at } | Bad::Trailing { at } | Bad::BadFixedField { at } => at,
        Bad::TooLong => PROOF_LIMIT as u64,
        Bad::BadKind { .. } | Bad::NewerFormat { .. } => unreachable!(),
    }
}

// The answer to a proof that was read, where this is known of the ledger at its size, and this root of the notary.
pub(crate) fn accept_under<H: TreeHash>(
    proof: &Proof,
    claim: &Claim,
    ledger: Option<KnownLedger>,
    notary: Option<Digest>,
) -> Result<(), No>
    ensures { result ≡ acceptance_under H.of claim.now proof.now ledger notary }
{
    let Some(ledger) = ledger else {
        return Err(No::HeadUnknown { size: proof.size });
    };
    if is_unnoted(proof, notary) {
        return Err(No::HeadUnknown {
            size: proof.notary_size,
        });
    }
    if !is_proof_of(proof, claim) {
        return Err(No::ClaimDiffers);
    }
    if !path_leads::<H>(&ledger.root, &proof.leaf, proof.n, proof.size, proof.path) {
        return Err(No::LeafPath);
    }
    if !lower_leads::<H>(proof, &ledger) {
        return Err(No::LowerBound);
    }
    if !upper_leads::<H>(proof, &ledger) {
        return Err(No::UpperBound);
    }
    if !lower_noted::<H>(proof, &ledger, notary) || !upper_noted::<H>(proof, &ledger, notary) {
        return Err(No::NotaryPath);
    }
    if !in_order(proof) {
        return Err(No::TimesCross);
    }
    Ok(())
}

fn is_proof_of(proof: &Proof, claim: &Claim) -> bool
    ensures { result ≡ same_claim (claim_of proof.now) claim.now }
{
    proof.claim() == *claim
}

fn is_unnoted(proof: &Proof, notary: Option<Digest>) -> bool
    ensures { result ≡ is_unnoted proof.now notary }
{
    notary.is_none() && (proof.lo.is_some() || proof.hi.is_some())
}
