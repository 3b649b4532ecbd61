//! What a proof of a claim is worth to one who has all headers of the ledger and all entries of its notary.

ghost use Rattle.std.specs.Prelude.{◌≡◌, ◌↔◌, ℕ, ◌%◌, ◌<◌, ◌≤◌, List, length, [], Ok, Err};
ghost use Rattle.tree_model.specs.Tree.{cut};
ghost use Rattle.tree_model.specs.Clash.{Clashes};
ghost use Rattle.merkle_tree.specs.declared.clash.Clash.{Clash as ClashRecord};
ghost use Rattle.merkle_tree.specs.Strings.{pair_of};
ghost use Rattle.proof_codec.specs.Proofs.{IsProof};
ghost use Rattle.audit_core.specs.declared.refusal.No.{No as Refusal};
ghost use Rattle.audit_core.specs.Truth.{lists_of, IsTrueOf};
ghost use Rattle.audit_core.specs.Parts.{first_of_parts, parts_of, ShownGives, IsClashOf};
ghost use Rattle.audit_core.specs.Honest.{IsHonest, AreMoments};
ghost use Rattle.audit_core.specs.Judgement.{own_root, own_ledger, own_acceptance, IsAcceptedByOwn, clash_of, judgement, told_by, Judges, JudgesShown};

use crate::acceptance::{accept_under, break_of};
use crate::known::KnownLedger;
use crate::parts::first_clash;
use crate::pieces::piece_count;
use crate::truth::is_true;
use crate::{No, Verdict};
use journal_record::HEADER_LEN;
use ledger_bytes::{Digest, TreeHash};
use merkle_tree::{Clash, mth};
use proof_codec::{Claim, Proof};
use time_peg::ENTRY_LEN;

/// Judges a proof of a claim by the whole lists: the headers of all journals of the ledger with this id, 174 bytes each,
/// and all entries of its notary, 72 bytes each. It trusts the lists' own heads and no other. Where a claim that is
/// accepted is false, the two strings are those of the first of these that isn't of the lists: the leaf's path; the path
/// of the lower bound's header, that header, and its extension; the extension of the upper bound; the path of the lower
/// bound's entry, and that entry; the path of the upper bound's entry, and that entry.
///
/// It takes no memory. It hashes the lists once, and the headers in front of each bound again; for a clash also a list
/// again, at most once for each digest of a path or an extension.
pub fn judge<H: TreeHash>(
    id: &Digest,
    headers: &[u8],
    entries: &[u8],
    proof: &[u8],
    claim: &Claim,
) -> Verdict
    requires ledger { length headers.now % 174 ≡ 0 }
    requires notary { length entries.now % 72 ≡ 0 }
    ensures exact { told_by result
        ≡ judgement H.of (lists_of id.now headers.now entries.now) proof.now claim.now }
    // A proof that isn't accepted is refused, with what `accept` answers under these heads.
    ensures unaccepted { (why : Refusal) → (result ≡ Verdict.Unaccepted why)
        ↔ (own_acceptance H.of (lists_of id.now headers.now entries.now) proof.now claim.now
        ≡ Err why) }
    ensures holds { (result ≡ Verdict.True)
        ↔ (IsAcceptedByOwn H.of (lists_of id.now headers.now entries.now) proof.now claim.now
        × IsTrueOf H.of (lists_of id.now headers.now entries.now) claim.now) }
    // One that is accepted of a false claim shows two different strings with one digest, the proof's first.
    ensures clash { ((found : ClashRecord) × (result ≡ Verdict.Clash found))
        ↔ (IsAcceptedByOwn H.of (lists_of id.now headers.now entries.now) proof.now claim.now
        × (IsTrueOf H.of (lists_of id.now headers.now entries.now) claim.now → ⊥)) }
    ensures strings { (found : ClashRecord) → result ≡ Verdict.Clash found
        → IsClashOf H.of (clash_of H.of (lists_of id.now headers.now entries.now) proof.now)
        (pair_of found) }
    // Where the notary is honest, the bounds of a claim that holds are moments.
    ensures moments { (moments : List ℕ) → result ≡ Verdict.True
        → IsHonest H.of (lists_of id.now headers.now entries.now) moments
        → AreMoments moments claim.now }
{
    verdict_of::<H>(id, headers, entries, proof, claim)
}

fn verdict_of<H: TreeHash>(
    id: &Digest,
    headers: &[u8],
    entries: &[u8],
    proof: &[u8],
    claim: &Claim,
) -> Verdict
    requires ledger { length headers.now % 174 ≡ 0 }
    requires notary { length entries.now % 72 ≡ 0 }
    ensures { Judges H.of (lists_of id.now headers.now entries.now) proof.now claim.now
        (told_by result) }
{
    match Proof::decode(proof) {
        Ok(shown) => judge_shown::<H>(id, headers, entries, &shown, claim),
        Err(bad) => Verdict::Unaccepted(No::Malformed { at: break_of(bad) }),
    }
}

// Judges a proof that was read.
fn judge_shown<H: TreeHash>(
    id: &Digest,
    headers: &[u8],
    entries: &[u8],
    shown: &Proof,
    claim: &Claim,
) -> Verdict
    requires ledger { length headers.now % 174 ≡ 0 }
    requires notary { length entries.now % 72 ≡ 0 }
    requires proof { IsProof shown.now }
    ensures { JudgesShown H.of
        (lists_of id.now headers.now entries.now) claim.now shown.now (told_by result) }
{
    let ledger = ledger_at::<H>(id, headers, shown.size);
    let notary = root_at::<H>(entries, ENTRY_LEN, shown.notary_size);
    match accept_under::<H>(shown, claim, ledger, notary) {
        Err(no) => Verdict::Unaccepted(no),
        Ok(()) => {
            if is_true::<H>(id, headers, entries, claim) {
                Verdict::True
            } else {
                Verdict::Clash(shown_clash::<H>(id, headers, entries, shown))
            }
        }
    }
}

// The strings that an accepted proof shows, where it shows some.
fn shown_clash<H: TreeHash>(id: &Digest, headers: &[u8], entries: &[u8], shown: &Proof) -> Clash
    requires ledger { length headers.now % 174 ≡ 0 }
    requires notary { length entries.now % 72 ≡ 0 }
    requires gives { ShownGives H.of (lists_of id.now headers.now entries.now) shown.now }
    requires shows { Clashes H.of
        (first_of_parts (parts_of H.of (lists_of id.now headers.now entries.now) shown.now)) }
    ensures { IsClashOf H.of
        (first_of_parts (parts_of H.of (lists_of id.now headers.now entries.now) shown.now))
        (pair_of result) }
{
    match first_clash::<H>(id, headers, entries, shown) {
        Some(clash) => clash,
        None => unreachable!(),
    }
}

// What is known of the ledger by the list of its headers.
fn ledger_at<H: TreeHash>(id: &Digest, headers: &[u8], size: u64) -> Option<KnownLedger>
    requires whole { length headers.now % 174 ≡ 0 }
    ensures { result ≡ own_ledger H.of (lists_of id.now headers.now []) size }
{
    let root = root_at::<H>(headers, HEADER_LEN, size)?;
    Some(KnownLedger { id: *id, root })
}

// The root of a list, at its own size alone.
fn root_at<H: TreeHash>(flat: &[u8], width: usize, size: u64) -> Option<Digest>
    requires low { 0 < width }
    requires high { width ≤ 174 }
    requires whole { length flat.now % width ≡ 0 }
    ensures { result ≡ own_root H.of (cut width flat.now) size }
{
    if size == piece_count(flat, width) {
        Some(mth::<H>(flat, width))
    } else {
        None
    }
}
