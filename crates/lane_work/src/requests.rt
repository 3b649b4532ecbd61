//! The jobs of lines that members prove: records, new members, occults, of one record or of a clue's, and purges.

ghost use Rattle.std.specs.Prelude.{◌≡◌, ◌≤◌, length, map, true, IfOk};
ghost use Rattle.ledger_bytes.specs.declared.limits.TheConstants.{CONTENT_LIMIT, PROOF_LIMIT};
ghost use Rattle.script_lines.specs.Limits.{fits_approvals};
ghost use Rattle.ledger_model.specs.Appends as appends;
ghost use Rattle.ledger_model.specs.Fitting.{fits_job};

use crate::front::{Front, request_behind};
use journal_record::{
    Approval, approval_digest, clue_digest, clue_occult_request_digest, content_digest,
    member_request_digest, occult_request_digest, purge_request_digest,
};
use ledger_book::Job;
use ledger_bytes::{Bytes, Digest, Items, NoMemory};
use member_book::Verifier;
use script_lines::SaidApproval;
use std::alloc::Global;

/// The job of a member's record with this clue, or with 32 zero bytes for none, and with this number of the request, or 0 for
/// none, on the ledger with this id: with the digests that the member approves, the key that the proof shows to this
/// verifier, and the digest of the approval. `front` is that of the last record's request.
pub(crate) fn record_job<V: Verifier>(
    verifier: &V,
    front: &mut Option<Front>,
    id: &Digest,
    member: u32,
    clue: Digest,
    content: Bytes,
    proof: Bytes,
    number: u64,
) -> Job
    requires content { length content ≤ CONTENT_LIMIT }
    requires proof { length proof ≤ PROOF_LIMIT }
    ensures job { result ≡ appends.append_with
        (V.shows verifier.now) id.now.0 member clue content proof number }
    ensures fits { fits_job result ≡ true }
{
    let digest = content_digest(content.as_slice());
    let content_len = content.as_slice().len() as u32;
    let request = request_behind(front, id, member, &clue, content_len, &digest, number);
    let key = verifier.key_of(&request, proof.as_slice());
    let by = Approval { member, key, proof };
    let who = approval_digest(&by);
    Job::Append {
        member,
        clue,
        content,
        content_digest: digest,
        request,
        by,
        who,
        number,
    }
}

/// The job of a new member with this number and key on the ledger with this id, with the key that the proof of member 0
/// shows to this verifier.
pub(crate) fn member_job<V: Verifier>(
    verifier: &V,
    id: &Digest,
    number: u32,
    key: Digest,
    proof: Bytes,
) -> Job
    requires { length proof ≤ PROOF_LIMIT }
    ensures job { result ≡ appends.member_job (V.shows verifier.now) id.now.0 number key proof }
    ensures fits { fits_job result ≡ true }
{
    let request = member_request_digest(id, number, &key);
    let shown = verifier.key_of(&request, proof.as_slice());
    Job::NewMember {
        number,
        key,
        by: Approval {
            member: 0,
            key: shown,
            proof,
        },
    }
}

/// The job of an occult of the record with this number and this leaf digest on the ledger with this id, with the keys that
/// the proofs of its approvals show to this verifier.
pub(crate) fn occult_job<V: Verifier>(
    alloc: Global,
    verifier: &V,
    id: &Digest,
    target: u64,
    leaf: Digest,
    given: &[SaidApproval],
) -> Result<Job, NoMemory>
    requires { fits_approvals given.now ≡ true }
    ensures job { IfOk result (λ job. job ≡ appends.occult_job
        (V.shows verifier.now) id.now.0 target leaf given.now) }
    ensures fits { IfOk result (λ job. fits_job job ≡ true) }
{
    let request = occult_request_digest(id, target, &leaf);
    let shown = shown_approvals(alloc, verifier, &request, given)?;
    Ok(Job::Occult {
        target,
        leaf,
        given: Items::of(shown),
    })
}

/// The job of an occult of all records of the clue with this name, of which there are `count`, on the ledger with this id, with
/// the keys that the proofs of its approvals show to this verifier.
pub(crate) fn clue_occult_job<V: Verifier>(
    alloc: Global,
    verifier: &V,
    id: &Digest,
    name: &[u8],
    count: u32,
    given: &[SaidApproval],
) -> Result<Job, NoMemory>
    requires { fits_approvals given.now ≡ true }
    ensures job { IfOk result (λ job. job ≡ appends.clue_occult_job
        (V.shows verifier.now) id.now.0 name.now count given.now) }
    ensures fits { IfOk result (λ job. fits_job job ≡ true) }
{
    let clue = clue_digest(name);
    let request = clue_occult_request_digest(id, &clue, count);
    let shown = shown_approvals(alloc, verifier, &request, given)?;
    Ok(Job::OccultClue {
        clue,
        count,
        given: Items::of(shown),
    })
}

/// The job of a purge to the time journal with this number, where this is the root over the journals in front of it, on the
/// ledger with this id, with the keys that the proofs of its approvals show to this verifier.
pub(crate) fn purge_job<V: Verifier>(
    alloc: Global,
    verifier: &V,
    id: &Digest,
    point: u64,
    root: Digest,
    given: &[SaidApproval],
) -> Result<Job, NoMemory>
    requires { fits_approvals given.now ≡ true }
    ensures job { IfOk result (λ job. job ≡ appends.purge_job
        (V.shows verifier.now) id.now.0 point root given.now) }
    ensures fits { IfOk result (λ job. fits_job job ≡ true) }
{
    let request = purge_request_digest(id, point, &root);
    let shown = shown_approvals(alloc, verifier, &request, given)?;
    Ok(Job::Purge {
        point,
        root,
        given: Items::of(shown),
    })
}

// The approvals of a request, each with the key that its proof shows to this verifier.
fn shown_approvals<V: Verifier>(
    alloc: Global,
    verifier: &V,
    request: &Digest,
    given: &[SaidApproval],
) -> Result<Vec<Approval>, NoMemory>
    ensures { IfOk result (λ shown. shown.items
        ≡ map (λ by. appends.approval_of (V.shows verifier.now) by.member request.now.0 by.proof)
        given.now) }
{
    let mut shown = Vec::new(alloc);
    for by in given {
        shown.push(shown_approval(alloc, verifier, request, by)?)?;
    }
    Ok(shown)
}

// An approval of a request, with the key that its proof shows to this verifier.
fn shown_approval<V: Verifier>(
    alloc: Global,
    verifier: &V,
    request: &Digest,
    by: &SaidApproval,
) -> Result<Approval, NoMemory>
    ensures { IfOk result (λ approval. approval ≡ appends.approval_of
        (V.shows verifier.now) by.now.member request.now.0 by.now.proof) }
{
    let proof = Bytes::copy_of(alloc, by.proof.as_slice())?;
    let key = verifier.key_of(request, proof.as_slice());
    Ok(Approval {
        member: by.member,
        key,
        proof,
    })
}
