//! The approvals that stand in the bytes that show who placed a journal.

ghost use Rattle.std.specs.Prelude.{◌≡◌, ◌≢◌, ℕ, List, All, map, IfOk, IfSome, IfNone};
ghost use Rattle.ledger_bytes.specs.Fields.{ReadsFields};
ghost use Rattle.journal_record.specs.Approval.{who_of};
ghost use Rattle.journal_record.specs.declared.approval.Approval.{Approval};
ghost use Rattle.ledger_model.specs.Appends.{approval_of};
ghost use Rattle.ledger_model.specs.Scheme.{Scheme};
ghost use Rattle.audit_dump.specs.Approvals.{HasShortProof};
ghost use Rattle.audit_dump.specs.Said.{AreSaid, AreShown, said_at, said_of};

use journal_record::Approval;
use ledger_bytes::{Bad, Bytes, Digest, FieldReader, NoMemory};
use member_book::Verifier;
use std::alloc::Global;
use std::marker::Model;

// An approval as it stands in those bytes, lent from them. A contract sees it as an approval without a key.
#[derive(Debug, Drop)]
pub(crate) struct Said<'a> {
    // The member's number.
    pub(crate) member: u32,
    // The proof as it came.
    pub(crate) proof: &'a [u8],
}

impl<'a> Model for Said<'a> {
    ghost use Rattle.std.specs.Prelude.{None};
    ghost use Rattle.journal_record.specs.declared.approval.Approval.{Approval};

    ghost Value = { Approval };

    ghost view = { λ s. record { member = s.member; key = None; proof = s.proof.now } };
}

// The approvals of a message that the bytes `who` are, with the keys that the verifier finds in their proofs; `None` where
// they aren't approvals, one behind the other to the last byte. The proofs are copied, and the only error is
// that memory is wanted.
pub(crate) fn read_approvals<V: Verifier>(
    alloc: Global,
    verifier: &V,
    message: &Digest,
    who: &[u8],
) -> Result<Option<Vec<Approval>>, NoMemory>
    ensures found { IfOk result (λ read. IfSome read (λ given. AreShown
        (V.shows verifier.now) message.now.0 who.now given.items)) }
    ensures only { IfOk result (λ read. IfSome read (λ given. (other : List Approval)
        → AreShown (V.shows verifier.now) message.now.0 who.now other → given.items ≡ other)) }
    ensures none { IfOk result (λ read. IfNone read ((given : List Approval)
        → All HasShortProof given → who.now ≢ who_of given)) }
{
    match read_said(alloc, who)? {
        Some(said) => Ok(Some(shown_approvals(alloc, verifier, message, &said)?)),
        None => Ok(None),
    }
}

// These approvals as those of a message, with the keys that the verifier finds in their proofs.
fn shown_approvals<V: Verifier>(
    alloc: Global,
    verifier: &V,
    message: &Digest,
    said: &[Said],
) -> Result<Vec<Approval>, NoMemory>
    ensures { IfOk result (λ shown. shown.items
        ≡ map (λ by. approval_of (V.shows verifier.now) by.member message.now.0 by.proof)
        said.now) }
{
    let mut shown = Vec::new(alloc);
    for by in said {
        shown.push(shown_approval(alloc, verifier, message, by)?)?;
    }
    Ok(shown)
}

// This approval as one of a message, with the key that the verifier finds in its proof.
fn shown_approval<V: Verifier>(
    alloc: Global,
    verifier: &V,
    message: &Digest,
    by: &Said,
) -> Result<Approval, NoMemory>
    ensures { IfOk result (λ approval. approval ≡ approval_of
        (V.shows verifier.now) by.now.member message.now.0 by.now.proof) }
{
    let proof = Bytes::copy_of(alloc, by.proof)?;
    let key = verifier.key_of(message, proof.as_slice());
    Ok(Approval {
        member: by.member,
        key,
        proof,
    })
}

// The approvals that the bytes are, where they are approvals. The proofs are lent from the bytes.
pub(crate) fn read_said<'a>(alloc: Global, who: &'a [u8]) -> Result<Option<Vec<Said<'a>>>, NoMemory>
    ensures found { IfOk result (λ read. IfSome read (λ given. AreSaid who.now given.items)) }
    ensures none { IfOk result (λ read. IfNone read ((given : List Approval)
        → All HasShortProof given → who.now ≢ who_of given)) }
{
    let mut given = Vec::new(alloc);
    let mut reader = FieldReader::new(who);
    while reader.end().is_err() {
        match take_said(&mut reader) {
            Ok(said) => given.push(said)?,
            Err(_) => return Ok(None),
        }
    }
    Ok(Some(given))
}

// The approval that the bytes are, where they are one.
#[tactic(auto, unfolding(crate::specs::Said::said_of))]
pub(crate) fn only_said<'a>(who: &'a [u8]) -> Result<Said<'a>, Bad>
    ensures { result ≡ said_of who.now }
{
    let mut reader = FieldReader::new(who);
    let said = take_said(&mut reader)?;
    reader.end()?;
    Ok(said)
}

// Takes the next approval.
#[tactic(auto, unfolding(crate::specs::Said::said_at))]
fn take_said<'a>(reader: &mut FieldReader<'a>) -> Result<Said<'a>, Bad>
    ensures { ReadsFields result reader.new (said_at reader.old) }
{
    let member = reader.take_u32()?;
    let len = reader.take_u16()?;
    let proof = reader.take_slice(usize::from(len))?;
    Ok(Said { member, proof })
}

/// Bytes are approvals in one way at most: two lists of approvals of a message of which the same bytes are made are the same
/// list, in the members, the keys and the proofs.
pub fn bytes_are_approvals_in_one_way()
    ensures { (scheme : Scheme) (message who : List ℕ) (given other : List Approval)
        → AreShown scheme message who given → AreShown scheme message who other → given ≡ other }
{}
