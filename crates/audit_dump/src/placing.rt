//! Whether those placed a journal who had to.

ghost use Rattle.std.specs.Prelude.{◌≡◌, ◌↔◌, ◌<◌, ◌≤◌, ◌^◌, ℕ, List, true, slice_get, IsTrue, IfOk, length, map, option_map};
ghost use Rattle.journal_record.specs.Members.{keys, is_key_of};
ghost use Rattle.ledger_bytes.specs.declared.limits.TheConstants.{MEMBER_LIMIT};
ghost use Rattle.member_book.specs.Approvals.{approvals_refusal};
ghost use Rattle.audit_dump.specs.Approvals.{IsOf, AreOf, AreInForm};
ghost use Rattle.audit_dump.specs.Said.{own_approval};

use crate::given::{Said, only_said, read_approvals, read_said};
use journal_record::Approval;
use ledger_bytes::{Bytes, Digest, NoMemory};
use member_book::{MemberBook, Verifier};
use std::alloc::Global;

// The key that the bytes `who` show, where they are one approval of a message by this member. It takes no memory.
pub(crate) fn key_in<V: Verifier>(
    verifier: &V,
    message: &Digest,
    member: u32,
    who: &[u8],
) -> Option<Digest>
    ensures { (known : List (List ℕ)) → (is_key_of result (slice_get known member) ≡ true)
        ↔ IsOf (V.shows verifier.now) known message.now.0 member who.now }
{
    match only_said(who) {
        Ok(said) => {
            if said.member == member {
                verifier.key_of(message, said.proof)
            } else {
                None
            }
        }
        Err(_) => None,
    }
}

// Whether the bytes `who` are one approval of a message, by this member and with this member's key. It takes no memory.
pub(crate) fn is_of<V: Verifier>(
    verifier: &V,
    known: &MemberBook,
    message: &Digest,
    member: u32,
    who: &[u8],
) -> bool
    ensures { IsTrue result ↔ IsOf
        (V.shows verifier.now) (keys known.now) message.now.0 member who.now }
{
    is_key(key_in(verifier, message, member, who), known.key(member))
}

// Whether a proof shows a key, and it is this one.
pub(crate) fn is_key(shown: Option<Digest>, kept: Option<Digest>) -> bool
    ensures { result ≡ is_key_of shown (option_map (λ d. d.0) kept) }
{
    match (shown, kept) {
        (Some(shown), Some(kept)) => shown == kept,
        _ => false,
    }
}

// Whether the bytes `who` are approvals of a message, in the order of their members, each of a known member and with that
// member's key, and those of the needed members are among them. The proofs are copied meanwhile, and the only error is
// that memory is wanted.
pub(crate) fn are_of<V: Verifier>(
    alloc: Global,
    verifier: &V,
    known: &MemberBook,
    message: &Digest,
    needed: &[u32],
    who: &[u8],
) -> Result<bool, NoMemory>
    requires { length who.now < 2 ^ 32 }
    ensures { IfOk result (λ good. IsTrue good ↔ AreOf
        (V.shows verifier.now) (keys known.now) message.now.0 needed.now who.now) }
{
    match read_approvals(alloc, verifier, message, who)? {
        Some(given) => Ok(are_accepted(known, given.as_slice(), needed)),
        None => Ok(false),
    }
}

// Whether approvals are accepted, where those of the needed members are asked for. The contract tells besides how many members
// there are at most.
fn are_accepted(known: &MemberBook, given: &[Approval], needed: &[u32]) -> bool
    requires { length given.now < 2 ^ 32 }
    ensures accepted { IsTrue result
        ↔ (approvals_refusal (keys known.now) given.now needed.now ≡ None) }
    ensures few { length (keys known.now) ≤ MEMBER_LIMIT }
{
    let _count = known.count();
    known.check_approvals(given, needed).is_ok()
}

// Whether the bytes `who` are approvals in the order of their members, each of a known member, and those of the needed
// members are among them. What their proofs show isn't asked. The only error is that memory is wanted.
pub(crate) fn are_in_form(
    alloc: Global,
    known: &MemberBook,
    needed: &[u32],
    who: &[u8],
) -> Result<bool, NoMemory>
    requires { length who.now < 2 ^ 32 }
    ensures { IfOk result (λ good. IsTrue good ↔ AreInForm (keys known.now) needed.now who.now) }
{
    match read_said(alloc, who)? {
        Some(said) => {
            let own = own_approvals(alloc, known, said.as_slice())?;
            Ok(are_accepted(known, own.as_slice(), needed))
        }
        None => Ok(false),
    }
}

// These approvals, each with the key of its member in place of the one that its proof shows.
fn own_approvals(
    alloc: Global,
    known: &MemberBook,
    said: &[Said],
) -> Result<Vec<Approval>, NoMemory>
    ensures { IfOk result (λ own. own.items ≡ map (own_approval (keys known.now)) said.now) }
{
    let mut own = Vec::new(alloc);
    for by in said {
        own.push(with_own_key(alloc, known, by))?;
    }
    Ok(own)
}

// This approval with the key of its member, where there is such a member, and no proof.
fn with_own_key(alloc: Global, known: &MemberBook, by: &Said) -> Approval
    ensures { result ≡ own_approval (keys known.now) by.now }
{
    Approval {
        member: by.member,
        key: known.key(by.member),
        proof: Bytes::of(Vec::new(alloc)),
    }
}
