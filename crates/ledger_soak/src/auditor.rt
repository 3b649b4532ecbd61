//! The auditor of a soak, who trusts the last head of the ledger and of its notary.

ghost use Rattle.std.specs.Prelude.{◌≡◌, ◌≤◌, [], None, Some, IfOk, IfSome, IsSomeAnd};
ghost use Rattle.ledger_book.specs.Books.{Serves};
ghost use Rattle.ledger_model.specs.History as model;
ghost use Rattle.ledger_model.specs.History.{History};
ghost use Rattle.script_lines.specs.declared.said.Which.TheVariants.{Ledger, Notary};
ghost use Rattle.audit_core.specs.Acceptance.{IsAccepted};
ghost use Rattle.ledger_model.specs.Pegs.{Pegged};
ghost use Rattle.ledger_model.specs.Proofs.{shown_of, prove_refusal};
ghost use Rattle.ledger_model.specs.Texts.{proof_reply, told_mark};
ghost use Rattle.script_lines.specs.Replies as replies;
ghost use Rattle.script_lines.specs.declared.reply.Reply.TheVariants as reply_of;
ghost use Rattle.sha2.specs.Sha256.{sha256};
ghost use Rattle.audit_core.specs.Extending.{extend_refusal};
ghost use Rattle.audit_core.specs.Trust.{nothing_trusted, with_ledger, with_head};
ghost use Rattle.proof_maker.specs.Making.{TrustsHead, TrustsList};
ghost use Rattle.ledger_soak.specs.Auditing.{Follows, IsHeadOfFirst, IsListHead, IsFoundIn};

use audit_core::{Heads, TrustErr, accept};
use ledger_book::Book;
use ledger_bytes::{Bytes, Digest, NoMemory, Sha, TimeMark};
use merkle_tree::Head;
use proof_maker::{Made, MadeExtension, MakeErr, extend_ledger, extend_notary, prove};
use script_lines::{Reply, Which, reply_text};
use std::alloc::Global;
use time_peg::Notary;

/// The heads that were trusted last.
#[derive(Clone, Copy, Debug, PartialEq, Eq)]
pub(crate) struct Auditor {
    ledger: Option<Head>,
    notary: Option<Head>,
}

impl Auditor {
    /// One who trusts nothing.
    pub(crate) fn new() -> Self
        ensures ledger { result.ledger ≡ None }
        ensures notary { result.notary ≡ None }
    {
        Auditor {
            ledger: None,
            notary: None,
        }
    }

    /// The line of the proof of journal `n`, where there is one and the auditor accepts it once the heads that are trusted
    /// are brought to where the ledger and its notary stand.
    pub(crate) fn accepted_line<N: Notary>(
        &mut self,
        alloc: Global,
        book: &Book,
        notary: &mut N,
        n: u64,
    ) -> Result<Option<Bytes>, NoMemory>
        requires settled { book.now.sealed ≡ book.now.size }
        ensures follows { IfOk result (λ line. (h : History) → Serves book.now h
            → Follows h (N.state notary.old).entries self.old → Follows h (N.state notary.old).entries self.new) }
        ensures line { IfOk result (λ line. (h : History) → Serves book.now h
            → Pegged h (N.state notary.old).entries → Follows h (N.state notary.old).entries self.old
            → (N.state notary.new).faults ≡ 0 → prove_refusal h n ≡ None
            → line ≡ Some (replies.reply_text 0 1
            (proof_reply (shown_of h (N.state notary.old).entries n)))) }
        ensures same { (N.state notary.new).entries ≡ (N.state notary.old).entries }
        ensures faults { (N.state notary.new).faults ≡ 0 → (N.state notary.old).faults ≡ 0 }
    {
        let heads = match self.follow_ledger(alloc, book)? {
            Some(heads) => self.follow_notary(alloc, notary, heads)?,
            None => None,
        };
        match prove(alloc, book, notary, n) {
            Ok(made) => accepted(alloc, made, heads),
            Err(MakeErr::Refused(_)) => Ok(None),
            Err(MakeErr::NoMemory) => Err(NoMemory),
        }
    }

    // Brings the ledger's head to where it stands: by an extension of the one before, or anew where that is below the point.
    // None comes where the extension isn't accepted.
    fn follow_ledger(&mut self, alloc: Global, book: &Book) -> Result<Option<Heads>, NoMemory>
        requires settled { book.now.sealed ≡ book.now.size }
        ensures trusts { IfOk result (λ heads. (h : History) → Serves book.now h
            → IfSome self.old.ledger (IsHeadOfFirst h)
            → IsSomeAnd heads (λ heads. TrustsHead heads h × (heads.notary ≡ []))) }
        ensures list { IfOk result (λ heads. IfSome heads (λ heads. heads.notary ≡ [])) }
        ensures follows { IfOk result (λ heads. (h : History) → Serves book.now h
            → IfSome self.new.ledger (IsHeadOfFirst h)) }
        ensures notary { self.new.notary ≡ self.old.notary }
    {
        let now = book.head();
        let id = book.id();
        match self.ledger.replace(now) {
            Some(old) if old.size >= book.point() => follow_from(alloc, book, &id, &old),
            _ => Ok(Some(heads_with(alloc, &id, &now)?)),
        }
    }

    // .. and the notary's, or anew where the one before was that of an empty list. None comes also where the notary fails.
    fn follow_notary<N: Notary>(
        &mut self,
        alloc: Global,
        notary: &mut N,
        heads: Heads,
    ) -> Result<Option<Heads>, NoMemory>
        requires fresh { heads.notary ≡ [] }
        ensures trusts { IfOk result (λ after. IfSome self.old.notary (IsListHead (N.state notary.old).entries)
            → (N.state notary.new).faults ≡ 0
            → IsSomeAnd after (λ after. TrustsList after (N.state notary.old).entries
            × (after.ledger ≡ heads.ledger) × (after.id ≡ heads.id))) }
        ensures follows { IfOk result (λ after. IfSome self.old.notary (IsListHead (N.state notary.old).entries)
            → IfSome self.new.notary (IsListHead (N.state notary.old).entries)) }
        ensures ledger { self.new.ledger ≡ self.old.ledger }
        ensures same { (N.state notary.new).entries ≡ (N.state notary.old).entries }
        ensures faults { (N.state notary.new).faults ≡ 0 → (N.state notary.old).faults ≡ 0 }
    {
        let Ok(now) = notary.head() else {
            return Ok(None);
        };
        match self.notary.replace(now) {
            Some(old) if old.size > 0 => {
                let heads = with_list(heads, &old)?;
                match extend_notary(alloc, notary, old.size) {
                    Ok(made) => extended(heads, Which::Notary, old.size, &made),
                    Err(MakeErr::Refused(_)) => Ok(None),
                    Err(MakeErr::NoMemory) => Err(NoMemory),
                }
            }
            _ => Ok(Some(with_list(heads, &now)?)),
        }
    }
}

// The line of a proof, where the auditor accepts it under these heads.
fn accepted(alloc: Global, made: Made, heads: Option<Heads>) -> Result<Option<Bytes>, NoMemory>
    ensures { IfOk result (λ line. IfSome heads (λ heads. IsAccepted sha256 made.proof made.claim heads
        → line ≡ Some (replies.reply_text 0 1 (reply_of.Proof made.claim.n made.claim.leaf
        (told_mark made.claim.lo) (told_mark made.claim.hi) made.proof)))) }
{
    match heads {
        Some(heads) if accept::<Sha>(made.proof.as_slice(), &made.claim, &heads).is_ok() => {
            Ok(Some(proof_line(alloc, made)?))
        }
        _ => Ok(None),
    }
}

// Follows the ledger from a head that was trusted before.
fn follow_from(
    alloc: Global,
    book: &Book,
    id: &Digest,
    old: &Head,
) -> Result<Option<Heads>, NoMemory>
    requires settled { book.now.sealed ≡ book.now.size }
    requires kept { book.now.point ≤ old.now.size }
    ensures list { IfOk result (λ heads. IfSome heads (λ heads. heads.notary ≡ [])) }
    ensures trusts { IfOk result (λ heads. (h : History) → Serves book.now h → id.now.0 ≡ model.id h
        → IsHeadOfFirst h old.now → IsSomeAnd heads (λ heads. TrustsHead heads h × (heads.notary ≡ []))) }
{
    let heads = heads_with(alloc, id, old)?;
    match extend_ledger(alloc, book, old.size) {
        Ok(made) => extended(heads, Which::Ledger, old.size, &made),
        Err(MakeErr::Refused(_)) => Ok(None),
        Err(MakeErr::NoMemory) => Err(NoMemory),
    }
}

// Heads of which one of the ledger is trusted, and no other.
fn heads_with(alloc: Global, id: &Digest, head: &Head) -> Result<Heads, NoMemory>
    ensures trusts { IfOk result (λ heads. heads ≡ with_ledger nothing_trusted id.now head.now) }
    ensures found { IfOk result (λ heads. IsFoundIn Ledger heads nothing_trusted head.now) }
{
    let mut heads = Heads::new(alloc);
    match heads.trust_ledger(id, head) {
        Ok(()) => Ok(heads),
        Err(TrustErr::No(_)) => unreachable!(),
        Err(TrustErr::NoMemory) => Err(NoMemory),
    }
}

// Heads and one of the notary, of which none is trusted yet.
fn with_list(mut heads: Heads, head: &Head) -> Result<Heads, NoMemory>
    requires { heads.notary ≡ [] }
    ensures trusts { IfOk result (λ after. after ≡ with_head Notary head.now heads) }
    ensures found { IfOk result (λ after. IsFoundIn Notary after heads head.now) }
{
    match heads.trust_notary(head) {
        Ok(()) => Ok(heads),
        Err(TrustErr::No(_)) => unreachable!(),
        Err(TrustErr::NoMemory) => Err(NoMemory),
    }
}

// The heads with the one that an extension from the first `m` leads to, where the extension is accepted.
fn extended(
    mut heads: Heads,
    which: Which,
    m: u64,
    made: &MadeExtension,
) -> Result<Option<Heads>, NoMemory>
    ensures head { IfOk result (λ after. IfSome after (λ after. after ≡ with_head which made.now.head heads)) }
    ensures extended { IfOk result (λ after. extend_refusal sha256 which m made.now.head made.now.proof heads ≡ None
        → IsSomeAnd after (λ after. (after ≡ with_head which made.now.head heads)
        × IsFoundIn which after heads made.now.head)) }
{
    match heads.extend::<Sha>(which, m, &made.head, made.proof.as_slice()) {
        Ok(()) => Ok(Some(heads)),
        Err(TrustErr::No(_)) => Ok(None),
        Err(TrustErr::NoMemory) => Err(NoMemory),
    }
}

// The line of a proof, as the reply to line 1 of lane 0.
fn proof_line(alloc: Global, made: Made) -> Result<Bytes, NoMemory>
    ensures { IfOk result (λ line. line ≡ replies.reply_text 0 1
        (reply_of.Proof made.claim.n made.claim.leaf (told_mark made.claim.lo)
        (told_mark made.claim.hi) made.proof)) }
{
    let reply = Reply::Proof {
        n: made.claim.n,
        leaf: made.claim.leaf,
        lo: said_mark(made.claim.lo),
        hi: said_mark(made.claim.hi),
        proof: made.proof,
    };
    reply_text(alloc, 0, 1, &reply)
}

// A bound as it is told.
fn said_mark(mark: Option<TimeMark>) -> Option<(u64, u64, u64)>
    ensures { result ≡ told_mark mark }
{
    mark.map(|mark| (mark.jsn, mark.index, mark.time))
}
