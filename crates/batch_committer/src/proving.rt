//! The replies to lines that ask for the proof of a journal, or that a tree goes on from an earlier size.

ghost use Rattle.std.specs.Prelude.{◌≡◌, None, Bool, false, ℕ, List, IfOk, OnErr};
ghost use Rattle.ledger_book.specs.Books.{Serves};
ghost use Rattle.ledger_model.specs.History.{History};
ghost use Rattle.ledger_model.specs.Judgements.{own_refusal};
ghost use Rattle.ledger_model.specs.Limits.{real_limits};
ghost use Rattle.ledger_model.specs.Texts.{told_reply, told_mark};
ghost use Rattle.ledger_model.specs.declared.job.Job.TheVariants.{Ask};
ghost use Rattle.ledger_model.specs.declared.outcome.Query.TheVariants as query;
ghost use Rattle.batch_committer.specs.Attending.{step_in, Attended, FailsAtMostOnce};

use ledger_book::Book;
use ledger_bytes::{NoMemory, TimeMark};
use proof_maker::{Made, MadeExtension, MakeErr, extend, prove};
use script_lines::{Reply, Which};
use std::alloc::Global;
use time_peg::Notary;

/// The proof of a journal that the ledger doesn't refuse, where no journal waits. Where the notary fails that is told.
pub(crate) fn proof_of<N: Notary>(
    alloc: Global,
    book: &Book,
    notary: &mut N,
    n: u64,
) -> Result<Reply, NoMemory>
    requires settled { book.now.sealed ≡ book.now.size }
    ensures told { IfOk result (λ reply. (failed : Bool)
        × ((h : History) (lane index : ℕ) (line : List ℕ) → Serves book.now h
        → own_refusal real_limits h (Ask (query.Prove n)) ≡ None
        → (let step = step_in (N.state notary.old) (N.state notary.new) failed lane index line in
        (reply ≡ told_reply h step (query.Prove n))
        × Attended (N.state notary.old) (N.state notary.new) h step (Ask (query.Prove n))))) }
    ensures err { OnErr result ((h : History) (lane index : ℕ) (line : List ℕ)
        → Attended (N.state notary.old) (N.state notary.new) h
        (step_in (N.state notary.old) (N.state notary.new) false lane index line) (Ask (query.Prove n))) }
    ensures once { FailsAtMostOnce (N.state notary.old) (N.state notary.new) }
{
    match prove(alloc, book, notary, n) {
        Ok(made) => Ok(proof_reply(made)),
        Err(MakeErr::Refused(why)) => Ok(Reply::Refused(why)),
        Err(MakeErr::NoMemory) => Err(NoMemory),
    }
}

// A proof with what it claims, as it is told.
fn proof_reply(made: Made) -> Reply
    ensures { result ≡ Reply.Proof made.claim.n made.claim.leaf (told_mark made.claim.lo)
        (told_mark made.claim.hi) made.proof }
{
    Reply::Proof {
        n: made.claim.n,
        leaf: made.claim.leaf,
        lo: said_mark(made.claim.lo),
        hi: said_mark(made.claim.hi),
        proof: made.proof,
    }
}

// A bound as it is told.
fn said_mark(mark: Option<TimeMark>) -> Option<(u64, u64, u64)>
    ensures { result ≡ told_mark mark }
{
    mark.map(|mark| (mark.jsn, mark.index, mark.time))
}

/// The proof that the ledger, which doesn't refuse it, or the notary's list goes on from its first `m`, where no journal
/// waits. Where the notary fails that is told, and where its list has no such size.
pub(crate) fn extension_of<N: Notary>(
    alloc: Global,
    book: &Book,
    notary: &mut N,
    which: Which,
    m: u64,
) -> Result<Reply, NoMemory>
    requires settled { book.now.sealed ≡ book.now.size }
    ensures told { IfOk result (λ reply. (failed : Bool)
        × ((h : History) (lane index : ℕ) (line : List ℕ) → Serves book.now h
        → own_refusal real_limits h (Ask (query.Extend which m)) ≡ None
        → (let step = step_in (N.state notary.old) (N.state notary.new) failed lane index line in
        (reply ≡ told_reply h step (query.Extend which m))
        × Attended (N.state notary.old) (N.state notary.new) h step (Ask (query.Extend which m))))) }
    ensures err { OnErr result ((h : History) (lane index : ℕ) (line : List ℕ)
        → Attended (N.state notary.old) (N.state notary.new) h
        (step_in (N.state notary.old) (N.state notary.new) false lane index line)
        (Ask (query.Extend which m))) }
    ensures once { FailsAtMostOnce (N.state notary.old) (N.state notary.new) }
{
    match extend(alloc, book, notary, which, m) {
        Ok(made) => Ok(extension_reply(which, m, made)),
        Err(MakeErr::Refused(why)) => Ok(Reply::Refused(why)),
        Err(MakeErr::NoMemory) => Err(NoMemory),
    }
}

// An extension of the first `m`, as it is told.
fn extension_reply(which: Which, m: u64, made: MadeExtension) -> Reply
    ensures { result ≡ Reply.Extension which m made.head.size made.head.root made.proof }
{
    Reply::Extension {
        which,
        m,
        size: made.head.size,
        root: made.head.root,
        proof: made.proof,
    }
}
