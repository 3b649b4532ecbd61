//! Making the proof of a journal between the nearest time journals that are kept.

ghost use Rattle.std.specs.Prelude.{◌≡◌, ◌<◌, true, IfOk, IfErr};
ghost use Rattle.sha2.specs.Sha256.{sha256};
ghost use Rattle.ledger_book.specs.Books.{Serves};
ghost use Rattle.ledger_model.specs.Bounds.{has_bound};
ghost use Rattle.ledger_model.specs.History.{History, size};
ghost use Rattle.ledger_model.specs.Pegs.{Pegged};
ghost use Rattle.audit_core.specs.Acceptance.{IsAccepted};
ghost use Rattle.audit_core.specs.Trust.{Trust};
ghost use Rattle.proof_maker.specs.Making.{Proves, ProvesFrom, CountsFaults, TrustsHead, TrustsList};
ghost use Rattle.proof_maker.specs.Parts as part;
ghost use Rattle.proof_maker.specs.Parts.{AreDigests, IsNotaryErr, LeadsUp};

use crate::bound::Bound;
use crate::noted::Noted;
use crate::parts::{Parts, own_path};
use crate::spelling::spell;
use crate::{Made, MakeErr};
use ledger_book::Book;
use ledger_bytes::{Bytes, Digest};
use std::alloc::Global;
use time_peg::Notary;

/// Makes the proof of journal `n` under the root over all journals, of which none may wait, between the nearest time
/// journals that are kept. `NoJournal` comes where there is no such journal, with the ledger's size, and then `Purged`
/// where it lies below the point; `NotaryFault` only where there is a bound, since else the notary isn't asked. The cost is
/// that of the proof: at most a logarithm of stored nodes and hashes for each path.
pub fn prove<N: Notary>(alloc: Global, book: &Book, notary: &mut N, n: u64) -> Result<Made, MakeErr>
    requires settled { book.now.sealed ≡ book.now.size }
    ensures answer { (h : History) → Serves book.now h
        → Proves h (N.state notary.old).entries n result }
    ensures same { (N.state notary.new).entries ≡ (N.state notary.old).entries }
    ensures origin { (N.state notary.new).origin ≡ (N.state notary.old).origin }
    ensures faults { CountsFaults result (N.state notary.old).faults (N.state notary.new).faults }
    // Who trusts the ledger's head accepts it, where there is a bound with the notary's.
    ensures accepted { IfOk result (λ made. (h : History) (trust : Trust) → Serves book.now h
        → Pegged h (N.state notary.old).entries → TrustsHead trust h
        → (has_bound h n ≡ true → TrustsList trust (N.state notary.old).entries)
        → IsAccepted sha256 made.proof made.claim trust) }
{
    if let Some(why) = book.prove_refusal(n) {
        return Err(MakeErr::Refused(why));
    }
    let (leaf, path) = own_path(alloc, book, n)?;
    prove_from(alloc, book, notary, n, leaf, path)
}

/// Makes the proof of journal `n`, as [`prove`] does, from its leaf and its path under the root over all journals, its digests
/// one after the other. Neither is looked up, so the journal may be one that the ledger has purged; of another leaf or path a
/// proof is made that nobody accepts.
pub fn prove_from<N: Notary>(
    alloc: Global,
    book: &Book,
    notary: &mut N,
    n: u64,
    leaf: Digest,
    path: Bytes,
) -> Result<Made, MakeErr>
    requires settled { book.now.sealed ≡ book.now.size }
    requires few { AreDigests 32 path }
    ensures answer { (h : History) → Serves book.now h → LeadsUp h n leaf path
        → ProvesFrom h (N.state notary.old).entries n result }
    ensures err { (h : History) → Serves book.now h → IfErr result (IsNotaryErr (has_bound h n)) }
    ensures same { (N.state notary.new).entries ≡ (N.state notary.old).entries }
    ensures origin { (N.state notary.new).origin ≡ (N.state notary.old).origin }
    ensures faults { CountsFaults result (N.state notary.old).faults (N.state notary.new).faults }
    // Who trusts the ledger's head accepts it, where there is a bound with the notary's.
    ensures accepted { IfOk result (λ made. (h : History) (trust : Trust) → Serves book.now h
        → LeadsUp h n leaf path → n < size h
        → Pegged h (N.state notary.old).entries → TrustsHead trust h
        → (has_bound h n ≡ true → TrustsList trust (N.state notary.old).entries)
        → IsAccepted sha256 made.proof made.claim trust) }
{
    let size = book.head().size;
    let parts = Parts::around(alloc, book, n, leaf, path)?;
    let (lower, upper) = (index_of(&parts.lower), index_of(&parts.upper));
    let noted = Noted::of(alloc, notary, lower, upper)?;
    Ok(spell(alloc, size, n, &parts, &noted)?)
}

// The index of the notary's entry of a bound.
fn index_of(bound: &Option<Bound>) -> Option<u64>
    ensures { result ≡ part.index_of bound.now }
{
    bound.as_ref().map(|bound| bound.header.a)
}
