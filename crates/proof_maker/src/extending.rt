//! Making the proof that a ledger or a notary's list goes on from an earlier size.

ghost use Rattle.std.specs.Prelude.{◌≡◌, IfOk};
ghost use Rattle.sha2.specs.Sha256.{sha256};
ghost use Rattle.ledger_book.specs.Books.{Serves};
ghost use Rattle.ledger_model.specs.History.{History};
ghost use Rattle.script_lines.specs.declared.said.Which.TheVariants as which_of;
ghost use Rattle.audit_core.specs.Extending.{IsExtension};
ghost use Rattle.audit_core.specs.Trust.{Trust};
ghost use Rattle.proof_maker.specs.Making.{Extends, ExtendsList, ExtendsWhich, ChecksSize, CountsFaults, NeverFaults, TrustsJournals, TrustsEntries, TrustsWhich};

use crate::rows::{extension_of, row_of};
use crate::{MadeExtension, MakeErr};
use ledger_book::Book;
use ledger_bytes::Refusal;
use script_lines::Which;
use std::alloc::Global;
use time_peg::Notary;

/// Makes the proof that the ledger, or the notary's list, goes on from its first `m`.
pub fn extend<N: Notary>(
    alloc: Global,
    book: &Book,
    notary: &mut N,
    which: Which,
    m: u64,
) -> Result<MadeExtension, MakeErr>
    requires settled { book.now.sealed ≡ book.now.size }
    ensures answer { (h : History) → Serves book.now h
        → ExtendsWhich which h (N.state notary.old).entries m result }
    ensures untouched { which ≡ which_of.Ledger → notary.new ≡ notary.old }
    ensures same { (N.state notary.new).entries ≡ (N.state notary.old).entries }
    ensures origin { (N.state notary.new).origin ≡ (N.state notary.old).origin }
    ensures faults { CountsFaults result (N.state notary.old).faults (N.state notary.new).faults }
    ensures accepted { IfOk result (λ made. (h : History) (trust : Trust) → Serves book.now h
        → TrustsWhich which trust h (N.state notary.old).entries m
        → IsExtension sha256 which m made.head made.proof trust) }
{
    match which {
        Which::Ledger => extend_ledger(alloc, book, m),
        Which::Notary => extend_notary(alloc, notary, m),
    }
}

/// Makes the proof that the ledger at its head, behind which no journal may wait, goes on from its first `m` journals;
/// where these are all, it's empty. `BadSize` comes where `m` is 0 or above the ledger's size, with that size, and then
/// `Purged` where it lies below the point. The cost is that of the proof: at most a logarithm of stored nodes and hashes.
pub fn extend_ledger(alloc: Global, book: &Book, m: u64) -> Result<MadeExtension, MakeErr>
    requires settled { book.now.sealed ≡ book.now.size }
    ensures answer { (h : History) → Serves book.now h → Extends h m result }
    // It asks no notary.
    ensures own { NeverFaults result }
    // Who trusts the root over the first journals, and no other at the ledger's size, accepts it.
    ensures accepted { IfOk result (λ made. (h : History) (trust : Trust) → Serves book.now h
        → TrustsJournals trust h m → IsExtension sha256 which_of.Ledger m made.head made.proof trust) }
{
    if let Some(why) = book.ledger_refusal(m) {
        return Err(MakeErr::Refused(why));
    }
    let head = book.head();
    let proof = extension_of(alloc, book.tree(), m)?;
    Ok(MadeExtension { head, proof })
}

/// Makes the proof that the notary's list goes on from its first `m` entries; where these are all, it's empty. `BadSize`
/// comes where `m` is 0 or above the list's length, with that length, and `NotaryFault` where the notary failed.
pub fn extend_notary<N: Notary>(
    alloc: Global,
    notary: &mut N,
    m: u64,
) -> Result<MadeExtension, MakeErr>
    ensures answer { ExtendsList (N.state notary.old).entries m result }
    ensures same { (N.state notary.new).entries ≡ (N.state notary.old).entries }
    ensures origin { (N.state notary.new).origin ≡ (N.state notary.old).origin }
    ensures faults { CountsFaults result (N.state notary.old).faults (N.state notary.new).faults }
    // Who trusts the root over the first entries, and no other at the list's length, accepts it.
    ensures accepted { IfOk result (λ made. (trust : Trust)
        → TrustsEntries trust (N.state notary.old).entries m
        → IsExtension sha256 which_of.Notary m made.head made.proof trust) }
{
    let head = notary.head()?;
    check_size(m, head.size)?;
    let digests = notary.proof(alloc, m)?;
    let proof = row_of(alloc, digests.as_slice())?;
    Ok(MadeExtension { head, proof })
}

// Refuses a number of first entries of the list that are none, or more than all.
fn check_size(m: u64, size: u64) -> Result<(), MakeErr>
    ensures { ChecksSize size m result }
{
    if m == 0 || m > size {
        Err(MakeErr::Refused(Refusal::BadSize { size }))
    } else {
        Ok(())
    }
}
