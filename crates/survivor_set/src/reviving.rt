//! What is still proved of a survivor, also where the ledger has purged its journal.

ghost use Rattle.std.specs.Prelude.{◌≡◌, ◌<◌, true, length, Some, None, slice_get, IfOk, IfErr};
ghost use Rattle.sha2.specs.Sha256.{sha256};
ghost use Rattle.audit_core.specs.Acceptance.{IsAccepted};
ghost use Rattle.audit_core.specs.Trust.{Trust};
ghost use Rattle.ledger_book.specs.Books.{Serves};
ghost use Rattle.ledger_model.specs.Bounds.{has_bound};
ghost use Rattle.ledger_model.specs.History.{History};
ghost use Rattle.ledger_model.specs.Pegs.{Pegged};
ghost use Rattle.proof_maker.specs.Making.{TrustsHead, TrustsList};
ghost use Rattle.survivor_set.specs.Carries.{Fits};
ghost use Rattle.survivor_set.specs.Keeping.{IsDiskless};
ghost use Rattle.survivor_set.specs.Outcomes.{CountsFaults, IsSurvivorOf, Revives, set_refusal};
ghost use Rattle.survivor_set.specs.Sets.{Saved};

use crate::checking::check_set;
use crate::paths::carried_path;
use crate::{Set, SetErr};
use ledger_book::Book;
use ledger_bytes::Sha;
use merkle_tree::leaf_of;
use proof_maker::{Made, prove_from};
use std::alloc::Global;
use time_peg::Notary;

/// Makes the proof of the survivor with a place among those of a set, from 0, under the ledger's root over all journals, of which
/// none may wait, between the nearest time journals that are kept. The set is judged first, as [`check_set`] does: whoever revives
/// more than one survivor judges it once, and then calls [`revive_judged`]. `NotaryFault` comes only where there is a bound. It
/// costs the judging and the proof.
pub fn revive<N: Notary>(
    alloc: Global,
    book: &Book,
    notary: &mut N,
    set: &Set,
    i: u8,
) -> Result<Made, SetErr>
    requires settled { book.now.sealed ≡ book.now.size }
    requires within { i < length set.now.survivors }
    ensures answer { (h : History) (x : Saved) → Serves book.now h
        → slice_get set.now.survivors i ≡ Some x
        → Revives h (N.state notary.old).entries (set_refusal h set.now) set.now.point x result }
    ensures same { (N.state notary.new).entries ≡ (N.state notary.old).entries }
    ensures origin { (N.state notary.new).origin ≡ (N.state notary.old).origin }
    ensures faults { CountsFaults result (N.state notary.old).faults (N.state notary.new).faults }
    // It asks no disk.
    ensures own { IfErr result IsDiskless }
    // Who trusts the ledger's head accepts it, where there is a bound with the notary's.
    ensures accepted { IfOk result (λ made. (h : History) (trust : Trust) (x : Saved)
        → Serves book.now h → slice_get set.now.survivors i ≡ Some x
        → IsSurvivorOf h set.now.point x → Pegged h (N.state notary.old).entries → TrustsHead trust h
        → (has_bound h x.item.header.jsn ≡ true → TrustsList trust (N.state notary.old).entries)
        → IsAccepted sha256 made.proof made.claim trust) }
{
    check_set(book, set)?;
    revive_judged(alloc, book, notary, set, i)
}

/// Makes the proof of a survivor, as [`revive`] does, of a set that [`check_set`] let pass.
pub fn revive_judged<N: Notary>(
    alloc: Global,
    book: &Book,
    notary: &mut N,
    set: &Set,
    i: u8,
) -> Result<Made, SetErr>
    requires settled { book.now.sealed ≡ book.now.size }
    requires within { i < length set.now.survivors }
    requires fits { Fits book.now.tree set.now }
    ensures answer { (h : History) (x : Saved) → Serves book.now h
        → slice_get set.now.survivors i ≡ Some x
        → Revives h (N.state notary.old).entries None set.now.point x result }
    ensures same { (N.state notary.new).entries ≡ (N.state notary.old).entries }
    ensures origin { (N.state notary.new).origin ≡ (N.state notary.old).origin }
    ensures faults { CountsFaults result (N.state notary.old).faults (N.state notary.new).faults }
    // It asks no disk.
    ensures own { IfErr result IsDiskless }
    ensures accepted { IfOk result (λ made. (h : History) (trust : Trust) (x : Saved)
        → Serves book.now h → slice_get set.now.survivors i ≡ Some x
        → IsSurvivorOf h set.now.point x → Pegged h (N.state notary.old).entries → TrustsHead trust h
        → (has_bound h x.item.header.jsn ≡ true → TrustsList trust (N.state notary.old).entries)
        → IsAccepted sha256 made.proof made.claim trust) }
{
    let survivor = set.survivor(i);
    let n = survivor.number();
    let leaf = leaf_of::<Sha>(&survivor.header().encode());
    let tree = book.tree();
    let row = carried_path(alloc, tree, n, set.point(), tree.size(), survivor.path())?;
    Ok(prove_from(alloc, book, notary, n, leaf, row)?)
}
