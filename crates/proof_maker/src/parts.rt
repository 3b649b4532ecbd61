//! What a book shows of a journal.

ghost use Rattle.std.specs.Prelude.{◌≡◌, ◌≤◌, ◌<◌, IfOk, IfErr};
ghost use Rattle.ledger_model.specs.History as model;
ghost use Rattle.ledger_model.specs.History.{History};
ghost use Rattle.ledger_book.specs.Books.{Serves};
ghost use Rattle.proof_maker.specs.Making.{NeverFaults};
ghost use Rattle.proof_maker.specs.Parts.{AreBounded, AreDigests, ArePartsOf, AreShort, LeadsUp};
ghost use Rattle.proof_maker.specs.declared.made.MakeErr.TheVariants as make_err;

use crate::MakeErr;
use crate::bound::{Bound, bound_at};
use crate::rows::{path_at, path_of};
use ledger_book::Book;
use ledger_bytes::{Bytes, Digest};
use std::alloc::Global;

/// A journal's leaf and path, and the time journals between which it lies.
#[derive(Drop)]
pub(crate) struct Parts {
    pub(crate) leaf: Digest,
    pub(crate) path: Bytes,
    pub(crate) lower: Option<Bound>,
    /// The path of the lower bound, empty where there is none.
    pub(crate) lower_path: Bytes,
    pub(crate) upper: Option<Bound>,
}

impl Parts {
    /// Those of journal `n`, whose leaf and path are given, since the ledger may have purged it.
    pub(crate) fn around(
        alloc: Global,
        book: &Book,
        n: u64,
        leaf: Digest,
        path: Bytes,
    ) -> Result<Self, MakeErr>
        requires few { AreDigests 32 path }
        ensures parts { IfOk result (λ parts. (h : History) → Serves book.now h
            → LeadsUp h n leaf path → ArePartsOf h n parts) }
        ensures bounds { IfOk result (λ parts. (h : History) → Serves book.now h
            → AreBounded h n parts) }
        ensures short { IfOk result AreShort }
        ensures err { (h : History) → Serves book.now h → IfErr result (λ e. e ≡ make_err.NoMemory) }
        ensures own { NeverFaults result }
    {
        let tree = book.tree();
        let (before, behind) = book.bounds_of(n);
        Ok(Parts {
            leaf,
            path,
            lower: bound_at(alloc, book, before)?,
            lower_path: path_at(alloc, tree, before)?,
            upper: bound_at(alloc, book, behind)?,
        })
    }
}

/// The leaf of journal `n` and its path under the root over all journals, as the ledger keeps them.
pub(crate) fn own_path(alloc: Global, book: &Book, n: u64) -> Result<(Digest, Bytes), MakeErr>
    ensures leads { IfOk result (λ own. (h : History) → Serves book.now h
        → LeadsUp h n own.0 own.1) }
    ensures short { IfOk result (λ own. AreDigests 32 own.1) }
    ensures err { (h : History) → Serves book.now h → n < model.size h
        → model.point h ≤ n → IfErr result (λ e. e ≡ make_err.NoMemory) }
    ensures own { NeverFaults result }
{
    let tree = book.tree();
    let leaf = tree.leaf(n)?;
    let path = path_of(alloc, tree, n)?;
    Ok((leaf, path))
}
