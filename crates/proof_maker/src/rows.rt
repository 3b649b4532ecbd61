//! Digests of a tree's paths and proofs, one after the other.

ghost use Rattle.std.specs.Prelude.{◌≡◌, ◌≤◌, ◌<◌, ◌^◌, ◌++◌, ℕ, List, length, map, IfOk, IfErr, IfSome, OnOk};
ghost use Rattle.std.specs.List.{concat};
ghost use Rattle.sha2.specs.Sha256.{sha256};
ghost use Rattle.merkle_batch.specs.Rows.{StandsFor};
ghost use Rattle.proof_maker.specs.Making.{NeverFaults};
ghost use Rattle.proof_maker.specs.Parts.{AreDigests, path_bytes, extension_bytes, path_if};
ghost use Rattle.proof_maker.specs.declared.made.MakeErr.TheVariants as make_err;

use crate::MakeErr;
use ledger_bytes::{Bytes, Digest, NoMemory, Sha, TimeMark};
use merkle_batch::Tree;
use std::alloc::Global;

/// The path of leaf `n` to the root over all leaves.
pub(crate) fn path_of(alloc: Global, tree: &Tree<Sha>, n: u64) -> Result<Bytes, MakeErr>
    ensures path { IfOk result (λ row. (ds : List (List ℕ)) → StandsFor sha256 tree.now ds
        → row ≡ path_bytes ds n) }
    ensures short { tree.now.size < 2 ^ 32 → IfOk result (AreDigests 32) }
    ensures err { tree.now.floor ≤ n → n < tree.now.size
        → IfErr result (λ e. e ≡ make_err.NoMemory) }
    ensures own { NeverFaults result }
{
    let digests = tree.path(n, tree.size())?;
    Ok(row_of(alloc, digests.as_slice())?)
}

/// The path of the leaf that a mark names, where there is a mark.
pub(crate) fn path_at(
    alloc: Global,
    tree: &Tree<Sha>,
    mark: Option<TimeMark>,
) -> Result<Bytes, MakeErr>
    ensures path { IfOk result (λ row. (ds : List (List ℕ)) → StandsFor sha256 tree.now ds
        → row ≡ path_if ds mark) }
    ensures short { tree.now.size < 2 ^ 32 → IfOk result (AreDigests 32) }
    ensures err { IfSome mark (λ m. (tree.now.floor ≤ m.jsn) × (m.jsn < tree.now.size))
        → IfErr result (λ e. e ≡ make_err.NoMemory) }
    ensures own { NeverFaults result }
{
    match mark {
        Some(mark) => path_of(alloc, tree, mark.jsn),
        None => Ok(Bytes::of(Vec::new(alloc))),
    }
}

/// The proof that the tree over all leaves goes on from that over the first `m`.
pub(crate) fn extension_of(alloc: Global, tree: &Tree<Sha>, m: u64) -> Result<Bytes, MakeErr>
    ensures proof { IfOk result (λ row. (ds : List (List ℕ)) → StandsFor sha256 tree.now ds
        → m ≤ tree.now.size → row ≡ extension_bytes ds m) }
    ensures short { tree.now.size < 2 ^ 32 → IfOk result (AreDigests 33) }
    ensures err { tree.now.floor ≤ m → 0 < m → m ≤ tree.now.size
        → IfErr result (λ e. e ≡ make_err.NoMemory) }
    ensures own { NeverFaults result }
{
    let digests = tree.proof(m, tree.size())?;
    Ok(row_of(alloc, digests.as_slice())?)
}

/// The bytes of digests, one after the other.
pub(crate) fn row_of(alloc: Global, digests: &[Digest]) -> Result<Bytes, NoMemory>
    ensures bytes { IfOk result (λ row. row ≡ concat (map (λ d. d.0) digests.now)) }
    ensures short { IfOk result (λ row. (k : ℕ) → length digests.now ≤ k → AreDigests k row) }
{
    let mut row = Vec::new(alloc);
    for digest in digests {
        add(&mut row, digest)?;
    }
    Ok(Bytes::of(row))
}

// Adds the bytes of a digest.
fn add(bytes: &mut Vec<u8>, digest: &Digest) -> Result<(), NoMemory>
    ensures bytes { OnOk result (bytes.new.items ≡ bytes.old.items ++ digest.now.0) }
    ensures width { length digest.now.0 ≡ 32 }
{
    bytes.extend_from_slice(&digest.0)?;
    Ok(())
}
