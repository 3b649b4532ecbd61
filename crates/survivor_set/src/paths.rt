//! The path of a leaf that a tree may have forgotten.

ghost use Rattle.std.specs.Prelude.{◌≡◌, ℕ, ◌*◌, ◌<◌, ◌≤◌, ◌++◌, List, length, map, take, IfOk, OnOk};
ghost use Rattle.std.specs.List.{concat};
ghost use Rattle.tree_model.specs.Tree.{cut};
ghost use Rattle.tree_model.specs.Path.{path, path_length};
ghost use Rattle.merkle_batch.specs.Rows.{StandsFor};

use crate::growing::add_carried;
use ledger_bytes::{Bytes, Digest, FieldWriter, NoMemory, TreeHash};
use merkle_batch::Tree;
use std::alloc::Global;

/// The digests of the path of leaf `n` among the first `size` leaves of a tree, from those of its path among the first
/// `point` of them, which the tree may have forgotten but for the leaf at the point. It takes the path's memory thrice.
pub(crate) fn carried_path<H: TreeHash>(
    alloc: Global,
    tree: &Tree<H>,
    n: u64,
    point: u64,
    size: u64,
    below: &[u8],
) -> Result<Bytes, NoMemory>
    requires kept { n < point }
    requires floor { tree.now.floor ≤ point }
    requires more { point < size }
    requires size { size ≤ tree.now.size }
    requires below { length below.now ≡ 32 * path_length n point }
    ensures len { IfOk result (λ digests. length digests ≡ 32 * path_length n size) }
    ensures path { IfOk result (λ digests. (ds : List (List ℕ)) → StandsFor H.of tree.now ds
        → cut 32 below.now ≡ path H.of n (take point ds)
        → digests ≡ concat (path H.of n (take size ds))) }
{
    let Ok(leaf) = tree.leaf(point) else {
        return Err(NoMemory);
    };
    let Ok(path) = tree.path(point, size) else {
        return Err(NoMemory);
    };
    let above = row_of(alloc, &path)?;
    let mut fields = FieldWriter::new(alloc);
    add_carried::<H>(&mut fields, n, point, size, &leaf, below, above.as_slice())?;
    Ok(fields.finish())
}

// Digests, one after the other.
pub(crate) fn row_of(alloc: Global, digests: &[Digest]) -> Result<Bytes, NoMemory>
    ensures cuts { IfOk result (λ row. cut 32 row ≡ map (λ d. d.0) digests.now) }
    ensures len { IfOk result (λ row. length row ≡ 32 * length digests.now) }
{
    let mut row = Vec::new(alloc);
    for digest in digests {
        add(&mut row, digest)?;
    }
    Ok(Bytes::of(row))
}

// Adds the bytes of a digest.
fn add(bytes: &mut Vec<u8>, digest: &Digest) -> Result<(), NoMemory>
    ensures bytes { OnOk result (bytes.new.items ≡ bytes.old.items ++ digest.now.0) }
    ensures width { length digest.now.0 ≡ 32 }
{
    bytes.extend_from_slice(&digest.0)?;
    Ok(())
}
