//! The path that shows that a leaf stands in a tree: it is made, and followed to a root.

ghost use Rattle.std.specs.Prelude.{◌≡◌, ◌*◌, ◌%◌, ◌<◌, ◌≤◌, ◌≢◌, ◌⊎◌, ◌↔◌, ◌++◌, length, map, IfOk, OnOk, IsNone, option_map};
ghost use Rattle.tree_model.specs.Tree.{cut};
ghost use Rattle.tree_model.specs.Path as tree;

use crate::nodes::node_of;
use crate::roots::root_of;
use crate::splits::split;
use ledger_bytes::{Digest, NoMemory, TreeHash};
use std::alloc::Global;

/// The path of leaf `n` to the root over the digests that `leaf_of` gives of all leaves, from the leaf up: the
/// digests that stand beside it on the way (RFC 6962, section 2.1.1). It hashes each other leaf's node once, and
/// takes memory for the path's digests.
pub fn path<H: TreeHash>(
    alloc: Global,
    leaves: &[Digest],
    n: usize,
) -> Result<Vec<Digest>, NoMemory>
    requires { n < length leaves.now }
    ensures { IfOk result (λ digests. map (λ d. d.0) digests.items
        ≡ tree.path H.of n (map (λ d. d.0) leaves.now)) }
{
    let mut digests = Vec::new(alloc);
    add_path::<H>(&mut digests, leaves, n)?;
    Ok(digests)
}

// Adds the path of leaf `n` behind the digests that are there.
fn add_path<H: TreeHash>(
    digests: &mut Vec<Digest>,
    leaves: &[Digest],
    n: usize,
) -> Result<(), NoMemory>
    requires { n < length leaves.now }
    ensures { OnOk result (map (λ d. d.0) digests.new.items
        ≡ map (λ d. d.0) digests.old.items ++ tree.path H.of n (map (λ d. d.0) leaves.now)) }
{
    if leaves.len() == 1 {
        return Ok(());
    }
    let (front, back) = leaves.split_at(split(leaves.len() as u64) as usize);
    if n < front.len() {
        add_path::<H>(digests, front, n)?;
        digests.push(root_of::<H>(back))?;
    } else {
        add_path::<H>(digests, back, n - front.len())?;
        digests.push(root_of::<H>(front))?;
    }
    Ok(())
}

/// The root of the tree of `size` leaves in which `leaf` is the digest of leaf `n`, if `path` is the path of that
/// leaf: its digests, 32 bytes each, one after the other from the leaf up. The size may be any, and each digest of
/// the path costs one hash.
pub fn fold_path<H: TreeHash>(leaf: &Digest, n: u64, size: u64, path: &[u8]) -> Option<Digest>
    ensures root { option_map (λ d. d.0) result ≡ tree.fold_bytes H.of leaf.now.0 n size path.now }

    // There is none exactly where there is no such leaf, or the bytes are not the digests of a path at that size.
    ensures none { IsNone result ↔ ((size ≤ n) ⊎ (length path.now ≢ 32 * tree.path_length n size)) }
{
    if n < size && path.len() % 32 == 0 {
        fold_below::<H>(leaf, n, size, path)
    } else {
        None
    }
}

// The same for a leaf that is there and whole digests.
pub(crate) fn fold_below<H: TreeHash>(
    leaf: &Digest,
    n: u64,
    size: u64,
    path: &[u8],
) -> Option<Digest>
    requires within { n < size }
    requires whole { length path.now % 32 ≡ 0 }
    ensures { option_map (λ d. d.0) result ≡ tree.fold H.of leaf.now.0 n size (cut 32 path.now) }
{
    if size == 1 {
        return if path.is_empty() { Some(*leaf) } else { None };
    }
    let (rest, side) = path.split_last_chunk::<32>()?;
    let side = Digest(*side);
    let front = split(size);
    if n < front {
        let left = fold_below::<H>(leaf, n, front, rest)?;
        Some(node_of::<H>(&left, &side))
    } else {
        let right = fold_below::<H>(leaf, n - front, size - front, rest)?;
        Some(node_of::<H>(&side, &right))
    }
}
