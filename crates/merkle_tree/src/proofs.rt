//! The proof that a tree begins with an earlier one: it is made, and followed to a root.

ghost use Rattle.std.specs.Prelude.{◌≡◌, ℕ, ◌*◌, ◌%◌, ◌<◌, ◌≤◌, ◌≢◌, ◌⊎◌, ◌↔◌, ◌++◌, Bool, true, length, map, Some, IfOk, OnOk, IsNone, option_map};
ghost use Rattle.tree_model.specs.Tree.{cut};
ghost use Rattle.tree_model.specs.Extension as tree;
ghost use Rattle.merkle_tree.specs.Roots.{roots_of};

use crate::nodes::node_of;
use crate::roots::root_of;
use crate::splits::split;
use ledger_bytes::{Digest, NoMemory, TreeHash};
use std::alloc::Global;

/// The proof that the tree over the first `m` leaves is the beginning of the tree over all, over the digests that
/// `leaf_of` gives of them, from the leaves up (RFC 6962, section 2.1.2). Where `m` is their number it is empty. It
/// hashes each node outside of it once, and takes memory for its digests.
pub fn proof<H: TreeHash>(
    alloc: Global,
    leaves: &[Digest],
    m: usize,
) -> Result<Vec<Digest>, NoMemory>
    requires some { 0 < m }
    requires within { m ≤ length leaves.now }
    ensures { IfOk result (λ digests. map (λ d. d.0) digests.items
        ≡ tree.proof H.of m (map (λ d. d.0) leaves.now)) }
{
    let mut digests = Vec::new(alloc);
    add_proof::<H>(&mut digests, leaves, m, true)?;
    Ok(digests)
}

// Adds the digests of a proof behind those that are there, with the root of the first `m` leaves where that isn't known.
fn add_proof<H: TreeHash>(
    digests: &mut Vec<Digest>,
    leaves: &[Digest],
    m: usize,
    known: bool,
) -> Result<(), NoMemory>
    requires some { 0 < m }
    requires within { m ≤ length leaves.now }
    ensures { OnOk result (map (λ d. d.0) digests.new.items
        ≡ map (λ d. d.0) digests.old.items ++ tree.sub H.of m known (map (λ d. d.0) leaves.now)) }
{
    if m == leaves.len() {
        if !known {
            digests.push(root_of::<H>(leaves))?;
        }
        return Ok(());
    }
    let (front, back) = leaves.split_at(split(leaves.len() as u64) as usize);
    if m <= front.len() {
        add_proof::<H>(digests, front, m, known)?;
        digests.push(root_of::<H>(back))?;
    } else {
        add_proof::<H>(digests, back, m - front.len(), false)?;
        digests.push(root_of::<H>(front))?;
    }
    Ok(())
}

/// The root of the tree of `size` leaves that begins with the tree of `m` leaves with the root `old`, if `proof` is
/// the proof of that: its digests, 32 bytes each, one after the other from the leaves up. The size may be any, and
/// each digest of the proof costs two hashes at most.
pub fn fold_proof<H: TreeHash>(m: u64, old: &Digest, size: u64, proof: &[u8]) -> Option<Digest>
    ensures root { option_map (λ d. d.0) result
        ≡ tree.fold_proof_bytes H.of m old.now.0 size proof.now }

    // There is none exactly where there are no such leaves, the bytes are not the digests of a proof from there to
    // that size, or they give another old root.
    ensures none { IsNone result ↔ ((m ≡ 0) ⊎ (size < m)
        ⊎ (length proof.now ≢ 32 * tree.proof_length m size)
        ⊎ (tree.old_root H.of m old.now.0 size (cut 32 proof.now) ≢ Some old.now.0)) }
{
    fold_proof_bytes::<H>(m, old, size, proof)
}

fn fold_proof_bytes<H: TreeHash>(m: u64, old: &Digest, size: u64, proof: &[u8]) -> Option<Digest>
    ensures { option_map (λ d. d.0) result ≡ tree.fold_proof_bytes H.of m old.now.0 size proof.now }
{
    if m == 0 || size < m || proof.len() % 32 != 0 {
        return None;
    }
    let (first, new) = roots_below::<H>(m, size, true, old, proof)?;
    if first == *old { Some(new) } else { None }
}

// The root of the first `m` leaves and that of all, which whole digests give.
pub(crate) fn roots_below<H: TreeHash>(
    m: u64,
    size: u64,
    known: bool,
    old: &Digest,
    proof: &[u8],
) -> Option<(Digest, Digest)>
    requires some { 0 < m }
    requires within { m ≤ size }
    requires whole { length proof.now % 32 ≡ 0 }
    ensures { option_map roots_of result ≡ tree.ext H.of m size known old.now.0 (cut 32 proof.now) }
{
    if m == size {
        let root = whole_root(known, old, proof)?;
        return Some((root, root));
    }
    let (rest, side) = proof.split_last_chunk::<32>()?;
    let side = Digest(*side);
    let front = split(size);
    if m <= front {
        let (first, new) = roots_below::<H>(m, front, known, old, rest)?;
        Some((first, node_of::<H>(&new, &side)))
    } else {
        let (first, new) = roots_below::<H>(m - front, size - front, false, old, rest)?;
        Some((node_of::<H>(&side, &first), node_of::<H>(&side, &new)))
    }
}

// The root of all leaves: the known one, or the only digest.
fn whole_root(known: bool, old: &Digest, proof: &[u8]) -> Option<Digest>
    requires whole { length proof.now % 32 ≡ 0 }
    ensures { option_map (λ d. (d.0, d.0)) result ≡ tree.both known old.now.0 (cut 32 proof.now) }
{
    if known {
        return if proof.is_empty() { Some(*old) } else { None };
    }
    let (rest, root) = proof.split_last_chunk::<32>()?;
    if rest.is_empty() {
        Some(Digest(*root))
    } else {
        None
    }
}
