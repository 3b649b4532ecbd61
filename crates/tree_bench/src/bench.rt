//! The work on a tree that is timed: nodes are hashed, a tree is grown, and proofs are made and checked.

ghost use Rattle.std.specs.Prelude.{◌≡◌, ◌+◌, ◌<◌, ◌≤◌, ◌^◌, OnOk};

use ledger_bytes::{Digest, NoMemory, Sha};
use merkle_batch::{Tree, TreeErr};
use merkle_tree::{fold_path, fold_proof, node_of};
use std::alloc::Global;

// A block of the ledger has as many leaves at most.
const BATCH: usize = 64;

/// What is done.
#[derive(Clone, Copy)]
pub(crate) enum Work {
    Nodes,
    Build,
    Prove,
}

impl Work {
    pub(crate) fn of(word: &str) -> Option<Self> {
        match word {
            "nodes" => Some(Work::Nodes),
            "build" => Some(Work::Build),
            "prove" => Some(Work::Prove),
            _ => None,
        }
    }
}

/// The last of so many nodes, each over the one before it and another digest.
pub(crate) fn hash_nodes(count: u32) -> Digest {
    let mut last = leaf(0);
    for number in 0..u64::from(count) {
        last = node_of::<Sha>(&last, &leaf(number));
    }
    last
}

/// The tree over so many leaves, which are added batch by batch, and the sum of the last bytes of its roots after each.
pub(crate) fn built(alloc: Global, leaves: u32) -> Result<(Tree<Sha>, u64), NoMemory> {
    let leaves = u64::from(leaves);
    let mut tree = Tree::new(alloc);
    let mut roots = 0u64;
    for _ in 0..leaves.div_ceil(BATCH as u64) {
        let count = leaves.saturating_sub(tree.size()).min(BATCH as u64);
        add_batch(&mut tree, count as usize)?;
        roots = roots.wrapping_add(u64::from(tree.root().0[31]));
    }
    Ok((tree, roots))
}

// Adds the next leaves, as many as a batch has or fewer.
fn add_batch(tree: &mut Tree<Sha>, count: usize) -> Result<(), NoMemory>
    requires count { count ≤ 64 }
    requires small { tree.old.size < 2 ^ 62 }
    ensures { OnOk result (tree.new.size ≡ tree.old.size + count) }
{
    let mut batch = [Digest([0; 32]); BATCH];
    for i in 0..BATCH {
        batch[i] = leaf(tree.size() + i as u64);
    }
    tree.reserve(count)?;
    tree.add_leaves(&batch[..count]);
    Ok(())
}

/// How many inclusion proofs and consistency proofs, so many of each, over leaves that are spread over the tree, give
/// its root.
pub(crate) fn prove(alloc: Global, tree: &Tree<Sha>, count: u32) -> Result<u64, TreeErr> {
    let mut good = 0u64;
    for number in 0..u64::from(count) {
        if tree.size() > 0 {
            let n = number.wrapping_mul(0x9e37_79b9_7f4a_7c15) % tree.size();
            good = good.wrapping_add(proofs_of(alloc, tree, n)?);
        }
    }
    Ok(good)
}

// How many give the root of the tree: the proof of a leaf, and that of the leaves up to and with it.
fn proofs_of(alloc: Global, tree: &Tree<Sha>, n: u64) -> Result<u64, TreeErr>
    requires { n < tree.now.size }
{
    let (size, root, m) = (tree.size(), tree.root(), n + 1);
    let path = flat(alloc, &tree.path(n, size)?).map_err(|_| TreeErr::NoMemory)?;
    let proof = flat(alloc, &tree.proof(m, size)?).map_err(|_| TreeErr::NoMemory)?;
    let is_in = fold_path::<Sha>(&tree.leaf(n)?, n, size, &path) == Some(root);
    let begins = fold_proof::<Sha>(m, &tree.root_at(m)?, size, &proof) == Some(root);
    Ok(u64::from(is_in) + u64::from(begins))
}

// The bytes of some digests, one after the other.
fn flat(alloc: Global, digests: &[Digest]) -> Result<Vec<u8>, NoMemory> {
    let mut bytes = Vec::new(alloc);
    for digest in digests {
        bytes.extend_from_slice(&digest.0)?;
    }
    Ok(bytes)
}

// A leaf's digest for each number, spread over all as digests are.
fn leaf(number: u64) -> Digest {
    let mut bytes = [1; 32];
    let spread = number.wrapping_mul(0x9e37_79b9_7f4a_7c15);
    bytes[..8].copy_from_slice(&spread.to_be_bytes());
    Digest(bytes)
}
