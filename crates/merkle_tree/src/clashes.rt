//! How two different strings with one digest are found where a false path or proof leads to the root of a list.

ghost use Rattle.std.specs.Prelude.{◌≡◌, ◌≢◌, ◌/◌, ◌%◌, ◌<◌, ◌≤◌, length, take, get_or, option_map, [], Some};
ghost use Rattle.tree_model.specs.Tree as tree;
ghost use Rattle.tree_model.specs.Tree.{cut};
ghost use Rattle.tree_model.specs.Path.{fold_bytes};
ghost use Rattle.tree_model.specs.Extension.{fold_proof_bytes};
ghost use Rattle.tree_model.specs.Clash.{IsClash, path_clash, proof_clash, sub_clash};
ghost use Rattle.merkle_tree.specs.Part.{leaves_of};
ghost use Rattle.merkle_tree.specs.Strings.{bytes_of, pair_of};

use crate::clash::Clash;
use crate::paths::fold_below;
use crate::pres::differ;
use crate::proofs::roots_below;
use crate::roots::mth;
use crate::splits::halves;
use ledger_bytes::{Digest, TreeHash};

/// Two different strings with one digest, from a path by which another digest than that of leaf `n` folds to the root
/// of a list of leaves of `width` bytes each: the strings of the first node, from the root down, that the path tells
/// otherwise than the list. First is the one that the path tells. It takes no memory, and hashes the list at most once
/// for each digest of the path.
pub fn clash_path<H: TreeHash>(
    flat: &[u8],
    width: usize,
    leaf: &Digest,
    n: u64,
    path: &[u8],
) -> Clash
    requires low { 0 < width }
    requires high { width ≤ 174 }
    requires whole { length flat.now % width ≡ 0 }
    requires gives { fold_bytes H.of leaf.now.0 n (length flat.now / width) path.now
        ≡ Some (tree.mth H.of (cut width flat.now)) }
    requires other { leaf.now.0 ≢ get_or (leaves_of H.of width flat.now) n [] }
    ensures clash { IsClash H.of (bytes_of result.told) (bytes_of result.truth) }
    ensures exact { path_clash H.of leaf.now.0 n (leaves_of H.of width flat.now) (cut 32 path.now)
        ≡ Some (pair_of result) }
{
    match path_differs::<H>(flat, width, leaf, n, path) {
        Some(clash) => clash,
        None => unreachable!(),
    }
}

// The strings of the first node that a path tells otherwise than the list, if there is one.
fn path_differs<H: TreeHash>(
    flat: &[u8],
    width: usize,
    leaf: &Digest,
    n: u64,
    path: &[u8],
) -> Option<Clash>
    requires low { 0 < width }
    requires high { width ≤ 174 }
    requires whole { length flat.now % width ≡ 0 }
    requires within { n < length flat.now / width }
    requires digests { length path.now % 32 ≡ 0 }
    ensures { option_map pair_of result
        ≡ path_clash H.of leaf.now.0 n (leaves_of H.of width flat.now) (cut 32 path.now) }
{
    let size = (flat.len() / width) as u64;
    if size == 1 {
        return None;
    }
    let (rest, side) = path.split_last_chunk::<32>()?;
    let side = Digest(*side);
    let (count, front, back) = halves(flat, width);
    let left = mth::<H>(front, width);
    let right = mth::<H>(back, width);
    if n < count {
        let told = fold_below::<H>(leaf, n, count, rest)?;
        match differ(&told, &side, &left, &right) {
            Some(clash) => Some(clash),
            None => path_differs::<H>(front, width, leaf, n, rest),
        }
    } else {
        let told = fold_below::<H>(leaf, n - count, size - count, rest)?;
        match differ(&side, &told, &left, &right) {
            Some(clash) => Some(clash),
            None => path_differs::<H>(back, width, leaf, n - count, rest),
        }
    }
}

/// Two different strings with one digest, from a proof by which another root than that of the first `m` leaves folds
/// to the root of a list of leaves of `width` bytes each: the strings of the first node, from the root down, that the
/// proof tells otherwise than the list. First is the one that the proof tells. It takes no memory, and hashes the list
/// at most once for each digest of the proof.
pub fn clash_proof<H: TreeHash>(
    flat: &[u8],
    width: usize,
    m: u64,
    old: &Digest,
    proof: &[u8],
) -> Clash
    requires low { 0 < width }
    requires high { width ≤ 174 }
    requires whole { length flat.now % width ≡ 0 }
    requires gives { fold_proof_bytes H.of m old.now.0 (length flat.now / width) proof.now
        ≡ Some (tree.mth H.of (cut width flat.now)) }
    requires other { old.now.0 ≢ tree.mth H.of (take m (cut width flat.now)) }
    ensures clash { IsClash H.of (bytes_of result.told) (bytes_of result.truth) }
    ensures exact { proof_clash H.of m old.now.0 (leaves_of H.of width flat.now) (cut 32 proof.now)
        ≡ Some (pair_of result) }
{
    match proof_differs::<H>(flat, width, m, true, old, proof) {
        Some(clash) => clash,
        None => unreachable!(),
    }
}

// The strings of the first node of the new tree that a proof tells otherwise than the list, if there is one.
fn proof_differs<H: TreeHash>(
    flat: &[u8],
    width: usize,
    m: u64,
    known: bool,
    old: &Digest,
    proof: &[u8],
) -> Option<Clash>
    requires low { 0 < width }
    requires high { width ≤ 174 }
    requires whole { length flat.now % width ≡ 0 }
    requires some { 0 < m }
    requires within { m ≤ length flat.now / width }
    requires digests { length proof.now % 32 ≡ 0 }
    ensures { option_map pair_of result
        ≡ sub_clash H.of m known old.now.0 (leaves_of H.of width flat.now) (cut 32 proof.now) }
{
    let size = (flat.len() / width) as u64;
    if m == size {
        return None;
    }
    let (rest, side) = proof.split_last_chunk::<32>()?;
    let side = Digest(*side);
    let (count, front, back) = halves(flat, width);
    let left = mth::<H>(front, width);
    let right = mth::<H>(back, width);
    if m <= count {
        let (_, new) = roots_below::<H>(m, count, known, old, rest)?;
        match differ(&new, &side, &left, &right) {
            Some(clash) => Some(clash),
            None => proof_differs::<H>(front, width, m, known, old, rest),
        }
    } else {
        let (_, new) = roots_below::<H>(m - count, size - count, false, old, rest)?;
        match differ(&side, &new, &left, &right) {
            Some(clash) => Some(clash),
            None => proof_differs::<H>(back, width, m - count, false, old, rest),
        }
    }
}
