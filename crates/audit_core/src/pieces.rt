//! Headers or entries that stand one after the other: each one, its leaf digest, and the root over the first ones.

ghost use Rattle.std.specs.Prelude.{◌≡◌, ◌/◌, ◌<◌, ◌≤◌, length, take, get_or, []};
ghost use Rattle.std.specs.Str.{bytes_eq};
ghost use Rattle.tree_model.specs.Tree as tree;
ghost use Rattle.tree_model.specs.Tree.{leaf, cut};

use ledger_bytes::{Digest, TreeHash};
use merkle_tree::{leaf_of, mth};

// How many pieces of one width bytes hold.
pub(crate) fn piece_count(flat: &[u8], width: usize) -> u64
    requires { 0 < width }
    ensures count { result ≡ length flat.now / width }
    ensures cut { result ≡ length (cut width flat.now) }
{
    (flat.len() / width) as u64
}

// One piece of a list of pieces of one width.
pub(crate) fn piece_at(flat: &[u8], width: usize, n: u64) -> &[u8]
    requires low { 0 < width }
    requires within { n < length flat.now / width }
    ensures is { result.now ≡ get_or (cut width flat.now) n [] }
    ensures len { length result.now ≡ width }
{
    let at = n as usize * width;
    &flat[at..at + width]
}

// Has the list this digest of the leaf there?
pub(crate) fn has_leaf<H: TreeHash>(flat: &[u8], width: usize, n: u64, digest: &Digest) -> bool
    requires low { 0 < width }
    requires within { n < length flat.now / width }
    ensures { result ≡ bytes_eq (leaf H.of (get_or (cut width flat.now) n [])) digest.now.0 }
{
    leaf_of::<H>(piece_at(flat, width, n)) == *digest
}

// The root of the first `m` pieces of a list.
pub(crate) fn first_root<H: TreeHash>(flat: &[u8], width: usize, m: u64) -> Digest
    requires low { 0 < width }
    requires high { width ≤ 174 }
    requires within { m ≤ length flat.now / width }
    ensures { result.0 ≡ tree.mth H.of (take m (cut width flat.now)) }
{
    mth::<H>(&flat[..m as usize * width], width)
}
