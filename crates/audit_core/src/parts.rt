//! Which strings an accepted proof of a false claim shows: its own and the list's, different and with one digest.

ghost use Rattle.std.specs.Prelude.{◌≡◌, ◌/◌, ◌%◌, ◌<◌, ◌≤◌, ◌∷◌, length, get_or, [], IfSome};
ghost use Rattle.tree_model.specs.Tree.{leaf, cut};
ghost use Rattle.merkle_tree.specs.Strings.{bytes_of};
ghost use Rattle.audit_core.specs.Truth.{lists_of};
ghost use Rattle.audit_core.specs.Parts.{path_part, leaf_part, extension_part, placed_parts, lower_parts, upper_parts, entry_parts, lower_entry_parts, upper_entry_parts, parts_of};
ghost use Rattle.audit_core.specs.Parts.{PathGives, ExtensionGives, LowerGives, UpperGives, EntryGives, LowerEntryGives, UpperEntryGives, ShownGives, Finds};

use crate::pieces::{first_root, has_leaf, piece_at};
use journal_record::HEADER_LEN;
use ledger_bytes::{Digest, TreeHash};
use merkle_tree::{Clash, Pre, clash_path, clash_proof, leaf_of};
use proof_codec::{Lower, Proof};
use time_peg::{ENTRY_LEN, TimeMark, entry_bytes, peg_of};

// The strings of the first part of a proof that tells what isn't of the lists, if there is one. The parts are looked at
// in their order: the leaf's path, the lower and the upper bound in the ledger, and their entries at the notary.
pub(crate) fn first_clash<H: TreeHash>(
    id: &Digest,
    headers: &[u8],
    entries: &[u8],
    shown: &Proof,
) -> Option<Clash>
    requires ledger { length headers.now % 174 ≡ 0 }
    requires notary { length entries.now % 72 ≡ 0 }
    requires gives { ShownGives H.of (lists_of id.now headers.now entries.now) shown.now }
    ensures { Finds H.of
        (parts_of H.of (lists_of id.now headers.now entries.now) shown.now) result }
{
    if let Some(clash) = path_differs::<H>(headers, HEADER_LEN, &shown.leaf, shown.n, shown.path) {
        return Some(clash);
    }
    if let Some(clash) = lower_differs::<H>(headers, shown) {
        return Some(clash);
    }
    if let Some(clash) = upper_differs::<H>(headers, shown) {
        return Some(clash);
    }
    if let Some(clash) = lower_entry_differs::<H>(id, entries, shown) {
        return Some(clash);
    }
    upper_entry_differs::<H>(id, entries, shown)
}

// The strings of the time journal in front, by the ledger.
fn lower_differs<H: TreeHash>(headers: &[u8], shown: &Proof) -> Option<Clash>
    requires whole { length headers.now % 174 ≡ 0 }
    requires gives { IfSome shown.now.lo (LowerGives H.of (cut 174 headers.now)) }
    ensures { Finds H.of (lower_parts H.of (cut 174 headers.now) shown.now.lo) result }
{
    match &shown.lo {
        Some(lower) => header_differs::<H>(headers, lower),
        None => None,
    }
}

fn header_differs<H: TreeHash>(headers: &[u8], lower: &Lower) -> Option<Clash>
    requires whole { length headers.now % 174 ≡ 0 }
    requires gives { LowerGives H.of (cut 174 headers.now) lower.now }
    ensures { Finds H.of (lower_parts H.of (cut 174 headers.now) (Some lower.now)) result }
{
    let j = lower.header.jsn;
    let header = lower.header.encode();
    match placed_differs::<H>(headers, HEADER_LEN, &header, j, lower.path) {
        Some(clash) => Some(clash),
        None => extension_differs::<H>(headers, j, &lower.root, lower.ext),
    }
}

// The strings of the time journal behind, by the ledger.
fn upper_differs<H: TreeHash>(headers: &[u8], shown: &Proof) -> Option<Clash>
    requires whole { length headers.now % 174 ≡ 0 }
    requires gives { IfSome shown.now.hi (UpperGives H.of (cut 174 headers.now)) }
    ensures { Finds H.of (upper_parts H.of (cut 174 headers.now) shown.now.hi) result }
{
    match &shown.hi {
        Some(upper) => extension_differs::<H>(headers, upper.mark.jsn, &upper.root, upper.ext),
        None => None,
    }
}

// The strings of the entry of the time journal in front, by the notary's list.
fn lower_entry_differs<H: TreeHash>(id: &Digest, entries: &[u8], shown: &Proof) -> Option<Clash>
    requires whole { length entries.now % 72 ≡ 0 }
    requires gives { IfSome shown.now.lo
        (LowerEntryGives H.of id.now (cut 72 entries.now) shown.now.lo_path) }
    ensures { Finds H.of (lower_entry_parts H.of id.now (cut 72 entries.now) shown.now.lo
        shown.now.lo_path) result }
{
    match &shown.lo {
        Some(lower) => {
            let (mark, salt) = (lower.mark(), &lower.header.link);
            entry_differs::<H>(id, entries, &mark, &lower.root, salt, shown.lo_path)
        }
        None => None,
    }
}

// The strings of the entry of the time journal behind.
fn upper_entry_differs<H: TreeHash>(id: &Digest, entries: &[u8], shown: &Proof) -> Option<Clash>
    requires whole { length entries.now % 72 ≡ 0 }
    requires gives { IfSome shown.now.hi
        (UpperEntryGives H.of id.now (cut 72 entries.now) shown.now.hi_path) }
    ensures { Finds H.of (upper_entry_parts H.of id.now (cut 72 entries.now) shown.now.hi
        shown.now.hi_path) result }
{
    match &shown.hi {
        Some(upper) => {
            let (mark, salt) = (&upper.mark, &upper.salt);
            entry_differs::<H>(id, entries, mark, &upper.root, salt, shown.hi_path)
        }
        None => None,
    }
}

fn entry_differs<H: TreeHash>(
    id: &Digest,
    entries: &[u8],
    mark: &TimeMark,
    root: &Digest,
    salt: &Digest,
    path: &[u8],
) -> Option<Clash>
    requires whole { length entries.now % 72 ≡ 0 }
    requires gives { EntryGives H.of id.now (cut 72 entries.now) mark.now root.now salt.now path.now }
    ensures { Finds H.of (entry_parts H.of id.now (cut 72 entries.now) mark.now root.now salt.now
        path.now) result }
{
    let entry = entry_bytes(mark.time, &peg_of::<H>(id, mark.jsn, root), salt);
    placed_differs::<H>(entries, ENTRY_LEN, &entry, mark.index, path)
}

/// The strings of leaf `n` of a flat list of leaves of `width` bytes, told as `told`, with a path that leads to the list's root: those
/// of the first node of the path, from the root down, that is told otherwise, and else those of the leaf. None where the leaf is the list's.
/// The cost is a path of nodes, each of which hashes the leaves below it once.
pub fn placed_differs<H: TreeHash>(
    flat: &[u8],
    width: usize,
    told: &[u8],
    n: u64,
    path: &[u8],
) -> Option<Clash>
    requires low { 0 < width }
    requires high { width ≤ 174 }
    requires whole { length flat.now % width ≡ 0 }
    requires room { length told.now ≤ 174 }
    requires gives { PathGives H.of (cut width flat.now) (leaf H.of told.now) n path.now }
    ensures { Finds H.of (placed_parts H.of (cut width flat.now) told.now n path.now) result }
{
    match path_differs::<H>(flat, width, &leaf_of::<H>(told), n, path) {
        Some(clash) => Some(clash),
        None => leaf_differs::<H>(flat, width, told, n),
    }
}

// The strings of a path, where its digest isn't that of the leaf.
fn path_differs<H: TreeHash>(
    flat: &[u8],
    width: usize,
    digest: &Digest,
    n: u64,
    path: &[u8],
) -> Option<Clash>
    requires low { 0 < width }
    requires high { width ≤ 174 }
    requires whole { length flat.now % width ≡ 0 }
    requires gives { PathGives H.of (cut width flat.now) digest.now.0 n path.now }
    ensures { Finds H.of (path_part H.of (cut width flat.now) digest.now.0 n path.now ∷ []) result }
{
    if has_leaf::<H>(flat, width, n, digest) {
        None
    } else {
        Some(clash_path::<H>(flat, width, digest, n, path))
    }
}

// The strings that are hashed to a leaf's digest, where the leaf is another with that digest.
fn leaf_differs<H: TreeHash>(flat: &[u8], width: usize, told: &[u8], n: u64) -> Option<Clash>
    requires low { 0 < width }
    requires high { width ≤ 174 }
    requires room { length told.now ≤ 174 }
    requires within { n < length flat.now / width }
    requires one_digest { leaf H.of told.now ≡ leaf H.of (get_or (cut width flat.now) n []) }
    ensures { Finds H.of (leaf_part (cut width flat.now) told.now n ∷ []) result }
{
    let truth = piece_at(flat, width, n);
    if *told == *truth {
        None
    } else {
        Some(Clash {
            told: leaf_string(told),
            truth: leaf_string(truth),
        })
    }
}

// The string that is hashed to a leaf's digest.
fn leaf_string(leaf: &[u8]) -> Pre
    requires { length leaf.now ≤ 174 }
    ensures { bytes_of result ≡ 0 ∷ leaf.now }
{
    let mut bytes = [0; 175];
    let len = 1 + leaf.len();
    bytes[1..len].copy_from_slice(leaf);
    Pre {
        len: len as u8,
        bytes,
    }
}

// The strings of an extension, where its old root isn't that of the first `m` journals.
fn extension_differs<H: TreeHash>(headers: &[u8], m: u64, old: &Digest, ext: &[u8]) -> Option<Clash>
    requires whole { length headers.now % 174 ≡ 0 }
    requires gives { ExtensionGives H.of (cut 174 headers.now) m old.now.0 ext.now }
    ensures { Finds H.of (extension_part H.of (cut 174 headers.now) m old.now.0 ext.now ∷ []) result }
{
    if first_root::<H>(headers, HEADER_LEN, m) == *old {
        None
    } else {
        Some(clash_proof::<H>(headers, HEADER_LEN, m, old, ext))
    }
}
