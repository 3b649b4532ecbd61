//! False paths and proofs show the worked strings, by the hash for tests.

use super::*;
use merkle_tree::{Clash, Pre, clash_path, clash_proof, fold_path, fold_proof};
use std::alloc::{AllocError, Global};

// The leaves of the list, one byte each.
const LEAVES: [u8; 5] = [1, 2, 3, 4, 5];

// The last bytes of a node's two digests, as a path or proof tells them, and as the list has them.
type Sides = ((u8, u8), (u8, u8));

// Paths by which the digest of another leaf folds to the list's root: the leaf's number and the last bytes of its told
// digest and of the path's digests, then what they show.
const PATHS: [(u64, u8, &[u8], Sides); 13] = [
    (0, 2, &[1, 8, 5], ((2, 1), (1, 2))),
    (0, 2, &[2, 7, 5], ((5, 7), (4, 8))),
    (0, 2, &[2, 8, 4], ((14, 4), (13, 5))),
    (1, 3, &[0, 8, 5], ((0, 3), (1, 2))),
    (1, 3, &[1, 7, 5], ((5, 7), (4, 8))),
    (1, 3, &[1, 8, 4], ((14, 4), (13, 5))),
    (2, 4, &[3, 4, 5], ((4, 3), (3, 4))),
    (2, 4, &[4, 3, 5], ((3, 9), (4, 8))),
    (2, 4, &[4, 4, 4], ((14, 4), (13, 5))),
    (3, 5, &[2, 4, 5], ((2, 5), (3, 4))),
    (3, 5, &[3, 3, 5], ((3, 9), (4, 8))),
    (3, 5, &[3, 4, 4], ((14, 4), (13, 5))),
    (4, 6, &[12], ((12, 6), (13, 5))),
];

// Proofs by which another root of the first leaves does so: their number and the last bytes of their told root and of
// the proof's digests, then what they show.
const PROOFS: [(u64, u8, &[u8], Sides); 20] = [
    (1, 0, &[3, 8, 5], ((0, 3), (1, 2))),
    (1, 2, &[1, 8, 5], ((2, 1), (1, 2))),
    (1, 0, &[2, 9, 5], ((3, 9), (4, 8))),
    (1, 2, &[2, 7, 5], ((5, 7), (4, 8))),
    (1, 0, &[2, 8, 6], ((12, 6), (13, 5))),
    (1, 2, &[2, 8, 4], ((14, 4), (13, 5))),
    (2, 3, &[9, 5], ((3, 9), (4, 8))),
    (2, 5, &[7, 5], ((5, 7), (4, 8))),
    (2, 3, &[8, 6], ((12, 6), (13, 5))),
    (2, 5, &[8, 4], ((14, 4), (13, 5))),
    (3, 9, &[4, 3, 4, 5], ((4, 3), (3, 4))),
    (3, 9, &[4, 4, 4, 4], ((14, 4), (13, 5))),
    (3, 7, &[2, 5, 4, 5], ((2, 5), (3, 4))),
    (3, 7, &[2, 4, 4, 6], ((12, 6), (13, 5))),
    (3, 7, &[3, 5, 3, 5], ((3, 9), (4, 8))),
    (3, 9, &[3, 3, 5, 5], ((5, 7), (4, 8))),
    (3, 9, &[3, 4, 5, 4], ((14, 4), (13, 5))),
    (3, 7, &[3, 4, 3, 6], ((12, 6), (13, 5))),
    (4, 12, &[6], ((12, 6), (13, 5))),
    (4, 14, &[4], ((14, 4), (13, 5))),
];

// Digests with these last bytes, one after the other.
fn flat_of(alloc: Global, lasts: &[u8]) -> Result<Vec<u8>, AllocError> {
    let mut flat = Vec::new(alloc);
    for last in lasts {
        flat.extend_from_slice(&toy_digest(*last).0)?;
    }
    Ok(flat)
}

// Is this the string of a node over digests with these last bytes?
fn is_node(pre: &Pre, (left, right): (u8, u8)) -> bool {
    let mut bytes = [0; 65];
    bytes[0] = 1;
    bytes[32] = left;
    bytes[64] = right;
    pre.as_slice() == bytes.as_slice()
}

fn shown_by_path(leaf: &Digest, n: u64, path: &[u8]) -> Option<Clash> {
    let root = mth::<Toy>(&LEAVES, 1);
    if fold_path::<Toy>(leaf, n, 5, path)? != root
        || leaf_of::<Toy>(LEAVES.get(n as usize..n as usize + 1)?) == *leaf
    {
        return None;
    }
    Some(clash_path::<Toy>(&LEAVES, 1, leaf, n, path))
}

fn shown_by_proof(m: u64, old: &Digest, proof: &[u8]) -> Option<Clash> {
    let root = mth::<Toy>(&LEAVES, 1);
    if fold_proof::<Toy>(m, old, 5, proof)? != root
        || mth::<Toy>(LEAVES.get(..m as usize)?, 1) == *old
    {
        return None;
    }
    Some(clash_proof::<Toy>(&LEAVES, 1, m, old, proof))
}

#[test]
fn clashes_by_the_toy_hash(rt: HostRuntime) -> Result<(), Fail> {
    for (n, leaf, path, (told, truth)) in PATHS {
        let path = flat_of(rt.alloc(), path)?;
        match shown_by_path(&toy_digest(leaf), n, &path) {
            Some(clash) => {
                assert!(rt; is_node(&clash.told, told), "of leaf {n}");
                assert!(rt; is_node(&clash.truth, truth), "of leaf {n}");
            }
            None => assert!(rt; false, "of leaf {n}"),
        }
    }
    for (m, old, proof, (told, truth)) in PROOFS {
        let proof = flat_of(rt.alloc(), proof)?;
        match shown_by_proof(m, &toy_digest(old), &proof) {
            Some(clash) => {
                assert!(rt; is_node(&clash.told, told), "from {m}");
                assert!(rt; is_node(&clash.truth, truth), "from {m}");
            }
            None => assert!(rt; false, "from {m}"),
        }
    }
    Ok(())
}
