//! The proof of a leaf, without bounds in time.

ghost use Rattle.std.specs.Prelude.{◌≡◌, ◌≤◌, ◌<◌, ◌^◌, ◌*◌, ◌++◌, length, map, IfOk, OnOk};
ghost use Rattle.std.specs.List.{concat};
ghost use Rattle.proof_board.specs.Bare.{IsBareOf};

use crate::history::is_wide;
use ledger_bytes::{Bytes, Digest, NoMemory, Sha};
use merkle_batch::Tree;
use proof_codec::Proof;
use std::alloc::Global;

// Adds the bytes of a digest.
fn add(bytes: &mut Vec<u8>, digest: &Digest) -> Result<(), NoMemory>
    ensures bytes { OnOk result (bytes.new.items ≡ bytes.old.items ++ digest.now.0) }
    ensures width { length digest.now.0 ≡ 32 }
{
    bytes.extend_from_slice(&digest.0)?;
    Ok(())
}

// The bytes of digests, one after the other.
fn row_of(alloc: Global, digests: &[Digest]) -> Result<Bytes, NoMemory>
    ensures bytes { IfOk result (λ row. row ≡ concat (map (λ d. d.0) digests.now)) }
    ensures len { IfOk result (λ row. length row ≡ 32 * length digests.now) }
{
    let mut row = Vec::new(alloc);
    for digest in digests {
        add(&mut row, digest)?;
    }
    Ok(Bytes::of(row))
}

/// The bytes of the proof of leaf `n` in a tree, with no bound in front or behind.
pub(crate) fn bare(alloc: Global, tree: &Tree<Sha>, n: u64) -> Result<Bytes, NoMemory>
    requires floor { tree.now.floor ≤ n }
    requires within { n < tree.now.size }
    requires small { tree.now.size < 2 ^ 62 }
    ensures { IfOk result (IsBareOf tree.now n) }
{
    let size = tree.size();
    let Ok(leaf) = tree.leaf(n) else {
        unreachable!()
    };
    is_wide(&leaf);
    let Ok(digests) = tree.path(n, size) else {
        return Err(NoMemory);
    };
    let path = row_of(alloc, digests.as_slice())?;
    let proof = Proof {
        size,
        n,
        leaf,
        path: path.as_slice(),
        lo: None,
        hi: None,
        notary_size: 0,
        lo_path: &[],
        hi_path: &[],
    };
    let bytes = proof.encode(alloc)?;
    Ok(bytes)
}
