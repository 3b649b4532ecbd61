//! A tree goes on behind leaves that it forgot, and over peaks that no list has.

use hex::{FromHex, FromHexError};
use ledger_bytes::{Digest, NoMemory, Sha};
use merkle_batch::{Tree, TreeErr};
use merkle_tree::leaf_of;
use std::alloc::Global;
use std::test::Fail;

// By SHA-256, the root over the leaves that are the one byte 0, the one byte 1, and so on to 19.
const ROOT_OF_TWENTY: &str = "f2ba45d80624b4ee4063cd934a2369fd22f04ec615b823ed6b26fe7628f6d69d";

fn digest(text: &str) -> Result<Digest, FromHexError> {
    Ok(Digest(<[u8; 32] as FromHex>::from_hex(text)?))
}

// Adds some leaves.
pub(crate) fn add(tree: &mut Tree<Sha>, leaves: &[Digest]) -> Result<(), NoMemory> {
    if tree.size() > 100 || leaves.len() > 100 {
        return Err(NoMemory);
    }
    tree.reserve(leaves.len())?;
    tree.add_leaves(leaves);
    Ok(())
}

// Adds the leaves of these bytes, one each.
fn add_bytes(tree: &mut Tree<Sha>, from: u8, to: u8) -> Result<(), NoMemory> {
    for byte in from..to {
        add(tree, &[leaf_of::<Sha>(&[byte])])?;
    }
    Ok(())
}

// Are these the digests that were made?
pub(crate) fn are_made(made: Result<Vec<Digest>, TreeErr>, digests: &[Digest]) -> bool {
    match made {
        Ok(made) => made.as_slice() == digests,
        Err(_) => false,
    }
}

// Over peaks of six leaves that no list has.
#[test]
fn roots_over_peaks_of_no_list(rt: HostRuntime) -> Result<(), Fail> {
    let peaks = [Digest([1; 32]), Digest([2; 32])];
    let mut tree: Tree<Sha> = Tree::from_peaks(rt.alloc(), 6, &peaks)?;
    add(&mut tree, &[Digest([3; 32]), Digest([4; 32])])?;
    for (size, root) in [
        (
            6,
            "b331da6ec49d4547d9942a6727e5123f69bed5a0b97ac171cfbfd6201431fcfa",
        ),
        (
            7,
            "160af055ded2a117bd9339706528fca2abb32d61c29c60a38565724786041480",
        ),
        (
            8,
            "0f7c4c7236089fd2516cecab4e246c85a639de67d1993ca32264541aff881f10",
        ),
    ] {
        assert_eq!(rt; tree.root_at(size)?, digest(root)?);
    }
    Ok(())
}

#[test]
fn leaves_are_forgotten(rt: HostRuntime) -> Result<(), Fail> {
    let mut tree: Tree<Sha> = Tree::new(rt.alloc());
    add_bytes(&mut tree, 0, 13)?;
    tree.forget_below(5)?;
    add_bytes(&mut tree, 13, 20)?;
    let kept = leaf_of::<Sha>(&[5]);
    assert_eq!(rt;
        (tree.root(), tree.leaf(5), tree.leaf(4)),
        (
            digest(ROOT_OF_TWENTY)?,
            Ok(kept),
            Err(TreeErr::Below { p: 5 })
        )
    );
    Ok(())
}
