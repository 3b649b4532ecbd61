//! Trees whose leaves are the one byte 0, the one byte 1, and so on, by SHA-256, and boards on them.

ghost use Rattle.std.specs.Prelude.{IfOk};
ghost use Rattle.proof_board.specs.Words.{IsPassOf, IsWriterOf};

use hex::{FromHex, FromHexError};
use ledger_bytes::{Digest, NoMemory, Sha};
use merkle_batch::Tree;
use merkle_tree::leaf_of;
use proof_board::{Board, BoardWriter, ProverPass, open_board};
use std::alloc::Global;
use std::sync::Wait;

// The digest of the third leaf.
pub(crate) const THIRD: &str = "fcf0a6c700dd13e274b6fba8deea8dd9b26e4eedde3495717cac8408c9c5177f";

// The roots over the first two leaves, and over the first three.
pub(crate) const ROOT_OF_TWO: &str =
    "a20bf9a7cc2dc8a08f5f415a71b19f6ac427bab54d24eec868b5d3103449953a";

pub(crate) const ROOT_OF_THREE: &str =
    "3b6cccd7e3e023ff393006f030315ee7ad9eb111b022b41fba7e5b7a3973f688";

pub(crate) fn digest(text: &str) -> Result<Digest, FromHexError> {
    Ok(Digest(<[u8; 32] as FromHex>::from_hex(text)?))
}

/// The tree over so many leaves.
pub(crate) fn tree_of(alloc: Global, count: u8) -> Result<Tree<Sha>, NoMemory> {
    let mut tree = Tree::new(alloc);
    for byte in 0..count {
        if tree.size() > 300 {
            return Err(NoMemory);
        }
        tree.reserve(1)?;
        tree.add_leaves(&[leaf_of::<Sha>(&[byte])]);
    }
    Ok(tree)
}

/// A board on a tree, with room for four leaves more and one prover.
pub(crate) fn open_one<R: Wait>(
    rt: &R,
    alloc: Global,
    tree: &Tree<Sha>,
) -> Result<(Board, BoardWriter, ProverPass), NoMemory>
    ensures writer { IfOk result (λ r. IsWriterOf r.0 r.1) }
    ensures pass { IfOk result (λ r. IsPassOf r.0 r.2) }
{
    if tree.floor() >= tree.size() {
        return Err(NoMemory);
    }
    let (board, writer, mut passes) = open_board(rt, alloc, tree, 4, 1)?;
    let Some(pass) = passes.pop() else {
        unreachable!()
    };
    Ok((board, writer, pass))
}
