//! Stretches of leaves, one behind the other.

ghost use Rattle.std.specs.Prelude.{◌≡◌, ℕ, ◌+◌, ◌<◌, ◌≤◌, ◌^◌, ◌++◌, List, length, All, IfSome};
ghost use Rattle.sha2.specs.Sha256.{sha256};
ghost use Rattle.merkle_batch.specs.Over.{StandsOver};
ghost use Rattle.merkle_batch.specs.Rows.{StandsFor};
ghost use Rattle.proof_board.specs.History.{IsWide, leaves_of};

use crate::history::are_wide;
use ledger_bytes::Sha;
use merkle_batch::{Stretch, Tree};

// How many leaves they have. There is no answer where the number has more than 64 binary digits.
pub(crate) fn count_of(stretches: &[Stretch<Sha>]) -> Option<u64>
    ensures { IfSome result (λ n. n ≡ length (leaves_of stretches.now)) }
{
    let mut count: u64 = 0;
    for stretch in stretches {
        count = count.checked_add(stretch.len())?;
    }
    Some(count)
}

// Adds their leaves behind those of a tree, in the room that was set aside.
pub(crate) fn add_all(tree: &mut Tree<Sha>, stretches: &[Stretch<Sha>])
    requires room { length (leaves_of stretches.now) ≤ tree.old.spare }
    requires small { tree.old.size + length (leaves_of stretches.now) < 2 ^ 63 }
    ensures stands { (ds : List (List ℕ)) → StandsFor sha256 tree.old ds
        → StandsFor sha256 tree.new (ds ++ leaves_of stretches.now) }
    ensures over { (p : ℕ) (ps xs : List (List ℕ)) → StandsOver sha256 tree.old p ps xs
        → StandsOver sha256 tree.new p ps (xs ++ leaves_of stretches.now) }
    ensures floor { tree.new.floor ≡ tree.old.floor }
{
    for stretch in stretches {
        tree.add_stretch(stretch);
    }
}

// Each of their leaf digests has 32 bytes.
pub(crate) fn are_all_wide(stretches: &[Stretch<Sha>])
    ensures { All IsWide (leaves_of stretches.now) }
{
    for stretch in stretches {
        are_wide(stretch.leaves());
    }
}
