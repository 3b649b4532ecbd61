//! What lets a prover look at a board.

ghost use Rattle.std.specs.Prelude.{◌≡◌, ◌+◌, ◌<◌, All, length};
ghost use Rattle.left_right.specs.Sides.{view};
ghost use Rattle.proof_board.specs.History.{IsWide, all_leaves};
ghost use Rattle.proof_board.specs.Rule.{aware_of};

use crate::history::Front;
use crate::rule::Grows;
use crate::shown::Shown;
use crate::view::View;
use left_right::reader::Reader;

/// What lets a prover look at a board. Each prover has one.
#[derive(Drop)]
pub struct ProverPass {
    pub(crate) reader: Reader<Shown, View, Grows>,
    pub(crate) floor: u64,
    // The size that was seen last.
    pub(crate) size: u64,
    pub(crate) seen: Front,
    pub(crate) told: Front,
    ghost known: { view reader.place ≡ aware_of (view reader.place).base seen },
    ghost told_is: { told.book ≡ seen.book },
    ghost floored: { floor ≡ (view reader.place).base.floor },
    ghost sized: { size ≡ floor + length (all_leaves seen.log) },
    ghost some: { 0 < length (all_leaves seen.log) },
    ghost wide: { All IsWide (all_leaves seen.log) },
}
