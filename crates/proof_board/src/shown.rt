//! The tree that provers read.

ghost use Rattle.std.specs.Prelude.{◌≡◌, ◌≤◌, ◌<◌, ◌+◌, ◌^◌, ◌++◌, [], length, map, count_ones, IfOk, OnOk, OnErr};
ghost use Rattle.proof_board.specs.Growing.{growth, base_of};
ghost use Rattle.proof_board.specs.History.{leaves_of};
ghost use Rattle.proof_board.specs.Answers.{IsShownHead, AnswersOver};

use crate::bare::bare;
use crate::board::BoardErr;
use crate::history::Front;
use crate::stretches::{add_all, count_of};
use ledger_bytes::{Bytes, Digest, NoMemory, Sha};
use left_right::Absorb;
use merkle_batch::{Stretch, Tree};
use merkle_tree::Head;
use std::alloc::{AllocError, Global};
use std::marker::Model;

/// A tree whose first leaves are known by their peaks, and the batches that were added to it.
#[derive(Drop)]
pub struct Shown {
    peaks: Vec<Digest>,
    tree: Tree<Sha>,
    at: Front,
}

impl Model for Shown {
    ghost use Rattle.std.specs.Prelude.{map};
    ghost use Rattle.proof_board.specs.declared.view.Growth.{Growth};
    ghost use Rattle.proof_board.specs.Growing.{growth, base_of, kept_of, IsHeld};

    ghost Value = { Growth };

    ghost view = { λ s. growth (base_of s.tree.floor (map (λ d. d.0) s.peaks.items)) (kept_of s.tree) s.at };

    ghost invariant = { λ s. IsHeld s.tree (map (λ d. d.0) s.peaks.items) };
}

/// Stretches of leaves that are added, and the batches of which all leaves are then made.
#[derive(Drop)]
pub struct Growing {
    pub stretches: Vec<Stretch<Sha>>,
    pub at: Front,
}

impl Shown {
    /// The tree over a base and the leaves of these stretches, with room for so many more.
    pub fn new(
        alloc: Global,
        floor: u64,
        peaks: &[Digest],
        stretches: &[Stretch<Sha>],
        room: usize,
        at: Front,
    ) -> Result<Shown, NoMemory>
        requires ones { length peaks.now ≡ count_ones floor }
        requires small { floor + length (leaves_of stretches.now) < 2 ^ 63 }
        ensures { IfOk result (λ s. s
            ≡ growth (base_of floor (map (λ d. d.0) peaks.now)) (leaves_of stretches.now) at) }
    {
        let Some(count) = count_of(stretches) else {
            return Err(NoMemory);
        };
        let mut tree = Tree::<Sha>::from_peaks(alloc, floor, peaks)?;
        tree.reserve(count as usize)?;
        add_all(&mut tree, stretches);
        tree.reserve(room)?;
        let mut kept = Vec::new(alloc);
        kept.extend_from_slice(peaks)?;
        Ok(Shown {
            peaks: kept,
            tree,
            at,
        })
    }

    pub fn floor(&self) -> u64
        ensures { result ≡ self.now.base.floor }
    {
        self.tree.floor()
    }

    pub fn size(&self) -> u64
        ensures { result ≡ self.now.base.floor + length self.now.leaves }
    {
        self.tree.size()
    }

    /// The batches of which its leaves are made.
    pub fn at(&self) -> &Front
        ensures { result.now ≡ self.now.at }
    {
        &self.at
    }

    /// The head of the tree.
    pub fn head(&self) -> Head
        ensures { IsShownHead self.now result }
    {
        Head {
            size: self.tree.size(),
            root: self.tree.root(),
        }
    }

    /// The proof of leaf `n`, under the head of the tree.
    pub fn answer(&self, alloc: Global, n: u64) -> Result<(Head, Bytes), BoardErr>
        ensures { AnswersOver self.now.base self.now.leaves n result }
    {
        let (floor, size) = (self.floor(), self.size());
        if n < floor {
            return Err(BoardErr::Below { p: floor });
        }
        if n >= size {
            return Err(BoardErr::Beyond { size });
        }
        if size >= 1 << 62 {
            return Err(BoardErr::NoMemory);
        }
        let head = self.head();
        match bare(alloc, &self.tree, n) {
            Ok(bytes) => Ok((head, bytes)),
            Err(NoMemory) => Err(BoardErr::NoMemory),
        }
    }

    // Adds the leaves of some stretches, where there is room for them.
    fn grow(&mut self, stretches: &[Stretch<Sha>], at: Front) -> Result<(), AllocError>
        ensures ok { OnOk result (self.new
            ≡ growth self.old.base (self.old.leaves ++ leaves_of stretches.now) at) }
        ensures err { OnErr result (self.new ≡ self.old) }
    {
        let Some(count) = count_of(stretches) else {
            return Err(AllocError);
        };
        if self.tree.size() >= 1 << 62 || count >= 1 << 62 {
            return Err(AllocError);
        }
        let Ok(()) = self.tree.reserve(count as usize) else {
            return Err(AllocError);
        };
        add_all(&mut self.tree, stretches);
        self.at = at;
        Ok(())
    }
}

impl Absorb<Growing> for Shown {
    ghost use Rattle.proof_board.specs.Growing.{grown};

    type State = crate::view::Growth;

    ghost state = { λ s. s };

    ghost applied = { grown };

    fn absorb_first(&mut self, operation: &Growing, _other: &Shown) -> Result<(), AllocError> {
        self.grow(operation.stretches.as_slice(), operation.at.again())
    }
}
