//! A board, on which provers make proofs.

ghost use Rattle.std.specs.Prelude.{◌≡◌, All};
ghost use mathlib.Core.List.{IsPrefix};
ghost use Rattle.proof_board.specs.Answers.{Answers};
ghost use Rattle.proof_board.specs.Words.{told_to, seen_by, base_in, history_of, IsPassOf, IsWriterOf};

use crate::history::Front;
use crate::pass::ProverPass;
use crate::writer::BoardWriter;
use core::mem::replace_with;
use ledger_bytes::{Bytes, NoMemory};
use merkle_tree::Head;
use std::alloc::Global;
use std::sync::Wait;
use thiserror::Error;

/// Why a board gives no proof.
#[derive(Clone, Copy, Debug, PartialEq, Eq, Error)]
pub enum BoardErr {
    /// The leaf lies below the board's floor, which is `p`: the floor of the tree at the start.
    #[error("below the floor, which is {p}")]
    Below { p: u64 },
    /// There is no such leaf in the tree that was read, which has this size.
    #[error("beyond the size of {size}")]
    Beyond { size: u64 },
    #[error("not enough memory")]
    NoMemory,
}

impl From<NoMemory> for BoardErr {
    fn from(_: NoMemory) -> Self {
        BoardErr::NoMemory
    }
}

/// A board: what the provers' threads share.
#[derive(Drop)]
pub struct Board {
    pub(crate) alloc: Global,
    pub(crate) start: Front,
}

// Waits for ever unless the writer's history begins with this one, as it does.
fn settle<R: Wait>(rt: &R, pass: &ProverPass, front: &Front)
    requires { front.now.book ≡ (seen_by pass.now).book }
    ensures { IsPrefix (seen_by pass.now).log front.now.log }
{
    for _ in rt.forever() {
        if pass.seen.begins(front) {
            return;
        }
    }
    unreachable!()
}

impl Board {
    /// Proves leaf `n` under the head of the tree that is then read, which begins with all that this pass had seen or was told of,
    /// and which this pass has seen from then on. The proof has both flags 00; each auditor who trusts the head accepts it.
    /// `Below` comes exactly where `n` is below the board's floor, and `Beyond` where it isn't below the size that was read.
    ///
    /// Where the snapshot refuses the read, it reads again.
    pub fn prove<R: Wait>(
        &self,
        rt: &R,
        pass: &mut ProverPass,
        n: u64,
    ) -> Result<(Head, Bytes), BoardErr>
        requires pass { IsPassOf self.now pass.old }
        ensures pass { IsPassOf self.now pass.new × (base_in pass.new ≡ base_in pass.old)
            × (told_to pass.new ≡ told_to pass.old) }
        ensures seen { IsPrefix (seen_by pass.old).log (seen_by pass.new).log }
        ensures told { IsPrefix (told_to pass.old).log (seen_by pass.new).log }
        ensures answer { Answers (base_in pass.old) (seen_by pass.new).log n result }
    {
        let alloc = self.alloc;
        replace_with(pass, (rt, n), |pass, (rt, n)| pass.answering(rt, alloc, n))
    }

    /// Ends a board, once its writer and all of its passes are back. What each prover saw was a beginning of what was published,
    /// and ended at a publish or at the start.
    pub fn close<R: Wait>(self, rt: &R, writer: BoardWriter, passes: Vec<ProverPass>)
        requires writer { IsWriterOf self writer }
        requires passes { All (IsPassOf self) passes.items }
        ensures { All (λ p. IsPrefix (seen_by p).log (history_of writer)) passes.items }
    {
        let front = writer.front();
        for k in 0..passes.len() {
            settle(rt, &passes[k], &front);
        }
        writer.end(rt);
    }
}
