//! What a prover does with its pass.

ghost use Rattle.std.specs.Prelude.{◌≡◌, ◌<◌, true, All};
ghost use mathlib.Core.List.{IsPrefix};
ghost use Rattle.left_right.specs.Sides.{view};
ghost use Rattle.proof_board.specs.History.{IsWide, all_leaves};
ghost use Rattle.proof_board.specs.Rule.{aware_of, Knows};
ghost use Rattle.proof_board.specs.Answers.{Answers};
ghost use Rattle.proof_board.specs.Words.{told_to, seen_by, base_in, size_seen};

use crate::board::BoardErr;
use crate::history::Front;
use crate::pass::ProverPass;
use crate::rule::{Grows, Sees};
use crate::shown::Shown;
use crate::view::View;
use ledger_bytes::Bytes;
use left_right::reader::{Reader, Reading};
use merkle_tree::Head;
use std::alloc::Global;
use std::sync::Wait;
use std::thread;

// Looks at the board until it has as many batches as these: at once, where they are ones that it had.
fn enter<R: Wait>(
    rt: &R,
    reader: Reader<Shown, View, Grows>,
    told: &Front,
) -> Reading<Shown, View, Grows>
    requires aware { (view reader.place).aware ≡ true }
    requires same { told.now.book ≡ (view reader.place).at.book }
    ensures whole { result.part.value.leaves ≡ all_leaves result.part.value.at.log }
    ensures wide { All IsWide result.part.value.leaves }
    ensures known { Knows (view reader.place) result.part.value }
    ensures told { IsPrefix told.now.log result.part.value.at.log }
    ensures view { view result.place ≡ aware_of result.part.value.base result.part.value.at }
{
    let mut reader = reader;
    for _ in rt.forever() {
        match reader.enter_as::<Sees>() {
            Ok(reading) => {
                if told.begins(reading.get().at()) {
                    return reading;
                }
                reader = reading.leave();
            }
            Err(back) => reader = back,
        }
        thread::yield_now();
    }
    unreachable!()
}

impl ProverPass {
    /// The size of the tree that was seen last.
    pub fn seen(&self) -> u64
        ensures size { result ≡ size_seen self.now }
        ensures above { (base_in self.now).floor < result }
    {
        self.size
    }

    // The first leaf of which proofs are made.
    pub(crate) fn floor(&self) -> u64
        ensures { result ≡ (base_in self.now).floor }
    {
        self.floor
    }

    // Looks at the board, and answers what is asked for leaf `n` there.
    pub(crate) fn answering<R: Wait>(
        self,
        rt: &R,
        alloc: Global,
        n: u64,
    ) -> (ProverPass, Result<(Head, Bytes), BoardErr>)
        ensures same { (base_in result.0 ≡ base_in self) × ((seen_by result.0).book ≡ (seen_by self).book)
            × (told_to result.0 ≡ told_to self) }
        ensures seen { IsPrefix (seen_by self).log (seen_by result.0).log }
        ensures told { IsPrefix (told_to self).log (seen_by result.0).log }
        ensures answer { Answers (base_in self) (seen_by result.0).log n result.1 }
    {
        let ProverPass {
            reader,
            floor,
            size: _,
            seen: _,
            told,
        } = self;
        let reading = enter(rt, reader, &told);
        let shown = reading.get();
        let answer = shown.answer(alloc, n);
        let size = shown.size();
        let seen = shown.at().again();
        let reader = reading.leave();
        let pass = ProverPass {
            reader,
            floor,
            size,
            seen,
            told,
        };
        (pass, answer)
    }
}
