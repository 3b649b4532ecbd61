//! What a board's writer does.
ghost use Rattle.std.specs.Prelude.{◌≡◌, [], ◌∷◌, ◌++◌, ◌+◌, length, map, IfOk, IfSome, OnOk, OnErr};
ghost use Rattle.proof_board.specs.History.{head_of, all_leaves, leaves_of};
ghost use Rattle.proof_board.specs.Answers.{IsShownHead};
ghost use Rattle.proof_board.specs.Words.{shown_by, history_of, waiting_of, told_to, seen_by, base_in};

use crate::history::{Counter, Front};
use crate::pass::ProverPass;
use crate::rule::{Grows, Sees};
use crate::shown::{Growing, Shown};
use crate::stretches::{are_all_wide, count_of};
use crate::view::View;
use crate::writer::BoardWriter;
use core::mem::replace_with;
use ledger_bytes::{Digest, NoMemory, Sha};
use left_right::writer::Writer;
use merkle_batch::Stretch;
use merkle_tree::Head;
use std::alloc::Global;
use std::sync::Wait;

// A writer for which memory was missing in the midst of a publish.
fn stuck(
    alloc: Global,
    writer: Writer<Shown, Growing, View, Grows>,
    counter: Counter,
    waiting: Vec<Stretch<Sha>>,
) -> BoardWriter
    requires counted { counter ≡ head_of writer.desk.shown.value.at.book }
    requires whole { writer.desk.shown.value.leaves ≡ all_leaves writer.desk.shown.value.at.log }
    ensures writer { result.writer ≡ writer }
    ensures waiting { result.waiting ≡ waiting }
{
    BoardWriter {
        alloc,
        writer,
        counter,
        waiting,
        stuck: true,
    }
}

impl BoardWriter {
    /// Adds leaves behind those that are there, for the next publish. Provers don't see them before. Where memory is missing,
    /// none is added.
    pub fn add(&mut self, leaves: &[Digest]) -> Result<(), NoMemory>
        ensures shown { shown_by self.new ≡ shown_by self.old }
        ensures ok { OnOk result (waiting_of self.new ≡ waiting_of self.old ++ map (λ d. d.0) leaves.now) }
        ensures err { OnErr result (waiting_of self.new ≡ waiting_of self.old) }
    {
        let Some(end) = self.next_place() else {
            return Err(NoMemory);
        };
        let stretch = Stretch::of(self.alloc, end, leaves)?;
        self.add_stretch(stretch)
    }

    /// Adds the leaves of a stretch behind those that are there, for the next publish, as `add` does. Where the stretch begins
    /// at the end of these, the publish hashes none of its nodes again.
    pub fn add_stretch(&mut self, stretch: Stretch<Sha>) -> Result<(), NoMemory>
        ensures shown { shown_by self.new ≡ shown_by self.old }
        ensures ok { OnOk result (waiting_of self.new ≡ waiting_of self.old ++ stretch.leaves) }
        ensures err { OnErr result (waiting_of self.new ≡ waiting_of self.old) }
    {
        self.waiting.push(stretch)?;
        Ok(())
    }

    // The place of the next leaf, behind those that wait here. There is no answer where it has more than 64 binary digits.
    fn next_place(&self) -> Option<u64>
        ensures { IfSome result (λ n. n ≡ (shown_by self.now).base.floor
            + length (shown_by self.now).leaves + length (leaves_of self.now.waiting.items)) }
    {
        let size = self.writer.published().size();
        size.checked_add(count_of(&self.waiting)?)
    }

    /// Shows provers what was added, as one batch, and answers the head of the whole. It waits for provers that still read the
    /// copy from before the last publish. Where memory is missing in its midst, what is shown and what waits are as before, and
    /// each later publish answers `NoMemory`.
    pub fn publish<R: Wait>(&mut self, rt: &R) -> Result<Head, NoMemory>
        ensures ok { OnOk result ((history_of self.new ≡ history_of self.old ++ waiting_of self.old ∷ [])
            × (waiting_of self.new ≡ [])) }
        ensures err { OnErr result ((history_of self.new ≡ history_of self.old)
            × (waiting_of self.new ≡ waiting_of self.old)) }
        ensures same { ((shown_by self.new).base ≡ (shown_by self.old).base)
            × ((shown_by self.new).at.book ≡ (shown_by self.old).at.book) }
        ensures head { IfOk result (IsShownHead (shown_by self.new)) }
    {
        replace_with(self, rt, |writer, rt| writer.publishing(rt))
    }

    // Shows what was added, and answers the head.
    fn publishing<R: Wait>(self, rt: &R) -> (BoardWriter, Result<Head, NoMemory>)
        ensures ok { OnOk result.1 ((history_of result.0 ≡ history_of self ++ waiting_of self ∷ [])
            × (waiting_of result.0 ≡ [])) }
        ensures err { OnErr result.1 ((history_of result.0 ≡ history_of self)
            × (waiting_of result.0 ≡ waiting_of self)) }
        ensures same { ((shown_by result.0).base ≡ (shown_by self).base)
            × ((shown_by result.0).at.book ≡ (shown_by self).at.book) }
        ensures head { IfOk result.1 (IsShownHead (shown_by result.0)) }
    {
        if self.stuck {
            return (self, Err(NoMemory));
        }
        let BoardWriter {
            alloc,
            mut writer,
            counter,
            waiting,
            stuck: _,
        } = self;
        are_all_wide(waiting.as_slice());
        let mut at = writer.published().at().again();
        if at.count() >= 1 << 62 || !at.add(&counter, &waiting) {
            return (stuck(alloc, writer, counter, waiting), Err(NoMemory));
        }
        let growing = Growing {
            stretches: waiting,
            at,
        };
        if let Err(growing) = writer.append(growing) {
            return (
                stuck(alloc, writer, counter, growing.stretches),
                Err(NoMemory),
            );
        }
        let (writer, done) = writer.publish_as::<Sees, R>(rt);
        let waiting = Vec::new(alloc);
        match done {
            Ok(()) => {
                let head = writer.published().head();
                let writer = BoardWriter {
                    alloc,
                    writer,
                    counter,
                    waiting,
                    stuck: false,
                };
                (writer, Ok(head))
            }
            Err(_) => (stuck(alloc, writer, counter, waiting), Err(NoMemory)),
        }
    }

    /// Tells a prover what was published. From now on it sees no less. Nothing waits here.
    pub fn tell(&mut self, pass: &mut ProverPass)
        requires board { (seen_by pass.old).book ≡ (shown_by self.old).at.book }
        ensures writer { self.new ≡ self.old }
        ensures told { told_to pass.new ≡ (shown_by self.old).at }
        ensures kept { (seen_by pass.new ≡ seen_by pass.old) × (base_in pass.new ≡ base_in pass.old) }
    {
        pass.told = self.front();
    }

    // What was published.
    pub(crate) fn front(&self) -> Front
        ensures { result ≡ (shown_by self.now).at }
    {
        self.writer.published().at().again()
    }

    // Ends it.
    pub(crate) fn end<R: Wait>(self, rt: &R) {
        let BoardWriter {
            alloc: _,
            writer,
            counter: _,
            waiting: _,
            stuck: _,
        } = self;
        drop(writer.take(rt));
    }
}
