//! How the committer takes a job, from its judgement to the end of its block and the replies that are due.

ghost use Rattle.std.specs.Prelude.{◌≡◌, ◌↔◌, ◌+◌, ◌^◌, ◌≤◌, ◌<◌, [], false, length, drop, All, None, Bool, true, List, ℕ, IfOk, IfErr, OnOk, OnErr};
ghost use Rattle.journal_record.specs.Approval.{who_of};
ghost use Rattle.journal_record.specs.Entry.{Entry};
ghost use Rattle.journal_record.specs.Header.{HasWidths, spelling};
ghost use Rattle.journal_record.specs.declared.approval.Approval.{Approval as AnyApproval};
ghost use Rattle.ledger_bytes.specs.declared.limits.TheConstants.{APPROVAL_LIMIT, CONTENT_LIMIT, PROOF_LIMIT};
ghost use Rattle.block_file.specs.FileView.{gate_of};
ghost use Rattle.ledger_io.specs.Outside.{SinkState};
ghost use Rattle.ledger_model.specs.Fitting.{fits_job};
ghost use Rattle.ledger_model.specs.Getting.{get_reply};
ghost use Rattle.ledger_model.specs.History.{History, id, close};
ghost use Rattle.ledger_model.specs.Rules.{closes_after, closes_before, judged_at, settled_history};
ghost use Rattle.ledger_model.specs.declared.job.Job.TheVariants as jobs;
ghost use Rattle.ledger_book.specs.Books.{Serves};
ghost use Rattle.ledger_book.specs.Steps.{OpenGathers, HasOperatorRoom};
ghost use Rattle.ledger_open.specs.Heads.{edition_in};
ghost use Rattle.twin_file.specs.Which.{in_a_of, file_of, copy_of};
ghost use Rattle.batch_committer.specs.Read.{WereRead, NoneFailed, ReadingEnds};
ghost use Rattle.batch_committer.specs.Attending.{step_in, FailsAtMostOnce, TakesJob, EndsTaking, TakesIn, EndsIn, JudgedBy, EndsAsking};
ghost use Rattle.batch_committer.specs.Steps.{HasParts, IsGathered, KeepsFile, KeepsRest, HasGrown, StaysGathered, StaysInOrder};
ghost use Rattle.batch_committer.specs.World.{Pair, pair, world, world_of, first_kept, Fits, HasRoom, Keeps, Holds, Goes, EndsOnTheWay};

use crate::CommitErr;
use crate::commit::commit;
use crate::dues::spell;
use crate::getting::get;
use crate::giving::give_up;
use crate::open_block::{GROUP_BLOCKS, GROUP_BYTES, LAST_GATE, end_open};
use crate::proving::{extension_of, proof_of};
use crate::queries::{clue_reply, head_reply};
use block_file::BlockWriter;
use journal_record::{Approval, HEADER_LEN};
use ledger_book::{Job, Outcome, Prepared, Query};
use ledger_bytes::{BLOCK_LIMIT, Digest, NoMemory, Refusal};
use ledger_disk::Disk;
use ledger_io::{Sink, write_all};
use ledger_model::{Answer, Due};
use ledger_open::Opened;
use ledger_open::purging::{let_go, prepare_purge};
use script_lines::Reply;
use std::alloc::Global;
use std::marker::Model;
use std::slice;
use time_peg::{Notary, NotaryErr};

/// What takes jobs while no call has ended its run.
#[derive(Drop)]
pub(crate) struct Taking {
    alloc: Global,
    /// The ledger with the journals that wait, and where they will stand.
    opened: Opened,
    /// The blocks that ended and are gathered for the disk, and behind them the open block.
    block: BlockWriter,
    /// How many blocks are gathered.
    ended: u32,
    /// Where the open block's gate will stand.
    next: u64,
    /// All that is due and isn't written.
    dues: Vec<Due>,
    /// How many of the first of these are spelled. The others wait for the open block's end.
    spelled: usize,
    /// The lines that are spelled, in a buffer that is used again.
    text: Vec<u8>,
    ghost bounded: { next ≤ 2 ^ 62 },
}

impl Model for Taking {
    ghost use Rattle.block_file.specs.FileView.{gate_of};
    ghost use Rattle.ledger_open.specs.Heads.{edition_in};
    ghost use Rattle.twin_file.specs.Which.{in_a_of, file_of, copy_of};
    ghost use Rattle.batch_committer.specs.World.{CommitterState};

    ghost Value = { CommitterState };

    ghost view = { λ t. record {
      book = t.opened.book;
      gate = gate_of (file_of t.opened.twin);
      in_a = in_a_of t.opened.twin;
      edition = edition_in t.opened.twin;
      copy = copy_of t.opened.twin;
      ended = t.ended;
      before = t.block.before;
      next = t.next;
      body = t.block.body;
      places = t.opened.places.list;
      dues = t.dues.items;
      spelled = t.spelled;
      lines = t.text.items;
    } };
}

impl Taking {
    pub(crate) fn new(alloc: Global, opened: Opened) -> Self
        ensures { result ≡ first_kept opened.book opened.places.list
            (gate_of (file_of opened.twin)) (in_a_of opened.twin)
            (edition_in opened.twin) (copy_of opened.twin) }
    {
        let mut block = BlockWriter::new(alloc);
        block.begin_group();
        let mut opened = opened;
        let next = opened.twin.file().tail();
        Taking {
            alloc,
            opened,
            block,
            ended: 0,
            next,
            dues: Vec::new(alloc),
            spelled: 0,
            text: Vec::new(alloc),
        }
    }

    /// The ledger, with the blocks that are gathered and the journals that wait.
    pub(crate) fn opened(&self) -> &Opened
        ensures book { result.now.book ≡ self.now.book }
        ensures places { result.now.places.list ≡ self.now.places }
        ensures gate { gate_of (file_of result.now.twin) ≡ self.now.gate }
        ensures in_a { in_a_of result.now.twin ≡ self.now.in_a }
        ensures edition { edition_in result.now.twin ≡ self.now.edition }
        ensures copy { copy_of result.now.twin ≡ self.now.copy }
    {
        &self.opened
    }

    /// Whether no block is gathered for the disk.
    pub(crate) fn is_stored(&self) -> bool
        ensures { (result ≡ true) ↔ (self.now.ended ≡ 0) }
    {
        self.ended == 0
    }

    // How many journals wait in the open block.
    fn unsealed(&self) -> u64
        ensures count { (h : History) → Serves self.now.book h → result ≡ length h.waiting }
        ensures number { self.now.book.sealed + result ≡ self.now.book.size }
    {
        self.opened.book.unsealed()
    }

    /// The ledger's id.
    pub(crate) fn id(&self) -> Digest
        ensures { (h : History) → Keeps self.now h → result.0 ≡ id h }
    {
        self.opened.book.id()
    }

    /// Takes a job, which came from a line: ends the open block where the job asks for that, judges the job and gathers
    /// what it places, and ends the block that it fills, or that is to hold it alone.
    pub(crate) fn take<D: Disk, K: Sink, N: Notary>(
        &mut self,
        a: &mut D,
        b: &mut D,
        sink: &mut K,
        notary: &mut N,
        item: &Prepared,
    ) -> Result<(), CommitErr>
        requires fits { Fits D.tells (world_of D.state K.state self.old a.old b.old sink.old) }
        requires room { HasRoom self.old }
        ensures ok { OnOk result ((failed : Bool) × ((line : List ℕ) → TakesJob D.tells
            (world_of D.state K.state self.old a.old b.old sink.old)
            (world_of D.state K.state self.new a.new b.new sink.new)
            (N.state notary.old) (N.state notary.new)
            (step_in (N.state notary.old) (N.state notary.new) failed item.now.lane item.now.index line)
            item.now.job)) }
        ensures fits { OnOk result (Fits D.tells (world_of D.state K.state self.new a.new b.new sink.new)) }
        ensures room { OnOk result (HasRoom self.new) }
        ensures err { IfErr result (λ end. EndsTaking D.tells
            (world_of D.state K.state self.old a.old b.old sink.old)
            (world_of D.state K.state self.new a.new b.new sink.new)
            (N.state notary.old) (N.state notary.new) item.now.lane item.now.index item.now.job end) }
        ensures once { FailsAtMostOnce (N.state notary.old) (N.state notary.new) }
    {
        self.end_before(a, b, sink, &item.job)?;
        self.take_in(a, b, notary, item)?;
        self.end_after(a, b, sink, &item.job)
    }

    /// Ends the open block, commits all blocks that ended, and writes all that is due. What the last journal hides or purges
    /// is given up before that. All memory is taken before the first call of a disk, and what a purge took is let go of
    /// behind the receipt.
    pub(crate) fn flush<D: Disk, K: Sink>(
        &mut self,
        a: &mut D,
        b: &mut D,
        sink: &mut K,
    ) -> Result<(), CommitErr>
        requires fits { Fits D.tells (world_of D.state K.state self.old a.old b.old sink.old) }
        ensures ok { OnOk result (Goes D.tells
            (world_of D.state K.state self.old a.old b.old sink.old)
            close (λ h. [])
            (world_of D.state K.state self.new a.new b.new sink.new)) }
        ensures fits { OnOk result (Fits D.tells (world_of D.state K.state self.new a.new b.new sink.new)) }
        ensures empty { OnOk result ((self.new.book.size ≡ self.new.book.sealed)
            × (self.new.dues ≡ []) × (self.new.ended ≡ 0)) }
        ensures err { IfErr result (λ end. EndsOnTheWay D.tells
            (world_of D.state K.state self.old a.old b.old sink.old)
            close (λ h. []) end
            (world_of D.state K.state self.new a.new b.new sink.new)) }
    {
        let waiting = self.unsealed();
        if waiting == 0 {
            return self.settle(a, b, sink);
        }
        let (_, due) = self.dues.as_slice().split_at(self.spelled);
        end_open(
            self.alloc,
            &mut self.opened.book,
            &mut self.block,
            &mut self.text,
            due,
        )?;
        self.block.begin_next()?;
        let purge = prepare_purge(self.alloc, &self.opened.book, &self.opened.places)?;
        // All memory is taken: from here on only a disk or the sink fails, so no block that stands is left without its
        // receipts for want of memory. They come behind both syncs, and behind what their journal gives up.
        commit(&mut self.opened.twin, a, b, self.block.ended())?;
        let gone = give_up(&mut self.opened, a, b, purge)?;
        let written = write_all(sink, self.text.as_slice());
        // Receipts don't wait until memory is given back. The files have let go of it already, so the book does also where
        // the receipts couldn't be written.
        let_go(&mut self.opened, gone);
        written?;
        self.begin_group();
        Ok(())
    }

    // Begins the first block of a group behind the tail gate, where nothing is due.
    fn begin_group(&mut self)
        ensures { self.new ≡ first_kept self.old.book self.old.places self.old.gate
            self.old.in_a self.old.edition self.old.copy }
    {
        self.block.begin_group();
        self.ended = 0;
        self.next = self.opened.twin.file().tail();
        self.dues.clear();
        self.spelled = 0;
        self.text.clear();
    }

    /// Commits the blocks that ended, and writes what is due for them; where no journal waits, all that is due. No block
    /// ends, and all memory is taken before the first call of a disk.
    pub(crate) fn settle<D: Disk, K: Sink>(
        &mut self,
        a: &mut D,
        b: &mut D,
        sink: &mut K,
    ) -> Result<(), CommitErr>
        requires fits { Fits D.tells (world_of D.state K.state self.old a.old b.old sink.old) }
        ensures ok { OnOk result (Goes D.tells
            (world_of D.state K.state self.old a.old b.old sink.old)
            (λ h. h) (λ h. [])
            (world_of D.state K.state self.new a.new b.new sink.new)) }
        ensures fits { OnOk result (Fits D.tells (world_of D.state K.state self.new a.new b.new sink.new)) }
        ensures same { OnOk result ((self.new.book ≡ self.old.book) × (self.new.ended ≡ 0)) }
        ensures room { OnOk result (HasRoom self.old → HasRoom self.new) }
        ensures empty { OnOk result (self.old.book.size ≡ self.old.book.sealed
            → self.new.dues ≡ []) }
        ensures err { IfErr result (λ end. EndsOnTheWay D.tells
            (world_of D.state K.state self.old a.old b.old sink.old)
            (λ h. h) (λ h. []) end
            (world_of D.state K.state self.new a.new b.new sink.new)) }
    {
        self.spell_rest()?;
        self.commit_ended(a, b)?;
        self.write_lines(sink)
    }

    // Where no journal waits, nothing that is due waits for a block's end: the rest of it is spelled.
    fn spell_rest(&mut self) -> Result<(), NoMemory>
        requires few { self.old.spelled ≤ length self.old.dues }
        ensures ok { OnOk result ((tells : Bool) (disks : Pair) (sink : SinkState) → Goes tells
            (world self.old disks sink) (λ h. h) (λ h. []) (world self.new disks sink)) }
        ensures fits { OnOk result ((tells : Bool) (disks : Pair) (sink : SinkState)
            → Fits tells (world self.old disks sink) → Fits tells (world self.new disks sink)) }
        ensures same { OnOk result (self.new ≡ record self.old {
          spelled = self.new.spelled;
          lines = self.new.lines;
        }) }
        ensures all { OnOk result (self.old.book.size ≡ self.old.book.sealed
            → self.new.spelled ≡ length self.old.dues) }
    {
        let waiting = self.unsealed();
        if waiting > 0 {
            return Ok(());
        }
        let first = self.opened.book.sealed_size();
        let (_, due) = self.dues.as_slice().split_at(self.spelled);
        spell(self.alloc, &mut self.text, &self.opened.book, first, due)?;
        self.spelled = self.dues.len();
        Ok(())
    }

    // Commits the blocks that ended. None of them hides or purges anything.
    fn commit_ended<D: Disk>(&mut self, a: &mut D, b: &mut D) -> Result<(), CommitErr>
        requires fits { (sink : SinkState) → Fits D.tells (world self.old
            (pair (D.state a.old) (D.state b.old)) sink) }
        ensures ok { OnOk result ((sink : SinkState) → Goes D.tells
            (world self.old (pair (D.state a.old) (D.state b.old)) sink) (λ h. h) (λ h. [])
            (world self.new (pair (D.state a.new) (D.state b.new)) sink)) }
        ensures fits { OnOk result ((sink : SinkState) → Fits D.tells (world self.new
            (pair (D.state a.new) (D.state b.new)) sink)) }
        ensures same { OnOk result (self.new ≡ record self.old {
          gate = self.new.gate;
          ended = 0;
          before = self.new.before;
        }) }
        ensures err { IfErr result (λ end. (sink : SinkState) → EndsOnTheWay D.tells
            (world self.old (pair (D.state a.old) (D.state b.old)) sink) (λ h. h) (λ h. []) end
            (world self.new (pair (D.state a.new) (D.state b.new)) sink)) }
    {
        if self.is_stored() {
            return Ok(());
        }
        commit(&mut self.opened.twin, a, b, self.block.ended())?;
        self.block.drop_ended();
        self.ended = 0;
        Ok(())
    }

    // Writes the lines that are spelled, where no block is gathered.
    fn write_lines<K: Sink>(&mut self, sink: &mut K) -> Result<(), CommitErr>
        requires few { self.old.spelled ≤ length self.old.dues }
        requires none { self.old.ended ≡ 0 }
        ensures ok { OnOk result ((tells : Bool) (disks : Pair) → Goes tells
            (world self.old disks (K.state sink.old)) (λ h. h) (λ h. [])
            (world self.new disks (K.state sink.new))) }
        ensures same { OnOk result (self.new ≡ record self.old {
          dues = drop self.old.spelled self.old.dues;
          spelled = 0;
          lines = [];
        }) }
        ensures err { IfErr result (λ end. (tells : Bool) (disks : Pair) → EndsOnTheWay tells
            (world self.old disks (K.state sink.old)) (λ h. h) (λ h. []) end
            (world self.new disks (K.state sink.new))) }
    {
        write_all(sink, self.text.as_slice())?;
        let left = self.dues.len() - self.spelled;
        self.dues.rotate_left(self.spelled);
        self.dues.truncate(left);
        self.spelled = 0;
        self.text.clear();
        Ok(())
    }

    // Ends the open block before a job that asks for that, and commits all that ended.
    fn end_before<D: Disk, K: Sink>(
        &mut self,
        a: &mut D,
        b: &mut D,
        sink: &mut K,
        job: &Job,
    ) -> Result<(), CommitErr>
        requires fits { Fits D.tells (world_of D.state K.state self.old a.old b.old sink.old) }
        requires room { HasRoom self.old }
        ensures ok { OnOk result (Goes D.tells
            (world_of D.state K.state self.old a.old b.old sink.old)
            (λ h. judged_at h job.now) (λ h. [])
            (world_of D.state K.state self.new a.new b.new sink.new)) }
        ensures fits { OnOk result (Fits D.tells (world_of D.state K.state self.new a.new b.new sink.new)) }
        ensures room { OnOk result (HasRoom self.new) }
        ensures settled { OnOk result (closes_before job.now ≡ true
            → (self.new.book.size ≡ self.new.book.sealed) × (self.new.ended ≡ 0)) }
        ensures err { IfErr result (λ end. EndsOnTheWay D.tells
            (world_of D.state K.state self.old a.old b.old sink.old)
            (λ h. judged_at h job.now) (λ h. []) end
            (world_of D.state K.state self.new a.new b.new sink.new)) }
    {
        if job.closes_before() {
            self.flush(a, b, sink)
        } else {
            Ok(())
        }
    }

    // Ends the open block behind a job whose journal is a block of its own, and where it is full: that is gathered for the disk,
    // unless it fills its group. Writes all that is due where no journal waits and no block is gathered.
    fn end_after<D: Disk, K: Sink>(
        &mut self,
        a: &mut D,
        b: &mut D,
        sink: &mut K,
        job: &Job,
    ) -> Result<(), CommitErr>
        requires fits { Fits D.tells (world_of D.state K.state self.old a.old b.old sink.old) }
        requires gathers { closes_after job.now ≡ false → OpenGathers self.old.book }
        ensures ok { OnOk result (Goes D.tells
            (world_of D.state K.state self.old a.old b.old sink.old)
            (settled_history job.now) (λ h. [])
            (world_of D.state K.state self.new a.new b.new sink.new)) }
        ensures fits { OnOk result (Fits D.tells (world_of D.state K.state self.new a.new b.new sink.new)) }
        ensures room { OnOk result (HasRoom self.new) }
        ensures err { IfErr result (λ end. EndsOnTheWay D.tells
            (world_of D.state K.state self.old a.old b.old sink.old)
            (settled_history job.now) (λ h. []) end
            (world_of D.state K.state self.new a.new b.new sink.new)) }
    {
        if job.closes_after() {
            return self.flush(a, b, sink);
        }
        let waiting = self.unsealed();
        if waiting == 0 && self.is_stored() {
            self.settle(a, b, sink)
        } else if waiting < BLOCK_LIMIT {
            Ok(())
        } else if self.fills_group() {
            self.flush(a, b, sink)
        } else {
            Ok(self.end_block()?)
        }
    }

    // Whether no block more is gathered behind the open one: the group has as many blocks then as it may have, or as many bytes.
    fn fills_group(&self) -> bool
        requires { self.now.ended < GROUP_BLOCKS }
        ensures room { result ≡ false → self.now.ended + 1 < GROUP_BLOCKS }
        ensures place { result ≡ false → self.now.next + 45 + length self.now.body ≤ 2 ^ 62 }
    {
        let before = self.block.ended().len();
        let block = self.block.as_slice().len();
        self.ended + 1 >= GROUP_BLOCKS
            || before.saturating_add(block) >= GROUP_BYTES
            || block as u64 + 45 > LAST_GATE - self.next
    }

    // Ends the open block, and gathers it for the disk. What waited for its end is spelled.
    fn end_block(&mut self) -> Result<(), NoMemory>
        requires few { self.old.book.size ≤ self.old.book.sealed + BLOCK_LIMIT }
        requires some { self.old.book.sealed < self.old.book.size }
        requires room { self.old.ended + 1 < GROUP_BLOCKS }
        requires spelled { self.old.spelled < length self.old.dues }
        requires place { self.old.next + 45 + length self.old.body ≤ 2 ^ 62 }
        requires gathers { OpenGathers self.old.book }
        ensures ok { OnOk result ((tells : Bool) (disks : Pair) (sink : SinkState) → Goes tells
            (world self.old disks sink) close (λ h. []) (world self.new disks sink)) }
        ensures fits { OnOk result ((tells : Bool) (disks : Pair) (sink : SinkState)
            → Fits tells (world self.old disks sink) → Fits tells (world self.new disks sink)) }
        ensures empty { OnOk result (self.new.book.size ≡ self.new.book.sealed) }
    {
        let (_, due) = self.dues.as_slice().split_at(self.spelled);
        end_open(
            self.alloc,
            &mut self.opened.book,
            &mut self.block,
            &mut self.text,
            due,
        )?;
        self.next += self.block.as_slice().len() as u64 + 1;
        self.block.begin_next()?;
        self.ended += 1;
        self.spelled = self.dues.len();
        Ok(())
    }

    // Judges a job and gathers what it places, and keeps what is due for it with the rest.
    fn take_in<D: Disk, N: Notary>(
        &mut self,
        a: &mut D,
        b: &mut D,
        notary: &mut N,
        item: &Prepared,
    ) -> Result<(), CommitErr>
        requires room { HasRoom self.old }
        requires settled { closes_before item.now.job ≡ true
            → (self.old.book.size ≡ self.old.book.sealed) × (self.old.ended ≡ 0) }
        ensures ok { OnOk result ((failed : Bool) × ((line : List ℕ) (sink : SinkState)
            → TakesIn D.tells
            (world self.old (pair (D.state a.old) (D.state b.old)) sink)
            (world self.new (pair (D.state a.new) (D.state b.new)) sink)
            (N.state notary.old) (N.state notary.new)
            (step_in (N.state notary.old) (N.state notary.new) failed item.now.lane item.now.index line)
            item.now.job)) }
        ensures err { IfErr result (λ end. (sink : SinkState) → EndsIn D.tells
            (world self.old (pair (D.state a.old) (D.state b.old)) sink)
            (world self.new (pair (D.state a.new) (D.state b.new)) sink)
            (N.state notary.old) (N.state notary.new) item.now.lane item.now.index item.now.job end) }
        ensures read { WereRead D.tells
            (pair (D.state a.old) (D.state b.old)) (pair (D.state a.new) (D.state b.new)) }
        ensures grown { OnOk result (HasGrown self.old self.new) }
        ensures gathers { OnOk result (StaysGathered self.old self.new item.now.job) }
        ensures order { OnOk result (StaysInOrder self.old self.new) }
        ensures file { KeepsFile self.old self.new }
        ensures due { OnOk result ((self.new.spelled ≡ self.old.spelled)
            × (length self.new.dues ≡ length self.old.dues + 1)) }
        ensures once { FailsAtMostOnce (N.state notary.old) (N.state notary.new) }
    {
        let answer = self.judge(a, b, notary, &item.job)?;
        let due = Due {
            lane: item.lane,
            index: item.index,
            answer,
        };
        let Ok(()) = self.dues.push(due) else {
            return Err(CommitErr::NoMemory);
        };
        Ok(())
    }

    // Judges a job, gathers what it places, and answers what is due for it. Where the job was taken before that is the receipt
    // of the journal which it placed then.
    fn judge<D: Disk, N: Notary>(
        &mut self,
        a: &mut D,
        b: &mut D,
        notary: &mut N,
        job: &Job,
    ) -> Result<Answer, CommitErr>
        requires fits { fits_job job.now ≡ true }
        requires room { HasRoom self.old }
        requires settled { closes_before job.now ≡ true
            → (self.old.book.size ≡ self.old.book.sealed) × (self.old.ended ≡ 0) }
        ensures judged { IfOk result (λ answer. (failed : Bool) × ((h : History) (lane index : ℕ)
            (line : List ℕ) (sink : SinkState)
            → Holds D.tells (world self.old (pair (D.state a.old) (D.state b.old)) sink) h
            → JudgedBy self.new (N.state notary.old) (N.state notary.new) h
            (step_in (N.state notary.old) (N.state notary.new) failed lane index line) job.now
            answer)) }
        ensures unasked { OnErr result (EndsAsking self.old (N.state notary.old)
            (N.state notary.new) job.now) }
        ensures once { FailsAtMostOnce (N.state notary.old) (N.state notary.new) }
        ensures grown { OnOk result (HasGrown self.old self.new) }
        ensures gathers { OnOk result (StaysGathered self.old self.new job.now) }
        ensures order { OnOk result (StaysInOrder self.old self.new) }
        ensures rest { KeepsRest self.old self.new }
        ensures read { WereRead D.tells
            (pair (D.state a.old) (D.state b.old)) (pair (D.state a.new) (D.state b.new)) }
        ensures no_fault { OnOk result (NoneFailed
            (pair (D.state a.old) (D.state b.old)) (pair (D.state a.new) (D.state b.new))) }
        ensures err { IfErr result (λ end. ReadingEnds end
            (pair (D.state a.old) (D.state b.old)) (pair (D.state a.new) (D.state b.new))) }
    {
        match self.opened.book.apply(job)? {
            Outcome::Refused(refusal) => Ok(Answer::Reply(Reply::Refused(refusal))),
            Outcome::Placed(placed) => {
                self.gather_placed(job, &placed.header)?;
                Ok(Answer::Receipt {
                    jsn: placed.jsn,
                    leaf: placed.leaf,
                    stamp: None,
                })
            }
            Outcome::Again { jsn, leaf } => Ok(Answer::Receipt {
                jsn,
                leaf,
                stamp: None,
            }),
            Outcome::StampWanted => self.anchor(notary),
            Outcome::Reading(query) => match query {
                Query::Head => Ok(Answer::Reply(head_reply(&self.opened.book, notary))),
                Query::Get { n } => Ok(Answer::Reply(self.get(a, b, n)?)),
                Query::Prove { n } => {
                    let reply = proof_of(self.alloc, &self.opened.book, notary, n)?;
                    Ok(Answer::Reply(reply))
                }
                Query::Extend { which, m } => {
                    let reply = extension_of(self.alloc, &self.opened.book, notary, which, m)?;
                    Ok(Answer::Reply(reply))
                }
                Query::Clue { clue } => {
                    let reply = clue_reply(&self.opened.book, &clue)?;
                    Ok(Answer::Reply(reply))
                }
            },
        }
    }

    // An anchor that the ledger accepts: the notary stamps it, and its journal is gathered. A notary that gives no stamp
    // refuses it.
    fn anchor<N: Notary>(&mut self, notary: &mut N) -> Result<Answer, CommitErr>
        requires room { HasOperatorRoom self.old.book }
        requires settled { (h : History) → Serves self.old.book h → h.waiting ≡ [] }
        ensures judged { IfOk result (λ answer. (failed : Bool) × ((h : History) (lane index : ℕ)
            (line : List ℕ) → Keeps self.old h
            → JudgedBy self.new (N.state notary.old) (N.state notary.new) h
            (step_in (N.state notary.old) (N.state notary.new) failed lane index line) jobs.Anchor
            answer)) }
        ensures unasked { OnErr result (EndsAsking self.old (N.state notary.old)
            (N.state notary.new) jobs.Anchor) }
        ensures once { FailsAtMostOnce (N.state notary.old) (N.state notary.new) }
        ensures grown { OnOk result (HasGrown self.old self.new) }
        ensures order { OnOk result (StaysInOrder self.old self.new) }
        ensures rest { KeepsRest self.old self.new }
        ensures only { IfErr result (λ end. end ≡ CommitErr.NoMemory) }
    {
        let peg = self.opened.book.peg();
        let stamp = match notary.stamp(self.alloc, &peg) {
            Ok(stamp) => stamp,
            Err(NotaryErr::Full) => return Ok(Answer::Reply(Reply::Refused(Refusal::NotaryFull))),
            Err(NotaryErr::Failed) => {
                return Ok(Answer::Reply(Reply::Refused(Refusal::NotaryFault)));
            }
            Err(NotaryErr::NoMemory) => return Err(CommitErr::NoMemory),
        };
        let placed = self.opened.book.place_time(&stamp)?;
        self.gather(&placed.header, &[], &[])?;
        Ok(Answer::Receipt {
            jsn: placed.jsn,
            leaf: placed.leaf,
            stamp: Some(stamp),
        })
    }

    // What is told of journal `n`, where no journal waits and no block is gathered. It is read from the open file.
    fn get<D: Disk>(&self, a: &mut D, b: &mut D, n: u64) -> Result<Reply, CommitErr>
        ensures told { IfOk result (λ reply. (h : History) (sink : SinkState) → Holds D.tells
            (world self.now (pair (D.state a.old) (D.state b.old)) sink) h
            → h.waiting ≡ [] → self.now.ended ≡ 0 → reply ≡ get_reply h n) }
        ensures read { WereRead D.tells
            (pair (D.state a.old) (D.state b.old)) (pair (D.state a.new) (D.state b.new)) }
        ensures no_fault { OnOk result (NoneFailed
            (pair (D.state a.old) (D.state b.old)) (pair (D.state a.new) (D.state b.new))) }
        ensures err { IfErr result (λ end. ReadingEnds end
            (pair (D.state a.old) (D.state b.old)) (pair (D.state a.new) (D.state b.new))) }
    {
        if self.opened.twin.in_a() {
            get(self.alloc, &self.opened.book, &self.opened.places, a, n)
        } else {
            get(self.alloc, &self.opened.book, &self.opened.places, b, n)
        }
    }

    // Gathers the journal with this header, which the book has placed for a job.
    fn gather_placed(&mut self, job: &Job, header: &[u8; HEADER_LEN]) -> Result<(), NoMemory>
        requires fits { fits_job job.now ≡ true }
        ensures gathered { OnOk result ((journal : Entry) (content : List ℕ) (given : List AnyApproval)
            → HasParts job.now content given → header.now ≡ spelling journal.header
            → HasWidths journal.header → length content ≡ journal.header.content_len
            → journal.content ≡ content → journal.who ≡ who_of given
            → IsGathered self.old self.new journal) }
        ensures order { OnOk result (StaysInOrder self.old self.new) }
        ensures before { OnOk result (self.new.before ≡ self.old.before) }
        ensures book { self.new.book ≡ self.old.book }
        ensures rest { KeepsRest self.old self.new }
    {
        match job {
            Job::Append { content, by, .. } => {
                self.gather(header, content.as_slice(), slice::from_ref(by))
            }
            Job::NewMember { by, .. } => self.gather(header, &[], slice::from_ref(by)),
            Job::Occult { given, .. } | Job::OccultClue { given, .. } | Job::Purge { given, .. } =>
                { self.gather(header, &[], given.as_slice()) }
            Job::Anchor => self.gather(header, &[], &[]),
            Job::Refused(_) | Job::Ask(_) => Ok(()),
        }
    }

    // Gathers a journal that the book has placed, and which these approved: keeps its place, and its bytes behind those of
    // the open block.
    fn gather(
        &mut self,
        header: &[u8; HEADER_LEN],
        content: &[u8],
        given: &[Approval],
    ) -> Result<(), NoMemory>
        requires content { length content.now ≤ CONTENT_LIMIT }
        requires few { length given.now ≤ APPROVAL_LIMIT }
        requires proofs { All (λ a. length a.proof ≤ PROOF_LIMIT) given.now }
        ensures gathered { OnOk result ((journal : Entry) → header.now ≡ spelling journal.header
            → HasWidths journal.header → length content.now ≡ journal.header.content_len
            → journal.content ≡ content.now → journal.who ≡ who_of given.now
            → IsGathered self.old self.new journal) }
        ensures order { OnOk result (StaysInOrder self.old self.new) }
        ensures before { OnOk result (self.new.before ≡ self.old.before) }
        ensures book { self.new.book ≡ self.old.book }
        ensures rest { KeepsRest self.old self.new }
    {
        self.opened.places.reserve(1)?;
        let place = self.block.put(self.next, header, content, given)?;
        self.opened.places.push(place);
        Ok(())
    }
}
