//! The committer, which takes jobs one after the other, puts blocks on the disks and writes replies.

ghost use Rattle.std.specs.Prelude.{◌≡◌, ◌↔◌, [], Bool, List, ℕ, true, false, is_err, OnOk, IfErr, Err};
ghost use Rattle.block_file.specs.FileView.{gate_of};
ghost use Rattle.ledger_model.specs.History.{History, id, close};
ghost use Rattle.ledger_open.specs.Heads.{edition_in};
ghost use Rattle.twin_file.specs.Which.{in_a_of, file_of, copy_of};
ghost use Rattle.batch_committer.specs.Attending.{step_in, FailsAtMostOnce, TakesJob, EndsTaking};
ghost use Rattle.batch_committer.specs.World.{world_of, first_kept, Fits, HasRoom, Keeps, Goes, EndsOnTheWay};

use crate::CommitErr;
use crate::taking::Taking;
use ledger_book::Prepared;
use ledger_bytes::Digest;
use ledger_disk::Disk;
use ledger_io::Sink;
use ledger_open::Opened;
use std::alloc::Global;
use std::marker::Model;
use time_peg::Notary;

/// Takes jobs, one after the other: gathers their journals into blocks, commits these on the two disks of the ledger, and
/// writes replies in the order of the jobs, a receipt once its block is on the disk for good. A block ends where it has
/// 64 journals, before a job that asks for that, behind one whose journal is a block of its own, and by a flush. Full blocks
/// are gathered, up to 64 of them or about 1,048,576 bytes, and committed together: before such a job, behind it, or by a call.
/// Each call is handed the same two disks, the same sink and the same notary. Once a call has ended the run nothing more is
/// taken, and the disks aren't used again.
#[derive(Drop)]
pub struct Committer {
    inner: Taking,
    ended: bool,
}

impl Model for Committer {
    ghost use Rattle.batch_committer.specs.World.{Held};

    ghost Value = { Held };

    ghost view = { λ c. record { kept = c.inner; ended = c.ended } };
}

impl Committer {
    /// A committer of a ledger that was made or opened. It takes no memory.
    pub fn new(alloc: Global, opened: Opened) -> Self
        ensures kept { result.kept ≡ first_kept opened.book opened.places.list
            (gate_of (file_of opened.twin)) (in_a_of opened.twin)
            (edition_in opened.twin) (copy_of opened.twin) }
        ensures ended { result.ended ≡ false }
    {
        Committer {
            inner: Taking::new(alloc, opened),
            ended: false,
        }
    }

    /// The ledger: its book and the places of its journals, also of those that wait for their block's end or are gathered for
    /// the disk, and its files, which don't have these yet.
    pub fn opened(&self) -> &Opened
        ensures book { result.now.book ≡ self.now.kept.book }
        ensures places { result.now.places.list ≡ self.now.kept.places }
        ensures gate { gate_of (file_of result.now.twin) ≡ self.now.kept.gate }
        ensures in_a { in_a_of result.now.twin ≡ self.now.kept.in_a }
        ensures edition { edition_in result.now.twin ≡ self.now.kept.edition }
        ensures copy { copy_of result.now.twin ≡ self.now.kept.copy }
    {
        self.inner.opened()
    }

    /// Whether no block is gathered for the disk, so that the files have all blocks that ended.
    pub fn is_stored(&self) -> bool
        ensures { (result ≡ true) ↔ (self.now.kept.ended ≡ 0) }
    {
        self.inner.is_stored()
    }

    /// The ledger's id.
    pub fn id(&self) -> Digest
        ensures { (h : History) → Keeps self.now.kept h → result.0 ≡ id h }
    {
        self.inner.id()
    }

    /// Takes a job, which came from a line: ends the open block before it where the job asks for that, judges the job,
    /// gathers its journal, and ends the block that it fills, or that is to hold it alone. What is due for the job is written
    /// with the block's end. An anchor's journal is placed where the notary stamps it; where the notary fails, or its list
    /// is full, the anchor is refused, and the run goes on. So it does where the notary fails in a proof.
    pub fn offer<D: Disk, K: Sink, N: Notary>(
        &mut self,
        a: &mut D,
        b: &mut D,
        sink: &mut K,
        notary: &mut N,
        item: Prepared,
    ) -> Result<(), CommitErr>
        requires fits { self.old.ended ≡ false
            → Fits D.tells (world_of D.state K.state self.old.kept a.old b.old sink.old) }
        requires room { self.old.ended ≡ false → HasRoom self.old.kept }
        // The line plays no part once its job is there.
        ensures ok { OnOk result ((failed : Bool) × ((line : List ℕ) → TakesJob D.tells
            (world_of D.state K.state self.old.kept a.old b.old sink.old)
            (world_of D.state K.state self.new.kept a.new b.new sink.new)
            (N.state notary.old) (N.state notary.new)
            (step_in (N.state notary.old) (N.state notary.new) failed item.lane item.index line)
            item.job)) }
        ensures fits { OnOk result (Fits D.tells (world_of D.state K.state self.new.kept a.new b.new sink.new)) }
        ensures room { OnOk result (HasRoom self.new.kept) }
        ensures err { IfErr result (λ end. self.old.ended ≡ false → EndsTaking D.tells
            (world_of D.state K.state self.old.kept a.old b.old sink.old)
            (world_of D.state K.state self.new.kept a.new b.new sink.new)
            (N.state notary.old) (N.state notary.new) item.lane item.index item.job end) }
        // Whatever the disks tell.
        ensures once { FailsAtMostOnce (N.state notary.old) (N.state notary.new) }
        ensures closed { (result ≡ Err CommitErr.Closed) ↔ (self.old.ended ≡ true) }
        ensures ended { self.new.ended ≡ is_err result }
        ensures same { self.old.ended ≡ true → self.new ≡ self.old }
        ensures unused { self.old.ended ≡ true → (a.new ≡ a.old) × (b.new ≡ b.old)
            × (sink.new ≡ sink.old) × (notary.new ≡ notary.old) }
    {
        if self.ended {
            return Err(CommitErr::Closed);
        }
        let result = self.inner.take(a, b, sink, notary, &item);
        self.ended = result.is_err();
        result
    }

    /// Ends the open block, commits all blocks that ended, and writes all that is due.
    pub fn flush<D: Disk, K: Sink>(
        &mut self,
        a: &mut D,
        b: &mut D,
        sink: &mut K,
    ) -> Result<(), CommitErr>
        requires { self.old.ended ≡ false → Fits D.tells (world_of D.state K.state self.old.kept a.old b.old sink.old) }
        ensures ok { OnOk result (Goes D.tells
            (world_of D.state K.state self.old.kept a.old b.old sink.old)
            close (λ h. [])
            (world_of D.state K.state self.new.kept a.new b.new sink.new)) }
        ensures fits { OnOk result (Fits D.tells (world_of D.state K.state self.new.kept a.new b.new sink.new)) }
        ensures room { OnOk result (HasRoom self.new.kept) }
        ensures dues { OnOk result (self.new.kept.dues ≡ []) }
        ensures none { OnOk result (self.new.kept.ended ≡ 0) }
        ensures err { IfErr result (λ end. self.old.ended ≡ false → EndsOnTheWay D.tells
            (world_of D.state K.state self.old.kept a.old b.old sink.old)
            close (λ h. []) end
            (world_of D.state K.state self.new.kept a.new b.new sink.new)) }
        ensures closed { (result ≡ Err CommitErr.Closed) ↔ (self.old.ended ≡ true) }
        ensures ended { self.new.ended ≡ is_err result }
        ensures same { self.old.ended ≡ true → self.new ≡ self.old }
        ensures unused { self.old.ended ≡ true → (a.new ≡ a.old) × (b.new ≡ b.old)
            × (sink.new ≡ sink.old) }
    {
        if self.ended {
            Err(CommitErr::Closed)
        } else {
            let result = self.inner.flush(a, b, sink);
            self.ended = result.is_err();
            result
        }
    }

    /// Commits the blocks that ended, and writes what is due for them. No block ends: what waits for the open block's end waits
    /// on.
    pub fn settle<D: Disk, K: Sink>(
        &mut self,
        a: &mut D,
        b: &mut D,
        sink: &mut K,
    ) -> Result<(), CommitErr>
        requires { self.old.ended ≡ false → Fits D.tells (world_of D.state K.state self.old.kept a.old b.old sink.old) }
        ensures ok { OnOk result (Goes D.tells
            (world_of D.state K.state self.old.kept a.old b.old sink.old)
            (λ h. h) (λ h. [])
            (world_of D.state K.state self.new.kept a.new b.new sink.new)) }
        ensures fits { OnOk result (Fits D.tells (world_of D.state K.state self.new.kept a.new b.new sink.new)) }
        ensures room { OnOk result (HasRoom self.old.kept → HasRoom self.new.kept) }
        ensures none { OnOk result (self.new.kept.ended ≡ 0) }
        ensures err { IfErr result (λ end. self.old.ended ≡ false → EndsOnTheWay D.tells
            (world_of D.state K.state self.old.kept a.old b.old sink.old)
            (λ h. h) (λ h. []) end
            (world_of D.state K.state self.new.kept a.new b.new sink.new)) }
        ensures closed { (result ≡ Err CommitErr.Closed) ↔ (self.old.ended ≡ true) }
        ensures ended { self.new.ended ≡ is_err result }
        ensures same { self.old.ended ≡ true → self.new ≡ self.old }
        ensures unused { self.old.ended ≡ true → (a.new ≡ a.old) × (b.new ≡ b.old)
            × (sink.new ≡ sink.old) }
    {
        if self.ended {
            return Err(CommitErr::Closed);
        }
        let result = self.inner.settle(a, b, sink);
        self.ended = result.is_err();
        result
    }
}
