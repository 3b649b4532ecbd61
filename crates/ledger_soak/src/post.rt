//! A ledger in memory with its committer.

ghost use Rattle.std.specs.Prelude.{◌≡◌, ℕ, Bool, true, false, List, [], IfOk, OnOk, IfErr, Some};
ghost use Rattle.batch_committer.specs.Attending.{step_in, TakesJob};
ghost use Rattle.batch_committer.specs.World.{Holds, Keeps, Goes};
ghost use Rattle.journal_record.specs.Tags.{tag_key_of};
ghost use Rattle.ledger_disk.specs.Disk.{MayLeave};
ghost use Rattle.ledger_disk.specs.Memory.{memory_state};
ghost use Rattle.ledger_model.specs.Genesis.{new_ledger};
ghost use Rattle.ledger_model.specs.History.{History, id, close};
ghost use Rattle.ledger_model.specs.Rules.{job_of};
ghost use Rattle.ledger_open.specs.Standing.{PairFor};
ghost use Rattle.ledger_soak.specs.Posts.{Posted, TakesWindow, StopsTaking, SameButFaults, OpensLeft, fused_disk, notary_state};
ghost use Rattle.ledger_soak.specs.declared.post.Halt.TheVariants as halts;

use batch_committer::{CommitErr, Committer};
use lane_work::prepare;
use ledger_book::{Book, Limits, Prepared};
use ledger_bytes::{Bytes, NoMemory};
use ledger_disk::{Disk, FuseDisk, MemDisk, Pick};
use ledger_io::MemSink;
use ledger_model::Genesis;
use ledger_open::{init, reopen};
use member_book::TagScheme;
use notary_ledger::MemNotary;
use std::alloc::Global;
use std::marker::Model;
use std::thread::Threads;

/// How many bytes each disk can hold.
const ROOM: usize = 67_108_864;

/// How many bytes the reply to one line may have.
const REPLY_ROOM: usize = 32_768;

/// More calls than a soak makes.
const NEVER: u64 = u64::MAX;

/// Why a job wasn't answered.
#[derive(Clone, Copy, Debug, PartialEq, Eq)]
pub(crate) enum Halt {
    /// A disk failed.
    Stopped,
    /// Memory was short, or the reply was longer than is kept of one.
    NoMemory,
}

impl From<NoMemory> for Halt {
    ghost use Rattle.std.specs.Prelude.{◌≡◌};
    ghost use Rattle.ledger_soak.specs.declared.post.Halt.TheVariants.{NoMemory as no_memory};

    ghost from_gives = { λ _ halt. halt ≡ no_memory };

    fn from(_: NoMemory) -> Self {
        Halt::NoMemory
    }
}

impl From<CommitErr> for Halt {
    ghost use Rattle.ledger_soak.specs.Posts.{halt_of};

    ghost from_gives = { λ end halt. halt ≡ halt_of end };

    fn from(end: CommitErr) -> Self {
        match end {
            CommitErr::DiskFault => Halt::Stopped,
            CommitErr::WriteFault | CommitErr::NoMemory | CommitErr::Closed => Halt::NoMemory,
        }
    }
}

/// A committer of a ledger on two disks in memory, each behind a fuse, with the reply to the last line.
#[derive(Drop)]
pub(crate) struct Post {
    alloc: Global,
    committer: Committer,
    a: FuseDisk<MemDisk>,
    b: FuseDisk<MemDisk>,
    sink: MemSink,
}

impl Model for Post {
    ghost use Rattle.std.specs.Prelude.{◌≡◌, true, false};
    ghost use Rattle.batch_committer.specs.World.{world, pair, Fits, HasRoom};
    ghost use Rattle.ledger_io.specs.Memory.{sink_state};
    ghost use Rattle.ledger_soak.specs.Posts.{Posted, fused_disk};

    ghost Value = { Posted };

    ghost view = { λ p. record {
      world = world p.committer.kept (pair (fused_disk p.a) (fused_disk p.b)) (sink_state p.sink);
      ended = p.committer.ended;
    } };

    ghost invariant = { λ p. p.committer.ended ≡ false
        → (Fits true (world p.committer.kept (pair (fused_disk p.a) (fused_disk p.b)) (sink_state p.sink))
        × HasRoom p.committer.kept) };
}

fn new_disk(alloc: Global) -> Result<FuseDisk<MemDisk>, NoMemory> {
    Ok(FuseDisk::new(MemDisk::new(alloc, ROOM, Vec::new(alloc))?, NEVER))
}

fn new_sink(alloc: Global) -> Result<MemSink, NoMemory>
    ensures { IfOk result (λ sink. sink.held ≡ []) }
{
    MemSink::new(alloc, REPLY_ROOM, Vec::new(alloc))
}

impl Post {
    /// The post of a new ledger.
    pub(crate) fn found(alloc: Global, genesis: &Genesis) -> Result<Self, NoMemory>
        ensures holds { IfOk result (λ post. Holds true post.world (new_ledger genesis.now)) }
        ensures dues { IfOk result (λ post. post.world.kept.dues ≡ []) }
        ensures open { IfOk result (λ post. post.ended ≡ false) }
    {
        let mut a = new_disk(alloc)?;
        let mut b = new_disk(alloc)?;
        let sink = new_sink(alloc)?;
        match init(alloc, &mut a, &mut b, genesis, Limits::real()) {
            Ok(opened) => Ok(Post {
                alloc,
                committer: Committer::new(alloc, opened),
                a,
                b,
                sink,
            }),
            Err(_) => Err(NoMemory),
        }
    }

    pub(crate) fn book(&self) -> &Book
        ensures { result.now ≡ self.now.world.kept.book }
    {
        &self.committer.opened().book
    }

    /// The reply to the last line.
    pub(crate) fn reply(&self) -> &[u8]
        ensures { self.now.world.sink.held ≡ Some result.now }
    {
        self.sink.written()
    }

    /// The job of a line, as line 1 of lane 0.
    pub(crate) fn prepare(&self, line: &Bytes) -> Result<Prepared, NoMemory>
        ensures lane { IfOk result (λ item. item.lane ≡ 0) }
        ensures index { IfOk result (λ item. item.index ≡ 1) }
        ensures job { IfOk result (λ item. (h : History) → Keeps self.now.world.kept h
            → item.job ≡ job_of tag_key_of (id h) line.now) }
    {
        let id = self.committer.id();
        let item = prepare(self.alloc, &TagScheme, &id, 1, line.as_slice())?;
        Ok(Prepared {
            lane: 0,
            index: 1,
            job: item.job,
        })
    }

    /// Takes a job that ends no window.
    pub(crate) fn offer(&mut self, notary: &mut MemNotary, item: Prepared) -> Result<(), Halt>
        requires { self.old.ended ≡ false }
        ensures ok { OnOk result ((failed : Bool) × ((line : List ℕ) → TakesJob true self.old.world self.new.world
            (notary_state notary.old) (notary_state notary.new)
            (step_in (notary_state notary.old) (notary_state notary.new) failed item.lane item.index line)
            item.job)) }
        ensures open { OnOk result (self.new.ended ≡ false) }
    {
        match self
            .committer
            .offer(&mut self.a, &mut self.b, &mut self.sink, notary, item)
        {
            Ok(()) => Ok(()),
            Err(end) => Err(Halt::from(end)),
        }
    }

    /// Ends a window.
    pub(crate) fn flush(&mut self) -> Result<(), Halt>
        requires { self.old.ended ≡ false }
        ensures ok { OnOk result (Goes true self.old.world close (λ h. []) self.new.world) }
        ensures dues { OnOk result (self.new.world.kept.dues ≡ []) }
        ensures open { OnOk result (self.new.ended ≡ false) }
    {
        match self
            .committer
            .flush(&mut self.a, &mut self.b, &mut self.sink)
        {
            Ok(()) => Ok(()),
            Err(end) => Err(Halt::from(end)),
        }
    }

    /// Takes a job as a window of its own.
    pub(crate) fn take(&mut self, notary: &mut MemNotary, item: Prepared) -> Result<(), Halt>
        requires open { self.old.ended ≡ false }
        requires line { (item.lane ≡ 0) × (item.index ≡ 1) }
        requires dues { self.old.world.kept.dues ≡ [] }
        ensures ok { OnOk result ((failed : Bool) × ((line : List ℕ) → TakesWindow self.old.world self.new.world
            (notary_state notary.old) (notary_state notary.new)
            (step_in (notary_state notary.old) (notary_state notary.new) failed 0 1 line) item.job)) }
        ensures open { OnOk result (self.new.ended ≡ false) }
        ensures err { IfErr result (λ halt. halt ≡ halts.Stopped → StopsTaking self.old.world self.new.world
            (notary_state notary.old) (notary_state notary.new) item.job) }
    {
        self.sink = new_sink(self.alloc)?;
        match self
            .committer
            .offer(&mut self.a, &mut self.b, &mut self.sink, notary, item)
        {
            Ok(()) => (),
            Err(end) => return Err(Halt::from(end)),
        }
        match self
            .committer
            .flush(&mut self.a, &mut self.b, &mut self.sink)
        {
            Ok(()) => Ok(()),
            Err(end) => Err(Halt::from(end)),
        }
    }

    /// Sets new fuses in front of both disks, which pass on so many calls each.
    pub(crate) fn with_fuses(self, calls: u64) -> Self
        ensures same { SameButFaults self.world result.world }
        ensures ended { result.ended ≡ self.ended }
    {
        Post {
            a: FuseDisk::new(self.a.into_inner(), calls),
            b: FuseDisk::new(self.b.into_inner(), calls),
            alloc: self.alloc,
            committer: self.committer,
            sink: self.sink,
        }
    }

    /// Opens what a stop left, without fuses. A fault of a disk itself, and not of its fuse, is want of memory.
    pub(crate) fn opened_again<R: Threads>(self, rt: &R, pick: Pick) -> Result<Self, NoMemory>
        ensures opens { IfOk result (λ post. OpensLeft self.world post.world) }
        ensures open { IfOk result (λ post. post.ended ≡ false) }
    {
        let alloc = self.alloc;
        let (a, b) = self.into_disks();
        let a = left_on(a, pick)?;
        let b = left_on(b, pick)?;
        opened_on(rt, alloc, a, b)
    }

    // Both disks, without their fuses.
    fn into_disks(self) -> (MemDisk, MemDisk)
        ensures a { memory_state result.0 ≡ self.world.disks.a.bytes }
        ensures b { memory_state result.1 ≡ self.world.disks.b.bytes }
    {
        (self.a.into_inner(), self.b.into_inner())
    }
}

// What a crash leaves on a disk that never failed by itself.
fn left_on(disk: MemDisk, pick: Pick) -> Result<FuseDisk<MemDisk>, NoMemory>
    ensures { IfOk result (λ left. MayLeave (memory_state disk) (fused_disk left).bytes.seen) }
{
    if disk.faults() != 0 {
        return Err(NoMemory);
    }
    Ok(FuseDisk::new(disk.crash(pick)?, NEVER))
}

// The post of the ledger on these disks.
fn opened_on<R: Threads>(
    rt: &R,
    alloc: Global,
    mut a: FuseDisk<MemDisk>,
    mut b: FuseDisk<MemDisk>,
) -> Result<Post, NoMemory>
    ensures holds { IfOk result (λ post. (h : History)
        → PairFor (fused_disk a).bytes.seen (fused_disk b).bytes.seen h → Holds true post.world h) }
    ensures dues { IfOk result (λ post. post.world.kept.dues ≡ []) }
    ensures open { IfOk result (λ post. post.ended ≡ false) }
{
    let sink = new_sink(alloc)?;
    match reopen(rt, alloc, &mut a, &mut b, Limits::real()) {
        Ok(opened) => Ok(Post {
            alloc,
            committer: Committer::new(alloc, opened),
            a,
            b,
            sink,
        }),
        Err(_) => Err(NoMemory),
    }
}
