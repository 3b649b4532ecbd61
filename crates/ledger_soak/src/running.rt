//! A whole soak, from its new ledger to the line that sums it up.

ghost use Rattle.std.specs.Prelude.{◌≡◌, ◌+◌, ◌^◌, ◌<◌, ℕ, IfOk, OnOk, IfSome, slice_get, true, false, None, Some};
ghost use Rattle.batch_committer.specs.World.{Holds, Keeps};
ghost use Rattle.ledger_book.specs.Books.{Serves};
ghost use Rattle.ledger_model.specs.Pegs.{Pegged};
ghost use Rattle.ledger_model.specs.Proofs.{shown_of, prove_refusal};
ghost use Rattle.ledger_model.specs.Texts.{proof_reply};
ghost use Rattle.script_lines.specs.Replies.{reply_text};
ghost use Rattle.ledger_soak.specs.Auditing.{Follows};
ghost use Rattle.ledger_soak.specs.Posts.{notary_state};
ghost use Rattle.journal_record.specs.Tags.{tag_key_of};
ghost use Rattle.ledger_model.specs.Genesis.{new_ledger};
ghost use Rattle.ledger_model.specs.History.{History, id, size};
ghost use Rattle.ledger_model.specs.Rules.{job_of};
ghost use Rattle.ledger_model.specs.Step.{Step};
ghost use Rattle.ledger_model.specs.declared.job.Job.TheVariants as jobs;
ghost use Rattle.ledger_model.specs.declared.outcome.Query.TheVariants as queries;
ghost use Rattle.ledger_soak.specs.Lines as lines;
ghost use Rattle.ledger_soak.specs.Runs.{IsPlaced, IsReady, IsUnderway, IsAnswered, IsInHand, ComesTo};
ghost use Rattle.ledger_soak.specs.Soaks.{TellsSoak, IsSoaked, IsFaultless, silent_notary};
ghost use Rattle.ledger_soak.specs.Soaking.{Soaked};
ghost use Rattle.ledger_soak.specs.Tasks.{task_drawn, state_behind};
ghost use Rattle.ledger_soak.specs.Turns.{Turn, soak_genesis};

use crate::approvals::{MEMBERS, OPERATOR, REGULATOR, key_of};
use crate::auditor::Auditor;
use crate::draws::Draws;
use crate::lines::{job_line, member_line};
use crate::post::{Halt, Post};
use crate::receipts::{Receipt, count_lost};
use crate::summary::Summary;
use crate::task::draw_task;
use ledger_book::{Job, Prepared, Query};
use ledger_bytes::{Bytes, NoMemory};
use ledger_disk::Pick;
use ledger_io::{Sink, write_all};
use ledger_model::Genesis;
use notary_ledger::MemNotary;
use std::alloc::Global;
use std::thread::Threads;
use time_peg::Notary;

/// How a soak ended.
#[derive(Clone, Copy, Debug, PartialEq, Eq)]
pub enum SoakEnd {
    /// Its summary was written.
    Done,
    /// The sink failed, or took nothing of a piece that wasn't empty.
    WriteFault,
    /// Memory was short, or a disk in memory failed by itself.
    NoMemory,
}

/// Runs so many random jobs on a new ledger in memory, and writes one line that sums up what came of them. The numbers are
/// those of a generator that begins with the seed. Where `stop` isn't 0 the ledger runs on two disks that stop after so
/// many calls of `write`, `cut` and `sync` each. It is then opened again from what the stop left, and every receipt so far
/// is looked up. The auditor who checks the proofs trusts the heads that extensions lead to.
pub fn soak<R: Threads, K: Sink>(
    rt: &R,
    alloc: Global,
    seed: u64,
    count: u64,
    stop: u64,
    sink: &mut K,
) -> SoakEnd
    ensures { Soaked seed count stop result (K.state sink.old) (K.state sink.new) }
{
    let Ok(text) = soaked(rt, alloc, seed, count, stop) else {
        return SoakEnd::NoMemory;
    };
    match write_all(sink, text.as_slice()) {
        Ok(()) => SoakEnd::Done,
        Err(_) => SoakEnd::WriteFault,
    }
}

// The line of a soak.
fn soaked<R: Threads>(
    rt: &R,
    alloc: Global,
    seed: u64,
    count: u64,
    stop: u64,
) -> Result<Vec<u8>, NoMemory>
    ensures { IfOk result (λ text. TellsSoak seed count stop text.items) }
{
    let mut run = Run::begun(alloc, seed, stop)?;
    for done in 0..count {
        run = run.turn(rt)?;
    }
    run.summary(seed, count).text(alloc)
}

// What makes a soak's ledger.
fn founders(alloc: Global) -> Result<Genesis, NoMemory>
    ensures { IfOk result (λ genesis. genesis ≡ soak_genesis) }
{
    Ok(Genesis {
        name: Bytes::copy_of(alloc, b"soak")?,
        operator: key_of(OPERATOR),
        regulator: key_of(REGULATOR),
    })
}

// Whether the next job runs on fuses.
#[derive(Clone, Copy, Debug, PartialEq, Eq)]
enum Fuses {
    Off,
    // New ones are to be set in front of the disks before the job.
    Due,
    Set,
}

// What came of a job that was drawn.
#[derive(Drop)]
enum Asked {
    // Its reply is written, which for the proof of a journal is the line that the auditor accepts.
    Answered(Option<Bytes>),
    // A disk stopped meanwhile.
    InHand,
}

#[derive(Drop)]
struct Run {
    alloc: Global,
    draws: Draws,
    post: Post,
    notary: MemNotary,
    auditor: Auditor,
    // What was written so far.
    receipts: Vec<Receipt>,
    stop: u64,
    fuses: Fuses,
    // How many jobs were drawn, how many of them were in hand at a stop, and what is counted of the others.
    taken: u64,
    stops: u64,
    refused: u64,
    proofs: u64,
    yes: u64,
    lost: u64,
}

impl Run {
    // A soak before its first job: the members are placed, in one block.
    fn begun(alloc: Global, seed: u64, stop: u64) -> Result<Self, NoMemory>
        ensures underway { IfOk result (IsUnderway seed) }
        ensures taken { IfOk result (λ run. run.taken ≡ 0) }
        ensures stop { IfOk result (λ run. run.stop ≡ stop) }
    {
        let mut notary = MemNotary::new(alloc, Vec::new(alloc));
        let post = founded(alloc, &mut notary)?;
        Ok(Run {
            alloc,
            draws: Draws { state: seed },
            post,
            notary,
            auditor: Auditor::new(),
            receipts: Vec::new(alloc),
            stop,
            fuses: if stop == 0 { Fuses::Off } else { Fuses::Due },
            taken: 0,
            stops: 0,
            refused: 0,
            proofs: 0,
            yes: 0,
            lost: 0,
        })
    }

    // Draws a job and takes it. Where a stop leaves it in hand, the ledger is opened again.
    fn turn<R: Threads>(self, rt: &R) -> Result<Self, NoMemory>
        requires few { self.taken + 1 < 2 ^ 64 }
        requires underway { (seed : ℕ) × IsUnderway seed self }
        ensures underway { IfOk result (λ run. (seed : ℕ) → IsUnderway seed self → IsUnderway seed run) }
        ensures taken { IfOk result (λ run. run.taken ≡ self.taken + 1) }
        ensures stop { IfOk result (λ run. run.stop ≡ self.stop) }
    {
        let mut run = self.armed();
        let asked = run.ask()?;
        match asked {
            Asked::Answered(line) => run.answered(line),
            Asked::InHand => run.stopped(rt),
        }
    }

    // Draws a job and takes it. A notary in memory doesn't fail; that it did would be told as want of memory.
    fn ask(&mut self) -> Result<Asked, NoMemory>
        requires few { self.old.taken + 1 < 2 ^ 64 }
        requires underway { (seed : ℕ) × IsUnderway seed self.old }
        ensures comes { IfOk result (λ asked. (seed : ℕ) → IsUnderway seed self.old → ComesTo seed self.new asked) }
        ensures taken { IfOk result (λ asked. self.new.taken ≡ self.old.taken + 1) }
        ensures stop { IfOk result (λ asked. self.new.stop ≡ self.old.stop) }
    {
        let item = next_job(self.alloc, &mut self.draws, &self.post)?;
        let line = accepted_line(
            self.alloc,
            &mut self.auditor,
            &self.post,
            &mut self.notary,
            &item,
        )?;
        let answer = self.post.take(&mut self.notary, item);
        if self.notary.faults() != 0 {
            return Err(NoMemory);
        }
        self.taken += 1;
        match answer {
            Ok(()) => Ok(Asked::Answered(line)),
            Err(halt) => match halt {
                Halt::Stopped => Ok(Asked::InHand),
                Halt::NoMemory => Err(NoMemory),
            },
        }
    }

    // Sets new fuses, where they are due.
    fn armed(mut self) -> Self
        ensures underway { (seed : ℕ) → IsUnderway seed self → IsUnderway seed result }
        ensures taken { result.taken ≡ self.taken }
        ensures stop { result.stop ≡ self.stop }
    {
        if self.fuses == Fuses::Due {
            self.post = self.post.with_fuses(self.stop);
            self.fuses = Fuses::Set;
        }
        self
    }

    // Counts the reply to a job that was answered.
    fn answered(mut self, accepted: Option<Bytes>) -> Result<Self, NoMemory>
        requires { self.taken < 2 ^ 64 }
        ensures underway { IfOk result (λ run. (seed : ℕ) (t : Turn)
            → IsAnswered seed self t accepted → IsUnderway seed run) }
        ensures taken { IfOk result (λ run. run.taken ≡ self.taken) }
        ensures stop { IfOk result (λ run. run.stop ≡ self.stop) }
    {
        if self.fuses == Fuses::Off && self.stop != 0 {
            self.fuses = Fuses::Due;
        }
        let letter = letter_of(self.post.reply());
        if letter == b'n' {
            self.refused = self.refused.saturating_add(1);
        } else if letter == b'p' {
            self.proofs = self.proofs.saturating_add(1);
            if is_line(&accepted, self.post.reply()) {
                self.yes = self.yes.saturating_add(1);
            }
        } else {
            self.receipts.push(Receipt::of_last(self.post.book()))?;
        }
        Ok(self)
    }

    // Opens the ledger again behind a stop: after odd ones from all that was written, after even ones from what was synced.
    fn stopped<R: Threads>(mut self, rt: &R) -> Result<Self, NoMemory>
        requires { self.taken < 2 ^ 64 }
        ensures underway { IfOk result (λ run. (seed : ℕ) (step : Step)
            → IsInHand seed self step → IsUnderway seed run) }
        ensures taken { IfOk result (λ run. run.taken ≡ self.taken) }
        ensures stop { IfOk result (λ run. run.stop ≡ self.stop) }
    {
        if self.fuses == Fuses::Off {
            return Err(NoMemory);
        }
        self.stops = self.stops.saturating_add(1);
        let pick = if self.stops % 2 == 1 {
            Pick::AllWritten
        } else {
            Pick::NoneWritten
        };
        self.post = self.post.opened_again(rt, pick)?;
        self.fuses = Fuses::Off;
        let lost = count_lost(self.receipts.as_slice(), self.post.book());
        self.lost = self.lost.saturating_add(lost);
        Ok(self)
    }

    // What it comes to.
    fn summary(&self, seed: u64, count: u64) -> Summary
        requires { self.now.taken < 2 ^ 64 }
        ensures soaked { IsUnderway seed self.now → self.now.taken ≡ count → IsSoaked result × IsFaultless result }
        ensures one { IsUnderway seed self.now → self.now.stop ≡ 0 → result.sessions ≡ 1 }
        ensures seed { result.seed ≡ seed }
        ensures count { result.count ≡ count }
        ensures stop { result.stop ≡ self.now.stop }
    {
        let book = self.post.book();
        let head = book.head();
        Summary {
            seed,
            count,
            stop: self.stop,
            sessions: self.stops.saturating_add(1),
            size: head.size,
            point: book.point(),
            refused: self.refused,
            proofs: self.proofs,
            yes: self.yes,
            lost: self.lost,
            root: head.root,
        }
    }
}

// The job that is drawn next.
fn next_job(alloc: Global, draws: &mut Draws, post: &Post) -> Result<Prepared, NoMemory>
    ensures line { IfOk result (λ item. (item.lane ≡ 0) × (item.index ≡ 1)) }
    ensures job { IfOk result (λ item. (h : History) → Keeps post.now.world.kept h → item.job
        ≡ job_of tag_key_of (id h) (lines.job_line (task_drawn draws.old.state (size h)) h)) }
    ensures state { IfOk result (λ item. draws.new.state ≡ state_behind draws.old.state) }
{
    let book = post.book();
    let task = draw_task(alloc, draws, book.size())?;
    let line = job_line(alloc, &task, book)?;
    post.prepare(&line)
}

// Where a proof is asked for, the line that the auditor accepts.
fn accepted_line(
    alloc: Global,
    auditor: &mut Auditor,
    post: &Post,
    notary: &mut MemNotary,
    item: &Prepared,
) -> Result<Option<Bytes>, NoMemory>
    requires settled { post.now.world.kept.book.sealed ≡ post.now.world.kept.book.size }
    ensures follows { IfOk result (λ line. (h : History) → Serves post.now.world.kept.book h
        → Follows h notary.old.entries auditor.old → Follows h notary.old.entries auditor.new) }
    ensures line { IfOk result (λ line. (h : History) (n : ℕ) → item.now.job ≡ jobs.Ask (queries.Prove n)
        → Serves post.now.world.kept.book h → Pegged h notary.old.entries
        → Follows h notary.old.entries auditor.old → notary.new.faults ≡ 0 → prove_refusal h n ≡ None
        → line ≡ Some (reply_text 0 1 (proof_reply (shown_of h notary.old.entries n)))) }
    ensures same { notary.new.entries ≡ notary.old.entries }
    ensures faults { notary.new.faults ≡ 0 → notary.old.faults ≡ 0 }
{
    match &item.job {
        Job::Ask(Query::Prove { n }) => auditor.accepted_line(alloc, post.book(), notary, *n),
        _ => Ok(None),
    }
}

// A new ledger with its members, which are placed in one window.
fn founded(alloc: Global, notary: &mut MemNotary) -> Result<Post, NoMemory>
    requires { notary_state notary.old ≡ silent_notary }
    ensures { IfOk result (λ post. IsReady post (notary_state notary.new)) }
{
    let mut post = Post::found(alloc, &founders(alloc)?)?;
    place_members(alloc, &mut post, notary)?;
    Ok(post)
}

// Places the members in one window.
fn place_members(alloc: Global, post: &mut Post, notary: &mut MemNotary) -> Result<(), NoMemory>
    requires open { post.old.ended ≡ false }
    requires silent { notary_state notary.old ≡ silent_notary }
    ensures { OnOk result (Holds true post.old.world (new_ledger soak_genesis)
        → IsReady post.new (notary_state notary.new)) }
{
    let [second, third, fourth] = MEMBERS;
    place(alloc, post, notary, second)?;
    place(alloc, post, notary, third)?;
    place(alloc, post, notary, fourth)?;
    match post.flush() {
        Ok(()) if notary.faults() == 0 => Ok(()),
        _ => Err(NoMemory),
    }
}

// Places a member.
fn place(alloc: Global, post: &mut Post, notary: &mut MemNotary, member: u8) -> Result<(), NoMemory>
    requires member { member < 5 }
    requires open { post.old.ended ≡ false }
    ensures placed { OnOk result ((h : History) → Holds true post.old.world h → IsPlaced post.old.world post.new.world
        (notary_state notary.old) (notary_state notary.new) member h) }
    ensures open { OnOk result (post.new.ended ≡ false) }
{
    let line = member_line(alloc, &post.book().id(), member)?;
    let item = post.prepare(&line)?;
    match post.offer(notary, item) {
        Ok(()) => Ok(()),
        Err(_) => Err(NoMemory),
    }
}

// Whether the reply is this line.
fn is_line(line: &Option<Bytes>, reply: &[u8]) -> bool
    ensures { line.now ≡ Some reply.now → result ≡ true }
{
    match line {
        Some(line) => line.as_slice() == reply,
        None => false,
    }
}

// The letter by which the kind of a reply is told: the one behind its lane and its number.
fn letter_of(reply: &[u8]) -> u8
    ensures { IfSome (slice_get reply.now 4) (λ letter. result ≡ letter) }
{
    match reply.get(4) {
        Some(letter) => *letter,
        None => 0,
    }
}
