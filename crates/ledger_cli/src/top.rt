//! The top call of `ledgerctl`, which runs a command on the disks, the streams and the notary that it is handed.

ghost use Rattle.std.specs.Prelude.{◌≡◌, ◌↔◌, None, map, string_bytes};
ghost use Rattle.batch_committer.specs.World.{Pair, pair, OneFailed};
ghost use Rattle.ledger_bytes.specs.Causes.{count_after};
ghost use Rattle.ledger_io.specs.Outside.{SourceState, MeetsOne};
ghost use Rattle.time_peg.specs.Entries.{NotaryState};
ghost use Rattle.ledger_cli.specs.Program.{Finishes, RanProgram, ServedBy};
ghost use Rattle.ledger_cli.specs.Runs.{handed, Anything, Exports, Makes, NothingFailed, RunsAgain, RunsNew, Signs, Soaks};
ghost use Rattle.ledger_cli.specs.Chaining.{HasRange, chain_line};
ghost use Rattle.ledger_cli.specs.Signing.{signed_text};
ghost use Rattle.ledger_cli.specs.Words.{command_of};

use crate::Command;
use crate::beside::run_board;
use crate::chaining::ChainText;
use crate::ending::{LedgerEnding, ending_of_export, put_line};
use crate::reviving::revive_set;
use crate::session::run_session;
use crate::signing::Signing;
use crate::surviving::{carry_set, keep_journals};
use crate::tracing::trace;
use batch_committer::Committer;
use dump_export::write_dump;
use lane_work::{Gate, Tools};
use ledger_bytes::NoMemory;
use ledger_disk::Disk;
use ledger_io::{Ending, Sink, Source, finish, write_all, write_last};
use ledger_model::{Genesis, Limits};
use ledger_open::{init, reopen};
use ledger_soak::{SoakEnd, soak};
use member_book::Verifier;
use script_lines::Word;
use std::alloc::Global;
use std::sync::Wait;
use std::thread::Threads;
use time_peg::Notary;

/// The program: runs the command that the words after the program's name make. `init` makes a ledger of the two disks.
/// `run` opens the ledger that is there, and runs the script that `source` gives on it; its replies are written to `sink`,
/// a receipt once its block is on the disk for good. `dry` does both with a new ledger. `export` opens the ledger that is there, reads nothing else,
/// and writes its dump, beside the notary's list. `lineage` opens it too, and writes the lineage of a clue's records, and `keep` a set of
/// some journals. `carry` and `revive` open it and read the input, which is a set of survivors: the one writes it again for a later point,
/// the other its survivors' views and proofs. `board` does what `run` does, with provers beside it, and writes
/// their lines behind the replies. `sign`, `chainkey` and `chainsign` read nothing, use no disk and write one text. `soak` reads nothing and uses no disk that is handed in. Whose key a proof shows is what the verifier says. Anchors are stamped by `notary`; where that fails
/// the line is refused and the run goes on. It answers the exit status:
///
/// | Status | Comes | Last line |
/// |---|---|---|
/// | 0 | the input was read to its end and every line has its reply, and behind these `board` has its lines, or the text was written | none |
/// | 1 | exactly where the words are of no form | `fail 1 usage` |
/// | 2 | only where the source failed | `fail 2 read` |
/// | 3 | only where the sink failed, or took nothing of a piece that wasn't empty | none |
/// | 4 | only where a disk failed | `fail 4 disk` |
/// | 5 | the open file is damaged; `export`: a journal that it shows isn't what its header says | `fail 5` and the damage |
/// | 6 | want of memory | `fail 6 memory` |
/// | 7 | a line, the script or a set is too long | `fail 7 line`, `fail 7 script` |
/// | 8 | `init` and `dry` where there is a ledger, each other form that opens one where there is none | `fail 8 exists`, `fail 8 empty` |
/// | 9 | the version of an open file isn't 1 | `fail 9 format` and the version |
/// | 11 | `export`: only where the notary failed | `fail 11 notary` |
/// | 12 | `lineage`: exactly where the opened ledger keeps no such record; `keep`, `carry`, `revive`: where what was asked is refused, or the notary failed | `no`, a code and its fields |
///
/// Of several, the first that happens is the status: a run that is done met no fault, and one that ends with a fault met
/// that one. Lines that ended before a fault of reading are answered first. The last line is written by one attempt; a
/// fault there doesn't change the status.
pub fn ledger_top<
    R: Threads + Wait + Sync,
    S: Source,
    K: Sink,
    D: Disk,
    N: Notary,
    V: Verifier,
    G: Gate,
>(
    tools: &Tools<R, V, G>,
    words: &[String],
    source: &mut S,
    sink: &mut K,
    a: &mut D,
    b: &mut D,
    notary: &mut N,
) -> u8
    ensures ran { RanProgram (V.shows tools.now.verifier.now) D.tells
        (command_of (map string_bytes words.now)) result
        (handed (S.state source.old) (K.state sink.old) (pair (D.state a.old) (D.state b.old)) (N.state notary.old))
        (handed (S.state source.new) (K.state sink.new) (pair (D.state a.new) (D.state b.new)) (N.state notary.new)) }
    ensures usage { (result ≡ 1) ↔ (command_of (map string_bytes words.now) ≡ None) }
    ensures done { result ≡ 0 → NothingFailed
        (handed (S.state source.old) (K.state sink.old) (pair (D.state a.old) (D.state b.old)) (N.state notary.old))
        (handed (S.state source.new) (K.state sink.new) (pair (D.state a.new) (D.state b.new)) (N.state notary.new)) }
    ensures read_fault { result ≡ 2
        → (S.state source.new).faults ≡ count_after (S.state source.old).faults }
    ensures write_fault { result ≡ 3 → MeetsOne (K.state sink.old) (K.state sink.new) }
    ensures disk_fault { result ≡ 4 → OneFailed
        (pair (D.state a.old) (D.state b.old)) (pair (D.state a.new) (D.state b.new)) }
{
    let met = run_words(tools, words, source, sink, a, b, notary);
    finish_run(tools.alloc, sink, met)
}

// The last line is written by one attempt. For one that is made of words memory is taken.
pub(crate) fn finish_run<K: Sink>(alloc: Global, sink: &mut K, met: LedgerEnding) -> u8
    ensures { Finishes met result (K.state sink.old) (K.state sink.new) }
{
    if let Some(line) = met.fixed_line() {
        write_last(sink, line);
        return met.status();
    }
    let mut line = Vec::new(alloc);
    match met.put_line(&mut line, alloc) {
        Ok(()) => {
            write_last(sink, line.as_slice());
            met.status()
        }
        Err(NoMemory) => finish(sink, Ending::NoMemory),
    }
}

// All but the last line.
fn run_words<
    R: Threads + Wait + Sync,
    S: Source,
    K: Sink,
    D: Disk,
    N: Notary,
    V: Verifier,
    G: Gate,
>(
    tools: &Tools<R, V, G>,
    words: &[String],
    source: &mut S,
    sink: &mut K,
    a: &mut D,
    b: &mut D,
    notary: &mut N,
) -> LedgerEnding
    ensures { ServedBy (V.shows tools.now.verifier.now) D.tells
        (command_of (map string_bytes words.now)) result
        (handed (S.state source.old) (K.state sink.old) (pair (D.state a.old) (D.state b.old)) (N.state notary.old))
        (handed (S.state source.new) (K.state sink.new) (pair (D.state a.new) (D.state b.new)) (N.state notary.new)) }
{
    match Command::read(tools.alloc, words) {
        Ok(Some(Command::Dry(genesis))) => { run_new(tools, &genesis, source, sink, a, b, notary) }
        Ok(Some(Command::Init(genesis))) => make(tools.alloc, &genesis, sink, a, b),
        Ok(Some(Command::Run)) => run_again(tools, source, sink, a, b, notary),
        Ok(Some(Command::Export)) => export(tools.rt, tools.alloc, sink, a, b, notary),
        Ok(Some(Command::Lineage { clue, from })) => {
            trace(tools.rt, tools.alloc, &clue, from, sink, a, b)
        }
        Ok(Some(Command::Board { provers, count })) => {
            run_board(tools, provers, count, source, sink, a, b, notary)
        }
        Ok(Some(Command::Keep { point, numbers })) => {
            keep_journals(tools.rt, tools.alloc, point, numbers.as_slice(), sink, a, b)
        }
        Ok(Some(Command::Carry { point })) => {
            carry_set(tools.rt, tools.alloc, point, source, sink, a, b)
        }
        Ok(Some(Command::Revive)) => {
            revive_set(tools.rt, tools.alloc, source, sink, a, b, notary)
        }
        Ok(Some(Command::Sign(signing))) => sign(&signing, sink),
        Ok(Some(Command::Chain(text))) => write_chain(tools.alloc, &text, sink),
        Ok(Some(Command::Soak { seed, count, stop })) => run_soak(
            tools.rt,
            tools.alloc,
            seed,
            count,
            stop,
            sink,
        ),
        Ok(None) => LedgerEnding::Run(Ending::Usage),
        Err(NoMemory) => LedgerEnding::Run(Ending::NoMemory),
    }
}

// Opens the ledger of two disks, and runs a script on it.
fn run_again<
    R: Threads + Wait + Sync,
    S: Source,
    K: Sink,
    D: Disk,
    N: Notary,
    V: Verifier,
    G: Gate,
>(
    tools: &Tools<R, V, G>,
    source: &mut S,
    sink: &mut K,
    a: &mut D,
    b: &mut D,
    notary: &mut N,
) -> LedgerEnding
    ensures { RunsAgain (V.shows tools.now.verifier.now) D.tells Anything result
        (handed (S.state source.old) (K.state sink.old) (pair (D.state a.old) (D.state b.old)) (N.state notary.old))
        (handed (S.state source.new) (K.state sink.new) (pair (D.state a.new) (D.state b.new)) (N.state notary.new)) }
{
    match reopen(tools.rt, tools.alloc, a, b, Limits::real()) {
        Ok(opened) => {
            let mut committer = Committer::new(tools.alloc, opened);
            run_session(tools, &mut committer, a, b, source, sink, notary)
        }
        Err(e) => LedgerEnding::from(e),
    }
}

// Opens the ledger of two disks, and writes its dump, beside the notary's list.
fn export<R: Threads, K: Sink, D: Disk, N: Notary>(
    rt: &R,
    alloc: Global,
    sink: &mut K,
    a: &mut D,
    b: &mut D,
    notary: &mut N,
) -> LedgerEnding
    ensures { (source : SourceState) → Exports D.tells result
        (handed source (K.state sink.old) (pair (D.state a.old) (D.state b.old)) (N.state notary.old))
        (handed source (K.state sink.new) (pair (D.state a.new) (D.state b.new)) (N.state notary.new)) }
{
    match reopen(rt, alloc, a, b, Limits::real()) {
        Ok(opened) => ending_of_export(write_dump(alloc, &opened, a, b, notary, sink)),
        Err(error) => LedgerEnding::from(error),
    }
}

// Makes a ledger of two disks, and runs a script on it.
fn run_new<R: Threads + Wait + Sync, S: Source, K: Sink, D: Disk, N: Notary, V: Verifier, G: Gate>(
    tools: &Tools<R, V, G>,
    genesis: &Genesis,
    source: &mut S,
    sink: &mut K,
    a: &mut D,
    b: &mut D,
    notary: &mut N,
) -> LedgerEnding
    ensures { RunsNew (V.shows tools.now.verifier.now) genesis.now D.tells result
        (handed (S.state source.old) (K.state sink.old) (pair (D.state a.old) (D.state b.old)) (N.state notary.old))
        (handed (S.state source.new) (K.state sink.new) (pair (D.state a.new) (D.state b.new)) (N.state notary.new)) }
{
    match init(tools.alloc, a, b, genesis, Limits::real()) {
        Ok(opened) => {
            let mut committer = Committer::new(tools.alloc, opened);
            run_session(tools, &mut committer, a, b, source, sink, notary)
        }
        Err(refusal) => LedgerEnding::from(refusal),
    }
}

// Makes a ledger of two disks, and writes a line that tells it.
fn make<K: Sink, D: Disk>(
    alloc: Global,
    genesis: &Genesis,
    sink: &mut K,
    a: &mut D,
    b: &mut D,
) -> LedgerEnding
    ensures { (source : SourceState) (notary : NotaryState) → Makes genesis.now D.tells result
        (handed source (K.state sink.old) (pair (D.state a.old) (D.state b.old)) notary)
        (handed source (K.state sink.new) (pair (D.state a.new) (D.state b.new)) notary) }
{
    let id = match init(alloc, a, b, genesis, Limits::real()) {
        Ok(opened) => opened.book.id(),
        Err(e) => return LedgerEnding::from(e),
    };
    let mut line = Vec::new(alloc);
    let words = [Word::Hash(id), Word::Number(1), Word::Hash(id)];
    let Ok(()) = put_line(&mut line, b"ledger", &words) else {
        return LedgerEnding::Run(Ending::NoMemory);
    };
    match write_all(sink, line.as_slice()) {
        Ok(()) => LedgerEnding::Run(Ending::Done),
        Err(_) => LedgerEnding::Run(Ending::WriteFault),
    }
}

// Writes the text of a request.
fn sign<K: Sink>(signing: &Signing, sink: &mut K) -> LedgerEnding
    ensures { (source : SourceState) (disks : Pair) (notary : NotaryState) → Signs (signed_text signing.now) result
        (handed source (K.state sink.old) disks notary) (handed source (K.state sink.new) disks notary) }
{
    write_text(&signing.text(), sink)
}

// Writes a key or a signature in the scheme of chains.
fn write_chain<K: Sink>(alloc: Global, text: &ChainText, sink: &mut K) -> LedgerEnding
    requires { HasRange text.now }
    ensures { (source : SourceState) (disks : Pair) (notary : NotaryState) → Signs (chain_line text.now) result
        (handed source (K.state sink.old) disks notary) (handed source (K.state sink.new) disks notary) }
{
    match text.line(alloc) {
        Ok(line) => write_text(line.as_slice(), sink),
        Err(NoMemory) => LedgerEnding::Run(Ending::NoMemory),
    }
}

// Writes one text.
pub(crate) fn write_text<K: Sink>(text: &[u8], sink: &mut K) -> LedgerEnding
    ensures { (source : SourceState) (disks : Pair) (notary : NotaryState) → Signs text.now result
        (handed source (K.state sink.old) disks notary) (handed source (K.state sink.new) disks notary) }
{
    match write_all(sink, text) {
        Ok(()) => LedgerEnding::Run(Ending::Done),
        Err(_) => LedgerEnding::Run(Ending::WriteFault),
    }
}

// Runs random jobs on a new ledger in memory, and writes the line that sums them up.
fn run_soak<R: Threads, K: Sink>(
    rt: &R,
    alloc: Global,
    seed: u64,
    count: u64,
    stop: u64,
    sink: &mut K,
) -> LedgerEnding
    ensures { (source : SourceState) (disks : Pair) (notary : NotaryState) → Soaks seed count stop result
        (handed source (K.state sink.old) disks notary) (handed source (K.state sink.new) disks notary) }
{
    match soak(rt, alloc, seed, count, stop, sink) {
        SoakEnd::Done => LedgerEnding::Run(Ending::Done),
        SoakEnd::WriteFault => LedgerEnding::Run(Ending::WriteFault),
        SoakEnd::NoMemory => LedgerEnding::Run(Ending::NoMemory),
    }
}
