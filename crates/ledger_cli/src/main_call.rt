//! The whole program: its notary is kept in the folder or new in memory, and the top call is run with it.

ghost use Rattle.std.specs.Prelude.{◌≡◌, ◌≤◌, ◌⊎◌, ◌↔◌, None, IsSome, IfOk, OnErr, map, string_bytes};
ghost use Rattle.batch_committer.specs.World.{pair, OneFailed};
ghost use Rattle.ledger_bytes.specs.Causes.{count_after};
ghost use Rattle.ledger_cli.specs.Keeping.{given, names_folder, ending_of_keeper, RanMain};
ghost use Rattle.ledger_cli.specs.Words.{command_of};
ghost use Rattle.notary_ledger.specs.Clocks.{clock_times};

use crate::Command;
use crate::ending::LedgerEnding;
use crate::top::{finish_run, ledger_top};
use block_file::FileErr;
use lane_work::{Gate, Tools};
use ledger_bytes::{Digest, NoMemory};
use ledger_disk::Disk;
use ledger_io::{Ending, Sink, Source, finish, write_last};
use member_book::Verifier;
use notary_ledger::{Clock, LocalNotary, SureNotary};
use std::alloc::Global;
use std::sync::Wait;
use std::thread::Threads;
use time_peg::Notary;

/// What a notary is made of whose list is kept on a disk: the disk, the clock that tells its times, and the seed from which
/// its salts are drawn, where there is one.
pub struct Keeping<E, C> {
    pub keeper: E,
    pub clock: C,
    pub seed: Option<Digest>,
}

/// The whole program: what [`ledger_top`] does, with the notary that is kept, where the words name a folder, and with a
/// new notary in memory for all other words. It gives the notary's disk back. Before the ledger's disks are touched it answers
///
/// | Status | Comes | Last line |
/// |---|---|---|
/// | 2 | where the words name a folder and there is no seed | `fail 2 seed` |
/// | 4 | only where the notary's disk failed while its list was taken up | `fail 4 disk` |
/// | 6 | want of memory | `fail 6 memory` |
pub fn ledger_main<
    R: Threads + Wait + Sync,
    S: Source,
    K: Sink,
    D: Disk,
    E: Disk,
    C: Clock,
    V: Verifier,
    G: Gate,
>(
    tools: &Tools<R, V, G>,
    words: &[String],
    source: &mut S,
    sink: &mut K,
    a: &mut D,
    b: &mut D,
    keeping: Keeping<E, C>,
) -> (u8, E)
    ensures ran { RanMain (V.shows tools.now.verifier.now) D.tells E.tells
        (clock_times C.tells (C.moments keeping.clock)) (command_of (map string_bytes words.now)) keeping.seed result.0
        (given (S.state source.old) (K.state sink.old) (pair (D.state a.old) (D.state b.old))
        (E.state keeping.keeper))
        (given (S.state source.new) (K.state sink.new) (pair (D.state a.new) (D.state b.new))
        (E.state result.1)) }
    ensures bounded { result.0 ≤ 12 }
    ensures usage { (result.0 ≡ 1) ↔ (command_of (map string_bytes words.now) ≡ None) }
    ensures disk_fault { result.0 ≡ 4 → OneFailed
        (pair (D.state a.old) (D.state b.old)) (pair (D.state a.new) (D.state b.new))
        ⊎ ((E.state result.1).faults ≡ count_after (E.state keeping.keeper).faults) }
{
    let alloc = tools.alloc;
    let Keeping {
        keeper,
        clock,
        seed,
    } = keeping;
    match wants_notary(alloc, words) {
        Ok(true) => {}
        Ok(false) => {
            let mut notary = SureNotary::new(alloc);
            let status = ledger_top(tools, words, source, sink, a, b, &mut notary);
            return (status, keeper);
        }
        Err(NoMemory) => return (finish(sink, Ending::NoMemory), keeper),
    }
    let Some(seed) = seed else {
        write_last(sink, b"fail 2 seed\n");
        return (2, keeper);
    };
    match LocalNotary::reopen(alloc, keeper, clock, seed) {
        Ok(notary) => {
            let mut notary = notary;
            let status = ledger_top(tools, words, source, sink, a, b, &mut notary);
            notary.images_have_the_list();
            (status, notary.into_disk())
        }
        Err((error, keeper)) => (finish_run(alloc, sink, ending_of(error)), keeper),
    }
}

// How a run ends whose notary can't be taken up. No file of a notary is damaged or newer.
fn ending_of(error: FileErr) -> LedgerEnding
    ensures { result ≡ ending_of_keeper error }
{
    match error {
        FileErr::DiskFault | FileErr::Damaged(_) | FileErr::NewerFormat { .. } => {
            LedgerEnding::DiskFault
        }
        FileErr::NoMemory => LedgerEnding::Run(Ending::NoMemory),
    }
}

// Whether the words name a folder, whose notary is kept on a disk.
fn wants_notary(alloc: Global, words: &[String]) -> Result<bool, NoMemory>
    ensures ok { IfOk result (λ wants. wants ≡ names_folder (command_of (map string_bytes words.now))) }
    ensures err { OnErr result (IsSome (command_of (map string_bytes words.now))) }
{
    match Command::read(alloc, words)? {
        Some(
            Command::Init(_)
            | Command::Run
            | Command::Export
            | Command::Lineage { .. }
            | Command::Board { .. }
            | Command::Keep { .. }
            | Command::Carry { .. }
            | Command::Revive,
        ) => Ok(true),
        Some(Command::Dry(_) | Command::Sign(_) | Command::Chain(_) | Command::Soak { .. })
        | None => Ok(false),
    }
}
