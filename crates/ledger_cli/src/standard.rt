//! The program over standard input and output, real files, the system's clock and its random bytes.

ghost use Rattle.std.specs.Prelude.{◌≤◌, IfOk};

use crate::scheme::{Mark, Scheme};
use crate::{Command, Keeping, ledger_main};
use chain_sign::ChainScheme;
use lane_work::{OpenGate, Tools};
use ledger_bytes::{Digest, Failed, NoMemory};
use ledger_disk::{Disk, FileDisk, MemDisk};
use ledger_io::{Ending, Sink, Source, StdSink, StdSource, command_words, finish, write_last};
use member_book::TagScheme;
use notary_ledger::{Clock, RealClock};
use std::alloc::Global;
use std::fs::File;
use std::io::Read;
use std::sync::Wait;
use std::thread::Threads;

/// How many bytes each of the two disks in memory can hold on which `dry` runs.
const DRY_ROOM: usize = 67_108_864;

/// Runs the program over standard input and standard output, by the words of its command line, and answers its exit
/// status. The forms that name a folder use the files `ledger.a`, `ledger.b` and `notary` of it, which has to be there, the
/// system's clock, and 32 bytes of `/dev/urandom` as the seed of salts; `dry` uses two disks in memory of 67,108,864 bytes
/// each. The three files are locked, and so told apart, before anything is written. Proofs are those of the tag scheme; behind the word
/// `chain` in front of all others they are those of the scheme of chains. `init` behind that word makes the file `chain` in the
/// folder too, before it makes the ledger, and each form with a folder that has this file takes proofs of chains alone, also without the word.
/// What [`ledger_main`] promises holds of it, but standard input and output and
/// real files tell nothing of what they gave and took. `threads` is `rt` once more, by whose bound threads may be started.
pub fn ledger_standard<R: Threads + Wait + Sync>(rt: &HostRuntime, threads: &R) -> u8
    ensures { result ≤ 12 }
{
    let mut source = StdSource::new(rt.stdin());
    let mut sink = StdSink::new(rt.stdout());
    let Ok(words) = command_words(rt) else {
        return finish(&mut sink, Ending::NoMemory);
    };
    let (said, words) = Scheme::split(words.as_slice());
    let status = match folder_of(words) {
        Some(folder) => run_on_files(rt, threads, said, folder, words, &mut source, &mut sink),
        None => run_in_memory(rt, threads, said, words, &mut source, &mut sink),
    };
    match status {
        Ok(status) => status,
        Err(NoMemory) => finish(&mut sink, Ending::NoMemory),
    }
}

// The folder that the words name, where they begin as a form with one does.
fn folder_of(words: &[String]) -> Option<&str> {
    let (verb, folder) = match words {
        [verb, folder, ..] => (verb.as_str(), folder.as_str()),
        _ => return None,
    };
    let names = match words.len() {
        2 => verb == "run" || verb == "export" || verb == "revive",
        3 => verb == "carry",
        4 => verb == "lineage" || verb == "keep" || verb == "board",
        5 => verb == "init",
        _ => false,
    };
    if names { Some(folder) } else { None }
}

// Runs the words with proofs of a scheme. No line is held.
fn run_by<R: Threads + Wait + Sync, S: Source, K: Sink, D: Disk, E: Disk + Drop, C: Clock>(
    rt: &R,
    alloc: Global,
    scheme: Scheme,
    words: &[String],
    source: &mut S,
    sink: &mut K,
    disks: (&mut D, &mut D),
    keeping: Keeping<E, C>,
) -> u8
    ensures { result ≤ 12 }
{
    let gate = &OpenGate;
    let (a, b) = disks;
    let (status, _) = match scheme {
        Scheme::Tags => {
            let tools = Tools {
                rt,
                alloc,
                verifier: &TagScheme,
                gate,
            };
            ledger_main(&tools, words, source, sink, a, b, keeping)
        }
        Scheme::Chains => {
            let tools = Tools {
                rt,
                alloc,
                verifier: &ChainScheme,
                gate,
            };
            ledger_main(&tools, words, source, sink, a, b, keeping)
        }
    };
    status
}

// Nothing is opened where the words turn out to be of no form, or where there is no seed.
fn run_on_files<R: Threads + Wait + Sync, S: Source, K: Sink>(
    rt: &HostRuntime,
    threads: &R,
    said: Scheme,
    folder: &str,
    words: &[String],
    source: &mut S,
    sink: &mut K,
) -> Result<u8, NoMemory>
    ensures { IfOk result (λ status. status ≤ 12) }
{
    let mut a = file_in(rt, folder, "/ledger.a")?;
    let mut b = file_in(rt, folder, "/ledger.b")?;
    let mut keeper = file_in(rt, folder, "/notary")?;
    let mark = Mark::of(rt, folder)?;
    let seed = seed(rt);
    let command = Command::read(rt.alloc(), words)?;
    let mut settled = Settled {
        scheme: said,
        is_new: false,
    };
    if seed.is_some() && command.is_some() {
        let Ok(found) = settle(rt, &mark, said, &command, &mut a, &mut b, &mut keeper) else {
            write_last(sink, b"fail 4 disk\n");
            return Ok(4);
        };
        settled = found;
    }
    let keeping = Keeping {
        keeper,
        clock: RealClock::new(rt),
        seed,
    };
    let disks = (&mut a, &mut b);
    let status = run_by(
        threads,
        rt.alloc(),
        settled.scheme,
        words,
        source,
        sink,
        disks,
        keeping,
    );
    // (refused, since there was a ledger already: with each other status this run may have made one)
    if settled.is_new && status == 8 {
        mark.remove(rt);
    }
    Ok(status)
}

// The scheme of a folder's ledger, and whether the file that says so was made by this run.
#[derive(Clone, Copy)]
struct Settled {
    scheme: Scheme,
    is_new: bool,
}

// Opens and locks the three files, of which one that has two of the names can't be locked for both. Then it is looked which scheme the
// folder's ledger has, and said there where one of chains is to be made.
fn settle<D: Disk>(
    rt: &HostRuntime,
    mark: &Mark,
    said: Scheme,
    command: &Option<Command>,
    a: &mut D,
    b: &mut D,
    keeper: &mut D,
) -> Result<Settled, Failed> {
    a.len()?;
    b.len()?;
    keeper.len()?;
    if mark.is_there(rt)? {
        return Ok(Settled {
            scheme: Scheme::Chains,
            is_new: false,
        });
    }
    let is_new = said == Scheme::Chains && matches!(command, Some(Command::Init(_)));
    if is_new {
        mark.make(rt)?;
    }
    Ok(Settled {
        scheme: said,
        is_new,
    })
}

// 32 bytes from the system's source of random bytes.
fn seed(rt: &HostRuntime) -> Option<Digest> {
    let mut file = File::open(rt, "/dev/urandom").ok()?;
    let mut bytes = [0; 32];
    file.read_exact(&mut bytes).ok()?;
    Some(Digest(bytes))
}

fn file_in<'a>(
    rt: &'a HostRuntime,
    folder: &str,
    name: &str,
) -> Result<FileDisk<&'a HostRuntime>, NoMemory> {
    let mut path = String::from_str(rt.alloc(), folder)?;
    path.push_str(name)?;
    FileDisk::at(rt, rt.alloc(), path.as_str())
}

fn run_in_memory<R: Threads + Wait + Sync, S: Source, K: Sink>(
    rt: &HostRuntime,
    threads: &R,
    said: Scheme,
    words: &[String],
    source: &mut S,
    sink: &mut K,
) -> Result<u8, NoMemory>
    ensures { IfOk result (λ status. status ≤ 12) }
{
    let room = match words {
        [verb, ..] if verb.as_str() == "dry" => DRY_ROOM,
        _ => 0,
    };
    let alloc = rt.alloc();
    let mut a = MemDisk::new(alloc, room, Vec::new(alloc))?;
    let mut b = MemDisk::new(alloc, room, Vec::new(alloc))?;
    let keeping = Keeping {
        keeper: MemDisk::new(alloc, 0, Vec::new(alloc))?,
        clock: RealClock::new(rt),
        seed: None,
    };
    let disks = (&mut a, &mut b);
    Ok(run_by(threads, alloc, said, words, source, sink, disks, keeping))
}
