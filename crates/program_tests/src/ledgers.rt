//! Faults of reading and writing, disks that fail or stop, lanes, and words too long for a row. What
//! a script is answered is shown by worked rows (`worked_rows`).

use lane_work::{OpenGate, Tools};
use ledger_bytes::{Bytes, NoMemory};
use ledger_cli::ledger_top;
use ledger_disk::{Disk, MemDisk};
use ledger_io::{MemSink, MemSource};
use member_book::TagScheme;
use notary_ledger::MemNotary;
use std::alloc::Global;
use std::sync::Wait;
use std::test::Fail;
use std::thread::Threads;

mod disks;
mod erasing;
mod exports;
mod lanes;
mod large;
mod notaries;
mod occults;
mod proofs;
mod purges;
mod soaks;
mod words;

// The keys of the operator and the regulator of a ledger for trial: 32 bytes 1, and 32 bytes 2.
const OPERATOR: &str = "0101010101010101010101010101010101010101010101010101010101010101";

const REGULATOR: &str = "0202020202020202020202020202020202020202020202020202020202020202";

// The words that make it in memory and on disks, that sign a record on it, and that run a script on it.
const DEMO: [&str; 4] = ["dry", "demo", OPERATOR, REGULATOR];

const INIT: [&str; 5] = ["init", "d", "demo", OPERATOR, REGULATOR];

const SIGN: [&str; 7] = ["sign", ID, OPERATOR, "append", "0", "-", "-"];

const RUN: [&str; 2] = ["run", "d"];

// Its id.
const ID: &str = "64915354a6547b1f887e596e872fd13b2abdc860729da9fe31180a81726cf4a2";

// Its head while it is new, behind the number of the line; what is told where it is made; and the message of a record
// with its proof.
const HEAD: &str = "head \
    64915354a6547b1f887e596e872fd13b2abdc860729da9fe31180a81726cf4a2 1 \
    64915354a6547b1f887e596e872fd13b2abdc860729da9fe31180a81726cf4a2 1 0 0 \
    e3b0c44298fc1c149afbf4c8996fb92427ae41e4649b934ca495991b7852b855\n";

const TOLD: &str = "ledger 64915354a6547b1f887e596e872fd13b2abdc860729da9fe31180a81726cf4a2 1 \
    64915354a6547b1f887e596e872fd13b2abdc860729da9fe31180a81726cf4a2\n";

const SIGNED: &str = "45ab4df7151b96fe3fdaa2ffe2851781324f1e7e8cd93e909a6f084b485ebf77\n\
    0101010101010101010101010101010101010101010101010101010101010101\
    686f1846a77b4b9e4f4927cb822d4b771f3dc804ba2be7655992ebc5e0d31ec7\n";

// That record, and its receipt alone in a block.
const EMPTY: &str =
    "0 append 0 - - 0101010101010101010101010101010101010101010101010101010101010101\
    686f1846a77b4b9e4f4927cb822d4b771f3dc804ba2be7655992ebc5e0d31ec7\n";

const RECEIPT: &str = "ok 1 e17cd0a38398533f50004ec57f5dd3837680b6b072223c6ffc9e2bfa0d0e723c 1 2 \
    89713d47487c9be9875bd8f6a471f021f10440bea34709c459dce3a170313951\n";

// More room than any of these runs takes, and a call that none of them makes.
const AMPLE: usize = 1_048_576;

const NEVER: u64 = u64::MAX;

// How many bytes each of the two disks of a script on several lanes can hold.
const DISK_ROOM: usize = 16_777_216;

fn strings(alloc: Global, words: &[&str]) -> Result<Vec<String>, NoMemory> {
    let mut strings = Vec::new(alloc);
    for word in words {
        strings.push(String::from_str(alloc, word)?)?;
    }
    Ok(strings)
}

fn bytes_of(alloc: Global, pieces: &[&str]) -> Result<Vec<u8>, NoMemory> {
    let mut bytes = Vec::new(alloc);
    for piece in pieces {
        bytes.extend_from_slice(piece.as_bytes())?;
    }
    Ok(bytes)
}

/// What of a run's reading and writing fails: the read and the write with these numbers, and a
/// write that finds less than this room.
#[derive(Clone, Copy, Debug)]
struct Faults {
    read: u64,
    room: usize,
    write: u64,
}

const NO_FAULTS: Faults = Faults {
    read: NEVER,
    room: AMPLE,
    write: NEVER,
};

// What lines are prepared with: proofs are those of the tag scheme, and no line is held.
fn tools<R>(rt: &R, alloc: Global) -> Tools<'_, R, TagScheme, OpenGate> {
    Tools {
        rt,
        alloc,
        verifier: &TagScheme,
        gate: &OpenGate,
    }
}

/// The status of a run on these disks, and what it wrote.
fn run_on<R: Threads + Wait + Sync, D: Disk>(
    rt: &R,
    alloc: Global,
    words: &[&str],
    script: &[u8],
    faults: Faults,
    a: &mut D,
    b: &mut D,
) -> Result<(u8, Vec<u8>), NoMemory> {
    let words = strings(alloc, words)?;
    let script = Bytes::copy_of(alloc, script)?;
    let mut source = MemSource::new(script, [faults.read].to_vec(alloc)?);
    let mut sink = MemSink::new(alloc, faults.room, [faults.write].to_vec(alloc)?)?;
    let mut notary = MemNotary::new(alloc, Vec::new(alloc));
    let status = ledger_top(
        &tools(rt, alloc),
        &words,
        &mut source,
        &mut sink,
        a,
        b,
        &mut notary,
    );
    Ok((status, sink.written().to_vec(alloc)?))
}

/// The status of a run on two empty disks, and what it wrote.
fn run<R: Threads + Wait + Sync>(
    rt: &R,
    alloc: Global,
    words: &[&str],
    script: &[u8],
    faults: Faults,
) -> Result<(u8, Vec<u8>), NoMemory> {
    let mut a = MemDisk::new(alloc, AMPLE, Vec::new(alloc))?;
    let mut b = MemDisk::new(alloc, AMPLE, Vec::new(alloc))?;
    run_on(rt, alloc, words, script, faults, &mut a, &mut b)
}

/// What is asked for, and what is written where no fault is met.
#[derive(Clone, Copy, Debug)]
struct Asked {
    words: &'static [&'static str],
    script: &'static [&'static str],
    replies: &'static [&'static str],
}

const HEADS: Asked = Asked {
    words: &DEMO,
    script: &["0 head\n0 hed\n0 he"],
    replies: &["0.1 ", HEAD, "0.2 no 10\n0.3 no 10\n"],
};

const RECORD: Asked = Asked {
    words: &DEMO,
    script: &[EMPTY, "0 he"],
    replies: &["0.1 ", RECEIPT, "0.2 no 10\n"],
};

const TEXT: Asked = Asked {
    words: &SIGN,
    script: &[],
    replies: &[SIGNED],
};

const LEDGER: Asked = Asked {
    words: &INIT,
    script: &[],
    replies: &[TOLD],
};

/// What is asked for; the read that fails, the room of the sink and the write that fails; the
/// status, how many bytes of the replies are written, and what of the last line.
type Faulty = (Asked, (u64, usize, u64), u8, usize, &'static str);

// What was written before a fault stays. Each reply is written by itself where no journal waits.
// The end of a script ends its last block, and so does a fault of reading; a fault of writing
// leaves no receipt. A fault at the last line changes no status. Where a text is signed or a ledger
// is made nothing is read.
const FAULTY: [Faulty; 22] = [
    (HEADS, (NEVER, AMPLE, NEVER), 0, 232, ""),
    (HEADS, (0, AMPLE, NEVER), 2, 0, "fail 2 read\n"),
    (HEADS, (0, 6, NEVER), 2, 0, "fail 2"),
    (HEADS, (0, AMPLE, 0), 2, 0, ""),
    (HEADS, (1, AMPLE, NEVER), 2, 222, "fail 2 read\n"),
    (HEADS, (NEVER, AMPLE, 0), 3, 0, ""),
    (HEADS, (NEVER, AMPLE, 1), 3, 212, ""),
    (HEADS, (NEVER, 20, 1), 3, 20, ""),
    (HEADS, (NEVER, 0, NEVER), 3, 0, ""),
    (HEADS, (NEVER, 20, NEVER), 3, 20, ""),
    (HEADS, (NEVER, 217, NEVER), 3, 217, ""),
    (RECORD, (NEVER, AMPLE, NEVER), 0, 153, ""),
    (RECORD, (1, AMPLE, NEVER), 2, 143, "fail 2 read\n"),
    (RECORD, (NEVER, AMPLE, 0), 3, 0, ""),
    (TEXT, (0, AMPLE, NEVER), 0, 194, ""),
    (TEXT, (NEVER, 194, NEVER), 0, 194, ""),
    (TEXT, (NEVER, 193, NEVER), 3, 193, ""),
    (TEXT, (NEVER, 70, 1), 3, 70, ""),
    (TEXT, (NEVER, AMPLE, 0), 3, 0, ""),
    (LEDGER, (0, AMPLE, NEVER), 0, 139, ""),
    (LEDGER, (NEVER, 138, NEVER), 3, 138, ""),
    (LEDGER, (NEVER, 0, NEVER), 3, 0, ""),
];

fn ends_so<R: Threads + Wait + Sync>(
    rt: &R,
    alloc: Global,
    row: &Faulty,
) -> Result<bool, NoMemory> {
    let (asked, (read, room, write), want_status, count, last) = *row;
    let script = bytes_of(alloc, asked.script)?;
    let faults = Faults { read, room, write };
    let (status, written) = run(rt, alloc, asked.words, script.as_slice(), faults)?;
    let mut want = bytes_of(alloc, asked.replies)?;
    want.truncate(count);
    want.extend_from_slice(last.as_bytes())?;
    Ok(status == want_status && written == want)
}

#[test]
fn tells_faults(rt: HostRuntime) -> Result<(), Fail> {
    for row in &FAULTY {
        let is_so = ends_so(&rt, rt.alloc(), row)?;
        assert!(rt; is_so, "at {row:?}");
    }
    Ok(())
}
