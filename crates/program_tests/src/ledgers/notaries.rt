//! A notary that fails, and the notary of a folder: its times, and what is answered where it can't be taken up.

use super::*;
use ledger_bytes::Digest;
use ledger_cli::{Keeping, ledger_main};
use ledger_disk::FuseDisk;
use notary_ledger::ListClock;

// What two anchors are answered where the first stamp fails.
const FAILED_FIRST: &str = "0.1 no 27\n0.2 ok 1 \
    87bf027bc348bc6c62bc73f78ef0e66f559d6c12d0a19cefb58272252edad4a5 1 2 \
    99fd4a459333f63d07c6fb120abb4290c10715e5138887ec2f1b89a752ff10b4 0 1000\n";

const SEED: Digest = Digest([7; 32]);

// The stamps of three anchors and of a later one, and what is told where the notary can't be taken up.
const FIRST: &str = "0 5000 1 5000 2 7000 ";

const SECOND: &str = "3 7000 ";

const NO_SEED: &str = "fail 2 seed\n";

const NO_DISK: &str = "fail 4 disk\n";

/// What `dry` answers to two anchors, where the first stamp fails.
fn failed_first<R: Threads + Wait + Sync>(rt: &R, alloc: Global) -> Result<Vec<u8>, NoMemory> {
    let mut a = MemDisk::new(alloc, AMPLE, Vec::new(alloc))?;
    let mut b = MemDisk::new(alloc, AMPLE, Vec::new(alloc))?;
    let mut source = MemSource::new(
        Bytes::copy_of(alloc, b"0 anchor\n0 anchor\n")?,
        Vec::new(alloc),
    );
    let mut sink = MemSink::new(alloc, AMPLE, Vec::new(alloc))?;
    ledger_top(
        &tools(rt, alloc),
        &strings(alloc, &DEMO)?,
        &mut source,
        &mut sink,
        &mut a,
        &mut b,
        &mut MemNotary::new(alloc, [0].to_vec(alloc)?),
    );
    Ok(sink.written().to_vec(alloc)?)
}

/// The status of a run on these disks with the notary that the third one keeps, and what it wrote.
fn run_kept<R: Threads + Wait + Sync, E: Disk + Drop>(
    rt: &R,
    alloc: Global,
    a: &mut MemDisk,
    b: &mut MemDisk,
    words: &[&str],
    script: &[u8],
    keeper: E,
    seed: Option<Digest>,
) -> Result<(u8, Vec<u8>, E), NoMemory> {
    let mut source = MemSource::new(Bytes::copy_of(alloc, script)?, Vec::new(alloc));
    let mut sink = MemSink::new(alloc, AMPLE, Vec::new(alloc))?;
    let words = strings(alloc, words)?;
    let clock = ListClock::new([5000, 4000, 7000].to_vec(alloc)?);
    let keeping = Keeping {
        keeper,
        clock,
        seed,
    };
    let (status, keeper) = ledger_main(
        &tools(rt, alloc),
        &words,
        &mut source,
        &mut sink,
        a,
        b,
        keeping,
    );
    Ok((status, sink.written().to_vec(alloc)?, keeper))
}

/// The last two words of each line: where its entry stands in the notary's list, and the time.
fn stamps(alloc: Global, replies: &[u8]) -> Result<Vec<u8>, NoMemory> {
    let mut stamps = Vec::new(alloc);
    for line in replies.split(|byte| *byte == b'\n') {
        for word in line.split(|byte| *byte == b' ').skip(7) {
            stamps.extend_from_slice(word)?;
            stamps.push(b' ')?;
        }
    }
    Ok(stamps)
}

#[test]
fn answers_where_a_stamp_failed(rt: HostRuntime) -> Result<(), Fail> {
    let written = failed_first(&rt, rt.alloc())?;
    assert!(rt; written.as_slice() == FAILED_FIRST.as_bytes());
    Ok(())
}

// Times never fall, and a later run goes on behind the entries of an earlier one.
#[test]
fn goes_on_with_the_notary_of_a_folder(rt: HostRuntime) -> Result<(), Fail> {
    let mut a = MemDisk::new(rt.alloc(), AMPLE, Vec::new(rt.alloc()))?;
    let mut b = MemDisk::new(rt.alloc(), AMPLE, Vec::new(rt.alloc()))?;
    let (goes_on, keeper) = stamps_in_turn(&rt, rt.alloc(), &mut a, &mut b)?;
    let refuses = refuses_without(&rt, rt.alloc(), &mut a, &mut b, keeper)?;
    assert!(rt; goes_on && refuses);
    Ok(())
}

/// Whether a ledger is made on these disks and two runs on it stamp as they must, and the notary's disk.
fn stamps_in_turn<R: Threads + Wait + Sync>(
    rt: &R,
    alloc: Global,
    a: &mut MemDisk,
    b: &mut MemDisk,
) -> Result<(bool, MemDisk), NoMemory> {
    let keeper = MemDisk::new(alloc, AMPLE, Vec::new(alloc))?;
    let (made, told, keeper) = run_kept(rt, alloc, a, b, &INIT, b"", keeper, Some(SEED))?;
    let is_made = made == 0 && told.as_slice() == TOLD.as_bytes();
    let anchors = b"0 anchor\n0 anchor\n0 anchor\n";
    let (is_first, keeper) = is_stamped(rt, alloc, a, b, anchors, keeper, FIRST)?;
    let (is_second, keeper) = is_stamped(rt, alloc, a, b, b"0 anchor", keeper, SECOND)?;
    Ok((is_made && is_first && is_second, keeper))
}

/// Whether a run of this script is stamped so, and the notary's disk.
fn is_stamped<R: Threads + Wait + Sync>(
    rt: &R,
    alloc: Global,
    a: &mut MemDisk,
    b: &mut MemDisk,
    script: &[u8],
    keeper: MemDisk,
    want: &str,
) -> Result<(bool, MemDisk), NoMemory> {
    let (status, replies, keeper) = run_kept(rt, alloc, a, b, &RUN, script, keeper, Some(SEED))?;
    let is_so = status == 0 && stamps(alloc, &replies)?.as_slice() == want.as_bytes();
    Ok((is_so, keeper))
}

/// Whether a run is refused where there is no seed, and where the notary's disk fails.
fn refuses_without<R: Threads + Wait + Sync>(
    rt: &R,
    alloc: Global,
    a: &mut MemDisk,
    b: &mut MemDisk,
    keeper: MemDisk,
) -> Result<bool, NoMemory> {
    let (status, written, keeper) = run_kept(rt, alloc, a, b, &RUN, b"0 head", keeper, None)?;
    let no_seed = status == 2 && written.as_slice() == NO_SEED.as_bytes();
    let keeper = FuseDisk::new(keeper, 0);
    let (status, written, _) = run_kept(rt, alloc, a, b, &RUN, b"0 head", keeper, Some(SEED))?;
    let no_disk = status == 4 && written.as_slice() == NO_DISK.as_bytes();
    Ok(no_seed && no_disk)
}
