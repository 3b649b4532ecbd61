//! Blocks that are gathered and committed together: what the disks leave of a group wherever they stop, and what is written.

use crate::committing::{
    AMPLE, Bench, OPERATOR, Run, lines_in, new_pair, run_records, sink_of, size_on,
};
use batch_committer::CommitErr;
use journal_record::{content_digest, request_digest};
use lane_work::prepare;
use ledger_bytes::Digest;
use ledger_disk::{FuseDisk, MemDisk, Pick};
use ledger_io::MemSink;
use member_book::{TagScheme, tag_proof};
use std::alloc::Global;
use std::process::Abort;
use std::str;
use std::test::Fail;
use std::thread::Threads;

// How many calls of a disk the opening of a clean ledger takes.
const OPENING: u64 = 2;

// In how many images a group is there whole whose commit was stopped after so many calls: in each of the three or not, and
// none of it in the others.
const STOPPED: [(u8, [bool; 3]); 6] = [
    (0, [false, false, false]),
    (1, [false, false, false]),
    (2, [false, false, false]),
    (3, [false, false, false]),
    (4, [true, false, false]),
    (5, [true, true, true]),
];

#[test]
fn a_group_is_kept_whole_or_not_at_all_wherever_a_disk_stops(rt: HostRuntime) -> Result<(), Fail> {
    for blocks in [1, 2, 5, 64] {
        stop_groups(&rt, rt.alloc(), blocks)?;
    }
    Ok(())
}

/// Stops the commit of so many full blocks at each of its calls. Their receipts are written where all was done, and none of
/// them else.
fn stop_groups<R: Threads + Abort>(rt: &R, alloc: Global, blocks: u8) -> Result<(), Fail> {
    let records = 64 * u32::from(blocks);
    for (left, there) in &STOPPED {
        let (run, sink, a, b) = settle_until(rt, alloc, records, *left)?;
        let is_all = *left == 5;
        let lines = if is_all { records as usize } else { 0 };
        let sizes = there.map(|is_there| u64::from(if is_there { 1 + records } else { 1 }));
        let found = (
            run.settled.is_ok(),
            lines_in(sink.written()),
            sizes_left(rt, alloc, &a, &b)?,
        );
        assert_eq!(rt;
            found,
            (is_all, lines, sizes),
            "{blocks} blocks, after {left}"
        );
    }
    Ok(())
}

/// What came of so many records where the first disk stops after so many calls of the commit, and the disks that it leaves.
fn settle_until<R: Threads>(
    rt: &R,
    alloc: Global,
    records: u32,
    left: u8,
) -> Result<(Run, MemSink, MemDisk, MemDisk), Fail> {
    let (a, b) = new_pair(alloc)?;
    let stop = OPENING + u64::from(left);
    let (a, b) = (FuseDisk::new(a, stop), FuseDisk::new(b, OPENING));
    let (run, sink, a, b) = run_records(rt, alloc, a, b, AMPLE, u64::from(records))?;
    Ok((run, sink, a.into_inner(), b.into_inner()))
}

/// The sizes of the ledger on what these disks leave: all that was written, nothing of it, and any bytes in its place.
fn sizes_left<R: Threads>(
    rt: &R,
    alloc: Global,
    a: &MemDisk,
    b: &MemDisk,
) -> Result<[u64; 3], Fail> {
    let mut sizes = [0; 3];
    let picks = [Pick::AllWritten, Pick::NoneWritten, Pick::Torn(7)];
    for (size, pick) in sizes.iter_mut().zip(picks) {
        *size = size_on(rt, alloc, a.crash(pick)?, b.crash(pick)?)?;
    }
    Ok(sizes)
}

/// A committer of a new ledger on two disks.
fn new_bench<R: Threads>(rt: &R, alloc: Global) -> Result<Bench<MemDisk, MemSink>, Fail> {
    let (a, b) = new_pair(alloc)?;
    Ok(Bench::open(rt, alloc, a, b, sink_of(alloc, AMPLE)?)?)
}

#[test]
fn settle_ends_no_block(rt: HostRuntime) -> Result<(), Fail> {
    let mut whole = new_bench(&rt, rt.alloc())?;
    whole.offer_records(rt.alloc(), 70)?;
    whole.flush()?;
    let mut settled = new_bench(&rt, rt.alloc())?;
    settled.offer_records(rt.alloc(), 70)?;
    is_settled(&rt, &mut settled, whole.sink().written())
}

/// To settle writes the receipts of the one block that ended, and nothing the second time; the others come with a flush.
fn is_settled(
    rt: &impl Abort,
    bench: &mut Bench<MemDisk, MemSink>,
    whole: &[u8],
) -> Result<(), Fail> {
    assert!(rt; !bench.is_stored() && bench.sink().written().is_empty());
    bench.settle()?;
    has_written(rt, bench, whole, 64);
    bench.settle()?;
    has_written(rt, bench, whole, 64);
    assert!(rt; bench.is_stored());
    bench.flush()?;
    has_written(rt, bench, whole, 70);
    Ok(())
}

/// So many lines of these are written.
fn has_written(rt: &impl Abort, bench: &Bench<MemDisk, MemSink>, whole: &[u8], lines: usize) {
    let written = bench.sink().written();
    assert_eq!(rt; lines_in(written), lines);
    assert!(rt; whole.starts_with(written));
}

#[test]
fn a_group_that_has_so_many_bytes_is_committed(rt: HostRuntime) -> Result<(), Fail> {
    // Of 64 records with contents of so many bytes: 1,048,556 bytes, and 1,048,620.
    for (len, is_stored) in [(16_135, false), (16_136, true)] {
        let mut bench = new_bench(&rt, rt.alloc())?;
        offer_long(&mut bench, rt.alloc(), len)?;
        assert_eq!(rt; bench.is_stored(), is_stored, "{len}");
    }
    Ok(())
}

/// Offers 64 records of the operator with a content of so many bytes.
fn offer_long(bench: &mut Bench<MemDisk, MemSink>, alloc: Global, len: u32) -> Result<(), Fail> {
    let line = long_line(alloc, &bench.id(), len)?;
    for index in 1..=64 {
        offer_line(bench, alloc, index, &line)?;
    }
    Ok(())
}

/// The line of such a record.
fn long_line(alloc: Global, id: &Digest, len: u32) -> Result<String, Fail> {
    let content = vec![in alloc; b'a'; len as usize]?;
    let digest = content_digest(content.as_slice());
    let request = request_digest(id, 0, &Digest::ZERO, len, &digest, 0);
    let content = hex::encode(alloc, content.as_slice())?;
    let proof = hex::encode(alloc, tag_proof(&OPERATOR, &request))?;
    Ok(format!(in alloc; "0 append 0 - {content} {proof}")?)
}

// A member, two records of that member, and a time journal.
const FRONT: [&str; 4] = [
    "0 member 2 0303030303030303030303030303030303030303030303030303030303030303 \
    01010101010101010101010101010101010101010101010101010101010101016e2700604cd288e681c238fa71ae802e\
    f173e93907477f0111a56a7be4890e8c",
    "0 append 2 - 616263 \
    030303030303030303030303030303030303030303030303030303030303030327e4e5806a3ac2f5f4c2e417ca5db167\
    c45bdab383c759d0e0b26c347f2b74cb",
    "0 append 2 - - \
    0303030303030303030303030303030303030303030303030303030303030303f7883fcc812a608a0fc1facb9db3695d\
    6a79994b1d3a982a0680d6a5c87dfef4",
    "0 anchor",
];

// A record with a clue, one with a number, and one of the operator.
const CLUED: &str = "0 append 2 inv 616263 \
    03030303030303030303030303030303030303030303030303030303030303031c73656160873b10becb5d4a75a04605\
    6d790b17f79672513778ab540c22c6df";

const NUMBERED: &str = "0 append 2 - 61 \
    030303030303030303030303030303030303030303030303030303030303030307d98d1c717d13a1ff95bcb53563ab1d\
    479c36ea177bfcfff5f223b47555a0cd 5";

const PLAIN: &str = "0 append 0 - - \
    0101010101010101010101010101010101010101010101010101010101010101686f1846a77b4b9e4f4927cb822d4b77\
    1f3dc804ba2be7655992ebc5e0d31ec7";

// An occult of journal 2, and a purge to journal 4.
const OCCULT: &str = "0 occult 2 \
    d9274c8673e71ecda9d4716938a5b44d36d7e6a155ac0c8c8bc7e4c6c1a474d8 \
    0:0101010101010101010101010101010101010101010101010101010101010101f38b0cdf11755163401e2db5bc1d5c\
    c0252a51b3ec6a56e3d486d8d11edc87e3,\
    1:0202020202020202020202020202020202020202020202020202020202020202166077841dedd431f57a2935e4c67e\
    595d9a318aeaa1993708da21054786f8eb";

const PURGE: &str = "0 purge 4 \
    fbb4803b3f3cf1a9ac68fbd1b73ab4432ce4e674520a107c12972996660cd5d7 \
    0:010101010101010101010101010101010101010101010101010101010101010150095102b7f2662bdab383cf24d79f\
    99d2e0acadc45461262cb76979e0d7075a,\
    2:03030303030303030303030303030303030303030303030303030303030303039609b0e5c3f302fc2989482b72a014\
    88bb093814c3ea6d5531e0cff512bfe88e";

// A line behind the group, and how the reply begins.
const BEHIND: [(&str, &str); 12] = [
    ("0 get 2", "0.69 whole "),
    ("0 get 40", "0.69 whole "),
    ("0 prove 40", "0.69 proof 40 "),
    ("0 extend ledger 40", "0.69 extension ledger 40 "),
    ("0 clue inv", "0.69 clue "),
    ("0 head", "0.69 head "),
    ("0 anchor", "0.69 ok 69 "),
    (OCCULT, "0.69 ok 69 "),
    (PURGE, "0.69 ok 69 "),
    ("0 hed", "0.69 no 10"),
    (NUMBERED, "0.69 ok 6 "),
    (PLAIN, "0.69 ok 69 "),
];

#[test]
fn replies_are_the_same_whether_blocks_were_gathered_or_not(rt: HostRuntime) -> Result<(), Fail> {
    for (line, reply) in &BEHIND {
        is_answered_alike(&rt, rt.alloc(), line, reply)?;
    }
    Ok(())
}

/// A line behind a group is answered as it is where each block was committed when it ended.
fn is_answered_alike<R: Threads + Abort>(
    rt: &R,
    alloc: Global,
    line: &str,
    reply: &str,
) -> Result<(), Fail> {
    let gathered = run_behind(rt, alloc, line, false)?;
    let settled = run_behind(rt, alloc, line, true)?;
    assert_eq!(rt; gathered.written(), settled.written());
    assert!(rt; last_begins(gathered.written(), reply)?, "{line}");
    Ok(())
}

/// Whether the last of these lines begins so.
fn last_begins(text: &[u8], begin: &str) -> Result<bool, Fail> {
    let last = str::from_utf8(text)?.lines().last();
    Ok(last.is_some_and(|line| line.starts_with(begin)))
}

/// What is written for a group of 64 records, this line and a flush, where the committer settles behind each line or doesn't.
fn run_behind<R: Threads>(
    rt: &R,
    alloc: Global,
    line: &str,
    settles: bool,
) -> Result<MemSink, Fail> {
    let mut bench = new_bench(rt, alloc)?;
    for index in 1..=69 {
        offer_line(&mut bench, alloc, index, line_at(index, line))?;
        if settles {
            bench.settle()?;
        }
    }
    bench.flush()?;
    let (_, _, sink) = bench.into_parts();
    Ok(sink)
}

/// The line with this number.
fn line_at(index: u64, last: &str) -> &str {
    match index {
        1 => FRONT[0],
        2 => FRONT[1],
        3 => FRONT[2],
        4 => FRONT[3],
        5 => CLUED,
        6 => NUMBERED,
        7..69 => PLAIN,
        _ => last,
    }
}

/// Offers the job of a line.
fn offer_line(
    bench: &mut Bench<MemDisk, MemSink>,
    alloc: Global,
    index: u64,
    line: &str,
) -> Result<(), CommitErr> {
    let item = prepare(alloc, &TagScheme, &bench.id(), index, line.as_bytes())?;
    bench.offer_item(item)
}
