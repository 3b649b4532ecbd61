//! Disks that stop in a session with a purge: what each crash leaves, and what stands there once it is opened again, wherever
//! that is stopped too.

use super::erasing::{BlockEnd, PICKS, ROOM, size_told, stands_in};
use super::*;
use ledger_disk::{FuseDisk, Pick};

// The lines place journals 1 to 7: member 2, two of its records, an anchor, a record of the operator, the purge of all in front
// of the anchor, and a record of the operator.
const SESSION: [&str; 7] = [
    "0 member 2 0303030303030303030303030303030303030303030303030303030303030303 \
    0101010101010101010101010101010101010101010101010101010101010101\
    6e2700604cd288e681c238fa71ae802ef173e93907477f0111a56a7be4890e8c\n",
    "0 append 2 inv 616263 0303030303030303030303030303030303030303030303030303030303030303\
    1c73656160873b10becb5d4a75a046056d790b17f79672513778ab540c22c6df\n",
    "0 append 2 c 78797a 0303030303030303030303030303030303030303030303030303030303030303\
    670bc87de87a4d2dc823d029fec29573459c8a94361e427a8df50ceffa0c5f65\n",
    "0 anchor\n",
    EMPTY,
    "0 purge 4 9b09a5042286cffaec35a9716332d05f6c96c4d87600453e41b5226f5a7c53f1 \
    0:0101010101010101010101010101010101010101010101010101010101010101\
    138ffcfaa9be62c97587f34427973b1a888d5111ae9d95a18751d77c8d669331,\
    2:0303030303030303030303030303030303030303030303030303030303030303\
    c109e620dc5656bbf48b19ac761e6880b811472968782d872a31116588c48354\n",
    EMPTY,
];

// The contents that the purge takes, and the size of the ledger with its journal.
const TAKEN: [&str; 2] = ["abc", "xyz"];

const PURGED: usize = 7;

// What asks for these journals.
const GETS: &[u8] = b"0 get 1\n0 get 2\n0 get 3\n0 get 4\n0 get 5\n0 get 6\n0 get 7\n";

// The ends of the blocks.
const BLOCKS: [BlockEnd; 6] = [
    (1, "4 ", "no no no no no no no "),
    (4, "ok ok ok 4 ", "whole whole whole no no no no "),
    (5, "ok ok ok ok 4 ", "whole whole whole whole no no no "),
    (
        6,
        "ok ok ok ok ok 4 ",
        "whole whole whole whole whole no no ",
    ),
    (7, "ok ok ok ok ok ok 4 ", "no no no whole whole whole no "),
    (
        8,
        "ok ok ok ok ok ok ok ",
        "no no no whole whole whole whole ",
    ),
];

// More calls of write, cut and sync than either disk takes in the session, or where the ledger is opened.
const CALLS: u64 = 30;

/// The size up to which receipts were written, and the two disks, where each stops after so many calls.
fn stopped<R: Threads + Wait + Sync>(
    rt: &R,
    alloc: Global,
    calls: (u64, u64),
) -> Result<(usize, MemDisk, MemDisk), NoMemory> {
    let mut a = MemDisk::new(alloc, ROOM, Vec::new(alloc))?;
    let mut b = MemDisk::new(alloc, ROOM, Vec::new(alloc))?;
    run_on(rt, alloc, &INIT, b"", NO_FAULTS, &mut a, &mut b)?;
    let script = bytes_of(alloc, &SESSION)?;
    let mut a = FuseDisk::new(a, calls.0);
    let mut b = FuseDisk::new(b, calls.1);
    let (_, written) = run_on(rt, alloc, &RUN, &script, NO_FAULTS, &mut a, &mut b)?;
    let size = size_told(alloc, &BLOCKS, &written)?.unwrap_or(usize::MAX);
    Ok((size, a.into_inner(), b.into_inner()))
}

/// Whether nothing that the purge takes stands on these disks, and one of them is empty.
fn is_gone(a: &MemDisk, b: &MemDisk) -> Result<bool, NoMemory> {
    let (a, b) = (a.bytes()?, b.bytes()?);
    for content in &TAKEN {
        let content = content.as_bytes();
        if stands_in(a.as_slice(), content) || stands_in(b.as_slice(), content) {
            return Ok(false);
        }
    }
    Ok(a.as_slice().is_empty() || b.as_slice().is_empty())
}

/// The size that is told where the ledger is opened on these disks, and what they hold for good from then on.
fn reopened<R: Threads + Wait + Sync>(
    rt: &R,
    alloc: Global,
    a: &MemDisk,
    b: &MemDisk,
) -> Result<(usize, MemDisk, MemDisk), NoMemory> {
    let (mut a, mut b) = (a.crash(Pick::AllWritten)?, b.crash(Pick::AllWritten)?);
    let (_, replies) = run_on(rt, alloc, &RUN, GETS, NO_FAULTS, &mut a, &mut b)?;
    let size = size_told(alloc, &BLOCKS, &replies)?.unwrap_or_default();
    Ok((
        size,
        a.crash(Pick::NoneWritten)?,
        b.crash(Pick::NoneWritten)?,
    ))
}

/// What a crash leaves where opening the ledger on these disks is stopped after so many calls of each.
fn stopped_opening<R: Threads + Wait + Sync>(
    rt: &R,
    alloc: Global,
    a: &MemDisk,
    b: &MemDisk,
    calls: (u64, u64),
) -> Result<(MemDisk, MemDisk), NoMemory> {
    let mut a = FuseDisk::new(a.crash(Pick::AllWritten)?, calls.0);
    let mut b = FuseDisk::new(b.crash(Pick::AllWritten)?, calls.1);
    run_on(rt, alloc, &RUN, b"", NO_FAULTS, &mut a, &mut b)?;
    torn(&a.into_inner(), &b.into_inner())
}

fn torn(a: &MemDisk, b: &MemDisk) -> Result<(MemDisk, MemDisk), NoMemory> {
    Ok((a.crash(Pick::Torn(1))?, b.crash(Pick::Torn(1))?))
}

// Each receipt that was written holds. What the purge takes is gone before its receipt is written, and where a crash came
// before that, once the ledger is opened; wherever that is stopped too, it opens with the same journals.
#[test]
fn gives_up_before_the_receipt(rt: HostRuntime) -> Result<(), Fail> {
    let (mut whole, mut undone) = (false, false);
    for at in 0..CALLS {
        for calls in [(at, NEVER), (NEVER, at)] {
            let found = outcome_of(&rt, rt.alloc(), calls)?;
            assert!(rt; found.holds, "at {calls:?}");
            whole = whole || found.is_whole;
            undone = undone || found.is_undone;
        }
    }
    assert!(rt; whole && undone);
    Ok(())
}

/// What comes of a session that is stopped: whether each image opens as it must, whether all receipts were written, and whether an
/// opening finished the purge.
#[derive(Clone, Copy)]
struct Outcome {
    holds: bool,
    is_whole: bool,
    is_undone: bool,
}

fn outcome_of<R: Threads + Wait + Sync>(
    rt: &R,
    alloc: Global,
    calls: (u64, u64),
) -> Result<Outcome, NoMemory> {
    let (told, a, b) = stopped(rt, alloc, calls)?;
    let mut found = Outcome {
        holds: true,
        is_whole: told == 8,
        is_undone: false,
    };
    for pick in PICKS {
        let (holds, late) = crashed(rt, alloc, (&a, &b), told, pick)?;
        found.holds = found.holds && holds;
        found.is_undone = found.is_undone || late;
    }
    Ok(found)
}

/// What comes of an image: the size that is told where the ledger is opened on it, whether what the purge takes was gone
/// before, and whether it is gone for good from then on.
#[derive(Clone, Copy)]
struct Opening {
    size: usize,
    was_gone: bool,
    is_gone: bool,
}

fn opened<R: Threads + Wait + Sync>(
    rt: &R,
    alloc: Global,
    a: &MemDisk,
    b: &MemDisk,
) -> Result<Opening, NoMemory> {
    let (size, new_a, new_b) = reopened(rt, alloc, a, b)?;
    Ok(Opening {
        size,
        was_gone: is_gone(a, b)?,
        is_gone: is_gone(&new_a, &new_b)?,
    })
}

/// Whether what a crash leaves of these disks opens as it must, and whether the opening finished the purge.
fn crashed<R: Threads + Wait + Sync>(
    rt: &R,
    alloc: Global,
    (a, b): (&MemDisk, &MemDisk),
    told: usize,
    pick: Pick,
) -> Result<(bool, bool), NoMemory> {
    let (a, b) = (a.crash(pick)?, b.crash(pick)?);
    let found = opened(rt, alloc, &a, &b)?;
    let holds = told <= found.size
        && (told < PURGED || found.was_gone)
        && (found.size < PURGED || found.is_gone);
    let late = found.size >= PURGED && !found.was_gone && matches!(pick, Pick::Torn(_));
    let alike = !late || opens_alike(rt, alloc, &a, &b, found.size)?;
    Ok((holds && alike, late))
}

/// Whether the ledger opens with this size, and what its purge takes is gone, wherever an opening before that is stopped.
fn opens_alike<R: Threads + Wait + Sync>(
    rt: &R,
    alloc: Global,
    a: &MemDisk,
    b: &MemDisk,
    size: usize,
) -> Result<bool, NoMemory> {
    for at in 0..CALLS {
        for calls in [(at, NEVER), (NEVER, at)] {
            let (a, b) = stopped_opening(rt, alloc, a, b, calls)?;
            let (found, a, b) = reopened(rt, alloc, &a, &b)?;
            if found != size || !is_gone(&a, &b)? {
                return Ok(false);
            }
        }
    }
    Ok(true)
}
