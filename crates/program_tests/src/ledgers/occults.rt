//! A disk that stops in a session with two occults and one by clue: what each crash leaves, and what stands there once it is opened
//! again.

use super::erasing::{BlockEnd, PICKS, ROOM, size_told, stands_in};
use super::*;
use ledger_disk::{FuseDisk, Pick};

// The lines place journals 1 to 12: member 2, two of its records, the occults of both, a record of the operator, five more of
// the member's under the clue of its second, and the occult of that clue.
const SESSION: [&str; 12] = [
    "0 member 2 0303030303030303030303030303030303030303030303030303030303030303 \
    0101010101010101010101010101010101010101010101010101010101010101\
    6e2700604cd288e681c238fa71ae802ef173e93907477f0111a56a7be4890e8c\n",
    "0 append 2 inv 616263 0303030303030303030303030303030303030303030303030303030303030303\
    1c73656160873b10becb5d4a75a046056d790b17f79672513778ab540c22c6df\n",
    "0 append 2 c 78797a 0303030303030303030303030303030303030303030303030303030303030303\
    670bc87de87a4d2dc823d029fec29573459c8a94361e427a8df50ceffa0c5f65\n",
    "0 occult 2 d5bafe4ff5eb75d98a360fd0a779d19ac6abbd6e75a890c22a7d59c35f349099 \
    0:0101010101010101010101010101010101010101010101010101010101010101\
    e90cbb0138367a4957a7df2342d6e20b6c004dabd3ce9a7422a38647ebcf69cd,\
    1:0202020202020202020202020202020202020202020202020202020202020202\
    21844395d669c0f0d68fc9c363fae3522d0d440e0b8733a86f50666aca19d299\n",
    "0 occult 3 c8ea41864a0dae4ac5afade605db467793c0e935e42d1a542110476d805eb3fc \
    0:0101010101010101010101010101010101010101010101010101010101010101\
    318cf35121fd7fd8e01c57b9e38a2c55dfd42d1bdd1801b16fcbba9e04e45876,\
    1:0202020202020202020202020202020202020202020202020202020202020202\
    93d06fb16a7ad5b87c48201350c31b3dc0ee6125f23f5bb46539647aaf1c1550\n",
    EMPTY,
    "0 append 2 c 6b6c6d 0303030303030303030303030303030303030303030303030303030303030303\
    87a6c3b859e09c749123ee5a7cf6f7a54afb177f2931191d2361f644e31a064b\n",
    "0 append 2 c 6e6f70 0303030303030303030303030303030303030303030303030303030303030303\
    9e389fe6686d6e9e85398cf0f7afbf7cc089191b6e35b222c5bbfc12d613c494\n",
    "0 append 2 c 717273 0303030303030303030303030303030303030303030303030303030303030303\
    163e698bd9b54e4f3a15c199de7646bc026151ed7784b7dec6d9e46748b9ee42\n",
    "0 append 2 c 747576 0303030303030303030303030303030303030303030303030303030303030303\
    657d3b125c5e39e978ff559ad975de2e69c2312e1f23462f2284871859195beb\n",
    "0 append 2 c 777879 0303030303030303030303030303030303030303030303030303030303030303\
    18ed585f4a824283e561679f13f723c48a25c3bf15bd712f73b5709afc4ad9ed\n",
    "0 occultclue c 6 \
    0:0101010101010101010101010101010101010101010101010101010101010101\
    00ff483b0ae97e32682a5043fb30c203171af377c88ed3b8806212c727b59d91,\
    1:0202020202020202020202020202020202020202020202020202020202020202\
    31095bbe78e9102c4a85918cb183241e9171b7335f9b4c2139edbffb50fbdce8\n",
];

// The contents, and the numbers of the journals that hide them.
const HIDDEN: [(&str, usize); 7] = [
    ("abc", 4),
    ("xyz", 5),
    ("klm", 12),
    ("nop", 12),
    ("qrs", 12),
    ("tuv", 12),
    ("wxy", 12),
];

// What asks for these journals.
const GETS: &[u8] = b"0 get 1\n0 get 2\n0 get 3\n0 get 4\n0 get 5\n0 get 6\n\
    0 get 7\n0 get 8\n0 get 9\n0 get 10\n0 get 11\n0 get 12\n";

// The ends of the blocks.
const BLOCKS: [BlockEnd; 6] = [
    (1, "4 ", "no no no no no no no no no no no no "),
    (
        4,
        "ok ok ok 4 ",
        "whole whole whole no no no no no no no no no ",
    ),
    (
        5,
        "ok ok ok ok 4 ",
        "whole occulted whole whole no no no no no no no no ",
    ),
    (
        6,
        "ok ok ok ok ok 4 ",
        "whole occulted occulted whole whole no no no no no no no ",
    ),
    (
        12,
        "ok ok ok ok ok ok ok ok ok ok ok 4 ",
        "whole occulted occulted whole whole whole whole whole whole whole whole no ",
    ),
    (
        13,
        "ok ok ok ok ok ok ok ok ok ok ok ok ",
        "whole occulted occulted whole whole whole occulted occulted occulted occulted occulted whole ",
    ),
];

// How many calls of write, cut and sync the first disk takes in the session: two syncs where the ledger is opened, five calls
// for each of five blocks, and one for each of seven contents that are hidden, with a sync for each of three occults.
const CALLS: u64 = 37;

/// The size up to which receipts were written before the first disk stopped after so many calls, and the two disks.
fn stopped<R: Threads + Wait + Sync>(
    rt: &R,
    alloc: Global,
    calls: u64,
) -> Result<(Option<usize>, MemDisk, MemDisk), NoMemory> {
    let mut a = MemDisk::new(alloc, ROOM, Vec::new(alloc))?;
    let mut b = MemDisk::new(alloc, ROOM, Vec::new(alloc))?;
    run_on(rt, alloc, &INIT, b"", NO_FAULTS, &mut a, &mut b)?;
    let script = bytes_of(alloc, &SESSION)?;
    let mut a = FuseDisk::new(a, calls);
    let mut b = FuseDisk::new(b, NEVER);
    let (_, written) = run_on(rt, alloc, &RUN, &script, NO_FAULTS, &mut a, &mut b)?;
    let size = size_told(alloc, &BLOCKS, &written)?;
    Ok((size, a.into_inner(), b.into_inner()))
}

/// Whether no content stands on these disks that one of the first so many journals hides.
fn is_hidden(a: &MemDisk, b: &MemDisk, size: usize) -> Result<bool, NoMemory> {
    let (a, b) = (a.bytes()?, b.bytes()?);
    for (content, by) in &HIDDEN {
        let content = content.as_bytes();
        if *by < size && (stands_in(a.as_slice(), content) || stands_in(b.as_slice(), content)) {
            return Ok(false);
        }
    }
    Ok(true)
}

/// What comes of an image: the size that is told where the ledger is opened on it, whether what that many journals hide was
/// erased before, and whether it is erased for good from then on.
#[derive(Clone, Copy)]
struct Opening {
    size: usize,
    was_erased: bool,
    is_erased: bool,
}

fn reopened<R: Threads + Wait + Sync>(
    rt: &R,
    alloc: Global,
    a: &MemDisk,
    b: &MemDisk,
) -> Result<Opening, NoMemory> {
    let (mut new_a, mut new_b) = (a.crash(Pick::AllWritten)?, b.crash(Pick::AllWritten)?);
    let (_, replies) = run_on(rt, alloc, &RUN, GETS, NO_FAULTS, &mut new_a, &mut new_b)?;
    let size = size_told(alloc, &BLOCKS, &replies)?.unwrap_or_default();
    let (new_a, new_b) = (
        new_a.crash(Pick::NoneWritten)?,
        new_b.crash(Pick::NoneWritten)?,
    );
    Ok(Opening {
        size,
        was_erased: is_hidden(a, b, size)?,
        is_erased: is_hidden(&new_a, &new_b, size)?,
    })
}

/// Whether what a crash leaves of these disks opens as it must, and whether the opening erased what is hidden.
fn crashed<R: Threads + Wait + Sync>(
    rt: &R,
    alloc: Global,
    (a, b): (&MemDisk, &MemDisk),
    told: usize,
    pick: Pick,
) -> Result<(bool, bool), NoMemory> {
    let (a, b) = (a.crash(pick)?, b.crash(pick)?);
    let found = reopened(rt, alloc, &a, &b)?;
    let holds = is_hidden(&a, &b, told)? && told <= found.size && found.is_erased;
    Ok((holds, !found.was_erased))
}

// Each receipt that was written holds. What an occult hides is erased before its receipt is written, and where a crash came
// before that, when the ledger is opened.
#[test]
fn erases_before_the_receipt(rt: HostRuntime) -> Result<(), Fail> {
    let mut erased_late = false;
    for calls in 0..=CALLS {
        let (told, holds, late) = stopped_so(&rt, rt.alloc(), calls)?;
        assert_eq!(rt; (told == 13, holds), (calls == CALLS, true), "at {calls}");
        erased_late = erased_late || late;
    }
    assert!(rt; erased_late);
    Ok(())
}

/// The size up to which receipts were written in a session that is stopped, whether each image opens as it must, and whether an
/// opening erased what is hidden.
fn stopped_so<R: Threads + Wait + Sync>(
    rt: &R,
    alloc: Global,
    calls: u64,
) -> Result<(usize, bool, bool), NoMemory> {
    let (told, a, b) = stopped(rt, alloc, calls)?;
    let told = told.unwrap_or(usize::MAX);
    let (mut holds, mut erased_late) = (true, false);
    for pick in PICKS {
        let (is_so, late) = crashed(rt, alloc, (&a, &b), told, pick)?;
        holds = holds && is_so;
        erased_late = erased_late || late;
    }
    Ok((told, holds, erased_late))
}
