//! Runs of the program on disks in memory, which may stop or fail.

use crate::script::{DRY, RUN, SCRIPT};
use anyhow::Result;
use lane_work::{OpenGate, Tools};
use ledger_bytes::Bytes;
use ledger_cli::ledger_top;
use ledger_disk::{Disk, FuseDisk, MemDisk};
use ledger_io::{MemSink, MemSource};
use member_book::TagScheme;
use notary_ledger::MemNotary;
use std::alloc::Global;
use std::sync::Wait;
use std::thread::Threads;

// More room than any of these runs takes, and a call that none of them makes.
const ROOM: usize = 16_384;

pub(crate) const NEVER: u64 = u64::MAX;

/// One of the two files.
#[derive(Clone, Copy, Debug, PartialEq, Eq)]
pub(crate) enum Side {
    A,
    B,
}

/// The calls that fail, by their numbers: a read of the source, a write of the sink, a call of each disk, and a stamp.
#[derive(Clone, Copy, Debug)]
pub(crate) struct Fails {
    pub(crate) read: u64,
    pub(crate) write: u64,
    pub(crate) a: u64,
    pub(crate) b: u64,
    pub(crate) stamp: u64,
}

pub(crate) const NONE: Fails = Fails {
    read: NEVER,
    write: NEVER,
    a: NEVER,
    b: NEVER,
    stamp: NEVER,
};

/// What a run told: its status, and what it wrote.
#[derive(Drop)]
pub(crate) struct Told {
    pub(crate) status: u8,
    pub(crate) written: Vec<u8>,
}

/// What a run told, and what it left of both disks.
#[derive(Drop)]
pub(crate) struct Left {
    pub(crate) told: Told,
    pub(crate) a: MemDisk,
    pub(crate) b: MemDisk,
}

// A run with these words and this script.
fn run_on<R: Threads + Wait + Sync, D: Disk>(
    rt: &R,
    alloc: Global,
    words: &[&str],
    script: &str,
    fails: Fails,
    a: &mut D,
    b: &mut D,
) -> Result<Told> {
    let mut given = Vec::new(alloc);
    for word in words {
        given.push(String::from_str(alloc, word)?)?;
    }
    let script = Bytes::copy_of(alloc, script.as_bytes())?;
    let mut source = MemSource::new(script, [fails.read].to_vec(alloc)?);
    let mut sink = MemSink::new(alloc, ROOM, [fails.write].to_vec(alloc)?)?;
    let mut notary = MemNotary::new(alloc, [fails.stamp].to_vec(alloc)?);
    let tools = Tools {
        rt,
        alloc,
        verifier: &TagScheme,
        gate: &OpenGate,
    };
    let status = ledger_top(&tools, &given, &mut source, &mut sink, a, b, &mut notary);
    Ok(Told {
        status,
        written: sink.written().to_vec(alloc)?,
    })
}

/// The script's run where these calls fail.
pub(crate) fn failed<R: Threads + Wait + Sync>(
    rt: &R,
    alloc: Global,
    fails: Fails,
) -> Result<Left> {
    let mut a = MemDisk::new(alloc, ROOM, [fails.a].to_vec(alloc)?)?;
    let mut b = MemDisk::new(alloc, ROOM, [fails.b].to_vec(alloc)?)?;
    let told = run_on(rt, alloc, &DRY, SCRIPT, fails, &mut a, &mut b)?;
    Ok(Left { told, a, b })
}

/// The script's run where one of the disks stops after so many calls.
pub(crate) fn stopped<R: Threads + Wait + Sync>(
    rt: &R,
    alloc: Global,
    side: Side,
    calls: u64,
) -> Result<Left> {
    let a = MemDisk::new(alloc, ROOM, Vec::new(alloc))?;
    let b = MemDisk::new(alloc, ROOM, Vec::new(alloc))?;
    fused(rt, alloc, &DRY, SCRIPT, a, b, fuses(side, calls))
}

/// Opening what stands on these disks, and asking for the head, where one of them stops after so many calls.
pub(crate) fn reopened<R: Threads + Wait + Sync>(
    rt: &R,
    alloc: Global,
    a: MemDisk,
    b: MemDisk,
    side: Side,
    calls: u64,
) -> Result<Left> {
    fused(rt, alloc, &RUN, "0 head\n", a, b, fuses(side, calls))
}

// After how many calls each disk stops.
fn fuses(side: Side, calls: u64) -> (u64, u64) {
    match side {
        Side::A => (calls, NEVER),
        Side::B => (NEVER, calls),
    }
}

// A run on disks that stop.
fn fused<R: Threads + Wait + Sync>(
    rt: &R,
    alloc: Global,
    words: &[&str],
    script: &str,
    a: MemDisk,
    b: MemDisk,
    fuses: (u64, u64),
) -> Result<Left> {
    let mut a = FuseDisk::new(a, fuses.0);
    let mut b = FuseDisk::new(b, fuses.1);
    let told = run_on(rt, alloc, words, script, NONE, &mut a, &mut b)?;
    Ok(Left {
        told,
        a: a.into_inner(),
        b: b.into_inner(),
    })
}
