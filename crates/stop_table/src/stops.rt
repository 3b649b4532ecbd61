//! A stop at each call of each disk, in the script's run and in each opening behind it.

use crate::holding::{check, least_size, replies_in};
use crate::running::{Left, NEVER, Side, reopened, stopped};
use anyhow::{Context, Result};
use ledger_disk::{MemDisk, Pick};
use std::alloc::Global;
use std::sync::Wait;
use std::thread::Threads;

// The images of a crash.
const PICKS: [Pick; 3] = [Pick::AllWritten, Pick::NoneWritten, Pick::Torn(7)];

/// How many stops there were, how many images they left, and how many openings were stopped.
#[derive(Clone, Copy, Debug)]
pub(crate) struct Counts {
    pub(crate) stops: u64,
    pub(crate) images: u64,
    pub(crate) openings: u64,
}

/// Stops one of the disks after each number of calls, until the script's run is done.
pub(crate) fn stop_each<R: Threads + Wait + Sync>(
    rt: &R,
    alloc: Global,
    side: Side,
    counts: &mut Counts,
) -> Result<()> {
    for calls in 0..NEVER {
        let left = stopped(rt, alloc, side, calls)?;
        check_stop(rt, alloc, &left, counts)?;
        if left.told.status == 0 {
            break;
        }
        counts.stops = counts.stops.saturating_add(1);
    }
    Ok(())
}

// Looks at each image of what a run left.
fn check_stop<R: Threads + Wait + Sync>(
    rt: &R,
    alloc: Global,
    left: &Left,
    counts: &mut Counts,
) -> Result<()> {
    let last_line = match left.told.status {
        4 => "fail 4 disk\n",
        _ => "",
    };
    let replies = replies_in(&left.told.written, last_line).context("a reply is another")?;
    for pick in PICKS {
        let a = left.a.crash(pick)?;
        let b = left.b.crash(pick)?;
        check_image(rt, alloc, &a, &b, least_size(replies), counts)?;
    }
    Ok(())
}

// Opens an image, and stops its opening after each number of calls of each disk.
fn check_image<R: Threads + Wait + Sync>(
    rt: &R,
    alloc: Global,
    a: &MemDisk,
    b: &MemDisk,
    least: u64,
    counts: &mut Counts,
) -> Result<()> {
    counts.images = counts.images.saturating_add(1);
    settle(rt, alloc, a, b, least)?;
    for side in [Side::A, Side::B] {
        stop_openings(rt, alloc, a, b, side, least, counts)?;
    }
    Ok(())
}

// Stops the opening of an image after each number of calls of a disk, until it is done.
fn stop_openings<R: Threads + Wait + Sync>(
    rt: &R,
    alloc: Global,
    a: &MemDisk,
    b: &MemDisk,
    side: Side,
    least: u64,
    counts: &mut Counts,
) -> Result<()> {
    for calls in 0..NEVER {
        let (a, b) = (a.crash(Pick::AllWritten)?, b.crash(Pick::AllWritten)?);
        let left = reopened(rt, alloc, a, b, side, calls)?;
        if left.told.status != 4 {
            break;
        }
        counts.openings = counts.openings.saturating_add(1);
        for pick in PICKS {
            settle(rt, alloc, &left.a.crash(pick)?, &left.b.crash(pick)?, least)?;
        }
    }
    Ok(())
}

/// Opens what stands on these disks without a stop, and looks at it.
pub(crate) fn settle<R: Threads + Wait + Sync>(
    rt: &R,
    alloc: Global,
    a: &MemDisk,
    b: &MemDisk,
    least: u64,
) -> Result<()> {
    let (a, b) = (a.crash(Pick::AllWritten)?, b.crash(Pick::AllWritten)?);
    let left = reopened(rt, alloc, a, b, Side::A, NEVER)?;
    check(
        left.told.status,
        &left.told.written,
        left.a.bytes()?.as_slice(),
        left.b.bytes()?.as_slice(),
        least,
    )
}
