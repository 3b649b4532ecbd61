//! One failing call at a time, in the script's run: of the source, the sink, each disk, and the notary.

use crate::holding::{least_size, replies_in};
use crate::running::{Fails, Left, NEVER, NONE, failed};
use crate::script::REPLIES;
use crate::stops::settle;
use anyhow::{Context, Result, ensure};
use ledger_disk::Pick;
use std::alloc::Global;
use std::sync::Wait;
use std::thread::Threads;

/// Which kind of call fails.
#[derive(Clone, Copy, Debug, PartialEq, Eq)]
pub(crate) enum Failing {
    Read,
    Write,
    DiskA,
    DiskB,
    Stamp,
}

impl Failing {
    // The plan in which the call with this number fails.
    fn fails(self, call: u64) -> Fails {
        match self {
            Failing::Read => Fails { read: call, ..NONE },
            Failing::Write => Fails {
                write: call,
                ..NONE
            },
            Failing::DiskA => Fails { a: call, ..NONE },
            Failing::DiskB => Fails { b: call, ..NONE },
            Failing::Stamp => Fails {
                stamp: call,
                ..NONE
            },
        }
    }

    // The status with which a run ends where such a call fails, and its last line.
    fn ending(self) -> (u8, &'static str) {
        match self {
            Failing::Read => (2, "fail 2 read\n"),
            Failing::Write => (3, ""),
            Failing::DiskA | Failing::DiskB => (4, "fail 4 disk\n"),
            Failing::Stamp => (0, ""),
        }
    }
}

/// Fails each call of a kind in turn, until the run makes no further one, and tells how many there were.
pub(crate) fn fail_each<R: Threads + Wait + Sync>(
    rt: &R,
    alloc: Global,
    failing: Failing,
) -> Result<u64> {
    for call in 0..NEVER {
        let left = failed(rt, alloc, failing.fails(call))?;
        if is_whole(&left) {
            return Ok(call);
        }
        check_fault(&left, failing)?;
        check_images(rt, alloc, &left, failing)?;
    }
    Ok(NEVER)
}

// Whether each line has the reply that it has where no call fails.
fn is_whole(left: &Left) -> bool {
    left.told.status == 0 && replies_in(&left.told.written, "") == Some(REPLIES.len())
}

// The status is that of the failing call, and no reply is another, up to the anchor where the stamp fails.
fn check_fault(left: &Left, failing: Failing) -> Result<()> {
    let (status, last_line) = failing.ending();
    ensure!(left.told.status == status, "another status");
    if failing == Failing::Stamp {
        return check_stamp(&left.told.written);
    }
    replies_in(&left.told.written, last_line).context("a reply is another")?;
    Ok(())
}

// The replies in front of the anchor are the same, and the anchor is refused.
fn check_stamp(written: &[u8]) -> Result<()> {
    let mut rest = written;
    for reply in REPLIES.iter().take(3) {
        rest = rest
            .strip_prefix(reply.as_bytes())
            .context("a reply is another")?;
    }
    ensure!(rest.starts_with(b"0.4 no 27\n"), "the anchor isn't refused");
    Ok(())
}

// What a crash leaves behind a fault has each journal of which a receipt was written. Behind an anchor that was refused the journals
// are others, so nothing is looked at there.
fn check_images<R: Threads + Wait + Sync>(
    rt: &R,
    alloc: Global,
    left: &Left,
    failing: Failing,
) -> Result<()> {
    if failing == Failing::Stamp {
        return Ok(());
    }
    let (_, last_line) = failing.ending();
    let replies = replies_in(&left.told.written, last_line).context("a reply is another")?;
    for pick in [Pick::AllWritten, Pick::NoneWritten, Pick::Torn(7)] {
        let a = left.a.crash(pick)?;
        let b = left.b.crash(pick)?;
        settle(rt, alloc, &a, &b, least_size(replies))?;
    }
    Ok(())
}
