//! Disks that are full, calls of a disk that fail where a ledger is made, and a disk that stops in a run.

use super::*;
use ledger_disk::{FuseDisk, Pick};

/// The status with which a ledger is made on disks of so much room, of which the first fails at
/// these calls. None where another line is told than that status has.
fn status_of_making<R: Threads + Wait + Sync>(
    rt: &R,
    alloc: Global,
    room: usize,
    fail_at: &[u64],
) -> Result<Option<u8>, NoMemory> {
    let mut a = MemDisk::new(alloc, room, fail_at.to_vec(alloc)?)?;
    let mut b = MemDisk::new(alloc, room, Vec::new(alloc))?;
    let (status, written) = run_on(rt, alloc, &INIT, b"", NO_FAULTS, &mut a, &mut b)?;
    let want = if status == 0 { TOLD } else { "fail 4 disk\n" };
    Ok(Some(status).filter(|_| written.as_slice() == want.as_bytes()))
}

// A new ledger takes 352 bytes.
#[test]
fn tells_full_disks(rt: HostRuntime) -> Result<(), Fail> {
    for (room, want) in [(0, 4), (351, 4), (352, 0)] {
        let status = status_of_making(&rt, rt.alloc(), room, &[])?;
        assert!(rt; status == Some(want), "at {room}");
    }
    Ok(())
}

// Where a call of a disk fails nothing is told of the ledger.
#[test]
fn tells_faults_of_disks(rt: HostRuntime) -> Result<(), Fail> {
    let mut failed = 0u32;
    for call in 0..30 {
        let status = status_of_making(&rt, rt.alloc(), AMPLE, &[call])?;
        assert!(rt; status == Some(4) || status == Some(0), "at {call}");
        if status == Some(4) {
            failed = failed.saturating_add(1);
        }
    }
    assert!(rt; 5 < failed && failed < 30);
    Ok(())
}

// A disk stops after so many calls: no receipt was written before the block stood, and what a crash leaves goes on.
#[test]
fn goes_on_where_a_disk_stopped(rt: HostRuntime) -> Result<(), Fail> {
    for (calls, told, size) in [(22, "fail 4 disk\n", "1"), (NEVER, RECEIPT, "2")] {
        let (is_told, a, b) = stopped(&rt, rt.alloc(), calls, told)?;
        let goes_on = has_size(&rt, rt.alloc(), &a, &b, size)?;
        assert!(rt; is_told && goes_on, "at {calls}");
    }
    Ok(())
}

/// Whether this ends what is written of a record where the first disk stops after so many calls, and both disks then.
fn stopped<R: Threads + Wait + Sync>(
    rt: &R,
    alloc: Global,
    calls: u64,
    told: &str,
) -> Result<(bool, MemDisk, MemDisk), NoMemory> {
    let mut a = FuseDisk::new(MemDisk::new(alloc, AMPLE, Vec::new(alloc))?, calls);
    let mut b = FuseDisk::new(MemDisk::new(alloc, AMPLE, Vec::new(alloc))?, NEVER);
    let script = EMPTY.as_bytes();
    let (_, written) = run_on(rt, alloc, &DEMO, script, NO_FAULTS, &mut a, &mut b)?;
    let is_told = written.as_slice().ends_with(told.as_bytes());
    Ok((is_told, a.into_inner(), b.into_inner()))
}

/// Whether the ledger has this size on what a crash leaves of these disks.
fn has_size<R: Threads + Wait + Sync>(
    rt: &R,
    alloc: Global,
    a: &MemDisk,
    b: &MemDisk,
    size: &str,
) -> Result<bool, NoMemory> {
    let mut a = a.crash(Pick::NoneWritten)?;
    let mut b = b.crash(Pick::AllWritten)?;
    let (status, head) = run_on(rt, alloc, &RUN, b"0 head\n", NO_FAULTS, &mut a, &mut b)?;
    let want = bytes_of(alloc, &["0.1 head ", ID, " ", size, " "])?;
    Ok(status == 0 && head.as_slice().starts_with(want.as_slice()))
}
