//! A copy takes over from the open file, and a stop at each call leaves the old file or the new one open.

ghost use Rattle.std.specs.Prelude.{◌+◌, ◌≤◌, IsSomeAnd};
ghost use Rattle.twin_file.specs.Twin.{open_of};
ghost use Rattle.twin_file.specs.Which.{in_a_of};

use block_file::FileErr;
use ledger_bytes::Bytes;
use ledger_disk::{Disk, FuseDisk, MemDisk, Pick};
use std::alloc::Global;
use std::process::Abort;
use std::test::Fail;
use twin_file::Twin;

const PICKS: [Pick; 3] = [Pick::AllWritten, Pick::NoneWritten, Pick::Torn(1)];

// A range of the open file takes over behind a new base.
fn take_over<D: Disk>(
    twin: &mut Twin,
    a: &mut D,
    b: &mut D,
    base: &[u8],
    at: u64,
    len: u64,
) -> Result<(), FileErr>
    requires { IsSomeAnd (open_of (in_a_of twin.old) (D.state a.old).told (D.state b.old).told)
        (λ n. at + len ≤ n) }
{
    twin.begin_copy(a, b, base)?;
    twin.copy_block(a, b, at, len)?;
    twin.switch(a, b)?;
    twin.wipe(a, b)
}

// Whether a crash leaves the first file open.
fn file_after(
    a: &MemDisk,
    b: &MemDisk,
    pick_a: Pick,
    pick_b: Pick,
) -> Result<Result<Option<bool>, FileErr>, Fail> {
    let mut a = a.crash(pick_a)?;
    let mut b = b.crash(pick_b)?;
    Ok(Twin::reopen(&mut a, &mut b).map(|found| found.map(|twin| twin.in_a())))
}

// How many calls of write, cut and sync the copy takes. The last two write its gate and sync it.
const COPY_CALLS: u64 = 17;

// How many the wipe of the old file takes.
const WIPE_CALLS: u64 = 2;

#[test]
fn a_stop_leaves_the_old_file_or_the_new_one(rt: HostRuntime) -> Result<(), Fail> {
    for stop in 0..=COPY_CALLS + WIPE_CALLS {
        let (is_done, a, b) = take_over_until(rt.alloc(), stop)?;
        let found = opens(&a, &b, stop)?;
        assert!(rt; is_done == (stop > COPY_CALLS) && found, "at {stop}");
    }
    Ok(())
}

// Two disks of a file that is taken over, of which the second stops after so many calls, and the first after as many as the copy
// leaves of them and one. Tells whether all was done.
fn take_over_until(alloc: Global, stop: u64) -> Result<(bool, MemDisk, MemDisk), Fail> {
    let mut a = MemDisk::new(alloc, 100, Vec::new(alloc))?;
    let mut b = MemDisk::new(alloc, 100, Vec::new(alloc))?;
    let mut twin = Twin::make(&mut a, &mut b, &[7, 8, 9])?;
    let mut a = FuseDisk::new(a, stop.saturating_sub(COPY_CALLS).saturating_add(1));
    let mut b = FuseDisk::new(b, stop);
    let done = take_over(&mut twin, &mut a, &mut b, &[5], 64, 4);
    Ok((done.is_ok(), a.into_inner(), b.into_inner()))
}

// Whether one of the two files is open in each image: the old one until the copy's gate is written, and the new one from then on,
// but where that isn't synced yet.
fn opens(a: &MemDisk, b: &MemDisk, stop: u64) -> Result<bool, Fail> {
    for pick_a in PICKS {
        for pick_b in PICKS {
            let found = file_after(a, b, pick_a, pick_b)?;
            let is_old = found == Ok(Some(true));
            let is_new = found == Ok(Some(false));
            let is_so = (is_old && stop < COPY_CALLS) || (is_new && stop >= COPY_CALLS - 1);
            if !is_so {
                return Ok(false);
            }
        }
    }
    Ok(true)
}

// SHA-256 of the bytes 07 and 05.
const BASE_DIGEST: [u8; 32] = [
    251, 197, 188, 50, 128, 93, 41, 248, 21, 0, 4, 151, 130, 11, 143, 92, 97, 61, 175, 41, 110,
    250, 46, 0, 250, 168, 217, 227, 113, 9, 198, 85,
];

#[test]
fn a_copy_takes_over(rt: HostRuntime) -> Result<(), Fail> {
    let mut a = MemDisk::new(rt.alloc(), 100, Vec::new(rt.alloc()))?;
    let mut b = MemDisk::new(rt.alloc(), 100, Vec::new(rt.alloc()))?;
    copy_and_take_over(&rt, &mut a, &mut b)?;
    is_copied(&rt, rt.alloc(), &b.bytes()?)
}

fn copy_and_take_over(rt: &impl Abort, a: &mut MemDisk, b: &mut MemDisk) -> Result<(), Fail> {
    let mut twin = Twin::make(a, b, &[7, 8, 9])?;
    assert_eq!(rt; twin.file().tail(), 68);
    take_over(&mut twin, a, b, &[5], 64, 4)?;
    let told = (twin.in_a(), twin.generation(), twin.version());
    assert_eq!(rt; told, (false, 2, 2));
    assert_eq!(rt; twin.file().tail(), 69);
    assert_eq!(rt; a.len(), Ok(0));
    Ok(())
}

fn is_copied(rt: &impl Abort, alloc: Global, copy: &Bytes) -> Result<(), Fail> {
    let mut want = b"\x01LEDGERDB\x02\0\0\0\0\0\0\0\x02\0\0\0\0\0\0\0\x01".to_vec(alloc)?;
    want.extend_from_slice(&BASE_DIGEST)?;
    want.extend_from_slice(&[0, 0, 0, 0, 0, 0, 5, 1, 7, 8, 9, 0])?;
    assert_eq!(rt; copy.as_slice(), want.as_slice());
    Ok(())
}
