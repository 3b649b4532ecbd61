//! Notaries and clocks: times never fall, a stop leaves each entry that was told, and a failed stamp is made good.

use hex::FromHex;
use ledger_bytes::{Digest, NoMemory, Sha};
use ledger_disk::{Disk, FuseDisk, MemDisk, Pick};
use merkle_tree::Head;
use notary_ledger::{Clock, ListClock, LocalNotary, MemNotary, RealClock, SureNotary};
use std::alloc::Global;
use std::process::Abort;
use std::test::Fail;
use time_peg::{Notary, NotaryErr, peg_of};

const PEG: Digest = Digest([7; 32]);

fn digest(text: &str) -> Result<Digest, hex::FromHexError> {
    Ok(Digest(<[u8; 32]>::from_hex(text)?))
}

// The notary of a disk, with a clock of these moments.
fn reopened(
    alloc: Global,
    disk: MemDisk,
    moments: Vec<u64>,
) -> Result<LocalNotary<MemDisk, ListClock>, Fail> {
    let clock = ListClock::new(moments);
    match LocalNotary::reopen(alloc, disk, clock, Digest([0; 32])) {
        Ok(notary) => Ok(notary),
        Err((err, _)) => Err(Fail::from(err)),
    }
}

fn stamped_time<N: Notary>(alloc: Global, notary: &mut N) -> Result<u64, NotaryErr> {
    Ok(notary.stamp(alloc, &PEG)?.time)
}

fn stamped_times<N: Notary>(alloc: Global, notary: &mut N) -> Result<[u64; 3], NotaryErr> {
    Ok([
        stamped_time(alloc, notary)?,
        stamped_time(alloc, notary)?,
        stamped_time(alloc, notary)?,
    ])
}

// The head of a notary that stopped, and was opened again.
fn head_after_a_crash(
    alloc: Global,
    notary: LocalNotary<MemDisk, ListClock>,
) -> Result<Head, Fail> {
    let disk = notary.into_disk().crash(Pick::NoneWritten)?;
    Ok(reopened(alloc, disk, Vec::new(alloc))?.head()?)
}

// How many of three stamps answered Ok, of a notary on a disk that stops, and what is left of the disk.
fn stamped_until_a_stop(
    alloc: Global,
    disk: FuseDisk<MemDisk>,
) -> Result<(u64, MemDisk), NoMemory> {
    let clock = ListClock::new([1, 2, 3].to_vec(alloc)?);
    let mut notary = match LocalNotary::reopen(alloc, disk, clock, Digest([0; 32])) {
        Ok(notary) => notary,
        Err((_, disk)) => return Ok((0, disk.into_inner())),
    };
    let mut stamped = 0_u64;
    for _ in 0..3 {
        if stamped_time(alloc, &mut notary).is_ok() {
            stamped = stamped.saturating_add(1);
        }
    }
    Ok((stamped, notary.into_disk().into_inner()))
}

#[test]
fn times_never_fall(rt: HostRuntime) -> Result<(), Fail> {
    let alloc = rt.alloc();
    let root = digest("57ae8eeb95c71f024b6fc9f88f7b81d08e6a19df4ab9f34c71868883b7e8e0d0")?;
    let disk = MemDisk::new(alloc, 300, Vec::new(alloc))?;
    let mut notary = reopened(alloc, disk, [5000, 4000, 7000].to_vec(alloc)?)?;
    let times = stamped_times(alloc, &mut notary)?;
    let head = head_after_a_crash(alloc, notary)?;
    assert_eq!(rt; (times, head), ([5000, 5000, 7000], Head { size: 3, root }));
    Ok(())
}

// How many entries a notary has that is opened on what a crash left of this disk.
fn size_after(alloc: Global, disk: &MemDisk, pick: Pick) -> Result<u64, Fail> {
    let mut notary = reopened(alloc, disk.crash(pick)?, Vec::new(alloc))?;
    Ok(notary.head()?.size)
}

// How many of three stamps answered Ok on a disk that stops after so many calls, and how many entries are there where all that
// was written is left, nothing of it, and any bytes in its place.
fn stopped_after(alloc: Global, left: u64) -> Result<(u64, [u64; 3]), Fail> {
    let disk = MemDisk::new(alloc, 300, Vec::new(alloc))?;
    let (stamped, disk) = stamped_until_a_stop(alloc, FuseDisk::new(disk, left))?;
    let mut sizes = [0; 3];
    let picks = [Pick::AllWritten, Pick::NoneWritten, Pick::Torn(left)];
    for (size, pick) in sizes.iter_mut().zip(picks) {
        *size = size_after(alloc, &disk, pick)?;
    }
    Ok((stamped, sizes))
}

// Of the calls that a fuse counts a notary takes three to begin and five for each stamp. Where it stops behind the write of a gate, and what was written
// is left, the entry of the stamp that didn't answer is there.
#[test]
fn a_stop_leaves_each_entry_that_was_told(rt: HostRuntime) -> Result<(), Fail> {
    for left in 0..=18_u64 {
        let (stamped, sizes) = stopped_after(rt.alloc(), left)?;
        let [all, none, torn] = sizes;
        assert_eq!(rt; stamped, left.saturating_sub(3) / 5, "after {left}");
        assert_eq!(rt;
            (all, none),
            (left.saturating_sub(2) / 5, stamped),
            "after {left}"
        );
        assert!(rt; torn == stamped || torn == stamped.saturating_add(1));
    }
    Ok(())
}

#[test]
fn a_stamp_that_failed_is_made_good(rt: HostRuntime) -> Result<(), Fail> {
    let alloc = rt.alloc();
    // Call 8 is the first stamp's last, the sync behind its open gate.
    let disk = MemDisk::new(alloc, 300, [8].to_vec(alloc)?)?;
    let mut notary = reopened(alloc, disk, [1, 2].to_vec(alloc)?)?;
    stamp_twice(&rt, alloc, &mut notary)?;
    assert_eq!(rt; notary.into_disk().bytes()?.as_slice().len(), 74);
    Ok(())
}

// The first stamp fails, and the next one is the first that counts.
fn stamp_twice<N: Notary>(rt: &impl Abort, alloc: Global, notary: &mut N) -> Result<(), Fail> {
    let failed = stamped_time(alloc, notary);
    assert_eq!(rt; (failed, notary.head()?.size), (Err(NotaryErr::Failed), 0));
    let stamp = notary.stamp(alloc, &PEG)?;
    assert_eq!(rt; (stamp.index, stamp.time, notary.faults()), (0, 2, 1));
    Ok(())
}

// The first entry of a notary in memory, with the peg of a ledger of two journals.
#[test]
fn a_notary_in_memory_fails_where_it_is_told(rt: HostRuntime) -> Result<(), Fail> {
    let mut notary = MemNotary::new(rt.alloc(), [0].to_vec(rt.alloc())?);
    stamp_worked_peg(&rt, rt.alloc(), &mut notary)
}

fn stamp_worked_peg(rt: &impl Abort, alloc: Global, notary: &mut MemNotary) -> Result<(), Fail> {
    let id = digest("64915354a6547b1f887e596e872fd13b2abdc860729da9fe31180a81726cf4a2")?;
    let root = digest("89713d47487c9be9875bd8f6a471f021f10440bea34709c459dce3a170313951")?;
    let peg = peg_of::<Sha>(&id, 2, &root);
    let failed = stamped_time(alloc, notary);
    let stamp = notary.stamp(alloc, &peg)?;
    let salt = digest("8b3b30a051bca9ec8bacbfaf3a351389842d99f1769a4959994077e9ec8d8757")?;
    let root = digest("70f8401b84cf76c926c415bdf912718f30518dcb518d3493aad2f17ce92b2cd8")?;
    assert_eq!(rt;
        (failed, stamp.time, stamp.salt, notary.head()?),
        (Err(NotaryErr::Failed), 1000, salt, Head { size: 1, root })
    );
    Ok(())
}

#[test]
fn a_sure_notary_counts_thousands(rt: HostRuntime) -> Result<(), Fail> {
    let mut notary = SureNotary::new(rt.alloc());
    assert_eq!(rt; stamped_times(rt.alloc(), &mut notary)?, [1000, 2000, 3000]);
    Ok(())
}

// The clock of this system is past the year 2023.
#[test]
fn the_real_clock_tells_the_time(rt: HostRuntime) {
    let mut clock = RealClock::new(&rt);
    assert!(rt; clock.now_ms() > 1_704_067_200_000);
}
