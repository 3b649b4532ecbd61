//! A new ledger has the worked bytes, a longer file is trimmed and one of version 1 carried over, also after a stop, and a clean
//! pair isn't written to.

use hex::FromHex;
use ledger_bytes::{Bytes, Digest};
use ledger_disk::{Disk, FuseDisk, MemDisk, Pick};
use ledger_model::{Genesis, Limits};
use ledger_open::{OpenErr, Opened, init, reopen};
use std::alloc::Global;
use std::process::Abort;
use std::test::Fail;
use std::thread::Threads;

// The file of a new ledger: no base, and one block of one journal with a content of 64 bytes.
const NEW: [&str; 8] = [
    "014c454447455244420200000000000000010000000000000000ca358758f6d27e6cf45272937977a748fd88391db679",
    "ceda7dc7bf1f005ee879000000000000010000000100000000000000f264915354a6547b1f887e596e872fd13b2abdc8",
    "60729da9fe31180a81726cf4a20100000000000000000000000000000000000000000000000000000000000000000000",
    "000000000000000000000000000000000000000000000000000000000000000000000000000000914cc74d53cd826148",
    "8272a6f032311caec3902f46b0b58cf98417cddf94e382000000402c66600c9d6ab5196b84e5fb389401569af0f4ebcf",
    "dac5ce763f4ec34c4c435f01ba4719c80b6fe911b091a7c05124b64eeece964e09c058ef8f9805daca546b0000000001",
    "010101010101010101010101010101010101010101010101010101010101010202020202020202020202020202020202",
    "02020202020202020202020202020200",
];

// The next block of such a ledger: a member and a record.
const BLOCK: [&str; 12] = [
    "0000000200000000000001f345244e5bba01692ff6f59b826791827e96e891465f758d139d92d81a53b478c501020000",
    "000000000001000000000000000000000000000000000000000000000000000000000000000000000000000000000000",
    "000000000000000000000000000200000000000000000303030303030303030303030303030303030303030303030303",
    "03030303030300000000dbc1b4c900ffe48d575b5da5c638040125f65db0fe3e24494b76ea986457d9869a1d89c119e6",
    "8e87a795259b07ebe8642015c93186b59ef124834ac79be9693d00000046000000000040010101010101010101010101",
    "01010101010101010101010101010101010101016e2700604cd288e681c238fa71ae802ef173e93907477f0111a56a7b",
    "e4890e8c01010000000000000002000000023536d837609504a8406dcb211cb403cb9290736cc3a94b2fa0601b2cd543",
    "e6da00000001000000000000000000000000000000000000000000000000c91e8e640e57e2e878b7b2840e07636c0753",
    "9496336fbcc57c40f1cc60c359fc00000003909ac45e439911193205994d09399c29fede977ab212605f29ead5250a81",
    "2e73c31de51580a8656b63f753ec142454bafa09b766de1b25b0ac75c128005d40cb0000004600000000000002004003",
    "030303030303030303030303030303030303030303030303030303030303031c73656160873b10becb5d4a75a046056d",
    "790b17f79672513778ab540c22c6df",
];

// The root of the first block, which is the ledger's id.
const ID: &str = "64915354a6547b1f887e596e872fd13b2abdc860729da9fe31180a81726cf4a2";

fn bytes_of(alloc: Global, text: &[&str]) -> Result<Vec<u8>, Fail> {
    let mut bytes = Vec::new(alloc);
    for line in text {
        bytes.extend_from_slice(&hex::decode(alloc, line)?)?;
    }
    Ok(bytes)
}

fn digest(text: &str) -> Result<Digest, hex::FromHexError> {
    Ok(Digest(<[u8; 32]>::from_hex(text)?))
}

/// A disk that holds these bytes for good.
fn disk_of(alloc: Global, bytes: &[u8]) -> Result<MemDisk, Fail> {
    let mut disk = MemDisk::new(alloc, 4096, Vec::new(alloc))?;
    disk.write(0, bytes)?;
    disk.sync()?;
    Ok(disk)
}

/// The file of a ledger of two blocks.
fn two_blocks(alloc: Global) -> Result<Vec<u8>, Fail> {
    let mut bytes = bytes_of(alloc, &NEW)?;
    bytes.pop();
    bytes.push(1)?;
    bytes.extend_from_slice(&bytes_of(alloc, &BLOCK)?)?;
    bytes.push(0)?;
    Ok(bytes)
}

fn demo(alloc: Global) -> Result<Genesis, Fail> {
    Ok(Genesis {
        name: Bytes::copy_of(alloc, b"demo")?,
        operator: Digest([1; 32]),
        regulator: Digest([2; 32]),
    })
}

/// The size of a ledger that is open.
fn size_of(opened: Result<Opened, OpenErr>) -> Result<u64, OpenErr> {
    match opened {
        Ok(opened) => Ok(opened.book.head().size),
        Err(e) => Err(e),
    }
}

/// The size of the ledger on these disks.
fn opened_size<R: Threads, D: Disk>(
    rt: &R,
    alloc: Global,
    a: &mut D,
    b: &mut D,
) -> Result<u64, OpenErr> {
    size_of(reopen(rt, alloc, a, b, Limits::real()))
}

#[test]
fn a_new_ledger_has_the_worked_bytes(rt: HostRuntime) -> Result<(), Fail> {
    let mut a = disk_of(rt.alloc(), &[0; 70])?;
    let mut b = disk_of(rt.alloc(), &[1, 2, 3])?;
    make_twice(&rt, rt.alloc(), &mut a, &mut b)?;
    let opened = reopen(&rt, rt.alloc(), &mut a, &mut b, Limits::real())?;
    has_one_journal(&rt, &opened)
}

/// The size of the ledger `demo`, where it is made on these disks.
fn made_size(
    alloc: Global,
    a: &mut MemDisk,
    b: &mut MemDisk,
) -> Result<Result<u64, OpenErr>, Fail> {
    let genesis = demo(alloc)?;
    Ok(size_of(init(alloc, a, b, &genesis, Limits::real())))
}

/// Makes the ledger, and no second time.
fn make_twice(
    rt: &impl Abort,
    alloc: Global,
    a: &mut MemDisk,
    b: &mut MemDisk,
) -> Result<(), Fail> {
    assert_eq!(rt; made_size(alloc, a, b)?, Ok(1));
    assert_eq!(rt; a.bytes()?.as_slice(), bytes_of(alloc, &NEW)?.as_slice());
    assert_eq!(rt; b.len(), Ok(0));
    assert_eq!(rt; made_size(alloc, a, b)?, Err(OpenErr::Exists));
    Ok(())
}

fn has_one_journal(rt: &impl Abort, opened: &Opened) -> Result<(), Fail> {
    assert_eq!(rt; opened.book.id(), digest(ID)?);
    assert_eq!(rt; opened.book.blocks(), 1);
    assert_eq!(rt; opened.places.as_slice().len(), 1);
    Ok(())
}

#[test]
fn a_longer_ledger_is_trimmed_and_the_other_file_emptied(rt: HostRuntime) -> Result<(), Fail> {
    let alloc = rt.alloc();
    let whole = two_blocks(alloc)?;
    for stop in 0..6 {
        let (opened, a, b) = open_longer(&rt, alloc, &whole, stop)?;
        let wanted = if stop < 3 {
            Err(OpenErr::DiskFault)
        } else {
            Ok(3)
        };
        assert_eq!(rt;
            (opened, opens_whole(&rt, alloc, &a, &b, &whole)?),
            (wanted, true),
            "at {stop}"
        );
    }
    Ok(())
}

/// The size where a ledger is opened behind whose file three bytes stand, and the disks then, which stop after so many calls.
fn open_longer<R: Threads>(
    rt: &R,
    alloc: Global,
    whole: &[u8],
    stop: u64,
) -> Result<(Result<u64, OpenErr>, MemDisk, MemDisk), Fail> {
    let mut longer = whole.to_vec(alloc)?;
    longer.extend_from_slice(&[1, 2, 3])?;
    let mut a = FuseDisk::new(disk_of(alloc, &[0, 9])?, stop);
    let mut b = FuseDisk::new(disk_of(alloc, &longer)?, stop);
    let opened = opened_size(rt, alloc, &mut a, &mut b);
    Ok((opened, a.into_inner(), b.into_inner()))
}

/// Whether the ledger opens on what a crash leaves of these disks: with three journals, one file empty and the other as it was.
fn opens_whole<R: Threads>(
    rt: &R,
    alloc: Global,
    a: &MemDisk,
    b: &MemDisk,
    whole: &[u8],
) -> Result<bool, Fail> {
    for pick in PICKS {
        let mut left_a = a.crash(pick)?;
        let mut left_b = b.crash(pick)?;
        let size = opened_size(rt, alloc, &mut left_a, &mut left_b);
        let is_so = size == Ok(3) && left_a.len() == Ok(0);
        if !is_so || left_b.bytes()?.as_slice() != whole {
            return Ok(false);
        }
    }
    Ok(true)
}

// What a crash may make of writes that weren't synced.
const PICKS: [Pick; 3] = [Pick::AllWritten, Pick::NoneWritten, Pick::Torn(1)];

// More calls than either disk gets where a ledger is carried over.
const CALLS: u64 = 24;

#[test]
fn a_ledger_of_version_1_is_carried_over_wherever_disks_stop(rt: HostRuntime) -> Result<(), Fail> {
    let alloc = rt.alloc();
    let (a, b) = (
        disk_of(alloc, &edition(alloc, 1, 1)?)?,
        disk_of(alloc, &[0])?,
    );
    let carried = edition(alloc, 2, 2)?;
    for stop in 0..CALLS {
        let (opened, a, b) = open_until(&rt, alloc, &a, &b, Pick::AllWritten, stop)?;
        let is_one = opened == Ok(3) || opened == Err(OpenErr::DiskFault);
        assert!(rt; is_one, "at {stop}");
        assert!(rt; stays_carried(&rt, alloc, &a, &b, &carried)?, "at {stop}");
    }
    Ok(())
}

/// The file of a ledger of two blocks, with this version and this generation.
fn edition(alloc: Global, version: u8, generation: u8) -> Result<Vec<u8>, Fail> {
    let mut bytes = Vec::new(alloc);
    for (at, byte) in two_blocks(alloc)?.iter().enumerate() {
        let byte = match at {
            9 => version,
            17 => generation,
            _ => *byte,
        };
        bytes.push(byte)?;
    }
    Ok(bytes)
}

/// The size where a ledger is opened on what a crash leaves of these disks, and the disks then, which stop after so many calls.
fn open_until<R: Threads>(
    rt: &R,
    alloc: Global,
    a: &MemDisk,
    b: &MemDisk,
    pick: Pick,
    stop: u64,
) -> Result<(Result<u64, OpenErr>, MemDisk, MemDisk), Fail> {
    let mut a = FuseDisk::new(a.crash(pick)?, stop);
    let mut b = FuseDisk::new(b.crash(pick)?, stop);
    let opened = opened_size(rt, alloc, &mut a, &mut b);
    Ok((opened, a.into_inner(), b.into_inner()))
}

/// Whether the ledger is carried over by the opening behind one that stops after any number of calls, whatever crashes leave
/// of these disks: the second file has these bytes then, and the first one is empty.
fn stays_carried<R: Threads>(
    rt: &R,
    alloc: Global,
    a: &MemDisk,
    b: &MemDisk,
    carried: &[u8],
) -> Result<bool, Fail> {
    for pick in PICKS {
        for stop in 0..CALLS {
            let (_, a, b) = open_until(rt, alloc, a, b, pick, stop)?;
            let (opened, mut a, b) = open_until(rt, alloc, &a, &b, pick, CALLS)?;
            let is_whole = opened == Ok(3) && a.len() == Ok(0);
            if !is_whole || b.bytes()?.as_slice() != carried {
                return Ok(false);
            }
        }
    }
    Ok(true)
}

// The open file's disk lets two syncs through and nothing else. To empty the other file takes a cut and a sync behind the
// first sync, one call more than its disk lets through.
#[test]
fn a_clean_pair_is_opened_without_a_write(rt: HostRuntime) -> Result<(), Fail> {
    let alloc = rt.alloc();
    let whole = two_blocks(alloc)?;
    let mut a = FuseDisk::new(disk_of(alloc, &whole)?, 2);
    let mut b = FuseDisk::new(disk_of(alloc, &[])?, 2);
    assert_eq!(rt; opened_size(&rt, alloc, &mut a, &mut b), Ok(3));
    Ok(())
}
