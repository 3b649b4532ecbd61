//! Disks in memory, behind a fuse and over a file: what a crash leaves of them, and which failures they count.

use ledger_bytes::{Bytes, Failed};
use ledger_disk::{Disk, FileDisk, FuseDisk, MemDisk, Pick};
use std::alloc::Global;
use std::fs;
use std::test::Fail;

// The first draws of the generator modulo 256, by its seed.
const DRAWS: [(u64, [u8; 20]); 2] = [
    (
        1,
        [
            214, 89, 204, 230, 90, 243, 154, 246, 41, 186, 251, 242, 124, 32, 186, 12, 26, 31, 212,
            53,
        ],
    ),
    (
        0,
        [
            191, 8, 17, 116, 109, 155, 184, 199, 224, 155, 79, 210, 6, 61, 52, 30, 73, 18, 155, 35,
        ],
    ),
];

// What a torn write of 20 bytes leaves.
fn torn(alloc: Global, seed: u64) -> Result<Bytes, Fail> {
    let mut disk = MemDisk::new(alloc, 20, Vec::new(alloc))?;
    disk.write(0, &[7; 20])?;
    Ok(disk.crash(Pick::Torn(seed))?.bytes()?)
}

#[test]
fn torn_bytes_are_drawn(rt: HostRuntime) -> Result<(), Fail> {
    for (seed, draws) in DRAWS {
        let image = torn(rt.alloc(), seed)?;
        assert_eq!(rt; image.as_slice(), draws.as_slice());
    }
    Ok(())
}

// A disk on which bytes 2 to 5 were written or cut off since the last sync.
fn half_synced(alloc: Global) -> Result<MemDisk, Fail> {
    let mut disk = MemDisk::new(alloc, 8, Vec::new(alloc))?;
    disk.write(0, b"abcdef")?;
    disk.sync()?;
    disk.write(2, b"XY")?;
    disk.cut(4)?;
    disk.write(4, b"Z")?;
    Ok(disk)
}

fn image_of(disk: &MemDisk, pick: Pick) -> Result<Bytes, Fail> {
    Ok(disk.crash(pick)?.bytes()?)
}

#[test]
fn a_crash_leaves_an_image(rt: HostRuntime) -> Result<(), Fail> {
    let rows: [(Pick, &[u8]); 3] = [
        (Pick::AllWritten, b"abXYZ"),
        (Pick::NoneWritten, b"abcdef"),
        (Pick::Torn(1), b"ab\xd6\x59\xccf"),
    ];
    for (pick, want) in rows {
        let mut disk = half_synced(rt.alloc())?;
        let before = image_of(&disk, pick)?;
        disk.sync()?;
        let after = image_of(&disk, pick)?;
        assert_eq!(rt; before.as_slice(), want, "at {pick:?}");
        assert_eq!(rt; after.as_slice(), b"abXYZ".as_slice(), "at {pick:?}");
    }
    Ok(())
}

#[test]
fn a_disk_in_memory_counts_its_failures(rt: HostRuntime) -> Result<(), Fail> {
    let mut disk = MemDisk::new(rt.alloc(), 4, [1].to_vec(rt.alloc())?)?;
    let mut piece = [0; 3];
    assert_eq!(rt;
        (
            disk.write(0, b"ab"),
            disk.write(0, b"cd"),
            disk.write(0, b"cdefg"),
            disk.read(1, &mut piece),
            disk.faults()
        ),
        (Ok(()), Err(Failed), Err(Failed), Ok(1), 2)
    );
    for _ in 1..4096 {
        let _ = disk.write(0, b"");
    }
    assert_eq!(rt;
        (
            disk.write(0, b""),
            disk.sync(),
            disk.write(0, b"cdef"),
            disk.len(),
            disk.faults()
        ),
        (Err(Failed), Ok(()), Ok(()), Ok(4), 3)
    );
    Ok(())
}

#[test]
fn a_byte_is_changed_for_good(rt: HostRuntime) -> Result<(), Fail> {
    let mut disk = MemDisk::new(rt.alloc(), 4, Vec::new(rt.alloc()))?;
    disk.write(0, b"ab")?;
    disk.sync()?;
    disk.set_byte(1, b'c');
    let image = image_of(&disk, Pick::NoneWritten)?;
    assert_eq!(rt; image.as_slice(), b"ac".as_slice());
    Ok(())
}

// The failures of a disk that so many calls get through to, and what it holds then.
fn stopped_after(alloc: Global, left: u64) -> Result<(u64, Bytes), Fail> {
    let disk = MemDisk::new(alloc, 4, Vec::new(alloc))?;
    let mut fuse = FuseDisk::new(disk, left);
    let _ = fuse.write(0, b"ab");
    let _ = fuse.sync();
    let length = fuse.len().unwrap_or(0);
    let _ = fuse.cut(length.min(1));
    let _ = fuse.sync();
    Ok((fuse.faults(), fuse.into_inner().bytes()?))
}

#[test]
fn a_fuse_stops(rt: HostRuntime) -> Result<(), Fail> {
    let rows: [(u64, u64, &[u8]); 5] = [
        (0, 5, b""),
        (1, 4, b"ab"),
        (2, 3, b"ab"),
        (3, 1, b"a"),
        (4, 0, b"a"),
    ];
    for (left, faults, want) in rows {
        let (counted, bytes) = stopped_after(rt.alloc(), left)?;
        assert_eq!(rt; (counted, bytes.as_slice()), (faults, want), "at {left}");
    }
    Ok(())
}

#[test]
fn a_file_is_a_disk(rt: HostRuntime) -> Result<(), Fail> {
    let path = "ledger_disk_test/file";
    let _ = fs::remove_dir_all(&rt, "ledger_disk_test");
    fs::create_dir(&rt, "ledger_disk_test")?;
    let mut disk = FileDisk::at(&rt, rt.alloc(), path)?;
    let before = (fs::metadata(&rt, path).is_ok(), disk.len());
    disk.write(0, b"abcdef")?;
    let mut piece = [0; 5];
    let read = disk.read(2, &mut piece);
    disk.cut(3)?;
    disk.sync()?;
    assert_eq!(rt; (before, read), ((false, Ok(0)), Ok(4)));
    let kept = fs::read(&rt, path)?;
    assert_eq!(rt;
        (piece.as_slice(), kept.as_slice()),
        (b"cdef\0".as_slice(), b"abc".as_slice())
    );

    // The file is locked.
    let mut other = FileDisk::at(&rt, rt.alloc(), path)?;
    let told = other.len();
    // A file that gives fewer bytes than it had.
    fs::write(&rt, path, b"a")?;
    let read = disk.read(0, &mut piece);
    assert_eq!(rt;
        (told, other.faults(), read, disk.faults()),
        (Err(Failed), 1, Err(Failed), 1)
    );
    fs::remove_dir_all(&rt, "ledger_disk_test")?;
    Ok(())
}

#[test]
fn a_file_in_no_folder_is_no_disk(rt: HostRuntime) -> Result<(), Fail> {
    let mut disk = FileDisk::at(&rt, rt.alloc(), "ledger_disk_test_of_none/file")?;
    assert_eq!(rt; (disk.sync(), disk.faults()), (Err(Failed), 1));
    Ok(())
}
