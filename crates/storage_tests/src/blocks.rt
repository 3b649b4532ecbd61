//! Files of blocks are written and read by their worked bytes, stopped at each call, copied, cleared and found changed.

ghost use Rattle.std.specs.Prelude.{◌^◌, ◌<◌};

use block_file::{BlockAt, BlockFile, BlockWriter, Damage, FileErr, FileHead};
use hex::FromHex;
use journal_record::Kind;
use ledger_bytes::{Bytes, Digest};
use ledger_disk::{Disk, FuseDisk, MemDisk, Pick};
use std::alloc::Global;
use std::process::Abort;
use std::test::Fail;

// The file of a new ledger: no base, and one block of one journal with a content of 64 bytes.
const NEW: [&str; 8] = [
    "014c454447455244420200000000000000010000000000000000ca358758f6d27e6cf45272937977a748fd88391db679",
    "ceda7dc7bf1f005ee879000000000000010000000100000000000000f264915354a6547b1f887e596e872fd13b2abdc8",
    "60729da9fe31180a81726cf4a20100000000000000000000000000000000000000000000000000000000000000000000",
    "000000000000000000000000000000000000000000000000000000000000000000000000000000914cc74d53cd826148",
    "8272a6f032311caec3902f46b0b58cf98417cddf94e382000000402c66600c9d6ab5196b84e5fb389401569af0f4ebcf",
    "dac5ce763f4ec34c4c435f01ba4719c80b6fe911b091a7c05124b64eeece964e09c058ef8f9805daca546b0000000001",
    "010101010101010101010101010101010101010101010101010101010101010202020202020202020202020202020202",
    "02020202020202020202020202020200",
];

// The next block of such a ledger: a member and a record.
const BLOCK: [&str; 12] = [
    "0000000200000000000001f345244e5bba01692ff6f59b826791827e96e891465f758d139d92d81a53b478c501020000",
    "000000000001000000000000000000000000000000000000000000000000000000000000000000000000000000000000",
    "000000000000000000000000000200000000000000000303030303030303030303030303030303030303030303030303",
    "03030303030300000000dbc1b4c900ffe48d575b5da5c638040125f65db0fe3e24494b76ea986457d9869a1d89c119e6",
    "8e87a795259b07ebe8642015c93186b59ef124834ac79be9693d00000046000000000040010101010101010101010101",
    "01010101010101010101010101010101010101016e2700604cd288e681c238fa71ae802ef173e93907477f0111a56a7b",
    "e4890e8c01010000000000000002000000023536d837609504a8406dcb211cb403cb9290736cc3a94b2fa0601b2cd543",
    "e6da00000001000000000000000000000000000000000000000000000000c91e8e640e57e2e878b7b2840e07636c0753",
    "9496336fbcc57c40f1cc60c359fc00000003909ac45e439911193205994d09399c29fede977ab212605f29ead5250a81",
    "2e73c31de51580a8656b63f753ec142454bafa09b766de1b25b0ac75c128005d40cb0000004600000000000002004003",
    "030303030303030303030303030303030303030303030303030303030303031c73656160873b10becb5d4a75a046056d",
    "790b17f79672513778ab540c22c6df",
];

// The file of a ledger that was purged: generation 2, a base of 215 bytes, and three blocks.
const PURGED: [&str; 25] = [
    "014c4544474552444202000000000000000200000000000000d72a4f3bb2a8d77b22b9d180252a2a074a9cbc7278cc6d",
    "931e821222b583f6e5160000000000000164915354a6547b1f887e596e872fd13b2abdc860729da9fe31180a81726cf4",
    "a2000000000000000300000000000000025d0c93a2c3f5b439800c35082b570525c1c42d311dfab11205d0376c51f95c",
    "f9817aa9248d10780808af00a473b7890eae59c8604ea4d237ff2dfac7b43e8e75000301010101010101010101010101",
    "010101010101010101010101010101010101010202020202020202020202020202020202020202020202020202020202",
    "020202030303030303030303030303030303030303030303030303030303030303030300000000010000000100000000",
    "000000b24e89e545229caee6831cc80b78c9abbf395493510529d062e71cd1c1c417b1c8010300000000000000030000",
    "000000000000000000000000000000000000000000000000000000000000000000000000000000000000000000000000",
    "00000000000000000000000003e88b3b30a051bca9ec8bacbfaf3a351389842d99f1769a4959994077e9ec8d87570000",
    "0000dbc1b4c900ffe48d575b5da5c638040125f65db0fe3e24494b76ea986457d98601ba4719c80b6fe911b091a7c051",
    "24b64eeece964e09c058ef8f9805daca546b00000000010000000100000000000000f81c1b7da8b2052ceaff90d75c6d",
    "15f00cfb920a041535ac26cccfd2ddf5d3653e0101000000000000000400000002000000000000000000000000000000",
    "0000000000000000000000000000000000000000000000000000000000000000000000000000000000000000003746bd",
    "6bf2f3d80f02d7a8e4f47739d4885bf4fd95a9d5728c7585ac8df144b900000000dbc1b4c900ffe48d575b5da5c63804",
    "0125f65db0fe3e24494b76ea986457d98660f939b6f2e29d94e23a8e69a18def6e706674ee7d8c9ba473b5a026ad370f",
    "11000000460000000200400303030303030303030303030303030303030303030303030303030303030303f7883fcc81",
    "2a608a0fc1facb9db3695d6a79994b1d3a982a0680d6a5c87dfef40100000001000000000000013eaf7eba02c88f58f4",
    "f622d4ff7d85dca0bc0485cd3f1f429831c6e29fd5a2c55e010500000000000000050000000000000000000000000000",
    "000000000000000000000000000000000000000000000000000000000000000000000000000000000003000000000000",
    "00002a4f3bb2a8d77b22b9d180252a2a074a9cbc7278cc6d931e821222b583f6e51600000000dbc1b4c900ffe48d575b",
    "5da5c638040125f65db0fe3e24494b76ea986457d986421eb8bf9184d11176ab30669b8d8d4d3d9cfe7b99680d92630c",
    "8f37484c71c30000008c0000000000400101010101010101010101010101010101010101010101010101010101010101",
    "e343acfd92f3a807ef54ba0d4c1fb5242d6fa5dbe8ce179a2cb16efa6717b6a100000002004003030303030303030303",
    "0303030303030303030303030303030303030303030300f967e506b4394f8613c4584bad1c0d30eebe48a33ce5b79d7e",
    "67af2550ddb600",
];

fn decode_lines(alloc: Global, text: &[&str]) -> Result<Vec<u8>, Fail> {
    let mut bytes = Vec::new(alloc);
    for line in text {
        bytes.extend_from_slice(&hex::decode(alloc, line)?)?;
    }
    Ok(bytes)
}

fn digest(text: &str) -> Result<Digest, hex::FromHexError> {
    Ok(Digest(<[u8; 32]>::from_hex(text)?))
}

/// A disk that holds these bytes for good.
fn disk_of(alloc: Global, bytes: &[u8]) -> Result<MemDisk, Fail> {
    let mut disk = MemDisk::new(alloc, 4096, Vec::new(alloc))?;
    disk.write(0, bytes)?;
    disk.sync()?;
    Ok(disk)
}

/// A disk that holds these bytes with some of them changed.
fn changed_disk(alloc: Global, bytes: &[u8], changes: &[(usize, u8)]) -> Result<MemDisk, Fail> {
    let mut bytes = bytes.to_vec(alloc)?;
    for (at, byte) in changes {
        if let Some(place) = bytes.get_mut(*at) {
            *place = *byte;
        }
    }
    disk_of(alloc, &bytes)
}

/// The first block of an open file.
fn first_block(alloc: Global, disk: &mut MemDisk, first: u64) -> Result<Option<BlockAt>, FileErr>
    requires { first < 2 ^ 32 }
{
    let Some(head) = BlockFile::head(disk)? else {
        return Ok(None);
    };
    let mut file = BlockFile::resume(disk, &head)?;
    file.base(alloc, disk)?;
    file.next_block(alloc, disk, &mut Vec::new(alloc), first)
}

/// How many blocks a file has: the one of `NEW`, and then `BLOCK` or not, and one of journal 3 or not.
fn count_blocks(alloc: Global, disk: &mut MemDisk) -> Result<u32, FileErr> {
    let Some(head) = BlockFile::head(disk)? else {
        return Ok(0);
    };
    let mut buffer = Vec::new(alloc);
    let mut file = BlockFile::resume(disk, &head)?;
    if file.next_block(alloc, disk, &mut buffer, 0)?.is_none() {
        return Ok(0);
    }
    if file.next_block(alloc, disk, &mut buffer, 1)?.is_none() {
        return Ok(1);
    }
    if file.next_block(alloc, disk, &mut buffer, 3)?.is_none() {
        return Ok(2);
    }
    Ok(3)
}

#[test]
fn a_new_file_is_written_and_read(rt: HostRuntime) -> Result<(), Fail> {
    let mut disk = disk_of(rt.alloc(), b"what was there before")?;
    write_new(&rt, rt.alloc(), &mut disk)?;
    read_new(&rt, rt.alloc(), &mut disk)
}

/// Writes the file of a new ledger, which has the bytes of `NEW`.
fn write_new(rt: &impl Abort, alloc: Global, disk: &mut MemDisk) -> Result<(), Fail> {
    let new = decode_lines(alloc, &NEW)?;
    assert_eq!(rt; new.len(), 352);
    BlockFile::start(disk)?;
    let mut file = BlockFile::create(disk, 1, b"")?;
    file.put_block(disk, &new[65..351])?;
    file.unveil(disk)?;
    assert_eq!(rt; disk.bytes()?.as_slice(), new.as_slice());
    assert_eq!(rt; file.tail(), 351);
    Ok(())
}

/// Reads its head and its block.
fn read_new(rt: &impl Abort, alloc: Global, disk: &mut MemDisk) -> Result<(), Fail> {
    let head = FileHead {
        version: 2,
        generation: 1,
        base_len: 0,
        base_digest: digest("ca358758f6d27e6cf45272937977a748fd88391db679ceda7dc7bf1f005ee879")?,
    };
    assert_eq!(rt; BlockFile::head(disk)?, Some(head));
    has_first_journal(rt, &first_block(alloc, disk, 0)?.ok_or("no block")?)?;
    assert_eq!(rt; count_blocks(alloc, disk)?, 1);
    Ok(())
}

fn has_first_journal(rt: &impl Abort, read: &BlockAt) -> Result<(), Fail> {
    assert_eq!(rt; (read.at, read.len), (64, 286));
    let root = digest("64915354a6547b1f887e596e872fd13b2abdc860729da9fe31180a81726cf4a2")?;
    assert_eq!(rt; read.root, root);
    for record in read.records.as_slice() {
        assert_eq!(rt; record.header.kind, Kind::Genesis);
        assert_eq!(rt; record.content_at, 287);
        assert_eq!(rt; (record.who_at, record.who_len), (351, 0));
    }
    assert_eq!(rt; read.records.as_slice().len(), 1);
    Ok(())
}

#[test]
fn a_file_of_either_version_is_read(rt: HostRuntime) -> Result<(), Fail> {
    let new = decode_lines(rt.alloc(), &NEW)?;
    for (version, found) in [
        (1, Ok(1)),
        (2, Ok(1)),
        (3, Err(FileErr::NewerFormat { found: 3 })),
    ] {
        let mut disk = changed_disk(rt.alloc(), &new, &[(9, version)])?;
        assert_eq!(rt;
            count_blocks(rt.alloc(), &mut disk),
            found,
            "of version {version}"
        );
    }
    Ok(())
}

/// Commits the blocks of a group behind that of `NEW`, where the disk stops after so many calls of the commit. Tells whether all
/// was done, whether no fault was counted, and what is left of the disk.
fn commit_until_a_stop(
    alloc: Global,
    disk: MemDisk,
    group: &[u8],
    left: u64,
) -> Result<(bool, bool, MemDisk), Fail> {
    let mut disk = disk;
    let head = BlockFile::head(&mut disk)?.ok_or("no head")?;
    let mut buffer = Vec::new(alloc);
    let mut file = BlockFile::resume(&mut disk, &head)?;
    file.next_block(alloc, &mut disk, &mut buffer, 0)?
        .ok_or("no block")?;
    let None = file.next_block(alloc, &mut disk, &mut buffer, 1)? else {
        return Err("a second block".into());
    };
    let mut fuse = FuseDisk::new(disk, left);
    let is_done = file.commit_blocks(&mut fuse, group).is_ok();
    let is_faultless = fuse.faults() == 0;
    Ok((is_done, is_faultless, fuse.into_inner()))
}

/// How many blocks there are where all that was written is left on this disk, nothing of it, and any bytes in its place.
fn blocks_left(alloc: Global, disk: &MemDisk) -> Result<[u32; 3], Fail> {
    let mut counts = [0; 3];
    let picks = [Pick::AllWritten, Pick::NoneWritten, Pick::Torn(1)];
    for (count, pick) in counts.iter_mut().zip(picks) {
        *count = count_blocks(alloc, &mut disk.crash(pick)?)?;
    }
    Ok(counts)
}

// In how many images a commit is there which was stopped after so many calls, whole: in each of the three or not.
const STOPPED: [(u64, [bool; 3]); 6] = [
    (0, [false, false, false]),
    (1, [false, false, false]),
    (2, [false, false, false]),
    (3, [false, false, false]),
    (4, [true, false, false]),
    (5, [true, true, true]),
];

#[test]
fn a_commit_is_stopped_at_each_call(rt: HostRuntime) -> Result<(), Fail> {
    let alloc = rt.alloc();
    let block = decode_lines(alloc, &BLOCK)?;
    stop_commits(&rt, alloc, &block, 1)?;
    // The same of a group of two blocks, the second of which is that of journal 3.
    let mut group = block;
    group.push(1)?;
    group.extend_from_slice(decode_lines(alloc, &PURGED)?.get(280..502).ok_or("short")?)?;
    stop_commits(&rt, alloc, &group, 2)
}

/// Stops the commit of a group of so many blocks at each of its calls.
fn stop_commits(rt: &impl Abort, alloc: Global, group: &[u8], blocks: u32) -> Result<(), Fail>
    requires { blocks < 2 ^ 31 }
{
    let new = decode_lines(alloc, &NEW)?;
    for (left, there) in &STOPPED {
        let disk = disk_of(alloc, &new)?;
        let (is_done, is_faultless, disk) = commit_until_a_stop(alloc, disk, group, *left)?;
        let found = (is_done, is_faultless, blocks_left(alloc, &disk)?);
        let is_all = *left == 5;
        let counts = there.map(|is_there| if is_there { 1 + blocks } else { 1 });
        assert_eq!(rt; found, (is_all, is_all, counts), "after {left}");
    }
    Ok(())
}

#[test]
fn a_writer_gathers_a_group(rt: HostRuntime) -> Result<(), Fail> {
    let root = digest("64915354a6547b1f887e596e872fd13b2abdc860729da9fe31180a81726cf4a2")?;
    let mut writer = BlockWriter::new(rt.alloc());
    writer.finish(1, &root)?;
    let mut group = writer.as_slice().to_vec(rt.alloc())?;
    group.push(1)?;
    writer.begin_next()?;
    writer.finish(2, &root)?;
    group.extend_from_slice(writer.as_slice())?;
    writer.begin_next()?;
    writer.finish(3, &root)?;
    let open = writer.as_slice().to_vec(rt.alloc())?;
    assert_eq!(rt; (group.len(), writer.ended()), (89, group.as_slice()));
    writer.drop_ended();
    assert_eq!(rt;
        (writer.ended().len(), writer.as_slice()),
        (0, open.as_slice())
    );
    writer.begin_group();
    assert_eq!(rt; writer.as_slice().len(), 0);
    Ok(())
}

// A base is read, blocks are copied, a content is cleared and what stands behind the tail gate is cut off, each of the
// last two by a sync alone the second time.
#[test]
fn a_file_with_a_base_is_copied(rt: HostRuntime) -> Result<(), Fail> {
    let purged = decode_lines(rt.alloc(), &PURGED)?;
    copy_and_clear(&rt, rt.alloc(), &purged)
}

fn copy_and_clear(rt: &impl Abort, alloc: Global, purged: &[u8]) -> Result<(), Fail> {
    let mut from = disk_of(alloc, purged)?;
    let base = base_of(rt, alloc, &mut from)?;
    assert_eq!(rt; Some(base.as_slice()), purged.get(64..279));
    let bytes = cleared_copy(rt, disk_of(alloc, b"")?, &mut from, base.as_slice(), purged)?;
    is_cleared(rt, bytes.as_slice(), purged);
    Ok(())
}

/// The base of a file, whose first block stands behind it.
fn base_of(rt: &impl Abort, alloc: Global, disk: &mut MemDisk) -> Result<Bytes, Fail> {
    let head = BlockFile::head(disk)?.ok_or("no head")?;
    assert_eq!(rt; (head.generation, head.base_len), (2, 215));
    let base = BlockFile::resume(disk, &head)?.base(alloc, disk)?;
    assert!(rt; first_block(alloc, disk, 3)?.is_some_and(|block| block.at == 279));
    Ok(base)
}

/// What a disk holds to which base and blocks of another file were copied, and then ten bytes cleared.
fn cleared_copy(
    rt: &impl Abort,
    mut disk: MemDisk,
    from: &mut MemDisk,
    base: &[u8],
    purged: &[u8],
) -> Result<Bytes, Fail> {
    BlockFile::start(&mut disk)?;
    let mut file = BlockFile::create(&mut disk, 2, base)?;
    assert_eq!(rt; from.len()?, 1159);
    file.put_range(&mut disk, from, 279, 879)?;
    file.unveil(&mut disk)?;
    assert_eq!(rt; disk.bytes()?.as_slice(), purged);

    assert_eq!(rt; disk.len()?, 1159);
    let mut piece = [1; 4];
    file.read_range(&mut disk, 60, &mut piece)?;
    assert_eq!(rt; piece, [0, 0, 0, 0]);
    file.clear_range(&mut disk, 279, 4)?;
    file.sync(&mut disk)?;
    let mut piece = [1; 4];
    file.read_range(&mut disk, 279, &mut piece)?;
    assert_eq!(rt; piece, [0, 0, 0, 0]);
    file.zero_range(&mut disk, 279, 10)?;
    disk.write(1159, b"left by a commit that failed")?;
    file.trim(&mut disk)?;
    let mut fuse = FuseDisk::new(disk, 2);
    assert_eq!(rt; fuse.len()?, 1159);
    file.zero_range(&mut fuse, 280, 9)?;
    file.trim(&mut fuse)?;
    Ok(fuse.into_inner().bytes()?)
}

/// These are the bytes of that file but for ten that are zeros.
fn is_cleared(rt: &impl Abort, bytes: &[u8], purged: &[u8]) {
    assert_eq!(rt; bytes.get(..279), purged.get(..279));
    assert_eq!(rt; bytes.get(279..289), Some([0; 10].as_slice()));
    assert_eq!(rt; bytes.get(289..), purged.get(289..));
}

#[test]
fn a_changed_base_is_found(rt: HostRuntime) -> Result<(), Fail> {
    let purged = decode_lines(rt.alloc(), &PURGED)?;
    let mut from = changed_disk(rt.alloc(), &purged, &[(64, 0xfe)])?;
    let told = first_block(rt.alloc(), &mut from, 3).err();
    let kept = digest("2a4f3bb2a8d77b22b9d180252a2a074a9cbc7278cc6d931e821222b583f6e516")?;
    let found = digest("dbacddfc836b5265f01047413581cd85a2b5743bcd4ab03ba25fac29c4b95d4a")?;
    assert_eq!(rt; told, Some(FileErr::Damaged(Damage::Base { kept, found })));
    Ok(())
}
