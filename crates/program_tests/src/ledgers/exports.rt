//! Dumps that end early: where the notary can't be reached, and where a disk or the output fails.

ghost use Rattle.notary_ledger.specs.Notaries.{memory_origin};

use super::*;
use journal_record::{NOTARY_LIMIT, Stamp};
use ledger_bytes::Digest;
use merkle_tree::Head;
use time_peg::{ENTRY_LEN, Notary, NotaryErr};

const EXPORT: [&str; 2] = ["export", "d"];

/// A notary with the list of this one that can't be reached: each call fails.
#[derive(Drop)]
struct LostNotary {
    list: MemNotary,
    faults: u64,
}

impl Notary for LostNotary {
    ghost state = { λ n. record { origin = memory_origin; entries = n.list.entries; faults = n.faults } };

    fn stamp(&mut self, _alloc: Global, _peg: &Digest) -> Result<Stamp, NotaryErr> {
        if let Ok(head) = self.list.head()
            && head.size == NOTARY_LIMIT
        {
            return Err(NotaryErr::Full);
        }
        self.faults = self.faults.saturating_add(1);
        Err(NotaryErr::Failed)
    }

    fn head(&mut self) -> Result<Head, NotaryErr> {
        let _head = self.list.head();
        self.faults = self.faults.saturating_add(1);
        Err(NotaryErr::Failed)
    }

    fn entry(&mut self, _k: u64) -> Result<[u8; ENTRY_LEN], NotaryErr> {
        self.faults = self.faults.saturating_add(1);
        Err(NotaryErr::Failed)
    }

    fn path(&mut self, _alloc: Global, _k: u64) -> Result<Vec<Digest>, NotaryErr> {
        self.faults = self.faults.saturating_add(1);
        Err(NotaryErr::Failed)
    }

    fn proof(&mut self, _alloc: Global, _m: u64) -> Result<Vec<Digest>, NotaryErr> {
        self.faults = self.faults.saturating_add(1);
        Err(NotaryErr::Failed)
    }

    fn faults(&self) -> u64 {
        self.faults
    }
}

/// The first file of a ledger with one record.
fn made<R: Threads + Wait + Sync>(rt: &R, alloc: Global) -> Result<Bytes, NoMemory> {
    let mut a = MemDisk::new(alloc, AMPLE, Vec::new(alloc))?;
    let mut b = MemDisk::new(alloc, AMPLE, Vec::new(alloc))?;
    run_on(
        rt,
        alloc,
        &DEMO,
        EMPTY.as_bytes(),
        NO_FAULTS,
        &mut a,
        &mut b,
    )?;
    a.bytes()
}

/// A disk that has these bytes for good, and of which the call with this number fails, counted from then on.
fn disk_of(alloc: Global, file: &[u8], call: u64) -> Result<MemDisk, Fail> {
    let mut disk = MemDisk::new(alloc, AMPLE, [call.saturating_add(2)].to_vec(alloc)?)?;
    disk.write(0, file)?;
    disk.sync()?;
    Ok(disk)
}

/// The status of an export from that disk and an empty one, what it wrote, and whether both stay.
fn exported<R: Threads + Wait + Sync>(
    rt: &R,
    alloc: Global,
    file: &[u8],
    call: u64,
    faults: Faults,
) -> Result<(u8, Vec<u8>, bool), Fail> {
    let mut a = disk_of(alloc, file, call)?;
    let mut b = MemDisk::new(alloc, AMPLE, Vec::new(alloc))?;
    let (status, written) = run_on(rt, alloc, &EXPORT, b"", faults, &mut a, &mut b)?;
    let is_same = a.bytes()?.as_slice() == file && b.bytes()?.as_slice().is_empty();
    Ok((status, written, is_same))
}

/// The status of an export whose notary can't be reached, and what it wrote.
fn exported_alone<R: Threads + Wait + Sync>(
    rt: &R,
    alloc: Global,
    file: &[u8],
) -> Result<(u8, Vec<u8>), Fail> {
    let mut a = disk_of(alloc, file, NEVER)?;
    let mut b = MemDisk::new(alloc, AMPLE, Vec::new(alloc))?;
    let mut source = MemSource::new(Bytes::copy_of(alloc, b"")?, Vec::new(alloc));
    let mut sink = MemSink::new(alloc, AMPLE, Vec::new(alloc))?;
    let mut lost = LostNotary {
        list: MemNotary::new(alloc, Vec::new(alloc)),
        faults: 0,
    };
    let status = ledger_top(
        &tools(rt, alloc),
        &strings(alloc, &EXPORT)?,
        &mut source,
        &mut sink,
        &mut a,
        &mut b,
        &mut lost,
    );
    Ok((status, sink.written().to_vec(alloc)?))
}

/// Whether a beginning of the dump was written, and then this line.
fn begins_dump(dump: &[u8], written: &[u8], line: &str) -> bool {
    written
        .strip_suffix(line.as_bytes())
        .is_some_and(|part| dump.starts_with(part))
}

// Each call of the disk that an export makes fails once, and so does its first write.
#[test]
fn tells_what_ends_an_export(rt: HostRuntime) -> Result<(), Fail> {
    let alloc = rt.alloc();
    let file = made(&rt, alloc)?;
    let file = file.as_slice();
    let (status, dump, is_same) = exported(&rt, alloc, file, NEVER, NO_FAULTS)?;
    assert!(rt; status == 0 && is_same);
    let mut failed = 0u32;
    for call in 0..40 {
        let (status, written, is_same) = exported(&rt, alloc, file, call, NO_FAULTS)?;
        let line = if status == 4 { "fail 4 disk\n" } else { "" };
        assert!(rt; is_same && begins_dump(&dump, &written, line), "at {call}");
        failed = failed.saturating_add(u32::from(status == 4));
    }
    assert!(rt; 5 < failed && failed < 40);
    let faults = Faults {
        write: 0,
        ..NO_FAULTS
    };
    let (status, written, is_same) = exported(&rt, alloc, file, NEVER, faults)?;
    assert!(rt; status == 3 && is_same && written.is_empty());
    let (status, written) = exported_alone(&rt, alloc, file)?;
    assert!(rt; status == 11 && begins_dump(&dump, &written, "fail 11 notary\n"));
    Ok(())
}
