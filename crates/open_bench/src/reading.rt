//! A file of blocks, read once, with each header hashed once: by its bytes alone, or as blocks are read when it's opened.

use anyhow::{Context, Result};
use block_file::{BLOCK_HEAD_LEN, BlockFile, FIRST_GATE};
use journal_record::HEADER_LEN;
use ledger_bytes::{Digest, Sha};
use ledger_disk::Disk;
use merkle_tree::leaf_of;
use std::alloc::Global;

// How many bytes of a block stand before its records: its gate and its head.
const FRONT_LEN: u64 = 1 + BLOCK_HEAD_LEN as u64;

/// What was seen of a file.
#[derive(Clone, Copy)]
pub(crate) struct Seen {
    pub(crate) headers: u64,
    /// The leaves of all headers, combined by exclusive or.
    pub(crate) digest: Digest,
}

impl Seen {
    fn nothing() -> Self {
        Seen {
            headers: 0,
            digest: Digest::ZERO,
        }
    }

    fn add(&mut self, header: &[u8]) {
        let leaf = leaf_of::<Sha>(header);
        for index in 0..32 {
            self.digest.0[index] ^= leaf.0[index];
        }
        self.headers = self.headers.saturating_add(1);
    }
}

/// Reads a file's blocks as opening reads them, with each header decoded and its damages looked for.
pub(crate) fn walk_all<D: Disk>(alloc: Global, disk: &mut D) -> Result<Seen> {
    let mut seen = Seen::nothing();
    let mut buffer = Vec::new(alloc);
    let head = BlockFile::head(disk)?.context("the file is shut")?;
    let mut file = BlockFile::resume(disk, &head)?;
    for _ in 0..u64::MAX {
        if seen.headers > u64::from(u32::MAX) {
            break;
        }
        let Some(block) = file.next_block(alloc, disk, &mut buffer, seen.headers)? else {
            break;
        };
        for record in block.records.as_slice() {
            seen.add(&record.header.encode());
        }
    }
    Ok(seen)
}

/// Reads a file block by block, in three pieces each: the gate, the head and the body. A header is found by the lengths
/// alone.
pub(crate) fn read_all<D: Disk>(alloc: Global, disk: &mut D) -> Result<Seen> {
    let mut seen = Seen::nothing();
    let mut body = Vec::new(alloc);
    let mut at = FIRST_GATE;
    for _ in 0..u64::MAX {
        let mut gate = [0; 1];
        disk.read(at, &mut gate)?;
        if gate[0] != 1 {
            break;
        }
        let mut head = [0; BLOCK_HEAD_LEN];
        disk.read(at.saturating_add(1), &mut head)?;
        let count = number_at(&head, 0).context("no count")?;
        let len = number_at(&head, 8).context("no length")?;
        body.resize(len as usize, 0)?;
        disk.read(at.saturating_add(FRONT_LEN), body.as_mut_slice())?;
        hash_records(&body, count, &mut seen).context("a record isn't whole")?;
        at = at.saturating_add(FRONT_LEN).saturating_add(u64::from(len));
    }
    Ok(seen)
}

// Hashes the header of each record in a body.
fn hash_records(body: &[u8], count: u32, seen: &mut Seen) -> Option<()> {
    let mut rest = body;
    for _ in 0..count {
        let content_len = number_at(rest, 106)?;
        let who_len = number_at(rest, HEADER_LEN)?;
        seen.add(rest.get(..HEADER_LEN)?);
        let len = HEADER_LEN as u64 + 4 + u64::from(content_len) + u64::from(who_len);
        rest = rest.get(len as usize..)?;
    }
    Some(())
}

// The number of the four bytes at a place. A body's length has eight, of which the first four are zeros here.
fn number_at(bytes: &[u8], at: usize) -> Option<u32> {
    let (front, _) = bytes.get(at..)?.split_first_chunk::<4>()?;
    Some(u32::from_be_bytes(*front))
}
