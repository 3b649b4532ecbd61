//! Reading bytes, numbers, digests and the head of a block from a place in a file.

ghost use Rattle.std.specs.Prelude.{◌≡◌, ◌≢◌, ◌⊎◌, ◌+◌, ◌^◌, ◌<◌, ◌≤◌, ℕ, length, get_or, take, drop, IsTrue, IfSome, IfNone, IsSomeAnd, Some, IfOk, IfErr, OnOk};
ghost use Rattle.ledger_bytes.specs.declared.limits.TheConstants.{BLOCK_LIMIT};
ghost use Rattle.ledger_disk.specs.Disk.{CountsFault, KeepsLength};
ghost use Rattle.block_file.specs.Head.{Counts, number_at};
ghost use Rattle.block_file.specs.Blocks.{IsHeadRead, IsBlockHeadErr};

use crate::block::{BLOCK_HEAD_LEN, BlockHead};
use crate::{Damage, FileErr};
use ledger_bytes::{BLOCK_LIMIT, Digest, Failed};
use ledger_disk::Disk;
use std::alloc::Global;

/// Fills a piece from a range that is there.
pub(crate) fn fill<D: Disk>(disk: &mut D, at: u64, into: &mut [u8]) -> Result<(), Failed>
    requires { IsSomeAnd (D.state disk.old).told (λ n. at + length into.old ≤ n) }
    ensures bytes { OnOk result (IsTrue D.tells
        → into.new ≡ take (length into.old) (drop at (D.state disk.old).bytes.seen)) }
    ensures state { IsTrue D.tells → (D.state disk.new).bytes ≡ (D.state disk.old).bytes }
    ensures length { KeepsLength (D.state disk.old).told (D.state disk.new).told }
    ensures faults { CountsFault result (D.state disk.old).faults (D.state disk.new).faults }
{
    disk.read(at, into)?;
    Ok(())
}

pub(crate) fn read_byte<D: Disk>(disk: &mut D, at: u64) -> Result<u8, Failed>
    requires { IsSomeAnd (D.state disk.old).told (λ n. at + 1 ≤ n) }
    ensures value { IfOk result (λ byte. IsTrue D.tells
        → byte ≡ get_or (D.state disk.old).bytes.seen at 0) }
    ensures state { IsTrue D.tells → (D.state disk.new).bytes ≡ (D.state disk.old).bytes }
    ensures length { KeepsLength (D.state disk.old).told (D.state disk.new).told }
    ensures faults { CountsFault result (D.state disk.old).faults (D.state disk.new).faults }
{
    let mut byte = [0];
    fill(disk, at, &mut byte)?;
    Ok(byte[0])
}

pub(crate) fn read_number<D: Disk>(disk: &mut D, at: u64) -> Result<u64, Failed>
    requires { IsSomeAnd (D.state disk.old).told (λ n. at + 8 ≤ n) }
    ensures value { IfOk result (λ number. IsTrue D.tells
        → number ≡ number_at at (D.state disk.old).bytes.seen) }
    ensures state { IsTrue D.tells → (D.state disk.new).bytes ≡ (D.state disk.old).bytes }
    ensures length { KeepsLength (D.state disk.old).told (D.state disk.new).told }
    ensures faults { CountsFault result (D.state disk.old).faults (D.state disk.new).faults }
{
    let mut number = [0; 8];
    fill(disk, at, &mut number)?;
    Ok(u64::from_be_bytes(number))
}

pub(crate) fn read_digest<D: Disk>(disk: &mut D, at: u64) -> Result<Digest, Failed>
    requires { IsSomeAnd (D.state disk.old).told (λ n. at + 32 ≤ n) }
    ensures value { IfOk result (λ digest. IsTrue D.tells
        → digest.0 ≡ take 32 (drop at (D.state disk.old).bytes.seen)) }
    ensures state { IsTrue D.tells → (D.state disk.new).bytes ≡ (D.state disk.old).bytes }
    ensures length { KeepsLength (D.state disk.old).told (D.state disk.new).told }
    ensures faults { CountsFault result (D.state disk.old).faults (D.state disk.new).faults }
{
    let mut digest = [0; 32];
    fill(disk, at, &mut digest)?;
    Ok(Digest(digest))
}

/// The bytes of a range that is there.
pub(crate) fn read_part<D: Disk>(
    alloc: Global,
    disk: &mut D,
    at: u64,
    len: u64,
) -> Result<Vec<u8>, FileErr>
    requires { IsSomeAnd (D.state disk.old).told (λ n. at + len ≤ n) }
    ensures bytes { IfOk result (λ part. IsTrue D.tells
        → part.items ≡ take len (drop at (D.state disk.old).bytes.seen)) }
    ensures size { IfOk result (λ part. length part.items ≡ len) }
    ensures err { IfErr result (λ e. (e ≡ FileErr.DiskFault) ⊎ (e ≡ FileErr.NoMemory)) }
    ensures state { IsTrue D.tells → (D.state disk.new).bytes ≡ (D.state disk.old).bytes }
    ensures length { KeepsLength (D.state disk.old).told (D.state disk.new).told }
    ensures faults { Counts result (D.state disk.old).faults (D.state disk.new).faults }
{
    let mut part = Vec::new(alloc);
    read_over(disk, at, len, &mut part)?;
    Ok(part)
}

/// Reads a range that is there over what a buffer holds, which is then the range alone. After an error it holds
/// anything.
pub(crate) fn read_over<D: Disk>(
    disk: &mut D,
    at: u64,
    len: u64,
    buffer: &mut Vec<u8>,
) -> Result<(), FileErr>
    requires { IsSomeAnd (D.state disk.old).told (λ n. at + len ≤ n) }
    ensures bytes { OnOk result (IsTrue D.tells
        → buffer.new.items ≡ take len (drop at (D.state disk.old).bytes.seen)) }
    ensures size { OnOk result (length buffer.new.items ≡ len) }
    ensures err { IfErr result (λ e. (e ≡ FileErr.DiskFault) ⊎ (e ≡ FileErr.NoMemory)) }
    ensures state { IsTrue D.tells → (D.state disk.new).bytes ≡ (D.state disk.old).bytes }
    ensures length { KeepsLength (D.state disk.old).told (D.state disk.new).told }
    ensures faults { Counts result (D.state disk.old).faults (D.state disk.new).faults }
{
    buffer.resize(len as usize, 0)?;
    fill(disk, at, buffer.as_mut_slice())?;
    Ok(())
}

/// What the head of the block at a place tells, where there is room for its body. None where its gate is shut.
pub(crate) fn read_block_head<D: Disk>(disk: &mut D, at: u64) -> Result<Option<BlockHead>, FileErr>
    requires { IsSomeAnd (D.state disk.old).told (λ n. at + 1 ≤ n) }
    ensures shut { IfOk result (λ found. IfNone found (IsTrue D.tells
        → get_or (D.state disk.old).bytes.seen at 0 ≢ 1)) }
    ensures head { IfOk result (λ found. IfSome found (λ head. IsTrue D.tells
        → IsHeadRead at (D.state disk.old).bytes.seen head)) }
    ensures count { IfOk result (λ found. IfSome found
        (λ head. (1 ≤ head.count) × (head.count ≤ BLOCK_LIMIT))) }
    ensures err { IfErr result (λ e. IsTrue D.tells → IsBlockHeadErr at (D.state disk.old).bytes.seen e) }
    ensures only { IfErr result (λ e. (e ≢ FileErr.NoMemory)
        × ((found : ℕ) → e ≢ FileErr.NewerFormat found)) }
    ensures told { IfOk result (λ found. IfSome found (λ head.
        IsSomeAnd (D.state disk.new).told (λ n. at + 45 + head.body_len + 1 ≤ n)
        × (at + 45 + head.body_len + 1 ≤ 2 ^ 62))) }
    ensures state { IsTrue D.tells → (D.state disk.new).bytes ≡ (D.state disk.old).bytes }
    ensures length { KeepsLength (D.state disk.old).told (D.state disk.new).told }
    ensures faults { Counts result (D.state disk.old).faults (D.state disk.new).faults }
{
    if read_byte(disk, at)? != 1 {
        return Ok(None);
    }
    let room = disk.len()?.saturating_sub(at + 2);
    if room < BLOCK_HEAD_LEN as u64 {
        return Err(FileErr::Damaged(Damage::Length {
            at: at + 1,
            kept: BLOCK_HEAD_LEN as u64,
            found: room,
        }));
    }
    let mut bytes = [0; BLOCK_HEAD_LEN];
    fill(disk, at + 1, &mut bytes)?;
    let head = BlockHead::of(&bytes);
    if head.count == 0 || u64::from(head.count) > BLOCK_LIMIT {
        return Err(FileErr::Damaged(Damage::Length {
            at: at + 1,
            kept: u64::from(head.count),
            found: BLOCK_LIMIT,
        }));
    }
    let body_room = room - BLOCK_HEAD_LEN as u64;
    if head.body_len > body_room {
        return Err(FileErr::Damaged(Damage::Length {
            at: at + 5,
            kept: head.body_len,
            found: body_room,
        }));
    }
    Ok(Some(head))
}
