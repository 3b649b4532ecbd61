//! Blocks that are read ahead of the book, so that the leaf digests of their journals are made in a thread beside it.

ghost use Rattle.std.specs.Prelude.{◌≡◌, ◌↔◌, ◌+◌, ◌^◌, ◌<◌, ◌≤◌, All, length, IsTrue, IfOk, IfErr, IsSomeAnd, OnOk, vec_len};
ghost use Rattle.block_file.specs.FileView.{gate_of};
ghost use Rattle.ledger_disk.specs.Disk.{KeepsLength};
ghost use Rattle.ledger_open.specs.Ahead.{AreLeaves, WereRead, IsStop, IsStopOf, place_behind, number_behind, journals_in, blocks_in};
ghost use Rattle.ledger_open.specs.Opening.{CountsRead, IsOutside};
ghost use Rattle.ledger_open.specs.declared.ahead.Stop.TheVariants as stops;

use crate::OpenErr;
use block_file::{BlockAt, BlockFile, Damage, FileErr, RecordAt};
use ledger_bytes::{Digest, NoMemory, Sha};
use ledger_disk::Disk;
use merkle_tree::leaf_of;
use std::alloc::Global;

// How many blocks are read ahead at a time: so many that a thread beside works for some milliseconds.
const BLOCKS: usize = 256;

/// A block that was read, with room for the leaf digests of its journals.
#[derive(Debug, Drop)]
pub(crate) struct Hashed {
    pub block: BlockAt,
    pub leaves: Vec<Digest>,
}

/// Why no block more was read.
#[derive(Debug, Drop)]
pub(crate) enum Stop {
    /// These are as many as are read at a time: there may be more.
    Full,
    /// The next journal would have a number that no journal has.
    TooLong,
    /// The next gate is shut.
    Shut,
    Damaged(Damage),
}

/// Blocks that stand one behind the other.
#[derive(Debug, Drop)]
pub(crate) struct Ahead {
    pub blocks: Vec<Hashed>,
    /// How many journals they have.
    pub count: u64,
    pub stop: Stop,
}

impl Hashed {
    // A block whose leaf digests aren't made so far.
    fn new(alloc: Global, block: BlockAt) -> Result<Self, NoMemory>
        ensures block { IfOk result (λ h. h.block ≡ block) }
        ensures size { IfOk result (λ h. vec_len h.leaves ≡ length h.block.records) }
    {
        let leaves = vec![in alloc; Digest::ZERO; block.records.as_slice().len()]?;
        Ok(Hashed { block, leaves })
    }

    // Makes the leaf digests.
    fn hash(&mut self)
        requires { vec_len self.old.leaves ≡ length self.old.block.records }
        ensures block { self.new.block ≡ self.old.block }
        ensures leaves { AreLeaves self.new.block.records self.new.leaves.items }
    {
        make_leaves(self.block.records.as_slice(), self.leaves.as_mut_slice());
    }
}

// Makes the leaf digest of each of these journals.
fn make_leaves(records: &[RecordAt], leaves: &mut [Digest])
    requires { length leaves.old ≡ length records.now }
    ensures { AreLeaves records.now leaves.new }
{
    for index in 0..records.len() {
        leaves[index] = leaf_of::<Sha>(&records[index].header.encode());
    }
}

// Makes the leaf digests of some blocks.
fn hash_all(blocks: &mut [Hashed])
    requires { All (λ h. vec_len h.leaves ≡ length h.block.records) blocks.old }
    ensures blocks { blocks_in blocks.new ≡ blocks_in blocks.old }
    ensures leaves { All (λ h. AreLeaves h.block.records h.leaves.items) blocks.new }
{
    for index in 0..blocks.len() {
        blocks[index].hash();
    }
}

impl Ahead {
    /// Makes the leaf digests of the journals.
    pub(crate) fn hash(&mut self)
        requires { All (λ h. vec_len h.leaves ≡ length h.block.records) self.old.blocks.items }
        ensures blocks { blocks_in self.new.blocks.items ≡ blocks_in self.old.blocks.items }
        ensures count { self.new.count ≡ self.old.count }
        ensures stop { self.new.stop ≡ self.old.stop }
        ensures leaves { All (λ h. AreLeaves h.block.records h.leaves.items)
            self.new.blocks.items }
    {
        hash_all(self.blocks.as_mut_slice());
    }

    /// Whether there may be more blocks.
    pub(crate) fn is_full(&self) -> bool
        ensures { IsTrue result ↔ self.now.stop ≡ stops.Full }
    {
        matches!(self.stop, Stop::Full)
    }
}

// Keeps a damage for later.
fn stop_of(e: FileErr) -> Result<Stop, OpenErr>
    ensures { IsStopOf e result }
{
    match e {
        FileErr::Damaged(damage) => Ok(Stop::Damaged(damage)),
        FileErr::DiskFault => Err(OpenErr::DiskFault),
        FileErr::NewerFormat { found } => Err(OpenErr::NewerFormat { found }),
        FileErr::NoMemory => Err(OpenErr::NoMemory),
    }
}

/// Reads the next blocks, of which the first one's first journal is to have this number. A damage behind them waits
/// until they are taken, since one of theirs comes first; a disk's fault and want of memory don't.
pub(crate) fn read_ahead<D: Disk>(
    alloc: Global,
    file: &mut BlockFile,
    disk: &mut D,
    buffer: &mut Vec<u8>,
    first: u64,
) -> Result<Ahead, OpenErr>
    requires told { IsSomeAnd (D.state disk.old).told (λ n. gate_of file.old + 1 ≤ n) }
    requires number { first < 2 ^ 32 }
    ensures read { IfOk result (λ ahead. WereRead D.tells (D.state disk.old).bytes.seen
        (gate_of file.old) first (blocks_in ahead.blocks.items)) }
    ensures place { IfOk result (λ ahead. gate_of file.new
        ≡ place_behind (gate_of file.old) (blocks_in ahead.blocks.items)) }
    ensures stop { IfOk result (λ ahead. IsStop D.tells (D.state disk.old).bytes.seen
        (gate_of file.new) (number_behind first (blocks_in ahead.blocks.items)) ahead.stop) }
    ensures count { IfOk result (λ ahead. ahead.count
        ≡ journals_in (blocks_in ahead.blocks.items)) }
    ensures some { IfOk result (λ ahead. ahead.stop ≡ stops.Full
        → 1 ≤ length ahead.blocks.items) }
    ensures sizes { IfOk result (λ ahead. All (λ h. vec_len h.leaves ≡ length h.block.records)
        ahead.blocks.items) }
    ensures err { IfErr result IsOutside }
    ensures told { OnOk result (IsSomeAnd (D.state disk.new).told
        (λ n. gate_of file.new + 1 ≤ n)) }
    ensures state { IsTrue D.tells → (D.state disk.new).bytes ≡ (D.state disk.old).bytes }
    ensures length { KeepsLength (D.state disk.old).told (D.state disk.new).told }
    ensures faults { CountsRead result (D.state disk.old).faults (D.state disk.new).faults }
{
    let Ok(mut blocks) = Vec::with_capacity(alloc, BLOCKS) else {
        return Err(OpenErr::NoMemory);
    };
    let mut count = 0;
    while blocks.len() < BLOCKS && first + count <= u64::from(u32::MAX) {
        match file.next_block(alloc, disk, buffer, first + count) {
            Ok(Some(block)) => {
                count += block.records.as_slice().len() as u64;
                let Ok(hashed) = Hashed::new(alloc, block) else {
                    return Err(OpenErr::NoMemory);
                };
                let Ok(()) = blocks.push(hashed) else {
                    return Err(OpenErr::NoMemory);
                };
            }
            Ok(None) => {
                return Ok(Ahead {
                    blocks,
                    count,
                    stop: Stop::Shut,
                });
            }
            Err(e) => {
                return match stop_of(e) {
                    Ok(stop) => Ok(Ahead {
                        blocks,
                        count,
                        stop,
                    }),
                    Err(e) => Err(e),
                };
            }
        }
    }
    let stop = if first + count <= u64::from(u32::MAX) {
        Stop::Full
    } else {
        Stop::TooLong
    };
    Ok(Ahead {
        blocks,
        count,
        stop,
    })
}
