//! A file of blocks: it is made and opened, its blocks are read and committed, and contents in it are cleared.

ghost use Rattle.std.specs.Prelude.{◌≡◌, ◌≢◌, ◌⊎◌, ◌+◌, ◌^◌, ◌<◌, ◌≤◌, ◌++◌, [], ◌∷◌, ℕ, List, length, get_or, take, drop, replicate, IsTrue, IfSome, IfNone, IsSomeAnd, Some, IfOk, IfErr, OnOk, OnErr};
ghost use Rattle.ledger_disk.specs.Disk.{MayLeave, settled_state, overlay, KeepsLength};
ghost use Rattle.block_file.specs.Head.{Counts, CountsAlone, CountsTwoAlone, digest_of, front_of, IsShut, IsHead, IsResumeErr, IsBaseErr};
ghost use Rattle.block_file.specs.Blocks.{AreBlock, IsRead, IsNextBlock};
ghost use Rattle.journal_record.specs.Entry.{Entry};
ghost use Rattle.block_file.specs.File.{IsFileOf, IsGroupOf, IsSettled, IsShutAt, IsZeros, IsVeiled, IsScrapOf, tail_of, whole_file};

use crate::copying::put_copy;
use crate::head::{base_digest, check_form, read_fields};
use crate::reading::{fill, read_block_head, read_byte, read_over, read_part};
use crate::records::read_body;
use crate::tail::{cut_for_good, open_gate, stage};
use crate::veil::{add, add_head, open_for_good, put};
use crate::zeroing::{zero, zero_pieces};
use crate::{BlockAt, Damage, FileErr, FileHead};
use ledger_bytes::{Bytes, Digest, Items};
use ledger_disk::Disk;
use std::alloc::Global;

/// A file that is read or written block by block. It holds no disk: each call is handed the disk that the file
/// stands on, which has to read as the calls on this file have left it.
#[derive(Debug, Drop)]
pub struct BlockFile {
    /// The offset of the next block's gate.
    at: u64,
    /// What the head says of the base.
    base_len: u64,
    base_digest: Digest,
    ghost bounded: { at ≤ 2 ^ 62 },
    ghost behind: { 64 + base_len ≤ at },
}

impl BlockFile {
    ghost use Rattle.block_file.specs.Changes.{AddsBlock, AddsBlocks, AddsBytes, AddsGroup, ChangesWithin, GivesNone, GivesThere, KeepsOutside, MayAddBlock, MayAddGroup, ZerosContent};
    ghost use Rattle.block_file.specs.FileView.{gate_of, base_len_of, base_digest_of, HasTail, KeepsBase};

    /// What the head of a file tells, and None where the file is shut. Of an open file the magic is looked at first,
    /// then the version.
    pub fn head<D: Disk>(disk: &mut D) -> Result<Option<FileHead>, FileErr>
        ensures answer { IsTrue D.tells → IsHead (D.state disk.old).bytes.seen result }
        ensures only { IfErr result (λ e. e ≢ FileErr.NoMemory) }
        ensures told { IfOk result (λ found. IfSome found
            (λ _. IsSomeAnd (D.state disk.new).told (λ n. 65 ≤ n))) }
        ensures state { IsTrue D.tells → (D.state disk.new).bytes ≡ (D.state disk.old).bytes }
        ensures length { KeepsLength (D.state disk.old).told (D.state disk.new).told }
        ensures faults { Counts result (D.state disk.old).faults (D.state disk.new).faults }
    {
        if disk.len()? < 65 {
            return Ok(None);
        }
        if read_byte(disk, 0)? != 1 {
            return Ok(None);
        }
        let version = check_form(disk)?;
        let head = read_fields(disk, version)?;
        Ok(Some(head))
    }

    /// Begins a file: cuts what is there, and leaves one shut gate.
    pub fn start<D: Disk>(disk: &mut D) -> Result<(), FileErr>
        ensures ok { OnOk result (IsTrue D.tells → (D.state disk.new).bytes ≡ settled_state (0 ∷ [])) }

        // A crash leaves a front of what was there, or at most one byte.
        ensures err { OnErr result (IsTrue D.tells → IsSettled (D.state disk.old).bytes
            → (image : List ℕ) → MayLeave (D.state disk.new).bytes image
            → IsScrapOf (D.state disk.old).bytes.seen image) }
        ensures told { OnOk result ((D.state disk.new).told ≡ Some 1) }
        ensures faults { CountsAlone result (D.state disk.old).faults (D.state disk.new).faults }
    {
        disk.cut(0)?;
        disk.sync()?;
        disk.write(0, &[0])?;
        disk.sync()?;
        Ok(())
    }

    /// Writes a head and a base behind the shut gate that [`BlockFile::start`] left, and a tail gate. Nothing is synced:
    /// the file stands for good once [`BlockFile::unveil`] has answered.
    #[tactic(auto, using(crate::proofs::VeilLaws::veiled_shut))]
    pub fn create<D: Disk>(disk: &mut D, generation: u64, base: &[u8]) -> Result<BlockFile, FileErr>
        requires length { IsSomeAnd (D.state disk.old).told (λ n. 1 ≤ n) }
        requires started { IsTrue D.tells → (D.state disk.old).bytes ≡ settled_state (0 ∷ []) }
        ensures seen { OnOk result (IsTrue D.tells
            → (D.state disk.new).bytes.seen ≡ whole_file (front_of 0 generation base.now) []) }
        ensures veiled { IsTrue D.tells → IsVeiled (D.state disk.new).bytes }

        // A crash leaves it shut.
        ensures images { IsTrue D.tells → (image : List ℕ)
            → MayLeave (D.state disk.new).bytes image → IsShut image }
        ensures place { IfOk result (λ file. gate_of file ≡ 64 + length base.now) }
        ensures base_len { IfOk result (λ file. base_len_of file ≡ length base.now) }
        ensures base_digest { IfOk result (λ file. base_digest_of file ≡ digest_of base.now) }
        ensures told { IfOk result (λ file. IsSomeAnd (D.state disk.new).told
            (λ n. gate_of file + 1 ≤ n)) }
        ensures faults { CountsAlone result (D.state disk.old).faults (D.state disk.new).faults }
    {
        add_head(disk, generation, base)?;
        add(disk, 64, base)?;
        let at = 64 + base.len() as u64;
        add(disk, at, &[0])?;
        Ok(BlockFile {
            at,
            base_len: base.len() as u64,
            base_digest: base_digest(base),
        })
    }

    /// Adds a block, given without its gate, to a file that [`BlockFile::create`] made and that is still shut.
    #[tactic(auto, using(crate::proofs::VeilLaws::veiled_shut))]
    pub fn put_block<D: Disk>(&mut self, disk: &mut D, block: &[u8]) -> Result<(), FileErr>
        requires length { HasTail (D.state disk.old).told self.old }
        ensures seen { OnOk result (IsTrue D.tells → (front : List ℕ) (blocks : List (List ℕ))
            → (D.state disk.old).bytes.seen ≡ whole_file front blocks
            → tail_of front blocks ≡ gate_of self.old
            → (D.state disk.new).bytes.seen ≡ whole_file front (blocks ++ block.now ∷ [])) }
        ensures veiled { IsTrue D.tells → IsVeiled (D.state disk.old).bytes
            → IsVeiled (D.state disk.new).bytes }

        // A crash leaves it shut.
        ensures images { IsTrue D.tells → IsVeiled (D.state disk.old).bytes → (image : List ℕ)
            → MayLeave (D.state disk.new).bytes image → IsShut image }
        ensures place { OnOk result (gate_of self.new ≡ gate_of self.old + 1 + length block.now) }
        ensures stays { OnErr result (self.new ≡ self.old) }
        ensures base { KeepsBase self.old self.new }
        ensures told { OnOk result (HasTail (D.state disk.new).told self.new) }
        ensures faults { CountsAlone result (D.state disk.old).faults (D.state disk.new).faults }
    {
        let next = put(disk, self.at, block)?;
        self.at = next;
        Ok(())
    }

    /// Adds the blocks that stand in a range of another file, each with its gate, to a file that is still shut. They
    /// go through a buffer of 65,536 bytes.
    #[tactic(auto, using(crate::proofs::VeilLaws::veiled_shut))]
    pub fn put_range<D: Disk>(
        &mut self,
        disk: &mut D,
        from: &mut D,
        at: u64,
        len: u64,
    ) -> Result<(), FileErr>
        requires from { IsSomeAnd (D.state from.old).told (λ n. at + len ≤ n) }
        requires length { HasTail (D.state disk.old).told self.old }
        ensures seen { OnOk result (IsTrue D.tells
            → AddsBlocks (gate_of self.old) (take len (drop at (D.state from.old).bytes.seen))
            (D.state disk.old).bytes.seen (D.state disk.new).bytes.seen) }
        ensures copied { OnOk result (IsTrue D.tells
            → AddsBytes (gate_of self.old) (take len (drop at (D.state from.old).bytes.seen))
            (D.state disk.old).bytes.seen (D.state disk.new).bytes.seen) }
        ensures veiled { IsTrue D.tells → IsVeiled (D.state disk.old).bytes
            → IsVeiled (D.state disk.new).bytes }

        // A crash leaves it shut.
        ensures images { IsTrue D.tells → IsVeiled (D.state disk.old).bytes → (image : List ℕ)
            → MayLeave (D.state disk.new).bytes image → IsShut image }
        ensures same { IsTrue D.tells → (D.state from.new).bytes ≡ (D.state from.old).bytes }
        ensures from { KeepsLength (D.state from.old).told (D.state from.new).told }
        ensures place { OnOk result (gate_of self.new ≡ gate_of self.old + len) }
        ensures stays { OnErr result (self.new ≡ self.old) }
        ensures base { KeepsBase self.old self.new }
        ensures told { OnOk result (HasTail (D.state disk.new).told self.new) }
        ensures faults { CountsTwoAlone result (D.state from.old).faults (D.state from.new).faults
            (D.state disk.old).faults (D.state disk.new).faults }
    {
        let next = put_copy(disk, from, at, len, self.at)?;
        self.at = next;
        Ok(())
    }

    /// Opens a file that [`BlockFile::create`] made, for good: syncs, opens the file's gate, and syncs.
    pub fn unveil<D: Disk>(&mut self, disk: &mut D) -> Result<(), FileErr>
        requires length { HasTail (D.state disk.old).told self.old }
        ensures ok { OnOk result (IsTrue D.tells
            → (D.state disk.new).bytes ≡ settled_state (1 ∷ drop 1 (D.state disk.old).bytes.seen)) }

        // A crash leaves it shut, or whole and open.
        ensures err { OnErr result (IsTrue D.tells → IsVeiled (D.state disk.old).bytes
            → (image : List ℕ) → MayLeave (D.state disk.new).bytes image
            → (get_or image 0 0 ≢ 1) ⊎ (image ≡ 1 ∷ drop 1 (D.state disk.old).bytes.seen)) }
        ensures same { self.new ≡ self.old }
        ensures told { OnOk result (HasTail (D.state disk.new).told self.new) }
        ensures faults { CountsAlone result (D.state disk.old).faults (D.state disk.new).faults }
    {
        open_for_good(disk)?;
        Ok(())
    }

    /// Stands at the first block of an open file with this head. The damage is a base that reaches past the file's end
    /// less one byte.
    pub fn resume<D: Disk>(disk: &mut D, head: &FileHead) -> Result<BlockFile, FileErr>
        requires length { IsSomeAnd (D.state disk.old).told (λ n. 65 ≤ n) }
        ensures err { IfErr result (λ e. IsTrue D.tells
            → IsResumeErr (D.state disk.old).bytes.seen head.now.base_len e) }
        ensures only { IfErr result (λ e. (e ≢ FileErr.NoMemory)
            × ((found : ℕ) → e ≢ FileErr.NewerFormat found)) }
        ensures place { IfOk result (λ file. gate_of file ≡ 64 + head.now.base_len) }
        ensures base_len { IfOk result (λ file. base_len_of file ≡ head.now.base_len) }
        ensures base_digest { IfOk result (λ file. base_digest_of file ≡ head.now.base_digest.0) }
        ensures told { IfOk result (λ file. IsSomeAnd (D.state disk.new).told
            (λ n. gate_of file + 1 ≤ n)) }
        ensures state { IsTrue D.tells → (D.state disk.new).bytes ≡ (D.state disk.old).bytes }
        ensures length { KeepsLength (D.state disk.old).told (D.state disk.new).told }
        ensures faults { Counts result (D.state disk.old).faults (D.state disk.new).faults }
    {
        let room = disk.len()?.saturating_sub(65);
        if head.base_len > room {
            return Err(FileErr::Damaged(Damage::Length {
                at: 18,
                kept: head.base_len,
                found: room,
            }));
        }
        Ok(BlockFile {
            at: 64 + head.base_len,
            base_len: head.base_len,
            base_digest: head.base_digest,
        })
    }

    /// The base. The damage is another digest than the head names, which isn't looked at where there is no base.
    pub fn base<D: Disk>(&self, alloc: Global, disk: &mut D) -> Result<Bytes, FileErr>
        requires length { IsSomeAnd (D.state disk.old).told (λ n. 64 + base_len_of self.now ≤ n) }
        ensures bytes { IfOk result (λ base. IsTrue D.tells
            → base ≡ take (base_len_of self.now) (drop 64 (D.state disk.old).bytes.seen)) }
        ensures digest { IfOk result (λ base. (length base ≡ base_len_of self.now)
            × ((base_len_of self.now ≡ 0) ⊎ (base_digest_of self.now ≡ digest_of base))) }
        ensures err { IfErr result (λ e. IsTrue D.tells
            → IsBaseErr (take (base_len_of self.now) (drop 64 (D.state disk.old).bytes.seen))
            (base_digest_of self.now) e) }
        ensures only { IfErr result (λ e. (found : ℕ) → e ≢ FileErr.NewerFormat found) }
        ensures state { IsTrue D.tells → (D.state disk.new).bytes ≡ (D.state disk.old).bytes }
        ensures length { KeepsLength (D.state disk.old).told (D.state disk.new).told }
        ensures faults { Counts result (D.state disk.old).faults (D.state disk.new).faults }
    {
        let base = read_part(alloc, disk, 64, self.base_len)?;
        let found = base_digest(&base);
        if self.base_len != 0 && found != self.base_digest {
            return Err(FileErr::Damaged(Damage::Base {
                kept: self.base_digest,
                found,
            }));
        }
        Ok(Bytes::of(base))
    }

    /// Writes zeros over a range of the blocks, where they don't stand already, and syncs.
    pub fn zero_range<D: Disk>(&mut self, disk: &mut D, at: u64, len: u64) -> Result<(), FileErr>
        requires { IsSomeAnd (D.state disk.old).told (λ n. at + len ≤ n) }

        // After it every image has zeros there, and all else as before.
        ensures ok { OnOk result (IsTrue D.tells
            → (D.state disk.new).bytes
            ≡ settled_state (overlay at (replicate len 0) (D.state disk.old).bytes.seen)) }
        ensures zeroed { OnOk result (IsTrue D.tells
            → ZerosContent at len (D.state disk.old).bytes (D.state disk.new).bytes) }

        // A crash leaves all else.
        ensures kept { IsTrue D.tells
            → KeepsOutside at len (D.state disk.old).bytes (D.state disk.new).bytes }

        // Where zeros stand there, nothing is written.
        ensures idle { OnErr result (IsTrue D.tells → IsZeros at len (D.state disk.old).bytes.seen
            → (D.state disk.new).bytes ≡ (D.state disk.old).bytes) }
        ensures same { self.new ≡ self.old }
        ensures length { KeepsLength (D.state disk.old).told (D.state disk.new).told }
        ensures faults { CountsAlone result (D.state disk.old).faults (D.state disk.new).faults }
    {
        zero(disk, at, len)?;
        Ok(())
    }

    /// Writes zeros over a range of the blocks, where they don't stand already. Nothing is synced: they stand for good
    /// once [`BlockFile::sync`] has answered, so several ranges cost one sync.
    pub fn clear_range<D: Disk>(&mut self, disk: &mut D, at: u64, len: u64) -> Result<(), FileErr>
        requires { IsSomeAnd (D.state disk.old).told (λ n. at + len ≤ n) }
        ensures seen { OnOk result (IsTrue D.tells
            → (D.state disk.new).bytes.seen ≡ overlay at (replicate len 0) (D.state disk.old).bytes.seen) }

        // All else is as before, also what a crash leaves of it.
        ensures within { IsTrue D.tells
            → ChangesWithin at len (D.state disk.old).bytes (D.state disk.new).bytes }

        // Where zeros stand there, nothing is written.
        ensures idle { IsTrue D.tells → IsZeros at len (D.state disk.old).bytes.seen
            → (D.state disk.new).bytes ≡ (D.state disk.old).bytes }
        ensures same { self.new ≡ self.old }
        ensures length { KeepsLength (D.state disk.old).told (D.state disk.new).told }
        ensures faults { CountsAlone result (D.state disk.old).faults (D.state disk.new).faults }
    {
        zero_pieces(disk, at, len)?;
        Ok(())
    }

    /// Syncs: what was cleared stands for good.
    pub fn sync<D: Disk>(&mut self, disk: &mut D) -> Result<(), FileErr>
        ensures ok { OnOk result (IsTrue D.tells
            → (D.state disk.new).bytes ≡ settled_state (D.state disk.old).bytes.seen) }
        ensures err { OnErr result (IsTrue D.tells → (D.state disk.new).bytes ≡ (D.state disk.old).bytes) }
        ensures same { self.new ≡ self.old }
        ensures length { KeepsLength (D.state disk.old).told (D.state disk.new).told }
        ensures faults { CountsAlone result (D.state disk.old).faults (D.state disk.new).faults }
    {
        disk.sync()?;
        Ok(())
    }

    /// Cuts off what stands behind the tail gate, which is the next gate, and syncs.
    pub fn trim<D: Disk>(&mut self, disk: &mut D) -> Result<(), FileErr>
        requires length { HasTail (D.state disk.old).told self.old }

        // After it the file ends with its tail gate in every image.
        ensures ok { OnOk result (IsTrue D.tells
            → (D.state disk.new).bytes
            ≡ settled_state (take (gate_of self.old + 1) (D.state disk.old).bytes.seen)) }

        // An image has the same blocks.
        ensures images { IsTrue D.tells → IsSettled (D.state disk.old).bytes
            → (front : List ℕ) (blocks : List (List ℕ))
            → IsFileOf front blocks (D.state disk.old).bytes.seen
            → tail_of front blocks ≡ gate_of self.old → (image : List ℕ)
            → MayLeave (D.state disk.new).bytes image → IsFileOf front blocks image }

        // Where it ends there already, nothing is cut.
        ensures idle { OnErr result (IsTrue D.tells
            → length (D.state disk.old).bytes.seen ≡ gate_of self.old + 1
            → (D.state disk.new).bytes ≡ (D.state disk.old).bytes) }
        ensures same { self.new ≡ self.old }
        ensures told { OnOk result (IsSomeAnd (D.state disk.new).told (λ n. n
            ≡ gate_of self.old + 1)) }
        ensures faults { CountsAlone result (D.state disk.old).faults (D.state disk.new).faults }
    {
        cut_for_good(disk, self.at + 1)?;
        Ok(())
    }

    /// Fills a piece from a range of the file. After an error the piece holds anything.
    pub fn read_range<D: Disk>(&self, disk: &mut D, at: u64, into: &mut [u8]) -> Result<(), FileErr>
        requires { IsSomeAnd (D.state disk.old).told (λ n. at + length into.old ≤ n) }
        ensures bytes { OnOk result (IsTrue D.tells
            → into.new ≡ take (length into.old) (drop at (D.state disk.old).bytes.seen)) }
        ensures state { IsTrue D.tells → (D.state disk.new).bytes ≡ (D.state disk.old).bytes }
        ensures length { KeepsLength (D.state disk.old).told (D.state disk.new).told }
        ensures faults { CountsAlone result (D.state disk.old).faults (D.state disk.new).faults }
    {
        fill(disk, at, into)?;
        Ok(())
    }

    /// The offset of the next gate: that of the tail gate once [`BlockFile::next_block`] has answered None.
    pub fn tail(&self) -> u64
        ensures { result ≡ gate_of self.now }
    {
        self.at
    }

    /// Reads the next block, whose first journal is to have this number, and stands behind it. None where its gate is
    /// shut, so that it is the tail gate: from then on blocks are committed. The damages are [`Damage::Length`], looked
    /// for in the order of the bytes, then [`Damage::Entry`] for the first header that doesn't decode, and at last for
    /// the first journal where it has another number. The body is read over what the buffer holds, so that calls with
    /// the same buffer take memory for their longest body alone.
    pub fn next_block<D: Disk>(
        &mut self,
        alloc: Global,
        disk: &mut D,
        buffer: &mut Vec<u8>,
        first: u64,
    ) -> Result<Option<BlockAt>, FileErr>
        requires told { HasTail (D.state disk.old).told self.old }
        requires number { first < 2 ^ 32 }
        ensures answer { IsTrue D.tells → IsNextBlock (gate_of self.old)
            (D.state disk.old).bytes.seen first result }

        // The block that stands there is the one that is read, and none is where the blocks end.
        ensures parse { IsTrue D.tells
            → GivesThere (gate_of self.old) (D.state disk.old).bytes.seen first result }
        ensures ends { IsTrue D.tells
            → GivesNone (gate_of self.old) (D.state disk.old).bytes.seen result }

        // Also where the disk doesn't tell what it holds.
        ensures read { IfOk result (λ found. IfSome found (λ block. (es : List Entry)
            × AreBlock first es × IsRead (gate_of self.old) es block)) }
        ensures only { IfErr result (λ e. (found : ℕ) → e ≢ FileErr.NewerFormat found) }
        ensures place { IfOk result (λ found. IfSome found (λ block.
            gate_of self.new ≡ gate_of self.old + 1 + block.len)) }
        ensures stays { OnErr result (self.new ≡ self.old) }
        ensures ended { IfOk result (λ found. IfNone found (self.new ≡ self.old)) }
        ensures base { KeepsBase self.old self.new }
        ensures told { OnOk result (HasTail (D.state disk.new).told self.new) }
        ensures state { IsTrue D.tells → (D.state disk.new).bytes ≡ (D.state disk.old).bytes }
        ensures length { KeepsLength (D.state disk.old).told (D.state disk.new).told }
        ensures faults { Counts result (D.state disk.old).faults (D.state disk.new).faults }
    {
        match read_block(alloc, disk, buffer, self.at, first) {
            Ok(Some(block)) => {
                self.at = self.at + 1 + block.len;
                Ok(Some(block))
            }
            Ok(None) => Ok(None),
            Err(e) => Err(e),
        }
    }

    /// Commits a block, given without its gate. It is written behind the tail gate, by one write, with a new tail gate
    /// behind it; then the disk is synced, the gate is opened by a write of its own, and the disk is synced again.
    pub fn commit_block<D: Disk>(&mut self, disk: &mut D, block: &[u8]) -> Result<(), FileErr>
        requires length { IfSome (D.state disk.old).told (λ n. gate_of self.old + 1 ≤ n) }
        requires gate { IsTrue D.tells → IsShutAt (gate_of self.old) (D.state disk.old).bytes.seen }

        // Each image has it from then on, or, after an error, an image has it whole or not at all.
        ensures ok { OnOk result (AddsBlock D.tells self.old self.new block.now
            (D.state disk.old).bytes (D.state disk.new).bytes) }
        ensures err { OnErr result (IsTrue D.tells → MayAddBlock (gate_of self.old) block.now
            (D.state disk.old).bytes (D.state disk.new).bytes) }
        ensures place { OnOk result (gate_of self.new ≡ gate_of self.old + 1 + length block.now) }
        ensures stays { OnErr result (self.new ≡ self.old) }
        ensures base { KeepsBase self.old self.new }
        ensures length { OnOk result (HasTail (D.state disk.new).told self.new) }
        ensures faults { CountsAlone result (D.state disk.old).faults (D.state disk.new).faults }
    {
        self.commit_blocks(disk, block)
    }

    /// Commits the blocks of a group together: the first is given without its gate, and each further one behind an open
    /// gate. They are written behind the tail gate, by one write, with a new tail gate behind them; then the disk is
    /// synced, the one gate in front is opened by a write of its own, and the disk is synced again.
    pub fn commit_blocks<D: Disk>(&mut self, disk: &mut D, bytes: &[u8]) -> Result<(), FileErr>
        requires length { IfSome (D.state disk.old).told (λ n. gate_of self.old + 1 ≤ n) }
        requires gate { IsTrue D.tells → IsShutAt (gate_of self.old) (D.state disk.old).bytes.seen }

        // Each image has all of them from then on, or, after an error, an image has all or none.
        ensures ok { OnOk result ((group : List (List ℕ)) → IsGroupOf group bytes.now
            → AddsGroup D.tells self.old self.new group (D.state disk.old).bytes (D.state disk.new).bytes) }
        ensures err { OnErr result (IsTrue D.tells → (group : List (List ℕ)) → IsGroupOf group bytes.now
            → MayAddGroup (gate_of self.old) group (D.state disk.old).bytes (D.state disk.new).bytes) }
        ensures place { OnOk result (gate_of self.new ≡ gate_of self.old + 1 + length bytes.now) }
        ensures stays { OnErr result (self.new ≡ self.old) }
        ensures base { KeepsBase self.old self.new }
        ensures length { OnOk result (HasTail (D.state disk.new).told self.new) }
        ensures faults { CountsAlone result (D.state disk.old).faults (D.state disk.new).faults }
    {
        stage(disk, self.at, bytes)?;
        open_gate(disk, self.at)?;
        self.at = self.at + 1 + bytes.len() as u64;
        Ok(())
    }
}

/// Reads the block whose gate stands at a place, where it is open.
fn read_block<D: Disk>(
    alloc: Global,
    disk: &mut D,
    buffer: &mut Vec<u8>,
    at: u64,
    first: u64,
) -> Result<Option<BlockAt>, FileErr>
    requires told { IsSomeAnd (D.state disk.old).told (λ n. at + 1 ≤ n) }
    requires number { first < 2 ^ 32 }
    ensures answer { IsTrue D.tells → IsNextBlock at (D.state disk.old).bytes.seen first result }
    ensures read { IfOk result (λ found. IfSome found (λ block. (es : List Entry)
        × AreBlock first es × IsRead at es block)) }
    ensures only { IfErr result (λ e. (found : ℕ) → e ≢ FileErr.NewerFormat found) }
    ensures told { IfOk result (λ found. IfSome found (λ block.
        IsSomeAnd (D.state disk.new).told (λ n. at + 1 + block.len + 1 ≤ n)
        × (at + 1 + block.len + 1 ≤ 2 ^ 62))) }
    ensures state { IsTrue D.tells → (D.state disk.new).bytes ≡ (D.state disk.old).bytes }
    ensures length { KeepsLength (D.state disk.old).told (D.state disk.new).told }
    ensures faults { Counts result (D.state disk.old).faults (D.state disk.new).faults }
{
    let Some(head) = read_block_head(disk, at)? else {
        return Ok(None);
    };
    read_over(disk, at + 45, head.body_len, buffer)?;
    match read_body(alloc, buffer, head.count, at, first) {
        Ok(records) => Ok(Some(BlockAt {
            at,
            len: 44 + head.body_len,
            root: head.root,
            records: Items::of(records),
        })),
        Err(e) => Err(e),
    }
}
