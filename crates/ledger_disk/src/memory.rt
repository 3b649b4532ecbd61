//! A disk in memory, for trial ledgers and tests, which fails and crashes as it is told to.

ghost use Rattle.std.specs.Prelude.{◌≡◌, ◌+◌, ◌-◌, ◌^◌, ◌<◌, ◌≤◌, ◌++◌, [], true, set, length, take, drop, Some, max, min, IfOk, OnOk, OnErr, IsSome, IfSome, IsSomeAnd, vec_capacity};
ghost use Rattle.ledger_bytes.specs.Causes.{count_after};
ghost use Rattle.ledger_disk.specs.Disk.{MayLeave, settled_state, overlay, with_write, cut_to, CountsFault, KeepsLength, MayHaveWritten, MayHaveCut};
ghost use Rattle.ledger_disk.specs.Parts.{state_of};
ghost use Rattle.ledger_disk.specs.Picks.{IsPicked};

use crate::Disk;
use crate::pieces::{copy_out, overlay, settle};
use crate::torn::torn_bytes;
use ledger_bytes::{Bytes, Failed, NoMemory};
use std::alloc::{AllocError, Global};

// The most writes that may be pending.
const MOST_PENDING: usize = 4096;

// The most bytes that a disk has.
const MOST_BYTES: u64 = 1 << 62;

/// Which of its images a crash leaves.
#[derive(Clone, Copy, Debug, PartialEq, Eq)]
pub enum Pick {
    /// What a read gives.
    AllWritten,
    /// The bytes of the last sync.
    NoneWritten,
    /// The greatest length, with bytes of a generator, begun with this number, wherever a byte may be any byte.
    Torn(u64),
}

/// A disk in memory, which can crash. It takes the memory for all that it can hold when it is made, and touches it
/// where bytes are written. It fails on the calls that it was told to fail on, and on a write that its room or its
/// record of 4,096 pending writes can't hold. A call that fails does nothing, and is counted. A sync costs what was
/// written since the one before.
#[derive(Drop)]
pub struct MemDisk {
    alloc: Global,
    bytes: Vec<u8>,
    stable: Vec<u8>,
    // begin and length of each write since the last sync
    ranges: Vec<(u64, u64)>,
    least: u64,
    greatest: u64,
    room: u64,
    fail_at: Vec<u64>,
    calls: u64,
    faults: u64,
    ghost bounded: { greatest ≤ 2 ^ 62 },
    ghost within: { greatest ≤ room },
    ghost room_for_bytes: { room ≤ vec_capacity bytes },
    ghost room_for_stable: { room ≤ vec_capacity stable },
    ghost room_for_ranges: { 4096 ≤ vec_capacity ranges },
    ghost stable_least: { least ≤ length stable.items },
    ghost stable_greatest: { length stable.items ≤ greatest },
    ghost consistent: { MayLeave
        (state_of bytes.items stable.items ranges.items least greatest) bytes.items },
}

impl MemDisk {
    ghost use Rattle.ledger_disk.specs.Memory.{memory_state, memory_faults, IsRefused, IsCounted, IsUnused, SamePlan, room_of};

    /// An empty disk that can hold `room` bytes. `fail_at` has the numbers of the calls of `len`, `read`, `write`,
    /// `cut` and `sync` that fail, counted together. The first call has the number 0.
    pub fn new(alloc: Global, room: usize, fail_at: Vec<u64>) -> Result<MemDisk, NoMemory>
        ensures empty { IfOk result (λ disk. memory_state disk ≡ settled_state []) }
        ensures plan { IfOk result (IsUnused fail_at.items) }
        ensures room { IfOk result (λ disk. room_of disk ≡ room) }
    {
        Ok(MemDisk {
            alloc,
            bytes: Vec::with_capacity(alloc, room)?,
            stable: Vec::with_capacity(alloc, room)?,
            ranges: Vec::with_capacity(alloc, MOST_PENDING)?,
            least: 0,
            greatest: 0,
            room: room as u64,
            fail_at,
            calls: 0,
            faults: 0,
        })
    }

    /// What a crash at this moment leaves, as a disk of the same room where nothing is pending and no call fails.
    pub fn crash(&self, pick: Pick) -> Result<MemDisk, NoMemory>
        ensures image { IfOk result (λ disk.
            MayLeave (memory_state self.now) (memory_state disk).seen) }
        ensures settled { IfOk result
            (λ disk. memory_state disk ≡ settled_state (memory_state disk).seen) }
        ensures picked { IfOk result (λ disk.
            IsPicked pick (memory_state self.now) (memory_state disk).seen) }
        ensures plan { IfOk result (IsUnused []) }
        ensures room { IfOk result (λ disk. room_of disk ≡ room_of self.now) }
    {
        match pick {
            Pick::AllWritten => disk_of(self.alloc, self.room, &self.bytes),
            Pick::NoneWritten => disk_of(self.alloc, self.room, &self.stable),
            Pick::Torn(seed) => {
                let image = torn_bytes(
                    self.alloc,
                    &self.stable,
                    &self.ranges,
                    self.greatest,
                    seed,
                )?;
                disk_of(self.alloc, self.room, &image)
            }
        }
    }

    /// What a read of the whole disk gives.
    pub fn bytes(&self) -> Result<Bytes, NoMemory>
        ensures { IfOk result (λ bytes. bytes ≡ (memory_state self.now).seen) }
    {
        Bytes::copy_of(self.alloc, &self.bytes)
    }

    /// Changes a byte, in what is read and in what is stable.
    pub fn set_byte(&mut self, at: u64, to: u8)
        requires inside { at < length (memory_state self.old).seen }
        requires quiet { memory_state self.old ≡ settled_state (memory_state self.old).seen }
        ensures state { memory_state self.new
            ≡ settled_state (set (memory_state self.old).seen at to) }
        ensures plan { SamePlan self.old self.new }
    {
        self.bytes[at as usize] = to;
        self.stable[at as usize] = to;
    }

    // Begins a call, which fails where its number is one of those that fail.
    fn begin(&mut self) -> Result<(), Failed>
        ensures state { memory_state self.new ≡ memory_state self.old }
        ensures faults { CountsFault result (memory_faults self.old) (memory_faults self.new) }
        ensures refused { OnErr result (IsRefused self.old) }
        ensures counted { IsCounted result self.old self.new }
    {
        let number = self.calls;
        self.calls = number.saturating_add(1);
        if self.fail_at.contains(&number) {
            return Err(self.fail());
        }
        Ok(())
    }

    // Counts a failure.
    fn fail(&mut self) -> Failed
        ensures same { self.new
            ≡ record self.old { faults = min (self.old.faults + 1) (2 ^ 64 - 1) } }
        ensures rose { memory_faults self.new ≡ count_after (memory_faults self.old) }
    {
        self.faults = self.faults.saturating_add(1);
        Failed
    }
}

// A disk that holds these bytes, with nothing pending.
fn disk_of(alloc: Global, room: u64, image: &[u8]) -> Result<MemDisk, NoMemory>
    requires bounded { length image.now ≤ 2 ^ 62 }
    requires within { length image.now ≤ room }
    ensures state { IfOk result (λ disk. state_of disk.bytes.items disk.stable.items
        disk.ranges.items disk.least disk.greatest ≡ settled_state image.now) }
    ensures plan { IfOk result (λ disk. (disk.fail_at.items ≡ []) × (disk.calls ≡ 0)
        × (disk.faults ≡ 0)) }
    ensures room { IfOk result (λ disk. disk.room ≡ room) }
{
    let length = image.len() as u64;
    Ok(MemDisk {
        alloc,
        bytes: with_room(alloc, room, image)?,
        stable: with_room(alloc, room, image)?,
        ranges: Vec::with_capacity(alloc, MOST_PENDING)?,
        least: length,
        greatest: length,
        room,
        fail_at: Vec::new(alloc),
        calls: 0,
        faults: 0,
    })
}

// A copy of these bytes that can grow up to the room.
fn with_room(alloc: Global, room: u64, image: &[u8]) -> Result<Vec<u8>, AllocError>
    ensures items { IfOk result (λ bytes. bytes.items ≡ image.now) }
    ensures capacity { IfOk result (λ bytes. room ≤ vec_capacity bytes) }
{
    let mut bytes = Vec::with_capacity(alloc, room as usize)?;
    bytes.extend_from_slice(image)?;
    Ok(bytes)
}

impl Disk for MemDisk {
    ghost use Rattle.std.specs.Prelude.{◌⊎◌, refl};
    ghost use Rattle.ledger_disk.specs.Memory.{IsRefused, IsCounted, room_of, pending_of, memory_state, memory_faults, told_len};
    ghost use Rattle.ledger_disk.specs.Bounds.{some_bounded};

    ghost tells = { true };

    ghost state = { λ m. record { bytes = memory_state m; told = told_len m; faults = memory_faults m } };

    ghost bounded = { λ m n is. some_bounded (length m.bytes.items) m.greatest n is
        m.consistent.no_longer m.bounded };

    ghost length_is = { λ m _. refl };

    ghost seen_may_be_left = { λ m _. m.consistent };

    fn len(&mut self) -> Result<u64, Failed>
        ensures value { IfOk result (λ n. told_len self.new ≡ Some n) }
        ensures state { memory_state self.new ≡ memory_state self.old }
        ensures length { KeepsLength (told_len self.old) (told_len self.new) }
        ensures faults { CountsFault result (memory_faults self.old) (memory_faults self.new) }
        ensures refused { OnErr result (IsRefused self.old) }
        ensures counted { IsCounted result self.old self.new }
    {
        self.begin()?;
        Ok(self.bytes.len() as u64)
    }

    fn read(&mut self, at: u64, into: &mut [u8]) -> Result<usize, Failed>
        ensures told { OnOk result (IsSome (told_len self.new)) }
        ensures count { IfOk result (λ n. IfSome (told_len self.new)
            (λ len. n ≡ min (length into.old) (len - at))) }
        ensures bytes { IfOk result
            (λ n. into.new ≡ take n (drop at (memory_state self.old).seen) ++ drop n into.old) }
        ensures state { memory_state self.new ≡ memory_state self.old }
        ensures length { KeepsLength (told_len self.old) (told_len self.new) }
        ensures faults { CountsFault result (memory_faults self.old) (memory_faults self.new) }
        ensures refused { OnErr result (IsRefused self.old) }
        ensures counted { IsCounted result self.old self.new }
        ensures unread { OnErr result (into.new ≡ into.old) }
    {
        self.begin()?;
        Ok(copy_out(&self.bytes, at, into))
    }

    fn write(&mut self, at: u64, piece: &[u8]) -> Result<(), Failed>
        requires { IfSome (told_len self.old) (λ n. at ≤ n) }
        ensures ok { OnOk result (memory_state self.new ≡ with_write at (length piece.now)
            (overlay at piece.now (memory_state self.old).seen) (memory_state self.old)) }
        ensures err { OnErr result (MayHaveWritten at (length piece.now)
            (memory_state self.old) (memory_state self.new)) }
        ensures told { OnOk result (IsSomeAnd (told_len self.new)
            (λ n. at + length piece.now ≤ n)) }
        ensures fits { OnOk result (at + length piece.now ≤ 2 ^ 62) }
        ensures length { OnOk result (IfSome (told_len self.old)
            (λ n. told_len self.new ≡ Some (max n (at + length piece.now)))) }
        ensures length_err { OnErr result (IfSome (told_len self.old)
            (λ n. IsSomeAnd (told_len self.new)
            (λ m. (n ≤ m) × (m ≤ max n (at + length piece.now))))) }
        ensures faults { CountsFault result (memory_faults self.old) (memory_faults self.new) }

        // It fails for no other reason, and then nothing is written.
        ensures refused { OnErr result (IsRefused self.old
            ⊎ ((room_of self.old < at + length piece.now)
            ⊎ ((2 ^ 62 < at + length piece.now) ⊎ (4096 ≤ pending_of self.old)))) }
        ensures taken { OnOk result ((at + length piece.now ≤ room_of self.old)
            × (pending_of self.old < 4096)) }
        ensures unwritten { OnErr result (memory_state self.new ≡ memory_state self.old) }
        ensures counted { IsCounted result self.old self.new }
    {
        self.begin()?;
        let end = at + piece.len() as u64;
        if end > self.room || end > MOST_BYTES || self.ranges.len() >= MOST_PENDING {
            return Err(self.fail());
        }
        let Ok(()) = self.ranges.push((at, piece.len() as u64)) else {
            unreachable!()
        };
        overlay(&mut self.bytes, at as usize, piece);
        self.greatest = self.greatest.max(self.bytes.len() as u64);
        Ok(())
    }

    fn cut(&mut self, to: u64) -> Result<(), Failed>
        requires { IfSome (told_len self.old) (λ n. to ≤ n) }
        ensures ok { OnOk result (memory_state self.new ≡ cut_to to (memory_state self.old)) }
        ensures err { OnErr result (MayHaveCut to (memory_state self.old) (memory_state self.new)) }
        ensures told { OnOk result (IsSome (told_len self.new)) }
        ensures length { OnOk result (told_len self.new ≡ Some to) }
        ensures length_err { OnErr result (IfSome (told_len self.old)
            (λ n. IsSomeAnd (told_len self.new) (λ m. (to ≤ m) × (m ≤ n)))) }
        ensures faults { CountsFault result (memory_faults self.old) (memory_faults self.new) }
        ensures refused { OnErr result (IsRefused self.old) }
        ensures uncut { OnErr result (memory_state self.new ≡ memory_state self.old) }
        ensures counted { IsCounted result self.old self.new }
    {
        self.begin()?;
        self.bytes.truncate(to as usize);
        self.least = self.least.min(to);
        Ok(())
    }

    fn sync(&mut self) -> Result<(), Failed>
        ensures ok { OnOk result (memory_state self.new
            ≡ settled_state (memory_state self.old).seen) }
        ensures err { OnErr result (memory_state self.new ≡ memory_state self.old) }
        ensures told { OnOk result (IsSome (told_len self.new)) }
        ensures length { KeepsLength (told_len self.old) (told_len self.new) }
        ensures faults { CountsFault result (memory_faults self.old) (memory_faults self.new) }
        ensures refused { OnErr result (IsRefused self.old) }
        ensures counted { IsCounted result self.old self.new }
    {
        self.begin()?;
        settle(&mut self.stable, &self.bytes, &self.ranges);
        self.ranges.clear();
        self.least = self.bytes.len() as u64;
        self.greatest = self.least;
        Ok(())
    }

    fn faults(&self) -> u64
        ensures { result ≡ memory_faults self.now }
    {
        self.faults
    }
}
