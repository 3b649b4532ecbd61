//! How a notary's list is taken up from its file.

ghost use Rattle.std.specs.Prelude.{◌≡◌, ◌≢◌, ◌⊎◌, ◌<◌, ◌≤◌, ◌+◌, ◌*◌, ◌^◌, max, true, false, ℕ, IsTrue, List, Some, None, get_or, take, drop, length, IfOk, IfSome, OnOk, OnErr, IsSomeAnd};
ghost use Rattle.ledger_disk.specs.Disk.{MayLeave, CountsFault, KeepsLength, settled_state};
ghost use Rattle.time_peg.specs.Entries.{IsList, time_in};
ghost use Rattle.notary_ledger.specs.Slots.{Lists, Shut, tail_of};
ghost use Rattle.notary_ledger.specs.Notaries.{Sound};
ghost use Rattle.notary_ledger.specs.Opening.{IsSlot, IsShutAgain, CountsOpen, KeepsList};

use crate::entry::time_of;
use crate::list::Entries;
use crate::slot::write_gate;
use block_file::FileErr;
use journal_record::NOTARY_LIMIT;
use ledger_bytes::Failed;
use ledger_disk::Disk;
use std::alloc::Global;
use time_peg::ENTRY_LEN;

/// The list of a disk. Afterwards it stands there for good, and the tail gate behind it is shut for good.
pub(crate) fn load<D: Disk>(alloc: Global, disk: &mut D) -> Result<Entries, FileErr>
    ensures lists { IfOk result (λ list. IsTrue D.tells
        → Lists list.entries (D.state disk.old).bytes.seen) }
    ensures sound { IfOk result (λ list. Sound D.tells list.entries None (D.state disk.new)) }
    // What a crash leaves of a refused disk has the list of something that a crash might have left before.
    ensures err { OnErr result (IsTrue D.tells → (image : List ℕ)
        → MayLeave (D.state disk.new).bytes image → KeepsList (D.state disk.old).bytes image) }
    ensures same { IfOk result (λ list. IsTrue D.tells
        → IsShutAgain (73 * length list.entries) (D.state disk.old).bytes.seen (D.state disk.new).bytes.seen) }
    ensures faults { CountsOpen result (D.state disk.old).faults (D.state disk.new).faults }
{
    disk.sync()?;
    let len = disk.len()?;
    let list = read_slots(alloc, disk, len)?;
    shut_tail(disk, len, 73 * list.len())?;
    Ok(list)
}

/// The open slots from the start, of a disk with so many bytes.
fn read_slots<D: Disk>(alloc: Global, disk: &mut D, len: u64) -> Result<Entries, FileErr>
    requires told { (D.state disk.old).told ≡ Some len }
    ensures lists { IfOk result (λ list. IsTrue D.tells
        → Lists list.entries (D.state disk.old).bytes.seen) }
    ensures list { IfOk result (λ list. IsList list.entries) }
    ensures within { IfOk result (λ list. 73 * length list.entries + 1 ≤ max 1 len) }
    ensures state { IsTrue D.tells → (D.state disk.new).bytes ≡ (D.state disk.old).bytes }
    ensures told { (D.state disk.new).told ≡ Some len }
    ensures faults { CountsOpen result (D.state disk.old).faults (D.state disk.new).faults }
{
    let mut list = Entries::new(alloc);
    for index in 0..NOTARY_LIMIT {
        let Some(entry) = read_slot(disk, 73 * index, len, list.last_time())? else {
            return Ok(list);
        };
        let Ok(()) = list.reserve() else {
            return Err(FileErr::NoMemory);
        };
        list.push(&entry);
    }
    Ok(list)
}

/// The entry in the slot at a place, where that slot is open. The slot before it has the time `last`.
fn read_slot<D: Disk>(
    disk: &mut D,
    at: u64,
    len: u64,
    last: u64,
) -> Result<Option<[u8; ENTRY_LEN]>, Failed>
    requires told { (D.state disk.old).told ≡ Some len }
    requires fits { at ≤ 2 ^ 62 }
    ensures slot { IfOk result (λ found. IsTrue D.tells
        → IsSlot at last (D.state disk.old).bytes.seen found) }
    ensures later { IfOk result (λ found. IfSome found
        (λ e. (last ≤ time_in e) × (length e ≡ 72) × (at + 74 ≤ len))) }
    ensures state { IsTrue D.tells → (D.state disk.new).bytes ≡ (D.state disk.old).bytes }
    ensures told { (D.state disk.new).told ≡ Some len }
    ensures faults { CountsFault result (D.state disk.old).faults (D.state disk.new).faults }
{
    if len < at + 74 {
        return Ok(None);
    }
    let (gate, entry) = read_whole(disk, at)?;
    if gate != 1 || time_of(&entry) < last {
        return Ok(None);
    }
    Ok(Some(entry))
}

/// The gate and the entry of the slot at a place, by one call.
fn read_whole<D: Disk>(disk: &mut D, at: u64) -> Result<(u8, [u8; ENTRY_LEN]), Failed>
    requires { IsSomeAnd (D.state disk.old).told (λ n. at + 73 ≤ n) }
    ensures gate { IfOk result (λ slot. IsTrue D.tells
        → slot.0 ≡ get_or (D.state disk.old).bytes.seen at 0) }
    ensures entry { IfOk result (λ slot. IsTrue D.tells
        → slot.1 ≡ take 72 (drop (at + 1) (D.state disk.old).bytes.seen)) }
    ensures size { IfOk result (λ slot. length slot.1 ≡ 72) }
    ensures state { IsTrue D.tells → (D.state disk.new).bytes ≡ (D.state disk.old).bytes }
    ensures length { KeepsLength (D.state disk.old).told (D.state disk.new).told }
    ensures faults { CountsFault result (D.state disk.old).faults (D.state disk.new).faults }
{
    let mut slot = [0u8; 73];
    disk.read(at, &mut slot)?;
    let (_, bytes) = slot.split_at(1);
    let mut entry = [0u8; ENTRY_LEN];
    entry.copy_from_slice(bytes);
    Ok((slot[0], entry))
}

/// Shuts the tail gate of a file that is empty, or whose tail gate reads 01.
fn shut_tail<D: Disk>(disk: &mut D, len: u64, at: u64) -> Result<(), Failed>
    requires told { (D.state disk.old).told ≡ Some len }
    requires within { at + 1 ≤ max 1 len }
    ensures ok { OnOk result (IsTrue D.tells
        → (D.state disk.old).bytes ≡ settled_state (D.state disk.old).bytes.seen
        → (es : List (List ℕ)) → tail_of es ≡ at → Lists es (D.state disk.old).bytes.seen
        → Shut es (D.state disk.new).bytes) }
    ensures err { OnErr result (IsTrue D.tells → (image : List ℕ)
        → (D.state disk.old).bytes ≡ settled_state (D.state disk.old).bytes.seen
        → (es : List (List ℕ)) → tail_of es ≡ at → Lists es (D.state disk.old).bytes.seen
        → MayLeave (D.state disk.new).bytes image → Lists es image) }
    ensures same { OnOk result (IsTrue D.tells
        → IsShutAgain at (D.state disk.old).bytes.seen (D.state disk.new).bytes.seen) }
    ensures told { OnOk result (IsSomeAnd (D.state disk.new).told (λ n. at + 1 ≤ n)) }
    ensures faults { CountsFault result (D.state disk.old).faults (D.state disk.new).faults }
{
    if is_shut(disk, len, at)? {
        return Ok(());
    }
    write_gate(disk, at, 0)
}

/// Whether a gate stands at a place, and isn't 01.
fn is_shut<D: Disk>(disk: &mut D, len: u64, at: u64) -> Result<bool, Failed>
    requires told { (D.state disk.old).told ≡ Some len }
    requires within { at + 1 ≤ max 1 len }
    ensures open_ { IfOk result (λ shut. shut ≡ false
        → (len ≡ 0) ⊎ (IsTrue D.tells → get_or (D.state disk.old).bytes.seen at 0 ≡ 1)) }
    ensures shut { IfOk result (λ shut. shut ≡ true → (at + 1 ≤ len)
        × (IsTrue D.tells → get_or (D.state disk.old).bytes.seen at 0 ≢ 1)) }
    ensures state { IsTrue D.tells → (D.state disk.new).bytes ≡ (D.state disk.old).bytes }
    ensures told { (D.state disk.new).told ≡ Some len }
    ensures faults { CountsFault result (D.state disk.old).faults (D.state disk.new).faults }
{
    if len == 0 {
        return Ok(false);
    }
    let mut gate = [0u8; 1];
    disk.read(at, &mut gate)?;
    Ok(gate[0] != 1)
}
