//! How an entry is added to a notary's file, so that a stop leaves it there whole or not at all.

ghost use Rattle.std.specs.Prelude.{◌≡◌, ◌⊎◌, ◌+◌, ◌≤◌, ◌^◌, ◌++◌, [], ◌∷◌, ℕ, IsTrue, List, Some, None, length, IfSome, IsSomeAnd, OnOk, OnErr};
ghost use Rattle.ledger_disk.specs.Disk.{MayLeave, settled_state, overlay, CountsFault};
ghost use Rattle.ledger_disk.specs.Guards.{Guards, Confined};
ghost use Rattle.time_peg.specs.Entries.{IsList};
ghost use Rattle.notary_ledger.specs.Slots.{OnDisk, Shut, Half, opened, tail_of, staged_at};

use ledger_bytes::Failed;
use ledger_disk::Disk;
use time_peg::ENTRY_LEN;

/// Appends an entry to the list on a disk, whose tail gate stands at this place. In `half` stands the entry whose
/// gate was called to be written at this place, where no sync has succeeded since. That gate is shut first. After an
/// error the new entry may be the one in `half`.
pub(crate) fn put_entry<D: Disk>(
    disk: &mut D,
    half: &mut Option<[u8; ENTRY_LEN]>,
    at: u64,
    entry: &[u8; ENTRY_LEN],
) -> Result<(), Failed>
    requires place { at ≤ 2 ^ 62 }
    requires length { IsSomeAnd (D.state disk.old).told (λ n. at + 1 ≤ n) }
    ensures ok { OnOk result (IsTrue D.tells → (es : List (List ℕ)) → tail_of es ≡ at
        → OnDisk es half.old (D.state disk.old).bytes
        → Shut (es ++ entry.now ∷ []) (D.state disk.new).bytes) }
    ensures opened { OnOk result (half.new ≡ None) }
    ensures err { OnErr result (IsTrue D.tells → (es : List (List ℕ)) → tail_of es ≡ at
        → IsList (es ++ entry.now ∷ [])
        → OnDisk es half.old (D.state disk.old).bytes
        → OnDisk es half.new (D.state disk.new).bytes) }
    ensures half { OnErr result
        ((half.new ≡ half.old) ⊎ ((half.new ≡ None) ⊎ (half.new ≡ Some entry.now))) }
    ensures told { (k : ℕ) → IsSomeAnd (D.state disk.old).told (λ n. k ≤ n)
        → IsSomeAnd (D.state disk.new).told (λ n. k ≤ n) }
    ensures told_ok { OnOk result (IsSomeAnd (D.state disk.new).told (λ n. at + 74 ≤ n)) }
    ensures faults { CountsFault result (D.state disk.old).faults (D.state disk.new).faults }
{
    shut_again(disk, half, at)?;
    stage(disk, at, entry)?;
    open_gate(disk, half, at, entry)
}

/// Writes the gate at a place, and syncs.
pub(crate) fn write_gate<D: Disk>(disk: &mut D, at: u64, gate: u8) -> Result<(), Failed>
    requires { IfSome (D.state disk.old).told (λ n. at ≤ n) }
    ensures ok { OnOk result (IsTrue D.tells → (D.state disk.new).bytes
        ≡ settled_state (overlay at (gate ∷ []) (D.state disk.old).bytes.seen)) }
    ensures err { OnErr result (IsTrue D.tells → (file : List ℕ) → at + 1 ≤ length file
        → Confined at 1 file (D.state disk.old).bytes
        → Confined at 1 file (D.state disk.new).bytes) }
    ensures short { OnErr result (IsTrue D.tells → (image : List ℕ)
        → (D.state disk.old).bytes ≡ settled_state []
        → MayLeave (D.state disk.new).bytes image → length image ≤ at + 1) }
    ensures told { (k : ℕ) → IsSomeAnd (D.state disk.old).told (λ n. k ≤ n)
        → IsSomeAnd (D.state disk.new).told (λ n. k ≤ n) }
    ensures told_ok { OnOk result (IsSomeAnd (D.state disk.new).told (λ n. at + 1 ≤ n)) }
    ensures faults { CountsFault result (D.state disk.old).faults (D.state disk.new).faults }
{
    disk.write(at, &[gate])?;
    disk.sync()
}

/// Shuts the gate at a place again, where a stamp that failed may have opened it.
fn shut_again<D: Disk>(
    disk: &mut D,
    half: &mut Option<[u8; ENTRY_LEN]>,
    at: u64,
) -> Result<(), Failed>
    requires { IsSomeAnd (D.state disk.old).told (λ n. at + 1 ≤ n) }
    ensures ok { OnOk result (IsTrue D.tells → (es : List (List ℕ)) → tail_of es ≡ at
        → OnDisk es half.old (D.state disk.old).bytes → Shut es (D.state disk.new).bytes) }
    ensures shut { OnOk result (half.new ≡ None) }
    ensures err { OnErr result (IsTrue D.tells → (es : List (List ℕ)) → tail_of es ≡ at
        → OnDisk es half.old (D.state disk.old).bytes
        → OnDisk es half.old (D.state disk.new).bytes) }
    ensures same { OnErr result (half.new ≡ half.old) }
    ensures told { (k : ℕ) → IsSomeAnd (D.state disk.old).told (λ n. k ≤ n)
        → IsSomeAnd (D.state disk.new).told (λ n. k ≤ n) }
    ensures faults { CountsFault result (D.state disk.old).faults (D.state disk.new).faults }
{
    if half.is_none() {
        return Ok(());
    }
    write_gate(disk, at, 0)?;
    *half = None;
    Ok(())
}

/// Writes an entry and a new tail gate behind the shut gate at a place, and syncs.
fn stage<D: Disk>(disk: &mut D, at: u64, entry: &[u8]) -> Result<(), Failed>
    requires place { at ≤ 2 ^ 62 }
    requires length { IsSomeAnd (D.state disk.old).told (λ n. at + 1 ≤ n) }
    ensures ok { OnOk result (IsTrue D.tells → (D.state disk.new).bytes
        ≡ settled_state (staged_at at entry.now (D.state disk.old).bytes.seen)) }
    ensures err { OnErr result (IsTrue D.tells → (front : List ℕ)
        → Guards (D.state disk.old).bytes front → length front ≤ at + 1
        → Guards (D.state disk.new).bytes front) }
    ensures told { (k : ℕ) → IsSomeAnd (D.state disk.old).told (λ n. k ≤ n)
        → IsSomeAnd (D.state disk.new).told (λ n. k ≤ n) }
    ensures told_ok { OnOk result (IsSomeAnd (D.state disk.new).told
        (λ n. at + 2 + length entry.now ≤ n)) }
    ensures faults { CountsFault result (D.state disk.old).faults (D.state disk.new).faults }
{
    disk.write(at + 1, entry)?;
    disk.write(at + 1 + entry.len() as u64, &[0])?;
    disk.sync()
}

/// Opens the gate of a staged entry, which is on the list from then on.
fn open_gate<D: Disk>(
    disk: &mut D,
    half: &mut Option<[u8; ENTRY_LEN]>,
    at: u64,
    entry: &[u8; ENTRY_LEN],
) -> Result<(), Failed>
    requires { IsSomeAnd (D.state disk.old).told (λ n. at + 1 ≤ n) }
    ensures ok { OnOk result (IsTrue D.tells → (es : List (List ℕ)) (gate : ℕ) (rest : List ℕ)
        → tail_of es ≡ at
        → (D.state disk.old).bytes ≡ settled_state (opened es ++ (gate ∷ (entry.now ++ (0 ∷ rest))))
        → Shut (es ++ entry.now ∷ []) (D.state disk.new).bytes) }
    ensures opened { OnOk result (half.new ≡ None) }
    ensures err { OnErr result (IsTrue D.tells → (es : List (List ℕ)) (gate : ℕ) (rest : List ℕ)
        → tail_of es ≡ at → IsList (es ++ entry.now ∷ [])
        → (D.state disk.old).bytes ≡ settled_state (opened es ++ (gate ∷ (entry.now ++ (0 ∷ rest))))
        → Half es entry.now (D.state disk.new).bytes) }
    ensures half { OnErr result (half.new ≡ Some entry.now) }
    ensures told { (k : ℕ) → IsSomeAnd (D.state disk.old).told (λ n. k ≤ n)
        → IsSomeAnd (D.state disk.new).told (λ n. k ≤ n) }
    ensures faults { CountsFault result (D.state disk.old).faults (D.state disk.new).faults }
{
    *half = Some(*entry);
    write_gate(disk, at, 1)?;
    *half = None;
    Ok(())
}
