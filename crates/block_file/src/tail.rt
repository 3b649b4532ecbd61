//! The end of a file of blocks: blocks are put behind its tail gate, the gate is opened, and what is left over is cut.

ghost use Rattle.std.specs.Prelude.{◌≡◌, ◌+◌, ◌^◌, ◌≤◌, ◌++◌, [], ◌∷◌, ℕ, List, length, take, drop, IsTrue, IfSome, IsSomeAnd, Some, OnOk, OnErr, min};
ghost use Rattle.ledger_disk.specs.Disk.{MayLeave, settled_state, overlay, CountsFault};
ghost use Rattle.ledger_disk.specs.Guards.{Guards};
ghost use Rattle.block_file.specs.File.{IsSettled, staged_file};

use ledger_bytes::Failed;
use ledger_disk::Disk;

/// Writes the bytes of a group of blocks and a new tail gate behind the shut gate at a place, and syncs.
pub(crate) fn stage<D: Disk>(disk: &mut D, at: u64, bytes: &[u8]) -> Result<(), Failed>
    requires place { at ≤ 2 ^ 62 }
    requires length { IfSome (D.state disk.old).told (λ n. at + 1 ≤ n) }
    ensures ok { OnOk result (IsTrue D.tells
        → (D.state disk.new).bytes ≡ settled_state (staged_file at bytes.now (D.state disk.old).bytes.seen)) }
    ensures err { OnErr result (IsTrue D.tells → (front : List ℕ)
        → Guards (D.state disk.old).bytes front → length front ≤ at + 1
        → Guards (D.state disk.new).bytes front) }
    ensures told { OnOk result (IsSomeAnd (D.state disk.new).told
        (λ n. at + 1 + length bytes.now + 1 ≤ n)) }
    ensures fits { OnOk result (at + 2 + length bytes.now ≤ 2 ^ 62) }
    ensures faults { CountsFault result (D.state disk.old).faults (D.state disk.new).faults }
{
    disk.write(at + 1, bytes)?;
    disk.write(at + 1 + bytes.len() as u64, &[0])?;
    disk.sync()
}

/// Opens the gate at a place, and syncs.
pub(crate) fn open_gate<D: Disk>(disk: &mut D, at: u64) -> Result<(), Failed>
    requires { IfSome (D.state disk.old).told (λ n. at + 1 ≤ n) }
    ensures ok { OnOk result (IsTrue D.tells
        → (D.state disk.new).bytes ≡ settled_state (overlay at (1 ∷ []) (D.state disk.old).bytes.seen)) }
    ensures err { OnErr result (IsTrue D.tells → IsSettled (D.state disk.old).bytes → (image : List ℕ)
        → MayLeave (D.state disk.new).bytes image
        → (gate : ℕ) × (image ≡ take at (D.state disk.old).bytes.seen ++ gate ∷ drop (at + 1)
        (D.state disk.old).bytes.seen)) }
    ensures told { OnOk result ((n : ℕ) → IsSomeAnd (D.state disk.old).told (λ m. n ≤ m)
        → IsSomeAnd (D.state disk.new).told (λ m. n ≤ m)) }
    ensures faults { CountsFault result (D.state disk.old).faults (D.state disk.new).faults }
{
    disk.write(at, &[1])?;
    disk.sync()
}

/// Cuts a file that is longer.
pub(crate) fn cut_behind<D: Disk>(disk: &mut D, to: u64) -> Result<(), Failed>
    ensures seen { OnOk result (IsTrue D.tells
        → (D.state disk.new).bytes.seen ≡ take to (D.state disk.old).bytes.seen) }
    ensures guards { IsTrue D.tells → (front : List ℕ) → Guards (D.state disk.old).bytes front
        → length front ≤ to → Guards (D.state disk.new).bytes front }
    ensures idle { IsTrue D.tells → length (D.state disk.old).bytes.seen ≤ to
        → (D.state disk.new).bytes ≡ (D.state disk.old).bytes }
    ensures told { OnOk result (IfSome (D.state disk.old).told (λ n. (D.state disk.new).told
        ≡ Some (min n to))) }
    ensures faults { CountsFault result (D.state disk.old).faults (D.state disk.new).faults }
{
    if disk.len()? > to {
        disk.cut(to)?;
    }
    Ok(())
}

/// Cuts a file that is longer, and syncs.
pub(crate) fn cut_for_good<D: Disk>(disk: &mut D, to: u64) -> Result<(), Failed>
    ensures ok { OnOk result (IsTrue D.tells
        → (D.state disk.new).bytes ≡ settled_state (take to (D.state disk.old).bytes.seen)) }
    ensures err { OnErr result (IsTrue D.tells → (front : List ℕ)
        → Guards (D.state disk.old).bytes front → length front ≤ to → Guards (D.state disk.new).bytes front) }
    ensures idle { OnErr result (IsTrue D.tells → length (D.state disk.old).bytes.seen ≤ to
        → (D.state disk.new).bytes ≡ (D.state disk.old).bytes) }
    ensures told { OnOk result (IfSome (D.state disk.old).told (λ n. (D.state disk.new).told
        ≡ Some (min n to))) }
    ensures faults { CountsFault result (D.state disk.old).faults (D.state disk.new).faults }
{
    cut_behind(disk, to)?;
    disk.sync()
}
