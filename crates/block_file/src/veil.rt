//! Writing a file behind its shut first gate, so that a crash leaves it shut, or whole once the gate is opened.

ghost use Rattle.std.specs.Prelude.{◌≡◌, ◌≢◌, ◌⊎◌, ◌+◌, ◌^◌, ◌≤◌, ◌++◌, [], ◌∷◌, ℕ, List, length, get_or, take, drop, IsTrue, IsSomeAnd, IfOk, OnOk, OnErr};
ghost use Rattle.ledger_disk.specs.Disk.{MayLeave, settled_state, CountsFault};
ghost use Rattle.block_file.specs.Head.{head_of};
ghost use Rattle.block_file.specs.File.{IsVeiled};

use crate::head::{MAGIC, NEW_FORMAT, base_digest};
use ledger_bytes::Failed;
use ledger_disk::Disk;

/// Writes a piece behind the end of a file, and behind its gate.
pub(crate) fn add<D: Disk>(disk: &mut D, at: u64, piece: &[u8]) -> Result<(), Failed>
    requires length { IsSomeAnd (D.state disk.old).told (λ n. at ≤ n) }
    requires behind { 1 ≤ at }
    ensures seen { OnOk result (IsTrue D.tells → length (D.state disk.old).bytes.seen ≡ at
        → (D.state disk.new).bytes.seen ≡ (D.state disk.old).bytes.seen ++ piece.now) }
    ensures veiled { IsTrue D.tells → IsVeiled (D.state disk.old).bytes → IsVeiled (D.state disk.new).bytes }
    ensures told { OnOk result (IsSomeAnd (D.state disk.new).told
        (λ n. at + length piece.now ≤ n)) }
    ensures fits { OnOk result (at + length piece.now ≤ 2 ^ 62) }
    ensures faults { CountsFault result (D.state disk.old).faults (D.state disk.new).faults }
{
    disk.write(at, piece)
}

/// Writes the head behind a gate.
pub(crate) fn add_head<D: Disk>(disk: &mut D, generation: u64, base: &[u8]) -> Result<(), Failed>
    requires length { IsSomeAnd (D.state disk.old).told (λ n. 1 ≤ n) }
    ensures seen { OnOk result (IsTrue D.tells → (D.state disk.old).bytes.seen ≡ 0 ∷ []
        → (D.state disk.new).bytes.seen ≡ head_of 0 generation base.now) }
    ensures veiled { IsTrue D.tells → IsVeiled (D.state disk.old).bytes → IsVeiled (D.state disk.new).bytes }
    ensures told { OnOk result (IsSomeAnd (D.state disk.new).told (λ n. 64 ≤ n)) }
    ensures faults { CountsFault result (D.state disk.old).faults (D.state disk.new).faults }
{
    add(disk, 1, &MAGIC)?;
    add(disk, 9, &[NEW_FORMAT])?;
    add(disk, 10, &generation.to_be_bytes())?;
    add(disk, 18, &(base.len() as u64).to_be_bytes())?;
    add(disk, 26, &base_digest(base).0)?;
    add(disk, 58, &[0; 6])
}

/// Writes a block with an open gate over the tail gate of a file, and a new tail gate. Answers its place.
pub(crate) fn put<D: Disk>(disk: &mut D, at: u64, block: &[u8]) -> Result<u64, Failed>
    requires length { IsSomeAnd (D.state disk.old).told (λ n. at + 1 ≤ n) }
    requires behind { 1 ≤ at }
    ensures seen { OnOk result (IsTrue D.tells → length (D.state disk.old).bytes.seen ≡ at + 1
        → (D.state disk.new).bytes.seen ≡ take at (D.state disk.old).bytes.seen ++ (1 ∷ block.now) ++ 0 ∷ []) }
    ensures veiled { IsTrue D.tells → IsVeiled (D.state disk.old).bytes → IsVeiled (D.state disk.new).bytes }
    ensures place { IfOk result (λ next. (next ≡ at + 1 + length block.now) × (next + 1 ≤ 2 ^ 62)) }
    ensures told { OnOk result (IsSomeAnd (D.state disk.new).told
        (λ n. at + 2 + length block.now ≤ n)) }
    ensures faults { CountsFault result (D.state disk.old).faults (D.state disk.new).faults }
{
    open_tail(disk, at)?;
    add(disk, at + 1, block)?;
    let next = at + 1 + block.len() as u64;
    add(disk, next, &[0])?;
    Ok(next)
}

/// Writes an open gate over the last byte of a file.
pub(crate) fn open_tail<D: Disk>(disk: &mut D, at: u64) -> Result<(), Failed>
    requires length { IsSomeAnd (D.state disk.old).told (λ n. at + 1 ≤ n) }
    requires behind { 1 ≤ at }
    ensures seen { OnOk result (IsTrue D.tells → length (D.state disk.old).bytes.seen ≡ at + 1
        → (D.state disk.new).bytes.seen ≡ take at (D.state disk.old).bytes.seen ++ 1 ∷ []) }
    ensures veiled { IsTrue D.tells → IsVeiled (D.state disk.old).bytes → IsVeiled (D.state disk.new).bytes }
    ensures told { OnOk result (IsSomeAnd (D.state disk.new).told (λ n. at + 1 ≤ n)) }
    ensures fits { OnOk result (at + 1 ≤ 2 ^ 62) }
    ensures faults { CountsFault result (D.state disk.old).faults (D.state disk.new).faults }
{
    disk.write(at, &[1])
}

/// Makes what was written behind the shut gate stand for good, and opens it.
pub(crate) fn open_for_good<D: Disk>(disk: &mut D) -> Result<(), Failed>
    requires { IsSomeAnd (D.state disk.old).told (λ m. 1 ≤ m) }
    ensures ok { OnOk result (IsTrue D.tells
        → (D.state disk.new).bytes ≡ settled_state (1 ∷ drop 1 (D.state disk.old).bytes.seen)) }
    ensures err { OnErr result (IsTrue D.tells → IsVeiled (D.state disk.old).bytes → (image : List ℕ)
        → MayLeave (D.state disk.new).bytes image
        → (get_or image 0 0 ≢ 1) ⊎ (image ≡ 1 ∷ drop 1 (D.state disk.old).bytes.seen)) }
    ensures told { (k : ℕ) → IsSomeAnd (D.state disk.old).told (λ m. k ≤ m)
        → IsSomeAnd (D.state disk.new).told (λ m. k ≤ m) }
    ensures faults { CountsFault result (D.state disk.old).faults (D.state disk.new).faults }
{
    disk.sync()?;
    disk.write(0, &[1])?;
    disk.sync()
}
