//! Writing zeros over what a file is to forget.

ghost use Rattle.std.specs.Prelude.{◌≡◌, ◌≢◌, ◌+◌, ◌<◌, ◌≤◌, ℕ, List, length, replicate, IsTrue, IsSomeAnd, IfOk, OnOk, OnErr, true, false};
ghost use Rattle.ledger_disk.specs.Disk.{MayLeave, settled_state, overlay, with_write, MayHaveWritten, CountsFault, KeepsLength};
ghost use Rattle.ledger_disk.specs.Guards.{Outside, Confined};
ghost use Rattle.block_file.specs.Changes.{ChangesWithin};
ghost use Rattle.block_file.specs.File.{IsSettled, IsZeros};

use crate::reading::fill;
use ledger_bytes::Failed;
use ledger_disk::Disk;

pub(crate) const PIECE: u64 = 4096;

/// Whether a piece is zeros.
pub(crate) fn is_zeros(piece: &[u8]) -> bool
    ensures yes { result ≡ true → piece.now ≡ replicate (length piece.now) 0 }
    ensures no { result ≡ false → piece.now ≢ replicate (length piece.now) 0 }
{
    for byte in piece {
        if *byte != 0 {
            return false;
        }
    }
    true
}

/// Whether zeros stand in a range.
pub(crate) fn reads_zeros<D: Disk>(disk: &mut D, at: u64, n: u64) -> Result<bool, Failed>
    requires piece { n ≤ 4096 }
    requires length { IsSomeAnd (D.state disk.old).told (λ m. at + n ≤ m) }
    ensures yes { IfOk result (λ zeros. IsTrue D.tells → zeros ≡ true
        → IsZeros at n (D.state disk.old).bytes.seen) }
    ensures no { IfOk result (λ zeros. IsTrue D.tells → zeros ≡ false
        → IsZeros at n (D.state disk.old).bytes.seen → ⊥) }
    ensures state { IsTrue D.tells → (D.state disk.new).bytes ≡ (D.state disk.old).bytes }
    ensures length { KeepsLength (D.state disk.old).told (D.state disk.new).told }
    ensures faults { CountsFault result (D.state disk.old).faults (D.state disk.new).faults }
{
    let mut buffer = [0; PIECE as usize];
    fill(disk, at, &mut buffer[..n as usize])?;
    Ok(is_zeros(&buffer[..n as usize]))
}

/// Writes one piece of zeros.
pub(crate) fn write_zeros<D: Disk>(disk: &mut D, at: u64, n: u64) -> Result<(), Failed>
    requires piece { n ≤ 4096 }
    requires length { IsSomeAnd (D.state disk.old).told (λ m. at + n ≤ m) }
    ensures ok { OnOk result (IsTrue D.tells
        → (D.state disk.new).bytes
        ≡ with_write at n (overlay at (replicate n 0) (D.state disk.old).bytes.seen) (D.state disk.old).bytes) }
    ensures err { OnErr result (IsTrue D.tells
        → MayHaveWritten at n (D.state disk.old).bytes (D.state disk.new).bytes) }
    ensures length { KeepsLength (D.state disk.old).told (D.state disk.new).told }
    ensures faults { CountsFault result (D.state disk.old).faults (D.state disk.new).faults }
{
    let zeros = [0; PIECE as usize];
    disk.write(at, &zeros[..n as usize])
}

/// Writes one piece of zeros where they don't stand already.
pub(crate) fn clear_piece<D: Disk>(disk: &mut D, at: u64, n: u64) -> Result<(), Failed>
    requires piece { n ≤ 4096 }
    requires length { IsSomeAnd (D.state disk.old).told (λ m. at + n ≤ m) }
    ensures seen { OnOk result (IsTrue D.tells
        → (D.state disk.new).bytes.seen ≡ overlay at (replicate n 0) (D.state disk.old).bytes.seen) }
    ensures state { IsTrue D.tells → MayHaveWritten at n (D.state disk.old).bytes (D.state disk.new).bytes }
    ensures idle { IsTrue D.tells → IsZeros at n (D.state disk.old).bytes.seen
        → (D.state disk.new).bytes ≡ (D.state disk.old).bytes }
    ensures length { KeepsLength (D.state disk.old).told (D.state disk.new).told }
    ensures faults { CountsFault result (D.state disk.old).faults (D.state disk.new).faults }
{
    if reads_zeros(disk, at, n)? {
        return Ok(());
    }
    write_zeros(disk, at, n)
}

/// Writes zeros over a range where they don't stand already.
pub(crate) fn zero_pieces<D: Disk>(disk: &mut D, at: u64, len: u64) -> Result<(), Failed>
    requires length { IsSomeAnd (D.state disk.old).told (λ n. at + len ≤ n) }
    ensures seen { OnOk result (IsTrue D.tells
        → (D.state disk.new).bytes.seen ≡ overlay at (replicate len 0) (D.state disk.old).bytes.seen) }
    ensures outside { IsTrue D.tells
        → Outside at len (D.state disk.old).bytes.seen (D.state disk.new).bytes.seen }
    ensures confined { IsTrue D.tells → IsSettled (D.state disk.old).bytes
        → Confined at len (D.state disk.old).bytes.seen (D.state disk.new).bytes }
    ensures within { IsTrue D.tells → ChangesWithin at len (D.state disk.old).bytes (D.state disk.new).bytes }
    ensures idle { IsTrue D.tells → IsZeros at len (D.state disk.old).bytes.seen
        → (D.state disk.new).bytes ≡ (D.state disk.old).bytes }
    ensures length { KeepsLength (D.state disk.old).told (D.state disk.new).told }
    ensures faults { CountsFault result (D.state disk.old).faults (D.state disk.new).faults }
{
    let mut done = 0;
    while done < len {
        let n = (len - done).min(PIECE);
        clear_piece(disk, at + done, n)?;
        done += n;
    }
    Ok(())
}

/// Writes zeros over a range where they don't stand already, and syncs.
pub(crate) fn zero<D: Disk>(disk: &mut D, at: u64, len: u64) -> Result<(), Failed>
    requires length { IsSomeAnd (D.state disk.old).told (λ n. at + len ≤ n) }
    ensures ok { OnOk result (IsTrue D.tells
        → (D.state disk.new).bytes ≡ settled_state (overlay at (replicate len 0) (D.state disk.old).bytes.seen)) }
    ensures seen { IsTrue D.tells → Outside at len (D.state disk.old).bytes.seen (D.state disk.new).bytes.seen }
    ensures images { IsTrue D.tells → IsSettled (D.state disk.old).bytes → (image : List ℕ)
        → MayLeave (D.state disk.new).bytes image → Outside at len (D.state disk.old).bytes.seen image }
    ensures idle { OnErr result (IsTrue D.tells → IsZeros at len (D.state disk.old).bytes.seen
        → (D.state disk.new).bytes ≡ (D.state disk.old).bytes) }
    ensures length { KeepsLength (D.state disk.old).told (D.state disk.new).told }
    ensures faults { CountsFault result (D.state disk.old).faults (D.state disk.new).faults }
{
    zero_pieces(disk, at, len)?;
    disk.sync()
}
