//! Copying blocks from one file behind those of another.

ghost use Rattle.std.specs.Prelude.{◌≡◌, ◌+◌, ◌^◌, ◌<◌, ◌≤◌, ◌++◌, [], ◌∷◌, ℕ, List, length, take, drop, IsTrue, IsSomeAnd, IfOk, OnOk, OnErr};
ghost use Rattle.ledger_disk.specs.Disk.{overlay, with_write, MayHaveWritten, CountsFault, KeepsLength};
ghost use Rattle.ledger_disk.specs.Guards.{Guards};
ghost use Rattle.block_file.specs.Head.{CountsOneFault};
ghost use Rattle.block_file.specs.File.{IsVeiled};

use ledger_bytes::Failed;
use ledger_disk::Disk;

pub(crate) const COPY_PIECE: u64 = 65536;

/// Copies one piece from a file into another.
pub(crate) fn copy_piece<D: Disk>(
    from: &mut D,
    to: &mut D,
    at: u64,
    place: u64,
    n: u64,
) -> Result<(), Failed>
    requires piece { n ≤ 65536 }
    requires from { IsSomeAnd (D.state from.old).told (λ m. at + n ≤ m) }
    requires to { IsSomeAnd (D.state to.old).told (λ m. place ≤ m) }
    ensures ok { OnOk result (IsTrue D.tells
        → (D.state to.new).bytes
        ≡ with_write place n (overlay place (take n (drop at (D.state from.old).bytes.seen))
        (D.state to.old).bytes.seen) (D.state to.old).bytes) }
    ensures err { OnErr result (IsTrue D.tells
        → MayHaveWritten place n (D.state to.old).bytes (D.state to.new).bytes) }
    ensures same { IsTrue D.tells → (D.state from.new).bytes ≡ (D.state from.old).bytes }
    ensures from { KeepsLength (D.state from.old).told (D.state from.new).told }
    ensures to { OnOk result (IsSomeAnd (D.state to.new).told (λ m. place + n ≤ m)) }
    ensures faults { CountsOneFault result (D.state from.old).faults (D.state from.new).faults
        (D.state to.old).faults (D.state to.new).faults }
{
    let mut buffer = [0; COPY_PIECE as usize];
    from.read(at, &mut buffer[..n as usize])?;
    to.write(place, &buffer[..n as usize])
}

/// Copies a range of a file into another, behind what stands there.
pub(crate) fn copy_range<D: Disk>(
    from: &mut D,
    to: &mut D,
    at: u64,
    len: u64,
    place: u64,
) -> Result<(), Failed>
    requires place { place ≤ 2 ^ 62 }
    requires from { IsSomeAnd (D.state from.old).told (λ m. at + len ≤ m) }
    requires to { IsSomeAnd (D.state to.old).told (λ m. place ≤ m) }
    ensures ok { OnOk result (IsTrue D.tells
        → (D.state to.new).bytes.seen
        ≡ overlay place (take len (drop at (D.state from.old).bytes.seen)) (D.state to.old).bytes.seen) }
    ensures guards { IsTrue D.tells → (front : List ℕ) → Guards (D.state to.old).bytes front
        → length front ≤ place → Guards (D.state to.new).bytes front }
    ensures same { IsTrue D.tells → (D.state from.new).bytes ≡ (D.state from.old).bytes }
    ensures from { KeepsLength (D.state from.old).told (D.state from.new).told }
    ensures to { OnOk result (IsSomeAnd (D.state to.new).told (λ m. place + len ≤ m)) }
    ensures faults { CountsOneFault result (D.state from.old).faults (D.state from.new).faults
        (D.state to.old).faults (D.state to.new).faults }
{
    let mut done = 0;
    while done < len {
        let n = (len - done).min(COPY_PIECE);
        copy_piece(from, to, at + done, place + done, n)?;
        done += n;
    }
    Ok(())
}

/// Copies a range of open blocks over the tail gate of a file, and writes a new tail gate.
pub(crate) fn put_copy<D: Disk>(
    to: &mut D,
    from: &mut D,
    at: u64,
    len: u64,
    place: u64,
) -> Result<u64, Failed>
    requires place { place ≤ 2 ^ 62 }
    requires behind { 1 ≤ place }
    requires from { IsSomeAnd (D.state from.old).told (λ m. at + len ≤ m) }
    requires to { IsSomeAnd (D.state to.old).told (λ m. place + 1 ≤ m) }
    ensures seen { OnOk result (IsTrue D.tells → length (D.state to.old).bytes.seen ≡ place + 1
        → (D.state to.new).bytes.seen ≡ take place (D.state to.old).bytes.seen ++ take len
        (drop at (D.state from.old).bytes.seen) ++ 0 ∷ []) }
    ensures veiled { IsTrue D.tells → IsVeiled (D.state to.old).bytes → IsVeiled (D.state to.new).bytes }
    ensures same { IsTrue D.tells → (D.state from.new).bytes ≡ (D.state from.old).bytes }
    ensures from { KeepsLength (D.state from.old).told (D.state from.new).told }
    ensures place { IfOk result (λ next. (next ≡ place + len) × (next + 1 ≤ 2 ^ 62)) }
    ensures to { OnOk result (IsSomeAnd (D.state to.new).told (λ m. place + len + 1 ≤ m)) }
    ensures faults { CountsOneFault result (D.state from.old).faults (D.state from.new).faults
        (D.state to.old).faults (D.state to.new).faults }
{
    copy_range(from, to, at, len, place)?;
    let next = place + len;
    end_copy(to, next)?;
    Ok(next)
}

/// Writes a tail gate behind what was copied.
pub(crate) fn end_copy<D: Disk>(disk: &mut D, at: u64) -> Result<(), Failed>
    requires length { IsSomeAnd (D.state disk.old).told (λ n. at ≤ n) }
    requires behind { 1 ≤ at }
    ensures seen { OnOk result (IsTrue D.tells
        → (D.state disk.new).bytes.seen ≡ overlay at (0 ∷ []) (D.state disk.old).bytes.seen) }
    ensures veiled { IsTrue D.tells → IsVeiled (D.state disk.old).bytes → IsVeiled (D.state disk.new).bytes }
    ensures told { OnOk result (IsSomeAnd (D.state disk.new).told (λ n. at + 1 ≤ n)) }
    ensures fits { OnOk result (at + 1 ≤ 2 ^ 62) }
    ensures faults { CountsFault result (D.state disk.old).faults (D.state disk.new).faults }
{
    disk.write(at, &[0])
}
