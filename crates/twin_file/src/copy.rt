//! The copy that is made in the other file.

ghost use Rattle.std.specs.Prelude.{◌≡◌, ◌≢◌, ◌⊎◌, ◌+◌, ◌<◌, ◌≤◌, ◌∷◌, ℕ, List, not, get_or, take, drop, IsTrue, IsSomeAnd, OnOk, OnErr};
ghost use Rattle.block_file.specs.File.{IsVeiled};
ghost use Rattle.block_file.specs.Head.{CountsAlone, CountsTwoAlone};
ghost use Rattle.ledger_disk.specs.Disk.{MayLeave, settled_state, KeepsLength};
ghost use Rattle.twin_file.specs.Calls.{AddsPiece, KeepsOpen};
ghost use Rattle.twin_file.specs.Images.{AllOpenTo, AllOpenToEither, IsNewer};
ghost use Rattle.twin_file.specs.Places.{HasCopy};
ghost use Rattle.twin_file.specs.Twin.{open_of, other_of};

use block_file::{BlockFile, FileErr};
use ledger_disk::Disk;

/// Adds a range of the open file to the copy that was begun.
pub fn extend<D: Disk>(
    copy: &mut Option<BlockFile>,
    to: &mut D,
    from: &mut D,
    at: u64,
    len: u64,
) -> Result<(), FileErr>
    requires from { IsSomeAnd (D.state from.old).told (λ n. at + len ≤ n) }
    requires begun { HasCopy (D.state to.old).told copy.old }
    ensures extended { OnOk result (AddsPiece D.tells (take len (drop at (D.state from.old).bytes.seen)) len
        (D.state to.old).bytes.seen (D.state to.new).bytes.seen (D.state to.new).told copy.old copy.new) }
    ensures veiled { IsTrue D.tells → IsVeiled (D.state to.old).bytes → IsVeiled (D.state to.new).bytes }
    ensures same { IsTrue D.tells → (D.state from.new).bytes ≡ (D.state from.old).bytes }
    ensures from { KeepsLength (D.state from.old).told (D.state from.new).told }
    ensures stays { OnErr result (copy.new ≡ copy.old) }
    ensures faults { CountsTwoAlone result
        (D.state from.old).faults (D.state from.new).faults (D.state to.old).faults (D.state to.new).faults }
{
    match copy {
        Some(file) => file.put_range(to, from, at, len),
        None => Ok(()),
    }
}

// Opens the copy that was begun, on its disk. Callers come with one: without it there is nothing to do.
fn unveil<D: Disk>(copy: &mut Option<BlockFile>, disk: &mut D) -> Result<(), FileErr>
    requires begun { HasCopy (D.state disk.old).told copy.old }
    ensures ok { OnOk result (IsTrue D.tells
        → (D.state disk.new).bytes ≡ settled_state (1 ∷ drop 1 (D.state disk.old).bytes.seen)) }
    ensures err { OnErr result (IsTrue D.tells → IsVeiled (D.state disk.old).bytes → (image : List ℕ)
        → MayLeave (D.state disk.new).bytes image
        → (get_or image 0 0 ≢ 1) ⊎ (image ≡ 1 ∷ drop 1 (D.state disk.old).bytes.seen)) }
    ensures same { copy.new ≡ copy.old }
    ensures told { OnOk result (HasCopy (D.state disk.new).told copy.new) }
    ensures faults { CountsAlone result (D.state disk.old).faults (D.state disk.new).faults }
{
    match copy {
        Some(file) => file.unveil(disk),
        None => Ok(()),
    }
}

/// Opens the copy that was begun, in the file that isn't the open one.
pub fn unveil_other<D: Disk>(
    in_a: bool,
    copy: &mut Option<BlockFile>,
    a: &mut D,
    b: &mut D,
) -> Result<(), FileErr>
    requires begun { HasCopy (other_of in_a (D.state a.old).told (D.state b.old).told) copy.old }
    ensures ok { OnOk result (IsTrue D.tells → other_of in_a (D.state a.new).bytes (D.state b.new).bytes
        ≡ settled_state (1 ∷ drop 1 (other_of in_a (D.state a.old).bytes (D.state b.old).bytes).seen)) }

    // The file that this leaves, where it has a head of a greater generation.
    ensures images { OnOk result (IsTrue D.tells → (new : List ℕ)
        → IsNewer in_a new (D.state a.old).bytes (D.state b.old).bytes
        → AllOpenTo (not in_a) new (D.state a.new).bytes (D.state b.new).bytes) }
    ensures images_err { OnErr result (IsTrue D.tells → (new : List ℕ)
        → IsNewer in_a new (D.state a.old).bytes (D.state b.old).bytes
        → AllOpenToEither in_a (open_of in_a (D.state a.old).bytes (D.state b.old).bytes).seen new
        (D.state a.new).bytes (D.state b.new).bytes) }

    ensures same { copy.new ≡ copy.old }
    ensures told { OnOk result (HasCopy
        (other_of in_a (D.state a.new).told (D.state b.new).told) copy.new) }
    ensures kept { KeepsOpen D.tells result in_a
        (D.state a.old) (D.state b.old) (D.state a.new) (D.state b.new) }
{
    if in_a {
        unveil(copy, b)?;
    } else {
        unveil(copy, a)?;
    }
    Ok(())
}
