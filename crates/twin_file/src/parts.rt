//! What is done to one of the two files.

ghost use Rattle.std.specs.Prelude.{◌≡◌, ◌⊎◌, ◌+◌, [], ◌∷◌, ℕ, List, Some, length, IsTrue, IfOk, OnOk};
ghost use Rattle.block_file.specs.File.{IsSettled, IsVeiled, whole_file};
ghost use Rattle.block_file.specs.Head.{CountsAlone, IsShut, front_of};
ghost use Rattle.block_file.specs.FileView.{gate_of, HasTail};
ghost use Rattle.ledger_disk.specs.Disk.{CountsFault, MayLeave, settled_state};
ghost use Rattle.twin_file.specs.Calls.{IsBegun};
ghost use Rattle.twin_file.specs.Images.{KeepsPassed, LeavesFront};

use block_file::{BlockFile, FileErr};
use ledger_bytes::Failed;
use ledger_disk::Disk;

/// Begins a file of this generation behind a shut gate.
pub fn begin<D: Disk>(disk: &mut D, generation: u64, base: &[u8]) -> Result<BlockFile, FileErr>
    ensures begun { IfOk result (λ file. IsBegun D.tells generation base.now
        (D.state disk.new).bytes (D.state disk.new).told (Some file)) }
    ensures veiled { OnOk result (IsTrue D.tells → IsVeiled (D.state disk.new).bytes) }
    ensures images { IsTrue D.tells → KeepsPassed (D.state disk.old).bytes (D.state disk.new).bytes }
    ensures faults { CountsAlone result (D.state disk.old).faults (D.state disk.new).faults }
{
    BlockFile::start(disk)?;
    BlockFile::create(disk, generation, base)
}

/// Cuts a file to nothing, for good.
pub fn wipe_file<D: Disk>(disk: &mut D) -> Result<(), Failed>
    ensures ok { OnOk result (IsTrue D.tells → (D.state disk.new).bytes ≡ settled_state []) }
    ensures front { IsTrue D.tells → LeavesFront (D.state disk.old).bytes (D.state disk.new).bytes }
    ensures images { IsTrue D.tells → KeepsPassed (D.state disk.old).bytes (D.state disk.new).bytes }
    ensures told { OnOk result ((D.state disk.new).told ≡ Some 0) }
    ensures faults { CountsFault result (D.state disk.old).faults (D.state disk.new).faults }
{
    disk.cut(0)?;
    disk.sync()?;
    Ok(())
}

/// Cuts a file that isn't empty to nothing, for good. An empty one isn't touched, so a clean pair opens without a write.
pub fn clear<D: Disk>(disk: &mut D) -> Result<(), Failed>
    ensures ok { OnOk result (IsTrue D.tells → IsSettled (D.state disk.old).bytes
        → (D.state disk.new).bytes ≡ settled_state []) }
    ensures idle { IsTrue D.tells → (D.state disk.old).bytes.seen ≡ []
        → (D.state disk.new).bytes ≡ (D.state disk.old).bytes }
    ensures front { IsTrue D.tells → LeavesFront (D.state disk.old).bytes (D.state disk.new).bytes }
    ensures images { IsTrue D.tells → KeepsPassed (D.state disk.old).bytes (D.state disk.new).bytes }
    ensures faults { CountsFault result (D.state disk.old).faults (D.state disk.new).faults }
{
    if disk.len()? > 0 {
        wipe_file(disk)?;
    }
    Ok(())
}

/// Makes a file of generation 1 that has one block.
pub fn make_first<D: Disk>(disk: &mut D, block: &[u8]) -> Result<BlockFile, FileErr>
    ensures ok { OnOk result (IsTrue D.tells
        → (D.state disk.new).bytes ≡ settled_state (whole_file (front_of 1 1 []) (block.now ∷ []))) }
    ensures images { IsTrue D.tells → IsSettled (D.state disk.old).bytes → IsShut (D.state disk.old).bytes.seen
        → (image : List ℕ) → MayLeave (D.state disk.new).bytes image
        → IsShut image ⊎ (image ≡ whole_file (front_of 1 1 []) (block.now ∷ [])) }
    ensures place { IfOk result (λ file. gate_of file ≡ 65 + length block.now) }
    ensures told { IfOk result (HasTail (D.state disk.new).told) }
    ensures faults { CountsAlone result (D.state disk.old).faults (D.state disk.new).faults }
{
    let mut file = begin(disk, 1, &[])?;
    file.put_block(disk, block)?;
    file.unveil(disk)?;
    Ok(file)
}
