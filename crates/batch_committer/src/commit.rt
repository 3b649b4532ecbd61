//! The commit of a group of blocks in that of the ledger's two files which is open.

ghost use Rattle.std.specs.Prelude.{◌≡◌, ◌+◌, ℕ, List, length, take, IsTrue, IfErr, OnOk, OnErr};
ghost use Rattle.block_file.specs.File.{IsFileOf, tail_of, IsGroupOf, HasGroup};
ghost use Rattle.block_file.specs.FileView.{gate_of};
ghost use Rattle.twin_file.specs.Twin.{open_of};
ghost use Rattle.ledger_open.specs.Heads.{edition_in};
ghost use Rattle.twin_file.specs.Which.{in_a_of, file_of, copy_of};
ghost use Rattle.batch_committer.specs.Committed.{AllOrNone, IsCommitted, IsUncommitted};
ghost use Rattle.ledger_bytes.specs.Causes.{count_after};
ghost use Rattle.batch_committer.specs.World.{pair, ReadsAsLeft};
ghost use Rattle.batch_committer.specs.declared.failure.CommitErr.TheVariants as ends;

use crate::CommitErr;
use ledger_disk::Disk;
use twin_file::Twin;

/// Commits the blocks of a group together behind the tail gate of the open file: the first is given without its gate, and each
/// further one behind an open gate.
pub(crate) fn commit<D: Disk>(
    twin: &mut Twin,
    a: &mut D,
    b: &mut D,
    bytes: &[u8],
) -> Result<(), CommitErr>
    requires { ReadsAsLeft D.tells (gate_of (file_of twin.old)) (open_of (in_a_of twin.old)
        (D.state a.old)
        (D.state b.old)) }
    ensures ok { OnOk result (IsCommitted D.tells (in_a_of twin.old)
        (gate_of (file_of twin.old)) bytes.now (pair (D.state a.old) (D.state b.old))
        (pair (D.state a.new) (D.state b.new))) }
    ensures gate { OnOk result (gate_of (file_of twin.new)
        ≡ gate_of (file_of twin.old) + 1 + length bytes.now) }
    ensures in_a { in_a_of twin.new ≡ in_a_of twin.old }
    ensures edition { edition_in twin.new ≡ edition_in twin.old }
    ensures copy { copy_of twin.new ≡ copy_of twin.old }
    ensures err { OnErr result (IsUncommitted D.tells (in_a_of twin.old)
        (gate_of (file_of twin.old)) bytes.now (pair (D.state a.old) (D.state b.old))
        (pair (D.state a.new) (D.state b.new))) }
    ensures only { IfErr result (λ end. end ≡ ends.DiskFault) }
{
    if twin.in_a() {
        commit_in(twin, a, bytes)
    } else {
        commit_in(twin, b, bytes)
    }
}

// Commits the blocks of a group in the open file, whose disk this is.
fn commit_in<D: Disk>(twin: &mut Twin, file: &mut D, bytes: &[u8]) -> Result<(), CommitErr>
    requires { ReadsAsLeft D.tells (gate_of (file_of twin.old)) (D.state file.old) }
    ensures ok { OnOk result (IsTrue D.tells → (group : List (List ℕ)) → IsGroupOf group bytes.now
        → (front : List ℕ) (blocks : List (List ℕ))
        → IsFileOf front blocks (D.state file.old).bytes.seen
        → tail_of front blocks ≡ gate_of (file_of twin.old)
        → HasGroup front blocks group (D.state file.new).bytes) }
    ensures ends { OnOk result (IsTrue D.tells
        → length (D.state file.old).bytes.seen ≡ gate_of (file_of twin.old) + 1
        → length (D.state file.new).bytes.seen ≡ gate_of (file_of twin.new) + 1) }
    ensures reads { OnOk result (ReadsAsLeft D.tells (gate_of (file_of twin.new)) (D.state file.new)) }
    ensures gate { OnOk result (gate_of (file_of twin.new)
        ≡ gate_of (file_of twin.old) + 1 + length bytes.now) }
    ensures head { OnOk result (IsTrue D.tells
        → take 64 (D.state file.new).bytes.seen ≡ take 64 (D.state file.old).bytes.seen) }
    ensures in_a { in_a_of twin.new ≡ in_a_of twin.old }
    ensures edition { edition_in twin.new ≡ edition_in twin.old }
    ensures copy { copy_of twin.new ≡ copy_of twin.old }
    ensures err { OnErr result (AllOrNone D.tells (gate_of (file_of twin.old)) bytes.now
        (D.state file.old).bytes (D.state file.new).bytes) }
    ensures counts { OnOk result ((D.state file.new).faults ≡ (D.state file.old).faults) }
    ensures failed { OnErr result ((D.state file.new).faults
        ≡ count_after (D.state file.old).faults) }
    ensures only { IfErr result (λ end. end ≡ ends.DiskFault) }
{
    match twin.file().commit_blocks(file, bytes) {
        Ok(()) => Ok(()),
        Err(_) => Err(CommitErr::DiskFault),
    }
}
