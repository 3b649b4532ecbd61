//! A file of the first version is carried over into the other file, which has the second.

ghost use Rattle.std.specs.Prelude.{◌≡◌, ◌≢◌, ◌⊎◌, IsTrue, IfOk, IfErr, OnOk, None};
ghost use Rattle.block_file.specs.FileView.{gate_of, base_len_of, HasTail};
ghost use Rattle.ledger_disk.specs.Disk.{KeepsLength};
ghost use Rattle.twin_file.specs.Twin.{open_of};
ghost use Rattle.twin_file.specs.Which.{in_a_of, format_in, file_of, copy_of};
ghost use Rattle.ledger_open.specs.Carrying.{IsBaseToCarry, MayCarry, StaysNewer, StandsCarrying, WasCarried};
ghost use Rattle.ledger_open.specs.Heads.{edition_in, edition_of};
ghost use Rattle.ledger_open.specs.Opening.{CountsOpen, IsHeadOf, IsReadErr};
ghost use Rattle.ledger_open.specs.declared.failure.OpenErr.TheVariants as errors;

use crate::OpenErr;
use crate::purging::move_over;
use ledger_bytes::Bytes;
use ledger_disk::Disk;
use std::alloc::Global;
use twin_file::Twin;

/// The bytes of the base with which the open file begins, where that has the first version. All memory that carrying over needs
/// is taken by this.
pub(crate) fn base_to_carry<D: Disk>(
    alloc: Global,
    twin: &mut Twin,
    a: &mut D,
    b: &mut D,
) -> Result<Option<Bytes>, OpenErr>
    requires told { HasTail (open_of (in_a_of twin.old) (D.state a.old).told (D.state b.old).told)
        (file_of twin.old) }
    requires head { IsTrue D.tells → IsHeadOf
        (open_of (in_a_of twin.old) (D.state a.old).bytes (D.state b.old).bytes).seen (file_of twin.old) }
    ensures base { IfOk result (λ base. IsBaseToCarry D.tells (format_in twin.old)
        (open_of (in_a_of twin.old) (D.state a.old).bytes (D.state b.old).bytes).seen base) }
    ensures same { twin.new ≡ twin.old }
    ensures err { IfErr result (λ e. IsTrue D.tells
        → IsReadErr (open_of (in_a_of twin.old) (D.state a.old).bytes (D.state b.old).bytes).seen e) }
    ensures only { IfErr result (λ e. (e ≢ errors.Empty) × (e ≢ errors.Exists)) }
    ensures bytes { IsTrue D.tells → ((D.state a.new).bytes ≡ (D.state a.old).bytes)
        × ((D.state b.new).bytes ≡ (D.state b.old).bytes) }
    ensures length { KeepsLength (D.state a.old).told (D.state a.new).told
        × KeepsLength (D.state b.old).told (D.state b.new).told }
    ensures faults { CountsOpen result (D.state a.old).faults (D.state a.new).faults
        (D.state b.old).faults (D.state b.new).faults }
{
    if twin.version() != 1 {
        return Ok(None);
    }
    let base = if twin.in_a() {
        twin.file().base(alloc, a)
    } else {
        twin.file().base(alloc, b)
    };
    match base {
        Ok(base) => Ok(Some(base)),
        Err(e) => Err(OpenErr::from(e)),
    }
}

// The offset of the open file's tail gate.
fn tail_gate(twin: &mut Twin) -> u64
    ensures place { result ≡ gate_of (file_of twin.old) }
    ensures same { twin.new ≡ twin.old }
{
    twin.file().tail()
}

/// Carries the open file over, where it has the first version: its base and its blocks are copied into the other file behind a
/// head of the second version, that one is opened, and the old one is wiped. The other file has to be empty.
pub(crate) fn carry<D: Disk>(
    a: &mut D,
    b: &mut D,
    twin: &mut Twin,
    base: Option<Bytes>,
) -> Result<(), OpenErr>
    requires told { HasTail (open_of (in_a_of twin.old) (D.state a.old).told (D.state b.old).told)
        (file_of twin.old) }
    ensures ok { OnOk result (IsTrue D.tells
        → MayCarry twin.old base (D.state a.old).bytes (D.state b.old).bytes
        → StaysNewer (in_a_of twin.old) (in_a_of twin.new)
        (D.state a.old).bytes (D.state b.old).bytes (D.state a.new).bytes (D.state b.new).bytes
        ⊎ WasCarried (in_a_of twin.old) (in_a_of twin.new)
        (D.state a.old).bytes (D.state b.old).bytes (D.state a.new).bytes (D.state b.new).bytes) }
    ensures edition { OnOk result (IsTrue D.tells
        → MayCarry twin.old base (D.state a.old).bytes (D.state b.old).bytes
        → edition_in twin.new ≡ edition_of (open_of (in_a_of twin.new)
        (D.state a.new).bytes (D.state b.new).bytes).seen) }
    ensures gate { OnOk result (gate_of (file_of twin.new) ≡ gate_of (file_of twin.old)) }
    ensures images { IsTrue D.tells → MayCarry twin.old base (D.state a.old).bytes (D.state b.old).bytes
        → StandsCarrying (in_a_of twin.old)
        (D.state a.old).bytes (D.state b.old).bytes (D.state a.new).bytes (D.state b.new).bytes }
    ensures idle { base ≡ None → (D.state a.new ≡ D.state a.old) × (D.state b.new ≡ D.state b.old) }
    ensures copy { OnOk result (copy_of twin.old ≡ None → copy_of twin.new ≡ None) }
    ensures told { OnOk result (HasTail (open_of (in_a_of twin.new) (D.state a.new).told (D.state b.new).told)
        (file_of twin.new)) }
    ensures only { IfErr result (λ e. e ≡ errors.DiskFault) }
    ensures faults { CountsOpen result (D.state a.old).faults (D.state a.new).faults
        (D.state b.old).faults (D.state b.new).faults }
{
    if twin.version() != 1 {
        return Ok(());
    }
    let Some(base) = base else {
        return Ok(());
    };
    let gate = 64 + base.as_slice().len() as u64;
    // (A base ends in front of the tail gate.)
    if tail_gate(twin) < gate {
        return Ok(());
    }
    match move_over(a, b, twin, base.as_slice(), gate) {
        Ok(()) => Ok(()),
        Err(_) => Err(OpenErr::DiskFault),
    }
}
