//! A ledger that was made before is opened again.

ghost use Rattle.std.specs.Prelude.{◌≡◌, ◌≢◌, ◌⊎◌, ◌+◌, [], None, take, length, IsTrue, IfOk, IfErr, OnOk, OnErr};
ghost use Rattle.block_file.specs.File.{IsSettled};
ghost use Rattle.block_file.specs.FileView.{gate_of, base_len_of, HasTail};
ghost use Rattle.ledger_disk.specs.Disk.{settled_state};
ghost use Rattle.ledger_model.specs.Limits.{AreWithin};
ghost use Rattle.twin_file.specs.Images.{LeavesFront};
ghost use Rattle.twin_file.specs.Twin.{open_of, other_of};
ghost use Rattle.twin_file.specs.Which.{in_a_of, file_of, copy_of};
ghost use Rattle.ledger_open.specs.Cutting.{IsPrepared};
ghost use Rattle.ledger_open.specs.Heads.{edition_in, edition_of};
ghost use Rattle.ledger_open.specs.Opening.{known_from, known_in, open_bytes, HasOpenTail, OfBoth, OfTold, IsHeadOf, HasKnown, HasLawfulBlocks, IsOutside, IsReadErr, IsOpenErr, AreSettled, AreUnchanged, StandAsRead, WereSettled, CountsRead, CountsOpen};
ghost use Rattle.ledger_open.specs.Purging.{ledger_at};
ghost use Rattle.ledger_open.specs.Reopened.{KnowsMended, KnowsReopened, WasReadHere, IsHere, IsCleanStill, PairStandsStill, StandsTrimmed};
ghost use Rattle.ledger_open.specs.declared.failure.OpenErr.{OpenErr as OpenErrRecord};
ghost use Rattle.ledger_open.specs.declared.failure.OpenErr.TheVariants as errors;

use crate::carrying::{base_to_carry, carry};
use crate::erasing::finish_erasures;
use crate::purging::{Purge, complete, prepare_purge};
use crate::reading::read_file;
use crate::{OpenErr, Opened};
use ledger_disk::Disk;
use ledger_model::Limits;
use std::alloc::Global;
use std::thread::Threads;
use twin_file::{Twin, clear};

// Cuts the file that isn't the open one to nothing, where it isn't empty.
fn clear_other<D: Disk>(in_a: bool, a: &mut D, b: &mut D) -> Result<(), OpenErr>
    ensures ok { OnOk result (IsTrue D.tells → IsSettled (other_of in_a (D.state a.old).bytes (D.state b.old).bytes)
        → (other_of in_a (D.state a.new).bytes (D.state b.new).bytes) ≡ settled_state []) }
    ensures idle { IsTrue D.tells → (other_of in_a (D.state a.old).bytes (D.state b.old).bytes).seen ≡ []
        → (other_of in_a (D.state a.new).bytes (D.state b.new).bytes)
        ≡ (other_of in_a (D.state a.old).bytes (D.state b.old).bytes) }
    ensures front { IsTrue D.tells → LeavesFront (other_of in_a (D.state a.old).bytes (D.state b.old).bytes)
        (other_of in_a (D.state a.new).bytes (D.state b.new).bytes) }
    ensures open_stays { open_of in_a (D.state a.new) (D.state b.new)
        ≡ open_of in_a (D.state a.old) (D.state b.old) }
    ensures err { IfErr result (λ e. e ≡ errors.DiskFault) }
    ensures faults { CountsOpen result (D.state a.old).faults (D.state a.new).faults
        (D.state b.old).faults (D.state b.new).faults }
{
    if in_a {
        clear(b)?
    } else {
        clear(a)?
    }
    Ok(())
}

// Reads the file that was taken, which stands on this disk.
fn read_twin<R: Threads, D: Disk>(
    rt: &R,
    alloc: Global,
    twin: Twin,
    disk: &mut D,
    limits: Limits,
) -> Result<Opened, OpenErr>
    requires told { HasTail (D.state disk.old).told (file_of twin) }
    requires place { gate_of (file_of twin) ≡ 64 + base_len_of (file_of twin) }
    requires head { IsTrue D.tells → IsHeadOf (D.state disk.old).bytes.seen (file_of twin) }
    requires limits { AreWithin limits }
    ensures ok { IfOk result (λ opened. HasKnown D.tells (D.state disk.old).bytes.seen
        (known_from opened.book opened.places.list (gate_of (file_of opened.twin)))) }
    ensures same { IfOk result (λ opened. (in_a_of opened.twin ≡ in_a_of twin)
        × (edition_in opened.twin ≡ edition_in twin) × (copy_of opened.twin ≡ copy_of twin)) }
    ensures limits { IfOk result (λ opened. opened.book.limits ≡ limits) }
    ensures told { IfOk result (λ opened. HasTail (D.state disk.new).told (file_of opened.twin)) }
    ensures err { IfErr result (λ e. IsTrue D.tells → IsReadErr (D.state disk.old).bytes.seen e) }
    ensures only { IfErr result (λ e. (e ≢ errors.Empty) × (e ≢ errors.Exists)) }
    ensures state { IsTrue D.tells → (D.state disk.new).bytes ≡ (D.state disk.old).bytes }
    ensures faults { CountsRead result (D.state disk.old).faults (D.state disk.new).faults }
{
    let mut twin = twin;
    let read = read_file(rt, alloc, twin.file(), disk, limits)?;
    Ok(Opened {
        book: read.book,
        twin,
        places: read.places,
    })
}

// Reads the file that was taken.
fn read_pair<R: Threads, D: Disk>(
    rt: &R,
    alloc: Global,
    twin: Twin,
    a: &mut D,
    b: &mut D,
    limits: Limits,
) -> Result<Opened, OpenErr>
    requires told { HasOpenTail twin (D.state a.old) (D.state b.old) }
    requires place { gate_of (file_of twin) ≡ 64 + base_len_of (file_of twin) }
    requires head { IsTrue D.tells → IsHeadOf (open_bytes twin (D.state a.old) (D.state b.old)).seen (file_of twin) }
    requires limits { AreWithin limits }
    ensures ok { IfOk result (λ opened. HasKnown D.tells
        (open_bytes twin (D.state a.old) (D.state b.old)).seen
        (known_from opened.book opened.places.list (gate_of (file_of opened.twin)))) }
    ensures same { IfOk result (λ opened. (in_a_of opened.twin ≡ in_a_of twin)
        × (edition_in opened.twin ≡ edition_in twin) × (copy_of opened.twin ≡ copy_of twin)) }
    ensures limits { IfOk result (λ opened. opened.book.limits ≡ limits) }
    ensures told { IfOk result (λ opened. HasTail
        (open_of (in_a_of twin) (D.state a.new).told (D.state b.new).told) (file_of opened.twin)) }
    ensures err { IfErr result (λ e. IsTrue D.tells
        → IsReadErr (open_bytes twin (D.state a.old) (D.state b.old)).seen e) }
    ensures only { IfErr result (λ e. (e ≢ errors.Empty) × (e ≢ errors.Exists)) }
    ensures state { IsTrue D.tells → OfBoth AreUnchanged
        (D.state a.old) (D.state b.old) (D.state a.new) (D.state b.new) }
    ensures faults { CountsOpen result (D.state a.old).faults (D.state a.new).faults
        (D.state b.old).faults (D.state b.new).faults }
{
    if twin.in_a() {
        read_twin(rt, alloc, twin, a, limits)
    } else {
        read_twin(rt, alloc, twin, b, limits)
    }
}

// Cuts what stands behind the open file's tail gate.
fn trim_open<D: Disk>(a: &mut D, b: &mut D, twin: &mut Twin) -> Result<(), OpenErr>
    requires told { HasOpenTail twin.old (D.state a.old) (D.state b.old) }
    ensures ok { OnOk result (IsTrue D.tells
        → (open_bytes twin.old (D.state a.new) (D.state b.new))
        ≡ settled_state (take (gate_of (file_of twin.old) + 1)
        (open_bytes twin.old (D.state a.old) (D.state b.old)).seen)) }
    ensures images { IsTrue D.tells → StandsTrimmed (gate_of (file_of twin.old))
        (open_bytes twin.old (D.state a.old) (D.state b.old))
        (open_bytes twin.old (D.state a.new) (D.state b.new)) }
    ensures idle { OnErr result (IsTrue D.tells
        → length (open_bytes twin.old (D.state a.old) (D.state b.old)).seen
        ≡ gate_of (file_of twin.old) + 1
        → (open_bytes twin.old (D.state a.new) (D.state b.new))
        ≡ (open_bytes twin.old (D.state a.old) (D.state b.old))) }
    ensures other { other_of (in_a_of twin.old) (D.state a.new) (D.state b.new)
        ≡ other_of (in_a_of twin.old) (D.state a.old) (D.state b.old) }
    ensures told { OnOk result (HasOpenTail twin.old (D.state a.new) (D.state b.new)) }
    ensures same { twin.new ≡ twin.old }
    ensures only { IfErr result (λ e. e ≡ errors.DiskFault) }
    ensures faults { CountsOpen result (D.state a.old).faults (D.state a.new).faults
        (D.state b.old).faults (D.state b.new).faults }
{
    let trimmed = if twin.in_a() {
        twin.file().trim(a)
    } else {
        twin.file().trim(b)
    };
    match trimmed {
        Ok(()) => Ok(()),
        Err(_) => Err(OpenErr::DiskFault),
    }
}

// Does what a crash left undone in a ledger that was read: cuts what stands behind the tail gate, gives up what the last
// journal hides, finishes the purge, and clears the other file.
fn finish_open<D: Disk>(
    a: &mut D,
    b: &mut D,
    opened: &mut Opened,
    purge: Option<Purge>,
) -> Result<(), OpenErr>
    requires read { WasReadHere D.tells (ledger_at opened.old (D.state a.old).bytes (D.state b.old).bytes) }
    requires told { HasOpenTail opened.old.twin (D.state a.old) (D.state b.old) }
    requires prepared { IsPrepared opened.old.book opened.old.places.list purge }
    ensures ok { OnOk result (KnowsMended D.tells (in_a_of opened.new.twin)
        (known_from opened.new.book opened.new.places.list (gate_of (file_of opened.new.twin)))
        (D.state a.old).bytes (D.state b.old).bytes (D.state a.new).bytes (D.state b.new).bytes) }
    ensures limits { opened.new.book.limits ≡ opened.old.book.limits }
    ensures told { OnOk result (HasOpenTail opened.new.twin (D.state a.new) (D.state b.new)) }
    ensures edition { OnOk result (IsTrue D.tells → edition_in opened.new.twin
        ≡ edition_of (open_bytes opened.new.twin (D.state a.new) (D.state b.new)).seen) }
    ensures copy { OnOk result (copy_of opened.old.twin ≡ None → copy_of opened.new.twin ≡ None) }
    ensures images { OfTold D.tells PairStandsStill (D.state a.old) (D.state b.old) (D.state a.new) (D.state b.new) }
    ensures clean { OfTold D.tells IsCleanStill (D.state a.old) (D.state b.old) (D.state a.new) (D.state b.new) }
    ensures only { IfErr result (λ e. e ≡ errors.DiskFault) }
    ensures faults { CountsOpen result (D.state a.old).faults (D.state a.new).faults
        (D.state b.old).faults (D.state b.new).faults }
{
    trim_open(a, b, &mut opened.twin)?;
    finish_erasures(a, b, opened)?;
    complete(a, b, opened, purge)?;
    clear_other(opened.twin.in_a(), a, b)
}

// Reads the file that was taken, does what a crash left undone, and carries a file of the first version over. All memory is
// taken before the first write.
fn open_pair<R: Threads, D: Disk>(
    rt: &R,
    alloc: Global,
    twin: Twin,
    a: &mut D,
    b: &mut D,
    limits: Limits,
) -> Result<Opened, OpenErr>
    requires told { HasOpenTail twin (D.state a.old) (D.state b.old) }
    requires place { gate_of (file_of twin) ≡ 64 + base_len_of (file_of twin) }
    requires head { IsTrue D.tells → IsHeadOf (open_bytes twin (D.state a.old) (D.state b.old)).seen (file_of twin) }
    requires here { IsTrue D.tells → IsHere (in_a_of twin) (edition_in twin)
        (D.state a.old).bytes (D.state b.old).bytes }
    requires limits { AreWithin limits }
    ensures ok { IfOk result (λ opened. OfBoth (KnowsReopened D.tells (in_a_of opened.twin) (known_in opened))
        (D.state a.old) (D.state b.old) (D.state a.new) (D.state b.new)) }
    ensures limits { IfOk result (λ opened. opened.book.limits ≡ limits) }
    ensures told { IfOk result (λ opened. HasOpenTail opened.twin (D.state a.new) (D.state b.new)) }
    ensures edition { IfOk result (λ opened. IsTrue D.tells → edition_in opened.twin
        ≡ edition_of (open_bytes opened.twin (D.state a.new) (D.state b.new)).seen) }
    ensures copy { IfOk result (λ opened. copy_of twin ≡ None → copy_of opened.twin ≡ None) }
    ensures err { IfErr result (λ e. IsTrue D.tells
        → IsReadErr (open_bytes twin (D.state a.old) (D.state b.old)).seen e) }
    ensures only { IfErr result (λ e. (e ≢ errors.Empty) × (e ≢ errors.Exists)) }
    ensures same { IfErr result (λ e. e ≢ errors.DiskFault → IsTrue D.tells → OfBoth AreUnchanged
        (D.state a.old) (D.state b.old) (D.state a.new) (D.state b.new)) }
    ensures kept { IsTrue D.tells → HasLawfulBlocks (open_bytes twin (D.state a.old) (D.state b.old)).seen
        ⊎ OfBoth AreUnchanged (D.state a.old) (D.state b.old) (D.state a.new) (D.state b.new) }
    ensures images { OfTold D.tells PairStandsStill (D.state a.old) (D.state b.old) (D.state a.new) (D.state b.new) }
    ensures clean { OfTold D.tells IsCleanStill (D.state a.old) (D.state b.old) (D.state a.new) (D.state b.new) }
    ensures faults { CountsOpen result (D.state a.old).faults (D.state a.new).faults
        (D.state b.old).faults (D.state b.new).faults }
{
    let mut twin = twin;
    let base = base_to_carry(alloc, &mut twin, a, b)?;
    let mut opened = read_pair(rt, alloc, twin, a, b, limits)?;
    let purge = prepare_purge(alloc, &opened.book, &opened.places)?;
    finish_open(a, b, &mut opened, purge)?;
    carry(a, b, &mut opened.twin, base)?;
    Ok(opened)
}

/// Opens a ledger from its two disks. Both are synced before they are looked at. The open file is read once, from its
/// first block on, and the leaf digests of a long ledger's journals are made in a thread beside; what stands behind its tail gate
/// is cut off, what the last journal hides is given up and what it purges falls away where a crash left that undone, and the
/// other file is emptied where it isn't. At last a file of the first version is carried over into the other one, which has the
/// second. All memory is taken before the first write.
///
/// The edition that is kept is the open file's, and no copy is begun. A pair that its bytes keep from being opened reads as
/// before, whatever is answered (`refused`). A crash at any time leaves a pair that stands for what it stood for (`images`);
/// what was pending matters only where a disk failed, since both were synced otherwise. Whatever was pending at the call,
/// nothing was written yet, and both read as before, or a crash leaves such a pair (`synced`).
pub fn reopen<R: Threads, D: Disk>(
    rt: &R,
    alloc: Global,
    a: &mut D,
    b: &mut D,
    limits: Limits,
) -> Result<Opened, OpenErr>
    requires { AreWithin limits }
    ensures ok { IfOk result (λ opened. OfBoth (KnowsReopened D.tells (in_a_of opened.twin) (known_in opened))
        (D.state a.old) (D.state b.old) (D.state a.new) (D.state b.new)) }
    ensures limits { IfOk result (λ opened. opened.book.limits ≡ limits) }
    ensures told { IfOk result (λ opened. HasOpenTail opened.twin (D.state a.new) (D.state b.new)) }
    ensures edition { IfOk result (λ opened. IsTrue D.tells → edition_in opened.twin
        ≡ edition_of (open_bytes opened.twin (D.state a.new) (D.state b.new)).seen) }
    ensures copy { IfOk result (λ opened. copy_of opened.twin ≡ None) }
    ensures err { IfErr result (λ e. IsTrue D.tells
        → IsOpenErr (D.state a.old).bytes.seen (D.state b.old).bytes.seen e) }
    ensures only { IfErr result (λ e. e ≢ errors.Exists) }
    ensures same { IfErr result (λ e. e ≢ errors.DiskFault → IsTrue D.tells
        → OfBoth AreSettled (D.state a.old) (D.state b.old) (D.state a.new) (D.state b.new)) }
    ensures refused { IsTrue D.tells → (e : OpenErrRecord) → (IsOutside e → ⊥)
        → IsOpenErr (D.state a.old).bytes.seen (D.state b.old).bytes.seen e
        → OfBoth StandAsRead (D.state a.old) (D.state b.old) (D.state a.new) (D.state b.new) }
    ensures images { IsTrue D.tells → WereSettled result (D.state a.old).bytes (D.state b.old).bytes
        → OfBoth PairStandsStill (D.state a.old) (D.state b.old) (D.state a.new) (D.state b.new) }
    ensures clean { OfTold D.tells IsCleanStill (D.state a.old) (D.state b.old) (D.state a.new) (D.state b.new) }
    ensures synced { IsTrue D.tells → OfBoth StandAsRead (D.state a.old) (D.state b.old) (D.state a.new) (D.state b.new)
        ⊎ OfBoth PairStandsStill (D.state a.old) (D.state b.old) (D.state a.new) (D.state b.new) }
    ensures faults { CountsOpen result (D.state a.old).faults (D.state a.new).faults
        (D.state b.old).faults (D.state b.new).faults }
{
    a.sync()?;
    b.sync()?;
    match Twin::reopen(a, b) {
        Ok(Some(twin)) => open_pair(rt, alloc, twin, a, b, limits),
        Ok(None) => Err(OpenErr::Empty),
        Err(e) => Err(OpenErr::from(e)),
    }
}
