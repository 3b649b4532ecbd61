//! A purge is finished: what stays is copied into the other file, and the old one is wiped.

ghost use Rattle.std.specs.Prelude.{◌≡◌, ◌+◌, ◌-◌, ◌≤◌, [], ℕ, List, None, not, length, IsTrue, IfOk, IfErr, OnOk};
ghost use Rattle.block_file.specs.File.{whole_file};
ghost use Rattle.block_file.specs.Head.{CountsTwoAlone, front_of};
ghost use Rattle.block_file.specs.FileView.{gate_of, HasTail};
ghost use Rattle.ledger_disk.specs.Disk.{settled_state};
ghost use Rattle.twin_file.specs.Twin.{open_of, other_of, next_generation};
ghost use Rattle.twin_file.specs.Which.{in_a_of, generation_in, format_in, file_of, copy_of};
ghost use Rattle.ledger_open.specs.Erasing.{AllInside};
ghost use Rattle.ledger_open.specs.Opening.{open_bytes, CountsOpen, HasOpenTail};
ghost use Rattle.ledger_open.specs.Cutting.{IsBaseAt, IsCutOf, IsPrepared};
ghost use Rattle.ledger_open.specs.Purging.{copied_file, HasBetween, IsDone, IsHalfDone, LetsGo, MayLetGo, MayMove, AllEither, ledger_at};
ghost use Rattle.ledger_open.specs.declared.failure.OpenErr.TheVariants as errors;
ghost use Rattle.ledger_open.specs.declared.opened.Opened.{Opened as OpenedRecord};

use crate::{OpenErr, Opened, Places};
use block_file::FileErr;
use ledger_book::Book;
use ledger_bytes::{Bytes, NoMemory};
use ledger_disk::Disk;
use std::alloc::Global;
use twin_file::Twin;

// Where the copy begins.
#[derive(Clone, Copy)]
pub(crate) struct Cut {
    // The first journal that stays.
    point: u64,
    // How many journals of the file fall away.
    count: usize,
    // The offset of the gate in front of it.
    gate: u64,
}

/// What finishing a purge takes memory for: where the copy begins, and the bytes of the base there.
#[derive(Drop)]
pub struct Purge {
    cut: Cut,
    base: Bytes,
}

// Where the copy begins, where the file's first journal stands in front of the point.
fn cut_of(book: &Book, places: &Places) -> Option<Cut>
    ensures { IsCutOf book.now places.now.list result }
{
    let point = book.point();
    let floor = book.floor();
    if point <= floor || book.sealed_size() < point {
        return None;
    }
    let count = (point - floor) as usize;
    let Some(place) = places.as_slice().get(count) else {
        return None;
    };
    let Some(gate) = place.gate() else {
        return None;
    };
    Some(Cut { point, count, gate })
}

/// The bytes of the base at a journal.
pub fn base_bytes(alloc: Global, book: &Book, p: u64) -> Result<Bytes, NoMemory>
    requires low { book.now.floor ≤ p }
    requires some { 1 ≤ p }
    requires high { p ≤ book.now.size }
    ensures { IfOk result (IsBaseAt book.now p) }
{
    let base = book.base_at(p)?;
    base.encode(alloc)
}

/// Takes the memory that finishing a purge needs, where one is left undone.
pub fn prepare_purge(alloc: Global, book: &Book, places: &Places) -> Result<Option<Purge>, NoMemory>
    ensures { IfOk result (IsPrepared book.now places.now.list) }
{
    match cut_of(book, places) {
        Some(cut) => {
            let base = base_bytes(alloc, book, cut.point)?;
            Ok(Some(Purge { cut, base }))
        }
        None => Ok(None),
    }
}

/// Copies what stands between this gate and the tail gate into the other file, behind this base, opens it, and wipes the old
/// one.
pub(crate) fn move_over<D: Disk>(
    a: &mut D,
    b: &mut D,
    twin: &mut Twin,
    base: &[u8],
    gate: u64,
) -> Result<(), FileErr>
    requires told { HasOpenTail twin.old (D.state a.old) (D.state b.old) }
    requires gate { gate ≤ gate_of (file_of twin.old) }
    ensures copied { OnOk result (IsTrue D.tells → (blocks : List (List ℕ))
        → HasBetween gate (gate_of (file_of twin.old)) (open_bytes twin.old (D.state a.old) (D.state b.old)).seen blocks
        → open_bytes twin.new (D.state a.new) (D.state b.new) ≡ settled_state
        (whole_file (front_of 1 (next_generation (generation_in twin.old)) base.now) blocks)) }
    ensures bytes { OnOk result (IsTrue D.tells → open_bytes twin.new (D.state a.new) (D.state b.new) ≡ settled_state
        (copied_file (next_generation (generation_in twin.old)) base.now gate (gate_of (file_of twin.old))
        (open_bytes twin.old (D.state a.old) (D.state b.old)).seen)) }
    ensures wiped { OnOk result (IsTrue D.tells
        → other_of (in_a_of twin.new) (D.state a.new).bytes (D.state b.new).bytes ≡ settled_state []) }
    ensures images { IsTrue D.tells → (blocks : List (List ℕ))
        → MayMove (in_a_of twin.old) (generation_in twin.old) (D.state a.old).bytes (D.state b.old).bytes
        → HasBetween gate (gate_of (file_of twin.old)) (open_bytes twin.old (D.state a.old) (D.state b.old)).seen blocks
        → AllEither (in_a_of twin.old) (open_bytes twin.old (D.state a.old) (D.state b.old)).seen
        (whole_file (front_of 1 (next_generation (generation_in twin.old)) base.now) blocks)
        (D.state a.new).bytes (D.state b.new).bytes }
    ensures twin { OnOk result ((in_a_of twin.new ≡ not (in_a_of twin.old))
        × (generation_in twin.new ≡ next_generation (generation_in twin.old)) × (format_in twin.new ≡ 2)
        × (copy_of twin.new ≡ None) × (gate_of (file_of twin.new) ≡ 64 + length base.now + (gate_of (file_of twin.old) - gate))) }
    ensures told { OnOk result (HasOpenTail twin.new (D.state a.new) (D.state b.new)) }
    ensures faults { CountsTwoAlone result (D.state a.old).faults (D.state a.new).faults
        (D.state b.old).faults (D.state b.new).faults }
{
    let tail = twin.file().tail();
    twin.begin_copy(a, b, base)?;
    twin.copy_block(a, b, gate, tail - gate)?;
    twin.switch(a, b)?;
    twin.wipe(a, b)
}

/// What a purge took from the files, and memory has still: what lies in front of the cut. The file that is open now has its
/// first gate at an offset of its own.
#[derive(Clone, Copy)]
pub struct Gone {
    cut: Cut,
    first_gate: u64,
}

/// Finishes a purge in the files, for which memory was taken: the copy is made and opened, and the old file wiped. A fault of
/// a disk is the only error. Book and places are as they were until [`let_go`].
pub fn purge_files<D: Disk>(
    a: &mut D,
    b: &mut D,
    opened: &mut Opened,
    purge: Option<Purge>,
) -> Result<Option<Gone>, OpenErr>
    requires told { HasTail (open_of (in_a_of opened.old.twin) (D.state a.old).told (D.state b.old).told)
        (file_of opened.old.twin) }
    requires inside { AllInside (gate_of (file_of opened.old.twin)) opened.old.places.list }
    requires prepared { IsPrepared opened.old.book opened.old.places.list purge }
    ensures done { IfOk result (λ gone. (later : OpenedRecord) → LetsGo gone opened.new later → IsDone D.tells
        (ledger_at opened.old (D.state a.old).bytes (D.state b.old).bytes)
        (ledger_at later (D.state a.new).bytes (D.state b.new).bytes)) }
    ensures may { IfOk result (MayLetGo opened.new) }
    ensures left { IsHalfDone D.tells
        (ledger_at opened.old (D.state a.old).bytes (D.state b.old).bytes)
        (D.state a.new).bytes (D.state b.new).bytes }
    ensures same { opened.old.book.point ≤ opened.old.book.floor
        → (opened.new ≡ opened.old) × IfOk result (λ gone. gone ≡ None) }
    ensures memory { (opened.new.book ≡ opened.old.book) × (opened.new.places ≡ opened.old.places) }
    ensures copy { OnOk result (copy_of opened.old.twin ≡ None → copy_of opened.new.twin ≡ None) }
    ensures told { OnOk result (HasTail
        (open_of (in_a_of opened.new.twin) (D.state a.new).told (D.state b.new).told)
        (file_of opened.new.twin)) }
    ensures only { IfErr result (λ e. e ≡ errors.DiskFault) }
    ensures faults { CountsOpen result (D.state a.old).faults (D.state a.new).faults
        (D.state b.old).faults (D.state b.new).faults }
{
    let Some(Purge { cut, base }) = purge else {
        return Ok(None);
    };
    match move_over(a, b, &mut opened.twin, base.as_slice(), cut.gate) {
        Ok(()) => {
            let first_gate = 64 + base.as_slice().len() as u64;
            Ok(Some(Gone { cut, first_gate }))
        }
        Err(_) => Err(OpenErr::DiskFault),
    }
}

/// Gives back the memory of what a purge took from the files.
pub fn let_go(opened: &mut Opened, gone: Option<Gone>)
    requires { MayLetGo opened.old gone }
    ensures { LetsGo gone opened.old opened.new }
{
    if let Some(Gone { cut, first_gate }) = gone {
        opened.places.drop_front(cut.count, cut.gate, first_gate);
        opened.book.drop_below(cut.point);
    }
}

/// Finishes a purge for which memory was taken, in the files and in memory. A fault of a disk is the only error.
pub(crate) fn complete<D: Disk>(
    a: &mut D,
    b: &mut D,
    opened: &mut Opened,
    purge: Option<Purge>,
) -> Result<(), OpenErr>
    requires told { HasTail (open_of (in_a_of opened.old.twin) (D.state a.old).told (D.state b.old).told)
        (file_of opened.old.twin) }
    requires inside { AllInside (gate_of (file_of opened.old.twin)) opened.old.places.list }
    requires prepared { IsPrepared opened.old.book opened.old.places.list purge }
    ensures done { OnOk result (IsDone D.tells
        (ledger_at opened.old (D.state a.old).bytes (D.state b.old).bytes)
        (ledger_at opened.new (D.state a.new).bytes (D.state b.new).bytes)) }
    ensures left { IsHalfDone D.tells
        (ledger_at opened.old (D.state a.old).bytes (D.state b.old).bytes)
        (D.state a.new).bytes (D.state b.new).bytes }
    ensures same { opened.old.book.point ≤ opened.old.book.floor → opened.new ≡ opened.old }
    ensures sizes { (opened.new.book.size ≡ opened.old.book.size)
        × (opened.new.book.sealed ≡ opened.old.book.sealed) }
    ensures limits { opened.new.book.limits ≡ opened.old.book.limits }
    ensures copy { OnOk result (copy_of opened.old.twin ≡ None → copy_of opened.new.twin ≡ None) }
    ensures told { OnOk result (HasTail
        (open_of (in_a_of opened.new.twin) (D.state a.new).told (D.state b.new).told)
        (file_of opened.new.twin)) }
    ensures only { IfErr result (λ e. e ≡ errors.DiskFault) }
    ensures faults { CountsOpen result (D.state a.old).faults (D.state a.new).faults
        (D.state b.old).faults (D.state b.new).faults }
{
    let gone = purge_files(a, b, opened, purge)?;
    let_go(opened, gone);
    Ok(())
}
