//! The open file, read from its first block to its tail gate.

ghost use Rattle.std.specs.Prelude.{◌≡◌, ◌≢◌, ◌⊎◌, ◌+◌, ◌≤◌, ℕ, Bool, true, false, List, get_or, length, IsTrue, IfOk, IfErr, IsSomeAnd, OnOk};
ghost use Rattle.block_file.specs.FileView.{gate_of, base_len_of};
ghost use Rattle.block_file.specs.declared.failure.Damage.{Damage};
ghost use Rattle.block_file.specs.declared.failure.Damage.TheVariants as damages;
ghost use Rattle.ledger_disk.specs.Disk.{KeepsLength};
ghost use Rattle.ledger_model.specs.Limits.{AreWithin};
ghost use Rattle.ledger_open.specs.Ahead.{AreNextBlocks};
ghost use Rattle.ledger_open.specs.Damages.{IsDamage};
ghost use Rattle.ledger_open.specs.Opening.{HasRead, HasKnown, IsHeadOf, IsReadErr, CountsRead, known_from};
ghost use Rattle.ledger_open.specs.Standing.{floor_from};
ghost use Rattle.ledger_open.specs.Starts.{IsDecoded, IsStart};
ghost use Rattle.ledger_open.specs.declared.ahead.Stop.TheVariants as stops;
ghost use Rattle.ledger_open.specs.declared.failure.OpenErr.TheVariants as errors;

use crate::ahead::{Ahead, Stop, read_ahead};
use crate::base::{begin_behind, read_base};
use crate::first::read_first;
use crate::replaying::{take_all, take_beside};
use crate::{OpenErr, Places};
use block_file::{BlockFile, Damage};
use ledger_book::Book;
use ledger_disk::Disk;
use ledger_model::Limits;
use pseudo_genesis::Base;
use std::alloc::Global;
use std::thread::Threads;

/// What was read of a file.
#[derive(Drop)]
pub struct Read {
    pub book: Book,
    pub places: Places,
}

// Reads the next blocks behind those that are ahead of the book, which are taken meanwhile.
fn read_more<R: Threads, D: Disk>(
    rt: &R,
    alloc: Global,
    file: &mut BlockFile,
    disk: &mut D,
    buffer: &mut Vec<u8>,
    read: &mut Read,
    ahead: &Ahead,
) -> Result<Ahead, OpenErr>
    requires told { IsSomeAnd (D.state disk.old).told (λ n. gate_of file.old + 1 ≤ n) }
    requires full { ahead.now.stop ≡ stops.Full }
    requires ahead { AreNextBlocks D.tells (D.state disk.old).bytes.seen read.old.book
        read.old.places.list ahead.now (gate_of file.old) }
    ensures ok { IfOk result (λ next. AreNextBlocks D.tells (D.state disk.old).bytes.seen
        read.new.book read.new.places.list next (gate_of file.new)) }
    ensures limits { OnOk result (read.new.book.limits ≡ read.old.book.limits) }
    ensures nearer { IfOk result (λ next. (next.stop ≡ stops.Full
        → gate_of file.old + 1 ≤ gate_of file.new) × (gate_of file.old ≤ gate_of file.new)) }
    ensures err { IfErr result (λ e. IsTrue D.tells
        → IsReadErr (D.state disk.old).bytes.seen e) }
    ensures only { IfErr result (λ e. (e ≢ errors.Empty) × (e ≢ errors.Exists)) }
    ensures told { OnOk result (IsSomeAnd (D.state disk.new).told
        (λ n. gate_of file.new + 1 ≤ n)) }
    ensures state { IsTrue D.tells → (D.state disk.new).bytes ≡ (D.state disk.old).bytes }
    ensures length { KeepsLength (D.state disk.old).told (D.state disk.new).told }
    ensures faults { CountsRead result (D.state disk.old).faults (D.state disk.new).faults }
{
    let first = read.book.size() + ahead.count;
    let mut next = match read_ahead(alloc, file, disk, buffer, first) {
        Ok(next) => next,
        Err(e) => return Err(e),
    };
    let Read { book, places } = read;
    match take_beside(rt, book, places, ahead.blocks.as_slice(), &mut next) {
        Ok(()) => Ok(next),
        Err(e) => Err(e),
    }
}

// What was read up to the tail gate. Behind a base the purge to its point has to be there.
fn end_at_tail(read: Read) -> Result<Read, OpenErr>
    ensures ok { IfOk result (λ known. (known ≡ read) × (read.book.reached ≡ true)) }
    ensures err { IfErr result (λ e. (e ≡ errors.Damaged (damages.Entry read.book.size))
        × (read.book.reached ≡ false)) }
{
    if !read.book.reached() {
        return Err(OpenErr::Damaged(Damage::Entry {
            jsn: read.book.size(),
        }));
    }
    Ok(read)
}

// What is known once the last blocks are taken. Behind a base they have to have the purge to its point.
fn read_last(read: Read, ahead: Ahead) -> Result<Read, OpenErr>
    requires end { ahead.stop ≢ stops.Full }
    requires ahead { (tells : Bool) × (file : List ℕ) × (place : ℕ)
        × AreNextBlocks tells file read.book read.places.list ahead place }
    ensures ok { IfOk result (λ known. (known.book.reached ≡ true)
        × ((tells : Bool) (file : List ℕ) (place : ℕ)
        → AreNextBlocks tells file read.book read.places.list ahead place
        → HasRead tells file (known_from known.book known.places.list place)
        × (IsTrue tells → get_or file place 0 ≢ 1))) }
    ensures limits { IfOk result (λ known. known.book.limits ≡ read.book.limits) }
    ensures err { IfErr result (λ e. (e ≡ errors.NoMemory) ⊎ ((damage : Damage)
        × (e ≡ errors.Damaged damage) × ((tells : Bool) (file : List ℕ) (place : ℕ)
        → AreNextBlocks tells file read.book read.places.list ahead place → IsTrue tells
        → place + 1 ≤ length file → IsDamage file damage))) }
{
    let Read {
        mut book,
        mut places,
    } = read;
    if let Err(e) = take_all(&mut book, &mut places, ahead.blocks.as_slice()) {
        return Err(e);
    }
    match ahead.stop {
        Stop::Shut => end_at_tail(Read { book, places }),
        Stop::Damaged(damage) => Err(OpenErr::Damaged(damage)),
        Stop::Full | Stop::TooLong => unreachable!(),
    }
}

// Reads the blocks behind the first, up to the tail gate.
fn read_rest<R: Threads, D: Disk>(
    rt: &R,
    alloc: Global,
    file: &mut BlockFile,
    disk: &mut D,
    buffer: &mut Vec<u8>,
    read: Read,
) -> Result<Read, OpenErr>
    requires told { IsSomeAnd (D.state disk.old).told (λ n. gate_of file.old + 1 ≤ n) }
    requires known { HasRead D.tells (D.state disk.old).bytes.seen
        (known_from read.book read.places.list (gate_of file.old)) }
    ensures ok { IfOk result (λ read. HasKnown D.tells (D.state disk.old).bytes.seen
        (known_from read.book read.places.list (gate_of file.new))) }
    ensures limits { IfOk result (λ found. found.book.limits ≡ read.book.limits) }
    ensures err { IfErr result (λ e. IsTrue D.tells → IsReadErr (D.state disk.old).bytes.seen e) }
    ensures only { IfErr result (λ e. (e ≢ errors.Empty) × (e ≢ errors.Exists)) }
    ensures told { OnOk result (IsSomeAnd (D.state disk.new).told
        (λ n. gate_of file.new + 1 ≤ n)) }
    ensures state { IsTrue D.tells → (D.state disk.new).bytes ≡ (D.state disk.old).bytes }
    ensures length { KeepsLength (D.state disk.old).told (D.state disk.new).told }
    ensures faults { CountsRead result (D.state disk.old).faults (D.state disk.new).faults }
{
    let mut read = read;
    let first = read.book.size();
    let mut ahead = match read_ahead(alloc, file, disk, buffer, first) {
        Ok(ahead) => ahead,
        Err(e) => return Err(e),
    };
    ahead.hash();
    while ahead.is_full() {
        ahead = match read_more(rt, alloc, file, disk, buffer, &mut read, &ahead) {
            Ok(ahead) => ahead,
            Err(e) => return Err(e),
        };
    }
    read_last(read, ahead)
}

// Begins a book where the file begins: with its first block, or behind its base.
fn begin_read<D: Disk>(
    alloc: Global,
    file: &mut BlockFile,
    disk: &mut D,
    buffer: &mut Vec<u8>,
    base: &Option<Base>,
    limits: Limits,
) -> Result<Read, OpenErr>
    requires told { IsSomeAnd (D.state disk.old).told (λ n. gate_of file.old + 1 ≤ n) }
    requires place { gate_of file.old ≡ 64 + length (floor_from base.now).base }
    requires decoded { IsDecoded base.now }
    requires start { IsTrue D.tells → IsStart (D.state disk.old).bytes.seen base.now }
    requires limits { AreWithin limits }
    ensures ok { IfOk result (λ read. HasRead D.tells (D.state disk.old).bytes.seen
        (known_from read.book read.places.list (gate_of file.new))) }
    ensures limits { IfOk result (λ read. read.book.limits ≡ limits) }
    ensures err { IfErr result (λ e. IsTrue D.tells
        → IsReadErr (D.state disk.old).bytes.seen e) }
    ensures only { IfErr result (λ e. (e ≢ errors.Empty) × (e ≢ errors.Exists)) }
    ensures told { OnOk result (IsSomeAnd (D.state disk.new).told
        (λ n. gate_of file.new + 1 ≤ n)) }
    ensures state { IsTrue D.tells → (D.state disk.new).bytes ≡ (D.state disk.old).bytes }
    ensures length { KeepsLength (D.state disk.old).told (D.state disk.new).told }
    ensures faults { CountsRead result (D.state disk.old).faults (D.state disk.new).faults }
{
    match base {
        None => read_first(alloc, file, disk, buffer, limits),
        Some(base) => begin_behind(alloc, base, limits),
    }
}

/// Reads the open file, which stands at its first block: once, in order, with the bytes of one block and the headers of
/// up to 512 in memory at a time.
pub(crate) fn read_file<R: Threads, D: Disk>(
    rt: &R,
    alloc: Global,
    file: &mut BlockFile,
    disk: &mut D,
    limits: Limits,
) -> Result<Read, OpenErr>
    requires told { IsSomeAnd (D.state disk.old).told (λ n. gate_of file.old + 1 ≤ n) }
    requires place { gate_of file.old ≡ 64 + base_len_of file.old }
    requires head { IsTrue D.tells → IsHeadOf (D.state disk.old).bytes.seen file.old }
    requires limits { AreWithin limits }
    ensures ok { IfOk result (λ read. HasKnown D.tells (D.state disk.old).bytes.seen
        (known_from read.book read.places.list (gate_of file.new))) }
    ensures limits { IfOk result (λ read. read.book.limits ≡ limits) }
    ensures err { IfErr result (λ e. IsTrue D.tells → IsReadErr (D.state disk.old).bytes.seen e) }
    ensures only { IfErr result (λ e. (e ≢ errors.Empty) × (e ≢ errors.Exists)) }
    ensures told { OnOk result (IsSomeAnd (D.state disk.new).told
        (λ n. gate_of file.new + 1 ≤ n)) }
    ensures state { IsTrue D.tells → (D.state disk.new).bytes ≡ (D.state disk.old).bytes }
    ensures length { KeepsLength (D.state disk.old).told (D.state disk.new).told }
    ensures faults { CountsRead result (D.state disk.old).faults (D.state disk.new).faults }
{
    let base = match read_base(alloc, file, disk) {
        Ok(base) => base,
        Err(e) => return Err(e),
    };
    let mut buffer = Vec::new(alloc);
    let read = match begin_read(alloc, file, disk, &mut buffer, &base, limits) {
        Ok(read) => read,
        Err(e) => return Err(e),
    };
    read_rest(rt, alloc, file, disk, &mut buffer, read)
}
