//! A new ledger.

ghost use Rattle.std.specs.Prelude.{◌≡◌, ◌≢◌, ◌⊎◌, ◌++◌, [], ◌∷◌, true, false, IsTrue, IfOk, IfErr, OnOk, Err, None};
ghost use Rattle.block_file.specs.Head.{IsShut, IsOpen};
ghost use Rattle.block_file.specs.Places.{after_at};
ghost use Rattle.journal_record.specs.Blocks.{block_bytes, leaves_of};
ghost use Rattle.ledger_disk.specs.Disk.{KeepsLength};
ghost use Rattle.ledger_model.specs.Genesis.{HasKeys, new_ledger, genesis_journal};
ghost use Rattle.ledger_model.specs.Limits.{AreWithin};
ghost use Rattle.block_file.specs.FileView.{HasTail};
ghost use Rattle.twin_file.specs.Which.{in_a_of, file_of, copy_of};
ghost use Rattle.ledger_open.specs.Heads.{edition_from, edition_in};
ghost use Rattle.ledger_open.specs.Founding.{IsOneOpen, IsFounded, LeavesFoundedOrShut, StaysFoundedOrShut};
ghost use Rattle.ledger_open.specs.Opening.{known_from, known_in, OfBoth, Knows, IsOutside, AreSettled, StandAsRead, WereSettled, CountsRead, CountsOpen};
ghost use Rattle.ledger_open.specs.Standing.{ground};
ghost use Rattle.ledger_open.specs.declared.failure.OpenErr.TheVariants as errors;

use crate::{OpenErr, Opened, Places};
use block_file::{BlockFile, BlockWriter, FIRST_GATE, FileErr};
use ledger_book::{Book, first_header};
use ledger_bytes::NoMemory;
use ledger_disk::Disk;
use ledger_model::{Genesis, Limits};
use std::alloc::Global;
use twin_file::Twin;

// Whether a file is open, whatever its head says else: over a damaged ledger none is made.
fn is_open<D: Disk>(disk: &mut D) -> Result<bool, OpenErr>
    ensures open { IfOk result (λ open_now. IsTrue D.tells → open_now ≡ true
        → IsOpen (D.state disk.old).bytes.seen) }
    ensures shut { IfOk result (λ open_now. IsTrue D.tells → open_now ≡ false
        → IsShut (D.state disk.old).bytes.seen) }
    ensures err { IfErr result (λ e. e ≡ errors.DiskFault) }
    ensures state { IsTrue D.tells → (D.state disk.new).bytes ≡ (D.state disk.old).bytes }
    ensures length { KeepsLength (D.state disk.old).told (D.state disk.new).told }
    ensures faults { CountsRead result (D.state disk.old).faults (D.state disk.new).faults }
{
    match BlockFile::head(disk) {
        Ok(None) => Ok(false),
        Ok(Some(_)) => Ok(true),
        Err(FileErr::DiskFault) => Err(OpenErr::DiskFault),
        Err(_) => Ok(true),
    }
}

// What a new ledger is made with.
#[derive(Drop)]
struct Made {
    book: Book,
    places: Places,
    /// Block 0.
    block: BlockWriter,
}

// Makes all that takes memory, so that want of it leaves both disks alone.
fn new_parts(alloc: Global, genesis: &Genesis, limits: Limits) -> Result<Made, NoMemory>
    requires { AreWithin limits }
    ensures known { IfOk result (λ made. Knows
        (known_from made.book made.places.list (after_at 64 (new_ledger genesis.now).closed))
        None (new_ledger genesis.now).closed) }
    ensures limits { IfOk result (λ made. made.book.limits ≡ limits) }
    ensures block { IfOk result (λ made. made.block.head ++ made.block.body ≡ block_bytes
        ((ground).root (leaves_of (genesis_journal genesis.now ∷ [])))
        (genesis_journal genesis.now ∷ [])) }
    ensures keys { OnOk result (HasKeys genesis.now) }
{
    let book = Book::new(alloc, genesis, limits)?;
    let mut places = Places::new(alloc);
    places.reserve(1)?;
    let mut block = BlockWriter::new(alloc);
    let header = first_header(genesis).encode();
    places.push(block.put(FIRST_GATE, &header, &genesis.content(), &[])?);
    block.finish(1, &book.head().root)?;
    Ok(Made {
        book,
        places,
        block,
    })
}

/// Makes a new ledger of the two disks. Both are synced before they are looked at, and all memory is taken before the
/// first write. [`OpenErr::Exists`] comes where one of the files is open, whatever its head says else.
///
/// Where a file is open, both read as before, whatever is answered (`left`). An error that isn't a fault leaves both as they
/// read, and nothing pending (`same`). A crash at any time leaves both shut, or a pair that stands for the new ledger
/// (`images`); what was pending matters only where a disk failed, since both syncs succeeded otherwise. Whatever was pending at
/// the call, nothing was written yet, and both read as before, or a crash leaves such a pair where both were shut (`synced`).
pub fn init<D: Disk>(
    alloc: Global,
    a: &mut D,
    b: &mut D,
    genesis: &Genesis,
    limits: Limits,
) -> Result<Opened, OpenErr>
    requires { AreWithin limits }
    ensures ok { IfOk result (λ opened. Knows (known_in opened) None (new_ledger genesis.now).closed
        × (in_a_of opened.twin ≡ true)) }
    ensures limits { IfOk result (λ opened. opened.book.limits ≡ limits) }
    ensures keys { OnOk result (HasKeys genesis.now) }
    ensures founded { OnOk result (IsTrue D.tells → IsFounded genesis.now (D.state a.new).bytes (D.state b.new).bytes) }
    ensures shut { OnOk result (IsTrue D.tells
        → IsShut (D.state a.old).bytes.seen × IsShut (D.state b.old).bytes.seen) }
    ensures told { IfOk result (λ opened. HasTail (D.state a.new).told (file_of opened.twin)) }
    ensures twin { IfOk result (λ opened. (edition_in opened.twin ≡ edition_from 2 1) × (copy_of opened.twin ≡ None)) }
    ensures err { IfErr result (λ e. IsOutside e ⊎ (e ≡ errors.Exists)) }
    ensures exists { IfErr result (λ e. e ≡ errors.Exists → IsTrue D.tells
        → IsOneOpen (D.state a.old).bytes.seen (D.state b.old).bytes.seen) }
    ensures left { IsTrue D.tells → IsOneOpen (D.state a.old).bytes.seen (D.state b.old).bytes.seen
        → OfBoth StandAsRead (D.state a.old) (D.state b.old) (D.state a.new) (D.state b.new) }
    ensures same { IfErr result (λ e. e ≢ errors.DiskFault → IsTrue D.tells
        → OfBoth AreSettled (D.state a.old) (D.state b.old) (D.state a.new) (D.state b.new)) }
    ensures images { IsTrue D.tells → IsShut (D.state a.old).bytes.seen → IsShut (D.state b.old).bytes.seen
        → WereSettled result (D.state a.old).bytes (D.state b.old).bytes
        → LeavesFoundedOrShut genesis.now (D.state a.new).bytes (D.state b.new).bytes }
    ensures synced { IsTrue D.tells → OfBoth StandAsRead (D.state a.old) (D.state b.old) (D.state a.new) (D.state b.new)
        ⊎ OfBoth (StaysFoundedOrShut genesis.now) (D.state a.old) (D.state b.old) (D.state a.new) (D.state b.new) }
    ensures faults { CountsOpen result (D.state a.old).faults (D.state a.new).faults
        (D.state b.old).faults (D.state b.new).faults }
{
    a.sync()?;
    b.sync()?;
    if is_open(a)? {
        return Err(OpenErr::Exists);
    }
    if is_open(b)? {
        return Err(OpenErr::Exists);
    }
    let made = new_parts(alloc, genesis, limits)?;
    match Twin::make(a, b, made.block.as_slice()) {
        Ok(twin) => Ok(Opened {
            book: made.book,
            twin,
            places: made.places,
        }),
        Err(e) => Err(OpenErr::from(e)),
    }
}
