//! Journals are kept in a set before a purge.

ghost use Rattle.std.specs.Prelude.{◌≡◌, ◌≤◌, ◌<◌, IsTrue, length, IfErr, OnOk};
ghost use Rattle.ledger_book.specs.Books.{Serves};
ghost use Rattle.ledger_model.specs.History as model;
ghost use Rattle.ledger_model.specs.History.{History};
ghost use Rattle.ledger_open.specs.Pieces.{IsReadAs, WasOnlyRead};
ghost use Rattle.twin_file.specs.Twin.{open_of, other_of};
ghost use Rattle.twin_file.specs.Which.{in_a_of};
ghost use Rattle.survivor_set.specs.Keeping as keeping;
ghost use Rattle.survivor_set.specs.Keeping.{AreAscending, CountsDisk, IsDiskless, KeepsSet, KeepsAll, KeepsOne};
ghost use Rattle.survivor_set.specs.Outcomes.{Tells};

use crate::SetErr;
use crate::carrying::check_time;
use crate::paths::row_of;
use crate::writing::{put_front, put_spelled};
use block_file::Damage;
use dump_export::{DumpErr, dump_journal};
use ledger_book::Book;
use ledger_bytes::{Bytes, FieldWriter, Refusal};
use ledger_disk::Disk;
use ledger_open::{Opened, Places};
use std::alloc::Global;

/// Keeps the journals with these numbers in front of a time journal: the bytes of a set that holds each as the ledger shows it, and
/// its path. The point is judged first: `NoJournal` where it is at least the ledger's size, `Purged` where it lies below the ledger's
/// point, and `NotTime` where it tells no time. Then number by number: `Purged` below the ledger's point, `NotBelow` with the point
/// where the number isn't below that, and `Damaged` where a content that isn't hidden, or a who, has another digest than its header
/// names. Of the disks only the open file's is read, and `DiskFault` comes where that fails. It takes the memory of the set, and of
/// one journal twice.
pub fn keep<D: Disk>(
    alloc: Global,
    opened: &Opened,
    a: &mut D,
    b: &mut D,
    point: u64,
    ns: &[u64],
) -> Result<Bytes, SetErr>
    requires some { 1 ≤ length ns.now }
    requires few { length ns.now ≤ 64 }
    requires ascending { AreAscending ns.now }
    ensures answer { IsTrue D.tells → (h : History)
        → IsReadAs opened.now.book opened.now.places.list
        (open_of (in_a_of opened.now.twin) (D.state a.old) (D.state b.old)).bytes.seen h
        → KeepsSet h point ns.now result }
    ensures read { WasOnlyRead D.tells
        (open_of (in_a_of opened.now.twin) (D.state a.old) (D.state b.old))
        (open_of (in_a_of opened.now.twin) (D.state a.new) (D.state b.new)) }
    ensures faults { CountsDisk result
        (open_of (in_a_of opened.now.twin) (D.state a.old) (D.state b.old)).faults
        (open_of (in_a_of opened.now.twin) (D.state a.new) (D.state b.new)).faults }
    ensures other { other_of (in_a_of opened.now.twin) (D.state a.new) (D.state b.new)
        ≡ other_of (in_a_of opened.now.twin) (D.state a.old) (D.state b.old) }
{
    if opened.twin.in_a() {
        keep_from(alloc, &opened.book, &opened.places, a, point, ns)
    } else {
        keep_from(alloc, &opened.book, &opened.places, b, point, ns)
    }
}

// Keeps journals of a ledger with this book, whose open file stands on this disk.
fn keep_from<D: Disk>(
    alloc: Global,
    book: &Book,
    places: &Places,
    file: &mut D,
    point: u64,
    ns: &[u64],
) -> Result<Bytes, SetErr>
    requires some { 1 ≤ length ns.now }
    requires few { length ns.now ≤ 64 }
    requires ascending { AreAscending ns.now }
    ensures answer { IsTrue D.tells → (h : History)
        → IsReadAs book.now places.now.list (D.state file.old).bytes.seen h
        → KeepsSet h point ns.now result }
    ensures read { WasOnlyRead D.tells (D.state file.old) (D.state file.new) }
    ensures faults { CountsDisk result (D.state file.old).faults (D.state file.new).faults }
{
    check_point(book, point)?;
    let root = book.tree().root_at(point)?;
    let mut fields = FieldWriter::new(alloc);
    put_front(&mut fields, &book.id(), point, &root, ns.len() as u8)?;
    keep_all(alloc, book, places, file, point, ns, &mut fields)?;
    Ok(fields.finish())
}

// Journals in front of this one can be kept.
fn check_point(book: &Book, point: u64) -> Result<(), SetErr>
    ensures judged { (h : History) → Serves book.now h → book.now.floor ≡ model.point h
        → Tells result (keeping.point_refusal h point) }
    ensures low { OnOk result (book.now.floor ≤ point) }
    ensures high { OnOk result (point < book.now.size) }
    ensures own { IfErr result IsDiskless }
{
    let (size, first) = (book.size(), book.floor());
    if point >= size {
        return Err(SetErr::Refused(Refusal::NoJournal { size }));
    }
    if point < first {
        return Err(SetErr::Refused(Refusal::Purged { point: first }));
    }
    check_time(book, point)
}

// Adds the journals with these numbers, one after the other.
fn keep_all<D: Disk>(
    alloc: Global,
    book: &Book,
    places: &Places,
    file: &mut D,
    point: u64,
    ns: &[u64],
    fields: &mut FieldWriter,
) -> Result<(), SetErr>
    requires high { point < book.now.size }
    ensures kept { IsTrue D.tells → (h : History)
        → IsReadAs book.now places.now.list (D.state file.old).bytes.seen h
        → KeepsAll h point ns.now result fields.old fields.new }
    ensures read { WasOnlyRead D.tells (D.state file.old) (D.state file.new) }
    ensures faults { CountsDisk result (D.state file.old).faults (D.state file.new).faults }
{
    let Some((n, rest)) = ns.split_first() else {
        return Ok(());
    };
    keep_one(alloc, book, places, file, point, *n, fields)?;
    keep_all(alloc, book, places, file, point, rest, fields)
}

// Adds the journal with this number.
fn keep_one<D: Disk>(
    alloc: Global,
    book: &Book,
    places: &Places,
    file: &mut D,
    point: u64,
    n: u64,
    fields: &mut FieldWriter,
) -> Result<(), SetErr>
    requires high { point < book.now.size }
    ensures kept { IsTrue D.tells → (h : History)
        → IsReadAs book.now places.now.list (D.state file.old).bytes.seen h
        → KeepsOne h point n result fields.old fields.new }
    ensures read { WasOnlyRead D.tells (D.state file.old) (D.state file.new) }
    ensures faults { CountsDisk result (D.state file.old).faults (D.state file.new).faults }
{
    check_place(book, point, n)?;
    match dump_journal(alloc, book, places, file, n) {
        Ok(item) => put_kept(alloc, book, point, n, item.as_slice(), fields),
        Err(e) => Err(of_dump(book.size(), e)),
    }
}

// A journal with this number stands in front of the point, and wasn't purged.
fn check_place(book: &Book, point: u64, n: u64) -> Result<(), SetErr>
    ensures judged { (h : History) → book.now.floor ≡ model.point h
        → Tells result (keeping.place_refusal h point n) }
    ensures low { OnOk result (book.now.floor ≤ n) }
    ensures high { OnOk result (n < point) }
    ensures own { IfErr result IsDiskless }
{
    let first = book.floor();
    if n < first {
        return Err(SetErr::Refused(Refusal::Purged { point: first }));
    }
    if point <= n {
        return Err(SetErr::NotBelow { point });
    }
    Ok(())
}

// Adds a journal that is spelled already, and its path.
fn put_kept(
    alloc: Global,
    book: &Book,
    point: u64,
    n: u64,
    item: &[u8],
    fields: &mut FieldWriter,
) -> Result<(), SetErr>
    requires low { book.now.floor ≤ n }
    requires high { n < point }
    requires there { point < book.now.size }
    ensures puts { keeping.PutsKept book.now point n item.now result fields.old fields.new }
{
    let path = book.tree().path(n, point)?;
    let row = row_of(alloc, &path)?;
    Ok(put_spelled(fields, item, row.as_slice())?)
}

// Why a journal isn't read, where the ledger has so many. One that was opened has no other damage than that of a part.
fn of_dump(size: u64, e: DumpErr) -> SetErr
    ensures { result ≡ keeping.of_dump size e }
{
    match e {
        DumpErr::DiskFault => SetErr::DiskFault,
        DumpErr::NoMemory => SetErr::NoMemory,
        DumpErr::Damaged(Damage::Content { kept, found, .. }) => {
            SetErr::Refused(Refusal::Damaged { kept, found })
        }
        DumpErr::NotaryFault | DumpErr::WriteFault | DumpErr::Damaged(_) => {
            SetErr::Refused(Refusal::NoJournal { size })
        }
    }
}
