//! What stands in front of a dump's journals.

ghost use Rattle.std.specs.Prelude.{◌≡◌, ℕ, Bool, List, ◌++◌, length, IfOk, IfErr};
ghost use Rattle.block_file.specs.declared.place.PlaceAt.{PlaceAt};
ghost use Rattle.dump_model.specs.Dumps.{magic, number_text, base_text};
ghost use Rattle.dump_model.specs.Shown.{base_at, ledger_dump};
ghost use Rattle.ledger_disk.specs.Disk.{DiskState};
ghost use Rattle.ledger_model.specs.History.{History, point};
ghost use Rattle.time_peg.specs.Entries.{NotaryState};
ghost use Rattle.dump_export.specs.Exports.{IsBookOf, IsUndamaged, Writes, handed};
ghost use Rattle.dump_export.specs.Texts.{front_text};

use crate::DumpErr;
use crate::piece::put;
use ledger_book::Book;
use ledger_bytes::{Bytes, Digest, FieldWriter, NoMemory};
use ledger_io::Sink;
use ledger_open::purging::base_bytes;
use std::alloc::Global;

// The bytes with which each dump begins.
const MAGIC: [u8; 8] = *b"LDGDUMP1";

// The bytes of the base with which the book begins, and none where it begins with journal 0.
fn first_base(alloc: Global, book: &Book) -> Result<Bytes, NoMemory>
    ensures { IfOk result (λ bytes. (h : History) → IsBookOf book.now h
        → bytes ≡ base_text (base_at h (point h))) }
{
    let first = book.floor();
    // No book begins behind its last journal.
    if first == 0 || book.size() < first {
        return Ok(Bytes::of(Vec::new(alloc)));
    }
    base_bytes(alloc, book, first)
}

// An id, a base with its length, and a number of journals, behind the first bytes.
fn spell_front(alloc: Global, id: &Digest, base: &[u8], count: u64) -> Result<Bytes, NoMemory>
    ensures { IfOk result (λ bytes. bytes ≡ magic ++ (id.now.0 ++ (number_text (length base.now)
        ++ (base.now ++ number_text count)))) }
{
    let mut writer = FieldWriter::new(alloc);
    writer.put_slice(&MAGIC)?;
    writer.put_slice(&id.0)?;
    writer.put_u64(base.len() as u64)?;
    writer.put_slice(base)?;
    writer.put_u64(count)?;
    Ok(writer.finish())
}

// What stands in front of the journals that a book has from its first one on.
fn front_bytes(alloc: Global, book: &Book) -> Result<Bytes, NoMemory>
    ensures { IfOk result (λ bytes. (h : History) (entries : List (List ℕ)) → IsBookOf book.now h
        → bytes ≡ front_text (ledger_dump h entries)) }
{
    let base = first_base(alloc, book)?;
    let count = book.size().saturating_sub(book.floor());
    spell_front(alloc, &book.id(), base.as_slice(), count)
}

/// Writes what stands in front of the journals. It takes the memory of the base twice.
pub(crate) fn write_front<K: Sink>(alloc: Global, book: &Book, sink: &mut K) -> Result<(), DumpErr>
    ensures only { IfErr result IsUndamaged }
    ensures writes { (tells : Bool) (places : List PlaceAt) (file : DiskState) (notary : NotaryState)
        → Writes tells book.now places front_text result
        (handed file notary (K.state sink.old)) (handed file notary (K.state sink.new)) }
{
    let front = front_bytes(alloc, book)?;
    put(sink, front.as_slice())
}
