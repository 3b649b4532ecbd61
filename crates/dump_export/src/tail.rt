//! What stands behind a dump's journals: the ledger's head, and the notary's list.

ghost use Rattle.std.specs.Prelude.{◌≡◌, ◌<◌, ℕ, Bool, List, ◌++◌, length, IfOk, IfErr};
ghost use Rattle.block_file.specs.declared.place.PlaceAt.{PlaceAt};
ghost use Rattle.dump_model.specs.Dumps.{number_text};
ghost use Rattle.ledger_book.specs.Books.{Kept};
ghost use Rattle.ledger_disk.specs.Disk.{DiskState};
ghost use Rattle.dump_export.specs.Exports.{IsOnlyAsked, IsUndamaged, Writes, handed};
ghost use Rattle.dump_export.specs.Texts.{head_text, entry_at, entries_text, tail_text};

use crate::DumpErr;
use crate::piece::put;
use ledger_book::Book;
use ledger_bytes::{Bytes, FieldWriter, NoMemory};
use ledger_io::Sink;
use merkle_tree::Head;
use std::alloc::Global;
use time_peg::Notary;

// A head, and a number of entries.
fn head_bytes(alloc: Global, head: &Head, entries: u64) -> Result<Bytes, NoMemory>
    ensures { IfOk result (λ bytes. bytes
        ≡ number_text head.now.size ++ (head.now.root.0 ++ number_text entries)) }
{
    let mut writer = FieldWriter::new(alloc);
    writer.put_u64(head.size)?;
    writer.put_slice(&head.root.0)?;
    writer.put_u64(entries)?;
    Ok(writer.finish())
}

// Writes the ledger's head, and how many entries the notary has.
fn write_head<N: Notary, K: Sink>(
    alloc: Global,
    book: &Book,
    notary: &N,
    count: u64,
    sink: &mut K,
) -> Result<(), DumpErr>
    requires { count ≡ length (N.state notary.now).entries }
    ensures only { IfErr result IsUndamaged }
    ensures writes { (tells : Bool) (places : List PlaceAt) (file : DiskState)
        → Writes tells book.now places head_text result
        (handed file (N.state notary.now) (K.state sink.old))
        (handed file (N.state notary.now) (K.state sink.new)) }
{
    let head = head_bytes(alloc, &book.head(), count)?;
    put(sink, head.as_slice())
}

// Writes entry k.
fn write_entry<N: Notary, K: Sink>(notary: &mut N, k: u64, sink: &mut K) -> Result<(), DumpErr>
    requires { k < length (N.state notary.old).entries }
    ensures only { IfErr result IsUndamaged }
    ensures asked { IsOnlyAsked (N.state notary.old) (N.state notary.new) }
    ensures writes { (tells : Bool) (book : Kept) (places : List PlaceAt) (file : DiskState)
        → Writes tells book places (entry_at k) result
        (handed file (N.state notary.old) (K.state sink.old))
        (handed file (N.state notary.new) (K.state sink.new)) }
{
    match notary.entry(k) {
        Ok(entry) => put(sink, &entry),
        Err(_) => Err(DumpErr::NotaryFault),
    }
}

// Writes all entries, one after the other.
fn write_entries<N: Notary, K: Sink>(
    notary: &mut N,
    count: u64,
    sink: &mut K,
) -> Result<(), DumpErr>
    requires { count ≡ length (N.state notary.old).entries }
    ensures only { IfErr result IsUndamaged }
    ensures asked { IsOnlyAsked (N.state notary.old) (N.state notary.new) }
    ensures writes { (tells : Bool) (book : Kept) (places : List PlaceAt) (file : DiskState)
        → Writes tells book places entries_text result
        (handed file (N.state notary.old) (K.state sink.old))
        (handed file (N.state notary.new) (K.state sink.new)) }
{
    for k in 0..count {
        write_entry(notary, k, sink)?;
    }
    Ok(())
}

/// Writes the ledger's head, and the notary's list with its size and root. No entry is kept.
pub(crate) fn write_tail<N: Notary, K: Sink>(
    alloc: Global,
    book: &Book,
    notary: &mut N,
    sink: &mut K,
) -> Result<(), DumpErr>
    ensures only { IfErr result IsUndamaged }
    ensures writes { (tells : Bool) (places : List PlaceAt) (file : DiskState)
        → Writes tells book.now places tail_text result
        (handed file (N.state notary.old) (K.state sink.old))
        (handed file (N.state notary.new) (K.state sink.new)) }
{
    match notary.head() {
        Ok(list) => {
            write_head(alloc, book, notary, list.size, sink)?;
            write_entries(notary, list.size, sink)?;
            put(sink, &list.root.0)
        }
        Err(_) => Err(DumpErr::NotaryFault),
    }
}
