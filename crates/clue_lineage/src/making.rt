//! Making the lineage of a clue from a book.

ghost use Rattle.std.specs.Prelude.{◌≡◌, ◌≤◌, ◌<◌, ◌^◌, ◌-◌, ◌+◌, ◌++◌, ◌∷◌, ℕ, List, length, map, take, drop, IfOk, IfErr, IsOk, OnOk};
ghost use Rattle.std.specs.List.{concat, AllByRecursion};
ghost use Rattle.sha2.specs.Sha256.{sha256};
ghost use Rattle.journal_record.specs.Entry.{Entry};
ghost use Rattle.journal_record.specs.Header.{HasWidths};
ghost use Rattle.ledger_model.specs.History.{History};
ghost use Rattle.ledger_book.specs.Books.{Serves};
ghost use Rattle.ledger_book.specs.Seals.{head_of};
ghost use Rattle.clue_lineage.specs.declared.answer.LineageErr.TheVariants as lineage_err;
ghost use Rattle.clue_lineage.specs.Lineages.{front_text, item_text, items_text, spelling};
ghost use Rattle.clue_lineage.specs.Accepting.{acceptance};
ghost use Rattle.clue_lineage.specs.Making.{Makes, StandsIn, item_in, lineage_over};

use crate::LineageErr;
use crate::reading::ITEM_LIMIT;
use ledger_book::Book;
use ledger_bytes::{Bytes, Digest, FieldWriter, NoMemory};
use std::alloc::Global;

const VERSION: u8 = 1;

/// The lineage of a clue's records that are kept and have an ordinal of at least `from`, the first 1,024 of them, under the root
/// over all journals, of which none may wait. `NoLineage` comes exactly where there are none. The cost is that of the paths: at
/// most a logarithm of stored nodes and hashes for each record, and no other record is looked at.
pub fn lineage(alloc: Global, book: &Book, clue: &Digest, from: u32) -> Result<Bytes, LineageErr>
    requires settled { book.now.sealed ≡ book.now.size }
    ensures answer { (h : History) → Serves book.now h → Makes from clue.now h result }
    // Who trusts the ledger's head accepts it.
    ensures accepted { IfOk result (λ bytes. (h : History) → Serves book.now h
        → IsOk (acceptance sha256 bytes clue.now (head_of h))) }
{
    let (count, numbers) = book.clue(clue)?;
    let chosen = chosen_of(numbers.as_slice(), count, from);
    if chosen.is_empty() {
        return Err(LineageErr::NoLineage);
    }
    write(alloc, book, clue, chosen)
}

// Of the numbers of a clue's last journals, where it has so many in all, those with an ordinal of at least `from`, as many as a
// lineage may have.
fn chosen_of(numbers: &[u64], count: u32, from: u32) -> &[u64]
    ensures { result.now ≡ take 1024 (drop (from - (count - length numbers.now + 1)) numbers.now) }
{
    let first = (count as usize).saturating_sub(numbers.len()) + 1;
    let passed = (from as usize).saturating_sub(first).min(numbers.len());
    let (_, behind) = numbers.split_at(passed);
    let (chosen, _) = behind.split_at(behind.len().min(ITEM_LIMIT as usize));
    chosen
}

// The lineage of the journals with these numbers.
fn write(alloc: Global, book: &Book, clue: &Digest, numbers: &[u64]) -> Result<Bytes, LineageErr>
    requires few { length numbers.now ≤ 1024 }
    ensures text { IfOk result (λ bytes. (h : History) (es : List Entry) → Serves book.now h
        → AllByRecursion (StandsIn h) es → map (λ e. e.header.jsn) es ≡ numbers.now
        → (bytes ≡ spelling (lineage_over h clue.now es))
        × AllByRecursion (λ e. HasWidths e.header) es) }
    ensures err { (h : History) (es : List Entry) → Serves book.now h
        → AllByRecursion (StandsIn h) es → map (λ e. e.header.jsn) es ≡ numbers.now
        → IfErr result (λ e. e ≡ lineage_err.NoMemory) }
    ensures few { book.now.size < 2 ^ 32 }
{
    let mut writer = FieldWriter::new(alloc);
    put_front(&mut writer, book.size(), clue, numbers.len() as u16)?;
    put_items(&mut writer, book, numbers)?;
    Ok(writer.finish())
}

#[tactic(auto, unfolding(crate::specs::Lineages::front_text))]
fn put_front(writer: &mut FieldWriter, size: u64, clue: &Digest, count: u16) -> Result<(), NoMemory>
    ensures { OnOk result (writer.new ≡ writer.old ++ front_text size clue.now count) }
{
    writer.put_u8(VERSION)?;
    writer.put_u64(size)?;
    writer.put_slice(&clue.0)?;
    writer.put_u16(count)
}

// The journals with these numbers.
fn put_items(writer: &mut FieldWriter, book: &Book, numbers: &[u64]) -> Result<(), LineageErr>
    ensures items { OnOk result ((h : History) (es : List Entry) → Serves book.now h
        → AllByRecursion (StandsIn h) es → map (λ e. e.header.jsn) es ≡ numbers.now
        → (writer.new ≡ writer.old ++ items_text (map (item_in h) es))
        × AllByRecursion (λ e. HasWidths e.header) es) }
    ensures err { (h : History) (es : List Entry) → Serves book.now h
        → AllByRecursion (StandsIn h) es → map (λ e. e.header.jsn) es ≡ numbers.now
        → IfErr result (λ e. e ≡ lineage_err.NoMemory) }
{
    for number in numbers {
        put_item(writer, book, *number)?;
    }
    Ok(())
}

// The journal with this number.
fn put_item(writer: &mut FieldWriter, book: &Book, number: u64) -> Result<(), LineageErr>
    ensures item { OnOk result ((h : History) (e : Entry) → Serves book.now h → StandsIn h e
        → e.header.jsn ≡ number
        → (writer.new ≡ writer.old ++ item_text (item_in h e)) × HasWidths e.header) }
    ensures err { (h : History) (e : Entry) → Serves book.now h → StandsIn h e
        → e.header.jsn ≡ number → IfErr result (λ e. e ≡ lineage_err.NoMemory) }
{
    let Some(header) = book.header(number) else {
        return Err(LineageErr::NoLineage);
    };
    let path = book.tree().path(number, book.size())?;
    writer.put_slice(&header.encode())?;
    put_path(writer, path.as_slice())?;
    Ok(())
}

// The digests of a path, behind their number.
fn put_path(writer: &mut FieldWriter, digests: &[Digest]) -> Result<(), NoMemory>
    requires { length digests.now < 256 }
    ensures { OnOk result (writer.new
        ≡ writer.old ++ length digests.now ∷ concat (map (λ d. d.0) digests.now)) }
{
    writer.put_u8(digests.len() as u8)?;
    for digest in digests {
        writer.put_slice(&digest.0)?;
    }
    Ok(())
}
