//! A dump's journals are written, one after the other.

ghost use Rattle.std.specs.Prelude.{◌≡◌, ◌<◌, ◌≤◌, [], IsTrue, IfErr, OnOk};
ghost use Rattle.ledger_model.specs.History.{History};
ghost use Rattle.ledger_open.specs.Pieces.{IsReadAs, WasOnlyRead};
ghost use Rattle.time_peg.specs.Entries.{NotaryState};
ghost use Rattle.dump_export.specs.Exports.{DamagesAt, IsUndamaged, ReadEnds, TellsDamage, Writes, handed};
ghost use Rattle.dump_export.specs.Gathers.{AddsShown, GivesUp, PassesOn};
ghost use Rattle.dump_export.specs.Pages.{IsPageOf};
ghost use Rattle.dump_export.specs.Texts.{journals_text};

use crate::DumpErr;
use crate::journal::read_journal;
use crate::page::Page;
use crate::piece::put;
use ledger_book::Book;
use ledger_disk::Disk;
use ledger_io::Sink;
use ledger_open::Places;
use std::alloc::Global;

// How many bytes are gathered before they are written.
const PIECE: usize = 65_536;

// Adds the bytes of journal `n`, which the open file has, to those that wait to be written. A journal that isn't read whole adds nothing.
fn add_journal<D: Disk>(
    alloc: Global,
    book: &Book,
    places: &Places,
    file: &mut D,
    page: &mut Page,
    n: u64,
    waiting: &mut Vec<u8>,
) -> Result<(), DumpErr>
    requires low { book.now.floor ≤ n }
    requires high { n < book.now.size }
    requires page { IsTrue D.tells → IsPageOf page.old (D.state file.old).bytes.seen }
    ensures page { IsTrue D.tells → IsPageOf page.new (D.state file.new).bytes.seen }
    ensures bytes { OnOk result (IsTrue D.tells → (h : History)
        → IsReadAs book.now places.now.list (D.state file.old).bytes.seen h
        → AddsShown h n waiting.old.items waiting.new.items) }
    ensures damages { IfErr result (λ e. IsTrue D.tells → (h : History)
        → IsReadAs book.now places.now.list (D.state file.old).bytes.seen h → DamagesAt h n e) }
    ensures kept { IfErr result (λ e. (IsUndamaged e → ⊥) → waiting.new ≡ waiting.old) }
    ensures read { WasOnlyRead D.tells (D.state file.old) (D.state file.new) }
    ensures no_fault { OnOk result ((D.state file.new).faults ≡ (D.state file.old).faults) }
    ensures err { IfErr result (λ e. ReadEnds e (D.state file.old).faults (D.state file.new).faults) }
{
    let journal = read_journal(alloc, book, places, file, page, n)?;
    match waiting.extend_from_slice(journal.as_slice()) {
        Ok(()) => Ok(()),
        Err(_) => Err(DumpErr::NoMemory),
    }
}

// Writes the bytes that wait, once they are many enough.
fn pass_on<K: Sink>(waiting: &mut Vec<u8>, sink: &mut K) -> Result<(), DumpErr>
    ensures { PassesOn waiting.old.items waiting.new.items result (K.state sink.old) (K.state sink.new) }
{
    if waiting.len() < PIECE {
        return Ok(());
    }
    put(sink, waiting.as_slice())?;
    waiting.clear();
    Ok(())
}

// Ends with this error. In front of a damage all bytes that wait are written; behind another error they are given up.
fn give_up<K: Sink>(e: DumpErr, waiting: &[u8], sink: &mut K) -> Result<(), DumpErr>
    ensures { GivesUp e waiting.now result (K.state sink.old) (K.state sink.new) }
{
    if let DumpErr::Damaged(_) = e {
        put(sink, waiting)?;
    }
    Err(e)
}

/// Writes all journals that the open file has, many in one piece. It takes the memory of a page of the file, of one journal and of a piece.
pub(crate) fn write_journals<D: Disk, K: Sink>(
    alloc: Global,
    book: &Book,
    places: &Places,
    file: &mut D,
    sink: &mut K,
) -> Result<(), DumpErr>
    ensures read { WasOnlyRead D.tells (D.state file.old) (D.state file.new) }
    ensures writes { (notary : NotaryState)
        → Writes D.tells book.now places.now.list journals_text result
        (handed (D.state file.old) notary (K.state sink.old))
        (handed (D.state file.new) notary (K.state sink.new)) }
    ensures damages { IsTrue D.tells → (h : History)
        → IsReadAs book.now places.now.list (D.state file.old).bytes.seen h
        → TellsDamage [] h result (K.state sink.old) (K.state sink.new) }
{
    let first = book.floor();
    let count = book.size().saturating_sub(first);
    let mut page = Page::new(alloc);
    let mut waiting = Vec::new(alloc);
    for index in 0..count {
        let n = first + index;
        match add_journal(alloc, book, places, file, &mut page, n, &mut waiting) {
            Ok(()) => pass_on(&mut waiting, sink)?,
            Err(e) => return give_up(e, waiting.as_slice(), sink),
        }
    }
    put(sink, waiting.as_slice())
}
