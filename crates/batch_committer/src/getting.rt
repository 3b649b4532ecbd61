//! The reply to a line that asks for a journal: it is read from the open file and held against its header's digests.

ghost use Rattle.std.specs.Prelude.{◌≡◌, ◌-◌, [], None, IsTrue, IfOk, IfErr, OnOk, if◌then◌else◌, nat_le, slice_get, take, drop};
ghost use Rattle.ledger_book.specs.Books.{Serves};
ghost use Rattle.ledger_model.specs.Getting as spec;
ghost use Rattle.ledger_model.specs.History.{History, size};
ghost use Rattle.ledger_open.specs.Places.{entry_at};
ghost use Rattle.ledger_open.specs.Pieces.{IsReadAs, WasOnlyRead};
ghost use Rattle.batch_committer.specs.Read.{ReadEnds};

use crate::CommitErr;
use block_file::PlaceAt;
use journal_record::{Header, content_digest, who_digest};
use ledger_book::Book;
use ledger_bytes::{Bytes, Digest, Refusal};
use ledger_disk::Disk;
use ledger_model::View;
use ledger_open::{Places, kept_place, read_piece};
use script_lines::Reply;
use std::alloc::Global;

/// The reply to a line that asks for journal `n`, where no journal waits. What the journal's header doesn't tell is read
/// from the open file, whose disk this is, and compared with the digests that the header names.
pub(crate) fn get<D: Disk>(
    alloc: Global,
    book: &Book,
    places: &Places,
    file: &mut D,
    n: u64,
) -> Result<Reply, CommitErr>
    ensures told { IfOk result (λ reply. IsTrue D.tells → (h : History)
        → IsReadAs book.now places.now.list (D.state file.old).bytes.seen h
        → reply ≡ spec.get_reply h n) }
    ensures read { WasOnlyRead D.tells
        (D.state file.old)
        (D.state file.new) }
    ensures no_fault { OnOk result ((D.state file.new).faults ≡ (D.state file.old).faults) }
    ensures err { IfErr result (λ end. ReadEnds end (D.state file.old).faults (D.state file.new).faults) }
{
    let header = book.header(n);
    let place = kept_place(book, places, n);
    match book.view(n) {
        View::Absent => Ok(no_journal(book)),
        View::Purged { point } => Ok(Reply::Refused(Refusal::Purged { point })),
        View::Occulted => match (header, place) {
            (Some(header), Some(place)) => occulted(alloc, file, header, &place),
            _ => Ok(no_journal(book)),
        },
        View::Whole => match (header, place) {
            (Some(header), Some(place)) => whole(alloc, file, header, &place),
            _ => Ok(no_journal(book)),
        },
    }
}

fn no_journal(book: &Book) -> Reply
    ensures { (h : History) → Serves book.now h → h.waiting ≡ []
        → result ≡ Reply.Refused (Refusal.NoJournal (size h)) }
{
    Reply::Refused(Refusal::NoJournal {
        size: book.head().size,
    })
}

// A journal with this header, whose content and who stand at this place.
fn whole<D: Disk>(
    alloc: Global,
    file: &mut D,
    header: &Header,
    place: &PlaceAt,
) -> Result<Reply, CommitErr>
    ensures told { IfOk result (λ reply. IsTrue D.tells → reply ≡ spec.whole_reply header.now
        (entry_at (D.state file.old).bytes.seen header.now place.now).content
        (entry_at (D.state file.old).bytes.seen header.now place.now).who) }
    ensures read { WasOnlyRead D.tells
        (D.state file.old)
        (D.state file.new) }
    ensures no_fault { OnOk result ((D.state file.new).faults ≡ (D.state file.old).faults) }
    ensures err { IfErr result (λ end. ReadEnds end (D.state file.old).faults (D.state file.new).faults) }
{
    let content = read_piece(alloc, file, place.content_at, place.content_len)?;
    let who = read_piece(alloc, file, place.who_at, place.who_len)?;
    Ok(whole_reply(header, content, who))
}

// A journal with this header and its who alone, which stands at this place.
fn occulted<D: Disk>(
    alloc: Global,
    file: &mut D,
    header: &Header,
    place: &PlaceAt,
) -> Result<Reply, CommitErr>
    ensures told { IfOk result (λ reply. IsTrue D.tells → reply ≡ spec.occulted_reply header.now
        (entry_at (D.state file.old).bytes.seen header.now place.now).who) }
    ensures read { WasOnlyRead D.tells
        (D.state file.old)
        (D.state file.new) }
    ensures no_fault { OnOk result ((D.state file.new).faults ≡ (D.state file.old).faults) }
    ensures err { IfErr result (λ end. ReadEnds end (D.state file.old).faults (D.state file.new).faults) }
{
    let who = read_piece(alloc, file, place.who_at, place.who_len)?;
    Ok(occulted_reply(header, who))
}

// The reply on a journal with these parts.
fn whole_reply(header: &Header, content: Vec<u8>, who: Vec<u8>) -> Reply
    ensures { result ≡ spec.whole_reply header.now content.items who.items }
{
    if let Some(refusal) = damage(header.content_digest, content_digest(&content)) {
        return Reply::Refused(refusal);
    }
    if let Some(refusal) = damage(header.who_digest, who_digest(&who)) {
        return Reply::Refused(refusal);
    }
    Reply::Whole {
        header: header.encode(),
        content: Bytes::of(content),
        who: Bytes::of(who),
    }
}

// The reply on a journal whose content is hidden, with this who.
fn occulted_reply(header: &Header, who: Vec<u8>) -> Reply
    ensures { result ≡ spec.occulted_reply header.now who.items }
{
    match damage(header.who_digest, who_digest(&who)) {
        Some(refusal) => Reply::Refused(refusal),
        None => Reply::Occulted {
            header: header.encode(),
            who: Bytes::of(who),
        },
    }
}

// A part of a journal has another digest than the one that was kept of it.
fn damage(kept: Digest, found: Digest) -> Option<Refusal>
    ensures { result ≡ spec.damage kept found.0 }
{
    if found == kept {
        None
    } else {
        Some(Refusal::Damaged { kept, found })
    }
}
