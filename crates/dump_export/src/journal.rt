//! A journal is read from a page of the open file, held against its header's digests, and spelled as a dump has it.

ghost use Rattle.std.specs.Prelude.{◌≡◌, ◌≢◌, ◌<◌, ◌≤◌, ◌^◌, false, if◌then◌else◌, None, Some, IsTrue, IfOk, IfErr, OnOk, length, option_map};
ghost use Rattle.journal_record.specs.Entry.{content_digest_of, who_digest_of};
ghost use Rattle.journal_record.specs.Items.{body_seen, item_text};
ghost use Rattle.ledger_book.specs.Books.{Serves};
ghost use Rattle.ledger_model.specs.History.{History, point, size};
ghost use Rattle.ledger_model.specs.Targets.{is_hidden as hides};
ghost use Rattle.ledger_open.specs.Pieces.{IsReadAs, WasOnlyRead};
ghost use Rattle.ledger_open.specs.Places.{entry_at};
ghost use Rattle.dump_export.specs.Damages.{IsShownWhole};
ghost use Rattle.dump_export.specs.Exports.{DamagesAt, DamagesOf, IsShownText, ReadEnds, shown_item, IsOtherWho};
ghost use Rattle.dump_export.specs.Pages.{IsPageOf};

use crate::DumpErr;
use crate::page::Page;
use block_file::{Damage, PlaceAt};
use journal_record::{Body, Header, Record, content_digest, who_digest};
use ledger_book::Book;
use ledger_bytes::{Bytes, Digest};
use ledger_disk::Disk;
use ledger_model::View;
use ledger_open::{Places, kept_place};
use std::alloc::Global;

// A part of journal `jsn` is to have the digest that is kept of it.
fn check_part(jsn: u64, kept: Digest, found: Digest) -> Result<(), DumpErr>
    ensures ok { OnOk result (found.0 ≡ kept.0) }
    ensures err { IfErr result (λ e. (e ≡ DumpErr.Damaged (Damage.Content jsn kept found))
        × (found.0 ≢ kept.0)) }
{
    if found != kept {
        return Err(DumpErr::Damaged(Damage::Content { jsn, kept, found }));
    }
    Ok(())
}

// The content of a journal with this header, which stands at this place, unless it is hidden.
fn read_content<D: Disk>(
    alloc: Global,
    file: &mut D,
    page: &mut Page,
    header: &Header,
    place: &PlaceAt,
    hidden: bool,
) -> Result<Option<Vec<u8>>, DumpErr>
    requires page { IsTrue D.tells → IsPageOf page.old (D.state file.old).bytes.seen }
    ensures page { IsTrue D.tells → IsPageOf page.new (D.state file.new).bytes.seen }
    ensures content { IfOk result (λ content. IsTrue D.tells → option_map (λ v. v.items) content
        ≡ (if hidden then None else Some (entry_at (D.state file.old).bytes.seen header.now place.now).content)) }
    ensures whole { OnOk result (IsTrue D.tells → hidden ≡ false
        → content_digest_of (entry_at (D.state file.old).bytes.seen header.now place.now).content
        ≡ header.now.content_digest.0) }
    ensures damages { IfErr result (λ e. IsTrue D.tells
        → DamagesOf hidden (entry_at (D.state file.old).bytes.seen header.now place.now) e) }
    ensures read { WasOnlyRead D.tells
        (D.state file.old)
        (D.state file.new) }
    ensures no_fault { OnOk result ((D.state file.new).faults ≡ (D.state file.old).faults) }
    ensures err { IfErr result (λ e. ReadEnds e (D.state file.old).faults (D.state file.new).faults) }
{
    if hidden {
        return Ok(None);
    }
    let content = page.piece(alloc, file, place.content_at, place.content_len)?;
    check_part(header.jsn, header.content_digest, content_digest(&content))?;
    Ok(Some(content))
}

// The who of a journal with this header, which stands at this place.
fn read_who<D: Disk>(
    alloc: Global,
    file: &mut D,
    page: &mut Page,
    header: &Header,
    place: &PlaceAt,
) -> Result<Vec<u8>, DumpErr>
    requires page { IsTrue D.tells → IsPageOf page.old (D.state file.old).bytes.seen }
    ensures page { IsTrue D.tells → IsPageOf page.new (D.state file.new).bytes.seen }
    ensures who { IfOk result (λ who. IsTrue D.tells
        → who.items ≡ (entry_at (D.state file.old).bytes.seen header.now place.now).who) }
    ensures size { IfOk result (λ who. length who.items < 2 ^ 32) }
    ensures whole { OnOk result (IsTrue D.tells
        → who_digest_of (entry_at (D.state file.old).bytes.seen header.now place.now).who
        ≡ header.now.who_digest.0) }
    ensures damages { IfErr result (λ e. IsTrue D.tells
        → IsOtherWho (entry_at (D.state file.old).bytes.seen header.now place.now) e) }
    ensures read { WasOnlyRead D.tells
        (D.state file.old)
        (D.state file.new) }
    ensures no_fault { OnOk result ((D.state file.new).faults ≡ (D.state file.old).faults) }
    ensures err { IfErr result (λ e. ReadEnds e (D.state file.old).faults (D.state file.new).faults) }
{
    let who = page.piece(alloc, file, place.who_at, place.who_len)?;
    check_part(header.jsn, header.who_digest, who_digest(&who))?;
    Ok(who)
}

// A content as a dump has it.
fn body_of<'a>(content: &'a Option<Vec<u8>>) -> Body<'a>
    ensures { body_seen result ≡ option_map (λ v. v.items) content.now }
{
    match content {
        Some(bytes) => Body::Whole(bytes.as_slice()),
        None => Body::Erased,
    }
}

// The bytes in a dump of a journal with these parts.
fn spell(
    alloc: Global,
    header: &Header,
    content: &Option<Vec<u8>>,
    who: &[u8],
) -> Result<Bytes, DumpErr>
    requires { length who.now < 2 ^ 32 }
    ensures bytes { IfOk result (λ bytes. bytes ≡ item_text
        (record { header = header.now; body = option_map (λ v. v.items) content.now; who = who.now })) }
    ensures err { IfErr result (λ e. e ≡ DumpErr.NoMemory) }
{
    let record = Record {
        header: *header,
        body: body_of(content),
        who,
    };
    Ok(record.encode(alloc)?)
}

// The bytes of a journal with this header, which stands at this place, and whose content is hidden or isn't.
fn read_parts<D: Disk>(
    alloc: Global,
    file: &mut D,
    page: &mut Page,
    header: &Header,
    place: &PlaceAt,
    hidden: bool,
) -> Result<Bytes, DumpErr>
    requires page { IsTrue D.tells → IsPageOf page.old (D.state file.old).bytes.seen }
    ensures page { IsTrue D.tells → IsPageOf page.new (D.state file.new).bytes.seen }
    ensures bytes { IfOk result (λ bytes. IsTrue D.tells → bytes
        ≡ item_text (shown_item hidden (entry_at (D.state file.old).bytes.seen header.now place.now))) }
    ensures whole { OnOk result (IsTrue D.tells
        → IsShownWhole hidden (entry_at (D.state file.old).bytes.seen header.now place.now)) }
    ensures damages { IfErr result (λ e. IsTrue D.tells
        → DamagesOf hidden (entry_at (D.state file.old).bytes.seen header.now place.now) e) }
    ensures read { WasOnlyRead D.tells
        (D.state file.old)
        (D.state file.new) }
    ensures no_fault { OnOk result ((D.state file.new).faults ≡ (D.state file.old).faults) }
    ensures err { IfErr result (λ e. ReadEnds e (D.state file.old).faults (D.state file.new).faults) }
{
    let content = read_content(alloc, file, page, header, place, hidden)?;
    let who = read_who(alloc, file, page, header, place)?;
    spell(alloc, header, &content, who.as_slice())
}

// Whether the content of journal `n` is hidden.
fn is_hidden(book: &Book, n: u64) -> bool
    ensures { (h : History) → Serves book.now h → point h ≤ n → n < size h → result ≡ hides h n }
{
    matches!(book.view(n), View::Occulted)
}

/// The bytes of journal `n` in a dump, which the open file has, by a page of the file from which others may be read too. Its content,
/// where it isn't hidden, and its who are read first, each whole, and must have the digests that its header names.
pub(crate) fn read_journal<D: Disk>(
    alloc: Global,
    book: &Book,
    places: &Places,
    file: &mut D,
    page: &mut Page,
    n: u64,
) -> Result<Bytes, DumpErr>
    requires low { book.now.floor ≤ n }
    requires high { n < book.now.size }
    requires page { IsTrue D.tells → IsPageOf page.old (D.state file.old).bytes.seen }
    ensures page { IsTrue D.tells → IsPageOf page.new (D.state file.new).bytes.seen }
    ensures bytes { IfOk result (λ bytes. IsTrue D.tells → (h : History)
        → IsReadAs book.now places.now.list (D.state file.old).bytes.seen h → IsShownText h n bytes) }
    ensures damages { IfErr result (λ e. IsTrue D.tells → (h : History)
        → IsReadAs book.now places.now.list (D.state file.old).bytes.seen h → DamagesAt h n e) }
    ensures read { WasOnlyRead D.tells
        (D.state file.old)
        (D.state file.new) }
    ensures no_fault { OnOk result ((D.state file.new).faults ≡ (D.state file.old).faults) }
    ensures err { IfErr result (λ e. ReadEnds e (D.state file.old).faults (D.state file.new).faults) }
{
    let hidden = is_hidden(book, n);
    match (book.header(n), kept_place(book, places, n)) {
        (Some(header), Some(place)) => read_parts(alloc, file, page, header, &place, hidden),
        _ => Err(DumpErr::Damaged(Damage::Entry { jsn: n })),
    }
}

/// The bytes of one journal in a dump, which the open file has. Its content, where it isn't hidden, and its who are read first, each
/// whole, and must have the digests that its header names: else that damage is told, and `DiskFault` comes where the file fails.
pub fn dump_journal<D: Disk>(
    alloc: Global,
    book: &Book,
    places: &Places,
    file: &mut D,
    n: u64,
) -> Result<Bytes, DumpErr>
    requires low { book.now.floor ≤ n }
    requires high { n < book.now.size }
    ensures bytes { IfOk result (λ bytes. IsTrue D.tells → (h : History)
        → IsReadAs book.now places.now.list (D.state file.old).bytes.seen h → IsShownText h n bytes) }
    ensures damages { IfErr result (λ e. IsTrue D.tells → (h : History)
        → IsReadAs book.now places.now.list (D.state file.old).bytes.seen h → DamagesAt h n e) }
    ensures read { WasOnlyRead D.tells (D.state file.old) (D.state file.new) }
    ensures no_fault { OnOk result ((D.state file.new).faults ≡ (D.state file.old).faults) }
    ensures err { IfErr result (λ e. ReadEnds e (D.state file.old).faults (D.state file.new).faults) }
{
    let mut page = Page::new(alloc);
    read_journal(alloc, book, places, file, &mut page, n)
}
