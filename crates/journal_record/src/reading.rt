//! Reading a header field by field.

ghost use Rattle.std.specs.Prelude.{◌≡◌};
ghost use Rattle.ledger_bytes.specs.Fields.{ReadsFields, ReadsBack};
ghost use Rattle.journal_record.specs.Header.{spelling, HasWidths};
ghost use Rattle.journal_record.specs.Rules.{IsHeader};
ghost use Rattle.journal_record.specs.Reading as reading;

use crate::rules::{
    a_ok, b_ok, carries_a, carries_len, clue_ok, clue_ord_ok, clue_prev_ok, content_len_ok,
    is_kind_in, is_version, jsn_ok, link_ok, member_ok, version_of,
};
use crate::whole::{kind_of, read_whole};
use crate::{Header, Kind};
use ledger_bytes::{Bad, Digest, FieldReader, check_field};

/// What a header begins with.
#[derive(Drop)]
struct Front {
    version: u8,
    kind: Kind,
    jsn: u64,
    member: u32,
}

/// A clue, and the journal's place among its journals.
#[derive(Drop)]
struct ClueFields {
    clue: Digest,
    ordinal: u32,
    previous: u64,
}

/// What goes by the kind.
#[derive(Drop)]
struct OwnFields {
    a: u64,
    b: u64,
    link: Digest,
}

/// The content's length, and the digests of content and who.
#[derive(Drop)]
struct Parts {
    content_len: u32,
    content_digest: Digest,
    who_digest: Digest,
}

/// The header that all the bytes spell.
pub(crate) fn read(bytes: &[u8]) -> Result<Header, Bad>
    ensures { result ≡ reading.header_of bytes.now }
{
    match read_whole(bytes) {
        Some(header) => Ok(header),
        None => read_by_fields(bytes),
    }
}

/// The same, field by field, so that the first break is told.
#[cold]
#[inline(never)]
#[tactic(auto, unfolding(crate::specs::Reading::header_of))]
fn read_by_fields(bytes: &[u8]) -> Result<Header, Bad>
    ensures { result ≡ reading.header_of bytes.now }
{
    let mut reader = FieldReader::new(bytes);
    let header = take_header(&mut reader)?;
    reader.end()?;
    Ok(header)
}

/// Takes the next header, as [`Header::decode`] reads it; places of fields count from the header's first byte.
#[tactic(auto, unfolding(crate::specs::Reading::header_at))]
pub fn take_header(reader: &mut FieldReader) -> Result<Header, Bad>
    ensures { ReadsFields result reader.new (reading.header_at reader.old) }
{
    let mut ahead = reader.again();
    look_at_layout(&mut ahead)?;
    take_fields(reader)
}

/// Version and kind, and whether this is the header's own version.
#[tactic(auto, unfolding(crate::specs::Reading::layout_at))]
fn look_at_layout(reader: &mut FieldReader) -> Result<(), Bad>
    ensures { ReadsFields result reader.new (reading.layout_at reader.old) }
{
    let version = reader.take_u8()?;
    known_version(version)?;
    let code = reader.take_u8()?;
    let kind = known_kind(code)?;
    kind_in(version, kind, code)?;
    look_behind(reader, version, kind)
}

/// Whether the second version is the header's own, by fields that stand further behind.
#[tactic(auto, unfolding(crate::specs::Reading::carried_at))]
fn look_behind(reader: &mut FieldReader, version: u8, kind: Kind) -> Result<(), Bad>
    ensures { ReadsFields result reader.new (reading.carried_at version kind reader.old) }
{
    if version == 1 {
        return Ok(());
    }
    let _front = reader.take_slice(56)?;
    let a = reader.take_u64()?;
    let _between = reader.take_slice(40)?;
    let content_len = reader.take_u32()?;
    check_field(version_of(kind, a, content_len) == 2, 0)?;
    Ok(())
}

/// The fields of a header, each judged as it is met.
#[tactic(auto, unfolding(crate::specs::Reading::fields_at))]
fn take_fields(reader: &mut FieldReader) -> Result<Header, Bad>
    ensures { ReadsFields result reader.new (reading.fields_at reader.old) }
{
    let front = take_front(reader)?;
    let clue = take_clue(reader, front.kind, front.jsn)?;
    let own = take_own(reader, front.version, front.kind, front.jsn)?;
    let parts = take_parts(reader, front.version, front.kind)?;
    Ok(Header {
        version: front.version,
        kind: front.kind,
        jsn: front.jsn,
        member: front.member,
        clue: clue.clue,
        clue_ord: clue.ordinal,
        clue_prev: clue.previous,
        a: own.a,
        b: own.b,
        link: own.link,
        content_len: parts.content_len,
        content_digest: parts.content_digest,
        who_digest: parts.who_digest,
    })
}

/// Version, kind, number and member.
#[tactic(auto, unfolding(crate::specs::Reading::front_at))]
fn take_front(reader: &mut FieldReader) -> Result<Front, Bad>
    ensures { ReadsFields result reader.new (reading.front_at reader.old) }
{
    let version = reader.take_u8()?;
    known_version(version)?;
    let code = reader.take_u8()?;
    let kind = known_kind(code)?;
    let jsn = reader.take_u64()?;
    check_field(jsn_ok(kind, jsn), 2)?;
    let member = reader.take_u32()?;
    check_field(member_ok(kind, member), 10)?;
    Ok(Front {
        version,
        kind,
        jsn,
        member,
    })
}

/// The clue, and the journal's place among its journals.
#[tactic(auto, unfolding(crate::specs::Reading::clue_at))]
fn take_clue(reader: &mut FieldReader, kind: Kind, jsn: u64) -> Result<ClueFields, Bad>
    ensures { ReadsFields result reader.new (reading.clue_at kind jsn reader.old) }
{
    let clue = reader.take_digest()?;
    check_field(clue_ok(kind, &clue), 14)?;
    let ordinal = reader.take_u32()?;
    check_field(clue_ord_ok(&clue, ordinal), 46)?;
    let previous = reader.take_u64()?;
    check_field(clue_prev_ok(jsn, ordinal, previous), 50)?;
    Ok(ClueFields {
        clue,
        ordinal,
        previous,
    })
}

/// What goes by the kind: two numbers and a link.
#[tactic(auto, unfolding(crate::specs::Reading::own_at))]
fn take_own(reader: &mut FieldReader, version: u8, kind: Kind, jsn: u64) -> Result<OwnFields, Bad>
    ensures { ReadsFields result reader.new (reading.own_at version kind jsn reader.old) }
{
    let a = reader.take_u64()?;
    check_field(a_ok(kind, jsn, a) && carries_a(version, kind, a), 58)?;
    let b = reader.take_u64()?;
    check_field(b_ok(kind, b), 66)?;
    let link = reader.take_digest()?;
    check_field(link_ok(kind, &link), 74)?;
    Ok(OwnFields { a, b, link })
}

/// The content's length, and the digests of content and who.
#[tactic(auto, unfolding(crate::specs::Reading::parts_at))]
fn take_parts(reader: &mut FieldReader, version: u8, kind: Kind) -> Result<Parts, Bad>
    ensures { ReadsFields result reader.new (reading.parts_at version kind reader.old) }
{
    let content_len = reader.take_u32()?;
    check_field(
        content_len_ok(kind, content_len) && carries_len(version, kind, content_len),
        106,
    )?;
    let content_digest = reader.take_digest()?;
    let who_digest = reader.take_digest()?;
    Ok(Parts {
        content_len,
        content_digest,
        who_digest,
    })
}

fn known_version(version: u8) -> Result<(), Bad>
    ensures { result ≡ reading.known_version version }
{
    if is_version(version) {
        Ok(())
    } else {
        Err(Bad::NewerFormat { found: version })
    }
}

fn kind_in(version: u8, kind: Kind, code: u8) -> Result<(), Bad>
    ensures { result ≡ reading.kind_in version kind code }
{
    if is_kind_in(version, kind) {
        Ok(())
    } else {
        Err(Bad::BadKind { found: code })
    }
}

fn known_kind(code: u8) -> Result<Kind, Bad>
    ensures { result ≡ reading.known_kind code }
{
    kind_of(code).ok_or(Bad::BadKind { found: code })
}

/// Reading a header is the inverse of spelling it: one that keeps every rule is read from its bytes, whatever
/// follows, and what is read keeps every rule and has these bytes.
pub fn is_inverse_of_encoding()
    ensures { ReadsBack reading.header_at spelling (λ h. IsHeader h × HasWidths h) }
{}
