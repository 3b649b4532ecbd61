//! A journal as it stands in a dump: writing and reading it.

ghost use Rattle.std.specs.Prelude.{◌≡◌, ◌≢◌, ◌≤◌, ◌<◌, ◌^◌, ◌++◌, ℕ, List, [], length, take, IfOk, OnOk, Ok, Err};
ghost use Rattle.ledger_bytes.specs.Fields.{ReadsFields, ReadsBack, IsBytes, left_from};
ghost use Rattle.journal_record.specs.Items as items;
ghost use Rattle.journal_record.specs.Items.{Item, IsItem, with_more, body_text, who_text, item_text, body_seen, body_result, who_result};

use crate::reading::take_header;
use crate::{Header, Kind, WHO_LIMIT};
use ledger_bytes::{Bad, Bytes, FieldReader, FieldWriter, NoMemory, check_field};
use std::alloc::Global;
use std::marker::Model;

// The state of a content that is there.
const WHOLE: u8 = 0;

// The state of a content that was erased.
const ERASED: u8 = 1;

// The place of the state, which stands behind the header.
const STATE_PLACE: u64 = 174;

// The place of what stands behind the state.
const CONTENT_PLACE: u64 = 175;

/// A journal's content in a dump. Its state, one byte, stands in front of it.
#[derive(Clone, Copy, Debug)]
pub enum Body<'a> {
    /// State 0: the content is there, and follows.
    Whole(&'a [u8]),
    /// State 1: the content was erased, and nothing of it follows.
    Erased,
}

/// A journal as it stands in a dump, lent from the dump's bytes. Its bytes are these parts, one after the other; numbers
/// are unsigned and big-endian, and lengths are in bytes:
///
/// | Offset | Length | Part |
/// |---|---|---|
/// | 0 | 174 | the header |
/// | 174 | 1 | the content's state: 0 where it is there, and 1 where it was erased, which only kind content allows |
/// | 175 | the header's `content_len`; 0 where it was erased | the content |
/// | behind the content | 4 | the length of the who, at most 1,050,112 |
/// | 4 behind that | that length | the who |
#[derive(Debug, Drop)]
pub struct Record<'a> {
    /// The header.
    pub header: Header,
    /// The content, where it is there.
    pub body: Body<'a>,
    /// The bytes that show who placed the journal, as [`who_bytes`](crate::who_bytes) makes them.
    pub who: &'a [u8],
}

impl<'a> Model for Record<'a> {
    ghost use Rattle.journal_record.specs.Items.{Item, body_seen};

    ghost Value = { Item };

    ghost view = { λ r. record { header = r.header; body = body_seen r.body; who = r.who.now } };
}

impl<'a> Record<'a> {
    /// Reads a journal from its bytes. The first break in the order of the bytes is told: the header's, as
    /// [`Header::decode`] tells them; `BadFixedField` at 174 for a state above 1, or for state 1 of another kind than
    /// content; `BadFixedField` at the length of the who where that is above 1,050,112; `Short` with the input's length
    /// where a part isn't whole; and at last `Trailing`.
    pub fn decode(bytes: &'a [u8]) -> Result<Record<'a>, Bad>
        // Which answer it is, and at a break which break and where.
        ensures exact { result ≡ items.item_of bytes.now }
        // What is read keeps every rule and is spelled so, each byte of it.
        ensures found { IfOk result (λ x. IsItem x × (bytes.now ≡ item_text x)) }
        // What keeps every rule and is spelled so is read.
        ensures only { (x : Item) → IsItem x → bytes.now ≡ item_text x → result ≡ Ok x }
        // What is left of a journal when its end is cut off is too short.
        ensures cut { (x : Item) (k : ℕ) → IsItem x → k < length (item_text x)
            → bytes.now ≡ take k (item_text x) → result ≡ Err (Bad.Short k) }
        // Bytes behind a journal are told by the place of the first.
        ensures trailing { (x : Item) (rest : List ℕ) → IsItem x → rest ≢ []
            → bytes.now ≡ item_text x ++ rest
            → result ≡ Err (Bad.Trailing (length (item_text x))) }
    {
        read(bytes)
    }

    /// The bytes of the journal in a dump. The only error is that memory is wanted.
    pub fn encode(&self, alloc: Global) -> Result<Bytes, NoMemory>
        requires { length self.now.who < 2 ^ 32 }
        ensures text { IfOk result (λ bytes. bytes ≡ item_text self.now) }
        // Where the journal keeps every rule its bytes are read as this journal.
        ensures again { IsItem self.now → IfOk result (λ bytes. items.item_of bytes ≡ Ok self.now) }
    {
        let mut writer = FieldWriter::new(alloc);
        writer.put_slice(&self.header.encode())?;
        put_body(&mut writer, &self.body)?;
        put_who(&mut writer, self.who)?;
        Ok(writer.finish())
    }
}

// The content behind its state.
fn put_body(writer: &mut FieldWriter, body: &Body) -> Result<(), NoMemory>
    ensures { OnOk result (writer.new ≡ writer.old ++ body_text (body_seen body.now)) }
{
    match body {
        Body::Whole(content) => {
            writer.put_u8(WHOLE)?;
            writer.put_slice(content)
        }
        Body::Erased => writer.put_u8(ERASED),
    }
}

// The who behind its length.
fn put_who(writer: &mut FieldWriter, who: &[u8]) -> Result<(), NoMemory>
    requires { length who.now < 2 ^ 32 }
    ensures { OnOk result (writer.new ≡ writer.old ++ who_text who.now) }
{
    writer.put_u32(who.len() as u32)?;
    writer.put_slice(who)
}

// The journal that all the bytes spell.
#[tactic(auto, unfolding(crate::specs::Items::item_of))]
fn read<'a>(bytes: &'a [u8]) -> Result<Record<'a>, Bad>
    ensures { result ≡ items.item_of bytes.now }
{
    let mut reader = FieldReader::new(bytes);
    let record = take_record(&mut reader)?;
    reader.end()?;
    Ok(record)
}

/// Takes the next journal of a dump, as [`Record::decode`] reads it. Places of fields count from the journal's first byte,
/// and `Short` has the length of the reader's whole input.
#[tactic(auto, unfolding(crate::specs::Items::item_at))]
pub fn take_record<'a>(reader: &mut FieldReader<'a>) -> Result<Record<'a>, Bad>
    ensures { ReadsFields result reader.new (items.item_at reader.old) }
{
    let header = take_header(reader)?;
    let body = take_body(reader, &header)?;
    let who = take_who(reader, who_place(&header, &body))?;
    Ok(Record { header, body, who })
}

// The place of the length of the who, counted from the journal's first byte.
fn who_place(header: &Header, body: &Body) -> u64
    ensures { result ≡ items.who_place header.now (body_seen body.now) }
{
    match body {
        Body::Whole(_) => CONTENT_PLACE + u64::from(header.content_len),
        Body::Erased => CONTENT_PLACE,
    }
}

// The content behind its state.
#[tactic(auto, unfolding(crate::specs::Items::body_at))]
fn take_body<'a>(reader: &mut FieldReader<'a>, header: &Header) -> Result<Body<'a>, Bad>
    ensures { ReadsFields (body_result result) reader.new (items.body_at header.now reader.old) }
{
    let state = reader.take_u8()?;
    check_field(state_ok(header, state), STATE_PLACE)?;
    if state == WHOLE {
        Ok(Body::Whole(reader.take_slice(header.content_len as usize)?))
    } else {
        Ok(Body::Erased)
    }
}

// State 0 is allowed for every kind, and state 1 for kind content.
fn state_ok(header: &Header, state: u8) -> bool
    ensures { result ≡ items.state_ok header.now state }
{
    state == WHOLE || (state == ERASED && header.kind == Kind::Content)
}

// The who behind its length, which stands at a place.
#[tactic(auto, unfolding(crate::specs::Items::who_at))]
fn take_who<'a>(reader: &mut FieldReader<'a>, at: u64) -> Result<&'a [u8], Bad>
    ensures { ReadsFields (who_result result) reader.new (items.who_at at reader.old) }
{
    let len = reader.take_u32()?;
    check_field(len <= WHO_LIMIT, at)?;
    reader.take_slice(len as usize)
}

/// Reading a journal of a dump is the inverse of spelling it: one that keeps every rule is read from its bytes, whatever
/// follows, and what is read keeps every rule and has these bytes. Where as many bytes are left as the longest journal
/// has, 2,098,867, neither what stands behind them nor the length of the whole input makes a difference.
pub fn is_inverse_of_dumping()
    ensures back { ReadsBack items.item_at item_text IsItem }
    ensures near { (whole longer : ℕ) (rest more : List ℕ) → IsBytes rest
        → items.most_bytes ≤ length rest
        → items.item_at (left_from longer (rest ++ more))
        ≡ with_more longer more (items.item_at (left_from whole rest)) }
{}
